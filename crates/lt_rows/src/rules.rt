//! The rule of typing that a unit breaks first.

use crate::stop::Stop;
use crate::units::parsed;
use crate::words::Words;
use lt_decl::Parsed;
use lt_model::DataModel;
use lt_type::TypeStop;
use lt_unit::elaborate;
use std::alloc::Global;

/// The number of the rule, 0 where none is broken; where its place is asked, also the first byte of the node at which it is broken.
pub fn rule(
    alloc: Global,
    text: &[u8],
    model: DataModel,
    with_place: bool,
) -> Result<Vec<u8>, Stop> {
    let Parsed { unit, spots } = parsed(alloc, text)?;
    let mut words = Words::new(alloc);
    match elaborate(alloc, &unit, model) {
        Ok(_) => words.push_number(0)?,
        Err(TypeStop::Broken(rule, node)) => {
            words.push_number(i128::from(rule.number()))?;
            if with_place {
                words.push_text("at")?;
                words.push_number(i128::from(*spots.get(node as usize).ok_or(Stop::NoSuchNode)?))?;
            }
        }
        Err(TypeStop::NoMemory) => return Err(Stop::NoMemory),
    }
    Ok(words.into_bytes())
}
