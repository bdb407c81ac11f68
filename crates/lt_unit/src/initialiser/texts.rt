// String literals that initialise arrays of characters, C11 6.7.9p14.

ghost use Rattle.lt_tree.specs.Typing.InitialiserTyping as typing;
ghost use Rattle.lt_env.specs.Going.{Gives, done};

use crate::initialiser::values::length_faults;
use lt_tree::typed::{Constancy, Fact};
use lt_type::{TypeStop, Walker, text_type};

/// Goes over a string literal that initialises an array of characters: no object is made of it.
pub fn literal_alone(walker: &mut Walker, bytes: &[u8]) -> Result<(), TypeStop>
    ensures { Gives done walker.old walker.new result (λ types. typing.literal_alone bytes.now) }
{
    let node = walker.enter()?;
    let ty = text_type(&mut walker.types, bytes)?;
    let faults = length_faults(&walker.types, ty)?;
    walker.settle(node, &faults)?;
    walker.note(Fact {
        node,
        ty,
        is_place: true,
        constancy: Constancy::Varying,
        object: None,
    })
}
