//! The merge of a new coverage with the old one.

ghost use Rattle.ltest.specs.Stages.{GivesMerge};

use crate::stops::TextStop;
use lt_answers::Refusal;
use lt_cover::{Coverage, MergeStop};
use lt_merge::merge;
use std::alloc::Global;

/// The new coverage, merged with the old one where there is one, or the first on which they don't agree.
pub fn merged(alloc: Global, new: Coverage, old: Option<Coverage>) -> Result<Coverage, TextStop>
    ensures { GivesMerge new old result }
{
    let Some(old) = old else {
        return Ok(new);
    };
    match merge(alloc, &new, &old) {
        Ok(coverage) => Ok(coverage),
        Err(MergeStop::Label(id)) => Err(TextStop::Refused(Refusal::Mixed(id))),
        Err(MergeStop::Hyper(id)) => Err(TextStop::Refused(Refusal::MixedHyper(id))),
        Err(MergeStop::Test(name)) => Err(TextStop::Refused(Refusal::MixedTest(name))),
        Err(MergeStop::NoMemory) => Err(TextStop::NoMemory),
    }
}
