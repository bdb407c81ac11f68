ghost use Rattle.std.specs.Prelude.{◌<◌, ◌≤◌, length};
ghost use Rattle.lt_address.specs.Targets.{IsAscending};
ghost use Rattle.lt_address.specs.Seeking.{IsSought, BeginsWith, IsFirstBlock};

use crate::target::Target;
use lt_value::Num;

/// The offsets in a block, and the targets of greater blocks.
pub(crate) fn seek(targets: &[Target], block: u32) -> (Option<Num>, &[Target])
    requires { IsAscending targets.now }
    ensures found { IsSought targets.now block result.0 result.1.now }
    ensures no_longer { length result.1.now ≤ length targets.now }
    ensures shorter { BeginsWith targets.now block → length result.1.now < length targets.now }
{
    let mut rest = targets;
    'targets: while let Some((target, more)) = rest.split_first() {
        if target.block == block {
            return (Some(target.at), more);
        }
        if block < target.block {
            return (None, rest);
        }
        rest = more;
    }
    (None, rest)
}

/// The lesser of the blocks with which two lists begin.
pub(crate) fn first_block(left: &[Target], right: &[Target]) -> Option<u32>
    ensures { IsFirstBlock left.now right.now result }
{
    match (left.first(), right.first()) {
        (None, None) => None,
        (None, Some(t)) => Some(t.block),
        (Some(s), None) => Some(s.block),
        (Some(s), Some(t)) => Some(s.block.min(t.block)),
    }
}
