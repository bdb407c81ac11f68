// Pieces of a text put behind what is written.

ghost use Rattle.std.specs.Prelude.{◌≡◌, suc, ◌++◌, ◌∷◌, [], if◌then◌else◌, IfOk, OnOk};
ghost use Rattle.lt_tree.specs.Pieces.{text_of, gap, indent, line_end};
ghost use Rattle.lt_tree.specs.Canon as spec;

use crate::spelling::spelling;
use lt_model::Name;
use lt_tree::Terminal;
use std::alloc::AllocError;

pub fn put(out: &mut Vec<u8>, bytes: &[u8]) -> Result<(), AllocError>
    ensures { OnOk result (out.new.items ≡ out.old.items ++ bytes.now) }
{
    out.extend_from_slice(bytes)
}

/// A keyword or a punctuator.
#[tactic(auto, unfolding(lt_tree::specs::Pieces::text_of), using(crate::proofs::Texts::texts))]
pub fn put_sign(out: &mut Vec<u8>, word: Terminal) -> Result<(), AllocError>
    ensures { OnOk result (out.new.items ≡ out.old.items ++ text_of (spec.sign word ∷ [])) }
{
    put(out, spelling(word))
}

/// A keyword or a punctuator, if it is asked for.
#[tactic(auto, unfolding(lt_tree::specs::Pieces::text_of), using(crate::proofs::Texts::texts))]
pub fn put_sign_if(out: &mut Vec<u8>, asked: bool, word: Terminal) -> Result<(), AllocError>
    ensures { OnOk result (out.new.items ≡ out.old.items ++ text_of (spec.word_if asked word)) }
{
    if asked { put_sign(out, word) } else { Ok(()) }
}

#[tactic(auto, unfolding(lt_tree::specs::Pieces::text_of), using(crate::proofs::Texts::texts))]
pub fn put_name(out: &mut Vec<u8>, name: &Name) -> Result<(), AllocError>
    ensures { OnOk result (out.new.items ≡ out.old.items ++ text_of (spec.name name.now ∷ [])) }
{
    put(out, name.as_slice())
}

/// A constant, as written.
#[tactic(auto, unfolding(lt_tree::specs::Pieces::text_of), using(crate::proofs::Texts::texts))]
pub fn put_constant(out: &mut Vec<u8>, constant: &Name) -> Result<(), AllocError>
    ensures { OnOk result (out.new.items ≡ out.old.items ++ text_of (spec.constant constant.now ∷ [])) }
{
    put(out, constant.as_slice())
}

/// One space, if it is asked for.
#[tactic(auto, unfolding(lt_tree::specs::Pieces::text_of), using(crate::proofs::Texts::texts))]
pub fn put_gap_if(out: &mut Vec<u8>, asked: bool) -> Result<(), AllocError>
    ensures { OnOk result (out.new.items ≡ out.old.items ++ text_of (spec.gap_if asked)) }
{
    if asked { put(out, b" ") } else { Ok(()) }
}

#[tactic(auto, unfolding(lt_tree::specs::Pieces::text_of), using(crate::proofs::Texts::texts))]
pub fn put_gap(out: &mut Vec<u8>) -> Result<(), AllocError>
    ensures { OnOk result (out.new.items ≡ out.old.items ++ text_of (gap ∷ [])) }
{
    put(out, b" ")
}

#[tactic(auto, unfolding(lt_tree::specs::Pieces::text_of), using(crate::proofs::Texts::texts))]
pub fn end_line(out: &mut Vec<u8>) -> Result<(), AllocError>
    ensures { OnOk result (out.new.items ≡ out.old.items ++ text_of (line_end ∷ [])) }
{
    put(out, b"\n")
}

/// The spaces at the start of a line.
#[tactic(auto, unfolding(lt_tree::specs::Pieces::text_of), using(crate::proofs::Texts::texts))]
pub fn put_indent(out: &mut Vec<u8>, level: usize) -> Result<(), AllocError>
    ensures { OnOk result (out.new.items ≡ out.old.items ++ text_of (indent level ∷ [])) }
{
    for done in 0..level {
        put(out, b"  ")?;
    }
    Ok(())
}

/// One level deeper. A line so far to the right that its level can't be counted has no room in memory either.
pub fn deeper(level: usize) -> Result<usize, AllocError>
    ensures { IfOk result (λ next. next ≡ suc level) }
{
    level.checked_add(1).ok_or(AllocError)
}

/// An operator with a space on both sides.
#[tactic(auto, unfolding(lt_tree::specs::Pieces::text_of), using(crate::proofs::Texts::texts))]
pub fn put_spaced(out: &mut Vec<u8>, word: Terminal) -> Result<(), AllocError>
    ensures { OnOk result (out.new.items ≡ out.old.items ++ text_of (spec.spaced word)) }
{
    put_gap(out)?;
    put_sign(out, word)?;
    put_gap(out)
}

/// A comma and a space.
#[tactic(auto, unfolding(lt_tree::specs::Pieces::text_of), using(crate::proofs::Texts::texts))]
pub fn put_comma(out: &mut Vec<u8>) -> Result<(), AllocError>
    ensures { OnOk result (out.new.items ≡ out.old.items ++ text_of spec.comma_gap) }
{
    put_sign(out, Terminal::Comma)?;
    put_gap(out)
}

/// A comma and a space, unless nothing stands before.
#[tactic(auto, unfolding(lt_tree::specs::Pieces::text_of), using(crate::proofs::Texts::texts))]
pub fn put_comma_unless(out: &mut Vec<u8>, first: bool) -> Result<(), AllocError>
    ensures { OnOk result (out.new.items ≡ out.old.items ++ text_of (if first then [] else spec.comma_gap)) }
{
    if first { Ok(()) } else { put_comma(out) }
}
