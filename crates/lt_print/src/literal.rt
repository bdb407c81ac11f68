// String literals, C11 6.4.5.

ghost use Rattle.std.specs.Prelude.{◌≡◌, ◌++◌, ◌∷◌, [], OnOk};
ghost use Rattle.std.specs.List.{flat_map};
ghost use Rattle.lt_tree.specs.Pieces.{text_of, quoted_byte};
ghost use Rattle.lt_tree.specs.Canon as spec;

use crate::text::put;
use lt_model::Name;
use std::alloc::AllocError;

/// A byte as it is written between quotes.
fn put_quoted_byte(out: &mut Vec<u8>, byte: u8) -> Result<(), AllocError>
    ensures { OnOk result (out.new.items ≡ out.old.items ++ quoted_byte byte) }
{
    if byte == b'\n' {
        put(out, b"\\n")
    } else if byte == b'\t' {
        put(out, b"\\t")
    } else if byte == b'"' || byte == b'\\' {
        put(out, &[b'\\', byte])
    } else if 32 <= byte && byte <= 126 {
        put(out, &[byte])
    } else {
        put(
            out,
            &[
                b'\\',
                b'0' + byte / 64 % 8,
                b'0' + byte / 8 % 8,
                b'0' + byte % 8,
            ],
        )
    }
}

fn put_quoted_bytes(out: &mut Vec<u8>, bytes: &[u8]) -> Result<(), AllocError>
    ensures { OnOk result (out.new.items ≡ out.old.items ++ flat_map quoted_byte bytes.now) }
{
    for byte in bytes {
        put_quoted_byte(out, *byte)?;
    }
    Ok(())
}

/// One literal of these bytes.
#[tactic(auto, unfolding(lt_tree::specs::Pieces::text_of), using(crate::proofs::Texts::texts))]
pub fn put_literal(out: &mut Vec<u8>, bytes: &Name) -> Result<(), AllocError>
    ensures { OnOk result (out.new.items ≡ out.old.items ++ text_of (spec.literal bytes.now ∷ [])) }
{
    put(out, b"\"")?;
    put_quoted_bytes(out, bytes.as_slice())?;
    put(out, b"\"")
}
