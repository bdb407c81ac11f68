//! The forms of names, tags and identifiers.

ghost use Rattle.std.specs.Prelude.{◌≡◌, ◌↔◌, IsTrue};
ghost use Rattle.lt_model.specs.Plain.{is_plain_byte};
ghost use Rattle.lt_cover.specs.Coverage.Names.{is_name_byte, IsTestName, IsIdentifier, IsTag};

use lt_token::is_no_identifier;

fn is_name_byte(b: u8) -> bool
    ensures { result ≡ is_name_byte b }
{
    b.is_ascii_alphanumeric() || b == b'_'
}

fn is_plain_byte(b: u8) -> bool
    ensures { result ≡ is_plain_byte b }
{
    is_name_byte(b) || b == b'.' || b == b':' || b == b'-'
}

/// Whether the word may name a test.
pub fn is_test_name(name: &[u8]) -> bool
    ensures { IsTrue result ↔ IsTestName name.now }
{
    1 <= name.len() && name.len() <= 64 && name.iter().all(|b| is_name_byte(*b))
}

/// Whether the word may be a tag.
pub fn is_tag(tag: &[u8]) -> bool
    ensures { IsTrue result ↔ IsTag tag.now }
{
    1 <= tag.len() && tag.len() <= 32 && tag.iter().all(|b| is_plain_byte(*b))
}

/// Whether the word is an identifier.
pub fn is_identifier(name: &[u8]) -> bool
    ensures { IsTrue result ↔ IsIdentifier name.now }
{
    1 <= name.len()
        && !name[0].is_ascii_digit()
        && name.iter().all(|b| is_name_byte(*b))
        && !is_no_identifier(name)
}
