// Initialisers as they are written.

ghost use Rattle.std.specs.Prelude.{◌≡◌, option_map};
ghost use Rattle.lt_tree.specs.View.{expression_of};
ghost use Rattle.lt_tree.specs.UnitView.{initialisers_in};
ghost use Rattle.lt_tree.specs.Typing.Filling as filling;

use lt_tree::{Expr, Initialiser};

/// The bytes of a string literal.
pub fn text_in(e: &Expr) -> Option<&[u8]>
    ensures { option_map (λ bytes. bytes.now) result ≡ filling.text_in (expression_of e.now) }
{
    match e {
        Expr::Text(bytes) => Some(bytes.as_slice()),
        _ => None,
    }
}

/// The bytes of a string literal that is alone in a list.
pub fn only_text(list: &[Initialiser]) -> Option<&[u8]>
    ensures { option_map (λ bytes. bytes.now) result ≡ filling.only_text (initialisers_in list.now) }
{
    let (first, rest) = list.split_first()?;
    if !rest.is_empty() {
        return None;
    }
    match first {
        Initialiser::Expression(e) => text_in(e),
        Initialiser::List(_) => None,
    }
}

/// Whether a list begins with a list in braces.
pub fn begins_with_braces(list: &[Initialiser]) -> bool
    ensures { result ≡ filling.begins_with_braces (initialisers_in list.now) }
{
    matches!(list.first(), Some(Initialiser::List(_)))
}
