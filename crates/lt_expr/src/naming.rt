ghost use Rattle.std.specs.Prelude.{◌≡◌};
ghost use Rattle.lt_tree.specs.Ahead as ahead;
ghost use Rattle.lt_tree.specs.Grammar as grammar;
ghost use Rattle.lt_tree.specs.Records.{specifiers_of, parts_in};
ghost use Rattle.lt_expr.specs.Namings.{naming_of};

use lt_tree::{Declarator, Specifiers};

/// Whether a declarator has to have a name, has none, or may have one.
#[derive(Clone, Copy, Debug)]
pub enum Naming {
    Named,
    /// It has to have a name, and stands directly behind specifiers that name no type.
    Untyped,
    Nameless,
    Either,
}

impl Naming {
    pub(crate) fn takes_none(self) -> bool
        ensures { result ≡ ahead.takes_none (naming_of self) }
    {
        match self {
            Naming::Named | Naming::Untyped => false,
            Naming::Nameless | Naming::Either => true,
        }
    }

    // Behind `*` a typedef name is no specifier any more.
    pub(crate) fn behind_star(self) -> Naming
        ensures { naming_of result ≡ ahead.behind_star (naming_of self) }
    {
        match self {
            Naming::Named | Naming::Untyped => Naming::Named,
            Naming::Nameless => Naming::Nameless,
            Naming::Either => Naming::Either,
        }
    }
}

/// The naming of the first declarator behind these specifiers.
pub fn naming_behind(specifiers: &Specifiers) -> Naming
    ensures { naming_of result ≡ ahead.naming_behind (specifiers_of specifiers.now) }
{
    match specifiers.types.as_slice().split_first() {
        None => Naming::Untyped,
        Some((_, _)) => Naming::Named,
    }
}

/// A declarator that has neither name nor parts is none.
#[tactic(auto, using(crate::proofs::Missing::has_parts))]
pub(crate) fn is_missing(declarator: &Declarator) -> bool
    ensures { result ≡ grammar.is_missing declarator.now.name (parts_in declarator.now.parts.items) }
{
    match &declarator.name {
        Some(_) => false,
        None => match declarator.parts.as_slice().split_first() {
            None => true,
            Some((_, _)) => false,
        },
    }
}
