// The specifiers of a declaration, as they are found one after the other.

ghost use Rattle.std.specs.Prelude.{◌≡◌, ◌||◌, IfOk, option_map};
ghost use Rattle.lt_tree.specs.Records.{specifiers_of};
ghost use Rattle.lt_expr.specs.Specifier as spec;
ghost use Rattle.lt_expr.specs.Fronts.{found_before};
ghost use Rattle.lt_expr.specs.FoundView.{specifier_of, found_of};

use crate::operators::{storage_of, type_word_of};
use crate::type_words::named_together;
use lt_model::Quals;
use lt_tree::{Specifiers, Storage, Terminal, TypeSpecifier};
use std::alloc::{AllocError, Global};

#[derive(Drop)]
pub(crate) enum Specifier {
    Storage(Storage),
    Inline,
    Noreturn,
    Const,
    Volatile,
    Type(TypeSpecifier),
}

impl Specifier {
    pub(crate) fn names_type(&self) -> bool
        ensures { result ≡ spec.names_type (specifier_of self.now) }
    {
        match self {
            Specifier::Type(_) => true,
            Specifier::Storage(_)
            | Specifier::Inline
            | Specifier::Noreturn
            | Specifier::Const
            | Specifier::Volatile => false,
        }
    }
}

impl Specifier {
    /// Whether a type is named behind this one, where one was named before or wasn't.
    pub(crate) fn leaves_typed(&self, typed: bool) -> bool
        ensures { result ≡ (typed || spec.names_type (specifier_of self.now)) }
    {
        typed || self.names_type()
    }
}

pub(crate) fn none_found(alloc: Global) -> Specifiers
    ensures { found_of result ≡ spec.none_found }
{
    Specifiers {
        storage: Vec::new(alloc),
        inline: false,
        noreturn: false,
        quals: Quals {
            constant: false,
            volatile: false,
        },
        types: Vec::new(alloc),
    }
}

/// One more specifier behind others.
#[tactic(auto, using(crate::proofs::FoundJoins::types_push))]
pub(crate) fn with_specifier(
    mut found: Specifiers,
    specifier: Specifier,
) -> Result<Specifiers, AllocError>
    ensures { IfOk result (λ all. (rest : spec.Found) → found_before (found_of all) rest ≡ found_before (found_of found) (spec.with_specifier (specifier_of specifier) rest)) }
{
    match specifier {
        Specifier::Storage(class) => {
            found.storage.push(class)?;
            Ok(found)
        }
        Specifier::Inline => {
            found.inline = true;
            Ok(found)
        }
        Specifier::Noreturn => {
            found.noreturn = true;
            Ok(found)
        }
        Specifier::Const => {
            found.quals.constant = true;
            Ok(found)
        }
        Specifier::Volatile => {
            found.quals.volatile = true;
            Ok(found)
        }
        Specifier::Type(kind) => {
            found.types.push(kind)?;
            Ok(found)
        }
    }
}

/// The specifiers as a tree holds them.
pub(crate) fn gathered(alloc: Global, found: Specifiers) -> Result<Specifiers, AllocError>
    ensures { IfOk result (λ all. specifiers_of all ≡ spec.specifiers_of (found_of found)) }
{
    match named_together(alloc, found.types.as_slice())? {
        None => {
            let mut found = found;
            found.types.shrink_to_fit();
            Ok(found)
        }
        Some(basic) => {
            let Specifiers {
                storage,
                inline,
                noreturn,
                quals,
                types: _,
            } = found;
            let mut types = Vec::with_capacity(alloc, 1)?;
            types.push(TypeSpecifier::Basic(basic))?;
            Ok(Specifiers {
                storage,
                inline,
                noreturn,
                quals,
                types,
            })
        }
    }
}

/// The specifier that a word is.
pub(crate) fn word_specifier(terminal: Terminal) -> Option<Specifier>
    ensures { option_map specifier_of result ≡ spec.word_specifier terminal }
{
    match terminal {
        Terminal::Inline => Some(Specifier::Inline),
        Terminal::Noreturn => Some(Specifier::Noreturn),
        Terminal::Const => Some(Specifier::Const),
        Terminal::Volatile => Some(Specifier::Volatile),
        _ => match storage_of(terminal) {
            Some(class) => Some(Specifier::Storage(class)),
            None => match type_word_of(terminal) {
                Some(word) => Some(Specifier::Type(TypeSpecifier::Word(word))),
                None => None,
            },
        },
    }
}
