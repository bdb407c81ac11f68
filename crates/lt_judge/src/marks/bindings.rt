// The names that marks bind, and the expressions whose values they get.

ghost use Rattle.std.specs.Prelude.{◌≡◌, ◌&&◌, not, List, IfOk};
ghost use Rattle.std.specs.List.{list_all};
ghost use Rattle.lt_tree.specs.View.{expression_of};
ghost use Rattle.lt_tree.specs.Typing.Types.{CType};
ghost use Rattle.lt_tree.specs.Typing.ValueView.{bindings_in};
ghost use Rattle.lt_tree.specs.Typing.Operations as operations;
ghost use Rattle.lt_tree.specs.Typing.MarkRules as marks;
ghost use Rattle.lt_table.specs.TableRows.{Stays};
ghost use Rattle.lt_table.specs.TypesValue.{Widens};
ghost use Rattle.lt_env.specs.Going.{known_of};
ghost use Rattle.lt_env.specs.Views.{typed_of, bindings_with};

use crate::shared::is_integer;
use lt_env::values::value_in;
use lt_env::{NameSet, Typed, Walker};
use lt_model::Name;
use lt_table::Types;
use lt_tree::{Binding, is_pure, typed};
use std::alloc::{AllocError, Global};

fn is_good_binding(types: &Types, binding: &Binding, value: &Typed) -> Result<bool, AllocError>
    ensures { IfOk result (λ b. Stays types.now.rows (λ longer. b ≡ marks.is_good_binding (record { name = binding.now.name; written = expression_of binding.now.value; typed = typed_of longer value.now }))) }
{
    let integer = is_integer(types, value)?;
    let pure = is_pure(&binding.value);
    Ok(integer && pure)
}

/// Whether each is pure and an integer.
pub(super) fn are_good_bindings(
    types: &Types,
    bound: &[Binding],
    values: &[Box<Typed>],
) -> Result<bool, AllocError>
    ensures { IfOk result (λ b. Stays types.now.rows (λ longer. b ≡ list_all marks.is_good_binding (bindings_with longer bound.now values.now))) }
{
    let mut good = true;
    'bound: for (binding, value) in bound.iter().zip(values.iter()) {
        good &= is_good_binding(types, binding, value)?;
    }
    Ok(good)
}

/// The names.
pub(super) fn names_of(
    alloc: Global,
    bound: &[Binding],
    values: &[Box<Typed>],
) -> Result<Vec<Name>, AllocError>
    ensures { IfOk result (λ names. (types : List CType) → names.items ≡ marks.names_of (bindings_with types bound.now values.now)) }
{
    let mut names = Vec::new(alloc);
    'bound: for (binding, _value) in bound.iter().zip(values.iter()) {
        let name = Name::new(alloc, binding.name.as_slice())?;
        names.push(name)?;
    }
    Ok(names)
}

/// Whether no mark before binds one of these names, and each stands once.
pub(super) fn are_new_names(walker: &Walker, names: &[Name]) -> Result<bool, AllocError>
    ensures { IfOk result (λ b. (types : List CType) → b ≡ marks.are_new_names (known_of types walker.now) names.now) }
{
    let alloc = walker.types.alloc();
    let mut later = NameSet::new(alloc);
    let mut new = true;
    let mut left = names.len();
    'names: while 0 < left {
        left -= 1;
        let name = names[left].as_slice();
        new = is_new_name(walker, &later, name, new);
        later.add(Name::new(alloc, name)?)?;
    }
    Ok(new)
}

// Whether a name is new and not one of these, and this holds too.
fn is_new_name(walker: &Walker, later: &NameSet, name: &[u8], others: bool) -> bool
    ensures { (types : List CType) → result ≡ (marks.is_new_name (known_of types walker.now) name.now && not (operations.is_among name.now later.now) && others) }
{
    let bound = walker.labels.has_name(name);
    let again = later.has(name);
    !bound && !again && others
}

/// The bindings as a mark holds them.
pub(super) fn bindings_of(
    types: &mut Types,
    bound: &[Binding],
    values: Vec<Box<Typed>>,
) -> Result<Vec<typed::Binding>, AllocError>
    ensures widens { Widens types.old types.new }
    ensures made { IfOk result (λ made. Stays types.new.rows (λ longer. bindings_in longer made.items ≡ marks.bindings_of (bindings_with longer bound.now values.items))) }
{
    let alloc = types.alloc();
    let mut made = Vec::new(alloc);
    'bound: for (binding, value) in bound.iter().zip(values) {
        let name = Name::new(alloc, binding.name.as_slice())?;
        let value = value_in(types, value)?;
        made.push(typed::Binding { name, value })?;
    }
    Ok(made)
}
