// What declarators declare: type names, functions and objects, C11 6.2.2 and 6.2.4.

ghost use Rattle.std.specs.Prelude.{◌≡◌, ◌<◌, ◌↔◌, ◌&&◌, ◌||◌, not, length, List, IfSome, IsSome, if◌then◌else◌};
ghost use Rattle.lt_tree.specs.declared.specifier.Storage.TheVariants as storage;
ghost use Rattle.lt_tree.specs.Typing.Types.{CType};
ghost use Rattle.lt_tree.specs.Typing.TypeRows.{type_in};
ghost use Rattle.lt_tree.specs.Typing.EntityView as view;
ghost use Rattle.lt_tree.specs.Typing.Entities as entities;
ghost use Rattle.lt_tree.specs.Typing.Specifying as specifying;
ghost use Rattle.lt_tree.specs.Typing.Declaring as typing;
ghost use Rattle.lt_table.specs.TableRows.{Stays};
ghost use Rattle.lt_env.specs.Going.{known_of};
ghost use Rattle.lt_declare.specs.DeclaredKinds.{kind_in};

use lt_env::Walker;
use lt_tree::Storage;
use lt_tree::typed::{Life, TypeId};

/// What a declarator declares.
#[derive(Clone, Copy, PartialEq, Eq, Debug)]
pub enum DeclaredKind {
    TypeName,
    Function,
    Object { life: Life, is_register: bool },
}

/// What a declarator of this type declares, behind specifiers with this storage class. None for an id of no row.
pub fn kind_of(walker: &Walker, class: Option<Storage>, t: TypeId) -> Option<DeclaredKind>
    ensures row { IsSome result ↔ (t.place < length walker.now.types.rows) }
    ensures kind { IfSome result (λ kind. Stays walker.now.types.rows (λ types. kind_in kind ≡ typing.kind_of (known_of types walker.now) class (type_in types t))) }
{
    let is_function = walker.types.table().is_function(t)?;
    let is_typedef = is_class(Storage::Typedef, class);
    let life = life_of(walker, class);
    let is_register = is_register(walker, class);
    Some(kind(is_typedef, is_function, life, is_register))
}

fn kind(is_typedef: bool, is_function: bool, life: Life, is_register: bool) -> DeclaredKind
    ensures { kind_in result ≡ (if is_typedef then typing.a_type_name else (if is_function then typing.a_function_name else typing.an_object_of (view.life_of life) is_register)) }
{
    if is_typedef {
        DeclaredKind::TypeName
    } else if is_function {
        DeclaredKind::Function
    } else {
        DeclaredKind::Object { life, is_register }
    }
}

/// Whether this storage class is given.
pub fn is_class(class: Storage, given: Option<Storage>) -> bool
    ensures { result ≡ specifying.is_class class given }
{
    match given {
        Some(other) => class == other,
        None => false,
    }
}

fn is_file_scope(walker: &Walker) -> bool
    ensures { (types : List CType) → result ≡ entities.is_file_scope (known_of types walker.now) }
{
    walker.names.depth() == 1
}

fn is_register(walker: &Walker, class: Option<Storage>) -> bool
    ensures { (types : List CType) → result ≡ (not (entities.is_file_scope (known_of types walker.now)) && specifying.is_class (storage.Register) class) }
{
    !is_file_scope(walker) && is_class(Storage::Register, class)
}

fn life_of(walker: &Walker, class: Option<Storage>) -> Life
    ensures { (types : List CType) → view.life_of result ≡ typing.life_of (known_of types walker.now) class }
{
    let is_static = is_class(Storage::Static, class);
    life(has_linkage(walker, class), is_static)
}

fn has_linkage(walker: &Walker, class: Option<Storage>) -> bool
    ensures { (types : List CType) → result ≡ (entities.is_file_scope (known_of types walker.now) || specifying.is_class (storage.Extern) class) }
{
    is_file_scope(walker) || is_class(Storage::Extern, class)
}

fn life(is_linked: bool, is_static: bool) -> Life
    ensures { view.life_of result ≡ (if is_linked then entities.linked else (if is_static then entities.local_static else entities.automatic)) }
{
    if is_linked {
        Life::Linked
    } else if is_static {
        Life::LocalStatic
    } else {
        Life::Automatic
    }
}
