// What initialisers store, and the rules that they break, C11 6.7.9p4, p11, p13 and p14.

ghost use Rattle.std.specs.Prelude.{◌≡◌, ◌&&◌, not, Option, IfOk};
ghost use Rattle.lt_tree.specs.Typing.Types.{struct_of};
ghost use Rattle.lt_tree.specs.Typing.TypeRows.{type_in};
ghost use Rattle.lt_tree.specs.Typing.Entities.{Known};
ghost use Rattle.lt_tree.specs.Typing.TypedTree as tree;
ghost use Rattle.lt_tree.specs.Typing.ConstancyView.{constancy_of};
ghost use Rattle.lt_tree.specs.Typing.StatementView.{start_part_of};
ghost use Rattle.lt_tree.specs.Typing.Rules.{broken_if, bad_initialiser};
ghost use Rattle.lt_tree.specs.Typing.Declaring.{length_faults};
ghost use Rattle.lt_tree.specs.Typing.Expressions as expressions;
ghost use Rattle.lt_tree.specs.Typing.Filling as typing;
ghost use Rattle.lt_table.specs.TableRows.{Stays};
ghost use Rattle.lt_table.specs.TypesValue.{Widens};
ghost use Rattle.lt_env.specs.Views.{typed_of, typed_in};
ghost use Rattle.lt_unit.specs.LeftParts.{Knows};

use crate::initialiser::letters::is_too_long;
use lt_table::Types;
use lt_tree::typed::{Constancy, Rule, StartPart, TypeId};
use lt_type::{Faults, Typed, constancy_to, converted_value, fits, only_unless};
use std::alloc::AllocError;

// ---- values

// Whether an object that is there from the start may hold it.
fn is_constant_content(content: Constancy) -> bool
    ensures { result ≡ typing.is_constant_content (constancy_of content) }
{
    !matches!(content, Constancy::Varying | Constancy::Faulty)
}

// Whether an object that is there from the start would not be constant.
fn varies(is_static: bool, content: Constancy) -> bool
    ensures { result ≡ (is_static && not (typing.is_constant_content (constancy_of content))) }
{
    is_static && !is_constant_content(content)
}

/// The struct that an expression is of, if it is of one.
pub fn own_struct(types: &Types, x: &Typed) -> Result<Option<u32>, AllocError>
    ensures { IfOk result (λ number. Stays types.now.rows (λ longer. number ≡ struct_of (expressions.own_type (typed_of longer x.now)))) }
{
    types.table().struct_of(x.own_type()).ok_or(AllocError)
}

/// The rules that a value breaks as the initialiser of a scalar or of a whole struct.
pub fn value_faults(
    types: &mut Types,
    is_static: bool,
    t: TypeId,
    x: &Typed,
) -> Result<Faults, AllocError>
    ensures widens { Widens types.old types.new }
    ensures made { IfOk result (λ faults. Stays types.new.rows (λ longer. (known : Known) → Knows known longer types.old → faults ≡ typing.value_faults known is_static (type_in longer t) (typed_of longer x.now))) }
{
    let bare = types.unqualified(t)?;
    let fits = fits(types, bare, x)?;
    let content = constancy_to(types, bare, x.constancy)?;
    let varies = varies(is_static, content);
    let mut faults = only_unless(types.alloc(), fits, Rule::BadAssignment)?;
    faults.broken_if(Rule::BadInitialiser, varies)?;
    Ok(faults)
}

// What an object that is there from the start holds.
fn fixed_part(
    types: &mut Types,
    offset: u64,
    ty: TypeId,
    x: Box<Typed>,
) -> Result<StartPart, AllocError>
    ensures widens { Widens types.old types.new }
    ensures made { IfOk result (λ part. Stays types.new.rows (λ longer. (known : Known) → Knows known longer types.old → start_part_of longer part ≡ tree.fixed offset (type_in longer ty) (expressions.constancy_to known.model (type_in longer ty) (typed_in longer x).constancy))) }
{
    let content = constancy_to(types, ty, x.constancy)?;
    Ok(StartPart::Fixed {
        offset,
        ty,
        content,
    })
}

// What is stored in an object.
fn stored_part(
    types: &mut Types,
    offset: u64,
    ty: TypeId,
    x: Box<Typed>,
) -> Result<StartPart, AllocError>
    ensures widens { Widens types.old types.new }
    ensures made { IfOk result (λ part. Stays types.new.rows (λ longer. start_part_of longer part ≡ tree.stored offset (expressions.converted_to (type_in longer ty) (expressions.value_in (typed_in longer x))))) }
{
    let value = converted_value(types, ty, x)?;
    Ok(StartPart::Stored { offset, value })
}

/// The part that a value initialises.
pub fn value_part(
    types: &mut Types,
    is_static: bool,
    offset: u64,
    t: TypeId,
    x: Box<Typed>,
) -> Result<StartPart, AllocError>
    ensures widens { Widens types.old types.new }
    ensures made { IfOk result (λ part. Stays types.new.rows (λ longer. (known : Known) → Knows known longer types.old → start_part_of longer part ≡ typing.value_part known is_static offset (type_in longer t) (typed_in longer x))) }
{
    let Some(bare) = types.table().unqualified(t) else {
        return Err(AllocError);
    };
    if is_static {
        fixed_part(types, offset, bare, x)
    } else {
        stored_part(types, offset, bare, x)
    }
}

/// The rules that a string literal breaks as the initialiser of an array of characters.
pub fn text_faults(types: &Types, t: TypeId, bytes: &[u8]) -> Result<Faults, AllocError>
    ensures { IfOk result (λ faults. Stays types.now.rows (λ longer. faults ≡ broken_if bad_initialiser (typing.is_too_long_for (type_in longer t) bytes.now))) }
{
    let too_long = is_too_long(types, t, bytes)?;
    let mut faults = Faults::new(types.alloc());
    faults.broken_if(Rule::BadInitialiser, too_long)?;
    Ok(faults)
}

// ---- whole objects

/// The rule that a type breaks which has more cells than an object may have.
pub fn length_faults(types: &Types, t: TypeId) -> Result<Faults, AllocError>
    ensures { IfOk result (λ faults. Stays types.now.rows (λ longer. (known : Known) → Knows known longer types.now → faults ≡ length_faults known (type_in longer t))) }
{
    let is_too_large = types.has_too_many_cells(t).ok_or(AllocError)?;
    let mut faults = Faults::new(types.alloc());
    faults.broken_if(Rule::BadLength, is_too_large)?;
    Ok(faults)
}
