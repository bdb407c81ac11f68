// Pure expressions made of their parts.

ghost use Rattle.std.specs.Prelude.{◌≡◌, IfOk};
ghost use Rattle.lt_ir.specs.Pure as p;
ghost use Rattle.lt_ir.specs.PureView.{pure_of};
ghost use Rattle.lt_ir.specs.Evaluation.{of_truth};
ghost use Rattle.lt_model.specs.declared.operator.Op.TheVariants as O;
ghost use Rattle.lt_tree.specs.Typing.TypeRows.{type_in};
ghost use Rattle.lt_tree.specs.Typing.ValueView.{conversion_of, side_of};
ghost use Rattle.lt_meaning.specs.Expressions.{all_ones, scalar_in};
ghost use Rattle.lt_model.specs.declared.cell.Content.TheVariants as content;
ghost use Rattle.std.specs.Prelude.{pos};
ghost use Rattle.lt_code.specs.Predicates.{converts, moving, connects, truth_value};
ghost use Rattle.lt_tables.specs.Views.{types_at, program_at};
ghost use Rattle.lt_tree.specs.Typing.TypedTree as e;
ghost use Rattle.lt_tree.specs.Typing.Types.{Void};

use lt_ir::{How, Pure};
use lt_model::{Content, Op, Scalar, convert};
use lt_tables::Tables;
use lt_tree::LogicalOp;
use lt_tree::typed::{Conversion, Side, TypeId};
use std::alloc::{AllocError, Global};

/// A content that is 1 or 0.
pub fn truth(holds: bool) -> Pure
    ensures { pure_of result ≡ p.Fixed (of_truth holds) }
{
    Pure::Fixed(Content::Number(if holds { 1 } else { 0 }))
}

/// The number of a type whose bits are all 1.
pub fn all_ones(tables: &Tables, ty: TypeId) -> Content
    ensures { result ≡ all_ones (program_at tables.now) (type_in (types_at tables.now) ty) }
{
    let to = tables.scalar(ty);
    Content::Number(convert(tables.program.model, Scalar::Int, to, -1))
}

/// `-a`.
pub fn minus(
    alloc: Global,
    tables: &Tables,
    ty: TypeId,
    operand: Box<Pure>,
) -> Result<Pure, AllocError>
    ensures { IfOk result (λ q. pure_of q ≡ p.Apply O.Sub (scalar_in (type_in (types_at tables.now) ty)) (p.Fixed (content.Number (pos 0))) (pure_of operand.value)) }
{
    let zero = Box::new(alloc, Pure::Fixed(Content::Number(0)))?;
    Ok(Pure::Apply(Op::Sub, tables.scalar(ty), zero, operand))
}

/// `~a`.
pub fn complement(
    alloc: Global,
    tables: &Tables,
    ty: TypeId,
    operand: Box<Pure>,
) -> Result<Pure, AllocError>
    ensures { IfOk result (λ q. pure_of q ≡ p.Apply O.Xor (scalar_in (type_in (types_at tables.now) ty)) (pure_of operand.value) (p.Fixed (all_ones (program_at tables.now) (type_in (types_at tables.now) ty)))) }
{
    let ones = Box::new(alloc, Pure::Fixed(all_ones(tables, ty)))?;
    Ok(Pure::Apply(Op::Xor, tables.scalar(ty), operand, ones))
}

/// A pointer that is moved, whose operands stand in the order of the text.
pub fn moved(op: Op, size: u64, side: Side, left: Box<Pure>, right: Box<Pure>) -> Pure
    ensures { pure_of result ≡ moving op size (side_of side) (pure_of left.value) (pure_of right.value) }
{
    match side {
        Side::OnLeft => Pure::Move {
            op,
            size,
            pointer: left,
            count: right,
        },
        Side::OnRight => Pure::Move {
            op,
            size,
            pointer: right,
            count: left,
        },
    }
}

// 1 where it is true, and 0 elsewhere.
fn as_truth(alloc: Global, test: Box<Pure>) -> Result<Box<Pure>, AllocError>
    ensures { IfOk result (λ q. pure_of q.value ≡ truth_value (pure_of test.value)) }
{
    let on = Box::new(alloc, truth(true))?;
    let off = Box::new(alloc, truth(false))?;
    Ok(Box::new(alloc, Pure::Choose(test, on, off))?)
}

/// `&&` and `||`.
pub fn connected(
    alloc: Global,
    op: LogicalOp,
    left: Box<Pure>,
    right: Box<Pure>,
) -> Result<Pure, AllocError>
    ensures { IfOk result (λ q. pure_of q ≡ connects op (pure_of left.value) (pure_of right.value)) }
{
    let right = as_truth(alloc, right)?;
    match op {
        LogicalOp::And => Ok(Pure::Choose(left, right, Box::new(alloc, truth(false))?)),
        LogicalOp::Or => Ok(Pure::Choose(left, Box::new(alloc, truth(true))?, right)),
    }
}

// A null pointer.
fn null(alloc: Global, operand: Box<Pure>) -> Result<Pure, AllocError>
    ensures { IfOk result (λ q. pure_of q ≡ converts e.to_null Void (pure_of operand.value)) }
{
    let mut parts = Vec::new(alloc);
    parts.push(Box::into_inner(operand))?;
    parts.push(Pure::Fixed(Content::Address(None)))?;
    Ok(Pure::Comma(parts))
}

/// A conversion.
pub fn converted(
    alloc: Global,
    tables: &Tables,
    how: Conversion,
    ty: TypeId,
    operand: Box<Pure>,
) -> Result<Pure, AllocError>
    ensures { IfOk result (λ q. pure_of q ≡ converts (conversion_of how) (type_in (types_at tables.now) ty) (pure_of operand.value)) }
{
    let how = match how {
        Conversion::ToInteger => How::ToInteger(tables.scalar(ty)),
        Conversion::ToTruth => How::ToTruth,
        Conversion::ToPointer => How::ToPointer,
        Conversion::ToVoid => How::ToVoid,
        Conversion::ToNull => return null(alloc, operand),
    };
    Ok(Pure::Convert(how, operand))
}
