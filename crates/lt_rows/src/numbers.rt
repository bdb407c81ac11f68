//! What operators, conversions and sets of numbers give.

ghost use Rattle.std.specs.Prelude.{◌≡◌, true};
ghost use Rattle.lt_value.specs.Refine.{IsRelation};

use crate::stop::Stop;
use crate::table::scalar_name;
use crate::words::Words;
use lt_model::{
    DataModel, Op, Scalar, apply, checked_product, checked_sum, convert, is_value, promote,
    ub_number, usual,
};
use lt_value::{Num, forward, join, meet, refine, single};
use std::alloc::{AllocError, Global};

const SCALARS: [Scalar; 12] = [
    Scalar::Bool,
    Scalar::Char,
    Scalar::SChar,
    Scalar::UChar,
    Scalar::Short,
    Scalar::UShort,
    Scalar::Int,
    Scalar::UInt,
    Scalar::Long,
    Scalar::ULong,
    Scalar::LLong,
    Scalar::ULLong,
];

fn scalar_named(name: &str) -> Result<Scalar, Stop> {
    for scalar in SCALARS {
        if scalar_name(scalar) == name {
            return Ok(scalar);
        }
    }
    Err(Stop::NoSuchType)
}

fn operator_named(name: &str) -> Result<Op, Stop> {
    match name {
        "+" => Ok(Op::Add),
        "-" => Ok(Op::Sub),
        "*" => Ok(Op::Mul),
        "/" => Ok(Op::Div),
        "%" => Ok(Op::Rem),
        "<<" => Ok(Op::Shl),
        ">>" => Ok(Op::Shr),
        "&" => Ok(Op::And),
        "|" => Ok(Op::Or),
        "^" => Ok(Op::Xor),
        _ => relation_named(name),
    }
}

fn relation_named(name: &str) -> Result<Op, Stop> {
    match name {
        "<" => Ok(Op::Lt),
        "<=" => Ok(Op::Le),
        ">" => Ok(Op::Gt),
        ">=" => Ok(Op::Ge),
        "==" => Ok(Op::Eq),
        "!=" => Ok(Op::Ne),
        _ => Err(Stop::NoSuchOperator),
    }
}

fn is_relation(op: Op) -> bool
    ensures { result ≡ true → IsRelation op }
{
    matches!(op, Op::Lt | Op::Le | Op::Gt | Op::Ge | Op::Eq | Op::Ne)
}

fn number(word: &str) -> Result<i128, Stop> {
    word.parse::<i128>().map_err(|_| Stop::NoNumber)
}

fn text_of(text: &[u8]) -> Result<&str, Stop> {
    std::str::from_utf8(text).map_err(|_| Stop::NoNumber)
}

// The two sides of a separator.
fn halves<'a>(text: &'a str, separator: &str) -> Result<(&'a str, &'a str), Stop> {
    text.split_once(separator).ok_or(Stop::NoNumber)
}

// `TYPE: A OP B`
fn operands(text: &str) -> Result<(Scalar, i128, Op, i128), Stop> {
    let (ty, rest) = halves(text, ": ")?;
    let (left, rest) = halves(rest, " ")?;
    let (op, right) = halves(rest, " ")?;
    Ok((
        scalar_named(ty)?,
        number(left)?,
        operator_named(op)?,
        number(right)?,
    ))
}

/// What an operator gives on two values of a type: a value, or the kind of undefined behaviour.
pub fn operator(alloc: Global, text: &[u8], model: DataModel) -> Result<Vec<u8>, Stop> {
    let (ty, a, op, b) = operands(text_of(text)?)?;
    if !is_value(model, ty, a) || !is_value(model, ty, b) {
        return Err(Stop::NoNumber);
    }
    let mut words = Words::new(alloc);
    match apply(model, op, ty, a, b) {
        Ok(z) => words.push_number(z)?,
        Err(kind) => {
            words.push_text("kind")?;
            words.push_number(i128::from(ub_number(kind)))?;
        }
    }
    Ok(words.into_bytes())
}

/// A value of one type as one of another: `TYPE: A to TYPE`.
pub fn conversion(alloc: Global, text: &[u8], model: DataModel) -> Result<Vec<u8>, Stop> {
    let (from, rest) = halves(text_of(text)?, ": ")?;
    let (value, to) = halves(rest, " to ")?;
    let (from, value, to) = (scalar_named(from)?, number(value)?, scalar_named(to)?);
    if !is_value(model, from, value) {
        return Err(Stop::NoNumber);
    }
    let mut words = Words::new(alloc);
    words.push_number(convert(model, from, to, value))?;
    Ok(words.into_bytes())
}

fn named(alloc: Global, scalar: Scalar) -> Result<Vec<u8>, Stop> {
    let mut words = Words::new(alloc);
    words.push_text(scalar_name(scalar))?;
    Ok(words.into_bytes())
}

/// The type that a type is promoted to.
pub fn promotion(alloc: Global, text: &[u8], model: DataModel) -> Result<Vec<u8>, Stop> {
    let ty = scalar_named(text_of(text)?)?;
    named(alloc, promote(model, ty))
}

/// The type of an operation whose operands have these types.
pub fn common_type(alloc: Global, text: &[u8], model: DataModel) -> Result<Vec<u8>, Stop> {
    let (left, right) = halves(text_of(text)?, ", ")?;
    let (left, right) = (scalar_named(left)?, scalar_named(right)?);
    named(alloc, usual(model, left, right))
}

fn fitting(alloc: Global, found: Option<i128>) -> Result<Vec<u8>, Stop> {
    let mut words = Words::new(alloc);
    match found {
        None => words.push_text("none")?,
        Some(z) => words.push_number(z)?,
    }
    Ok(words.into_bytes())
}

/// A sum that fits 128 bits: `A + B`.
pub fn sum(alloc: Global, text: &[u8]) -> Result<Vec<u8>, Stop> {
    let (left, right) = halves(text_of(text)?, " + ")?;
    fitting(alloc, checked_sum(number(left)?, number(right)?))
}

/// A product that fits 128 bits: `A * B`.
pub fn product(alloc: Global, text: &[u8]) -> Result<Vec<u8>, Stop> {
    let (left, right) = halves(text_of(text)?, " * ")?;
    fitting(alloc, checked_product(number(left)?, number(right)?))
}

// The least set that holds numbers with a space between each two.
fn spread(text: &str) -> Result<Num, Stop> {
    let mut set: Option<Num> = None;
    for word in text.split(' ') {
        let one = one_number(number(word)?)?;
        set = match set {
            None => Some(one),
            Some(before) => Some(join(&before, &one)),
        };
    }
    set.ok_or(Stop::NoNumber)
}

fn one_number(z: i128) -> Result<Num, Stop> {
    if -0x8000_0000_0000_0000 <= z && z <= 0xffff_ffff_ffff_ffff {
        Ok(single(z))
    } else {
        Err(Stop::NoNumber)
    }
}

// The ends of a set, its step and its rest.
fn put_set(alloc: Global, words: &mut Words, set: &Num) -> Result<(), AllocError> {
    words.push_number(set.lo)?;
    words.push_number(set.hi)?;
    words.push(&[format!(in alloc; "{}", set.step)?.as_bytes()])?;
    words.push(&[format!(in alloc; "{}", set.rest)?.as_bytes()])?;
    words.end_part()
}

fn shown(alloc: Global, set: Option<Num>) -> Result<Vec<u8>, Stop> {
    let mut words = Words::new(alloc);
    match set {
        None => words.push_text("none")?,
        Some(set) => put_set(alloc, &mut words, &set)?,
    }
    Ok(words.into_bytes())
}

/// The least set that holds two: `NUMBERS, NUMBERS`.
pub fn joined(alloc: Global, text: &[u8]) -> Result<Vec<u8>, Stop> {
    let (left, right) = halves(text_of(text)?, ", ")?;
    shown(alloc, Some(join(&spread(left)?, &spread(right)?)))
}

/// The members that two sets have in common.
pub fn common_members(alloc: Global, text: &[u8]) -> Result<Vec<u8>, Stop> {
    let (left, right) = halves(text_of(text)?, ", ")?;
    shown(alloc, meet(&spread(left)?, &spread(right)?))
}

/// What a relation leaves of two sets: `NUMBERS, REL, NUMBERS`.
pub fn refined(alloc: Global, text: &[u8]) -> Result<Vec<u8>, Stop> {
    let (left, rest) = halves(text_of(text)?, ", ")?;
    let (op, right) = halves(rest, ", ")?;
    let op = relation_named(op)?;
    if !is_relation(op) {
        return Err(Stop::NoSuchOperator);
    }
    let mut words = Words::new(alloc);
    match refine(op, &spread(left)?, &spread(right)?) {
        None => words.push_text("none")?,
        Some((left, right)) => {
            put_set(alloc, &mut words, &left)?;
            put_set(alloc, &mut words, &right)?;
        }
    }
    Ok(words.into_bytes())
}

/// What an operator of a type gives on two sets: `TYPE: NUMBERS, OP, NUMBERS`.
pub fn results(alloc: Global, text: &[u8], model: DataModel) -> Result<Vec<u8>, Stop> {
    let (ty, rest) = halves(text_of(text)?, ": ")?;
    let (left, rest) = halves(rest, ", ")?;
    let (op, right) = halves(rest, ", ")?;
    let (ty, op) = (scalar_named(ty)?, operator_named(op)?);
    shown(
        alloc,
        forward(model, op, ty, &spread(left)?, &spread(right)?),
    )
}
