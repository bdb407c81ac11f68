//! The types that the words of `block` lines name.

ghost use Rattle.std.specs.Prelude.{◌≡◌, ◌+◌, ℕ, List, IfOk, option_map};
ghost use Rattle.lt_tree.specs.Typing.Types.{CType};
ghost use Rattle.lt_entry.specs.TypeNames as names;
ghost use Rattle.lt_entry.specs.TypeNames.{pointers_to};
ghost use Rattle.lt_input_names.specs.Blocks.{base_of, element_of, pointers};
ghost use Rattle.lt_input_blocks.specs.Tokens.{texts};
ghost use Rattle.lt_input_blocks.specs.Names as spec;
ghost use Rattle.lt_input_blocks.specs.Names.{AreFileNames, types_at, file_at, first_named};

use crate::arithmetic::arithmetic_type;
use crate::names::FileNames;
use crate::tokens::{is_plain_keyword, is_qualifier, is_star, tokens_of};
use lt_input_names::{Base, ElementType};
use lt_model::Scalar;
use lt_tree::BasicType;
use std::alloc::{AllocError, Global};

impl<'p> FileNames<'p> {
    /// The type that the words of a `block` line name.
    pub fn type_named(
        &self,
        alloc: Global,
        words: &[&[u8]],
    ) -> Result<Option<ElementType>, AllocError>
        requires { AreFileNames self.now }
        ensures { IfOk result (λ it. option_map (element_of (types_at self.now)) it ≡ names.type_named (file_at self.now) (texts words.now)) }
    {
        let tokens = tokens_of(alloc, words)?;
        let specifiers = before_star(alloc, &tokens)?;
        match self.specified(alloc, &specifiers)? {
            None => Ok(None),
            Some(base) => Ok(behind(base, stars(from_star(&tokens))?)),
        }
    }

    // The type that specifiers name.
    fn specified(&self, alloc: Global, tokens: &[&[u8]]) -> Result<Option<Base>, AllocError>
        requires { AreFileNames self.now }
        ensures { IfOk result (λ it. option_map (base_of (types_at self.now)) it ≡ names.specified (file_at self.now) (texts tokens.now)) }
    {
        let mut rest = tokens;
        while let [first, others @ ..] = rest {
            if !is_qualifier(first) {
                return self.first_named(alloc, rest);
            }
            rest = others;
        }
        Ok(None)
    }

    // The type that specifiers name, the first of which is no qualifier.
    fn first_named(&self, alloc: Global, tokens: &[&[u8]]) -> Result<Option<Base>, AllocError>
        requires { AreFileNames self.now }
        ensures { IfOk result (λ it. option_map (base_of (types_at self.now)) it ≡ first_named (file_at self.now) (texts tokens.now)) }
    {
        let Some((first, others)) = tokens.split_first() else {
            return Ok(None);
        };
        if *first == b"struct".as_slice() {
            return Ok(self.structure(others));
        }
        if *first == b"enum".as_slice() {
            return Ok(self.enumeration(others));
        }
        if is_plain_keyword(first) {
            return Ok(arithmetic_type(alloc, tokens)?.map(basic_base));
        }
        Ok(self.typedef(first, others))
    }
}

fn basic_base(basic: BasicType) -> Base
    ensures { result ≡ spec.basic_base basic }
{
    match basic {
        BasicType::Void => Base::Void,
        BasicType::Char => Base::Num(Scalar::Char),
        BasicType::SignedChar => Base::Num(Scalar::SChar),
        BasicType::UnsignedChar => Base::Num(Scalar::UChar),
        BasicType::Short => Base::Num(Scalar::Short),
        BasicType::UnsignedShort => Base::Num(Scalar::UShort),
        BasicType::Int => Base::Num(Scalar::Int),
        BasicType::Unsigned => Base::Num(Scalar::UInt),
        BasicType::Long => Base::Num(Scalar::Long),
        BasicType::UnsignedLong => Base::Num(Scalar::ULong),
        BasicType::LongLong => Base::Num(Scalar::LLong),
        BasicType::UnsignedLongLong => Base::Num(Scalar::ULLong),
        BasicType::Bool => Base::Num(Scalar::Bool),
        BasicType::Float | BasicType::Double | BasicType::LongDouble => Base::Floating,
    }
}

// The tokens before the first asterisk.
fn before_star<'a>(alloc: Global, tokens: &[&'a [u8]]) -> Result<Vec<&'a [u8]>, AllocError>
    ensures { IfOk result (λ before. texts before.items ≡ names.before_star (texts tokens.now)) }
{
    let mut before = Vec::new(alloc);
    for token in tokens {
        if is_star(token) {
            return Ok(before);
        }
        before.push(*token)?;
    }
    Ok(before)
}

// The tokens from the first asterisk on.
fn from_star<'t, 'a>(mut tokens: &'t [&'a [u8]]) -> &'t [&'a [u8]]
    ensures { texts result.now ≡ names.from_star (texts tokens.entry.now) }
{
    while let [first, rest @ ..] = tokens {
        if is_star(first) {
            return tokens;
        }
        tokens = rest;
    }
    tokens
}

// How many pointers these tokens make, among which qualifiers may stand.
fn stars(tokens: &[&[u8]]) -> Result<Option<u32>, AllocError>
    ensures { IfOk result (λ count. (t : CType) → option_map (λ n. pointers n t) count ≡ pointers_to (texts tokens.now) t) }
{
    let mut count = 0;
    for token in tokens {
        if is_star(token) {
            count = one_more(count)?;
        } else if !is_qualifier(token) {
            return Ok(None);
        }
    }
    Ok(Some(count))
}

// One pointer more; there are fewer than 2^32: more end as want of memory does.
fn one_more(count: u32) -> Result<u32, AllocError>
    ensures { IfOk result (λ more. more ≡ count + 1) }
{
    match count.checked_add(1) {
        None => Err(AllocError),
        Some(more) => Ok(more),
    }
}

// A type behind so many pointers.
fn behind(base: Base, pointers: Option<u32>) -> Option<ElementType>
    ensures { result ≡ option_map (λ n. record { base = base; pointers = n }) pointers }
{
    Some(ElementType {
        base,
        pointers: pointers?,
    })
}
