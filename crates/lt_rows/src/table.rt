//! Types in words, and constants.

use crate::stop::Stop;
use crate::units::parsed;
use crate::words::Words;
use lt_model::{DataModel, Quals, Scalar};
use lt_table::constant_of;
use lt_tree::typed::{FunctionType, TypeId, TypeRow};
use lt_unit::elaborate;
use std::alloc::{AllocError, Global};

/// The name of a type.
pub fn scalar_name(scalar: Scalar) -> &'static str {
    match scalar {
        Scalar::Bool => "_Bool",
        Scalar::Char => "char",
        Scalar::SChar => "signed char",
        Scalar::UChar => "unsigned char",
        Scalar::Short => "short",
        Scalar::UShort => "unsigned short",
        Scalar::Int => "int",
        Scalar::UInt => "unsigned int",
        Scalar::Long => "long",
        Scalar::ULong => "unsigned long",
        Scalar::LLong => "long long",
        Scalar::ULLong => "unsigned long long",
    }
}

fn put_qualifiers(words: &mut Words, quals: Quals) -> Result<(), AllocError> {
    if quals.constant {
        words.push_text("const")?;
    }
    if quals.volatile {
        words.push_text("volatile")?;
    }
    Ok(())
}

fn put_function(words: &mut Words, function: &FunctionType) -> Result<(), AllocError> {
    words.push_text("function of")?;
    words.push_number(function.parameters.len() as i128)?;
    if function.dots {
        words.push_text("and more")?;
    }
    words.push_text("giving")
}

// A row, up to the type that it is made of.
fn put_row(words: &mut Words, row: &TypeRow) -> Result<Option<TypeId>, AllocError> {
    match row {
        TypeRow::Void => words.push_text("void")?,
        TypeRow::Num(scalar) => words.push_text(scalar_name(*scalar))?,
        TypeRow::Floating => words.push_text("floating")?,
        TypeRow::Struct(number) => {
            words.push_text("struct")?;
            words.push_number(i128::from(*number))?;
        }
        TypeRow::Pointer(target) => {
            words.push_text("pointer to")?;
            return Ok(Some(*target));
        }
        TypeRow::Array(element, length) => {
            words.push_text("array of")?;
            words.push_number(i128::from(*length))?;
            return Ok(Some(*element));
        }
        TypeRow::Function(function) => {
            put_function(words, function)?;
            return Ok(Some(function.result));
        }
        TypeRow::Qualified(quals, unqualified) => {
            put_qualifiers(words, *quals)?;
            return Ok(Some(*unqualified));
        }
    }
    Ok(None)
}

/// A type of a table in words.
pub fn put_type(words: &mut Words, rows: &[TypeRow], t: TypeId) -> Result<(), AllocError> {
    let mut place = t.place as usize;
    for _row in rows {
        let Some(row) = rows.get(place) else {
            return Ok(());
        };
        match put_row(words, row)? {
            None => return Ok(()),
            Some(t) => place = t.place as usize,
        }
    }
    Ok(())
}

/// The types of a unit's program.
pub fn types(alloc: Global, text: &[u8], model: DataModel) -> Result<Vec<u8>, Stop> {
    let unit = parsed(alloc, text)?.unit;
    let program = elaborate(alloc, &unit, model)?;
    let mut words = Words::new(alloc);
    for t in &program.types {
        put_type(&mut words, program.table.as_slice(), *t)?;
        words.end_part()?;
    }
    Ok(words.into_bytes())
}

/// The type and the value of a constant.
pub fn constant(alloc: Global, text: &[u8], model: DataModel) -> Result<Vec<u8>, Stop> {
    let mut words = Words::new(alloc);
    match constant_of(model, text) {
        None => words.push_text("none")?,
        Some(constant) => {
            words.push_text(scalar_name(constant.ty))?;
            words.push_number(constant.value)?;
        }
    }
    Ok(words.into_bytes())
}
