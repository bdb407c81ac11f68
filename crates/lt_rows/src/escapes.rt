//! Bytes that a line can't hold or that nobody would count, written between two backticks.

use crate::stop::Stop;
use std::alloc::{AllocError, Global};

// More than any row needs.
const MOST_TIMES: usize = 1_000_000;

// The byte that stands behind a backslash.
fn named_byte(name: &str) -> Option<u8> {
    match name {
        "0" => Some(0),
        "t" => Some(9),
        "n" => Some(10),
        "v" => Some(11),
        "f" => Some(12),
        "r" => Some(13),
        _ => u8::from_str_radix(name.strip_prefix('x')?, 16).ok(),
    }
}

// A piece so many times.
fn repeat(out: &mut Vec<u8>, times: usize, piece: &[u8]) -> Result<(), Stop> {
    if times > MOST_TIMES {
        return Err(Stop::TooLong);
    }
    for _turn in 0..times {
        out.extend_from_slice(piece)?;
    }
    Ok(())
}

// What stands between two backticks.
fn put_escape(out: &mut Vec<u8>, escape: &str) -> Result<(), Stop> {
    if escape.is_empty() {
        return Ok(());
    }
    if let Some(name) = escape.strip_prefix('\\') {
        let byte = named_byte(name).ok_or(Stop::NoSuchEscape)?;
        out.push(byte)?;
        return Ok(());
    }
    let (times, piece) = escape.split_once(' ').ok_or(Stop::NoSuchEscape)?;
    match times.parse::<usize>() {
        Ok(times) => repeat(out, times, piece.as_bytes()),
        Err(_) => Err(Stop::NoSuchEscape),
    }
}

/// The bytes that a line, or a part of one, stands for.
pub fn put_meant(out: &mut Vec<u8>, line: &str) -> Result<(), Stop> {
    let mut is_escape = false;
    for part in line.split('`') {
        if is_escape {
            put_escape(out, part)?;
        } else {
            out.extend_from_slice(part.as_bytes())?;
        }
        is_escape = !is_escape;
    }
    // The parts are one more than the backticks, so the last is no escape.
    if is_escape {
        Ok(())
    } else {
        Err(Stop::NoSuchEscape)
    }
}

/// Bytes as they are written in one line.
pub fn shown(alloc: Global, bytes: &[u8]) -> Result<String, AllocError> {
    let mut line = String::new(alloc);
    for byte in bytes {
        match *byte {
            b'\n' => line.push_str("`\\n`")?,
            b'`' => line.push_str("`\\x60`")?,
            32..=126 => line.push(char::from(*byte))?,
            other => line.push_str(format!(in alloc; "`\\x{other:02x}`")?.as_str())?,
        }
    }
    Ok(line)
}
