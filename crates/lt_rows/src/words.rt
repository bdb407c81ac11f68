//! Answers of several words.

use std::alloc::{AllocError, Global};

/// Words with a space between each two.
#[derive(Drop)]
pub struct Words {
    alloc: Global,
    bytes: Vec<u8>,
}

impl Words {
    pub fn new(alloc: Global) -> Words {
        Words {
            alloc,
            bytes: Vec::new(alloc),
        }
    }

    /// One more word, which is made of these parts.
    pub fn push(&mut self, parts: &[&[u8]]) -> Result<(), AllocError> {
        if !self.bytes.is_empty() {
            self.bytes.extend_from_slice(b" ")?;
        }
        for part in parts {
            self.bytes.extend_from_slice(part)?;
        }
        Ok(())
    }

    pub fn push_text(&mut self, word: &str) -> Result<(), AllocError> {
        self.push(&[word.as_bytes()])
    }

    pub fn push_number(&mut self, number: i128) -> Result<(), AllocError> {
        self.push(&[format!(in self.alloc; "{number}")?.as_bytes()])
    }

    pub fn push_spots(&mut self, spots: &[u32]) -> Result<(), AllocError> {
        for spot in spots {
            self.push_number(i128::from(*spot))?;
        }
        Ok(())
    }

    /// A mark behind the last word, which ends a part of the answer.
    pub fn end_part(&mut self) -> Result<(), AllocError> {
        self.bytes.extend_from_slice(b";")
    }

    pub fn into_bytes(self) -> Vec<u8> {
        self.bytes
    }
}
