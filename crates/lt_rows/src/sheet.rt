//! The rows of a file, line by line.

use crate::escapes::put_meant;
use crate::question::Question;
use crate::stop::Stop;
use std::alloc::{AllocError, Global};
use std::mem;

/// A text with its question, and what has to come. It begins at this line.
#[derive(Drop)]
pub struct Row<'a> {
    pub line: usize,
    pub question: Question<'a>,
    pub text: Vec<u8>,
    pub answer: Vec<u8>,
}

/// What a line is part of.
#[derive(Clone, Copy, PartialEq, Eq)]
enum Part {
    Rows,
    /// The text of a row of several lines.
    Text,
    /// Its answer.
    Answer,
}

/// What is known of a file behind a line.
#[derive(Drop)]
pub struct Sheet<'a> {
    alloc: Global,
    question: Option<Question<'a>>,
    beside: Vec<u8>,
    part: Part,
    /// Where the latest row begins, and what is known of its text and its answer.
    line: usize,
    text: Vec<u8>,
    answer: Vec<u8>,
}

// A line of a text or of an answer, with its end, unless it says that it has none.
fn put_line(out: &mut Vec<u8>, line: &str) -> Result<(), Stop> {
    match line.strip_suffix("`\\`") {
        Some(front) => put_meant(out, front),
        None => {
            put_meant(out, line)?;
            out.push(b'\n')?;
            Ok(())
        }
    }
}

// The text and the answer of a row of one line.
fn sides<'a>(question: Question, line: &'a str) -> Option<(&'a str, &'a str)> {
    if question.is_answered_first() {
        let (answer, text) = line.split_once(' ')?;
        return Some((text, answer));
    }
    match line.strip_suffix(" =>") {
        Some(text) => Some((text, "")),
        None => line.split_once(" => "),
    }
}

impl<'a> Sheet<'a> {
    pub fn new(alloc: Global) -> Sheet<'a> {
        Sheet {
            alloc,
            question: None,
            beside: Vec::new(alloc),
            part: Part::Rows,
            line: 0,
            text: Vec::new(alloc),
            answer: Vec::new(alloc),
        }
    }

    /// What is declared beside the texts of rows.
    pub fn beside(&self) -> &[u8] {
        self.beside.as_slice()
    }

    /// Where a row begins that hasn't ended.
    pub fn unended_row(&self) -> Option<usize> {
        if self.part == Part::Rows {
            None
        } else {
            Some(self.line)
        }
    }

    /// The row that ends with this line, if one does.
    pub fn take(&mut self, number: usize, line: &'a str) -> Result<Option<Row<'a>>, Stop> {
        match self.part {
            Part::Rows => self.take_row(number, line),
            Part::Text => self.take_text(line),
            Part::Answer => self.take_answer(line),
        }
    }

    fn take_row(&mut self, number: usize, line: &'a str) -> Result<Option<Row<'a>>, Stop> {
        self.line = number;
        self.text.clear();
        self.answer.clear();
        if line.is_empty() || line.starts_with("### ") {
            return Ok(None);
        }
        if let Some(heading) = line.strip_prefix("## ") {
            self.take_heading(heading)?;
            return Ok(None);
        }
        if line == "<<" {
            self.part = Part::Text;
            return Ok(None);
        }
        let question = self.question.ok_or(Stop::NoQuestion)?;
        let (text, answer) = sides(question, line).ok_or(Stop::NoAnswer)?;
        put_meant(&mut self.text, text)?;
        put_meant(&mut self.answer, answer)?;
        self.end_row()
    }

    fn take_heading(&mut self, heading: &'a str) -> Result<(), Stop> {
        if let Some(text) = heading.strip_prefix("beside: ") {
            return put_line(&mut self.beside, text);
        }
        self.beside = Vec::new(self.alloc);
        self.question = Question::of_heading(heading);
        if self.question.is_none() {
            return Err(Stop::NoSuchQuestion);
        }
        Ok(())
    }

    fn take_text(&mut self, line: &str) -> Result<Option<Row<'a>>, Stop> {
        if line == "=>" {
            self.part = Part::Answer;
            return Ok(None);
        }
        if line == ">>" {
            self.answer = Vec::from_slice(self.alloc, self.text.as_slice())?;
            return self.end_row();
        }
        if let Some(answer) = line.strip_prefix("=> ") {
            put_meant(&mut self.answer, answer)?;
            return self.end_row();
        }
        put_line(&mut self.text, line)?;
        Ok(None)
    }

    fn take_answer(&mut self, line: &str) -> Result<Option<Row<'a>>, Stop> {
        if line == ">>" {
            return self.end_row();
        }
        put_line(&mut self.answer, line)?;
        Ok(None)
    }

    fn end_row(&mut self) -> Result<Option<Row<'a>>, Stop> {
        self.part = Part::Rows;
        let text = mem::replace(&mut self.text, Vec::new(self.alloc));
        let answer = mem::replace(&mut self.answer, Vec::new(self.alloc));
        let question = self.question.ok_or(Stop::NoQuestion)?;
        Ok(Some(Row {
            line: self.line,
            question,
            text,
            answer,
        }))
    }
}
