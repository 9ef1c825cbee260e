//! Row files, line by line.

use crate::misread::Misread;
use gimple_core::{Mode, OutOfMemory, Text};
use std::alloc::Global;

/// A function's blocks before and after it is folded. The head is all of the program's text that stands before them.
#[derive(Drop)]
pub struct Row {
    pub line: u64,
    pub number: u32,
    pub mode: Mode,
    pub wrong: bool,
    head: Text,
    before: Text,
    after: Text,
}

impl Row {
    /// The text of the program, and the one that it must become.
    pub fn texts(&self, alloc: Global) -> Result<(Text, Text), OutOfMemory> {
        let source = whole(alloc, &self.head, &self.before)?;
        let wanted = whole(alloc, &self.head, &self.after)?;
        Ok((source, wanted))
    }
}

/// A head with blocks, and the end of their function.
fn whole(alloc: Global, head: &Text, blocks: &Text) -> Result<Text, OutOfMemory> {
    let mut text = Text::from_bytes(alloc, head.as_slice())?;
    text.push_all(blocks.as_slice())?;
    text.push_all(b"}\n")?;
    Ok(text)
}

/// What lines of text belong to.
#[derive(Clone, Copy)]
enum Part {
    Nothing,
    Head,
    Before,
    After,
}

/// What was read of a file so far.
#[derive(Drop)]
pub struct Reader {
    alloc: Global,
    head: Text,
    number: u32,
    mode: Mode,
    part: Part,
    rows: Vec<Row>,
}

/// The first word of a line, and what stands behind it.
fn first_word(line: &str) -> (&str, &str) {
    match line.split_once(' ') {
        Some((word, rest)) => (word, rest),
        None => (line, ""),
    }
}

impl Reader {
    pub fn new(alloc: Global) -> Reader {
        Reader {
            alloc,
            head: Text::new(alloc),
            number: 0,
            mode: Mode::Trap,
            part: Part::Nothing,
            rows: Vec::new(alloc),
        }
    }

    pub fn into_rows(self) -> Vec<Row> {
        let Reader { rows, .. } = self;
        rows
    }

    /// Takes the line of this number.
    pub fn read_line(&mut self, number: u64, line: &str) -> Result<(), Misread> {
        if line.is_empty() || line.starts_with('#') {
            return Ok(());
        }
        let (word, rest) = first_word(line);
        match word {
            "|" => self.push_line(rest),
            "function" => self.begin_function(rest),
            "mode" => self.set_mode(rest),
            "row" => self.begin_row(number, false),
            "wrong" => self.begin_row(number, true),
            "becomes" => {
                self.part = Part::After;
                Ok(())
            }
            _ => Err(Misread::Word),
        }
    }

    fn begin_function(&mut self, number: &str) -> Result<(), Misread> {
        let Ok(number) = number.parse::<u32>() else {
            return Err(Misread::Number);
        };
        self.number = number;
        self.head = Text::new(self.alloc);
        self.part = Part::Head;
        Ok(())
    }

    fn set_mode(&mut self, name: &str) -> Result<(), Misread> {
        self.mode = match name {
            "trap" => Mode::Trap,
            "wrap" => Mode::Wrap,
            _ => return Err(Misread::Mode),
        };
        self.part = Part::Nothing;
        Ok(())
    }

    fn begin_row(&mut self, line: u64, wrong: bool) -> Result<(), Misread> {
        let head = Text::from_bytes(self.alloc, self.head.as_slice())?;
        self.rows.push(Row {
            line,
            number: self.number,
            mode: self.mode,
            wrong,
            head,
            before: Text::new(self.alloc),
            after: Text::new(self.alloc),
        })?;
        self.part = Part::Before;
        Ok(())
    }

    fn push_line(&mut self, line: &str) -> Result<(), Misread> {
        let text = self.open_text()?;
        text.push_all(line.as_bytes())?;
        text.push_all(b"\n")?;
        Ok(())
    }

    /// The text to which lines are added.
    fn open_text(&mut self) -> Result<&mut Text, Misread> {
        let part = self.part;
        match part {
            Part::Nothing => Err(Misread::OutsideText),
            Part::Head => Ok(&mut self.head),
            Part::Before => Ok(&mut self.last_row()?.before),
            Part::After => Ok(&mut self.last_row()?.after),
        }
    }

    fn last_row(&mut self) -> Result<&mut Row, Misread> {
        match self.rows.last_mut() {
            Some(row) => Ok(row),
            None => Err(Misread::OutsideRow),
        }
    }
}
