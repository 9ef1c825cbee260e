//! Rows and named texts from the lines of row files.

use crate::line::{Line, line_of};
use crate::misread::Misread;
use crate::row::{Case, Command, Differences, Entry, Row, Tool};
use crate::sketch::{Sketch, unescaped};
use shelf::Text;
use std::alloc::Global;
use std::mem;

/// The room of a shelf where a row names none.
const ROOM: u64 = 100_000;

/// The text to which the next piece belongs.
#[derive(Clone, Copy)]
enum Open {
    Nothing,
    Named,
    Source,
    Stored,
    Told,
}

/// Takes row files line by line. Named texts serve the files behind theirs too.
#[derive(Drop)]
pub struct Reader {
    alloc: Global,
    texts: Vec<Entry>,
    rows: Vec<Row>,
    open: Open,
}

/// The text of the last entry.
fn last_text(entries: &mut Vec<Entry>) -> Option<&mut Sketch> {
    match entries.last_mut() {
        Some(entry) => Some(&mut entry.text),
        None => None,
    }
}

/// The words of a line, and the names that they may give to an output: `-`, the whole of each, and what stands behind its `=`.
fn command_of(alloc: Global, line: &str) -> Result<Command, Misread> {
    let mut command = Command {
        words: Vec::new(alloc),
        names: Vec::new(alloc),
    };
    command.names.push(unescaped(alloc, "-")?)?;
    for word in line.split_whitespace() {
        push_word(alloc, &mut command, word)?;
    }
    Ok(command)
}

fn push_word(alloc: Global, command: &mut Command, word: &str) -> Result<(), Misread> {
    let bytes = unescaped(alloc, word)?;
    let text = Text::from_bytes(alloc, bytes.as_slice())?;
    command.words.push(text)?;
    command.names.push(bytes)?;
    if let Some((_, name)) = word.split_once('=') {
        command.names.push(unescaped(alloc, name)?)?;
    }
    Ok(())
}

/// A row of which only the words are known. They are open where the line has a hole alone.
fn row_of(alloc: Global, line: u64, tool: Tool, words: &str) -> Result<Row, Misread> {
    let is_open = words == "\\?";
    Ok(Row {
        line,
        tool,
        command: command_of(alloc, if is_open { "" } else { words })?,
        is_open,
        sources: Vec::new(alloc),
        fails: Vec::new(alloc),
        room: ROOM,
        status: 0,
        stored: Vec::new(alloc),
        told: Sketch::new(alloc),
        wrong: Differences::NONE,
        cases: Vec::new(alloc),
    })
}

/// A case of this line, of words or of a source.
fn case_of(
    alloc: Global,
    line: u64,
    is_open: bool,
    left: &str,
    told: Option<&str>,
) -> Result<Case, Misread> {
    let told = match told {
        Some(told) => Some(unescaped(alloc, told)?),
        None => None,
    };
    let (command, source) = if is_open {
        (Some(command_of(alloc, left)?), Vec::new(alloc))
    } else {
        (None, unescaped(alloc, left)?)
    };
    Ok(Case {
        line,
        command,
        source,
        told,
    })
}

impl Reader {
    pub fn new(alloc: Global) -> Reader {
        Reader {
            alloc,
            texts: Vec::new(alloc),
            rows: Vec::new(alloc),
            open: Open::Nothing,
        }
    }

    /// Ends a file, and gives its rows.
    pub fn take_rows(&mut self) -> Vec<Row> {
        self.open = Open::Nothing;
        mem::replace(&mut self.rows, Vec::new(self.alloc))
    }

    /// Takes the line of this number.
    pub fn read_line(&mut self, number: u64, line: &str) -> Result<(), Misread> {
        match line_of(line)? {
            Line::Nothing => Ok(()),
            Line::Piece { text, times, end } => self.push_piece(text, times, end),
            Line::Text { name } => self.begin_text(name),
            Line::Row { tool, words } => {
                self.open = Open::Nothing;
                let row = row_of(self.alloc, number, tool, words)?;
                self.rows.push(row)?;
                Ok(())
            }
            line => self.tell_row(number, line),
        }
    }

    fn begin_text(&mut self, name: &str) -> Result<(), Misread> {
        if name.is_empty() {
            return Err(Misread::Name);
        }
        if self
            .texts
            .iter()
            .any(|text| text.file.as_slice() == name.as_bytes())
        {
            return Err(Misread::TextTwice);
        }
        self.texts.push(Entry {
            file: Vec::from_slice(self.alloc, name.as_bytes())?,
            text: Sketch::new(self.alloc),
        })?;
        self.open = Open::Named;
        Ok(())
    }

    /// A copy of the text of this name; the empty name is that of the empty text.
    fn text_of(&self, name: &str) -> Result<Sketch, Misread> {
        if name.is_empty() {
            return Ok(Sketch::new(self.alloc));
        }
        for entry in &self.texts {
            if entry.file.as_slice() == name.as_bytes() {
                return Ok(entry.text.clone()?);
            }
        }
        Err(Misread::UnknownText)
    }

    fn entry_of(&self, file: &str, text: &str) -> Result<Entry, Misread> {
        if file.is_empty() {
            return Err(Misread::Name);
        }
        Ok(Entry {
            file: unescaped(self.alloc, file)?,
            text: self.text_of(text)?,
        })
    }

    fn row(&mut self) -> Result<&mut Row, Misread> {
        match self.rows.last_mut() {
            Some(row) => Ok(row),
            None => Err(Misread::OutsideRow),
        }
    }

    /// Takes a line that tells more of the last row.
    fn tell_row(&mut self, number: u64, line: Line<'_>) -> Result<(), Misread> {
        self.open = Open::Nothing;
        match line {
            Line::Source { file, text } => {
                let entry = self.entry_of(file, text)?;
                self.row()?.sources.push(entry)?;
                self.open = Open::Source;
            }
            Line::Stored { file, text } => {
                let entry = self.entry_of(file, text)?;
                self.row()?.stored.push(entry)?;
                self.open = Open::Stored;
            }
            Line::Told { text } => {
                let told = self.text_of(text)?;
                self.row()?.told = told;
                self.open = Open::Told;
            }
            Line::Fail(fail) => self.row()?.fails.push(fail)?,
            Line::Room(room) => self.row()?.room = room,
            Line::Status(status) => self.row()?.status = status,
            Line::Wrong(parts) => self.row()?.wrong = parts,
            Line::Case { left, told } => {
                let is_open = self.row()?.is_open;
                let case = case_of(self.alloc, number, is_open, left, told)?;
                self.row()?.cases.push(case)?;
            }
            _ => return Err(Misread::Word),
        }
        Ok(())
    }

    fn open_text(&mut self) -> Option<&mut Sketch> {
        match self.open {
            Open::Nothing => None,
            Open::Named => last_text(&mut self.texts),
            Open::Source => last_text(&mut self.rows.last_mut()?.sources),
            Open::Stored => last_text(&mut self.rows.last_mut()?.stored),
            Open::Told => Some(&mut self.rows.last_mut()?.told),
        }
    }

    /// Adds a piece to the open text, so many times.
    fn push_piece(&mut self, piece: &str, times: u64, end: bool) -> Result<(), Misread> {
        let alloc = self.alloc;
        let Some(text) = self.open_text() else {
            return Err(Misread::OutsideText);
        };
        for turn in 0..times {
            text.push_escaped(alloc, piece, turn)?;
        }
        if end {
            text.push(b'\n')?;
        }
        Ok(())
    }
}
