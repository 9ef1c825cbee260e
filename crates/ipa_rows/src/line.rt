//! The lines of a row file.

use crate::misread::Misread;
use crate::row::{Differences, Tool};
use ipa_driver::Fail;

/// A line, with its parts as they are written.
#[derive(Clone, Copy)]
pub enum Line<'a> {
    /// A comment, or nothing.
    Nothing,
    Text {
        name: &'a str,
    },
    Row {
        tool: Tool,
        words: &'a str,
    },
    Source {
        file: &'a str,
        text: &'a str,
    },
    Fail(Fail),
    Room(u64),
    Status(u8),
    Stored {
        file: &'a str,
        text: &'a str,
    },
    Told {
        text: &'a str,
    },
    Wrong(Differences),
    Case {
        left: &'a str,
        told: Option<&'a str>,
    },
    Piece {
        text: &'a str,
        times: u64,
        end: bool,
    },
}

/// The first word, and what stands behind the blank that ends it.
fn first_word(text: &str) -> (&str, &str) {
    match text.split_once(' ') {
        Some((word, rest)) => (word, rest),
        None => (text, ""),
    }
}

fn number(text: &str) -> Result<u64, Misread> {
    match text.parse::<u64>() {
        Ok(number) => Ok(number),
        Err(_) => Err(Misread::Number),
    }
}

fn status(text: &str) -> Result<u8, Misread> {
    match text.parse::<u8>() {
        Ok(status) => Ok(status),
        Err(_) => Err(Misread::Number),
    }
}

fn fail(text: &str) -> Result<Fail, Misread> {
    let (call, kept) = first_word(text);
    Ok(Fail {
        call: number(call)?,
        kept: number(kept)?,
    })
}

/// The parts that words name.
fn differences(text: &str) -> Result<Differences, Misread> {
    let mut parts = Differences::NONE;
    for word in text.split_whitespace() {
        match word {
            "status" => parts.status = true,
            "stored" => parts.stored = true,
            "told" => parts.told = true,
            _ => return Err(Misread::Name),
        }
    }
    Ok(parts)
}

fn case(text: &str) -> Line<'_> {
    match text.split_once("=>") {
        Some((left, told)) => Line::Case {
            left: left.trim(),
            told: Some(told.trim()),
        },
        None => Line::Case {
            left: text.trim(),
            told: None,
        },
    }
}

/// What a line says.
pub fn line_of(line: &str) -> Result<Line<'_>, Misread> {
    if line.is_empty() || line.starts_with('#') {
        return Ok(Line::Nothing);
    }
    let (word, rest) = first_word(line);
    match word {
        "|" => Ok(Line::Piece {
            text: rest,
            times: 1,
            end: true,
        }),
        ">" => Ok(Line::Piece {
            text: rest,
            times: 1,
            end: false,
        }),
        "*" => {
            let (times, text) = first_word(rest);
            Ok(Line::Piece {
                text,
                times: number(times)?,
                end: false,
            })
        }
        ":" => Ok(case(rest)),
        _ => directive(word, rest),
    }
}

/// What a line says that begins with this word of letters.
fn directive<'a>(word: &str, rest: &'a str) -> Result<Line<'a>, Misread> {
    match word {
        "text" => Ok(Line::Text { name: rest }),
        "ipa" => Ok(Line::Row {
            tool: Tool::Optimiser,
            words: rest,
        }),
        "run" => Ok(Line::Row {
            tool: Tool::Interpreter,
            words: rest,
        }),
        "source" => {
            let (file, text) = first_word(rest);
            Ok(Line::Source { file, text })
        }
        "stored" => {
            let (file, text) = first_word(rest);
            Ok(Line::Stored { file, text })
        }
        "fail" => Ok(Line::Fail(fail(rest)?)),
        "room" => Ok(Line::Room(number(rest)?)),
        "status" => Ok(Line::Status(status(rest)?)),
        "told" => Ok(Line::Told { text: rest }),
        "wrong" => Ok(Line::Wrong(differences(rest)?)),
        _ => Err(Misread::Word),
    }
}
