//! Texts of bytes with at most one hole, and the escapes by which they are written.

use crate::misread::Misread;
use std::alloc::Global;

/// A text that may have a hole.
#[derive(Clone, Drop)]
pub struct Sketch {
    before: Vec<u8>,
    after: Option<Vec<u8>>,
}

/// Where the next byte of an escaped text stands.
#[derive(Clone, Copy)]
enum Place {
    Outside,
    Escape,
    High,
    Low { high: u8 },
}

/// The value of a hexadecimal digit.
fn digit(byte: u8) -> Result<u8, Misread> {
    match byte {
        b'0'..=b'9' => Ok(byte - b'0'),
        b'a'..=b'f' => Ok(byte - b'a' + 10),
        _ => Err(Misread::Escape),
    }
}

impl Sketch {
    /// The empty text.
    pub fn new(alloc: Global) -> Sketch {
        Sketch {
            before: Vec::new(alloc),
            after: None,
        }
    }

    /// Adds a byte behind all that is there.
    pub fn push(&mut self, byte: u8) -> Result<(), Misread> {
        match &mut self.after {
            Some(after) => after.push(byte)?,
            None => self.before.push(byte)?,
        }
        Ok(())
    }

    fn push_hole(&mut self, alloc: Global) -> Result<(), Misread> {
        if self.after.is_some() {
            return Err(Misread::SecondHole);
        }
        self.after = Some(Vec::new(alloc));
        Ok(())
    }

    fn push_number(&mut self, alloc: Global, number: u64) -> Result<(), Misread> {
        let digits = format!(in alloc; "{number}")?;
        for byte in digits.as_bytes() {
            self.push(*byte)?;
        }
        Ok(())
    }

    /// Adds an escaped text; `turn` is the number for which `\#` stands.
    pub fn push_escaped(&mut self, alloc: Global, text: &str, turn: u64) -> Result<(), Misread> {
        let mut place = Place::Outside;
        for byte in text.as_bytes() {
            place = self.push_next(alloc, place, *byte, turn)?;
        }
        match place {
            Place::Outside => Ok(()),
            _ => Err(Misread::Escape),
        }
    }

    /// Takes the next byte of an escaped text, and says where the one behind it stands.
    fn push_next(
        &mut self,
        alloc: Global,
        place: Place,
        byte: u8,
        turn: u64,
    ) -> Result<Place, Misread> {
        match place {
            Place::Outside if byte == b'\\' => return Ok(Place::Escape),
            Place::Outside => self.push(byte)?,
            Place::Escape if byte == b'x' => return Ok(Place::High),
            Place::Escape => self.push_named(alloc, byte, turn)?,
            Place::High => return Ok(Place::Low { high: digit(byte)? }),
            Place::Low { high } => self.push((high << 4) | digit(byte)?)?,
        }
        Ok(Place::Outside)
    }

    /// Adds what stands for an escape of one letter.
    fn push_named(&mut self, alloc: Global, letter: u8, turn: u64) -> Result<(), Misread> {
        match letter {
            b'\\' => self.push(b'\\'),
            b'n' => self.push(b'\n'),
            b'?' => self.push_hole(alloc),
            b'#' => self.push_number(alloc, turn),
            b'-' => Ok(()),
            _ => Err(Misread::Escape),
        }
    }

    /// The text with this in its hole. A text that has a hole wants a filling.
    pub fn filled(&self, alloc: Global, filling: Option<&[u8]>) -> Result<Vec<u8>, Misread> {
        let mut bytes = Vec::from_slice(alloc, self.before.as_slice())?;
        let Some(after) = &self.after else {
            return Ok(bytes);
        };
        let Some(filling) = filling else {
            return Err(Misread::Hole);
        };
        bytes.extend_from_slice(filling)?;
        bytes.extend_from_slice(after.as_slice())?;
        Ok(bytes)
    }
}

/// The bytes of an escaped text without a hole.
pub fn unescaped(alloc: Global, text: &str) -> Result<Vec<u8>, Misread> {
    let mut sketch = Sketch::new(alloc);
    sketch.push_escaped(alloc, text, 0)?;
    sketch.filled(alloc, None)
}
