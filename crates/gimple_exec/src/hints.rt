//! Guesses of where objects and their slots stand. No answer rests on them: what is sought is looked for elsewhere where a guess
//! is wrong.

use gimple_core::{Object, OutOfMemory};
use std::alloc::Global as Heap;

/// Where an object's slots begin, how many there are, and the object's size in bytes.
#[derive(Clone, Copy, Debug)]
pub struct Spread {
    pub first: usize,
    pub slots: usize,
    pub size: u64,
}

/// Where the locals of a frame begin.
#[derive(Clone, Copy, Debug)]
pub struct Start {
    pub serial: u64,
    pub first: usize,
}

/// Guesses of where objects and their slots stand.
#[derive(Drop)]
pub struct Hints {
    spreads: Vec<Spread>,
    starts: Vec<Start>,
}

/// How many slots there are in front of an offset, where they stand evenly.
fn slots_before(spread: Spread, offset: u64) -> usize {
    if spread.size == 0 {
        return 0;
    }
    (offset.wrapping_mul(spread.slots as u64) / spread.size) as usize
}

impl Hints {
    pub fn new(alloc: Heap) -> Hints {
        Hints {
            spreads: Vec::new(alloc),
            starts: Vec::new(alloc),
        }
    }

    /// An object is added behind the others.
    pub fn push(&mut self, object: Object, spread: Spread) -> Result<(), OutOfMemory> {
        if let Object::Local { serial, number: 0 } = object {
            let first = self.spreads.len();
            self.starts.push(Start { serial, first })?;
        }
        self.spreads.push(spread)?;
        Ok(())
    }

    /// The locals of a frame are taken out, and this many objects are left.
    pub fn leave(&mut self, serial: u64, objects: usize) {
        self.spreads.truncate(objects);
        if let Some(start) = self.starts.last() {
            if start.serial == serial {
                self.starts.pop();
            }
        }
    }

    /// Where an object may stand.
    pub fn object(&self, object: Object) -> usize {
        match object {
            Object::Global(number) => number as usize,
            Object::Local { serial, number } => {
                let at = self.starts.partition_point(|start| start.serial < serial);
                match self.starts.get(at) {
                    Some(start) => start.first.saturating_add(number as usize),
                    None => usize::MAX,
                }
            }
        }
    }

    /// Where the slot at an offset in an object may stand.
    pub fn slot(&self, object: Object, offset: u64) -> usize {
        match self.spreads.get(self.object(object)) {
            Some(spread) => spread.first.saturating_add(slots_before(*spread, offset)),
            None => usize::MAX,
        }
    }
}
