//! What a shelf in memory was given to keep: stores and told bytes, in room that was set aside for them.

ghost use Rattle.std.specs.Prelude.{◌≡◌, ◌+◌, ◌-◌, ◌≤◌, [], ◌∷◌, ◌++◌, length, IfOk};
ghost use Rattle.std.specs.Option.{option_copied};
ghost use Rattle.shelf.specs.Kept.{stored_in};
ghost use Rattle.shelf.specs.Spans.{entries_of, AreWithin};

use gimple_ir::OutOfMemory;
use std::alloc::Global;
use std::marker::Model;

/// Where a store's name and bytes lie.
#[derive(Clone, Copy, Debug, PartialEq, Eq)]
pub struct Span {
    pub from: usize,
    pub middle: usize,
    pub to: usize,
}

/// Stores and told bytes. All three buffers have the room from the start, so keeping takes no memory.
#[derive(Debug, Drop)]
pub struct Log {
    bytes: Vec<u8>,
    spans: Vec<Span>,
    told: Vec<u8>,
    room: usize,
}

impl Model for Log {
    ghost use Rattle.shelf.specs.Kept.{Kept};

    ghost Value = { Kept };

    ghost use Rattle.shelf.specs.Log.{log_value, IsLog};

    ghost view = { log_value };

    ghost invariant = { IsLog };
}

impl Log {
    ghost use Rattle.shelf.specs.Kept.{Kept, stored_in};

    /// Room for so many bytes.
    pub fn new(alloc: Global, room: usize) -> Result<Self, OutOfMemory>
        ensures { IfOk result (λ log. log ≡ record { entries = []; told = []; room = room }) }
    {
        Ok(Log {
            bytes: Vec::with_capacity(alloc, room)?,
            spans: Vec::with_capacity(alloc, room)?,
            told: Vec::with_capacity(alloc, room)?,
            room,
        })
    }

    pub fn room(&self) -> usize
        ensures { result ≡ self.now.room }
    {
        self.room
    }

    pub fn told(&self) -> &[u8]
        ensures { result.now ≡ self.now.told }
    {
        &self.told
    }

    /// Keeps a store.
    pub fn store(&mut self, name: &[u8], bytes: &[u8])
        requires { 1 + length name.now + length bytes.now ≤ self.old.room }
        ensures { self.new ≡ record { entries = self.old.entries ++ (name.now, bytes.now) ∷ []; told = self.old.told; room = self.old.room - (1 + length name.now + length bytes.now) } }
    {
        let from = self.bytes.len();
        let _ = self.bytes.extend_from_slice(name);
        let middle = self.bytes.len();
        let _ = self.bytes.extend_from_slice(bytes);
        let to = self.bytes.len();
        let _ = self.spans.push(Span { from, middle, to });
        self.room -= 1 + name.len() + bytes.len();
    }

    /// Keeps told bytes.
    pub fn tell(&mut self, bytes: &[u8])
        requires { length bytes.now ≤ self.old.room }
        ensures { self.new ≡ record { entries = self.old.entries; told = self.old.told ++ bytes.now; room = self.old.room - length bytes.now } }
    {
        let _ = self.told.extend_from_slice(bytes);
        self.room -= bytes.len();
    }

    /// The bytes that were last stored under this name.
    pub fn stored(&self, name: &[u8]) -> Option<&[u8]>
        ensures { option_copied result ≡ stored_in self.now.entries name.now }
    {
        last_named(&self.bytes, &self.spans, name)
    }
}

/// The bytes of the last span with this name.
fn last_named<'a>(bytes: &'a [u8], spans: &[Span], name: &[u8]) -> Option<&'a [u8]>
    requires { AreWithin bytes.now spans.now }
    ensures { option_copied result ≡ stored_in (entries_of bytes.now spans.now) name.now }
{
    let mut found = None;
    for span in spans {
        if &bytes[span.from..span.middle] == name {
            found = Some(&bytes[span.middle..span.to]);
        }
    }
    found
}
