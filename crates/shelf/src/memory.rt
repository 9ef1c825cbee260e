//! A shelf in memory, whose calls can be made to fail.

ghost use Rattle.std.specs.Prelude.{◌≡◌, ◌≢◌, [], ◌≤◌, ◌^◌, IfOk, OnOk, OnErr, IsSomeAnd};
ghost use Rattle.std.specs.Option.{option_copied};
ghost use Rattle.shelf.specs.Kept.{stored_in};
ghost use Rattle.shelf.specs.Memory.{fail_of, source_of, kept_of};

use crate::log::Log;
use crate::outside::{Fetched, Shelf, Stored};
use gimple_ir::{OutOfMemory, Text};
use std::alloc::Global;
use std::marker::Model;

/// Lets the call of this number fail. Calls count from 1, and each call after number 2^64 - 1 has that number.
/// A store or a tell that fails so keeps the first `kept` bytes.
#[derive(Clone, Copy, Debug, PartialEq, Eq)]
pub struct Fail {
    pub call: u64,
    pub kept: u64,
}

#[derive(Debug, Drop)]
pub struct Source {
    pub name: Text,
    pub bytes: Text,
}

/// Sources, stores and told bytes in memory. A store uses one byte of the room, the bytes of its name and the bytes
/// that it keeps; a tell uses the bytes that it keeps. What would use more than is left fails and leaves all as it is.
#[derive(Debug, Drop)]
pub struct MemoryShelf {
    sources: Vec<Source>,
    fails: Vec<Fail>,
    log: Log,
    calls: u64,
    read_faults: u64,
    write_faults: u64,
    tell_faults: u64,
    taken: u64,
}

impl Model for MemoryShelf {
    ghost use Rattle.shelf.specs.Memory.{Memory};

    ghost Value = { Memory };

    ghost use Rattle.shelf.specs.MemoryView.{memory_value};
    ghost use Rattle.shelf.specs.Outside.{InRange};
    ghost use Rattle.shelf.specs.Memory.{memory_meaning};

    ghost view = { memory_value };

    ghost invariant = { λ s. InRange (memory_meaning (memory_value s)) };
}

impl MemoryShelf {
    ghost use Rattle.shelf.specs.Memory.{new_memory, with_source, memory_meaning};
    ghost use Rattle.shelf.specs.Outside.{at_name};

    /// A shelf with room for so many bytes, and these fails; of two fails of one call the first counts.
    /// It has no sources and no stores, has told nothing, and all its numbers are 0.
    pub fn new(alloc: Global, room: u64, fails: &[Fail]) -> Result<MemoryShelf, OutOfMemory>
        ensures { IfOk result (λ shelf. shelf ≡ new_memory room fails.now) }
    {
        Ok(MemoryShelf {
            sources: Vec::new(alloc),
            fails: Vec::from_slice(alloc, fails)?,
            log: Log::new(alloc, room as usize)?,
            calls: 0,
            read_faults: 0,
            write_faults: 0,
            tell_faults: 0,
            taken: 0,
        })
    }

    /// Puts a source in. Of two of one name the first counts. No fail counts this call, and after a refusal the
    /// shelf is unchanged.
    pub fn add_source(&mut self, name: &[u8], bytes: &[u8]) -> Result<(), OutOfMemory>
        ensures ok { OnOk result (self.new ≡ with_source self.old name.now bytes.now) }
        ensures err { OnErr result (self.new ≡ self.old) }
    {
        let alloc = *self.sources.allocator();
        let source = Source {
            name: Text::from_bytes(alloc, name)?,
            bytes: Text::from_bytes(alloc, bytes)?,
        };
        self.sources.push(source)?;
        Ok(())
    }

    /// What was last stored under this name; None exactly where it was never stored. It is what the shelf's meaning
    /// has under it.
    #[tactic(auto, using(crate::proofs::Stores::stored_meant))]
    pub fn stored(&self, name: &[u8]) -> Option<&[u8]>
        ensures last { option_copied result ≡ stored_in self.now.log.entries name.now }
        ensures meant { IsSomeAnd (memory_meaning self.now).stores (λ stores. option_copied result ≡ at_name stores name.now) }
    {
        self.log.stored(name)
    }

    /// All bytes that were told.
    pub fn told(&self) -> &[u8]
        ensures { result.now ≡ self.now.log.told }
    {
        self.log.told()
    }
}

impl MemoryShelf {
    ghost use Rattle.shelf.specs.Memory.{FetchesExactly, StoresExactly, TellsExactly, memory_meaning};
    ghost use Rattle.shelf.specs.Outside.{InRange};

    fn take_source(&mut self, name: &[u8], limit: u64, into: &mut Text) -> Fetched
        requires { limit ≤ 2 ^ 32 }
        ensures exact { FetchesExactly self.old self.new name.now limit result into.new }
        ensures empty { (result ≢ Fetched.Done) → into.new ≡ [] }
        ensures was { InRange (memory_meaning self.old) }
        ensures range { InRange (memory_meaning self.new) }
    {
        into.clear();
        self.calls = self.calls.saturating_add(1);
        if fail_at(&self.fails, self.calls).is_some() {
            self.read_faults = self.read_faults.saturating_add(1);
            return Fetched::Failed;
        }
        let Some(bytes) = source_at(&self.sources, name) else {
            return Fetched::Failed;
        };
        if bytes.len() as u64 > limit {
            self.taken = self.taken.saturating_add(limit + 1);
            return Fetched::Long;
        }
        self.taken = self.taken.saturating_add(bytes.len() as u64);
        match into.push_all(bytes) {
            Ok(()) => Fetched::Done,
            Err(_) => Fetched::Memory,
        }
    }

    fn put_store(&mut self, name: &[u8], bytes: &[u8]) -> Stored
        ensures exact { StoresExactly self.old self.new name.now bytes.now result }
        ensures was { InRange (memory_meaning self.old) }
        ensures range { InRange (memory_meaning self.new) }
    {
        self.calls = self.calls.saturating_add(1);
        let fail = fail_at(&self.fails, self.calls);
        let bytes = kept(bytes, fail);
        if 1 + name.len() + bytes.len() > self.log.room() {
            self.write_faults = self.write_faults.saturating_add(1);
            return Stored::Failed;
        }
        self.log.store(name, bytes);
        if fail.is_some() {
            self.write_faults = self.write_faults.saturating_add(1);
            return Stored::Failed;
        }
        Stored::Done
    }

    fn put_told(&mut self, bytes: &[u8])
        ensures exact { TellsExactly self.old self.new bytes.now }
        ensures was { InRange (memory_meaning self.old) }
        ensures range { InRange (memory_meaning self.new) }
    {
        self.calls = self.calls.saturating_add(1);
        let fail = fail_at(&self.fails, self.calls);
        let bytes = kept(bytes, fail);
        if bytes.len() > self.log.room() {
            self.tell_faults = self.tell_faults.saturating_add(1);
            return;
        }
        self.log.tell(bytes);
        if fail.is_some() {
            self.tell_faults = self.tell_faults.saturating_add(1);
        }
    }
}

impl Shelf for MemoryShelf {
    ghost use Rattle.shelf.specs.Memory.{FetchesExactly, StoresExactly, TellsExactly, memory_meaning};
    ghost use Rattle.shelf.specs.Outside.{InRange, Fetches, FetchAnswer, Stores, StoreAnswer, Tells};

    ghost meaning = { memory_meaning };

    /// Fails exactly where this call's number is in the fails, or the name has no source; the first case counts.
    #[tactic(auto, using(crate::proofs::Lookups::lookups))]
    fn fetch(&mut self, name: &[u8], limit: u64, into: &mut Text) -> Fetched
        requires { limit ≤ 2 ^ 32 }
        ensures keeps { Fetches (memory_meaning self.old) (memory_meaning self.new) }
        ensures answer { FetchAnswer (memory_meaning self.old) (memory_meaning self.new) name.now limit result into.new }
        ensures range { InRange (memory_meaning self.new) }
        ensures exact { FetchesExactly self.old self.new name.now limit result into.new }
    {
        self.take_source(name, limit, into)
    }

    /// Fails exactly where this call's number is in the fails, or the room is exceeded; both count.
    fn store(&mut self, name: &[u8], bytes: &[u8]) -> Stored
        ensures keeps { Stores (memory_meaning self.old) (memory_meaning self.new) name.now bytes.now }
        ensures answer { StoreAnswer (memory_meaning self.old) (memory_meaning self.new) name.now bytes.now result }
        ensures range { InRange (memory_meaning self.new) }
        ensures exact { StoresExactly self.old self.new name.now bytes.now result }
    {
        self.put_store(name, bytes)
    }

    /// Counts a fault exactly where this call's number is in the fails, or the room is exceeded.
    fn tell(&mut self, bytes: &[u8])
        ensures tells { Tells (memory_meaning self.old) (memory_meaning self.new) bytes.now }
        ensures range { InRange (memory_meaning self.new) }
        ensures exact { TellsExactly self.old self.new bytes.now }
    {
        self.put_told(bytes)
    }
}

/// The bytes that the first fail of this call keeps.
fn fail_at(fails: &[Fail], call: u64) -> Option<u64>
    ensures { result ≡ fail_of fails.now call }
{
    match fails.iter().find(|fail| fail.call == call) {
        Some(fail) => Some(fail.kept),
        None => None,
    }
}

/// The first source of this name.
fn source_at<'a>(sources: &'a [Source], name: &[u8]) -> Option<&'a [u8]>
    ensures { option_copied result ≡ source_of sources.now name.now }
{
    match sources.iter().find(|source| name == source.name.as_slice()) {
        Some(source) => Some(source.bytes.as_slice()),
        None => None,
    }
}

/// As much of the bytes as a fail keeps.
fn kept(bytes: &[u8], fail: Option<u64>) -> &[u8]
    ensures { result.now ≡ kept_of bytes.now fail }
{
    match fail {
        Some(count) if count < bytes.len() as u64 => &bytes[..count as usize],
        _ => bytes,
    }
}
