//! The trait of shelves. Every sentence about a shelf speaks of its meaning, a record of what it holds and counts.

ghost use Rattle.std.specs.Prelude.{◌≤◌, ◌^◌};
ghost use Rattle.shelf.specs.Outside.{Meaning, InRange, Fetches, FetchAnswer, Stores, StoreAnswer, Tells};

use gimple_ir::Text;

/// What a fetch answers.
#[derive(Clone, Copy, Debug, PartialEq, Eq)]
pub enum Fetched {
    Done,
    Failed,
    Long,
    Memory,
}

/// What a store answers.
#[derive(Clone, Copy, Debug, PartialEq, Eq)]
pub enum Stored {
    Done,
    Failed,
}

/// Where sources come from, and where stores and messages go.
pub trait Shelf {
    /// What the shelf holds, has told and has counted.
    ghost meaning: { Self → Meaning };

    /// Puts the source of this name into `into`, if it has at most `limit` bytes. The name `-` is standard input.
    /// After any answer but `Done`, `into` is empty. `Memory` may come at any time.
    fn fetch(&mut self, name: &[u8], limit: u64, into: &mut Text) -> Fetched
        requires { limit ≤ 2 ^ 32 }
        ensures keeps { Fetches (meaning self.old) (meaning self.new) }
        ensures answer { FetchAnswer (meaning self.old) (meaning self.new) name.now limit result into.new }
        ensures range { InRange (meaning self.new) };

    /// Stores these bytes under this name. The name `-` is standard output. Takes no memory that can be refused.
    fn store(&mut self, name: &[u8], bytes: &[u8]) -> Stored
        ensures keeps { Stores (meaning self.old) (meaning self.new) name.now bytes.now }
        ensures answer { StoreAnswer (meaning self.old) (meaning self.new) name.now bytes.now result }
        ensures range { InRange (meaning self.new) };

    /// Tells one message to the error stream. A failure is counted, and not answered.
    fn tell(&mut self, bytes: &[u8])
        ensures tells { Tells (meaning self.old) (meaning self.new) bytes.now }
        ensures range { InRange (meaning self.new) };
}
