//! What a run keeps of memory.

use gimple_ir::{Object, Scalar, Value};

/// A slot of an object in memory, and what it holds.
#[derive(Debug, Drop)]
pub struct MemorySlot<'a> {
    pub object: Object,
    pub offset: u64,
    pub scalar: Scalar,
    pub value: Value<'a>,
}

/// A living object: its size in bytes, and whether no store may go there.
#[derive(Clone, Copy, Debug)]
pub struct Extent {
    pub object: Object,
    pub size: u64,
    pub constant: bool,
}

/// Where an access goes, what is there, and whether no store may go there.
#[derive(Debug, Drop)]
pub struct FoundSlot<'a> {
    pub object: Object,
    pub offset: u64,
    pub value: Value<'a>,
    pub constant: bool,
}
