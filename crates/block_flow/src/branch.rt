//! The branches of the ends of blocks.

/// A branch of the end of a block, by its number there, to a block.
#[derive(Clone, Copy, Debug)]
pub struct Branch {
    pub source: u32,
    pub slot: u32,
    pub target: u32,
}
