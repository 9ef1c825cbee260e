ghost use Rattle.std.specs.Prelude.{◌≡◌, ℕ, ◌+◌, ◌-◌, ◌<◌, ◌≤◌, List, Bool, true, false, IfOk, IfSome, IfNone, length, replicate, slice_index, slice_index_or, slice_set};
ghost use Rattle.fix_board.specs.Edges.{Marks, IsNextReady, is_ready, after_taken, after_given};

use fix_engine::{MarkTree, OutOfMemory};
use std::alloc::Global;
use std::marker::Model;

/// Which edges are dirty, and how often each is out. The least edge that may be taken is at hand. Only `new` takes memory.
#[derive(Drop)]
pub struct EdgeMarks {
    dirty: Vec<bool>,
    out: Vec<u32>,
    /// The dirty edges that are out fewer than 2^32 - 1 times.
    ready: MarkTree,
}

impl Model for EdgeMarks {
    ghost use Rattle.fix_board.specs.Edges.{Marks, AreReady};

    ghost Value = { Marks };

    ghost view = { λ m. record { dirty = m.dirty.items; out = m.out.items } };

    ghost invariant = { λ m. AreReady m.dirty.items m.out.items m.ready };
}

impl EdgeMarks {
    /// Each edge is dirty, and none is out.
    pub fn new(alloc: Global, count: u32) -> Result<EdgeMarks, OutOfMemory>
        ensures { IfOk result (λ m. m ≡ record { dirty = replicate count true; out = replicate count 0 }) }
    {
        let dirty = vec![in alloc; true; count as usize]?;
        let out = vec![in alloc; 0; count as usize]?;
        let ready = all_marked(alloc, count)?;
        Ok(EdgeMarks { dirty, out, ready })
    }

    /// Takes the least of the dirty edges that are out fewer than 2^32 - 1 times.
    pub fn take(&mut self) -> Option<u32>
        ensures next { IfSome result (IsNextReady self.old.dirty self.old.out) }
        ensures taken { IfSome result (λ e. self.new ≡ after_taken self.old e) }
        ensures none { IfNone result ((d : ℕ) → d < length self.old.dirty → is_ready self.old.dirty self.old.out d ≡ false) }
        ensures unchanged { IfNone result (self.new ≡ self.old) }
    {
        let edge = self.ready.first()?;
        self.ready.set(edge, false);
        self.dirty[edge as usize] = false;
        self.out[edge as usize] += 1;
        Some(edge)
    }

    pub fn is_dirty(&self, edge: u32) -> bool
        requires { edge < length self.now.dirty }
        ensures { result ≡ slice_index_or self.now.dirty edge false }
    {
        self.dirty[edge as usize]
    }

    pub fn times_out(&self, edge: u32) -> u32
        requires { edge < length self.now.dirty }
        ensures { result ≡ slice_index self.now.out edge }
    {
        self.out[edge as usize]
    }

    /// The edge is out once less, and dirty.
    pub fn give_back(&mut self, edge: u32)
        requires edge { edge < length self.old.dirty }
        requires out { 0 < slice_index self.old.out edge }
        ensures { self.new ≡ after_given self.old edge }
    {
        self.out[edge as usize] -= 1;
        self.dirty[edge as usize] = true;
        self.ready.set(edge, true);
    }

    /// The edge is out once less.
    pub fn come_home(&mut self, edge: u32)
        requires edge { edge < length self.old.dirty }
        requires out { 0 < slice_index self.old.out edge }
        ensures { self.new ≡ record { dirty = self.old.dirty; out = slice_set self.old.out edge (slice_index self.old.out edge - 1) } }
    {
        self.out[edge as usize] -= 1;
        self.ready.set(edge, self.dirty[edge as usize]);
    }

    pub fn make_dirty(&mut self, edge: u32)
        requires { edge < length self.old.dirty }
        ensures { self.new ≡ record { dirty = slice_set self.old.dirty edge true; out = self.old.out } }
    {
        self.dirty[edge as usize] = true;
        self.ready.set(edge, self.out[edge as usize] < u32::MAX);
    }
}

/// Marks on all numbers below a count.
fn all_marked(alloc: Global, count: u32) -> Result<MarkTree, OutOfMemory>
    ensures len { IfOk result (λ t. length t ≡ count) }
    ensures each { IfOk result (λ t. (e : ℕ) → e < count → slice_index_or t e false ≡ true) }
{
    let mut marks = MarkTree::new(alloc, count)?;
    for number in 0..count {
        marks.set(number, true);
    }
    Ok(marks)
}
