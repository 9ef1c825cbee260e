ghost use Rattle.std.specs.Prelude.{◌≡◌, ℕ, ◌+◌, ◌*◌, ◌/◌, ◌<◌, ◌≤◌, ◌^◌, List, Bool, true, false, IfOk, IfSome, IfNone, length, vec_len, replicate, slice_index, slice_index_or, slice_set};
ghost use Rattle.fix_engine.specs.Marks.{IsRenewed, IsFirstMark, SameFrom};

use crate::lattice::OutOfMemory;
use std::alloc::Global;
use std::marker::Model;

/// What stands in the tree where no number is marked.
const NONE: u32 = u32::MAX;

/// Marks on the numbers below a count. The least marked number is at hand, and a mark is set in steps that grow with the
/// logarithm of the count. Only `new` takes memory.
#[derive(Drop)]
pub struct MarkTree {
    marked: Vec<bool>,
    /// At each place the least marked number under it. The last places are the numbers' own, and the places under `i` are
    /// `2 * i` and `2 * i + 1`.
    least: Vec<u32>,
}

impl Model for MarkTree {
    ghost use Rattle.std.specs.Prelude.{List, Bool};
    ghost use Rattle.fix_engine.specs.Marks.{IsTree};

    ghost Value = { List Bool };

    ghost view = { λ t. t.marked.items };

    ghost invariant = { λ t. IsTree t.marked.items t.least.items };
}

impl MarkTree {
    /// No number below the count is marked.
    pub fn new(alloc: Global, count: u32) -> Result<MarkTree, OutOfMemory>
        ensures { IfOk result (λ t. t ≡ replicate count false) }
    {
        let marked = vec![in alloc; false; count as usize]?;
        let least = vec![in alloc; NONE; 2 * (count as usize)]?;
        Ok(MarkTree { marked, least })
    }

    /// The least marked number.
    pub fn first(&self) -> Option<u32>
        ensures some { IfSome result (IsFirstMark self.now) }
        ensures none { IfNone result ((e : ℕ) → e < length self.now → slice_index_or self.now e false ≡ false) }
    {
        if self.marked.is_empty() {
            return None;
        }
        let first = self.least[1];
        if first == NONE {
            return None;
        }
        Some(first)
    }

    /// Marks a number, or takes its mark away.
    pub fn set(&mut self, at: u32, mark: bool)
        requires { at < length self.old }
        ensures { self.new ≡ slice_set self.old at mark }
    {
        let leaf = self.marked.len() + at as usize;
        self.marked[at as usize] = mark;
        self.least[leaf] = if mark { at } else { NONE };
        renew(&mut self.least, self.marked.len(), leaf);
    }
}

/// Renews the places above a number's own.
fn renew(least: &mut Vec<u32>, count: usize, leaf: usize)
    requires both_each { vec_len least.old ≡ 2 * count }
    requires from { count ≤ leaf }
    requires to { leaf < 2 * count }
    requires others { IsRenewed least.old.items count (leaf / 2) }
    ensures all { IsRenewed least.new.items count 0 }
    ensures leaves { SameFrom count least.old.items least.new.items }
{
    let mut at = leaf;
    while at > 1 {
        at /= 2;
        least[at] = least[2 * at].min(least[2 * at + 1]);
    }
}
