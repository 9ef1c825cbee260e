//! The system of equations of an analysis with two nodes a block.

ghost use Rattle.std.specs.Prelude.{◌≡◌, ◌+◌, ◌<◌, ◌^◌, length, Some, slice_get, IfOk};
ghost use Rattle.fix_engine.specs.Lifted.{FitsLifted};
ghost use Rattle.block_flow.specs.Branches.{branches_of};
ghost use Rattle.block_flow.specs.Halves.{through_block, taken, halves_of};
ghost use Rattle.block_flow.specs.System.{AreFew};

use crate::analysis::BodyAnalysis;
use crate::branch::Branch;
use crate::carrying::{carry, leave};
use fix_engine::{Flow, Lattice, Lifted};
use gimple_core::{Block, OutOfMemory};

/// A node is the begin or the end of a block, so that a value goes through a block once for all of its branches.
#[derive(Drop)]
pub struct HalvesFlow<'a, T> {
    pub analysis: &'a T,
    pub blocks: &'a [Block],
    pub branches: &'a [Branch],
    pub ghost same: { branches.now ≡ branches_of blocks.now },
    pub ghost few: { AreFew blocks.now (length branches.now) },
    pub ghost nodes: { length blocks.now + length blocks.now < 2 ^ 32 },
    pub ghost edges: { length blocks.now + length branches.now < 2 ^ 32 },
}

impl<'a, T: BodyAnalysis> Flow for HalvesFlow<'a, T> {
    ghost use Rattle.block_flow.specs.HalvesLaws.{halves_laws};

    type Value = Lifted<T::Value>;

    ghost kind = { λ f. T.kind f.analysis.now };

    ghost equations = { λ f. halves_of (T.steps f.analysis.now) f.blocks.now };

    ghost laws = { λ f. halves_laws T.Value.fits T.Value.below (T.kind f.analysis.now) (λ a h. T.Value.laws.reflexive (T.kind f.analysis.now) a h) (T.steps f.analysis.now) (T.laws f.analysis.now) f.blocks.now };

    fn nodes(&self) -> u32 {
        (self.blocks.len() + self.blocks.len()) as u32
    }

    fn edges(&self) -> u32 {
        (self.blocks.len() + self.branches.len()) as u32
    }

    #[tactic(auto, using(crate::proofs::Numbers::later_source, crate::proofs::Numbers::later_target))]
    fn ends(&self, edge: u32) -> (u32, u32) {
        let count = self.blocks.len() as u32;
        if edge < count {
            return (edge, count + edge);
        }
        let branch = self.numbered(edge - count);
        (count + branch.source, branch.target)
    }

    fn start(&self, node: u32) -> Result<Lifted<T::Value>, OutOfMemory> {
        if node == 0 {
            self.analysis.begin()
        } else {
            Ok(Lifted::NotReached)
        }
    }

    fn flow(&self, edge: u32, from: &Lifted<T::Value>) -> Result<Lifted<T::Value>, OutOfMemory> {
        let count = self.blocks.len() as u32;
        if edge < count {
            return self.through(edge, from);
        }
        self.taken(edge - count, from)
    }
}

impl<'a, T: BodyAnalysis> HalvesFlow<'a, T> {
    /// The branch of this number.
    #[tactic(auto, using(crate::proofs::Numbers::branch_there, crate::proofs::Numbers::source_there))]
    fn numbered(&self, number: u32) -> Branch
        requires { number < length self.now.branches.now }
        ensures there { slice_get (branches_of self.now.blocks.now) number ≡ Some result }
        ensures source { result.source < length self.now.blocks.now }
    {
        self.branches[number as usize]
    }

    /// The value at the begin of a block carried through it.
    fn through(&self, block: u32, from: &Lifted<T::Value>) -> Result<Lifted<T::Value>, OutOfMemory>
        requires { FitsLifted T.Value.fits (T.kind self.now.analysis.now) from.now }
        ensures { IfOk result (λ x. x ≡ through_block (T.steps self.now.analysis.now) block (slice_get self.now.blocks.now block) from.now) }
    {
        let Some(found) = self.blocks.get(block as usize) else {
            return Ok(Lifted::NotReached);
        };
        carry(self.analysis, block, found.body.as_slice(), from)
    }

    /// The value at the end of a block along the branch of this number.
    fn taken(&self, number: u32, from: &Lifted<T::Value>) -> Result<Lifted<T::Value>, OutOfMemory>
        requires { FitsLifted T.Value.fits (T.kind self.now.analysis.now) from.now }
        ensures { IfOk result (λ x. x ≡ taken (T.steps self.now.analysis.now) self.now.blocks.now (slice_get (branches_of self.now.blocks.now) number) from.now) }
    {
        let Some(branch) = self.branches.get(number as usize) else {
            return Ok(Lifted::NotReached);
        };
        let Some(found) = self.blocks.get(branch.source as usize) else {
            return Ok(Lifted::NotReached);
        };
        let value = from.copy()?;
        leave(self.analysis, branch.source, &found.end, branch.slot, value)
    }
}
