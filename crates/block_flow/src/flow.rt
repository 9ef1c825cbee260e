//! The system of equations of an analysis as a flow.

ghost use Rattle.std.specs.Prelude.{◌≡◌, length, Some, IfOk};
ghost use Rattle.fix_engine.specs.Lifted.{FitsLifted};
ghost use Rattle.block_flow.specs.Branches.{branches_of};
ghost use Rattle.block_flow.specs.Steps.{after_statements};
ghost use Rattle.block_flow.specs.System.{along, equations_of, AreFew};

use crate::analysis::BodyAnalysis;
use crate::branch::Branch;
use crate::carrying::{carry, leave};
use fix_engine::{Flow, Lattice, Lifted};
use gimple_core::{Block, OutOfMemory};

/// The system whose least solution has the values at the begins of blocks: a node is a block, an edge is a branch, and a
/// value flows through the block and then along the branch.
#[derive(Drop)]
pub struct BlockFlow<'a, T> {
    pub analysis: &'a T,
    pub blocks: &'a [Block],
    pub branches: &'a [Branch],
    pub ghost same: { branches.now ≡ branches_of blocks.now },
    pub ghost few: { AreFew blocks.now (length branches.now) },
}

impl<'a, T: BodyAnalysis> Flow for BlockFlow<'a, T> {
    ghost use Rattle.block_flow.specs.Laws.{flow_laws};

    type Value = Lifted<T::Value>;

    ghost kind = { λ f. T.kind f.analysis.now };

    ghost equations = { λ f. equations_of (T.steps f.analysis.now) f.blocks.now };

    ghost laws = { λ f. flow_laws T.Value.fits T.Value.below (T.kind f.analysis.now) (λ a h. T.Value.laws.reflexive (T.kind f.analysis.now) a h) (T.steps f.analysis.now) (T.laws f.analysis.now) f.blocks.now };

    fn nodes(&self) -> u32 {
        self.blocks.len() as u32
    }

    fn edges(&self) -> u32 {
        self.branches.len() as u32
    }

    fn ends(&self, edge: u32) -> (u32, u32) {
        let branch = self.branches[edge as usize];
        (branch.source, branch.target)
    }

    fn start(&self, node: u32) -> Result<Lifted<T::Value>, OutOfMemory> {
        if node == 0 {
            self.analysis.begin()
        } else {
            Ok(Lifted::NotReached)
        }
    }

    #[tactic(auto, using(crate::proofs::Flowing::along_none))]
    fn flow(&self, edge: u32, from: &Lifted<T::Value>) -> Result<Lifted<T::Value>, OutOfMemory> {
        let Some(branch) = self.branches.get(edge as usize) else {
            return Ok(Lifted::NotReached);
        };
        self.along(*branch, from)
    }
}

impl<'a, T: BodyAnalysis> BlockFlow<'a, T> {
    /// The value at the begin of a block carried through it and along a branch.
    #[tactic(auto, unfolding(crate::specs::System::along))]
    fn along(
        &self,
        branch: Branch,
        from: &Lifted<T::Value>,
    ) -> Result<Lifted<T::Value>, OutOfMemory>
        requires { FitsLifted T.Value.fits (T.kind self.now.analysis.now) from.now }
        ensures { IfOk result (λ x. x ≡ along (T.steps self.now.analysis.now) self.now.blocks.now (Some branch) from.now) }
    {
        let Some(block) = self.blocks.get(branch.source as usize) else {
            return Ok(Lifted::NotReached);
        };
        let value = carry(self.analysis, branch.source, block.body.as_slice(), from)?;
        leave(self.analysis, branch.source, &block.end, branch.slot, value)
    }
}
