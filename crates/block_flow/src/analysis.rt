//! What an analysis of a body has to give.

ghost use Rattle.std.specs.Prelude.{◌≡◌, ℕ, List, IfOk};
ghost use Rattle.fix_engine.specs.declared.lifted.Lifted.{Lifted};
ghost use Rattle.block_flow.specs.Steps.{BodySteps, StepsLaws};

use fix_engine::{Lattice, Lifted};
use gimple_core::{End, OutOfMemory, Stmt};

/// An analysis of one body: values of a lattice, the one at the entry of the body, and what statements and branches make of
/// values. What follows where it is not reached is not reached.
pub trait BodyAnalysis {
    type Value: Lattice;

    /// The kind that all values fit.
    ghost kind: { Self → List ℕ };

    /// What the three methods answer.
    ghost steps: { Self → BodySteps Self.Value };

    /// The value at the entry of the body. Err is want of memory.
    fn begin(&self) -> Result<Lifted<Self::Value>, OutOfMemory>
        ensures { IfOk result (λ x. x ≡ (steps self.now).begin) };

    /// The value after a statement, by the number of its block and its index there. Err is want of memory.
    fn statement(
        &self,
        block: u32,
        index: u32,
        statement: &Stmt,
        value: Self::Value,
    ) -> Result<Lifted<Self::Value>, OutOfMemory>
        requires { Self.Value.fits (kind self.now) value }
        ensures { IfOk result (λ x. x ≡ (steps self.now).statement block index statement.now value) };

    /// The value behind a branch, by the number of its block and its own number among the end's labels. Err is want of memory.
    fn branch(
        &self,
        block: u32,
        end: &End,
        slot: u32,
        value: Self::Value,
    ) -> Result<Lifted<Self::Value>, OutOfMemory>
        requires { Self.Value.fits (kind self.now) value }
        ensures { IfOk result (λ x. x ≡ (steps self.now).branch block end.now slot value) };

    ghost laws: { (t : Self) → StepsLaws Self.Value.fits Self.Value.below (kind t) (steps t) };
}
