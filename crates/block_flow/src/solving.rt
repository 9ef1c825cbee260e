//! The values at the begins of blocks, and at each point.

ghost use Rattle.std.specs.Prelude.{◌≡◌, ◌+◌, ◌<◌, ◌^◌, true, take, length, IfOk};
ghost use Rattle.fix_engine.specs.Least.{IsLeast};
ghost use Rattle.fix_engine.specs.Lifted.{FitsLifted, lifted_below};
ghost use Rattle.block_flow.specs.Branches.{branches_of};
ghost use Rattle.block_flow.specs.Halves.{halves_of};
ghost use Rattle.block_flow.specs.System.{AreFew, AreBegins, Solves, point_value};

use crate::analysis::BodyAnalysis;
use crate::branch::Branch;
use crate::branching::branches_of;
use crate::carrying::carry;
use crate::flow::BlockFlow;
use crate::halves::HalvesFlow;
use fix_engine::{Lattice, Lifted, Solver};
use gimple_core::{Block, OutOfMemory, Stmt};
use std::alloc::Global;
use std::marker::{Send, Sync};

/// The values at the begins of blocks, by one node a block.
fn whole_begins<T: BodyAnalysis + Sync, S: Solver>(
    alloc: Global,
    analysis: &T,
    blocks: &[Block],
    branches: &[Branch],
    solver: &mut S,
) -> Result<Vec<Lifted<T::Value>>, OutOfMemory>
where
    T::Value: Send,
    requires same { branches.now ≡ branches_of blocks.now }
    requires few { AreFew blocks.now (length branches.now) }
    ensures { IfOk result (λ v. AreBegins T.Value.fits T.Value.below (T.kind analysis.now) (T.steps analysis.now) blocks.now v.items) }
{
    let flow = BlockFlow {
        analysis,
        blocks,
        branches,
    };
    let found = solver.solve(alloc, &flow)?;
    Ok(found.into_vec())
}

/// The values at the begins, out of those at the begins and the ends.
fn first_half<T: BodyAnalysis>(
    _analysis: &T,
    blocks: &[Block],
    values: Vec<Lifted<T::Value>>,
) -> Vec<Lifted<T::Value>>
    requires { IsLeast (FitsLifted T.Value.fits (T.kind _analysis.now)) (lifted_below T.Value.below) (halves_of (T.steps _analysis.now) blocks.now) values.items }
    ensures { AreBegins T.Value.fits T.Value.below (T.kind _analysis.now) (T.steps _analysis.now) blocks.now result.items }
{
    let mut values = values;
    values.truncate(blocks.len());
    values
}

/// The values at the begins of blocks, by two nodes a block.
fn half_begins<T: BodyAnalysis + Sync, S: Solver>(
    alloc: Global,
    analysis: &T,
    blocks: &[Block],
    branches: &[Branch],
    solver: &mut S,
) -> Result<Vec<Lifted<T::Value>>, OutOfMemory>
where
    T::Value: Send,
    requires same { branches.now ≡ branches_of blocks.now }
    requires few { AreFew blocks.now (length branches.now) }
    requires nodes { length blocks.now + length blocks.now < 2 ^ 32 }
    requires edges { length blocks.now + length branches.now < 2 ^ 32 }
    ensures { IfOk result (λ v. AreBegins T.Value.fits T.Value.below (T.kind analysis.now) (T.steps analysis.now) blocks.now v.items) }
{
    let flow = HalvesFlow {
        analysis,
        blocks,
        branches,
    };
    let found = solver.solve(alloc, &flow)?;
    Ok(first_half(analysis, blocks, found.into_vec()))
}

/// Whether two nodes a block, and an edge for each block and branch, have numbers.
fn are_numbered(blocks: usize, branches: usize) -> bool
    requires blocks { blocks < 2 ^ 32 }
    requires branches { branches < 2 ^ 32 }
    ensures nodes { result ≡ true → blocks + blocks < 2 ^ 32 }
    ensures edges { result ≡ true → blocks + branches < 2 ^ 32 }
{
    blocks + blocks < 1 << 32 && blocks + branches < 1 << 32
}

/// The values at the begins of a function's blocks: the least solution of the equations of an analysis. A visit of a block
/// carries a value through its statements once, however many branches it has.
///
/// Err is want of memory.
#[tactic(auto, using(crate::proofs::Numbers::few_as))]
pub fn begins<T: BodyAnalysis + Sync, S: Solver>(
    alloc: Global,
    analysis: &T,
    blocks: &[Block],
    solver: &mut S,
) -> Result<Vec<Lifted<T::Value>>, OutOfMemory>
where
    T::Value: Send,
    requires { AreFew blocks.now (length (branches_of blocks.now)) }
    ensures { IfOk result (λ v. AreBegins T.Value.fits T.Value.below (T.kind analysis.now) (T.steps analysis.now) blocks.now v.items) }
{
    let branches = branches_of(alloc, blocks)?;
    if are_numbered(blocks.len(), branches.len()) {
        half_begins(alloc, analysis, blocks, branches.as_slice(), solver)
    } else {
        whole_begins(alloc, analysis, blocks, branches.as_slice(), solver)
    }
}

/// The first statements of a body, as many as the number says, or all.
fn first_of(body: &[Stmt], count: u32) -> &[Stmt]
    ensures { result.now ≡ take count body.now }
{
    let length = body.len();
    if (count as usize) < length {
        &body[..count as usize]
    } else {
        body
    }
}

/// The value at a point, by the number of its block and its index there, and by the values at the begins of blocks. Of a
/// block that the function does not have nothing is reached; behind the end of a block the value is that at its end.
///
/// Err is want of memory.
pub fn value_at<T: BodyAnalysis>(
    analysis: &T,
    blocks: &[Block],
    begins: &[Lifted<T::Value>],
    block: u32,
    index: u32,
) -> Result<Lifted<T::Value>, OutOfMemory>
    requires few { AreFew blocks.now 0 }
    requires begins { Solves T.Value.fits T.Value.below (T.kind analysis.now) (T.steps analysis.now) blocks.now begins.now }
    ensures { IfOk result (λ x. x ≡ point_value (T.steps analysis.now) blocks.now begins.now block index) }
{
    let place = block as usize;
    if place >= blocks.len() {
        return Ok(Lifted::NotReached);
    }
    let body = first_of(blocks[place].body.as_slice(), index);
    carry(analysis, block, body, &begins[place])
}
