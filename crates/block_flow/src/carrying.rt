//! Values carried through blocks and along branches.

ghost use Rattle.std.specs.Prelude.{◌≡◌, ◌<◌, ◌^◌, length, IfOk};
ghost use Rattle.fix_engine.specs.Lifted.{FitsLifted};
ghost use Rattle.block_flow.specs.Steps.{where_reached, after_statements};

use crate::analysis::BodyAnalysis;
use fix_engine::{Lattice, Lifted};
use gimple_core::{End, OutOfMemory, Stmt};

/// The value after a statement, by the number of its block and its index there, where it is reached. Err is want of memory.
pub fn pass<T: BodyAnalysis>(
    analysis: &T,
    block: u32,
    index: u32,
    statement: &Stmt,
    value: Lifted<T::Value>,
) -> Result<Lifted<T::Value>, OutOfMemory>
    requires { FitsLifted T.Value.fits (T.kind analysis.now) value }
    ensures after { IfOk result (λ x. x ≡ where_reached value ((T.steps analysis.now).statement block index statement.now)) }
    ensures fits { IfOk result (FitsLifted T.Value.fits (T.kind analysis.now)) }
{
    match value {
        Lifted::NotReached => Ok(Lifted::NotReached),
        Lifted::Reached(value) => analysis.statement(block, index, statement, value),
    }
}

/// The value behind statements of a block, from its begin on. Err is want of memory.
pub fn carry<T: BodyAnalysis>(
    analysis: &T,
    block: u32,
    body: &[Stmt],
    from: &Lifted<T::Value>,
) -> Result<Lifted<T::Value>, OutOfMemory>
    requires fits { FitsLifted T.Value.fits (T.kind analysis.now) from.now }
    requires few { length body.now < 2 ^ 32 }
    ensures after { IfOk result (λ x. x ≡ after_statements (T.steps analysis.now).statement block 0 body.now from.now) }
    ensures fits { IfOk result (FitsLifted T.Value.fits (T.kind analysis.now)) }
{
    let mut value = from.copy()?;
    for index in 0..body.len() {
        value = pass(analysis, block, index as u32, &body[index], value)?;
    }
    Ok(value)
}

/// The value behind a branch of an end, by the number of its block and its own number there, where it is reached. Err is
/// want of memory.
pub fn leave<T: BodyAnalysis>(
    analysis: &T,
    block: u32,
    end: &End,
    slot: u32,
    value: Lifted<T::Value>,
) -> Result<Lifted<T::Value>, OutOfMemory>
    requires { FitsLifted T.Value.fits (T.kind analysis.now) value }
    ensures { IfOk result (λ x. x ≡ where_reached value ((T.steps analysis.now).branch block end.now slot)) }
{
    match value {
        Lifted::NotReached => Ok(Lifted::NotReached),
        Lifted::Reached(value) => analysis.branch(block, end, slot, value),
    }
}
