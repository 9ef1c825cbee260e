//! A small analysis: at which points memory is as it was when the function was entered.

ghost use Rattle.std.specs.Prelude.{◌≡◌};
ghost use Rattle.block_flow.specs.Unwritten.{may_write, UnwrittenHold};

use crate::analysis::BodyAnalysis;
use fix_engine::Lifted;
use gimple_core::{End, OutOfMemory, Stmt};

/// At a point where the value is false no statement of the activation so far wrote to memory or called.
#[derive(Drop)]
pub struct Unwritten;

/// Whether a statement is a store or a call.
fn may_write(statement: &Stmt) -> bool
    ensures { result ≡ may_write statement.now }
{
    match statement {
        Stmt::Store { .. } => true,
        Stmt::Call { .. } => true,
        Stmt::Indirect { .. } => true,
        _ => false,
    }
}

impl BodyAnalysis for Unwritten {
    ghost use Rattle.std.specs.Prelude.{[]};
    ghost use Rattle.block_flow.specs.Unwritten.{unwritten, unwritten_laws};

    type Value = bool;

    ghost kind = { λ _. [] };

    ghost steps = { λ _. unwritten };

    ghost laws = { λ _. unwritten_laws };

    fn begin(&self) -> Result<Lifted<bool>, OutOfMemory> {
        Ok(Lifted::Reached(false))
    }

    fn statement(
        &self,
        _block: u32,
        _index: u32,
        statement: &Stmt,
        value: bool,
    ) -> Result<Lifted<bool>, OutOfMemory> {
        Ok(Lifted::Reached(value || may_write(statement)))
    }

    fn branch(
        &self,
        _block: u32,
        _end: &End,
        _slot: u32,
        value: bool,
    ) -> Result<Lifted<bool>, OutOfMemory> {
        Ok(Lifted::Reached(value))
    }
}

/// In each run of a program without a type fault, on an input of i64 numbers: where the value at a point is false, memory
/// there is what it was when the activation was entered, its locals among it.
pub fn unwritten_hold()
    ensures { UnwrittenHold }
{}
