//! Jump functions of calls.

ghost use Rattle.std.specs.Prelude.{◌≡◌, map, slice_get, IfOk};
ghost use Rattle.std.specs.Option.{option_copied};
ghost use Rattle.body_symbols.specs.Found.{found_symbol};
ghost use Rattle.body_symbols.specs.Jumps.{ancestor, jump_of, jump_or, arguments_of, statement_of, block_of, statement_at, arguments_in, jumps_at, jumps_in, jumps_by};

use crate::symbol::{Symbol, Variable};
use crate::symbols::{PointRow, Symbols};
use crate::variables::Variables;
use gimple_core::{
    Block, Checked, Constant, Edge, Function, Listed, Op, Operand, Operands, OutOfMemory, Point,
    Program, Stmt,
};
use std::alloc::Global;

/// What an argument of a call is, by the formals of the caller, constants and addresses.
#[derive(Clone, Copy, Debug, PartialEq, Eq)]
pub enum JumpFn {
    /// Any value.
    Unknown,
    /// A constant.
    Const(Constant),
    /// A formal, or what an operator makes of it with a number at its right.
    Pass {
        param: u32,
        op: Option<Op>,
        by: i128,
    },
    /// A pointer formal moved by some bytes.
    Ancestor {
        param: u32,
        offset: i64,
    },
    /// An address in a variable.
    Address {
        variable: Variable,
        offset: i64,
    },
}

/// Jump functions of the arguments of a call in order.
pub type Jumps = Listed<JumpFn>;

fn ancestor(param: u32, offset: i64) -> JumpFn
    ensures { result ≡ ancestor param offset }
{
    if offset == 0 {
        JumpFn::Pass {
            param,
            op: None,
            by: 0,
        }
    } else {
        JumpFn::Ancestor { param, offset }
    }
}

fn jump_of(symbol: Symbol) -> JumpFn
    ensures { result ≡ jump_of symbol }
{
    match symbol {
        Symbol::Const(constant) => JumpFn::Const(constant),
        Symbol::Formal(param) => JumpFn::Pass {
            param,
            op: None,
            by: 0,
        },
        Symbol::FormalOp { param, op, by } => JumpFn::Pass {
            param,
            op: Some(op),
            by,
        },
        Symbol::FormalAt {
            param,
            offset: Some(offset),
        } => ancestor(param, offset),
        Symbol::VariableAt {
            variable,
            offset: Some(offset),
        } => JumpFn::Address { variable, offset },
        _ => JumpFn::Unknown,
    }
}

fn jump_or(symbol: Option<Symbol>) -> JumpFn
    ensures { result ≡ jump_or symbol }
{
    match symbol {
        Some(symbol) => jump_of(symbol),
        None => JumpFn::Unknown,
    }
}

fn arguments_of(statement: &Stmt) -> Option<&Operands>
    ensures { option_copied result ≡ arguments_of statement.now }
{
    match statement {
        Stmt::Call {
            to: _,
            callee: _,
            arguments,
        } => Some(arguments),
        Stmt::Indirect {
            to: _,
            signature: _,
            callee: _,
            arguments,
        } => Some(arguments),
        _ => None,
    }
}

fn block_of(function: &Function, block: u32) -> Option<&Block>
    ensures { option_copied result ≡ slice_get function.now.blocks block }
{
    function.blocks.get(block as usize)
}

fn statement_of(block: &Block, index: u32) -> Option<&Stmt>
    ensures { option_copied result ≡ slice_get block.now.body index }
{
    block.body.get(index as usize)
}

/// The statement at a point.
fn statement_at(program: &Program, point: Point) -> Option<&Stmt>
    ensures { option_copied result ≡ statement_at program.now point }
{
    match program.functions.get(point.function as usize) {
        None => None,
        Some(function) => match block_of(function, point.block) {
            None => None,
            Some(block) => statement_of(block, point.index),
        },
    }
}

/// The arguments of the call at a point.
fn arguments_at(program: &Program, point: Point) -> Option<&Operands>
    ensures { option_copied result ≡ arguments_in (statement_at program.now point) }
{
    match statement_at(program, point) {
        Some(statement) => arguments_of(statement),
        None => None,
    }
}

fn jumps_at(
    alloc: Global,
    variables: &Variables,
    symbols: &Symbols,
    point: Point,
    arguments: &[Operand],
) -> Result<Jumps, OutOfMemory>
    ensures { IfOk result (λ jumps. jumps ≡ jumps_at variables.now.globals.now variables.now.locals.now symbols.now point arguments.now) }
{
    let mut jumps = Listed::new(alloc);
    for argument in arguments {
        jumps.push(jump_or(symbols.of(variables, point, argument)))?;
    }
    Ok(jumps)
}

/// The jump functions of a call, one for each argument in order, by the symbols of the caller: `Unknown` for each where
/// symbols do not reach the call. Of a point at which no call is there are none.
///
/// Err is want of memory.
pub fn jumps_of(
    alloc: Global,
    program: &Checked,
    variables: &Variables,
    symbols: &Symbols,
    edge: &Edge,
) -> Result<Jumps, OutOfMemory>
    ensures { IfOk result (λ jumps. jumps ≡ jumps_in program.now.program variables.now.globals.now variables.now.locals.now symbols.now edge.now.point) }
{
    let point = edge.point;
    match arguments_at(program.program(), point) {
        Some(arguments) => jumps_at(alloc, variables, symbols, point, arguments.as_slice()),
        None => Ok(Listed::new(alloc)),
    }
}

/// The jump functions of arguments, one for each in order, by the symbols of the registers at the call.
///
/// Err is want of memory.
pub fn jumps_in_row(
    alloc: Global,
    variables: &Variables,
    symbols: &Symbols,
    row: &PointRow,
    arguments: &[Operand],
) -> Result<Jumps, OutOfMemory>
    ensures { IfOk result (λ jumps. jumps ≡ jumps_by variables.now.globals.now variables.now.locals.now symbols.now.registers row.now arguments.now) }
{
    let mut jumps = Listed::new(alloc);
    for argument in arguments {
        jumps.push(jump_or(symbols.in_row(variables, row, argument)))?;
    }
    Ok(jumps)
}
