//! The thresholds of a program.

ghost use Rattle.std.specs.Prelude.{◌≡◌, ◌≤◌, ◌<◌, ◌-◌, ◌+◌, ◌^◌, ℕ, ℤ, pos, ◌-ℤ◌, [], ◌∷◌, OnOk, IfOk, List, Option};
ghost use Rattle.value_domain.specs.Thresholds.{Limits, IsLawful, noted, operand_noted, operands_noted, stmt_noted, stmts_noted, cases_noted, option_noted, end_noted, blocks_noted, functions_noted, globals_noted, program_noted, put_word, words_put, power_put, negative_put, powers_put, negatives_put, fixed_thresholds, thresholds_list};

use crate::bit_operators::ones;
use crate::constant::NumberOrder;
use crate::constant_operators::is_word;
use crate::numbers::{minus, plus};
use crate::thresholds::Thresholds;
use gimple_core::{
    Block, Case, Checked, End, Function, Global as Variable, Operand, OutOfMemory, Params, Stmt,
};
use lattice_parts::{has, place};
use std::alloc::Global;

/// Puts a number behind the others where it is new and they are fewer than 64.
fn note(found: &mut Vec<i128>, value: i128) -> Result<(), OutOfMemory>
    ensures { OnOk result (found.new.items ≡ noted value found.old.items) }
{
    if found.len() >= 64 {
        return Ok(());
    }
    if has::<i128, NumberOrder>(found.as_slice(), &value) {
        return Ok(());
    }
    found.push(value)?;
    Ok(())
}

fn note_operand(found: &mut Vec<i128>, operand: &Operand) -> Result<(), OutOfMemory>
    ensures { OnOk result (found.new.items ≡ operand_noted operand.now found.old.items) }
{
    match operand {
        Operand::Number(value) => note(found, *value),
        _ => Ok(()),
    }
}

fn note_operands(found: &mut Vec<i128>, operands: &[Operand]) -> Result<(), OutOfMemory>
    ensures { OnOk result (found.new.items ≡ operands_noted operands.now found.old.items) }
{
    for at in 0..operands.len() {
        note_operand(found, &operands[at])?;
    }
    Ok(())
}

fn note_statement(found: &mut Vec<i128>, statement: &Stmt) -> Result<(), OutOfMemory>
    ensures { OnOk result (found.new.items ≡ stmt_noted statement.now found.old.items) }
{
    match statement {
        Stmt::Copy { to: _, from } => note_operand(found, from),
        Stmt::Arith {
            to: _,
            left,
            op: _,
            right,
        } => {
            note_operand(found, left)?;
            note_operand(found, right)
        }
        Stmt::Compare {
            to: _,
            left,
            cmp: _,
            right,
        } => {
            note_operand(found, left)?;
            note_operand(found, right)
        }
        Stmt::Convert {
            to: _,
            scalar: _,
            from,
        } => note_operand(found, from),
        Stmt::Store {
            scalar: _,
            place: _,
            from,
        } => note_operand(found, from),
        Stmt::Call {
            to: _,
            callee: _,
            arguments,
        } => note_operands(found, arguments.as_slice()),
        Stmt::Indirect {
            to: _,
            signature: _,
            callee: _,
            arguments,
        } => note_operands(found, arguments.as_slice()),
        Stmt::Put { from } => note_operand(found, from),
        _ => Ok(()),
    }
}

fn note_statements(found: &mut Vec<i128>, statements: &[Stmt]) -> Result<(), OutOfMemory>
    ensures { OnOk result (found.new.items ≡ stmts_noted statements.now found.old.items) }
{
    for at in 0..statements.len() {
        note_statement(found, &statements[at])?;
    }
    Ok(())
}

fn note_cases(found: &mut Vec<i128>, cases: &[Case]) -> Result<(), OutOfMemory>
    ensures { OnOk result (found.new.items ≡ cases_noted cases.now found.old.items) }
{
    for at in 0..cases.len() {
        note(found, cases[at].value)?;
    }
    Ok(())
}

fn note_end(found: &mut Vec<i128>, end: &End) -> Result<(), OutOfMemory>
    ensures { OnOk result (found.new.items ≡ end_noted end.now found.old.items) }
{
    match end {
        End::Goto(_) => Ok(()),
        End::If {
            left,
            cmp: _,
            right,
            yes: _,
            no: _,
        } => {
            note_operand(found, left)?;
            note_operand(found, right)
        }
        End::Switch {
            on,
            cases,
            other: _,
        } => {
            note_operand(found, on)?;
            note_cases(found, cases.as_slice())
        }
        End::Return(None) => Ok(()),
        End::Return(Some(value)) => note_operand(found, value),
    }
}

fn note_blocks(found: &mut Vec<i128>, blocks: &[Block]) -> Result<(), OutOfMemory>
    ensures { OnOk result (found.new.items ≡ blocks_noted blocks.now found.old.items) }
{
    for at in 0..blocks.len() {
        let block = &blocks[at];
        note_statements(found, block.body.as_slice())?;
        note_end(found, &block.end)?;
    }
    Ok(())
}

fn note_functions(found: &mut Vec<i128>, functions: &[Function]) -> Result<(), OutOfMemory>
    ensures { OnOk result (found.new.items ≡ functions_noted functions.now found.old.items) }
{
    for at in 0..functions.len() {
        note_blocks(found, functions[at].blocks.as_slice())?;
    }
    Ok(())
}

fn note_globals(found: &mut Vec<i128>, globals: &[Variable]) -> Result<(), OutOfMemory>
    ensures { OnOk result (found.new.items ≡ globals_noted globals.now found.old.items) }
{
    for at in 0..globals.len() {
        note_operands(found, globals[at].items.as_slice())?;
    }
    Ok(())
}

/// Puts a number of some scalar into its place among thresholds.
fn put(ends: &mut Vec<i128>, value: i128) -> Result<(), OutOfMemory>
    ensures { OnOk result (ends.new.items ≡ put_word value ends.old.items) }
{
    if is_word(value) {
        place::<i128, NumberOrder>(ends, value)
    } else {
        Ok(())
    }
}

fn put_all(ends: &mut Vec<i128>, values: &[i128]) -> Result<(), OutOfMemory>
    ensures { OnOk result (ends.new.items ≡ words_put values.now ends.old.items) }
{
    for at in 0..values.len() {
        put(ends, values[at])?;
    }
    Ok(())
}

/// Puts a power of two and its neighbours.
fn put_power(ends: &mut Vec<i128>, bit: u32) -> Result<(), OutOfMemory>
    requires { bit ≤ 64 }
    ensures { OnOk result (ends.new.items ≡ power_put bit ends.old.items) }
{
    let below = i128::from(ones(bit));
    put(ends, below)?;
    put(ends, plus(below, 1))?;
    put(ends, plus(below, 2))?;
    Ok(())
}

/// Puts the negatives of a power of two and of its neighbours.
fn put_negative(ends: &mut Vec<i128>, bit: u32) -> Result<(), OutOfMemory>
    requires { bit < 64 }
    ensures { OnOk result (ends.new.items ≡ negative_put bit ends.old.items) }
{
    let below = i128::from(ones(bit));
    put(ends, minus(0, below))?;
    put(ends, minus(-1, below))?;
    put(ends, minus(-2, below))?;
    Ok(())
}

/// The thresholds that every program has.
#[tactic(auto, unfolding(crate::specs::Thresholds::fixed_thresholds))]
pub(crate) fn fixed(alloc: Global) -> Result<Vec<i128>, OutOfMemory>
    ensures { IfOk result (λ v. v.items ≡ fixed_thresholds) }
{
    let mut ends = Vec::new(alloc);
    ends.push(0)?;
    for bit in 0u32..65 {
        put_power(&mut ends, bit)?;
    }
    for bit in 0u32..64 {
        put_negative(&mut ends, bit)?;
    }
    Ok(ends)
}

/// The thresholds of a program: 0, the powers of two with their neighbours and negatives, and the first 64 distinct
/// numbers among its items, operands and cases; and how many constants a list has at most.
pub fn thresholds_of(
    alloc: Global,
    program: &Checked,
    limits: &Params,
) -> Result<Thresholds, OutOfMemory>
    ensures size { IfOk result (λ t. t.size ≡ limits.now.ipa_cp_value_list_size) }
    ensures ends { IfOk result (λ t. t.ends ≡ thresholds_list program.now.program) }
{
    let program = program.program();
    let mut found = Vec::new(alloc);
    note_globals(&mut found, program.globals.as_slice())?;
    note_functions(&mut found, program.functions.as_slice())?;
    let mut ends = fixed(alloc)?;
    put_all(&mut ends, found.as_slice())?;
    Ok(Thresholds::new(limits.ipa_cp_value_list_size, ends))
}
