//! The functions whose addresses stand in a program.

ghost use Rattle.std.specs.Prelude.{◌≡◌, ℕ, ◌<◌, ◌^◌, ◌++◌, length, flat_map, Contains, IfOk, OnOk};
ghost use Rattle.gimple_core.specs.Reach.{operands_of, operands_of_end};
ghost use Rattle.call_graph.specs.Addresses.{operand_address, addresses_in, body_addresses, block_addresses, function_addresses, item_addresses, addresses_of};
ghost use Rattle.call_graph.specs.Reached.{AreAddressed, marked_too};

use gimple_core::{
    Block, Checked, End, Function, Global, Listed, Marks, Operand, OutOfMemory, Stmt,
};
use graph_walk::all_false;
use name_tables::NamedFunctions;
use std::alloc::Global as Heap;

/// Puts the number of the function whose address an operand is behind the others.
fn push_address(
    functions: &NamedFunctions<'_>,
    operand: &Operand,
    numbers: &mut Vec<u32>,
) -> Result<(), OutOfMemory>
    requires { length functions.now < 2 ^ 32 }
    ensures { OnOk result (numbers.new.items ≡ numbers.old.items ++ operand_address functions.now operand.now) }
{
    match operand {
        Operand::Address { variable, .. } => match functions.place(variable) {
            Some(number) => {
                numbers.push(number as u32)?;
                Ok(())
            }
            None => Ok(()),
        },
        _ => Ok(()),
    }
}

/// Puts the numbers of the functions whose addresses are operands behind the others.
#[tactic(auto, unfolding(crate::specs::Addresses::addresses_in))]
fn push_operands(
    functions: &NamedFunctions<'_>,
    operands: &[Operand],
    numbers: &mut Vec<u32>,
) -> Result<(), OutOfMemory>
    requires { length functions.now < 2 ^ 32 }
    ensures { OnOk result (numbers.new.items ≡ numbers.old.items ++ addresses_in functions.now operands.now) }
{
    for operand in operands {
        push_address(functions, operand, numbers)?;
    }
    Ok(())
}

/// Puts the numbers of the functions whose addresses are operands of a statement behind the others.
#[tactic(auto, unfolding(crate::specs::Addresses::addresses_in))]
fn push_statement(
    functions: &NamedFunctions<'_>,
    statement: &Stmt,
    numbers: &mut Vec<u32>,
) -> Result<(), OutOfMemory>
    requires { length functions.now < 2 ^ 32 }
    ensures { OnOk result (numbers.new.items ≡ numbers.old.items ++ addresses_in functions.now (operands_of statement.now)) }
{
    match statement {
        Stmt::Copy { from, .. } => push_address(functions, from, numbers),
        Stmt::Arith { left, right, .. } => push_two(functions, left, right, numbers),
        Stmt::Compare { left, right, .. } => push_two(functions, left, right, numbers),
        Stmt::Convert { from, .. } => push_address(functions, from, numbers),
        Stmt::Load { .. } => Ok(()),
        Stmt::Store { from, .. } => push_address(functions, from, numbers),
        Stmt::Call { arguments, .. } => push_operands(functions, arguments.as_slice(), numbers),
        Stmt::Indirect { arguments, .. } => push_operands(functions, arguments.as_slice(), numbers),
        Stmt::Get { .. } => Ok(()),
        Stmt::Put { from } => push_address(functions, from, numbers),
        Stmt::Abort => Ok(()),
    }
}

/// Puts the numbers of the functions whose addresses two operands are behind the others.
fn push_two(
    functions: &NamedFunctions<'_>,
    left: &Operand,
    right: &Operand,
    numbers: &mut Vec<u32>,
) -> Result<(), OutOfMemory>
    requires { length functions.now < 2 ^ 32 }
    ensures { OnOk result (numbers.new.items ≡ numbers.old.items ++ (operand_address functions.now left.now ++ operand_address functions.now right.now)) }
{
    push_address(functions, left, numbers)?;
    push_address(functions, right, numbers)
}

/// Puts the numbers of the functions whose addresses are operands of an end behind the others.
#[tactic(auto, unfolding(crate::specs::Addresses::addresses_in))]
fn push_end(
    functions: &NamedFunctions<'_>,
    end: &End,
    numbers: &mut Vec<u32>,
) -> Result<(), OutOfMemory>
    requires { length functions.now < 2 ^ 32 }
    ensures { OnOk result (numbers.new.items ≡ numbers.old.items ++ addresses_in functions.now (operands_of_end end.now)) }
{
    match end {
        End::Goto(_) => Ok(()),
        End::If { left, right, .. } => push_two(functions, left, right, numbers),
        End::Switch { on, .. } => push_address(functions, on, numbers),
        End::Return(None) => Ok(()),
        End::Return(Some(operand)) => push_address(functions, operand, numbers),
    }
}

/// Puts the numbers of the functions that statements address behind the others.
fn push_body(
    functions: &NamedFunctions<'_>,
    body: &[Stmt],
    numbers: &mut Vec<u32>,
) -> Result<(), OutOfMemory>
    requires { length functions.now < 2 ^ 32 }
    ensures { OnOk result (numbers.new.items ≡ numbers.old.items ++ body_addresses functions.now body.now) }
{
    for statement in body {
        push_statement(functions, statement, numbers)?;
    }
    Ok(())
}

fn push_block(
    functions: &NamedFunctions<'_>,
    block: &Block,
    numbers: &mut Vec<u32>,
) -> Result<(), OutOfMemory>
    requires { length functions.now < 2 ^ 32 }
    ensures { OnOk result (numbers.new.items ≡ numbers.old.items ++ block_addresses functions.now block.now) }
{
    push_body(functions, block.body.as_slice(), numbers)?;
    push_end(functions, &block.end, numbers)
}

/// Puts the numbers of the functions that a function addresses behind the others.
pub fn push_function(
    functions: &NamedFunctions<'_>,
    function: &Function,
    numbers: &mut Vec<u32>,
) -> Result<(), OutOfMemory>
    requires { length functions.now < 2 ^ 32 }
    ensures { OnOk result (numbers.new.items ≡ numbers.old.items ++ function_addresses functions.now function.now) }
{
    push_blocks(functions, function.blocks.as_slice(), numbers)
}

fn push_blocks(
    functions: &NamedFunctions<'_>,
    blocks: &[Block],
    numbers: &mut Vec<u32>,
) -> Result<(), OutOfMemory>
    requires { length functions.now < 2 ^ 32 }
    ensures { OnOk result (numbers.new.items ≡ numbers.old.items ++ flat_map (block_addresses functions.now) blocks.now) }
{
    for block in blocks {
        push_block(functions, block, numbers)?;
    }
    Ok(())
}

fn push_functions(
    functions: &NamedFunctions<'_>,
    bodies: &[Function],
    numbers: &mut Vec<u32>,
) -> Result<(), OutOfMemory>
    requires { length functions.now < 2 ^ 32 }
    ensures { OnOk result (numbers.new.items ≡ numbers.old.items ++ flat_map (function_addresses functions.now) bodies.now) }
{
    for function in bodies {
        push_function(functions, function, numbers)?;
    }
    Ok(())
}

/// Puts the numbers of the functions that items of globals address behind the others.
pub fn push_items(
    functions: &NamedFunctions<'_>,
    globals: &[Global],
    numbers: &mut Vec<u32>,
) -> Result<(), OutOfMemory>
    requires { length functions.now < 2 ^ 32 }
    ensures { OnOk result (numbers.new.items ≡ numbers.old.items ++ item_addresses functions.now globals.now) }
{
    for global in globals {
        push_operands(functions, global.items.as_slice(), numbers)?;
    }
    Ok(())
}

/// The functions that a program addresses, one number for each address.
fn addresses(alloc: Heap, program: &Checked) -> Result<Vec<u32>, OutOfMemory>
    requires { length program.now.program.functions < 2 ^ 32 }
    ensures { IfOk result (λ numbers. numbers.items ≡ addresses_of program.now.program) }
{
    let functions = program.program().functions.as_slice();
    let globals = program.program().globals.as_slice();
    let named = NamedFunctions::new(alloc, functions)?;
    let mut numbers = Vec::new(alloc);
    push_items(&named, globals, &mut numbers)?;
    push_functions(&named, functions, &mut numbers)?;
    Ok(numbers)
}

/// For each function in file order, whether its address is taken, in an item of a global or in any block of any
/// function.
pub fn addressed(alloc: Heap, program: &Checked) -> Result<Marks, OutOfMemory>
    requires { length program.now.program.functions < 2 ^ 32 }
    ensures { IfOk result (AreAddressed program.now.program) }
{
    let numbers = addresses(alloc, program)?;
    let functions = program.program().functions.len();
    let mut marks = all_false(alloc, functions)?;
    mark(&mut marks, numbers.as_slice());
    Ok(Listed::from_vec(marks))
}

#[tactic(auto, unfolding(crate::specs::Reached::marked_too))]
fn mark(marks: &mut Vec<bool>, numbers: &[u32])
    requires { (k : ℕ) → Contains numbers.now k → k < length marks.old.items }
    ensures { marks.new.items ≡ marked_too numbers.now marks.old.items }
{
    for number in numbers {
        marks[*number as usize] = true;
    }
}
