//! Small programs through each public call.

ghost use Rattle.std.specs.Prelude.{◌≡◌, [], IfOk, None};
ghost use Rattle.call_graph.specs.Sample.{address, addressing, call_to, caller, comparer, main_addressing, main_calling, plain, sample, table};

use crate::{addressed, components, drop_unreached, edges, reached};
use gimple_core::{
    Block, Blocks, Checked, Cmp, Decl, End, Function, Functions, Global, Listed, Operand,
    OutOfMemory, Program, Register, Scalar, Shape, Stmt, Stmts, Text,
};
use std::alloc::Global as Heap;
use std::test::Fail;

fn calling(alloc: Heap, callee: &[u8]) -> Result<Stmts, OutOfMemory>
    ensures { IfOk result (λ body. body ≡ call_to callee.now) }
{
    let mut body = Listed::new(alloc);
    body.push(Stmt::Call {
        to: None,
        callee: Text::from_bytes(alloc, callee)?,
        arguments: Listed::new(alloc),
    })?;
    Ok(body)
}

fn function(alloc: Heap, name: &[u8], callee: &[u8]) -> Result<Function, OutOfMemory>
    ensures { IfOk result (λ function. function ≡ caller name.now callee.now) }
{
    let mut blocks = Listed::new(alloc);
    blocks.push(Block {
        label: 2,
        body: calling(alloc, callee)?,
        end: End::Return(None),
    })?;
    Ok(Function {
        name: Text::from_bytes(alloc, name)?,
        params: Listed::new(alloc),
        result: None,
        locals: Listed::new(alloc),
        registers: Listed::new(alloc),
        blocks,
    })
}

fn main_function(alloc: Heap, callee: &[u8]) -> Result<Function, OutOfMemory>
    ensures { IfOk result (λ function. function ≡ main_calling callee.now) }
{
    let mut blocks = Listed::new(alloc);
    blocks.push(Block {
        label: 2,
        body: Listed::new(alloc),
        end: End::Goto(3),
    })?;
    blocks.push(Block {
        label: 3,
        body: calling(alloc, callee)?,
        end: End::Return(Some(Operand::Number(0))),
    })?;
    Ok(Function {
        name: Text::from_bytes(alloc, b"main")?,
        params: Listed::new(alloc),
        result: Some(Scalar::I32),
        locals: Listed::new(alloc),
        registers: Listed::new(alloc),
        blocks,
    })
}

/// `h` and `k` call each other, `main` calls `f` in its second block, and `f` calls itself.
#[tactic(auto, using(crate::proofs::Small::sample_accepted))]
fn small(alloc: Heap) -> Result<Checked, OutOfMemory>
    ensures { IfOk result (λ checked. checked.program ≡ sample) }
{
    let mut functions = Listed::new(alloc);
    functions.push(function(alloc, b"h", b"k")?)?;
    functions.push(function(alloc, b"k", b"h")?)?;
    functions.push(main_function(alloc, b"f")?)?;
    functions.push(function(alloc, b"f", b"f")?)?;
    Ok(Checked::seal(Program {
        profile: 1,
        structs: Listed::new(alloc),
        globals: Listed::new(alloc),
        functions,
    }))
}

fn address_of(alloc: Heap, name: &[u8]) -> Result<Operand, OutOfMemory>
    ensures { IfOk result (λ operand. operand ≡ address name.now) }
{
    Ok(Operand::Address {
        variable: Text::from_bytes(alloc, name)?,
        offset: 0,
    })
}

fn with_blocks(alloc: Heap, name: &[u8], blocks: Blocks) -> Result<Function, OutOfMemory>
    ensures { IfOk result (λ function. function ≡ record { name = name.now; params = []; result = None; locals = []; registers = []; blocks = blocks }) }
{
    Ok(Function {
        name: Text::from_bytes(alloc, name)?,
        params: Listed::new(alloc),
        result: None,
        locals: Listed::new(alloc),
        registers: Listed::new(alloc),
        blocks,
    })
}

fn empty_block(alloc: Heap, label: u64, end: End) -> Block
    ensures { result ≡ record { label = label; body = []; end = end } }
{
    Block {
        label,
        body: Listed::new(alloc),
        end,
    }
}

fn plain_function(alloc: Heap, name: &[u8]) -> Result<Function, OutOfMemory>
    ensures { IfOk result (λ function. function ≡ plain name.now) }
{
    let mut blocks = Listed::new(alloc);
    blocks.push(empty_block(alloc, 2, End::Return(None)))?;
    with_blocks(alloc, name, blocks)
}

fn comparing(alloc: Heap, name: &[u8], other: &[u8]) -> Result<Function, OutOfMemory>
    ensures { IfOk result (λ function. function ≡ comparer name.now other.now) }
{
    let end = End::If {
        left: address_of(alloc, other)?,
        cmp: Cmp::Eq,
        right: Operand::Null,
        yes: 3,
        no: 3,
    };
    let mut blocks = Listed::new(alloc);
    blocks.push(empty_block(alloc, 2, end))?;
    blocks.push(empty_block(alloc, 3, End::Return(None)))?;
    with_blocks(alloc, name, blocks)
}

fn main_blocks(alloc: Heap, name: &[u8]) -> Result<Blocks, OutOfMemory>
    ensures { IfOk result (λ blocks. blocks ≡ (main_addressing name.now).blocks) }
{
    let mut body = Listed::new(alloc);
    body.push(Stmt::Copy {
        to: Text::from_bytes(alloc, b"p")?,
        from: address_of(alloc, name)?,
    })?;
    let mut blocks = Listed::new(alloc);
    blocks.push(empty_block(alloc, 2, End::Return(Some(Operand::Number(0)))))?;
    blocks.push(Block {
        label: 3,
        body,
        end: End::Goto(2),
    })?;
    Ok(blocks)
}

fn addressing_main(alloc: Heap, name: &[u8]) -> Result<Function, OutOfMemory>
    ensures { IfOk result (λ function. function ≡ main_addressing name.now) }
{
    let mut registers = Listed::new(alloc);
    registers.push(Register {
        name: Text::from_bytes(alloc, b"p")?,
        scalar: Scalar::Ptr,
    })?;
    Ok(Function {
        name: Text::from_bytes(alloc, b"main")?,
        params: Listed::new(alloc),
        result: Some(Scalar::I32),
        locals: Listed::new(alloc),
        registers,
        blocks: main_blocks(alloc, name)?,
    })
}

fn table_of(alloc: Heap, name: &[u8]) -> Result<Global, OutOfMemory>
    ensures { IfOk result (λ global. global ≡ table name.now) }
{
    let mut items = Listed::new(alloc);
    items.push(address_of(alloc, name)?)?;
    Ok(Global {
        decl: Decl {
            name: Text::from_bytes(alloc, b"t")?,
            shape: Shape::Plain(Scalar::Ptr),
            length: None,
        },
        constant: true,
        items,
    })
}

fn addressing_functions(alloc: Heap) -> Result<Functions, OutOfMemory>
    ensures { IfOk result (λ functions. functions ≡ addressing.functions) }
{
    let mut functions = Listed::new(alloc);
    functions.push(addressing_main(alloc, b"g")?)?;
    functions.push(plain_function(alloc, b"f")?)?;
    functions.push(plain_function(alloc, b"g")?)?;
    functions.push(comparing(alloc, b"u", b"h")?)?;
    functions.push(plain_function(alloc, b"h")?)?;
    Ok(functions)
}

/// An item addresses `f`, `main` addresses `g` in a block that is not reached, and `u`, which is not reached, addresses
/// `h`.
#[tactic(auto, using(crate::proofs::Small::addressing_accepted))]
fn with_addresses(alloc: Heap) -> Result<Checked, OutOfMemory>
    ensures { IfOk result (λ checked. checked.program ≡ addressing) }
{
    let mut globals = Listed::new(alloc);
    globals.push(table_of(alloc, b"f")?)?;
    Ok(Checked::seal(Program {
        profile: 2,
        structs: Listed::new(alloc),
        globals,
        functions: addressing_functions(alloc)?,
    }))
}

#[test]
fn addresses_are_found(rt: HostRuntime) -> Result<(), Fail> {
    let program = with_addresses(rt.alloc())?;
    let marks = addressed(rt.alloc(), &program)?;
    assert_eq!(rt;
        marks.as_slice(),
        [false, true, true, false, true].as_slice()
    );
    let marks = reached(rt.alloc(), &program)?;
    assert_eq!(rt;
        marks.as_slice(),
        [true, true, true, false, false].as_slice()
    );
    Ok(())
}

#[test]
fn calls_are_found(rt: HostRuntime) -> Result<(), Fail> {
    let program = small(rt.alloc())?;
    let edges = edges(rt.alloc(), &program)?;
    let found = edges.as_slice();
    assert_eq!(rt; found.len(), 4);
    assert!(rt; found[0].caller == 0 && found[0].callee == 1);
    assert!(rt; found[1].caller == 1 && found[1].callee == 0);
    assert!(rt; found[2].caller == 2 && found[2].point.block == 1 && found[2].callee == 3);
    assert!(rt; found[3].caller == 3 && found[3].callee == 3);
    let marks = reached(rt.alloc(), &program)?;
    assert_eq!(rt; marks.as_slice(), [false, false, true, true].as_slice());
    Ok(())
}

#[test]
fn components_are_ordered(rt: HostRuntime) -> Result<(), Fail> {
    let program = small(rt.alloc())?;
    let order = components(rt.alloc(), &program)?;
    let found = order.as_slice();
    assert_eq!(rt; found.len(), 3);
    assert_eq!(rt; found[0].as_slice(), [0, 1].as_slice());
    assert_eq!(rt; found[1].as_slice(), [3].as_slice());
    assert_eq!(rt; found[2].as_slice(), [2].as_slice());
    Ok(())
}

#[test]
fn the_rest_is_dropped(rt: HostRuntime) -> Result<(), Fail> {
    let after = drop_unreached(rt.alloc(), small(rt.alloc())?)?.into_program();
    let functions = after.functions.as_slice();
    assert_eq!(rt; functions.len(), 2);
    assert_eq!(rt; functions[0].name.as_slice(), b"main".as_slice());
    assert_eq!(rt; functions[1].name.as_slice(), b"f".as_slice());
    Ok(())
}
