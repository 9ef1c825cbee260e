//! The numbers of what has no names of a function in it.

ghost use Rattle.std.specs.Prelude.{◌≡◌, OnOk, map};
ghost use Rattle.icf_classes.specs.Placed.{scalar_of, placed_local};
ghost use Rattle.icf_classes.specs.Codes.{code_items, code_count, code_text, code_spot, scalar_number, op_number, cmp_number, code_scalar, code_op, code_cmp, code_scalars, code_result, code_signature, code_shape, code_length, code_local, code_locals};

use crate::row::Row;
use gimple_core::{Cmp, Decl, Op, OutOfMemory, Register, Scalar, Shape, Signature, Text};

#[tactic(auto, unfolding(crate::specs::Codes::code_items))]
fn put_bytes(row: &mut Row, bytes: &[u8]) -> Result<(), OutOfMemory>
    ensures { OnOk result (row.new ≡ code_items code_count bytes.now row.old) }
{
    for byte in bytes {
        row.put_count(u64::from(*byte))?;
    }
    Ok(())
}

/// Puts the bytes of a name, and how many there are.
#[tactic(auto, unfolding(crate::specs::Codes::code_text, crate::specs::Codes::code_list))]
pub(crate) fn put_text(row: &mut Row, name: &Text) -> Result<(), OutOfMemory>
    ensures { OnOk result (row.new ≡ code_text name.now row.old) }
{
    put_bytes(row, name.as_slice())?;
    row.put_count(name.len() as u64)
}

/// Puts a position, if there is one.
#[tactic(auto, unfolding(crate::specs::Codes::code_spot, crate::specs::Codes::code_option))]
pub(crate) fn put_place(row: &mut Row, place: Option<usize>) -> Result<(), OutOfMemory>
    ensures { OnOk result (row.new ≡ code_spot place row.old) }
{
    match place {
        Some(place) => {
            row.put_count(place as u64)?;
            row.put_count(1)
        }
        None => row.put_count(0),
    }
}

fn scalar_number(scalar: Scalar) -> u64
    ensures { result ≡ scalar_number scalar }
{
    match scalar {
        Scalar::I8 => 0,
        Scalar::I16 => 1,
        Scalar::I32 => 2,
        Scalar::I64 => 3,
        Scalar::U8 => 4,
        Scalar::U16 => 5,
        Scalar::U32 => 6,
        Scalar::U64 => 7,
        Scalar::Ptr => 8,
    }
}

fn op_number(op: Op) -> u64
    ensures { result ≡ op_number op }
{
    match op {
        Op::Add => 0,
        Op::Sub => 1,
        Op::Mul => 2,
        Op::Div => 3,
        Op::Rem => 4,
        Op::And => 5,
        Op::Or => 6,
        Op::Xor => 7,
        Op::Shl => 8,
        Op::Shr => 9,
    }
}

fn cmp_number(cmp: Cmp) -> u64
    ensures { result ≡ cmp_number cmp }
{
    match cmp {
        Cmp::Eq => 0,
        Cmp::Ne => 1,
        Cmp::Lt => 2,
        Cmp::Le => 3,
        Cmp::Gt => 4,
        Cmp::Ge => 5,
    }
}

#[tactic(auto, unfolding(crate::specs::Codes::code_scalar))]
pub(crate) fn put_scalar(row: &mut Row, scalar: Scalar) -> Result<(), OutOfMemory>
    ensures { OnOk result (row.new ≡ code_scalar scalar row.old) }
{
    row.put_count(scalar_number(scalar))
}

#[tactic(auto, unfolding(crate::specs::Codes::code_op))]
pub(crate) fn put_op(row: &mut Row, op: Op) -> Result<(), OutOfMemory>
    ensures { OnOk result (row.new ≡ code_op op row.old) }
{
    row.put_count(op_number(op))
}

#[tactic(auto, unfolding(crate::specs::Codes::code_cmp))]
pub(crate) fn put_cmp(row: &mut Row, cmp: Cmp) -> Result<(), OutOfMemory>
    ensures { OnOk result (row.new ≡ code_cmp cmp row.old) }
{
    row.put_count(cmp_number(cmp))
}

#[tactic(auto, unfolding(crate::specs::Codes::code_items))]
fn put_each_scalar(row: &mut Row, scalars: &[Scalar]) -> Result<(), OutOfMemory>
    ensures { OnOk result (row.new ≡ code_items code_scalar scalars.now row.old) }
{
    for scalar in scalars {
        put_scalar(row, *scalar)?;
    }
    Ok(())
}

#[tactic(auto, unfolding(crate::specs::Codes::code_scalars, crate::specs::Codes::code_list))]
fn put_scalars(row: &mut Row, scalars: &[Scalar]) -> Result<(), OutOfMemory>
    ensures { OnOk result (row.new ≡ code_scalars scalars.now row.old) }
{
    put_each_scalar(row, scalars)?;
    row.put_count(scalars.len() as u64)
}

#[tactic(auto, unfolding(crate::specs::Codes::code_items))]
fn put_each_register(row: &mut Row, registers: &[Register]) -> Result<(), OutOfMemory>
    ensures { OnOk result (row.new ≡ code_items code_scalar (map scalar_of registers.now) row.old) }
{
    for register in registers {
        put_scalar(row, register.scalar)?;
    }
    Ok(())
}

/// Puts the scalars of registers.
#[tactic(auto, unfolding(crate::specs::Codes::code_scalars), using(crate::proofs::Rows::list_put))]
pub(crate) fn put_registers(row: &mut Row, registers: &[Register]) -> Result<(), OutOfMemory>
    ensures { OnOk result (row.new ≡ code_scalars (map scalar_of registers.now) row.old) }
{
    put_each_register(row, registers)?;
    row.put_count(registers.len() as u64)
}

/// Puts the scalar of a result, if there is one.
#[tactic(auto, unfolding(crate::specs::Codes::code_result, crate::specs::Codes::code_option))]
pub(crate) fn put_result(row: &mut Row, scalar: Option<Scalar>) -> Result<(), OutOfMemory>
    ensures { OnOk result (row.new ≡ code_result scalar row.old) }
{
    match scalar {
        Some(scalar) => {
            put_scalar(row, scalar)?;
            row.put_count(1)
        }
        None => row.put_count(0),
    }
}

#[tactic(auto, unfolding(crate::specs::Codes::code_signature))]
pub(crate) fn put_signature(row: &mut Row, signature: &Signature) -> Result<(), OutOfMemory>
    ensures { OnOk result (row.new ≡ code_signature signature.now row.old) }
{
    put_scalars(row, signature.params.as_slice())?;
    put_result(row, signature.result)
}

#[tactic(auto, unfolding(crate::specs::Codes::code_shape))]
fn put_shape(row: &mut Row, shape: &Shape) -> Result<(), OutOfMemory>
    ensures { OnOk result (row.new ≡ code_shape shape.now row.old) }
{
    match shape {
        Shape::Plain(scalar) => {
            put_scalar(row, *scalar)?;
            row.put_count(0)
        }
        Shape::Named(name) => {
            put_text(row, name)?;
            row.put_count(1)
        }
    }
}

#[tactic(auto, unfolding(crate::specs::Codes::code_length, crate::specs::Codes::code_option))]
fn put_length(row: &mut Row, length: Option<u64>) -> Result<(), OutOfMemory>
    ensures { OnOk result (row.new ≡ code_length length row.old) }
{
    match length {
        Some(length) => {
            row.put_count(length)?;
            row.put_count(1)
        }
        None => row.put_count(0),
    }
}

#[tactic(auto, unfolding(crate::specs::Codes::code_local))]
fn put_local(row: &mut Row, local: &Decl) -> Result<(), OutOfMemory>
    ensures { OnOk result (row.new ≡ code_local (placed_local local.now) row.old) }
{
    put_shape(row, &local.shape)?;
    put_length(row, local.length)
}

#[tactic(auto, unfolding(crate::specs::Codes::code_items))]
fn put_each_local(row: &mut Row, locals: &[Decl]) -> Result<(), OutOfMemory>
    ensures { OnOk result (row.new ≡ code_items code_local (map placed_local locals.now) row.old) }
{
    for local in locals {
        put_local(row, local)?;
    }
    Ok(())
}

/// Puts the shapes and lengths of locals.
#[tactic(auto, unfolding(crate::specs::Codes::code_locals), using(crate::proofs::Rows::list_put))]
pub(crate) fn put_locals(row: &mut Row, locals: &[Decl]) -> Result<(), OutOfMemory>
    ensures { OnOk result (row.new ≡ code_locals (map placed_local locals.now) row.old) }
{
    put_each_local(row, locals)?;
    row.put_count(locals.len() as u64)
}
