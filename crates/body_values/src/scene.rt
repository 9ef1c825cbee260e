//! What the values of registers depend on.

ghost use Rattle.std.specs.Prelude.{◌≡◌, ◌<◌, ◌^◌, length, IfOk, IsTrue};
ghost use Rattle.gimple_core.specs.Operators.{in_scalar};
ghost use Rattle.gimple_core.specs.State.{offset_in};
ghost use Rattle.gimple_core.specs.Statements.{is_pointer};
ghost use Rattle.body_values.specs.Bodies.{register_scalar, global_place, global_value, operand_value};
ghost use Rattle.body_values.specs.Scenes.{body_in, Fit, IsGoodIn};
ghost use Rattle.body_values.specs.Setting.{IsSceneBy};

use crate::load_table::LoadTable;
use crate::value_row::ValueRow;
use gimple_core::{Checked, Constant, Operand, OutOfMemory, Scalar, Text, fits};
use name_tables::{NamedGlobals, NamedLocals, RegisterTable};
use std::alloc::Global;
use struct_tables::Structs;
use value_domain::{AbsVal, Thresholds, exactly, into_scalar, top};

/// What the values in a body depend on: the program with the mode of its arithmetic, its structs and globals, the function's locals
/// and registers with the formals first, the facts of its loads, and the thresholds.
#[derive(Clone, Copy)]
pub struct Scene<'a> {
    pub program: &'a Checked,
    pub structs: &'a Structs<'a>,
    pub globals: &'a NamedGlobals<'a>,
    pub locals: &'a NamedLocals<'a>,
    pub registers: &'a RegisterTable,
    pub loads: &'a LoadTable<'a>,
    pub limits: &'a Thresholds,
    pub alloc: Global,
}

/// Whether a scalar is `ptr`.
pub fn pointer(scalar: Scalar) -> bool
    ensures { result ≡ is_pointer scalar }
{
    match scalar {
        Scalar::Ptr => true,
        _ => false,
    }
}

/// The scalar of the first register of a name; of no register it is `ptr`.
pub fn scalar_of(registers: &RegisterTable, name: &Text) -> Scalar
    ensures { result ≡ register_scalar registers.now name.now }
{
    match registers.named(name) {
        Some(register) => register.scalar,
        None => Scalar::Ptr,
    }
}

/// An offset as it is read.
#[tactic(auto, unfolding(gimple_core::specs::State::number_in))]
fn inside(offset: i128) -> i128
    ensures value { result ≡ offset_in offset }
    ensures fits { IsTrue (in_scalar Scalar.I64 result) }
{
    if fits(Scalar::I64, offset) { offset } else { 0 }
}

/// An offset as a number of i64.
pub fn offset_of(offset: i128) -> i64
    ensures { result ≡ offset_in offset }
{
    inside(offset) as i64
}

/// A scene of these parts.
pub fn scene_of<'a>(
    program: &'a Checked,
    structs: &'a Structs<'a>,
    globals: &'a NamedGlobals<'a>,
    locals: &'a NamedLocals<'a>,
    registers: &'a RegisterTable,
    loads: &'a LoadTable<'a>,
    limits: &'a Thresholds,
    alloc: Global,
) -> Scene<'a>
    ensures { IsSceneBy result program.now structs.now globals.now locals.now registers.now loads.now limits.now }
{
    Scene {
        program,
        structs,
        globals,
        locals,
        registers,
        loads,
        limits,
        alloc,
    }
}

impl<'a> Scene<'a> {
    fn address(&self, scalar: Scalar, variable: &Text, offset: i128) -> Result<AbsVal, OutOfMemory>
        requires few { length self.now.globals.now < 2 ^ 32 }
        ensures { IfOk result (λ v. v ≡ global_value (body_in self.now) scalar (global_place self.now.globals.now variable.now) offset) }
    {
        match self.globals.place(variable) {
            None => Ok(top(scalar)),
            Some(number) => exactly(
                self.alloc,
                scalar,
                Constant::Global {
                    number: number as u32,
                    offset: offset_of(offset),
                },
                self.limits,
            ),
        }
    }

    /// The value of a register among these, brought into a scalar.
    #[tactic(auto, unfolding(crate::specs::Bodies::operand_value))]
    pub fn register(
        &self,
        row: &ValueRow,
        scalar: Scalar,
        name: &Text,
    ) -> Result<AbsVal, OutOfMemory>
        ensures { IfOk result (λ v. v ≡ operand_value (body_in self.now) row.now scalar (Operand.Reg name.now)) }
    {
        match row.get(self.registers.place(name)) {
            Some(value) => into_scalar(scalar, value),
            None => Ok(top(scalar)),
        }
    }

    #[tactic(auto, unfolding(crate::specs::Bodies::operand_value))]
    fn value_of(
        &self,
        row: &ValueRow,
        scalar: Scalar,
        operand: &Operand,
    ) -> Result<AbsVal, OutOfMemory>
        requires few { length self.now.globals.now < 2 ^ 32 }
        ensures { IfOk result (λ v. v ≡ operand_value (body_in self.now) row.now scalar operand.now) }
    {
        match operand {
            Operand::Reg(name) => self.register(row, scalar, name),
            Operand::Number(value) => {
                exactly(self.alloc, scalar, Constant::Int(*value), self.limits)
            }
            Operand::Null => exactly(self.alloc, scalar, Constant::Null, self.limits),
            Operand::Address { variable, offset } => {
                if self.locals.has(variable) {
                    return Ok(top(scalar));
                }
                self.address(scalar, variable, *offset)
            }
        }
    }

    /// The value of an operand as one of a scalar.
    #[tactic(auto, using(crate::proofs::Written::good_value))]
    pub fn operand(
        &self,
        row: &ValueRow,
        scalar: Scalar,
        operand: &Operand,
    ) -> Result<AbsVal, OutOfMemory>
        requires few { length self.now.globals.now < 2 ^ 32 }
        requires fit { Fit self.now row.now }
        ensures value { IfOk result (λ v. v ≡ operand_value (body_in self.now) row.now scalar operand.now) }
        ensures good { IfOk result (IsGoodIn self.now scalar) }
    {
        self.limits.known();
        let value = self.value_of(row, scalar, operand)?;
        Ok(value)
    }
}
