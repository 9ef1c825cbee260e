//! What a statement reads: operands and places in memory.

ghost use Rattle.std.specs.Prelude.{◌≡◌, ◌↔◌, IsTrue, IfOk};

use crate::OutOfMemory;
use crate::listed::{Exact, Listed, Text};

/// An operand: a register, a number, null, or the address of a variable with a byte offset.
#[derive(Clone, Debug, Drop)]
pub enum Operand {
    Reg(Text),
    Number(i128),
    Null,
    Address { variable: Text, offset: i128 },
}

/// The arguments of a call in order.
pub type Operands = Listed<Operand>;

/// The items of a global in order; none of them is a register.
pub type Items = Listed<Operand>;

/// What an access starts from: a pointer register, or a variable by name.
#[derive(Clone, Debug, Drop)]
pub enum Base {
    Reg(Text),
    Variable(Text),
}

/// The place of an access: a base and a byte offset.
#[derive(Clone, Debug, Drop)]
pub struct Place {
    pub base: Base,
    pub offset: i128,
}

impl Exact for Operand {
    fn copy(&self) -> Result<Operand, OutOfMemory> {
        self.clone()
    }

    fn same(&self, other: &Operand) -> bool {
        match (self, other) {
            (Operand::Reg(left), Operand::Reg(right)) => left.same(right),
            (Operand::Number(left), Operand::Number(right)) => *left == *right,
            (Operand::Null, Operand::Null) => true,
            (
                Operand::Address { variable, offset },
                Operand::Address {
                    variable: other_variable,
                    offset: other_offset,
                },
            ) => variable.same(other_variable) && *offset == *other_offset,
            _ => false,
        }
    }
}

impl Exact for Base {
    fn copy(&self) -> Result<Base, OutOfMemory> {
        self.clone()
    }

    fn same(&self, other: &Base) -> bool {
        match (self, other) {
            (Base::Reg(left), Base::Reg(right)) => left.same(right),
            (Base::Variable(left), Base::Variable(right)) => left.same(right),
            _ => false,
        }
    }
}

impl Exact for Place {
    fn copy(&self) -> Result<Place, OutOfMemory> {
        self.clone()
    }

    fn same(&self, other: &Place) -> bool {
        self.offset == other.offset && self.base.same(&other.base)
    }
}
