//! Scalars, operators and comparisons.

ghost use Rattle.std.specs.Prelude.{◌≡◌, ◌↔◌, IsTrue, IfOk};

use crate::OutOfMemory;
use crate::listed::Exact;

/// The type of a value: an integer of 8 to 64 bits, signed or unsigned, or a pointer.
#[derive(Clone, Copy, Debug, PartialEq, Eq)]
pub enum Scalar {
    I8,
    I16,
    I32,
    I64,
    U8,
    U16,
    U32,
    U64,
    Ptr,
}

/// What signed arithmetic does where its result leaves the scalar: `+`, `-` and `*` trap, or they wrap into it.
#[derive(Clone, Copy, Debug, PartialEq, Eq)]
pub enum Mode {
    Trap,
    Wrap,
}

/// An arithmetic operator: `+ - * / % & | ^ << >>`.
#[derive(Clone, Copy, Debug, PartialEq, Eq)]
pub enum Op {
    Add,
    Sub,
    Mul,
    Div,
    Rem,
    And,
    Or,
    Xor,
    Shl,
    Shr,
}

/// A comparison: `== != < <= > >=`.
#[derive(Clone, Copy, Debug, PartialEq, Eq)]
pub enum Cmp {
    Eq,
    Ne,
    Lt,
    Le,
    Gt,
    Ge,
}

impl Exact for Scalar {
    fn copy(&self) -> Result<Scalar, OutOfMemory> {
        Ok(*self)
    }

    fn same(&self, other: &Scalar) -> bool {
        *self == *other
    }
}
