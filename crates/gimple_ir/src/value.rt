//! Values of a run, and how a run comes out.

ghost use Rattle.std.specs.Prelude.{◌≡◌, ◌↔◌, IsTrue, IfOk};

use crate::OutOfMemory;
use crate::listed::{Exact, Listed, Text};
use crate::scalar::Scalar;
use std::marker::Model;

/// A variable that memory holds: the global of a number, or the local of a number in the frame of a serial.
#[derive(Clone, Copy, Debug, PartialEq, Eq)]
pub enum Object {
    Global(u32),
    Local { serial: u64, number: u32 },
}

/// The name of a function, as a value holds it: the bytes are those of the program that runs.
#[derive(Debug, Drop)]
pub struct FunctionName<'a> {
    bytes: &'a [u8],
}

impl<'a> Model for FunctionName<'a> {
    ghost use Rattle.std.specs.Prelude.{List, ℕ};

    ghost Value = { List ℕ };

    ghost view = { λ it. it.bytes.now };
}

impl<'a> FunctionName<'a> {
    /// The name of these bytes.
    pub fn new(bytes: &'a [u8]) -> FunctionName<'a>
        ensures { result ≡ bytes.now }
    {
        FunctionName { bytes }
    }

    /// The bytes of the name.
    pub fn as_slice(&self) -> &'a [u8]
        ensures { result.now ≡ self.now }
    {
        self.bytes
    }
}

/// A value: an integer, null, a pointer to an object with a byte offset, or a function.
#[derive(Debug, Drop)]
pub enum Value<'a> {
    Int(i128),
    Null,
    At { object: Object, offset: i64 },
    Code(FunctionName<'a>),
}

impl<'a> Value<'a> {
    /// The same value once more. Takes no memory.
    pub fn again(&self) -> Value<'a>
        ensures { result ≡ self.now }
    {
        match self {
            Value::Int(number) => Value::Int(*number),
            Value::Null => Value::Null,
            Value::At { object, offset } => Value::At {
                object: *object,
                offset: *offset,
            },
            Value::Code(name) => Value::Code(FunctionName::new(name.as_slice())),
        }
    }
}

/// Why a run trapped.
#[derive(Clone, Copy, Debug, PartialEq, Eq)]
pub enum TrapKind {
    Overflow,
    Divide,
    Shift,
    NullAccess,
    Dangling,
    Bounds,
    BadSlot,
    ReadOnly,
    Abort,
    BadCall,
}

/// How a run came out, with what it printed: still going, ended with a status, or trapped.
#[derive(Debug, Drop)]
pub enum Outcome {
    Going(Text),
    Ended(Text, i32),
    Trapped(Text, TrapKind),
}

/// A constant of an analysis: a number, null, or the address of a global with a byte offset.
#[derive(Clone, Copy, Debug, PartialEq, Eq)]
pub enum Constant {
    Int(i128),
    Null,
    Global { number: u32, offset: i64 },
}

/// Constants in order.
pub type Constants = Listed<Constant>;

/// A slot of a variable: its byte offset and its scalar.
#[derive(Clone, Copy, Debug, PartialEq, Eq)]
pub struct LayoutSlot {
    pub offset: u64,
    pub scalar: Scalar,
}

/// The slots of a variable by ascending offset.
pub type Slots = Listed<LayoutSlot>;

/// How a variable lies in memory: its size and alignment in bytes, and its slots.
#[derive(Debug, Drop)]
pub struct Layout {
    pub size: u64,
    pub align: u64,
    pub slots: Slots,
}

impl Exact for Constant {
    fn copy(&self) -> Result<Constant, OutOfMemory> {
        Ok(*self)
    }

    fn same(&self, other: &Constant) -> bool {
        *self == *other
    }
}

impl Exact for LayoutSlot {
    fn copy(&self) -> Result<LayoutSlot, OutOfMemory> {
        Ok(*self)
    }

    fn same(&self, other: &LayoutSlot) -> bool {
        *self == *other
    }
}
