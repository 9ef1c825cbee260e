//! Functions with positions in place of names.

use crate::written::Written;
use gimple_core::{Cmp, Listed, Op, Scalar, Value};

/// What is read: the register at a position, a constant, or the address of a local of the running frame.
#[derive(Debug, Drop)]
pub enum Source<'a> {
    Register(Option<usize>),
    Constant(Value<'a>),
    Own { number: u32, offset: i64 },
}

/// The arguments of a call in order.
pub type Sources<'a> = Listed<Source<'a>>;

/// Where an access goes: to what a register holds, moved by some bytes, or to an address.
#[derive(Debug, Drop)]
pub enum Pointer<'a> {
    Moved { register: Option<usize>, by: i64 },
    Fixed(Source<'a>),
}

/// A statement. `to` is the position of a register, and a callee that is called by name the number of a function.
#[derive(Drop)]
pub enum Instruction<'a> {
    Copy {
        to: Option<usize>,
        from: Source<'a>,
    },
    Arith {
        to: Option<usize>,
        scalar: Scalar,
        left: Source<'a>,
        op: Op,
        right: Source<'a>,
    },
    Compare {
        to: Option<usize>,
        left: Source<'a>,
        cmp: Cmp,
        right: Source<'a>,
    },
    Convert {
        to: Option<usize>,
        scalar: Scalar,
        from: Source<'a>,
    },
    Load {
        to: Option<usize>,
        scalar: Scalar,
        pointer: Pointer<'a>,
    },
    Store {
        scalar: Scalar,
        pointer: Pointer<'a>,
        from: Source<'a>,
    },
    Call {
        to: Option<usize>,
        callee: Option<usize>,
        arguments: Sources<'a>,
    },
    Indirect {
        to: Option<usize>,
        signature: Written<'a>,
        callee: Option<usize>,
        arguments: Sources<'a>,
    },
    Get {
        to: Option<usize>,
    },
    Put {
        from: Source<'a>,
    },
    Abort,
}

/// A case of a switch: a value, and the number of the block that it leads to.
#[derive(Clone, Copy, Debug)]
pub struct Choice {
    pub value: i128,
    pub target: Option<usize>,
}

/// How a block ends. Targets are numbers of blocks.
#[derive(Drop)]
pub enum Ending<'a> {
    Goto(Option<usize>),
    If {
        left: Source<'a>,
        cmp: Cmp,
        right: Source<'a>,
        yes: Option<usize>,
        no: Option<usize>,
    },
    Switch {
        on: Source<'a>,
        choices: Listed<Choice>,
        other: Option<usize>,
    },
    Return(Option<Source<'a>>),
}

/// A block: its statements and its end.
#[derive(Drop)]
pub struct Piece<'a> {
    pub body: Listed<Instruction<'a>>,
    pub end: Ending<'a>,
}

/// The blocks of a function in order.
pub type Code<'a> = Listed<Piece<'a>>;
