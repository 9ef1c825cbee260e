//! Blocks and their ends.

ghost use Rattle.std.specs.Prelude.{◌≡◌, ◌↔◌, IsTrue, IfOk};

use crate::OutOfMemory;
use crate::listed::{Exact, Listed};
use crate::operand::Operand;
use crate::scalar::Cmp;
use crate::statement::Stmts;

/// A case of a `switch`: a value and the label that it leads to.
#[derive(Clone, Debug, Drop)]
pub struct Case {
    pub value: i128,
    pub target: u64,
}

/// The cases of a `switch` in order.
pub type Cases = Listed<Case>;

/// How a block ends. Targets are labels.
#[derive(Clone, Debug, Drop)]
pub enum End {
    Goto(u64),
    If {
        left: Operand,
        cmp: Cmp,
        right: Operand,
        yes: u64,
        no: u64,
    },
    Switch {
        on: Operand,
        cases: Cases,
        other: u64,
    },
    Return(Option<Operand>),
}

/// A block: its label, its statements and its end.
#[derive(Clone, Debug, Drop)]
pub struct Block {
    pub label: u64,
    pub body: Stmts,
    pub end: End,
}

/// The blocks of a function in order; the first one is entered by a call.
pub type Blocks = Listed<Block>;

impl Exact for Case {
    fn copy(&self) -> Result<Case, OutOfMemory> {
        self.clone()
    }

    fn same(&self, other: &Case) -> bool {
        self.value == other.value && self.target == other.target
    }
}

impl Exact for End {
    fn copy(&self) -> Result<End, OutOfMemory> {
        self.clone()
    }

    fn same(&self, other: &End) -> bool {
        match (self, other) {
            (End::Goto(left), End::Goto(right)) => *left == *right,
            (
                End::If {
                    left,
                    cmp,
                    right,
                    yes,
                    no,
                },
                End::If {
                    left: l,
                    cmp: c,
                    right: r,
                    yes: y,
                    no: n,
                },
            ) => left.same(l) && *cmp == *c && right.same(r) && *yes == *y && *no == *n,
            (
                End::Switch { on, cases, other },
                End::Switch {
                    on: o,
                    cases: c,
                    other: d,
                },
            ) => on.same(o) && cases.same(c) && *other == *d,
            (End::Return(left), End::Return(right)) => left.same(right),
            _ => false,
        }
    }
}

impl Exact for Block {
    fn copy(&self) -> Result<Block, OutOfMemory> {
        self.clone()
    }

    fn same(&self, other: &Block) -> bool {
        self.label == other.label && self.body.same(&other.body) && self.end.same(&other.end)
    }
}
