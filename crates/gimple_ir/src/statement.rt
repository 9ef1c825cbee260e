//! Statements that do not end a block.

ghost use Rattle.std.specs.Prelude.{◌≡◌, ◌↔◌, IsTrue, IfOk};

use crate::OutOfMemory;
use crate::declarations::Scalars;
use crate::listed::{Exact, Listed, Text};
use crate::operand::{Operand, Operands, Place};
use crate::scalar::{Cmp, Op, Scalar};

/// What an indirect call says of its callee: the scalars of the formals, and the result. A result of None is `void`.
#[derive(Clone, Debug, Drop)]
pub struct Signature {
    pub params: Scalars,
    pub result: Option<Scalar>,
}

/// A statement. Register names stand in `to`, and as the `callee` of `Indirect`; `Get` is `getint`, `Put` is `putint`.
#[derive(Clone, Debug, Drop)]
pub enum Stmt {
    Copy {
        to: Text,
        from: Operand,
    },
    Arith {
        to: Text,
        left: Operand,
        op: Op,
        right: Operand,
    },
    Compare {
        to: Text,
        left: Operand,
        cmp: Cmp,
        right: Operand,
    },
    Convert {
        to: Text,
        scalar: Scalar,
        from: Operand,
    },
    Load {
        to: Text,
        scalar: Scalar,
        place: Place,
    },
    Store {
        scalar: Scalar,
        place: Place,
        from: Operand,
    },
    Call {
        to: Option<Text>,
        callee: Text,
        arguments: Operands,
    },
    Indirect {
        to: Option<Text>,
        signature: Signature,
        callee: Text,
        arguments: Operands,
    },
    Get {
        to: Text,
    },
    Put {
        from: Operand,
    },
    Abort,
}

/// The statements of a block in order.
pub type Stmts = Listed<Stmt>;

impl Exact for Signature {
    fn copy(&self) -> Result<Signature, OutOfMemory> {
        self.clone()
    }

    fn same(&self, other: &Signature) -> bool {
        self.params.same(&other.params) && self.result.same(&other.result)
    }
}

impl Exact for Stmt {
    fn copy(&self) -> Result<Stmt, OutOfMemory> {
        self.clone()
    }

    fn same(&self, other: &Stmt) -> bool {
        match (self, other) {
            (Stmt::Copy { to, from }, Stmt::Copy { to: t, from: f }) => to.same(t) && from.same(f),
            (
                Stmt::Arith {
                    to,
                    left,
                    op,
                    right,
                },
                Stmt::Arith {
                    to: t,
                    left: l,
                    op: o,
                    right: r,
                },
            ) => to.same(t) && left.same(l) && *op == *o && right.same(r),
            (
                Stmt::Compare {
                    to,
                    left,
                    cmp,
                    right,
                },
                Stmt::Compare {
                    to: t,
                    left: l,
                    cmp: c,
                    right: r,
                },
            ) => to.same(t) && left.same(l) && *cmp == *c && right.same(r),
            (
                Stmt::Convert { to, scalar, from },
                Stmt::Convert {
                    to: t,
                    scalar: s,
                    from: f,
                },
            ) => to.same(t) && *scalar == *s && from.same(f),
            (
                Stmt::Load { to, scalar, place },
                Stmt::Load {
                    to: t,
                    scalar: s,
                    place: p,
                },
            ) => to.same(t) && *scalar == *s && place.same(p),
            (
                Stmt::Store {
                    scalar,
                    place,
                    from,
                },
                Stmt::Store {
                    scalar: s,
                    place: p,
                    from: f,
                },
            ) => *scalar == *s && place.same(p) && from.same(f),
            (Stmt::Get { to }, Stmt::Get { to: t }) => to.same(t),
            (Stmt::Put { from }, Stmt::Put { from: f }) => from.same(f),
            (Stmt::Abort, Stmt::Abort) => true,
            (
                Stmt::Call {
                    to,
                    callee,
                    arguments,
                },
                Stmt::Call {
                    to: t,
                    callee: c,
                    arguments: a,
                },
            ) => to.same(t) && callee.same(c) && arguments.same(a),
            (
                Stmt::Indirect {
                    to,
                    signature,
                    callee,
                    arguments,
                },
                Stmt::Indirect {
                    to: t,
                    signature: s,
                    callee: c,
                    arguments: a,
                },
            ) => to.same(t) && signature.same(s) && callee.same(c) && arguments.same(a),
            _ => false,
        }
    }
}
