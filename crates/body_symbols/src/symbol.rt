//! What values are in a function.

ghost use Rattle.std.specs.Prelude.{◌≡◌};
ghost use Rattle.std.specs.Ordering.{int_eq};
ghost use Rattle.body_symbols.specs.Order.{op_number, same_op, same_constant, same_variable, offset_below, symbol_below, widened, symbol_joined};

use fix_engine::Lattice;
use gimple_core::{Constant, Op, OutOfMemory};

/// A variable that a function sees: a global, or a local of its own, by number.
#[derive(Clone, Copy, Debug, PartialEq, Eq)]
pub enum Variable {
    Global(u32),
    Local(u32),
}

/// What a value is in an activation of a function, by its arguments, constants and addresses. An offset that is None can be any.
#[derive(Clone, Copy, Debug, PartialEq, Eq)]
pub enum Symbol {
    /// A constant.
    Const(Constant),
    /// An argument.
    Formal(u32),
    /// What an operator makes of an argument and a number at its right.
    FormalOp {
        param: u32,
        op: Op,
        by: i128,
    },
    /// A pointer argument moved by some bytes.
    FormalAt {
        param: u32,
        offset: Option<i64>,
    },
    /// An address in a variable.
    VariableAt {
        variable: Variable,
        offset: Option<i64>,
    },
    /// Any value.
    Unknown,
}

fn is_same_op(left: Op, right: Op) -> bool
    ensures { result ≡ same_op left right }
{
    left == right
}

fn is_same_constant(left: Constant, right: Constant) -> bool
    ensures { result ≡ same_constant left right }
{
    match (left, right) {
        (Constant::Int(value), Constant::Int(other)) => value == other,
        (Constant::Null, Constant::Null) => true,
        (
            Constant::Global {
                number: k,
                offset: z,
            },
            Constant::Global {
                number: j,
                offset: w,
            },
        ) => { k == j && z == w }
        _ => false,
    }
}

fn is_same_variable(left: Variable, right: Variable) -> bool
    ensures { result ≡ same_variable left right }
{
    match (left, right) {
        (Variable::Global(k), Variable::Global(j)) => k == j,
        (Variable::Local(k), Variable::Local(j)) => k == j,
        _ => false,
    }
}

fn is_offset_below(left: Option<i64>, right: Option<i64>) -> bool
    ensures { result ≡ offset_below left right }
{
    match (left, right) {
        (_, None) => true,
        (None, Some(_)) => false,
        (Some(z), Some(w)) => z == w,
    }
}

fn is_below(left: Symbol, right: Symbol) -> bool
    ensures { result ≡ symbol_below left right }
{
    match (left, right) {
        (_, Symbol::Unknown) => true,
        (Symbol::Const(c), Symbol::Const(d)) => is_same_constant(c, d),
        (Symbol::Formal(i), Symbol::Formal(j)) => i == j,
        (
            Symbol::FormalOp {
                param: i,
                op,
                by: z,
            },
            Symbol::FormalOp {
                param: j,
                op: other,
                by: w,
            },
        ) => { i == j && (is_same_op(op, other) && z == w) }
        (
            Symbol::FormalAt {
                param: i,
                offset: o,
            },
            Symbol::FormalAt {
                param: j,
                offset: p,
            },
        ) => { i == j && is_offset_below(o, p) }
        (
            Symbol::VariableAt {
                variable: v,
                offset: o,
            },
            Symbol::VariableAt {
                variable: u,
                offset: p,
            },
        ) => { is_same_variable(v, u) && is_offset_below(o, p) }
        _ => false,
    }
}

/// What two symbols keep of which neither is below the other.
fn widen(left: Symbol, right: Symbol) -> Symbol
    ensures { result ≡ widened left right }
{
    match (left, right) {
        (
            Symbol::FormalAt {
                param: i,
                offset: _,
            },
            Symbol::FormalAt {
                param: j,
                offset: _,
            },
        ) => {
            if i == j {
                Symbol::FormalAt {
                    param: i,
                    offset: None,
                }
            } else {
                Symbol::Unknown
            }
        }
        (
            Symbol::VariableAt {
                variable: v,
                offset: _,
            },
            Symbol::VariableAt {
                variable: u,
                offset: _,
            },
        ) => {
            if is_same_variable(v, u) {
                Symbol::VariableAt {
                    variable: v,
                    offset: None,
                }
            } else {
                Symbol::Unknown
            }
        }
        _ => Symbol::Unknown,
    }
}

fn joined(left: Symbol, right: Symbol) -> Symbol
    ensures { result ≡ symbol_joined left right }
{
    if is_below(left, right) {
        return right;
    }
    if is_below(right, left) {
        return left;
    }
    widen(left, right)
}

impl Lattice for Symbol {
    ghost use Rattle.body_symbols.specs.Order.{FitsSymbol, symbol_height, symbol_rank, symbol_below, symbol_joined};
    ghost use Rattle.body_symbols.specs.OrderLaws.{symbol_laws};

    ghost fits = { FitsSymbol };

    ghost height = { symbol_height };

    ghost rank = { symbol_rank };

    ghost below = { symbol_below };

    ghost joined = { symbol_joined };

    ghost laws = { symbol_laws };

    fn join(&mut self, other: &Symbol) -> Result<(), OutOfMemory> {
        *self = joined(*self, *other);
        Ok(())
    }

    fn leq(&self, other: &Symbol) -> bool {
        is_below(*self, *other)
    }

    fn copy(&self) -> Result<Symbol, OutOfMemory> {
        Ok(*self)
    }
}
