//! Symbols that stand for values.

ghost use Rattle.std.specs.Prelude.{◌≡◌};
ghost use Rattle.token_law.specs.Reading as read;
ghost use Rattle.token_law.specs.Reading.{Reads};
ghost use Rattle.gimple_grammar.specs.Readers as spec;
ghost use Rattle.gimple_grammar.specs.Grammar.{scalar_symbol, op_symbol, cmp_symbol};

use gimple_ir::{Cmp, Op, Scalar};
use gimple_tokens::Symbol;
use token_law::{Cursor, Fault};

fn scalar_of(symbol: Symbol) -> Option<Scalar>
    ensures { result ≡ read.lookup scalar_symbol spec.scalars symbol }
{
    if symbol == Symbol::I8 {
        Some(Scalar::I8)
    } else if symbol == Symbol::I16 {
        Some(Scalar::I16)
    } else if symbol == Symbol::I32 {
        Some(Scalar::I32)
    } else if symbol == Symbol::I64 {
        Some(Scalar::I64)
    } else if symbol == Symbol::U8 {
        Some(Scalar::U8)
    } else if symbol == Symbol::U16 {
        Some(Scalar::U16)
    } else if symbol == Symbol::U32 {
        Some(Scalar::U32)
    } else if symbol == Symbol::U64 {
        Some(Scalar::U64)
    } else if symbol == Symbol::Ptr {
        Some(Scalar::Ptr)
    } else {
        None
    }
}

#[tactic(auto, unfolding(crate::specs::Readers::scalar))]
pub fn scalar(tokens: &mut Cursor<'_>) -> Result<Scalar, Fault>
    ensures { Reads (spec.scalar tokens.old) result tokens.new }
{
    let found = match tokens.symbol() {
        Some(symbol) => scalar_of(symbol),
        None => None,
    };
    match found {
        Some(value) => {
            tokens.pass();
            Ok(value)
        }
        None => Err(Fault::At(tokens.left())),
    }
}

#[tactic(auto, unfolding(crate::specs::Readers::sees_scalar))]
pub fn sees_scalar(tokens: &Cursor<'_>) -> bool
    ensures { result ≡ spec.sees_scalar tokens.now }
{
    match tokens.symbol() {
        Some(symbol) => scalar_of(symbol).is_some(),
        None => false,
    }
}

fn operator_of(symbol: Symbol) -> Option<Op>
    ensures { result ≡ read.lookup op_symbol spec.ops symbol }
{
    if symbol == Symbol::Plus {
        Some(Op::Add)
    } else if symbol == Symbol::Minus {
        Some(Op::Sub)
    } else if symbol == Symbol::Star {
        Some(Op::Mul)
    } else if symbol == Symbol::Slash {
        Some(Op::Div)
    } else if symbol == Symbol::Percent {
        Some(Op::Rem)
    } else if symbol == Symbol::Ampersand {
        Some(Op::And)
    } else if symbol == Symbol::Bar {
        Some(Op::Or)
    } else if symbol == Symbol::Caret {
        Some(Op::Xor)
    } else if symbol == Symbol::ShiftLeft {
        Some(Op::Shl)
    } else if symbol == Symbol::ShiftRight {
        Some(Op::Shr)
    } else {
        None
    }
}

#[tactic(auto, unfolding(crate::specs::Readers::operator))]
pub fn operator(tokens: &mut Cursor<'_>) -> Result<Op, Fault>
    ensures { Reads (spec.operator tokens.old) result tokens.new }
{
    let found = match tokens.symbol() {
        Some(symbol) => operator_of(symbol),
        None => None,
    };
    match found {
        Some(value) => {
            tokens.pass();
            Ok(value)
        }
        None => Err(Fault::At(tokens.left())),
    }
}

#[tactic(auto, unfolding(crate::specs::Readers::sees_operator))]
pub fn sees_operator(tokens: &Cursor<'_>) -> bool
    ensures { result ≡ spec.sees_operator tokens.now }
{
    match tokens.symbol() {
        Some(symbol) => operator_of(symbol).is_some(),
        None => false,
    }
}

fn comparison_of(symbol: Symbol) -> Option<Cmp>
    ensures { result ≡ read.lookup cmp_symbol spec.cmps symbol }
{
    if symbol == Symbol::EqEq {
        Some(Cmp::Eq)
    } else if symbol == Symbol::NotEq {
        Some(Cmp::Ne)
    } else if symbol == Symbol::Less {
        Some(Cmp::Lt)
    } else if symbol == Symbol::LessEq {
        Some(Cmp::Le)
    } else if symbol == Symbol::Greater {
        Some(Cmp::Gt)
    } else if symbol == Symbol::GreaterEq {
        Some(Cmp::Ge)
    } else {
        None
    }
}

#[tactic(auto, unfolding(crate::specs::Readers::comparison))]
pub fn comparison(tokens: &mut Cursor<'_>) -> Result<Cmp, Fault>
    ensures { Reads (spec.comparison tokens.old) result tokens.new }
{
    let found = match tokens.symbol() {
        Some(symbol) => comparison_of(symbol),
        None => None,
    };
    match found {
        Some(value) => {
            tokens.pass();
            Ok(value)
        }
        None => Err(Fault::At(tokens.left())),
    }
}

#[tactic(auto, unfolding(crate::specs::Readers::sees_comparison))]
pub fn sees_comparison(tokens: &Cursor<'_>) -> bool
    ensures { result ≡ spec.sees_comparison tokens.now }
{
    match tokens.symbol() {
        Some(symbol) => comparison_of(symbol).is_some(),
        None => false,
    }
}
