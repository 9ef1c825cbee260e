//! Results, signatures and indirect calls.

ghost use Rattle.std.specs.Prelude.{◌≡◌, [], ◌∷◌, length};
ghost use Rattle.token_law.specs.Reading as read;
ghost use Rattle.token_law.specs.Reading.{Reads};
ghost use Rattle.gimple_tokens.specs.declared.token.Symbol.TheVariants as s;
ghost use Rattle.gimple_grammar.specs.Readers as spec;

use crate::symbols::scalar;
use crate::values::arguments;
use gimple_ir::{Scalar, Scalars, Signature, Stmt, Text};
use gimple_tokens::Symbol;
use std::alloc::Global;
use token_law::{Cursor, Fault};

#[tactic(auto, unfolding(crate::specs::Readers::result))]
pub fn gives(tokens: &mut Cursor<'_>) -> Result<Option<Scalar>, Fault>
    ensures { Reads (spec.result tokens.old) result tokens.new }
{
    if tokens.sees(Symbol::Void) {
        tokens.fixed(Symbol::Void)?;
        Ok(None)
    } else {
        let scalar = scalar(tokens)?;
        Ok(Some(scalar))
    }
}

#[tactic(auto, unfolding(token_law::specs::Reading::after_comma))]
fn scalar_after_comma(tokens: &mut Cursor<'_>) -> Result<Scalar, Fault>
    ensures { Reads (read.after_comma spec.scalar tokens.old) result tokens.new }
{
    tokens.fixed(Symbol::Comma)?;
    scalar(tokens)
}

#[tactic(auto, using(token_law::proofs::Turns::goes_on, token_law::proofs::Turns::stops, token_law::proofs::Turns::fails, token_law::proofs::Turns::ends))]
fn more_scalars(alloc: Global, tokens: &mut Cursor<'_>, first: Scalar) -> Result<Scalars, Fault>
    ensures { Reads (read.many (read.sees s.Comma) (read.after_comma spec.scalar) (first ∷ []) tokens.old) result tokens.new }
{
    let mut found = Scalars::new(alloc);
    found.push(first)?;
    for _turn in 0..tokens.left() {
        if !tokens.sees(Symbol::Comma) {
            return Ok(found);
        }
        found.push(scalar_after_comma(tokens)?)?;
    }
    Ok(found)
}

#[tactic(auto, unfolding(token_law::specs::Reading::one_or_more))]
fn one_or_more_scalars(alloc: Global, tokens: &mut Cursor<'_>) -> Result<Scalars, Fault>
    ensures { Reads (read.one_or_more spec.scalar tokens.old) result tokens.new }
{
    let first = scalar(tokens)?;
    more_scalars(alloc, tokens, first)
}

#[tactic(auto, unfolding(token_law::specs::Reading::separated))]
fn scalars(alloc: Global, tokens: &mut Cursor<'_>) -> Result<Scalars, Fault>
    ensures { Reads (read.separated spec.scalar tokens.old) result tokens.new }
{
    if tokens.sees(Symbol::Close) {
        return Ok(Scalars::new(alloc));
    }
    one_or_more_scalars(alloc, tokens)
}

#[tactic(auto, unfolding(crate::specs::Readers::signature))]
fn signature(alloc: Global, tokens: &mut Cursor<'_>) -> Result<Signature, Fault>
    ensures { Reads (spec.signature tokens.old) result tokens.new }
{
    tokens.fixed(Symbol::Less)?;
    let result_scalar = gives(tokens)?;
    tokens.fixed(Symbol::Open)?;
    let params = scalars(alloc, tokens)?;
    tokens.fixed(Symbol::Close)?;
    tokens.fixed(Symbol::Greater)?;
    Ok(Signature {
        params,
        result: result_scalar,
    })
}

// A call through a register.
#[tactic(auto, unfolding(crate::specs::Readers::indirect))]
pub fn indirect(alloc: Global, tokens: &mut Cursor<'_>, to: Option<Text>) -> Result<Stmt, Fault>
    ensures { Reads (spec.indirect to tokens.old) result tokens.new }
{
    tokens.fixed(Symbol::Star)?;
    let signature = signature(alloc, tokens)?;
    let callee = tokens.name()?;
    let arguments = arguments(alloc, tokens)?;
    Ok(Stmt::Indirect {
        to,
        signature,
        callee,
        arguments,
    })
}

// Whether an indirect call comes next, in a program of a profile that has them.
pub fn begins_indirect(tokens: &Cursor<'_>, profile: u8) -> bool
    ensures { result ≡ spec.begins_indirect profile tokens.now }
{
    tokens.sees(Symbol::Star) && profile == 2
}
