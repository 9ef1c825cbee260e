//! Ends and blocks.

ghost use Rattle.std.specs.Prelude.{◌≡◌, [], length};
ghost use Rattle.token_law.specs.Reading as read;
ghost use Rattle.token_law.specs.Reading.{Reads};
ghost use Rattle.gimple_tokens.specs.declared.token.Symbol.TheVariants as s;
ghost use Rattle.gimple_grammar.specs.Readers as spec;

use crate::bodies::statements;
use crate::symbols::comparison;
use crate::values::{operand, signed};
use gimple_ir::{Block, Blocks, Case, Cases, End, Operand};
use gimple_tokens::Symbol;
use std::alloc::Global;
use token_law::{Cursor, Fault};

#[tactic(auto, unfolding(crate::specs::Readers::target))]
fn target(tokens: &mut Cursor<'_>) -> Result<u64, Fault>
    ensures { Reads (spec.target tokens.old) result tokens.new }
{
    tokens.fixed(Symbol::Less)?;
    tokens.fixed(Symbol::Bb)?;
    let label = tokens.number()?;
    tokens.fixed(Symbol::Greater)?;
    Ok(label)
}

#[tactic(auto, unfolding(crate::specs::Readers::goto))]
fn goto(tokens: &mut Cursor<'_>) -> Result<u64, Fault>
    ensures { Reads (spec.goto tokens.old) result tokens.new }
{
    tokens.fixed(Symbol::Goto)?;
    let to = target(tokens)?;
    tokens.fixed(Symbol::Semi)?;
    Ok(to)
}

#[tactic(auto, unfolding(crate::specs::Readers::branches))]
fn branches(tokens: &mut Cursor<'_>) -> Result<End, Fault>
    ensures { Reads (spec.branches tokens.old) result tokens.new }
{
    tokens.fixed(Symbol::If)?;
    tokens.fixed(Symbol::Open)?;
    let left = operand(tokens)?;
    let cmp = comparison(tokens)?;
    let right = operand(tokens)?;
    tokens.fixed(Symbol::Close)?;
    let yes = goto(tokens)?;
    tokens.fixed(Symbol::Else)?;
    let no = goto(tokens)?;
    Ok(End::If {
        left,
        cmp,
        right,
        yes,
        no,
    })
}

#[tactic(auto, unfolding(crate::specs::Readers::case_of))]
fn case_of(tokens: &mut Cursor<'_>) -> Result<Case, Fault>
    ensures { Reads (spec.case_of tokens.old) result tokens.new }
{
    tokens.fixed(Symbol::Case)?;
    let value = signed(tokens)?;
    tokens.fixed(Symbol::Colon)?;
    let target = target(tokens)?;
    tokens.fixed(Symbol::Semi)?;
    Ok(Case { value, target })
}

#[tactic(auto, using(token_law::proofs::Turns::goes_on, token_law::proofs::Turns::stops, token_law::proofs::Turns::fails, token_law::proofs::Turns::ends))]
fn cases(alloc: Global, tokens: &mut Cursor<'_>) -> Result<Cases, Fault>
    ensures { Reads (read.many (read.sees s.Case) spec.case_of [] tokens.old) result tokens.new }
{
    let mut found = Cases::new(alloc);
    for _turn in 0..tokens.left() {
        if !tokens.sees(Symbol::Case) {
            return Ok(found);
        }
        found.push(case_of(tokens)?)?;
    }
    Ok(found)
}

#[tactic(auto, unfolding(crate::specs::Readers::switch_end))]
fn switch_end(alloc: Global, tokens: &mut Cursor<'_>) -> Result<End, Fault>
    ensures { Reads (spec.switch_end tokens.old) result tokens.new }
{
    tokens.fixed(Symbol::Switch)?;
    tokens.fixed(Symbol::Open)?;
    let on = operand(tokens)?;
    tokens.fixed(Symbol::Close)?;
    tokens.fixed(Symbol::OpenBrace)?;
    let cases = cases(alloc, tokens)?;
    tokens.fixed(Symbol::Default)?;
    tokens.fixed(Symbol::Colon)?;
    let other = target(tokens)?;
    tokens.fixed(Symbol::Semi)?;
    tokens.fixed(Symbol::CloseBrace)?;
    Ok(End::Switch { on, cases, other })
}

#[tactic(auto, unfolding(crate::specs::Readers::returned))]
fn returned(tokens: &mut Cursor<'_>) -> Result<Option<Operand>, Fault>
    ensures { Reads (spec.returned tokens.old) result tokens.new }
{
    if tokens.sees(Symbol::Semi) {
        Ok(None)
    } else {
        let value = operand(tokens)?;
        Ok(Some(value))
    }
}

#[tactic(auto, unfolding(crate::specs::Readers::return_end))]
fn return_end(tokens: &mut Cursor<'_>) -> Result<End, Fault>
    ensures { Reads (spec.return_end tokens.old) result tokens.new }
{
    tokens.fixed(Symbol::Return)?;
    let value = returned(tokens)?;
    tokens.fixed(Symbol::Semi)?;
    Ok(End::Return(value))
}

#[tactic(auto, unfolding(crate::specs::Readers::ending))]
fn ending(alloc: Global, tokens: &mut Cursor<'_>) -> Result<End, Fault>
    ensures { Reads (spec.ending tokens.old) result tokens.new }
{
    if tokens.sees(Symbol::Goto) {
        let to = goto(tokens)?;
        Ok(End::Goto(to))
    } else if tokens.sees(Symbol::If) {
        branches(tokens)
    } else if tokens.sees(Symbol::Switch) {
        switch_end(alloc, tokens)
    } else {
        return_end(tokens)
    }
}

#[tactic(auto, unfolding(crate::specs::Readers::block))]
fn block(alloc: Global, tokens: &mut Cursor<'_>, profile: u8) -> Result<Block, Fault>
    ensures { Reads (spec.block profile tokens.old) result tokens.new }
{
    let label = target(tokens)?;
    tokens.fixed(Symbol::Colon)?;
    let body = statements(alloc, tokens, profile)?;
    let end = ending(alloc, tokens)?;
    Ok(Block { label, body, end })
}

#[tactic(auto, using(token_law::proofs::Turns::goes_on, token_law::proofs::Turns::stops, token_law::proofs::Turns::fails, token_law::proofs::Turns::ends))]
pub fn blocks(alloc: Global, tokens: &mut Cursor<'_>, profile: u8) -> Result<Blocks, Fault>
    ensures { Reads (read.many (read.sees s.Less) (spec.block profile) [] tokens.old) result tokens.new }
{
    let mut found = Blocks::new(alloc);
    for _turn in 0..tokens.left() {
        if !tokens.sees(Symbol::Less) {
            return Ok(found);
        }
        found.push(block(alloc, tokens, profile)?)?;
    }
    Ok(found)
}
