//! Numbers, operands and places.

ghost use Rattle.std.specs.Prelude.{◌≡◌, [], ◌∷◌, length};
ghost use Rattle.token_law.specs.Reading as read;
ghost use Rattle.token_law.specs.Reading.{Reads};
ghost use Rattle.gimple_tokens.specs.declared.token.Symbol.TheVariants as s;
ghost use Rattle.gimple_grammar.specs.Readers as spec;

use crate::symbols::scalar;
use gimple_ir::{Base, Items, Operand, Operands, Place, Scalar};
use gimple_tokens::Symbol;
use std::alloc::Global;
use token_law::{Cursor, Fault};

#[tactic(auto, unfolding(crate::specs::Readers::signed))]
pub fn signed(tokens: &mut Cursor<'_>) -> Result<i128, Fault>
    ensures { Reads (spec.signed tokens.old) result tokens.new }
{
    if tokens.sees(Symbol::Minus) {
        tokens.fixed(Symbol::Minus)?;
        let number = tokens.number()?;
        Ok(-i128::from(number))
    } else {
        let number = tokens.number()?;
        Ok(i128::from(number))
    }
}

#[tactic(auto, unfolding(crate::specs::Readers::offset))]
fn offset(tokens: &mut Cursor<'_>) -> Result<i128, Fault>
    ensures { Reads (spec.offset tokens.old) result tokens.new }
{
    if tokens.sees(Symbol::At) {
        tokens.fixed(Symbol::At)?;
        signed(tokens)
    } else {
        Ok(0)
    }
}

#[tactic(auto, unfolding(crate::specs::Readers::address))]
fn address(tokens: &mut Cursor<'_>) -> Result<Operand, Fault>
    ensures { Reads (spec.address tokens.old) result tokens.new }
{
    tokens.fixed(Symbol::Ampersand)?;
    let variable = tokens.name()?;
    let offset = offset(tokens)?;
    Ok(Operand::Address { variable, offset })
}

#[tactic(auto, unfolding(crate::specs::Readers::literal))]
fn literal(tokens: &mut Cursor<'_>) -> Result<Operand, Fault>
    ensures { Reads (spec.literal tokens.old) result tokens.new }
{
    let value = signed(tokens)?;
    Ok(Operand::Number(value))
}

// An operand that is no register.
#[tactic(auto, unfolding(crate::specs::Readers::item))]
pub fn item(tokens: &mut Cursor<'_>) -> Result<Operand, Fault>
    ensures { Reads (spec.item tokens.old) result tokens.new }
{
    if tokens.sees(Symbol::Null) {
        tokens.fixed(Symbol::Null)?;
        Ok(Operand::Null)
    } else if tokens.sees(Symbol::Ampersand) {
        address(tokens)
    } else {
        literal(tokens)
    }
}

#[tactic(auto, unfolding(crate::specs::Readers::operand))]
pub fn operand(tokens: &mut Cursor<'_>) -> Result<Operand, Fault>
    ensures { Reads (spec.operand tokens.old) result tokens.new }
{
    if tokens.sees_name() {
        let name = tokens.name()?;
        Ok(Operand::Reg(name))
    } else {
        item(tokens)
    }
}

#[tactic(auto, unfolding(token_law::specs::Reading::after_comma))]
fn operand_after_comma(tokens: &mut Cursor<'_>) -> Result<Operand, Fault>
    ensures { Reads (read.after_comma spec.operand tokens.old) result tokens.new }
{
    tokens.fixed(Symbol::Comma)?;
    operand(tokens)
}

#[tactic(auto, using(token_law::proofs::Turns::goes_on, token_law::proofs::Turns::stops, token_law::proofs::Turns::fails, token_law::proofs::Turns::ends))]
fn more_operands(alloc: Global, tokens: &mut Cursor<'_>, first: Operand) -> Result<Operands, Fault>
    ensures { Reads (read.many (read.sees s.Comma) (read.after_comma spec.operand) (first ∷ []) tokens.old) result tokens.new }
{
    let mut found = Operands::new(alloc);
    found.push(first)?;
    for _turn in 0..tokens.left() {
        if !tokens.sees(Symbol::Comma) {
            return Ok(found);
        }
        found.push(operand_after_comma(tokens)?)?;
    }
    Ok(found)
}

#[tactic(auto, unfolding(token_law::specs::Reading::one_or_more))]
fn one_or_more_operands(alloc: Global, tokens: &mut Cursor<'_>) -> Result<Operands, Fault>
    ensures { Reads (read.one_or_more spec.operand tokens.old) result tokens.new }
{
    let first = operand(tokens)?;
    more_operands(alloc, tokens, first)
}

#[tactic(auto, unfolding(token_law::specs::Reading::separated))]
fn operands(alloc: Global, tokens: &mut Cursor<'_>) -> Result<Operands, Fault>
    ensures { Reads (read.separated spec.operand tokens.old) result tokens.new }
{
    if tokens.sees(Symbol::Close) {
        return Ok(Operands::new(alloc));
    }
    one_or_more_operands(alloc, tokens)
}

#[tactic(auto, unfolding(crate::specs::Readers::arguments))]
pub fn arguments(alloc: Global, tokens: &mut Cursor<'_>) -> Result<Operands, Fault>
    ensures { Reads (spec.arguments tokens.old) result tokens.new }
{
    tokens.fixed(Symbol::Open)?;
    let found = operands(alloc, tokens)?;
    tokens.fixed(Symbol::Close)?;
    Ok(found)
}

#[tactic(auto, unfolding(token_law::specs::Reading::after_comma))]
fn item_after_comma(tokens: &mut Cursor<'_>) -> Result<Operand, Fault>
    ensures { Reads (read.after_comma spec.item tokens.old) result tokens.new }
{
    tokens.fixed(Symbol::Comma)?;
    item(tokens)
}

#[tactic(auto, using(token_law::proofs::Turns::goes_on, token_law::proofs::Turns::stops, token_law::proofs::Turns::fails, token_law::proofs::Turns::ends))]
fn more_items(alloc: Global, tokens: &mut Cursor<'_>, first: Operand) -> Result<Items, Fault>
    ensures { Reads (read.many (read.sees s.Comma) (read.after_comma spec.item) (first ∷ []) tokens.old) result tokens.new }
{
    let mut found = Items::new(alloc);
    found.push(first)?;
    for _turn in 0..tokens.left() {
        if !tokens.sees(Symbol::Comma) {
            return Ok(found);
        }
        found.push(item_after_comma(tokens)?)?;
    }
    Ok(found)
}

#[tactic(auto, unfolding(token_law::specs::Reading::one_or_more))]
pub fn one_or_more_items(alloc: Global, tokens: &mut Cursor<'_>) -> Result<Items, Fault>
    ensures { Reads (read.one_or_more spec.item tokens.old) result tokens.new }
{
    let first = item(tokens)?;
    more_items(alloc, tokens, first)
}

#[tactic(auto, unfolding(crate::specs::Readers::based))]
fn based(tokens: &mut Cursor<'_>) -> Result<Base, Fault>
    ensures { Reads (spec.based tokens.old) result tokens.new }
{
    if tokens.sees_name() {
        let name = tokens.name()?;
        Ok(Base::Reg(name))
    } else {
        tokens.fixed(Symbol::Ampersand)?;
        let name = tokens.name()?;
        Ok(Base::Variable(name))
    }
}

#[tactic(auto, unfolding(crate::specs::Readers::place))]
pub fn place(tokens: &mut Cursor<'_>) -> Result<Place, Fault>
    ensures { Reads (spec.place tokens.old) result tokens.new }
{
    tokens.fixed(Symbol::OpenBracket)?;
    let base = based(tokens)?;
    let offset = offset(tokens)?;
    tokens.fixed(Symbol::CloseBracket)?;
    Ok(Place { base, offset })
}

// The head of an access.
#[tactic(auto, unfolding(crate::specs::Readers::mem))]
pub fn mem(tokens: &mut Cursor<'_>) -> Result<Scalar, Fault>
    ensures { Reads (spec.mem tokens.old) result tokens.new }
{
    tokens.fixed(Symbol::Mem)?;
    tokens.fixed(Symbol::Less)?;
    let scalar = scalar(tokens)?;
    tokens.fixed(Symbol::Greater)?;
    Ok(scalar)
}
