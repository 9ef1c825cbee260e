//! Statements.

ghost use Rattle.std.specs.Prelude.{◌≡◌, [], length};
ghost use Rattle.token_law.specs.Reading as read;
ghost use Rattle.token_law.specs.Reading.{Reads};
ghost use Rattle.gimple_grammar.specs.Readers as spec;

use crate::signatures::{begins_indirect, indirect};
use crate::symbols::{comparison, operator, scalar, sees_comparison, sees_operator};
use crate::values::{arguments, item, mem, operand, place};
use gimple_ir::{Operand, Stmt, Stmts, Text};
use gimple_tokens::Symbol;
use std::alloc::Global;
use token_law::{Cursor, Fault};

// What follows the first operand of an assignment.
#[tactic(auto, unfolding(crate::specs::Readers::tail))]
fn tail(tokens: &mut Cursor<'_>, to: Text, left: Operand) -> Result<Stmt, Fault>
    ensures { Reads (spec.tail to left tokens.old) result tokens.new }
{
    if sees_operator(tokens) {
        let op = operator(tokens)?;
        let right = operand(tokens)?;
        Ok(Stmt::Arith {
            to,
            left,
            op,
            right,
        })
    } else if sees_comparison(tokens) {
        let cmp = comparison(tokens)?;
        let right = operand(tokens)?;
        Ok(Stmt::Compare {
            to,
            left,
            cmp,
            right,
        })
    } else {
        Ok(Stmt::Copy { to, from: left })
    }
}

#[tactic(auto, unfolding(crate::specs::Readers::after_name))]
fn after_name(alloc: Global, tokens: &mut Cursor<'_>, to: Text, from: Text) -> Result<Stmt, Fault>
    ensures { Reads (spec.after_name to from tokens.old) result tokens.new }
{
    if tokens.sees(Symbol::Open) {
        let arguments = arguments(alloc, tokens)?;
        Ok(Stmt::Call {
            to: Some(to),
            callee: from,
            arguments,
        })
    } else {
        tail(tokens, to, Operand::Reg(from))
    }
}

#[tactic(auto, unfolding(crate::specs::Readers::convert))]
fn convert(tokens: &mut Cursor<'_>, to: Text) -> Result<Stmt, Fault>
    ensures { Reads (spec.convert to tokens.old) result tokens.new }
{
    tokens.fixed(Symbol::Open)?;
    let scalar = scalar(tokens)?;
    tokens.fixed(Symbol::Close)?;
    let from = operand(tokens)?;
    Ok(Stmt::Convert { to, scalar, from })
}

#[tactic(auto, unfolding(crate::specs::Readers::load))]
fn load(tokens: &mut Cursor<'_>, to: Text) -> Result<Stmt, Fault>
    ensures { Reads (spec.load to tokens.old) result tokens.new }
{
    let scalar = mem(tokens)?;
    let place = place(tokens)?;
    Ok(Stmt::Load { to, scalar, place })
}

#[tactic(auto, unfolding(crate::specs::Readers::get))]
fn get(tokens: &mut Cursor<'_>, to: Text) -> Result<Stmt, Fault>
    ensures { Reads (spec.get to tokens.old) result tokens.new }
{
    tokens.fixed(Symbol::Getint)?;
    tokens.fixed(Symbol::Open)?;
    tokens.fixed(Symbol::Close)?;
    Ok(Stmt::Get { to })
}

#[tactic(auto, unfolding(crate::specs::Readers::right_side))]
fn right_side(alloc: Global, tokens: &mut Cursor<'_>, profile: u8, to: Text) -> Result<Stmt, Fault>
    ensures { Reads (spec.right_side profile to tokens.old) result tokens.new }
{
    if tokens.sees_name() {
        let from = tokens.name()?;
        after_name(alloc, tokens, to, from)
    } else if tokens.sees(Symbol::Open) {
        convert(tokens, to)
    } else if tokens.sees(Symbol::Mem) {
        load(tokens, to)
    } else if tokens.sees(Symbol::Getint) {
        get(tokens, to)
    } else if begins_indirect(tokens, profile) {
        indirect(alloc, tokens, Some(to))
    } else {
        let left = item(tokens)?;
        tail(tokens, to, left)
    }
}

#[tactic(auto, unfolding(crate::specs::Readers::named))]
fn named(alloc: Global, tokens: &mut Cursor<'_>, profile: u8, name: Text) -> Result<Stmt, Fault>
    ensures { Reads (spec.named profile name tokens.old) result tokens.new }
{
    if tokens.sees(Symbol::Assign) {
        tokens.fixed(Symbol::Assign)?;
        right_side(alloc, tokens, profile, name)
    } else {
        let arguments = arguments(alloc, tokens)?;
        Ok(Stmt::Call {
            to: None,
            callee: name,
            arguments,
        })
    }
}

#[tactic(auto, unfolding(crate::specs::Readers::put))]
fn put(tokens: &mut Cursor<'_>) -> Result<Stmt, Fault>
    ensures { Reads (spec.put tokens.old) result tokens.new }
{
    tokens.fixed(Symbol::Putint)?;
    tokens.fixed(Symbol::Open)?;
    let from = operand(tokens)?;
    tokens.fixed(Symbol::Close)?;
    Ok(Stmt::Put { from })
}

#[tactic(auto, unfolding(crate::specs::Readers::stop))]
fn stop(tokens: &mut Cursor<'_>) -> Result<Stmt, Fault>
    ensures { Reads (spec.stop tokens.old) result tokens.new }
{
    tokens.fixed(Symbol::Abort)?;
    tokens.fixed(Symbol::Open)?;
    tokens.fixed(Symbol::Close)?;
    Ok(Stmt::Abort)
}

#[tactic(auto, unfolding(crate::specs::Readers::store))]
fn store(tokens: &mut Cursor<'_>) -> Result<Stmt, Fault>
    ensures { Reads (spec.store tokens.old) result tokens.new }
{
    let scalar = mem(tokens)?;
    let place = place(tokens)?;
    tokens.fixed(Symbol::Assign)?;
    let from = operand(tokens)?;
    Ok(Stmt::Store {
        scalar,
        place,
        from,
    })
}

#[tactic(auto, unfolding(crate::specs::Readers::simple))]
fn simple(alloc: Global, tokens: &mut Cursor<'_>, profile: u8) -> Result<Stmt, Fault>
    ensures { Reads (spec.simple profile tokens.old) result tokens.new }
{
    if tokens.sees(Symbol::Putint) {
        put(tokens)
    } else if tokens.sees(Symbol::Abort) {
        stop(tokens)
    } else if tokens.sees(Symbol::Mem) {
        store(tokens)
    } else if begins_indirect(tokens, profile) {
        indirect(alloc, tokens, None)
    } else {
        let name = tokens.name()?;
        named(alloc, tokens, profile, name)
    }
}

#[tactic(auto, unfolding(crate::specs::Readers::statement))]
fn statement(alloc: Global, tokens: &mut Cursor<'_>, profile: u8) -> Result<Stmt, Fault>
    ensures { Reads (spec.statement profile tokens.old) result tokens.new }
{
    let found = simple(alloc, tokens, profile)?;
    tokens.fixed(Symbol::Semi)?;
    Ok(found)
}

fn begins_statement(tokens: &Cursor<'_>, profile: u8) -> bool
    ensures { result ≡ spec.begins_statement profile tokens.now }
{
    tokens.sees_name()
        || tokens.sees(Symbol::Putint)
        || tokens.sees(Symbol::Abort)
        || tokens.sees(Symbol::Mem)
        || begins_indirect(tokens, profile)
}

// Statements, as long as one begins.
#[tactic(auto, using(token_law::proofs::Turns::goes_on, token_law::proofs::Turns::stops, token_law::proofs::Turns::fails, token_law::proofs::Turns::ends))]
pub fn statements(alloc: Global, tokens: &mut Cursor<'_>, profile: u8) -> Result<Stmts, Fault>
    ensures { Reads (read.many (spec.begins_statement profile) (spec.statement profile) [] tokens.old) result tokens.new }
{
    let mut found = Stmts::new(alloc);
    for _turn in 0..tokens.left() {
        if !begins_statement(tokens, profile) {
            return Ok(found);
        }
        found.push(statement(alloc, tokens, profile)?)?;
    }
    Ok(found)
}
