//! Functions and whole programs.

ghost use Rattle.std.specs.Prelude.{◌≡◌, [], length, IfOk, IfErr};
ghost use Rattle.token_law.specs.Reading as read;
ghost use Rattle.token_law.specs.Reading.{Reads};
ghost use Rattle.gimple_tokens.specs.declared.token.Symbol.TheVariants as s;
ghost use Rattle.gimple_grammar.specs.Readers as spec;
ghost use Rattle.gimple_ir.specs.declared.program.Program as syntax;
ghost use Rattle.gimple_grammar.specs.Grammar.{IsProgram};
ghost use Rattle.gimple_grammar.specs.TokenFaults.{FaultOf, ReadsAs};

use crate::declarations::{globals, locals, params, registers, structs};
use crate::endings::blocks;
use crate::signatures::gives;
use crate::symbols::sees_scalar;
use gimple_ir::{Function, Functions, Program};
use gimple_tokens::{Symbol, Token};
use std::alloc::Global;
use token_law::{Cursor, Fault};

#[tactic(auto, unfolding(crate::specs::Readers::function))]
fn function(alloc: Global, tokens: &mut Cursor<'_>, profile: u8) -> Result<Function, Fault>
    ensures { Reads (spec.function profile tokens.old) result tokens.new }
{
    let result_scalar = gives(tokens)?;
    let name = tokens.name()?;
    tokens.fixed(Symbol::Open)?;
    let params = params(alloc, tokens)?;
    tokens.fixed(Symbol::Close)?;
    tokens.fixed(Symbol::OpenBrace)?;
    let locals = locals(alloc, tokens)?;
    let registers = registers(alloc, tokens)?;
    let blocks = blocks(alloc, tokens, profile)?;
    tokens.fixed(Symbol::CloseBrace)?;
    Ok(Function {
        name,
        params,
        result: result_scalar,
        locals,
        registers,
        blocks,
    })
}

fn begins_function(tokens: &Cursor<'_>) -> bool
    ensures { result ≡ spec.begins_function tokens.now }
{
    tokens.sees(Symbol::Void) || sees_scalar(tokens)
}

#[tactic(auto, using(token_law::proofs::Turns::goes_on, token_law::proofs::Turns::stops, token_law::proofs::Turns::fails, token_law::proofs::Turns::ends))]
fn functions(alloc: Global, tokens: &mut Cursor<'_>, profile: u8) -> Result<Functions, Fault>
    ensures { Reads (read.many spec.begins_function (spec.function profile) [] tokens.old) result tokens.new }
{
    let mut found = Functions::new(alloc);
    for _turn in 0..tokens.left() {
        if !begins_function(tokens) {
            return Ok(found);
        }
        found.push(function(alloc, tokens, profile)?)?;
    }
    Ok(found)
}

#[tactic(auto, unfolding(crate::specs::Readers::program))]
fn program(alloc: Global, tokens: &mut Cursor<'_>) -> Result<Program, Fault>
    ensures { Reads (spec.program tokens.old) result tokens.new }
{
    tokens.fixed(Symbol::Gimple)?;
    let profile = tokens.profile()?;
    tokens.fixed(Symbol::Semi)?;
    let structs = structs(alloc, tokens)?;
    let globals = globals(alloc, tokens)?;
    let functions = functions(alloc, tokens, profile)?;
    tokens.end()?;
    Ok(Program {
        profile,
        structs,
        globals,
        functions,
    })
}

/// The program that the tokens spell.
///
/// Errors: how many tokens are left at the first one with which the tokens before it begin no program, none at an early end; or want of memory.
pub fn read<'a>(alloc: Global, tokens: &'a [Token<'a>]) -> Result<Program, Fault>
    // What is read is spelled so.
    ensures found { IfOk result (λ p. IsProgram p tokens.now) }
    // What is spelled so is read, unless memory runs out.
    ensures only { (p : syntax.Program) → IsProgram p tokens.now → ReadsAs p result }
    // The tokens before the fault begin a program, and with it they do not.
    ensures fault { IfErr result (FaultOf tokens.now) }
{
    program(alloc, &mut Cursor::new(alloc, tokens))
}
