//! The reader of texts.

ghost use Rattle.std.specs.Prelude.{◌≡◌, ◌<◌, ◌^◌, ◌-◌, length, IfOk, IfErr};
ghost use Rattle.gimple_ir.specs.declared.program.Program as syntax;
ghost use Rattle.gimple_ir.specs.Counts.{CountsWithin, IsCountable};
ghost use Rattle.gimple_tokens.specs.Spots as spots;
ghost use Rattle.gimple_text.specs.Parse.{Spells, FaultOrMemory, ParsesAs, Judged, OneProgram, FaultExcludes, OneFault};

use crate::fault::TextFault;
use gimple_grammar::read;
use gimple_ir::Program;
use gimple_tokens::{Spot, left_after, lex_front, spot_at};
use std::alloc::Global;
use token_law::Fault;

// The spot where so many bytes are left.
fn spot_left(bytes: &[u8], left: usize) -> Spot
    requires { length bytes.now < 2 ^ 32 }
    ensures { result ≡ spots.spot_at bytes.now (length bytes.now - left) }
{
    spot_at(bytes, bytes.len().saturating_sub(left))
}

// What reading the tokens of the front of a text says of the text. So many bytes are left behind the front, and it has so many tokens.
fn judge(
    bytes: &[u8],
    left: usize,
    count: usize,
    read: Result<Program, Fault>,
) -> Result<Program, TextFault>
    requires { length bytes.now < 2 ^ 32 }
    ensures { Judged bytes.now left count read result }
{
    match read {
        Ok(program) => {
            if left == 0 {
                Ok(program)
            } else {
                Err(TextFault::BadByte(spot_left(bytes, left)))
            }
        }
        Err(Fault::Memory(want)) => Err(TextFault::Memory(want)),
        Err(Fault::At(0)) => {
            if left == 0 {
                Err(TextFault::EarlyEnd(spot_left(bytes, 0)))
            } else {
                Err(TextFault::BadByte(spot_left(bytes, left)))
            }
        }
        Err(Fault::At(tokens)) => {
            let before = left_after(bytes, count.saturating_sub(tokens));
            Err(TextFault::BadToken(spot_left(bytes, before)))
        }
    }
}

/// The program that a text spells.
///
/// Errors: the text's one fault with its place, exactly where no program has the text; or want of memory.
pub fn parse(alloc: Global, bytes: &[u8]) -> Result<Program, TextFault>
    requires { length bytes.now < 2 ^ 32 }
    // What is read is spelled so.
    ensures found { IfOk result (λ p. Spells bytes.now p) }
    // It has fewer parts of each kind than the text has bytes.
    ensures counts { IfOk result (CountsWithin (length bytes.now)) }
    // So 32 bits can number them.
    ensures countable { IfOk result IsCountable }
    // What is spelled so is read, unless memory runs out.
    ensures only { (p : syntax.Program) → Spells bytes.now p → ParsesAs p result }
    // Which fault it is, and where.
    ensures fault { IfErr result (FaultOrMemory bytes.now) }
{
    match lex_front(alloc, bytes) {
        Ok(lexed) => {
            let tokens = lexed.tokens.as_slice();
            let count = tokens.len();
            let found = read(alloc, tokens);
            judge(bytes, lexed.left, count, found)
        }
        Err(want) => Err(TextFault::Memory(want)),
    }
}

/// A text spells at most one program.
pub fn one_program()
    ensures { OneProgram }
{}

/// A text with a fault spells no program.
pub fn fault_excludes()
    ensures { FaultExcludes }
{}

/// A text has at most one fault.
pub fn one_fault()
    ensures { OneFault }
{}
