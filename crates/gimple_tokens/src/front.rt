//! The tokens of bytes up to the end or the first byte that begins none.

ghost use Rattle.std.specs.Prelude.{◌≡◌, false, length, IfOk};
ghost use Rattle.gimple_tokens.specs.Lexing as spec;
ghost use Rattle.gimple_tokens.specs.Front.{Front, step, walk};

use crate::scan::{past_token, skip, token};
use crate::token::Token;
use gimple_ir::OutOfMemory;
use std::alloc::Global;

/// The tokens up to the end or the first byte that begins none, and how many bytes are left from there.
#[derive(Drop)]
pub struct Lexed<'a> {
    pub tokens: Vec<Token<'a>>,
    pub left: usize,
}

/// The tokens up to the end or the first byte that begins none.
#[tactic(auto, using(crate::proofs::Runs::pushed, crate::proofs::Runs::fronted))]
pub fn lex_front<'a>(alloc: Global, bytes: &'a [u8]) -> Result<Lexed<'a>, OutOfMemory>
    ensures { IfOk result (λ x. Front bytes.now x.tokens.items x.left) }
{
    let mut found = Vec::new(alloc);
    let mut rest = skip(bytes);
    'tokens: while !rest.is_empty() {
        let (token, after) = match token(rest) {
            Some(found) => found,
            None => break,
        };
        found.push(token)?;
        rest = skip(after);
    }
    Ok(Lexed {
        tokens: found,
        left: rest.len(),
    })
}

// The bytes behind the next token and the blanks after it.
fn past(bytes: &[u8]) -> &[u8]
    ensures { result.now ≡ step bytes.now (spec.token_at bytes.now) }
{
    match past_token(bytes) {
        Some(after) => skip(after),
        None => bytes,
    }
}

/// How many bytes are left behind so many tokens and the blanks after them.
pub fn left_after(bytes: &[u8], count: usize) -> usize
    ensures { result ≡ length (walk count (spec.skip false bytes.now)) }
{
    let mut rest = skip(bytes);
    for _turn in 0..count {
        rest = past(rest);
    }
    rest.len()
}
