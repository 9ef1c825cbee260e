//! Numbers and names.

ghost use Rattle.std.specs.Prelude.{◌≡◌, ◌↔◌, IsTrue};
ghost use Rattle.std.specs.Option.{SomeIff};
ghost use Rattle.gimple_ir.specs.Names as names;
ghost use Rattle.gimple_tokens.specs.Lexing as spec;

use crate::scan::{goes_on_name, is_digit, keyword, starts_name, value};

fn all_digits(bytes: &[u8]) -> bool
    ensures { result ≡ spec.all_pass names.is_digit bytes.now }
{
    let mut rest = bytes;
    while let [b, after @ ..] = rest {
        if !is_digit(*b) {
            return false;
        }
        rest = after;
    }
    true
}

fn all_go_on(bytes: &[u8]) -> bool
    ensures { result ≡ spec.all_pass names.goes_on_name bytes.now }
{
    let mut rest = bytes;
    while let [b, after @ ..] = rest {
        if !goes_on_name(*b) {
            return false;
        }
        rest = after;
    }
    true
}

/// The value of digits; None exactly where there are none, another byte is among them, or the value is above 2^64 - 1. Takes no memory.
pub fn number_of(bytes: &[u8]) -> Option<u64>
    ensures { SomeIff result (spec.IsNumeral bytes.now) (spec.number_after 0 bytes.now) }
{
    if bytes.is_empty() || !all_digits(bytes) {
        None
    } else {
        value(bytes)
    }
}

// Whether the bytes are a name, and no keyword.
fn name_text(bytes: &[u8]) -> bool
    ensures { result ≡ spec.is_name_text bytes.now }
{
    match bytes {
        [] => false,
        [b, rest @ ..] => starts_name(*b) && all_go_on(rest) && keyword(bytes).is_none(),
    }
}

/// Whether the bytes are a name, and no keyword. Takes no memory.
pub fn is_name(bytes: &[u8]) -> bool
    ensures { IsTrue result ↔ names.IsNameText bytes.now }
{
    name_text(bytes)
}
