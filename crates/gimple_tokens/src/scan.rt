//! The token at the head of bytes.

ghost use Rattle.std.specs.Prelude.{◌≡◌, ◌+◌, ◌*◌, ◌<◌, ◌^◌, false, length, Some, option_map};
ghost use Rattle.std.specs.Option.{SomeIff};
ghost use Rattle.std.specs.Str.{bytes_eq};
ghost use Rattle.gimple_ir.specs.Names as names;
ghost use Rattle.gimple_tokens.specs.Lexing as spec;

use crate::token::{Symbol, Token, Word};

fn is_blank(b: u8) -> bool
    ensures { result ≡ spec.is_blank b }
{
    b == b' ' || b == b'\t' || b == b'\n' || b == b'\r'
}

pub fn is_digit(b: u8) -> bool
    ensures { result ≡ names.is_digit b }
{
    48 <= b && b <= 57
}

pub fn starts_name(b: u8) -> bool
    ensures { result ≡ names.starts_name b }
{
    97 <= b && b <= 122 || 65 <= b && b <= 90 || b == b'_'
}

pub fn goes_on_name(b: u8) -> bool
    ensures { result ≡ names.goes_on_name b }
{
    starts_name(b) || is_digit(b) || b == b'.'
}

fn next_is(wanted: u8, bytes: &[u8]) -> bool
    ensures { result ≡ spec.next_is wanted bytes.now }
{
    match bytes {
        [b, ..] => *b == wanted,
        [] => false,
    }
}

// The bytes from the first on that is in no blank or comment.
pub fn skip(bytes: &[u8]) -> &[u8]
    ensures { result.now ≡ spec.skip false bytes.now }
{
    let mut rest = bytes;
    let mut in_comment = false;
    while let [b, after @ ..] = rest {
        if in_comment {
            in_comment = *b != b'\n';
        } else if *b == b'/' && next_is(b'/', after) {
            in_comment = true;
        } else if !is_blank(*b) {
            return rest;
        }
        rest = after;
    }
    rest
}

fn split_name(bytes: &[u8]) -> (&[u8], &[u8])
    ensures front { result.0.now ≡ spec.front names.goes_on_name bytes.now }
    ensures back { result.1.now ≡ spec.back names.goes_on_name bytes.now }
{
    let mut n = 0;
    while n < bytes.len() && goes_on_name(bytes[n]) {
        n += 1;
    }
    bytes.split_at(n)
}

fn split_digits(bytes: &[u8]) -> (&[u8], &[u8])
    ensures front { result.0.now ≡ spec.front names.is_digit bytes.now }
    ensures back { result.1.now ≡ spec.back names.is_digit bytes.now }
{
    let mut n = 0;
    while n < bytes.len() && is_digit(bytes[n]) {
        n += 1;
    }
    bytes.split_at(n)
}

fn same(text: &[u8], other: &[u8]) -> bool
    ensures { result ≡ bytes_eq text.now other.now }
{
    text == other
}

fn declaration_word(word: &[u8]) -> Option<Symbol>
    ensures { result ≡ spec.declaration_word word.now }
{
    if same(word, b"gimple") {
        Some(Symbol::Gimple)
    } else if same(word, b"struct") {
        Some(Symbol::Struct)
    } else if same(word, b"global") {
        Some(Symbol::Global)
    } else if same(word, b"const") {
        Some(Symbol::Const)
    } else if same(word, b"local") {
        Some(Symbol::Local)
    } else if same(word, b"void") {
        Some(Symbol::Void)
    } else {
        None
    }
}

fn scalar_word(word: &[u8]) -> Option<Symbol>
    ensures { result ≡ spec.scalar_word word.now }
{
    if same(word, b"i8") {
        Some(Symbol::I8)
    } else if same(word, b"i16") {
        Some(Symbol::I16)
    } else if same(word, b"i32") {
        Some(Symbol::I32)
    } else if same(word, b"i64") {
        Some(Symbol::I64)
    } else if same(word, b"u8") {
        Some(Symbol::U8)
    } else if same(word, b"u16") {
        Some(Symbol::U16)
    } else if same(word, b"u32") {
        Some(Symbol::U32)
    } else if same(word, b"u64") {
        Some(Symbol::U64)
    } else if same(word, b"ptr") {
        Some(Symbol::Ptr)
    } else {
        None
    }
}

fn statement_word(word: &[u8]) -> Option<Symbol>
    ensures { result ≡ spec.statement_word word.now }
{
    if same(word, b"MEM") {
        Some(Symbol::Mem)
    } else if same(word, b"null") {
        Some(Symbol::Null)
    } else if same(word, b"getint") {
        Some(Symbol::Getint)
    } else if same(word, b"putint") {
        Some(Symbol::Putint)
    } else if same(word, b"abort") {
        Some(Symbol::Abort)
    } else {
        None
    }
}

fn end_word(word: &[u8]) -> Option<Symbol>
    ensures { result ≡ spec.end_word word.now }
{
    if same(word, b"bb") {
        Some(Symbol::Bb)
    } else if same(word, b"goto") {
        Some(Symbol::Goto)
    } else if same(word, b"if") {
        Some(Symbol::If)
    } else if same(word, b"else") {
        Some(Symbol::Else)
    } else if same(word, b"switch") {
        Some(Symbol::Switch)
    } else if same(word, b"case") {
        Some(Symbol::Case)
    } else if same(word, b"default") {
        Some(Symbol::Default)
    } else if same(word, b"return") {
        Some(Symbol::Return)
    } else {
        None
    }
}

fn body_word(word: &[u8]) -> Option<Symbol>
    ensures { result ≡ spec.first_of_two (spec.statement_word word.now) (spec.end_word word.now) }
{
    match statement_word(word) {
        Some(symbol) => Some(symbol),
        None => end_word(word),
    }
}

fn small_word(word: &[u8]) -> Option<Symbol>
    ensures { result ≡ spec.first_of_two (spec.scalar_word word.now) (spec.first_of_two (spec.statement_word word.now) (spec.end_word word.now)) }
{
    match scalar_word(word) {
        Some(symbol) => Some(symbol),
        None => body_word(word),
    }
}

// The keyword that a word is, where it is one.
#[tactic(auto, unfolding(crate::specs::Lexing::keyword))]
pub fn keyword(word: &[u8]) -> Option<Symbol>
    ensures { result ≡ spec.keyword word.now }
{
    match declaration_word(word) {
        Some(symbol) => Some(symbol),
        None => small_word(word),
    }
}

fn mark(b: u8) -> Option<Symbol>
    ensures { result ≡ spec.mark b }
{
    match b {
        b';' => Some(Symbol::Semi),
        b'{' => Some(Symbol::OpenBrace),
        b'}' => Some(Symbol::CloseBrace),
        b'(' => Some(Symbol::Open),
        b')' => Some(Symbol::Close),
        b'[' => Some(Symbol::OpenBracket),
        b']' => Some(Symbol::CloseBracket),
        b',' => Some(Symbol::Comma),
        b':' => Some(Symbol::Colon),
        b'=' => Some(Symbol::Assign),
        b'@' => Some(Symbol::At),
        b'&' => Some(Symbol::Ampersand),
        b'<' => Some(Symbol::Less),
        b'>' => Some(Symbol::Greater),
        b'+' => Some(Symbol::Plus),
        b'-' => Some(Symbol::Minus),
        b'*' => Some(Symbol::Star),
        b'/' => Some(Symbol::Slash),
        b'%' => Some(Symbol::Percent),
        b'|' => Some(Symbol::Bar),
        b'^' => Some(Symbol::Caret),
        _ => None,
    }
}

fn pair_mark(first: u8, second: u8) -> Option<Symbol>
    ensures { result ≡ spec.pair_mark first second }
{
    match (first, second) {
        (b'<', b'=') => Some(Symbol::LessEq),
        (b'>', b'=') => Some(Symbol::GreaterEq),
        (b'=', b'=') => Some(Symbol::EqEq),
        (b'!', b'=') => Some(Symbol::NotEq),
        (b'<', b'<') => Some(Symbol::ShiftLeft),
        (b'>', b'>') => Some(Symbol::ShiftRight),
        _ => None,
    }
}

fn begins_pair(b: u8) -> bool
    ensures { result ≡ spec.begins_pair b }
{
    b == b'<' || b == b'>' || b == b'=' || b == b'!'
}

// A mark of one byte, and the rest.
fn single(b: u8, rest: &[u8]) -> Option<(Symbol, &[u8])>
    ensures { option_map (λ x. spec.fixed x.0 x.1.now) result ≡ spec.one_mark (spec.mark b) rest.now }
{
    match mark(b) {
        Some(symbol) => Some((symbol, rest)),
        None => None,
    }
}

fn paired(b: u8, rest: &[u8]) -> Option<(Symbol, &[u8])>
    ensures { option_map (λ x. spec.fixed x.0 x.1.now) result ≡ spec.paired_at b rest.now }
{
    match rest {
        [] => single(b, rest),
        [c, after @ ..] => match pair_mark(b, *c) {
            Some(symbol) => Some((symbol, after)),
            None => single(b, rest),
        },
    }
}

fn mark_at(b: u8, rest: &[u8]) -> Option<(Symbol, &[u8])>
    ensures { option_map (λ x. spec.fixed x.0 x.1.now) result ≡ spec.mark_at b rest.now }
{
    if begins_pair(b) {
        paired(b, rest)
    } else {
        single(b, rest)
    }
}

fn times_ten_plus(n: u64, digit: u8) -> Option<u64>
    ensures { SomeIff result (10 * n + digit < 2 ^ 64) (10 * n + digit) }
{
    let next = 10 * u128::from(n) + u128::from(digit);
    u64::try_from(next).ok()
}

// The number that digits write, where it has 64 bits.
#[tactic(auto, using(crate::proofs::Numbers::grows))]
pub fn value(digits: &[u8]) -> Option<u64>
    ensures { SomeIff result (spec.number_after 0 digits.now < 2 ^ 64) (spec.number_after 0 digits.now) }
{
    let mut rest = digits;
    let mut n: u64 = 0;
    while let [d, after @ ..] = rest {
        match times_ten_plus(n, d.saturating_sub(48)) {
            Some(next) => n = next,
            None => return None,
        }
        rest = after;
    }
    Some(n)
}

fn word(bytes: &[u8]) -> (Token<'_>, &[u8])
    ensures { spec.word_at bytes.now ≡ (result.0, result.1.now) }
{
    let (text, rest) = split_name(bytes);
    match keyword(text) {
        Some(symbol) => (Token::Fixed(symbol), rest),
        None => (Token::Name(Word::new(text)), rest),
    }
}

fn number(bytes: &[u8]) -> (Token<'_>, &[u8])
    ensures { spec.number_at bytes.now ≡ (result.0, result.1.now) }
{
    let (digits, rest) = split_digits(bytes);
    match value(digits) {
        Some(number) => (Token::Number(number), rest),
        None => (Token::Huge, rest),
    }
}

// The token that begins the bytes, and the rest; None where none begins.
pub fn token(bytes: &[u8]) -> Option<(Token<'_>, &[u8])>
    ensures { option_map (λ x. spec.pair x.0 x.1.now) result ≡ spec.token_at bytes.now }
{
    match bytes {
        [] => None,
        [b, rest @ ..] => {
            if starts_name(*b) {
                Some(word(bytes))
            } else if is_digit(*b) {
                Some(number(bytes))
            } else {
                match mark_at(*b, rest) {
                    Some((symbol, rest)) => Some((Token::Fixed(symbol), rest)),
                    None => None,
                }
            }
        }
    }
}

// The bytes behind the token that begins the bytes; None where none begins.
pub fn past_token(bytes: &[u8]) -> Option<&[u8]>
    ensures { option_map (λ x. x.now) result ≡ option_map (λ x. x.1) (spec.token_at bytes.now) }
{
    match bytes {
        [] => None,
        [b, rest @ ..] => {
            if starts_name(*b) {
                Some(split_name(bytes).1)
            } else if is_digit(*b) {
                Some(split_digits(bytes).1)
            } else {
                match mark_at(*b, rest) {
                    Some((_, rest)) => Some(rest),
                    None => None,
                }
            }
        }
    }
}
