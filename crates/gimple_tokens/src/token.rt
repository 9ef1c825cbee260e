//! Tokens.

ghost use Rattle.std.specs.Prelude.{◌≡◌};

use std::marker::Model;

/// The tokens of one spelling: keywords, then marks.
#[derive(Clone, Copy, Debug, PartialEq, Eq)]
pub enum Symbol {
    Gimple,
    Struct,
    Global,
    Const,
    Local,
    Bb,
    Mem,
    Null,
    Getint,
    Putint,
    Abort,
    Goto,
    If,
    Else,
    Switch,
    Case,
    Default,
    Return,
    Void,
    I8,
    I16,
    I32,
    I64,
    U8,
    U16,
    U32,
    U64,
    Ptr,
    LessEq,
    GreaterEq,
    EqEq,
    NotEq,
    ShiftLeft,
    ShiftRight,
    Semi,
    OpenBrace,
    CloseBrace,
    Open,
    Close,
    OpenBracket,
    CloseBracket,
    Comma,
    Colon,
    Assign,
    At,
    Ampersand,
    Less,
    Greater,
    Plus,
    Minus,
    Star,
    Slash,
    Percent,
    Bar,
    Caret,
}

/// A name, as it stands in the text.
#[derive(Drop)]
pub struct Word<'a> {
    bytes: &'a [u8],
}

impl<'a> Model for Word<'a> {
    ghost use Rattle.std.specs.Prelude.{List, ℕ};

    ghost Value = { List ℕ };

    ghost view = { λ w. w.bytes.now };
}

impl<'a> Word<'a> {
    /// The name of these bytes.
    pub fn new(bytes: &'a [u8]) -> Word<'a>
        ensures { result ≡ bytes.now }
    {
        Word { bytes }
    }

    /// The bytes of the name.
    pub fn as_slice(&self) -> &[u8]
        ensures { result.now ≡ self.now }
    {
        self.bytes
    }
}

/// A token. `Huge` is a number above 2^64 - 1, which no program has.
#[derive(Drop)]
pub enum Token<'a> {
    Name(Word<'a>),
    Number(u64),
    Huge,
    Fixed(Symbol),
}
