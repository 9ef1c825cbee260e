//! A cursor over tokens.

ghost use Rattle.std.specs.Prelude.{◌≡◌, length, drop};
ghost use Rattle.token_law.specs.Reading as spec;
ghost use Rattle.token_law.specs.Reading.{Reads};
ghost use Rattle.token_law.specs.declared.cursor.Fault.TheVariants.{Memory};

use gimple_ir::{OutOfMemory, Text};
use gimple_tokens::{Symbol, Token};
use std::alloc::Global;
use std::marker::Model;

/// Why tokens could not be read.
#[derive(Debug, Drop)]
pub enum Fault {
    /// Want of memory.
    Memory(OutOfMemory),
    /// How many tokens are left, the faulty one included. None is left at an early end.
    At(usize),
}

impl From<OutOfMemory> for Fault {
    ghost from_gives = { λ want e. e ≡ Memory want };

    fn from(want: OutOfMemory) -> Fault {
        Fault::Memory(want)
    }
}

/// What is left of the tokens.
#[derive(Drop)]
pub struct Cursor<'a> {
    rest: &'a [Token<'a>],
    alloc: Global,
}

impl<'a> Model for Cursor<'a> {
    ghost use Rattle.std.specs.Prelude.{List};
    ghost use Rattle.gimple_tokens.specs.declared.token.Token.{Token};

    ghost Value = { List Token };

    ghost view = { λ c. c.rest.now };
}

impl<'a> Cursor<'a> {
    /// At the first of these tokens. Names are copied into memory of this allocator.
    pub fn new(alloc: Global, rest: &'a [Token<'a>]) -> Cursor<'a>
        ensures { result ≡ rest.now }
    {
        Cursor { rest, alloc }
    }

    /// How many tokens are left.
    pub fn left(&self) -> usize
        ensures { result ≡ length self.now }
    {
        self.rest.len()
    }

    /// The symbol that comes next, where one does.
    pub fn symbol(&self) -> Option<Symbol>
        ensures { result ≡ spec.next_symbol self.now }
    {
        match self.rest {
            [next, ..] => match next {
                Token::Fixed(found) => Some(*found),
                _ => None,
            },
            [] => None,
        }
    }

    /// Takes the next token, where one is left.
    pub fn pass(&mut self)
        ensures { self.new ≡ drop 1 self.old }
    {
        if let [_, rest @ ..] = self.rest {
            self.rest = rest;
        }
    }

    /// Whether this symbol comes next.
    #[tactic(auto, unfolding(crate::specs::Reading::sees))]
    pub fn sees(&self, symbol: Symbol) -> bool
        ensures { result ≡ spec.sees symbol self.now }
    {
        match self.rest {
            [next, ..] => match next {
                Token::Fixed(found) => *found == symbol,
                _ => false,
            },
            [] => false,
        }
    }

    /// Whether a name comes next.
    #[tactic(auto, unfolding(crate::specs::Reading::sees_name))]
    pub fn sees_name(&self) -> bool
        ensures { result ≡ spec.sees_name self.now }
    {
        matches!(self.rest, [Token::Name(_), ..])
    }

    /// Takes this symbol.
    #[tactic(auto, unfolding(crate::specs::Reading::fixed))]
    pub fn fixed(&mut self, symbol: Symbol) -> Result<(), Fault>
        ensures { Reads (spec.fixed symbol self.old) result self.new }
    {
        if !self.sees(symbol) {
            return Err(Fault::At(self.left()));
        }
        self.pass();
        Ok(())
    }

    /// Takes a name, and copies it.
    #[tactic(auto, unfolding(crate::specs::Reading::name))]
    pub fn name(&mut self) -> Result<Text, Fault>
        ensures { Reads (spec.name self.old) result self.new }
    {
        match self.rest {
            [next, rest @ ..] => match next {
                Token::Name(name) => {
                    let name = Text::from_bytes(self.alloc, name.as_slice())?;
                    self.rest = rest;
                    Ok(name)
                }
                _ => Err(Fault::At(self.rest.len())),
            },
            [] => Err(Fault::At(0)),
        }
    }

    /// Takes a number.
    #[tactic(auto, unfolding(crate::specs::Reading::number))]
    pub fn number(&mut self) -> Result<u64, Fault>
        ensures { Reads (spec.number self.old) result self.new }
    {
        match self.rest {
            [next, rest @ ..] => match next {
                Token::Number(number) => {
                    let number = *number;
                    self.rest = rest;
                    Ok(number)
                }
                _ => Err(Fault::At(self.rest.len())),
            },
            [] => Err(Fault::At(0)),
        }
    }

    /// Takes the number of a profile, 1 or 2.
    #[tactic(auto, unfolding(crate::specs::Reading::profile_number))]
    pub fn profile(&mut self) -> Result<u8, Fault>
        ensures { Reads (spec.profile_number self.old) result self.new }
    {
        match self.rest {
            [Token::Number(1), rest @ ..] => {
                self.rest = rest;
                Ok(1)
            }
            [Token::Number(2), rest @ ..] => {
                self.rest = rest;
                Ok(2)
            }
            _ => Err(Fault::At(self.rest.len())),
        }
    }

    /// Takes the end: no token is left.
    #[tactic(auto, unfolding(crate::specs::Reading::end_of_text))]
    pub fn end(&self) -> Result<(), Fault>
        ensures { Reads (spec.end_of_text self.now) result self.now }
    {
        if self.rest.is_empty() {
            Ok(())
        } else {
            Err(Fault::At(self.rest.len()))
        }
    }
}
