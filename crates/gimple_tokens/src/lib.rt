//! The tokens of program texts, and places in texts.
#![tactic(auto)]

mod front;
mod next;
mod scan;
mod spot;
mod token;
mod words;

pub use front::{Lexed, left_after, lex_front};
pub use next::{Cursor, Next, next_token};
pub use spot::{Spot, spot_at};
pub use token::{Symbol, Token, Word};
pub use words::{is_name, number_of};
