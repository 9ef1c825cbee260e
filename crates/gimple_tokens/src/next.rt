//! One token after the other, with their places.

ghost use Rattle.std.specs.Prelude.{◌≡◌, ◌<◌, ◌≤◌, ◌+◌, ◌^◌, length};
ghost use Rattle.gimple_tokens.specs.Spots as spots;
ghost use Rattle.gimple_tokens.specs.Next as spec;

use crate::scan::{past_token, skip};
use crate::spot::{Spot, past};

/// A place in a text: how many bytes stand before it, and its line and column.
#[derive(Clone, Copy, Debug, PartialEq, Eq)]
pub struct Cursor {
    pub place: usize,
    pub spot: Spot,
}

/// What comes first from a place of a text on, behind blanks and comments.
#[derive(Clone, Copy, Debug, PartialEq, Eq)]
pub enum Next {
    /// A token, keywords and numbers of any size included, with its bytes from `from` up to but without `to`.
    Token {
        from: usize,
        to: usize,
        spot: Spot,
        after: Cursor,
    },
    /// A byte that begins no token.
    BadByte(Spot),
    /// The end of the text.
    Stop(Spot),
}

// The place where so many bytes are left, at or behind a place.
fn moved(bytes: &[u8], at: Cursor, left: usize) -> Cursor
    requires short { length bytes.now < 2 ^ 32 }
    requires within { at.place + left ≤ length bytes.now }
    requires there { at.spot ≡ spots.spot_at bytes.now at.place }
    ensures { result ≡ spec.cursor_left bytes.now left }
{
    let place = bytes.len() - left;
    let mut spot = at.spot;
    let mut rest = &bytes[at.place..place];
    while let [byte, after @ ..] = rest {
        spot = past(spot, *byte);
        rest = after;
    }
    Cursor { place, spot }
}

/// The first token from a place on. Takes no memory.
pub fn next_token(bytes: &[u8], at: Cursor) -> Next
    requires short { length bytes.now < 2 ^ 32 }
    requires within { at.place ≤ length bytes.now }
    requires there { at.spot ≡ spots.spot_at bytes.now at.place }
    ensures { result ≡ spec.next_at bytes.now at.place }
{
    let rest = skip(&bytes[at.place..]);
    let start = moved(bytes, at, rest.len());
    match past_token(rest) {
        Some(behind) => {
            let after = moved(bytes, start, behind.len());
            Next::Token {
                from: start.place,
                to: after.place,
                spot: start.spot,
                after,
            }
        }
        None => {
            if rest.is_empty() {
                Next::Stop(start.spot)
            } else {
                Next::BadByte(start.spot)
            }
        }
    }
}
