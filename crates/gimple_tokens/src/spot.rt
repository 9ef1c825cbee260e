//! Lines and columns.

ghost use Rattle.std.specs.Prelude.{◌≡◌, ◌<◌, ◌≤◌, ◌+◌, ◌^◌, length};
ghost use Rattle.gimple_tokens.specs.Spots as spec;

/// A place in a text. Lines and columns count from 1, columns in bytes; a line feed ends a line.
#[derive(Clone, Copy, Debug, PartialEq, Eq)]
pub struct Spot {
    pub line: u64,
    pub column: u64,
}

pub fn past(spot: Spot, byte: u8) -> Spot
    requires line { spot.line < 2 ^ 60 }
    requires column { spot.column < 2 ^ 60 }
    ensures { result ≡ spec.spot_past spot byte }
{
    if byte == b'\n' {
        Spot {
            line: spot.line + 1,
            column: 1,
        }
    } else {
        Spot {
            line: spot.line,
            column: spot.column + 1,
        }
    }
}

/// The spot of the byte at a place, or of the place after the last byte.
pub fn spot_at(bytes: &[u8], place: usize) -> Spot
    requires short { length bytes.now < 2 ^ 32 }
    requires within { place ≤ length bytes.now }
    ensures { result ≡ spec.spot_at bytes.now place }
{
    let mut spot = Spot { line: 1, column: 1 };
    let mut rest = &bytes[..place];
    while let [byte, after @ ..] = rest {
        spot = past(spot, *byte);
        rest = after;
    }
    spot
}
