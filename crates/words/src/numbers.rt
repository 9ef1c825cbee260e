//! Decimal numbers in words.

ghost use Rattle.std.specs.Prelude.{◌≡◌, ◌≤◌, ◌<◌, ◌^◌, ◌-◌, min, IfSome};
ghost use Rattle.std.specs.List.{list_all};
ghost use Rattle.words.specs.Numbers.{is_digit, value_of, limited};

fn all_digits(bytes: &[u8]) -> bool
    ensures { result ≡ list_all is_digit bytes.now }
{
    bytes.iter().all(|b| *b >= b'0' && *b <= b'9')
}

/// The value of digits, or the greatest number that fits.
fn value(bytes: &[u8]) -> u64
    ensures { result ≡ min (value_of bytes.now) (2 ^ 64 - 1) }
{
    let mut value = 0u64;
    for b in bytes {
        value = value
            .saturating_mul(10)
            .saturating_add(u64::from(b.saturating_sub(b'0')));
    }
    value
}

/// The number of 1 to 20 digits, where there is one within these limits.
#[tactic(auto, unfolding(crate::specs::Numbers::limited))]
pub fn number(bytes: &[u8], least: u64, greatest: u64) -> Option<u64>
    requires { greatest < 2 ^ 64 - 1 }
    ensures value { result ≡ limited least greatest bytes.now }
    ensures least { IfSome result (λ n. least ≤ n) }
    ensures greatest { IfSome result (λ n. n ≤ greatest) }
{
    if bytes.is_empty() || bytes.len() > 20 || !all_digits(bytes) {
        return None;
    }
    let number = value(bytes);
    if number < least || number > greatest {
        return None;
    }
    Some(number)
}
