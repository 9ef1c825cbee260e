//! What a word is, and what it begins with.

ghost use Rattle.std.specs.Prelude.{◌≡◌, ◌≤◌, length, drop, map, IsTrue, IfSome};
ghost use Rattle.words.specs.Prefix.{begins, is_word, row_named, row_begun};

#[tactic(auto, unfolding(crate::specs::Prefix::begins))]
pub fn begins(text: &[u8], prefix: &str) -> bool
    ensures value { result ≡ begins text.now prefix.now }
    ensures bound { IsTrue result → length prefix.now ≤ length text.now }
{
    text.starts_with(prefix.as_bytes())
}

#[tactic(auto, unfolding(crate::specs::Prefix::is_word))]
pub fn is_word(text: &[u8], word: &str) -> bool
    ensures { result ≡ is_word text.now word.now }
{
    text == word.as_bytes()
}

/// The bytes from a place on.
pub fn after(text: &[u8], from: usize) -> &[u8]
    requires { from ≤ length text.now }
    ensures { result.now ≡ drop from text.now }
{
    &text[from..]
}

/// What a table has for a word; the first row of it counts.
#[tactic(auto, unfolding(crate::specs::Prefix::row_named))]
pub fn row_named<T: Copy>(rows: &[(&str, T)], text: &[u8]) -> Option<T>
    ensures { result ≡ row_named (map (λ row. (row.0.now, row.1)) rows.now) text.now }
{
    match rows {
        [] => None,
        [(word, what), rest @ ..] => {
            if is_word(text, word) {
                Some(*what)
            } else {
                row_named(rest, text)
            }
        }
    }
}

/// What a table has for the beginning of a text, and where the rest begins.
#[tactic(auto, unfolding(crate::specs::Prefix::row_begun))]
pub fn row_begun<T: Copy>(rows: &[(&str, T)], text: &[u8]) -> Option<(T, usize)>
    ensures place { result ≡ row_begun (map (λ row. (row.0.now, row.1)) rows.now) text.now }
    ensures within { IfSome result (λ found. found.1 ≤ length text.now) }
{
    match rows {
        [] => None,
        [(prefix, what), rest @ ..] => {
            if begins(text, prefix) {
                Some((*what, prefix.len()))
            } else {
                row_begun(rest, text)
            }
        }
    }
}
