//! What a program is asked to tell of itself.

ghost use Rattle.std.specs.Prelude.{◌≡◌};
ghost use Rattle.words.specs.Information.{information_named, information_of};

use crate::prefix::is_word;
use gimple_ir::Text;

/// A text about the program itself: how it is called, or its version.
#[derive(Clone, Copy, Debug, PartialEq, Eq)]
pub enum Information {
    Help,
    Version,
}

/// What a command line asks for that has one word alone, `--help` or `--version`. Takes no memory.
pub fn asked_information(words: &[Text]) -> Option<Information>
    ensures { result ≡ information_of words.now }
{
    match words {
        [word] => information_named(word.as_slice()),
        _ => None,
    }
}

#[tactic(auto, unfolding(crate::specs::Information::information_named))]
fn information_named(word: &[u8]) -> Option<Information>
    ensures { result ≡ information_named word.now }
{
    if is_word(word, "--help") {
        Some(Information::Help)
    } else if is_word(word, "--version") {
        Some(Information::Version)
    } else {
        None
    }
}
