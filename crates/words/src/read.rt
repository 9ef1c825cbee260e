//! From words to options. Nothing here takes memory.

ghost use Rattle.std.specs.Prelude.{◌≡◌, drop, IfOk};
ghost use Rattle.std.specs.List.{list_any};
ghost use Rattle.words.specs.Words.{bytes_of, usage_text, options_of};
ghost use Rattle.words.specs.Twins.{word_of, is_twin, twin_word, lesser, least_twin};
ghost use Rattle.words.specs.Gathered.{gathered_words, gathered_of};
ghost use Rattle.words.specs.Limits.{HasLimits, HaveLimits};

use crate::gathered::{Gathered, stored_names};
use crate::item::Pending;
use crate::options::{Name, Options, UsageFault};
use crate::prefix::after;
use crate::read_item::read_item;
use gimple_ir::Text;

/// The bytes that a name stands for; none where the words lack it.
pub fn name_bytes<'a>(words: &'a [Text], name: &Name) -> &'a [u8]
    ensures { result.now ≡ bytes_of words.now name.now }
{
    match *name {
        Name::Standard => b"-",
        Name::Word { word, from } => match words.get(word.saturating_sub(1)) {
            Some(text) => from_place(text.as_slice(), from),
            None => b"",
        },
    }
}

fn from_place(bytes: &[u8], from: usize) -> &[u8]
    ensures { result.now ≡ drop from bytes.now }
{
    if from < bytes.len() {
        after(bytes, from)
    } else {
        b""
    }
}

/// What the words ask for, up to the first faulty one.
fn gather_words(words: &[Text]) -> Result<Gathered, UsageFault>
    ensures gathered { result ≡ gathered_words words.now }
    ensures limits { IfOk result HaveLimits }
{
    let mut gathered = Gathered::new();
    let mut pending = Pending::Nothing;
    for i in 0..words.len() {
        let text = &words[i];
        let item = match read_item(i + 1, text.as_slice(), pending, i + 1 == words.len()) {
            Ok(item) => item,
            Err(code) => return Err(UsageFault { word: i + 1, code }),
        };
        if gathered.repeats(item) {
            return Err(UsageFault {
                word: i + 1,
                code: 4,
            });
        }
        gathered = gathered.with(item);
        pending = item.pending();
    }
    Ok(gathered)
}

fn word_of(name: Name) -> usize
    ensures { result ≡ word_of name }
{
    match name {
        Name::Standard => 0,
        Name::Word { word, .. } => word,
    }
}

/// Whether an earlier word gives the same name.
fn is_twin(words: &[Text], earlier: Option<Name>, name: Name) -> bool
    ensures { result ≡ is_twin words.now name earlier }
{
    match earlier {
        Some(earlier) => {
            word_of(earlier) < word_of(name)
                && name_bytes(words, &earlier) == name_bytes(words, &name)
        }
        None => false,
    }
}

fn has_twin(words: &[Text], names: &[Option<Name>], name: Name) -> bool
    ensures { result ≡ list_any (is_twin words.now name) names.now }
{
    names.iter().any(|earlier| is_twin(words, *earlier, name))
}

/// The word of the name, where an earlier word gives the same.
fn twin_word(words: &[Text], names: &[Option<Name>], name: Option<Name>) -> Option<usize>
    ensures { result ≡ twin_word words.now names.now name }
{
    let name = name?;
    if has_twin(words, names, name) {
        Some(word_of(name))
    } else {
        None
    }
}

fn lesser(a: Option<usize>, b: Option<usize>) -> Option<usize>
    ensures { result ≡ lesser a b }
{
    match (a, b) {
        (Some(a), Some(b)) => Some(a.min(b)),
        (Some(a), None) => Some(a),
        (None, b) => b,
    }
}

/// The least word whose name an earlier word gives too.
#[tactic(auto, using(crate::proofs::Twins::twins))]
fn least_twin(words: &[Text], names: &[Option<Name>]) -> Option<usize>
    ensures { result ≡ least_twin words.now names.now names.now }
{
    let mut least = None;
    for name in names {
        least = lesser(least, twin_word(words, names, *name));
    }
    least
}

/// The options of the words, or their first fault: that of the first faulty word from left to right, then a missing
/// input (1), then one name for two stores (5). The option names are GCC's, as far as GCC has them. Takes no memory.
#[tactic(auto, unfolding(crate::specs::Words::options_of))]
pub fn read_words(words: &[Text]) -> Result<Options, UsageFault>
    ensures options { result ≡ options_of words.now }
    ensures limits { IfOk result HasLimits }
{
    let gathered = gather_words(words)?;
    let Some(source) = gathered.source else {
        return Err(UsageFault {
            word: words.len() + 1,
            code: 1,
        });
    };
    let options = gathered.options(source);
    match least_twin(words, &stored_names(&options)) {
        Some(word) => Err(UsageFault { word, code: 5 }),
        None => Ok(options),
    }
}

/// The text of a usage fault's code, as messages have it.
#[tactic(auto, unfolding(crate::specs::Words::usage_text))]
pub fn usage_text(code: u8) -> &'static str
    ensures { result.now ≡ usage_text code }
{
    match code {
        1 => "U01 no input",
        2 => "U02 unknown option",
        3 => "U03 bad value",
        4 => "U04 second input or output",
        5 => "U05 one name for two outputs",
        7 => "U07 value missing",
        _ => "U08 unknown parameter",
    }
}
