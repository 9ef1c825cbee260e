//! From words to what is to be run.

ghost use Rattle.std.specs.Prelude.{◌≡◌, ◌≤◌, ◌<◌, ◌^◌, ◌+◌, ◌-◌, length, drop, map, IfOk, pos, neg_ℤ};
ghost use Rattle.words.specs.RunWords.{is_option, option_of, integer_of, number_fault, first_from, input_from, run_words_of, number_or_zero, inputs_of};

use crate::keys::mode_named;
use crate::numbers::number;
use crate::options::{Name, UsageFault};
use crate::prefix::{after, begins};
use crate::run_options::{RunItem, RunOptions, Settings};
use gimple_ir::{Mode, OutOfMemory, Text};
use std::alloc::Global;

/// The most transfers that an option may name.
const GREATEST_TURNS: u64 = 1_000_000_000;

/// The transfers where no option names them.
const TURNS: u64 = 1_000_000;

/// What the words of `gimple-run` ask for, or the fault of the first faulty word: options `--turns=N`, `-fwrapv` and
/// `-ftrapv`, then the input's name, then input numbers. It takes no memory.
#[tactic(auto, using(crate::proofs::RunLaws::after_option, crate::proofs::RunLaws::at_fault, crate::proofs::RunLaws::at_input, crate::proofs::RunLaws::no_input), unfolding(crate::specs::RunWords::run_words_of))]
pub fn read_run_words(words: &[Text]) -> Result<RunOptions, UsageFault>
    ensures { result ≡ run_words_of words.now }
{
    let mut settings = Settings {
        turns: TURNS,
        mode: Mode::Trap,
    };
    for (place, word) in words.iter().enumerate() {
        if !is_option(word.as_slice()) {
            return from_input(settings, place, word.as_slice(), &words[place + 1..]);
        }
        match option(word.as_slice()) {
            Ok(item) => settings = settings.with(item),
            Err(code) => {
                return Err(UsageFault {
                    word: place + 1,
                    code,
                });
            }
        }
    }
    Err(UsageFault {
        word: words.len() + 1,
        code: 1,
    })
}

/// The input numbers: those of the words after the first ones. A word that is none gives 0.
pub fn input_numbers(alloc: Global, words: &[Text], first: usize) -> Result<Vec<i64>, OutOfMemory>
    ensures { IfOk result (λ numbers. numbers.items ≡ inputs_of words.now first) }
{
    numbers_of(alloc, words_after(words, first))
}

fn words_after(words: &[Text], first: usize) -> &[Text]
    ensures { result.now ≡ drop first words.now }
{
    if first < words.len() {
        &words[first..]
    } else {
        &[]
    }
}

fn numbers_of(alloc: Global, words: &[Text]) -> Result<Vec<i64>, OutOfMemory>
    ensures { IfOk result (λ numbers. numbers.items ≡ map number_or_zero words.now) }
{
    let mut numbers = Vec::new(alloc);
    for word in words {
        numbers.push(integer(word.as_slice()).unwrap_or(0))?;
    }
    Ok(numbers)
}

/// What the words ask for, where no fault was found before the input, which comes after so many words.
#[tactic(auto, unfolding(crate::specs::RunWords::input_from, crate::specs::RunWords::first_from))]
fn from_input(
    settings: Settings,
    place: usize,
    input: &[u8],
    numbers: &[Text],
) -> Result<RunOptions, UsageFault>
    requires { place + length numbers.now + 2 < 2 ^ 64 - 1 }
    ensures { result ≡ input_from settings place input.now numbers.now }
{
    if input.is_empty() {
        return Err(UsageFault {
            word: place + 1,
            code: 3,
        });
    }
    match number_fault(place + 2, numbers) {
        Some(fault) => Err(fault),
        None => Ok(RunOptions {
            turns: settings.turns,
            mode: settings.mode,
            source: Name::Word {
                word: place + 1,
                from: 0,
            },
            first: place + 1,
        }),
    }
}

/// The fault of the first word that is no input number, where the first of these has this number.
#[tactic(auto, using(crate::proofs::RunLaws::after_number, crate::proofs::RunLaws::at_no_number), unfolding(crate::specs::RunWords::first_from))]
fn number_fault(word: usize, numbers: &[Text]) -> Option<UsageFault>
    requires { word + length numbers.now < 2 ^ 64 - 1 }
    ensures { result ≡ first_from word (map number_fault numbers.now) }
{
    for (place, number) in numbers.iter().enumerate() {
        if integer(number.as_slice()).is_none() {
            return Some(UsageFault {
                word: word + place,
                code: 3,
            });
        }
    }
    None
}

/// Whether a word is more than `-` and begins so.
#[tactic(auto, unfolding(crate::specs::RunWords::is_option))]
fn is_option(word: &[u8]) -> bool
    ensures { result ≡ is_option word.now }
{
    match word {
        [] => false,
        [first, rest @ ..] => *first == b'-' && !rest.is_empty(),
    }
}

/// What an option says, or the code of its fault.
#[tactic(auto, unfolding(crate::specs::RunWords::option_of))]
fn option(word: &[u8]) -> Result<RunItem, u8>
    ensures { result ≡ option_of word.now }
{
    if let Some(mode) = mode_named(word) {
        return Ok(RunItem::Mode(mode));
    }
    if !begins(word, "--turns=") {
        return Err(2);
    }
    match number(after(word, 8), 0, GREATEST_TURNS) {
        Some(turns) => Ok(RunItem::Turns(turns)),
        None => Err(3),
    }
}

/// The number of 64 bits that a word spells.
#[tactic(auto, unfolding(crate::specs::RunWords::integer_of))]
fn integer(word: &[u8]) -> Option<i64>
    ensures { result ≡ integer_of word.now }
{
    match word {
        [] => None,
        [b'-', digits @ ..] => match number(digits, 0, 1 << 63) {
            Some(number) => Some(negated(number)),
            None => None,
        },
        _ => match number(word, 0, (1 << 63) - 1) {
            Some(number) => Some(number as i64),
            None => None,
        },
    }
}

/// A number with its sign turned.
fn negated(number: u64) -> i64
    requires { number ≤ 2 ^ 63 }
    ensures { result ≡ neg_ℤ (pos number) }
{
    (-i128::from(number)) as i64
}
