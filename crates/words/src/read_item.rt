//! What one word says, or the code of its fault.

ghost use Rattle.std.specs.Prelude.{◌≡◌, ◌==◌, ◌≤◌, length, IfOk};
ghost use Rattle.std.specs.List.{list_any};
ghost use Rattle.words.specs.Items.{param_of, file_of, turn_of, dump_of, summary_of, workers_of, generate_of, long_of, valued_of, single_of, item_of};
ghost use Rattle.words.specs.Limits.{KeepsLimits};

use crate::item::{Item, Pending};
use crate::keys::{dump_named, level_named, mode_named, param_named, pass_named};
use crate::numbers::number;
use crate::options::{Name, SourceName};
use crate::prefix::{after, begins, is_word};

fn has_equals(text: &[u8]) -> bool
    ensures { result ≡ list_any (λ b. b == 61) text.now }
{
    text.iter().any(|b| *b == b'=')
}

/// What the text `NAME=V` of a parameter says.
#[tactic(auto, unfolding(crate::specs::Items::param_of))]
fn param_item(text: &[u8]) -> Result<Item, u8>
    ensures value { result ≡ param_of text.now }
    ensures limits { IfOk result KeepsLimits }
{
    match param_named(text) {
        Some((param, from)) => match number(after(text, from), param.least(), param.greatest()) {
            Some(value) => Ok(Item::Set(param, value)),
            None => Err(3),
        },
        None => Err(if has_equals(text) { 8 } else { 3 }),
    }
}

/// A file's name, from a place of a word on.
fn file(word: usize, text: &[u8], from: usize) -> Result<Name, u8>
    requires { from ≤ length text.now }
    ensures { result ≡ file_of word text.now from }
{
    if from == text.len() {
        return Err(3);
    }
    Ok(Name::Word { word, from })
}

/// What a word with the name of a pass says.
#[tactic(auto, unfolding(crate::specs::Items::turn_of))]
fn turn_item(name: &[u8], on: bool) -> Result<Item, u8>
    ensures value { result ≡ turn_of name.now on }
    ensures limits { IfOk result KeepsLimits }
{
    match pass_named(name) {
        Some(pass) => Ok(Item::Turn(pass, on)),
        None => Err(2),
    }
}

#[tactic(auto, unfolding(crate::specs::Items::dump_of))]
fn dump_item(word: usize, text: &[u8]) -> Result<Item, u8>
    requires { 11 ≤ length text.now }
    ensures value { result ≡ dump_of word text.now }
    ensures limits { IfOk result KeepsLimits }
{
    match dump_named(after(text, 11)) {
        Some((dump, from)) => match file(word, text, 11 + from) {
            Ok(name) => Ok(Item::Dump(dump, name)),
            Err(code) => Err(code),
        },
        None => Err(2),
    }
}

#[tactic(auto, unfolding(crate::specs::Items::summary_of))]
fn summary_item(word: usize, text: &[u8]) -> Result<Item, u8>
    requires { 10 ≤ length text.now }
    ensures value { result ≡ summary_of word text.now }
    ensures limits { IfOk result KeepsLimits }
{
    match file(word, text, 10) {
        Ok(name) => Ok(Item::Summary(name)),
        Err(code) => Err(code),
    }
}

#[tactic(auto, unfolding(crate::specs::Items::workers_of))]
fn workers_item(text: &[u8]) -> Result<Item, u8>
    ensures value { result ≡ workers_of text.now }
    ensures limits { IfOk result KeepsLimits }
{
    match number(text, 1, 64) {
        Some(workers) => Ok(Item::Workers(workers as u32)),
        None => Err(3),
    }
}

#[tactic(auto, unfolding(crate::specs::Items::generate_of))]
fn generate_item(text: &[u8]) -> Result<Item, u8>
    ensures value { result ≡ generate_of text.now }
    ensures limits { IfOk result KeepsLimits }
{
    match number(text, 1, 65536) {
        Some(functions) => Ok(Item::Source(SourceName::Generate(functions as u32))),
        None => Err(3),
    }
}

/// What an option with a value in its word says.
#[tactic(auto, unfolding(crate::specs::Items::valued_of))]
fn valued_item(word: usize, text: &[u8]) -> Result<Item, u8>
    ensures value { result ≡ valued_of word text.now }
    ensures limits { IfOk result KeepsLimits }
{
    if begins(text, "--param=") {
        param_item(after(text, 8))
    } else if begins(text, "--summary=") {
        summary_item(word, text)
    } else if begins(text, "--workers=") {
        workers_item(after(text, 10))
    } else if begins(text, "--generate=") {
        generate_item(after(text, 11))
    } else {
        Err(2)
    }
}

/// What an option with a value or a pass in its word says.
#[tactic(auto, unfolding(crate::specs::Items::long_of))]
fn long_item(word: usize, text: &[u8]) -> Result<Item, u8>
    ensures value { result ≡ long_of word text.now }
    ensures limits { IfOk result KeepsLimits }
{
    if begins(text, "-fdump-ipa-") {
        dump_item(word, text)
    } else if begins(text, "-fno-ipa-") {
        turn_item(after(text, 9), false)
    } else if begins(text, "-fipa-") {
        turn_item(after(text, 6), true)
    } else {
        valued_item(word, text)
    }
}

/// What a word says that is no value of the word before it.
#[tactic(auto, unfolding(crate::specs::Items::single_of))]
fn single_item(word: usize, text: &[u8], is_last: bool) -> Result<Item, u8>
    ensures value { result ≡ single_of word text.now is_last }
    ensures limits { IfOk result KeepsLimits }
{
    if text.is_empty() {
        return Err(3);
    }
    if text[0] != b'-' || text.len() == 1 {
        return Ok(Item::Source(SourceName::File(Name::Word { word, from: 0 })));
    }
    if is_word(text, "-o") {
        return if is_last {
            Err(7)
        } else {
            Ok(Item::OutputOption)
        };
    }
    if is_word(text, "--param") {
        return if is_last {
            Err(7)
        } else {
            Ok(Item::ParamOption)
        };
    }
    if let Some(level) = level_named(text) {
        return Ok(Item::Level(level));
    }
    match mode_named(text) {
        Some(mode) => Ok(Item::Mode(mode)),
        None => long_item(word, text),
    }
}

/// What the word of this number says, or the code of its fault.
pub fn read_item(word: usize, text: &[u8], pending: Pending, is_last: bool) -> Result<Item, u8>
    ensures value { result ≡ item_of word pending text.now is_last }
    ensures limits { IfOk result KeepsLimits }
{
    match pending {
        Pending::Nothing => single_item(word, text, is_last),
        Pending::Output => match file(word, text, 0) {
            Ok(name) => Ok(Item::Output(name)),
            Err(code) => Err(code),
        },
        Pending::Param => param_item(text),
    }
}
