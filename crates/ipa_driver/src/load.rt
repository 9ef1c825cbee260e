//! The fetch, the reader and the checker.

ghost use Rattle.std.specs.Prelude.{◌≡◌, MatchResult, length, ◌≤◌};
ghost use Rattle.words.specs.declared.options.SourceName.TheVariants.{File};
ghost use Rattle.words.specs.Limits.{IsLawfulSource};
ghost use Rattle.ipa_driver.specs.Answers.{Refused};
ghost use Rattle.ipa_driver.specs.Source.{input_name};
ghost use Rattle.ipa_driver.specs.Work.{Loads, LoadsText, FetchRefused, Judges, IsLoaded};

use crate::finish::Fault;
use gimple_core::{Checked, Mode, Text};
use gimple_gen::generate;
use gimple_text::{TextFault, parse};
use gimple_types::{Refusal, accept};
use shelf::{Fetched, Shelf};
use std::alloc::Global;
use words::{Name, SourceName, name_bytes};

/// The most bytes that a source may have.
const LIMIT: u64 = 16_777_216;

/// The input's name; none of a generated program.
pub fn input_name<'a>(words: &'a [Text], source: &SourceName) -> &'a [u8]
    ensures { result.now ≡ input_name words.now source.now }
{
    match source {
        SourceName::File(name) => name_bytes(words, name),
        SourceName::Generate(_) => b"",
    }
}

/// The text of the source of this name.
fn fetch_text<S: Shelf>(alloc: Global, name: &[u8], shelf: &mut S) -> Result<Text, Fault>
    ensures loads { Loads (S.meaning shelf.old) (S.meaning shelf.new) }
    ensures text { MatchResult result
        (LoadsText name.now (S.meaning shelf.old) (S.meaning shelf.new))
        (FetchRefused name.now (S.meaning shelf.old) (S.meaning shelf.new)) }
{
    let mut text = Text::new(alloc);
    match shelf.fetch(name, LIMIT, &mut text) {
        Fetched::Done => Ok(text),
        Fetched::Failed => Err(Fault::Read),
        Fetched::Long => Err(Fault::Long),
        Fetched::Memory => Err(Fault::Memory),
    }
}

/// The accepted program of a text, in this mode.
fn judge(alloc: Global, text: &[u8], mode: Mode) -> Result<Checked, Fault>
    requires { length text.now ≤ 16777216 }
    ensures { Judges text.now mode result }
{
    match parse(alloc, text) {
        Ok(program) => match accept(alloc, program) {
            Ok(checked) => Ok(Checked::seal_as(checked.into_program(), mode)),
            Err(Refusal::Fault(fault)) => Err(Fault::Types(fault)),
            Err(Refusal::Memory(_)) => Err(Fault::Memory),
        },
        Err(TextFault::Memory(_)) => Err(Fault::Memory),
        Err(fault) => Err(Fault::Text(fault)),
    }
}

/// The accepted program of the file of this name, in this mode.
fn load_file<S: Shelf>(
    alloc: Global,
    words: &[Text],
    name: &Name,
    mode: Mode,
    shelf: &mut S,
) -> Result<Checked, Fault>
    ensures loads { Loads (S.meaning shelf.old) (S.meaning shelf.new) }
    ensures answer { MatchResult result
        (IsLoaded words.now (File name.now) mode (S.meaning shelf.old) (S.meaning shelf.new))
        (Refused words.now (File name.now) (S.meaning shelf.old) (S.meaning shelf.new)) }
{
    let text = fetch_text(alloc, name_bytes(words, name), shelf)?;
    judge(alloc, text.as_slice(), mode)
}

/// The accepted program of the source that the words name, in this mode.
pub fn load<S: Shelf>(
    alloc: Global,
    words: &[Text],
    source: &SourceName,
    mode: Mode,
    shelf: &mut S,
) -> Result<Checked, Fault>
    requires { IsLawfulSource source.now }
    ensures loads { Loads (S.meaning shelf.old) (S.meaning shelf.new) }
    ensures answer { MatchResult result
        (IsLoaded words.now source.now mode (S.meaning shelf.old) (S.meaning shelf.new))
        (Refused words.now source.now (S.meaning shelf.old) (S.meaning shelf.new)) }
{
    match source {
        SourceName::File(name) => load_file(alloc, words, name, mode, shelf),
        SourceName::Generate(functions) => match generate(alloc, *functions) {
            Ok(program) => Ok(Checked::seal_as(program, mode)),
            Err(_) => Err(Fault::Memory),
        },
    }
}
