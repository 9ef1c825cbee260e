//! The top call of `gimple-run`.

ghost use Rattle.std.specs.Prelude.{MatchResult, Some};
ghost use Rattle.words.specs.declared.options.SourceName.TheVariants.{File};
ghost use Rattle.words.specs.RunWords.{run_words_of};
ghost use Rattle.ipa_driver.specs.declared.tool.Tool.TheVariants.{Runner};
ghost use Rattle.ipa_driver.specs.Answers.{Answer, IsDone, TopAnswers};
ghost use Rattle.ipa_driver.specs.RunAnswers.{IsRunOutput, run_source};
ghost use Rattle.ipa_driver.specs.Work.{WorkKeeps, WorkSure};

use crate::finish::{Fault, Finish};
use crate::load::load;
use crate::outputs::store_all;
use crate::run_text::run_outputs;
use crate::tell::tell;
use crate::tool::Tool;
use gimple_core::Text;
use shelf::Shelf;
use std::alloc::Global;
use words::{RunOptions, SourceName, name_bytes, read_run_words};

/// Reads the words, fetches the program, runs it in the mode and on the input numbers of the words, and stores on `-`
/// what it printed and what it came to; where anything fails, tells one message. It never waits, and always returns.
pub fn run_program<S: Shelf>(alloc: Global, words: &[Text], shelf: &mut S) -> Finish
    ensures { TopAnswers Runner words.now (run_words_of words.now) run_source (IsRunOutput words.now) (S.meaning shelf.old) (S.meaning shelf.new) result }
{
    match read_run_words(words) {
        Ok(options) => match work(alloc, words, &options, shelf) {
            Ok(()) => Finish {
                status: 0,
                fault: None,
            },
            Err(fault) => {
                let input = name_bytes(words, &options.source);
                tell(alloc, Tool::Runner, input, words, fault, shelf)
            }
        },
        Err(fault) => tell(alloc, Tool::Runner, b"", words, Fault::Usage(fault), shelf),
    }
}

/// All that lies between the words and the message.
fn work<S: Shelf>(
    alloc: Global,
    words: &[Text],
    options: &RunOptions,
    shelf: &mut S,
) -> Result<(), Fault>
    ensures keeps { WorkKeeps (S.meaning shelf.old) (S.meaning shelf.new) }
    ensures answer { MatchResult result
        (λ _. IsDone words.now (File options.now.source) (IsRunOutput words.now options.now) (S.meaning shelf.old) (S.meaning shelf.new))
        (λ fault. Answer words.now (File options.now.source) (IsRunOutput words.now options.now) (S.meaning shelf.old) (S.meaning shelf.new) (Some fault)) }
    ensures sure { WorkSure words.now (File options.now.source) (IsRunOutput words.now options.now) (S.meaning shelf.old) (S.meaning shelf.new) result }
{
    let source = SourceName::File(options.source);
    let program = load(alloc, words, &source, options.mode, shelf)?;
    let outputs = match run_outputs(alloc, words, options, &program) {
        Ok(outputs) => outputs,
        Err(_) => return Err(Fault::Memory),
    };
    match store_all(words, &outputs, shelf) {
        Ok(()) => Ok(()),
        Err(name) => Err(Fault::Write(name)),
    }
}
