//! The top call.

ghost use Rattle.std.specs.Prelude.{MatchResult, Some};
ghost use Rattle.words.specs.Limits.{IsLawfulSource};
ghost use Rattle.words.specs.Words.{options_of};
ghost use Rattle.ipa_driver.specs.declared.tool.Tool.TheVariants.{Optimiser};
ghost use Rattle.ipa_driver.specs.Stores.{AreOutputs};
ghost use Rattle.ipa_driver.specs.Answers.{Answer, IsDone, TopAnswers};
ghost use Rattle.ipa_driver.specs.Work.{WorkKeeps, WorkSure};

use crate::finish::{Fault, Finish};
use crate::load::{input_name, load};
use crate::outputs::{outputs_of, store_all};
use crate::tell::tell;
use crate::tool::Tool;
use gimple_core::Text;
use shelf::Shelf;
use std::alloc::Global;
use words::{Options, read_words};

/// Reads the words, fetches the source, runs the passes and stores what was asked for; where anything fails, tells
/// one message. It never waits, and always returns.
pub fn optimise_alone<S: Shelf>(alloc: Global, words: &[Text], shelf: &mut S) -> Finish
    ensures { TopAnswers Optimiser words.now (options_of words.now) (λ options. options.source) AreOutputs (S.meaning shelf.old) (S.meaning shelf.new) result }
{
    match read_words(words) {
        Ok(options) => match work(alloc, words, &options, shelf) {
            Ok(()) => Finish {
                status: 0,
                fault: None,
            },
            Err(fault) => {
                let input = input_name(words, &options.source);
                tell(alloc, Tool::Optimiser, input, words, fault, shelf)
            }
        },
        Err(fault) => tell(
            alloc,
            Tool::Optimiser,
            b"",
            words,
            Fault::Usage(fault),
            shelf,
        ),
    }
}

/// All that lies between the words and the message.
fn work<S: Shelf>(
    alloc: Global,
    words: &[Text],
    options: &Options,
    shelf: &mut S,
) -> Result<(), Fault>
    requires { IsLawfulSource options.now.source }
    ensures keeps { WorkKeeps (S.meaning shelf.old) (S.meaning shelf.new) }
    ensures answer { MatchResult result
        (λ _. IsDone words.now options.now.source (AreOutputs options.now) (S.meaning shelf.old) (S.meaning shelf.new))
        (λ fault. Answer words.now options.now.source (AreOutputs options.now) (S.meaning shelf.old) (S.meaning shelf.new) (Some fault)) }
    ensures sure { WorkSure words.now options.now.source (AreOutputs options.now) (S.meaning shelf.old) (S.meaning shelf.new) result }
{
    let program = load(alloc, words, &options.source, options.mode, shelf)?;
    let outputs = match outputs_of(alloc, program, options) {
        Ok(outputs) => outputs,
        Err(_) => return Err(Fault::Memory),
    };
    match store_all(words, &outputs, shelf) {
        Ok(()) => Ok(()),
        Err(name) => Err(Fault::Write(name)),
    }
}
