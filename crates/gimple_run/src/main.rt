//! The program `gimple-run`: the top call over files and the standard streams.
#![tactic(auto)]

use file_shelf::{FileShelf, NoWords, show, words};
use ipa_driver::{Information, asked_information, run_program};
use std::process::ExitCode;

const HELP: &str = "Usage: gimple-run [OPTION].. INPUT [NUMBER]..
Runs a program on these input numbers, and prints what it printed and how it ended. A name that is - is a standard stream.
  --turns=N               how many jumps, calls and returns it may make; 1000000 unless it is named
  -fwrapv -ftrapv         signed sums wrap, or trap, which they do unless one is named
docs/MANUAL.md tells of each option, of statuses and messages.
";

const VERSION: &str = "gimple-run (Rombuyra) 0.1\n";

fn main(rt: HostRuntime) -> ExitCode {
    match words(&rt) {
        Ok(words) => match asked_information(&words) {
            Some(Information::Help) => ExitCode::from(show(&rt, HELP)),
            Some(Information::Version) => ExitCode::from(show(&rt, VERSION)),
            None => {
                let mut shelf = FileShelf::new(&rt);
                ExitCode::from(run_program(rt.alloc(), &words, &mut shelf).status)
            }
        },
        Err(NoWords::Unreadable) => {
            let _ = rt.eprint("gimple-run: word 1: error: U02 unknown option\n");
            ExitCode::from(2)
        }
        Err(NoWords::Memory) => {
            let _ = rt.eprint("gimple-run: error: out of memory\n");
            ExitCode::from(5)
        }
    }
}
