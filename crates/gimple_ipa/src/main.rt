//! The program `gimple-ipa`: the top call over files and the standard streams.
#![tactic(auto)]

use file_shelf::{FileShelf, NoWords, show, words};
use ipa_driver::{Information, asked_information, optimise_alone};
use std::process::ExitCode;

const HELP: &str = "Usage: gimple-ipa INPUT [OPTION]..
Reads a program, optimises it and stores it. A name that is - is a standard stream.
  --generate=N            a program of N functions that is made by a rule, in the place of INPUT
  -o FILE                 the output, which is - unless it is named
  -O0 -O1 -O2 -O3         which passes are on; -O0 unless one is named
  -fipa-PASS -fno-ipa-PASS
                          one pass on or off: icf, cp, cp-clone, bit-cp, vrp, sra, modref
  --param NAME=VALUE      a limit of a pass
  -fwrapv -ftrapv         signed sums wrap, or trap, which they do unless one is named
  -fdump-ipa-DUMP=FILE    what was found: cgraph, icf, cp, sra, modref
  --summary=FILE          sizes and counts
  --workers=N             how many threads
docs/MANUAL.md tells of each option, of statuses and messages.
";

const VERSION: &str = "gimple-ipa (Rombuyra) 0.1\n";

fn main(rt: HostRuntime) -> ExitCode {
    match words(&rt) {
        Ok(words) => match asked_information(&words) {
            Some(Information::Help) => ExitCode::from(show(&rt, HELP)),
            Some(Information::Version) => ExitCode::from(show(&rt, VERSION)),
            None => {
                let mut shelf = FileShelf::new(&rt);
                ExitCode::from(optimise_alone(rt.alloc(), &words, &mut shelf).status)
            }
        },
        Err(NoWords::Unreadable) => {
            let _ = rt.eprint("gimple-ipa: word 1: error: U02 unknown option\n");
            ExitCode::from(2)
        }
        Err(NoWords::Memory) => {
            let _ = rt.eprint("gimple-ipa: error: out of memory\n");
            ExitCode::from(5)
        }
    }
}
