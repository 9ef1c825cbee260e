//! Folds the functions of the row files that the words of the command line name, from top facts, and compares what they become
//! with the texts that the rows have, which were written by hand. Prints a line for each row that does not come out, how many
//! rows there were, and how often the solver was called, which is once a row whose text is a program.
//!
//! The head of `data/operands.rows` says what a row file is.
#![tactic(auto)]

mod folds;
mod misread;
mod noting;
mod reader;

use folds::folded_text;
use misread::Misread;
use noting::NotingSolver;
use reader::{Reader, Row};
use std::process::ExitCode;
use std::{env, fs};

/// The line at which a row file cannot be used, and why.
#[derive(Drop)]
struct Stop {
    line: u64,
    why: Misread,
}

/// How many rows there were, and how many of them did not come out as they must.
#[derive(Clone, Copy)]
struct Tally {
    rows: u64,
    faults: u64,
}

/// The rows of a file.
fn rows_of(rt: &HostRuntime, file: &str) -> Result<Vec<Row>, Stop> {
    let Ok(text) = fs::read_to_string(rt, file) else {
        return Err(Stop {
            line: 0,
            why: Misread::Unreadable,
        });
    };
    let mut reader = Reader::new(rt.alloc());
    let mut number = 0u64;
    for line in text.lines() {
        number = number.saturating_add(1);
        if let Err(why) = reader.read_line(number, line) {
            return Err(Stop { line: number, why });
        }
    }
    Ok(reader.into_rows())
}

/// Whether a row comes out: whether its function becomes what it says, or does not where the row says that it is wrong.
fn comes_out(rt: &HostRuntime, row: &Row, solver: &mut NotingSolver) -> Result<bool, Misread> {
    let (source, wanted) = row.texts(rt.alloc())?;
    let found = folded_text(rt.alloc(), row.mode, source.as_slice(), row.number, solver)?;
    let is_wanted = match found {
        Some(text) => text.as_slice() == wanted.as_slice(),
        None => false,
    };
    Ok(is_wanted != row.wrong)
}

/// Tries the rows of a file.
fn try_file(rt: &HostRuntime, file: &str, solver: &mut NotingSolver) -> Result<Tally, Stop> {
    let mut tally = Tally { rows: 0, faults: 0 };
    for row in &rows_of(rt, file)? {
        let line = row.line;
        tally.rows = tally.rows.saturating_add(1);
        match comes_out(rt, row, solver) {
            Ok(true) => {}
            Ok(false) => {
                tally.faults = tally.faults.saturating_add(1);
                let _ = println!(rt; "{file}:{line}: not as it must be");
            }
            Err(why) => return Err(Stop { line, why }),
        }
    }
    Ok(tally)
}

fn main(rt: HostRuntime) -> ExitCode {
    let Ok(arguments) = env::args(&rt) else {
        return ExitCode::from(2);
    };
    let mut solver = NotingSolver::new();
    let mut total = Tally { rows: 0, faults: 0 };
    for file in arguments.into_iter().skip(1) {
        match try_file(&rt, file.as_str(), &mut solver) {
            Ok(Tally { rows, faults }) => {
                let _ = println!(rt; "{file}: {rows} rows");
                total.rows = total.rows.saturating_add(rows);
                total.faults = total.faults.saturating_add(faults);
            }
            Err(Stop { line, why }) => {
                let _ = println!(rt; "{file}:{line}: {why}");
                return ExitCode::from(2);
            }
        }
    }
    let Tally { rows, faults } = total;
    let calls = solver.calls();
    let _ = println!(rt; "{rows} rows, {faults} not as they must be, {calls} calls of the solver");
    ExitCode::from(if faults == 0 { 0 } else { 1 })
}
