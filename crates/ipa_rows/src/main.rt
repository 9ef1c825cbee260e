//! Runs the rows of the row files that the words of the command line name: whole runs of the tool over a shelf in memory.
//! Prints a line for each row that does not come to what it must, and how many rows there were.
//!
//! docs/ARCHITECTURE.md ("Rows") says what a row file is.
#![tactic(auto)]

mod line;
mod misread;
mod reader;
mod report;
mod row;
mod sketch;
mod trial;

use gimple_ir::{Site, TypeFault};
use ipa_driver::UsageFault;
use misread::Misread;
use reader::Reader;
use report::{Tally, print_differences};
use row::{Row, Run};
use std::process::ExitCode;
use std::{env, fs};
use trial::Trial;

/// The line at which a row file cannot be used, and why.
#[derive(Drop)]
struct Stop {
    line: u64,
    why: Misread,
}

/// The rows of a file.
fn rows_of(rt: &HostRuntime, reader: &mut Reader, file: &str) -> Result<Vec<Row>, Stop> {
    let Ok(text) = fs::read_to_string(rt, file) else {
        return Err(Stop {
            line: 0,
            why: Misread::Unreadable,
        });
    };
    let mut number = 0u64;
    for line in text.lines() {
        number = number.saturating_add(1);
        if let Err(why) = reader.read_line(number, line) {
            return Err(Stop { line: number, why });
        }
    }
    Ok(reader.take_rows())
}

/// Makes a run, and prints a line where it does not come to what it must.
fn try_run(rt: &HostRuntime, file: &str, run: &Run<'_>) -> Result<Tally, Misread> {
    let trial = Trial::of(rt.alloc(), run)?;
    let found = trial.differences(rt.alloc(), run)?;
    if found == run.row.wrong {
        return Ok(Tally { runs: 1, faults: 0 });
    }
    let _ = print_differences(rt, file, run, &trial, found);
    Ok(Tally { runs: 1, faults: 1 })
}

/// Makes the run of a row, or those of its cases.
fn try_row(rt: &HostRuntime, file: &str, row: &Row) -> Result<Tally, Misread> {
    if row.cases.is_empty() {
        return try_run(rt, file, &Run { row, case: None });
    }
    let mut tally = Tally::NONE;
    for case in &row.cases {
        let run = Run {
            row,
            case: Some(case),
        };
        tally = tally.plus(try_run(rt, file, &run)?);
    }
    Ok(tally)
}

/// Runs the rows of a file.
fn try_file(rt: &HostRuntime, reader: &mut Reader, file: &str) -> Result<Tally, Stop> {
    let rows = rows_of(rt, reader, file)?;
    let mut tally = Tally::NONE;
    for row in &rows {
        match try_row(rt, file, row) {
            Ok(more) => tally = tally.plus(more),
            Err(why) => {
                return Err(Stop {
                    line: row.line,
                    why,
                });
            }
        }
    }
    Ok(tally)
}

/// Prints the texts of the two errors that a caller of the crates below may show, which no contract pins.
fn print_error_texts(rt: &HostRuntime) {
    let usage = UsageFault { word: 3, code: 2 };
    let types = TypeFault {
        code: 5,
        site: Site::Whole,
    };
    let _ = println!(rt; "{usage}; {types}");
}

fn main(rt: HostRuntime) -> ExitCode {
    let Ok(arguments) = env::args(&rt) else {
        return ExitCode::from(2);
    };
    let mut reader = Reader::new(rt.alloc());
    let mut total = Tally::NONE;
    for file in arguments.into_iter().skip(1) {
        match try_file(&rt, &mut reader, file.as_str()) {
            Ok(tally) => {
                let runs = tally.runs;
                let _ = println!(rt; "{file}: {runs} rows");
                total = total.plus(tally);
            }
            Err(Stop { line, why }) => {
                let _ = println!(rt; "{file}:{line}: {why}");
                return ExitCode::from(2);
            }
        }
    }
    print_error_texts(&rt);
    let Tally { runs, faults } = total;
    let _ = println!(rt; "{runs} rows, {faults} not as they must be");
    ExitCode::from(if faults == 0 { 0 } else { 1 })
}
