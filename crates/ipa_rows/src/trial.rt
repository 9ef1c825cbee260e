//! Runs of rows, and what they come to.

use crate::misread::Misread;
use crate::row::{Case, Differences, Row, Run, Tool};
use ipa_driver::{MemoryShelf, optimise_alone, run_program};
use std::alloc::Global;

/// A run that has ended.
#[derive(Drop)]
pub struct Trial {
    pub shelf: MemoryShelf,
    pub status: u8,
}

/// What a run must come to. Where the stores are free, they are not compared.
#[derive(Drop)]
struct Wanted {
    status: u8,
    stores_are_free: bool,
    told: Vec<u8>,
}

fn wanted_of(alloc: Global, run: &Run<'_>) -> Result<Wanted, Misread> {
    let row = run.row;
    let filling = match run.case {
        Some(Case { told: None, .. }) => {
            return Ok(Wanted {
                status: 0,
                stores_are_free: true,
                told: Vec::new(alloc),
            });
        }
        Some(
            Case {
                told: Some(told),
                ..
            },
        ) => Some(told.as_slice()),
        None => None,
    };
    Ok(Wanted {
        status: row.status,
        stores_are_free: false,
        told: row.told.filled(alloc, filling)?,
    })
}

impl Trial {
    pub fn of(alloc: Global, run: &Run<'_>) -> Result<Trial, Misread> {
        let row = run.row;
        let mut shelf = MemoryShelf::new(alloc, row.room, row.fails.as_slice())?;
        for source in &row.sources {
            let bytes = source.text.filled(alloc, run.filling())?;
            shelf.add_source(source.file.as_slice(), bytes.as_slice())?;
        }
        let words = run.command().words.as_slice();
        let finish = match row.tool {
            Tool::Optimiser => optimise_alone(alloc, words, &mut shelf),
            Tool::Interpreter => run_program(alloc, words, &mut shelf),
        };
        Ok(Trial {
            shelf,
            status: finish.status,
        })
    }

    /// In what this trial of a run is not as it must be.
    pub fn differences(&self, alloc: Global, run: &Run<'_>) -> Result<Differences, Misread> {
        let wanted = wanted_of(alloc, run)?;
        let stores = wanted.stores_are_free
            || self.stores_all(alloc, run.row)? && self.stores_only(run);
        Ok(Differences {
            status: self.status != wanted.status,
            stored: !stores,
            told: self.shelf.told() != wanted.told.as_slice(),
        })
    }

    /// Whether all that the row wants is stored.
    fn stores_all(&self, alloc: Global, row: &Row) -> Result<bool, Misread> {
        for entry in &row.stored {
            let wanted = entry.text.filled(alloc, None)?;
            match self.shelf.stored(entry.file.as_slice()) {
                Some(bytes) if bytes == wanted.as_slice() => {}
                _ => return Ok(false),
            }
        }
        Ok(true)
    }

    /// Whether nothing that the row does not want is stored, under any name that the words can give.
    fn stores_only(&self, run: &Run<'_>) -> bool {
        run.command().names.iter().all(|name| {
            self.shelf.stored(name.as_slice()).is_none() || is_wanted(run.row, name.as_slice())
        })
    }
}

fn is_wanted(row: &Row, name: &[u8]) -> bool {
    row.stored.iter().any(|entry| entry.file.as_slice() == name)
}
