//! Globals in a row, each found by its name.

ghost use Rattle.std.specs.Prelude.{◌≡◌, IfOk, find, map, position, slice_get};
ghost use Rattle.std.specs.List.{list_any};
ghost use Rattle.std.specs.Option.{option_copied};
ghost use Rattle.std.specs.Str.{bytes_eq};

use crate::names::Names;
use gimple_core::{Global, OutOfMemory, Text};
use std::alloc::Global as Heap;
use std::marker::Model;

/// Globals in a row, each found by its name. While no name stands in a long row twice, it is searched by hashing.
#[derive(Drop)]
pub struct NamedGlobals<'a> {
    globals: &'a [Global],
    names: Names<'a>,
}

impl<'a> Model for NamedGlobals<'a> {
    ghost use Rattle.std.specs.Prelude.{◌≡◌, List, map};
    ghost use Rattle.gimple_ir.specs.declared.declarations.Global.{Global};

    ghost Value = { List Global };

    ghost view = { λ t. t.globals.now };

    ghost invariant = { λ t. t.names ≡ map (λ g. g.decl.name) t.globals.now };
}

fn names_of<'a>(alloc: Heap, globals: &'a [Global]) -> Result<Names<'a>, OutOfMemory>
    ensures { IfOk result (λ names. names ≡ map (λ g. g.decl.name) globals.now) }
{
    let mut names = Names::new(alloc);
    for global in globals {
        names.push(global.decl.name.as_slice())?;
    }
    Ok(names)
}

impl<'a> NamedGlobals<'a> {
    /// A table of these globals. Err is want of memory.
    pub fn new(alloc: Heap, globals: &'a [Global]) -> Result<NamedGlobals<'a>, OutOfMemory>
        ensures { IfOk result (λ t. t ≡ globals.now) }
    {
        let names = names_of(alloc, globals)?;
        Ok(NamedGlobals { globals, names })
    }

    /// The global at a place; None exactly where there is none.
    pub fn get(&self, place: usize) -> Option<&Global>
        ensures { option_copied result ≡ slice_get self.now place }
    {
        self.globals.get(place)
    }

    /// The place of the first global of a name; None exactly where no global has it.
    pub fn place(&self, name: &Text) -> Option<usize>
        ensures { result ≡ position (λ g. bytes_eq g.decl.name name.now) self.now }
    {
        self.names.place(name.as_slice())
    }

    /// The first global of a name; None exactly where no global has it.
    pub fn named(&self, name: &Text) -> Option<&Global>
        ensures { option_copied result ≡ find (λ g. bytes_eq g.decl.name name.now) self.now }
    {
        match self.place(name) {
            Some(place) => self.get(place),
            None => None,
        }
    }

    /// Whether a global has the name.
    pub fn has(&self, name: &Text) -> bool
        ensures { result ≡ list_any (λ g. bytes_eq g.decl.name name.now) self.now }
    {
        self.place(name).is_some()
    }
}
