//! Functions in a row, each found by its name.

ghost use Rattle.std.specs.Prelude.{◌≡◌, IfOk, find, length, map, position};
ghost use Rattle.std.specs.Option.{option_copied};
ghost use Rattle.std.specs.Str.{bytes_eq};

use crate::names::Names;
use gimple_core::{Function, OutOfMemory, Text};
use std::alloc::Global as Heap;
use std::marker::Model;

/// Functions in a row, each found by its name. While no name stands in a long row twice, it is searched by hashing.
#[derive(Drop)]
pub struct NamedFunctions<'a> {
    functions: &'a [Function],
    names: Names<'a>,
}

impl<'a> Model for NamedFunctions<'a> {
    ghost use Rattle.std.specs.Prelude.{◌≡◌, List, map};
    ghost use Rattle.gimple_ir.specs.declared.program.Function.{Function};

    ghost Value = { List Function };

    ghost view = { λ t. t.functions.now };

    ghost invariant = { λ t. t.names ≡ map (λ f. f.name) t.functions.now };
}

fn names_of<'a>(alloc: Heap, functions: &'a [Function]) -> Result<Names<'a>, OutOfMemory>
    ensures { IfOk result (λ names. names ≡ map (λ f. f.name) functions.now) }
{
    let mut names = Names::new(alloc);
    for function in functions {
        names.push(function.name.as_slice())?;
    }
    Ok(names)
}

impl<'a> NamedFunctions<'a> {
    /// A table of these functions. Err is want of memory.
    pub fn new(alloc: Heap, functions: &'a [Function]) -> Result<NamedFunctions<'a>, OutOfMemory>
        ensures { IfOk result (λ t. t ≡ functions.now) }
    {
        let names = names_of(alloc, functions)?;
        Ok(NamedFunctions { functions, names })
    }

    /// How many functions there are.
    pub fn len(&self) -> usize
        ensures { result ≡ length self.now }
    {
        self.functions.len()
    }

    /// The place of the first function of a name; None exactly where no function has it.
    pub fn place(&self, name: &Text) -> Option<usize>
        ensures { result ≡ position (λ f. bytes_eq f.name name.now) self.now }
    {
        self.place_of(name.as_slice())
    }

    /// The place of the first function of a name that is given by its bytes; None exactly where no function has it.
    pub fn place_of(&self, name: &[u8]) -> Option<usize>
        ensures { result ≡ position (λ f. bytes_eq f.name name.now) self.now }
    {
        self.names.place(name)
    }

    /// The first function of a name; None exactly where no function has it.
    pub fn named(&self, name: &Text) -> Option<&'a Function>
        ensures { option_copied result ≡ find (λ f. bytes_eq f.name name.now) self.now }
    {
        match self.place(name) {
            Some(place) => self.functions.get(place),
            None => None,
        }
    }
}
