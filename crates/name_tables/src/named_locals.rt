//! Locals in a row, each found by its name.

ghost use Rattle.std.specs.Prelude.{◌≡◌, IfOk, map, position};
ghost use Rattle.std.specs.List.{list_any};
ghost use Rattle.std.specs.Str.{bytes_eq};

use crate::names::Names;
use gimple_core::{Decl, OutOfMemory, Text};
use std::alloc::Global as Heap;
use std::marker::Model;

/// Locals in a row, each found by its name. While no name stands in a long row twice, it is searched by hashing.
#[derive(Drop)]
pub struct NamedLocals<'a> {
    locals: &'a [Decl],
    names: Names<'a>,
}

impl<'a> Model for NamedLocals<'a> {
    ghost use Rattle.std.specs.Prelude.{◌≡◌, List, map};
    ghost use Rattle.gimple_ir.specs.declared.declarations.Decl.{Decl};

    ghost Value = { List Decl };

    ghost view = { λ t. t.locals.now };

    ghost invariant = { λ t. t.names ≡ map (λ d. d.name) t.locals.now };
}

fn names_of<'a>(alloc: Heap, locals: &'a [Decl]) -> Result<Names<'a>, OutOfMemory>
    ensures { IfOk result (λ names. names ≡ map (λ d. d.name) locals.now) }
{
    let mut names = Names::new(alloc);
    for local in locals {
        names.push(local.name.as_slice())?;
    }
    Ok(names)
}

impl<'a> NamedLocals<'a> {
    /// A table of these locals. Err is want of memory.
    pub fn new(alloc: Heap, locals: &'a [Decl]) -> Result<NamedLocals<'a>, OutOfMemory>
        ensures { IfOk result (λ t. t ≡ locals.now) }
    {
        let names = names_of(alloc, locals)?;
        Ok(NamedLocals { locals, names })
    }

    /// The place of the first local of a name; None exactly where no local has it.
    pub fn place(&self, name: &Text) -> Option<usize>
        ensures { result ≡ position (λ d. bytes_eq d.name name.now) self.now }
    {
        self.names.place(name.as_slice())
    }

    /// Whether a local has the name.
    pub fn has(&self, name: &Text) -> bool
        ensures { result ≡ list_any (λ d. bytes_eq d.name name.now) self.now }
    {
        self.place(name).is_some()
    }
}
