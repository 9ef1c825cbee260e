//! The functions that functions call by name, by their numbers.

ghost use Rattle.std.specs.Prelude.{◌≡◌, ◌≤◌, ◌<◌, ◌^◌, ◌++◌, List, ℕ, map, length, OnOk, IfOk};
ghost use Rattle.icf_classes.specs.Placed.{number_of, with_callee, callees_in_body, callees_in_blocks, callees_of};

use gimple_core::{Block, Function, OutOfMemory, Program, Stmt, Text};
use name_tables::NamedFunctions;
use std::alloc::Global as Heap;
use std::marker::Model;

/// A program with a table of its functions, in which each is found by its name.
#[derive(Drop)]
pub(crate) struct Numbered<'a> {
    program: &'a Program,
    named: NamedFunctions<'a>,
}

impl<'a> Model for Numbered<'a> {
    ghost use Rattle.std.specs.Prelude.{◌≡◌};
    ghost use Rattle.gimple_ir.specs.declared.program.Program.{Program};

    ghost Value = { Program };

    ghost view = { λ n. n.program.now };

    ghost invariant = { λ n. n.named ≡ n.program.now.functions };
}

impl<'a> Numbered<'a> {
    /// Err is want of memory.
    pub(crate) fn new(alloc: Heap, program: &'a Program) -> Result<Numbered<'a>, OutOfMemory>
        ensures { IfOk result (λ n. n ≡ program.now) }
    {
        let named = NamedFunctions::new(alloc, program.functions.as_slice())?;
        Ok(Numbered { program, named })
    }

    /// The number of the first function of a name that is given by its bytes, or how many functions there are.
    #[tactic(auto, unfolding(crate::specs::Placed::number_of))]
    pub(crate) fn number(&self, name: &[u8]) -> usize
        ensures number { result ≡ number_of self.now name.now }
        ensures within { result ≤ length self.now.functions }
    {
        match self.named.place_of(name) {
            Some(number) => number,
            None => self.named.len(),
        }
    }

    /// The number of a function among fewer than 2^32.
    fn callee(&self, name: &Text) -> u32
        requires { length self.now.functions < 2 ^ 32 }
        ensures { result ≡ number_of self.now name.now }
    {
        self.number(name.as_slice()) as u32
    }

    fn push_call(&self, statement: &Stmt, row: &mut Vec<u32>) -> Result<(), OutOfMemory>
        requires { length self.now.functions < 2 ^ 32 }
        ensures { OnOk result ((rest : List ℕ) → row.new.items ++ rest ≡ row.old.items ++ with_callee self.now statement.now rest) }
    {
        match statement {
            Stmt::Call { callee, .. } => {
                row.push(self.callee(callee))?;
                Ok(())
            }
            _ => Ok(()),
        }
    }

    fn push_body(&self, body: &[Stmt], row: &mut Vec<u32>) -> Result<(), OutOfMemory>
        requires { length self.now.functions < 2 ^ 32 }
        ensures { OnOk result ((rest : List ℕ) → row.new.items ++ rest ≡ row.old.items ++ callees_in_body self.now body.now rest) }
    {
        for statement in body {
            self.push_call(statement, row)?;
        }
        Ok(())
    }

    fn callees_in(&self, alloc: Heap, blocks: &[Block]) -> Result<Vec<u32>, OutOfMemory>
        requires { length self.now.functions < 2 ^ 32 }
        ensures { IfOk result (λ row. row.items ≡ callees_in_blocks self.now blocks.now) }
    {
        let mut row = Vec::new(alloc);
        for block in blocks {
            self.push_body(block.body.as_slice(), &mut row)?;
        }
        Ok(row)
    }

    /// What a function calls by name, in the order of the calls.
    #[tactic(auto, unfolding(crate::specs::Placed::callees_of))]
    fn callees(&self, alloc: Heap, function: &Function) -> Result<Vec<u32>, OutOfMemory>
        requires { length self.now.functions < 2 ^ 32 }
        ensures { IfOk result (λ row. row.items ≡ callees_of self.now function.now) }
    {
        self.callees_in(alloc, function.blocks.as_slice())
    }

    /// What each function of the program calls by name. Err is want of memory.
    pub(crate) fn rows(&self, alloc: Heap) -> Result<Vec<Vec<u32>>, OutOfMemory>
        requires { length self.now.functions < 2 ^ 32 }
        ensures { IfOk result (λ rows. map (λ row. row.items) rows.items ≡ map (callees_of self.now) self.now.functions) }
    {
        let mut rows = Vec::new(alloc);
        for function in self.program.functions.as_slice() {
            rows.push(self.callees(alloc, function)?)?;
        }
        Ok(rows)
    }
}
