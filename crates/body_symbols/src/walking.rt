//! Going through the points of a block with one row of symbols.

ghost use Rattle.std.specs.Prelude.{◌≡◌, ◌+◌, IfOk};
ghost use Rattle.body_symbols.specs.Bodies.{place_of};
ghost use Rattle.body_symbols.specs.Found.{found_row, register_symbol, if_reached, symbol_in};

use crate::finding::behind;
use crate::symbol::Symbol;
use crate::symbols::{PointRow, Symbols, register_symbol};
use crate::transfer::address;
use crate::variables::Variables;
use fix_engine::{Lattice, Lifted};
use gimple_core::{Constant, Operand, OutOfMemory, Text};

fn if_reached(row: &PointRow, symbol: Symbol) -> Option<Symbol>
    ensures { result ≡ if_reached row.now symbol }
{
    match row {
        Lifted::NotReached => None,
        Lifted::Reached(_) => Some(symbol),
    }
}

impl Symbols {
    /// The symbols of all registers at the begin of a block, by its number. A block that the function does not have is not
    /// reached. With `pass` they go through the block, so that one row serves all its points. Err is want of memory.
    #[tactic(auto, using(crate::proofs::Changes::first_row))]
    pub fn begin(&self, block: u32) -> Result<PointRow, OutOfMemory>
        ensures { IfOk result (λ row. row ≡ found_row self.now block 0) }
    {
        match self.begins.get(block as usize) {
            None => Ok(Lifted::NotReached),
            Some(begin) => match self.changes.get(block as usize) {
                None => Ok(Lifted::NotReached),
                Some(_) => begin.copy(),
            },
        }
    }

    /// The symbols of all registers at the next index of a block, by those at an index of it. Behind the end of a block no
    /// index is reached.
    #[tactic(auto, using(crate::proofs::Changes::passed, crate::proofs::Changes::passed_end, crate::proofs::Changes::passed_none))]
    pub fn pass(&self, block: u32, index: u32, row: PointRow) -> PointRow
        requires { row ≡ found_row self.now block index }
        ensures { result ≡ found_row self.now block (index + 1) }
    {
        match self.changes.get(block as usize) {
            None => Lifted::NotReached,
            Some(changes) => match changes.get(index as usize) {
                None => Lifted::NotReached,
                Some(change) => behind(row, *change),
            },
        }
    }

    /// The symbol of a register in a row, by its name.
    fn named_in(&self, row: &PointRow, name: &Text) -> Option<Symbol>
        ensures { result ≡ register_symbol (place_of self.now.registers name.now) row.now }
    {
        let place = self.registers.place(name);
        register_symbol(row, place)
    }

    /// The symbol of an operand by a row, as `of` finds it at the row's point.
    #[tactic(auto, unfolding(crate::specs::Found::symbol_in))]
    pub fn in_row(&self, variables: &Variables, row: &PointRow, operand: &Operand) -> Option<Symbol>
        ensures { result ≡ symbol_in variables.now.globals.now variables.now.locals.now self.now.registers row.now operand.now }
    {
        match operand {
            Operand::Reg(name) => self.named_in(row, name),
            Operand::Number(value) => if_reached(row, Symbol::Const(Constant::Int(*value))),
            Operand::Null => if_reached(row, Symbol::Const(Constant::Null)),
            Operand::Address { variable, offset } => if_reached(
                row,
                address(variables.globals, variables.locals, variable, *offset),
            ),
        }
    }
}
