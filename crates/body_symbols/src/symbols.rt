//! The symbols of a function at each of its points.

ghost use Rattle.std.specs.Prelude.{◌≡◌, ◌==◌, ◌&&◌};
ghost use Rattle.std.specs.List.{list_any};
ghost use Rattle.body_symbols.specs.Bodies.{place_of};
ghost use Rattle.body_symbols.specs.Found.{row_after, found_row, register_symbol, if_reached, symbol_in, found_symbol, is_reached, symbol_after, symbol_through, is_end, reached_through};

use crate::change::Change;
use crate::symbol::Symbol;
use crate::transfer::address;
use crate::variables::Variables;
use fix_engine::{Lifted, Rows};
use gimple_core::{Constant, Listed, Operand, Point, Text};
use name_tables::RegisterTable;
use std::marker::Model;

/// The symbols of all registers of a function at a point, the formals first, or that the point is not reached.
pub type PointRow = Lifted<Rows<Symbol>>;

/// The symbols of a function at each of its points. They take the memory of one row a block and one symbol a statement; an
/// answer goes through the statements before its point.
#[derive(Drop)]
pub struct Symbols {
    pub(crate) function: u32,
    pub(crate) registers: RegisterTable,
    pub(crate) begins: Listed<PointRow>,
    pub(crate) changes: Listed<Listed<Change>>,
}

impl Model for Symbols {
    ghost use Rattle.body_symbols.specs.Found.{Found};

    ghost Value = { Found };

    ghost view = { λ t. record { function = t.function; registers = t.registers; begins = t.begins; changes = t.changes } };
}

/// The symbol of a register after a change, if there is one before it.
fn symbol_after(symbol: Option<Symbol>, change: Change, place: usize) -> Option<Symbol>
    ensures { result ≡ symbol_after place symbol change }
{
    let Some(old) = symbol else {
        return None;
    };
    match change {
        Change::Nothing => Some(old),
        Change::Sets {
            place: at,
            symbol: new,
        } => { if at == place { Some(new) } else { Some(old) } }
        Change::Ends => None,
    }
}

/// The symbol of a register in a row.
pub(crate) fn register_symbol(row: &PointRow, place: usize) -> Option<Symbol>
    ensures { result ≡ register_symbol place row.now }
{
    match row {
        Lifted::NotReached => None,
        Lifted::Reached(symbols) => symbols.as_slice().get(place).copied(),
    }
}

/// The symbol of a register after changes, by the row before them.
fn symbol_through(begin: &PointRow, changes: &[Change], place: usize) -> Option<Symbol>
    ensures { result ≡ symbol_through place (register_symbol place begin.now) changes.now }
{
    let mut symbol = register_symbol(begin, place);
    for change in changes {
        symbol = symbol_after(symbol, *change, place);
    }
    symbol
}

fn ends(change: &Change) -> bool
    ensures { result ≡ is_end change.now }
{
    matches!(change, Change::Ends)
}

fn some_end(changes: &[Change]) -> bool
    ensures { result ≡ list_any is_end changes.now }
{
    changes.iter().any(|change| ends(change))
}

/// The symbol of a register behind the first changes of a block, as many as the number says.
#[tactic(auto, using(crate::proofs::Changes::symbol_there, crate::proofs::Changes::symbol_past))]
fn symbol_at(begin: &PointRow, changes: &[Change], index: usize, place: usize) -> Option<Symbol>
    ensures { result ≡ register_symbol place (row_after begin.now changes.now index) }
{
    if changes.len() < index {
        return None;
    }
    symbol_through(begin, &changes[..index], place)
}

/// Whether a point is reached after changes, by the row before them.
fn reached_through(begin: &PointRow, changes: &[Change]) -> bool
    ensures { result ≡ reached_through begin.now changes.now }
{
    match begin {
        Lifted::NotReached => false,
        Lifted::Reached(_) => !some_end(changes),
    }
}

/// Whether a point is reached behind the first changes of a block, as many as the number says.
#[tactic(auto, using(crate::proofs::Changes::reached_there, crate::proofs::Changes::reached_past))]
fn reached_at(begin: &PointRow, changes: &[Change], index: usize) -> bool
    ensures { result ≡ is_reached (row_after begin.now changes.now index) }
{
    if changes.len() < index {
        return false;
    }
    reached_through(begin, &changes[..index])
}

impl Symbols {
    /// The symbol of a register at a point, by the numbers of its block, its index there and the register.
    fn register(&self, block: usize, index: usize, place: usize) -> Option<Symbol>
        ensures { result ≡ register_symbol place (found_row self.now block index) }
    {
        match self.begins.get(block) {
            None => None,
            Some(begin) => match self.changes.get(block) {
                None => None,
                Some(changes) => symbol_at(begin, changes.as_slice(), index, place),
            },
        }
    }

    fn reaches(&self, block: usize, index: usize) -> bool
        ensures { result ≡ is_reached (found_row self.now block index) }
    {
        match self.begins.get(block) {
            None => false,
            Some(begin) => match self.changes.get(block) {
                None => false,
                Some(changes) => reached_at(begin, changes.as_slice(), index),
            },
        }
    }

    fn if_reached(&self, point: Point, symbol: Symbol) -> Option<Symbol>
        ensures { result ≡ if_reached (found_row self.now point.block point.index) symbol }
    {
        if self.reaches(point.block as usize, point.index as usize) {
            Some(symbol)
        } else {
            None
        }
    }

    /// The symbol of a register at a point, by its name.
    fn named(&self, point: Point, name: &Text) -> Option<Symbol>
        ensures { result ≡ register_symbol (place_of self.now.registers name.now) (found_row self.now point.block point.index) }
    {
        let place = self.registers.place(name);
        self.register(point.block as usize, point.index as usize, place)
    }

    /// The symbol of an operand at a point of the function. None exactly where the point is not reached, or a register name
    /// is none of the function; a point that the function does not have is not reached. An address is that of a local or else
    /// of a global of the name; a name that is neither counts as that of a function.
    #[tactic(auto, unfolding(crate::specs::Found::symbol_in))]
    pub fn of(&self, variables: &Variables, point: Point, operand: &Operand) -> Option<Symbol>
        ensures { result ≡ found_symbol variables.now.globals.now variables.now.locals.now self.now point operand.now }
    {
        if point.function != self.function {
            return None;
        }
        match operand {
            Operand::Reg(name) => self.named(point, name),
            Operand::Number(value) => self.if_reached(point, Symbol::Const(Constant::Int(*value))),
            Operand::Null => self.if_reached(point, Symbol::Const(Constant::Null)),
            Operand::Address { variable, offset } => self.if_reached(
                point,
                address(variables.globals, variables.locals, variable, *offset),
            ),
        }
    }

    /// Whether a point of the function is reached.
    pub fn reached(&self, point: Point) -> bool
        ensures { result ≡ ((point.function == self.now.function) && is_reached (found_row self.now point.block point.index)) }
    {
        point.function == self.function && self.reaches(point.block as usize, point.index as usize)
    }

    /// The number of the function.
    pub fn function(&self) -> u32
        ensures { result ≡ self.now.function }
    {
        self.function
    }

    /// The registers of the function, the formals first.
    pub fn registers(&self) -> &RegisterTable
        ensures { result.now ≡ self.now.registers }
    {
        &self.registers
    }
}
