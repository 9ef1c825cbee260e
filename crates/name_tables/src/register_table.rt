//! Registers in a row, each found by its name.

ghost use Rattle.std.specs.Prelude.{◌≡◌, ◌++◌, ◌∷◌, [], OnOk, find};
ghost use Rattle.std.specs.List.{position_or_len};
ghost use Rattle.std.specs.Option.{option_copied};
ghost use Rattle.std.specs.Str.{bytes_eq};

use gimple_core::{OutOfMemory, Register, Registers, Text, same_name};
use indexmap::IndexSet;
use std::alloc::Global as Heap;
use std::marker::Model;

/// How many registers are searched one by one.
const FEW: usize = 8;

/// Registers in a row. While no name stands in it twice, a long row is searched by hashing.
#[derive(Drop)]
pub struct RegisterTable {
    registers: Registers,
    names: IndexSet<Vec<u8>>,
    distinct: bool,
}

impl Model for RegisterTable {
    ghost use Rattle.std.specs.Prelude.{◌≡◌, List, map, IsTrue};
    ghost use Rattle.gimple_ir.specs.declared.declarations.Register.{Register};

    ghost Value = { List Register };

    ghost view = { λ t. t.registers };

    ghost invariant = { λ t. IsTrue t.distinct → map (λ k. k.items) t.names.keys ≡ map (λ r. r.name) t.registers };
}

/// The number of the first register of a name, or how many there are.
fn place_from_front(registers: &[Register], name: &Text) -> usize
    ensures { result ≡ position_or_len (λ r. bytes_eq r.name name.now) registers.now }
{
    for place in 0..registers.len() {
        if same_name(&registers[place].name, name) {
            return place;
        }
    }
    registers.len()
}

impl RegisterTable {
    /// A row of no registers. It takes no memory before the first one.
    pub fn new(alloc: Heap) -> RegisterTable
        ensures { result ≡ [] }
    {
        RegisterTable {
            registers: Registers::new(alloc),
            names: IndexSet::new(alloc),
            distinct: true,
        }
    }

    /// Puts a register behind the last one.
    pub fn push(&mut self, register: Register) -> Result<(), OutOfMemory>
        ensures { OnOk result (self.new ≡ self.old ++ register ∷ []) }
    {
        let name = Vec::from_slice(self.registers.allocator(), register.name.as_slice())?;
        let distinct = self.distinct;
        self.distinct = false;
        self.registers.push(register)?;
        let added = self.names.insert(name)?;
        if distinct && added {
            self.distinct = true;
        }
        Ok(())
    }

    /// The registers in their order.
    pub fn as_slice(&self) -> &[Register]
        ensures { result.now ≡ self.now }
    {
        self.registers.as_slice()
    }

    /// The number of the first register of a name, or how many there are.
    pub fn place(&self, name: &Text) -> usize
        ensures { result ≡ position_or_len (λ r. bytes_eq r.name name.now) self.now }
    {
        if self.distinct && self.registers.len() > FEW {
            let found = self.names.get_index_of(name.as_slice());
            return found.unwrap_or(self.registers.len());
        }
        place_from_front(self.registers.as_slice(), name)
    }

    /// The first register of a name; None exactly where no register has it.
    pub fn named(&self, name: &Text) -> Option<&Register>
        ensures { option_copied result ≡ find (λ r. bytes_eq r.name name.now) self.now }
    {
        self.registers.get(self.place(name))
    }
}
