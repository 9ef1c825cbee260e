//! Tables from names, and sets of labels.

ghost use Rattle.std.specs.Prelude.{◌≡◌, [], ◌∷◌, ◌++◌, not, IfOk, OnErr, OnOk, ◌==◌};
ghost use Rattle.std.specs.List.{list_any};
ghost use Rattle.std.specs.Option.{option_copied};
ghost use Rattle.gimple_core.specs.Env.{named, has, declared};
ghost use Rattle.gimple_core.specs.Declarations.{new_label};
ghost use Rattle.gimple_core.specs.Statements.{new_case};
ghost use Rattle.gimple_types.specs.Tables.{noted};
ghost use Rattle.gimple_types.specs.Verdicts.{Becomes};

use crate::refusal::{Fail, demand};
use gimple_core::{OutOfMemory, Scalar, fits};
use indexmap::{IndexMap, IndexSet};
use std::alloc::Global as Heap;
use std::marker::Model;

/// Items of a program under their names, in file order. The first item of a name counts.
#[derive(Drop)]
pub(crate) struct Table<'a, T> {
    map: IndexMap<&'a [u8], &'a T>,
}

impl<'a, T> Model for Table<'a, T> {
    ghost use Rattle.gimple_core.specs.Env.{Names};
    ghost use Rattle.gimple_types.specs.Tables.{plain};

    ghost Value = { Names T };

    ghost view = { λ t. plain t.map.entries };
}

impl<'a, T> Table<'a, T> {
    /// The table without items.
    pub(crate) fn new(alloc: Heap) -> Table<'a, T>
        ensures { result ≡ [] }
    {
        Table {
            map: IndexMap::new(alloc),
        }
    }

    /// The first item of this name.
    pub(crate) fn find(&self, name: &'a [u8]) -> Option<&'a T>
        ensures { option_copied result ≡ named name.now self.now }
    {
        self.map.get(&name).copied()
    }

    /// Whether an item has this name.
    pub(crate) fn has(&self, name: &'a [u8]) -> bool
        ensures { result ≡ has name.now self.now }
    {
        self.find(name).is_some()
    }

    /// Adds an item, and says whether its name is new. An item of a name that is there is left out.
    pub(crate) fn note(&mut self, name: &'a [u8], item: &'a T) -> Result<bool, OutOfMemory>
        ensures new { IfOk result (λ b. b ≡ not (has name.now self.old)) }
        ensures ok { OnOk result (self.new ≡ noted self.old name.now item.now) }
        ensures err { OnErr result (self.new ≡ self.old) }
    {
        if self.map.contains_key(&name) {
            return Ok(false);
        }
        self.map.insert(name, item)?;
        Ok(true)
    }

    /// Adds an item whose name is to be new, else the code 2.
    #[tactic(auto, using(crate::proofs::TableLemmas::note_declares, crate::proofs::TableLemmas::note_refuses))]
    pub(crate) fn declare(&mut self, name: &'a [u8], item: &'a T) -> Result<(), Fail>
        ensures { Becomes (declared self.old name.now item.now) result self.new }
    {
        if !self.note(name, item)? {
            return Err(Fail::Code(2));
        }
        Ok(())
    }
}

/// Labels of blocks.
#[derive(Drop)]
pub(crate) struct Labels {
    set: IndexSet<u64>,
}

impl Model for Labels {
    ghost use Rattle.std.specs.Prelude.{List, ℕ};

    ghost Value = { List ℕ };

    ghost view = { λ t. t.set.keys };
}

impl Labels {
    /// The set without labels.
    pub(crate) fn new(alloc: Heap) -> Labels
        ensures { result ≡ [] }
    {
        Labels {
            set: IndexSet::new(alloc),
        }
    }

    /// Whether a label is there.
    pub(crate) fn has(&self, label: u64) -> bool
        ensures { result ≡ list_any (λ l. label == l) self.now }
    {
        self.set.contains(&label)
    }

    /// Adds a label that is to be new, else the code 9.
    #[tactic(auto, unfolding(gimple_core::specs::Declarations::new_label))]
    pub(crate) fn declare(&mut self, label: u64) -> Result<(), Fail>
        ensures { Becomes (new_label self.old label) result self.new }
    {
        demand(!self.has(label), 9)?;
        match self.set.insert(label) {
            Ok(_) => Ok(()),
            Err(failed) => Err(Fail::Memory(OutOfMemory::from(failed))),
        }
    }
}

/// The values of a switch's cases.
#[derive(Drop)]
pub(crate) struct CaseValues {
    set: IndexSet<i128>,
}

impl Model for CaseValues {
    ghost use Rattle.std.specs.Prelude.{List, ℤ};

    ghost Value = { List ℤ };

    ghost view = { λ t. t.set.keys };
}

impl CaseValues {
    /// No values.
    pub(crate) fn new(alloc: Heap) -> CaseValues
        ensures { result ≡ [] }
    {
        CaseValues {
            set: IndexSet::new(alloc),
        }
    }

    /// Adds a value that is to be of the scalar and new, else the code 13 or 17.
    #[tactic(auto, unfolding(gimple_core::specs::Statements::new_case))]
    pub(crate) fn declare(&mut self, scalar: Scalar, value: i128) -> Result<(), Fail>
        ensures { Becomes (new_case scalar self.old value) result self.new }
    {
        demand(fits(scalar, value), 13)?;
        demand(!self.set.contains(&value), 17)?;
        match self.set.insert(value) {
            Ok(_) => Ok(()),
            Err(failed) => Err(Fail::Memory(OutOfMemory::from(failed))),
        }
    }
}
