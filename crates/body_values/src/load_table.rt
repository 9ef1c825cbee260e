//! What is given of the loads of a function, in a table.

ghost use Rattle.std.specs.Prelude.{◌≡◌, ◌∷◌, [], List, IfOk, OnOk};
ghost use Rattle.std.specs.Option.{option_copied};
ghost use Rattle.body_values.specs.declared.facts.LoadFact.{LoadFact};
ghost use Rattle.body_values.specs.Flow.{given_load};
ghost use Rattle.body_values.specs.GivenLoads.{HasFirst};

use crate::facts::LoadFact;
use gimple_core::OutOfMemory;
use indexmap::IndexMap;
use std::alloc::Global;
use std::marker::Model;
use value_domain::AbsVal;

/// What is given of the loads of a function. The first fact of a point is found by the numbers of the point's block and
/// index.
#[derive(Drop)]
pub struct LoadTable<'a> {
    facts: &'a [LoadFact],
    function: u32,
    values: IndexMap<(u32, u32), &'a AbsVal>,
}

impl<'a> Model for LoadTable<'a> {
    ghost use Rattle.body_values.specs.GivenLoads.{GivenLoads, HasFirst};

    ghost Value = { GivenLoads };

    ghost view = { λ t. record { facts = t.facts.now; function = t.function } };

    ghost invariant = { λ t. HasFirst t.values.entries t.facts.now t.function };
}

/// Puts a fact before those that the table has, where it is one of this function.
fn put<'a>(
    values: &mut IndexMap<(u32, u32), &'a AbsVal>,
    function: u32,
    fact: &'a LoadFact,
) -> Result<(), OutOfMemory>
    ensures { OnOk result ((facts : List LoadFact) → HasFirst values.old.entries facts function → HasFirst values.new.entries (fact.now ∷ facts) function) }
{
    if fact.point.function == function {
        values.insert((fact.point.block, fact.point.index), &fact.value)?;
    }
    Ok(())
}

/// The value of the first fact of each point, made from the last fact on.
fn first_values<'a>(
    alloc: Global,
    facts: &'a [LoadFact],
    function: u32,
) -> Result<IndexMap<(u32, u32), &'a AbsVal>, OutOfMemory>
    ensures { IfOk result (λ values. HasFirst values.entries facts.now function) }
{
    let mut values = IndexMap::new(alloc);
    let mut at = facts.len();
    while at > 0 {
        at -= 1;
        put(&mut values, function, &facts[at])?;
    }
    Ok(values)
}

impl<'a> LoadTable<'a> {
    /// A table of facts, for the function of a number. Err is want of memory.
    pub fn new(
        alloc: Global,
        facts: &'a [LoadFact],
        function: u32,
    ) -> Result<LoadTable<'a>, OutOfMemory>
        ensures { IfOk result (λ t. t ≡ record { facts = facts.now; function = function }) }
    {
        let values = first_values(alloc, facts, function)?;
        Ok(LoadTable {
            facts,
            function,
            values,
        })
    }

    /// A table of no facts. It takes no memory.
    pub fn empty(alloc: Global, function: u32) -> LoadTable<'a>
        ensures { result ≡ record { facts = []; function = function } }
    {
        LoadTable {
            facts: &[],
            function,
            values: IndexMap::new(alloc),
        }
    }

    /// What is given of the load at an index of a block, by the first fact of that point; None exactly where there is none.
    pub(crate) fn at(&self, block: u32, index: u32) -> Option<&AbsVal>
        ensures { option_copied result ≡ given_load self.now.facts self.now.function block index }
    {
        self.values.get(&(block, index)).copied()
    }
}
