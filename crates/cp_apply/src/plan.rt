//! Plans of instances.

ghost use Rattle.std.specs.Prelude.{◌≡◌, ◌++◌, take, IfOk};
ghost use Rattle.cp_apply.specs.Bases.{context_facts};

use body_values::{AbsVals, Facts, LoadFacts};
use fix_engine::Lattice;
use gimple_core::{Listed, OutOfMemory};
use std::alloc::Global;
use value_domain::AbsVal;

/// What is known where an instance of a function begins: a value of each formal.
#[derive(Debug, Drop)]
pub struct Context {
    pub formals: AbsVals,
}

/// Contexts in order.
pub type Contexts = Listed<Context>;

/// What is to be made of a program: for each function in file order, what is known of it in each call.
#[derive(Debug, Drop)]
pub struct Plan {
    pub bases: Contexts,
}

fn copied(alloc: Global, values: &[AbsVal]) -> Result<AbsVals, OutOfMemory>
    ensures { IfOk result (λ copy. copy ≡ values.now) }
{
    let mut copy = AbsVals::new(alloc);
    for value in values {
        copy.push(value.copy()?)?;
    }
    Ok(copy)
}

impl Context {
    /// The facts of an instance in this context: nothing is given of its loads. Err is want of memory.
    pub(crate) fn facts(&self, alloc: Global) -> Result<Facts, OutOfMemory>
        ensures { IfOk result (λ facts. facts ≡ context_facts self.now) }
    {
        let formals = copied(alloc, self.formals.as_slice())?;
        Ok(Facts {
            formals,
            loads: LoadFacts::new(alloc),
        })
    }
}
