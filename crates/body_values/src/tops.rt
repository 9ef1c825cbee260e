//! What is given of a function of which nothing is known.

ghost use Rattle.std.specs.Prelude.{◌≡◌, ℕ, ℤ, List, map, IfOk};
ghost use Rattle.value_domain.specs.Thresholds.{IsLawful};
ghost use Rattle.body_values.specs.System.{FactsFit};
ghost use Rattle.body_values.specs.TopFacts.{top_value, top_facts};

use crate::facts::{AbsVals, Facts, LoadFacts};
use gimple_core::{Function, OutOfMemory, Register};
use std::alloc::Global;
use value_domain::top;

/// The values of registers of which nothing is known.
fn top_values(alloc: Global, registers: &[Register]) -> Result<AbsVals, OutOfMemory>
    ensures { IfOk result (λ vs. vs ≡ map top_value registers.now) }
{
    let mut values = AbsVals::new(alloc);
    for register in registers {
        values.push(top(register.scalar))?;
    }
    Ok(values)
}

/// The facts of a function of which nothing is known: each formal can have any value of its scalar, and nothing is given of
/// loads. They fit for any limit of constants and any thresholds.
///
/// Err is want of memory.
pub fn top_facts(alloc: Global, function: &Function) -> Result<Facts, OutOfMemory>
    ensures are { IfOk result (λ facts. facts ≡ top_facts function.now) }
    ensures fit { IfOk result (λ facts. (most : ℕ) (ends : List ℤ) → IsLawful ends → FactsFit function.now facts most ends) }
{
    let formals = top_values(alloc, function.params.as_slice())?;
    Ok(Facts {
        formals,
        loads: LoadFacts::new(alloc),
    })
}
