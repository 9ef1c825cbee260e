//! All passes over a program, one after another. Functions that `main` does not reach are dropped before and behind them.

ghost use Rattle.std.specs.Prelude.{◌≡◌, IfOk};
ghost use Rattle.gimple_ir.specs.Counts.{IsCountable};
ghost use Rattle.gimple_ir.specs.Spellable.{IsSpellable};
ghost use Rattle.cp_lattices.specs.Few.{HasFewArguments};
ghost use Rattle.ipa_driver.specs.Pipeline.{AreLegs, IsMade};
ghost use Rattle.ipa_driver.specs.Summary.{all_counts};

use crate::graph::graph_text;
use crate::icf::icf_leg;
use crate::legs::{Leg, idle};
use crate::propagation::cp_leg;
use crate::summary::{Counts, all_counts, asked_summary, measure_of};
use crate::tables::Tables;
use call_graph::drop_unreached;
use gimple_core::{Checked, OutOfMemory, Params, Passes, Text};
use std::alloc::Global;

/// Which texts are asked for beside the program: five dumps and the summary.
#[derive(Clone, Copy, Debug, PartialEq, Eq)]
pub struct Asked {
    pub cgraph: bool,
    pub icf: bool,
    pub cp: bool,
    pub sra: bool,
    pub modref: bool,
    pub summary: bool,
}

/// What the passes give: the program, the dump of each pass, and the summary. A text that is not asked for is empty.
#[derive(Debug, Drop)]
pub struct Product {
    pub program: Checked,
    pub cgraph: Text,
    pub icf: Text,
    pub cp: Text,
    pub sra: Text,
    pub modref: Text,
    pub summary: Text,
}

/// What the passes between the two drops give: the last program, the dump of each, and what they counted.
#[derive(Debug, Drop)]
pub struct Legs {
    pub program: Checked,
    pub icf: Text,
    pub cp: Text,
    pub sra: Text,
    pub modref: Text,
    pub counts: Counts,
}

/// Runs the passes that are on, in their order, and makes the texts that are asked for. Err is want of memory.
pub fn pipeline<S: Tables>(
    alloc: Global,
    program: Checked,
    asked: &Asked,
    passes: &Passes,
    params: &Params,
    solver: &mut S,
) -> Result<Product, OutOfMemory>
    requires countable { IsCountable program.program }
    requires few { HasFewArguments program.program }
    ensures made { IfOk result (λ product. IsMade program asked.now passes.now params.now product) }
    ensures spellable { IfOk result (λ product. IsSpellable program.program → IsSpellable product.program.program) }
{
    let source = measure_of(program.program());
    let reached = drop_unreached(alloc, program)?;
    let cgraph = graph_text(alloc, &reached, asked.cgraph)?;
    let legs = legs_of(alloc, reached, asked, passes, params, solver)?;
    let program = drop_unreached(alloc, legs.program)?;
    let output = measure_of(program.program());
    let summary = asked_summary(alloc, asked.summary, &source, &output, &legs.counts)?;
    Ok(Product {
        program,
        cgraph,
        icf: legs.icf,
        cp: legs.cp,
        sra: legs.sra,
        modref: legs.modref,
        summary,
    })
}

/// The passes between the two drops, each over the program of the one before.
fn legs_of<S: Tables>(
    alloc: Global,
    program: Checked,
    asked: &Asked,
    passes: &Passes,
    params: &Params,
    solver: &mut S,
) -> Result<Legs, OutOfMemory>
    requires countable { IsCountable program.program }
    requires few { HasFewArguments program.program }
    ensures { IfOk result (λ legs. AreLegs program asked.now passes.now params.now legs) }
{
    let icf = icf_leg(alloc, passes.icf, program, asked.icf)?;
    let cp = cp_leg(alloc, icf.program, asked.cp, passes, params, solver)?;
    let sra = idle(alloc, "sra", cp.program, asked.sra)?;
    let modref = idle(alloc, "modref", sra.program, asked.modref)?;
    let counts = all_counts(&icf.counts, &cp.counts, &sra.counts, &modref.counts);
    Ok(Legs {
        program: modref.program,
        icf: icf.text,
        cp: cp.text,
        sra: sra.text,
        modref: modref.text,
        counts,
    })
}
