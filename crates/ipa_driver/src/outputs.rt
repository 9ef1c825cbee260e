//! The texts that a run stores, and the stores.

ghost use Rattle.std.specs.Prelude.{◌≡◌, ◌++◌, IfOk, OnOk, MatchResult};
ghost use Rattle.gimple_ir.specs.Spellable.{IsSpellable};
ghost use Rattle.gimple_ir.specs.Counts.{IsCountable};
ghost use Rattle.cp_lattices.specs.Few.{HasFewArguments};
ghost use Rattle.ipa_driver.specs.Stores.{asked_of, asked_output, asked_outputs, output_rows, AreOutputs, AreStored, IsStoreFault, StoresOnly, StaysSure};

use crate::passes::{Asked, Product, pipeline};
use fix_engine::OrderSolver;
use gimple_core::{Checked, OutOfMemory, Text};
use gimple_text::print;
use shelf::{Shelf, Stored};
use std::alloc::Global;
use words::{Name, Options, name_bytes};

/// A text that is to be stored.
#[derive(Debug, Drop)]
pub struct Output {
    pub name: Name,
    pub text: Text,
}

/// A text, and where it goes if it was asked for.
#[derive(Debug, Drop)]
pub struct Row {
    pub name: Option<Name>,
    pub text: Text,
}

/// Which texts the words ask for.
fn asked_of(options: &Options) -> Asked
    ensures { result ≡ asked_of options.now }
{
    Asked {
        cgraph: options.cgraph.is_some(),
        icf: options.icf.is_some(),
        cp: options.cp.is_some(),
        sra: options.sra.is_some(),
        modref: options.modref.is_some(),
        summary: options.summary.is_some(),
    }
}

/// All texts of a run that were asked for, in the order in which they are stored.
pub fn outputs_of(
    alloc: Global,
    program: Checked,
    options: &Options,
) -> Result<Vec<Output>, OutOfMemory>
    requires spellable { IsSpellable program.program }
    requires countable { IsCountable program.program }
    requires few { HasFewArguments program.program }
    requires mode { program.mode ≡ options.now.mode }
    ensures { IfOk result (λ outputs. AreOutputs options.now program.program outputs.items) }
{
    let asked = asked_of(options);
    let mut solver = OrderSolver;
    let product = pipeline(
        alloc,
        program,
        &asked,
        &options.passes,
        &options.params,
        &mut solver,
    )?;
    let text = print(alloc, product.program.program())?;
    let rows = rows_of(alloc, options, product, text)?;
    let outputs = asked_outputs(alloc, rows)?;
    Ok(outputs)
}

/// All texts with the names that the words give them, the output's text last.
#[tactic(auto, unfolding(crate::specs::Stores::output_rows))]
fn rows_of(
    alloc: Global,
    options: &Options,
    product: Product,
    text: Text,
) -> Result<Vec<Row>, OutOfMemory>
    ensures { IfOk result (λ rows. rows.items ≡ output_rows options.now product text) }
{
    let Product {
        cgraph,
        icf,
        cp,
        sra,
        modref,
        summary,
        ..
    } = product;
    Ok(Vec::from_array(
        alloc,
        [
            Row {
                name: options.cgraph,
                text: cgraph,
            },
            Row {
                name: options.icf,
                text: icf,
            },
            Row {
                name: options.cp,
                text: cp,
            },
            Row {
                name: options.sra,
                text: sra,
            },
            Row {
                name: options.modref,
                text: modref,
            },
            Row {
                name: options.summary,
                text: summary,
            },
            Row {
                name: Some(options.output),
                text,
            },
        ],
    )?)
}

/// The texts that were given a name.
#[tactic(auto, unfolding(crate::specs::Stores::asked_outputs))]
fn asked_outputs(alloc: Global, rows: Vec<Row>) -> Result<Vec<Output>, OutOfMemory>
    ensures { IfOk result (λ outputs. outputs.items ≡ asked_outputs rows.items) }
{
    let mut outputs = Vec::new(alloc);
    for row in rows {
        ask(&mut outputs, row)?;
    }
    Ok(outputs)
}

/// Adds a text that was asked for.
fn ask(outputs: &mut Vec<Output>, row: Row) -> Result<(), OutOfMemory>
    ensures { OnOk result (outputs.new.items ≡ outputs.old.items ++ asked_output row.name row.text) }
{
    let Row { name, text } = row;
    if let Some(name) = name {
        outputs.push(Output { name, text })?;
    }
    Ok(())
}

/// Stores the texts in order, up to the first that fails; an `Err` has its name.
pub fn store_all<S: Shelf>(words: &[Text], outputs: &[Output], shelf: &mut S) -> Result<(), Name>
    ensures only { StoresOnly (S.meaning shelf.old) (S.meaning shelf.new) }
    ensures answer { MatchResult result
        (λ _. AreStored words.now outputs.now (S.meaning shelf.old) (S.meaning shelf.new))
        (IsStoreFault words.now outputs.now (S.meaning shelf.old) (S.meaning shelf.new)) }
    ensures sure { StaysSure words.now outputs.now (S.meaning shelf.old) (S.meaning shelf.new) result }
{
    match outputs {
        [] => Ok(()),
        [first, rest @ ..] => {
            match shelf.store(name_bytes(words, &first.name), first.text.as_slice()) {
                Stored::Done => store_all(words, rest, shelf),
                Stored::Failed => Err(first.name),
            }
        }
    }
}
