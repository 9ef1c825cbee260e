//! The blocks to which the ends of blocks lead, from the first one on.

ghost use Rattle.std.specs.Prelude.{◌≡◌, ◌<◌, ◌^◌, length, IfOk};
ghost use Rattle.graph_walk.specs.Graph.{AreMarks};
ghost use Rattle.graph_walk.specs.Walk.{listed};
ghost use Rattle.body_fold.specs.Links.{places_of, targets_of, all_targets, out_of};

use block_flow::{LabelledBlocks, labels_of};
use gimple_core::{Block, End, OutOfMemory};
use graph_walk::reached_in;
use std::alloc::Global;

/// The blocks to which labels lead.
#[tactic(auto, unfolding(crate::specs::Links::places_of))]
fn places(alloc: Global, blocks: &LabelledBlocks, labels: &[u64]) -> Result<Vec<u32>, OutOfMemory>
    requires { length blocks.now < 2 ^ 32 }
    ensures { IfOk result (λ v. v.items ≡ places_of blocks.now labels.now) }
{
    let mut places = Vec::new(alloc);
    for at in 0..labels.len() {
        places.push(blocks.target(labels[at]))?;
    }
    Ok(places)
}

/// The blocks that an end leads to, in its branches' order.
fn targets(alloc: Global, blocks: &LabelledBlocks, end: &End) -> Result<Vec<u32>, OutOfMemory>
    requires { length blocks.now < 2 ^ 32 }
    ensures { IfOk result (λ v. v.items ≡ targets_of blocks.now end.now) }
{
    let labels = labels_of(alloc, end)?;
    let targets = places(alloc, blocks, labels.as_slice())?;
    Ok(targets)
}

/// What each block leads to.
fn rows_of(alloc: Global, blocks: &[Block]) -> Result<Vec<Vec<u32>>, OutOfMemory>
    requires { length blocks.now < 2 ^ 32 }
    ensures one_each { IfOk result (λ rows. length rows.items ≡ length blocks.now) }
    ensures rows { IfOk result (λ rows. listed rows.items ≡ all_targets blocks.now blocks.now) }
{
    let labelled = LabelledBlocks::new(alloc, blocks)?;
    let mut rows = Vec::new(alloc);
    for at in 0..blocks.len() {
        let row = targets(alloc, &labelled, &blocks[at].end)?;
        rows.push(row)?;
    }
    Ok(rows)
}

/// For each block whether the ends lead to it from the first one.
pub(crate) fn linked(alloc: Global, blocks: &[Block]) -> Result<Vec<bool>, OutOfMemory>
    requires some { 0 < length blocks.now }
    requires few { length blocks.now < 2 ^ 32 }
    ensures { IfOk result (λ marks. AreMarks (out_of blocks.now) (length blocks.now) 0 marks.items) }
{
    let rows = rows_of(alloc, blocks)?;
    let marks = reached_in(alloc, rows.as_slice(), 0)?;
    Ok(marks)
}
