//! The branches of a function's blocks in order.

ghost use Rattle.std.specs.Prelude.{◌≡◌, ◌<◌, ◌^◌, ◌++◌, ◌∷◌, [], length, map, IfOk, OnOk, IfSome};
ghost use Rattle.block_flow.specs.Branches.{block_place, place_or, labels_of, branches_to, branches_from, branches_of};

use crate::branch::Branch;
use gimple_core::{Block, Case, End, OutOfMemory};
use name_tables::Labels;
use std::alloc::Global;
use std::marker::Model;

/// Blocks in a row, each found by its label.
#[derive(Drop)]
pub struct LabelledBlocks<'a> {
    blocks: &'a [Block],
    labels: Labels,
}

impl<'a> Model for LabelledBlocks<'a> {
    ghost use Rattle.std.specs.Prelude.{◌≡◌, List, map};
    ghost use Rattle.gimple_ir.specs.declared.block.Block.{Block};

    ghost Value = { List Block };

    ghost view = { λ t. t.blocks.now };

    ghost invariant = { λ t. t.labels ≡ map (λ b. b.label) t.blocks.now };
}

fn block_labels(alloc: Global, blocks: &[Block]) -> Result<Labels, OutOfMemory>
    ensures { IfOk result (λ labels. labels ≡ map (λ b. b.label) blocks.now) }
{
    let mut labels = Labels::new(alloc);
    for at in 0..blocks.len() {
        labels.push(blocks[at].label)?;
    }
    Ok(labels)
}

impl<'a> LabelledBlocks<'a> {
    /// A table of these blocks. Err is want of memory.
    pub fn new(alloc: Global, blocks: &'a [Block]) -> Result<LabelledBlocks<'a>, OutOfMemory>
        ensures { IfOk result (λ t. t ≡ blocks.now) }
    {
        let labels = block_labels(alloc, blocks)?;
        Ok(LabelledBlocks { blocks, labels })
    }

    /// The number of the first block of a label.
    fn place(&self, label: u64) -> Option<usize>
        ensures value { result ≡ block_place label self.now }
        ensures within { IfSome result (λ k. k < length self.now) }
    {
        self.labels.place(label)
    }

    /// The number of the block to which a label leads: of the first one that has it, or 0 where none has.
    pub fn target(&self, label: u64) -> u32
        requires { length self.now < 2 ^ 32 }
        ensures { result ≡ place_or (block_place label self.now) }
    {
        match self.place(label) {
            Some(place) => place as u32,
            None => 0,
        }
    }
}

/// The branch to a label.
fn branch(blocks: &LabelledBlocks, source: u32, slot: usize, label: u64) -> Branch
    requires blocks { length blocks.now < 2 ^ 32 }
    requires slot { slot < 2 ^ 32 }
    ensures { result ≡ record { source = source; slot = slot; target = place_or (block_place label blocks.now) } }
{
    Branch {
        source,
        slot: slot as u32,
        target: blocks.target(label),
    }
}

fn switch_labels(alloc: Global, cases: &[Case], other: u64) -> Result<Vec<u64>, OutOfMemory>
    ensures { IfOk result (λ v. v.items ≡ map (λ c. c.target) cases.now ++ other ∷ []) }
{
    let mut labels = Vec::new(alloc);
    for at in 0..cases.len() {
        labels.push(cases[at].target)?;
    }
    labels.push(other)?;
    Ok(labels)
}

/// The labels that an end leads to, in its branches' order. Err is want of memory.
pub fn labels_of(alloc: Global, end: &End) -> Result<Vec<u64>, OutOfMemory>
    ensures { IfOk result (λ v. v.items ≡ labels_of end.now) }
{
    match end {
        End::Goto(label) => Ok(Vec::from_array(alloc, [*label])?),
        End::If {
            left: _,
            cmp: _,
            right: _,
            yes,
            no,
        } => Ok(Vec::from_array(alloc, [*yes, *no])?),
        End::Switch {
            on: _,
            cases,
            other,
        } => switch_labels(alloc, cases.as_slice(), *other),
        End::Return(_) => Ok(Vec::new(alloc)),
    }
}

/// Puts the branches of a block behind the others.
fn put_branches(
    blocks: &LabelledBlocks,
    source: u32,
    labels: &[u64],
    found: &mut Vec<Branch>,
) -> Result<(), OutOfMemory>
    requires blocks { length blocks.now < 2 ^ 32 }
    requires labels { length labels.now < 2 ^ 32 }
    ensures { OnOk result (found.new.items ≡ found.old.items ++ branches_to blocks.now source 0 labels.now) }
{
    for slot in 0..labels.len() {
        found.push(branch(blocks, source, slot, labels[slot]))?;
    }
    Ok(())
}

/// The branches of blocks, those of each end in its order.
#[tactic(auto, unfolding(crate::specs::Branches::branches_of))]
pub fn branches_of(alloc: Global, blocks: &[Block]) -> Result<Vec<Branch>, OutOfMemory>
    requires blocks { length blocks.now < 2 ^ 32 }
    requires few { length (branches_of blocks.now) < 2 ^ 32 }
    ensures { IfOk result (λ v. v.items ≡ branches_of blocks.now) }
{
    let labelled = LabelledBlocks::new(alloc, blocks)?;
    let mut found = Vec::new(alloc);
    for source in 0..blocks.len() {
        let labels = labels_of(alloc, &blocks[source].end)?;
        put_branches(&labelled, source as u32, labels.as_slice(), &mut found)?;
    }
    Ok(found)
}
