ghost use Rattle.std.specs.Prelude.{◌≡◌, ℕ, ◌<◌, IfOk, OnOk, OnErr, length, slice_index_or, slice_set, not, true, vec_len};
ghost use Rattle.fix_engine.specs.Lattice.{AreAlike};
ghost use Rattle.fix_engine.specs.Least.{Equations};
ghost use Rattle.fix_board.specs.Board.{MarksFrom, AreTargets};

use crate::edges::EdgeMarks;
use fix_engine::{Flow, Lattice, OutOfMemory, Outgoing};
use std::alloc::Global;

/// Joins what was found into a node's value. Where it rose, the edges from the node become dirty.
pub fn join_into<V: Lattice>(
    values: &mut Vec<V>,
    outgoing: &Outgoing,
    edges: &mut EdgeMarks,
    node: u32,
    found: &V,
) -> Result<(), OutOfMemory>
    requires node { node < vec_len values.old }
    requires edges { length outgoing.now ≡ length edges.old.dirty }
    requires alike { (d : V) → AreAlike V.fits (slice_index_or values.old.items node d) found.now }
    ensures values { OnOk result ((d : V) → values.new.items ≡ slice_set values.old.items node (V.joined (slice_index_or values.old.items node d) found.now)) }
    ensures dirty { OnOk result ((d : V) → MarksFrom outgoing.now node (not (V.below found.now (slice_index_or values.old.items node d))) edges.old.dirty edges.new.dirty) }
    ensures out { OnOk result (edges.new.out ≡ edges.old.out) }
    ensures err { OnErr result (values.new.items ≡ values.old.items) }
    ensures unmarked { OnErr result (edges.new ≡ edges.old) }
{
    let into = &mut values[node as usize];
    if found.leq(into) {
        return Ok(());
    }
    into.join(found)?;
    mark_from(outgoing, node, edges);
    Ok(())
}

/// Makes the edges from a node dirty.
fn mark_from(outgoing: &Outgoing, node: u32, edges: &mut EdgeMarks)
    requires { length outgoing.now ≡ length edges.old.dirty }
    ensures dirty { MarksFrom outgoing.now node true edges.old.dirty edges.new.dirty }
    ensures out { edges.new.out ≡ edges.old.out }
{
    let mut next = outgoing.first(node);
    while let Some(edge) = next {
        edges.make_dirty(edge);
        next = outgoing.next(edge);
    }
}

/// The targets of the edges.
pub fn targets_of<F: Flow>(alloc: Global, flow: &F) -> Result<Vec<u32>, OutOfMemory>
    ensures { IfOk result (λ v. AreTargets (F.equations flow.now) v.items) }
{
    let mut targets = Vec::new(alloc);
    for edge in 0..flow.edges() {
        targets.push(flow.ends(edge).1)?;
    }
    Ok(targets)
}
