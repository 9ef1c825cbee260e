ghost use Rattle.std.specs.Prelude.{◌≡◌, ℕ, ◌<◌, List, Bool, true, false, Contains, IfOk, IfSome, IfNone, length, replicate, slice_index, slice_index_or, slice_set};
ghost use Rattle.fix_engine.specs.Waiting.{ArePlaces};

use crate::lattice::OutOfMemory;
use crate::mark_tree::MarkTree;
use std::alloc::Global;
use std::marker::Model;

/// The nodes that wait to be visited, of which the first in the order is taken first. Contracts see whether each node waits.
#[derive(Drop)]
pub struct Waiting<'o> {
    order: &'o [u32],
    /// Where each node stands in the order.
    places: Vec<u32>,
    waits: Vec<bool>,
    /// The places of the nodes that wait.
    marks: MarkTree,
}

impl<'o> Model for Waiting<'o> {
    ghost use Rattle.std.specs.Prelude.{List, Bool};
    ghost use Rattle.fix_engine.specs.Waiting.{IsQueue};

    ghost Value = { List Bool };

    ghost view = { λ w. w.waits.items };

    ghost invariant = { λ w. IsQueue w.order.now w.places.items w.marks w.waits.items };
}

impl<'o> Waiting<'o> {
    /// All nodes wait.
    pub fn all(alloc: Global, order: &'o [u32], nodes: u32) -> Result<Waiting<'o>, OutOfMemory>
        requires each { (n : ℕ) → n < nodes → Contains order.now n }
        requires once { length order.now ≡ nodes }
        ensures len { IfOk result (λ w. length w ≡ nodes) }
        ensures waits { IfOk result (λ w. (n : ℕ) → n < nodes → slice_index_or w n false ≡ true) }
    {
        let mut waiting = Waiting::none(alloc, order, nodes)?;
        for node in 0..nodes {
            waiting.put(node);
        }
        Ok(waiting)
    }

    fn none(alloc: Global, order: &'o [u32], nodes: u32) -> Result<Waiting<'o>, OutOfMemory>
        requires each { (n : ℕ) → n < nodes → Contains order.now n }
        requires once { length order.now ≡ nodes }
        ensures { IfOk result (λ w. w ≡ replicate nodes false) }
    {
        let places = places_of(alloc, order, nodes)?;
        let waits = vec![in alloc; false; nodes as usize]?;
        let marks = MarkTree::new(alloc, nodes)?;
        Ok(Waiting {
            order,
            places,
            waits,
            marks,
        })
    }

    /// The first node that waits, which waits no longer.
    pub fn take(&mut self) -> Option<u32>
        ensures waited { IfSome result (λ n. slice_index_or self.old n false ≡ true) }
        ensures node { IfSome result (λ n. n < length self.old) }
        ensures taken { IfSome result (λ n. self.new ≡ slice_set self.old n false) }
        ensures none { IfNone result ((n : ℕ) → n < length self.old → slice_index_or self.old n false ≡ false) }
    {
        let place = self.marks.first()?;
        let node = self.order[place as usize];
        self.marks.set(place, false);
        self.waits[node as usize] = false;
        Some(node)
    }

    /// A node waits.
    pub fn put(&mut self, node: u32)
        requires { node < length self.old }
        ensures { self.new ≡ slice_set self.old node true }
    {
        self.marks.set(self.places[node as usize], true);
        self.waits[node as usize] = true;
    }
}

/// Where each node stands in the order.
fn places_of(alloc: Global, order: &[u32], nodes: u32) -> Result<Vec<u32>, OutOfMemory>
    requires each { (n : ℕ) → n < nodes → Contains order.now n }
    requires once { length order.now ≡ nodes }
    ensures { IfOk result (λ v. ArePlaces order.now v.items nodes) }
{
    let mut places = vec![in alloc; 0; nodes as usize]?;
    for (place, node) in order.iter().enumerate() {
        if *node < nodes {
            places[*node as usize] = place as u32;
        }
    }
    Ok(places)
}
