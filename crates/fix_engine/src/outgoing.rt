ghost use Rattle.std.specs.Prelude.{◌≡◌, ℕ, ◌+◌, ◌<◌, ◌^◌, List, IfOk, length, slice_index};
ghost use Rattle.fix_engine.specs.Outgoing.{IsNextFrom};

use crate::lattice::OutOfMemory;
use std::alloc::Global;
use std::marker::Model;

/// The sources of the edges, and the edges from each node in ascending number. Contracts see the list of the sources.
#[derive(Drop)]
pub struct Outgoing {
    sources: Vec<u32>,
    /// The first edge from each node.
    first: Vec<Option<u32>>,
    /// The next edge from the source of each edge.
    next: Vec<Option<u32>>,
}

impl Model for Outgoing {
    ghost use Rattle.std.specs.Prelude.{List, ℕ};
    ghost use Rattle.fix_engine.specs.Outgoing.{AreLinks};

    ghost Value = { List ℕ };

    ghost view = { λ o. o.sources.items };

    ghost invariant = { λ o. AreLinks o.sources.items o.first.items o.next.items 0 };
}

impl Outgoing {
    /// The edges with these sources, which are below the number of nodes.
    pub fn new(alloc: Global, sources: Vec<u32>, nodes: u32) -> Result<Outgoing, OutOfMemory>
        requires below { (e : ℕ) → e < length sources.items → slice_index sources.items e < nodes }
        requires few { length sources.items < 2 ^ 32 }
        ensures { IfOk result (λ o. o ≡ sources.items) }
    {
        let mut first = vec![in alloc; None; nodes as usize]?;
        let mut next = vec![in alloc; None; sources.len()]?;
        let mut edge = sources.len();
        while edge > 0 {
            edge -= 1;
            let source = sources[edge] as usize;
            next[edge] = first[source];
            first[source] = Some(edge as u32);
        }
        Ok(Outgoing {
            sources,
            first,
            next,
        })
    }

    pub fn source(&self, edge: u32) -> u32
        requires { edge < length self.now }
        ensures { result ≡ slice_index self.now edge }
    {
        self.sources[edge as usize]
    }

    /// The first edge from a node.
    pub fn first(&self, node: u32) -> Option<u32>
        ensures { IsNextFrom self.now node 0 result }
    {
        *self.first.get(node as usize)?
    }

    /// The next edge from the source of an edge.
    pub fn next(&self, edge: u32) -> Option<u32>
        requires { edge < length self.now }
        ensures { IsNextFrom self.now (slice_index self.now edge) (edge + 1) result }
    {
        self.next[edge as usize]
    }
}
