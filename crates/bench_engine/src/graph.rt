//! Graphs along which truth flows from one node.

ghost use Rattle.std.specs.Prelude.{◌≡◌, ℕ, ◌<◌, ◌≤◌, ◌+◌, ◌^◌, IfOk, vec_len, slice_index};

use fix_engine::{Flow, OutOfMemory};
use std::alloc::Global;
use std::sync::atomic::AtomicUsize;
use std::sync::atomic::Ordering::SeqCst;

/// A list of edges, the node that starts true, and how often a value flowed along an edge.
#[derive(Drop)]
pub struct Graph {
    nodes: u32,
    start: u32,
    sources: Vec<u32>,
    targets: Vec<u32>,
    flows: AtomicUsize,
    ghost same: { vec_len targets ≡ vec_len sources },
    ghost few: { vec_len sources < 2 ^ 32 },
    ghost sources_in: { (e : ℕ) → e < vec_len sources → slice_index sources.items e < nodes },
    ghost targets_in: { (e : ℕ) → e < vec_len sources → slice_index targets.items e < nodes },
}

impl Flow for Graph {
    ghost use Rattle.std.specs.Prelude.{[], vec_len};
    ghost use Rattle.bench_engine.specs.Graph.{graph, graph_laws};

    type Value = bool;

    ghost kind = { λ _. [] };

    ghost equations = { λ g. graph g.nodes g.start (vec_len g.sources) g.sources.items g.targets.items };

    ghost laws = { λ g. graph_laws g.nodes g.start (vec_len g.sources) g.sources.items g.targets.items g.sources_in g.targets_in };

    fn nodes(&self) -> u32 {
        self.nodes
    }

    fn edges(&self) -> u32 {
        self.sources.len() as u32
    }

    fn ends(&self, edge: u32) -> (u32, u32) {
        (self.sources[edge as usize], self.targets[edge as usize])
    }

    fn start(&self, node: u32) -> Result<bool, OutOfMemory> {
        Ok(node == self.start)
    }

    fn flow(&self, _edge: u32, from: &bool) -> Result<bool, OutOfMemory> {
        self.flows.fetch_add(1, SeqCst);
        Ok(*from)
    }
}

impl Graph {
    /// How often a value flowed along an edge so far.
    pub fn flows(&self) -> usize {
        self.flows.load(SeqCst)
    }

    /// Each node but the last leads to the next one, and the first starts true.
    pub fn chain(alloc: Global, nodes: u32) -> Result<Graph, OutOfMemory>
        requires { 0 < nodes }
    {
        let sources = counted(alloc, 0, nodes - 1)?;
        let targets = counted(alloc, 1, nodes - 1)?;
        Ok(Graph {
            nodes,
            start: 0,
            sources,
            targets,
            flows: AtomicUsize::new(0),
        })
    }

    /// Each node but the first leads to the one before it, and the last starts true.
    pub fn reversed(alloc: Global, nodes: u32) -> Result<Graph, OutOfMemory>
        requires { 0 < nodes }
    {
        let sources = counted(alloc, 1, nodes - 1)?;
        let targets = counted(alloc, 0, nodes - 1)?;
        Ok(Graph {
            nodes,
            start: nodes - 1,
            sources,
            targets,
            flows: AtomicUsize::new(0),
        })
    }

    /// Four edges a node, whose ends are drawn, and the first node starts true.
    pub fn random(alloc: Global, nodes: u32) -> Result<Graph, OutOfMemory>
        requires some { 0 < nodes }
        requires few { nodes ≤ 1000000 }
    {
        let sources = drawn(alloc, nodes, 4 * nodes, 1)?;
        let targets = drawn(alloc, nodes, 4 * nodes, 2)?;
        Ok(Graph {
            nodes,
            start: 0,
            sources,
            targets,
            flows: AtomicUsize::new(0),
        })
    }
}

/// As many numbers from the first on.
fn counted(alloc: Global, first: u32, count: u32) -> Result<Vec<u32>, OutOfMemory>
    requires { first + count < 2 ^ 32 }
    ensures len { IfOk result (λ v. vec_len v ≡ count) }
    ensures each { IfOk result (λ v. (e : ℕ) → e < count → slice_index v.items e < first + count) }
{
    let mut numbers = Vec::new(alloc);
    for index in 0..count {
        numbers.push(first + index)?;
    }
    Ok(numbers)
}

/// Numbers below a bound, by a linear congruential generator.
fn drawn(alloc: Global, bound: u32, count: u32, seed: u64) -> Result<Vec<u32>, OutOfMemory>
    requires { 0 < bound }
    ensures len { IfOk result (λ v. vec_len v ≡ count) }
    ensures each { IfOk result (λ v. (e : ℕ) → e < count → slice_index v.items e < bound) }
{
    let mut state = seed;
    let mut numbers = Vec::new(alloc);
    for index in 0..count {
        let _ = index;
        state = state
            .wrapping_mul(6_364_136_223_846_793_005)
            .wrapping_add(1_442_695_040_888_963_407);
        numbers.push(((state >> 33) % u64::from(bound)) as u32)?;
    }
    Ok(numbers)
}
