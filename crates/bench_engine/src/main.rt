//! Times the solver in order on graphs: `bench_engine chain|reversed|random NODES` prints how often values flowed.
#![tactic(auto)]

mod graph;

use fix_engine::{OrderSolver, OutOfMemory, Solver};
use graph::Graph;
use std::alloc::Global;
use std::env;
use std::process::ExitCode;

/// More nodes are refused.
const MOST: u32 = 1_000_000;

/// The graph of a shape, or None where no shape has the name.
fn shaped(alloc: Global, shape: &str, nodes: u32) -> Result<Option<Graph>, OutOfMemory> {
    if nodes == 0 || nodes > MOST {
        return Ok(None);
    }
    match shape {
        "chain" => Ok(Some(Graph::chain(alloc, nodes)?)),
        "reversed" => Ok(Some(Graph::reversed(alloc, nodes)?)),
        "random" => Ok(Some(Graph::random(alloc, nodes)?)),
        _ => Ok(None),
    }
}

/// How many nodes become true.
fn reached(alloc: Global, graph: &Graph) -> Result<usize, OutOfMemory> {
    let mut count = 0usize;
    for holds in &OrderSolver.solve(alloc, graph)?.into_vec() {
        if *holds {
            count = count.saturating_add(1);
        }
    }
    Ok(count)
}

/// Solves the graph that the words name, and prints one line.
fn measure(rt: &HostRuntime, shape: &str, nodes: u32) -> Result<ExitCode, OutOfMemory> {
    let Some(graph) = shaped(rt.alloc(), shape, nodes)? else {
        return Ok(ExitCode::from(2));
    };
    let reached = reached(rt.alloc(), &graph)?;
    let flows = graph.flows();
    let _ = println!(rt; "{shape} {nodes}: reached {reached}, flows {flows}");
    Ok(ExitCode::from(0))
}

fn main(rt: HostRuntime) -> ExitCode {
    let Ok(arguments) = env::args(&rt) else {
        return ExitCode::from(2);
    };
    let mut words = arguments.into_iter().skip(1);
    let (Some(shape), Some(nodes)) = (words.next(), words.next()) else {
        return ExitCode::from(2);
    };
    let Ok(nodes) = nodes.as_str().parse::<u32>() else {
        return ExitCode::from(2);
    };
    match measure(&rt, shape.as_str(), nodes) {
        Ok(code) => code,
        Err(_) => ExitCode::from(5),
    }
}
