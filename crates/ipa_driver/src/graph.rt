//! The call graph of a program, as its dump shows it.

ghost use Rattle.std.specs.Prelude.{◌≡◌, ◌<◌, ◌^◌, [], length, slice_index_or, IfOk};
ghost use Rattle.gimple_ir.specs.Size.{size_of_program};
ghost use Rattle.ipa_dumps.specs.Dumps.{Graph};
ghost use Rattle.ipa_driver.specs.Graph.{IsGraphDump, IsGraphText};

use call_graph::{Order, components, edges};
use gimple_core::{Checked, Edge, Edges, OutOfMemory, Text};
use ipa_dumps::{GraphView, dump_cgraph};
use std::alloc::Global;

/// The components and the calls of a program.
#[derive(Debug, Drop)]
struct CallGraph {
    order: Order,
    calls: Edges,
    ghost few: { length order < 2 ^ 32 },
}

impl GraphView for CallGraph {
    ghost graph = { λ g. record { components = g.order; edges = g.calls } };

    fn components(&self) -> u32
        ensures { result ≡ length self.now.order }
    {
        self.order.len() as u32
    }

    fn members(&self, component: u32) -> &[u32]
        requires { component < length self.now.order }
        ensures { result.now ≡ slice_index_or self.now.order component [] }
    {
        self.order.as_slice()[component as usize].as_slice()
    }

    fn edges(&self) -> &[Edge]
        ensures { result.now ≡ self.now.calls }
    {
        self.calls.as_slice()
    }
}

/// The dump of a program's call graph.
#[tactic(auto, using(crate::proofs::GraphLaws::few_components))]
fn graph_dump(alloc: Global, program: &Checked) -> Result<Text, OutOfMemory>
    requires few { length program.now.program.functions < 2 ^ 32 }
    requires size { size_of_program program.now.program < 2 ^ 32 }
    ensures { IfOk result (IsGraphDump program.now.program) }
{
    let order = components(alloc, program)?;
    let calls = edges(alloc, program)?;
    let view = CallGraph { order, calls };
    dump_cgraph(alloc, program, &view)
}

/// The dump of a program's call graph where it is asked for, else no text.
pub fn graph_text(alloc: Global, program: &Checked, asked: bool) -> Result<Text, OutOfMemory>
    requires few { length program.now.program.functions < 2 ^ 32 }
    requires size { size_of_program program.now.program < 2 ^ 32 }
    ensures { IfOk result (IsGraphText asked program.now.program) }
{
    if asked {
        graph_dump(alloc, program)
    } else {
        Ok(Text::new(alloc))
    }
}
