//! The dump of the call graph.

ghost use Rattle.std.specs.Prelude.{◌≡◌, ◌<◌, ◌^◌, ◌++◌, length, slice_index_or, IfOk, OnOk, []};
ghost use Rattle.std.specs.List.{flat_map};
ghost use Rattle.gimple_ir.specs.Size.{size_of_program};
ghost use Rattle.ipa_dumps.specs.Dumps.{Graph, member_text, component_text, components_text, call_text, indirect_text, calls_text, cgraph_text};

use crate::indirect::{edges_before, indirect_calls};
use crate::place::{header, push_name, push_number, push_place};
use gimple_core::{Checked, Edge, OutOfMemory, Point, Program, Text};
use std::alloc::Global as Heap;

/// A call graph as its dump shows it: the components in their order, and the direct calls in file order.
pub trait GraphView {
    /// What the view tells.
    ghost graph: { Self → Graph };

    /// How many components there are.
    fn components(&self) -> u32
        ensures { result ≡ length (graph self.now).components };

    /// The numbers of the functions of a component, in file order.
    fn members(&self, component: u32) -> &[u32]
        requires { component < length (graph self.now).components }
        ensures { result.now ≡ slice_index_or (graph self.now).components component [] };

    /// The direct calls.
    fn edges(&self) -> &[Edge]
        ensures { result.now ≡ (graph self.now).edges };
}

/// Puts the names of functions behind a text, each after a blank.
pub fn push_members(text: &mut Text, program: &Program, members: &[u32]) -> Result<(), OutOfMemory>
    ensures { OnOk result (text.new ≡ text.old ++ flat_map (member_text program.now) members.now) }
{
    for member in members {
        text.push_all(" ".as_bytes())?;
        push_name(text, program, *member)?;
    }
    Ok(())
}

#[tactic(auto, unfolding(crate::specs::Dumps::component_text))]
fn push_component(
    text: &mut Text,
    program: &Program,
    component: u32,
    members: &[u32],
) -> Result<(), OutOfMemory>
    ensures { OnOk result (text.new ≡ text.old ++ component_text program.now component members.now) }
{
    text.push_all("component ".as_bytes())?;
    push_number(text, component as u64)?;
    text.push_all(":".as_bytes())?;
    push_members(text, program, members)?;
    text.push_all("\n".as_bytes())
}

fn push_components<V: GraphView>(
    text: &mut Text,
    program: &Program,
    view: &V,
) -> Result<(), OutOfMemory>
    ensures { OnOk result (text.new ≡ text.old ++ components_text program.now 0 (V.graph view.now).components) }
{
    for component in 0..view.components() {
        push_component(text, program, component, view.members(component))?;
    }
    Ok(())
}

#[tactic(auto, unfolding(crate::specs::Dumps::call_text))]
fn push_call(text: &mut Text, program: &Program, edge: &Edge) -> Result<(), OutOfMemory>
    ensures { OnOk result (text.new ≡ text.old ++ call_text program.now edge.now) }
{
    text.push_all("call ".as_bytes())?;
    push_place(text, program, &edge.point)?;
    text.push_all(" -> ".as_bytes())?;
    push_name(text, program, edge.callee)?;
    text.push_all("\n".as_bytes())
}

fn push_edges(text: &mut Text, program: &Program, edges: &[Edge]) -> Result<(), OutOfMemory>
    ensures { OnOk result (text.new ≡ text.old ++ flat_map (call_text program.now) edges.now) }
{
    for edge in edges {
        push_call(text, program, edge)?;
    }
    Ok(())
}

#[tactic(auto, unfolding(crate::specs::Dumps::indirect_text))]
fn push_indirect(text: &mut Text, program: &Program, place: &Point) -> Result<(), OutOfMemory>
    ensures { OnOk result (text.new ≡ text.old ++ indirect_text program.now place.now) }
{
    text.push_all("indirect ".as_bytes())?;
    push_place(text, program, place)?;
    text.push_all("\n".as_bytes())
}

/// Puts the lines of direct calls and of indirect calls behind a text, in file order.
fn push_calls(
    text: &mut Text,
    program: &Program,
    places: &[Point],
    edges: &[Edge],
) -> Result<(), OutOfMemory>
    ensures { OnOk result (text.new ≡ text.old ++ calls_text program.now places.now edges.now) }
{
    let mut rest = edges;
    for place in places {
        let (before, after) = rest.split_at(edges_before(rest, place));
        push_edges(text, program, before)?;
        push_indirect(text, program, place)?;
        rest = after;
    }
    push_edges(text, program, rest)
}

/// The dump of the call graph: a header, a line for each component with its members' names, and in file order a line
/// for each direct call with its place and the called function, and for each indirect one with its place. The answer
/// is want of memory alone.
#[tactic(auto, unfolding(crate::specs::Dumps::cgraph_text))]
pub fn dump_cgraph<V: GraphView>(
    alloc: Heap,
    program: &Checked,
    view: &V,
) -> Result<Text, OutOfMemory>
    requires few { length program.now.program.functions < 2 ^ 32 }
    requires size { size_of_program program.now.program < 2 ^ 32 }
    ensures { IfOk result (λ text. text ≡ cgraph_text program.now.program (V.graph view.now)) }
{
    let mut text = header(alloc, "cgraph")?;
    push_components(&mut text, program.program(), view)?;
    let places = indirect_calls(alloc, program.program())?;
    push_calls(
        &mut text,
        program.program(),
        places.as_slice(),
        view.edges(),
    )?;
    Ok(text)
}
