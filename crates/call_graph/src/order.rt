//! The strong components of a call graph, callees first.

ghost use Rattle.std.specs.Prelude.{◌≡◌, ◌<◌, ◌^◌, Contains, IfOk, length};
ghost use Rattle.gimple_ir.specs.Size.{size_of_program};
ghost use Rattle.call_graph.specs.Calls.{callees_in, callees_of};
ghost use Rattle.call_graph.specs.Firsts.{AreFirsts};
ghost use Rattle.call_graph.specs.Graph.{IsOrder, OrderIsOne};

use crate::calls::edges;
use crate::firsts::{firsts_in, members_of};
use crate::queue::{queue_of, stand};
use gimple_core::{Checked, Edge, Listed, Numbers, OutOfMemory};
use std::alloc::Global as Heap;

/// The strong components of a call graph in order, each a list of function numbers.
pub type Order = Listed<Numbers>;

/// There is one order of the strong components at most.
pub fn order_is_one()
    ensures { OrderIsOne }
{}

/// The strong components of a program's call graph, callees first: the next one is that with the least function number
/// among those whose other callees all stand already. Members ascend.
pub fn components(alloc: Heap, program: &Checked) -> Result<Order, OutOfMemory>
    requires few { length program.now.program.functions < 2 ^ 32 }
    requires size { size_of_program program.now.program < 2 ^ 32 }
    ensures { IfOk result (IsOrder (callees_of program.now.program) (length program.now.program.functions)) }
{
    let edges = edges(alloc, program)?;
    let functions = program.program().functions.len();
    let firsts = firsts_in(alloc, edges.as_slice(), functions)?;
    let order = order_of(alloc, edges.as_slice(), firsts.as_slice())?;
    Ok(order)
}

/// The components of a graph, each known by its first node, in order.
fn order_of(alloc: Heap, edges: &[Edge], firsts: &[u32]) -> Result<Order, OutOfMemory>
    requires few { length firsts.now < 2 ^ 32 }
    requires callers { (e : _) → Contains edges.now e → e.caller < length firsts.now }
    requires callees { (e : _) → Contains edges.now e → e.callee < length firsts.now }
    requires firsts { AreFirsts (callees_in edges.now) (length firsts.now) firsts.now }
    ensures { IfOk result (IsOrder (callees_in edges.now) (length firsts.now)) }
{
    let members = members_of(alloc, firsts)?;
    let mut queue = queue_of(alloc, edges, firsts)?;
    let mut order = Order::new(alloc);
    while let Some(node) = queue.ready.first() {
        let component = copied(alloc, members[node as usize].as_slice())?;
        order.push(component)?;
        stand(alloc, &mut queue, node)?;
    }
    Ok(order)
}

fn copied(alloc: Heap, numbers: &[u32]) -> Result<Numbers, OutOfMemory>
    ensures { IfOk result (λ v. v ≡ numbers.now) }
{
    let numbers = numbers.to_vec(alloc)?;
    Ok(Numbers::from_vec(numbers))
}
