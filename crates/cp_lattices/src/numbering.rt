//! Numbers for the formals of all functions.

ghost use Rattle.std.specs.Prelude.{◌≡◌, ◌+◌, ◌^◌, ◌<◌, ◌≤◌, ◌++◌, ℕ, [], false, length, IfOk, OnOk, OnSome, slice_index_or};
ghost use Rattle.std.specs.Option.{option_copied};
ghost use Rattle.gimple_ir.specs.Counts.{IsCountable};
ghost use Rattle.call_graph.specs.Reached.{AreAddressed};
ghost use Rattle.cp_lattices.specs.Few.{formals_of_program};
ghost use Rattle.cp_lattices.specs.Numbered.{node_at, node_of, nodes_from, AreNumbered, HaveNumbers, IsNumbering};

use call_graph::{Order, addressed, components};
use gimple_core::{Checked, Function, Listed, Marks, OutOfMemory, Register, Scalar};
use std::alloc::Global;

/// A formal of a function, both by their numbers, with its scalar and whether the function's address is taken.
#[derive(Drop)]
pub struct Node {
    pub function: u32,
    pub formal: u32,
    pub scalar: Scalar,
    pub addressed: bool,
}

/// Numbers for formals, each the number of a node. Node 0 stands for what is no formal; node k + 1 has its formal at k in
/// `nodes`. The formals of a function stand in a row from its node in `firsts` on, which is 0 where it has no numbers yet.
#[derive(Drop)]
pub struct Numbering {
    pub firsts: Listed<u32>,
    pub nodes: Listed<Node>,
}

impl Numbering {
    fn first_of(&self, function: u32) -> u32
        ensures { result ≡ slice_index_or self.now.firsts function 0 }
    {
        match self.firsts.as_slice().get(function as usize) {
            Some(first) => *first,
            None => 0,
        }
    }

    /// The formal of a node; None exactly for node 0 and past the last one.
    pub fn at(&self, node: usize) -> Option<&Node>
        ensures value { option_copied result ≡ node_at self.now.nodes node }
        ensures within { OnSome result (node ≤ length self.now.nodes) }
    {
        if node == 0 {
            return None;
        }
        self.nodes.get(node - 1)
    }

    /// The node of a formal of a function; 0 where there is none.
    #[tactic(auto, unfolding(crate::specs::Numbered::node_of))]
    pub fn node_of(&self, function: u32, formal: u32) -> u32
        requires { length self.now.nodes + 1 < 2 ^ 32 }
        ensures { result ≡ node_of self.now function formal }
    {
        let place = self.first_of(function) as usize + formal as usize;
        match self.at(place) {
            Some(node) if node.function == function && node.formal == formal => place as u32,
            _ => 0,
        }
    }
}

/// Puts the formals of a function behind the others. Err is want of memory.
#[tactic(auto, unfolding(crate::specs::Numbered::nodes_from))]
fn push_formals(
    nodes: &mut Listed<Node>,
    function: u32,
    addressed: bool,
    formals: &[Register],
) -> Result<(), OutOfMemory>
    requires { length formals.now < 2 ^ 32 }
    ensures { OnOk result (nodes.new ≡ nodes.old ++ nodes_from function addressed 0 formals.now) }
{
    for (formal, register) in formals.iter().enumerate() {
        nodes.push(Node {
            function,
            formal: formal as u32,
            scalar: register.scalar,
            addressed,
        })?;
    }
    Ok(())
}

/// A numbering of no formal, for so many functions. Err is want of memory.
fn unnumbered(alloc: Global, functions: usize) -> Result<Numbering, OutOfMemory>
    ensures nodes { IfOk result (λ g. g.nodes ≡ []) }
    ensures count { IfOk result (λ g. length g.firsts ≡ functions) }
    ensures firsts { IfOk result (λ g. (n : ℕ) → slice_index_or g.firsts n 0 ≡ 0) }
{
    let firsts = vec![in alloc; 0; functions]?;
    Ok(Numbering {
        firsts: Listed::from_vec(firsts),
        nodes: Listed::new(alloc),
    })
}

fn is_marked(marks: &[bool], function: u32) -> bool
    ensures { result ≡ slice_index_or marks.now function false }
{
    match marks.get(function as usize) {
        Some(mark) => *mark,
        None => false,
    }
}

/// Gives the formals of a function numbers, where there is a function of that number and it has none yet. Err is want of
/// memory.
fn put(
    numbering: &mut Numbering,
    program: &Checked,
    marks: &[bool],
    function: u32,
) -> Result<(), OutOfMemory>
    requires countable { IsCountable program.now.program }
    requires few { formals_of_program program.now.program + 1 < 2 ^ 32 }
    requires marks { AreAddressed program.now.program marks.now }
    requires numbered { AreNumbered program.now numbering.old }
    ensures numbered { OnOk result (AreNumbered program.now numbering.new) }
    ensures here { OnOk result (function < length program.now.program.functions → 0 < slice_index_or numbering.new.firsts function 0) }
    ensures kept { OnOk result ((n : ℕ) → 0 < slice_index_or numbering.old.firsts n 0 → 0 < slice_index_or numbering.new.firsts n 0) }
{
    let Some(known) = program.program().functions.get(function as usize) else {
        return Ok(());
    };
    if numbering.first_of(function) != 0 {
        return Ok(());
    }
    let first = numbering.nodes.len() as u32 + 1;
    let addressed = is_marked(marks, function);
    push_formals(
        &mut numbering.nodes,
        function,
        addressed,
        known.params.as_slice(),
    )?;
    numbering.firsts.set(function as usize, first);
    Ok(())
}

/// Gives the formals of functions numbers, component by component from the last one on. Err is want of memory.
fn put_order(
    numbering: &mut Numbering,
    program: &Checked,
    marks: &[bool],
    order: &Order,
) -> Result<(), OutOfMemory>
    requires countable { IsCountable program.now.program }
    requires few { formals_of_program program.now.program + 1 < 2 ^ 32 }
    requires marks { AreAddressed program.now.program marks.now }
    requires numbered { AreNumbered program.now numbering.old }
    ensures { OnOk result (AreNumbered program.now numbering.new) }
{
    for component in order.as_slice().iter().rev() {
        for function in component.as_slice() {
            put(numbering, program, marks, *function)?;
        }
    }
    Ok(())
}

/// Gives the formals of all functions numbers that have none yet. Err is want of memory.
fn put_rest(numbering: &mut Numbering, program: &Checked, marks: &[bool]) -> Result<(), OutOfMemory>
    requires countable { IsCountable program.now.program }
    requires few { formals_of_program program.now.program + 1 < 2 ^ 32 }
    requires marks { AreAddressed program.now.program marks.now }
    requires numbered { AreNumbered program.now numbering.old }
    ensures { OnOk result (IsNumbering program.now numbering.new) }
{
    let functions = program.program().functions.len() as u32;
    for function in 0..functions {
        put(numbering, program, marks, function)?;
    }
    Ok(())
}

/// Numbers for the formals of all functions, callers first, as values flow from callers to callees. Err is want of memory.
#[tactic(auto, using(crate::proofs::Numberings::few_nodes, crate::proofs::Numberings::unnumbered_are))]
pub fn numbering_of(alloc: Global, program: &Checked) -> Result<Numbering, OutOfMemory>
    requires countable { IsCountable program.now.program }
    requires few { formals_of_program program.now.program + 1 < 2 ^ 32 }
    ensures numbers { IfOk result (IsNumbering program.now) }
    ensures few { IfOk result (λ g. length g.nodes + 1 < 2 ^ 32) }
{
    let marks = addressed(alloc, program)?;
    let order = components(alloc, program)?;
    let mut numbering = unnumbered(alloc, program.program().functions.len())?;
    put_order(&mut numbering, program, marks.as_slice(), &order)?;
    put_rest(&mut numbering, program, marks.as_slice())?;
    Ok(numbering)
}
