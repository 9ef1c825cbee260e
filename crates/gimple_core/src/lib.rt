//! What programs are and mean: their types, sizes, layout and operators, and programs without a type fault.
#![tactic(auto)]

mod acceptance;
mod checked;
mod layout;
mod machine;
mod names;
mod operators;
mod reach;
mod replacing;
mod size;
#[cfg(test)]
mod tests;

pub use acceptance::accepted_is_typed;
pub use checked::{Checked, checked_crosses};
pub use gimple_ir::{
    Base, Block, Blocks, Case, Cases, Cmp, Constant, Constants, Decl, Decls, Edge, Edges, End,
    Exact, Function, FunctionName, Functions, Global, Globals, Items, Layout, LayoutSlot, Listed,
    Marks, Mode, Names, Numbers, Object, Op, Operand, Operands, OutOfMemory, Outcome, Params,
    Passes, Place, Point, Points, Program, Register, Registers, Scalar, Scalars, Shape, Signature,
    Site, Slots, Stmt, Stmts, StructDef, StructDefs, Text, TrapKind, TypeFault, Value,
};
pub use layout::layout_of;
pub use machine::{Extent, FoundSlot, MemorySlot};
pub use names::same_name;
pub use operators::{bits, eval_cmp, eval_op, fits, from_low, half, low, modulus, signed, wrap};
pub use reach::dropping_keeps_runs;
pub use replacing::replacing_is_transitive;
pub use size::{size_of_function, size_of_program};
