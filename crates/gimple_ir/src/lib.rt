//! Programs, their parts and their values.
#![tactic(auto)]

mod block;
mod declarations;
mod fault;
mod listed;
mod operand;
mod options;
mod point;
mod program;
mod scalar;
mod statement;
mod value;

pub use block::{Block, Blocks, Case, Cases, End};
pub use declarations::{
    Decl, Decls, Global, Globals, Register, Registers, Scalars, Shape, StructDef, StructDefs,
};
pub use fault::{Site, TypeFault};
pub use listed::{Exact, Listed, Text};
pub use operand::{Base, Items, Operand, Operands, Place};
pub use options::{Params, Passes};
pub use point::{Edge, Edges, Marks, Names, Numbers, Point, Points};
pub use program::{Function, Functions, Program};
pub use scalar::{Cmp, Mode, Op, Scalar};
pub use statement::{Signature, Stmt, Stmts};
pub use value::{
    Constant, Constants, FunctionName, Layout, LayoutSlot, Object, Outcome, Slots, TrapKind, Value,
};

/// Want of memory.
pub type OutOfMemory = std::alloc::AllocError;
