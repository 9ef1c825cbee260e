//! An interpreter of programs: what a program comes to on an input.
#![tactic(auto)]

mod entry;
mod extents;
mod hints;
mod indexed;
mod interpreter;
mod machine;
mod memory;
mod order;
mod registers;
mod rows;
mod slots;
mod values;
mod world;

pub use interpreter::run;
