//! The values of registers at each point of a function.
#![tactic(auto)]

mod analysis;
mod block_values;
mod changes;
mod ends;
mod entry;
mod facts;
mod laws;
mod load_table;
mod point_rows;
mod program_tables;
mod scene;
mod shared;
mod tops;
mod transfer;
mod value_row;
mod values;

pub use analysis::ValueAnalysis;
pub use block_values::PointRow;
pub use changes::target;
pub use entry::{entry_row, registers_of};
pub use facts::{AbsVals, Facts, LoadFact, LoadFacts};
pub use laws::{
    body_parts_cross, body_values_cross, found_values_hold, operand_holds, top_facts_hold,
    values_found, values_hold,
};
pub use load_table::LoadTable;
pub use program_tables::ProgramTables;
pub use scene::{Scene, offset_of, pointer, scalar_of, scene_of};
pub use tops::top_facts;
pub use value_row::ValueRow;
pub use values::{BodyValues, values_in, values_of};
