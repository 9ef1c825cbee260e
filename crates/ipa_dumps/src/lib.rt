//! The texts of dumps: what a pass found and did, line by line. A pass's results are seen through a trait, so a dump
//! stands on no pass.
#![tactic(auto)]

mod cgraph;
mod classes;
mod cp;
mod indirect;
mod place;
mod value;

pub use cgraph::{GraphView, dump_cgraph};
pub use classes::{ClassView, dump_icf};
pub use cp::{CpView, dump_cp};
pub use place::{header, place_text};
pub use value::value_text;
