//! Abstract values of scalars: sets of constants, known bits and intervals, and the operators on them.
#![tactic(auto)]

mod abs_val;
mod bit_operators;
mod bits;
mod constant;
mod constant_operators;
mod laws;
mod limits;
mod numbers;
mod operators;
mod range;
mod range_operators;
#[cfg(test)]
mod tests;
mod thresholds;
mod vals;

pub use abs_val::AbsVal;
pub use bits::Bits;
pub use constant::{ConstantOrder, NumberOrder};
pub use constant_operators::{constant_cmp, constant_convert, constant_op};
pub use gimple_core::Constant;
pub use laws::{
    alone_values, brought_values, closed_traps, higher_values_hold, kinds_give_back,
    known_constants_hold, operators_fit, operators_hold, operators_rise, taken_comparisons_fit,
    taken_comparisons_hold, taken_comparisons_rise, top_holds_all, values_cross,
};
pub use limits::thresholds_of;
pub use operators::{
    abs_cmp, abs_convert, abs_op, exactly, into_scalar, join, known, leq, may_trap, meet, refine,
    top,
};
pub use range::Range;
pub use thresholds::Thresholds;
pub use vals::Vals;
