//! What an argument of a call gives to a formal.

use body_symbols::JumpFn;
use gimple_core::Scalar;
use value_domain::AbsVal;

/// An argument of a call: the number of the function that calls, those of the function and of its formal that it is given to,
/// the formal's scalar, the argument's jump function, and what is known of its value where nothing is known of the caller's
/// formals.
#[derive(Debug, Drop)]
pub struct Gift {
    pub caller: u32,
    pub callee: u32,
    pub formal: u32,
    pub scalar: Scalar,
    pub jump: JumpFn,
    pub local: AbsVal,
}
