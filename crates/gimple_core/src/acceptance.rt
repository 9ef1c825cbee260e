//! Laws of programs without a type fault.

ghost use Rattle.gimple_core.specs.Typed.{AcceptedTyped};

/// A program without a type fault has a `main` without formals that gives an `i32`; each of its functions is the first
/// one of its name; and the operands, places, calls and labels of its statements and ends are there, with the scalars
/// that they need.
pub fn accepted_is_typed()
    ensures { AcceptedTyped }
{}
