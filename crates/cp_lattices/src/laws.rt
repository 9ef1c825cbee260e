//! What holds of the values that calls give to formals, as laws.

ghost use Rattle.cp_lattices.specs.Claims.{GivenHolds, GivenIsGood, GivenRises};
ghost use Rattle.cp_lattices.specs.LatticeClaims.{LatticesFit, LatticesHold};

/// What a call gives to a formal, by the jump function of the argument, what is known of the argument there, and the value of
/// the caller's formal, fits and is of the formal's scalar; it rises with the value of the caller's formal; and it holds
/// the argument, where that is what the jump function says, and the caller's own argument and the argument are in those values.
pub fn given_values()
    ensures good { GivenIsGood }
    ensures rises { GivenRises }
    ensures holds { GivenHolds }
{}

/// The values of formals hold in each run of a program without a type fault, on an input of i64 numbers: each argument of each
/// activation is in its formal's value. They fit, so that values can be made from them.
pub fn lattices_hold()
    ensures hold { LatticesHold }
    ensures fit { LatticesFit }
{}
