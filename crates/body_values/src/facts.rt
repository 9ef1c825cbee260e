//! What is given of a function.

use gimple_core::{Listed, Point};
use value_domain::AbsVal;

/// Abstract values in order.
pub type AbsVals = Listed<AbsVal>;

/// What is given of the value of the load at a point.
#[derive(Debug, Drop)]
pub struct LoadFact {
    pub point: Point,
    pub value: AbsVal,
}

/// What is given of loads; of two facts of one point the first one counts.
pub type LoadFacts = Listed<LoadFact>;

/// What is given of a function: a value of each formal, and values that its loads give.
#[derive(Debug, Drop)]
pub struct Facts {
    pub formals: AbsVals,
    pub loads: LoadFacts,
}
