//! The order in which objects and their slots come to be.

ghost use Rattle.std.specs.Prelude.{◌≡◌};
ghost use Rattle.gimple_core.specs.Memory.{is_elsewhere};
ghost use Rattle.gimple_exec.specs.Order.{rank, place, precedes};

use gimple_core::Object;

/// Where the objects of a frame stand among those of others; globals stand first.
pub fn rank(object: Object) -> u128
    ensures { result ≡ rank object }
{
    match object {
        Object::Global(_) => 0,
        Object::Local { serial, number: _ } => u128::from(serial) + 1,
    }
}

fn place(object: Object) -> u32
    ensures { result ≡ place object }
{
    match object {
        Object::Global(number) => number,
        Object::Local { serial: _, number } => number,
    }
}

/// Whether a place in an object comes before one in another.
#[tactic(auto, unfolding(crate::specs::Order::precedes))]
pub fn precedes(left: Object, at: u64, right: Object, other: u64) -> bool
    ensures { result ≡ precedes left at right other }
{
    if rank(left) == rank(right) {
        if place(left) == place(right) {
            at < other
        } else {
            place(left) < place(right)
        }
    } else {
        rank(left) < rank(right)
    }
}

/// Whether an object is none of a frame's locals.
pub fn elsewhere(serial: u64, object: Object) -> bool
    ensures { result ≡ is_elsewhere serial object }
{
    match object {
        Object::Global(_) => true,
        Object::Local {
            serial: other,
            number: _,
        } => other != serial,
    }
}
