//! The flow of truth values on a ring of four nodes, of which the first starts true.

ghost use Rattle.std.specs.Prelude.{◌≡◌, ◌<◌, ◌≤◌, ◌-◌, [], IfOk};
ghost use Rattle.fix_engine.specs.Least.{IsLeast};
ghost use Rattle.fix_engine.specs.Ring.{ring, ring_laws};
ghost use Rattle.fix_engine.specs.Truth.{FitsAny, implies};

use super::*;
use std::alloc::Global;
use std::marker::Brand;
use std::sync::ledger::{Blank, Ledger};
use std::test::Fail;

#[derive(Drop)]
struct Ring;

impl Flow for Ring {
    type Value = bool;

    ghost kind = { λ _. [] };

    ghost equations = { λ _. ring };

    ghost laws = { λ _. ring_laws };

    fn nodes(&self) -> u32 {
        4
    }

    fn edges(&self) -> u32 {
        4
    }

    fn ends(&self, edge: u32) -> (u32, u32) {
        (edge, (edge + 1) % 4)
    }

    fn start(&self, node: u32) -> Result<bool, OutOfMemory> {
        Ok(node == 0)
    }

    fn flow(&self, _edge: u32, from: &bool) -> Result<bool, OutOfMemory> {
        Ok(*from)
    }
}

/// The ring in the order of its nodes takes at most eight steps.
fn in_eight_steps<L: Ledger>(
    alloc: Global,
    steps: &mut Steps<L>,
) -> Result<Assignment<bool>, OutOfMemory>
    ensures least { IfOk result (λ a. IsLeast (FitsAny []) implies ring a) }
    ensures cost { steps.new - steps.old ≤ 8 }
{
    let order = [0, 1, 2, 3];
    solve_in_order(alloc, &Ring, &order, steps)
}

fn counted<L: Ledger>(alloc: Global, blank: Blank) -> Result<Assignment<bool>, OutOfMemory>
    requires name { blank.name ≡ L.name }
    requires parts { blank.parts ≡ L.parts }
    requires some { 0 < blank.parts }
{
    let mut steps: Steps<L> = Steps::new(blank);
    in_eight_steps(alloc, &mut steps)
}

#[test]
fn all_of_the_ring(rt: HostRuntime) -> Result<(), Fail> {
    let all = [true, true, true, true];
    let rounds = RoundSolver.solve(rt.alloc(), &Ring)?.into_vec();
    assert_eq!(rt; rounds.as_slice(), all.as_slice());
    let ordered = OrderSolver.solve(rt.alloc(), &Ring)?.into_vec();
    assert_eq!(rt; ordered.as_slice(), all.as_slice());
    let stepped = counted::<Brand>(rt.alloc(), Blank::new(1))?.into_vec();
    assert_eq!(rt; stepped.as_slice(), all.as_slice());
    Ok(())
}

#[test]
fn lattices_of_lattices(rt: HostRuntime) -> Result<(), Fail> {
    let mut low = Lifted::NotReached;
    let rows = Lifted::Reached(Pair {
        first: Rows::new(Vec::from_array(rt.alloc(), [false, true])?),
        second: false,
    });
    assert!(rt; low.leq(&rows));
    low.join(&rows)?;
    if let Lifted::Reached(Pair { first, second }) = low.copy()? {
        assert_eq!(rt; first.into_vec().as_slice(), [false, true].as_slice());
        assert!(rt; !second);
    }
    Ok(())
}

#[test]
fn each_half_is_joined(rt: HostRuntime) -> Result<(), Fail> {
    let mut joined = Lifted::Reached(Pair {
        first: true,
        second: false,
    });
    let other = Lifted::Reached(Pair {
        first: false,
        second: true,
    });
    assert!(rt; !joined.leq(&other));
    joined.join(&other)?;
    if let Lifted::Reached(Pair { first, second }) = joined {
        assert!(rt; first && second);
    } else {
        assert!(rt; false, "what was reached stays so");
    }
    Ok(())
}
