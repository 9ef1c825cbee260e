//! Laws of runs without some functions.

ghost use Rattle.gimple_core.specs.Reach.{KeptRuns, ReachedRuns};

/// A program runs as before, in either mode, without the functions outside a set of names that has `main` and what items
/// of globals address, and is closed under calls and addresses in bodies; so it does without the functions that `main`
/// does not reach.
pub fn dropping_keeps_runs()
    ensures closed { KeptRuns }
    ensures unreached { ReachedRuns }
{}
