//! A solver that notes its calls.

use fix_engine::{Assignment, Flow, OutOfMemory, RoundSolver, Solver};
use std::alloc::Global;
use std::marker::{Send, Sync};

/// Solves by rounds, and counts its calls, which shows that it is the one that is used where it is given.
#[derive(Drop)]
pub struct NotingSolver {
    calls: u64,
}

impl NotingSolver {
    pub fn new() -> NotingSolver {
        NotingSolver { calls: 0 }
    }

    pub fn calls(&self) -> u64 {
        self.calls
    }
}

impl Solver for NotingSolver {
    fn solve<F: Flow + Sync>(
        &mut self,
        alloc: Global,
        flow: &F,
    ) -> Result<Assignment<F::Value>, OutOfMemory>
    where
        F::Value: Send,
    {
        self.calls = self.calls.saturating_add(1);
        RoundSolver.solve(alloc, flow)
    }
}
