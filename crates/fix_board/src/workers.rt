ghost use Rattle.std.specs.Prelude.{◌≡◌, ℕ, ◌<◌, ◌≤◌, ◌^◌, List, IfOk, Some};
ghost use Rattle.fix_engine.specs.Least.{IsLeast, Equations};

use crate::board::Board;
use crate::gate::Gate;
use crate::name::System;
use fix_engine::{Assignment, Flow, OutOfMemory};
use std::alloc::Global;
use std::marker::{Brand, Send, Sync};
use std::sync::{Mutex, Wait};
use std::thread::{Threads, map_indices};

/// How many turns a worker makes at most. The caller drains the rest.
const TURNS: u32 = 65536;

/// One worker's turns. An `Err` says that memory ran out.
fn work<F: Flow, K: System<F::Value>, R: Wait, G: Gate>(
    rt: &R,
    board: &Mutex<Board<F::Value, K>>,
    flow: &F,
    gate: &G,
    worker: u32,
) -> Result<(), OutOfMemory>
    requires named { K.equations ≡ Some (F.equations flow.now) }
    requires kind { K.kind ≡ F.kind flow.now }
{
    for turn in 0..TURNS {
        let Some(taken) = board.lock(rt).take_copy()? else {
            break;
        };
        gate.pass(worker, turn);
        match taken.flow(flow) {
            Ok(found) => board.lock(rt).post_or_back(taken, found)?,
            Err(error) => {
                board.lock(rt).give_up(taken);
                return Err(error);
            }
        }
    }
    Ok(())
}

fn solve_named<
    F: Flow + Sync,
    K: System<F::Value> + Send + Sync,
    R: Threads + Wait + Sync,
    G: Gate + Sync,
>(
    rt: &R,
    alloc: Global,
    workers: u32,
    gate: &G,
    flow: &F,
) -> Result<Assignment<F::Value>, OutOfMemory>
where
    F::Value: Send,
    requires named { K.equations ≡ Some (F.equations flow.now) }
    requires kind { K.kind ≡ F.kind flow.now }
    ensures { IfOk result (λ a. IsLeast (F.Value.fits (F.kind flow.now)) F.Value.below (F.equations flow.now) a) }
{
    let board: Mutex<Board<F::Value, K>> = Mutex::new(Board::new(alloc, flow)?);
    let ends = map_indices(
        rt,
        alloc,
        workers as usize,
        &|worker: usize| -> Result<(), OutOfMemory>
            requires { (worker < 2 ^ 32) × (K.equations ≡ Some (F.equations flow.now)) × (K.kind ≡ F.kind flow.now) }
        { work(rt, &board, flow, gate, worker as u32) },
    )?;
    for end in ends {
        end?;
    }
    let mut board = board.into_inner();
    board.give_all_back(flow);
    board.drain(flow)?;
    Ok(board.into_assignment())
}

/// Finds the least solution by 1 to 64 workers over one board, which stands under one lock.
#[derive(Drop)]
pub struct BoardSolver<'a, R, G> {
    pub rt: &'a R,
    pub workers: u32,
    pub gate: &'a G,
    pub ghost some: { 0 < workers },
    pub ghost few: { workers ≤ 64 },
}

impl<'a, R: Threads + Wait + Sync, G: Gate + Sync> BoardSolver<'a, R, G> {
    pub fn new(rt: &'a R, workers: u32, gate: &'a G) -> BoardSolver<'a, R, G>
        requires some { 0 < workers }
        requires few { workers ≤ 64 }
        ensures rt { result.rt.now ≡ rt.now }
        ensures workers { result.workers ≡ workers }
        ensures gate { result.gate.now ≡ gate.now }
    {
        BoardSolver { rt, workers, gate }
    }
}

impl<'a, R: Threads + Wait + Sync, G: Gate + Sync> BoardSolver<'a, R, G> {
    /// The least solution, for every number of workers and every gate. A worker that finds no memory gives its edge back
    /// and ends, and the answer is then want of memory.
    pub fn solve<F: Flow + Sync>(
        &self,
        alloc: Global,
        flow: &F,
    ) -> Result<Assignment<F::Value>, OutOfMemory>
    where
        F::Value: Send,
        ensures { IfOk result (λ a. IsLeast (F.Value.fits (F.kind flow.now)) F.Value.below (F.equations flow.now) a) }
    {
        solve_named::<F, Brand, R, G>(self.rt, alloc, self.workers, self.gate, flow)
    }
}
