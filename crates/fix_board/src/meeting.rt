//! Workers that wait for each other, and the board step by step.

ghost use Rattle.std.specs.Prelude.{◌≡◌, ℕ, ◌<◌, [], IfOk, Some};
ghost use Rattle.fix_board.specs.Fork.{fork, fork_laws};

use super::*;
use fix_engine::{Flow, Lattice, OutOfMemory};
use std::alloc::Global;
use std::marker::Brand;
use std::sync::atomic::AtomicUsize;
use std::sync::atomic::Ordering::SeqCst;
use std::test::Fail;

/// Where the first call waits for a second one.
#[derive(Drop)]
struct Meeting {
    begun: AtomicUsize,
    failures: AtomicUsize,
}

impl Meeting {
    fn new() -> Meeting {
        Meeting {
            begun: AtomicUsize::new(0),
            failures: AtomicUsize::new(0),
        }
    }

    /// The first call looks for a second one, a thousand million times at most, and then notes a failure.
    fn come(&self) {
        if self.begun.fetch_add(1, SeqCst) > 0 {
            return;
        }
        for _ in 0..1_000_000_000 {
            if self.begun.load(SeqCst) > 1 {
                return;
            }
        }
        self.failures.store(1, SeqCst);
    }

    fn failures(&self) -> usize {
        self.failures.load(SeqCst)
    }

    /// How many calls there were.
    fn calls(&self) -> usize {
        self.begun.load(SeqCst)
    }
}

/// A gate that notes who passes: for a worker and a turn below 8 a count of its own, of 4 bits.
#[derive(Drop)]
struct NotingGate {
    notes: AtomicUsize,
}

/// What a gate has noted where each of two workers passed once, at its first turn.
const ONCE_EACH: usize = 0x1_0000_0001;

impl NotingGate {
    fn new() -> NotingGate {
        NotingGate {
            notes: AtomicUsize::new(0),
        }
    }

    fn notes(&self) -> usize {
        self.notes.load(SeqCst)
    }
}

impl Gate for NotingGate {
    fn pass(&self, worker: u32, turn: u32) {
        if worker < 2 && turn < 8 {
            self.notes.fetch_add(1 << (32 * worker + 4 * turn), SeqCst);
        }
    }
}

/// Node 0, which starts true, with an edge to each of two others.
#[derive(Drop)]
struct Fork {
    meeting: Meeting,
}

impl Flow for Fork {
    type Value = bool;

    ghost kind = { λ _. [] };

    ghost equations = { λ _. fork };

    ghost laws = { λ _. fork_laws };

    fn nodes(&self) -> u32 {
        3
    }

    fn edges(&self) -> u32 {
        2
    }

    fn ends(&self, edge: u32) -> (u32, u32) {
        (0, edge + 1)
    }

    fn start(&self, node: u32) -> Result<bool, OutOfMemory> {
        Ok(node == 0)
    }

    fn flow(&self, _edge: u32, from: &bool) -> Result<bool, OutOfMemory> {
        self.meeting.come();
        Ok(*from)
    }
}

/// Two pieces, each its own index.
#[derive(Drop)]
struct Two {
    meeting: Meeting,
}

impl Work for Two {
    type Piece = u32;

    ghost has = { λ _ i. i < 2 };

    ghost pieces = { λ _ i. i };

    fn piece(&self, index: u32) -> Result<u32, OutOfMemory> {
        self.meeting.come();
        Ok(index)
    }
}

#[test]
fn two_workers_share_the_flows(rt: HostRuntime) -> Result<(), Fail> {
    let flow = Fork {
        meeting: Meeting::new(),
    };
    let gate = NotingGate::new();
    let found = BoardSolver::new(&rt, 2, &gate).solve(rt.alloc(), &flow)?;
    assert_eq!(rt; found.into_vec().as_slice(), [true, true, true].as_slice());
    assert_eq!(rt; flow.meeting.failures(), 0);
    // Each turn was posted: no edge was followed again by the caller.
    assert_eq!(rt; flow.meeting.calls(), 2);
    assert_eq!(rt; gate.notes(), ONCE_EACH);
    Ok(())
}

#[test]
fn two_workers_share_the_pieces(rt: HostRuntime) -> Result<(), Fail> {
    let work = Two {
        meeting: Meeting::new(),
    };
    let gate = NotingGate::new();
    let found = map_gated(&rt, rt.alloc(), 2, 2, &gate, &work)?;
    assert_eq!(rt; found.into_vec().as_slice(), [0, 1].as_slice());
    assert_eq!(rt; work.meeting.failures(), 0);
    assert_eq!(rt; work.meeting.calls(), 2);
    assert_eq!(rt; gate.notes(), ONCE_EACH);
    Ok(())
}

/// What the calls of a board gave.
#[derive(Drop)]
struct Steps {
    first: Option<u32>,
    second: Option<u32>,
    third: Option<u32>,
    last: Option<u32>,
    given_up: bool,
    ended: bool,
    values: Vec<bool>,
}

/// Takes three times, posts the first edge, and posts the second or gives it back. Then takes once more, gives it back, makes two
/// turns, of which the first is given up, and drains.
fn stepped<K: System<bool>>(
    alloc: Global,
    flow: &Fork,
    post_second: bool,
) -> Result<Steps, OutOfMemory>
    requires named { K.equations ≡ Some fork }
    requires kind { K.kind ≡ [] }
{
    let mut board: Board<bool, K> = Board::new(alloc, flow)?;
    let first = board.take();
    let second = board.take();
    let third = board.take();
    if let Some(edge) = first {
        ended(&mut board, flow, edge, true)?;
    }
    if let Some(edge) = second {
        ended(&mut board, flow, edge, post_second)?;
    }
    let last = board.take();
    board.give_all_back(flow);
    let given_up = turned(&mut board, flow, false)?;
    let ended = turned(&mut board, flow, true)?;
    board.give_all_back(flow);
    board.drain(flow)?;
    let values = board.into_assignment().into_vec();
    Ok(Steps {
        first,
        second,
        third,
        last,
        given_up,
        ended,
        values,
    })
}

/// Posts the flow of an edge's source, or gives the edge back.
fn ended<K: System<bool>>(
    board: &mut Board<bool, K>,
    flow: &Fork,
    edge: u32,
    post: bool,
) -> Result<(), OutOfMemory>
    requires named { K.equations ≡ Some fork }
    requires kind { K.kind ≡ [] }
    requires edge { edge < 2 }
{
    let from = board.source_copy(edge)?;
    let found = flow.flow(edge, &from)?;
    if post && board.may_post(edge, &from) {
        return board.post(edge, &from, found);
    }
    if board.is_out(edge) {
        board.give_back(edge);
    }
    Ok(())
}

/// A worker's turn, ended by its post or given up. False where no edge was taken.
fn turned<K: System<bool>>(
    board: &mut Board<bool, K>,
    flow: &Fork,
    post: bool,
) -> Result<bool, OutOfMemory>
    requires named { K.equations ≡ Some fork }
    requires kind { K.kind ≡ [] }
{
    let Some(turn) = board.take_copy()? else {
        return Ok(false);
    };
    if !post {
        board.give_up(turn);
        return Ok(true);
    }
    match turn.flow(flow) {
        Ok(found) => board.post_or_back(turn, found)?,
        Err(error) => {
            board.give_up(turn);
            return Err(error);
        }
    }
    Ok(true)
}

#[test]
fn board_step_by_step(rt: HostRuntime) -> Result<(), Fail> {
    let flow = Fork {
        meeting: Meeting::new(),
    };
    flow.meeting.begun.store(2, SeqCst);
    let all = [true, true, true];
    let posted = stepped::<Brand>(rt.alloc(), &flow, true)?;
    assert_eq!(rt; posted.first, Some(0));
    assert_eq!(rt; posted.second, Some(1));
    assert_eq!(rt; posted.third, None);
    assert_eq!(rt; posted.last, None);
    assert!(rt; !posted.given_up);
    assert_eq!(rt; posted.values.as_slice(), all.as_slice());
    let given = stepped::<Brand>(rt.alloc(), &flow, false)?;
    assert_eq!(rt; given.last, Some(1));
    assert!(rt; given.given_up);
    assert!(rt; given.ended);
    assert_eq!(rt; given.values.as_slice(), all.as_slice());
    Ok(())
}
