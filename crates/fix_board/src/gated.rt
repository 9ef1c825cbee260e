ghost use Rattle.std.specs.Prelude.{◌≡◌, ℕ, ◌+◌, ◌<◌, ◌≤◌, ◌^◌, List, All, IfOk, IfSome, IfNone, vec_len, length};
ghost use Rattle.fix_board.specs.Pieces.{pieces_below, AreDrawn, ArePlaced};

use crate::gate::Gate;
use fix_engine::OutOfMemory;
use std::alloc::Global;
use std::marker::{Model, Send, Sync};
use std::sync::{Mutex, Wait};
use std::thread::{Threads, map_indices};

/// Pieces that can be made each by itself, by their indices.
pub trait Work {
    type Piece: Drop;

    /// Which indices it has.
    ghost has: { Self → ℕ → Type 0 };

    /// The piece of each index.
    ghost pieces: { Self → ℕ → Self.Piece };

    fn piece(&self, index: u32) -> Result<Self::Piece, OutOfMemory>
        requires { has self.now index }
        ensures { IfOk result (λ p. p ≡ pieces self.now index) };
}

/// The pieces by index.
#[derive(Drop)]
pub struct Found<P> {
    pieces: Vec<P>,
}

impl<P> Model for Found<P> {
    ghost use Rattle.std.specs.Prelude.{List};

    ghost Value = { List P };

    ghost view = { λ f. f.pieces.items };
}

impl<P> Found<P> {
    pub fn as_slice(&self) -> &[P]
        ensures { result.now ≡ self.now }
    {
        self.pieces.as_slice()
    }

    pub fn into_vec(self) -> Vec<P>
        ensures { result.items ≡ self }
    {
        let Found { pieces } = self;
        pieces
    }
}

/// A piece that a worker made, with its index.
#[derive(Drop)]
struct Drawn<P> {
    index: u32,
    piece: P,
}

/// The pieces for 0 to `count` less 1, made by 1 to 64 workers. Each worker draws the next index, passes the gate and makes the
/// piece. The caller makes each piece that no worker brought.
pub fn map_gated<W: Work + Sync, R: Threads + Wait + Sync, G: Gate + Sync>(
    rt: &R,
    alloc: Global,
    workers: u32,
    count: u32,
    gate: &G,
    work: &W,
) -> Result<Found<W::Piece>, OutOfMemory>
where
    W::Piece: Send,
    requires some { 0 < workers }
    requires few { workers ≤ 64 }
    requires has { (i : ℕ) → i < count → W.has work.now i }
    ensures { IfOk result (λ f. f ≡ pieces_below (W.pieces work.now) count) }
{
    let next = Mutex::new(0);
    let lists = map_indices(
        rt,
        alloc,
        workers as usize,
        &|worker: usize| -> Result<Vec<Drawn<W::Piece>>, OutOfMemory>
            requires { (worker < 2 ^ 32) × ((i : ℕ) → i < count → W.has work.now i) }
            ensures { IfOk result (λ v. AreDrawn (W.pieces work.entry.now) count v.items) }
        { gather(rt, alloc, &next, count, gate, work, worker as u32) },
    )?;
    let mut places = no_pieces(alloc, count, work)?;
    let mut lists = lists;
    while let Some(list) = lists.pop() {
        place_all(&mut places, list?, count, work);
    }
    finish(alloc, places, count, work)
}

/// One worker's pieces.
fn gather<W: Work, R: Wait, G: Gate>(
    rt: &R,
    alloc: Global,
    next: &Mutex<u32>,
    count: u32,
    gate: &G,
    work: &W,
    worker: u32,
) -> Result<Vec<Drawn<W::Piece>>, OutOfMemory>
    requires { (i : ℕ) → i < count → W.has work.now i }
    ensures { IfOk result (λ v. AreDrawn (W.pieces work.now) count v.items) }
{
    let mut found = Vec::new(alloc);
    for turn in 0..count {
        let Some(index) = draw(&mut next.lock(rt), count) else {
            break;
        };
        gate.pass(worker, turn);
        let piece = work.piece(index)?;
        found.push(Drawn { index, piece })?;
    }
    Ok(found)
}

/// The next index, if there is one. No index is drawn twice.
fn draw(next: &mut u32, count: u32) -> Option<u32>
    ensures some { IfSome result (λ i. i < count) }
    ensures drawn { IfSome result (λ i. i ≡ next.old) }
    ensures next { IfSome result (λ i. next.new ≡ i + 1) }
    ensures none { IfNone result (count ≤ next.old) }
    ensures unchanged { IfNone result (next.new ≡ next.old) }
{
    let index = *next;
    if index >= count {
        return None;
    }
    *next = index + 1;
    Some(index)
}

/// As many empty places.
fn no_pieces<W: Work>(
    alloc: Global,
    count: u32,
    _work: &W,
) -> Result<Vec<Option<W::Piece>>, OutOfMemory>
    ensures { IfOk result (λ v. ArePlaced (W.pieces _work.now) count v.items) }
{
    let mut places = Vec::new(alloc);
    for index in 0..count {
        let _ = index;
        places.push(None)?;
    }
    Ok(places)
}

/// Puts the pieces of a list into their places. A place keeps what it has.
fn place_all<W: Work>(
    places: &mut Vec<Option<W::Piece>>,
    list: Vec<Drawn<W::Piece>>,
    count: u32,
    _work: &W,
)
    requires places { ArePlaced (W.pieces _work.now) count places.old.items }
    requires drawn { AreDrawn (W.pieces _work.now) count list.items }
    ensures { ArePlaced (W.pieces _work.now) count places.new.items }
{
    let mut list = list;
    while let Some(drawn) = list.pop() {
        let Drawn { index, piece } = drawn;
        let place = &mut places[index as usize];
        if place.is_none() {
            *place = Some(piece);
        }
    }
}

/// The pieces in their places, and each that is missing made here.
fn finish<W: Work>(
    alloc: Global,
    places: Vec<Option<W::Piece>>,
    count: u32,
    work: &W,
) -> Result<Found<W::Piece>, OutOfMemory>
    requires has { (i : ℕ) → i < count → W.has work.now i }
    requires places { ArePlaced (W.pieces work.now) count places.items }
    ensures { IfOk result (λ f. f ≡ pieces_below (W.pieces work.now) count) }
{
    let mut places = places;
    let mut pieces = Vec::new(alloc);
    for index in 0..count {
        let piece = taken(&mut places, index, count, work)?;
        pieces.push(piece)?;
    }
    Ok(Found { pieces })
}

/// The piece of an index, out of its place, or made here.
fn taken<W: Work>(
    places: &mut Vec<Option<W::Piece>>,
    index: u32,
    count: u32,
    work: &W,
) -> Result<W::Piece, OutOfMemory>
    requires index { index < count }
    requires has { W.has work.now index }
    requires places { ArePlaced (W.pieces work.now) count places.old.items }
    ensures piece { IfOk result (λ p. p ≡ W.pieces work.now index) }
    ensures places { ArePlaced (W.pieces work.now) count places.new.items }
{
    match places[index as usize].take() {
        Some(piece) => Ok(piece),
        None => work.piece(index),
    }
}
