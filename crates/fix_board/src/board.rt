ghost use Rattle.std.specs.Prelude.{◌≡◌, ℕ, ◌<◌, ◌≤◌, ◌+◌, List, Bool, true, false, IfOk, IfSome, IfNone, OnOk, OnErr, Some, IsSomeAnd, IsTrue, ◌↔◌, length, MatchBool};
ghost use Rattle.fix_engine.specs.Least.{IsLeast, Equations, value_at};
ghost use Rattle.fix_engine.specs.Solving.{work_left};
ghost use Rattle.fix_board.specs.Edges.{is_ready};
ghost use Rattle.fix_board.specs.Board.{State, is_dirty, times_out, dirt, IsNext, IsStart, after_take, after_back, CanPost, Posts, IsKept, AreHome, IsDone};
ghost use Rattle.fix_board.specs.Events.{EndsTurn};

use crate::edges::EdgeMarks;
use crate::joining::{join_into, targets_of};
use crate::name::System;
use fix_engine::{Assignment, Flow, Lattice, OutOfMemory, Outgoing, outgoing_of, starts};
use std::alloc::Global;
use std::marker::{Model, PhantomData};

/// A value per node, the dirty edges, and how often each edge is out.
#[derive(Drop)]
pub struct Board<V: Lattice, K: System<V>> {
    values: Vec<V>,
    edges: EdgeMarks,
    outgoing: Outgoing,
    targets: Vec<u32>,
    of: PhantomData<K>,
}

impl<V: Lattice, K: System<V>> Model for Board<V, K> {
    ghost use Rattle.std.specs.Prelude.{IsSomeAnd};
    ghost use Rattle.fix_board.specs.Board.{State, IsBoard};

    ghost Value = { State V };

    ghost view = { λ b. record { values = b.values.items; dirty = b.edges.dirty; out = b.edges.out } };

    ghost invariant = { λ b. IsSomeAnd K.equations (λ s. IsBoard (V.fits K.kind) V.below s (record { values = b.values.items; dirty = b.edges.dirty; out = b.edges.out }) b.outgoing b.targets.items) };
}

impl<V: Lattice, K: System<V>> Board<V, K> {
    /// The board of a flow, with the start values and every edge dirty.
    pub fn new<F: Flow<Value = V>>(alloc: Global, flow: &F) -> Result<Board<V, K>, OutOfMemory>
        requires named { K.equations ≡ Some (F.equations flow.now) }
        requires kind { K.kind ≡ F.kind flow.now }
        ensures { IfOk result (IsStart (F.equations flow.now)) }
    {
        let values = starts(alloc, flow)?;
        let outgoing = outgoing_of(alloc, flow)?;
        let targets = targets_of(alloc, flow)?;
        let edges = EdgeMarks::new(alloc, flow.edges())?;
        Ok(Board {
            values,
            edges,
            outgoing,
            targets,
            of: PhantomData,
        })
    }

    /// Takes the least of the dirty edges that are out fewer than 2^32 - 1 times. None where there is no such edge.
    pub fn take(&mut self) -> Option<u32>
        ensures next { IfSome result (IsNext self.old) }
        ensures taken { IfSome result (λ e. self.new ≡ after_take self.old e) }
        ensures out { IfSome result (λ e. 0 < times_out self.new e) }
        ensures edge { IfSome result (λ e. IsSomeAnd K.equations (λ s. e < s.edges)) }
        ensures none { IfNone result ((d : ℕ) → d < length self.old.dirty → is_ready self.old.dirty self.old.out d ≡ false) }
        ensures unchanged { IfNone result (self.new ≡ self.old) }
    {
        self.edges.take()
    }

    /// A copy of the value of the edge's source.
    pub fn source_copy(&self, edge: u32) -> Result<V, OutOfMemory>
        requires { IsSomeAnd K.equations (λ s. edge < s.edges) }
        ensures value { IfOk result (λ v. IsSomeAnd K.equations (λ s. v ≡ value_at s self.now.values (s.source edge))) }
        ensures fits { IfOk result (V.fits K.kind) }
    {
        self.values[self.outgoing.source(edge) as usize].copy()
    }

    /// Whether the edge is out.
    pub fn is_out(&self, edge: u32) -> bool
        requires { IsSomeAnd K.equations (λ s. edge < s.edges) }
        ensures { IsTrue result ↔ (0 < times_out self.now edge) }
    {
        self.edges.times_out(edge) > 0
    }

    /// Whether the flow of this value along the edge may be posted.
    pub fn may_post(&self, edge: u32, from: &V) -> bool
        requires edge { IsSomeAnd K.equations (λ s. edge < s.edges) }
        requires fits { V.fits K.kind from.now }
        ensures { IsTrue result ↔ IsSomeAnd K.equations (λ s. CanPost (V.fits K.kind) V.below s self.now edge from.now) }
    {
        let source = &self.values[self.outgoing.source(edge) as usize];
        let times = self.edges.times_out(edge);
        if times == 0 || !from.leq(source) {
            return false;
        }
        if self.edges.is_dirty(edge) {
            return true;
        }
        if times > 1 {
            return true;
        }
        source.leq(from)
    }

    /// The edge is out once less, and dirty again.
    pub fn give_back(&mut self, edge: u32)
        requires edge { IsSomeAnd K.equations (λ s. edge < s.edges) }
        requires out { 0 < times_out self.old edge }
        ensures { self.new ≡ after_back self.old edge }
    {
        self.edges.give_back(edge);
    }

    /// Joins the flow of a value into the edge's target. After an `Err` the edge is given back, and no value has changed.
    pub fn post(&mut self, edge: u32, from: &V, found: V) -> Result<(), OutOfMemory>
        requires can { IsSomeAnd K.equations (λ s. CanPost (V.fits K.kind) V.below s self.old edge from.now) }
        requires found { IsSomeAnd K.equations (λ s. found ≡ s.flow edge from.now) }
        ensures ok { OnOk result (IsSomeAnd K.equations (λ s. Posts V.below V.joined s self.old edge from.now self.new)) }
        ensures err { OnErr result (self.new ≡ after_back self.old edge) }
    {
        let target = self.targets[edge as usize];
        if let Err(error) = join_into(
            &mut self.values,
            &self.outgoing,
            &mut self.edges,
            target,
            &found,
        ) {
            self.edges.give_back(edge);
            return Err(error);
        }
        self.edges.come_home(edge);
        Ok(())
    }
}

/// An edge that was taken, with a copy of its source's value. Nothing outside this file can take it apart and it is not `Drop`, so
/// whoever has one ends it by `post_or_back` or `give_up`.
pub(crate) struct Turn<V> {
    edge: u32,
    from: V,
}

impl<V: Lattice> Turn<V> {
    /// The flow of the value along the edge.
    pub(crate) fn flow<F: Flow<Value = V>>(&self, flow: &F) -> Result<V, OutOfMemory>
        requires edge { self.now.edge < (F.equations flow.now).edges }
        requires fits { V.fits (F.kind flow.now) self.now.from }
        ensures { IfOk result (λ found. found ≡ (F.equations flow.now).flow self.now.edge self.now.from) }
    {
        flow.flow(self.edge, &self.from)
    }
}

/// What a worker does in one critical section.
impl<V: Lattice, K: System<V>> Board<V, K> {
    /// An edge that was taken, and a copy of its source's value. After an `Err` the edge was taken and given back, and the board is
    /// as it was.
    pub(crate) fn take_copy(&mut self) -> Result<Option<Turn<V>>, OutOfMemory>
        ensures edge { IfOk result (λ taken. IfSome taken (λ t. IsSomeAnd K.equations (λ s. t.edge < s.edges))) }
        ensures fits { IfOk result (λ taken. IfSome taken (λ t. V.fits K.kind t.from)) }
        ensures taken { IfOk result (λ taken. IfSome taken (λ t. self.new ≡ after_take self.old t.edge)) }
        ensures next { IfOk result (λ taken. IfSome taken (λ t. IsNext self.old t.edge)) }
        ensures value { IfOk result (λ taken. IfSome taken (λ t. IsSomeAnd K.equations (λ s. t.from ≡ value_at s self.old.values (s.source t.edge)))) }
        ensures none { IfOk result (λ taken. IfNone taken (self.new ≡ self.old)) }
        ensures nothing { IfOk result (λ taken. IfNone taken ((d : ℕ) → d < length self.old.dirty → is_ready self.old.dirty self.old.out d ≡ false)) }
        ensures err { OnErr result ((e : ℕ) × IsNext self.old e × (self.new ≡ after_back (after_take self.old e) e)) }
        ensures unchanged { OnErr result (self.new ≡ self.old) }
    {
        self.known();
        let Some(edge) = self.take() else {
            return Ok(None);
        };
        match self.source_copy(edge) {
            Ok(from) => Ok(Some(Turn { edge, from })),
            Err(error) => {
                self.give_back(edge);
                Err(error)
            }
        }
    }

    /// Posts what was found, or gives the edge back where it may not be posted or memory ran out. Nothing changes where the edge
    /// is not out.
    pub(crate) fn post_or_back(&mut self, turn: Turn<V>, found: V) -> Result<(), OutOfMemory>
        requires edge { IsSomeAnd K.equations (λ s. turn.edge < s.edges) }
        requires fits { V.fits K.kind turn.from }
        requires found { IsSomeAnd K.equations (λ s. found ≡ s.flow turn.edge turn.from) }
        ensures event { 0 < times_out self.old turn.edge → IsSomeAnd K.equations (λ s. EndsTurn (V.fits K.kind) V.below V.joined s turn.edge turn.from self.old self.new) }
        ensures posts { OnOk result (IsSomeAnd K.equations (λ s. CanPost (V.fits K.kind) V.below s self.old turn.edge turn.from) → IsSomeAnd K.equations (λ s. Posts V.below V.joined s self.old turn.edge turn.from self.new)) }
        ensures err { OnErr result (self.new ≡ after_back self.old turn.edge) }
        ensures home { times_out self.old turn.edge ≡ 0 → self.new ≡ self.old }
    {
        let Turn { edge, from } = turn;
        if self.may_post(edge, &from) {
            return self.post(edge, &from, found);
        }
        self.back_if_out(edge);
        Ok(())
    }

    /// Ends a turn whose flow was not found: gives the edge back if it is out.
    pub(crate) fn give_up(&mut self, turn: Turn<V>)
        requires { IsSomeAnd K.equations (λ s. turn.edge < s.edges) }
        ensures out { 0 < times_out self.old turn.edge → self.new ≡ after_back self.old turn.edge }
        ensures home { times_out self.old turn.edge ≡ 0 → self.new ≡ self.old }
    {
        let Turn { edge, from: _ } = turn;
        self.back_if_out(edge);
    }

    fn back_if_out(&mut self, edge: u32)
        requires { IsSomeAnd K.equations (λ s. edge < s.edges) }
        ensures out { 0 < times_out self.old edge → self.new ≡ after_back self.old edge }
        ensures home { times_out self.old edge ≡ 0 → self.new ≡ self.old }
    {
        if self.is_out(edge) {
            self.give_back(edge);
        }
    }
}

/// What the caller does after the workers.
impl<V: Lattice, K: System<V>> Board<V, K> {
    /// What holds of every board.
    pub(crate) fn known(&self)
        ensures { IsSomeAnd K.equations (λ s. IsKept (V.fits K.kind) V.below s self.now) }
    {
        let _values = &self.values;
    }

    /// Gives back each edge that is out, as often as it is out.
    pub fn give_all_back<F: Flow<Value = V>>(&mut self, flow: &F)
        requires { K.equations ≡ Some (F.equations flow.now) }
        ensures home { AreHome self.new (F.equations flow.now).edges }
        ensures values { self.new.values ≡ self.old.values }
    {
        for edge in 0..flow.edges() {
            while self.is_out(edge) {
                self.give_back(edge);
            }
        }
    }

    /// Takes and posts until nothing is dirty.
    pub fn drain<F: Flow<Value = V>>(&mut self, flow: &F) -> Result<(), OutOfMemory>
        requires named { K.equations ≡ Some (F.equations flow.now) }
        requires kind { K.kind ≡ F.kind flow.now }
        requires home { AreHome self.old (F.equations flow.now).edges }
        ensures clean { OnOk result ((e : ℕ) → e < (F.equations flow.now).edges → is_dirty self.new e ≡ false) }
        ensures least { OnOk result (IsLeast (V.fits K.kind) V.below (F.equations flow.now) self.new.values) }
    {
        while self.step(flow)? {}
        Ok(())
    }

    /// Takes an edge and posts its flow. False where nothing is dirty.
    fn step<F: Flow<Value = V>>(&mut self, flow: &F) -> Result<bool, OutOfMemory>
        requires named { K.equations ≡ Some (F.equations flow.now) }
        requires kind { K.kind ≡ F.kind flow.now }
        requires home { AreHome self.old (F.equations flow.now).edges }
        ensures home { OnOk result (AreHome self.new (F.equations flow.now).edges) }
        ensures more { IfOk result (λ more. MatchBool more (work_left (V.rank K.kind) (F.equations flow.now) self.new.values (dirt self.new) < work_left (V.rank K.kind) (F.equations flow.now) self.old.values (dirt self.old)) (IsDone (V.fits K.kind) V.below (F.equations flow.now) self.new)) }
    {
        self.known();
        let Some(edge) = self.take() else {
            return Ok(false);
        };
        match self.source_copy(edge) {
            Ok(from) => match flow.flow(edge, &from) {
                Ok(found) => {
                    self.post(edge, &from, found)?;
                    Ok(true)
                }
                Err(error) => {
                    self.give_back(edge);
                    Err(error)
                }
            },
            Err(error) => {
                self.give_back(edge);
                Err(error)
            }
        }
    }

    /// The value of each node.
    pub fn into_assignment(self) -> Assignment<V>
        ensures { result ≡ self.values }
    {
        let Board {
            values,
            edges: _,
            outgoing: _,
            targets: _,
            of: _,
        } = self;
        Assignment::new(values)
    }
}
