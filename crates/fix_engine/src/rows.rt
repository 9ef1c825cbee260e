ghost use Rattle.std.specs.Prelude.{◌≡◌, ℕ, List, Bool, IfOk, OnOk, OnErr, length};
ghost use Rattle.fix_engine.specs.Lattice.{LatticeLaws};
ghost use Rattle.fix_engine.specs.Rows.{Each, FitsRows, rows_height, rows_rank, rows_below, rows_joined, rows_laws};

use crate::lattice::{Lattice, OutOfMemory};
use std::alloc::Global;
use std::marker::Model;

/// A list of values, all of one kind. Lists of one length are compared and joined item by item.
/// Its kind is the length, and then the kind of the values. The height is the length times theirs.
#[derive(Drop)]
pub struct Rows<V: Lattice> {
    items: Vec<V>,
}

impl<V: Lattice> Model for Rows<V> {
    ghost use Rattle.std.specs.Prelude.{List};

    ghost Value = { List V };

    ghost view = { λ r. r.items.items };
}

impl<V: Lattice> Rows<V> {
    ghost use Rattle.std.specs.Prelude.{◌<◌, slice_set};

    pub fn new(items: Vec<V>) -> Rows<V>
        ensures { result ≡ items.items }
    {
        Rows { items }
    }

    pub fn as_slice(&self) -> &[V]
        ensures { result.now ≡ self.now }
    {
        self.items.as_slice()
    }

    pub fn into_vec(self) -> Vec<V>
        ensures { result.items ≡ self }
    {
        let Rows { items } = self;
        items
    }

    /// Replaces the value at an index.
    pub fn set(&mut self, index: usize, value: V)
        requires { index < length self.old }
        ensures { self.new ≡ slice_set self.old index value }
    {
        self.items[index] = value;
    }
}

impl<V: Lattice> Lattice for Rows<V> {
    ghost fits = { FitsRows V.fits };

    ghost height = { rows_height V.height };

    ghost rank = { rows_rank V.rank };

    ghost below = { rows_below V.below };

    ghost joined = { rows_joined V.joined };

    ghost laws = { rows_laws V.laws };

    fn join(&mut self, other: &Rows<V>) -> Result<(), OutOfMemory> {
        let alloc = *self.items.allocator();
        let next = joined_items(alloc, self.items.as_slice(), other.items.as_slice())?;
        self.items = next;
        Ok(())
    }

    fn leq(&self, other: &Rows<V>) -> bool {
        leq_items(self.items.as_slice(), other.items.as_slice())
    }

    fn copy(&self) -> Result<Rows<V>, OutOfMemory> {
        let mut items = Vec::new(*self.items.allocator());
        for item in &self.items {
            items.push(item.copy()?)?;
        }
        Ok(Rows { items })
    }
}

fn joined_items<V: Lattice>(alloc: Global, xs: &[V], ys: &[V]) -> Result<Vec<V>, OutOfMemory>
    requires same { length xs.now ≡ length ys.now }
    requires fits { (k : List ℕ) × Each (V.fits k) xs.now × Each (V.fits k) ys.now }
    ensures { IfOk result (λ v. v.items ≡ rows_joined V.joined xs.now ys.now) }
{
    let mut next = Vec::new(alloc);
    for i in 0..xs.len() {
        let mut item = xs[i].copy()?;
        item.join(&ys[i])?;
        next.push(item)?;
    }
    Ok(next)
}

fn leq_items<V: Lattice>(xs: &[V], ys: &[V]) -> bool
    requires same { length xs.now ≡ length ys.now }
    requires fits { (k : List ℕ) × Each (V.fits k) xs.now × Each (V.fits k) ys.now }
    ensures { result ≡ rows_below V.below xs.now ys.now }
{
    for i in 0..xs.len() {
        if !xs[i].leq(&ys[i]) {
            return false;
        }
    }
    true
}
