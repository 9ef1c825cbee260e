//! Classes of items under plain numbers, with the items of each.

ghost use Rattle.std.specs.Prelude.{◌≡◌, ℕ, ◌<◌, ◌≤◌, ◌-◌, ◌^◌, IfOk, OnOk, Contains, filter, length};
ghost use Rattle.partition_refinement.specs.Relations.{class_of};
ghost use Rattle.partition_refinement.specs.Splitting.{AreItems, AreMembers, IsMoved, IsSet, is_of};

use crate::buckets::Buckets;
use crate::keys::class_of;
use std::alloc::{AllocError, Global as Heap};
use std::marker::Model;

/// Items of a class that went to a new one.
#[derive(Clone, Copy)]
pub(crate) struct Move {
    pub(crate) from: u32,
    pub(crate) to: u32,
}

/// Classes of items. The list of a class has all its items, and may have some that have gone since. The sizes serve the
/// choice of what moves alone.
#[derive(Drop)]
pub(crate) struct Partition {
    classes: Vec<u32>,
    members: Buckets,
    sizes: Vec<usize>,
}

impl Model for Partition {
    ghost use Rattle.std.specs.Prelude.{List, ℕ, length};
    ghost use Rattle.partition_refinement.specs.Splitting.{AreMembers};

    ghost Value = { List ℕ };

    ghost view = { λ p. p.classes.items };

    ghost invariant = { λ p. AreMembers p.classes.items p.members (length p.classes.items) };
}

/// Whether a number is the class of an item.
fn is_of(classes: &[u32], class: u32, item: u32) -> bool
    ensures { result ≡ is_of classes.now class item }
{
    (item as usize) < classes.len() && class_of(classes, item) == class
}

/// Those of these items that are of the class.
fn kept(alloc: Heap, classes: &[u32], class: u32, items: &[u32]) -> Result<Vec<u32>, AllocError>
    ensures { IfOk result (λ kept. kept.items ≡ filter (is_of classes.now class) items.now) }
{
    let mut kept = Vec::new(alloc);
    for item in items {
        if is_of(classes, class, *item) {
            kept.push(*item)?;
        }
    }
    Ok(kept)
}

/// Gives these items a class.
fn set_all(classes: &mut Vec<u32>, items: &[u32], class: u32)
    requires { (x : ℕ) → Contains items.now x → x < length classes.old.items }
    ensures { IsSet classes.old.items items.now class classes.new.items }
{
    for item in items {
        classes[*item as usize] = class;
    }
}

/// The items of each class.
fn members_of(alloc: Heap, classes: &[u32]) -> Result<Buckets, AllocError>
    requires few { length classes.now < 2 ^ 32 }
    requires low { (i : ℕ) → i < length classes.now → class_of classes.now i ≤ i }
    ensures { IfOk result (λ members. AreMembers classes.now members (length classes.now)) }
{
    let mut members = Buckets::new(alloc, classes.len())?;
    for (item, class) in classes.iter().enumerate() {
        members.push(*class as usize, item as u32)?;
    }
    Ok(members)
}

/// How long each list is.
fn sizes_of(alloc: Heap, members: &Buckets) -> Result<Vec<usize>, AllocError> {
    let mut sizes = Vec::new(alloc);
    for number in 0..members.len() {
        sizes.push(members.list(number).len())?;
    }
    Ok(sizes)
}

/// Takes so many off the size of a class.
fn lower(sizes: &mut Vec<usize>, class: u32, count: usize) {
    if let Some(size) = sizes.get_mut(class as usize) {
        *size = size.saturating_sub(count);
    }
}

impl Partition {
    /// These classes.
    pub(crate) fn new(alloc: Heap, classes: &[u32]) -> Result<Partition, AllocError>
        requires few { length classes.now < 2 ^ 32 }
        requires low { (i : ℕ) → i < length classes.now → class_of classes.now i ≤ i }
        ensures { IfOk result (λ p. p ≡ classes.now) }
    {
        let members = members_of(alloc, classes)?;
        let sizes = sizes_of(alloc, &members)?;
        let classes = Vec::from_slice(alloc, classes)?;
        Ok(Partition {
            classes,
            members,
            sizes,
        })
    }

    /// The class of each item.
    pub(crate) fn classes(&self) -> &[u32]
        ensures { result.now ≡ self.now }
    {
        self.classes.as_slice()
    }

    /// How many items a class has.
    pub(crate) fn size(&self, class: u32) -> usize {
        match self.sizes.get(class as usize) {
            Some(size) => *size,
            None => 0,
        }
    }

    /// The items of a class.
    pub(crate) fn items_of(&self, alloc: Heap, class: u32) -> Result<Vec<u32>, AllocError>
        ensures { IfOk result (λ items. AreItems self.now class items.items) }
    {
        if class as usize >= self.members.len() {
            return Ok(Vec::new(alloc));
        }
        let items = kept(
            alloc,
            self.classes.as_slice(),
            class,
            self.members.list(class as usize),
        )?;
        Ok(items)
    }

    /// Moves these items of a class to a new one, unless they are all of it, and answers its number. Where numbers have run
    /// out they stay.
    pub(crate) fn move_out(
        &mut self,
        alloc: Heap,
        items: &[u32],
    ) -> Result<Option<Move>, AllocError>
        requires { (x : ℕ) → Contains items.now x → x < length self.old }
        ensures { OnOk result (IsMoved self.old items.now self.new) }
    {
        let from = match items.first() {
            Some(item) => class_of(self.classes.as_slice(), *item),
            None => return Ok(None),
        };
        let to = self.members.len();
        let size = self.size(from);
        if items.len() >= size || to >= u32::MAX as usize {
            return Ok(None);
        }
        let list = Vec::from_slice(alloc, items)?;
        lower(&mut self.sizes, from, items.len());
        self.sizes.push(items.len())?;
        self.members.add(list)?;
        set_all(&mut self.classes, items, to as u32);
        Ok(Some(Move {
            from,
            to: to as u32,
        }))
    }
}
