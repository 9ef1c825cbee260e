//! The values at the points of a block: those at its begin, and what each statement changes.

ghost use Rattle.std.specs.Prelude.{◌≡◌, ◌+◌, OnOk, OnErr, IfOk, slice_get, slice_set};
ghost use Rattle.std.specs.List.{list_any};
ghost use Rattle.std.specs.Option.{option_copied};
ghost use Rattle.body_values.specs.Changed.{changed, rows_by, value_after, value_through, is_end, reached_through};
ghost use Rattle.body_values.specs.declared.block_values.Change.TheVariants.{Sets};
ghost use Rattle.block_flow.specs.System.{value_or};
ghost use Rattle.body_values.specs.Found.{value_of};
ghost use Rattle.body_values.specs.FoundWhere.{is_reached};

use crate::value_row::{SharedVal, ValueRow};
use fix_engine::{Lattice, Lifted};
use gimple_core::{Listed, OutOfMemory};
use std::marker::Model;
use value_domain::AbsVal;

/// The values of all registers of a function at a point, the formals first, or that the point is not reached.
pub type PointRow = Lifted<ValueRow>;

/// What a statement changes in the values of registers.
#[derive(Drop)]
pub(crate) enum Change {
    /// No value.
    Nothing,
    /// The value of the register of this number.
    Sets { place: usize, value: SharedVal },
    /// The point behind the statement is not reached.
    Ends,
}

/// The values at the points of a block: those at its begin, and what each statement changes in those before it. So
/// they take the memory of one row of pointers, and of one value a statement.
#[derive(Drop)]
pub(crate) struct BlockValues {
    begin: PointRow,
    changes: Listed<Change>,
}

impl Model for BlockValues {
    ghost use Rattle.std.specs.Prelude.{List};
    ghost use Rattle.fix_engine.specs.declared.lifted.Lifted.{Lifted};
    ghost use Rattle.value_domain.specs.declared.abs_val.AbsVal.{AbsVal};

    ghost Value = { List (Lifted (List AbsVal)) };

    ghost use Rattle.body_values.specs.Changed.{rows_by};

    ghost view = { λ b. rows_by b.begin b.changes };
}

/// The value of a register after a change.
fn value_after<'a>(
    value: Option<&'a AbsVal>,
    change: &'a Change,
    place: usize,
) -> Option<&'a AbsVal>
    ensures { option_copied result ≡ value_after place (option_copied value.entry) change.now }
{
    let Some(old) = value else {
        return None;
    };
    match change {
        Change::Nothing => Some(old),
        Change::Sets {
            place: at,
            value: new,
        } => {
            if *at == place {
                Some(new.get())
            } else {
                Some(old)
            }
        }
        Change::Ends => None,
    }
}

/// The value of a register in a row.
fn value_of(row: &PointRow, place: usize) -> Option<&AbsVal>
    ensures { option_copied result ≡ value_of place row.now }
{
    match row {
        Lifted::NotReached => None,
        Lifted::Reached(values) => values.get(place),
    }
}

/// The value of a register after changes, by the row before them.
fn value_through<'a>(begin: &'a PointRow, changes: &'a [Change], place: usize) -> Option<&'a AbsVal>
    ensures { option_copied result ≡ value_through place (value_of place begin.now) changes.now }
{
    let mut value = value_of(begin, place);
    for change in changes {
        value = value_after(value, change, place);
    }
    value
}

fn ends(change: &Change) -> bool
    ensures { result ≡ is_end change.now }
{
    match change {
        Change::Ends => true,
        _ => false,
    }
}

fn some_end(changes: &[Change]) -> bool
    ensures { result ≡ list_any is_end changes.now }
{
    changes.iter().any(|change| ends(change))
}

/// Whether a point is reached after changes, by the row before them.
fn reached_through(begin: &PointRow, changes: &[Change]) -> bool
    ensures { result ≡ reached_through begin.now changes.now }
{
    match begin {
        Lifted::NotReached => false,
        Lifted::Reached(_) => !some_end(changes),
    }
}

/// Puts a copy of a value in the place of the one at a number, where the point is reached and there is one. After Err
/// nothing has changed.
fn set_copy(row: &mut PointRow, place: usize, value: &SharedVal) -> Result<(), OutOfMemory>
    ensures ok { OnOk result (row.new ≡ changed row.old (Sets place value.now)) }
    ensures err { OnErr result (row.new ≡ row.old) }
{
    let Lifted::Reached(values) = row else {
        return Ok(());
    };
    if place < values.len() {
        values.set(place, value.copy()?);
    }
    Ok(())
}

impl Change {
    /// Makes the values before a statement those behind it. After Err they are unchanged.
    fn apply(&self, row: &mut PointRow) -> Result<(), OutOfMemory>
        ensures ok { OnOk result (row.new ≡ changed row.old self.now) }
        ensures err { OnErr result (row.new ≡ row.old) }
    {
        match self {
            Change::Nothing => Ok(()),
            Change::Sets { place, value } => set_copy(row, *place, value),
            Change::Ends => {
                *row = Lifted::NotReached;
                Ok(())
            }
        }
    }
}

impl BlockValues {
    /// The values by those at the begin of a block, and by what each of its statements changes.
    pub(crate) fn new(begin: PointRow, changes: Listed<Change>) -> BlockValues
        ensures { result ≡ rows_by begin changes }
    {
        BlockValues { begin, changes }
    }

    /// The value of a register at an index. None exactly where the point is not reached or there is no register of the
    /// number; an index past the end is not reached.
    pub(crate) fn at(&self, index: usize, place: usize) -> Option<&AbsVal>
        ensures { option_copied result ≡ value_of place (value_or (slice_get self.now index)) }
    {
        let changes = self.changes.as_slice();
        if changes.len() < index {
            return None;
        }
        value_through(&self.begin, &changes[..index], place)
    }

    /// Whether an index is reached.
    pub(crate) fn reached(&self, index: usize) -> bool
        ensures { result ≡ is_reached (value_or (slice_get self.now index)) }
    {
        let changes = self.changes.as_slice();
        if changes.len() < index {
            return false;
        }
        reached_through(&self.begin, &changes[..index])
    }

    /// A copy of the values at the begin. Err is want of memory.
    pub(crate) fn begin(&self) -> Result<PointRow, OutOfMemory>
        ensures { IfOk result (λ row. row ≡ value_or (slice_get self.now 0)) }
    {
        self.begin.copy()
    }

    /// Makes the values at an index those at the next one. After Err, which is want of memory, they are unchanged.
    pub(crate) fn pass(&self, index: usize, row: &mut PointRow) -> Result<(), OutOfMemory>
        requires { row.old ≡ value_or (slice_get self.now index) }
        ensures ok { OnOk result (row.new ≡ value_or (slice_get self.now (index + 1))) }
        ensures err { OnErr result (row.new ≡ row.old) }
    {
        match self.changes.get(index) {
            Some(change) => change.apply(row),
            None => {
                *row = Lifted::NotReached;
                Ok(())
            }
        }
    }
}
