//! The values at each point of a body.

ghost use Rattle.std.specs.Prelude.{◌≡◌, ◌<◌, ◌^◌, length, IfOk, OnOk};
ghost use Rattle.fix_engine.specs.Rows.{Each};
ghost use Rattle.block_flow.specs.Steps.{where_reached};
ghost use Rattle.block_flow.specs.System.{AreFew};
ghost use Rattle.body_values.specs.Bodies.{target_of, after_stmt};
ghost use Rattle.body_values.specs.Changed.{changed, change_of, rows_by};
ghost use Rattle.body_values.specs.Scenes.{body_in, FitsIn, IsReady};
ghost use Rattle.body_values.specs.PointRows.{rows_from, block_rows};

use crate::block_values::{BlockValues, Change, PointRow};
use crate::changes::target;
use crate::scene::Scene;
use crate::value_row::ValueRow;
use fix_engine::{Lattice, Lifted};
use gimple_core::{Block, Listed, OutOfMemory, Stmt};

impl<'a> Scene<'a> {
    /// What a statement behind which the next point is reached has changed, by the values there.
    fn change_of(&self, statement: &Stmt, row: &ValueRow) -> Result<Change, OutOfMemory>
        ensures { IfOk result (λ c. c ≡ change_of self.now.registers.now (target_of statement.now) row.now) }
    {
        let Some(to) = target(statement) else {
            return Ok(Change::Nothing);
        };
        let place = self.registers.place(to);
        match row.shared(place) {
            Some(value) => Ok(Change::Sets {
                place,
                value: value.copy()?,
            }),
            None => Ok(Change::Nothing),
        }
    }

    /// Makes the values before a statement those behind it, and says what it has changed.
    fn through(
        &self,
        block: u32,
        index: u32,
        statement: &Stmt,
        row: &mut PointRow,
    ) -> Result<Change, OutOfMemory>
        requires ready { IsReady self.now }
        requires fit { FitsIn self.now row.old }
        ensures after { OnOk result (row.new ≡ where_reached row.old (after_stmt (body_in self.now) block index statement.now)) }
        ensures change { IfOk result (λ c. row.new ≡ changed row.old c) }
        ensures fit { OnOk result (FitsIn self.now row.new) }
    {
        let Lifted::Reached(values) = row else {
            return Ok(Change::Ends);
        };
        if self.after(block, index, statement, values)? {
            let change = self.change_of(statement, values)?;
            return Ok(change);
        }
        *row = Lifted::NotReached;
        Ok(Change::Ends)
    }

    /// What each statement of a block changes, by the values at its begin.
    fn changes(
        &self,
        block: u32,
        body: &[Stmt],
        begin: &PointRow,
    ) -> Result<Listed<Change>, OutOfMemory>
        requires ready { IsReady self.now }
        requires fit { FitsIn self.now begin.now }
        requires few { length body.now < 2 ^ 32 }
        ensures { IfOk result (λ changes. rows_by begin.now changes ≡ rows_from (body_in self.now) block 0 body.now begin.now) }
    {
        let mut changes = Listed::new(self.alloc);
        let mut row = begin.copy()?;
        for index in 0..body.len() {
            let change = self.through(block, index as u32, &body[index], &mut row)?;
            changes.push(change)?;
        }
        Ok(changes)
    }

    /// The values before each statement of a block, and at its end, by those at its begin.
    fn rows_in_block(
        &self,
        block: u32,
        body: &[Stmt],
        begin: PointRow,
    ) -> Result<BlockValues, OutOfMemory>
        requires ready { IsReady self.now }
        requires fit { FitsIn self.now begin }
        requires few { length body.now < 2 ^ 32 }
        ensures { IfOk result (λ rows. rows ≡ rows_from (body_in self.now) block 0 body.now begin) }
    {
        let changes = self.changes(block, body, &begin)?;
        Ok(BlockValues::new(begin, changes))
    }

    /// The values at each index of each block, by those at the begins of blocks.
    pub(crate) fn rows(
        &self,
        blocks: &[Block],
        begins: Vec<PointRow>,
    ) -> Result<Listed<BlockValues>, OutOfMemory>
        requires ready { IsReady self.now }
        requires blocks { AreFew blocks.now 0 }
        requires fit { Each (FitsIn self.now) begins.items }
        ensures { IfOk result (λ rows. rows ≡ block_rows (body_in self.now) 0 blocks.now begins.items) }
    {
        let mut rows = Listed::new(self.alloc);
        for (block, begin) in blocks.iter().zip(begins) {
            let number = rows.len() as u32;
            let values = self.rows_in_block(number, block.body.as_slice(), begin)?;
            rows.push(values)?;
        }
        Ok(rows)
    }
}
