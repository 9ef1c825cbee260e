//! Blocks with known constants put in.

ghost use Rattle.std.specs.Prelude.{◌≡◌, ◌<◌, ◌^◌, length, slice_get, Some, IfOk, OnOk, Ok};
ghost use Rattle.gimple_core.specs.Statements as check;
ghost use Rattle.gimple_claims.specs.Checks.{StmtsPass, BlockPasses, BlocksPass};
ghost use Rattle.gimple_claims.specs.Kept.{new_body};
ghost use Rattle.body_values.specs.Found.{found_row};
ghost use Rattle.block_flow.specs.System.{AreFew};
ghost use Rattle.body_values.specs.Scenes.{FitsIn};
ghost use Rattle.body_fold.specs.Blocks.{PointsFit, stmt_in, end_in, block_in, blocks_in};
ghost use Rattle.body_fold.specs.Fold.{stmt_at, end_at};
ghost use Rattle.body_fold.specs.Folders.{folding_in, IsFolder};

use crate::folder::Folder;
use body_values::{BodyValues, PointRow};
use fix_engine::Lifted;
use gimple_core::{Block, End, Exact, Listed, OutOfMemory, Stmt, Stmts};

impl<'a> Folder<'a> {
    /// The statement at a point, by the numbers of its block and of the index there, and by the values there. At a point
    /// that is not reached it stays.
    fn statement_at(
        &self,
        block: u32,
        index: u32,
        row: &PointRow,
        statement: &Stmt,
    ) -> Result<Stmt, OutOfMemory>
        requires folder { IsFolder self.now }
        requires fit { FitsIn self.now.scene row.now }
        requires passes { check.statement (folding_in self.now).env (folding_in self.now).names statement.now ≡ Ok tt }
        ensures { IfOk result (λ x. x ≡ stmt_at (folding_in self.now) block index statement.now row.now) }
    {
        match row {
            Lifted::Reached(row) => self.statement(block, index, row, statement),
            Lifted::NotReached => statement.copy(),
        }
    }

    /// The end of a block, by the values behind its statements. Where it is not reached it stays.
    fn end_at(&self, row: &PointRow, end: &End) -> Result<End, OutOfMemory>
        requires folder { IsFolder self.now }
        requires fit { FitsIn self.now.scene row.now }
        requires passes { check.ending (folding_in self.now).env end.now ≡ Ok tt }
        ensures { IfOk result (λ e. e ≡ end_at (folding_in self.now) end.now row.now) }
    {
        match row {
            Lifted::Reached(row) => self.end(row, end),
            Lifted::NotReached => end.copy(),
        }
    }

    /// The statements of a block. The values at its begin become those at its end.
    fn body(
        &self,
        values: &BodyValues,
        block: u32,
        body: &[Stmt],
        row: &mut PointRow,
    ) -> Result<Stmts, OutOfMemory>
        requires folder { IsFolder self.now }
        requires fit { PointsFit self.now.scene values.now }
        requires few { length body.now < 2 ^ 32 }
        requires passes { StmtsPass (folding_in self.now).env (folding_in self.now).names body.now }
        requires row { row.old ≡ found_row values.now.rows block 0 }
        ensures body { IfOk result (λ xs. xs ≡ new_body (stmt_in self.now values.now) block 0 body.now) }
        ensures row { OnOk result (row.new ≡ found_row values.now.rows block (length body.now)) }
    {
        let mut statements = Listed::new(self.scene.alloc);
        for index in 0..body.len() {
            let statement = self.statement_at(block, index as u32, row, &body[index])?;
            statements.push(statement)?;
            values.pass(block, index as u32, row)?;
        }
        Ok(statements)
    }

    /// The block of a number.
    fn block(&self, values: &BodyValues, number: u32, block: &Block) -> Result<Block, OutOfMemory>
        requires folder { IsFolder self.now }
        requires fit { PointsFit self.now.scene values.now }
        requires there { slice_get self.now.function.now.blocks number ≡ Some block.now }
        requires few { length block.now.body < 2 ^ 32 }
        requires passes { BlockPasses (folding_in self.now).env (folding_in self.now).names block.now }
        ensures { IfOk result (λ b. b ≡ block_in self.now values.now number block.now) }
    {
        let mut row = values.begin(number)?;
        let body = self.body(values, number, block.body.as_slice(), &mut row)?;
        let end = self.end_at(&row, &block.end)?;
        Ok(Block {
            label: block.label,
            body,
            end,
        })
    }

    /// All blocks of the function, by the values at each of its points.
    pub(crate) fn blocks(&self, values: &BodyValues) -> Result<Vec<Block>, OutOfMemory>
        requires folder { IsFolder self.now }
        requires fit { PointsFit self.now.scene values.now }
        requires few { AreFew self.now.function.now.blocks 0 }
        requires passes { BlocksPass (folding_in self.now).env (folding_in self.now).names self.now.function.now.blocks }
        ensures { IfOk result (λ blocks. blocks.items ≡ blocks_in self.now values.now) }
    {
        let from = self.function.blocks.as_slice();
        let mut blocks = Vec::new(self.scene.alloc);
        for number in 0..from.len() {
            let block = self.block(values, number as u32, &from[number])?;
            blocks.push(block)?;
        }
        Ok(blocks)
    }
}
