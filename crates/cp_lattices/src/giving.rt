//! What the calls of one function give to the formals of the functions that they call.

ghost use Rattle.std.specs.Prelude.{◌≡◌, ◌++◌, ◌<◌, ◌^◌, length, slice_get, IfOk, OnOk};
ghost use Rattle.block_flow.specs.System.{AreFew};
ghost use Rattle.body_values.specs.Found.{found_row};
ghost use Rattle.body_values.specs.Scenes.{body_in, Fit, FitsIn};
ghost use Rattle.cp_lattices.specs.Callers.{giver_in, IsCaller, PointsFit};
ghost use Rattle.cp_lattices.specs.GiftLists.{argument_gifts, given_to, jumps_there, call_gifts, statement_gifts, body_gifts, function_gifts};

use crate::caller::{Caller, NamedCall};
use crate::gift::Gift;
use body_symbols::{Jumps, Variables, jumps_of};
use body_values::{BodyValues, PointRow, ValueRow};
use fix_engine::Lifted;
use gimple_core::{Edge, Listed, Operands, OutOfMemory, Point, Stmt, Text};
use name_tables::{NamedGlobals, NamedLocals};

fn variables_of<'a, 'g, 'l>(
    globals: &'a NamedGlobals<'g>,
    locals: &'a NamedLocals<'l>,
) -> Variables<'a, 'g, 'l>
    requires globals { length globals.now < 2 ^ 32 }
    requires locals { length locals.now < 2 ^ 32 }
    ensures globals { result.globals.now ≡ globals.now }
    ensures locals { result.locals.now ≡ locals.now }
{
    Variables { globals, locals }
}

impl<'a> Caller<'a> {
    /// The jump functions of the call at a point.
    fn jumps(&self, point: Point) -> Result<Jumps, OutOfMemory>
        requires { IsCaller self.now }
        ensures { IfOk result (λ jumps. jumps ≡ jumps_there (giver_in self.now) point) }
    {
        let variables = variables_of(self.scene.globals, self.scene.locals);
        let edge = Edge {
            caller: self.number,
            point,
            callee: self.number,
        };
        let jumps = jumps_of(
            self.scene.alloc,
            self.scene.program,
            &variables,
            self.symbols,
            &edge,
        )?;
        Ok(jumps)
    }

    /// Puts what the argument of a number gives to the formal of that number, if both are there.
    fn put_argument(
        &self,
        call: &NamedCall,
        row: &ValueRow,
        formal: usize,
        gifts: &mut Listed<Gift>,
    ) -> Result<(), OutOfMemory>
        requires globals { length self.now.scene.globals.now < 2 ^ 32 }
        requires formals { length call.now.callee.now.params < 2 ^ 32 }
        requires fit { Fit self.now.scene row.now }
        ensures { OnOk result (gifts.new ≡ gifts.old ++ argument_gifts (body_in self.now.scene) self.now.number call.now.number formal row.now (slice_get call.now.callee.now.params formal) (slice_get call.now.arguments.now formal) (slice_get call.now.jumps.now formal)) }
    {
        let Some(register) = call.callee.params.get(formal) else {
            return Ok(());
        };
        let Some(argument) = call.arguments.get(formal) else {
            return Ok(());
        };
        let Some(jump) = call.jumps.get(formal) else {
            return Ok(());
        };
        let local = self.scene.operand(row, register.scalar, argument)?;
        gifts.push(Gift {
            caller: self.number,
            callee: call.number,
            formal: formal as u32,
            scalar: register.scalar,
            jump: *jump,
            local,
        })
    }

    /// Puts what all arguments of a call give.
    fn put_arguments(
        &self,
        call: &NamedCall,
        row: &ValueRow,
        gifts: &mut Listed<Gift>,
    ) -> Result<(), OutOfMemory>
        requires globals { length self.now.scene.globals.now < 2 ^ 32 }
        requires formals { length call.now.callee.now.params < 2 ^ 32 }
        requires fit { Fit self.now.scene row.now }
        ensures { OnOk result (gifts.new ≡ gifts.old ++ given_to (body_in self.now.scene) self.now.number call.now.number row.now call.now.callee.now.params call.now.arguments.now call.now.jumps.now) }
    {
        for formal in 0..call.arguments.len() {
            self.put_argument(call, row, formal, gifts)?;
        }
        Ok(())
    }

    /// Puts what the arguments of a call by name give, where the program has a function of the name.
    fn put_call(
        &self,
        point: Point,
        row: &ValueRow,
        name: &Text,
        arguments: &Operands,
        gifts: &mut Listed<Gift>,
    ) -> Result<(), OutOfMemory>
        requires caller { IsCaller self.now }
        requires fit { Fit self.now.scene row.now }
        ensures { OnOk result (gifts.new ≡ gifts.old ++ call_gifts (giver_in self.now) point row.now name.now arguments.now) }
    {
        let Some(place) = self.tables.function_place(name) else {
            return Ok(());
        };
        let Some(callee) = self.tables.program().functions.get(place) else {
            return Ok(());
        };
        let jumps = self.jumps(point)?;
        let call = NamedCall {
            number: place as u32,
            callee,
            arguments,
            jumps: &jumps,
        };
        self.put_arguments(&call, row, gifts)?;
        Ok(())
    }

    /// Puts what a statement gives, where it is a reached call by name.
    #[tactic(auto, unfolding(crate::specs::GiftLists::statement_gifts))]
    fn put_statement(
        &self,
        point: Point,
        row: &PointRow,
        statement: &Stmt,
        gifts: &mut Listed<Gift>,
    ) -> Result<(), OutOfMemory>
        requires caller { IsCaller self.now }
        requires fit { FitsIn self.now.scene row.now }
        ensures { OnOk result (gifts.new ≡ gifts.old ++ statement_gifts (giver_in self.now) point row.now statement.now) }
    {
        let Lifted::Reached(row) = row else {
            return Ok(());
        };
        match statement {
            Stmt::Call {
                to: _,
                callee,
                arguments,
            } => self.put_call(point, row, callee, arguments, gifts),
            _ => Ok(()),
        }
    }

    /// Puts what the statements of a block give. The jump function of an argument goes through the statements before its call.
    fn put_body(
        &self,
        values: &BodyValues,
        block: u32,
        body: &[Stmt],
        gifts: &mut Listed<Gift>,
    ) -> Result<(), OutOfMemory>
        requires caller { IsCaller self.now }
        requires fit { PointsFit self.now.scene values.now }
        requires few { length body.now < 2 ^ 32 }
        ensures { OnOk result (gifts.new ≡ gifts.old ++ body_gifts (giver_in self.now) (λ k i. found_row values.now.rows k i) block body.now) }
    {
        let mut row = values.begin(block)?;
        for index in 0..body.len() {
            let point = Point {
                function: self.number,
                block,
                index: index as u32,
            };
            self.put_statement(point, &row, &body[index], gifts)?;
            values.pass(block, index as u32, &mut row)?;
        }
        Ok(())
    }

    /// Puts what all calls of the function give behind other gifts, by the values at each of its points.
    pub(crate) fn put_all(
        &self,
        values: &BodyValues,
        gifts: &mut Listed<Gift>,
    ) -> Result<(), OutOfMemory>
        requires caller { IsCaller self.now }
        requires fit { PointsFit self.now.scene values.now }
        requires few { AreFew self.now.function.now.blocks 0 }
        ensures { OnOk result (gifts.new ≡ gifts.old ++ function_gifts (giver_in self.now) (λ k i. found_row values.now.rows k i)) }
    {
        let blocks = self.function.blocks.as_slice();
        for number in 0..blocks.len() {
            self.put_body(values, number as u32, blocks[number].body.as_slice(), gifts)?;
        }
        Ok(())
    }
}
