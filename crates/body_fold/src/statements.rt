//! Statements with known constants put in.

ghost use Rattle.std.specs.Prelude.{◌≡◌, IfOk, Ok, Some};
ghost use Rattle.gimple_core.specs.Statements as check;
ghost use Rattle.body_values.specs.Bodies.{register_scalar, target_of};
ghost use Rattle.body_values.specs.Scenes.{body_in, Fit};
ghost use Rattle.body_fold.specs.Fold.{with_operands, with_result, target_scalar, folded_stmt};
ghost use Rattle.body_fold.specs.Folders.{folding_in, IsFolder};

use crate::folder::Folder;
use crate::places::Access;
use body_values::{ValueRow, scalar_of, target};
use gimple_core::{
    Cmp, Exact, Op, Operand, Operands, OutOfMemory, Place, Scalar, Signature, Stmt, Text,
};

impl<'a> Folder<'a> {
    /// A copy, with a constant in the place of what is copied.
    #[tactic(auto, unfolding(crate::specs::Fold::with_operands))]
    fn copied(
        &self,
        row: &ValueRow,
        scalar: Scalar,
        to: &Text,
        from: &Operand,
    ) -> Result<Stmt, OutOfMemory>
        requires folder { IsFolder self.now }
        requires fit { Fit self.now.scene row.now }
        ensures { IfOk result (λ x. x ≡ with_operands (folding_in self.now) row.now scalar (Stmt.Copy to.now from.now)) }
    {
        Ok(Stmt::Copy {
            to: to.copy()?,
            from: self.operand(row, scalar, from)?,
        })
    }

    /// An operator, with constants in the places of its sides.
    #[tactic(auto, unfolding(crate::specs::Fold::with_operands))]
    fn computed(
        &self,
        row: &ValueRow,
        scalar: Scalar,
        to: &Text,
        left: &Operand,
        op: Op,
        right: &Operand,
    ) -> Result<Stmt, OutOfMemory>
        requires folder { IsFolder self.now }
        requires fit { Fit self.now.scene row.now }
        ensures { IfOk result (λ x. x ≡ with_operands (folding_in self.now) row.now scalar (Stmt.Arith to.now left.now op right.now)) }
    {
        Ok(Stmt::Arith {
            to: to.copy()?,
            left: self.operand(row, scalar, left)?,
            op,
            right: self.right(row, scalar, op, right)?,
        })
    }

    /// A comparison, with a constant in the place of one side.
    #[tactic(auto, unfolding(crate::specs::Fold::with_operands))]
    fn decided(
        &self,
        row: &ValueRow,
        scalar: Scalar,
        to: &Text,
        left: &Operand,
        cmp: Cmp,
        right: &Operand,
    ) -> Result<Stmt, OutOfMemory>
        requires folder { IsFolder self.now }
        requires fit { Fit self.now.scene row.now }
        ensures { IfOk result (λ x. x ≡ with_operands (folding_in self.now) row.now scalar (Stmt.Compare to.now left.now cmp right.now)) }
    {
        let sides = self.sides(row, left, cmp, right)?;
        Ok(Stmt::Compare {
            to: to.copy()?,
            left: sides.left,
            cmp,
            right: sides.right,
        })
    }

    /// A load, by the variable to which its base is known to point.
    #[tactic(auto, unfolding(crate::specs::Fold::with_operands))]
    fn loaded(
        &self,
        row: &ValueRow,
        scalar: Scalar,
        to: &Text,
        from: Scalar,
        place: &Place,
    ) -> Result<Stmt, OutOfMemory>
        requires folder { IsFolder self.now }
        requires fit { Fit self.now.scene row.now }
        ensures { IfOk result (λ x. x ≡ with_operands (folding_in self.now) row.now scalar (Stmt.Load to.now from place.now)) }
    {
        Ok(Stmt::Load {
            to: to.copy()?,
            scalar: from,
            place: self.place(row, Access::Load, from, place)?,
        })
    }

    /// A store, by the variable to which its base is known to point, with a constant in the place of what is stored.
    #[tactic(auto, unfolding(crate::specs::Fold::with_operands))]
    fn stored(
        &self,
        row: &ValueRow,
        scalar: Scalar,
        at: Scalar,
        place: &Place,
        from: &Operand,
    ) -> Result<Stmt, OutOfMemory>
        requires folder { IsFolder self.now }
        requires fit { Fit self.now.scene row.now }
        ensures { IfOk result (λ x. x ≡ with_operands (folding_in self.now) row.now scalar (Stmt.Store at place.now from.now)) }
    {
        Ok(Stmt::Store {
            scalar: at,
            place: self.place(row, Access::Store, at, place)?,
            from: self.operand(row, at, from)?,
        })
    }

    /// A call, with constants in the places of arguments.
    #[tactic(auto, unfolding(crate::specs::Fold::with_operands))]
    fn called(
        &self,
        row: &ValueRow,
        scalar: Scalar,
        to: &Option<Text>,
        callee: &Text,
        arguments: &Operands,
    ) -> Result<Stmt, OutOfMemory>
        requires folder { IsFolder self.now }
        requires fit { Fit self.now.scene row.now }
        ensures { IfOk result (λ x. x ≡ with_operands (folding_in self.now) row.now scalar (Stmt.Call to.now callee.now arguments.now)) }
    {
        let formals = self.formals(callee)?;
        Ok(Stmt::Call {
            to: to.copy()?,
            callee: callee.copy()?,
            arguments: self.arguments(row, formals.as_slice(), arguments.as_slice())?,
        })
    }

    /// A call through a register, with constants in the places of arguments.
    #[tactic(auto, unfolding(crate::specs::Fold::with_operands))]
    fn called_through(
        &self,
        row: &ValueRow,
        scalar: Scalar,
        to: &Option<Text>,
        signature: &Signature,
        callee: &Text,
        arguments: &Operands,
    ) -> Result<Stmt, OutOfMemory>
        requires folder { IsFolder self.now }
        requires fit { Fit self.now.scene row.now }
        ensures { IfOk result (λ x. x ≡ with_operands (folding_in self.now) row.now scalar (Stmt.Indirect to.now signature.now callee.now arguments.now)) }
    {
        let written = signature.params.as_slice();
        Ok(Stmt::Indirect {
            to: to.copy()?,
            signature: signature.copy()?,
            callee: callee.copy()?,
            arguments: self.arguments(row, written, arguments.as_slice())?,
        })
    }

    /// What is printed, with a constant in its place.
    #[tactic(auto, unfolding(crate::specs::Fold::with_operands))]
    fn put_out(&self, row: &ValueRow, scalar: Scalar, from: &Operand) -> Result<Stmt, OutOfMemory>
        requires folder { IsFolder self.now }
        requires fit { Fit self.now.scene row.now }
        ensures { IfOk result (λ x. x ≡ with_operands (folding_in self.now) row.now scalar (Stmt.Put from.now)) }
    {
        Ok(Stmt::Put {
            from: self.printed(row, from)?,
        })
    }

    /// A statement with constants in the places of operands and of a base, for a target of this scalar.
    #[tactic(auto, unfolding(crate::specs::Fold::with_operands))]
    fn with_operands(
        &self,
        row: &ValueRow,
        scalar: Scalar,
        statement: &Stmt,
    ) -> Result<Stmt, OutOfMemory>
        requires folder { IsFolder self.now }
        requires fit { Fit self.now.scene row.now }
        ensures { IfOk result (λ x. x ≡ with_operands (folding_in self.now) row.now scalar statement.now) }
    {
        match statement {
            Stmt::Copy { to, from } => self.copied(row, scalar, to, from),
            Stmt::Arith {
                to,
                left,
                op,
                right,
            } => self.computed(row, scalar, to, left, *op, right),
            Stmt::Compare {
                to,
                left,
                cmp,
                right,
            } => self.decided(row, scalar, to, left, *cmp, right),
            Stmt::Convert {
                to: _,
                scalar: _,
                from: _,
            } => statement.copy(),
            Stmt::Load {
                to,
                scalar: from,
                place,
            } => self.loaded(row, scalar, to, *from, place),
            Stmt::Store {
                scalar: at,
                place,
                from,
            } => self.stored(row, scalar, *at, place, from),
            Stmt::Call {
                to,
                callee,
                arguments,
            } => self.called(row, scalar, to, callee, arguments),
            Stmt::Indirect {
                to,
                signature,
                callee,
                arguments,
            } => self.called_through(row, scalar, to, signature, callee, arguments),
            Stmt::Get { to: _ } => statement.copy(),
            Stmt::Put { from } => self.put_out(row, scalar, from),
            Stmt::Abort => statement.copy(),
        }
    }

    /// A statement that assigns a register: its known result, where that passes the check, else with constants in the
    /// places of operands.
    fn with_result(
        &self,
        block: u32,
        index: u32,
        row: &ValueRow,
        to: &Text,
        statement: &Stmt,
    ) -> Result<Stmt, OutOfMemory>
        requires folder { IsFolder self.now }
        requires fit { Fit self.now.scene row.now }
        requires passes { check.statement (folding_in self.now).env (folding_in self.now).names statement.now ≡ Ok tt }
        requires target { Some to.now ≡ target_of statement.now }
        ensures { IfOk result (λ x. x ≡ with_result (folding_in self.now) block index row.now statement.now (Some to.now) (register_scalar self.now.scene.registers.now to.now)) }
    {
        let scalar = scalar_of(self.scene.registers, to);
        let known = self.known_result(block, index, row, scalar, statement)?;
        match self.constant_operand(known)? {
            None => self.with_operands(row, scalar, statement),
            Some(constant) => {
                if self.admits(scalar, &constant) {
                    return Ok(Stmt::Copy {
                        to: to.copy()?,
                        from: constant,
                    });
                }
                self.with_operands(row, scalar, statement)
            }
        }
    }

    /// A statement at a point that is reached, by the numbers of its block and of the index there, with the values of all
    /// registers.
    #[tactic(auto, unfolding(crate::specs::Fold::folded_stmt))]
    pub(crate) fn statement(
        &self,
        block: u32,
        index: u32,
        row: &ValueRow,
        statement: &Stmt,
    ) -> Result<Stmt, OutOfMemory>
        requires folder { IsFolder self.now }
        requires fit { Fit self.now.scene row.now }
        requires passes { check.statement (folding_in self.now).env (folding_in self.now).names statement.now ≡ Ok tt }
        ensures { IfOk result (λ x. x ≡ folded_stmt (folding_in self.now) block index row.now statement.now) }
    {
        match target(statement) {
            None => self.with_operands(row, Scalar::I64, statement),
            Some(to) => self.with_result(block, index, row, to, statement),
        }
    }
}
