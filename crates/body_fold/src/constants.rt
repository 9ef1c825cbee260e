//! The constants that operands and results are known to be.

ghost use Rattle.std.specs.Prelude.{◌≡◌, ◌<◌, ◌^◌, length, IfOk, Ok};
ghost use Rattle.gimple_core.specs.Statements as check;
ghost use Rattle.value_domain.specs.Holding.{IsAllowed};
ghost use Rattle.body_values.specs.Bodies.{global_place, right_scalar, target_of};
ghost use Rattle.body_values.specs.Scenes.{body_in, Fit};
ghost use Rattle.body_fold.specs.Evaluation.{evaluated_arithmetic, evaluated_conversion, may_trap_here};
ghost use Rattle.body_fold.specs.Fold.{global_constant, known_register, known_operand, compared_constant, evaluated, never_traps, known_result, known_comparison, target_scalar};
ghost use Rattle.body_fold.specs.Folders.{folding_in, IsFolder};

use crate::evaluation::{arithmetic, comparison, conversion};
use crate::folder::Folder;
use body_values::{ValueRow, offset_of, scalar_of};
use gimple_core::{Cmp, Constant, Op, Operand, OutOfMemory, Scalar, Stmt, Text};
use value_domain::{known, may_trap};

impl<'a> Folder<'a> {
    /// The constant that a register is known to hold.
    #[tactic(auto, unfolding(crate::specs::Fold::known_register))]
    pub(crate) fn known_register(
        &self,
        row: &ValueRow,
        name: &Text,
    ) -> Result<Option<Constant>, OutOfMemory>
        requires folder { IsFolder self.now }
        requires fit { Fit self.now.scene row.now }
        ensures { IfOk result (λ c. c ≡ known_register (body_in self.now.scene) row.now name.now) }
    {
        self.scene.limits.known();
        let scalar = scalar_of(self.scene.registers, name);
        let value = self.scene.register(row, scalar, name)?;
        Ok(known(scalar, &value))
    }

    /// The address of a global at an offset, as a constant.
    fn global(&self, name: &Text, offset: i128) -> Option<Constant>
        requires few { length self.now.scene.globals.now < 2 ^ 32 }
        ensures { result ≡ global_constant (global_place self.now.scene.globals.now name.now) offset }
    {
        match self.scene.globals.place(name) {
            Some(number) => Some(Constant::Global {
                number: number as u32,
                offset: offset_of(offset),
            }),
            None => None,
        }
    }

    /// The constant that an operand is known to be.
    #[tactic(auto, unfolding(crate::specs::Fold::known_operand))]
    pub(crate) fn known_operand(
        &self,
        row: &ValueRow,
        operand: &Operand,
    ) -> Result<Option<Constant>, OutOfMemory>
        requires folder { IsFolder self.now }
        requires fit { Fit self.now.scene row.now }
        ensures { IfOk result (λ c. c ≡ known_operand (body_in self.now.scene) row.now operand.now) }
    {
        match operand {
            Operand::Reg(name) => self.known_register(row, name),
            Operand::Number(value) => Ok(Some(Constant::Int(*value))),
            Operand::Null => Ok(Some(Constant::Null)),
            Operand::Address { variable, offset } => {
                if self.scene.locals.has(variable) {
                    return Ok(None);
                }
                Ok(self.global(variable, *offset))
            }
        }
    }

    /// The result of an operator whose sides are both known; where it traps there is none.
    fn evaluated_arithmetic(
        &self,
        row: &ValueRow,
        scalar: Scalar,
        left: &Operand,
        op: Op,
        right: &Operand,
    ) -> Result<Option<Constant>, OutOfMemory>
        requires folder { IsFolder self.now }
        requires fit { Fit self.now.scene row.now }
        ensures { IfOk result (λ c. c ≡ evaluated_arithmetic (body_in self.now.scene).mode scalar (known_operand (body_in self.now.scene) row.now left.now) op (known_operand (body_in self.now.scene) row.now right.now)) }
    {
        let Some(first) = self.known_operand(row, left)? else {
            return Ok(None);
        };
        let Some(second) = self.known_operand(row, right)? else {
            return Ok(None);
        };
        Ok(arithmetic(self.scene.program.mode(), scalar, first, op, second))
    }

    /// The result of a conversion of a register that is known.
    fn evaluated_conversion(
        &self,
        row: &ValueRow,
        target: Scalar,
        from: &Operand,
    ) -> Result<Option<Constant>, OutOfMemory>
        requires folder { IsFolder self.now }
        requires fit { Fit self.now.scene row.now }
        ensures { IfOk result (λ c. c ≡ evaluated_conversion target (known_operand (body_in self.now.scene) row.now from.now)) }
    {
        match self.known_operand(row, from)? {
            Some(constant) => Ok(conversion(target, constant)),
            None => Ok(None),
        }
    }

    /// The result of a comparison whose sides are both known.
    #[tactic(auto, unfolding(crate::specs::Fold::compared_constant))]
    fn compared(
        &self,
        row: &ValueRow,
        left: &Operand,
        cmp: Cmp,
        right: &Operand,
    ) -> Result<Option<Constant>, OutOfMemory>
        requires folder { IsFolder self.now }
        requires fit { Fit self.now.scene row.now }
        ensures { IfOk result (λ c. c ≡ compared_constant (body_in self.now.scene) row.now left.now cmp right.now) }
    {
        let Some(first) = self.known_operand(row, left)? else {
            return Ok(None);
        };
        let Some(second) = self.known_operand(row, right)? else {
            return Ok(None);
        };
        Ok(comparison(first, cmp, second))
    }

    /// The result of a statement whose operands are all known; where it traps there is none.
    #[tactic(auto, unfolding(crate::specs::Fold::evaluated))]
    fn evaluated(
        &self,
        row: &ValueRow,
        scalar: Scalar,
        statement: &Stmt,
    ) -> Result<Option<Constant>, OutOfMemory>
        requires folder { IsFolder self.now }
        requires fit { Fit self.now.scene row.now }
        ensures { IfOk result (λ c. c ≡ evaluated (body_in self.now.scene) row.now scalar statement.now) }
    {
        match statement {
            Stmt::Copy { to: _, from } => self.known_operand(row, from),
            Stmt::Arith {
                to: _,
                left,
                op,
                right,
            } => self.evaluated_arithmetic(row, scalar, left, *op, right),
            Stmt::Compare {
                to: _,
                left,
                cmp,
                right,
            } => self.compared(row, left, *cmp, right),
            Stmt::Convert {
                to: _,
                scalar: target,
                from,
            } => self.evaluated_conversion(row, *target, from),
            _ => Ok(None),
        }
    }

    /// Whether an operator may trap by the values of its sides.
    fn may_trap(
        &self,
        row: &ValueRow,
        scalar: Scalar,
        left: &Operand,
        op: Op,
        right: &Operand,
    ) -> Result<bool, OutOfMemory>
        requires folder { IsFolder self.now }
        requires fit { Fit self.now.scene row.now }
        requires allowed { IsAllowed op scalar (right_scalar (body_in self.now.scene) scalar op right.now) }
        ensures { IfOk result (λ b. b ≡ may_trap_here (body_in self.now.scene) row.now scalar left.now op right.now) }
    {
        self.scene.limits.known();
        let other = self.scene.right_of(scalar, op, right);
        let first = self.scene.operand(row, scalar, left)?;
        let second = self.scene.operand(row, other, right)?;
        let mode = self.scene.program.mode();
        Ok(may_trap(mode, op, scalar, &first, &second))
    }

    /// Whether a statement that passes its checks has a result that can be known by its value, and cannot trap.
    #[tactic(auto, unfolding(crate::specs::Fold::never_traps))]
    fn never_traps(
        &self,
        row: &ValueRow,
        scalar: Scalar,
        statement: &Stmt,
    ) -> Result<bool, OutOfMemory>
        requires folder { IsFolder self.now }
        requires fit { Fit self.now.scene row.now }
        requires passes { check.statement (folding_in self.now).env (folding_in self.now).names statement.now ≡ Ok tt }
        requires scalar { scalar ≡ target_scalar (body_in self.now.scene) (target_of statement.now) }
        ensures { IfOk result (λ b. b ≡ never_traps (body_in self.now.scene) row.now scalar statement.now) }
    {
        match statement {
            Stmt::Copy { to: _, from: _ } => Ok(true),
            Stmt::Arith {
                to: _,
                left,
                op,
                right,
            } => {
                let traps = self.may_trap(row, scalar, left, *op, right)?;
                Ok(!traps)
            }
            Stmt::Compare {
                to: _,
                left: _,
                cmp: _,
                right: _,
            } => Ok(true),
            Stmt::Convert {
                to: _,
                scalar: _,
                from: _,
            } => Ok(true),
            _ => Ok(false),
        }
    }

    /// The known result of a statement that passes its checks and cannot trap, for a target of this scalar.
    #[tactic(auto, unfolding(crate::specs::Fold::known_result))]
    pub(crate) fn known_result(
        &self,
        block: u32,
        index: u32,
        row: &ValueRow,
        scalar: Scalar,
        statement: &Stmt,
    ) -> Result<Option<Constant>, OutOfMemory>
        requires folder { IsFolder self.now }
        requires fit { Fit self.now.scene row.now }
        requires passes { check.statement (folding_in self.now).env (folding_in self.now).names statement.now ≡ Ok tt }
        requires scalar { scalar ≡ target_scalar (body_in self.now.scene) (target_of statement.now) }
        ensures { IfOk result (λ c. c ≡ known_result (body_in self.now.scene) block index row.now scalar statement.now) }
    {
        self.scene.limits.known();
        if let Some(constant) = self.evaluated(row, scalar, statement)? {
            return Ok(Some(constant));
        }
        let certain = self.never_traps(row, scalar, statement)?;
        if !certain {
            return Ok(None);
        }
        let value = self.scene.result(block, index, row, scalar, statement)?;
        Ok(known(scalar, &value))
    }

    /// What a comparison is known to give, 1 or 0.
    #[tactic(auto, unfolding(crate::specs::Fold::known_comparison))]
    pub(crate) fn known_comparison(
        &self,
        row: &ValueRow,
        left: &Operand,
        cmp: Cmp,
        right: &Operand,
    ) -> Result<Option<Constant>, OutOfMemory>
        requires folder { IsFolder self.now }
        requires fit { Fit self.now.scene row.now }
        ensures { IfOk result (λ c. c ≡ known_comparison (body_in self.now.scene) row.now left.now cmp right.now) }
    {
        self.scene.limits.known();
        if let Some(constant) = self.compared(row, left, cmp, right)? {
            return Ok(Some(constant));
        }
        let value = self.scene.comparison(row, Scalar::I32, left, cmp, right)?;
        Ok(known(Scalar::I32, &value))
    }
}
