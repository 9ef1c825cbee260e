//! The values after a statement.

ghost use Rattle.std.specs.Prelude.{◌≡◌, ◌<◌, ◌^◌, length, IfOk, OnOk, MatchBool, true, false, not, ◌&&◌};
ghost use Rattle.gimple_core.specs.Statements.{is_shift, is_add};
ghost use Rattle.fix_engine.specs.declared.lifted.Lifted.{Lifted};
ghost use Rattle.fix_engine.specs.declared.lifted.Lifted.TheVariants.{NotReached, Reached};
ghost use Rattle.value_domain.specs.Holding.{is_equality};
ghost use Rattle.value_domain.specs.Values.{FitsWith};
ghost use Rattle.body_values.specs.Bodies.{count_scalar, right_scalar, is_lawful, arith_value, sides_scalar, may_compare, compare_value, source_scalar, convert_value};
ghost use Rattle.body_values.specs.Scenes.{body_in, Fit};

use crate::scene::{Scene, pointer, scalar_of};
use crate::value_row::ValueRow;
use gimple_core::{Cmp, Op, Operand, OutOfMemory, Scalar};
use value_domain::{AbsVal, abs_cmp, abs_convert, abs_op, top};

fn shifts(op: Op) -> bool
    ensures { result ≡ is_shift op }
{
    match op {
        Op::Shl | Op::Shr => true,
        _ => false,
    }
}

fn adds(op: Op) -> bool
    ensures { result ≡ is_add op }
{
    match op {
        Op::Add => true,
        _ => false,
    }
}

fn lawful(op: Op, scalar: Scalar, other: Scalar) -> bool
    ensures { result ≡ is_lawful op scalar other }
{
    if pointer(scalar) {
        adds(op)
    } else {
        !pointer(other)
    }
}

fn equality(cmp: Cmp) -> bool
    ensures { result ≡ is_equality cmp }
{
    match cmp {
        Cmp::Eq | Cmp::Ne => true,
        _ => false,
    }
}

/// Whether values of a scalar are compared so.
pub fn comparable(cmp: Cmp, scalar: Scalar) -> bool
    ensures { result ≡ may_compare cmp scalar }
{
    !pointer(scalar) || equality(cmp)
}

impl<'a> Scene<'a> {
    fn count_of(&self, scalar: Scalar, operand: &Operand) -> Scalar
        ensures { result ≡ count_scalar (body_in self.now) scalar operand.now }
    {
        match operand {
            Operand::Reg(name) => scalar_of(self.registers, name),
            _ => scalar,
        }
    }

    /// The scalar of the right side of an operator.
    pub fn right_of(&self, scalar: Scalar, op: Op, right: &Operand) -> Scalar
        ensures { result ≡ right_scalar (body_in self.now) scalar op right.now }
    {
        if pointer(scalar) {
            return Scalar::I64;
        }
        if shifts(op) {
            self.count_of(scalar, right)
        } else {
            scalar
        }
    }

    /// The scalar of both sides of a comparison.
    pub fn sides_of(&self, left: &Operand, right: &Operand) -> Scalar
        ensures { result ≡ sides_scalar (body_in self.now) left.now right.now }
    {
        match (left, right) {
            (Operand::Reg(name), _) => scalar_of(self.registers, name),
            (_, Operand::Reg(name)) => scalar_of(self.registers, name),
            (_, _) => Scalar::Ptr,
        }
    }

    /// The scalar of a register that is converted.
    pub fn source_of(&self, operand: &Operand) -> Scalar
        ensures { result ≡ source_scalar (body_in self.now) operand.now }
    {
        match operand {
            Operand::Reg(name) => scalar_of(self.registers, name),
            _ => Scalar::Ptr,
        }
    }

    /// The result of an operator.
    #[tactic(auto, unfolding(crate::specs::Bodies::arith_value))]
    pub fn arithmetic(
        &self,
        row: &ValueRow,
        scalar: Scalar,
        left: &Operand,
        op: Op,
        right: &Operand,
    ) -> Result<AbsVal, OutOfMemory>
        requires few { length self.now.globals.now < 2 ^ 32 }
        requires fit { Fit self.now row.now }
        ensures { IfOk result (λ v. v ≡ arith_value (body_in self.now) row.now scalar (right_scalar (body_in self.now) scalar op right.now) left.now op right.now) }
    {
        let other = self.right_of(scalar, op, right);
        if !lawful(op, scalar, other) {
            return Ok(top(scalar));
        }
        let first = self.operand(row, scalar, left)?;
        let second = self.operand(row, other, right)?;
        let mode = self.program.mode();
        abs_op(
            self.alloc,
            mode,
            op,
            scalar,
            other,
            &first,
            &second,
            self.limits,
        )
    }

    /// The result of a comparison of values of a scalar.
    #[tactic(auto, unfolding(crate::specs::Bodies::compare_value))]
    pub fn comparison(
        &self,
        row: &ValueRow,
        target: Scalar,
        left: &Operand,
        cmp: Cmp,
        right: &Operand,
    ) -> Result<AbsVal, OutOfMemory>
        requires few { length self.now.globals.now < 2 ^ 32 }
        requires fit { Fit self.now row.now }
        ensures { IfOk result (λ v. v ≡ compare_value (body_in self.now) row.now target (sides_scalar (body_in self.now) left.now right.now) left.now cmp right.now) }
    {
        let scalar = self.sides_of(left, right);
        if pointer(target) {
            return Ok(top(target));
        }
        if !comparable(cmp, scalar) {
            return Ok(top(target));
        }
        let first = self.operand(row, scalar, left)?;
        let second = self.operand(row, scalar, right)?;
        abs_cmp(
            self.alloc,
            target,
            cmp,
            scalar,
            &first,
            &second,
            self.limits,
        )
    }

    /// The result of a conversion.
    #[tactic(auto, unfolding(crate::specs::Bodies::convert_value))]
    pub fn conversion(
        &self,
        row: &ValueRow,
        target: Scalar,
        from: &Operand,
    ) -> Result<AbsVal, OutOfMemory>
        requires few { length self.now.globals.now < 2 ^ 32 }
        requires fit { Fit self.now row.now }
        ensures { IfOk result (λ v. v ≡ convert_value (body_in self.now) row.now target (source_scalar (body_in self.now) from.now) from.now) }
    {
        let source = self.source_of(from);
        if pointer(target) {
            return Ok(top(target));
        }
        if pointer(source) {
            return Ok(top(target));
        }
        let value = self.operand(row, source, from)?;
        abs_convert(self.alloc, target, source, &value, self.limits)
    }
}
