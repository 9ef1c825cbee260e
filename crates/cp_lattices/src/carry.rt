//! What a jump function makes of the value of a formal of the caller.

ghost use Rattle.std.specs.Prelude.{◌≡◌, IfOk, false};
ghost use Rattle.gimple_core.specs.Statements.{is_pointer};
ghost use Rattle.value_domain.specs.AbsOperators.{brought_into};
ghost use Rattle.value_domain.specs.Holding.{IsAllowed, IsOf, IsRight};
ghost use Rattle.value_domain.specs.Values.{FitsWith};
ghost use Rattle.cp_lattices.specs.Carried.{alone, right_scalar, under, operated, moved, passed, carried, given};
ghost use Rattle.cp_lattices.specs.Makers.{making};

use crate::trim::trimmed;
use body_symbols::{JumpFn, Variable};
use gimple_core::{Constant, Mode, Op, OutOfMemory, Passes, Scalar, fits};
use std::alloc::Global;
use value_domain::{AbsVal, Thresholds, abs_op, exactly, into_scalar, meet, top};

/// What abstract values are made with.
#[derive(Drop)]
pub struct Maker<'a> {
    pub mode: Mode,
    pub limits: &'a Thresholds,
    pub alloc: Global,
}

/// A scalar that has the number at the right of an operator: a shift's count can be of any integer scalar.
fn right_scalar(op: Op, scalar: Scalar, number: i128) -> Scalar
    ensures value { result ≡ right_scalar op scalar number }
    ensures right { IsRight op scalar result }
{
    match op {
        Op::Shl | Op::Shr => { if number < 0 { Scalar::I64 } else { Scalar::U64 } }
        _ => scalar,
    }
}

impl<'a> Maker<'a> {
    fn alone(&self, scalar: Scalar, number: i128) -> Result<AbsVal, OutOfMemory>
        ensures value { IfOk result (λ v. v ≡ alone (making self.now) scalar number) }
        ensures fits { IfOk result (FitsWith self.now.limits.now.size self.now.limits.now.ends) }
        ensures of { IfOk result (IsOf scalar) }
    {
        self.limits.known();
        let value = exactly(self.alloc, scalar, Constant::Int(number), self.limits)?;
        Ok(value)
    }

    /// A value brought into a scalar.
    fn brought(&self, scalar: Scalar, value: &AbsVal) -> Result<AbsVal, OutOfMemory>
        requires { FitsWith self.now.limits.now.size self.now.limits.now.ends value.now }
        ensures value { IfOk result (λ v. v ≡ brought_into scalar value.now) }
        ensures fits { IfOk result (FitsWith self.now.limits.now.size self.now.limits.now.ends) }
        ensures of { IfOk result (IsOf scalar) }
    {
        self.limits.known();
        into_scalar(scalar, value)
    }

    /// A value under an operator with a number at its right, of these scalars.
    fn under(
        &self,
        scalar: Scalar,
        op: Op,
        other: Scalar,
        by: i128,
        value: &AbsVal,
    ) -> Result<AbsVal, OutOfMemory>
        requires allowed { IsAllowed op scalar other }
        requires fits { FitsWith self.now.limits.now.size self.now.limits.now.ends value.now }
        ensures { IfOk result (λ v. v ≡ under (making self.now) scalar op other by value.now) }
    {
        let left = self.brought(scalar, value)?;
        let right = self.alone(other, by)?;
        abs_op(
            self.alloc,
            self.mode,
            op,
            scalar,
            other,
            &left,
            &right,
            self.limits,
        )
    }

    /// A number under an operator with a number at its right.
    fn operated(
        &self,
        scalar: Scalar,
        op: Op,
        by: i128,
        value: &AbsVal,
    ) -> Result<AbsVal, OutOfMemory>
        requires number { is_pointer scalar ≡ false }
        requires fits { FitsWith self.now.limits.now.size self.now.limits.now.ends value.now }
        ensures { IfOk result (λ v. v ≡ operated (making self.now) scalar op by value.now) }
    {
        let other = right_scalar(op, scalar, by);
        if fits(other, by) {
            self.under(scalar, op, other, by, value)
        } else {
            Ok(top(scalar))
        }
    }

    /// A pointer moved by some bytes.
    fn moved(&self, by: i64, value: &AbsVal) -> Result<AbsVal, OutOfMemory>
        requires { FitsWith self.now.limits.now.size self.now.limits.now.ends value.now }
        ensures { IfOk result (λ v. v ≡ moved (making self.now) by value.now) }
    {
        self.under(Scalar::Ptr, Op::Add, Scalar::I64, i128::from(by), value)
    }

    fn passed(
        &self,
        scalar: Scalar,
        op: Option<Op>,
        by: i128,
        value: &AbsVal,
    ) -> Result<AbsVal, OutOfMemory>
        requires { FitsWith self.now.limits.now.size self.now.limits.now.ends value.now }
        ensures { IfOk result (λ v. v ≡ passed (making self.now) scalar op by value.now) }
    {
        match (op, scalar) {
            (None, _) => into_scalar(scalar, value),
            (Some(_), Scalar::Ptr) => Ok(top(scalar)),
            (Some(op), _) => self.operated(scalar, op, by, value),
        }
    }

    /// The value of an argument of a scalar, by its jump function, where this is the value of the caller's formal that the
    /// jump function speaks of. Err is want of memory.
    #[tactic(auto, unfolding(crate::specs::Carried::carried))]
    fn carried(&self, scalar: Scalar, jump: JumpFn, value: &AbsVal) -> Result<AbsVal, OutOfMemory>
        requires { FitsWith self.now.limits.now.size self.now.limits.now.ends value.now }
        ensures { IfOk result (λ v. v ≡ carried (making self.now) scalar jump value.now) }
    {
        match jump {
            JumpFn::Unknown => Ok(top(scalar)),
            JumpFn::Const(constant) => exactly(self.alloc, scalar, constant, self.limits),
            JumpFn::Pass { param: _, op, by } => self.passed(scalar, op, by, value),
            JumpFn::Ancestor { param: _, offset } => match scalar {
                Scalar::Ptr => self.moved(offset, value),
                _ => Ok(top(scalar)),
            },
            JumpFn::Address {
                variable: Variable::Global(number),
                offset,
            } => {
                let constant = Constant::Global { number, offset };
                exactly(self.alloc, scalar, constant, self.limits)
            }
            JumpFn::Address {
                variable: Variable::Local(_),
                offset: _,
            } => Ok(top(scalar)),
        }
    }

    /// What a call gives to a formal of a scalar: what the argument's jump function makes of the value of the caller's formal
    /// and what is known of the argument there hold both. Err is want of memory.
    #[tactic(auto, unfolding(crate::specs::Carried::given))]
    pub fn given(
        &self,
        passes: &Passes,
        scalar: Scalar,
        jump: JumpFn,
        local: &AbsVal,
        value: &AbsVal,
    ) -> Result<AbsVal, OutOfMemory>
        requires fits { FitsWith self.now.limits.now.size self.now.limits.now.ends value.now }
        requires local { FitsWith self.now.limits.now.size self.now.limits.now.ends local.now }
        ensures { IfOk result (λ v. v ≡ given (making self.now) passes.now scalar jump local.now value.now) }
    {
        self.limits.known();
        let carried = self.carried(scalar, jump, value)?;
        let met = meet(&carried, local)?;
        Ok(trimmed(passes, scalar, met))
    }
}
