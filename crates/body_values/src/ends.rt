//! The values behind a branch of the end of a block.

ghost use Rattle.std.specs.Prelude.{◌≡◌, ◌<◌, ◌^◌, length, IfOk, slice_get, Option, Some, None, OnOk};
ghost use Rattle.std.specs.Option.{option_copied};
ghost use Rattle.fix_engine.specs.declared.lifted.Lifted.{Lifted};
ghost use Rattle.fix_engine.specs.declared.lifted.Lifted.TheVariants.{NotReached, Reached};
ghost use Rattle.value_domain.specs.Holding.{MayCompare};
ghost use Rattle.value_domain.specs.AbsOperators.{exactly_of};
ghost use Rattle.value_domain.specs.RangeOperators.{opposite};
ghost use Rattle.value_domain.specs.AbsOperators.{abs_met, refined_of};
ghost use Rattle.body_values.specs.Bodies.{register_scalar, put_value, both_put, turned, register_of, left_sides, after_compare, without_cases, case_left, switch_left, after_switch, after_end, sides_scalar};
ghost use Rattle.body_values.specs.Scenes.{body_in, Fit, IsGoodIn, IsReady};

use crate::block_values::PointRow;
use crate::scene::{Scene, scalar_of};
use crate::transfer::comparable;
use crate::value_row::ValueRow;
use fix_engine::{Lattice, Lifted};
use gimple_core::{Case, Cmp, Constant, End, Operand, OutOfMemory, Scalar, Text, same_name};
use value_domain::{AbsVal, exactly, meet, refine};

fn turn(cmp: Cmp) -> Cmp
    ensures { result ≡ turned cmp }
{
    match cmp {
        Cmp::Eq => Cmp::Eq,
        Cmp::Ne => Cmp::Ne,
        Cmp::Lt => Cmp::Gt,
        Cmp::Le => Cmp::Ge,
        Cmp::Gt => Cmp::Lt,
        Cmp::Ge => Cmp::Le,
    }
}

fn oppose(cmp: Cmp) -> Cmp
    ensures { result ≡ opposite cmp }
{
    match cmp {
        Cmp::Eq => Cmp::Ne,
        Cmp::Ne => Cmp::Eq,
        Cmp::Lt => Cmp::Ge,
        Cmp::Le => Cmp::Gt,
        Cmp::Gt => Cmp::Le,
        Cmp::Ge => Cmp::Lt,
    }
}

fn register(operand: &Operand) -> Option<&Text>
    ensures { option_copied result ≡ register_of operand.now }
{
    match operand {
        Operand::Reg(name) => Some(name),
        _ => None,
    }
}

impl<'a> Scene<'a> {
    /// The values after a register got one.
    fn given_to(&self, row: ValueRow, name: &Text, value: AbsVal) -> Result<PointRow, OutOfMemory>
        ensures { IfOk result (λ x. x ≡ put_value self.now.registers.now row name.now value) }
    {
        let mut row = row;
        if self.put(&mut row, name, value)? {
            Ok(Lifted::Reached(row))
        } else {
            Ok(Lifted::NotReached)
        }
    }

    fn refined(
        &self,
        cmp: Cmp,
        scalar: Scalar,
        side: &AbsVal,
        against: &AbsVal,
    ) -> Result<AbsVal, OutOfMemory>
        requires allowed { MayCompare cmp scalar }
        requires side { IsGoodIn self.now scalar side.now }
        requires against { IsGoodIn self.now scalar against.now }
        ensures { IfOk result (λ v. v ≡ refined_of cmp self.now.limits.now.ends side.now against.now) }
    {
        refine(cmp, scalar, side, against, self.limits)
    }

    /// A side's value after a comparison with the other one.
    #[tactic(auto, using(crate::proofs::Refined::refined_good))]
    fn left_of(
        &self,
        cmp: Cmp,
        scalar: Scalar,
        side: &AbsVal,
        against: &AbsVal,
    ) -> Result<AbsVal, OutOfMemory>
        requires allowed { MayCompare cmp scalar }
        requires side { IsGoodIn self.now scalar side.now }
        requires against { IsGoodIn self.now scalar against.now }
        ensures value { IfOk result (λ v. v ≡ refined_of cmp self.now.limits.now.ends side.now against.now) }
        ensures good { IfOk result (IsGoodIn self.now scalar) }
    {
        self.limits.known();
        let value = self.refined(cmp, scalar, side, against)?;
        Ok(value)
    }

    #[tactic(auto, using(crate::proofs::Refined::are_alike))]
    fn both(&self, scalar: Scalar, left: &AbsVal, right: &AbsVal) -> Result<AbsVal, OutOfMemory>
        requires left { IsGoodIn self.now scalar left.now }
        requires right { IsGoodIn self.now scalar right.now }
        ensures { IfOk result (λ v. v ≡ abs_met left.now right.now) }
    {
        self.limits.known();
        meet(left, right)
    }

    fn on_both(
        &self,
        scalar: Scalar,
        row: ValueRow,
        left: &Text,
        right: &Text,
        first: AbsVal,
        second: AbsVal,
    ) -> Result<PointRow, OutOfMemory>
        requires first { IsGoodIn self.now scalar first }
        requires second { IsGoodIn self.now scalar second }
        ensures { IfOk result (λ x. x ≡ both_put self.now.registers.now row left.now right.now first second) }
    {
        if same_name(left, right) {
            let value = self.both(scalar, &first, &second)?;
            return self.given_to(row, left, value);
        }
        match self.given_to(row, left, first)? {
            Lifted::Reached(row) => self.given_to(row, right, second),
            Lifted::NotReached => Ok(Lifted::NotReached),
        }
    }

    /// What a taken comparison leaves of the registers at its sides.
    #[tactic(auto, unfolding(crate::specs::Bodies::after_compare), using(crate::specs::Rising::may_compare_is, crate::specs::Rising::turned_may))]
    fn compared(
        &self,
        cmp: Cmp,
        left: &Operand,
        right: &Operand,
        row: ValueRow,
    ) -> Result<PointRow, OutOfMemory>
        requires ready { IsReady self.now }
        requires fit { Fit self.now row }
        ensures { IfOk result (λ x. x ≡ after_compare (body_in self.now) (sides_scalar (body_in self.now) left.now right.now) cmp left.now right.now row) }
    {
        let scalar = self.sides_of(left, right);
        if !comparable(cmp, scalar) {
            return Ok(Lifted::Reached(row));
        }
        let first = self.operand(&row, scalar, left)?;
        let second = self.operand(&row, scalar, right)?;
        match (left, right) {
            (Operand::Reg(m), Operand::Reg(n)) => {
                let of_left = self.left_of(cmp, scalar, &first, &second)?;
                let of_right = self.left_of(turn(cmp), scalar, &second, &first)?;
                self.on_both(scalar, row, m, n, of_left, of_right)
            }
            (Operand::Reg(m), _) => {
                let value = self.left_of(cmp, scalar, &first, &second)?;
                self.given_to(row, m, value)
            }
            (_, Operand::Reg(n)) => {
                let value = self.left_of(turn(cmp), scalar, &second, &first)?;
                self.given_to(row, n, value)
            }
            (_, _) => Ok(Lifted::Reached(row)),
        }
    }

    #[tactic(auto, using(crate::proofs::Refined::case_good))]
    fn constant(&self, scalar: Scalar, case: &Case) -> Result<AbsVal, OutOfMemory>
        ensures value { IfOk result (λ v. v ≡ exactly_of scalar self.now.limits.now.size self.now.limits.now.ends (Constant.Int case.now.value)) }
        ensures good { IfOk result (IsGoodIn self.now scalar) }
    {
        self.limits.known();
        let value = exactly(self.alloc, scalar, Constant::Int(case.value), self.limits)?;
        Ok(value)
    }

    /// A value without the constants of the cases.
    #[tactic(auto, using(crate::proofs::Refined::equality_may))]
    fn without(&self, scalar: Scalar, value: &AbsVal, cases: &[Case]) -> Result<AbsVal, OutOfMemory>
        requires { IsGoodIn self.now scalar value.now }
        ensures { IfOk result (λ v. v ≡ without_cases (body_in self.now) scalar cases.now value.now) }
    {
        let mut left = value.copy()?;
        for at in 0..cases.len() {
            let constant = self.constant(scalar, &cases[at])?;
            let next = self.left_of(Cmp::Ne, scalar, &left, &constant)?;
            left = next;
        }
        Ok(left)
    }

    #[tactic(auto, using(crate::proofs::Refined::same_may))]
    fn case_of(
        &self,
        scalar: Scalar,
        value: &AbsVal,
        cases: &[Case],
        slot: u32,
    ) -> Result<AbsVal, OutOfMemory>
        requires { IsGoodIn self.now scalar value.now }
        ensures { IfOk result (λ v. v ≡ case_left (body_in self.now) scalar cases.now value.now (slice_get cases.now slot)) }
    {
        match cases.get(slot as usize) {
            Some(case) => {
                let constant = self.constant(scalar, case)?;
                self.left_of(Cmp::Eq, scalar, value, &constant)
            }
            None => self.without(scalar, value, cases),
        }
    }

    #[tactic(auto, unfolding(crate::specs::Bodies::after_switch))]
    fn switched(
        &self,
        on: &Operand,
        cases: &[Case],
        slot: u32,
        row: ValueRow,
    ) -> Result<PointRow, OutOfMemory>
        requires ready { IsReady self.now }
        requires fit { Fit self.now row }
        ensures { IfOk result (λ x. x ≡ after_switch (body_in self.now) on.now cases.now (slice_get cases.now slot) row) }
    {
        match on {
            Operand::Reg(name) => {
                let scalar = scalar_of(self.registers, name);
                let value = self.operand(&row, scalar, on)?;
                let left = self.case_of(scalar, &value, cases, slot)?;
                self.given_to(row, name, left)
            }
            _ => Ok(Lifted::Reached(row)),
        }
    }

    /// The values behind a branch of an end, by its number there.
    #[tactic(auto, unfolding(crate::specs::Bodies::after_end))]
    pub fn leave(&self, end: &End, slot: u32, row: ValueRow) -> Result<PointRow, OutOfMemory>
        requires ready { IsReady self.now }
        requires fit { Fit self.now row }
        ensures { IfOk result (λ x. x ≡ after_end (body_in self.now) end.now slot row) }
    {
        match end {
            End::Goto(_) => Ok(Lifted::Reached(row)),
            End::If {
                left,
                cmp,
                right,
                yes: _,
                no: _,
            } => {
                let taken = if slot == 0 { *cmp } else { oppose(*cmp) };
                self.compared(taken, left, right, row)
            }
            End::Switch {
                on,
                cases,
                other: _,
            } => self.switched(on, cases.as_slice(), slot, row),
            End::Return(_) => Ok(Lifted::Reached(row)),
        }
    }
}
