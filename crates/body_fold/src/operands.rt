//! Operands with known constants put in.

ghost use Rattle.std.specs.Prelude.{◌≡◌, IfOk};
ghost use Rattle.std.specs.Option.{option_copied};
ghost use Rattle.gimple_core.specs.Env.{named};
ghost use Rattle.gimple_core.specs.Statements as check;
ghost use Rattle.body_values.specs.Scenes.{Fit};
ghost use Rattle.body_fold.specs.Fold.{constant_operand, constant_for, folded_operand, folded_left, folded_right, formals_of, folded_arguments, right_check};
ghost use Rattle.body_fold.specs.Folders.{folding_in, IsFolder};
ghost use Rattle.body_fold.specs.Putting.{put_in, argument_of};

use crate::folder::Folder;
use body_values::ValueRow;
use gimple_core::{
    Cmp, Constant, Exact, Listed, Op, Operand, Operands, OutOfMemory, Register, Scalar, Scalars,
    Text,
};
use std::alloc::Global;

/// Both sides of a comparison.
#[derive(Drop)]
pub(crate) struct Sides {
    pub(crate) left: Operand,
    pub(crate) right: Operand,
}

/// The scalars of registers in order.
fn scalars_of(alloc: Global, registers: &[Register]) -> Result<Scalars, OutOfMemory>
    ensures { IfOk result (λ ss. ss ≡ check.scalars_of registers.now) }
{
    let mut scalars = Listed::new(alloc);
    for register in registers {
        scalars.push(register.scalar)?;
    }
    Ok(scalars)
}

impl<'a> Folder<'a> {
    /// A constant as an operand. None is no operand.
    #[tactic(auto, unfolding(crate::specs::Fold::constant_operand))]
    pub(crate) fn constant_operand(
        &self,
        constant: Option<Constant>,
    ) -> Result<Option<Operand>, OutOfMemory>
        ensures { IfOk result (λ y. y ≡ constant_operand self.now.scene.globals.now constant) }
    {
        match constant {
            None => Ok(None),
            Some(Constant::Int(value)) => Ok(Some(Operand::Number(value))),
            Some(Constant::Null) => Ok(Some(Operand::Null)),
            Some(Constant::Global { number, offset }) => {
                match self.scene.globals.get(number as usize) {
                    None => Ok(None),
                    Some(global) => Ok(Some(Operand::Address {
                        variable: global.decl.name.copy()?,
                        offset: i128::from(offset),
                    })),
                }
            }
        }
    }

    /// The constant that a register is known to hold, as an operand; of another operand there is none.
    #[tactic(auto, unfolding(crate::specs::Fold::constant_for))]
    fn constant_for(
        &self,
        row: &ValueRow,
        operand: &Operand,
    ) -> Result<Option<Operand>, OutOfMemory>
        requires folder { IsFolder self.now }
        requires fit { Fit self.now.scene row.now }
        ensures { IfOk result (λ y. y ≡ constant_for (folding_in self.now).body row.now operand.now) }
    {
        let Operand::Reg(name) = operand else {
            return Ok(None);
        };
        let known = self.known_register(row, name)?;
        self.constant_operand(known)
    }

    /// An operand of a scalar, with the constant that it is known to be in its place where that passes the check.
    pub(crate) fn operand(
        &self,
        row: &ValueRow,
        scalar: Scalar,
        operand: &Operand,
    ) -> Result<Operand, OutOfMemory>
        requires folder { IsFolder self.now }
        requires fit { Fit self.now.scene row.now }
        ensures { IfOk result (λ y. y ≡ folded_operand (folding_in self.now) row.now (check.operand (folding_in self.now).env 4 scalar) operand.now) }
    {
        match self.constant_for(row, operand)? {
            None => operand.copy(),
            Some(constant) => {
                if self.admits(scalar, &constant) {
                    return Ok(constant);
                }
                operand.copy()
            }
        }
    }

    /// The right side of an operator.
    pub(crate) fn right(
        &self,
        row: &ValueRow,
        scalar: Scalar,
        op: Op,
        right: &Operand,
    ) -> Result<Operand, OutOfMemory>
        requires folder { IsFolder self.now }
        requires fit { Fit self.now.scene row.now }
        ensures { IfOk result (λ y. y ≡ folded_operand (folding_in self.now) row.now (right_check (folding_in self.now).env scalar op) right.now) }
    {
        match self.constant_for(row, right)? {
            None => right.copy(),
            Some(constant) => {
                if self.admits_right(scalar, op, &constant) {
                    return Ok(constant);
                }
                right.copy()
            }
        }
    }

    /// What is printed.
    pub(crate) fn printed(&self, row: &ValueRow, from: &Operand) -> Result<Operand, OutOfMemory>
        requires folder { IsFolder self.now }
        requires fit { Fit self.now.scene row.now }
        ensures { IfOk result (λ y. y ≡ folded_operand (folding_in self.now) row.now (check.printed (folding_in self.now).env) from.now) }
    {
        match self.constant_for(row, from)? {
            None => from.copy(),
            Some(constant) => {
                if self.admits_printed(&constant) {
                    return Ok(constant);
                }
                from.copy()
            }
        }
    }

    /// The constant that stands for the right side of a comparison, where it passes the check.
    fn right_constant(
        &self,
        row: &ValueRow,
        left: &Operand,
        cmp: Cmp,
        right: &Operand,
    ) -> Result<Option<Operand>, OutOfMemory>
        requires folder { IsFolder self.now }
        requires fit { Fit self.now.scene row.now }
        ensures { IfOk result (λ o. o ≡ put_in (λ y. check.compared (folding_in self.now).env left.now cmp y) (constant_for (folding_in self.now).body row.now right.now)) }
    {
        match self.constant_for(row, right)? {
            None => Ok(None),
            Some(constant) => {
                if self.admits_comparison(left, cmp, &constant) {
                    return Ok(Some(constant));
                }
                Ok(None)
            }
        }
    }

    /// The left side of a comparison.
    fn left_side(
        &self,
        row: &ValueRow,
        left: &Operand,
        cmp: Cmp,
        right: &Operand,
    ) -> Result<Operand, OutOfMemory>
        requires folder { IsFolder self.now }
        requires fit { Fit self.now.scene row.now }
        ensures { IfOk result (λ y. y ≡ folded_operand (folding_in self.now) row.now (λ y. check.compared (folding_in self.now).env y cmp right.now) left.now) }
    {
        match self.constant_for(row, left)? {
            None => left.copy(),
            Some(constant) => {
                if self.admits_comparison(&constant, cmp, right) {
                    return Ok(constant);
                }
                left.copy()
            }
        }
    }

    /// Both sides of a comparison. A constant is put on the right side, and only where none is, on the left one.
    pub(crate) fn sides(
        &self,
        row: &ValueRow,
        left: &Operand,
        cmp: Cmp,
        right: &Operand,
    ) -> Result<Sides, OutOfMemory>
        requires folder { IsFolder self.now }
        requires fit { Fit self.now.scene row.now }
        ensures left { IfOk result (λ s. s.left ≡ folded_left (folding_in self.now) row.now left.now cmp right.now) }
        ensures right { IfOk result (λ s. s.right ≡ folded_right (folding_in self.now) row.now left.now cmp right.now) }
    {
        match self.right_constant(row, left, cmp, right)? {
            Some(constant) => Ok(Sides {
                left: left.copy()?,
                right: constant,
            }),
            None => Ok(Sides {
                left: self.left_side(row, left, cmp, right)?,
                right: right.copy()?,
            }),
        }
    }

    /// The scalars of the formals of a function by name; of no function there are none.
    pub(crate) fn formals(&self, callee: &Text) -> Result<Scalars, OutOfMemory>
        requires folder { IsFolder self.now }
        ensures { IfOk result (λ ss. ss ≡ formals_of (named callee.now (folding_in self.now).names)) }
    {
        match self.tables.named_function(callee) {
            Some(function) => scalars_of(self.scene.alloc, function.params.as_slice()),
            None => Ok(Listed::new(self.scene.alloc)),
        }
    }

    /// An argument against the scalar of its formal.
    fn argument(
        &self,
        row: &ValueRow,
        formal: Option<&Scalar>,
        argument: &Operand,
    ) -> Result<Operand, OutOfMemory>
        requires folder { IsFolder self.now }
        requires fit { Fit self.now.scene row.now }
        ensures { IfOk result (λ y. y ≡ argument_of (folding_in self.now) row.now (option_copied formal.entry) argument.now) }
    {
        match formal {
            None => argument.copy(),
            Some(scalar) => self.operand(row, *scalar, argument),
        }
    }

    /// The arguments of a call against the scalars of its formals.
    pub(crate) fn arguments(
        &self,
        row: &ValueRow,
        formals: &[Scalar],
        arguments: &[Operand],
    ) -> Result<Operands, OutOfMemory>
        requires folder { IsFolder self.now }
        requires fit { Fit self.now.scene row.now }
        ensures { IfOk result (λ ys. ys ≡ folded_arguments (folding_in self.now) row.now formals.now arguments.now) }
    {
        let mut folded = Listed::new(self.scene.alloc);
        for (place, argument) in arguments.iter().enumerate() {
            let known = self.argument(row, formals.get(place), argument)?;
            folded.push(known)?;
        }
        Ok(folded)
    }
}
