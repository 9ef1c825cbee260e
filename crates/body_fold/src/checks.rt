//! Whether an operand passes the check of the place where it is put.

ghost use Rattle.std.specs.Prelude.{◌≡◌, ◌&&◌, ◌||◌, not};
ghost use Rattle.gimple_core.specs.Env.{is_target, is_variable};
ghost use Rattle.gimple_core.specs.Memory.{same_scalar};
ghost use Rattle.gimple_core.specs.Statements as check;
ghost use Rattle.body_fold.specs.Fold.{passes, right_check};
ghost use Rattle.body_fold.specs.Folders.{folding_in, IsFolder};
ghost use Rattle.body_fold.specs.Putting.{address_passes};

use crate::folder::Folder;
use body_values::pointer;
use gimple_core::{Cmp, Op, Operand, Scalar, Text, fits};

fn same_scalar(left: Scalar, right: Scalar) -> bool
    ensures { result ≡ same_scalar left right }
{
    left == right
}

fn is_order(cmp: Cmp) -> bool
    ensures { result ≡ check.is_order cmp }
{
    !matches!(cmp, Cmp::Eq | Cmp::Ne)
}

fn is_printable(value: i128) -> bool
    ensures { result ≡ check.is_printable value }
{
    fits(Scalar::I64, value) || fits(Scalar::U64, value)
}

impl<'a> Folder<'a> {
    /// Whether a local or a global has the name.
    fn is_variable(&self, name: &Text) -> bool
        requires folder { IsFolder self.now }
        ensures { result ≡ is_variable (folding_in self.now).env name.now }
    {
        self.scene.locals.has(name) || self.scene.globals.has(name)
    }

    /// Whether a function of the name may be addressed.
    fn is_target(&self, name: &Text) -> bool
        requires folder { IsFolder self.now }
        ensures { result ≡ is_target (folding_in self.now).env.targets name.now }
    {
        if self.tables.program().profile != 2 {
            return false;
        }
        self.tables.named_function(name).is_some()
    }

    /// Whether the address of a name at an offset passes its check: that of a variable, or of a function at no offset.
    fn admits_address(&self, name: &Text, offset: i128) -> bool
        requires folder { IsFolder self.now }
        ensures { result ≡ address_passes (folding_in self.now).env name.now offset }
    {
        if self.is_variable(name) {
            return fits(Scalar::I64, offset);
        }
        offset == 0 && self.is_target(name)
    }

    /// Whether an operand passes the check of a place for a scalar.
    pub(crate) fn admits(&self, scalar: Scalar, operand: &Operand) -> bool
        requires folder { IsFolder self.now }
        ensures { result ≡ passes (check.operand (folding_in self.now).env 4 scalar operand.now) }
    {
        match operand {
            Operand::Reg(name) => match self.scene.registers.named(name) {
                Some(register) => same_scalar(register.scalar, scalar),
                None => false,
            },
            Operand::Number(value) => !pointer(scalar) && fits(scalar, *value),
            Operand::Null => pointer(scalar),
            Operand::Address { variable, offset } => {
                pointer(scalar) && self.admits_address(variable, *offset)
            }
        }
    }

    /// Whether an operand passes the check of a place for an integer of a scalar.
    fn admits_integer(&self, scalar: Scalar, operand: &Operand) -> bool
        requires folder { IsFolder self.now }
        ensures { result ≡ (passes (check.operand (folding_in self.now).env 4 scalar operand.now) && not (check.is_pointer scalar)) }
    {
        self.admits(scalar, operand) && !pointer(scalar)
    }

    /// Whether an operand passes the check of the right side of an operator.
    pub(crate) fn admits_right(&self, scalar: Scalar, op: Op, right: &Operand) -> bool
        requires folder { IsFolder self.now }
        ensures { result ≡ passes (right_check (folding_in self.now).env scalar op right.now) }
    {
        self.admits_integer(self.scene.right_of(scalar, op, right), right)
    }

    /// Whether both sides of a comparison pass the check of a place for a scalar, and it may be compared so.
    fn admits_sides(&self, scalar: Scalar, left: &Operand, cmp: Cmp, right: &Operand) -> bool
        requires folder { IsFolder self.now }
        ensures { result ≡ (passes (check.operand (folding_in self.now).env 4 scalar left.now) && (passes (check.operand (folding_in self.now).env 4 scalar right.now) && (not (check.is_pointer scalar) || not (check.is_order cmp)))) }
    {
        self.admits(scalar, left)
            && (self.admits(scalar, right) && (!pointer(scalar) || !is_order(cmp)))
    }

    /// Whether a comparison passes its check.
    pub(crate) fn admits_comparison(&self, left: &Operand, cmp: Cmp, right: &Operand) -> bool
        requires folder { IsFolder self.now }
        ensures { result ≡ passes (check.compared (folding_in self.now).env left.now cmp right.now) }
    {
        self.admits_sides(self.scene.sides_of(left, right), left, cmp, right)
    }

    /// Whether an operand passes the check of what is printed.
    pub(crate) fn admits_printed(&self, operand: &Operand) -> bool
        requires folder { IsFolder self.now }
        ensures { result ≡ passes (check.printed (folding_in self.now).env operand.now) }
    {
        match operand {
            Operand::Reg(_) => self.admits_integer(self.scene.source_of(operand), operand),
            Operand::Number(value) => is_printable(*value),
            Operand::Null => false,
            Operand::Address {
                variable: _,
                offset: _,
            } => false,
        }
    }
}
