//! Ends of blocks with known constants put in.

ghost use Rattle.std.specs.Prelude.{◌≡◌, IfOk, Ok, Some, None, find};
ghost use Rattle.std.specs.Option.{option_copied};
ghost use Rattle.gimple_core.specs.Operators.{cmp_of};
ghost use Rattle.gimple_core.specs.Run.{case_for};
ghost use Rattle.gimple_core.specs.Statements as check;
ghost use Rattle.body_values.specs.Scenes.{Fit};
ghost use Rattle.body_fold.specs.Fold.{is_zero, folded_end};
ghost use Rattle.body_fold.specs.Folders.{folding_in, IsFolder};

use crate::evaluation::any_of;
use crate::folder::Folder;
use body_values::ValueRow;
use gimple_core::{Case, Cases, Cmp, Constant, End, Exact, Operand, OutOfMemory, eval_cmp};

/// Whether a constant is the number 0.
fn is_zero(constant: Constant) -> bool
    ensures { result ≡ is_zero constant }
{
    match constant {
        Constant::Int(value) => value == 0,
        _ => false,
    }
}

/// The first case with this value.
fn case_of(on: i128, cases: &[Case]) -> Option<&Case>
    ensures { option_copied result ≡ find (λ c. cmp_of Cmp.Eq on c.value) cases.now }
{
    cases.iter().find(|c| eval_cmp(Cmp::Eq, on, c.value))
}

/// The label of the first case with this value.
fn label_for(on: i128, cases: &[Case], other: u64) -> u64
    ensures { result ≡ case_for on cases.now other }
{
    match case_of(on, cases) {
        Some(case) => case.target,
        None => other,
    }
}

impl<'a> Folder<'a> {
    /// A jump where the comparison is decided, else the comparison with constants put in.
    #[tactic(auto, unfolding(crate::specs::Fold::folded_end))]
    fn branch(
        &self,
        row: &ValueRow,
        left: &Operand,
        cmp: Cmp,
        right: &Operand,
        yes: u64,
        no: u64,
    ) -> Result<End, OutOfMemory>
        requires folder { IsFolder self.now }
        requires fit { Fit self.now.scene row.now }
        requires passes { check.compared (folding_in self.now).env left.now cmp right.now ≡ Ok tt }
        ensures { IfOk result (λ e. e ≡ folded_end (folding_in self.now) row.now (End.If left.now cmp right.now yes no)) }
    {
        match self.known_comparison(row, left, cmp, right)? {
            Some(known) => {
                if is_zero(known) {
                    return Ok(End::Goto(no));
                }
                Ok(End::Goto(yes))
            }
            None => {
                let sides = self.sides(row, left, cmp, right)?;
                Ok(End::If {
                    left: sides.left,
                    cmp,
                    right: sides.right,
                    yes,
                    no,
                })
            }
        }
    }

    /// A jump where the number is known, else the same end.
    #[tactic(auto, unfolding(crate::specs::Fold::folded_end))]
    fn switch(
        &self,
        row: &ValueRow,
        on: &Operand,
        cases: &Cases,
        other: u64,
    ) -> Result<End, OutOfMemory>
        requires folder { IsFolder self.now }
        requires fit { Fit self.now.scene row.now }
        ensures { IfOk result (λ e. e ≡ folded_end (folding_in self.now) row.now (End.Switch on.now cases.now other)) }
    {
        match self.known_operand(row, on)? {
            Some(known) => Ok(End::Goto(label_for(any_of(known), cases.as_slice(), other))),
            None => Ok(End::Switch {
                on: on.copy()?,
                cases: cases.copy()?,
                other,
            }),
        }
    }

    /// What is returned, by the result of the function.
    #[tactic(auto, unfolding(crate::specs::Fold::folded_end))]
    fn returned(&self, row: &ValueRow, value: &Operand) -> Result<End, OutOfMemory>
        requires folder { IsFolder self.now }
        requires fit { Fit self.now.scene row.now }
        ensures { IfOk result (λ e. e ≡ folded_end (folding_in self.now) row.now (End.Return (Some value.now))) }
    {
        match self.function.result {
            Some(scalar) => Ok(End::Return(Some(self.operand(row, scalar, value)?))),
            None => Ok(End::Return(Some(value.copy()?))),
        }
    }

    /// The end of a block that is reached, by the values of all registers there.
    #[tactic(auto, unfolding(crate::specs::Fold::folded_end))]
    pub(crate) fn end(&self, row: &ValueRow, end: &End) -> Result<End, OutOfMemory>
        requires folder { IsFolder self.now }
        requires fit { Fit self.now.scene row.now }
        requires passes { check.ending (folding_in self.now).env end.now ≡ Ok tt }
        ensures { IfOk result (λ e. e ≡ folded_end (folding_in self.now) row.now end.now) }
    {
        match end {
            End::Goto(to) => Ok(End::Goto(*to)),
            End::If {
                left,
                cmp,
                right,
                yes,
                no,
            } => self.branch(row, left, *cmp, right, *yes, *no),
            End::Switch { on, cases, other } => self.switch(row, on, cases, *other),
            End::Return(None) => Ok(End::Return(None)),
            End::Return(Some(value)) => self.returned(row, value),
        }
    }
}
