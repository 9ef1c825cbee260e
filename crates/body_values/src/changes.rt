//! The values after a statement, and after the statements of a block.

ghost use Rattle.std.specs.Prelude.{◌≡◌, ◌<◌, ◌≤◌, ◌^◌, ◌+◌, length, IfOk, OnOk, MatchBool, ⊤, slice_get, Option, Some, None};
ghost use Rattle.std.specs.Option.{option_copied};
ghost use Rattle.fix_engine.specs.declared.lifted.Lifted.{Lifted};
ghost use Rattle.fix_engine.specs.declared.lifted.Lifted.TheVariants.{NotReached, Reached};
ghost use Rattle.value_domain.specs.Values.{is_none_val};
ghost use Rattle.body_values.specs.Bodies.{register_scalar, put_value, brought_or, global_place, address_constant, item_constant, constant_value, slot_place, slot_value, constant_slot, item_value, load_value, target_of, result_value, is_abort, after_target, after_stmt};
ghost use Rattle.body_values.specs.Flow.{given_load};
ghost use Rattle.body_values.specs.Scenes.{body_in, Fit, IsGoodIn, IsReady};
ghost use Rattle.gimple_core.specs.Layout.{layout_of};

use crate::scene::{Scene, offset_of, pointer, scalar_of};
use crate::shared::Shared;
use crate::value_row::ValueRow;
use gimple_core::{
    Base, Constant, Global as Variable, Operand, OutOfMemory, Place, Point, Scalar, Stmt, Text,
};
use value_domain::{AbsVal, exactly, into_scalar, top};

/// The register that a statement assigns.
pub fn target(statement: &Stmt) -> Option<&Text>
    ensures { option_copied result ≡ target_of statement.now }
{
    match statement {
        Stmt::Copy { to, from: _ } => Some(to),
        Stmt::Arith {
            to,
            left: _,
            op: _,
            right: _,
        } => Some(to),
        Stmt::Compare {
            to,
            left: _,
            cmp: _,
            right: _,
        } => Some(to),
        Stmt::Convert {
            to,
            scalar: _,
            from: _,
        } => Some(to),
        Stmt::Load {
            to,
            scalar: _,
            place: _,
        } => Some(to),
        Stmt::Call {
            to: Some(to),
            callee: _,
            arguments: _,
        } => Some(to),
        Stmt::Indirect {
            to: Some(to),
            signature: _,
            callee: _,
            arguments: _,
        } => Some(to),
        Stmt::Get { to } => Some(to),
        _ => None,
    }
}

fn aborts(statement: &Stmt) -> bool
    ensures { result ≡ is_abort statement.now }
{
    match statement {
        Stmt::Abort => true,
        _ => false,
    }
}

impl<'a> Scene<'a> {
    fn given(&self, block: u32, index: u32, scalar: Scalar) -> Result<AbsVal, OutOfMemory>
        ensures { IfOk result (λ v. v ≡ brought_or scalar (given_load self.now.loads.now.facts self.now.loads.now.function block index)) }
    {
        match self.loads.at(block, index) {
            Some(value) => into_scalar(scalar, value),
            None => Ok(top(scalar)),
        }
    }

    /// The address of a global; that of a function is no constant.
    fn address_item(&self, variable: &Text, offset: i128) -> Option<Constant>
        requires few { length self.now.globals.now < 2 ^ 32 }
        ensures { result ≡ address_constant (global_place self.now.globals.now variable.now) offset }
    {
        match self.globals.place(variable) {
            Some(number) => Some(Constant::Global {
                number: number as u32,
                offset: offset_of(offset),
            }),
            None => None,
        }
    }

    /// An item as a constant, if it is one.
    fn item_of(&self, scalar: Scalar, item: Option<&Operand>) -> Option<Constant>
        requires few { length self.now.globals.now < 2 ^ 32 }
        ensures { result ≡ item_constant self.now.globals.now scalar (option_copied item.entry) }
    {
        match item {
            Some(Operand::Number(value)) => Some(Constant::Int(*value)),
            Some(Operand::Address { variable, offset }) => self.address_item(variable, *offset),
            Some(_) => Some(Constant::Null),
            None => {
                if pointer(scalar) {
                    Some(Constant::Null)
                } else {
                    Some(Constant::Int(0))
                }
            }
        }
    }

    fn value_of_item(
        &self,
        scalar: Scalar,
        item: Option<&Operand>,
    ) -> Result<Option<AbsVal>, OutOfMemory>
        requires few { length self.now.globals.now < 2 ^ 32 }
        ensures { IfOk result (λ v. v ≡ constant_value (body_in self.now) scalar (item_constant self.now.globals.now scalar (option_copied item.entry))) }
    {
        match self.item_of(scalar, item) {
            None => Ok(None),
            Some(constant) => {
                let value = exactly(self.alloc, scalar, constant, self.limits)?;
                Ok(Some(value))
            }
        }
    }

    /// The number of a variable's slot of a place and scalar.
    fn slot_number(&self, scalar: Scalar, place: &Place, global: &'a Variable) -> Option<usize>
        requires { (layout_of self.now.structs.now global.now.decl).size ≤ 2 ^ 24 }
        ensures { result ≡ slot_place (layout_of self.now.structs.now global.now.decl).slots place.now.offset scalar }
    {
        let structs = self.structs;
        structs.slot_number(&global.decl, place.offset, scalar)
    }

    fn slot(
        &self,
        scalar: Scalar,
        place: &Place,
        global: &'a Variable,
    ) -> Result<Option<AbsVal>, OutOfMemory>
        requires few { length self.now.globals.now < 2 ^ 32 }
        requires small { (layout_of self.now.structs.now global.now.decl).size ≤ 2 ^ 24 }
        ensures { IfOk result (λ v. v ≡ constant_slot (body_in self.now) scalar place.now.offset (Some global.now)) }
    {
        if !global.constant {
            return Ok(None);
        }
        match self.slot_number(scalar, place, global) {
            None => Ok(None),
            Some(number) => self.value_of_item(scalar, global.items.get(number)),
        }
    }

    /// What a slot of a read-only variable by name holds.
    #[tactic(auto, unfolding(crate::specs::Bodies::item_value))]
    fn item(&self, scalar: Scalar, place: &Place) -> Result<Option<AbsVal>, OutOfMemory>
        requires ready { IsReady self.now }
        ensures { IfOk result (λ v. v ≡ item_value (body_in self.now) scalar place.now) }
    {
        let Base::Variable(name) = &place.base else {
            return Ok(None);
        };
        if self.locals.has(name) {
            return Ok(None);
        }
        match self.globals.named(name) {
            Some(global) => self.slot(scalar, place, global),
            None => Ok(None),
        }
    }

    fn load(
        &self,
        block: u32,
        index: u32,
        scalar: Scalar,
        place: &Place,
    ) -> Result<AbsVal, OutOfMemory>
        requires ready { IsReady self.now }
        ensures { IfOk result (λ v. v ≡ load_value (body_in self.now) block index scalar place.now) }
    {
        match self.item(scalar, place)? {
            Some(value) => Ok(value),
            None => self.given(block, index, scalar),
        }
    }

    /// What a register of a scalar gets from a statement.
    #[tactic(auto, unfolding(crate::specs::Bodies::result_value))]
    pub fn result(
        &self,
        block: u32,
        index: u32,
        row: &ValueRow,
        scalar: Scalar,
        statement: &Stmt,
    ) -> Result<AbsVal, OutOfMemory>
        requires ready { IsReady self.now }
        requires fit { Fit self.now row.now }
        ensures { IfOk result (λ v. v ≡ result_value (body_in self.now) block index row.now scalar statement.now) }
    {
        match statement {
            Stmt::Copy { to: _, from } => self.operand(row, scalar, from),
            Stmt::Arith {
                to: _,
                left,
                op,
                right,
            } => self.arithmetic(row, scalar, left, *op, right),
            Stmt::Compare {
                to: _,
                left,
                cmp,
                right,
            } => self.comparison(row, scalar, left, *cmp, right),
            Stmt::Convert {
                to: _,
                scalar: target,
                from,
            } => self.conversion(row, *target, from),
            Stmt::Load {
                to: _,
                scalar: from,
                place,
            } => self.load(block, index, *from, place),
            _ => Ok(top(scalar)),
        }
    }

    /// Gives a register a value, and says whether the next point is reached. Err is want of memory.
    #[tactic(auto, using(crate::proofs::Written::set_past))]
    pub fn put(&self, row: &mut ValueRow, name: &Text, value: AbsVal) -> Result<bool, OutOfMemory>
        ensures { IfOk result (λ more. MatchBool more (put_value self.now.registers.now row.old name.now value ≡ Reached row.new) (put_value self.now.registers.now row.old name.now value ≡ NotReached)) }
    {
        if value.range.high < value.range.low {
            return Ok(false);
        }
        let place = self.registers.place(name);
        if place < row.len() {
            row.set(place, Shared::new(self.alloc, value)?);
        }
        Ok(true)
    }

    /// Carries the values through a statement, and says whether the next point is reached.
    #[tactic(auto, unfolding(crate::specs::Bodies::after_stmt))]
    fn change(
        &self,
        block: u32,
        index: u32,
        statement: &Stmt,
        row: &mut ValueRow,
    ) -> Result<bool, OutOfMemory>
        requires ready { IsReady self.now }
        requires fit { Fit self.now row.old }
        ensures { IfOk result (λ more. MatchBool more (after_stmt (body_in self.now) block index statement.now row.old ≡ Reached row.new) (after_stmt (body_in self.now) block index statement.now row.old ≡ NotReached)) }
    {
        if aborts(statement) {
            return Ok(false);
        }
        let Some(to) = target(statement) else {
            return Ok(true);
        };
        let scalar = scalar_of(self.registers, to);
        let value = self.result(block, index, row, scalar, statement)?;
        self.put(row, to, value)
    }

    /// Carries the values through a statement, and says whether the next point is reached.
    #[tactic(auto, using(crate::proofs::Written::changed_fit))]
    pub fn after(
        &self,
        block: u32,
        index: u32,
        statement: &Stmt,
        row: &mut ValueRow,
    ) -> Result<bool, OutOfMemory>
        requires ready { IsReady self.now }
        requires fit { Fit self.now row.old }
        ensures after { IfOk result (λ more. MatchBool more (after_stmt (body_in self.now) block index statement.now row.old ≡ Reached row.new) (after_stmt (body_in self.now) block index statement.now row.old ≡ NotReached)) }
        ensures fit { IfOk result (λ more. MatchBool more (Fit self.now row.new) ⊤) }
    {
        self.limits.known();
        let more = self.change(block, index, statement, row)?;
        Ok(more)
    }
}
