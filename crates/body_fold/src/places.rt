//! Places by the variables to which their bases are known to point.

ghost use Rattle.std.specs.Prelude.{◌≡◌, ◌+ℤ◌, ◌&&◌, IfOk, IsTrue, Some, slice_get};
ghost use Rattle.gimple_core.specs.Layout.{layout_of};
ghost use Rattle.gimple_core.specs.Operators.{in_scalar, wrapped};
ghost use Rattle.gimple_core.specs.State.{offset_in};
ghost use Rattle.gimple_core.specs.Statements.{has_slot};
ghost use Rattle.body_values.specs.Scenes.{Fit};
ghost use Rattle.body_fold.specs.Fold.{passes, put_or, place_from, folded_place};
ghost use Rattle.body_fold.specs.Folders.{folding_in, IsFolder};
ghost use Rattle.body_fold.specs.Putting.{is_store, access_check};

use crate::folder::Folder;
use body_values::{ValueRow, offset_of};
use gimple_core::{
    Base, Constant, Exact, Global as Variable, OutOfMemory, Place, Scalar, Text, wrap,
};

/// What is done at a place.
#[derive(Clone, Copy)]
pub(crate) enum Access {
    Load,
    Store,
}

/// Whether a store is meant, and the variable is read-only.
fn is_refused(access: Access, global: &Variable) -> bool
    ensures { result ≡ (is_store access && global.now.constant) }
{
    matches!(access, Access::Store) && global.constant
}

/// The offset from the start of a variable, which lies in i64.
fn offset_from(start: i64, offset: i128) -> i128
    ensures value { result ≡ wrapped Scalar.I64 (start +ℤ offset_in offset) }
    ensures fits { IsTrue (in_scalar Scalar.I64 result) }
{
    wrap(
        Scalar::I64,
        i128::from(start) + i128::from(offset_of(offset)),
    )
}

/// The place in a variable at an offset from a start.
fn place_in(variable: &Text, start: i64, offset: i128) -> Result<Place, OutOfMemory>
    ensures place { IfOk result (λ q. q ≡ record { base = Base.Variable variable.now; offset = wrapped Scalar.I64 (start +ℤ offset_in offset) }) }
    ensures fits { IfOk result (λ q. IsTrue (in_scalar Scalar.I64 q.offset)) }
{
    Ok(Place {
        base: Base::Variable(variable.copy()?),
        offset: offset_from(start, offset),
    })
}

impl<'a> Folder<'a> {
    /// Whether a global has a slot at a place.
    fn slot_in(&self, global: &'a Variable, scalar: Scalar, place: &Place) -> bool
        ensures { result ≡ has_slot (layout_of self.now.scene.structs.now global.now.decl).slots place.now.offset scalar }
    {
        let structs = self.scene.structs;
        structs.has_slot(&global.decl, place.offset, scalar)
    }

    /// Whether a place in a global passes the check of an access.
    fn admits_place(
        &self,
        access: Access,
        scalar: Scalar,
        number: u32,
        global: &'a Variable,
        place: &Place,
    ) -> bool
        requires folder { IsFolder self.now }
        requires there { slice_get self.now.scene.globals.now number ≡ Some global.now }
        requires base { place.now.base ≡ Base.Variable global.now.decl.name }
        requires fits { IsTrue (in_scalar Scalar.I64 place.now.offset) }
        ensures { result ≡ passes (access_check (folding_in self.now).env access scalar place.now) }
    {
        if is_refused(access, global) {
            return false;
        }
        self.slot_in(global, scalar, place)
    }

    /// The place at an offset from the address of a global, where it passes the check of the access, else the other one.
    fn place_from(
        &self,
        access: Access,
        scalar: Scalar,
        place: &Place,
        number: u32,
        start: i64,
    ) -> Result<Place, OutOfMemory>
        requires folder { IsFolder self.now }
        ensures { IfOk result (λ q. q ≡ put_or (access_check (folding_in self.now).env access scalar) place.now (place_from self.now.scene.globals.now (Some (Constant.Global number start)) place.now.offset)) }
    {
        match self.scene.globals.get(number as usize) {
            None => place.copy(),
            Some(global) => {
                let moved = place_in(&global.decl.name, start, place.offset)?;
                if self.admits_place(access, scalar, number, global, &moved) {
                    return Ok(moved);
                }
                place.copy()
            }
        }
    }

    /// A place of an access, by the variable to which its base register is known to point where that passes the check.
    #[tactic(auto, unfolding(crate::specs::Fold::folded_place))]
    pub(crate) fn place(
        &self,
        row: &ValueRow,
        access: Access,
        scalar: Scalar,
        place: &Place,
    ) -> Result<Place, OutOfMemory>
        requires folder { IsFolder self.now }
        requires fit { Fit self.now.scene row.now }
        ensures { IfOk result (λ q. q ≡ folded_place (folding_in self.now) row.now (access_check (folding_in self.now).env access scalar) place.now) }
    {
        let Base::Reg(name) = &place.base else {
            return place.copy();
        };
        match self.known_register(row, name)? {
            None => place.copy(),
            Some(Constant::Int(_)) => place.copy(),
            Some(Constant::Null) => place.copy(),
            Some(Constant::Global { number, offset }) => {
                self.place_from(access, scalar, place, number, offset)
            }
        }
    }
}
