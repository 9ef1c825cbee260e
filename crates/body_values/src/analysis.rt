//! The values of registers as an analysis of a body.

ghost use Rattle.std.specs.Prelude.{◌≡◌, length, true};
ghost use Rattle.body_values.specs.Fitting.{file_by};
ghost use Rattle.body_values.specs.Ready.{Carried};

use crate::block_values::PointRow;
use crate::scene::Scene;
use crate::value_row::ValueRow;
use block_flow::BodyAnalysis;
use fix_engine::{Lattice, Lifted};
use gimple_core::{End, OutOfMemory, Stmt};

/// The analysis whose values are one abstract value a register, the formals first.
#[derive(Drop)]
pub struct ValueAnalysis<'a> {
    pub scene: Scene<'a>,
    pub entry: &'a PointRow,
    pub ghost carried: { Carried scene },
    pub ghost fit: { file_by scene.limits.now.size scene.limits.now.ends (length scene.registers.now) entry.now ≡ true },
}

impl<'a> BodyAnalysis for ValueAnalysis<'a> {
    ghost use Rattle.std.specs.Prelude.{◌∷◌};
    ghost use Rattle.value_domain.specs.Values.{kind_of};
    ghost use Rattle.body_values.specs.Flow.{steps_of};
    ghost use Rattle.body_values.specs.Scenes.{body_in};
    ghost use Rattle.body_values.specs.Ready.{carried_laws};

    type Value = ValueRow;

    ghost kind = { λ t. length t.scene.registers.now ∷ kind_of t.scene.limits.now.size t.scene.limits.now.ends };

    ghost steps = { λ t. steps_of (body_in t.scene) t.entry.now };

    ghost laws = { λ t. carried_laws t.scene t.entry.now t.carried t.fit };

    fn begin(&self) -> Result<PointRow, OutOfMemory> {
        self.entry.copy()
    }

    #[tactic(auto, using(crate::specs::Ready::ready_of, crate::specs::Ready::row_in))]
    fn statement(
        &self,
        block: u32,
        index: u32,
        statement: &Stmt,
        value: ValueRow,
    ) -> Result<PointRow, OutOfMemory> {
        let mut row = value;
        if self.scene.after(block, index, statement, &mut row)? {
            Ok(Lifted::Reached(row))
        } else {
            Ok(Lifted::NotReached)
        }
    }

    #[tactic(auto, using(crate::specs::Ready::ready_of, crate::specs::Ready::row_in))]
    fn branch(
        &self,
        _block: u32,
        end: &End,
        slot: u32,
        value: ValueRow,
    ) -> Result<PointRow, OutOfMemory> {
        self.scene.leave(end, slot, value)
    }
}
