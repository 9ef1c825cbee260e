//! Programs without a type fault.

ghost use Rattle.std.specs.Prelude.{◌≡◌};
ghost use Rattle.gimple_ir.specs.declared.scalar.Mode.TheVariants.{Trap};
ghost use Rattle.gimple_core.specs.Accepted.{IsAccepted};

use gimple_ir::{Mode, Program};
use std::marker::Model;

/// A program without a type fault, and the mode of its arithmetic.
#[derive(Debug, Drop)]
pub struct Checked {
    program: Program,
    mode: Mode,
}

impl Model for Checked {
    ghost use Rattle.gimple_core.specs.Sealed.{Sealed};
    ghost use Rattle.gimple_core.specs.Accepted.{IsAccepted};

    ghost Value = { Sealed };

    ghost view = { λ c. record { program = c.program; mode = c.mode } };

    ghost invariant = { λ c. IsAccepted c.program };
}

impl Checked {
    /// The program as one without a type fault, in the mode `Trap`. Takes no memory.
    pub fn seal(program: Program) -> Checked
        requires { IsAccepted program }
        ensures program { result.program ≡ program }
        ensures mode { result.mode ≡ Trap }
    {
        Checked::seal_as(program, Mode::Trap)
    }

    /// The program as one without a type fault, in this mode. Takes no memory.
    pub fn seal_as(program: Program, mode: Mode) -> Checked
        requires { IsAccepted program }
        ensures { result ≡ record { program = program; mode = mode } }
    {
        Checked { program, mode }
    }

    /// The mode of the program's arithmetic. Takes no memory.
    pub fn mode(&self) -> Mode
        ensures { result ≡ self.now.mode }
    {
        self.mode
    }

    /// The program, to be read. Takes no memory.
    pub fn program(&self) -> &Program
        ensures same { result.now ≡ self.now.program }
        ensures accepted { IsAccepted self.now.program }
    {
        &self.program
    }

    /// The program, taken out. Takes no memory.
    pub fn into_program(self) -> Program
        ensures same { result ≡ self.program }
        ensures accepted { IsAccepted self.program }
    {
        let Checked { program, mode: _ } = self;
        program
    }
}

fn crosses<T: Send + Sync>(_value: &T) {}

/// A checked program may be given to another thread, and read by several at once.
pub fn checked_crosses(checked: &Checked) {
    crosses(checked)
}
