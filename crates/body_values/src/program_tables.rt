//! What is found in a program again and again, in tables.

ghost use Rattle.std.specs.Prelude.{◌≡◌, IfOk, find, position};
ghost use Rattle.std.specs.Option.{option_copied};
ghost use Rattle.std.specs.Str.{bytes_eq};
ghost use Rattle.gimple_core.specs.Accepted.{IsAccepted};
ghost use Rattle.value_domain.specs.Thresholds.{thresholds_list};

use gimple_core::{Checked, Function, OutOfMemory, Params, Program, Text};
use name_tables::{NamedFunctions, NamedGlobals};
use std::alloc::Global;
use std::marker::Model;
use struct_tables::Structs;
use value_domain::{Thresholds, thresholds_of};

/// A program with its structs, its globals and functions by name and its thresholds, made once for all of its functions.
#[derive(Drop)]
pub struct ProgramTables<'a> {
    program: &'a Checked,
    structs: Structs<'a>,
    globals: NamedGlobals<'a>,
    functions: NamedFunctions<'a>,
    limits: Thresholds,
}

impl<'a> Model for ProgramTables<'a> {
    ghost use Rattle.body_values.specs.Tabled.{Tabled, AreTables};

    ghost Value = { Tabled };

    ghost view = { λ t. record { program = t.program.now; size = t.limits.size } };

    ghost invariant = { λ t. AreTables t.program.now.program t.structs t.globals t.functions t.limits.ends };
}

impl<'a> ProgramTables<'a> {
    /// The tables of a program, for lists of constants that are as long as the options say. It goes over the whole program.
    /// Err is want of memory.
    pub fn new(
        alloc: Global,
        program: &'a Checked,
        limits: &Params,
    ) -> Result<ProgramTables<'a>, OutOfMemory>
        ensures { IfOk result (λ t. t ≡ record { program = program.now; size = limits.now.ipa_cp_value_list_size }) }
    {
        let thresholds = thresholds_of(alloc, program, limits)?;
        let tables = ProgramTables::with(alloc, program, thresholds)?;
        Ok(tables)
    }

    /// The tables of a program whose thresholds are known. Err is want of memory.
    #[tactic(auto, using(struct_tables::proofs::AcceptedStructs::accepted_structs))]
    pub fn with(
        alloc: Global,
        program: &'a Checked,
        limits: Thresholds,
    ) -> Result<ProgramTables<'a>, OutOfMemory>
        requires { limits.ends ≡ thresholds_list program.now.program }
        ensures { IfOk result (λ t. t ≡ record { program = program.now; size = limits.size }) }
    {
        let inside = program.program();
        let structs = Structs::of(alloc, inside.structs.as_slice())?;
        let globals = NamedGlobals::new(alloc, inside.globals.as_slice())?;
        let functions = NamedFunctions::new(alloc, inside.functions.as_slice())?;
        Ok(ProgramTables {
            program,
            structs,
            globals,
            functions,
            limits,
        })
    }

    /// The program, with the mode of its arithmetic.
    pub fn checked(&self) -> &'a Checked
        ensures { result.now ≡ self.now.program }
    {
        self.program
    }

    /// The program, to be read.
    pub fn program(&self) -> &'a Program
        ensures same { result.now ≡ self.now.program.program }
        ensures accepted { IsAccepted self.now.program.program }
    {
        self.program.program()
    }

    /// The program's structs, each with where its fields lie.
    pub fn structs(&self) -> &Structs<'a>
        ensures { result.now ≡ self.now.program.program.structs }
    {
        &self.structs
    }

    /// The program's globals, each found by its name.
    pub fn globals(&self) -> &NamedGlobals<'a>
        ensures { result.now ≡ self.now.program.program.globals }
    {
        &self.globals
    }

    /// A copy of the thresholds. Err is want of memory.
    pub fn thresholds(&self) -> Result<Thresholds, OutOfMemory>
        ensures size { IfOk result (λ t. t.size ≡ self.now.size) }
        ensures ends { IfOk result (λ t. t.ends ≡ thresholds_list self.now.program.program) }
    {
        let copy = self.limits.copy()?;
        Ok(copy)
    }

    /// The number of the first function of a name; None exactly where no function has it.
    pub fn function_place(&self, name: &Text) -> Option<usize>
        ensures { result ≡ position (λ f. bytes_eq f.name name.now) self.now.program.program.functions }
    {
        self.functions.place(name)
    }

    /// The first function of a name; None exactly where no function has it.
    pub fn named_function(&self, name: &Text) -> Option<&'a Function>
        ensures { option_copied result ≡ find (λ f. bytes_eq f.name name.now) self.now.program.program.functions }
    {
        self.functions.named(name)
    }
}
