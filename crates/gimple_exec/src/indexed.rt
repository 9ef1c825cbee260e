//! A program with what is found in it again and again.

ghost use Rattle.std.specs.Prelude.{◌≡◌, ◌<◌, ◌^◌, [], ◌↔◌, IfOk, IsTrue, length, map, slice_index_or};
ghost use Rattle.std.specs.List.{All};
ghost use Rattle.std.specs.Str.{bytes_eq};
ghost use Rattle.gimple_exec.specs.Places.{IsPlace};
ghost use Rattle.gimple_core.specs.Run.{same_scalars, same_result, has_signature, called_by_name, called_with, function_named};
ghost use Rattle.gimple_lowered.specs.Lowered.{piece_of};
ghost use Rattle.gimple_lowered.specs.Meaning.{function_at};
ghost use Rattle.gimple_exec.specs.Machines.{function_of, block_of, IsLimited, IsCalled};
ghost use Rattle.gimple_exec.specs.Tables.{codes_of, names_at};

use crate::values::is_same_scalar;
use gimple_core::{Function, Mode, OutOfMemory, Program, Register, Scalar, Signature, TrapKind};
use gimple_lowered::{Code, Piece, code_of};
use name_tables::{NamedFunctions, NamedGlobals};
use std::alloc::Global as Heap;
use std::marker::Model;
use struct_tables::Structs;

/// A program and the mode of its arithmetic, with its structs, functions and globals by their names, and the lowered form of
/// each function.
#[derive(Drop)]
pub struct Indexed<'a> {
    program: &'a Program,
    mode: Mode,
    structs: Structs<'a>,
    functions: NamedFunctions<'a>,
    globals: NamedGlobals<'a>,
    codes: Vec<Code<'a>>,
}

impl<'a> Model for Indexed<'a> {
    ghost use Rattle.gimple_core.specs.Sealed.{Sealed};
    ghost use Rattle.gimple_exec.specs.Tables.{IsIndexed};

    ghost Value = { Sealed };

    ghost view = { λ x. record { program = x.program.now; mode = x.mode } };

    ghost invariant = { λ x. IsIndexed x.program.now x.structs x.functions x.globals x.codes.items };
}

fn codes<'a>(
    alloc: Heap,
    program: &'a Program,
    functions: &NamedFunctions<'a>,
    globals: &NamedGlobals<'a>,
) -> Result<Vec<Code<'a>>, OutOfMemory>
    requires functions { functions.now ≡ program.now.functions }
    requires named { globals.now ≡ program.now.globals }
    requires globals { length program.now.globals < 2 ^ 32 }
    requires locals { All (λ f. length f.locals < 2 ^ 32) program.now.functions }
    ensures { IfOk result (λ rows. rows.items ≡ codes_of program.now.functions program.now.globals program.now.functions) }
{
    let bodies = program.functions.as_slice();
    let mut rows = Vec::new(alloc);
    for k in 0..bodies.len() {
        rows.push(code_of(alloc, functions, globals, &bodies[k])?)?;
    }
    Ok(rows)
}

fn piece_in<'c, 'a>(code: &'c [Piece<'a>], block: usize) -> &'c Piece<'a>
    requires { block < length code.now }
    ensures { result.now ≡ slice_index_or code.now block result.now }
{
    &code[block]
}

/// Whether formals have these scalars.
fn have_scalars(params: &[Register], scalars: &[Scalar]) -> bool
    ensures { result ≡ same_scalars (map (λ r. r.scalar) params.now) scalars.now }
{
    if params.len() != scalars.len() {
        return false;
    }
    for k in 0..params.len() {
        if !is_same_scalar(params[k].scalar, scalars[k]) {
            return false;
        }
    }
    true
}

fn is_same_result(left: Option<Scalar>, right: Option<Scalar>) -> bool
    ensures { result ≡ same_result left right }
{
    match (left, right) {
        (None, None) => true,
        (Some(a), Some(b)) => is_same_scalar(a, b),
        _ => false,
    }
}

/// Whether a function has the formal scalars and the result that are written.
fn has_signature(function: &Function, signature: &Signature) -> bool
    ensures { result ≡ has_signature signature.now function.now }
{
    have_scalars(function.params.as_slice(), signature.params.as_slice())
        && is_same_result(function.result, signature.result)
}

impl<'a> Indexed<'a> {
    /// The program with its tables.
    pub fn new(alloc: Heap, program: &'a Program, mode: Mode) -> Result<Indexed<'a>, OutOfMemory>
        requires limits { IsLimited (record { program = program.now; mode = mode }) }
        requires locals { All (λ f. length f.locals < 2 ^ 32) program.now.functions }
        ensures { IfOk result (λ x. x ≡ record { program = program.now; mode = mode }) }
    {
        let structs = Structs::of(alloc, program.structs.as_slice())?;
        let functions = NamedFunctions::new(alloc, program.functions.as_slice())?;
        let globals = NamedGlobals::new(alloc, program.globals.as_slice())?;
        let codes = codes(alloc, program, &functions, &globals)?;
        Ok(Indexed {
            program,
            mode,
            structs,
            functions,
            globals,
            codes,
        })
    }

    /// The program itself.
    pub fn source(&self) -> &'a Program
        ensures { result.now ≡ self.now.program }
    {
        self.program
    }

    /// A function of the program.
    pub fn function_at(&self, k: usize) -> &Function
        requires { k < length self.now.program.functions }
        ensures { result.now ≡ function_of self.now k }
    {
        &self.program.functions.as_slice()[k]
    }

    /// The mode of its arithmetic.
    pub fn mode(&self) -> Mode
        ensures { result ≡ self.now.mode }
    {
        self.mode
    }

    /// How many blocks a function has.
    pub fn block_count(&self, function: usize) -> usize
        requires { function < length self.now.program.functions }
        ensures { result ≡ length (function_of self.now function).blocks }
    {
        self.function_at(function).blocks.len()
    }

    /// The lowered form of a block.
    pub fn piece(&self, function: usize, block: usize) -> &Piece<'a>
        requires function { function < length self.now.program.functions }
        requires block { block < length (function_of self.now function).blocks }
        ensures { result.now ≡ piece_of (names_at self.now function) (block_of (function_of self.now function) block) }
    {
        piece_in(self.codes[function].as_slice(), block)
    }

    /// Whether a function has no blocks.
    pub fn is_bodiless(&self, k: usize) -> bool
        requires { k < length self.now.program.functions }
        ensures { IsTrue result ↔ ((function_of self.now k).blocks ≡ []) }
    {
        self.function_at(k).blocks.is_empty()
    }

    /// The structs of the program.
    pub fn structs(&self) -> &Structs<'a>
        ensures { result.now ≡ self.now.program.structs }
    {
        &self.structs
    }

    /// The globals of the program.
    pub fn globals(&self) -> &NamedGlobals<'a>
        ensures { result.now ≡ self.now.program.globals }
    {
        &self.globals
    }

    /// The first function of a name.
    pub fn named_place(&self, name: &[u8]) -> Option<usize>
        ensures { IsPlace (λ f. bytes_eq f.name name.now) self.now.program.functions result }
    {
        self.functions.place_of(name)
    }

    /// The function of a number, or the kind of trap.
    pub fn callee(&self, number: Option<usize>) -> Result<usize, TrapKind>
        ensures { IsCalled self.now result (called_by_name (function_at self.now.program.functions number)) }
    {
        let Some(k) = number else {
            return Err(TrapKind::Abort);
        };
        if k < self.program.functions.len() {
            Ok(k)
        } else {
            Err(TrapKind::Abort)
        }
    }

    /// The function of a name, if it has this signature, or the kind of trap.
    #[tactic(auto, unfolding(gimple_core::specs::Run::function_named))]
    pub fn target(&self, name: &[u8], signature: &Signature) -> Result<usize, TrapKind>
        ensures { IsCalled self.now result (called_with signature.now (function_named name.now self.now.program.functions)) }
    {
        let Some(k) = self.named_place(name) else {
            return Err(TrapKind::BadCall);
        };
        if has_signature(self.function_at(k), signature) {
            Ok(k)
        } else {
            Err(TrapKind::BadCall)
        }
    }
}
