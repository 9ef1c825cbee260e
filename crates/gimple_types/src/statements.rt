//! Checks of statements and of the ends of blocks.

ghost use Rattle.std.specs.Prelude.{◌≡◌, [], ◌+◌, ◌<◌, ◌≤◌, ◌^◌, length, sum_by};
ghost use Rattle.gimple_core.specs.Env as names;
ghost use Rattle.gimple_ir.specs.Size.{size_of_block};
ghost use Rattle.gimple_core.specs.Statements as spec;
ghost use Rattle.gimple_types.specs.Seen.{env_of};
ghost use Rattle.gimple_types.specs.Addresses.{address_of};
ghost use Rattle.gimple_types.specs.Verdicts.{Becomes, Judges};
ghost use Rattle.std.specs.Option.{option_copied};

use crate::env::Env;
use crate::names::CaseValues;
use crate::refusal::{Fail, Refusal, at, at_site, demand};
use crate::scalars::{
    is_add, is_number, is_order, is_pointer, is_printable, is_shift, same_scalar,
};
use gimple_core::{
    Base, Block, Case, Cmp, Decl, End, Op, Operand, Place, Register, Scalar, Signature, Site, Stmt,
    Text, TypeFault, fits,
};
use std::alloc::Global as Heap;

#[tactic(auto, unfolding(gimple_core::specs::Env::scalar_of))]
fn scalar_of<'a>(env: &Env<'_, 'a>, name: &'a [u8]) -> Result<Scalar, u8>
    ensures { result ≡ names.scalar_of (env_of env.now) name.now }
{
    match env.own.registers.find(name) {
        Some(register) => Ok(register.scalar),
        None => Err(1),
    }
}

fn is_variable<'a>(env: &Env<'_, 'a>, name: &'a [u8]) -> bool
    ensures { result ≡ names.is_variable (env_of env.now) name.now }
{
    env.own.locals.has(name) || env.known.globals.has(name)
}

/// Whether a name is that of a function that may be addressed.
fn is_target<'a>(env: &Env<'_, 'a>, name: &'a [u8]) -> bool
    ensures { result ≡ names.is_target (env_of env.now).targets name.now }
{
    if env.known.has_targets {
        env.known.functions.has(name)
    } else {
        false
    }
}

/// The address of a name with an offset.
fn address<'a>(env: &Env<'_, 'a>, name: &'a [u8], offset: i128) -> Result<(), u8>
    ensures { result ≡ address_of (env_of env.now) name.now offset }
{
    let variable = is_variable(env, name);
    demand(variable || is_target(env, name), 1)?;
    demand(fits(Scalar::I64, offset), 13)?;
    demand(variable || offset == 0, 11)
}

/// An operand against a scalar; `wrong` is the code of an operand of another scalar or kind.
#[tactic(auto, unfolding(gimple_core::specs::Statements::operand))]
fn operand<'a>(env: &Env<'_, 'a>, wrong: u8, scalar: Scalar, x: &'a Operand) -> Result<(), u8>
    ensures { result ≡ spec.operand (env_of env.now) wrong scalar x.now }
{
    match x {
        Operand::Reg(name) => {
            let own = scalar_of(env, name.as_slice())?;
            demand(same_scalar(own, scalar), wrong)
        }
        Operand::Number(z) => {
            demand(!is_pointer(scalar), wrong)?;
            demand(fits(scalar, *z), 13)
        }
        Operand::Null => demand(is_pointer(scalar), wrong),
        Operand::Address { variable, offset } => {
            demand(is_pointer(scalar), wrong)?;
            address(env, variable.as_slice(), *offset)
        }
    }
}

/// The count of a shift.
#[tactic(auto, unfolding(gimple_core::specs::Statements::count))]
fn count<'a>(env: &Env<'_, 'a>, scalar: Scalar, x: &'a Operand) -> Result<(), u8>
    ensures { result ≡ spec.count (env_of env.now) scalar x.now }
{
    match x {
        Operand::Reg(name) => {
            let own = scalar_of(env, name.as_slice())?;
            demand(!is_pointer(own), 4)
        }
        _ => operand(env, 4, scalar, x),
    }
}

#[tactic(auto, unfolding(gimple_core::specs::Statements::right_side))]
fn right_side<'a>(env: &Env<'_, 'a>, scalar: Scalar, op: Op, right: &'a Operand) -> Result<(), u8>
    ensures { result ≡ spec.right_side (env_of env.now) scalar op right.now }
{
    if is_shift(op) {
        count(env, scalar, right)
    } else {
        operand(env, 4, scalar, right)
    }
}

#[tactic(auto, unfolding(gimple_core::specs::Statements::arith))]
fn arith<'a>(
    env: &Env<'_, 'a>,
    scalar: Scalar,
    left: &'a Operand,
    op: Op,
    right: &'a Operand,
) -> Result<(), u8>
    ensures { result ≡ spec.arith (env_of env.now) scalar left.now op right.now }
{
    if is_pointer(scalar) {
        demand(is_add(op), 4)?;
        operand(env, 4, Scalar::Ptr, left)?;
        operand(env, 4, Scalar::I64, right)
    } else {
        operand(env, 4, scalar, left)?;
        right_side(env, scalar, op, right)
    }
}

/// The scalar of both sides of a comparison.
#[tactic(auto, unfolding(gimple_core::specs::Statements::common_scalar))]
fn common_scalar<'a>(env: &Env<'_, 'a>, left: &'a Operand, right: &'a Operand) -> Result<Scalar, u8>
    ensures { result ≡ spec.common_scalar (env_of env.now) left.now right.now }
{
    match (left, right) {
        (Operand::Reg(name), _) => scalar_of(env, name.as_slice()),
        (_, Operand::Reg(name)) => scalar_of(env, name.as_slice()),
        _ => {
            demand(!(is_number(left) || is_number(right)), 4)?;
            Ok(Scalar::Ptr)
        }
    }
}

#[tactic(auto, unfolding(gimple_core::specs::Statements::compared))]
fn compared<'a>(
    env: &Env<'_, 'a>,
    left: &'a Operand,
    cmp: Cmp,
    right: &'a Operand,
) -> Result<(), u8>
    ensures { result ≡ spec.compared (env_of env.now) left.now cmp right.now }
{
    let scalar = common_scalar(env, left, right)?;
    operand(env, 4, scalar, left)?;
    operand(env, 4, scalar, right)?;
    demand(!(is_pointer(scalar) && is_order(cmp)), 4)
}

/// The scalar of a register that holds an integer.
#[tactic(auto, unfolding(gimple_core::specs::Statements::integer))]
fn integer<'a>(env: &Env<'_, 'a>, x: &'a Operand) -> Result<Scalar, u8>
    ensures { result ≡ spec.integer (env_of env.now) x.now }
{
    match x {
        Operand::Reg(name) => {
            let own = scalar_of(env, name.as_slice())?;
            demand(!is_pointer(own), 4)?;
            Ok(own)
        }
        _ => Err(4),
    }
}

#[tactic(auto, unfolding(gimple_core::specs::Statements::converted))]
fn converted<'a>(env: &Env<'_, 'a>, to: Scalar, scalar: Scalar, from: &'a Operand) -> Result<(), u8>
    ensures { result ≡ spec.converted (env_of env.now) to scalar from.now }
{
    integer(env, from)?;
    demand(!is_pointer(scalar), 4)?;
    demand(same_scalar(scalar, to), 4)
}

/// The declaration of a variable.
fn variable<'a>(env: &Env<'_, 'a>, name: &'a [u8]) -> Option<&'a Decl>
    ensures { option_copied result ≡ names.variable (env_of env.now) name.now }
{
    match env.own.locals.find(name) {
        Some(decl) => Some(decl),
        None => match env.known.globals.find(name) {
            Some(global) => Some(&global.decl),
            None => None,
        },
    }
}

#[tactic(auto, unfolding(gimple_core::specs::Statements::place_at))]
fn place<'a>(env: &Env<'_, 'a>, scalar: Scalar, place: &'a Place) -> Result<(), u8>
    ensures { result ≡ spec.place (env_of env.now) scalar place.now }
{
    match &place.base {
        Base::Reg(name) => {
            let own = scalar_of(env, name.as_slice())?;
            demand(is_pointer(own), 4)?;
            demand(fits(Scalar::I64, place.offset), 13)
        }
        Base::Variable(name) => match variable(env, name.as_slice()) {
            None => Err(1),
            Some(decl) => {
                demand(fits(Scalar::I64, place.offset), 13)?;
                demand(env.known.structs.has_slot(decl, place.offset, scalar), 11)
            }
        },
    }
}

/// Whether a place is a read-only global.
fn is_read_only<'a>(env: &Env<'_, 'a>, base: &'a Base) -> bool
    ensures { result ≡ spec.is_read_only (env_of env.now) base.now }
{
    match base {
        Base::Variable(name) => match env.known.globals.find(name.as_slice()) {
            Some(global) => global.constant,
            None => false,
        },
        Base::Reg(_) => false,
    }
}

/// Each argument against its scalar.
#[tactic(auto, unfolding(gimple_core::specs::Statements::arguments))]
fn arguments<'a>(env: &Env<'_, 'a>, scalars: &[Scalar], xs: &'a [Operand]) -> Result<(), u8>
    ensures { result ≡ spec.arguments (env_of env.now) scalars.now xs.now }
{
    let mut left = scalars;
    let mut right = xs;
    while let [scalar, more @ ..] = left {
        match right {
            [] => return Ok(()),
            [x, others @ ..] => {
                operand(env, 6, *scalar, x)?;
                left = more;
                right = others;
            }
        }
    }
    Ok(())
}

/// Each argument against its formal.
#[tactic(auto, unfolding(gimple_core::specs::Statements::arguments))]
fn formal_arguments<'a>(
    env: &Env<'_, 'a>,
    formals: &[Register],
    xs: &'a [Operand],
) -> Result<(), u8>
    ensures { result ≡ spec.arguments (env_of env.now) (spec.scalars_of formals.now) xs.now }
{
    let mut left = formals;
    let mut right = xs;
    while let [formal, more @ ..] = left {
        match right {
            [] => return Ok(()),
            [x, others @ ..] => {
                operand(env, 6, formal.scalar, x)?;
                left = more;
                right = others;
            }
        }
    }
    Ok(())
}

/// The scalar of a call's target.
fn target<'a>(env: &Env<'_, 'a>, to: &'a Option<Text>) -> Result<Option<Scalar>, u8>
    ensures { result ≡ spec.target (env_of env.now) to.now }
{
    match to {
        None => Ok(None),
        Some(name) => Ok(Some(scalar_of(env, name.as_slice())?)),
    }
}

fn result_fits(to: Option<Scalar>, from: Option<Scalar>) -> Result<(), u8>
    ensures { result ≡ spec.result_fits to from }
{
    match (to, from) {
        (None, _) => Ok(()),
        (Some(_), None) => Err(7),
        (Some(to), Some(from)) => demand(same_scalar(to, from), 4),
    }
}

#[tactic(auto, unfolding(gimple_core::specs::Statements::called))]
fn called<'a>(
    env: &Env<'_, 'a>,
    to: &'a Option<Text>,
    callee: &'a [u8],
    xs: &'a [Operand],
) -> Result<(), u8>
    ensures { result ≡ spec.called (env_of env.now) env.now.known.now.functions to.now callee.now xs.now }
{
    let scalar = target(env, to)?;
    match env.known.functions.find(callee) {
        None => Err(1),
        Some(function) => {
            demand(xs.len() == function.params.len(), 5)?;
            formal_arguments(env, function.params.as_slice(), xs)?;
            result_fits(scalar, function.result)
        }
    }
}

/// A call through a register, by the signature that it writes.
#[tactic(auto, unfolding(gimple_core::specs::Statements::called_through))]
fn called_through<'a>(
    env: &Env<'_, 'a>,
    to: &'a Option<Text>,
    signature: &Signature,
    callee: &'a [u8],
    xs: &'a [Operand],
) -> Result<(), u8>
    ensures { result ≡ spec.called_through (env_of env.now) to.now signature.now callee.now xs.now }
{
    let scalar = target(env, to)?;
    demand(env.known.has_targets, 1)?;
    let own = scalar_of(env, callee)?;
    demand(is_pointer(own), 4)?;
    demand(xs.len() == signature.params.len(), 5)?;
    arguments(env, signature.params.as_slice(), xs)?;
    result_fits(scalar, signature.result)
}

#[tactic(auto, unfolding(gimple_core::specs::Statements::printed))]
fn printed<'a>(env: &Env<'_, 'a>, from: &'a Operand) -> Result<(), u8>
    ensures { result ≡ spec.printed (env_of env.now) from.now }
{
    match from {
        Operand::Reg(name) => {
            let own = scalar_of(env, name.as_slice())?;
            demand(!is_pointer(own), 4)
        }
        Operand::Number(z) => demand(is_printable(*z), 13),
        _ => Err(4),
    }
}

/// A statement's checks in order.
#[tactic(auto, unfolding(gimple_core::specs::Statements::statement))]
fn statement<'a>(env: &Env<'_, 'a>, stmt: &'a Stmt) -> Result<(), u8>
    ensures { result ≡ spec.statement (env_of env.now) env.now.known.now.functions stmt.now }
{
    match stmt {
        Stmt::Copy { to, from } => {
            let scalar = scalar_of(env, to.as_slice())?;
            operand(env, 4, scalar, from)
        }
        Stmt::Arith {
            to,
            left,
            op,
            right,
        } => {
            let scalar = scalar_of(env, to.as_slice())?;
            arith(env, scalar, left, *op, right)
        }
        Stmt::Compare {
            to,
            left,
            cmp,
            right,
        } => {
            let scalar = scalar_of(env, to.as_slice())?;
            demand(!is_pointer(scalar), 4)?;
            compared(env, left, *cmp, right)
        }
        Stmt::Convert { to, scalar, from } => {
            let own = scalar_of(env, to.as_slice())?;
            converted(env, own, *scalar, from)
        }
        Stmt::Load {
            to,
            scalar,
            place: from,
        } => {
            let own = scalar_of(env, to.as_slice())?;
            demand(same_scalar(*scalar, own), 4)?;
            place(env, *scalar, from)
        }
        Stmt::Store {
            scalar,
            place: to,
            from,
        } => {
            place(env, *scalar, to)?;
            demand(!is_read_only(env, &to.base), 14)?;
            operand(env, 4, *scalar, from)
        }
        Stmt::Call {
            to,
            callee,
            arguments,
        } => called(env, to, callee.as_slice(), arguments.as_slice()),
        Stmt::Indirect {
            to,
            signature,
            callee,
            arguments,
        } => called_through(env, to, signature, callee.as_slice(), arguments.as_slice()),
        Stmt::Get { to } => {
            let own = scalar_of(env, to.as_slice())?;
            demand(same_scalar(own, Scalar::I64), 4)
        }
        Stmt::Put { from } => printed(env, from),
        Stmt::Abort => Ok(()),
    }
}

#[tactic(auto, unfolding(gimple_core::specs::Statements::label))]
fn label(env: &Env<'_, '_>, to: u64) -> Result<(), u8>
    ensures { result ≡ spec.label (env_of env.now) to }
{
    demand(env.own.labels.has(to), 8)
}

/// The label of each case.
#[tactic(auto, unfolding(gimple_core::specs::Statements::case_labels))]
fn case_labels(env: &Env<'_, '_>, cases: &[Case]) -> Result<(), u8>
    ensures { result ≡ spec.case_labels (env_of env.now) cases.now }
{
    let mut rest = cases;
    while let [next, after @ ..] = rest {
        label(env, next.target)?;
        rest = after;
    }
    Ok(())
}

#[tactic(auto, unfolding(gimple_core::specs::Statements::returned))]
fn returned<'a>(env: &Env<'_, 'a>, x: &'a Option<Operand>, scalar: Option<Scalar>) -> Result<(), u8>
    ensures { result ≡ spec.returned (env_of env.now) x.now scalar }
{
    match (x, scalar) {
        (None, None) => Ok(()),
        (Some(x), Some(scalar)) => operand(env, 16, scalar, x),
        _ => Err(16),
    }
}

/// The values of cases, each of the scalar and none twice.
#[tactic(auto, unfolding(gimple_core::specs::Statements::case_values))]
fn case_values(alloc: Heap, scalar: Scalar, cases: &[Case]) -> Result<(), Fail>
    ensures { Becomes (spec.case_values scalar [] cases.now) result tt }
{
    let mut earlier = CaseValues::new(alloc);
    let mut rest = cases;
    while let [next, after @ ..] = rest {
        earlier.declare(scalar, next.value)?;
        rest = after;
    }
    Ok(())
}

/// An end's checks in order.
#[tactic(auto, unfolding(gimple_core::specs::Statements::ending))]
fn ending<'a>(alloc: Heap, env: &Env<'_, 'a>, end: &'a End) -> Result<(), Fail>
    ensures { Becomes (spec.ending (env_of env.now) end.now) result tt }
{
    match end {
        End::Goto(to) => label(env, *to)?,
        End::If {
            left,
            cmp,
            right,
            yes,
            no,
        } => {
            compared(env, left, *cmp, right)?;
            label(env, *yes)?;
            label(env, *no)?;
        }
        End::Switch { on, cases, other } => {
            let scalar = integer(env, on)?;
            case_values(alloc, scalar, cases.as_slice())?;
            case_labels(env, cases.as_slice())?;
            label(env, *other)?;
        }
        End::Return(x) => returned(env, x, env.own.result)?,
    }
    Ok(())
}

/// Statements in order, numbered from a number on.
#[tactic(auto, unfolding(gimple_core::specs::Statements::body))]
fn body<'a>(
    env: &Env<'_, 'a>,
    function: u32,
    number: u64,
    stmts: &'a [Stmt],
) -> Result<(), TypeFault>
    requires { number + length stmts.now ≤ 2 ^ 32 }
    ensures { result ≡ spec.body (env_of env.now) env.now.known.now.functions function number stmts.now }
{
    let mut number = number;
    let mut rest = stmts;
    while let [next, after @ ..] = rest {
        let site = Site::Statement {
            function,
            number: number as u32,
        };
        at(site, statement(env, next))?;
        number += 1;
        rest = after;
    }
    Ok(())
}

/// The blocks of a function in order, their statements and ends numbered from a number on.
#[tactic(auto, unfolding(gimple_core::specs::Statements::blocks))]
pub(crate) fn blocks<'a>(
    alloc: Heap,
    env: &Env<'_, 'a>,
    function: u32,
    number: u64,
    items: &'a [Block],
) -> Result<(), Refusal>
    requires { number + sum_by size_of_block items.now ≤ 2 ^ 32 }
    ensures { Judges (spec.blocks (env_of env.now) env.now.known.now.functions function number items.now) result tt }
{
    let mut number = number;
    let mut rest = items;
    while let [next, after @ ..] = rest {
        match body(env, function, number, next.body.as_slice()) {
            Ok(()) => {}
            Err(fault) => return Err(Refusal::Fault(fault)),
        }
        let last = number + next.body.len() as u64;
        let site = Site::Statement {
            function,
            number: last as u32,
        };
        match ending(alloc, env, &next.end) {
            Ok(()) => {}
            Err(fail) => return Err(at_site(site, fail)),
        }
        number = last + 1;
        rest = after;
    }
    Ok(())
}
