//! The printer.

ghost use Rattle.std.specs.Prelude.{◌≡◌, ◌++◌, OnOk, IfOk};
ghost use Rattle.std.specs.List.{flat_map};
ghost use Rattle.std.specs.Fmt.{decimal, signed_decimal};
ghost use Rattle.gimple_text.specs.Canon as spec;
ghost use Rattle.gimple_text.specs.CanonLaws.{CanonSpells, PrintedIsRead, SpellableHasText, DroppingKeepsTexts};

use gimple_ir::{
    Base, Block, Case, Cmp, Decl, End, Function, Global, Op, Operand, OutOfMemory, Place, Program,
    Register, Scalar, Shape, Signature, Stmt, StructDef, Text,
};
use std::alloc::Global as Heap;

// ---- parts of lines

fn put_number(out: &mut Text, value: i128) -> Result<(), OutOfMemory>
    ensures { OnOk result (out.new ≡ out.old ++ signed_decimal value) }
{
    let text = value.to_string(out.allocator())?;
    out.push_all(text.as_bytes())
}

fn put_count(out: &mut Text, value: u64) -> Result<(), OutOfMemory>
    ensures { OnOk result (out.new ≡ out.old ++ decimal value) }
{
    let text = value.to_string(out.allocator())?;
    out.push_all(text.as_bytes())
}

fn put_scalar(out: &mut Text, scalar: Scalar) -> Result<(), OutOfMemory>
    ensures { OnOk result (out.new ≡ out.old ++ spec.scalar_text scalar) }
{
    out.push_all(match scalar {
        Scalar::I8 => b"i8",
        Scalar::I16 => b"i16",
        Scalar::I32 => b"i32",
        Scalar::I64 => b"i64",
        Scalar::U8 => b"u8",
        Scalar::U16 => b"u16",
        Scalar::U32 => b"u32",
        Scalar::U64 => b"u64",
        Scalar::Ptr => b"ptr",
    })
}

fn put_offset(out: &mut Text, offset: i128) -> Result<(), OutOfMemory>
    ensures { OnOk result (out.new ≡ out.old ++ spec.offset_text offset) }
{
    if offset == 0 {
        return Ok(());
    }
    out.push_all(b"@")?;
    put_number(out, offset)
}

fn put_operand(out: &mut Text, operand: &Operand) -> Result<(), OutOfMemory>
    ensures { OnOk result (out.new ≡ out.old ++ spec.operand_text operand.now) }
{
    match operand {
        Operand::Reg(name) => out.push_all(name.as_slice()),
        Operand::Number(value) => put_number(out, *value),
        Operand::Null => out.push_all(b"null"),
        Operand::Address { variable, offset } => {
            out.push_all(b"&")?;
            out.push_all(variable.as_slice())?;
            put_offset(out, *offset)
        }
    }
}

fn put_op(out: &mut Text, op: Op) -> Result<(), OutOfMemory>
    ensures { OnOk result (out.new ≡ out.old ++ spec.op_text op) }
{
    match op {
        Op::Add => out.push_all(b" + "),
        Op::Sub => out.push_all(b" - "),
        Op::Mul => out.push_all(b" * "),
        Op::Div => out.push_all(b" / "),
        Op::Rem => out.push_all(b" % "),
        Op::And => out.push_all(b" & "),
        Op::Or => out.push_all(b" | "),
        Op::Xor => out.push_all(b" ^ "),
        Op::Shl => out.push_all(b" << "),
        Op::Shr => out.push_all(b" >> "),
    }
}

fn put_cmp(out: &mut Text, cmp: Cmp) -> Result<(), OutOfMemory>
    ensures { OnOk result (out.new ≡ out.old ++ spec.cmp_text cmp) }
{
    match cmp {
        Cmp::Eq => out.push_all(b" == "),
        Cmp::Ne => out.push_all(b" != "),
        Cmp::Lt => out.push_all(b" < "),
        Cmp::Le => out.push_all(b" <= "),
        Cmp::Gt => out.push_all(b" > "),
        Cmp::Ge => out.push_all(b" >= "),
    }
}

fn put_comparison(
    out: &mut Text,
    left: &Operand,
    cmp: Cmp,
    right: &Operand,
) -> Result<(), OutOfMemory>
    ensures { OnOk result (out.new ≡ out.old ++ spec.comparison_text left.now cmp right.now) }
{
    put_operand(out, left)?;
    put_cmp(out, cmp)?;
    put_operand(out, right)
}

fn put_more(out: &mut Text, operands: &[Operand]) -> Result<(), OutOfMemory>
    ensures { OnOk result (out.new ≡ out.old ++ spec.more_text spec.operand_text operands.now) }
{
    let mut rest = operands;
    while let [next, after @ ..] = rest {
        out.push_all(b", ")?;
        put_operand(out, next)?;
        rest = after;
    }
    Ok(())
}

fn put_operands(out: &mut Text, operands: &[Operand]) -> Result<(), OutOfMemory>
    ensures { OnOk result (out.new ≡ out.old ++ spec.separated_text spec.operand_text operands.now) }
{
    match operands {
        [] => Ok(()),
        [first, rest @ ..] => {
            put_operand(out, first)?;
            put_more(out, rest)
        }
    }
}

fn put_mem(out: &mut Text, scalar: Scalar, place: &Place) -> Result<(), OutOfMemory>
    ensures { OnOk result (out.new ≡ out.old ++ spec.mem_text scalar place.now) }
{
    out.push_all(b"MEM <")?;
    put_scalar(out, scalar)?;
    out.push_all(b"> [")?;
    match &place.base {
        Base::Reg(name) => out.push_all(name.as_slice())?,
        Base::Variable(name) => {
            out.push_all(b"&")?;
            out.push_all(name.as_slice())?;
        }
    }
    put_offset(out, place.offset)?;
    out.push_all(b"]")
}

fn put_target(out: &mut Text, label: u64) -> Result<(), OutOfMemory>
    ensures { OnOk result (out.new ≡ out.old ++ spec.target_text label) }
{
    out.push_all(b"<bb ")?;
    put_count(out, label)?;
    out.push_all(b">")
}

fn put_goto(out: &mut Text, label: u64) -> Result<(), OutOfMemory>
    ensures { OnOk result (out.new ≡ out.old ++ spec.goto_text label) }
{
    out.push_all(b"goto ")?;
    put_target(out, label)?;
    out.push_all(b";")
}

#[tactic(auto, unfolding(crate::specs::Canon::branches_text))]
fn put_branches(out: &mut Text, yes: u64, no: u64) -> Result<(), OutOfMemory>
    ensures { OnOk result (out.new ≡ out.old ++ spec.branches_text yes no) }
{
    put_goto(out, yes)?;
    out.push_all(b" else ")?;
    put_goto(out, no)
}

// ---- statements and ends

fn put_assigned(out: &mut Text, to: &Text) -> Result<(), OutOfMemory>
    ensures { OnOk result (out.new ≡ out.old ++ spec.assigned_text to.now) }
{
    out.push_all(to.as_slice())?;
    out.push_all(b" = ")
}

fn put_call(out: &mut Text, callee: &Text, arguments: &[Operand]) -> Result<(), OutOfMemory>
    ensures { OnOk result (out.new ≡ out.old ++ spec.call_text callee.now arguments.now) }
{
    out.push_all(callee.as_slice())?;
    out.push_all(b" (")?;
    put_operands(out, arguments)?;
    out.push_all(b")")
}

fn put_to(out: &mut Text, to: &Option<Text>) -> Result<(), OutOfMemory>
    ensures { OnOk result (out.new ≡ out.old ++ spec.to_text to.now) }
{
    match to {
        None => Ok(()),
        Some(to) => put_assigned(out, to),
    }
}

fn put_result(out: &mut Text, result_scalar: Option<Scalar>) -> Result<(), OutOfMemory>
    ensures { OnOk result (out.new ≡ out.old ++ spec.result_text result_scalar) }
{
    match result_scalar {
        None => out.push_all(b"void"),
        Some(scalar) => put_scalar(out, scalar),
    }
}

fn put_more_scalars(out: &mut Text, scalars: &[Scalar]) -> Result<(), OutOfMemory>
    ensures { OnOk result (out.new ≡ out.old ++ spec.more_text spec.scalar_text scalars.now) }
{
    let mut rest = scalars;
    while let [next, after @ ..] = rest {
        out.push_all(b", ")?;
        put_scalar(out, *next)?;
        rest = after;
    }
    Ok(())
}

fn put_scalars(out: &mut Text, scalars: &[Scalar]) -> Result<(), OutOfMemory>
    ensures { OnOk result (out.new ≡ out.old ++ spec.separated_text spec.scalar_text scalars.now) }
{
    match scalars {
        [] => Ok(()),
        [first, rest @ ..] => {
            put_scalar(out, *first)?;
            put_more_scalars(out, rest)
        }
    }
}

#[tactic(auto, unfolding(crate::specs::Canon::signature_text))]
fn put_signature(out: &mut Text, signature: &Signature) -> Result<(), OutOfMemory>
    ensures { OnOk result (out.new ≡ out.old ++ spec.signature_text signature.now) }
{
    out.push_all(b"*<")?;
    put_result(out, signature.result)?;
    out.push_all(b" (")?;
    put_scalars(out, signature.params.as_slice())?;
    out.push_all(b")> ")
}

fn put_simple(out: &mut Text, statement: &Stmt) -> Result<(), OutOfMemory>
    ensures { OnOk result (out.new ≡ out.old ++ spec.simple_text statement.now) }
{
    match statement {
        Stmt::Copy { to, from } => {
            put_assigned(out, to)?;
            put_operand(out, from)
        }
        Stmt::Arith {
            to,
            left,
            op,
            right,
        } => {
            put_assigned(out, to)?;
            put_operand(out, left)?;
            put_op(out, *op)?;
            put_operand(out, right)
        }
        Stmt::Compare {
            to,
            left,
            cmp,
            right,
        } => {
            put_assigned(out, to)?;
            put_comparison(out, left, *cmp, right)
        }
        Stmt::Convert { to, scalar, from } => {
            put_assigned(out, to)?;
            out.push_all(b"(")?;
            put_scalar(out, *scalar)?;
            out.push_all(b") ")?;
            put_operand(out, from)
        }
        Stmt::Load { to, scalar, place } => {
            put_assigned(out, to)?;
            put_mem(out, *scalar, place)
        }
        Stmt::Store {
            scalar,
            place,
            from,
        } => {
            put_mem(out, *scalar, place)?;
            out.push_all(b" = ")?;
            put_operand(out, from)
        }
        Stmt::Call {
            to,
            callee,
            arguments,
        } => {
            put_to(out, to)?;
            put_call(out, callee, arguments.as_slice())
        }
        Stmt::Indirect {
            to,
            signature,
            callee,
            arguments,
        } => {
            put_to(out, to)?;
            put_signature(out, signature)?;
            put_call(out, callee, arguments.as_slice())
        }
        Stmt::Get { to } => {
            put_assigned(out, to)?;
            out.push_all(b"getint ()")
        }
        Stmt::Put { from } => {
            out.push_all(b"putint (")?;
            put_operand(out, from)?;
            out.push_all(b")")
        }
        Stmt::Abort => out.push_all(b"abort ()"),
    }
}

fn put_statement(out: &mut Text, statement: &Stmt) -> Result<(), OutOfMemory>
    ensures { OnOk result (out.new ≡ out.old ++ spec.statement_text statement.now) }
{
    out.push_all(b"    ")?;
    put_simple(out, statement)?;
    out.push_all(b";\n")
}

fn put_case(out: &mut Text, case: &Case) -> Result<(), OutOfMemory>
    ensures { OnOk result (out.new ≡ out.old ++ spec.case_text case.now) }
{
    out.push_all(b"case ")?;
    put_number(out, case.value)?;
    out.push_all(b": ")?;
    put_target(out, case.target)?;
    out.push_all(b"; ")
}

fn put_cases(out: &mut Text, cases: &[Case]) -> Result<(), OutOfMemory>
    ensures { OnOk result (out.new ≡ out.old ++ flat_map spec.case_text cases.now) }
{
    for case in cases {
        put_case(out, case)?;
    }
    Ok(())
}

fn put_if(
    out: &mut Text,
    left: &Operand,
    cmp: Cmp,
    right: &Operand,
    yes: u64,
    no: u64,
) -> Result<(), OutOfMemory>
    ensures { OnOk result (out.new ≡ out.old ++ spec.if_text left.now cmp right.now yes no) }
{
    out.push_all(b"if (")?;
    put_comparison(out, left, cmp, right)?;
    out.push_all(b") ")?;
    put_branches(out, yes, no)
}

fn put_end(out: &mut Text, end: &End) -> Result<(), OutOfMemory>
    ensures { OnOk result (out.new ≡ out.old ++ spec.end_text end.now) }
{
    match end {
        End::Goto(label) => put_goto(out, *label),
        End::If {
            left,
            cmp,
            right,
            yes,
            no,
        } => put_if(out, left, *cmp, right, *yes, *no),
        End::Switch { on, cases, other } => {
            out.push_all(b"switch (")?;
            put_operand(out, on)?;
            out.push_all(b") { ")?;
            put_cases(out, cases.as_slice())?;
            out.push_all(b"default: ")?;
            put_target(out, *other)?;
            out.push_all(b"; }")
        }
        End::Return(None) => out.push_all(b"return;"),
        End::Return(Some(value)) => {
            out.push_all(b"return ")?;
            put_operand(out, value)?;
            out.push_all(b";")
        }
    }
}

fn put_statements(out: &mut Text, statements: &[Stmt]) -> Result<(), OutOfMemory>
    ensures { OnOk result (out.new ≡ out.old ++ flat_map spec.statement_text statements.now) }
{
    for statement in statements {
        put_statement(out, statement)?;
    }
    Ok(())
}

fn put_block(out: &mut Text, block: &Block) -> Result<(), OutOfMemory>
    ensures { OnOk result (out.new ≡ out.old ++ spec.block_text block.now) }
{
    out.push_all(b"  ")?;
    put_target(out, block.label)?;
    out.push_all(b":\n")?;
    put_statements(out, block.body.as_slice())?;
    out.push_all(b"    ")?;
    put_end(out, &block.end)?;
    out.push_all(b"\n")
}

fn put_blocks(out: &mut Text, blocks: &[Block]) -> Result<(), OutOfMemory>
    ensures { OnOk result (out.new ≡ out.old ++ flat_map spec.block_text blocks.now) }
{
    for block in blocks {
        put_block(out, block)?;
    }
    Ok(())
}

// ---- declarations

fn put_decl(out: &mut Text, decl: &Decl) -> Result<(), OutOfMemory>
    ensures { OnOk result (out.new ≡ out.old ++ spec.decl_text decl.now) }
{
    match &decl.shape {
        Shape::Plain(scalar) => put_scalar(out, *scalar)?,
        Shape::Named(name) => {
            out.push_all(b"struct ")?;
            out.push_all(name.as_slice())?;
        }
    }
    out.push_all(b" ")?;
    out.push_all(decl.name.as_slice())?;
    put_length(out, decl.length)
}

fn put_length(out: &mut Text, length: Option<u64>) -> Result<(), OutOfMemory>
    ensures { OnOk result (out.new ≡ out.old ++ spec.length_text length) }
{
    match length {
        None => Ok(()),
        Some(length) => {
            out.push_all(b"[")?;
            put_count(out, length)?;
            out.push_all(b"]")
        }
    }
}

fn put_fields(out: &mut Text, fields: &[Decl]) -> Result<(), OutOfMemory>
    ensures { OnOk result (out.new ≡ out.old ++ flat_map spec.field_text fields.now) }
{
    for field in fields {
        put_field(out, field)?;
    }
    Ok(())
}

fn put_field(out: &mut Text, field: &Decl) -> Result<(), OutOfMemory>
    ensures { OnOk result (out.new ≡ out.old ++ spec.field_text field.now) }
{
    out.push_all(b"  ")?;
    put_decl(out, field)?;
    out.push_all(b";\n")
}

fn put_struct(out: &mut Text, def: &StructDef) -> Result<(), OutOfMemory>
    ensures { OnOk result (out.new ≡ out.old ++ spec.struct_text def.now) }
{
    out.push_all(b"struct ")?;
    out.push_all(def.name.as_slice())?;
    out.push_all(b" {\n")?;
    put_fields(out, def.fields.as_slice())?;
    out.push_all(b"};\n")
}

fn put_structs(out: &mut Text, structs: &[StructDef]) -> Result<(), OutOfMemory>
    ensures { OnOk result (out.new ≡ out.old ++ flat_map spec.struct_text structs.now) }
{
    for def in structs {
        put_struct(out, def)?;
    }
    Ok(())
}

fn put_items(out: &mut Text, items: &[Operand]) -> Result<(), OutOfMemory>
    ensures { OnOk result (out.new ≡ out.old ++ spec.items_text items.now) }
{
    if items.is_empty() {
        return Ok(());
    }
    out.push_all(b" = {")?;
    put_operands(out, items)?;
    out.push_all(b"}")
}

fn put_const(out: &mut Text, constant: bool) -> Result<(), OutOfMemory>
    ensures { OnOk result (out.new ≡ out.old ++ spec.const_text constant) }
{
    if constant {
        out.push_all(b"const ")
    } else {
        Ok(())
    }
}

fn put_global(out: &mut Text, global: &Global) -> Result<(), OutOfMemory>
    ensures { OnOk result (out.new ≡ out.old ++ spec.global_text global.now) }
{
    out.push_all(b"global ")?;
    put_const(out, global.constant)?;
    put_decl(out, &global.decl)?;
    put_items(out, global.items.as_slice())?;
    out.push_all(b";\n")
}

fn put_globals(out: &mut Text, globals: &[Global]) -> Result<(), OutOfMemory>
    ensures { OnOk result (out.new ≡ out.old ++ flat_map spec.global_text globals.now) }
{
    for global in globals {
        put_global(out, global)?;
    }
    Ok(())
}

// ---- functions and programs

fn put_register(out: &mut Text, register: &Register) -> Result<(), OutOfMemory>
    ensures { OnOk result (out.new ≡ out.old ++ spec.register_text register.now) }
{
    put_scalar(out, register.scalar)?;
    out.push_all(b" ")?;
    out.push_all(register.name.as_slice())
}

fn put_more_params(out: &mut Text, params: &[Register]) -> Result<(), OutOfMemory>
    ensures { OnOk result (out.new ≡ out.old ++ spec.more_text spec.register_text params.now) }
{
    let mut rest = params;
    while let [next, after @ ..] = rest {
        out.push_all(b", ")?;
        put_register(out, next)?;
        rest = after;
    }
    Ok(())
}

fn put_params(out: &mut Text, params: &[Register]) -> Result<(), OutOfMemory>
    ensures { OnOk result (out.new ≡ out.old ++ spec.separated_text spec.register_text params.now) }
{
    match params {
        [] => Ok(()),
        [first, rest @ ..] => {
            put_register(out, first)?;
            put_more_params(out, rest)
        }
    }
}

fn put_head(out: &mut Text, function: &Function) -> Result<(), OutOfMemory>
    ensures { OnOk result (out.new ≡ out.old ++ spec.head_text function.now) }
{
    put_result(out, function.result)?;
    out.push_all(b" ")?;
    out.push_all(function.name.as_slice())?;
    out.push_all(b" (")?;
    put_params(out, function.params.as_slice())?;
    out.push_all(b") {\n")
}

fn put_locals(out: &mut Text, locals: &[Decl]) -> Result<(), OutOfMemory>
    ensures { OnOk result (out.new ≡ out.old ++ flat_map spec.local_text locals.now) }
{
    for local in locals {
        put_local(out, local)?;
    }
    Ok(())
}

fn put_local(out: &mut Text, local: &Decl) -> Result<(), OutOfMemory>
    ensures { OnOk result (out.new ≡ out.old ++ spec.local_text local.now) }
{
    out.push_all(b"  local ")?;
    put_decl(out, local)?;
    out.push_all(b";\n")
}

fn put_register_line(out: &mut Text, register: &Register) -> Result<(), OutOfMemory>
    ensures { OnOk result (out.new ≡ out.old ++ spec.register_line register.now) }
{
    out.push_all(b"  ")?;
    put_register(out, register)?;
    out.push_all(b";\n")
}

fn put_registers(out: &mut Text, registers: &[Register]) -> Result<(), OutOfMemory>
    ensures { OnOk result (out.new ≡ out.old ++ flat_map spec.register_line registers.now) }
{
    for register in registers {
        put_register_line(out, register)?;
    }
    Ok(())
}

fn put_function(out: &mut Text, function: &Function) -> Result<(), OutOfMemory>
    ensures { OnOk result (out.new ≡ out.old ++ spec.function_text function.now) }
{
    put_head(out, function)?;
    put_locals(out, function.locals.as_slice())?;
    put_registers(out, function.registers.as_slice())?;
    put_blocks(out, function.blocks.as_slice())?;
    out.push_all(b"}\n")
}

fn put_functions(out: &mut Text, functions: &[Function]) -> Result<(), OutOfMemory>
    ensures { OnOk result (out.new ≡ out.old ++ flat_map spec.function_text functions.now) }
{
    for function in functions {
        put_function(out, function)?;
    }
    Ok(())
}

#[tactic(auto, unfolding(crate::specs::Canon::header_text))]
fn put_header(out: &mut Text, profile: u8) -> Result<(), OutOfMemory>
    ensures { OnOk result (out.new ≡ out.old ++ spec.header_text profile) }
{
    out.push_all(b"gimple ")?;
    put_count(out, u64::from(profile))?;
    out.push_all(b";\n")
}

/// The canonical text of a program: one spelling for each program that some text has.
///
/// Errors: want of memory.
#[tactic(auto, unfolding(crate::specs::Canon::canon))]
pub fn print(alloc: Heap, program: &Program) -> Result<Text, OutOfMemory>
    ensures { IfOk result (λ text. text ≡ spec.canon program.now) }
{
    let mut out = Text::new(alloc);
    put_header(&mut out, program.profile)?;
    put_structs(&mut out, program.structs.as_slice())?;
    put_globals(&mut out, program.globals.as_slice())?;
    put_functions(&mut out, program.functions.as_slice())?;
    Ok(out)
}

/// The canonical text of a program that some text has spells the program.
pub fn canon_spells()
    ensures { CanonSpells }
{}

/// Of a program that some text has, the canonical text spells this program alone: what is printed is read as itself.
pub fn printed_is_read()
    ensures { PrintedIsRead }
{}

/// A program is spellable exactly where some text spells it.
pub fn spellable_has_text()
    ensures { SpellableHasText }
{}

/// A program that some text spells has a text without any of its functions.
pub fn dropping_keeps_texts()
    ensures { DroppingKeepsTexts }
{}
