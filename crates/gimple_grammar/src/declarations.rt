//! Declarations.

ghost use Rattle.std.specs.Prelude.{◌≡◌, [], ◌∷◌, length};
ghost use Rattle.token_law.specs.Reading as read;
ghost use Rattle.token_law.specs.Reading.{Reads};
ghost use Rattle.gimple_tokens.specs.declared.token.Symbol.TheVariants as s;
ghost use Rattle.gimple_grammar.specs.Readers as spec;

use crate::symbols::{scalar, sees_scalar};
use crate::values::one_or_more_items;
use gimple_ir::{
    Decl, Decls, Global, Globals, Items, Register, Registers, Shape, StructDef, StructDefs,
};
use gimple_tokens::Symbol;
use std::alloc::Global as Heap;
use token_law::{Cursor, Fault};

#[tactic(auto, unfolding(crate::specs::Readers::shape))]
fn shape(tokens: &mut Cursor<'_>) -> Result<Shape, Fault>
    ensures { Reads (spec.shape tokens.old) result tokens.new }
{
    if tokens.sees(Symbol::Struct) {
        tokens.fixed(Symbol::Struct)?;
        let name = tokens.name()?;
        Ok(Shape::Named(name))
    } else {
        let scalar = scalar(tokens)?;
        Ok(Shape::Plain(scalar))
    }
}

#[tactic(auto, unfolding(crate::specs::Readers::array))]
fn array(tokens: &mut Cursor<'_>) -> Result<Option<u64>, Fault>
    ensures { Reads (spec.array tokens.old) result tokens.new }
{
    if tokens.sees(Symbol::OpenBracket) {
        tokens.fixed(Symbol::OpenBracket)?;
        let length = tokens.number()?;
        tokens.fixed(Symbol::CloseBracket)?;
        Ok(Some(length))
    } else {
        Ok(None)
    }
}

#[tactic(auto, unfolding(crate::specs::Readers::decl))]
fn decl(tokens: &mut Cursor<'_>) -> Result<Decl, Fault>
    ensures { Reads (spec.decl tokens.old) result tokens.new }
{
    let shape = shape(tokens)?;
    let name = tokens.name()?;
    let length = array(tokens)?;
    Ok(Decl {
        name,
        shape,
        length,
    })
}

fn begins_decl(tokens: &Cursor<'_>) -> bool
    ensures { result ≡ spec.begins_decl tokens.now }
{
    tokens.sees(Symbol::Struct) || sees_scalar(tokens)
}

#[tactic(auto, unfolding(crate::specs::Readers::field))]
fn field(tokens: &mut Cursor<'_>) -> Result<Decl, Fault>
    ensures { Reads (spec.field tokens.old) result tokens.new }
{
    let decl = decl(tokens)?;
    tokens.fixed(Symbol::Semi)?;
    Ok(decl)
}

#[tactic(auto, using(token_law::proofs::Turns::goes_on, token_law::proofs::Turns::stops, token_law::proofs::Turns::fails, token_law::proofs::Turns::ends))]
fn fields(alloc: Heap, tokens: &mut Cursor<'_>) -> Result<Decls, Fault>
    ensures { Reads (read.many spec.begins_decl spec.field [] tokens.old) result tokens.new }
{
    let mut found = Decls::new(alloc);
    for _turn in 0..tokens.left() {
        if !begins_decl(tokens) {
            return Ok(found);
        }
        found.push(field(tokens)?)?;
    }
    Ok(found)
}

#[tactic(auto, unfolding(crate::specs::Readers::struct_def))]
fn struct_def(alloc: Heap, tokens: &mut Cursor<'_>) -> Result<StructDef, Fault>
    ensures { Reads (spec.struct_def tokens.old) result tokens.new }
{
    tokens.fixed(Symbol::Struct)?;
    let name = tokens.name()?;
    tokens.fixed(Symbol::OpenBrace)?;
    let fields = fields(alloc, tokens)?;
    tokens.fixed(Symbol::CloseBrace)?;
    tokens.fixed(Symbol::Semi)?;
    Ok(StructDef { name, fields })
}

#[tactic(auto, using(token_law::proofs::Turns::goes_on, token_law::proofs::Turns::stops, token_law::proofs::Turns::fails, token_law::proofs::Turns::ends))]
pub fn structs(alloc: Heap, tokens: &mut Cursor<'_>) -> Result<StructDefs, Fault>
    ensures { Reads (read.many (read.sees s.Struct) spec.struct_def [] tokens.old) result tokens.new }
{
    let mut found = StructDefs::new(alloc);
    for _turn in 0..tokens.left() {
        if !tokens.sees(Symbol::Struct) {
            return Ok(found);
        }
        found.push(struct_def(alloc, tokens)?)?;
    }
    Ok(found)
}

#[tactic(auto, unfolding(crate::specs::Readers::constant))]
fn constant(tokens: &mut Cursor<'_>) -> Result<bool, Fault>
    ensures { Reads (spec.constant tokens.old) result tokens.new }
{
    if tokens.sees(Symbol::Const) {
        tokens.fixed(Symbol::Const)?;
        Ok(true)
    } else {
        Ok(false)
    }
}

#[tactic(auto, unfolding(crate::specs::Readers::items))]
fn items(alloc: Heap, tokens: &mut Cursor<'_>) -> Result<Items, Fault>
    ensures { Reads (spec.items tokens.old) result tokens.new }
{
    if tokens.sees(Symbol::Assign) {
        tokens.fixed(Symbol::Assign)?;
        tokens.fixed(Symbol::OpenBrace)?;
        let items = one_or_more_items(alloc, tokens)?;
        tokens.fixed(Symbol::CloseBrace)?;
        Ok(items)
    } else {
        Ok(Items::new(alloc))
    }
}

#[tactic(auto, unfolding(crate::specs::Readers::global_def))]
fn global_def(alloc: Heap, tokens: &mut Cursor<'_>) -> Result<Global, Fault>
    ensures { Reads (spec.global_def tokens.old) result tokens.new }
{
    tokens.fixed(Symbol::Global)?;
    let constant = constant(tokens)?;
    let decl = decl(tokens)?;
    let items = items(alloc, tokens)?;
    tokens.fixed(Symbol::Semi)?;
    Ok(Global {
        decl,
        constant,
        items,
    })
}

#[tactic(auto, using(token_law::proofs::Turns::goes_on, token_law::proofs::Turns::stops, token_law::proofs::Turns::fails, token_law::proofs::Turns::ends))]
pub fn globals(alloc: Heap, tokens: &mut Cursor<'_>) -> Result<Globals, Fault>
    ensures { Reads (read.many (read.sees s.Global) spec.global_def [] tokens.old) result tokens.new }
{
    let mut found = Globals::new(alloc);
    for _turn in 0..tokens.left() {
        if !tokens.sees(Symbol::Global) {
            return Ok(found);
        }
        found.push(global_def(alloc, tokens)?)?;
    }
    Ok(found)
}

#[tactic(auto, unfolding(crate::specs::Readers::register))]
fn register(tokens: &mut Cursor<'_>) -> Result<Register, Fault>
    ensures { Reads (spec.register tokens.old) result tokens.new }
{
    let scalar = scalar(tokens)?;
    let name = tokens.name()?;
    Ok(Register { name, scalar })
}

#[tactic(auto, unfolding(crate::specs::Readers::declared_register))]
fn declared_register(tokens: &mut Cursor<'_>) -> Result<Register, Fault>
    ensures { Reads (spec.declared_register tokens.old) result tokens.new }
{
    let register = register(tokens)?;
    tokens.fixed(Symbol::Semi)?;
    Ok(register)
}

#[tactic(auto, using(token_law::proofs::Turns::goes_on, token_law::proofs::Turns::stops, token_law::proofs::Turns::fails, token_law::proofs::Turns::ends))]
pub fn registers(alloc: Heap, tokens: &mut Cursor<'_>) -> Result<Registers, Fault>
    ensures { Reads (read.many spec.sees_scalar spec.declared_register [] tokens.old) result tokens.new }
{
    let mut found = Registers::new(alloc);
    for _turn in 0..tokens.left() {
        if !sees_scalar(tokens) {
            return Ok(found);
        }
        found.push(declared_register(tokens)?)?;
    }
    Ok(found)
}

#[tactic(auto, unfolding(token_law::specs::Reading::after_comma))]
fn register_after_comma(tokens: &mut Cursor<'_>) -> Result<Register, Fault>
    ensures { Reads (read.after_comma spec.register tokens.old) result tokens.new }
{
    tokens.fixed(Symbol::Comma)?;
    register(tokens)
}

#[tactic(auto, using(token_law::proofs::Turns::goes_on, token_law::proofs::Turns::stops, token_law::proofs::Turns::fails, token_law::proofs::Turns::ends))]
fn more_params(alloc: Heap, tokens: &mut Cursor<'_>, first: Register) -> Result<Registers, Fault>
    ensures { Reads (read.many (read.sees s.Comma) (read.after_comma spec.register) (first ∷ []) tokens.old) result tokens.new }
{
    let mut found = Registers::new(alloc);
    found.push(first)?;
    for _turn in 0..tokens.left() {
        if !tokens.sees(Symbol::Comma) {
            return Ok(found);
        }
        found.push(register_after_comma(tokens)?)?;
    }
    Ok(found)
}

#[tactic(auto, unfolding(token_law::specs::Reading::one_or_more))]
fn one_or_more_params(alloc: Heap, tokens: &mut Cursor<'_>) -> Result<Registers, Fault>
    ensures { Reads (read.one_or_more spec.register tokens.old) result tokens.new }
{
    let first = register(tokens)?;
    more_params(alloc, tokens, first)
}

#[tactic(auto, unfolding(token_law::specs::Reading::separated))]
pub fn params(alloc: Heap, tokens: &mut Cursor<'_>) -> Result<Registers, Fault>
    ensures { Reads (read.separated spec.register tokens.old) result tokens.new }
{
    if tokens.sees(Symbol::Close) {
        return Ok(Registers::new(alloc));
    }
    one_or_more_params(alloc, tokens)
}

#[tactic(auto, unfolding(crate::specs::Readers::local_decl))]
fn local_decl(tokens: &mut Cursor<'_>) -> Result<Decl, Fault>
    ensures { Reads (spec.local_decl tokens.old) result tokens.new }
{
    tokens.fixed(Symbol::Local)?;
    let decl = decl(tokens)?;
    tokens.fixed(Symbol::Semi)?;
    Ok(decl)
}

#[tactic(auto, using(token_law::proofs::Turns::goes_on, token_law::proofs::Turns::stops, token_law::proofs::Turns::fails, token_law::proofs::Turns::ends))]
pub fn locals(alloc: Heap, tokens: &mut Cursor<'_>) -> Result<Decls, Fault>
    ensures { Reads (read.many (read.sees s.Local) spec.local_decl [] tokens.old) result tokens.new }
{
    let mut found = Decls::new(alloc);
    for _turn in 0..tokens.left() {
        if !tokens.sees(Symbol::Local) {
            return Ok(found);
        }
        found.push(local_decl(tokens)?)?;
    }
    Ok(found)
}
