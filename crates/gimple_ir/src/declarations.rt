//! What a program declares: structs, variables and registers.

ghost use Rattle.std.specs.Prelude.{◌≡◌, ◌↔◌, IsTrue, IfOk};

use crate::OutOfMemory;
use crate::listed::{Exact, Listed, Text};
use crate::operand::Items;
use crate::scalar::Scalar;

/// Scalars in order.
pub type Scalars = Listed<Scalar>;

/// The shape of a field or variable: a scalar, or the struct of a name.
#[derive(Clone, Debug, Drop)]
pub enum Shape {
    Plain(Scalar),
    Named(Text),
}

/// A field, global or local: its name, its shape, and the length of an array.
#[derive(Clone, Debug, Drop)]
pub struct Decl {
    pub name: Text,
    pub shape: Shape,
    pub length: Option<u64>,
}

/// Declarations in order.
pub type Decls = Listed<Decl>;

/// A struct and its fields.
#[derive(Clone, Debug, Drop)]
pub struct StructDef {
    pub name: Text,
    pub fields: Decls,
}

/// The structs of a program in file order.
pub type StructDefs = Listed<StructDef>;

/// A global variable. Its items fill its first slots; `constant` says that no store may go there.
#[derive(Clone, Debug, Drop)]
pub struct Global {
    pub decl: Decl,
    pub constant: bool,
    pub items: Items,
}

/// The globals of a program in file order.
pub type Globals = Listed<Global>;

/// A formal or register of a function.
#[derive(Clone, Debug, Drop)]
pub struct Register {
    pub name: Text,
    pub scalar: Scalar,
}

/// Registers in order.
pub type Registers = Listed<Register>;

impl Exact for Shape {
    fn copy(&self) -> Result<Shape, OutOfMemory> {
        self.clone()
    }

    fn same(&self, other: &Shape) -> bool {
        match (self, other) {
            (Shape::Plain(left), Shape::Plain(right)) => *left == *right,
            (Shape::Named(left), Shape::Named(right)) => left.same(right),
            _ => false,
        }
    }
}

impl Exact for Decl {
    fn copy(&self) -> Result<Decl, OutOfMemory> {
        self.clone()
    }

    fn same(&self, other: &Decl) -> bool {
        self.name.same(&other.name)
            && self.shape.same(&other.shape)
            && self.length.same(&other.length)
    }
}

impl Exact for StructDef {
    fn copy(&self) -> Result<StructDef, OutOfMemory> {
        self.clone()
    }

    fn same(&self, other: &StructDef) -> bool {
        self.name.same(&other.name) && self.fields.same(&other.fields)
    }
}

impl Exact for Global {
    fn copy(&self) -> Result<Global, OutOfMemory> {
        self.clone()
    }

    fn same(&self, other: &Global) -> bool {
        self.decl.same(&other.decl)
            && self.constant == other.constant
            && self.items.same(&other.items)
    }
}

impl Exact for Register {
    fn copy(&self) -> Result<Register, OutOfMemory> {
        self.clone()
    }

    fn same(&self, other: &Register) -> bool {
        self.name.same(&other.name) && self.scalar == other.scalar
    }
}
