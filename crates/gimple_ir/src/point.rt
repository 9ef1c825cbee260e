//! Places in a program, and the edges of its call graph.

ghost use Rattle.std.specs.Prelude.{◌≡◌, ◌↔◌, IsTrue, IfOk};

use crate::OutOfMemory;
use crate::listed::{Exact, Listed, Text};

/// A point of a program: the numbers, from 0, of a function, of one of its blocks, and of a statement there.
/// The index that equals the body's length is the block's end.
#[derive(Clone, Copy, Debug, PartialEq, Eq)]
pub struct Point {
    pub function: u32,
    pub block: u32,
    pub index: u32,
}

/// Points in file order.
pub type Points = Listed<Point>;

/// A call statement: the calling function, its point, and the called function, by number.
#[derive(Clone, Copy, Debug, PartialEq, Eq)]
pub struct Edge {
    pub caller: u32,
    pub point: Point,
    pub callee: u32,
}

/// The edges of the call graph in file order.
pub type Edges = Listed<Edge>;

/// One bool per function in file order.
pub type Marks = Listed<bool>;

/// Names in order.
pub type Names = Listed<Text>;

/// Numbers of functions, or of their classes.
pub type Numbers = Listed<u32>;

impl Exact for Point {
    fn copy(&self) -> Result<Point, OutOfMemory> {
        Ok(*self)
    }

    fn same(&self, other: &Point) -> bool {
        *self == *other
    }
}

impl Exact for Edge {
    fn copy(&self) -> Result<Edge, OutOfMemory> {
        Ok(*self)
    }

    fn same(&self, other: &Edge) -> bool {
        *self == *other
    }
}
