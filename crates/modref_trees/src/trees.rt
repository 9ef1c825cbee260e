//! Which places of memory a function reads and writes, as trees.

ghost use Rattle.std.specs.Prelude.{◌≡◌, IfOk};
ghost use Rattle.std.specs.List.{list_any};
ghost use Rattle.gimple_core.specs.Memory.{same_scalar};
ghost use Rattle.modref_trees.specs.Covers.{offset_holds, same_base, base_holds, holds, covers, everything_of};

use gimple_core::{Checked, Listed, OutOfMemory, Scalar};
use std::alloc::Global as Heap;

/// What an access starts from: what a formal points to, a global, or anything.
#[derive(Clone, Copy, Debug, PartialEq, Eq)]
pub enum TreeBase {
    Formal(u32),
    Global(u32),
    Any,
}

/// Accesses of a scalar at an offset from a base; an offset that is None can be any, and with the base `Any` it is None.
#[derive(Clone, Copy, Debug, PartialEq, Eq)]
pub struct Access {
    pub scalar: Scalar,
    pub base: TreeBase,
    pub offset: Option<i64>,
}

/// Accesses in order, of which none holds another one.
pub type Accesses = Listed<Access>;

/// Everything, or the places of these accesses.
#[derive(Debug, Drop)]
pub enum Tree {
    All,
    Of(Accesses),
}

/// What a function and all that it calls read and write.
#[derive(Debug, Drop)]
pub struct Summary {
    pub loads: Tree,
    pub stores: Tree,
}

/// One for each function in file order.
pub type Summaries = Listed<Summary>;

fn is_same_scalar(left: Scalar, right: Scalar) -> bool
    ensures { result ≡ same_scalar left right }
{
    left == right
}

fn offset_holds(left: Option<i64>, right: Option<i64>) -> bool
    ensures { result ≡ offset_holds left right }
{
    match (left, right) {
        (None, _) => true,
        (Some(_), None) => false,
        (Some(z), Some(w)) => z == w,
    }
}

fn is_same_base(left: TreeBase, right: TreeBase) -> bool
    ensures { result ≡ same_base left right }
{
    match (left, right) {
        (TreeBase::Formal(i), TreeBase::Formal(j)) => i == j,
        (TreeBase::Global(k), TreeBase::Global(j)) => k == j,
        (TreeBase::Any, TreeBase::Any) => true,
        _ => false,
    }
}

/// Whether a base at an offset holds another one.
fn base_holds(
    left: TreeBase,
    left_offset: Option<i64>,
    right: TreeBase,
    right_offset: Option<i64>,
) -> bool
    ensures { result ≡ base_holds left left_offset right right_offset }
{
    match left {
        TreeBase::Any => true,
        _ => is_same_base(left, right) && offset_holds(left_offset, right_offset),
    }
}

/// Whether an access holds another one.
fn holds(left: &Access, right: &Access) -> bool
    ensures { result ≡ holds left.now right.now }
{
    is_same_scalar(left.scalar, right.scalar)
        && base_holds(left.base, left.offset, right.base, right.offset)
}

fn some_holds(accesses: &[Access], access: &Access) -> bool
    ensures { result ≡ list_any (λ own. holds own access.now) accesses.now }
{
    accesses.iter().any(|own| holds(own, access))
}

/// Whether a tree is everything, or one of its accesses holds this one. Takes no memory.
pub fn covers(tree: &Tree, access: &Access) -> bool
    ensures { result ≡ covers tree.now access.now }
{
    match tree {
        Tree::All => true,
        Tree::Of(accesses) => some_holds(accesses.as_slice(), access),
    }
}

/// Everything, for each function of a program.
///
/// Err is want of memory.
pub fn everything(alloc: Heap, program: &Checked) -> Result<Summaries, OutOfMemory>
    ensures { IfOk result (λ trees. trees ≡ everything_of program.now.program) }
{
    let functions = program.program().functions.as_slice();
    let mut trees = Listed::new(alloc);
    for _function in functions {
        trees.push(Summary {
            loads: Tree::All,
            stores: Tree::All,
        })?;
    }
    Ok(trees)
}
