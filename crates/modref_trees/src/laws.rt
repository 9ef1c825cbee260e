//! What trees promise of the runs of a program, as laws.

ghost use Rattle.modref_trees.specs.Claims.{CoversHold, EverythingHolds};

use crate::trees::{Access, Summaries, Tree};
use std::marker::{Send, Sync};

/// A tree that holds an access covers, in an activation with any arguments, each access of memory that it describes.
pub fn covers_hold()
    ensures { CoversHold }
{}

/// In each run, everything covers each load and each store, for each activation that has begun and not returned.
pub fn everything_holds()
    ensures { EverythingHolds }
{}

fn crosses<T: Send + Sync>(_value: &T) {}

/// Accesses, trees and summaries may be given to another thread, and read by several at once.
pub fn modref_trees_cross(access: &Access, tree: &Tree, summaries: &Summaries) {
    crosses(access);
    crosses(tree);
    crosses(summaries);
}
