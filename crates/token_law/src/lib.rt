//! Reading tokens from left to right: a cursor, what readers read, and the law of readers that read a language exactly.
#![tactic(auto)]

mod cursor;

pub use cursor::{Cursor, Fault};
