//! The trusted edge of the programs: files and standard streams as a shelf, and the words of the command line.
#![tactic(auto)]

mod arguments;
mod files;

pub use arguments::{NoWords, show, words};
pub use files::FileShelf;
