//! The command line of the program: what its words ask for, and its help.
//!
//! It stands on `clap` and `thiserror`. It promises that `parse` takes just the forms that the
//! definitions have, by `clap`'s own reading of words, and that it answers with a text just where help or
//! the version is asked for.
#![tactic(auto)]

mod command;

pub use command::{Asked, MOST_BAD, Numbers, Task, WordFault, parse};
