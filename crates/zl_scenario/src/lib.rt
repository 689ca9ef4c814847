//! The scenario and its schedule, read from a text.
//!
//! It stands on `zl_lines` for the words of a line, on `zl_asm` and `zl_code` for programs and
//! statements, on `zl_verify` for what checked programs are asked for, on `zl_interp` for the library,
//! and on `zl_rights`. It promises that what `read_scenario` gives is what the lines say, up to the
//! first fault, and that a checked program is one that the verifier accepts; and laws of the
//! definitions: a text is read in one way, and blocks are whole. Which word of a refused line is at
//! fault, and which line opens the block of a program, no clause says.
#![tactic(auto)]

mod block;
mod body;
mod cause;
mod digits;
mod draft;
mod fault;
mod faulty;
mod handles;
mod numbers;
mod part;
mod reader;
mod reading;
mod schedule;
mod statements;
mod words;

pub use body::{Body, Form};
pub use cause::{Cause, LineFault, PlacedFault, WordFault};
pub use fault::Fault;
pub use numbers::number;
pub use reading::{Reading, Scenario, read_scenario};
