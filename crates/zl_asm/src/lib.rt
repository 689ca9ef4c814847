//! The assembler: the text of a program to its image, and back.
//!
//! It stands on `zl_code`, `zl_rights`, `bitflags` and `indexmap`. It promises that `assemble` and
//! `disassemble` are exact against the grammar of the text; `laws` proves of the definitions that no
//! text denotes two images, and that the text of each image denotes it. How a line is cut into words,
//! what a word spells, and what an instruction has behind its registers is public too (`words`, `numbers`,
//! `written`), for those who tell a person what is wrong with a text.
//!
//! Each public type says where its rule comes from, and so do `assemble`, `disassemble`, `written`, `words`
//! and `numbers`; methods follow their type.
#![tactic(auto)]

mod assembling;
mod directive;
mod disassembling;
mod draft;
mod fault;
mod label_map;
pub mod laws;
mod line;
pub mod numbers;
mod operands;
mod pairing;
mod resolving;
pub mod words;

pub use assembling::{assemble, assemble_bytes};
pub use disassembling::disassemble;
pub use fault::{AsmCause, AsmFault};
pub use operands::written;
