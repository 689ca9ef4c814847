//! The text of a trace: a line for each item, for the state of each process, and for the end; the same
//! read back; and its items done again.
//!
//! It stands on `zl_sched`, for the system whose trace it is and for how its run ended, on `zl_calls`
//! and `zl_interp`, for the world and its programs, on `zl_code` and `zl_rights`, for items and
//! statuses, on `zl_lines`, for the words of its lines, and on `itoa`. It promises that `push_item`,
//! `push_state` and `push_end` add just the line of the definitions, and that `text` writes the whole
//! text, or a beginning of it; that `read_text` gives the items whose lines a text has, or names the
//! first line that is none; and that `replay` gives the world to which such items lead, where they are a
//! legal history and the lab's own, or names the first that differs: its process isn't ready there, or
//! the lab's own step has another item; where that wants memory, some step. `laws` proves of the
//! definitions that what is written is what is read. `write_all` and `empty_block` are how it writes,
//! and serve other texts too.
#![tactic(auto)]

mod fault;
mod item_words;
pub mod laws;
mod lines;
mod output;
mod page;
mod reading;
mod recent;
mod replaying;
mod writing;

pub use fault::{ReadFault, ReplayFault, TextFault};
pub use lines::{push_end, push_item, push_state};
pub use output::{empty_block, write_all};
pub use reading::{read_bytes, read_text};
pub use replaying::replay;
pub use writing::text;
