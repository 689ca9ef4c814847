//! Instructions and images, and the definitions of calls, steps, runs, legal histories and boot.
//!
//! It stands on `zl_rights` and `bitflags`. It promises that `decode` and `encode` are exact against
//! the image grammar, both ways; `laws` proves of the definitions that a ready process always has a
//! step, that no koid is given twice and that every world of a run is sound, and `boot_laws` that a
//! boot makes a world or comes to one first fault, and never both.
//!
//! Each public type says where its rule comes from, and so do `decode` and `encode`; the fields,
//! variants and methods of a type follow it where they say nothing else.
#![tactic(auto)]

mod blocks;
mod boot;
pub mod boot_laws;
mod building;
mod comparing;
mod declarations;
mod decoding;
mod encoding;
mod fields;
mod history;
mod image;
mod instr;
mod instr_bytes;
mod known;
pub mod laws;
mod layout;
pub mod own_laws;
mod register;
mod rows;
mod undecoded;
mod upgrading;

pub use blocks::{Mark, are_blocks};
pub use boot::{Boot, BootCause, BootFault, Grant, Grants, Statement};
pub use decoding::decode;
pub use encoding::encode;
pub use history::{CallName, Outcome, ProcState, TraceItem, are_same_items};
pub use image::{DecodeFault, Image, SlotArray, Start, Version};
pub use instr::{CallInstr, HandleList, Instr, LocalInstr};
pub use instr_bytes::InstrBytes;
pub use layout::{Columns, Ending, Field, Gives, Kinds, Row};
pub use register::Register;
pub use undecoded::Undecoded;
pub use upgrading::{Kept, upgrade};
