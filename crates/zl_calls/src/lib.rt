//! The running world: boot, system calls and local instructions.
//!
//! It stands on `zl_table`, for the handles of a process; on `zl_objects`, for the objects; on
//! `zl_channel`, `zl_port` and `zl_jobs`, for messages, packets and what a job refuses; on `zl_interp`,
//! for programs and what stands next in them; on `zl_code` and `zl_rights`, for images, numbers and the
//! definitions; and on `smallvec` and `bitflags`. Of `zl_verify` contracts, definitions and proofs cite
//! words, of `zl_signals` just proofs lemmas. It promises that `World::boot` makes a boot world of its
//! statements or names their first fault, and that `World::perform` and `World::local` are steps of the
//! written relation. Methods follow the source that their type names, where they name none.
#![tactic(auto)]

mod boot;
mod calls;
mod comparing;
mod copying;
mod parts;
mod policy;
mod process;
mod processes;
mod step;
mod told;
mod waits;
mod waking;
mod world;

pub use told::{Killed, Told, Woke, WokeList};
pub use world::{Local, World};
pub use zl_code::{Boot, BootFault, CallName, Outcome, ProcState, TraceItem};
