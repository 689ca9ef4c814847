//! The interpreter: what a process computes with, what stands next for it, and one local step.
//!
//! It stands on `zl_verify`, for programs that the verifier accepted, and on `zl_code`, for
//! instructions, images and the definitions. It promises that `call_at` names a call exactly where
//! one stands next, that `local_step` does the local instruction that stands next, or changes nothing,
//! and that what `burst` did are local instructions that follow one another. It knows no world:
//! handles are numbers to it, and calls are done in the crate above.
#![tactic(auto)]

mod arrays;
mod bursts;
mod counters;
mod cpu;
mod memory;
mod next;
mod packing;
mod program;
mod running;
mod work;

pub use arrays::room_for_handles;
pub use bursts::{Done, Stop, Turn, burst};
pub use cpu::Cpu;
pub use next::{call_at, has_its_memory, local_step};
pub use program::{Library, Program};
pub use work::Spent;
