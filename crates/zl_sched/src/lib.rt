//! A world with its trace, booted from statements and stepped along a schedule.
//!
//! It stands on `zl_calls`, for the world, on `zl_interp`, for turns and bursts, and on `zl_code` and
//! `zl_rights`, for what the definitions say of boots, steps and histories. It promises that
//! `System::boot` makes a boot world or names the first fault; that the trace of a `System` is a legal
//! history from there; that `System::step` is one step of a ready process, whose item it adds, or changes
//! nothing and says why; and that `System::step_all` takes the turns of a schedule one after another, and
//! ends where all were taken, where the trace is full, or before that, which is told as a want of memory.
//! Its type keeps a list of the ready processes, by their last step or when they became ready, and the
//! marks of those that are out: together they have each ready process once. `System::take` marks the
//! first of the list, which goes on by itself then, and `System::hand_in` takes what it did, just where it
//! fits, as its local instructions and the one step behind them. `System::idle` says whether no process
//! is ready and none is out, and `System::goes_on` whether a system goes on from another. `Kernel` is
//! what workers need of a system. `laws` proves of the definitions that a trace along a schedule is a
//! legal history.
#![tactic(auto)]

mod fake;
mod hand_in;
mod kernel;
pub mod laws;
mod opening;
mod ready;
mod system;

pub use fake::Fake;
pub use hand_in::HandIn;
pub use kernel::Kernel;
pub use opening::Opening;
pub use system::{End, Stepped, System};
pub use zl_code::{Boot, BootFault, TraceItem};
