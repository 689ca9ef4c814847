//! Rights, signals, kinds and statuses, and the definitions of the world, settling and waking.
//!
//! It stands on `bitflags` alone. It promises that each number and name is the written one, and
//! that rights and signals are tested, narrowed and changed exactly; `laws` proves of the
//! definitions that every world settles to one result and that one round of waking suffices.
//! Where a method names no source, that of its type is meant.
#![tactic(auto)]

mod entry;
mod kind;
pub mod laws;
mod policy;
mod rights;
mod signals;
mod status;

pub use entry::Entry;
pub use kind::Kind;
pub use policy::{Action, Condition, Mode};
pub use rights::{Rights, narrow};
pub use signals::Signals;
pub use status::Status;

/// The number of an object, never used twice.
///
/// Source: the page "Kernel objects" of the Fuchsia documentation.
pub type Koid = u64;

/// The koid of a process, by which scenarios and traces name it (own profile).
pub type Pid = u64;

/// The value of a handle in the table of its process: 1 to 65,535 while it is live.
///
/// Source: the page "Handles" of the Fuchsia documentation; the range is own profile.
pub type HValue = u32;
