//! The signals that calls raise at one object, and the waits that are registered there.
//!
//! It stands on `zl_rights` and `bitflags`. It promises that signals change exactly, that waits keep
//! the order in which they were registered, that each call takes out the earliest wait that it asks
//! for, and that nothing but `watch` and `copy` can be refused memory. Where a method names no source,
//! that of its type is meant.
#![tactic(auto)]

mod firsts;
mod indexes;
mod signal_state;
mod waits;
mod watch;

pub use signal_state::SignalState;
pub use watch::Watch;

#[cfg(test)]
mod tests;
