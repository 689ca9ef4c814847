//! Worker threads over one kernel behind a lock.
//!
//! It stands on `zl_sched`, for the system and what workers do to it, and on `zl_interp`, for turns and
//! bursts. It promises of `run`, and of `run_in_bursts` with bursts of another length, that the system that
//! it gives back goes on from the one that was handed in, or else `Mixed`; that `Quiet` comes only where it
//! is idle, and `Limit` only where its trace has less than two free places. That its trace is a legal
//! history is what the type of a system keeps, and that covered processes go well in it `run` says. No
//! clause says that `run` returns, that workers work at once or are woken, or that a burst runs while the
//! lock is free: tests of `zl_pool_tests` show these.
#![tactic(auto)]

mod gate;
mod pool;
mod worker;

pub use gate::{Direct, Gate};
pub use pool::{RunEnd, run, run_in_bursts};
pub use worker::{Desk, work};
