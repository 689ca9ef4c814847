//! The objects of a running lab by koid, each with its count of handles.
//!
//! It stands on `zl_rights`, `zl_channel`, `zl_signals`, `zl_port` and `zl_jobs`; of `zl_policy` just
//! contracts cite words. The jobs among the objects are the tree of jobs. It promises the exact change
//! of each operation; that in every world that the objects fit, `release`, `remove_unheld` and `kill`
//! leave the largest held set and nothing else where something kept each other object before; that with
//! a process that ends goes what nothing keeps any more; that just those waits are left whose object and
//! port are, and just their places stay reserved at ports; that a copy of all has the same, and whether
//! others look the same; and that nothing but making an object, sending, registering a wait, queueing a
//! packet of a call and copying can be refused memory. Its type keeps that the list of all waits has
//! those of each object in their order. Where a method names no source, that of its type is meant.
#![tactic(auto)]

mod awaited;
mod below;
mod children;
mod comparing;
mod copying;
mod due;
mod gapped;
mod groups;
mod jobs;
mod killing;
mod listing;
mod lives;
mod marks;
mod object;
mod objects;
mod port_waits;
mod ports;
mod queued;
mod quiet;
mod releasing;
mod signals;
mod sleepers;
mod store;
mod wait;
mod waits;

pub use awaited::{Awaited, Sleeper};
pub use below::TaskList;
pub use due::Due;
pub use object::{Body, Life, Object, Pair};
pub use objects::Objects;
pub use wait::Wait;
