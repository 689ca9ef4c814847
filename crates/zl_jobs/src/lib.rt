//! One job: where it stands, its policy, and what may be made in it.
//!
//! It stands on `zl_policy` and `zl_rights`. The tree of jobs is among the objects of `zl_objects`,
//! each of which that is a job holds one of these. It promises the exact outcome of each operation,
//! and none can be refused memory. Where a method names no source, that of its type is meant.
#![tactic(auto)]

mod job;

pub use job::{Job, JobFault};

#[cfg(test)]
mod tests;
