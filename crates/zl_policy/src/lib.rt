//! The policy of a job: what is done where a condition is met.
//!
//! It stands on `zl_rights`. It promises that a policy is a finite map from conditions to actions,
//! changed just where a call says so, and nothing in it can be refused memory.
#![tactic(auto)]

mod policy;

pub use policy::Policy;

#[cfg(test)]
mod tests;
