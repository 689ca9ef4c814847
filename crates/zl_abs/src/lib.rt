//! What a checked program may hold in its registers: abstract values and states, their order and
//! join, and the rule of each instruction.
//!
//! It stands on `zl_code`, for images and instructions, and on `zl_rights`. It promises that
//! `below` is the written order, that `join` gives the least state above both, and that `transfer`
//! gives the edges of the written rule, or its cause; `laws` proves of the definitions that a rule that holds
//! at a state holds at every state below. It takes no memory but for `Bounds`, and knows nothing of
//! loops: a search for a typing stands above it.
#![tactic(auto)]

mod bounds;
mod call_results;
mod call_rules;
mod call_tests;
mod cause;
mod change;
mod imm;
mod jumps;
pub mod laws;
mod local_rules;
mod operand;
mod round_up;
mod rules;
mod state;
mod steps;
mod value;
mod ways;

pub use bounds::Bounds;
pub use cause::{Blamed, Cause, Conflict, RuleFault, Wanted};
pub use change::Change;
pub use rules::{Edge, Successors, jump_target, step_by, transfer, transfer_by};
pub use state::{AbsState, below, join};
pub use steps::{Step, Steps};
pub use value::AbsVal;
