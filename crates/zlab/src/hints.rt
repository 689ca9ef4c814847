//! What a person is told on standard error beside a trace, or where one isn't replayed.
//!
//! Texts for people have no contract: each function is safe and returns, whatever it is given, and no
//! more is promised. Where memory is refused there is no hint. A trace and its schedule are walked over
//! once; more is looked up only where there is something to tell.

mod replay;
mod run;
mod search;

pub use replay::{explain_difference, explain_items, explain_line};
pub use run::{explain_nothing, explain_run, explain_threads};
pub use search::{OnError, explain_part, explain_search};
