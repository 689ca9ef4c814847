//! Lines cut into words, as scenarios, schedules and traces have them.
//!
//! It stands on no other crate. It promises that a line is a comment just by its first byte, and that
//! its words are the parts between spaces, which are all there, in order, and none is empty.
#![tactic(auto)]

mod words;

pub use words::{is_comment, split_words};
