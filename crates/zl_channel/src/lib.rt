//! The queue of messages that are to be read at one end of a channel.
//!
//! It stands on `zl_rights` and `smallvec`. It promises that messages come out whole and in the
//! order in which they went in, that just those above the limits are refused for their size, and
//! that nothing but `push` and `copy` can be refused memory. Where a method names no source, that of
//! its type is meant.
#![tactic(auto)]

mod channel_end;
mod message;

pub use channel_end::{ChannelEnd, PushFault};
pub use message::{Handles, Message};

#[cfg(test)]
mod tests;
