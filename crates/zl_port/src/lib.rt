//! The packets at one port, and the places that are reserved for packets to come.
//!
//! It stands on `zl_rights`. It promises that packets come out whole and in the order in which they
//! went in, that packets of calls are refused just from their limit on, but for want of memory, that
//! the packet of a wait can't be refused where a place is reserved, and that a cancellation takes out
//! and counts just what it names. Where a method names no source, that of its type is meant.
#![tactic(auto)]

mod buckets;
mod packet;
mod port;
mod queue;
mod slots;

pub use packet::{Packet, PacketKind, Source};
pub use port::{Port, QueueFault};

#[cfg(test)]
mod tests;
