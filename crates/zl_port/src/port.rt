ghost use Rattle.std.specs.Prelude.{◌≡◌, ◌↔◌, ◌+◌, ◌^◌, ◌<◌, ◌≤◌, [], Err, IfOk, IsTrue, OnOk, OnErr, filter, length, nat_lt, not, slice_get};
ghost use Rattle.zl_rights.specs.Signals.{is_empty};
ghost use Rattle.zl_port.specs.Packets.{MOST_USER_PACKETS, is_from, user_count, user_packet, with_packet, with_place, without_front, without_packets, without_place};

use crate::packet::{Packet, Source};
use crate::queue::Queue;
use std::alloc::{AllocError, Global};
use std::marker::Model;

/// Why a packet of a call was refused.
#[derive(Clone, Copy, PartialEq, Eq, Debug)]
pub enum QueueFault {
    /// The port holds `Port::MOST_USER_PACKETS` packets of calls.
    ShouldWait,
    /// There was no memory for one more packet.
    NoMemory,
}

/// The packets at a port, the earliest first, and the places that are reserved for packets to come.
///
/// Source: the page "Ports" of the Fuchsia documentation; reserved places are own profile.
#[derive(Drop)]
pub struct Port {
    // There is room for the reserved places too, so that their packets take no memory.
    queue: Queue,
    reserved: usize,
    // How many of the packets calls have queued.
    user_packets: usize,
}

impl Model for Port {
    ghost use Rattle.zl_port.specs.Packets.{Port as PortValue};
    ghost use Rattle.zl_port.specs.Room.{HasRoom};

    ghost Value = { PortValue };

    ghost view = { λ p. record { packets = p.queue.packets; reserved = p.reserved } };

    ghost invariant = { λ p.
        HasRoom p.queue.packets p.queue.room p.reserved p.user_packets };
}

impl Port {
    /// The most packets that calls have queued at a port (own profile).
    pub const MOST_USER_PACKETS: usize = 2048;

    /// A port without packets and reserved places. It takes no memory.
    pub fn new(alloc: Global) -> Port
        ensures { result ≡ record { packets = []; reserved = 0 } }
    {
        Port {
            queue: Queue::new(alloc),
            reserved: 0,
            user_packets: 0,
        }
    }

    /// Another port like this one: the same packets in their order, and as many reserved places. Only
    /// memory can be refused.
    pub fn copy(&self, alloc: Global) -> Result<Port, AllocError>
        ensures { IfOk result (λ port. port ≡ self.now) }
    {
        Ok(Port {
            queue: self.queue.copy(alloc)?,
            reserved: self.reserved,
            user_packets: self.user_packets,
        })
    }

    /// Whether the other port has the same packets in the same order.
    pub fn has_same_packets(&self, other: &Port) -> bool
        ensures { IsTrue result ↔ self.now.packets ≡ other.now.packets }
    {
        self.queue.has_same_packets(&other.queue)
    }

    /// Puts the packet of a call behind all others: type 0, with the key and the word.
    ///
    /// `ShouldWait` where the port holds `MOST_USER_PACKETS` such packets, else `NoMemory` where
    /// there is no memory for one more.
    /// Source: the page "zx_port_queue" of the Fuchsia documentation; the limit is own profile.
    pub fn queue_user(&mut self, key: u64, value: u64) -> Result<(), QueueFault>
        ensures ok { OnOk result (self.new ≡ with_packet self.old (user_packet key value)) }
        ensures unchanged { OnErr result (self.new ≡ self.old) }
        ensures should_wait { (result ≡ Err QueueFault.ShouldWait)
            ↔ (MOST_USER_PACKETS ≤ user_count self.old.packets) }
    {
        if self.user_packets >= Port::MOST_USER_PACKETS {
            return Err(QueueFault::ShouldWait);
        }
        if make_room(&mut self.queue, self.reserved).is_err() {
            return Err(QueueFault::NoMemory);
        }
        self.queue.push(Packet::user(key, value));
        self.user_packets += 1;
        Ok(())
    }

    /// Reserves a place for the packet of one wait.
    ///
    /// Only memory can be refused; then nothing changes.
    /// Source: own profile.
    pub fn reserve_wait(&mut self) -> Result<(), AllocError>
        ensures ok { OnOk result (self.new ≡ with_place self.old) }
        ensures unchanged { OnErr result (self.new ≡ self.old) }
    {
        make_room(&mut self.queue, self.reserved)?;
        self.reserved += 1;
        Ok(())
    }

    /// Whether a place is reserved.
    ///
    /// Source: own profile.
    pub fn has_reserved(&self) -> bool
        ensures { result ≡ nat_lt 0 self.now.reserved }
    {
        self.reserved > 0
    }

    /// Whether a packet is there.
    pub fn has_packet(&self) -> bool
        ensures { result ≡ not (is_empty self.now.packets) }
    {
        !self.queue.is_empty()
    }

    /// Gives a reserved place back, if one is reserved, as its wait has ended without a packet. It
    /// takes no memory.
    ///
    /// Source: own profile.
    pub fn give_back(&mut self)
        ensures { self.new ≡ without_place self.old }
    {
        self.reserved = self.reserved.saturating_sub(1);
    }

    /// Puts the packet of a wait behind all others, in a reserved place, which there has to be. It
    /// takes no memory.
    ///
    /// Source: the page "zx_object_wait_async" of the Fuchsia documentation.
    pub fn queue_signal(&mut self, packet: Packet)
        requires { 0 < self.old.reserved }
        ensures { self.new ≡ with_packet (without_place self.old) packet }
    {
        if packet.is_user() {
            self.user_packets += 1;
        }
        self.queue.push(packet);
        self.reserved -= 1;
    }

    /// Takes the first packet out, or nothing where there is none. It takes no memory.
    ///
    /// Source: the page "zx_port_wait" of the Fuchsia documentation.
    pub fn pop(&mut self) -> Option<Packet>
        ensures first { result ≡ slice_get self.old.packets 0 }
        ensures rest { self.new ≡ without_front self.old }
    {
        let packet = self.queue.pop()?;
        if packet.is_user() {
            self.user_packets -= 1;
        }
        Some(packet)
    }

    /// Takes out the packets with this key that waits of this source gave, and says how many they
    /// were. It takes no memory.
    ///
    /// Source: the page "zx_port_cancel" of the Fuchsia documentation; which packets they are is own
    /// profile.
    pub fn cancel(&mut self, source: Source, key: u64) -> usize
        ensures rest { self.new ≡ without_packets self.old (is_from source key) }
        ensures count { result ≡ length (filter (is_from source key) self.old.packets) }
    {
        self.queue.cancel(source, key)
    }
}

/// Makes room for one packet more beside so many reserved places.
fn make_room(queue: &mut Queue, reserved: usize) -> Result<(), AllocError>
    requires { length queue.old.packets + reserved ≤ queue.old.room }
    ensures packets { queue.new.packets ≡ queue.old.packets }
    ensures ok { OnOk result (length queue.old.packets + reserved < queue.new.room) }
    ensures grown { queue.old.room ≤ queue.new.room }
    ensures small { queue.new.room < 2 ^ 63 }
{
    if queue.room() - queue.len() > reserved {
        return Ok(());
    }
    // For as many places again, so that reserving them one by one seldom takes memory.
    queue.reserve(2 * reserved + 1)
}
