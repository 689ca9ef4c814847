//! Ports: their packets, and the places that are reserved for the packets of waits.

ghost use Rattle.std.specs.Prelude.{◌≡◌, ◌↔◌, ◌≤◌, Err, IsTrue, OnErr, OnOk, Some, filter, length, nat_lt, not, slice_get};
ghost use Rattle.zl_rights.specs.Signals.{is_empty};
ghost use Rattle.zl_rights.specs.Map.{get};
ghost use Rattle.zl_port.specs.Packets.{MOST_USER_PACKETS, is_from, user_count, user_packet, with_packet, with_place, without_front, without_packets, without_place};
ghost use Rattle.zl_objects.specs.Ports.{at_port, changing_port, has_place_body, is_port_at, new_port, packets_found, packets_of, reserved_of};

use crate::object::{Body, Object};
use crate::objects::Objects;
use std::alloc::{AllocError, Global};
use zl_port::{Packet, Port, QueueFault, Source};
use zl_rights::Koid;

impl Object {
    /// Puts the packet of a call behind all others at a port.
    pub(crate) fn queue_user(&mut self, key: u64, value: u64) -> Result<(), QueueFault>
        ensures ok { OnOk result
            (self.new ≡ at_port (λ p. with_packet p (user_packet key value)) self.old) }
        ensures unchanged { OnErr result (self.new ≡ self.old) }
        ensures should_wait { (result ≡ Err QueueFault.ShouldWait)
            ↔ (MOST_USER_PACKETS ≤ user_count (packets_of self.old.body)) }
    {
        match &mut self.body {
            Body::Port(port) => port.queue_user(key, value),
            _ => Ok(()),
        }
    }

    /// Reserves a place at a port.
    pub(crate) fn reserve_wait(&mut self) -> Result<(), AllocError>
        ensures ok { OnOk result (self.new ≡ at_port with_place self.old) }
        ensures unchanged { OnErr result (self.new ≡ self.old) }
    {
        match &mut self.body {
            Body::Port(port) => port.reserve_wait(),
            _ => Ok(()),
        }
    }

    /// Gives a reserved place back at a port.
    pub(crate) fn give_back(&mut self)
        ensures { self.new ≡ at_port without_place self.old }
    {
        if let Body::Port(port) = &mut self.body {
            port.give_back();
        }
    }

    /// Puts the packet of a wait behind all others at a port, in a reserved place.
    pub(crate) fn queue_signal(&mut self, packet: Packet)
        requires { IsTrue (has_place_body self.old.body) }
        ensures { self.new ≡ at_port (λ p. with_packet (without_place p) packet) self.old }
    {
        if let Body::Port(port) = &mut self.body {
            port.queue_signal(packet);
        }
    }

    /// Takes the first packet out of a port.
    pub(crate) fn pop(&mut self) -> Option<Packet>
        ensures first { result ≡ slice_get (packets_of self.old.body) 0 }
        ensures rest { self.new ≡ at_port without_front self.old }
    {
        match &mut self.body {
            Body::Port(port) => port.pop(),
            _ => None,
        }
    }

    /// Takes the packets with this key out of a port that waits of this source gave.
    pub(crate) fn cancel(&mut self, source: Source, key: u64) -> usize
        ensures rest { self.new ≡ at_port (λ p. without_packets p (is_from source key)) self.old }
        ensures count { result ≡ length (filter (is_from source key) (packets_of self.old.body)) }
    {
        match &mut self.body {
            Body::Port(port) => port.cancel(source, key),
            _ => 0,
        }
    }
}

impl Body {
    /// Whether a packet is there, at a port.
    pub(crate) fn has_packet(&self) -> bool
        ensures { result ≡ not (is_empty (packets_of self.now)) }
    {
        match self {
            Body::Port(port) => port.has_packet(),
            _ => false,
        }
    }

    /// Whether a place is reserved, at a port.
    pub(crate) fn has_reserved(&self) -> bool
        ensures { result ≡ nat_lt 0 (reserved_of self.now) }
    {
        match self {
            Body::Port(port) => port.has_reserved(),
            _ => false,
        }
    }
}

#[tactic(auto, using(crate::proofs::ByKoid::by_koid, crate::proofs::Kept::kept))]
impl Objects {
    /// What a port is when it is made: it has no packets, and no place is reserved. It takes no memory.
    ///
    /// Source: the page "zx_port_create" of the Fuchsia documentation.
    pub fn new_port(&self) -> Body
        ensures { result ≡ new_port }
    {
        Body::Port(Port::new(self.alloc()))
    }

    /// Whether the koid is that of a port.
    pub fn is_port(&self, koid: Koid) -> bool
        ensures { result ≡ is_port_at self.now.objects koid }
    {
        match self.store.by_koid.get(&koid) {
            Some(object) => matches!(object.body, Body::Port(_)),
            None => false,
        }
    }

    /// Puts the packet of a call behind all others at the port: type 0, with the key and the word.
    /// Where the koid isn't that of a port, nothing changes.
    ///
    /// `ShouldWait` where the port holds `Port::MOST_USER_PACKETS` such packets, else `NoMemory`
    /// where there is no memory for one more.
    /// Source: the page "zx_port_queue" of the Fuchsia documentation; the limit is own profile.
    pub fn queue_user(&mut self, koid: Koid, key: u64, value: u64) -> Result<(), QueueFault>
        ensures ok { OnOk result
            (self.new ≡ changing_port self.old koid (λ p. with_packet p (user_packet key value))) }
        ensures unchanged { OnErr result (self.new ≡ self.old) }
        ensures should_wait { (result ≡ Err QueueFault.ShouldWait)
            ↔ (MOST_USER_PACKETS ≤ user_count (packets_found (get self.old.objects koid))) }
    {
        let Some(object) = self.store.by_koid.get_mut(&koid) else {
            return Ok(());
        };
        let queued = object.queue_user(key, value);
        self.store.marks.add_if(object.is_watched(), koid);
        queued
    }

    /// Takes the first packet out of the port, or nothing where there is none, or it is no port. It
    /// takes no memory.
    ///
    /// Source: the page "zx_port_wait" of the Fuchsia documentation.
    pub fn pop(&mut self, koid: Koid) -> Option<Packet>
        ensures first { result ≡ slice_get (packets_found (get self.old.objects koid)) 0 }
        ensures rest { self.new ≡ changing_port self.old koid without_front }
    {
        self.store.by_koid.get_mut(&koid)?.pop()
    }

    /// Takes the packets with this key out of the port that waits of this source gave, and says how
    /// many they were, 0 where it is no port. It takes no memory.
    ///
    /// Source: the page "zx_port_cancel" of the Fuchsia documentation; which packets they are is own
    /// profile.
    pub fn cancel(&mut self, koid: Koid, source: Source, key: u64) -> usize
        ensures rest { self.new ≡ changing_port self.old koid (λ p. without_packets p (is_from source key)) }
        ensures count { result
            ≡ length (filter (is_from source key) (packets_found (get self.old.objects koid))) }
    {
        let Some(object) = self.store.by_koid.get_mut(&koid) else {
            return 0;
        };
        object.cancel(source, key)
    }
}
