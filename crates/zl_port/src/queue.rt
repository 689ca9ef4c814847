ghost use Rattle.std.specs.Prelude.{◌≡◌, ◌↔◌, ◌+◌, ◌^◌, ◌<◌, ◌≤◌, [], ◌∷◌, ◌++◌, drop, filter, length, not, slice_get, IfOk, IsTrue, OnOk};
ghost use Rattle.zl_rights.specs.Signals.{is_empty};
ghost use Rattle.zl_port.specs.Packets.{is_from};

use crate::buckets::bucket_for;
use crate::packet::{Packet, Source};
use crate::slots::{
    Slot, copied_slots, have_same_packets, link, link_anew, make_place, take_first, take_from,
};
use std::alloc::{AllocError, Global};
use std::collections::VecDeque;
use std::marker::Model;

/// Packets in order, the earliest first.
///
/// Those of waits are linked in buckets by source and key, so that a cancellation looks only at
/// those of its bucket. It leaves empty places, for which there is half as much room again. They go
/// at the front, or all at once where no place is left: then they are a third of all, so that each
/// cancelled packet has paid for it.
#[derive(Drop)]
pub(crate) struct Queue {
    slots: VecDeque<Slot>,
    // The number of the first slot.
    front: usize,
    // How many packets there are.
    count: usize,
    // The link to the last slot of each bucket. There are about as many buckets as places.
    last: Vec<usize>,
}

impl Model for Queue {
    ghost use Rattle.std.specs.VecDeque.{deque_capacity};
    ghost use Rattle.zl_port.specs.Chains.{packets_in};
    ghost use Rattle.zl_port.specs.Room.{IsQueue, Queue as QueueValue, room_in};

    ghost Value = { QueueValue };

    ghost view = { λ q. record { packets = packets_in q.slots.items; room = room_in (deque_capacity q.slots) } };

    ghost invariant = { λ q. IsQueue q.slots.items (deque_capacity q.slots) q.front q.count q.last.items };
}

impl Queue {
    /// No packets, and room for none. It takes no memory.
    pub(crate) fn new(alloc: Global) -> Queue
        ensures packets { result.packets ≡ [] }
        ensures room { result.room ≡ 0 }
    {
        Queue {
            slots: VecDeque::from_vec(Vec::new(alloc)),
            front: 0,
            count: 0,
            last: Vec::new(alloc),
        }
    }

    /// Another queue like this one, with the same room. Only memory can be refused.
    pub(crate) fn copy(&self, alloc: Global) -> Result<Queue, AllocError>
        ensures { IfOk result (λ queue. queue ≡ self.now) }
    {
        Ok(Queue {
            slots: copied_slots(alloc, &self.slots)?,
            front: self.front,
            count: self.count,
            last: self.last.to_vec(alloc)?,
        })
    }

    /// Whether the other queue has the same packets in the same order.
    pub(crate) fn has_same_packets(&self, other: &Queue) -> bool
        ensures { IsTrue result ↔ self.now.packets ≡ other.now.packets }
    {
        if self.count != other.count {
            return false;
        }
        have_same_packets(&self.slots, &other.slots)
    }

    /// How many packets there are.
    pub(crate) fn len(&self) -> usize
        ensures value { result ≡ length self.now.packets }
        ensures within { result ≤ self.now.room }
    {
        self.count
    }

    /// Whether there are none.
    pub(crate) fn is_empty(&self) -> bool
        ensures { result ≡ is_empty self.now.packets }
    {
        self.count == 0
    }

    /// How many packets there is room for.
    pub(crate) fn room(&self) -> usize
        ensures value { result ≡ self.now.room }
        ensures small { result < 2 ^ 63 }
    {
        self.slots.capacity() - self.slots.capacity() / 3
    }

    /// Makes room for so many packets more.
    pub(crate) fn reserve(&mut self, more: usize) -> Result<(), AllocError>
        requires { 0 < more }
        ensures packets { self.new.packets ≡ self.old.packets }
        ensures ok { OnOk result (length self.old.packets + more ≤ self.new.room) }
        ensures grown { self.old.room ≤ self.new.room }
        ensures small { self.new.room < 2 ^ 63 }
    {
        let room = self.count.saturating_add(more);
        let places = room.saturating_add(room / 2);
        if self.last.len() < places {
            let mut last = vec![in *self.slots.allocator(); 0; places]?;
            link_anew(&mut self.slots, &mut last);
            self.last = last;
            self.front = 0;
        }
        self.slots.reserve(places.saturating_sub(self.slots.len()))
    }

    /// Puts a packet behind all others, for which there has to be room. It takes no memory.
    pub(crate) fn push(&mut self, packet: Packet)
        requires { length self.old.packets < self.old.room }
        ensures packets { self.new.packets ≡ self.old.packets ++ packet ∷ [] }
        ensures room { self.new.room ≡ self.old.room }
    {
        make_place(&mut self.slots, &mut self.last, &mut self.front);
        let mut slot = Slot {
            packet,
            there: true,
            before: 0,
        };
        link(&mut self.last, &mut slot, self.front + self.slots.len());
        self.slots.push_back_reserved(slot);
        self.count += 1;
    }

    /// Takes the first packet out, or nothing where there is none. It takes no memory.
    pub(crate) fn pop(&mut self) -> Option<Packet>
        ensures first { result ≡ slice_get self.old.packets 0 }
        ensures rest { self.new.packets ≡ drop 1 self.old.packets }
        ensures room { self.new.room ≡ self.old.room }
    {
        let packet = take_first(&mut self.slots, &mut self.front)?;
        self.count -= 1;
        Some(packet)
    }

    /// Takes out the packets with this key that waits of this source gave, and says how many they
    /// were. It takes no memory.
    pub(crate) fn cancel(&mut self, source: Source, key: u64) -> usize
        ensures rest { self.new.packets ≡ filter (λ x. not (is_from source key x)) self.old.packets }
        ensures count { result ≡ length (filter (is_from source key) self.old.packets) }
        ensures room { self.new.room ≡ self.old.room }
    {
        if self.last.is_empty() {
            return 0;
        }
        let own = bucket_for(self.last.len(), source, key);
        let taken = take_from(
            &mut self.slots,
            &mut self.last,
            self.front,
            own,
            source,
            key,
        );
        self.count -= taken;
        taken
    }
}
