ghost use Rattle.std.specs.Prelude.{◌≡◌, ◌↔◌, ℕ, ◌+◌, ◌^◌, ◌<◌, ◌≤◌, List, IfOk, IfSome, IsTrue, drop, filter, length, not, replicate, slice_get};
ghost use Rattle.std.specs.Prelude.{if◌then◌else◌};
ghost use Rattle.std.specs.VecDeque.{deque_capacity};
ghost use Rattle.zl_port.specs.Buckets.{bucket, bucket_of};
ghost use Rattle.zl_port.specs.Packets.{is_from};
ghost use Rattle.zl_port.specs.Chains.{AreLinked, emptied, is_other, last_above, link_of, linked, packets_in, slots_above, with_last};

use crate::buckets::bucket_of_packet;
use crate::packet::{Packet, Source};
use std::alloc::{AllocError, Global};
use std::collections::VecDeque;

/// A packet, or the empty place that a cancellation left.
#[derive(Drop)]
pub(crate) struct Slot {
    pub(crate) packet: Packet,
    /// Whether the packet is still there.
    pub(crate) there: bool,
    /// The link to the last slot before it that is in its bucket.
    pub(crate) before: usize,
}

/// Slots have numbers below this one.
const NUMBERS: usize = 1 << 63;

/// The same slots once more, with as many places.
pub(crate) fn copied_slots(
    alloc: Global,
    slots: &VecDeque<Slot>,
) -> Result<VecDeque<Slot>, AllocError>
    ensures items { IfOk result (λ copied. copied.items ≡ slots.now.items) }
    ensures capacity { IfOk result (λ copied. deque_capacity copied ≡ deque_capacity slots.now) }
{
    let mut copied = VecDeque::with_capacity(alloc, slots.capacity())?;
    for slot in slots {
        copied.push_back_reserved(Slot {
            packet: slot.packet.copy(),
            there: slot.there,
            before: slot.before,
        });
    }
    Ok(copied)
}

/// Whether both, which have as many packets, have the same ones in the same order.
pub(crate) fn have_same_packets(one: &VecDeque<Slot>, other: &VecDeque<Slot>) -> bool
    requires { length (packets_in one.now.items) ≡ length (packets_in other.now.items) }
    ensures { IsTrue result ↔ packets_in one.now.items ≡ packets_in other.now.items }
{
    let mut place = 0;
    let mut opposite = 0;
    while place < one.len() && opposite < other.len() {
        if !one[place].there {
            place += 1;
        } else if !other[opposite].there {
            opposite += 1;
        } else if one[place].packet.is_same(&other[opposite].packet) {
            place += 1;
            opposite += 1;
        } else {
            return false;
        }
    }
    true
}

/// Links a slot, which is to have this number, behind the last one of its bucket.
pub(crate) fn link(last: &mut Vec<usize>, slot: &mut Slot, number: usize)
    requires some { 0 < length last.old.items }
    requires small { number < 2 ^ 63 }
    ensures slot { slot.new ≡ linked (link_of last.old.items
        (bucket_of (length last.old.items) slot.old.packet)) slot.old }
    ensures last { last.new.items ≡ with_last last.old.items
        (bucket_of (length last.old.items) slot.old.packet) (number + 1) }
{
    let Some(place) = bucket_of_packet(last.len(), &slot.packet) else {
        slot.before = 0;
        return;
    };
    slot.before = last[place];
    last[place] = number + 1;
}

/// Links all slots anew, the first of which gets the number 0. No bucket has a last slot yet.
pub(crate) fn link_anew(slots: &mut VecDeque<Slot>, last: &mut Vec<usize>)
    requires some { 0 < length last.old.items }
    requires clear { last.old.items ≡ replicate (length last.old.items) 0 }
    requires small { length slots.old.items ≤ 2 ^ 63 }
    ensures packets { packets_in slots.new.items ≡ packets_in slots.old.items }
    ensures long { length slots.new.items ≡ length slots.old.items }
    ensures linked { AreLinked slots.new.items 0 last.new.items }
    ensures buckets { length last.new.items ≡ length last.old.items }
    ensures capacity { deque_capacity slots.new ≡ deque_capacity slots.old }
{
    for place in 0..slots.len() {
        link(last, &mut slots[place], place);
    }
}

/// Makes a place behind all slots, with a number for it. Where there is none the empty places go,
/// and all slots are linked anew.
pub(crate) fn make_place(slots: &mut VecDeque<Slot>, last: &mut Vec<usize>, front: &mut usize)
    requires some { 0 < length last.old.items }
    requires room { length (packets_in slots.old.items) < deque_capacity slots.old }
    requires small { deque_capacity slots.old < 2 ^ 63 }
    requires numbers { front.old + length slots.old.items ≤ 2 ^ 63 }
    requires linked { AreLinked slots.old.items front.old last.old.items }
    ensures packets { packets_in slots.new.items ≡ packets_in slots.old.items }
    ensures place { length slots.new.items < deque_capacity slots.new }
    ensures number { front.new + length slots.new.items < 2 ^ 63 }
    ensures linked { AreLinked slots.new.items front.new last.new.items }
    ensures buckets { length last.new.items ≡ length last.old.items }
    ensures capacity { deque_capacity slots.new ≡ deque_capacity slots.old }
{
    if slots.len() < slots.capacity() && *front + slots.len() < NUMBERS {
        return;
    }
    slots.retain(|slot| slot.there);
    last.fill(0);
    link_anew(slots, last);
    *front = 0;
}

/// Takes out the first packet, and the empty places before it.
pub(crate) fn take_first(slots: &mut VecDeque<Slot>, front: &mut usize) -> Option<Packet>
    requires { front.old + length slots.old.items ≤ 2 ^ 63 }
    ensures first { result ≡ slice_get (packets_in slots.old.items) 0 }
    ensures rest { packets_in slots.new.items ≡ drop 1 (packets_in slots.old.items) }
    ensures linked { (last : List ℕ) → AreLinked slots.old.items front.old last
        → AreLinked slots.new.items front.new last }
    ensures numbers { front.new + length slots.new.items ≡ front.old + length slots.old.items }
    ensures capacity { deque_capacity slots.new ≡ deque_capacity slots.old }
{
    while let Some(slot) = slots.pop_front() {
        *front += 1;
        if slot.there {
            return Some(slot.packet);
        }
    }
    None
}

/// Takes out the packets with this key that waits of this source gave, and says how many they were.
/// Only the slots of their bucket are looked at. Those that are empty leave its chain.
pub(crate) fn take_from(
    slots: &mut VecDeque<Slot>,
    last: &mut Vec<usize>,
    front: usize,
    own: usize,
    source: Source,
    key: u64,
) -> usize
    requires own { own ≡ bucket (length last.old.items) source key }
    requires within { own < length last.old.items }
    requires numbers { front + length slots.old.items ≤ 2 ^ 63 }
    requires linked { AreLinked slots.old.items front last.old.items }
    ensures rest { packets_in slots.new.items
        ≡ filter (λ x. not (is_from source key x)) (packets_in slots.old.items) }
    ensures count { result ≡ length (filter (is_from source key) (packets_in slots.old.items)) }
    ensures linked { AreLinked slots.new.items front last.new.items }
    ensures long { length slots.new.items ≡ length slots.old.items }
    ensures buckets { length last.new.items ≡ length last.old.items }
    ensures capacity { deque_capacity slots.new ≡ deque_capacity slots.old }
{
    let mut taken = 0;
    // The slot above, or none at the top, leads to the one that is looked at next.
    let mut above: Option<usize> = None;
    let mut next = last[own];
    while next > front {
        let place = next - 1 - front;
        next = slots[place].before;
        if stays(&slots[place], source, key) {
            above = Some(place);
        } else {
            taken += empty(&mut slots[place]);
            lead_to(slots, last, own, above, next);
        }
    }
    taken
}

/// The slot has a packet, and not one with this key that a wait of this source gave.
fn stays(slot: &Slot, source: Source, key: u64) -> bool
    ensures { result ≡ is_other source key slot.now }
{
    slot.there && !slot.packet.is_from(source, key)
}

/// The slot becomes an empty place. Says how many packets were there.
fn empty(slot: &mut Slot) -> usize
    ensures slot { slot.new ≡ emptied slot.old }
    ensures count { result ≡ (if slot.old.there then 1 else 0) }
{
    let count = usize::from(slot.there);
    slot.there = false;
    count
}

/// The slot above, or the bucket where there is none, leads to another one.
fn lead_to(
    slots: &mut VecDeque<Slot>,
    last: &mut Vec<usize>,
    own: usize,
    above: Option<usize>,
    next: usize,
)
    requires within { own < length last.old.items }
    requires above { IfSome above (λ place. place < length slots.old.items) }
    ensures slots { slots.new.items ≡ slots_above slots.old.items above next }
    ensures last { last.new.items ≡ last_above last.old.items own above next }
    ensures capacity { deque_capacity slots.new ≡ deque_capacity slots.old }
{
    match above {
        Some(place) => slots[place].before = next,
        None => last[own] = next,
    }
}
