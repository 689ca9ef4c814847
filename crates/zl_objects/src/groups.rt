//! What is waited for at each koid by all that may be blocked there, taken together.

ghost use Rattle.std.specs.Prelude.{◌≡◌, ◌==◌, false, slice_get, IfOk};
ghost use Rattle.std.specs.List.Sorted.{IsNonDecreasingBy};
ghost use Rattle.zl_objects.specs.declared.awaited.Awaited.{Awaited as AwaitedValue};
ghost use Rattle.zl_objects.specs.Awaited.{koid_of};
ghost use Rattle.zl_objects.specs.Groups.{empty_group, is_group_at, joined, may_wake, sees, Counts, Covers, IsGroupPlace};

use crate::awaited::Awaited;
use crate::copying::copied;
use std::alloc::{AllocError, Global};
use zl_rights::Koid;

/// What those at one koid wait for, and perhaps more, for which others did.
#[derive(Clone, Copy, Drop)]
pub(crate) struct Group {
    koid: Koid,
    // All signals for which one waits.
    masks: u64,
    // One waits for packets.
    packets: bool,
}

impl Group {
    /// Nobody waits there yet.
    pub fn new(koid: Koid) -> Group
        ensures { result ≡ empty_group koid }
    {
        Group {
            koid,
            masks: 0,
            packets: false,
        }
    }

    /// One more belongs to it, who waits for this.
    pub fn join(self, awaited: &Awaited) -> Group
        ensures { result ≡ joined awaited.now self }
    {
        let mut group = self;
        match awaited {
            Awaited::SignalOf { mask, .. } => group.masks |= *mask,
            Awaited::PacketAt(_) => group.packets = true,
        }
        group
    }

    /// Whether of these signals, and of packets if they are there, one is waited for.
    fn sees(&self, signals: u64, packets: bool) -> bool
        ensures { result ≡ sees signals packets self.now }
    {
        signals & self.masks != 0 || (packets && self.packets)
    }
}

/// A group for each koid at which somebody is listed. It takes no memory to join: where there was no
/// room for a group, anyone anywhere counts as one who may wake.
#[derive(Drop)]
pub(crate) struct Groups {
    list: Vec<Group>,
    crowded: bool,
    ghost in_order: { IsNonDecreasingBy (λ g. g.koid) list.items },
}

impl Groups {
    /// No group. There is room for so many.
    pub fn new(alloc: Global, room: usize) -> Result<Groups, AllocError> {
        Ok(Groups {
            list: Vec::with_capacity(alloc, room)?,
            crowded: false,
        })
    }

    /// The same groups once more, with as much room.
    pub fn copy(&self, alloc: Global) -> Result<Groups, AllocError>
        ensures list { IfOk result (λ groups. groups.list.items ≡ self.now.list.items) }
        ensures crowded { IfOk result (λ groups. groups.crowded ≡ self.now.crowded) }
    {
        Ok(Groups {
            list: copied(alloc, &self.list)?,
            crowded: self.crowded,
        })
    }

    /// Makes room for so many groups.
    pub fn make_room(&mut self, room: usize) -> Result<(), AllocError>
        ensures list { self.new.list.items ≡ self.old.list.items }
        ensures crowded { self.new.crowded ≡ self.old.crowded }
    {
        self.list.reserve(room.saturating_sub(self.list.len()))
    }

    /// One more belongs to the group at its koid.
    pub fn join(&mut self, awaited: &Awaited)
        ensures joined { Counts self.new.crowded self.new.list.items awaited.now }
        ensures others { (a : AwaitedValue) → Counts self.old.crowded self.old.list.items a
            → Counts self.new.crowded self.new.list.items a }
    {
        let koid = awaited.koid();
        let place = self.place_of(koid);
        if self.is_at(place, koid) {
            let group = self.list[place];
            self.list[place] = group.join(awaited);
            return;
        }
        if self.list.len() == self.list.capacity() {
            self.crowded = true;
            return;
        }
        let Ok(()) = self.list.insert(place, Group::new(koid).join(awaited)) else {
            unreachable!()
        };
    }

    /// The group at the koid goes, as nobody is listed there any more.
    pub fn remove(&mut self, koid: Koid)
        ensures { (a : AwaitedValue) → (koid_of a == koid) ≡ false
            → Counts self.old.crowded self.old.list.items a
            → Counts self.new.crowded self.new.list.items a }
    {
        let place = self.place_of(koid);
        if self.is_at(place, koid) {
            self.list.remove(place);
        }
    }

    /// This group stands for those at its koid from now on, if there is one.
    pub fn replace(&mut self, group: Group)
        ensures { (a : AwaitedValue) → Counts self.old.crowded self.old.list.items a
            → (koid_of a ≡ group.koid → Covers group a)
            → Counts self.new.crowded self.new.list.items a }
    {
        let place = self.place_of(group.koid);
        if self.is_at(place, group.koid) {
            self.list[place] = group;
        }
    }

    /// No group is left.
    pub fn clear(&mut self) {
        self.list.clear();
        self.crowded = false;
    }

    /// Whether one at the koid may have what it waits for, where these signals are active there, and
    /// packets are there or aren't.
    pub fn may_wake(&self, koid: Koid, signals: u64, packets: bool) -> bool
        ensures { result ≡ may_wake self.now.crowded self.now.list.items koid signals packets }
    {
        if self.crowded {
            return true;
        }
        let place = self.place_of(koid);
        self.is_at(place, koid) && self.list[place].sees(signals, packets)
    }

    /// Where the first group at this koid or a higher one stands.
    fn place_of(&self, koid: Koid) -> usize
        ensures { IsGroupPlace koid self.now.list.items result }
    {
        self.list.partition_point(|group| group.koid < koid)
    }

    /// Whether the group at the place is that at the koid.
    fn is_at(&self, place: usize, koid: Koid) -> bool
        ensures { result ≡ is_group_at koid (slice_get self.now.list.items place) }
    {
        match self.list.get(place) {
            Some(group) => group.koid == koid,
            None => false,
        }
    }
}
