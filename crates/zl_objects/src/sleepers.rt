//! Which processes may be blocked, and what they wait for.

ghost use Rattle.std.specs.Prelude.{◌≡◌, ◌<◌, ◌≤◌, false, IfOk, IfSome, IfNone, [], length, slice_index_or};
ghost use Rattle.std.specs.List.{All, remove};
ghost use Rattle.std.specs.List.Sorted.{IsNonDecreasingBy};
ghost use Rattle.zl_rights.specs.Map.{get};
ghost use Rattle.zl_objects.specs.Awaited.{koid_of};
ghost use Rattle.zl_objects.specs.Calm.{has_packet, is_due, is_given};
ghost use Rattle.zl_objects.specs.Groups.{Counts};
ghost use Rattle.zl_objects.specs.Sleepers.{IsFirstDue, IsPlace, IsPut, IsUnlisted, NoneDueAt};
ghost use Rattle.zl_objects.specs.Index.{IsIndexed};

use crate::awaited::{Awaited, Sleeper};
use crate::children::Children;
use crate::copying::copied;
use crate::groups::{Group, Groups};
use crate::object::Object;
use crate::signals::signals_at;
use bitflags::Flags;
use std::alloc::{AllocError, Global};
use std::collections::BTreeMap;
use zl_rights::Koid;

/// The processes that may be blocked, by the koids at which they wait; those at one koid stand in the
/// order in which they blocked. Listing one takes no memory: where there is no room for one more, not
/// all are listed.
#[derive(Drop)]
pub(crate) struct Sleepers {
    pub list: Vec<Sleeper>,
    pub crowded: bool,
    // What those at each koid wait for, taken together.
    groups: Groups,
    ghost in_order: { IsNonDecreasingBy (λ s. koid_of s.awaited) list.items },
    ghost counted: { All (λ s. Counts groups.crowded groups.list.items s.awaited) list.items },
}

impl Sleepers {
    /// There is room for so many from the beginning.
    const ROOM: usize = 64;

    /// None may be blocked.
    pub fn new(alloc: Global) -> Result<Sleepers, AllocError>
        ensures list { IfOk result (λ sleepers. sleepers.list.items ≡ []) }
        ensures crowded { IfOk result (λ sleepers. sleepers.crowded ≡ false) }
    {
        Ok(Sleepers {
            list: Vec::with_capacity(alloc, Sleepers::ROOM)?,
            crowded: false,
            groups: Groups::new(alloc, Sleepers::ROOM)?,
        })
    }

    /// The same ones once more, with as much room.
    pub fn copy(&self, alloc: Global) -> Result<Sleepers, AllocError>
        ensures list { IfOk result (λ sleepers. sleepers.list.items ≡ self.now.list.items) }
        ensures crowded { IfOk result (λ sleepers. sleepers.crowded ≡ self.now.crowded) }
    {
        Ok(Sleepers {
            list: copied(alloc, &self.list)?,
            crowded: self.crowded,
            groups: self.groups.copy(alloc)?,
        })
    }

    /// Makes room for so many more, if that is wanted.
    pub fn make_room_if(&mut self, wanted: bool, count: usize) -> Result<(), AllocError>
        ensures list { self.new.list.items ≡ self.old.list.items }
        ensures crowded { self.new.crowded ≡ self.old.crowded }
    {
        if wanted {
            self.list.reserve(count)?;
            self.groups.make_room(self.list.capacity())?;
        }
        Ok(())
    }

    /// Lists the process behind the others at its koid. One that is listed for packets of a port
    /// doesn't block there again; if one does, not all are listed.
    pub fn put(&mut self, sleeper: Sleeper)
        ensures { IsPut sleeper self.old.list.items self.old.crowded
            self.new.list.items self.new.crowded }
    {
        if self.list.len() == self.list.capacity() || self.is_listed(&sleeper) {
            self.crowded = true;
            return;
        }
        let place = self.place_behind(sleeper.awaited.koid());
        self.groups.join(&sleeper.awaited);
        let Ok(()) = self.list.insert(place, sleeper) else {
            unreachable!()
        };
    }

    /// Takes out the one at the place.
    pub fn take(&mut self, place: usize) -> Sleeper
        requires { place < length self.old.list.items }
        ensures value { result ≡ slice_index_or self.old.list.items place result }
        ensures list { self.new.list.items ≡ remove self.old.list.items place }
        ensures crowded { self.new.crowded ≡ self.old.crowded }
    {
        let sleeper = self.list.remove(place);
        let koid = sleeper.awaited.koid();
        if self.place_of(koid) == self.place_behind(koid) {
            self.groups.remove(koid);
        }
        sleeper
    }

    /// Nobody is listed.
    pub fn clear(&mut self)
        ensures list { self.new.list.items ≡ [] }
        ensures crowded { self.new.crowded ≡ self.old.crowded }
    {
        self.list.clear();
        self.groups.clear();
    }

    /// Where the first stands that waits at this koid or a higher one.
    fn place_of(&self, koid: Koid) -> usize
        ensures { IsPlace (λ k. k < koid) (λ k. koid ≤ k) self.now.list.items result }
    {
        self.list.partition_point(|s| s.awaited.koid() < koid)
    }

    /// Where the first stands that waits at a higher koid.
    fn place_behind(&self, koid: Koid) -> usize
        ensures { IsPlace (λ k. k ≤ koid) (λ k. koid < k) self.now.list.items result }
    {
        self.list.partition_point(|s| s.awaited.koid() <= koid)
    }

    /// Whether the process is listed at the port for whose packets it waits.
    fn is_listed(&self, sleeper: &Sleeper) -> bool
        ensures { result ≡ false
            → IsUnlisted sleeper.now.pid sleeper.now.awaited self.now.list.items }
    {
        let Awaited::PacketAt(port) = sleeper.awaited else {
            return false;
        };
        for place in self.place_of(port)..self.place_behind(port) {
            if self.list[place].pid == sleeper.pid {
                return true;
            }
        }
        false
    }

    /// Where the first at the koid stands for which what it waits for is there. Where all had to be
    /// looked at, their group is made anew: it may have stood for others that are gone.
    fn due_at(
        &mut self,
        by_koid: &BTreeMap<Koid, Object>,
        children: &Children,
        koid: Koid,
    ) -> Option<usize>
        requires { IsIndexed children.now by_koid.now.entries }
        ensures some { IfSome result (IsFirstDue by_koid.now.entries self.old.list.items) }
        ensures none { IfNone result (NoneDueAt by_koid.now.entries koid self.old.list.items) }
        ensures list { self.new.list.items ≡ self.old.list.items }
        ensures crowded { self.new.crowded ≡ self.old.crowded }
    {
        let signals = u64::from(signals_at(by_koid, children, koid).bits());
        let packets = has_packet(by_koid, koid);
        if !self.groups.may_wake(koid, signals, packets) {
            return None;
        }
        let mut group = Group::new(koid);
        for place in self.place_of(koid)..self.place_behind(koid) {
            let awaited = self.list[place].awaited;
            if is_given(signals, packets, &awaited) {
                return Some(place);
            }
            group = group.join(&awaited);
        }
        self.groups.replace(group);
        None
    }

    /// Where one stands for which what it waits for is there, the first at its koid, if there is one
    /// at these koids.
    pub fn due_among(
        &mut self,
        by_koid: &BTreeMap<Koid, Object>,
        children: &Children,
        koids: &[Koid],
    ) -> Option<usize>
        requires { IsIndexed children.now by_koid.now.entries }
        ensures some { IfSome result (IsFirstDue by_koid.now.entries self.old.list.items) }
        ensures none { IfNone result
            (All (λ k. NoneDueAt by_koid.now.entries k self.old.list.items) koids.now) }
        ensures list { self.new.list.items ≡ self.old.list.items }
        ensures crowded { self.new.crowded ≡ self.old.crowded }
    {
        for koid in koids {
            if let Some(place) = self.due_at(by_koid, children, *koid) {
                return Some(place);
            }
        }
        None
    }

    /// The same at all koids.
    pub fn due_anywhere(
        &self,
        by_koid: &BTreeMap<Koid, Object>,
        children: &Children,
    ) -> Option<usize>
        requires { IsIndexed children.now by_koid.now.entries }
        ensures some { IfSome result (IsFirstDue by_koid.now.entries self.now.list.items) }
        ensures none { IfNone result
            (All (λ s. is_due by_koid.now.entries s.awaited ≡ false) self.now.list.items) }
    {
        for place in 0..self.list.len() {
            if is_due(by_koid, children, &self.list[place].awaited) {
                return Some(place);
            }
        }
        None
    }
}

/// Whether what is waited for is there.
#[tactic(auto, using(crate::proofs::ByKoid::by_koid))]
pub(crate) fn is_due(
    by_koid: &BTreeMap<Koid, Object>,
    children: &Children,
    awaited: &Awaited,
) -> bool
    requires { IsIndexed children.now by_koid.now.entries }
    ensures { result ≡ is_due by_koid.now.entries awaited.now }
{
    let koid = awaited.koid();
    let signals = u64::from(signals_at(by_koid, children, koid).bits());
    is_given(signals, has_packet(by_koid, koid), awaited)
}

/// Whether what is waited for is there, where these signals are active at its object, and packets are
/// there or aren't.
fn is_given(signals: u64, packets: bool, awaited: &Awaited) -> bool
    ensures { result ≡ is_given signals packets awaited.now }
{
    match awaited {
        Awaited::SignalOf { mask, .. } => signals & mask != 0,
        Awaited::PacketAt(_) => packets,
    }
}

/// Whether a packet is at the port.
#[tactic(auto, using(crate::proofs::ByKoid::by_koid))]
fn has_packet(by_koid: &BTreeMap<Koid, Object>, port: Koid) -> bool
    ensures { result ≡ has_packet (get by_koid.now.entries port) }
{
    match by_koid.get(&port) {
        Some(object) => object.body.has_packet(),
        None => false,
    }
}
