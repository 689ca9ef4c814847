//! The list of all registered waits, the earliest first, beside the waits at the objects.

ghost use Rattle.std.specs.Prelude.{[], false, take, IfOk, IfSome, ◌≡◌, ◌+◌, ◌++◌, ◌∷◌, ◌==◌, ◌<◌, ◌≤◌, ◌^◌, not, map, option_map, slice_get, IsTrue, OnErr, OnSome, OnOk};
ghost use Rattle.std.specs.FinMap.Entries.{is_sorted};
ghost use Rattle.std.specs.List.{filter, find, list_any, All};
ghost use Rattle.std.specs.Ordering.{nat_cmp};
ghost use Rattle.zl_rights.specs.Signals.{is_empty};
ghost use Rattle.zl_signals.specs.Waits.{without_first};
ghost use Rattle.zl_objects.specs.Calm.{holds_now};
ghost use Rattle.zl_objects.specs.Due.{is_entry_due};
ghost use Rattle.zl_objects.specs.Index.{IsIndexed};
ghost use Rattle.zl_objects.specs.Listed.{entry_of, is_there, may_register_here, order_entry, wait_value};
ghost use Rattle.zl_objects.specs.PortWaits.{is_entry_to, AreFound};

use crate::children::Children;
use crate::gapped::Gapped;
use crate::object::Object;
use crate::objects::Objects;
use crate::port_waits::PortWaits;
use crate::signals::signals_at;
use crate::wait::{Listed, Wait};
use bitflags::Flags;
use std::alloc::{AllocError, Global};
use std::collections::BTreeMap;
use zl_rights::Koid;

/// All registered waits, the earliest first, and how many ever were registered.
#[derive(Drop)]
pub(crate) struct WaitList {
    pub entries: Gapped,
    // The waits of each port.
    pub by_port: PortWaits,
    pub made: u64,
    ghost rising: { IsTrue (is_sorted nat_cmp (map order_entry entries.items)) },
    ghost below: { All (λ x. x.order < made) entries.items },
    ghost found: { AreFound by_port entries.items },
}

impl WaitList {
    /// No wait, and none ever was registered.
    pub fn new(alloc: Global) -> WaitList
        ensures entries { result.entries.items ≡ [] }
        ensures made { result.made ≡ 0 }
    {
        WaitList {
            entries: Gapped::new(alloc),
            by_port: PortWaits::new(alloc),
            made: 0,
        }
    }

    /// The same waits once more, with as much room.
    pub fn copy(&self, alloc: Global) -> Result<WaitList, AllocError>
        ensures entries { IfOk result (λ waits. waits.entries.items ≡ self.now.entries.items) }
        ensures made { IfOk result (λ waits. waits.made ≡ self.now.made) }
    {
        Ok(WaitList {
            entries: self.entries.copy(alloc)?,
            by_port: self.by_port.clone()?,
            made: self.made,
        })
    }

    /// Lists the wait behind all others. Where memory is refused, nothing changes.
    pub fn push(&mut self, wait: Wait) -> Result<(), AllocError>
        requires { self.old.made < 2 ^ 62 }
        ensures entries { OnOk result (self.new.entries.items
            ≡ self.old.entries.items ++ entry_of self.old.made wait ∷ []) }
        ensures made { OnOk result (self.new.made ≡ self.old.made + 1) }
        ensures same { OnErr result (self.new.entries.items ≡ self.old.entries.items) }
        ensures same_made { OnErr result (self.new.made ≡ self.old.made) }
    {
        let order = self.made;
        self.entries.reserve_one()?;
        self.by_port.add(wait.port, order)?;
        self.made = order + 1;
        self.entries.push_back_reserved(Listed { order, wait });
        Ok(())
    }

    /// Takes the last wait back, before which so many were registered, as if it had not been listed.
    pub fn take_back(&mut self, order: u64)
        requires last { All (λ x. x.order ≤ order) self.old.entries.items }
        ensures entries { self.new.entries.items
            ≡ filter (λ x. not (x.order == order)) self.old.entries.items }
        ensures made { self.new.made ≡ order }
    {
        unlist(self, order);
        self.made = order;
    }

    /// Takes out the earliest wait that gives its packet to the port, or nothing where there is none.
    pub fn take_given(&mut self, port: Koid) -> Option<Wait>
        ensures earliest { result
            ≡ option_map (λ x. x.wait) (find (is_entry_to port) self.old.entries.items) }
        ensures entries { self.new.entries.items
            ≡ without_first (is_entry_to port) self.old.entries.items }
        ensures made { self.new.made ≡ self.old.made }
    {
        let order = self.by_port.first(port, self.made)?;
        unlist(self, order)
    }

    /// No wait is registered any more.
    pub fn clear(&mut self)
        ensures entries { self.new.entries.items ≡ [] }
        ensures made { self.new.made ≡ self.old.made }
    {
        self.entries.clear();
        self.by_port.clear();
    }

    /// The wait at place `n`, from 0.
    fn get(&self, n: usize) -> Option<Listed>
        ensures entry { result ≡ slice_get self.now.entries.items n }
        ensures next { OnSome result (n + 1 < 2 ^ 64) }
    {
        self.entries.get(n)
    }
}

impl Objects {
    /// Whether one more wait may be registered: 2^62 may ever be.
    ///
    /// Source: own profile.
    pub fn may_register(&self) -> bool
        ensures { result ≡ may_register_here self.now }
    {
        self.store.waits.made < Objects::MOST
    }

    /// Whether a wait is registered. Of each the object and the port are there.
    ///
    /// Source: own profile.
    pub fn has_waits(&self) -> bool
        ensures any { result ≡ not (is_empty self.now.waits) }
        ensures there { All (λ x. IsTrue (is_there self.now.objects x)) self.now.waits }
    {
        !self.store.waits.entries.is_empty()
    }

    /// The wait at place `n`, from 0, of all registered waits, the earliest first.
    ///
    /// Source: own profile.
    pub fn wait_at(&self, n: usize) -> Option<Wait>
        ensures wait { option_map wait_value result ≡ slice_get self.now.waits n }
        ensures next { OnSome result (n + 1 < 2 ^ 64) }
    {
        Some(self.store.waits.get(n)?.wait)
    }
}

/// Takes the wait out of the list before which so many were registered, or nothing where it isn't
/// there.
pub fn unlist(waits: &mut WaitList, order: u64) -> Option<Wait>
    ensures wait { result
        ≡ option_map (λ x. x.wait) (find (λ x. x.order == order) waits.old.entries.items) }
    ensures entries { waits.new.entries.items
        ≡ filter (λ x. not (x.order == order)) waits.old.entries.items }
    ensures made { waits.new.made ≡ waits.old.made }
{
    let place = waits.entries.place_of(order)?;
    let listed = waits.entries.remove(place)?;
    waits.by_port.remove(listed.wait.port, order);
    Some(listed.wait)
}

/// The object of the earliest wait that holds, behind its place. Of the first `from` none may hold.
pub fn first_holding(
    waits: &WaitList,
    by_koid: &BTreeMap<Koid, Object>,
    children: &Children,
    from: usize,
) -> Option<(usize, Koid)>
    requires indexed { IsIndexed children.now by_koid.now.entries }
    requires before { list_any (is_entry_due by_koid.now.entries) (take from waits.now.entries.items)
        ≡ false }
    ensures object { option_map (λ due. due.1) result ≡ option_map (λ x. x.wait.object)
        (find (is_entry_due by_koid.now.entries) waits.now.entries.items) }
    ensures before { IfSome result (λ due. list_any (is_entry_due by_koid.now.entries)
        (take due.0 waits.now.entries.items) ≡ false) }
{
    let mut place = from;
    while let Some(listed) = waits.get(place) {
        if is_holding(by_koid, children, &listed.wait) {
            return Some((place, listed.wait.object));
        }
        place += 1;
    }
    None
}

/// Whether the wait holds.
fn is_holding(by_koid: &BTreeMap<Koid, Object>, children: &Children, wait: &Wait) -> bool
    requires { IsIndexed children.now by_koid.now.entries }
    ensures { result ≡ holds_now by_koid.now.entries (wait_value wait.now) }
{
    signals_at(by_koid, children, wait.object).intersects(wait.mask)
}
