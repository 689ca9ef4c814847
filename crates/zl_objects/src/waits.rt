//! The waits that are registered at the objects. Each has a place for its packet at its port.

ghost use Rattle.std.specs.Prelude.{◌≡◌, IsTrue, IfErr, IfNone, OnErr, OnOk, option_map};
ghost use Rattle.std.specs.List.{find};
ghost use Rattle.zl_rights.specs.Map.{get, has_key, update};
ghost use Rattle.zl_port.specs.Packets.{with_packet, with_place, without_place};
ghost use Rattle.zl_signals.specs.Waits.{is_at_port, is_by_handle_here, is_keyed_here, wait_at, watch_holds};
ghost use Rattle.zl_objects.specs.Calm.{is_watched_in};
ghost use Rattle.zl_objects.specs.Ports.{at_port, has_place_in, is_port_at};
ghost use Rattle.zl_objects.specs.Listed.{holds_at, is_given_from, is_keyed_at, is_made_at, may_register_here, unlisting, watch_of, watching};
ghost use Rattle.zl_objects.specs.Waits.{firing, order_found, packet_here, unwatched, unwatching, waits_in, watched, without_port_waits};

use crate::listing::unlist;
use crate::object::Object;
use crate::objects::Objects;
use crate::wait::Wait;
use bitflags::Flags;
use std::alloc::{AllocError, AllocFailed};
use std::collections::BTreeMap;
use zl_port::{Packet, PacketKind, Source};
use zl_rights::{HValue, Koid, Pid, Signals};
use zl_signals::Watch;

/// The waits that were made by a handle of a process, for a packet with the key to the port.
#[derive(Clone, Copy)]
struct Keyed {
    pid: Pid,
    value: HValue,
    port: Koid,
    key: u64,
}

impl Object {
    /// Registers the wait behind all others.
    pub(crate) fn watch(&mut self, watch: Watch) -> Result<(), AllocFailed<Watch>>
        ensures ok { OnOk result (self.new ≡ watched watch self.old) }
        ensures unchanged { OnErr result (self.new ≡ self.old) }
        ensures handed_back { IfErr result (λ refused. refused.value ≡ watch) }
    {
        self.signals.watch(watch)
    }

    /// Takes out the earliest wait that the process made by its handle of this value.
    pub(crate) fn unwatch_handle(&mut self, pid: Pid, value: HValue) -> Option<Watch>
        ensures earliest { result ≡ find (is_by_handle_here pid value) self.old.signals.waits }
        ensures rest { self.new ≡ unwatched (is_by_handle_here pid value) self.old }
        ensures unchanged { IfNone result (self.new ≡ self.old) }
    {
        self.signals.unwatch_handle(pid, value)
    }

    /// Takes out the earliest wait that gives its packet to the port.
    pub(crate) fn unwatch_port(&mut self, port: Koid) -> Option<Watch>
        ensures earliest { result ≡ find (is_at_port port) self.old.signals.waits }
        ensures rest { self.new ≡ unwatched (is_at_port port) self.old }
        ensures unchanged { IfNone result (self.new ≡ self.old) }
    {
        self.signals.unwatch_port(port)
    }

    /// Takes out all waits that give their packets to the port.
    pub(crate) fn end_port(&mut self, port: Koid)
        ensures { self.new ≡ without_port_waits port self.old }
    {
        self.signals.end_port(port);
    }

    /// Takes out the earliest of these waits.
    fn unwatch_key(&mut self, keyed: Keyed) -> Option<Watch>
        ensures earliest { result
            ≡ find (is_keyed_here keyed.pid keyed.value keyed.port keyed.key) self.old.signals.waits }
        ensures rest { self.new
            ≡ unwatched (is_keyed_here keyed.pid keyed.value keyed.port keyed.key) self.old }
        ensures unchanged { IfNone result (self.new ≡ self.old) }
    {
        self.signals
            .unwatch_key(keyed.pid, keyed.value, keyed.port, keyed.key)
    }

    /// Takes out the earliest wait that holds.
    pub(crate) fn fire(&mut self, active: Signals) -> Option<Watch>
        ensures earliest { result ≡ find (watch_holds active.0) self.old.signals.waits }
        ensures rest { self.new ≡ unwatched (watch_holds active.0) self.old }
        ensures unchanged { IfNone result (self.new ≡ self.old) }
    {
        self.signals.fire(active)
    }
}

#[tactic(auto, using(crate::proofs::ByKoid::by_koid, crate::proofs::Kept::kept))]
impl Objects {
    /// Registers the wait behind all others, at its object and in the list, and reserves a place for
    /// its packet at its port. Both have to be there, and one more wait may be registered.
    ///
    /// Only memory can be refused; then nothing changes.
    /// Source: the page "zx_object_wait_async" of the Fuchsia documentation; reserved places are own
    /// profile.
    pub fn watch(&mut self, wait: Wait) -> Result<(), AllocError>
        requires there { IsTrue (has_key self.old.objects wait.object) }
        requires port { IsTrue (is_port_at self.old.objects wait.port) }
        requires may { IsTrue (may_register_here self.old) }
        ensures ok { OnOk result (self.new ≡ watching self.old wait) }
        ensures unchanged { OnErr result (self.new ≡ self.old) }
    {
        let store = &mut self.store;
        let order = store.waits.made;
        store.waits.push(wait)?;
        if stand(&mut store.by_koid, wait, order).is_err() {
            store.waits.take_back(order);
            return Err(AllocError);
        }
        // A signal that is active already counts too.
        store.marks.add_if(true, wait.object);
        Ok(())
    }

    /// Takes out the earliest wait at the object that the process made by its handle of this value,
    /// or nothing where there is none. Its place at its port is given back. It takes no memory.
    ///
    /// Source: the page "zx_object_wait_async" of the Fuchsia documentation: a wait ends with its
    /// handle.
    pub fn unwatch_handle(&mut self, koid: Koid, pid: Pid, value: HValue) -> Option<Watch>
        ensures earliest { result
            ≡ find (is_by_handle_here pid value) (waits_in (get self.old.objects koid)) }
        ensures listed { option_map (wait_at koid) result
            ≡ find (is_made_at koid pid value) self.old.waits }
        ensures rest { self.new ≡ unwatching (unlisting (is_made_at koid pid value) self.old) koid
            (is_by_handle_here pid value) }
    {
        let store = &mut self.store;
        let wait = take_handle(&mut store.by_koid, koid, pid, value)?;
        unlist(&mut store.waits, wait.order);
        give_back(&mut store.by_koid, wait.port);
        Some(wait)
    }

    /// Takes out the earliest wait at the object that gives its packet to the port, or nothing where
    /// there is none. Its place at the port is given back. It takes no memory.
    ///
    /// Source: own profile.
    pub fn unwatch_port(&mut self, koid: Koid, port: Koid) -> Option<Watch>
        ensures earliest { result ≡ find (is_at_port port) (waits_in (get self.old.objects koid)) }
        ensures rest { self.new ≡ unwatching (unlisting (is_given_from koid port) self.old) koid
            (is_at_port port) }
    {
        let store = &mut self.store;
        let wait = take_port(&mut store.by_koid, koid, port)?;
        unlist(&mut store.waits, wait.order);
        give_back(&mut store.by_koid, wait.port);
        Some(wait)
    }

    /// Takes out the earliest wait at the object that the process made by its handle of this value
    /// for a packet with the key to the port, or nothing where there is none. Its place at the port
    /// is given back. It takes no memory.
    ///
    /// Source: the page "zx_port_cancel" of the Fuchsia documentation.
    pub fn unwatch_key(
        &mut self,
        koid: Koid,
        pid: Pid,
        value: HValue,
        port: Koid,
        key: u64,
    ) -> Option<Watch>
        ensures earliest { result
            ≡ find (is_keyed_here pid value port key) (waits_in (get self.old.objects koid)) }
        ensures listed { option_map (wait_at koid) result
            ≡ find (is_keyed_at koid pid value port key) self.old.waits }
        ensures rest { self.new ≡ unwatching
            (unlisting (is_keyed_at koid pid value port key) self.old) koid
            (is_keyed_here pid value port key) }
        ensures unchanged { IfNone result (self.new ≡ self.old) }
    {
        let store = &mut self.store;
        let keyed = Keyed {
            pid,
            value,
            port,
            key,
        };
        let wait = take_key(&mut store.by_koid, koid, keyed)?;
        unlist(&mut store.waits, wait.order);
        give_back(&mut store.by_koid, wait.port);
        Some(wait)
    }

    /// The order of the wait that `fire` would take out at the object, if one holds. It takes no
    /// memory.
    ///
    /// Source: own profile.
    pub fn next_order(&self, koid: Koid, active: Signals) -> Option<u64>
        ensures { result ≡ order_found active.0 (get self.now.objects koid) }
    {
        self.store.by_koid.get(&koid)?.signals.next_order(active)
    }

    /// Takes out the earliest wait at the object that holds, as a signal of its mask is among the
    /// active ones, or nothing where none does. Its packet goes last into the queue of its port,
    /// in the place that was reserved for it. It takes no memory.
    ///
    /// Source: the page "zx_object_wait_async" of the Fuchsia documentation; the order is own
    /// profile.
    pub fn fire(&mut self, koid: Koid, active: Signals) -> Option<Watch>
        ensures earliest { result
            ≡ find (watch_holds active.0) (waits_in (get self.old.objects koid)) }
        ensures listed { option_map (wait_at koid) result
            ≡ find (holds_at koid active.0) self.old.waits }
        ensures rest { self.new ≡ firing (unlisting (holds_at koid active.0) self.old) koid active.0 }
    {
        let store = &mut self.store;
        let wait = take_holding(&mut store.by_koid, koid, active)?;
        unlist(&mut store.waits, wait.order);
        queue_signal(
            &mut store.by_koid,
            wait.port,
            packet_of(koid, active, &wait),
        );
        store
            .marks
            .add_if(is_watched(&store.by_koid, wait.port), wait.port);
        Some(wait)
    }
}

/// The wait stands behind all others at its object, where so many were registered before it, and has
/// a place at its port. Where memory is refused, nothing changes.
fn stand(by_koid: &mut BTreeMap<Koid, Object>, wait: Wait, order: u64) -> Result<(), AllocError>
    ensures ok { OnOk result (by_koid.new.entries ≡ update
        (update by_koid.old.entries wait.port (at_port with_place))
        wait.object (watched (watch_of order wait))) }
    ensures unchanged { OnErr result (by_koid.new.entries ≡ by_koid.old.entries) }
{
    reserve_wait(by_koid, wait.port)?;
    if register(by_koid, wait.object, wait.watch(order)).is_err() {
        give_back(by_koid, wait.port);
        return Err(AllocError);
    }
    Ok(())
}

/// Reserves a place at the port.
#[tactic(auto, using(crate::proofs::ByKoid::by_koid))]
fn reserve_wait(by_koid: &mut BTreeMap<Koid, Object>, port: Koid) -> Result<(), AllocError>
    ensures ok { OnOk result
        (by_koid.new.entries ≡ update by_koid.old.entries port (at_port with_place)) }
    ensures unchanged { OnErr result (by_koid.new.entries ≡ by_koid.old.entries) }
{
    let Some(object) = by_koid.get_mut(&port) else {
        return Ok(());
    };
    object.reserve_wait()
}

/// Registers the wait at the object.
#[tactic(auto, using(crate::proofs::ByKoid::by_koid))]
fn register(
    by_koid: &mut BTreeMap<Koid, Object>,
    koid: Koid,
    watch: Watch,
) -> Result<(), AllocFailed<Watch>>
    ensures ok { OnOk result
        (by_koid.new.entries ≡ update by_koid.old.entries koid (watched watch)) }
    ensures unchanged { OnErr result (by_koid.new.entries ≡ by_koid.old.entries) }
    ensures handed_back { IfErr result (λ refused. refused.value ≡ watch) }
{
    let Some(object) = by_koid.get_mut(&koid) else {
        return Ok(());
    };
    object.watch(watch)
}

/// Gives a reserved place back at the port, if one is reserved.
#[tactic(auto, using(crate::proofs::ByKoid::by_koid))]
pub fn give_back(by_koid: &mut BTreeMap<Koid, Object>, port: Koid)
    ensures { by_koid.new.entries ≡ update by_koid.old.entries port (at_port without_place) }
{
    let Some(object) = by_koid.get_mut(&port) else {
        return;
    };
    object.give_back();
}

/// Puts the packet of a wait behind all others at the port, in a reserved place.
#[tactic(auto, using(crate::proofs::ByKoid::by_koid))]
fn queue_signal(by_koid: &mut BTreeMap<Koid, Object>, port: Koid, packet: Packet)
    requires { IsTrue (has_place_in (get by_koid.old.entries port)) }
    ensures { by_koid.new.entries ≡ update by_koid.old.entries port
        (at_port (λ p. with_packet (without_place p) packet)) }
{
    let Some(object) = by_koid.get_mut(&port) else {
        return;
    };
    object.queue_signal(packet);
}

/// Whether something waits at the object, if it is there.
#[tactic(auto, using(crate::proofs::ByKoid::by_koid))]
pub fn is_watched(by_koid: &BTreeMap<Koid, Object>, koid: Koid) -> bool
    ensures { result ≡ is_watched_in (get by_koid.now.entries koid) }
{
    match by_koid.get(&koid) {
        Some(object) => object.is_watched(),
        None => false,
    }
}

/// The packet of a wait that was registered at the object.
fn packet_of(koid: Koid, active: Signals, wait: &Watch) -> Packet
    ensures { result ≡ packet_here koid active.0 wait.now }
{
    Packet {
        kind: PacketKind::Signal,
        key: wait.key,
        trigger: u64::from(wait.mask.bits()),
        observed: u64::from(active.bits()),
        source: Some(Source {
            pid: wait.pid,
            value: wait.value,
            object: koid,
        }),
    }
}

/// Takes out the earliest such wait at the object; its place stays.
#[tactic(auto, using(crate::proofs::ByKoid::by_koid))]
fn take_handle(
    by_koid: &mut BTreeMap<Koid, Object>,
    koid: Koid,
    pid: Pid,
    value: HValue,
) -> Option<Watch>
    ensures earliest { result
        ≡ find (is_by_handle_here pid value) (waits_in (get by_koid.old.entries koid)) }
    ensures rest { by_koid.new.entries
        ≡ update by_koid.old.entries koid (unwatched (is_by_handle_here pid value)) }
{
    by_koid.get_mut(&koid)?.unwatch_handle(pid, value)
}

/// Takes out the earliest such wait at the object; its place stays.
#[tactic(auto, using(crate::proofs::ByKoid::by_koid))]
fn take_port(by_koid: &mut BTreeMap<Koid, Object>, koid: Koid, port: Koid) -> Option<Watch>
    ensures earliest { result ≡ find (is_at_port port) (waits_in (get by_koid.old.entries koid)) }
    ensures rest { by_koid.new.entries
        ≡ update by_koid.old.entries koid (unwatched (is_at_port port)) }
{
    by_koid.get_mut(&koid)?.unwatch_port(port)
}

/// Takes out the earliest such wait at the object; its place stays.
#[tactic(auto, using(crate::proofs::ByKoid::by_koid))]
fn take_key(by_koid: &mut BTreeMap<Koid, Object>, koid: Koid, keyed: Keyed) -> Option<Watch>
    ensures earliest { result ≡ find (is_keyed_here keyed.pid keyed.value keyed.port keyed.key)
        (waits_in (get by_koid.old.entries koid)) }
    ensures rest { by_koid.new.entries ≡ update by_koid.old.entries koid
        (unwatched (is_keyed_here keyed.pid keyed.value keyed.port keyed.key)) }
{
    by_koid.get_mut(&koid)?.unwatch_key(keyed)
}

/// Takes out the earliest wait at the object that holds; its place stays.
#[tactic(auto, using(crate::proofs::ByKoid::by_koid))]
fn take_holding(by_koid: &mut BTreeMap<Koid, Object>, koid: Koid, active: Signals) -> Option<Watch>
    ensures earliest { result
        ≡ find (watch_holds active.0) (waits_in (get by_koid.old.entries koid)) }
    ensures rest { by_koid.new.entries
        ≡ update by_koid.old.entries koid (unwatched (watch_holds active.0)) }
{
    by_koid.get_mut(&koid)?.fire(active)
}
