//! How registered waits end and fire, one after another in the order in which they were registered.

ghost use Rattle.std.specs.Prelude.{◌≡◌, map, false, IsTrue};
ghost use Rattle.zl_rights.specs.Map.{get};
ghost use Rattle.zl_rights.specs.Settle.{has_handle};
ghost use Rattle.zl_objects.specs.Listed.{wait_value};
ghost use Rattle.zl_calls.specs.World.{process_entry, world_value};
ghost use Rattle.std.specs.List.{All, list_any};
ghost use Rattle.zl_code.specs.Waiting.{is_by_handle, is_keyed};
ghost use Rattle.zl_calls.specs.Consistent.{IsConsistent};
ghost use Rattle.zl_calls.specs.Registered.{EndsUnheld, EndsWaits, FiresWaits, is_left};
ghost use Rattle.zl_objects.specs.Listed.{is_made_at, is_there};
ghost use Rattle.zl_calls.specs.Taken.{AreKnown, is_over_by};

use crate::processes::Processes;
use crate::step::taken::{Taken, TakenHandle};
use zl_objects::{Objects, Wait};
use zl_rights::{HValue, Koid, Pid};

/// The waits end that the process made by its handle of this value, which names the object. It takes no
/// memory.
pub fn end_handle(objects: &mut Objects, koid: Koid, pid: Pid, value: HValue)
    requires { All (λ x. IsTrue (is_by_handle pid value x) → x.object ≡ koid) objects.old.waits }
    ensures { EndsWaits (is_by_handle pid value) objects.old objects.new }
{
    end_made_at(objects, koid, pid, value);
}

/// The waits end that the process made by its handle of this value, which names the object, for a
/// packet with the key to the port; whether there was one. Where there was none nothing changes. It
/// takes no memory.
pub fn cancel_waits(
    objects: &mut Objects,
    koid: Koid,
    pid: Pid,
    value: HValue,
    port: Koid,
    key: u64,
) -> bool
    requires { All (λ x. IsTrue (is_by_handle pid value x) → x.object ≡ koid) objects.old.waits }
    ensures ended { EndsWaits (is_keyed pid value port key) objects.old objects.new }
    ensures any { result ≡ list_any (is_keyed pid value port key) objects.old.waits }
    ensures unchanged { result ≡ false → objects.new ≡ objects.old }
{
    let mut any = false;
    while let Some(_) = objects.unwatch_key(koid, pid, value, port, key) {
        any = true;
    }
    any
}

/// The waits end whose handle, object or port is gone.
fn end_unheld(processes: &Processes, objects: &mut Objects)
    requires { IsConsistent processes.now.list.items objects.old }
    ensures { EndsUnheld processes.now.list.items objects.old objects.new }
{
    let mut place = 0;
    while let Some(wait) = objects.wait_at(place) {
        if is_left(processes, objects, &wait) {
            place += 1;
        } else {
            objects.unwatch_key(wait.object, wait.pid, wait.value, wait.port, wait.key);
        }
    }
}

/// The waits end whose handle, object or port is gone, behind what a process did by which these handles
/// may be taken. It takes no memory.
#[inline(always)]
pub fn end_behind(taken: &Taken, processes: &Processes, objects: &mut Objects, pid: Pid)
    requires consistent { IsConsistent processes.now.list.items objects.old }
    requires known { All (λ x. IsTrue (is_there objects.old.objects x)) objects.old.waits
        → AreKnown processes.now.list.items objects.old taken.now pid }
    ensures { EndsUnheld processes.now.list.items objects.old objects.new }
{
    if objects.has_waits() {
        end_taken(taken, processes, objects, pid);
    }
}

/// The same: those end that were made by handles which the call took. Those of processes that it ended
/// have ended already.
fn end_taken(taken: &Taken, processes: &Processes, objects: &mut Objects, pid: Pid)
    requires consistent { IsConsistent processes.now.list.items objects.old }
    requires known { AreKnown processes.now.list.items objects.old taken.now pid }
    ensures { EndsUnheld processes.now.list.items objects.old objects.new }
{
    if taken.all {
        end_unheld(processes, objects);
        return;
    }
    for handle in taken.handles.as_slice() {
        end_if_gone(processes, objects, pid, handle);
    }
}

/// The waits end that the process made by the handle, if that is gone.
fn end_if_gone(processes: &Processes, objects: &mut Objects, pid: Pid, handle: &TakenHandle)
    ensures { EndsWaits (is_over_by processes.now.list.items pid handle.now)
        objects.old objects.new }
{
    if !has_handle(processes, pid, handle.value) {
        end_made_at(objects, handle.koid, pid, handle.value);
    }
}

/// The waits end at the object that the process made by its handle of this value. It takes no memory.
pub fn end_made_at(objects: &mut Objects, koid: Koid, pid: Pid, value: HValue)
    ensures { EndsWaits (is_made_at koid pid value) objects.old objects.new }
{
    if !objects.has_waits() {
        // So it is in most worlds, and spares the search for the object.
        return;
    }
    while let Some(_) = objects.unwatch_handle(koid, pid, value) {}
}

/// Each wait that holds, in the order of registration, gives its packet and is gone. It takes no
/// memory.
#[inline(always)]
pub fn fire_waits(processes: &Processes, objects: &mut Objects)
    requires { IsConsistent processes.now.list.items objects.old }
    ensures { FiresWaits processes.now.list.items objects.old objects.new }
{
    let mut place = 0;
    while let Some(due) = objects.earliest_due(place) {
        objects.fire(due.koid, due.active);
        place = due.place;
    }
}

/// Whether the handle of the wait is there, and its object and port.
#[tactic(auto, using(crate::proofs::waits::Ending::kind_there), unfolding(zl_rights::specs::Settle::is_made_by_handle))]
fn is_left(processes: &Processes, objects: &Objects, wait: &Wait) -> bool
    ensures { result
        ≡ is_left (world_value processes.now.list.items objects.now) (wait_value wait.now) }
{
    has_handle(processes, wait.pid, wait.value)
        && objects.kind_of(wait.object).is_some()
        && objects.kind_of(wait.port).is_some()
}

/// Whether the process is there and has a handle of this value.
fn has_handle(processes: &Processes, pid: Pid, value: HValue) -> bool
    ensures { result ≡ has_handle (get (map process_entry processes.now.list.items) pid) value }
{
    match processes.place_of(pid) {
        Some(place) => processes.list[place].table.get(value).is_some(),
        None => false,
    }
}
