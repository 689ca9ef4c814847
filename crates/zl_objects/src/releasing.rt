//! What goes once handles have gone, one object after another and without memory.
//!
//! An object that may have to go is noted in `dying`, which has room for each object. It stays with
//! its queue until it is looked at again.

ghost use Rattle.std.specs.Prelude.{◌≡◌, ◌≤◌, ◌<◌, ◌+◌, ◌++◌, ◌∷◌, [], if◌then◌else◌, is_some, length, ℕ, vec_capacity, IfSome, IsTrue};
ghost use Rattle.std.specs.FinMap.Entries.{is_sorted};
ghost use Rattle.std.specs.Option.{option_to_list};
ghost use Rattle.std.specs.Ordering.{nat_cmp};
ghost use Rattle.zl_rights.specs.Map.{each, get, update};
ghost use Rattle.zl_objects.specs.Below.{looked_at};
ghost use Rattle.zl_objects.specs.Calm.{is_marked, is_watched_in, StayStill};
ghost use Rattle.zl_objects.specs.Objects.{held_once_less, is_kept, queue_held};
ghost use Rattle.zl_objects.specs.Release.{all_koids, koids_in, named_in};
ghost use Rattle.zl_objects.specs.Dying.{budget, is_last, is_unkept, left_at, unkept_at, LetsGo};
ghost use Rattle.zl_objects.specs.Index.{IsIndexed};
ghost use Rattle.zl_objects.specs.Listed.{AreListed};
ghost use Rattle.zl_objects.specs.PortWaits.{without_ended, without_given, without_own, AreOwn};
ghost use Rattle.zl_objects.specs.Store.{Sheds};
ghost use Rattle.zl_objects.specs.Waits.{ending_port, giving_back, without_port_waits};

use crate::below::TaskList;
use crate::children::{Children, has_living_child};
use crate::killing::next_from;
use crate::listing::{WaitList, unlist};
use crate::marks::Marks;
use crate::object::{Body, Object};
use crate::store::Store;
use crate::waits::{give_back, is_watched};
use std::collections::BTreeMap;
use zl_channel::ChannelEnd;
use zl_rights::{Entry, Koid};
use zl_signals::SignalState;

/// One handle less names the object. Says whether it was the only one.
#[tactic(auto, using(crate::proofs::ByKoid::by_koid))]
fn hold_less(by_koid: &mut BTreeMap<Koid, Object>, koid: Koid) -> bool
    ensures objects { by_koid.new.entries ≡ update by_koid.old.entries koid held_once_less }
    ensures last { result ≡ is_last (get by_koid.old.entries koid) }
{
    let Some(object) = by_koid.get_mut(&koid) else {
        return false;
    };
    object.hold_less()
}

/// One handle less names the object, which is noted if no handle names it any more.
pub fn let_go(by_koid: &mut BTreeMap<Koid, Object>, dying: &mut Vec<Koid>, koid: Koid)
    requires fits { budget by_koid.old.entries dying.old.items ≤ vec_capacity dying.old }
    ensures goes { LetsGo (koid ∷ [])
        by_koid.old.entries dying.old.items by_koid.new.entries dying.new.items }
    ensures objects { by_koid.new.entries ≡ update by_koid.old.entries koid held_once_less }
    ensures capacity { vec_capacity dying.new ≡ vec_capacity dying.old }
{
    if hold_less(by_koid, koid) {
        dying.push_reserved(koid);
    }
}

/// One handle less for each of these.
fn let_go_all(by_koid: &mut BTreeMap<Koid, Object>, dying: &mut Vec<Koid>, handles: &[Entry])
    requires fits { budget by_koid.old.entries dying.old.items ≤ vec_capacity dying.old }
    ensures goes { LetsGo (koids_in handles.now)
        by_koid.old.entries dying.old.items by_koid.new.entries dying.new.items }
    ensures still { StayStill by_koid.old.entries by_koid.new.entries }
    ensures capacity { vec_capacity dying.new ≡ vec_capacity dying.old }
{
    for handle in handles {
        let_go(by_koid, dying, handle.koid);
    }
}

/// One handle less for each handle in the messages.
fn let_go_queue(by_koid: &mut BTreeMap<Koid, Object>, dying: &mut Vec<Koid>, mut queue: ChannelEnd)
    requires fits { budget by_koid.old.entries dying.old.items ≤ vec_capacity dying.old }
    ensures goes { LetsGo (named_in queue)
        by_koid.old.entries dying.old.items by_koid.new.entries dying.new.items }
    ensures still { StayStill by_koid.old.entries by_koid.new.entries }
    ensures capacity { vec_capacity dying.new ≡ vec_capacity dying.old }
{
    while let Some(message) = queue.take() {
        let_go_all(by_koid, dying, message.handles.as_slice());
    }
}

/// One handle less for each handle in the messages, if it is an end of a channel.
fn let_go_body(by_koid: &mut BTreeMap<Koid, Object>, dying: &mut Vec<Koid>, body: Body)
    requires fits { budget by_koid.old.entries dying.old.items ≤ vec_capacity dying.old }
    ensures goes { LetsGo (named_in (queue_held body))
        by_koid.old.entries dying.old.items by_koid.new.entries dying.new.items }
    ensures still { StayStill by_koid.old.entries by_koid.new.entries }
    ensures capacity { vec_capacity dying.new ≡ vec_capacity dying.old }
{
    if let Body::ChannelEnd { queue, .. } = body {
        let_go_queue(by_koid, dying, queue);
    }
}

/// Whether a handle names the object, or it is a process that runs or a job with a living child.
fn is_kept(
    by_koid: &BTreeMap<Koid, Object>,
    children: &Children,
    koid: Koid,
    object: &Object,
) -> bool
    requires { IsIndexed children.now by_koid.now.entries }
    ensures { result ≡ is_kept by_koid.now.entries koid object.now }
{
    if object.handles > 0 {
        return true;
    }
    match &object.body {
        Body::Job(_) => has_living_child(by_koid, children, koid),
        Body::Process { life, .. } => life.is_running(),
        Body::Event | Body::ChannelEnd { .. } | Body::Port(_) | Body::PairEnd { .. } => false,
    }
}

/// Whether the object is there and nothing keeps it.
#[tactic(auto, using(crate::proofs::ByKoid::by_koid))]
fn is_unkept(by_koid: &BTreeMap<Koid, Object>, children: &Children, koid: Koid) -> bool
    requires { IsIndexed children.now by_koid.now.entries }
    ensures { result ≡ is_unkept by_koid.now.entries koid (get by_koid.now.entries koid) }
{
    match by_koid.get(&koid) {
        Some(object) => !is_kept(by_koid, children, koid, object),
        None => false,
    }
}

/// Takes the object out, unless something keeps it.
#[tactic(auto, using(crate::proofs::ByKoid::by_koid))]
fn take_unkept(
    by_koid: &mut BTreeMap<Koid, Object>,
    children: &Children,
    koid: Koid,
) -> Option<Object>
    requires { IsIndexed children.now by_koid.old.entries }
    ensures taken { result ≡ unkept_at by_koid.old.entries koid }
    ensures left { by_koid.new.entries ≡ left_at by_koid.old.entries koid }
    ensures count { length by_koid.new.entries + (if is_some result then 1 else 0)
        ≡ length by_koid.old.entries }
{
    if is_unkept(by_koid, children, koid) {
        by_koid.remove(&koid)
    } else {
        None
    }
}

/// The places of all these waits at an object that has gone are given back at their ports, and none
/// of them is listed any more.
fn give_all_back(
    by_koid: &mut BTreeMap<Koid, Object>,
    waits: &mut WaitList,
    mut signals: SignalState,
)
    ensures places { by_koid.new.entries ≡ giving_back signals.waits by_koid.old.entries }
    ensures entries { (k : ℕ) → AreOwn k signals.waits waits.old.entries.items
        → waits.new.entries.items ≡ without_own k waits.old.entries.items }
    ensures made { waits.new.made ≡ waits.old.made }
{
    while let Some(wait) = signals.take_wait() {
        unlist(waits, wait.order);
        give_back(by_koid, wait.port);
    }
}

/// The waits at the object that give their packets to the port end.
#[tactic(auto, using(crate::proofs::ByKoid::by_koid))]
fn end_at(by_koid: &mut BTreeMap<Koid, Object>, koid: Koid, port: Koid)
    ensures { by_koid.new.entries
        ≡ update by_koid.old.entries koid (without_port_waits port) }
{
    let Some(object) = by_koid.get_mut(&koid) else {
        return;
    };
    object.end_port(port);
}

/// The waits that give their packets to the port end, at all objects and in the list.
fn end_port(by_koid: &mut BTreeMap<Koid, Object>, waits: &mut WaitList, port: Koid)
    requires in_order { IsTrue (is_sorted nat_cmp by_koid.old.entries) }
    requires listed { AreListed waits.old.entries.items by_koid.old.entries }
    ensures ended { by_koid.new.entries ≡ each (λ j. without_port_waits port) by_koid.old.entries }
    ensures entries { waits.new.entries.items ≡ without_given port waits.old.entries.items }
    ensures made { waits.new.made ≡ waits.old.made }
{
    while let Some(wait) = waits.take_given(port) {
        end_at(by_koid, wait.object, port);
    }
}

/// The waits at an object that has gone end. If it was a port with a reserved place, so do those
/// that give their packets to it.
fn end_waits(
    by_koid: &mut BTreeMap<Koid, Object>,
    waits: &mut WaitList,
    koid: Koid,
    reserved: bool,
    signals: SignalState,
)
    requires in_order { IsTrue (is_sorted nat_cmp by_koid.old.entries) }
    requires own { AreOwn koid signals.waits waits.old.entries.items }
    requires listed { AreListed (without_own koid waits.old.entries.items) by_koid.old.entries }
    ensures ended { by_koid.new.entries
        ≡ ending_port koid reserved (giving_back signals.waits by_koid.old.entries) }
    ensures entries { waits.new.entries.items
        ≡ without_ended koid reserved waits.old.entries.items }
    ensures made { waits.new.made ≡ waits.old.made }
{
    give_all_back(by_koid, waits, signals);
    if reserved {
        end_port(by_koid, waits, koid);
    }
}

/// The object that was found is marked, if something waits there.
pub fn mark_watched(by_koid: &BTreeMap<Koid, Object>, marks: &mut Marks, found: Option<Koid>)
    ensures wanted { IfSome found (λ k. IsTrue (is_watched_in (get by_koid.now.entries k))
        → IsTrue (is_marked marks.new k)) }
    ensures more { (k : ℕ) → IsTrue (is_marked marks.old k) → IsTrue (is_marked marks.new k) }
{
    if let Some(koid) = found {
        marks.add_if(is_watched(by_koid, koid), koid);
    }
}

/// The job that was found is noted, if there is one.
fn note_keeper(dying: &mut Vec<Koid>, keeper: Option<Koid>)
    requires room { length dying.old.items < vec_capacity dying.old }
    ensures noted { dying.new.items ≡ dying.old.items ++ option_to_list keeper }
    ensures capacity { vec_capacity dying.new ≡ vec_capacity dying.old }
{
    if let Some(job) = keeper {
        dying.push_reserved(job);
    }
}

impl Store {
    /// The object that was noted goes with its queue and its waits, unless something keeps it, and
    /// the job of which it was a living child is noted. Signals come there, and at its peer.
    fn remove_noted(&mut self, koid: Koid)
        requires fits { budget self.old.by_koid.entries (self.old.dying.items ++ koid ∷ [])
            ≤ vec_capacity self.old.dying }
        ensures goes { LetsGo [] self.old.by_koid.entries (self.old.dying.items ++ koid ∷ [])
            self.new.by_koid.entries self.new.dying.items }
        ensures less { budget self.new.by_koid.entries self.new.dying.items
            + length self.new.by_koid.entries
            < budget self.old.by_koid.entries (self.old.dying.items ++ koid ∷ [])
            + length self.old.by_koid.entries }
        ensures capacity { vec_capacity self.new.dying ≡ vec_capacity self.old.dying }
        ensures sheds { Sheds self.old self.new }
    {
        let Some(gone) = take_unkept(&mut self.by_koid, &self.children, koid) else {
            return;
        };
        self.children.remove(gone.body.parent(), koid);
        let (keeper, peer) = (gone.body.keeper(), gone.body.peer());
        let reserved = gone.body.has_reserved();
        let Object { body, signals, .. } = gone;
        end_waits(&mut self.by_koid, &mut self.waits, koid, reserved, signals);
        note_keeper(&mut self.dying, keeper);
        mark_watched(&self.by_koid, &mut self.marks, keeper);
        mark_watched(&self.by_koid, &mut self.marks, peer);
        let_go_body(&mut self.by_koid, &mut self.dying, body);
    }

    /// The noted objects go, and what goes with them.
    pub fn remove_dying(&mut self)
        requires fits { budget self.old.by_koid.entries self.old.dying.items
            ≤ vec_capacity self.old.dying }
        ensures goes { LetsGo [] self.old.by_koid.entries self.old.dying.items
            self.new.by_koid.entries [] }
        ensures none { self.new.dying.items ≡ [] }
        ensures sheds { Sheds self.old self.new }
    {
        while let Some(koid) = self.dying.pop() {
            self.remove_noted(koid);
        }
    }

    /// The object goes, unless something keeps it, and what goes with it.
    pub fn remove_unkept(&mut self, koid: Koid)
        requires { self.old.dying.items ≡ [] }
        ensures goes { LetsGo [] self.old.by_koid.entries (koid ∷ []) self.new.by_koid.entries [] }
        ensures none { self.new.dying.items ≡ [] }
        ensures sheds { Sheds self.old self.new }
    {
        if is_unkept(&self.by_koid, &self.children, koid) {
            self.dying.push_reserved(koid);
            self.remove_dying();
        }
    }

    /// Of these the objects that nothing keeps go, and what goes with them.
    fn sweep_each(&mut self, koids: &[Koid])
        requires { self.old.dying.items ≡ [] }
        ensures goes { LetsGo [] self.old.by_koid.entries koids.now self.new.by_koid.entries [] }
        ensures none { self.new.dying.items ≡ [] }
        ensures sheds { Sheds self.old self.new }
    {
        for koid in koids {
            self.remove_unkept(*koid);
        }
    }

    /// Of those listed the objects that nothing keeps go, if the list is whole, and else of all, and
    /// what goes with them.
    pub fn sweep_task(&mut self, list: &TaskList)
        requires { self.old.dying.items ≡ [] }
        ensures goes { LetsGo [] self.old.by_koid.entries
            (looked_at list.now.whole list.now.koids.items self.old.by_koid.entries)
            self.new.by_koid.entries [] }
        ensures none { self.new.dying.items ≡ [] }
        ensures sheds { Sheds self.old self.new }
    {
        if list.whole {
            self.sweep_each(list.koids.as_slice());
            return;
        }
        self.sweep();
    }

    /// Each object that nothing keeps goes, and what goes with it.
    fn sweep(&mut self)
        requires { self.old.dying.items ≡ [] }
        ensures goes { LetsGo [] self.old.by_koid.entries (all_koids self.old.by_koid.entries)
            self.new.by_koid.entries [] }
        ensures none { self.new.dying.items ≡ [] }
        ensures sheds { Sheds self.old self.new }
    {
        let mut from = 0;
        while let Some(koid) = next_from(&self.by_koid, from) {
            self.remove_unkept(koid);
            from = koid + 1;
        }
    }
}
