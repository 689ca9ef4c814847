//! Whether other objects look the same.

ghost use Rattle.std.specs.Prelude.{◌≡◌, ◌↔◌, map, option_map, slice_get, IsTrue};
ghost use Rattle.zl_objects.specs.Listed.{listed_value, wait_value};
ghost use Rattle.zl_objects.specs.Same.{LookSame};
ghost use Rattle.zl_objects.specs.Seen.{body_value, object_entry, object_value};

use crate::gapped::Gapped;
use crate::object::{Body, Object};
use crate::objects::Objects;
use crate::wait::Wait;
use bitflags::Flags;
use std::collections::BTreeMap;
use zl_rights::Koid;

impl Objects {
    /// Whether the other objects look the same: what each is by its koid, with its messages or its
    /// packets and the signals that calls raised there, the registered waits, how many ever were, and
    /// which koid is next. How many handles name an object, how many places are reserved at a port,
    /// how far a process has come and who may be blocked isn't seen here.
    ///
    /// Source: own profile.
    pub fn is_same(&self, other: &Objects) -> bool
        ensures { IsTrue result ↔ LookSame self.now other.now }
    {
        self.store.next_koid == other.store.next_koid
            && self.store.waits.made == other.store.waits.made
            && are_same_waits(&self.store.waits.entries, &other.store.waits.entries)
            && are_same_objects(&self.store.by_koid, &other.store.by_koid)
    }
}

/// Whether the same objects have the same koids.
fn are_same_objects(one: &BTreeMap<Koid, Object>, other: &BTreeMap<Koid, Object>) -> bool
    ensures { IsTrue result
        ↔ map object_entry one.now.entries ≡ map object_entry other.now.entries }
{
    let mut others = other.iter();
    for (koid, object) in one {
        let Some((other_koid, other_object)) = others.next() else {
            return false;
        };
        if koid != other_koid {
            return false;
        }
        if !object.is_same(other_object) {
            return false;
        }
    }
    others.next().is_none()
}

/// Whether the same waits were registered in the same order.
#[tactic(auto, using(crate::proofs::Alike::alike_at, crate::proofs::Alike::alike_more))]
fn are_same_waits(one: &Gapped, other: &Gapped) -> bool
    ensures { IsTrue result ↔ map listed_value one.now.items ≡ map listed_value other.now.items }
{
    if one.len() != other.len() {
        return false;
    }
    for place in 0..one.len() {
        if !is_same_at(one, other, place) {
            return false;
        }
    }
    true
}

/// Whether the same wait is at the place.
fn is_same_at(one: &Gapped, other: &Gapped, place: usize) -> bool
    ensures { IsTrue result ↔ option_map listed_value (slice_get one.now.items place)
        ≡ option_map listed_value (slice_get other.now.items place) }
{
    match (one.get(place), other.get(place)) {
        (Some(one), Some(other)) => one.wait.is_same(&other.wait),
        (None, None) => true,
        _ => false,
    }
}

impl Object {
    /// Whether the other looks the same: what it is, and the signals that calls raised there.
    fn is_same(&self, other: &Object) -> bool
        ensures { IsTrue result ↔ object_value self.now ≡ object_value other.now }
    {
        self.signals.raised().bits() == other.signals.raised().bits()
            && self.body.is_same(&other.body)
    }
}

impl Body {
    /// Whether the other looks the same: of a process its job is seen, and of a port its packets.
    fn is_same(&self, other: &Body) -> bool
        ensures { IsTrue result ↔ body_value self.now ≡ body_value other.now }
    {
        match (self, other) {
            (Body::Job(job), Body::Job(other_job)) => job.is_same(other_job),
            (Body::Process { job, .. }, Body::Process { job: other_job, .. }) => job == other_job,
            (Body::Event, Body::Event) => true,
            (
                Body::ChannelEnd { peer, queue },
                Body::ChannelEnd {
                    peer: other_peer,
                    queue: other_queue,
                },
            ) => { peer == other_peer && queue.is_same(other_queue) }
            (Body::Port(port), Body::Port(other_port)) => port.has_same_packets(other_port),
            (Body::PairEnd { peer }, Body::PairEnd { peer: other_peer }) => peer == other_peer,
            _ => false,
        }
    }
}

impl Wait {
    /// Whether the other is the same.
    fn is_same(&self, other: &Wait) -> bool
        ensures { IsTrue result ↔ wait_value self.now ≡ wait_value other.now }
    {
        self.object == other.object
            && self.port == other.port
            && self.key == other.key
            && self.mask.bits() == other.mask.bits()
            && self.pid == other.pid
            && self.value == other.value
    }
}
