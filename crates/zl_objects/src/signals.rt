//! What is active at an object.

ghost use Rattle.std.specs.Prelude.{◌≡◌};
ghost use Rattle.zl_rights.specs.Signals.{signal_if};
ghost use Rattle.zl_objects.specs.Index.{IsIndexed};
ghost use Rattle.zl_objects.specs.Signals.{implied_here, signals_at, AreActive};

use crate::children::{Children, has_job_below, has_process_below};
use crate::object::{Body, Object};
use crate::objects::Objects;
use bitflags::Flags;
use std::collections::BTreeMap;
use zl_rights::{Koid, Signals};

#[tactic(auto, using(crate::proofs::ByKoid::by_koid))]
impl Objects {
    /// The signals that are active at the object, none where it isn't there. It takes no memory.
    ///
    /// An end of a channel is readable while its queue isn't empty, writable while its peer is an
    /// object, and else its peer is closed. So is that of an end of an event pair, which is never
    /// writable. A process is terminated once it has ended, and a job
    /// once it was killed. A job has no jobs while none directly in it lives, and no processes
    /// likewise.
    /// Source: the page "Signals" of the Fuchsia documentation.
    pub fn signals_of(&self, koid: Koid) -> Signals
        ensures signals { result.0 ≡ signals_at self.now.objects koid }
        ensures active { AreActive self.now.objects koid result.0 }
    {
        signals_at(&self.store.by_koid, &self.store.children, koid)
    }
}

/// The signals that are active at the object, none where it isn't there.
#[tactic(auto, using(crate::proofs::ByKoid::by_koid))]
pub fn signals_at(by_koid: &BTreeMap<Koid, Object>, children: &Children, koid: Koid) -> Signals
    requires { IsIndexed children.now by_koid.now.entries }
    ensures { result.0 ≡ signals_at by_koid.now.entries koid }
{
    match by_koid.get(&koid) {
        Some(object) => object
            .signals
            .raised()
            .union(implied(by_koid, children, koid, &object.body)),
        None => Signals::empty(),
    }
}

/// The signals that follow from the objects.
#[tactic(auto, using(crate::proofs::ByKoid::by_koid))]
fn implied(
    by_koid: &BTreeMap<Koid, Object>,
    children: &Children,
    koid: Koid,
    body: &Body,
) -> Signals
    requires { IsIndexed children.now by_koid.now.entries }
    ensures { result.0 ≡ implied_here by_koid.now.entries koid body.now }
{
    match body {
        Body::Job(job) => {
            let terminated = signal_if(Signals::TERMINATED, job.is_killed());
            let has_job = has_job_below(by_koid, children, koid);
            let has_process = has_process_below(by_koid, children, koid);
            let no_jobs = signal_if(Signals::NO_JOBS, !has_job);
            let no_processes = signal_if(Signals::NO_PROCESSES, !has_process);
            terminated.union(no_jobs.union(no_processes))
        }
        Body::Process { life, .. } => signal_if(Signals::TERMINATED, !life.is_alive()),
        Body::Event | Body::Port(_) => Signals::empty(),
        Body::PairEnd { peer } => { signal_if(Signals::PEER_CLOSED, !by_koid.contains_key(peer)) }
        Body::ChannelEnd { peer, queue } => {
            let readable = if queue.is_empty() {
                Signals::empty()
            } else {
                Signals::READABLE
            };
            if by_koid.contains_key(peer) {
                readable.union(Signals::WRITABLE)
            } else {
                readable.union(Signals::PEER_CLOSED)
            }
        }
    }
}

/// The signal, where the test passes.
fn signal_if(signal: Signals, test: bool) -> Signals
    ensures { result.0 ≡ signal_if signal.0 test }
{
    if test { signal } else { Signals::empty() }
}
