//! Which jobs and processes stand directly below a job, without a look at all objects.

ghost use Rattle.std.specs.Prelude.{ℕ, ◌≡◌, false, IsTrue, OnOk};
ghost use Rattle.zl_rights.specs.Map.{get};
ghost use Rattle.zl_objects.specs.Below.{is_one_of, IsNextListed};
ghost use Rattle.zl_objects.specs.Index.{has_pair, lists, lists_living, passes_in, IsBuried, IsIndexed, KeepPairs, ListsChild, NoMoreLive, OthersStayListed, StayListed};
ghost use Rattle.zl_objects.specs.Jobs.{has_job_below, has_process_below, is_job_below_here, is_process_below};
ghost use Rattle.zl_objects.specs.Objects.{has_living_child_here};

use crate::object::{Body, Object};
use std::alloc::{AllocError, Global};
use std::collections::{BTreeMap, BTreeSet};
use std::ops::Bound;
use zl_rights::Koid;

/// The jobs and processes directly below each job, dead ones too, and of each kind the living ones
/// once more. Who asks for a living one looks at the object too: one that died and is still listed
/// as living changes no answer, but takes time.
#[derive(Clone, Drop)]
pub(crate) struct Children {
    // The koid of the job, and that of the child.
    pairs: BTreeSet<(Koid, Koid)>,
    // Those of the living jobs, and of the living processes.
    jobs: BTreeSet<(Koid, Koid)>,
    processes: BTreeSet<(Koid, Koid)>,
}

impl Children {
    /// None are listed.
    pub fn new(alloc: Global) -> Children
        ensures { (j k : ℕ) → lists result j k ≡ false }
    {
        Children {
            pairs: BTreeSet::new(alloc),
            jobs: BTreeSet::new(alloc),
            processes: BTreeSet::new(alloc),
        }
    }

    /// Lists the child under its job, if it has one, and as living.
    pub fn add(&mut self, body: &Body, koid: Koid) -> Result<(), AllocError>
        ensures added { OnOk result (ListsChild self.new koid body.now) }
        ensures others { OthersStayListed koid self.old self.new }
    {
        match body {
            Body::Job(job) => put_both(&mut self.pairs, &mut self.jobs, job.parent(), koid),
            Body::Process { job, .. } => {
                put_both(&mut self.pairs, &mut self.processes, *job, koid)
            }
            _ => Ok(()),
        }
    }

    /// The child isn't listed under the job any more. It takes no memory.
    pub fn remove(&mut self, job: Koid, koid: Koid)
        ensures { OthersStayListed koid self.old self.new }
    {
        if self.pairs.remove(&(job, koid)) {
            self.bury(job, koid);
        }
    }

    /// The child isn't listed as living any more. It takes no memory.
    fn bury(&mut self, job: Koid, koid: Koid)
        ensures out { lists_living self.new job koid ≡ false }
        ensures others { OthersStayListed koid self.old self.new }
        ensures all { StayListed self.old self.new }
        ensures fewer { NoMoreLive self.old self.new }
    {
        self.jobs.remove(&(job, koid));
        self.processes.remove(&(job, koid));
    }

    /// The first that is listed under the job behind the last one, if there is one.
    pub fn next_listed(&self, job: Koid, last: Koid) -> Option<Koid>
        ensures { IsNextListed self.now job last result }
    {
        let (_, koid) = self
            .pairs
            .range((
                Bound::Excluded((job, last)),
                Bound::Included((job, Koid::MAX)),
            ))
            .next()?;
        Some(*koid)
    }

    /// None are listed any more. It takes no memory.
    pub fn clear(&mut self)
        ensures { (j k : ℕ) → lists self.new j k ≡ false }
    {
        self.pairs.clear();
        self.jobs.clear();
        self.processes.clear();
    }
}

/// Puts the child of the job into both, or into neither.
fn put_both(
    pairs: &mut BTreeSet<(Koid, Koid)>,
    living: &mut BTreeSet<(Koid, Koid)>,
    job: Koid,
    koid: Koid,
) -> Result<(), AllocError>
    ensures listed { OnOk result (IsTrue (has_pair pairs.new job koid)) }
    ensures living { OnOk result (IsTrue (has_pair living.new job koid)) }
    ensures others { KeepPairs koid pairs.old pairs.new }
    ensures others_living { KeepPairs koid living.old living.new }
{
    pairs.insert((job, koid))?;
    if living.insert((job, koid)).is_err() {
        pairs.remove(&(job, koid));
        return Err(AllocError);
    }
    Ok(())
}

/// What died isn't listed as living any more. It takes no memory.
#[tactic(auto, using(crate::proofs::ByKoid::by_koid))]
pub fn bury(by_koid: &BTreeMap<Koid, Object>, children: &mut Children, koid: Koid)
    requires { IsIndexed children.old by_koid.now.entries }
    ensures indexed { IsIndexed children.new by_koid.now.entries }
    ensures buried { IsBuried children.new koid (get by_koid.now.entries koid) }
    ensures fewer { NoMoreLive children.old children.new }
{
    let Some(object) = by_koid.get(&koid) else {
        return;
    };
    if object.body.keeper().is_none() {
        children.bury(object.body.parent(), koid);
    }
}

/// The same of each of these.
pub fn bury_each(by_koid: &BTreeMap<Koid, Object>, children: &mut Children, koids: &[Koid])
    requires { IsIndexed children.old by_koid.now.entries }
    ensures indexed { IsIndexed children.new by_koid.now.entries }
    ensures buried { (k : ℕ) → IsTrue (is_one_of k koids.now)
        → IsBuried children.new k (get by_koid.now.entries k) }
{
    for koid in koids {
        bury(by_koid, children, *koid);
    }
}

/// Whether the job has a living child.
pub fn has_living_child(by_koid: &BTreeMap<Koid, Object>, children: &Children, job: Koid) -> bool
    requires { IsIndexed children.now by_koid.now.entries }
    ensures { result ≡ has_living_child_here by_koid.now.entries job }
{
    has_job_below(by_koid, children, job) || has_process_below(by_koid, children, job)
}

/// Whether a living job stands directly below the job.
pub fn has_job_below(by_koid: &BTreeMap<Koid, Object>, children: &Children, job: Koid) -> bool
    requires { IsIndexed children.now by_koid.now.entries }
    ensures { result ≡ has_job_below by_koid.now.entries job }
{
    children
        .jobs
        .range((job, 0)..=(job, Koid::MAX))
        .any(|pair| is_job_at(by_koid, pair.1, job))
}

/// Whether a living process stands directly below the job.
pub fn has_process_below(by_koid: &BTreeMap<Koid, Object>, children: &Children, job: Koid) -> bool
    requires { IsIndexed children.now by_koid.now.entries }
    ensures { result ≡ has_process_below by_koid.now.entries job }
{
    children
        .processes
        .range((job, 0)..=(job, Koid::MAX))
        .any(|pair| is_process_at(by_koid, pair.1, job))
}

/// Whether the object is there, and a living job directly below the job.
#[tactic(auto, using(crate::proofs::ByKoid::by_koid))]
fn is_job_at(by_koid: &BTreeMap<Koid, Object>, koid: Koid, job: Koid) -> bool
    ensures { result ≡ passes_in (is_job_below_here job) (get by_koid.now.entries koid) }
{
    match by_koid.get(&koid) {
        Some(object) => object.body.is_job_below(job),
        None => false,
    }
}

/// Whether the object is there, and a living process of the job.
#[tactic(auto, using(crate::proofs::ByKoid::by_koid))]
fn is_process_at(by_koid: &BTreeMap<Koid, Object>, koid: Koid, job: Koid) -> bool
    ensures { result ≡ passes_in (is_process_below job) (get by_koid.now.entries koid) }
{
    match by_koid.get(&koid) {
        Some(object) => object.body.is_process_below(job),
        None => false,
    }
}
