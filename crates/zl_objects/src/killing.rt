//! Ways up and through the tree of jobs, and what a kill marks. Nothing here takes memory.

ghost use Rattle.std.specs.FinMap.Entries.{is_sorted};
ghost use Rattle.std.specs.List.Sorted.{IsStrictlySortedBy};
ghost use Rattle.std.specs.Map.{keys_of};
ghost use Rattle.std.specs.Ordering.{nat_cmp};
ghost use Rattle.std.specs.Prelude.{◌≡◌, ◌<◌, ℕ, true, IsTrue};
ghost use Rattle.zl_rights.specs.Map.{get, has_key, update};
ghost use Rattle.zl_jobs.specs.Jobs.{MOST_LEVELS};
ghost use Rattle.zl_objects.specs.Below.{killed_among, HasTask};
ghost use Rattle.zl_objects.specs.Calm.{is_marked, KeepsCalm};
ghost use Rattle.zl_objects.specs.Jobs.{all_killed, is_below, is_below_by, is_within_here, killed, killed_if, parent_at};
ghost use Rattle.zl_objects.specs.Walks.{IsNext};

use crate::below::TaskList;
use crate::marks::Marks;
use crate::object::{Body, Object};
use crate::releasing::mark_watched;
use std::collections::BTreeMap;
use std::ops::Bound;
use zl_jobs::Job;
use zl_rights::Koid;

impl Object {
    /// A job is killed, and a process is over, if that is wanted.
    fn kill_if(&mut self, kills: bool)
        ensures { self.new ≡ killed_if kills self.old }
    {
        if kills {
            self.kill();
        }
    }

    /// A job is killed, and a process is over.
    fn kill(&mut self)
        ensures { self.new ≡ killed self.old }
    {
        if let Body::Job(job) = &mut self.body {
            job.kill();
            return;
        }
        self.stop();
    }
}

/// The job directly above the job or the process; 0 where there is none.
#[tactic(auto, using(crate::proofs::ByKoid::by_koid))]
pub fn parent_at(by_koid: &BTreeMap<Koid, Object>, koid: Koid) -> Koid
    ensures { result ≡ parent_at by_koid.now.entries koid }
{
    match by_koid.get(&koid) {
        Some(object) => object.body.parent(),
        None => 0,
    }
}

/// Whether one comes to the job, going up from the koid at most 16 times.
fn comes_to(by_koid: &BTreeMap<Koid, Object>, job: Koid, koid: Koid) -> bool
    ensures { result ≡ is_below_by by_koid.now.entries job MOST_LEVELS koid }
{
    let mut above = koid;
    for _ in 0..Job::MOST_DEPTH {
        above = parent_at(by_koid, above);
        if above == job {
            return true;
        }
    }
    false
}

/// Whether it stands below the job, at any depth. Going up from what is in no job one comes to 0, but
/// that is no koid, and nothing stands below it.
pub fn is_below(by_koid: &BTreeMap<Koid, Object>, job: Koid, koid: Koid) -> bool
    ensures { result ≡ is_below by_koid.now.entries job koid }
{
    job != 0 && comes_to(by_koid, job, koid)
}

/// Whether it is the job or stands below it; nothing is so for 0.
pub fn is_within(by_koid: &BTreeMap<Koid, Object>, job: Koid, koid: Koid) -> bool
    ensures { result ≡ is_within_here by_koid.now.entries job koid }
{
    job != 0 && (koid == job || is_below(by_koid, job, koid))
}

/// The least koid from this one on, if there is one.
pub fn next_from(by_koid: &BTreeMap<Koid, Object>, from: Koid) -> Option<Koid>
    ensures next { IsNext by_koid.now.entries from result }
    ensures ordered { IsStrictlySortedBy nat_cmp (keys_of by_koid.now.entries) }
{
    let (koid, _) = by_koid
        .range((Bound::Included(from), Bound::Unbounded))
        .next()?;
    Some(*koid)
}

/// The job or the process is killed, and all that stands below it. All koids lie below the end.
fn kill_all(by_koid: &mut BTreeMap<Koid, Object>, marks: &mut Marks, task: Koid, end: Koid)
    requires below { (k : ℕ) → IsTrue (has_key by_koid.old.entries k) → k < end }
    ensures killed { by_koid.new.entries ≡ all_killed by_koid.old.entries task }
    ensures calm { KeepsCalm (is_marked marks.old) by_koid.old.entries
        (is_marked marks.new) by_koid.new.entries }
{
    let mut from = 0;
    while let Some(koid) = next_from(by_koid, from) {
        let kills = is_within(by_koid, task, koid);
        kill_if(by_koid, marks, koid, kills);
        from = koid + 1;
    }
}

/// Of these the job or the process is killed, and what stands below it.
fn kill_each(by_koid: &mut BTreeMap<Koid, Object>, marks: &mut Marks, task: Koid, koids: &[Koid])
    requires in_order { IsTrue (is_sorted nat_cmp by_koid.old.entries) }
    ensures killed { by_koid.new.entries ≡ killed_among by_koid.old.entries task koids.now }
    ensures calm { KeepsCalm (is_marked marks.old) by_koid.old.entries
        (is_marked marks.new) by_koid.new.entries }
{
    for koid in koids {
        let kills = is_within(by_koid, task, *koid);
        kill_if(by_koid, marks, *koid, kills);
    }
}

/// The job or the process is killed, and all that stands below it: it is listed, if the list is
/// whole. All koids lie below the end.
pub fn kill_task(
    by_koid: &mut BTreeMap<Koid, Object>,
    marks: &mut Marks,
    task: Koid,
    end: Koid,
    list: &TaskList,
)
    requires in_order { IsTrue (is_sorted nat_cmp by_koid.old.entries) }
    requires below { (k : ℕ) → IsTrue (has_key by_koid.old.entries k) → k < end }
    requires listed { list.now.whole ≡ true → HasTask by_koid.old.entries task list.now.koids.items }
    ensures killed { by_koid.new.entries ≡ all_killed by_koid.old.entries task }
    ensures calm { KeepsCalm (is_marked marks.old) by_koid.old.entries
        (is_marked marks.new) by_koid.new.entries }
{
    if list.whole {
        kill_each(by_koid, marks, task, list.koids.as_slice());
        return;
    }
    kill_all(by_koid, marks, task, end);
}

/// The job or the process is killed, if that is wanted. Signals come there, and at the job of which
/// it was a living child.
#[tactic(auto, using(crate::proofs::ByKoid::by_koid))]
fn kill_if(by_koid: &mut BTreeMap<Koid, Object>, marks: &mut Marks, koid: Koid, kills: bool)
    ensures killed { by_koid.new.entries ≡ update by_koid.old.entries koid (killed_if kills) }
    ensures calm { KeepsCalm (is_marked marks.old) by_koid.old.entries
        (is_marked marks.new) by_koid.new.entries }
{
    let Some(object) = by_koid.get_mut(&koid) else {
        return;
    };
    let keeper = object.body.keeper();
    object.kill_if(kills);
    if !kills {
        return;
    }
    mark_watched(by_koid, marks, Some(koid));
    mark_watched(by_koid, marks, keeper);
}
