//! How processes start and end, and how jobs and processes are killed.

ghost use Rattle.std.specs.Prelude.{[], true, ◌≡◌, IfSome};
ghost use Rattle.std.specs.List.Sorted.{IsNonDecreasing};
ghost use Rattle.zl_rights.specs.Map.{get};
ghost use Rattle.zl_objects.specs.Below.{HasTask};
ghost use Rattle.zl_objects.specs.Jobs.{killing};
ghost use Rattle.zl_objects.specs.Listed.{LeavesListed};
ghost use Rattle.zl_objects.specs.Objects.{job_in, starting, stopping};
ghost use Rattle.zl_objects.specs.Release.{all_koids, AreKeptBut, Ends, Releases};
ghost use Rattle.zl_objects.specs.Seen.{LeavesLargest};
ghost use Rattle.zl_objects.specs.Waits.{HavePlaces, LeavesWaits};

use crate::below::{TaskList, list_task};
use crate::children::{bury, bury_each};
use crate::killing::kill_task;
use crate::object::Object;
use crate::objects::Objects;
use crate::releasing::mark_watched;
use std::collections::BTreeMap;
use zl_rights::Koid;

#[tactic(auto, using(crate::proofs::ByKoid::by_koid, crate::proofs::Kept::kept))]
impl Objects {
    /// The process has ended, and what isn't held any more goes, with the waits as in `release`. It
    /// takes no memory.
    pub fn end(&mut self, pid: Koid)
        ensures ends { Ends pid self.old self.new }
        ensures waits { IfSome (job_in (get self.old.objects pid))
            (λ job. LeavesWaits (stopping self.old pid) self.new) }
        ensures places { HavePlaces self.new.objects }
        ensures listed { LeavesListed self.old self.new }
    {
        if let Some(job) = job_of(&self.store.by_koid, pid) {
            self.stop(pid);
            self.store.remove_unkept(pid);
            self.store.remove_unkept(job);
        }
    }

    /// Lists the job above the task, the task and what stands below it, for `kill`. It takes no memory,
    /// and the list is to be given to `put_back`: where another was not, or there is too little room,
    /// it isn't whole.
    ///
    /// Source: own profile.
    pub fn list_task(&mut self, task: Koid) -> TaskList
        ensures task { result.whole ≡ true
            → HasTask self.old.objects task result.koids.items }
        ensures rising { IsNonDecreasing result.koids.items }
        ensures unchanged { self.new ≡ self.old }
    {
        let none = Vec::new(*self.below.allocator());
        let mut koids = std::mem::replace(&mut self.below, none);
        let store = &self.store;
        let whole = list_task(&store.by_koid, &store.children, &mut koids, task);
        koids.sort_unstable();
        TaskList { koids, whole }
    }

    /// Keeps the room of the list for the next one.
    ///
    /// Source: own profile.
    pub fn put_back(&mut self, list: TaskList)
        ensures { self.new ≡ self.old }
    {
        self.below = list.koids;
    }

    /// The job is killed, and each job below it, and the processes below it are over; or the
    /// process is over, if it is one. What isn't held any more goes, with the waits as in `release`.
    /// It takes no memory. The handles of the processes are to be closed by `release`. 0 is no koid:
    /// nothing is killed for it.
    ///
    /// It looks at those of the list of the task alone, if that is whole. So the largest held set is
    /// left where something kept each object before.
    ///
    /// Source: the page "zx_task_kill" of the Fuchsia documentation.
    pub fn kill(&mut self, task: Koid, list: &TaskList)
        requires { list.now.whole ≡ true
            → HasTask self.old.objects task list.now.koids.items }
        ensures releases { AreKeptBut [] self.old.objects
            → Releases [] (all_koids self.old.objects) (killing self.old task) self.new }
        ensures largest { AreKeptBut [] self.old.objects
            → LeavesLargest [] (all_koids self.old.objects) (killing self.old task) self.new }
        ensures waits { LeavesWaits (killing self.old task) self.new }
        ensures places { HavePlaces self.new.objects }
        ensures listed { LeavesListed self.old self.new }
    {
        let store = &mut self.store;
        kill_task(
            &mut store.by_koid,
            &mut store.marks,
            task,
            store.next_koid,
            list,
        );
        // What a list that isn't whole lacks stays among the living until it goes. That costs time.
        bury_each(&store.by_koid, &mut store.children, list.koids.as_slice());
        store.sweep_task(list);
    }

    /// The process is started, if it was made and not started yet.
    ///
    /// Source: the page "zx_process_start" of the Fuchsia documentation.
    pub fn start(&mut self, pid: Koid)
        ensures { self.new ≡ starting self.old pid }
    {
        let Some(object) = self.store.by_koid.get_mut(&pid) else {
            return;
        };
        object.start();
    }

    /// The process is over.
    fn stop(&mut self, pid: Koid)
        ensures { self.new ≡ stopping self.old pid }
    {
        let store = &mut self.store;
        let Some(object) = store.by_koid.get_mut(&pid) else {
            return;
        };
        let keeper = object.body.keeper();
        object.stop();
        bury(&store.by_koid, &mut store.children, pid);
        mark_watched(&store.by_koid, &mut store.marks, Some(pid));
        mark_watched(&store.by_koid, &mut store.marks, keeper);
    }
}

/// The job of the process.
#[tactic(auto, using(crate::proofs::ByKoid::by_koid))]
fn job_of(by_koid: &BTreeMap<Koid, Object>, pid: Koid) -> Option<Koid>
    ensures { result ≡ job_in (get by_koid.now.entries pid) }
{
    by_koid.get(&pid)?.body.job()
}
