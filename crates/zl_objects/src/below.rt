//! A task and what stands below it, listed without a look at all objects and without memory.

ghost use Rattle.std.specs.Prelude.{[], ℕ, ◌≡◌, ◌==◌, false, true, IsTrue};
ghost use Rattle.zl_objects.specs.Below.{is_one_of, HasBelow, HasTask};
ghost use Rattle.zl_objects.specs.Index.{IsIndexed};

use crate::children::Children;
use crate::killing::parent_at;
use crate::object::Object;
use crate::objects::Objects;
use std::collections::BTreeMap;
use zl_jobs::Job;
use zl_rights::Koid;

/// The job above a task, the task and what stands below it, and perhaps others, in rising order of their
/// koids; but not all of these, where it isn't whole.
#[derive(Drop)]
pub struct TaskList {
    pub koids: Vec<Koid>,
    pub whole: bool,
}

impl Objects {
    /// An empty list, in the room that kills list their tasks in: for each job and process, unless it was
    /// lent before and not given back. It takes no memory.
    ///
    /// Source: own profile.
    pub fn lend_list(&mut self) -> Vec<Koid>
        ensures empty { result.items ≡ [] }
        ensures unchanged { self.new ≡ self.old }
    {
        let none = Vec::new(*self.below.allocator());
        let mut list = std::mem::replace(&mut self.below, none);
        list.clear();
        list
    }

    /// Lists the task and what stands below it, and perhaps others, for who has to know whom a kill may
    /// kill. It takes no memory, and the list is to be given to `return_told`: where another was not, or
    /// there is too little room, it isn't whole.
    ///
    /// Source: own profile.
    pub fn list_told(&mut self, task: Koid) -> TaskList
        ensures koid { result.whole ≡ true → (task == 0) ≡ false }
        ensures task { result.whole ≡ true
            → HasTask self.old.objects task result.koids.items }
        ensures unchanged { self.new ≡ self.old }
    {
        let none = Vec::new(*self.told.allocator());
        let mut koids = std::mem::replace(&mut self.told, none);
        let store = &self.store;
        // 0 is no koid.
        let whole = task != 0 && list_task(&store.by_koid, &store.children, &mut koids, task);
        TaskList { koids, whole }
    }

    /// Keeps the room of that list for the next one.
    ///
    /// Source: own profile.
    pub fn return_told(&mut self, list: TaskList)
        ensures { self.new ≡ self.old }
    {
        self.told = list.koids;
    }

    /// Keeps the room of the list for the next one.
    ///
    /// Source: own profile.
    pub fn return_list(&mut self, list: Vec<Koid>)
        ensures { self.new ≡ self.old }
    {
        self.below = list;
    }
}

/// Lists the koid, if there is room for one more. Says whether there was.
fn note(found: &mut Vec<Koid>, koid: Koid) -> bool
    ensures noted { result ≡ true → IsTrue (is_one_of koid found.new.items) }
    ensures more { (k : ℕ) → IsTrue (is_one_of k found.old.items)
        → IsTrue (is_one_of k found.new.items) }
{
    if found.len() == found.capacity() {
        return false;
    }
    found.push_reserved(koid);
    true
}

/// Lists what stands below the job, so many levels at most. Says whether there was room.
fn list_below(children: &Children, found: &mut Vec<Koid>, job: Koid, levels: u32) -> bool
    ensures below { result ≡ true → HasBelow children.now job levels found.new.items }
    ensures more { (k : ℕ) → IsTrue (is_one_of k found.old.items)
        → IsTrue (is_one_of k found.new.items) }
{
    if levels == 0 {
        return true;
    }
    let mut last = 0;
    while let Some(koid) = children.next_listed(job, last) {
        if !note(found, koid) || !list_below(children, found, koid, levels - 1) {
            return false;
        }
        last = koid;
    }
    true
}

/// Lists the job above the task, the task, and what stands below it, and nothing else. Says whether
/// there was room.
#[tactic(auto, using(crate::proofs::ByKoid::by_koid))]
pub fn list_task(
    by_koid: &BTreeMap<Koid, Object>,
    children: &Children,
    found: &mut Vec<Koid>,
    task: Koid,
) -> bool
    requires { IsIndexed children.now by_koid.now.entries }
    ensures { result ≡ true → HasTask by_koid.now.entries task found.new.items }
{
    found.clear();
    // 0 is no koid, and all ways up end there.
    !by_koid.contains_key(&0)
        && note(found, parent_at(by_koid, task))
        && note(found, task)
        && list_below(children, found, task, Job::MOST_DEPTH)
}
