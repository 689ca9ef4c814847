//! Every process ever made, each under its koid.

ghost use Rattle.std.specs.Prelude.{◌≡◌, ◌<◌, ◌==◌, ◌++◌, [], ◌∷◌, ◌↔◌, length, vec_capacity, None, Some, IsTrue, MatchOption, map, slice_get};
ghost use Rattle.std.specs.List.{position};
ghost use Rattle.std.specs.Ordering.{nat_cmp};
ghost use Rattle.std.specs.FinMap.Entries.{is_sorted};
ghost use Rattle.zl_rights.specs.Map.{get};
ghost use Rattle.zl_calls.specs.Leaving.{HaveBegunBut};
ghost use Rattle.zl_calls.specs.World.{process_entry, IsPlaceOf};

use crate::process::Process;
use zl_rights::Pid;

/// Every process ever made, in rising order of their koids.
#[derive(Drop)]
pub struct Processes {
    pub list: Vec<Process>,
    // The places of those that may be unstarted, in rising order.
    pub unstarted: Vec<usize>,
    // The place at which the last one was found: each is looked for there first.
    pub near: usize,
    ghost in_order: { IsTrue (is_sorted nat_cmp (map process_entry list.items)) },
    ghost started: { HaveBegunBut unstarted.items list.items },
}

impl Processes {
    /// One more comes behind the others, and among those that may be unstarted. There is a place for
    /// it in both lists, and its koid is above theirs.
    pub fn push_reserved(&mut self, process: Process)
        requires room { length self.old.list.items < vec_capacity self.old.list }
        requires listed { length self.old.unstarted.items < vec_capacity self.old.unstarted }
        requires in_order { IsTrue (is_sorted nat_cmp
            (map process_entry (self.old.list.items ++ process ∷ []))) }
        ensures items { self.new.list.items ≡ self.old.list.items ++ process ∷ [] }
        ensures capacity { vec_capacity self.new.list ≡ vec_capacity self.old.list }
    {
        self.unstarted.push_reserved(self.list.len());
        self.list.push_reserved(process);
    }

    /// Where the process stands.
    #[inline(always)]
    pub fn place_of(&self, pid: Pid) -> Option<usize>
        ensures found { MatchOption result
            (get (map process_entry self.now.list.items) pid ≡ None)
            (IsPlaceOf self.now.list.items pid) }
        ensures first { result
            ≡ position (λ process. process.pid == pid) self.now.list.items }
    {
        if self.is_near(pid) {
            return Some(self.near);
        }
        self.list
            .binary_search_by_key(&pid, |process| process.pid)
            .ok()
    }

    /// Whether the process stands where one was found last.
    #[inline(always)]
    fn is_near(&self, pid: Pid) -> bool
        ensures { IsTrue result ↔ slice_get (map (λ process. process.pid) self.now.list.items)
            self.now.near ≡ Some pid }
    {
        match self.list.get(self.near) {
            Some(process) => process.pid == pid,
            None => false,
        }
    }

    /// Looks for the process where it stands before all other places, from now on.
    pub fn find(&mut self, pid: Pid)
        ensures { self.new ≡ record self.old { near = self.new.near } }
    {
        if let Some(place) = self.place_of(pid) {
            self.near = place;
        }
    }
}
