//! All orders of turns of a running world.

ghost use Rattle.std.specs.Prelude.{◌≡◌, [], length, map, IfOk, Some};
ghost use Rattle.zl_calls.specs.World.{own_here};
ghost use Rattle.zl_explore.specs.Private.{IsStill};
ghost use Rattle.zl_explore.specs.Searching.{BeganWith};
ghost use Rattle.zl_explore.specs.Telling.{Leads, Lessens, Tells, TellsAll, TellsClear, TellsCut, TellsEndless, TellsNone, TellsPart};

use crate::bad::Bad;
use crate::ends::Next;
use crate::kept::Kept;
use crate::never::Never;
use crate::part::Part;
use std::alloc::{AllocError, Global};
use std::marker::Model;
use zl_calls::World;

/// A search over all orders of the turns of a running world, or over those of a part: to which states they
/// come where nobody is ready, and whether one has an item that may not be. It goes up to the next call at
/// each turn, since nobody else can tell when a process does its local instructions.
///
/// Source: own profile.
#[derive(Drop)]
pub struct Search {
    kept: Kept,
}

impl Model for Search {
    ghost use Rattle.zl_explore.specs.Searching.{Search as SearchValue};
    ghost use Rattle.zl_explore.specs.Kept.{IsWhole, search_of};

    ghost Value = { SearchValue };

    ghost view = { λ s. search_of s.kept };

    ghost invariant = { λ s. IsWhole s.kept };
}

impl Search {
    /// A search that begins with the world, goes over the orders of the part, and meets no more worlds than so
    /// many, of which 0 counts as 1; none may have what `never` has. The world has to be as boots and own steps
    /// leave one. Only memory can be refused.
    pub fn new(
        alloc: Global,
        world: World,
        never: Never,
        part: Part,
        most: usize,
    ) -> Result<Search, AllocError>
        requires { IsStill (own_here world) }
        ensures root { IfOk result (BeganWith world) }
        ensures told { IfOk result (λ search. search.told ≡ []) }
        ensures bad { IfOk result (λ search. search.bad ≡ never.bad.items) }
        ensures never { IfOk result (λ search. search.never ≡ map (λ one. one.items) never.together.items) }
        ensures part { IfOk result (λ search. search.part ≡ part) }
        ensures most { IfOk result (λ search. search.most ≡ most) }
        ensures left { IfOk result (λ search. search.left ≡ most) }
    {
        Ok(Search {
            kept: Kept::new(alloc, world, never, part, most)?,
        })
    }

    /// Goes on to the next end with other states than those of all ends that were told, to an item or a world
    /// that may not be, or to twice as many worlds.
    ///
    /// An end comes with turns by which the lab's own steps lead to it from the world where the search
    /// began, and so does such an item, which is the last one's, or such a world. `All` comes only where
    /// every order of turns, of any length, that comes to a world in which nobody is ready comes to the
    /// states of an end that was told, and none has an item that a pattern names, or leads to a world in
    /// which facts that are listed together are so at once; it says whether one leads to a world from
    /// which none comes to an end any more. Of a part it says as much of the orders of that. `Doubled` says
    /// that the search goes on, and comes first at 100,000 worlds. `Cut` comes only where as many worlds
    /// were met as there may be. Behind an end, and where worlds have doubled, there is less to go on from,
    /// so that the search ends.
    pub fn next_end(&mut self) -> Next
        ensures root { self.new.root ≡ self.old.root }
        ensures bad { self.new.bad ≡ self.old.bad }
        ensures never { self.new.never ≡ self.old.never }
        ensures part { self.new.part ≡ self.old.part }
        ensures told { Tells (Some result) self.old.told self.new.told }
        ensures leads { Leads (Some result) self.old }
        ensures left { Lessens result self.old.left self.new.left }
        ensures known { TellsPart result self.new }
        ensures all { TellsAll result self.new }
        ensures none { TellsNone result self.new }
        ensures clear { TellsClear result self.new }
        ensures endless { TellsEndless result self.new }
        ensures cut { TellsCut result self.new }
        ensures most { self.new.most ≡ self.old.most }
    {
        self.kept.next_end()
    }

    /// How many worlds were met.
    pub fn worlds(&self) -> usize
        ensures { result ≡ self.now.worlds }
    {
        self.kept.nodes.len()
    }

    /// How many turns were taken.
    pub fn turns(&self) -> u64 {
        self.kept.course.turns
    }

    /// How many ends were told.
    pub fn ends(&self) -> usize
        ensures { result ≡ length self.now.told }
    {
        self.kept.told.len()
    }

    /// What no order may have.
    pub fn bad(&self) -> &[Bad]
        ensures { result.now ≡ self.now.bad }
    {
        &self.kept.never.bad
    }
}
