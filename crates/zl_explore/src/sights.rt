//! What may not be so in one world, at once.

ghost use Rattle.std.specs.Prelude.{◌↔◌, IfNone, IfSome, IsTrue, map};
ghost use Rattle.zl_rights.specs.Map.{get};
ghost use Rattle.zl_calls.specs.World.{own_here};
ghost use Rattle.zl_explore.specs.Paths.{IsIn};
ghost use Rattle.zl_explore.specs.Sights.{AreSeen, IsAbout, IsClear, IsSeen, IsSo, NamesOne, sight_of, sights_in};

use crate::bad::{Bad, What};
use crate::fact::{Fact, Seen};
use zl_calls::World;
use zl_rights::Pid;

/// The first of these lists of which each fact is so, at once.
pub fn seen_at_once<'a>(never: &'a [Vec<Fact>], world: &World) -> Option<&'a Vec<Fact>>
    ensures some { IfSome result (λ together. IsIn (map (λ one. one.items) never.now) together.now.items
        × AreSeen together.now.items (sights_in (own_here world.now))) }
    ensures none { IfNone result (IsClear (map (λ one. one.items) never.now)
        (sights_in (own_here world.now))) }
{
    for together in never {
        if are_seen(together, world) {
            return Some(together);
        }
    }
    None
}

/// Whether each of these facts is so in the world.
fn are_seen(together: &[Fact], world: &World) -> bool
    ensures { IsTrue result ↔ AreSeen together.now (sights_in (own_here world.now)) }
{
    for fact in together {
        if !is_so(*fact, world) {
            return false;
        }
    }
    true
}

/// Whether the fact is so in the world.
fn is_so(fact: Fact, world: &World) -> bool
    ensures { IsTrue result ↔ IsSo fact (sights_in (own_here world.now)) }
{
    is_seen(fact.seen, world) == fact.is_so
}

/// Whether that is seen of the world.
fn is_seen(seen: Seen, world: &World) -> bool
    ensures { IsTrue result ↔ IsSeen seen (sights_in (own_here world.now)) }
{
    match seen {
        Seen::Process(bad) => names_one(bad, world),
        Seen::Queued { koid, rights } => world.has_queued(koid, rights),
        Seen::Object { kind, koid } => world.kind_of(koid) == Some(kind),
    }
}

/// Whether the pattern names a process of the world.
fn names_one(bad: Bad, world: &World) -> bool
    ensures { IsTrue result ↔ NamesOne bad (sights_in (own_here world.now)).processes }
{
    for n in 0..world.process_count() {
        let Some(pid) = world.process_at(n) else {
            unreachable!()
        };
        if bad.is_pid(pid) && is_about(bad.what, world, pid) {
            return true;
        }
    }
    false
}

/// Whether that is what the process is in, or has.
fn is_about(what: What, world: &World, pid: Pid) -> bool
    ensures { IsTrue result ↔ IsAbout what (sight_of (get world.now.world.processes pid)) }
{
    match what {
        What::Has { koid, rights } => world.has(pid, koid, rights),
        _ => what.is_state(world.state_of(pid)),
    }
}
