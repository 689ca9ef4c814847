//! Who became ready behind a step but for its process, as the world tells it.

use crate::order_tests::{RAISES, STARTS, WAITS_FOR_SIGNAL};
use crate::systems::{AWAITS, CALLS, KILLS, library, statements};
use std::alloc::Global;
use std::test::*;
use zl_calls::{Boot, Killed, Told, Woke, World};
use zl_rights::Pid;

/// A world of a process for each text, with the word, the first so many in a job of their own; each but
/// the first has a handle to this job, or else to the first process.
fn world(alloc: Global, processes: &[(&str, u64)], in_job: u64) -> Result<World, Fail> {
    let statements = statements(alloc, processes, in_job)?;
    let boot = Boot {
        statements,
        limit: 100,
    };
    match World::boot(alloc, library(alloc, processes)?, &boot) {
        Ok(world) => Ok(world),
        Err(_) => Err(Fail::from("the boot is refused")),
    }
}

/// The processes that have turns, and who wakes behind each: the second blocks, and the third wakes it.
const TURNS: [(Pid, Option<Pid>); 6] = [
    (3, None),
    (3, None),
    (4, None),
    (2, None),
    (4, Some(3)),
    (5, None),
];

/// Each of these processes has a turn, behind which just this one became ready.
fn tells(world: &mut World, turns: &[(Pid, Option<Pid>)]) -> Result<(), Fail> {
    for (pid, expected) in turns {
        let Some((_, told)) = world.step(*pid) else {
            return Err(Fail::from("the process isn't ready"));
        };
        let woke = match told {
            Told::Same => Woke::Nobody,
            Told::Woke(woke) => woke,
            Told::Killed(killed) => killed.woke,
        };
        let told = match woke {
            Woke::Nobody => None,
            Woke::One(pid) => Some(pid),
            Woke::Several(_) => return Err(Fail::from("several became ready")),
        };
        if told != *expected {
            return Err(Fail::from("another process became ready, or none"));
        }
    }
    Ok(())
}

#[test]
fn a_step_tells_who_woke(rt: HostRuntime) -> Result<(), Fail> {
    let own = [(CALLS, 1), (WAITS_FOR_SIGNAL, 2), (RAISES, 3), (CALLS, 4)];
    tells(&mut world(rt.alloc(), &own, 0)?, &TURNS)
}

/// The child becomes ready as it is started, and only then.
const STARTING: [(Pid, Option<Pid>); 6] = [
    (4, None),
    (4, None),
    (4, Some(5)),
    (5, None),
    (4, None),
    (4, None),
];

#[test]
fn a_step_tells_whom_it_started(rt: HostRuntime) -> Result<(), Fail> {
    tells(
        &mut world(rt.alloc(), &[(CALLS, 1), (STARTS, 2)], 1)?,
        &STARTING,
    )
}

/// The third process kills the first, for whose end the second waits.
const KILLING: [(Pid, Option<Pid>); 4] = [(3, None), (3, None), (4, Some(3)), (3, None)];

#[test]
fn a_kill_tells_who_woke(rt: HostRuntime) -> Result<(), Fail> {
    let own = [(CALLS, 1), (AWAITS, 2), (KILLS, 3)];
    tells(&mut world(rt.alloc(), &own, 0)?, &KILLING)
}

/// Two processes block, and both wake behind one signal: each is told, the longest blocked first, and there
/// is room for all processes.
#[test]
fn a_step_tells_all_who_woke(rt: HostRuntime) -> Result<(), Fail> {
    let own = [
        (CALLS, 1),
        (WAITS_FOR_SIGNAL, 2),
        (WAITS_FOR_SIGNAL, 3),
        (RAISES, 4),
    ];
    let mut world = world(rt.alloc(), &own, 0)?;
    let blocks = [(4, None), (4, None), (3, None), (3, None), (5, None)];
    tells(&mut world, &blocks)?;
    let Some((_, told)) = world.step(5) else {
        return Err(Fail::from("the process isn't ready"));
    };
    let Told::Woke(Woke::Several(list)) = told else {
        return Err(Fail::from("not several became ready"));
    };
    if !list.whole || list.pids.as_slice() != [4, 3].as_slice() {
        return Err(Fail::from("not just these became ready"));
    }
    if list.pids.capacity() < 5 {
        return Err(Fail::from("there is no room for all"));
    }
    Ok(())
}

/// The third process kills the first: it is told, with its job, and there is room for all processes.
#[test]
fn a_kill_tells_whom_it_killed(rt: HostRuntime) -> Result<(), Fail> {
    let own = [(CALLS, 1), (CALLS, 2), (KILLS, 3)];
    let mut world = world(rt.alloc(), &own, 0)?;
    let Some((_, told)) = world.step(4) else {
        return Err(Fail::from("the process isn't ready"));
    };
    let Told::Killed(Killed { tasks: list, .. }) = told else {
        return Err(Fail::from("nobody is told"));
    };
    if !list.whole || !list.koids.contains(&2) || list.koids.contains(&3) {
        return Err(Fail::from("not just the first process was killed"));
    }
    if list.koids.capacity() < 4 {
        return Err(Fail::from("there is no room for all"));
    }
    Ok(())
}
