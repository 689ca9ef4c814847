//! A run on worker threads.

ghost use Rattle.zl_sched.specs.Opening.{opening_of};
ghost use Rattle.zl_sched.specs.System.{AreSafe};
ghost use Rattle.zl_pool.specs.Pool.{EndsRun};

use crate::gate::Gate;
use crate::worker::{Desk, work};
use std::sync::Wait;
use std::thread;
use std::thread::Threads;
use zl_sched::{Opening, System};

/// How a run ends.
///
/// Source: own profile.
#[derive(Clone, Copy, PartialEq, Eq, Debug)]
pub enum RunEnd {
    /// No process is ready, and none is out.
    Quiet,
    /// The trace has less than two free places.
    Limit,
    /// Memory was refused.
    NoMemory,
    /// The system doesn't go on from the one that was handed in.
    Mixed,
}

/// The most local instructions of a burst of `run`.
const BURST: u32 = 256;

/// Runs the system on so many workers, the caller's thread among them; 0 count as 1.
///
/// The system that comes back was booted from the same programs, statements and limit, and its trace
/// begins with the one that was handed in; where that isn't so the end is `Mixed`, and only there. Else
/// it is `Quiet` where no process is ready and none is out, or `Limit` where the trace has less than two
/// free places; that it is `NoMemory` only where memory was refused no clause says. A worker whose
/// thread can't be started is missing. In its trace no process of a program that is listed as checked
/// is answered BAD_HANDLE, WRONG_TYPE or ACCESS_DENIED, stuck or ended by a policy, and each keeps its
/// budget, until somebody kills it.
///
/// It may wait, and that it returns no clause says. Where a process is out as it begins and nobody hands
/// in what it did, all workers wait for ever once the others have come to rest. Source: own profile.
pub fn run<R: Threads + Wait + Sync, G: Gate>(
    rt: &R,
    system: System,
    workers: u32,
    gate: &G,
) -> (System, RunEnd)
    ensures end { EndsRun (opening_of system) result.1 result.0 }
    ensures safe { AreSafe result.0 }
{
    run_in_bursts(rt, system, workers, gate, BURST)
}

/// Runs the system as `run` does, with so many local instructions in a burst at most; 0 count as 1.
///
/// A worker that has a process does them without asking whether it still lives, so what is done in vain
/// of one that is killed meanwhile is that much. Source: own profile.
pub fn run_in_bursts<R: Threads + Wait + Sync, G: Gate>(
    rt: &R,
    system: System,
    workers: u32,
    gate: &G,
    most: u32,
) -> (System, RunEnd)
    ensures end { EndsRun (opening_of system) result.1 result.0 }
    ensures safe { AreSafe result.0 }
{
    let (after, end) = match system.opening() {
        Ok(opening) => {
            let after = run_all(rt, system, workers, gate, most);
            let end = end_of(&opening, &after);
            (after, end)
        }
        Err(_) => (system, RunEnd::NoMemory),
    };
    // Its clause has what is promised of covered processes.
    after.items();
    (after, end)
}

/// Lets the workers work, and gives back what the lock holds then. Of a value behind a lock nothing is
/// known but what its type keeps, so no clause says more.
fn run_all<R: Threads + Wait + Sync, G: Gate>(
    rt: &R,
    system: System,
    workers: u32,
    gate: &G,
    most: u32,
) -> System {
    let desk = Desk::new(system);
    let shared = &desk;
    thread::scope(thread::scope_env(), rt, |scope| {
        for _ in 1..workers {
            if scope.spawn(move || work(rt, shared, gate, most)).is_err() {
                break;
            }
        }
        work(rt, shared, gate, most);
    });
    desk.kernel.into_inner()
}

/// How it ended, by what is left.
fn end_of(opening: &Opening, system: &System) -> RunEnd
    ensures { EndsRun opening.now result system.now }
{
    if !system.goes_on(opening) {
        return RunEnd::Mixed;
    }
    if system.idle() {
        return RunEnd::Quiet;
    }
    if system.free() < 2 {
        return RunEnd::Limit;
    }
    RunEnd::NoMemory
}
