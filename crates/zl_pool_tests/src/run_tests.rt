//! Runs on worker threads. Each test asserts what every order of workers gives.

use crate::systems::{
    CALLS, COUNTS, EXITS, FIRST, KILLS, ROUNDS, booted, library, statements, told,
};
use std::alloc::Global;
use std::sync::Wait;
use std::sync::atomic::{AtomicU64, Ordering};
use std::test::*;
use std::thread;
use std::thread::Threads;
use std::time::{Clock, Duration};
use zl_code::{Boot, ProcState, TraceItem};
use zl_interp::{Done, Turn, burst};
use zl_pool::{Desk, Direct, Gate, RunEnd, run, run_in_bursts, work};
use zl_rights::Pid;
use zl_sched::{Fake, HandIn, System};
use zl_trace::replay;

/// A gate that holds the burst of the first process until that of the second was begun twice, and the
/// second burst of the second until that of the first was begun; each for so many sleeps at most. It notes
/// how many local instructions the first did last.
#[derive(Drop)]
struct Crossing<'a, R: Clock> {
    rt: &'a R,
    first: AtomicU64,
    second: AtomicU64,
    late: AtomicU64,
    ran: AtomicU64,
}

/// Waits until so many were begun, and notes it where that doesn't come.
pub fn hold<R: Clock>(rt: &R, begun: &AtomicU64, count: u64, late: &AtomicU64) {
    for _ in 0..10_000 {
        if begun.load(Ordering::SeqCst) >= count {
            return;
        }
        thread::sleep(rt, Duration::from_millis(1));
    }
    late.store(1, Ordering::SeqCst);
}

impl<'a, R: Clock + Sync> Gate for Crossing<'a, R> {
    fn burst(&self, turn: Turn, most: u32) -> Done {
        let is_first = turn.pid() == FIRST;
        if is_first {
            self.first.fetch_add(1, Ordering::SeqCst);
            hold(self.rt, &self.second, 2, &self.late);
        } else if self.second.fetch_add(1, Ordering::SeqCst) == 1 {
            hold(self.rt, &self.first, 1, &self.late);
        }
        let done = burst(turn, most);
        if is_first {
            self.ran.store(u64::from(done.ran()), Ordering::SeqCst);
        }
        done
    }
}

/// The texts of two processes of which the second kills the first, and their words.
const MEETING: &[(&str, u64)] = &[(EXITS, 5), (KILLS, 0)];

/// The same where the first would go on for ever.
const MEETING_IN_A_ROUND: &[(&str, u64)] = &[(ROUNDS, 5), (KILLS, 0)];

/// The system of two processes of which the second kills the first, behind the gate that crosses their
/// bursts of this length; and how many local instructions the first did last.
fn run_crossing<R: Threads + Wait + Clock + Sync>(
    rt: &R,
    alloc: Global,
    meeting: &[(&str, u64)],
    most: u32,
) -> Result<(System, u64), Fail> {
    let system = booted(alloc, meeting, 100)?;
    let gate = Crossing {
        rt,
        first: AtomicU64::new(0),
        second: AtomicU64::new(0),
        late: AtomicU64::new(0),
        ran: AtomicU64::new(0),
    };
    let (system, end) = run_in_bursts(rt, system, 2, &gate, most);
    if gate.late.load(Ordering::SeqCst) != 0 {
        return Err(Fail::from("a worker waited in vain"));
    }
    match end {
        RunEnd::Quiet => Ok((system, gate.ran.load(Ordering::SeqCst))),
        RunEnd::Limit | RunEnd::NoMemory | RunEnd::Mixed => Err(Fail::from("the run isn't quiet")),
    }
}

/// What is told where the second process killed the first while that was out.
const KILLED: &str = "3 task_kill OK
3 process_exit ended 0
process 2 ended -1024
process 3 ended 0
end quiet
";

#[test]
fn two_workers_are_at_work_at_once(rt: HostRuntime) -> Result<(), Fail> {
    let (system, _) = run_crossing(&rt, rt.alloc(), MEETING, 256)?;
    let written = told(rt.alloc(), &system)?;
    assert_eq!(rt; written.as_slice(), KILLED.as_bytes());
    Ok(())
}

#[test]
fn a_whole_burst_of_a_killed_process_is_in_vain(rt: HostRuntime) -> Result<(), Fail> {
    for most in [1, 256, 4096] {
        let (system, ran) = run_crossing(&rt, rt.alloc(), MEETING_IN_A_ROUND, most)?;
        assert_eq!(rt; ran, u64::from(most));
        let written = told(rt.alloc(), &system)?;
        assert_eq!(rt; written.as_slice(), KILLED.as_bytes(), "bursts of {most}");
    }
    Ok(())
}

#[test]
fn what_workers_did_is_replayed(rt: HostRuntime) -> Result<(), Fail> {
    let (system, _) = run_crossing(&rt, rt.alloc(), MEETING, 256)?;
    let boot = Boot {
        statements: statements(rt.alloc(), MEETING, 0)?,
        limit: 100,
    };
    let programs = library(rt.alloc(), MEETING)?;
    assert!(rt; replay(rt.alloc(), programs, boot, system.items()).is_ok());
    Ok(())
}

/// How many local instructions of the process the items tell of.
fn steps_of(items: &[TraceItem], of: Pid) -> u64 {
    let mut steps: u64 = 0;
    for item in items {
        if let TraceItem::Run { pid, count } = item {
            if *pid == of {
                steps = steps.saturating_add(u64::from(*count));
            }
        }
    }
    steps
}

/// What so many workers make of three processes that count, with bursts of this length: how it ended, how
/// many items there are, and how many local instructions each did that ended with 0.
fn counted<R: Threads + Wait + Sync>(
    rt: &R,
    alloc: Global,
    workers: u32,
    most: u32,
) -> Result<(RunEnd, usize, [u64; 3]), Fail> {
    let processes: &[(&str, u64)] = &[(COUNTS, 500), (COUNTS, 1), (COUNTS, 300)];
    let system = booted(alloc, processes, 2000)?;
    let (system, end) = run_in_bursts(rt, system, workers, &Direct, most);
    let mut steps: [u64; 3] = [0; 3];
    for (index, slot) in steps.iter_mut().enumerate() {
        let pid = FIRST + index as u64;
        if matches!(system.world().state_of(pid), ProcState::Ended(0)) {
            *slot = steps_of(system.items(), pid);
        }
    }
    Ok((end, system.items().len(), steps))
}

#[test]
fn each_number_of_workers_does_the_same_work(rt: HostRuntime) -> Result<(), Fail> {
    for workers in [0, 1, 2, 8, 64] {
        // Of each process one item before the first call, three calls, and one for each 256 of its rounds.
        assert_eq!(rt;
            counted(&rt, rt.alloc(), workers, 256)?,
            (RunEnd::Quiet, 20, [1001, 3, 601]),
            "{workers} workers"
        );
    }
    Ok(())
}

/// The rounds have 1,000, 2 and 600 local instructions, which bursts of each length share out.
#[test]
fn each_length_of_bursts_does_the_same_work(rt: HostRuntime) -> Result<(), Fail> {
    for (most, rounds) in [
        (0, 1602),
        (1, 1602),
        (7, 143 + 1 + 86),
        (255, 4 + 1 + 3),
        (1000, 3),
        (4096, 3),
        (1_000_000, 3),
    ] {
        for workers in [1, 8] {
            assert_eq!(rt;
                counted(&rt, rt.alloc(), workers, most)?,
                (RunEnd::Quiet, 12 + rounds, [1001, 3, 601]),
                "bursts of {most} on {workers} workers"
            );
        }
    }
    Ok(())
}

/// How a run of calls alone ends at the limit, with how many items, and whether a process is ready then.
fn limited<R: Threads + Wait + Sync>(
    rt: &R,
    alloc: Global,
    limit: u64,
    workers: u32,
) -> Result<(RunEnd, usize, bool), Fail> {
    let system = booted(alloc, &[(CALLS, 0)], limit)?;
    let (system, end) = run(rt, system, workers, &Direct);
    Ok((end, system.items().len(), !system.idle()))
}

#[test]
fn runs_end_at_the_limit(rt: HostRuntime) -> Result<(), Fail> {
    for (limit, count) in [(0, 0), (1, 1), (2, 2)] {
        for workers in [1, 2, 8, 64] {
            assert_eq!(rt;
                limited(&rt, rt.alloc(), limit, workers)?,
                (RunEnd::Limit, count, true)
            );
        }
    }
    Ok(())
}

/// What so many workers leave of a process of calls alone where memory is refused behind so many requests:
/// how many items, and whether nothing is ready. While one has the process the others wait.
fn refused<R: Threads + Wait + Sync>(
    rt: &R,
    alloc: Global,
    calls: u32,
    workers: u32,
) -> Result<(usize, bool), Fail> {
    let system = booted(alloc, &[(CALLS, 0)], 100)?;
    let desk = Desk::new(Fake { system, calls });
    let shared = &desk;
    thread::scope(thread::scope_env(), rt, |scope| {
        for _ in 1..workers {
            if scope.spawn(move || work(rt, shared, &Direct, 256)).is_err() {
                break;
            }
        }
        work(rt, shared, &Direct, 256);
    });
    let fake = desk.kernel.into_inner();
    Ok((fake.system.items().len(), fake.system.idle()))
}

#[test]
fn workers_end_where_memory_is_refused(rt: HostRuntime) -> Result<(), Fail> {
    for (calls, left) in [
        (0, (0, false)),
        (1, (0, false)),
        (2, (1, false)),
        (3, (1, false)),
        (4, (2, false)),
        (5, (2, false)),
        (6, (3, true)),
        (7, (3, true)),
    ] {
        for workers in [1, 2, 8, 64] {
            assert_eq!(rt;
                refused(&rt, rt.alloc(), calls, workers)?,
                left,
                "{calls} calls, {workers} workers"
            );
        }
    }
    Ok(())
}

/// What a run makes of what a worker left to which memory was refused behind so many requests: three calls
/// of process 2, beside which process 3 exits.
fn gone_on<R: Threads + Wait + Sync>(rt: &R, alloc: Global, calls: u32) -> Result<Vec<u8>, Fail> {
    let system = booted(alloc, &[(CALLS, 0), (EXITS, 7)], 100)?;
    let desk = Desk::new(Fake { system, calls });
    work(rt, &desk, &Direct, 256);
    let fake = desk.kernel.into_inner();
    let (system, _) = run(rt, fake.system, 1, &Direct);
    told(alloc, &system)
}

/// Each in its turn: as if memory had not been refused.
const IN_TURN: &str = "2 close OK
3 process_exit ended 7
2 close OK
2 process_exit ended 0
process 2 ended 0
process 3 ended 7
end quiet
";

/// The first burst of process 2 was refused, and it comes behind process 3.
const FIRST_LATER: &str = "3 process_exit ended 7
2 close OK
2 close OK
2 process_exit ended 0
process 2 ended 0
process 3 ended 7
end quiet
";

/// That of process 3 was refused, and it comes behind process 2.
const SECOND_LATER: &str = "2 close OK
2 close OK
3 process_exit ended 7
2 process_exit ended 0
process 2 ended 0
process 3 ended 7
end quiet
";

/// Requests are made in turn by taking a process out and by handing in what it did.
#[test]
fn a_run_goes_on_where_memory_was_refused(rt: HostRuntime) -> Result<(), Fail> {
    for (calls, wanted) in [
        (0, IN_TURN),
        (1, FIRST_LATER),
        (2, IN_TURN),
        (3, SECOND_LATER),
        (4, IN_TURN),
        (5, IN_TURN),
        (6, IN_TURN),
        (7, IN_TURN),
        (8, IN_TURN),
    ] {
        let trace = gone_on(&rt, rt.alloc(), calls)?;
        assert_eq!(rt; trace.as_slice(), wanted.as_bytes(), "{calls} calls");
    }
    Ok(())
}
