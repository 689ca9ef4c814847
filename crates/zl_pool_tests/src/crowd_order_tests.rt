//! In what order processes stand in the ready list behind steps that wake or kill several.

use crate::order_tests::{RAISES, WAITS_FOR_SIGNAL};
use crate::scenes::{Act, Scene, play};
use crate::systems::{AWAITS, CALLS, KILLS, booted_in_job};
use std::test::*;
use zl_rights::Pid;
use zl_sched::{HandIn, Stepped, System};

// The job is made first, then the processes.

const FIRST: Pid = 3;

const SECOND: Pid = 4;

const THIRD: Pid = 5;

const FOURTH: Pid = 6;

const FIFTH: Pid = 7;

const SIXTH: Pid = 8;

/// Waits for the first user signal of the job of its handle, kills that, and exits with the word.
const WAITS_AND_KILLS: &str = ".raw
const r4, 16777216
wait_one r2, r0, r4, r5
task_kill r2, r0
process_exit r1
";

/// Starts a process of the first program with a copy of its handle, and raises that signal.
const STARTS_AND_RAISES: &str = ".raw
const r4, 16777216
process_create r2, r0, r3, r6
dup r2, r0, r7, 2147483648
process_start r2, r6, r7, r1
signal r2, r0, r3, r4
process_exit r1
";

/// Starts processes of the first program without end, each with a copy of its handle, by five steps each.
const STARTS_MANY: &str = ".raw
again:
process_create r2, r0, r3, r6
dup r2, r0, r7, 2147483648
process_start r2, r6, r7, r1
close r2, r6
jmp again
";

/// The fourth process wakes the second and the third, which kills the second and the first with their
/// job: both leave the list.
const ONE_OF_TWO_IS_KILLED: Scene = Scene {
    own: &[
        (CALLS, 1),
        (WAITS_FOR_SIGNAL, 2),
        (WAITS_AND_KILLS, 3),
        (RAISES, 4),
    ],
    other: &[],
    in_job: 2,
    limit: 100,
    acts: &[
        Act::Step(SECOND),
        Act::Step(SECOND),
        Act::Step(THIRD),
        Act::Step(THIRD),
        Act::Step(FOURTH),
        Act::Step(FOURTH),
        Act::Step(THIRD),
        Act::Take(FOURTH),
        Act::Take(THIRD),
        Act::TakeNothing,
    ],
    trace: "4 run 1
4 wait_one blocked
5 run 1
5 wait_one blocked
6 run 1
6 signal OK
5 task_kill OK
process 3 ended -1024
process 4 ended -1024
process 5 ready
process 6 ready
end schedule
",
};

#[test]
fn one_of_two_that_wake_is_killed_by_the_other(rt: HostRuntime) -> Result<(), Fail> {
    play(rt.alloc(), &ONE_OF_TWO_IS_KILLED)
}

/// The same where the one that is killed is out by then: what it did is in vain.
const ONE_OF_TWO_IS_OUT: Scene = Scene {
    own: &[
        (CALLS, 1),
        (WAITS_FOR_SIGNAL, 2),
        (WAITS_AND_KILLS, 3),
        (RAISES, 4),
    ],
    other: &[],
    in_job: 2,
    limit: 100,
    acts: &[
        Act::Step(SECOND),
        Act::Step(SECOND),
        Act::Step(THIRD),
        Act::Step(THIRD),
        Act::Step(FOURTH),
        Act::Step(FOURTH),
        Act::Take(FIRST),
        Act::Take(SECOND),
        Act::Step(THIRD),
        Act::Take(FOURTH),
        Act::Take(THIRD),
        Act::TakeNothing,
        Act::HandIn(SECOND, HandIn::Gone),
        Act::HandIn(FIRST, HandIn::Gone),
        Act::TakeNothing,
    ],
    trace: "4 run 1
4 wait_one blocked
5 run 1
5 wait_one blocked
6 run 1
6 signal OK
5 task_kill OK
process 3 ended -1024
process 4 ended -1024
process 5 ready
process 6 ready
end schedule
",
};

#[test]
fn one_of_two_that_wake_is_killed_while_it_is_out(rt: HostRuntime) -> Result<(), Fail> {
    play(rt.alloc(), &ONE_OF_TWO_IS_OUT)
}

/// The third process starts a child, which blocks as the second does, and wakes both: they come by koid,
/// before their waker.
const A_CHILD_WAKES: Scene = Scene {
    own: &[
        (WAITS_FOR_SIGNAL, 1),
        (WAITS_FOR_SIGNAL, 2),
        (STARTS_AND_RAISES, 3),
    ],
    other: &[],
    in_job: 1,
    limit: 100,
    acts: &[
        Act::Step(THIRD),
        Act::Step(THIRD),
        Act::Step(THIRD),
        Act::Step(THIRD),
        Act::Step(FOURTH),
        Act::Step(FOURTH),
        Act::Step(SECOND),
        Act::Step(SECOND),
        Act::Step(THIRD),
        Act::Take(FIRST),
        Act::Take(SECOND),
        Act::Take(FOURTH),
        Act::Take(THIRD),
        Act::TakeNothing,
    ],
    trace: "5 run 1
5 process_create OK
5 dup OK
5 process_start OK
6 run 1
6 wait_one blocked
4 run 1
4 wait_one blocked
5 signal OK
process 3 ready
process 4 ready
process 5 ready
process 6 ready
end schedule
",
};

#[test]
fn a_child_of_the_signaller_wakes_with_another(rt: HostRuntime) -> Result<(), Fail> {
    play(rt.alloc(), &A_CHILD_WAKES)
}

/// The fifth process kills the job, for whose end three others wait: they come by koid, whoever blocked
/// first, and the one in the job leaves the list.
const THREE_WAKE_BY_A_JOB: Scene = Scene {
    own: &[
        (CALLS, 1),
        (AWAITS, 2),
        (AWAITS, 3),
        (AWAITS, 4),
        (KILLS, 5),
        (CALLS, 6),
    ],
    other: &[],
    in_job: 1,
    limit: 100,
    acts: &[
        Act::Step(FOURTH),
        Act::Step(FOURTH),
        Act::Step(SECOND),
        Act::Step(SECOND),
        Act::Step(THIRD),
        Act::Step(THIRD),
        Act::Step(FIFTH),
        Act::Take(SIXTH),
        Act::Take(SECOND),
        Act::Take(THIRD),
        Act::Take(FOURTH),
        Act::Take(FIFTH),
        Act::TakeNothing,
    ],
    trace: "6 run 1
6 wait_one blocked
4 run 1
4 wait_one blocked
5 run 1
5 wait_one blocked
7 task_kill OK
process 3 ended -1024
process 4 ready
process 5 ready
process 6 ready
process 7 ready
process 8 ready
end schedule
",
};

#[test]
fn three_that_wake_by_a_job_come_by_koid(rt: HostRuntime) -> Result<(), Fail> {
    play(rt.alloc(), &THREE_WAKE_BY_A_JOB)
}

/// How many children one signal wakes.
const MANY: u64 = 1000;

/// The process does so many steps.
fn steps(system: &mut System, pid: Pid, count: u64) -> Result<(), Fail> {
    for _ in 0..count {
        if !matches!(system.step(pid), Stepped::Ran) {
            return Err(Fail::from("the process isn't ready"));
        }
    }
    Ok(())
}

/// The process is the first of the list, and is taken out.
fn comes_first(system: &mut System, pid: Pid) -> Result<(), Fail> {
    match system.take(&mut None)? {
        Some(turn) if turn.pid() == pid => Ok(()),
        Some(_) => Err(Fail::from("another process comes first")),
        None => Err(Fail::from("no process is in the list")),
    }
}

/// The second process starts 1,000 children, of which the last one blocks first. Behind the third's
/// signal they stand in the list by koid, behind the ready ones and before their waker.
#[test]
fn a_thousand_that_wake_come_by_koid(rt: HostRuntime) -> Result<(), Fail> {
    let own = [(WAITS_FOR_SIGNAL, 1), (STARTS_MANY, 2), (RAISES, 3)];
    let mut system = booted_in_job(rt.alloc(), &own, 1, 100_000)?;
    steps(&mut system, SECOND, 5 * MANY)?;
    for n in 0..MANY {
        steps(&mut system, FOURTH + MANY - 1 - n, 2)?;
    }
    steps(&mut system, THIRD, 2)?;
    comes_first(&mut system, FIRST)?;
    comes_first(&mut system, SECOND)?;
    for n in 0..MANY {
        comes_first(&mut system, FOURTH + n)?;
    }
    comes_first(&mut system, THIRD)
}
