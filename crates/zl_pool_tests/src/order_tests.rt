//! In what order processes stand in the ready list behind a step that changes little of it.

use crate::scenes::{Act, Scene, play};
use crate::systems::{AWAITS, CALLS, EXITS, FIRST, KILLS, SECOND};
use std::test::*;
use zl_rights::Pid;
use zl_sched::HandIn;

const THIRD: Pid = 4;

const FOURTH: Pid = 5;

const FIFTH: Pid = 6;

const SIXTH: Pid = 7;

/// Waits for the first user signal of the process of its handle, and exits with the word.
pub const WAITS_FOR_SIGNAL: &str = ".raw
const r4, 16777216
wait_one r2, r0, r4, r5
process_exit r1
";

/// Makes a process of the first program in the job of its handle, starts it with an event, and does so
/// once more, which is refused.
pub const STARTS: &str = ".raw
process_create r2, r0, r3, r4
event_create r2, r5
process_start r2, r4, r5, r1
process_start r2, r4, r5, r1
process_exit r1
";

/// Raises that signal, and exits with the word.
pub const RAISES: &str = ".raw
const r4, 16777216
signal r2, r0, r3, r4
process_exit r1
";

/// The second process blocks, and leaves the list; the others keep their order.
const ONE_BLOCKS: Scene = Scene {
    own: &[(CALLS, 1), (WAITS_FOR_SIGNAL, 2), (CALLS, 3)],
    other: &[],
    in_job: 0,
    limit: 100,
    acts: &[
        Act::Step(SECOND),
        Act::Step(FIRST),
        Act::Step(SECOND),
        Act::Take(THIRD),
        Act::Take(FIRST),
        Act::TakeNothing,
    ],
    trace: "3 run 1
2 close OK
3 wait_one blocked
process 2 ready
process 3 blocked
process 4 ready
end schedule
",
};

#[test]
fn one_that_blocks_leaves_the_list(rt: HostRuntime) -> Result<(), Fail> {
    play(rt.alloc(), &ONE_BLOCKS)
}

/// The third process wakes the second, which comes behind the ready ones and before its waker.
const ONE_WAKES: Scene = Scene {
    own: &[(CALLS, 1), (WAITS_FOR_SIGNAL, 2), (RAISES, 3), (CALLS, 4)],
    other: &[],
    in_job: 0,
    limit: 100,
    acts: &[
        Act::Step(SECOND),
        Act::Step(SECOND),
        Act::Step(THIRD),
        Act::Step(THIRD),
        Act::Take(FIRST),
        Act::Take(FOURTH),
        Act::Take(SECOND),
        Act::Take(THIRD),
        Act::TakeNothing,
    ],
    trace: "3 run 1
3 wait_one blocked
4 run 1
4 signal OK
process 2 ready
process 3 ready
process 4 ready
process 5 ready
end schedule
",
};

#[test]
fn one_that_wakes_comes_before_its_waker(rt: HostRuntime) -> Result<(), Fail> {
    play(rt.alloc(), &ONE_WAKES)
}

/// The same where the two are out, and what they did is handed in.
const ONE_WAKES_BY_A_BURST: Scene = Scene {
    own: &[(CALLS, 1), (WAITS_FOR_SIGNAL, 2), (RAISES, 3), (CALLS, 4)],
    other: &[],
    in_job: 0,
    limit: 100,
    acts: &[
        Act::Step(FIRST),
        Act::Take(SECOND),
        Act::Take(THIRD),
        Act::HandIn(SECOND, HandIn::Taken),
        Act::HandIn(THIRD, HandIn::Taken),
        Act::Take(FOURTH),
        Act::Take(FIRST),
        Act::Take(SECOND),
        Act::Take(THIRD),
        Act::TakeNothing,
    ],
    trace: "2 close OK
3 run 1
3 wait_one blocked
4 run 1
4 signal OK
process 2 ready
process 3 ready
process 4 ready
process 5 ready
end schedule
",
};

#[test]
fn one_that_wakes_by_a_burst_comes_before_its_waker(rt: HostRuntime) -> Result<(), Fail> {
    play(rt.alloc(), &ONE_WAKES_BY_A_BURST)
}

/// The first process exits, which wakes the second alone: it comes last.
const ONE_WAKES_BY_AN_END: Scene = Scene {
    own: &[(EXITS, 1), (AWAITS, 2), (CALLS, 3)],
    other: &[],
    in_job: 0,
    limit: 100,
    acts: &[
        Act::Step(SECOND),
        Act::Step(SECOND),
        Act::Step(FIRST),
        Act::Take(THIRD),
        Act::Take(SECOND),
        Act::TakeNothing,
    ],
    trace: "3 run 1
3 wait_one blocked
2 process_exit ended 1
process 2 ended 1
process 3 ready
process 4 ready
end schedule
",
};

#[test]
fn one_that_wakes_by_an_end_comes_last(rt: HostRuntime) -> Result<(), Fail> {
    play(rt.alloc(), &ONE_WAKES_BY_AN_END)
}

/// The second process starts a fourth, which comes behind the ready ones and before its starter.
const ONE_STARTS: Scene = Scene {
    own: &[(CALLS, 1), (STARTS, 2), (CALLS, 3)],
    other: &[],
    in_job: 1,
    limit: 100,
    acts: &[
        Act::Step(THIRD),
        Act::Step(THIRD),
        Act::Step(THIRD),
        Act::Take(SECOND),
        Act::Take(FOURTH),
        Act::Take(FOURTH + 1),
        Act::Take(THIRD),
        Act::TakeNothing,
    ],
    trace: "4 process_create OK
4 event_create OK
4 process_start OK
process 3 ready
process 4 ready
process 5 ready
process 6 ready
end schedule
",
};

#[test]
fn one_that_is_started_comes_before_its_starter(rt: HostRuntime) -> Result<(), Fail> {
    play(rt.alloc(), &ONE_STARTS)
}

/// The second process kills the first, which leaves the list; the third goes before its killer.
const ONE_IS_KILLED: Scene = Scene {
    own: &[(CALLS, 1), (KILLS, 2), (CALLS, 3)],
    other: &[],
    in_job: 0,
    limit: 100,
    acts: &[
        Act::Step(SECOND),
        Act::Take(THIRD),
        Act::Take(SECOND),
        Act::TakeNothing,
    ],
    trace: "3 task_kill OK
process 2 ended -1024
process 3 ready
process 4 ready
end schedule
",
};

#[test]
fn one_that_is_killed_leaves_the_list(rt: HostRuntime) -> Result<(), Fail> {
    play(rt.alloc(), &ONE_IS_KILLED)
}

/// The fourth process wakes the third and the second, of which the third blocked first, while the first
/// is out: the two come by koid, behind the ready ones and before their waker.
const TWO_WAKE: Scene = Scene {
    own: &[
        (CALLS, 1),
        (WAITS_FOR_SIGNAL, 2),
        (WAITS_FOR_SIGNAL, 3),
        (RAISES, 4),
        (CALLS, 5),
    ],
    other: &[],
    in_job: 0,
    limit: 100,
    acts: &[
        Act::Step(THIRD),
        Act::Step(THIRD),
        Act::Step(SECOND),
        Act::Step(SECOND),
        Act::Take(FIRST),
        Act::Step(FOURTH),
        Act::Step(FOURTH),
        Act::Take(FIFTH),
        Act::Take(SECOND),
        Act::Take(THIRD),
        Act::Take(FOURTH),
        Act::TakeNothing,
    ],
    trace: "4 run 1
4 wait_one blocked
3 run 1
3 wait_one blocked
5 run 1
5 signal OK
process 2 ready
process 3 ready
process 4 ready
process 5 ready
process 6 ready
end schedule
",
};

#[test]
fn two_that_wake_come_by_koid(rt: HostRuntime) -> Result<(), Fail> {
    play(rt.alloc(), &TWO_WAKE)
}

/// The fifth process kills the first, for whose end three others wait: it leaves the list, and they come
/// by koid, whoever blocked first.
const THREE_WAKE_BY_A_KILL: Scene = Scene {
    own: &[
        (CALLS, 1),
        (AWAITS, 2),
        (AWAITS, 3),
        (AWAITS, 4),
        (KILLS, 5),
        (CALLS, 6),
    ],
    other: &[],
    in_job: 0,
    limit: 100,
    acts: &[
        Act::Step(FOURTH),
        Act::Step(FOURTH),
        Act::Step(SECOND),
        Act::Step(SECOND),
        Act::Step(THIRD),
        Act::Step(THIRD),
        Act::Step(FIFTH),
        Act::Take(SIXTH),
        Act::Take(SECOND),
        Act::Take(THIRD),
        Act::Take(FOURTH),
        Act::Take(FIFTH),
        Act::TakeNothing,
    ],
    trace: "5 run 1
5 wait_one blocked
3 run 1
3 wait_one blocked
4 run 1
4 wait_one blocked
6 task_kill OK
process 2 ended -1024
process 3 ready
process 4 ready
process 5 ready
process 6 ready
process 7 ready
end schedule
",
};

#[test]
fn three_that_wake_by_a_kill_come_by_koid(rt: HostRuntime) -> Result<(), Fail> {
    play(rt.alloc(), &THREE_WAKE_BY_A_KILL)
}
