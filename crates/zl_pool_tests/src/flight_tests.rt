//! What becomes of processes that are out while others are killed, handed in or stepped.

use crate::scenes::{Act, Scene, play};
use crate::systems::{AWAITS, COUNTS, EXITS, FIRST, KILLS, SECOND, booted};
use std::test::*;
use zl_interp::burst;
use zl_rights::Pid;
use zl_sched::HandIn;

const THIRD: Pid = 4;

const FOURTH: Pid = 5;

/// The first process is killed while it is out. Once it was handed in it is out no more.
const KILLED_WHILE_OUT: Scene = Scene {
    own: &[(EXITS, 0), (KILLS, 0)],
    other: &[(EXITS, 0), (KILLS, 0)],
    in_job: 0,
    limit: 100,
    acts: &[
        Act::Take(FIRST),
        Act::Take(SECOND),
        Act::HandIn(SECOND, HandIn::Taken),
        Act::Take(SECOND),
        Act::HandIn(SECOND, HandIn::Taken),
        Act::Idle(false),
        Act::HandIn(FIRST, HandIn::Gone),
        Act::Idle(true),
        Act::Foreign(FIRST, HandIn::Stranger),
    ],
    trace: "3 task_kill OK
3 process_exit ended 0
process 2 ended -1024
process 3 ended 0
end quiet
",
};

#[test]
fn a_system_is_idle_once_its_killed_process_was_handed_in(rt: HostRuntime) -> Result<(), Fail> {
    play(rt.alloc(), &KILLED_WHILE_OUT)
}

/// The first of the strangers puts the process back, behind the other one. The next finds it in the list.
const TWO_STRANGERS: Scene = Scene {
    own: &[(EXITS, 0), (KILLS, 0)],
    other: &[(EXITS, 1), (KILLS, 0)],
    in_job: 0,
    limit: 100,
    acts: &[
        Act::Take(FIRST),
        Act::Foreign(FIRST, HandIn::Stranger),
        Act::Foreign(FIRST, HandIn::Stranger),
        Act::Take(SECOND),
        Act::Take(FIRST),
        Act::TakeNothing,
    ],
    trace: "process 2 ready
process 3 ready
end schedule
",
};

#[test]
fn a_stranger_puts_the_process_back_once(rt: HostRuntime) -> Result<(), Fail> {
    play(rt.alloc(), &TWO_STRANGERS)
}

/// The job has the first koid, and the processes those behind it. The last one is outside, and kills it.
const JOB_KILLED_WHILE_OUT: Scene = Scene {
    own: &[(COUNTS, 3), (COUNTS, 1), (COUNTS, 2), (KILLS, 0)],
    other: &[],
    in_job: 3,
    limit: 100,
    acts: &[
        Act::Take(3),
        Act::Take(4),
        Act::Take(5),
        Act::Take(6),
        Act::HandIn(6, HandIn::Taken),
        Act::Take(6),
        Act::HandIn(6, HandIn::Taken),
        Act::HandIn(4, HandIn::Gone),
        Act::HandIn(5, HandIn::Gone),
        Act::Idle(false),
        Act::HandIn(3, HandIn::Gone),
        Act::Idle(true),
    ],
    trace: "6 task_kill OK
6 process_exit ended 0
process 3 ended -1024
process 4 ended -1024
process 5 ended -1024
process 6 ended 0
end quiet
",
};

#[test]
fn all_processes_of_a_killed_job_that_are_out_are_gone(rt: HostRuntime) -> Result<(), Fail> {
    play(rt.alloc(), &JOB_KILLED_WHILE_OUT)
}

/// One process of the job is out, and a step of the fourth kills all three.
const JOB_KILLED_BY_A_STEP: Scene = Scene {
    own: &[(COUNTS, 3), (COUNTS, 1), (COUNTS, 2), (KILLS, 0)],
    other: &[],
    in_job: 3,
    limit: 100,
    acts: &[
        Act::Take(3),
        Act::Step(6),
        Act::HandIn(3, HandIn::Gone),
        Act::Take(6),
        Act::TakeNothing,
        Act::HandIn(6, HandIn::Taken),
        Act::Idle(true),
    ],
    trace: "6 task_kill OK
6 process_exit ended 0
process 3 ended -1024
process 4 ended -1024
process 5 ended -1024
process 6 ended 0
end quiet
",
};

#[test]
fn a_step_kills_what_is_out_and_what_is_in_the_list(rt: HostRuntime) -> Result<(), Fail> {
    play(rt.alloc(), &JOB_KILLED_BY_A_STEP)
}

/// The third process waits before the second does, for the end of the first. By that both get ready by
/// koid, and before the killer.
const AWAITED_WHILE_OUT: Scene = Scene {
    own: &[(EXITS, 5), (AWAITS, 6), (AWAITS, 7), (KILLS, 0)],
    other: &[],
    in_job: 0,
    limit: 100,
    acts: &[
        Act::Step(THIRD),
        Act::Step(THIRD),
        Act::Step(SECOND),
        Act::Step(SECOND),
        Act::Take(FIRST),
        Act::Take(FOURTH),
        Act::TakeNothing,
        Act::HandIn(FOURTH, HandIn::Taken),
        Act::HandIn(FIRST, HandIn::Gone),
        Act::Take(SECOND),
        Act::Take(THIRD),
        Act::Take(FOURTH),
        Act::TakeNothing,
        Act::HandIn(FOURTH, HandIn::Taken),
        Act::HandIn(THIRD, HandIn::Taken),
        Act::HandIn(SECOND, HandIn::Taken),
    ],
    trace: "4 run 1
4 wait_one blocked
3 run 1
3 wait_one blocked
5 task_kill OK
5 process_exit ended 0
4 process_exit ended 7
3 process_exit ended 6
process 2 ended -1024
process 3 ended 6
process 4 ended 7
process 5 ended 0
end quiet
",
};

#[test]
fn those_that_wait_for_a_process_that_is_out_wake_as_it_is_killed(
    rt: HostRuntime,
) -> Result<(), Fail> {
    play(rt.alloc(), &AWAITED_WHILE_OUT)
}

/// The burst of the first process wants two items where there is room for one, and then for none. Nothing
/// of it is done: that of a new system is no stranger here, so the process stands where it began.
const ONE_PLACE: Scene = Scene {
    own: &[(COUNTS, 3), (EXITS, 7)],
    other: &[(COUNTS, 3), (EXITS, 7)],
    in_job: 0,
    limit: 1,
    acts: &[
        Act::Take(FIRST),
        Act::HandIn(FIRST, HandIn::Limit),
        Act::Take(SECOND),
        Act::HandIn(SECOND, HandIn::Taken),
        Act::Take(FIRST),
        Act::Foreign(FIRST, HandIn::Limit),
        Act::Take(FIRST),
        Act::HandIn(FIRST, HandIn::Limit),
        Act::Idle(false),
    ],
    trace: "3 process_exit ended 7
process 2 ready
process 3 ended 7
end schedule
",
};

#[test]
fn a_burst_with_room_for_a_part_of_it_leaves_no_part(rt: HostRuntime) -> Result<(), Fail> {
    play(rt.alloc(), &ONE_PLACE)
}

/// Does two instructions, and exits.
const GOES: &str = ".raw
const r2, 1
const r3, 2
process_exit r2
";

/// Exits at once, before two instructions.
const LEAVES: &str = ".raw
process_exit r2
const r2, 1
const r3, 2
";

#[test]
fn a_turn_that_lies_where_another_lay_has_no_mark_of_it(rt: HostRuntime) -> Result<(), Fail> {
    let mut system = booted(rt.alloc(), &[(GOES, 0), (LEAVES, 0)], 100)?;
    let first = system.take(&mut None)?.ok_or("nobody is ready")?;
    let done = burst(first, 256);
    assert_eq!(rt; (done.ran(), done.is_filled(1)), (2, true));
    let (answer, left) = system.hand_in(done);
    assert_eq!(rt; answer, HandIn::Taken);
    let mut spare = Some(left);
    let second = system.take(&mut spare)?.ok_or("nobody else is ready")?;
    assert!(rt; spare.is_none());
    let done = burst(second, 256);
    assert_eq!(rt;
        (done.ran(), done.is_filled(0), done.is_filled(1)),
        (0, true, false)
    );
    Ok(())
}
