//! Which bursts are taken, and what the others leave.

use crate::scenes::{Act, Scene, play};
use crate::systems::{CALLS, COUNTS, EXITS, FIRST, KILLS, SECOND, WAITS};
use std::test::*;
use zl_sched::HandIn;

const OWN: Scene = Scene {
    own: &[(COUNTS, 3)],
    other: &[],
    in_job: 0,
    limit: 100,
    acts: &[
        Act::Take(FIRST),
        Act::HandIn(FIRST, HandIn::Taken),
        Act::Take(FIRST),
    ],
    trace: "2 run 1
2 close OK
process 2 ready
end schedule
",
};

#[test]
fn a_burst_of_its_own_is_taken(rt: HostRuntime) -> Result<(), Fail> {
    play(rt.alloc(), &OWN)
}

const OTHER_CPU: Scene = Scene {
    own: &[(COUNTS, 3)],
    other: &[(COUNTS, 4)],
    in_job: 0,
    limit: 100,
    acts: &[
        Act::Take(FIRST),
        Act::Foreign(FIRST, HandIn::Stranger),
        Act::Take(FIRST),
    ],
    trace: "process 2 ready
end schedule
",
};

#[test]
fn a_burst_from_another_cpu_is_a_stranger(rt: HostRuntime) -> Result<(), Fail> {
    play(rt.alloc(), &OTHER_CPU)
}

const OTHER_PROGRAM: Scene = Scene {
    own: &[(".raw\nprocess_exit r2\n", 7)],
    other: &[(EXITS, 7)],
    in_job: 0,
    limit: 100,
    acts: &[
        Act::Take(FIRST),
        Act::Foreign(FIRST, HandIn::Stranger),
        Act::Take(FIRST),
    ],
    trace: "process 2 ready
end schedule
",
};

#[test]
fn a_burst_of_another_program_of_the_same_length_is_a_stranger(
    rt: HostRuntime,
) -> Result<(), Fail> {
    play(rt.alloc(), &OTHER_PROGRAM)
}

/// Counts as `COUNTS`; the last instruction, which no first burst comes to, is another.
const ANOTHER_LAST: &str = ".raw
const r4, 1
close r2, r3
loop:
sub r1, r1, r4
jnz r1, loop
close r2, r3
process_exit r1
";

/// Counts as `COUNTS`, but the first instruction is another.
const ANOTHER_FIRST: &str = ".raw
const r4, 2
close r2, r3
loop:
sub r1, r1, r4
jnz r1, loop
close r2, r3
process_exit r3
";

/// Counts as `COUNTS`, but the call at which the first burst ends is another.
const ANOTHER_NEXT: &str = ".raw
const r4, 1
close r3, r3
loop:
sub r1, r1, r4
jnz r1, loop
close r2, r3
process_exit r3
";

/// `COUNTS` with one instruction more.
const ONE_MORE: &str = ".raw
const r4, 1
close r2, r3
loop:
sub r1, r1, r4
jnz r1, loop
close r2, r3
process_exit r3
process_exit r3
";

const OTHER_LAST: Scene = Scene {
    own: &[(COUNTS, 3)],
    other: &[(ANOTHER_LAST, 3)],
    in_job: 0,
    limit: 100,
    acts: &[
        Act::Take(FIRST),
        Act::Foreign(FIRST, HandIn::Taken),
        Act::Take(FIRST),
    ],
    trace: "2 run 1
2 close OK
process 2 ready
end schedule
",
};

#[test]
fn a_burst_that_did_not_come_to_another_instruction_is_taken(rt: HostRuntime) -> Result<(), Fail> {
    play(rt.alloc(), &OTHER_LAST)
}

const OTHER_FIRST: Scene = Scene {
    own: &[(COUNTS, 3)],
    other: &[(ANOTHER_FIRST, 3)],
    in_job: 0,
    limit: 100,
    acts: &[
        Act::Take(FIRST),
        Act::Foreign(FIRST, HandIn::Stranger),
        Act::Take(FIRST),
    ],
    trace: "process 2 ready
end schedule
",
};

#[test]
fn a_burst_that_did_another_instruction_is_a_stranger(rt: HostRuntime) -> Result<(), Fail> {
    play(rt.alloc(), &OTHER_FIRST)
}

const OTHER_NEXT: Scene = Scene {
    own: &[(COUNTS, 3)],
    other: &[(ANOTHER_NEXT, 3)],
    in_job: 0,
    limit: 100,
    acts: &[
        Act::Take(FIRST),
        Act::Foreign(FIRST, HandIn::Stranger),
        Act::Take(FIRST),
    ],
    trace: "process 2 ready
end schedule
",
};

#[test]
fn a_burst_behind_which_another_instruction_stands_is_a_stranger(
    rt: HostRuntime,
) -> Result<(), Fail> {
    play(rt.alloc(), &OTHER_NEXT)
}

const OTHER_LENGTH: Scene = Scene {
    own: &[(COUNTS, 3)],
    other: &[(ONE_MORE, 3)],
    in_job: 0,
    limit: 100,
    acts: &[
        Act::Take(FIRST),
        Act::Foreign(FIRST, HandIn::Stranger),
        Act::Take(FIRST),
    ],
    trace: "process 2 ready
end schedule
",
};

#[test]
fn a_burst_of_a_program_of_another_length_is_a_stranger(rt: HostRuntime) -> Result<(), Fail> {
    play(rt.alloc(), &OTHER_LENGTH)
}

const LET_GO: Scene = Scene {
    own: &[(COUNTS, 3)],
    other: &[(COUNTS, 3)],
    in_job: 0,
    limit: 100,
    acts: &[
        Act::Take(FIRST),
        Act::LetGo(FIRST),
        Act::TakeNothing,
        Act::Idle(false),
        Act::Foreign(FIRST, HandIn::Taken),
        Act::Take(FIRST),
    ],
    trace: "2 run 1
2 close OK
process 2 ready
end schedule
",
};

#[test]
fn a_process_whose_turn_was_dropped_stays_out(rt: HostRuntime) -> Result<(), Fail> {
    play(rt.alloc(), &LET_GO)
}

const EQUAL_SYSTEM: Scene = Scene {
    own: &[(EXITS, 7)],
    other: &[(EXITS, 7)],
    in_job: 0,
    limit: 100,
    acts: &[
        Act::Take(FIRST),
        Act::Foreign(FIRST, HandIn::Taken),
        Act::TakeNothing,
    ],
    trace: "2 process_exit ended 7
process 2 ended 7
end quiet
",
};

#[test]
fn a_burst_of_an_equal_system_is_its_own(rt: HostRuntime) -> Result<(), Fail> {
    play(rt.alloc(), &EQUAL_SYSTEM)
}

const IN_THE_LIST: Scene = Scene {
    own: &[(EXITS, 7)],
    other: &[(EXITS, 7)],
    in_job: 0,
    limit: 100,
    acts: &[Act::Foreign(FIRST, HandIn::Stranger), Act::Take(FIRST)],
    trace: "process 2 ready
end schedule
",
};

#[test]
fn a_burst_of_a_process_that_is_in_the_list_is_a_stranger(rt: HostRuntime) -> Result<(), Fail> {
    play(rt.alloc(), &IN_THE_LIST)
}

const BLOCKED: Scene = Scene {
    own: &[(WAITS, 7)],
    other: &[(WAITS, 7)],
    in_job: 0,
    limit: 100,
    acts: &[
        Act::Step(FIRST),
        Act::Step(FIRST),
        Act::Step(FIRST),
        Act::Foreign(FIRST, HandIn::Stranger),
        Act::TakeNothing,
    ],
    trace: "2 event_create OK
2 run 1
2 wait_one blocked
process 2 blocked
end quiet
",
};

#[test]
fn a_burst_of_a_process_that_is_blocked_is_a_stranger(rt: HostRuntime) -> Result<(), Fail> {
    play(rt.alloc(), &BLOCKED)
}

const NOT_THERE: Scene = Scene {
    own: &[(EXITS, 7)],
    other: &[(EXITS, 7), (EXITS, 7)],
    in_job: 0,
    limit: 100,
    acts: &[Act::Foreign(SECOND, HandIn::Stranger), Act::Take(FIRST)],
    trace: "process 2 ready
end schedule
",
};

#[test]
fn a_burst_of_a_process_that_is_not_there_is_a_stranger(rt: HostRuntime) -> Result<(), Fail> {
    play(rt.alloc(), &NOT_THERE)
}

const KILLED: Scene = Scene {
    own: &[(EXITS, 5), (KILLS, 0)],
    other: &[],
    in_job: 0,
    limit: 100,
    acts: &[
        Act::Take(FIRST),
        Act::Take(SECOND),
        Act::HandIn(SECOND, HandIn::Taken),
        Act::HandIn(FIRST, HandIn::Gone),
        Act::Take(SECOND),
    ],
    trace: "3 task_kill OK
process 2 ended -1024
process 3 ready
end schedule
",
};

#[test]
fn a_burst_of_a_process_that_was_killed_is_gone(rt: HostRuntime) -> Result<(), Fail> {
    play(rt.alloc(), &KILLED)
}

const NO_ROOM: Scene = Scene {
    own: &[(CALLS, 0)],
    other: &[],
    in_job: 0,
    limit: 0,
    acts: &[
        Act::Take(FIRST),
        Act::HandIn(FIRST, HandIn::Limit),
        Act::Take(FIRST),
    ],
    trace: "process 2 ready
end schedule
",
};

#[test]
fn a_burst_that_the_trace_has_no_room_for_is_handed_out_again(rt: HostRuntime) -> Result<(), Fail> {
    play(rt.alloc(), &NO_ROOM)
}
