//! As many processes as a boot starts, and all of them out at once.

use crate::scenes::{Act, Scene, play};
use crate::systems::EXITS;
use std::test::*;
use zl_sched::HandIn;

/// Each of 64 processes is taken out before one is handed in, the last 32 of them first.
const ALL_OUT: Scene = Scene {
    own: &[(EXITS, 7); 64],
    other: &[],
    in_job: 0,
    limit: 100,
    acts: &[
        Act::TakeEach(2, 65),
        Act::TakeNothing,
        Act::Idle(false),
        Act::HandInEach(34, 65, HandIn::Taken),
        Act::HandInEach(2, 33, HandIn::Taken),
        Act::Idle(true),
    ],
    trace: "34 process_exit ended 7
35 process_exit ended 7
36 process_exit ended 7
37 process_exit ended 7
38 process_exit ended 7
39 process_exit ended 7
40 process_exit ended 7
41 process_exit ended 7
42 process_exit ended 7
43 process_exit ended 7
44 process_exit ended 7
45 process_exit ended 7
46 process_exit ended 7
47 process_exit ended 7
48 process_exit ended 7
49 process_exit ended 7
50 process_exit ended 7
51 process_exit ended 7
52 process_exit ended 7
53 process_exit ended 7
54 process_exit ended 7
55 process_exit ended 7
56 process_exit ended 7
57 process_exit ended 7
58 process_exit ended 7
59 process_exit ended 7
60 process_exit ended 7
61 process_exit ended 7
62 process_exit ended 7
63 process_exit ended 7
64 process_exit ended 7
65 process_exit ended 7
2 process_exit ended 7
3 process_exit ended 7
4 process_exit ended 7
5 process_exit ended 7
6 process_exit ended 7
7 process_exit ended 7
8 process_exit ended 7
9 process_exit ended 7
10 process_exit ended 7
11 process_exit ended 7
12 process_exit ended 7
13 process_exit ended 7
14 process_exit ended 7
15 process_exit ended 7
16 process_exit ended 7
17 process_exit ended 7
18 process_exit ended 7
19 process_exit ended 7
20 process_exit ended 7
21 process_exit ended 7
22 process_exit ended 7
23 process_exit ended 7
24 process_exit ended 7
25 process_exit ended 7
26 process_exit ended 7
27 process_exit ended 7
28 process_exit ended 7
29 process_exit ended 7
30 process_exit ended 7
31 process_exit ended 7
32 process_exit ended 7
33 process_exit ended 7
process 2 ended 7
process 3 ended 7
process 4 ended 7
process 5 ended 7
process 6 ended 7
process 7 ended 7
process 8 ended 7
process 9 ended 7
process 10 ended 7
process 11 ended 7
process 12 ended 7
process 13 ended 7
process 14 ended 7
process 15 ended 7
process 16 ended 7
process 17 ended 7
process 18 ended 7
process 19 ended 7
process 20 ended 7
process 21 ended 7
process 22 ended 7
process 23 ended 7
process 24 ended 7
process 25 ended 7
process 26 ended 7
process 27 ended 7
process 28 ended 7
process 29 ended 7
process 30 ended 7
process 31 ended 7
process 32 ended 7
process 33 ended 7
process 34 ended 7
process 35 ended 7
process 36 ended 7
process 37 ended 7
process 38 ended 7
process 39 ended 7
process 40 ended 7
process 41 ended 7
process 42 ended 7
process 43 ended 7
process 44 ended 7
process 45 ended 7
process 46 ended 7
process 47 ended 7
process 48 ended 7
process 49 ended 7
process 50 ended 7
process 51 ended 7
process 52 ended 7
process 53 ended 7
process 54 ended 7
process 55 ended 7
process 56 ended 7
process 57 ended 7
process 58 ended 7
process 59 ended 7
process 60 ended 7
process 61 ended 7
process 62 ended 7
process 63 ended 7
process 64 ended 7
process 65 ended 7
end quiet
",
};

#[test]
fn all_of_64_processes_are_out_at_once(rt: HostRuntime) -> Result<(), Fail> {
    play(rt.alloc(), &ALL_OUT)
}
