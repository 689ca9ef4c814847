//! Workers that are woken as processes become ready.

use crate::run_tests::hold;
use crate::systems::{AWAITS, EXITS, FIRST, booted};
use std::alloc::Global;
use std::sync::Wait;
use std::sync::atomic::{AtomicU64, Ordering};
use std::test::*;
use std::thread;
use std::thread::Threads;
use std::time::{Clock, Duration};
use zl_code::ProcState;
use zl_interp::{Done, Turn, burst};
use zl_pool::{Gate, RunEnd, run};

/// How many processes wait for the end of the first.
const OTHERS: u64 = 3;

/// A gate that holds the first process until each of the others was begun, and a little longer, in which
/// they block and the workers that had them sleep; and the second burst of each of the others until that
/// of all was begun. Each is held for so many sleeps at most.
#[derive(Drop)]
struct Together<'a, R: Clock> {
    rt: &'a R,
    begun: AtomicU64,
    late: AtomicU64,
}

impl<'a, R: Clock + Sync> Gate for Together<'a, R> {
    fn burst(&self, turn: Turn, most: u32) -> Done {
        if turn.pid() == FIRST {
            hold(self.rt, &self.begun, OTHERS, &self.late);
            thread::sleep(self.rt, Duration::from_millis(100));
        } else if self.begun.fetch_add(1, Ordering::SeqCst) >= OTHERS {
            hold(self.rt, &self.begun, 2 * OTHERS, &self.late);
        }
        burst(turn, most)
    }
}

/// How so many workers end, and with which codes the processes, of which all but the first wait for its
/// end, behind a gate that wants these to go on together.
fn woken_together<R: Threads + Wait + Clock + Sync>(
    rt: &R,
    alloc: Global,
    workers: u32,
) -> Result<(RunEnd, [i32; 4]), Fail> {
    let processes: &[(&str, u64)] = &[(EXITS, 5), (AWAITS, 6), (AWAITS, 7), (AWAITS, 8)];
    let system = booted(alloc, processes, 100)?;
    let gate = Together {
        rt,
        begun: AtomicU64::new(0),
        late: AtomicU64::new(0),
    };
    let (system, end) = run(rt, system, workers, &gate);
    if gate.late.load(Ordering::SeqCst) != 0 {
        return Err(Fail::from("a worker waited in vain"));
    }
    let mut codes: [i32; 4] = [0; 4];
    for (index, slot) in codes.iter_mut().enumerate() {
        if let ProcState::Ended(code) = system.world().state_of(FIRST + index as u64) {
            *slot = code;
        }
    }
    Ok((end, codes))
}

#[test]
fn a_worker_is_woken_for_each_process_that_became_ready(rt: HostRuntime) -> Result<(), Fail> {
    // Of three workers the one that hands in takes one of the three processes itself.
    for workers in [3, 4, 64] {
        assert_eq!(rt;
            woken_together(&rt, rt.alloc(), workers)?,
            (RunEnd::Quiet, [5, 6, 7, 8]),
            "{workers} workers"
        );
    }
    Ok(())
}
