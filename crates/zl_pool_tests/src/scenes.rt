//! Scenes: what is done to a system by hand, what comes of it, and the trace that stands at the end.

use crate::systems::{booted, booted_in_job, told};
use std::alloc::Global;
use std::test::*;
use zl_interp::{Turn, burst};
use zl_rights::Pid;
use zl_sched::{HandIn, Stepped, System};

/// One thing that is done to the system of a scene, and what has to come of it.
pub enum Act {
    /// The first of the ready list is taken out. It is this process, whose turn is held from then on.
    Take(Pid),
    /// The same where the list is empty: nothing is taken out.
    TakeNothing,
    /// As `Take` of each process from the one to the other, in turn.
    TakeEach(Pid, Pid),
    /// Of the turns of the process that are held the first does its burst, which is handed in. This is
    /// the answer.
    HandIn(Pid, HandIn),
    /// As `HandIn` of each process from the one to the other, in turn.
    HandInEach(Pid, Pid, HandIn),
    /// The first turn of the process that is held is dropped.
    LetGo(Pid),
    /// A turn of the process in the other system, which is new, does its burst, which is handed in to
    /// that of the scene. This is the answer.
    Foreign(Pid, HandIn),
    /// The process does one instruction, while it isn't out.
    Step(Pid),
    /// Whether no process is ready, and none is out.
    Idle(bool),
}

/// A system, what is done to it in turn, and what its trace says then.
pub struct Scene {
    /// The texts of its processes, and their words.
    pub own: &'static [(&'static str, u64)],
    /// The same of the other system, of which each process is ready and has a job and a trace of its own.
    pub other: &'static [(&'static str, u64)],
    /// How many processes of its own are in a job that each but the first has a handle to.
    pub in_job: u64,
    /// How many items its trace may have.
    pub limit: u64,
    pub acts: &'static [Act],
    /// The text as `told` gives it.
    pub trace: &'static str,
}

/// Plays the scene.
///
/// It fails where something else comes of an act, and says at which, counted from 0; and where the trace
/// is another at the end, and says which.
pub fn play(alloc: Global, scene: &Scene) -> Result<(), Fail> {
    let mut system = booted_in_job(alloc, scene.own, scene.in_job, scene.limit)?;
    do_all(alloc, scene, &mut system)?;
    compare(&told(alloc, &system)?, scene.trace)
}

/// Does the acts in turn.
fn do_all(alloc: Global, scene: &Scene, system: &mut System) -> Result<(), Fail> {
    let mut held = Vec::new(alloc);
    for (n, act) in scene.acts.iter().enumerate() {
        if !comes_so(alloc, scene.other, system, &mut held, act)? {
            return Err(Fail::new(format_args!("something else comes of act {n}")));
        }
    }
    Ok(())
}

/// The trace has to be this one.
fn compare(written: &[u8], trace: &str) -> Result<(), Fail> {
    if written == trace.as_bytes() {
        return Ok(());
    }
    let said = str::from_utf8(written).unwrap_or("no text");
    Err(Fail::new(format_args!("the trace is another:\n{said}")))
}

/// Whether that comes of the act which has to.
fn comes_so(
    alloc: Global,
    other: &[(&str, u64)],
    system: &mut System,
    held: &mut Vec<Turn>,
    act: &Act,
) -> Result<bool, Fail> {
    match act {
        Act::Take(pid) => takes(system, held, *pid),
        Act::TakeNothing => Ok(system.take(&mut None)?.is_none()),
        Act::TakeEach(first, last) => takes_each(system, held, *first, *last),
        Act::HandIn(pid, answer) => Ok(hands_in(system, first_of(held, *pid), *answer)),
        Act::HandInEach(first, last, answer) => {
            Ok(hands_in_each(system, held, *first, *last, *answer))
        }
        Act::LetGo(pid) => Ok(first_of(held, *pid).is_some()),
        Act::Foreign(pid, answer) => Ok(hands_in(system, foreign(alloc, other, *pid)?, *answer)),
        Act::Step(pid) => Ok(matches!(system.step(*pid), Stepped::Ran)),
        Act::Idle(is_idle) => Ok(system.idle() == *is_idle),
    }
}

/// Whether the process is the first of the ready list. The turn that is taken out is held.
fn takes(system: &mut System, held: &mut Vec<Turn>, pid: Pid) -> Result<bool, Fail> {
    let Some(turn) = system.take(&mut None)? else {
        return Ok(false);
    };
    let is_so = turn.pid() == pid;
    held.push(turn)?;
    Ok(is_so)
}

/// Whether these processes are the first of the ready list, in turn.
fn takes_each(
    system: &mut System,
    held: &mut Vec<Turn>,
    first: Pid,
    last: Pid,
) -> Result<bool, Fail> {
    for pid in first..=last {
        if !takes(system, held, pid)? {
            return Ok(false);
        }
    }
    Ok(true)
}

/// The first turn of the process that is held. It isn't any more then.
fn first_of(held: &mut Vec<Turn>, pid: Pid) -> Option<Turn> {
    let place = held.iter().position(|turn| turn.pid() == pid)?;
    Some(held.remove(place))
}

/// Whether there is a turn, whose burst is answered so.
fn hands_in(system: &mut System, turn: Option<Turn>, answer: HandIn) -> bool {
    match turn {
        Some(turn) => system.hand_in(burst(turn, 256)).0 == answer,
        None => false,
    }
}

/// Whether there is a turn of each of these processes, whose burst is answered so.
fn hands_in_each(
    system: &mut System,
    held: &mut Vec<Turn>,
    first: Pid,
    last: Pid,
    answer: HandIn,
) -> bool {
    for pid in first..=last {
        if !hands_in(system, first_of(held, pid), answer) {
            return false;
        }
    }
    true
}

/// The turn of the process that a new system of these hands out.
fn foreign(alloc: Global, processes: &[(&str, u64)], pid: Pid) -> Result<Option<Turn>, Fail> {
    let mut system = booted(alloc, processes, 100)?;
    taken_at_last(&mut system, processes.len(), pid)
}

/// The turn of the process, where it is among so many that are taken out. Those before it are let go.
fn taken_at_last(system: &mut System, most: usize, pid: Pid) -> Result<Option<Turn>, Fail> {
    for _ in 0..most {
        let Some(turn) = system.take(&mut None)? else {
            return Ok(None);
        };
        if turn.pid() == pid {
            return Ok(Some(turn));
        }
    }
    Ok(None)
}
