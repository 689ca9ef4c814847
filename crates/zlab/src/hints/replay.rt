//! Why a trace isn't replayed.

use std::alloc::{AllocError, Global};
use zl_calls::World;
use zl_code::{Boot, CallName, ProcState, TraceItem};
use zl_explain::{
    Nearest, Page, Told, Value, is_among, line_at, line_of_item, push_page, tell, words_of,
};
use zl_rights::{Pid, Status};
use zl_scenario::{Reading, Scenario, read_scenario};
use zl_trace::{push_item, read_bytes, replay};

/// Adds a line where so many items are none.
pub fn explain_items(hints: &mut String, count: usize) {
    if count == 0 && hints.push_str("zlab: the trace has no items\n").is_err() {
        hints.clear();
    }
}

/// Adds a line that says what the lab has in place of the item of this place, from 1, of the trace.
pub fn explain_difference(
    hints: &mut String,
    alloc: Global,
    scenario: &[u8],
    trace: &[u8],
    number: usize,
) {
    let pushed = push_difference(hints, alloc, scenario, trace, number);
    if pushed.is_err() || push_end(hints).is_err() {
        hints.clear();
    }
}

fn push_difference(
    hints: &mut String,
    alloc: Global,
    scenario: &[u8],
    trace: &[u8],
    number: usize,
) -> Told {
    if number as u64 > Boot::MOST_ITEMS {
        return hints.push_str("zlab: a trace has 1000000 items at most");
    }
    let Ok(items) = read_bytes(alloc, trace) else {
        return Err(AllocError);
    };
    let items = items.as_slice();
    let place = number.wrapping_sub(1);
    let (Some(before), Some(item)) = (items.get(..place), items.get(place)) else {
        return Err(AllocError);
    };
    let line = line_of_item(alloc, trace, number)?;
    tell!(hints; "zlab: item #, line # of the trace, is ", number, line)?;
    push_words(hints, *item)?;
    let Some(mut world) = world_behind(alloc, scenario, before) else {
        return Err(AllocError);
    };
    push_own(hints, &mut world, *item)
}

/// Adds the page that helps, and the end of the line.
fn push_end(hints: &mut String) -> Told {
    push_page(hints, Page::Trace)?;
    hints.push_str("\n")
}

/// Adds the words of the item.
fn push_words(hints: &mut String, item: TraceItem) -> Told {
    push_item(hints, item)?;
    // the end of its line
    let _ = hints.pop();
    Ok(())
}

/// The world to which the items lead from the boot of the scenario.
fn world_behind(alloc: Global, scenario: &[u8], items: &[TraceItem]) -> Option<World> {
    let Reading { scenario, .. } = read_scenario(alloc, scenario).ok()?;
    let Scenario { library, boot, .. } = scenario;
    replay(alloc, library, boot, items).ok()
}

/// Adds which item the lab's own step has in place of this one, or why its process does nothing there.
fn push_own(hints: &mut String, world: &mut World, item: TraceItem) -> Told {
    let (pid, most) = match item {
        TraceItem::Run { pid, count } => (pid, count),
        TraceItem::Call { pid, .. } | TraceItem::Stuck { pid } => (pid, 1),
    };
    let mut count = 0u32;
    for _ in 0..most {
        match world.step(pid) {
            Some((TraceItem::Run { .. }, _)) => count = count.saturating_add(1),
            Some((own, _)) if count == 0 => {
                hints.push_str("; here it is ")?;
                return push_words(hints, own);
            }
            None if count == 0 => return push_unready(hints, world, pid),
            _ => break,
        }
    }
    hints.push_str("; here it is ")?;
    push_words(hints, TraceItem::Run { pid, count })
}

/// Adds what the process is in, which isn't ready.
fn push_unready(hints: &mut String, world: &World, pid: Pid) -> Told {
    let text = match world.state_of(pid) {
        ProcState::Blocked => "; process # isn't ready there: it is blocked",
        ProcState::Ended(_) => "; process # isn't ready there: it has ended",
        ProcState::Created => "; process # isn't ready there: it isn't started",
        _ if world.cpu_of(pid).is_none() => "; nobody is # there",
        _ => "; process # isn't ready there: it is gone",
    };
    tell!(hints; text, pid)
}

/// Adds a line that says why the trace is refused at the line of this number, or as a whole for 0.
pub fn explain_line(hints: &mut String, alloc: Global, trace: &[u8], number: u64) {
    let pushed = push_line(hints, alloc, trace, number);
    if pushed.is_err() || push_end(hints).is_err() {
        hints.clear();
    }
}

fn push_line(hints: &mut String, alloc: Global, trace: &[u8], number: u64) -> Told {
    let Some(line) = line_at(trace, number) else {
        return hints.push_str("zlab: the trace has more than 134217728 bytes");
    };
    if line.ends_with(b"\r") {
        let text =
            "zlab: line # of the trace ends with a carriage return; only a line feed ends a line";
        return tell!(hints; text, number);
    }
    tell!(hints; "zlab: line # of the trace isn't an item: #", number, Value::Word(line))?;
    let length = hints.len();
    push_meant(hints, alloc, line)?;
    if hints.len() == length {
        hints.push_str(
            "; an item is PID run N, PID CALL STATUS, PID CALL blocked, PID CALL ended CODE or PID stuck",
        )?;
    }
    Ok(())
}

/// Adds which name was meant by the first word that isn't one, if one is near.
fn push_meant(hints: &mut String, alloc: Global, line: &[u8]) -> Told {
    let words = words_of(alloc, line)?;
    match words.as_slice() {
        [_, doing, ..] if !is_doing(doing) => push_doing(hints, alloc, doing),
        [_, _, outcome, ..] if is_outcome(outcome) => Ok(()),
        [_, _, outcome, ..] if outcome.starts_with(b"OK") => hints.push_str("; did you mean OK?"),
        [_, _, outcome, ..] => push_outcome(hints, alloc, outcome),
        _ => Ok(()),
    }
}

/// Whether a process does this, as an item says it: it runs, it is stuck, or it makes a call.
fn is_doing(word: &[u8]) -> bool {
    is_among(word, &["run", "stuck"]) || CallName::named(word).is_some()
}

/// Adds which doing of a process was meant.
fn push_doing(hints: &mut String, alloc: Global, word: &[u8]) -> Told {
    let mut nearest = Nearest::new(alloc, word)?;
    nearest.try_all(&["run", "stuck"])?;
    nearest.try_calls()?;
    nearest.push(hints)
}

/// Whether a call ends so, as an item says it.
fn is_outcome(word: &[u8]) -> bool {
    is_among(word, &["blocked", "ended"]) || Status::named(word).is_some()
}

/// Adds which end of a call was meant.
fn push_outcome(hints: &mut String, alloc: Global, word: &[u8]) -> Told {
    let mut nearest = Nearest::new(alloc, word)?;
    nearest.try_statuses()?;
    nearest.try_all(&["blocked", "ended"])?;
    nearest.push(hints)
}
