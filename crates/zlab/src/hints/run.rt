//! What standard error says of a run.

use std::alloc::Global;
use zl_calls::World;
use zl_code::{Boot, CallName, ProcState, TraceItem};
use zl_explain::{
    Source, Stuck, Told, explain_stuck, has_statements, line_of_turns, numbered_lines, tell,
};
use zl_rights::Pid;
use zl_sched::{End, System};

/// How many processes of many are told of.
const SHOWN: usize = 4;

/// The code of a process that is stuck. One that ends itself may give it, too.
const STUCK: i32 = -1028;

const NO_STATEMENTS: &str = "zlab: the input has no statements\n";

/// Adds a line where the trace is full, where there are no turns, or else where turns are of nobody; one
/// for each process that is stuck; and one where the run ended because nobody can go on. The schedule is
/// that of the input.
pub fn explain_run(
    hints: &mut String,
    alloc: Global,
    source: Source,
    input: &[u8],
    system: &System,
    schedule: &[(Pid, u32)],
    end: End,
) {
    let world = system.world();
    let pushed = match end {
        End::Limit => push_full(hints, system.items().len()),
        _ if has_no_turns(schedule) => push_no_turns(hints, input),
        _ => push_nobody(hints, alloc, source, input, world, schedule),
    };
    if pushed.is_err() {
        hints.clear();
    }
    explain_processes(hints, alloc, system);
}

/// Adds a line where a scenario without a schedule has no statements.
pub fn explain_nothing(hints: &mut String, input: &[u8]) {
    if !has_statements(input) && hints.push_str(NO_STATEMENTS).is_err() {
        hints.clear();
    }
}

/// Adds a line where the trace of a run on threads is full; one for each process that is stuck; and one
/// where the run ended because nobody can go on.
pub fn explain_threads(hints: &mut String, alloc: Global, system: &System, end: End) {
    if matches!(end, End::Limit) && push_nearly_full(hints, system).is_err() {
        hints.clear();
    }
    explain_processes(hints, alloc, system);
}

/// Adds a line for each process that is stuck, and one where nobody can go on.
fn explain_processes(hints: &mut String, alloc: Global, system: &System) {
    let world = system.world();
    let items = system.items();
    // Mostly processes are few and items many, and nobody is stuck.
    if items.len() < world.process_count() || has_stuck(world) {
        for item in items {
            if let TraceItem::Stuck { pid } = item {
                explain_process(hints, alloc, world, *pid);
            }
        }
    }
    if system.idle() && push_blocked(hints, world).is_err() {
        hints.clear();
    }
}

/// Whether a process ended as one does that is stuck.
fn has_stuck(world: &World) -> bool {
    for n in 0..world.process_count() {
        let Some(pid) = world.process_at(n) else {
            continue;
        };
        if matches!(world.state_of(pid), ProcState::Ended(STUCK)) {
            return true;
        }
    }
    false
}

/// Adds that the trace has no room for what a turn on threads may bring.
fn push_nearly_full(hints: &mut String, system: &System) -> Told {
    let count = system.items().len() as u64;
    let limit = count.saturating_add(system.free());
    let text = if limit < Boot::MOST_ITEMS {
        "zlab: the trace has # of # items, and a turn may bring two; a larger --limit is for more\n"
    } else {
        "zlab: the trace has # of # items, a turn may bring two, and no trace has more\n"
    };
    tell!(hints; text, count, limit)
}

/// Adds that the trace, of so many items, is full.
fn push_full(hints: &mut String, count: usize) -> Told {
    let count = count as u64;
    let text = if count < Boot::MOST_ITEMS {
        "zlab: the trace has the # items that its limit lets it have; a line limit N lets it have more\n"
    } else {
        "zlab: the trace has # items, and no trace has more\n"
    };
    tell!(hints; text, count)
}

fn has_no_turns(schedule: &[(Pid, u32)]) -> bool {
    schedule.iter().all(|(_, count)| *count == 0)
}

/// Adds that nobody runs, as the input has no turns or nothing at all.
fn push_no_turns(hints: &mut String, input: &[u8]) -> Told {
    hints.push_str(if has_statements(input) {
        "zlab: there are no turns: nobody runs\n"
    } else {
        NO_STATEMENTS
    })
}

/// Adds whose turns are the first that are of nobody, in all of the run.
fn push_nobody(
    hints: &mut String,
    alloc: Global,
    source: Source,
    input: &[u8],
    world: &World,
    schedule: &[(Pid, u32)],
) -> Told {
    let Some((place, pid)) = first_of_nobody(world, schedule) else {
        return Ok(());
    };
    let lines = numbered_lines(alloc, input)?;
    let lines = lines.as_slice();
    source.push_place(hints, lines, line_of_turns(alloc, lines, place)?)?;
    tell!(hints; "nobody is #; its turns are skipped; ", pid)?;
    push_processes(hints, world)?;
    hints.push_str("\n")
}

/// The place of the first pair with turns for a process that never was, and its number.
fn first_of_nobody(world: &World, schedule: &[(Pid, u32)]) -> Option<(usize, Pid)> {
    let mut known = None;
    for (place, pair) in schedule.iter().enumerate() {
        let (pid, count) = *pair;
        if known == Some(pid) || count == 0 {
            continue;
        }
        if world.cpu_of(pid).is_none() {
            return Some((place, pid));
        }
        known = Some(pid);
    }
    None
}

/// Adds which processes there are, of many only the first and the last.
fn push_processes(hints: &mut String, world: &World) -> Told {
    let count = world.process_count();
    let mut lead = match count {
        0 => return hints.push_str("there is no process"),
        1 => "the only process is ",
        _ => "processes are ",
    };
    for n in 0..count {
        match world.process_at(n) {
            Some(pid) if n < SHOWN || n + 1 == count => {
                tell!(hints; "##", lead, pid)?;
                lead = ", ";
            }
            _ => lead = " .. ",
        }
    }
    Ok(())
}

/// Adds who is blocked and at which call, of many only the first, if anybody is.
fn push_blocked(hints: &mut String, world: &World) -> Told {
    let mut told = 0;
    for n in 0..world.process_count() {
        let Some(pid) = world.process_at(n) else {
            continue;
        };
        if told < SHOWN && matches!(world.state_of(pid), ProcState::Blocked) {
            push_waiting(hints, world, pid, told == 0)?;
            told += 1;
        }
    }
    if told == 0 {
        return Ok(());
    }
    match world.blocked_count().saturating_sub(told) {
        0 => {}
        more => tell!(hints; " and # more", more)?,
    }
    hints.push_str("\n")
}

/// Adds at which call the process waits, and for which signals, if it is for signals.
fn push_waiting(hints: &mut String, world: &World, pid: Pid, is_first: bool) -> Told {
    let (Some(image), Some(cpu)) = (world.image_of(pid), world.cpu_of(pid)) else {
        return Ok(());
    };
    let Some(call) = image.call_at(cpu.counter()) else {
        return Ok(());
    };
    let text = if is_first {
        "zlab: nobody can go on: # waits in #"
    } else {
        ", # in #"
    };
    tell!(hints; text, pid, call.name.name())?;
    if let CallName::WaitOne = call.name {
        let mask = cpu.register(call.registers[2]);
        tell!(hints; " for the signals #", mask)?;
    }
    Ok(())
}

/// Adds a line that says why the process is stuck.
fn explain_process(hints: &mut String, alloc: Global, world: &World, pid: Pid) {
    let (Some(image), Some(cpu)) = (world.image_of(pid), world.cpu_of(pid)) else {
        return;
    };
    let stuck = Stuck {
        pid,
        image,
        counter: cpu.counter(),
        registers: cpu.registers(),
    };
    explain_stuck(hints, alloc, stuck);
}
