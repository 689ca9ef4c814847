//! Systems of processes that run programs of texts.

use std::alloc::Global;
use std::test::*;
use zl_asm::assemble_bytes;
use zl_code::{Boot, Grant, Grants, Statement};
use zl_interp::{Library, Program};
use zl_rights::{Koid, Pid};
use zl_sched::{End, System};
use zl_trace::{empty_block, text};

const ROOT: Koid = 1;

/// What is made first: the first process, or the job of the first ones.
pub const FIRST: Pid = 2;

pub const SECOND: Pid = 3;

/// Exits with the word.
pub const EXITS: &str = ".raw
process_exit r1
";

/// Kills the process or the job of its handle, and exits with the word.
pub const KILLS: &str = ".raw
task_kill r2, r0
process_exit r1
";

/// Counts down from the word by two local instructions a round, with a call before and a call behind,
/// and exits.
pub const COUNTS: &str = ".raw
const r4, 1
close r2, r3
loop:
sub r1, r1, r4
jnz r1, loop
close r2, r3
process_exit r3
";

/// Goes round for ever by two local instructions.
pub const ROUNDS: &str = ".raw
again:
addi r2, r2, 1
jmp again
";

/// Three calls; by the third it exits.
pub const CALLS: &str = ".raw
close r2, r3
close r2, r3
process_exit r3
";

/// Makes an event, and waits for SIGNALED of it, which nobody raises.
pub const WAITS: &str = ".raw
event_create r2, r3
const r4, 8
wait_one r2, r3, r4, r5
process_exit r1
";

/// Waits for TERMINATED of the process of its handle, and exits with the word.
pub const AWAITS: &str = ".raw
const r4, 8
wait_one r2, r0, r4, r5
process_exit r1
";

/// The programs of the texts, all raw.
pub fn library(alloc: Global, processes: &[(&str, u64)]) -> Result<Library, Fail> {
    let mut library = Library::new(alloc);
    for (text, _) in processes {
        let image = assemble_bytes(alloc, text.as_bytes())
            .ok()
            .ok_or("the text is a program")?;
        if library.push(Program::Raw(image)).is_err() {
            return Err(Fail::from("memory was refused"));
        }
    }
    Ok(library)
}

/// A process for each text, with the word, the first so many of them in a job of their own. Each but the
/// first has a handle to what was made first: this job, or else the first process.
pub fn statements(
    alloc: Global,
    processes: &[(&str, u64)],
    in_job: u64,
) -> Result<Vec<Statement>, Fail> {
    let mut statements = Vec::new(alloc);
    if in_job > 0 {
        statements.push(Statement::Job { parent: ROOT })?;
    }
    for (n, (_, word)) in processes.iter().enumerate() {
        let program = n as u64;
        let mut handles = Grants::new(alloc);
        let first = Grant {
            koid: FIRST,
            rights: None,
        };
        if program > 0 && handles.push(first).is_err() {
            return Err(Fail::from("memory was refused"));
        }
        statements.push(Statement::Process {
            job: if program < in_job { FIRST } else { ROOT },
            program,
            word: *word,
            handles,
        })?;
    }
    Ok(statements)
}

/// A system of a process for each text, with the word; each but the first has a handle to the first.
pub fn booted(alloc: Global, processes: &[(&str, u64)], limit: u64) -> Result<System, Fail> {
    booted_in_job(alloc, processes, 0, limit)
}

/// The same, where the first so many processes are in a job of their own; then each but the first has a
/// handle to that.
pub fn booted_in_job(
    alloc: Global,
    processes: &[(&str, u64)],
    in_job: u64,
    limit: u64,
) -> Result<System, Fail> {
    let statements = statements(alloc, processes, in_job)?;
    match System::boot(
        alloc,
        library(alloc, processes)?,
        Boot { statements, limit },
    ) {
        Ok(system) => Ok(system),
        Err(_) => Err(Fail::from("the boot is refused")),
    }
}

/// What the trace of the system says, and what each process is in. It ends as a run on threads that is
/// quiet where the system is idle, and else as one along a schedule.
pub fn told(alloc: Global, system: &System) -> Result<Vec<u8>, Fail> {
    let end = if system.idle() {
        End::Quiet
    } else {
        End::Schedule
    };
    let mut written = Vec::new(alloc);
    text(system, end, &mut empty_block(alloc)?, &mut written)
        .ok()
        .ok_or("memory was refused")?;
    Ok(written)
}
