//! A world with a process that takes packets, and two that queue them.

ghost use Rattle.std.specs.Prelude.{IfSome};
ghost use Rattle.zl_calls.specs.World.{own_here};
ghost use Rattle.zl_explore.specs.Private.{IsStill};

use std::alloc::{AllocError, Global};
use zl_asm::assemble_bytes;
use zl_calls::World;
use zl_code::{Boot, Grant, Grants, Statement};
use zl_interp::{Library, Program};
use zl_rights::Koid;

const ROOT: Koid = 1;

const PORT: Koid = 2;

const EVENT: Koid = 3;

/// Takes two packets, of which the first tells which of two handles is closed first; a third is closed
/// then, and it exits with the value of the third event that it makes.
const TAKES: &str = ".raw
    port_wait r20, r0, r10, r11, r12, r13
    jeq r10, 1, one
    close r20, r3
    port_wait r20, r0, r10, r11, r12, r13
    close r20, r2
    jmp on
one:
    close r20, r2
    port_wait r20, r0, r10, r11, r12, r13
    close r20, r3
on:
    const r10, 0
    const r11, 0
    const r12, 0
    const r13, 0
    close r20, r4
    event_create r20, r5
    event_create r20, r6
    event_create r20, r7
    process_exit r7
";

/// Queues a packet whose key is its word, and exits.
const QUEUES: &str = ".raw
    port_queue r20, r0, r1, r21
    process_exit r21
";

/// The programs of the three processes.
fn library(alloc: Global) -> Option<Library> {
    let mut library = Library::new(alloc);
    for text in [TAKES, QUEUES] {
        push_program(alloc, &mut library, text)?;
    }
    Some(library)
}

/// The program of the text comes behind the others.
fn push_program(alloc: Global, library: &mut Library, text: &str) -> Option<()> {
    let image = assemble_bytes(alloc, text.as_bytes()).ok()?;
    library.push(Program::Raw(image)).ok()
}

/// One handle to the port, and three to the event where they are wanted.
fn grants(alloc: Global, wants_events: bool) -> Result<Grants, AllocError> {
    let mut grants = Grants::new(alloc);
    for koid in [PORT, EVENT, EVENT, EVENT] {
        if koid == PORT || wants_events {
            grants.push(Grant { koid, rights: None })?;
        }
    }
    Ok(grants)
}

/// The process whose word this is comes behind what the boot makes before it.
fn push_process(
    alloc: Global,
    statements: &mut Vec<Statement>,
    word: u64,
) -> Result<(), AllocError> {
    statements.push(Statement::Process {
        job: ROOT,
        program: u64::from(word > 0),
        word,
        handles: grants(alloc, word == 0)?,
    })?;
    Ok(())
}

/// A port, an event, and three processes.
fn statements(alloc: Global) -> Result<Vec<Statement>, AllocError> {
    let mut statements = Vec::with_capacity(alloc, 5)?;
    statements.push(Statement::Port)?;
    statements.push(Statement::Event)?;
    for word in 0..3 {
        push_process(alloc, &mut statements, word)?;
    }
    Ok(statements)
}

/// A world with one that takes packets, the process 4, and two that queue them.
pub fn world(alloc: Global) -> Option<World>
    ensures { IfSome result (λ world. IsStill (own_here world)) }
{
    let boot = Boot {
        statements: statements(alloc).ok()?,
        limit: 10,
    };
    match World::boot(alloc, library(alloc)?, &boot) {
        Ok(world) => Some(world),
        Err(_) => None,
    }
}
