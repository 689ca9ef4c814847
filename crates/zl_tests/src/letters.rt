//! A world with a process that sends a handle in a message.

ghost use Rattle.std.specs.Prelude.{IfSome};
ghost use Rattle.zl_calls.specs.World.{own_here};
ghost use Rattle.zl_explore.specs.Private.{IsStill};

use std::alloc::{AllocError, Global};
use zl_asm::assemble_bytes;
use zl_calls::World;
use zl_code::{Boot, Grant, Grants, Statement};
use zl_interp::{Library, Program};
use zl_rights::Koid;

const ROOT: Koid = 1;

const SENDER: Koid = 2;

const READER: Koid = 3;

const EVENT: Koid = 4;

/// Sends its only handle to the event, and closes the end where the message is to be read.
const SENDS: &str = ".raw
    chan_write r20, r0, r21, r21, r3
    close r20, r2
    process_exit r21
";

/// The program of the process.
fn library(alloc: Global) -> Option<Library> {
    let mut library = Library::new(alloc);
    let image = assemble_bytes(alloc, SENDS.as_bytes()).ok()?;
    library.push(Program::Raw(image)).ok()?;
    Some(library)
}

/// A handle to each end and to the event.
fn grants(alloc: Global) -> Result<Grants, AllocError> {
    let mut grants = Grants::new(alloc);
    for koid in [SENDER, READER, EVENT] {
        grants.push(Grant { koid, rights: None })?;
    }
    Ok(grants)
}

/// A channel, an event, and the process.
fn statements(alloc: Global) -> Result<Vec<Statement>, AllocError> {
    let mut statements = Vec::with_capacity(alloc, 3)?;
    statements.push(Statement::Channel)?;
    statements.push(Statement::Event)?;
    statements.push(Statement::Process {
        job: ROOT,
        program: 0,
        word: 0,
        handles: grants(alloc)?,
    })?;
    Ok(statements)
}

/// A world with the process 5, which sends a handle to the event 4 from the end 2 to the end 3.
pub fn world(alloc: Global) -> Option<World>
    ensures { IfSome result (λ world. IsStill (own_here world)) }
{
    let boot = Boot {
        statements: statements(alloc).ok()?,
        limit: 10,
    };
    match World::boot(alloc, library(alloc)?, &boot) {
        Ok(world) => Some(world),
        Err(_) => None,
    }
}
