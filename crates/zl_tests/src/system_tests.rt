//! A system by itself: when none of its processes is ready.

use std::alloc::Global;
use std::test::*;
use zl_asm::assemble_bytes;
use zl_code::{Boot, Grants, Statement};
use zl_interp::{Library, Program};
use zl_rights::{Koid, Pid};
use zl_sched::{Stepped, System};

const ROOT: Koid = 1;

const FIRST: Pid = 2;

const SECOND: Pid = 3;

/// Exits with the word.
const EXITS: &str = ".raw
process_exit r1
";

/// Waits for SIGNALED of an event that nobody else has.
const WAITS: &str = ".raw
event_create r2, r3
const r4, 8
wait_one r2, r3, r4, r5
process_exit r1
";

/// A system of two processes: the first exits, and the second runs the program of the text.
fn system(alloc: Global, second: &str) -> Result<System, Fail> {
    let mut library = Library::new(alloc);
    let mut statements = Vec::new(alloc);
    for (program, text) in [EXITS, second].iter().enumerate() {
        let image = assemble_bytes(alloc, text.as_bytes())
            .ok()
            .ok_or("the text is a program")?;
        if library.push(Program::Raw(image)).is_err() {
            return Err(Fail::from("memory was refused"));
        }
        statements.push(Statement::Process {
            job: ROOT,
            program: program as u64,
            word: 7,
            handles: Grants::new(alloc),
        })?;
    }
    let boot = Boot {
        statements,
        limit: 10,
    };
    match System::boot(alloc, library, boot) {
        Ok(system) => Ok(system),
        Err(_) => Err(Fail::from("the boot is refused")),
    }
}

#[test]
fn a_system_is_idle_once_each_process_has_ended(rt: HostRuntime) -> Result<(), Fail> {
    let mut system = system(rt.alloc(), EXITS)?;
    assert!(rt; !system.idle());
    assert!(rt; matches!(system.step(SECOND), Stepped::Ran));
    assert!(rt; !system.idle());
    assert!(rt; matches!(system.step(FIRST), Stepped::Ran));
    assert!(rt; system.idle());
    assert!(rt; matches!(system.step(FIRST), Stepped::NotReady));
    Ok(())
}

#[test]
fn a_system_in_which_a_process_waits_alone_is_idle(rt: HostRuntime) -> Result<(), Fail> {
    let mut system = system(rt.alloc(), WAITS)?;
    assert!(rt; matches!(system.step(FIRST), Stepped::Ran));
    for _ in 0..2 {
        assert!(rt; matches!(system.step(SECOND), Stepped::Ran));
        assert!(rt; !system.idle());
    }
    assert!(rt; matches!(system.step(SECOND), Stepped::Ran));
    assert!(rt; system.idle());
    assert!(rt; matches!(system.step(SECOND), Stepped::NotReady));
    Ok(())
}
