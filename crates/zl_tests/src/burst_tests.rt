//! Bursts: how far a process goes on by itself.

ghost use Rattle.std.specs.Arc.{arc_value};
ghost use Rattle.std.specs.Prelude.{◌≡◌, IfOk, false};
ghost use Rattle.zl_interp.specs.Program.{program_value};

use std::alloc::{AllocError, Global};
use std::sync::Arc;
use std::test::*;
use zl_asm::assemble_bytes;
use zl_code::Image;
use zl_interp::{Cpu, Done, Program, Stop, Turn, burst};

/// Counts to 5 by eleven local instructions, and exits.
const COUNTS: &str = ".raw
const r2, 0
loop:
addi r2, r2, 1
jlt r2, 5, loop
process_exit r2
";

/// Reads a byte of a memory that it doesn't have.
const READS: &str = ".raw
const r2, 9
ld8 r3, r2, 0
process_exit r3
";

/// Comes to the end of its code.
const FALLS: &str = ".raw
const r2, 9
";

/// The same up to the third instruction, which goes on to 9.
const COUNTS_ON: &str = ".raw
const r2, 0
loop:
addi r2, r2, 1
jlt r2, 9, loop
process_exit r2
";

/// The same with one instruction more.
const COUNTS_LONGER: &str = ".raw
const r2, 0
loop:
addi r2, r2, 1
jlt r2, 5, loop
process_exit r2
process_exit r2
";

/// Counts up in the last eight of 64 KB, by four instructions a round.
const ROUNDS: &str = ".raw
.memory 65536
const r2, 65528
loop:
ld64 r3, r2, 0
addi r3, r3, 1
st64 r2, r3, 0
jmp loop
";

fn image(alloc: Global, text: &[u8]) -> Result<Image, Fail> {
    let image = assemble_bytes(alloc, text)
        .ok()
        .ok_or("the text is a program")?;
    Ok(image)
}

fn program(alloc: Global, text: &str) -> Result<Arc<Program>, Fail>
    ensures { IfOk result (λ program. (program_value (arc_value program)).checked ≡ false) }
{
    raw(alloc, image(alloc, text.as_bytes())?)
}

fn raw(alloc: Global, image: Image) -> Result<Arc<Program>, Fail>
    ensures { IfOk result (λ program. (program_value (arc_value program)).checked ≡ false) }
{
    match Arc::new(alloc, Program::Raw(image)) {
        Ok(program) => Ok(program),
        Err(_) => Err(Fail::from("memory was refused")),
    }
}

/// What a process that starts does of the program.
fn started(alloc: Global, program: &Arc<Program>, most: u32) -> Result<Done, AllocError>
    requires { (program_value (arc_value program.now)).checked ≡ false }
{
    let cpu = Cpu::new(alloc, program.image(), 7)?;
    went_on(alloc, program, &cpu, most)
}

/// What a process does of the program that has this Cpu.
fn went_on(alloc: Global, program: &Arc<Program>, cpu: &Cpu, most: u32) -> Result<Done, AllocError>
    requires { (program_value (arc_value program.now)).checked ≡ false }
{
    Ok(burst(Turn::new(alloc, 2, program, cpu, &mut None)?, most))
}

/// How many instructions a process that starts does of the text, and where it ends.
fn ended(alloc: Global, text: &str, most: u32) -> Result<(u32, Stop), Fail> {
    let program = program(alloc, text)?;
    let done = started(alloc, &program, most)?;
    Ok((done.ran(), done.stop()))
}

#[test]
fn a_burst_ends_at_a_call(rt: HostRuntime) -> Result<(), Fail> {
    assert_eq!(rt; ended(rt.alloc(), COUNTS, 256)?, (11, Stop::AtCall));
    assert_eq!(rt; ended(rt.alloc(), COUNTS, 11)?, (11, Stop::AtCall));
    Ok(())
}

#[test]
fn a_burst_does_no_more_than_it_may(rt: HostRuntime) -> Result<(), Fail> {
    assert_eq!(rt; ended(rt.alloc(), COUNTS, 10)?, (10, Stop::More));
    assert_eq!(rt; ended(rt.alloc(), COUNTS, 1)?, (1, Stop::More));
    assert_eq!(rt; ended(rt.alloc(), COUNTS, 0)?, (0, Stop::More));
    Ok(())
}

#[test]
fn a_burst_ends_where_its_process_is_stuck(rt: HostRuntime) -> Result<(), Fail> {
    assert_eq!(rt; ended(rt.alloc(), READS, 256)?, (1, Stop::Stuck));
    assert_eq!(rt; ended(rt.alloc(), READS, 1)?, (1, Stop::Stuck));
    assert_eq!(rt; ended(rt.alloc(), READS, 0)?, (0, Stop::More));
    assert_eq!(rt; ended(rt.alloc(), FALLS, 256)?, (1, Stop::Stuck));
    Ok(())
}

/// Which of the first four places are filled.
fn filled(done: &Done) -> [bool; 4] {
    [
        done.is_filled(0),
        done.is_filled(1),
        done.is_filled(2),
        done.is_filled(3),
    ]
}

/// Which are filled once a process that starts did so many instructions of COUNTS.
fn filled_after(alloc: Global, most: u32) -> Result<[bool; 4], Fail> {
    let program = program(alloc, COUNTS)?;
    Ok(filled(&started(alloc, &program, most)?))
}

#[test]
fn a_burst_carries_what_it_did_and_what_stands_next(rt: HostRuntime) -> Result<(), Fail> {
    assert_eq!(rt; filled_after(rt.alloc(), 0)?, [true, false, false, false]);
    assert_eq!(rt; filled_after(rt.alloc(), 1)?, [true, true, false, false]);
    assert_eq!(rt; filled_after(rt.alloc(), 2)?, [true, true, true, false]);
    assert_eq!(rt; filled_after(rt.alloc(), 10)?, [true, true, true, false]);
    assert_eq!(rt; filled_after(rt.alloc(), 256)?, [true, true, true, true]);
    Ok(())
}

/// Whether what a process that starts does of COUNTS, so many instructions, agrees with the text.
fn agrees(alloc: Global, most: u32, text: &str) -> Result<bool, Fail> {
    let program = program(alloc, COUNTS)?;
    let done = started(alloc, &program, most)?;
    Ok(done.agrees(&image(alloc, text.as_bytes())?))
}

#[test]
fn a_burst_agrees_with_what_has_its_instructions(rt: HostRuntime) -> Result<(), Fail> {
    assert_eq!(rt; agrees(rt.alloc(), 256, COUNTS)?, true);
    assert_eq!(rt; agrees(rt.alloc(), 1, COUNTS_ON)?, true);
    assert_eq!(rt; agrees(rt.alloc(), 2, COUNTS_ON)?, false);
    assert_eq!(rt; agrees(rt.alloc(), 3, COUNTS_ON)?, false);
    assert_eq!(rt; agrees(rt.alloc(), 1, COUNTS_LONGER)?, false);
    assert_eq!(rt; agrees(rt.alloc(), 1, FALLS)?, false);
    Ok(())
}

/// As many instructions as an image has at most: those of ROUNDS, and calls behind them.
fn largest(alloc: Global) -> Result<Image, Fail> {
    let mut text = Vec::new(alloc);
    text.extend_from_slice(ROUNDS.as_bytes())?;
    for _ in 5..Image::MOST_INSTRUCTIONS {
        text.extend_from_slice(b"process_exit r3\n")?;
    }
    image(alloc, &text)
}

/// The Cpu with which it ended.
fn last_cpu(alloc: Global, program: &Program, done: Done) -> Result<Cpu, AllocError> {
    let mut cpu = Cpu::new(alloc, program.image(), 0)?;
    done.move_to(&mut cpu);
    Ok(cpu)
}

/// What a process did last that did so many bursts of nine instructions each.
fn did_bursts(alloc: Global, program: &Arc<Program>, count: u32) -> Result<Done, AllocError>
    requires { (program_value (arc_value program.now)).checked ≡ false }
{
    let mut cpu = Cpu::new(alloc, program.image(), 7)?;
    for _ in 1..count {
        went_on(alloc, program, &cpu, 9)?.move_to(&mut cpu);
    }
    went_on(alloc, program, &cpu, 9)
}

#[test]
fn short_bursts_go_on_in_the_largest_program(rt: HostRuntime) -> Result<(), Fail> {
    let program = raw(rt.alloc(), largest(rt.alloc())?)?;
    let first = did_bursts(rt.alloc(), &program, 1)?;
    assert_eq!(rt; (first.ran(), first.is_filled(4095)), (9, false));
    assert_eq!(rt;
        (filled(&first), first.is_filled(4)),
        ([true, true, true, true], true)
    );
    let last = did_bursts(rt.alloc(), &program, 20)?;
    assert_eq!(rt; (last.ran(), last.stop()), (9, Stop::More));
    assert_eq!(rt;
        (filled(&last), last.is_filled(4)),
        ([false, true, true, true], true)
    );
    let cpu = last_cpu(rt.alloc(), &program, last)?;
    assert_eq!(rt; cpu.registers().get(3), Some(&45));
    Ok(())
}

#[test]
fn a_burst_goes_on_where_another_ended(rt: HostRuntime) -> Result<(), Fail> {
    let program = program(rt.alloc(), COUNTS)?;
    let first = started(rt.alloc(), &program, 4)?;
    assert_eq!(rt; (first.pid(), first.from().counter()), (2, 0));
    let cpu = last_cpu(rt.alloc(), &program, first)?;
    let second = burst(Turn::new(rt.alloc(), 2, &program, &cpu, &mut None)?, 256);
    assert_eq!(rt; (second.ran(), second.stop()), (7, Stop::AtCall));
    let last = last_cpu(rt.alloc(), &program, second)?;
    assert_eq!(rt; last.counter(), 3);
    assert_eq!(rt; last.registers().get(1..3), Some([7, 5].as_slice()));
    Ok(())
}
