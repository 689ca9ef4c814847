//! The program: its command line, the trace of standard input or of two files, that of a run on threads,
//! the ends of all orders, the replay of a trace, the assembler and the verifier over files, what standard
//! error says, and its exit status.
//!
//! It stands on `zl_sched` for a run along a schedule, on `zl_pool` for one on threads, on `zl_explore` for
//! the search over all orders and on `zl_trace` for its text, on `zl_scenario` for what an input says, on
//! `zl_command` for the command line, on `zl_explain` for what a person is told, on `zl_asm` for the
//! assembler, on `zl_verify` for the verifier, on `zl_calls` for the world, on `zl_interp`, `zl_code` and
//! `zl_rights` for what these speak of, and on `thiserror`. It promises, by the contracts of `step_engine`,
//! `step_files_engine`, `run_engine`, `explore_engine`, `replay_engine`, `asm_engine` and `check_engine`,
//! that what is written is the answer to what was read. A run on threads may wait; all else returns.
#![tactic(auto)]

mod assembling;
mod checking;
mod ends;
mod engine;
mod exploring;
mod fault;
mod files;
mod hints;
mod input;
mod replaying;
mod running;
mod tasks;
mod text;
mod told;

ghost use Rattle.std.specs.Prelude.{◌≡◌, IfNone, IfOk, IfSome};
ghost use Rattle.zl_explore.specs.Part.{IsOnly, part_words};

use ends::Sought;
use fault::{EngineFault, Verdict};
use hints::explain_part;
use std::alloc::{AllocError, Global};
use std::process::ExitCode;
use std::rt::{Env, Files};
use std::sync::Wait;
use std::thread::Threads;
use std::{env, io};
use tasks::{assemble, check, explore, replay, run_threads, show, step, step_files};
use thiserror::Error;
use zl_command::{Asked, Task, WordFault};
use zl_explain::{explain_bad, explain_words};
use zl_explore::{Never, Part, read_part};

/// Why the program ends without an answer.
#[derive(Debug, Drop, Error)]
pub enum Failure {
    #[error(transparent)]
    Words(#[from] WordFault),
    #[error(transparent)]
    Engine(#[from] EngineFault),
}

impl From<AllocError> for Failure {
    fn from(_refused: AllocError) -> Failure {
        Failure::Words(WordFault::NoMemory)
    }
}

fn main(rt: HostRuntime) -> ExitCode {
    let mut hints = String::new(rt.alloc());
    match run(&rt, &mut hints) {
        Ok(verdict) => {
            let _ = match verdict {
                // a line that wants no memory
                Verdict::Memory => {
                    eprintln!(rt; "zlab: out of memory, so there may be other ends")
                }
                _ => eprint!(rt; "{hints}"),
            };
            match verdict {
                Verdict::Done => ExitCode::SUCCESS,
                Verdict::Refused | Verdict::Bad => ExitCode::from(1),
                Verdict::Memory => ExitCode::from(4),
                Verdict::Cut => ExitCode::from(5),
            }
        }
        Err(failure) => {
            let _ = match &failure {
                Failure::Words(WordFault::Usage) => {
                    eprintln!(rt; "zlab: a wrong command line: {hints}; {failure}")
                }
                // what was told of a run is no reason for a want of memory
                _ if hints.is_empty() || status_of(&failure) == 4 => {
                    eprintln!(rt; "zlab: {failure}")
                }
                _ => eprintln!(rt; "zlab: {failure}: {hints}"),
            };
            ExitCode::from(status_of(&failure))
        }
    }
}

/// Does what the words ask for. What standard error is to say beside the verdict or the failure is
/// put into `hints`.
fn run<R: AllocGlobal + Env + Eprint + Files + Input + Print + Threads + Wait + Sync>(
    rt: &R,
    hints: &mut String,
) -> Result<Verdict, Failure> {
    let all = all_words(rt, hints)?;
    let words = all.get(1..).unwrap_or(&[]);
    let asked = match zl_command::parse(rt.alloc(), words) {
        Ok(asked) => asked,
        Err(fault) => {
            if fault == WordFault::Usage {
                explain_words(hints, rt.alloc(), words);
            }
            return Err(Failure::Words(fault));
        }
    };
    let ended = match asked {
        Asked::Text(text) => show(rt, hints, text.as_str()),
        Asked::Task(Task::Input) => step(rt, hints),
        Asked::Task(Task::Assemble { text, image }) => assemble(rt, hints, text, image),
        Asked::Task(Task::Check { image }) => check(rt, hints, image),
        Asked::Task(Task::Step { scenario, schedule }) => step_files(rt, hints, scenario, schedule),
        Asked::Task(
            Task::Run {
                scenario,
                workers,
                limit,
                burst,
            },
        ) => run_threads(rt, hints, scenario, workers, limit, burst),
        Asked::Task(Task::Replay { scenario, trace }) => replay(rt, hints, scenario, trace),
        Asked::Task(
            Task::Explore {
                scenario,
                worlds,
                bad,
                part,
                from,
            },
        ) => {
            let asked = Sought {
                never: never_asked(rt.alloc(), hints, &bad)?,
                part: part_asked(rt.alloc(), hints, part, from)?,
                worlds,
            };
            explore(rt, hints, scenario, asked)
        }
    };
    Ok(ended?)
}

/// What these words say that no order may have; words that say nothing are a wrong command line.
fn never_asked(alloc: Global, hints: &mut String, words: &[&str]) -> Result<Never, WordFault> {
    let mut never = Never::new(alloc);
    for one in words {
        if !never.read(alloc, one)? {
            explain_bad(hints, alloc, one.as_bytes());
            return Err(WordFault::Usage);
        }
    }
    Ok(never)
}

/// The part with these words, and the only one where there are none; words that are none are a wrong command
/// line.
fn part_asked(
    alloc: Global,
    hints: &mut String,
    words: Option<&str>,
    from: u32,
) -> Result<Part, WordFault>
    ensures only { IfOk result (λ part. IfNone words.entry (IsOnly part)) }
    ensures named { IfOk result (λ part. IfSome words.entry
        (λ named. (named.now ≡ part_words part) × (part.from ≡ from))) }
{
    let Some(words) = words else {
        return Ok(Part::only());
    };
    match read_part(alloc, words, from)? {
        Some(part) => Ok(part),
        None => {
            explain_part(hints, words.as_bytes());
            Err(WordFault::Usage)
        }
    }
}

/// The program's name and the words after it.
fn all_words<R: AllocGlobal + Env>(rt: &R, hints: &mut String) -> Result<Vec<String>, Failure> {
    match env::args(rt) {
        Ok(words) => Ok(words.collect(rt.alloc())?),
        Err(fault) if fault.kind() == io::ErrorKind::OutOfMemory => {
            Err(Failure::Words(WordFault::NoMemory))
        }
        // A word that isn't UTF-8 is in no form.
        Err(_) => {
            let _ = hints.push_str("a word isn't UTF-8");
            Err(Failure::Words(WordFault::Usage))
        }
    }
}

fn status_of(failure: &Failure) -> u8 {
    match failure {
        Failure::Words(WordFault::Usage) => 2,
        Failure::Engine(EngineFault::Read | EngineFault::Write | EngineFault::Mixed) => 3,
        Failure::Words(WordFault::NoMemory) | Failure::Engine(EngineFault::NoMemory) => 4,
    }
}
