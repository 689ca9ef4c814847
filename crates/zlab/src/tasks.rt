//! Each task over the standard streams and the files that its words name. What can't be opened, read or
//! written is put into `hints` by its name, with the reason.
ghost use Rattle.std.specs.Prelude.{◌≤◌};
ghost use Rattle.zl_code.specs.Common.{MOST_ITEMS};

use crate::assembling::asm_engine;
use crate::checking::check_engine;
use crate::ends::Sought;
use crate::engine::step_engine;
use crate::exploring::explore_engine;
use crate::fault::{EngineFault, Verdict};
use crate::files::step_files_engine;
use crate::hints::OnError;
use crate::replaying::replay_engine;
use crate::running::run_engine;
use crate::told::Told;
use std::fs::OpenFile;
use std::os::unix::fs::MetadataExt;
use std::rt::Files;
use std::sync::Wait;
use std::thread::Threads;
use std::{fs, io};
use zl_explain::{explain_failure, explain_opening};

const INPUT: &str = "standard input";

const OUTPUT: &str = "standard output";

/// Writes a text on standard output.
pub fn show<R: Print>(rt: &R, hints: &mut String, text: &str) -> Result<Verdict, EngineFault> {
    match print!(rt; "{text}") {
        Ok(()) => Ok(Verdict::Done),
        Err(reason) => {
            explain_failure(hints, OUTPUT, Some(reason));
            Err(EngineFault::Write)
        }
    }
}

/// Answers standard input on standard output.
pub fn step<R: AllocGlobal + Input + Print>(
    rt: &R,
    hints: &mut String,
) -> Result<Verdict, EngineFault> {
    let mut reader = Told::new(INPUT, rt.reader());
    let mut writer = Told::new(OUTPUT, io::writer(rt));
    let ended = step_engine(rt.alloc(), &mut reader, &mut writer, hints);
    answer_with(hints, ended, &reader, &writer)
}

/// Assembles the file `text` into the file `image`, which is made or emptied once the other is open,
/// and before anything is read.
pub fn assemble<R: AllocGlobal + Files + Print>(
    rt: &R,
    hints: &mut String,
    text: &str,
    image: &str,
) -> Result<Verdict, EngineFault> {
    // Where standard streams are closed these get their numbers, so that the image doesn't: the line
    // of a refusal would go into it.
    let _input = fs::open(rt, "/dev/null");
    let _output = fs::open(rt, "/dev/null");
    let _errors = fs::open(rt, "/dev/null");
    let source = open(rt, hints, text)?;
    if text == image || is_same_file(rt, &source, image) {
        explain_failure(hints, "IN and OUT are one file, which stays as it is", None);
        return Err(EngineFault::Write);
    }
    let target = match fs::create(rt, image) {
        Ok(target) => target,
        Err(reason) => {
            explain_failure(hints, image, Some(reason));
            return Err(EngineFault::Write);
        }
    };
    let (mut source, mut target) = (Told::new(text, source), Told::new(image, target));
    let mut line = Told::new(OUTPUT, io::writer(rt));
    let ended = asm_engine(rt.alloc(), &mut source, &mut target, &mut line, hints);
    if line.has_failed() {
        answer_with(hints, ended, &source, &line)
    } else {
        answer_with(hints, ended, &source, &target)
    }
}

/// Answers the image in the file on standard output.
pub fn check<R: AllocGlobal + Files + Print>(
    rt: &R,
    hints: &mut String,
    image: &str,
) -> Result<Verdict, EngineFault> {
    let mut reader = Told::new(image, open(rt, hints, image)?);
    let mut writer = Told::new(OUTPUT, io::writer(rt));
    let ended = check_engine(rt.alloc(), &mut reader, &mut writer, hints);
    answer_with(hints, ended, &reader, &writer)
}

/// Answers the scenario and the schedule in the two files on standard output.
pub fn step_files<R: AllocGlobal + Files + Print>(
    rt: &R,
    hints: &mut String,
    scenario: &str,
    schedule: &str,
) -> Result<Verdict, EngineFault> {
    let mut first = Told::new(scenario, open(rt, hints, scenario)?);
    let mut second = Told::new(schedule, open(rt, hints, schedule)?);
    let mut writer = Told::new(OUTPUT, io::writer(rt));
    let alloc = rt.alloc();
    let ended = step_files_engine(alloc, &mut first, &mut second, &mut writer, hints, schedule);
    answer_with(hints, ended, failed_of(&first, &second), &writer)
}

/// Runs the scenario in the file on so many threads, with bursts of so many instructions at most, and
/// answers on standard output.
pub fn run_threads<R: AllocGlobal + Files + Print + Threads + Wait + Sync>(
    rt: &R,
    hints: &mut String,
    scenario: &str,
    workers: u32,
    limit: u64,
    burst: u32,
) -> Result<Verdict, EngineFault>
    requires { limit ≤ MOST_ITEMS }
{
    let mut reader = Told::new(scenario, open(rt, hints, scenario)?);
    let mut writer = Told::new(OUTPUT, io::writer(rt));
    let ended = run_engine(
        rt,
        rt.alloc(),
        &mut reader,
        &mut writer,
        hints,
        workers,
        limit,
        burst,
    );
    answer_with(hints, ended, &reader, &writer)
}

/// Searches all orders of the scenario in the file for what is asked, and answers on standard output. Standard
/// error says how many worlds were met.
pub fn explore<R: AllocGlobal + Eprint + Files + Print>(
    rt: &R,
    hints: &mut String,
    scenario: &str,
    asked: Sought,
) -> Result<Verdict, EngineFault> {
    let mut reader = Told::new(scenario, open(rt, hints, scenario)?);
    let mut writer = Told::new(OUTPUT, io::writer(rt));
    let mut progress = OnError { rt };
    let ended = explore_engine(
        rt.alloc(),
        &mut reader,
        &mut writer,
        &mut progress,
        hints,
        asked,
    );
    answer_with(hints, ended, &reader, &writer)
}

/// Replays the trace in one file from the scenario in the other, and answers on standard output.
pub fn replay<R: AllocGlobal + Files + Print>(
    rt: &R,
    hints: &mut String,
    scenario: &str,
    trace: &str,
) -> Result<Verdict, EngineFault> {
    let mut first = Told::new(scenario, open(rt, hints, scenario)?);
    let mut second = Told::new(trace, open(rt, hints, trace)?);
    let mut writer = Told::new(OUTPUT, io::writer(rt));
    let ended = replay_engine(rt.alloc(), &mut first, &mut second, &mut writer, hints);
    answer_with(hints, ended, failed_of(&first, &second), &writer)
}

/// Says at which of its streams the answer failed, if it did.
fn answer_with<R: Drop, W: Drop>(
    hints: &mut String,
    ended: Result<Verdict, EngineFault>,
    input: &Told<'_, R>,
    output: &Told<'_, W>,
) -> Result<Verdict, EngineFault> {
    match &ended {
        Err(EngineFault::Read) => input.explain(hints),
        Err(EngineFault::Write) => output.explain(hints),
        _ => {}
    }
    ended
}

/// Of two inputs the one that failed: the first, if it did.
fn failed_of<'a, 'b, T: Drop>(first: &'a Told<'b, T>, second: &'a Told<'b, T>) -> &'a Told<'b, T> {
    if first.has_failed() { first } else { second }
}

/// Opens the file to be read.
fn open<R: Files>(rt: &R, hints: &mut String, path: &str) -> Result<R::File, EngineFault> {
    match fs::open(rt, path) {
        Ok(file) => Ok(file),
        Err(reason) => {
            explain_opening(hints, path, reason);
            Err(EngineFault::Read)
        }
    }
}

/// Whether the open file is a plain one that the path names too.
fn is_same_file<R: Files>(rt: &R, file: &R::File, path: &str) -> bool {
    match (file.metadata(), fs::metadata(rt, path)) {
        (Ok(open), Ok(named)) => {
            open.is_file() && open.dev() == named.dev() && open.ino() == named.ino()
        }
        _ => false,
    }
}
