//! The step engine over two readers: one has a scenario, the other a schedule.
ghost use Rattle.std.specs.Prelude.{◌≡◌, ◌≢◌, IfOk, IfErr, OnOk, OnErr};
ghost use Rattle.zlab.specs.Files.{AnswersFiles, BeginsFiles, IsInputOfFiles, JoinsInputs, ended, is_ended};
ghost use Rattle.zlab.specs.Input.{Holds, IsBounded, TakesNoMore};

use crate::engine::answer_input;
use crate::fault::{EngineFault, Verdict};
use crate::input::{Input, MOST_INPUT, read_input};
use std::alloc::{AllocError, Global};
use std::io::{Read, Write};
use zl_explain::Source;

/// Does what `step_engine` does, with the scenario from one reader and the schedule from another.
/// The input is the scenario, an end of its last line where it has none, a line `--`, and the
/// schedule.
///
/// Both are read, the scenario first, before anything is written, and of neither more than one byte
/// past 4,194,304. To `hints` it adds what `step_engine` does, with the schedule's own lines by the name
/// of its file.
/// A fault of a reader is `Read`, with nothing written. A fault of the writer, and a want of
/// memory, leave nothing or a beginning of such an answer.
pub fn step_files_engine<A: Read, B: Read, W: Write>(
    alloc: Global,
    scenario: &mut A,
    schedule: &mut B,
    writer: &mut W,
    hints: &mut String,
    schedule_name: &str,
) -> Result<Verdict, EngineFault>
    ensures ok { IfOk result (λ verdict. AnswersFiles (A.remaining scenario.old)
        (B.remaining schedule.old) verdict (W.contents writer.old) (W.contents writer.new)) }
    ensures err { OnErr result (BeginsFiles (A.remaining scenario.old) (B.remaining schedule.old)
        (W.contents writer.old) (W.contents writer.new)) }
    ensures read { IfErr result (λ fault. fault ≡ EngineFault.Read → W.contents writer.new
        ≡ W.contents writer.old) }
    ensures scenario_taken { TakesNoMore (A.remaining scenario.old) (A.remaining scenario.new) }
    ensures schedule_taken { TakesNoMore (B.remaining schedule.old) (B.remaining schedule.new) }
{
    let mut source = Source::with_schedule(schedule_name);
    let input = read_files(alloc, scenario, schedule, &mut source)?;
    answer_input(alloc, writer, hints, source, input)
}

/// Reads both texts to their ends, or one byte past `MOST_INPUT`, and joins them. `source` is told how
/// long the first one is.
fn read_files<A: Read, B: Read>(
    alloc: Global,
    scenario: &mut A,
    schedule: &mut B,
    source: &mut Source<'_>,
) -> Result<Input, EngineFault>
    ensures ok { IfOk result (IsInputOfFiles (A.remaining scenario.old)
        (B.remaining schedule.old)) }
    ensures err { IfErr result (λ fault. fault ≢ EngineFault.Write) }
    ensures scenario_taken { TakesNoMore (A.remaining scenario.old) (A.remaining scenario.new) }
    ensures schedule_taken { TakesNoMore (B.remaining schedule.old) (B.remaining schedule.new) }
{
    let first = read_input(alloc, scenario)?;
    if let Input::Text(text) = &first {
        source.keep_length(text.len());
    }
    let second = read_input(alloc, schedule)?;
    Ok(join(first, second)?)
}

/// The scenario and the schedule as one input, which is too long where one of them is.
fn join(scenario: Input, schedule: Input) -> Result<Input, AllocError>
    ensures { IfOk result (JoinsInputs scenario schedule) }
{
    let (Input::Text(mut text), Input::Text(turns)) = (scenario, schedule) else {
        return Ok(Input::TooLong);
    };
    end_last_line(&mut text)?;
    text.extend_from_slice(b"--\n")?;
    text.extend_from_slice(turns.as_slice())?;
    Ok(bounded(text))
}

/// Adds an end of the last line where it has none.
fn end_last_line(text: &mut Vec<u8>) -> Result<(), AllocError>
    ensures { OnOk result (text.new.items ≡ ended text.old.items) }
{
    if !is_ended(text.as_slice()) {
        text.extend_from_slice(b"\n")?;
    }
    Ok(())
}

/// Whether no line is left open at the end of the text.
fn is_ended(text: &[u8]) -> bool
    ensures { result ≡ is_ended text.now }
{
    text.last().copied().unwrap_or(b'\n') == b'\n'
}

/// The text as an input.
fn bounded(text: Vec<u8>) -> Input
    ensures { Holds text.items result }
{
    if text.len() <= MOST_INPUT {
        Input::Text(text)
    } else {
        Input::TooLong
    }
}
