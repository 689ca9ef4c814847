//! The engine: an input is read, and its answer written.
ghost use Rattle.std.specs.Prelude.{◌≡◌, ◌≢◌, [], slice_index_or, Some, IfOk, IfErr, OnOk, OnErr};
ghost use Rattle.std.specs.Io.KnownBytes.{Appends};
ghost use Rattle.zlab.specs.Engine.{AnswersReader, BeginsReader, AnswersInput, BeginsInput, Answers, BeginsAnswer, Starts, WritesRun, BeginsRun, line_cause};
ghost use Rattle.zlab.specs.Input.{FitsInput, IsBounded, TakesNoMore};
ghost use Rattle.zl_scenario.specs.Causes.{cause_name};
ghost use Rattle.zlab.specs.Text.{refused_line};
ghost use Rattle.zl_trace.specs.Output.{AppendsBeginning};

use crate::fault::{EngineFault, Verdict};
use crate::hints::explain_run;
use crate::input::{Input, read_input};
use crate::text::push_refusal;
use std::alloc::Global;
use std::io::{Read, Write};
use zl_code::{BootCause, BootFault};
use zl_explain::{STANDARD_INPUT, Source, explain_scenario};
use zl_rights::Pid;
use zl_scenario::{Cause, LineFault, PlacedFault, Reading, Scenario, read_scenario};
use zl_sched::{End, System};
use zl_trace::{empty_block, write_all};

/// Reads a scenario with a schedule, and writes the trace along the schedule or the line of the
/// first fault. All input is read before anything is written.
///
/// The trace is the text of a legal history, in each world of which handles are sound and name
/// objects of their kind. It is the lab's own: from the lab's boot world on, each item is what the lab
/// itself does next, or a call that wanted memory. It has as many items as the scenario's limit at
/// most, and no more is read than one byte past 4,194,304. To `hints` it adds for a person why the
/// input is refused, and of a run that the trace is full, that there are no turns or whose are of nobody,
/// why each stuck process is stuck, and that nobody can go on.
/// A fault of the reader is `Read`, with nothing written. A fault of the writer, and a want of memory,
/// leave nothing or a beginning of such an answer.
pub fn step_engine<R: Read, W: Write>(
    alloc: Global,
    reader: &mut R,
    writer: &mut W,
    hints: &mut String,
) -> Result<Verdict, EngineFault>
    ensures ok { IfOk result (λ verdict. AnswersReader (R.remaining reader.old) verdict
        (W.contents writer.old) (W.contents writer.new)) }
    ensures err { OnErr result (BeginsReader (R.remaining reader.old) (W.contents writer.old)
        (W.contents writer.new)) }
    ensures read { IfErr result (λ fault. fault ≡ EngineFault.Read → W.contents writer.new
        ≡ W.contents writer.old) }
    ensures taken { TakesNoMore (R.remaining reader.old) (R.remaining reader.new) }
{
    let input = read_input(alloc, reader)?;
    answer_input(alloc, writer, hints, STANDARD_INPUT, input)
}

/// Answers what was read.
pub(crate) fn answer_input<W: Write>(
    alloc: Global,
    writer: &mut W,
    hints: &mut String,
    source: Source<'_>,
    input: Input,
) -> Result<Verdict, EngineFault>
    requires { IsBounded input }
    ensures ok { IfOk result (λ verdict. AnswersInput input verdict (W.contents writer.old)
        (W.contents writer.new)) }
    ensures err { OnErr result (BeginsInput input (W.contents writer.old)
        (W.contents writer.new)) }
    ensures fault { IfErr result (λ fault. fault ≢ EngineFault.Read) }
{
    match input {
        Input::Text(text) => answer(alloc, writer, hints, source, text.as_slice()),
        Input::TooLong => {
            let fault = TOO_LONG.alone();
            let ended = write_refusal(alloc, writer, &fault);
            explain_scenario(hints, alloc, source, &[], &fault);
            ended
        }
    }
}

/// The fault of an input of too many bytes.
pub const TOO_LONG: LineFault = LineFault {
    line: 0,
    cause: Cause::Limit,
};

/// What reading and booting lead to.
#[derive(Drop)]
enum Booted {
    Runs(System, Vec<(Pid, u32)>),
    Refused(PlacedFault),
}

fn answer<W: Write>(
    alloc: Global,
    writer: &mut W,
    hints: &mut String,
    source: Source<'_>,
    text: &[u8],
) -> Result<Verdict, EngineFault>
    requires fits { FitsInput text.now }
    ensures ok { IfOk result (λ verdict. Answers text.now verdict (W.contents writer.old)
        (W.contents writer.new)) }
    ensures err { OnErr result (BeginsAnswer text.now (W.contents writer.old)
        (W.contents writer.new)) }
    ensures fault { IfErr result (λ fault. fault ≢ EngineFault.Read) }
{
    match boot(alloc, text)? {
        Booted::Runs(mut system, schedule) => {
            let mut end = End::Schedule;
            let ended = write_run(alloc, writer, &mut system, schedule.as_slice(), &mut end);
            explain_run(
                hints,
                alloc,
                source,
                text,
                &system,
                schedule.as_slice(),
                end,
            );
            ended
        }
        Booted::Refused(fault) => {
            let ended = write_refusal(alloc, writer, &fault);
            explain_scenario(hints, alloc, source, text, &fault);
            ended
        }
    }
}

/// Reads the text and boots what it says. A fault of booting is in an earlier line than one of
/// reading.
fn boot(alloc: Global, text: &[u8]) -> Result<Booted, EngineFault>
    requires fits { FitsInput text.now }
    ensures ok { IfOk result (Starts text.now) }
    ensures err { IfErr result (λ fault. fault ≡ EngineFault.NoMemory) }
{
    let Reading { scenario, fault } = read_scenario(alloc, text)?;
    let Scenario {
        library,
        boot,
        lines,
        schedule,
        ..
    } = scenario;
    match System::boot(alloc, library, boot) {
        Err(refused) => Ok(Booted::Refused(fault_of_boot(lines.as_slice(), refused)?)),
        Ok(system) => Ok(match fault {
            Some(fault) => Booted::Refused(fault),
            None => Booted::Runs(system, schedule),
        }),
    }
}

/// The fault of the line of a statement, by the lines of all statements.
pub fn fault_of_boot(lines: &[u64], refused: BootFault) -> Result<PlacedFault, EngineFault>
    ensures cause { IfOk result (λ fault. line_cause refused.cause ≡ Some fault.cause) }
    ensures line { IfOk result (λ fault.
        fault.line ≡ slice_index_or lines.now refused.statement 0) }
    ensures err { IfErr result (λ fault. (fault ≡ EngineFault.NoMemory)
        × (refused.cause ≡ BootCause.NoMemory)) }
{
    let cause = cause_of_boot(refused.cause)?;
    let line = lines.get(refused.statement).copied().unwrap_or(0);
    Ok(LineFault { line, cause }.alone())
}

fn cause_of_boot(cause: BootCause) -> Result<Cause, EngineFault>
    ensures ok { IfOk result (λ found. line_cause cause ≡ Some found) }
    ensures err { IfErr result (λ fault. (fault ≡ EngineFault.NoMemory)
        × (cause ≡ BootCause.NoMemory)) }
{
    match cause {
        BootCause::BadHandleList => Ok(Cause::BadHandleList),
        BootCause::NeedDenied => Ok(Cause::NeedDenied),
        BootCause::Limit => Ok(Cause::Limit),
        BootCause::NoMemory => Err(EngineFault::NoMemory),
        BootCause::Unknown => Ok(Cause::Unknown),
        BootCause::BadState => Ok(Cause::BadState),
        BootCause::Conflict => Ok(Cause::Conflict),
    }
}

pub(crate) fn write_refusal<W: Write>(
    alloc: Global,
    writer: &mut W,
    fault: &PlacedFault,
) -> Result<Verdict, EngineFault>
    ensures verdict { IfOk result (λ verdict. verdict ≡ Verdict.Refused) }
    ensures ok { OnOk result (Appends (W.contents writer.old) (W.contents writer.new)
        (refused_line fault.now.line (cause_name fault.now.cause))) }
    ensures err { OnErr result (AppendsBeginning (W.contents writer.old) (W.contents writer.new)
        (refused_line fault.now.line (cause_name fault.now.cause))) }
    ensures fault { IfErr result (λ fault. fault ≢ EngineFault.Read) }
    ensures mixed { IfErr result (λ fault. fault ≢ EngineFault.Mixed) }
{
    let fault = fault.fault();
    let mut line = String::new(alloc);
    push_refusal(&mut line, fault.line, fault.cause.name())?;
    write_all(writer, line.as_bytes())?;
    Ok(Verdict::Refused)
}

/// Runs along the schedule and writes the trace; how the run ended is put into `reached`. No process may
/// be out. The block is made first, so that a trace that ends for want of memory can still be written.
fn write_run<W: Write>(
    alloc: Global,
    writer: &mut W,
    system: &mut System,
    schedule: &[(Pid, u32)],
    reached: &mut End,
) -> Result<Verdict, EngineFault>
    requires { system.old.out ≡ [] }
    ensures verdict { IfOk result (λ verdict. verdict ≡ Verdict.Done) }
    ensures ok { OnOk result (WritesRun system.old schedule.now (W.contents writer.old)
        (W.contents writer.new)) }
    ensures err { OnErr result (BeginsRun system.old schedule.now (W.contents writer.old)
        (W.contents writer.new)) }
    ensures fault { IfErr result (λ fault. fault ≢ EngineFault.Read) }
{
    let mut block = empty_block(alloc)?;
    let end = system.step_all(schedule);
    *reached = end;
    zl_trace::text(system, end, &mut block, writer)?;
    Ok(Verdict::Done)
}
