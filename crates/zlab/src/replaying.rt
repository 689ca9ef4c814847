//! The engine of the replay: a scenario and a trace are read, and the line written that says whether the
//! trace is replayed from the scenario.
ghost use Rattle.std.specs.Prelude.{ℕ, ◌≡◌, ◌≢◌, ◌++◌, List, IfOk, IfErr, IfSome, IfNone, OnOk, OnErr, string_bytes};
ghost use Rattle.std.specs.Io.KnownBytes.{Appends};
ghost use Rattle.zl_trace.specs.Output.{AppendsBeginning};
ghost use Rattle.zl_code.specs.Common.{IsBoot, World as WorldValue};
ghost use Rattle.zlab.specs.Input.{FitsInput, Holds, IsBounded, TakesNoMore};
ghost use Rattle.zlab.specs.Replay.{AnswersReplay, AreItems, BeginsReplay, Comes, IsStatementFault, IsTrueOf, TakesTrace, alone as fault_where_alone, replayed_line, trace_front, verdict_of as ends};

use crate::engine::{TOO_LONG, fault_of_boot};
use crate::fault::{EngineFault, Verdict};
use crate::hints::{explain_difference, explain_items, explain_line};
use crate::input::{Input, read_front, read_input};
use crate::text::{push_refusal, push_trace_refusal};
use std::alloc::{AllocError, Global};
use std::io::{Read, Write};
use zl_calls::World;
use zl_code::TraceItem;
use zl_explain::{LONE_SCENARIO, explain_scenario};
use zl_scenario::{Cause, LineFault, PlacedFault, Reading, Scenario, read_scenario};
use zl_trace::{ReadFault, ReplayFault, read_bytes, replay, write_all};

/// The most bytes of a trace.
const MOST_TRACE: usize = 134_217_728;

/// What a scenario and a trace lead to.
#[derive(Drop)]
pub enum Replayed {
    /// All items of the trace, so many, are a legal history.
    All(usize),
    /// Behind the items before that of this place, from 1, its process isn't ready, or its own step
    /// has another item; or the item is one too many.
    Differs(usize),
    /// The scenario has this fault.
    Refused(PlacedFault),
    /// The trace has it.
    RefusedTrace(LineFault),
}

/// The items of a trace, or why it has none.
#[derive(Drop)]
enum Items {
    All(Vec<TraceItem>),
    Faulty(LineFault),
}

/// Reads a scenario, in which a line `--` is a fault, and a trace, and writes to `line` what comes of
/// them: `replayed N` where the N items of the trace are a legal history from a boot world of the
/// scenario, and the lab's own, `differs N` where item N, from 1, is the first that the lab's own steps
/// don't give, as `replay` says, `refused LINE FAULT` for the first fault of the scenario, and else
/// `refused trace LINE Syntax` for the first line of the trace that is to be an item's and isn't, or
/// `refused trace 0 Limit` for more than 134,217,728 bytes. The scenario's limit is none of the trace:
/// it may have 1,000,000 items, and the next one differs. All input is read before anything is written,
/// and no more than one byte past its limit. To `hints` it adds for a person why the answer is none of
/// the first, or that the trace has no items.
///
/// A fault of a reader is `Read`, with nothing written. A fault of the writer, and a want of memory,
/// leave nothing or a beginning of such a line.
pub fn replay_engine<R: Read, T: Read, W: Write>(
    alloc: Global,
    scenario: &mut R,
    trace: &mut T,
    line: &mut W,
    hints: &mut String,
) -> Result<Verdict, EngineFault>
    ensures ok { IfOk result (λ verdict. AnswersReplay (R.remaining scenario.old)
        (T.remaining trace.old) verdict (W.contents line.old) (W.contents line.new)) }
    ensures err { OnErr result (BeginsReplay (R.remaining scenario.old) (T.remaining trace.old)
        (W.contents line.old) (W.contents line.new)) }
    ensures read { IfErr result (λ fault. fault ≡ EngineFault.Read
        → W.contents line.new ≡ W.contents line.old) }
    ensures taken { TakesNoMore (R.remaining scenario.old) (R.remaining scenario.new) }
    ensures taken_trace { TakesTrace (T.remaining trace.old) (T.remaining trace.new) }
{
    let input = read_input(alloc, scenario)?;
    let front = read_front(alloc, trace, MOST_TRACE + 1)?;
    let found = found_in(alloc, &input, front.as_slice(), hints)?;
    write_found(alloc, line, &found)?;
    Ok(verdict_of(&found))
}

/// What comes of the scenario that was read, and of the trace, where these are the first of its bytes.
fn found_in(
    alloc: Global,
    input: &Input,
    front: &[u8],
    hints: &mut String,
) -> Result<Replayed, EngineFault>
    requires bounded { IsBounded input.now }
    ensures ok { IfOk result (λ found. (text trace : List ℕ) → Holds text input.now
        → front.now ≡ trace_front trace → IsTrueOf text trace found) }
    ensures err { IfErr result (λ fault. fault ≡ EngineFault.NoMemory) }
{
    match input {
        Input::Text(text) => {
            let found = compare(alloc, text.as_slice(), front)?;
            explain(hints, alloc, text.as_slice(), front, &found);
            Ok(found)
        }
        Input::TooLong => {
            let fault = TOO_LONG.alone();
            explain_scenario(hints, alloc, LONE_SCENARIO, &[], &fault);
            Ok(Replayed::Refused(fault))
        }
    }
}

/// Says why the items aren't all replayed, or that there are none.
fn explain(hints: &mut String, alloc: Global, text: &[u8], front: &[u8], found: &Replayed) {
    match found {
        Replayed::All(count) => explain_items(hints, *count),
        Replayed::Differs(number) => explain_difference(hints, alloc, text, front, *number),
        Replayed::Refused(fault) => explain_scenario(hints, alloc, LONE_SCENARIO, text, fault),
        Replayed::RefusedTrace(fault) => explain_line(hints, alloc, front, fault.line),
    }
}

/// What comes of the scenario in the text, and of the trace.
fn compare(alloc: Global, text: &[u8], front: &[u8]) -> Result<Replayed, EngineFault>
    requires fits { FitsInput text.now }
    ensures ok { IfOk result (λ found. (trace : List ℕ) → front.now ≡ trace_front trace
        → IsTrueOf text.now trace found) }
    ensures err { IfErr result (λ fault. fault ≡ EngineFault.NoMemory) }
{
    let Reading { scenario, fault } = read_scenario(alloc, text)?;
    match alone(scenario.schedule_line, fault) {
        Some(fault) => match statement_fault(alloc, scenario)? {
            Some(earlier) => return Ok(Replayed::Refused(earlier)),
            None => return Ok(Replayed::Refused(fault)),
        },
        None => match read_items(alloc, front)? {
            Items::Faulty(fault) => match statement_fault(alloc, scenario)? {
                Some(first) => return Ok(Replayed::Refused(first)),
                None => return Ok(Replayed::RefusedTrace(fault)),
            },
            Items::All(items) => replay_items(alloc, scenario, items.as_slice()),
        },
    }
}

/// The fault of reading where the scenario stands alone: the line of a schedule, if there is one, which
/// is before the other fault.
pub(crate) fn alone(schedule_line: Option<u64>, fault: Option<PlacedFault>) -> Option<PlacedFault>
    ensures { result ≡ fault_where_alone schedule_line fault }
{
    match schedule_line {
        Some(line) => {
            let fault = LineFault {
                line,
                cause: Cause::Syntax,
            };
            Some(fault.alone())
        }
        None => fault,
    }
}

/// The first fault of the scenario's statements, if they have one.
pub(crate) fn statement_fault(
    alloc: Global,
    scenario: Scenario,
) -> Result<Option<PlacedFault>, EngineFault>
    ensures found { IfOk result (λ found. IfSome found (IsStatementFault scenario.library
        scenario.boot.statements.items scenario.boot.limit scenario.lines.items)) }
    ensures none { IfOk result (λ found. IfNone found ((w : WorldValue)
        × IsBoot scenario.library scenario.boot.statements.items w)) }
    ensures err { IfErr result (λ fault. fault ≡ EngineFault.NoMemory) }
{
    let Scenario {
        library,
        boot,
        lines,
        ..
    } = scenario;
    match World::boot(alloc, library, &boot) {
        Ok(_) => Ok(None),
        Err(refused) => Ok(Some(fault_of_boot(lines.as_slice(), refused)?)),
    }
}

/// The items of the trace, where these are the first of its bytes.
fn read_items(alloc: Global, front: &[u8]) -> Result<Items, EngineFault>
    ensures ok { IfOk result (λ items. (trace : List ℕ) → front.now ≡ trace_front trace
        → AreItems trace items) }
    ensures err { IfErr result (λ fault. fault ≡ EngineFault.NoMemory) }
{
    if front.len() > MOST_TRACE {
        return Ok(Items::Faulty(TOO_LONG));
    }
    match read_bytes(alloc, front) {
        Ok(items) => Ok(Items::All(items)),
        Err(ReadFault::Syntax(line)) => Ok(Items::Faulty(LineFault {
            line,
            cause: Cause::Syntax,
        })),
        Err(ReadFault::NoMemory) => Err(EngineFault::NoMemory),
    }
}

/// What comes of the items after a boot of the scenario.
fn replay_items(
    alloc: Global,
    scenario: Scenario,
    items: &[TraceItem],
) -> Result<Replayed, EngineFault>
    ensures ok { IfOk result (Comes scenario.library scenario.boot.statements.items
        scenario.boot.limit scenario.lines.items items.now) }
    ensures err { IfErr result (λ fault. fault ≡ EngineFault.NoMemory) }
{
    let Scenario {
        library,
        boot,
        lines,
        ..
    } = scenario;
    match replay(alloc, library, boot, items) {
        Ok(_) => Ok(Replayed::All(items.len())),
        Err(ReplayFault::At(number)) => Ok(Replayed::Differs(number)),
        Err(ReplayFault::Boot(refused)) => {
            Ok(Replayed::Refused(fault_of_boot(lines.as_slice(), refused)?))
        }
    }
}

/// How the engine ends.
fn verdict_of(found: &Replayed) -> Verdict
    ensures { result ≡ ends found.now }
{
    match found {
        Replayed::All(_) => Verdict::Done,
        Replayed::Differs(_) | Replayed::Refused(_) | Replayed::RefusedTrace(_) => Verdict::Refused,
    }
}

/// Writes the line of what was found.
fn write_found<W: Write>(alloc: Global, writer: &mut W, found: &Replayed) -> Result<(), EngineFault>
    ensures ok { OnOk result (Appends (W.contents writer.old) (W.contents writer.new)
        (replayed_line found.now)) }
    ensures err { OnErr result (AppendsBeginning (W.contents writer.old) (W.contents writer.new)
        (replayed_line found.now)) }
    ensures fault { IfErr result (λ fault. fault ≢ EngineFault.Read) }
{
    let mut line = String::new(alloc);
    push_found(&mut line, found)?;
    write_all(writer, line.as_bytes())?;
    Ok(())
}

/// Adds the line of what was found. Where memory is refused, a beginning of the line may stand there.
fn push_found(text: &mut String, found: &Replayed) -> Result<(), AllocError>
    ensures { OnOk result (string_bytes text.new ≡ string_bytes text.old
        ++ replayed_line found.now) }
{
    match found {
        Replayed::All(count) => write!(text, "replayed {count}\n"),
        Replayed::Differs(number) => write!(text, "differs {number}\n"),
        Replayed::Refused(fault) => {
            let fault = fault.fault();
            push_refusal(text, fault.line, fault.cause.name())
        }
        Replayed::RefusedTrace(fault) => {
            push_trace_refusal(text, fault.line, fault.cause.name())
        }
    }
}
