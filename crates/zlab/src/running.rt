//! The engine of a run on threads: a scenario is read, and the trace written that came about.
ghost use Rattle.std.specs.Prelude.{ℕ, ◌≡◌, ◌≢◌, ◌≤◌, List, IfOk, IfErr, OnOk, OnErr};
ghost use Rattle.zl_code.specs.Common.{MOST_ITEMS};
ghost use Rattle.zlab.specs.Input.{FitsInput, Holds, IsBounded, TakesNoMore};
ghost use Rattle.zlab.specs.Running.{AnswersRun, BeginsRunAnswer, BeginsThreads, StartsAlone, WritesThreads, end_named};

use crate::engine::{TOO_LONG, fault_of_boot, write_refusal};
use crate::fault::{EngineFault, Verdict};
use crate::hints::{explain_nothing, explain_threads};
use crate::input::{Input, read_input};
use crate::replaying::{alone, statement_fault};
use std::alloc::Global;
use std::io::{Read, Write};
use std::sync::Wait;
use std::thread::Threads;
use zl_code::Boot;
use zl_explain::{LONE_SCENARIO, explain_scenario};
use zl_pool::{Direct, RunEnd};
use zl_scenario::{PlacedFault, Reading, Scenario, read_scenario};
use zl_sched::{End, System};
use zl_trace::empty_block;

/// What a scenario leads to.
#[derive(Drop)]
pub enum Started {
    /// Before its first step.
    Ready(System),
    /// The scenario has this fault.
    Refused(PlacedFault),
}

/// Reads a scenario, in which a line `--` is a fault, runs it on so many worker threads, of which 0
/// count as 1, with so many local instructions in a burst at most, of which 0 count as 1 too, and writes
/// the trace that came about or the line of the first fault. All input is read before anything is
/// written.
///
/// The trace is the text of a legal history, in each world of which handles are sound and name objects
/// of their kind, and in which each process of a checked program goes well. It is the lab's own, as that
/// of `step_engine` is. It has no more items than `limit`, which stands for that of the scenario. It
/// says `end quiet` only where no process is ready, and `end limit` only where less than two places are
/// free. No more is read than one byte past 4,194,304. To `hints` it adds for a person why the input is
/// refused, and of a run what `step_engine` does.
/// A fault of the reader is `Read`, and `Mixed` says that the run gave back another system; nothing is
/// written then. A fault of the writer, and a want of memory, leave nothing or a beginning of such an
/// answer.
///
/// It may wait, and that it returns no clause says.
pub fn run_engine<P: Threads + Wait + Sync, R: Read, W: Write>(
    rt: &P,
    alloc: Global,
    reader: &mut R,
    writer: &mut W,
    hints: &mut String,
    workers: u32,
    limit: u64,
    burst: u32,
) -> Result<Verdict, EngineFault>
    requires limit { limit ≤ MOST_ITEMS }
    ensures ok { IfOk result (λ verdict. AnswersRun (R.remaining reader.old) limit verdict
        (W.contents writer.old) (W.contents writer.new)) }
    ensures err { OnErr result (BeginsRunAnswer (R.remaining reader.old) limit
        (W.contents writer.old) (W.contents writer.new)) }
    ensures read { IfErr result (λ fault. fault ≡ EngineFault.Read → W.contents writer.new
        ≡ W.contents writer.old) }
    ensures mixed { IfErr result (λ fault. fault ≡ EngineFault.Mixed → W.contents writer.new
        ≡ W.contents writer.old) }
    ensures taken { TakesNoMore (R.remaining reader.old) (R.remaining reader.new) }
{
    let input = read_input(alloc, reader)?;
    match start(alloc, &input, limit, hints)? {
        Started::Ready(system) => {
            write_threads(rt, alloc, writer, hints, system, workers, burst)
        }
        Started::Refused(fault) => write_refusal(alloc, writer, &fault),
    }
}

/// What the scenario that was read leads to.
fn start(
    alloc: Global,
    input: &Input,
    limit: u64,
    hints: &mut String,
) -> Result<Started, EngineFault>
    requires bounded { IsBounded input.now }
    requires limit { limit ≤ MOST_ITEMS }
    ensures ok { IfOk result (λ started. (text : List ℕ) → Holds text input.now
        → StartsAlone text limit started) }
    ensures err { IfErr result (λ fault. fault ≡ EngineFault.NoMemory) }
{
    match input {
        Input::Text(text) => {
            let started = boot_alone(alloc, text.as_slice(), limit)?;
            match &started {
                Started::Ready(_) => explain_nothing(hints, text.as_slice()),
                Started::Refused(fault) => {
                    explain_scenario(hints, alloc, LONE_SCENARIO, text.as_slice(), fault)
                }
            }
            Ok(started)
        }
        Input::TooLong => {
            let fault = TOO_LONG.alone();
            explain_scenario(hints, alloc, LONE_SCENARIO, &[], &fault);
            Ok(Started::Refused(fault))
        }
    }
}

/// What the scenario in the text leads to, with this limit in place of its own.
fn boot_alone(alloc: Global, text: &[u8], limit: u64) -> Result<Started, EngineFault>
    requires fits { FitsInput text.now }
    requires limit { limit ≤ MOST_ITEMS }
    ensures ok { IfOk result (StartsAlone text.now limit) }
    ensures err { IfErr result (λ fault. fault ≡ EngineFault.NoMemory) }
{
    let Reading { scenario, fault } = read_scenario(alloc, text)?;
    if let Some(fault) = alone(scenario.schedule_line, fault) {
        let earlier = statement_fault(alloc, scenario)?;
        return Ok(Started::Refused(earlier.unwrap_or(fault)));
    }
    let Scenario {
        library,
        boot: Boot { statements, .. },
        lines,
        ..
    } = scenario;
    match System::boot(alloc, library, Boot { statements, limit }) {
        Ok(system) => Ok(Started::Ready(system)),
        Err(refused) => Ok(Started::Refused(fault_of_boot(lines.as_slice(), refused)?)),
    }
}

/// Runs the system on so many workers and writes the trace that came about. The block is made first, so
/// that a trace that ends for want of memory can still be written.
fn write_threads<P: Threads + Wait + Sync, W: Write>(
    rt: &P,
    alloc: Global,
    writer: &mut W,
    hints: &mut String,
    system: System,
    workers: u32,
    burst: u32,
) -> Result<Verdict, EngineFault>
    ensures verdict { IfOk result (λ verdict. verdict ≡ Verdict.Done) }
    ensures ok { OnOk result (WritesThreads system (W.contents writer.old)
        (W.contents writer.new)) }
    ensures err { OnErr result (BeginsThreads system (W.contents writer.old)
        (W.contents writer.new)) }
    ensures fault { IfErr result (λ fault. fault ≢ EngineFault.Read) }
    ensures mixed { IfErr result (λ fault. fault ≡ EngineFault.Mixed → W.contents writer.new
        ≡ W.contents writer.old) }
{
    let mut block = empty_block(alloc)?;
    let (last, ended) = zl_pool::run_in_bursts(rt, system, workers, &Direct, burst);
    let Some(end) = end_named(ended) else {
        return Err(EngineFault::Mixed);
    };
    explain_threads(hints, alloc, &last, end);
    zl_trace::text(&last, end, &mut block, writer)?;
    Ok(Verdict::Done)
}

/// The end that a trace has where the run ended so; there is no trace of another system.
fn end_named(ended: RunEnd) -> Option<End>
    ensures { result ≡ end_named ended }
{
    match ended {
        RunEnd::Quiet => Some(End::Quiet),
        RunEnd::Limit => Some(End::Limit),
        RunEnd::NoMemory => Some(End::Memory),
        RunEnd::Mixed => None,
    }
}
