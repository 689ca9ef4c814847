//! The lines of a trace: one for each item, for the state of each process, and for the end.
ghost use Rattle.std.specs.Prelude.{◌≡◌, ◌++◌, OnOk, string_bytes};
ghost use Rattle.std.specs.Fmt.{decimal};
ghost use Rattle.zl_trace.specs.Text.{call_line, item_line, state_line, end_line};

use itoa::Buffer;
use std::alloc::AllocError;
use zl_code::{CallName, Outcome, ProcState, TraceItem};
use zl_rights::{Pid, Status};
use zl_sched::End;

/// Adds the line of an item. Where memory is refused, a beginning of the line may stand there.
///
/// Source: own profile.
pub fn push_item(text: &mut String, item: TraceItem) -> Result<(), AllocError>
    ensures { OnOk result (string_bytes text.new ≡ string_bytes text.old ++ item_line item) }
{
    match item {
        TraceItem::Run { pid, count } => push_run(text, pid, count),
        TraceItem::Call { pid, call, outcome } => push_call(text, pid, call, outcome),
        TraceItem::Stuck { pid } => write!(text, "{pid} stuck\n"),
    }
}

// Part of each turn's line.
#[tactic(auto, using(std::proofs::lemmas::Fmt::decimal_digit))]
#[inline(always)]
fn push_run(text: &mut String, pid: Pid, count: u32) -> Result<(), AllocError>
    ensures { OnOk result (string_bytes text.new
        ≡ string_bytes text.old ++ item_line (TraceItem.Run pid count)) }
{
    push_number(text, pid)?;
    if count == 1 {
        // The item of a step, as one piece.
        return text.push_str(" run 1\n");
    }
    text.push_str(" run ")?;
    push_number(text, u64::from(count))?;
    text.push_str("\n")
}

fn push_call(
    text: &mut String,
    pid: Pid,
    call: CallName,
    outcome: Outcome,
) -> Result<(), AllocError>
    ensures { OnOk result (string_bytes text.new ≡ string_bytes text.old ++ call_line pid call
        outcome) }
{
    push_number(text, pid)?;
    text.push_str(" ")?;
    text.push_str(call.name())?;
    match outcome {
        // The answer of nearly every call, as one piece.
        Outcome::Answered(Status::Ok) => text.push_str(" OK\n"),
        Outcome::Answered(status) => {
            text.push_str(" ")?;
            text.push_str(status.name())?;
            text.push_str("\n")
        }
        Outcome::Blocked => text.push_str(" blocked\n"),
        Outcome::Ended(code) => write!(text, " ended {code}\n"),
    }
}

/// Adds the decimal digits of the number, where there is one digit as a piece of its own.
#[tactic(auto, using(std::proofs::lemmas::Fmt::decimal_digit))]
#[inline(always)]
fn push_number(text: &mut String, number: u64) -> Result<(), AllocError>
    ensures { OnOk result (string_bytes text.new ≡ string_bytes text.old ++ decimal number) }
{
    if number < 10 {
        return text.push(char::from(b'0' + number as u8));
    }
    let mut digits = Buffer::new();
    text.push_str(digits.format(number))
}

/// Adds the line that says what a process is in. Where memory is refused, a beginning of the line may
/// stand there.
///
/// Source: own profile.
pub fn push_state(text: &mut String, pid: Pid, state: ProcState) -> Result<(), AllocError>
    ensures { OnOk result (string_bytes text.new ≡ string_bytes text.old ++ state_line pid state) }
{
    match state {
        ProcState::Created => write!(text, "process {pid} created\n"),
        ProcState::Ready => write!(text, "process {pid} ready\n"),
        ProcState::Blocked => write!(text, "process {pid} blocked\n"),
        ProcState::Ended(code) => write!(text, "process {pid} ended {code}\n"),
        ProcState::Gone => write!(text, "process {pid} gone\n"),
    }
}

/// Adds the last line of a trace. Where memory is refused, a beginning of it may stand there.
///
/// Source: own profile.
pub fn push_end(text: &mut String, end: End) -> Result<(), AllocError>
    ensures { OnOk result (string_bytes text.new ≡ string_bytes text.old ++ end_line end) }
{
    text.push_str(match end {
        End::Schedule => "end schedule\n",
        End::Limit => "end limit\n",
        End::Memory => "end memory\n",
        End::Quiet => "end quiet\n",
    })
}
