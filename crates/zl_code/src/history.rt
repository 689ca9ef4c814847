ghost use Rattle.std.specs.Prelude.{◌≡◌, ◌↔◌, IsTrue};

use zl_rights::{Pid, Status};

/// The name of a system call.
///
/// Source: the pages of the system calls in the Fuchsia documentation, as "zx_handle_close" of
/// `Close`; the names here are own profile.
#[derive(Clone, Copy)]
pub enum CallName {
    Close,
    Dup,
    Replace,
    ChanCreate,
    ChanWrite,
    ChanReadEtc,
    EventCreate,
    Signal,
    SignalPeer,
    WaitOne,
    WaitPoll,
    WaitAsync,
    PortCreate,
    PortQueue,
    PortWait,
    PortPoll,
    PortCancel,
    ProcessCreate,
    ProcessStart,
    ProcessExit,
    TaskKill,
    JobCreate,
    JobSetPolicy,
    EventpairCreate,
    ChanWriteSlots,
    ChanReadSlots,
    HandleInfo,
}

/// How a system call ends. Own profile.
#[derive(Clone, Copy)]
pub enum Outcome {
    /// It is answered with this status.
    Answered(Status),
    /// Its process waits.
    Blocked,
    /// Its process ends with this code.
    Ended(i32),
}

impl Outcome {
    /// Whether the other call ended alike.
    pub fn is_same(self, other: Outcome) -> bool
        ensures { IsTrue result ↔ self ≡ other }
    {
        match (self, other) {
            (Outcome::Answered(status), Outcome::Answered(other_status)) => status == other_status,
            (Outcome::Blocked, Outcome::Blocked) => true,
            (Outcome::Ended(code), Outcome::Ended(other_code)) => code == other_code,
            _ => false,
        }
    }
}

/// One item of a trace. Own profile.
#[derive(Clone, Copy)]
pub enum TraceItem {
    /// So many local instructions in a row, at least one.
    Run {
        pid: Pid,
        count: u32,
    },
    /// A system call.
    Call {
        pid: Pid,
        call: CallName,
        outcome: Outcome,
    },
    /// An instruction that can't be done; its process ends.
    Stuck {
        pid: Pid,
    },
}

impl TraceItem {
    /// Whether the other item is the same.
    pub fn is_same(self, other: TraceItem) -> bool
        ensures { IsTrue result ↔ self ≡ other }
    {
        match (self, other) {
            (
                TraceItem::Run { pid, count },
                TraceItem::Run {
                    pid: other_pid,
                    count: other_count,
                },
            ) => pid == other_pid && count == other_count,
            (
                TraceItem::Call { pid, call, outcome },
                TraceItem::Call {
                    pid: other_pid,
                    call: other_call,
                    outcome: other_outcome,
                },
            ) => pid == other_pid && call.is_same(other_call) && outcome.is_same(other_outcome),
            (TraceItem::Stuck { pid }, TraceItem::Stuck { pid: other_pid }) => pid == other_pid,
            _ => false,
        }
    }
}

/// Whether both have the same items in the same order. Own profile.
pub fn are_same_items(one: &[TraceItem], other: &[TraceItem]) -> bool
    ensures { IsTrue result ↔ one.now ≡ other.now }
{
    if one.len() != other.len() {
        return false;
    }
    for n in 0..one.len() {
        if !one[n].is_same(other[n]) {
            return false;
        }
    }
    true
}

/// What a process is in, as a trace tells it. Own profile.
#[derive(Clone, Copy)]
pub enum ProcState {
    Created,
    Ready,
    Blocked,
    Ended(i32),
    Gone,
}
