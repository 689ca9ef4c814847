//! Patterns: items, what processes are in at an end, and what they are in or have in a world.

ghost use Rattle.std.specs.Prelude.{◌≡◌, ◌++◌, ◌↔◌, IfNone, IfOk, IfSome, IsTrue, OnOk, string_bytes};
ghost use Rattle.zl_explore.specs.Bad.{Fits, FitsOne, FitsState, IsCall, IsGoodEnd, IsOne, IsQuiet, IsState, NamesEnd, NamesItem, call_words, outcome_words, what_words, who_words, words_of};

use bitflags::Flags;
use std::alloc::{AllocError, Global};
use zl_code::{CallName, Outcome, ProcState, TraceItem};
use zl_rights::{Koid, Pid, Rights, Status};

/// A pattern: of an item, or of what a process is in or has.
///
/// Source: own profile.
#[derive(Clone, Copy)]
pub struct Bad {
    /// Of which process; of any where none is named.
    pub pid: Option<Pid>,
    pub what: What,
}

/// What a pattern names.
#[derive(Clone, Copy)]
pub enum What {
    /// Such a call, which ends so; any call and any outcome where none is named.
    Call {
        call: Option<CallName>,
        outcome: Option<Outcome>,
    },
    /// An instruction that can't be done.
    Stuck,
    /// At an end the process ended with this code.
    Ended(i32),
    /// At an end the process waits.
    Blocked,
    /// At an end the process was made and never started.
    Created,
    /// The process may go.
    Ready,
    /// The process has a handle to the object of this koid, with these rights at least.
    Has {
        koid: Koid,
        rights: Rights,
    },
}

impl Bad {
    /// Whether that is an item that may not be.
    pub fn names(self, item: TraceItem) -> bool
        ensures { IsTrue result ↔ Fits self item }
    {
        match item {
            TraceItem::Run { .. } => false,
            TraceItem::Call { pid, call, outcome } => {
                self.is_pid(pid) && self.what.is_call(call, outcome)
            }
            TraceItem::Stuck { pid } => self.is_pid(pid) && matches!(self.what, What::Stuck),
        }
    }

    /// Whether that is what the process may not be in at an end.
    pub fn names_state(self, pid: Pid, state: ProcState) -> bool
        ensures { IsTrue result ↔ FitsState self (pid, state) }
    {
        self.is_pid(pid) && self.what.is_state(state)
    }

    /// Whether it may be of this process.
    pub fn is_pid(self, pid: Pid) -> bool
        ensures { IsTrue result ↔ IsOne self.pid pid }
    {
        match self.pid {
            Some(one) => pid == one,
            None => true,
        }
    }

    /// Adds the words of the pattern, by which `read_bad` reads it. Where memory is refused, a beginning of
    /// them may stand there.
    pub fn push_words(self, text: &mut String) -> Result<(), AllocError>
        ensures { OnOk result (string_bytes text.new ≡ string_bytes text.old ++ words_of self) }
    {
        match self.pid {
            Some(pid) => write!(text, "{pid} ")?,
            None => text.push_str("* ")?,
        }
        self.what.push_words(text)
    }
}

impl What {
    /// Whether it is such a call, which ends so.
    fn is_call(self, call: CallName, outcome: Outcome) -> bool
        ensures { IsTrue result ↔ IsCall self call outcome }
    {
        match self {
            What::Call {
                call: one,
                outcome: way,
            } => is_one_call(one, call) && is_one_outcome(way, outcome),
            _ => false,
        }
    }

    /// Whether this is what a process is in.
    pub fn is_state(self, state: ProcState) -> bool
        ensures { IsTrue result ↔ IsState self state }
    {
        match (self, state) {
            (What::Ended(code), ProcState::Ended(other)) => code == other,
            (What::Blocked, ProcState::Blocked) => true,
            (What::Created, ProcState::Created) => true,
            (What::Ready, ProcState::Ready) => true,
            _ => false,
        }
    }

    /// Adds what stands behind the process.
    fn push_words(self, text: &mut String) -> Result<(), AllocError>
        ensures { OnOk result (string_bytes text.new ≡ string_bytes text.old ++ what_words self) }
    {
        match self {
            What::Call { call, outcome } => {
                text.push_str(call_words(call))?;
                text.push_str(" ")?;
                push_outcome(text, outcome)
            }
            What::Stuck => text.push_str("stuck"),
            What::Ended(code) => write!(text, "ended {code}"),
            What::Blocked => text.push_str("blocked"),
            What::Created => text.push_str("created"),
            What::Ready => text.push_str("ready"),
            What::Has { koid, rights } if rights.is_empty() => write!(text, "has {koid}"),
            What::Has { koid, rights } => write!(text, "has {koid} {}", rights.bits()),
        }
    }
}

/// Whether the call is the one that is named, if one is.
fn is_one_call(one: Option<CallName>, call: CallName) -> bool
    ensures { IsTrue result ↔ IsOne one call }
{
    match one {
        Some(one) => call.is_same(one),
        None => true,
    }
}

/// Whether it ends as is named, if that is.
fn is_one_outcome(one: Option<Outcome>, outcome: Outcome) -> bool
    ensures { IsTrue result ↔ IsOne one outcome }
{
    match one {
        Some(one) => outcome.is_same(one),
        None => true,
    }
}

/// The name of the call, or that it is any.
fn call_words(call: Option<CallName>) -> &'static str
    ensures { result.now ≡ call_words call }
{
    match call {
        Some(call) => call.name(),
        None => "*",
    }
}

/// Adds how a call ends.
fn push_outcome(text: &mut String, outcome: Option<Outcome>) -> Result<(), AllocError>
    ensures { OnOk result (string_bytes text.new
        ≡ string_bytes text.old ++ outcome_words outcome) }
{
    match outcome {
        Some(Outcome::Answered(status)) => text.push_str(status.name()),
        Some(Outcome::Blocked) => text.push_str("blocked"),
        Some(Outcome::Ended(code)) => write!(text, "ended {code}"),
        None => text.push_str("*"),
    }
}

/// The first pattern that names what is told.
pub fn named_item(bad: &[Bad], told: Option<TraceItem>) -> Option<Bad>
    ensures some { IfSome result (λ one. NamesItem bad.now told one) }
    ensures none { IfNone result (IsQuiet bad.now told) }
{
    let item = told?;
    for one in bad {
        if one.names(item) {
            return Some(*one);
        }
    }
    None
}

/// The first pattern that names what one of these is in at an end.
pub fn named_end(bad: &[Bad], states: &[(Pid, ProcState)]) -> Option<Bad>
    ensures some { IfSome result (λ one. NamesEnd bad.now states.now one) }
    ensures none { IfNone result (IsGoodEnd bad.now states.now) }
{
    for one in bad {
        if names_one(*one, states) {
            return Some(*one);
        }
    }
    None
}

/// Whether the pattern names what one of these is in.
fn names_one(bad: Bad, states: &[(Pid, ProcState)]) -> bool
    ensures { IsTrue result ↔ FitsOne bad states.now }
{
    for (pid, state) in states {
        if bad.names_state(*pid, *state) {
            return true;
        }
    }
    false
}

/// The pattern with just these words, as `push_words` writes them; nothing where there is none. Only memory
/// can be refused.
pub fn read_bad(alloc: Global, words: &str) -> Result<Option<Bad>, AllocError>
    ensures { IfOk result (λ found. IfSome found (λ bad. words.now ≡ words_of bad)) }
{
    let Some(bad) = guessed(words) else {
        return Ok(None);
    };
    let mut spelled = String::new(alloc);
    bad.push_words(&mut spelled)?;
    // each has one spelling
    if spelled.as_bytes() != words.as_bytes() {
        return Ok(None);
    }
    Ok(Some(bad))
}

/// What the words may stand for, in whatever spelling of numbers.
pub fn guessed(words: &str) -> Option<Bad> {
    let mut parts = words.split(' ');
    let pid = match parts.next()? {
        "*" => None,
        number => Some(number.parse::<Pid>().ok()?),
    };
    let first = parts.next()?;
    let what = match parts.next() {
        None => guessed_alone(first)?,
        Some(second) => guessed_pair(first, second, parts.next())?,
    };
    Some(Bad { pid, what })
}

/// What one word behind the process stands for.
fn guessed_alone(word: &str) -> Option<What> {
    match word {
        "stuck" => Some(What::Stuck),
        "blocked" => Some(What::Blocked),
        "created" => Some(What::Created),
        "ready" => Some(What::Ready),
        _ => None,
    }
}

/// What the koid of an object and, if they stand there, rights stand for.
pub fn guessed_handle(koid: &str, rights: Option<&str>) -> Option<(Koid, Rights)> {
    let rights = match rights {
        Some(number) => Rights::from_bits(number.parse::<u32>().ok()?)?,
        None => Rights::NONE,
    };
    Some((koid.parse::<Koid>().ok()?, rights))
}

/// What two or three words behind the process stand for.
fn guessed_pair(first: &str, second: &str, third: Option<&str>) -> Option<What> {
    if first == "ended" {
        return Some(What::Ended(second.parse::<i32>().ok()?));
    }
    if first == "has" {
        let (koid, rights) = guessed_handle(second, third)?;
        return Some(What::Has { koid, rights });
    }
    let call = match first {
        "*" => None,
        name => Some(CallName::named(name.as_bytes())?),
    };
    let outcome = match (second, third) {
        ("*", _) => None,
        ("blocked", _) => Some(Outcome::Blocked),
        ("ended", Some(code)) => Some(Outcome::Ended(code.parse::<i32>().ok()?)),
        (status, _) => Some(Outcome::Answered(Status::named(status.as_bytes())?)),
    };
    Some(What::Call { call, outcome })
}
