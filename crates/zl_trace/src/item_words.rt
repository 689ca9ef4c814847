//! The words of a line, read as those of an item.
ghost use Rattle.std.specs.Prelude.{◌≡◌, ◌≢◌, ◌<◌, ◌^◌, IfSome, IfNone, IsTrue, ◌↔◌, ℕ, ℤ, FitsSigned, map};
ghost use Rattle.std.specs.Int.{w32};
ghost use Rattle.std.specs.Fmt.{decimal, signed_decimal};
ghost use Rattle.zl_code.specs.Steps.{pid_of};
ghost use Rattle.zl_code.specs.declared.history.Outcome.{Outcome as OutcomeValue};
ghost use Rattle.zl_code.specs.declared.history.TraceItem.{TraceItem as ItemValue};
ghost use Rattle.zl_trace.specs.Reading.{HasCode, HasLine, Tells, TellsNothing, doing_words, outcome_words};

use itoa::Buffer;
use zl_code::{CallName, Outcome, TraceItem};
use zl_rights::{Pid, Status};

/// The item whose words these are, if there is one.
pub fn item_of(words: &[&[u8]]) -> Option<TraceItem>
    ensures some { IfSome result (λ item. Tells (map (λ word. word.now) words.now) item) }
    ensures none { IfNone result (TellsNothing (map (λ word. word.now) words.now)) }
{
    match words {
        [pid, doing @ ..] => item_doing(number(pid)?, doing),
        [] => None,
    }
}

/// The item of this process that has these words behind its number, if there is one.
fn item_doing(pid: Pid, words: &[&[u8]]) -> Option<TraceItem>
    ensures some { IfSome result (λ item. (pid_of item ≡ pid) × HasLine item
        × (map (λ word. word.now) words.now ≡ doing_words item)) }
    ensures none { IfNone result ((x : ItemValue) → HasLine x
        → map (λ word. word.now) words.now ≢ doing_words x) }
{
    match words {
        [name] if is(name, b"stuck") => Some(TraceItem::Stuck { pid }),
        [name, count] if is(name, b"run") => Some(TraceItem::Run {
            pid,
            count: count_of(count)?,
        }),
        [name, outcome @ ..] => Some(TraceItem::Call {
            pid,
            call: CallName::named(name)?,
            outcome: outcome_of(outcome)?,
        }),
        [] => None,
    }
}

/// How a call ended, by the last words of its line, if these say so.
fn outcome_of(words: &[&[u8]]) -> Option<Outcome>
    ensures some { IfSome result (λ outcome. HasCode outcome
        × (map (λ word. word.now) words.now ≡ outcome_words outcome)) }
    ensures none { IfNone result ((o : OutcomeValue) → HasCode o
        → map (λ word. word.now) words.now ≢ outcome_words o) }
{
    match words {
        [word] if is(word, b"blocked") => Some(Outcome::Blocked),
        [word] => Some(Outcome::Answered(Status::named(word)?)),
        [word, code] if is(word, b"ended") => Some(Outcome::Ended(code_of(code)?)),
        _ => None,
    }
}

/// The number of a process, where the word is just what a trace has of it.
fn number(word: &[u8]) -> Option<u64>
    ensures some { IfSome result (λ number. word.now ≡ decimal number) }
    ensures none { IfNone result ((n : ℕ) → n < 2 ^ 64 → word.now ≢ decimal n) }
{
    let Ok(text) = str::from_utf8(word) else {
        return None;
    };
    let Ok(number) = text.parse::<u64>() else {
        return None;
    };
    let mut digits = Buffer::new();
    if is(word, digits.format(number).as_bytes()) {
        Some(number)
    } else {
        None
    }
}

/// The count of a run, where the word is just what a trace has of it.
fn count_of(word: &[u8]) -> Option<u32>
    ensures some { IfSome result (λ count. (0 < count) × (word.now ≡ decimal count)) }
    ensures none { IfNone result ((n : ℕ) → 0 < n → n < 2 ^ 32 → word.now ≢ decimal n) }
{
    let count = number(word)?;
    if count == 0 || count > u64::from(u32::MAX) {
        return None;
    }
    Some(count as u32)
}

/// The code of an end, where the word is just what a trace has of it.
fn code_of(word: &[u8]) -> Option<i32>
    ensures some { IfSome result (λ code. word.now ≡ signed_decimal code) }
    ensures none { IfNone result ((z : ℤ) → FitsSigned w32 z → word.now ≢ signed_decimal z) }
{
    let Ok(text) = str::from_utf8(word) else {
        return None;
    };
    let Ok(code) = text.parse::<i32>() else {
        return None;
    };
    let mut digits = Buffer::new();
    if is(word, digits.format(code).as_bytes()) {
        Some(code)
    } else {
        None
    }
}

/// Whether the word has just these bytes.
fn is(word: &[u8], bytes: &[u8]) -> bool
    ensures { IsTrue result ↔ word.now ≡ bytes.now }
{
    word == bytes
}
