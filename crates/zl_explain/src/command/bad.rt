//! What is wrong with the words of `--bad`.

use crate::again::words_of;
use crate::name::Nearest;
use crate::scenario::is_among;
use crate::scenario::numbers::{is_digits, push_no_number};
use crate::text::Told;
use crate::text::Value::Word;
use bitflags::Flags;
use std::alloc::Global;
use zl_code::CallName;
use zl_rights::{Kind, Rights, Status};
use zl_scenario::number;

/// The forms of the words.
const FORMS: &str = "\
--bad takes 'PID CALL STATUS', 'PID CALL blocked', 'PID stuck', 'PID ended CODE', 'PID blocked', \
'PID created', 'PID ready', 'PID has KOID [RIGHTS]', 'message has KOID [RIGHTS]' or 'KIND KOID', with * for \
any PID, CALL or STATUS, 'not ' before any of the last seven and ' and ' between several of them, and \
\"#\" is none";

/// What is wrong where each word is one that may stand there.
const SPELLING: &str = "; words stand one space apart, and numbers as in a trace";

/// What is wrong with `and` at the beginning or at the end.
const SIDES: &str = "; on each side of and stands one of them";

/// Any process, call or outcome.
const ANY: &[u8] = b"*";

/// What stands between two pieces.
const AND: &[u8] = b"and";

/// What a call is that waits.
const BLOCKED: &[u8] = b"blocked";

/// What a process comes to, without a code.
const STATES: [&str; 4] = ["blocked", "stuck", "created", "ready"];

/// What stands behind a process before a code, and before the koid of an object.
const MORE: [&str; 2] = ["ended", "has"];

/// What words are that may stand between `and`.
#[derive(Clone, Copy)]
enum Piece {
    /// An item, which is of one moment.
    Item,
    /// What is so, or isn't, at a moment.
    Fact,
    /// Something is wrong with them.
    Wrong,
}

// Adds what is wrong, and tells that something is.
macro_rules! wrong {
    ($hint:expr; $text:expr $(, $value:expr)*) => {{
        tell!($hint; $text $(, $value)*)?;
        Ok(Piece::Wrong)
    }};
}

/// Adds which of the words, those behind one `--bad`, aren't understood.
pub fn explain_bad(hint: &mut String, alloc: Global, words: &[u8]) {
    if push_bad(hint, alloc, words).is_err() {
        hint.clear();
    }
}

fn push_bad(hint: &mut String, alloc: Global, words: &[u8]) -> Told {
    tell!(hint; FORMS, Word(words))?;
    let mut pieces = Vec::new(alloc);
    for piece in str::from_utf8(words).unwrap_or("").split(" and ") {
        pieces.push(piece)?;
    }
    if pieces.len() > 1 {
        return push_joined(hint, alloc, pieces.as_slice());
    }
    match push_piece(hint, alloc, words)? {
        Piece::Wrong => Ok(()),
        _ => hint.push_str(SPELLING),
    }
}

/// Adds which of the pieces between `and` isn't understood, or stands beside no other.
fn push_joined(hint: &mut String, alloc: Global, pieces: &[&str]) -> Told {
    for piece in pieces {
        let mut fault = String::new(alloc);
        let text = match push_piece(&mut fault, alloc, piece.as_bytes())? {
            Piece::Fact => continue,
            Piece::Item => "; \"#\" is of one moment, and stands beside no other",
            Piece::Wrong if piece.is_empty() => SIDES,
            Piece::Wrong => "; \"#\" is none",
        };
        tell!(hint; text, Word(piece.as_bytes()))?;
        return hint.push_str(fault.as_str());
    }
    hint.push_str(SPELLING)
}

/// Adds what is wrong with the piece, if it is known, and tells what it is.
fn push_piece(hint: &mut String, alloc: Global, piece: &[u8]) -> Told<Piece> {
    let words = words_of(alloc, piece)?;
    push_words(hint, alloc, words.as_slice())
}

fn push_words(hint: &mut String, alloc: Global, words: &[&[u8]]) -> Told<Piece> {
    match words {
        _ if is_open(words) => wrong!(hint; SIDES),
        [b"not"] => wrong!(hint; "; behind not stands what isn't so"),
        [b"not", b"not", ..] => wrong!(hint; "; not stands once"),
        [b"not", more @ ..] => match push_sight(hint, alloc, more)? {
            Piece::Item => wrong!(hint; "; no not stands before a call or stuck"),
            piece => Ok(piece),
        },
        _ => push_sight(hint, alloc, words),
    }
}

/// Adds what is wrong with the words, before which `not` may stand.
fn push_sight(hint: &mut String, alloc: Global, words: &[&[u8]]) -> Told<Piece> {
    match words {
        [b"message", b"has", more @ ..] => push_had(hint, more),
        [b"message", ..] => wrong!(hint; "; behind message stands has"),
        [kind, more @ ..] if Kind::named(kind).is_some() => push_object(hint, kind, more),
        [pid, ..] if *pid != ANY && number(pid).is_none() => push_no_process(hint, alloc, pid),
        [_, more @ ..] => push_behind(hint, alloc, more),
        [] => Ok(Piece::Wrong),
    }
}

/// Adds what is wrong with the words behind the kind.
fn push_object(hint: &mut String, kind: &[u8], words: &[&[u8]]) -> Told<Piece> {
    match words {
        [koid] => push_koid(hint, koid),
        [] => wrong!(hint; "; behind # stands a KOID", Word(kind)),
        _ if kind == b"process".as_slice() => {
            wrong!(hint; "; behind process stands a KOID alone, and a PID stands without process")
        }
        _ => wrong!(hint; "; behind # stands a KOID alone", Word(kind)),
    }
}

/// Adds that the word stands for no process, and what was meant.
fn push_no_process(hint: &mut String, alloc: Global, word: &[u8]) -> Told<Piece> {
    if word == b"nobody".as_slice() {
        return wrong!(hint; "; nobody has is not * has");
    }
    tell!(hint; "; the PID is #, which is neither a decimal number nor *", Word(word))?;
    let mut nearest = Nearest::new(alloc, word)?;
    nearest.try_all(&["message", "not"])?;
    nearest.try_kinds()?;
    nearest.push(hint)?;
    Ok(Piece::Wrong)
}

/// Whether `and` stands first or last among the words.
fn is_open(words: &[&[u8]]) -> bool {
    match (words.first(), words.last()) {
        (Some(first), Some(last)) => *first == AND || *last == AND,
        _ => false,
    }
}

/// Adds what is wrong with the words behind the process.
fn push_behind(hint: &mut String, alloc: Global, words: &[&[u8]]) -> Told<Piece> {
    match words {
        [b"has", more @ ..] => push_had(hint, more),
        [b"not", ..] => wrong!(hint; "; not stands before the PID"),
        [state] => push_state(hint, alloc, state),
        [b"ended", code] => push_code(hint, code, Piece::Fact),
        [call, b"ended", code] if is_call(call) => push_code(hint, code, Piece::Item),
        [call, status] => push_answer(hint, alloc, call, status),
        _ => Ok(Piece::Wrong),
    }
}

/// Adds what is wrong with the koid and the rights, which may be left out.
fn push_had(hint: &mut String, words: &[&[u8]]) -> Told<Piece> {
    match words {
        [] => wrong!(hint; "; behind has stands a KOID"),
        [koid] => push_koid(hint, koid),
        [koid, rights] => match push_koid(hint, koid)? {
            Piece::Fact => push_rights(hint, rights),
            _ => Ok(Piece::Wrong),
        },
        _ => wrong!(hint; "; behind has stand a KOID and one number, RIGHTS"),
    }
}

/// Adds that the word is no code, if it has another byte than digits behind a sign. Else the piece is right.
fn push_code(hint: &mut String, word: &[u8], right: Piece) -> Told<Piece> {
    let digits = word.strip_prefix(b"-").unwrap_or(word);
    if is_digits(digits) && !digits.is_empty() {
        return Ok(right);
    }
    wrong!(hint; "; the CODE is #, which isn't a decimal number", Word(word))
}

/// Adds why the word is no koid, if it is none.
fn push_koid(hint: &mut String, word: &[u8]) -> Told<Piece> {
    if number(word).is_some() {
        return Ok(Piece::Fact);
    }
    hint.push_str("; the ")?;
    push_no_number(hint, "KOID", word)?;
    Ok(Piece::Wrong)
}

/// Adds why the word is no sum of rights, if it is none.
fn push_rights(hint: &mut String, word: &[u8]) -> Told<Piece> {
    let Some(sum) = number(word) else {
        hint.push_str("; ")?;
        push_no_number(hint, "RIGHTS", word)?;
        return Ok(Piece::Wrong);
    };
    if sum == 0 {
        return wrong!(hint; "; RIGHTS of 0 aren't written, as each handle has them");
    }
    let all = u64::from(Rights::all().bits());
    let beyond = sum & !all;
    if beyond == 0 {
        return Ok(Piece::Fact);
    }
    let first = beyond & !(beyond - 1);
    wrong!(hint; "; RIGHTS is #, of which # is no right; all rights are #", sum, first, all)
}

/// Adds what is wrong with the word behind the process, where none stands behind it.
fn push_state(hint: &mut String, alloc: Global, word: &[u8]) -> Told<Piece> {
    if word == b"stuck".as_slice() {
        return Ok(Piece::Item);
    }
    if is_among(word, &STATES) {
        return Ok(Piece::Fact);
    }
    if word == b"ended".as_slice() {
        return wrong!(hint; "; behind ended stands a CODE");
    }
    if is_call(word) {
        return wrong!(hint; "; behind # stands a STATUS, blocked, or * for any outcome",
            Word(word));
    }
    let mut nearest = Nearest::new(alloc, word)?;
    nearest.try_calls()?;
    nearest.try_all(&STATES)?;
    nearest.try_all(&MORE)?;
    nearest.push(hint)?;
    Ok(Piece::Wrong)
}

/// Adds which of the call and of what it answers is none.
fn push_answer(hint: &mut String, alloc: Global, call: &[u8], status: &[u8]) -> Told<Piece> {
    if !is_call(call) {
        tell!(hint; "; # is no call", Word(call))?;
        let mut nearest = Nearest::new(alloc, call)?;
        nearest.try_calls()?;
        nearest.try_all(&MORE)?;
        nearest.push(hint)?;
        return Ok(Piece::Wrong);
    }
    if status == ANY || status == BLOCKED || Status::named(status).is_some() {
        return Ok(Piece::Item);
    }
    tell!(hint; "; # is no STATUS", Word(status))?;
    let status = status.strip_prefix(b"ZX_").unwrap_or(status);
    let status = status.strip_prefix(b"ERR_").unwrap_or(status);
    let mut nearest = Nearest::new(alloc, status)?;
    nearest.try_statuses()?;
    nearest.try_name("blocked")?;
    nearest.push(hint)?;
    Ok(Piece::Wrong)
}

/// Whether the word is a call, or stands for any.
fn is_call(word: &[u8]) -> bool {
    word == ANY || CallName::named(word).is_some()
}
