//! The handles that a checked program declares, beside those that a line gives to its process.

use crate::again::{block_of, line_of_start};
use crate::scenario::faulty::Faulty;
use crate::scenario::numbers::push_rights;
use crate::text::Value::Word;
use crate::text::{Told, plural};
use bitflags::Flags;
use zl_code::{Grant, Start};
use zl_rights::{Kind, Rights};

/// Adds which of the handles is the first that isn't what the program of this number declares.
pub fn push_wrong_start(
    hint: &mut String,
    faulty: &Faulty,
    program: usize,
    handles: &[Grant],
) -> Told {
    let Some(listed) = faulty.above.scenario.library.get(program) else {
        return Ok(());
    };
    let starts = listed.image().starts();
    for (place, start) in starts.iter().enumerate() {
        let text = match handles.get(place) {
            Some(handle) if is_declared(start, *handle, faulty) => continue,
            Some(_) => "handle #, #, has to be ",
            None => "handle # is missing; it has to be ",
        };
        tell!(hint; text, place as u64 + 1, Word(faulty.handle(place)))?;
        return push_start(hint, start, line_of(faulty, program, place)?);
    }
    let count = starts.len();
    if handles.len() <= count {
        return Ok(());
    }
    tell!(hint; "handle #, #, is one too many; its program declares # handle#",
        count as u64 + 1, Word(faulty.handle(count)), count, plural(count))
}

/// Whether the handle is of the kind that is declared, and has its rights at least.
fn is_declared(start: &Start, handle: Grant, faulty: &Faulty) -> bool {
    let Some(kind) = faulty.kind_of(handle.koid) else {
        return false;
    };
    let rights = match handle.rights {
        Some(number) => Rights::from_bits_retain(u32::try_from(number).unwrap_or(0)),
        None => kind.default_rights(),
    };
    match start.kind {
        Some(wanted) if wanted != kind => false,
        _ => start.rights.within(rights),
    }
}

/// The line of the directive `.start` of this place, from 0, in the text of the program; 0 where it is
/// written in digits.
fn line_of(faulty: &Faulty, program: usize, place: usize) -> Told<u64> {
    let opened = faulty.above.scenario.program_lines.get(program).copied();
    let block = block_of(faulty.alloc, &faulty.lines, opened.unwrap_or(0))?;
    Ok(line_of_start(&block.lines, place).unwrap_or(0))
}

/// Adds what is declared, and by which line, if it is known.
fn push_start(hint: &mut String, start: &Start, line: u64) -> Told {
    hint.push_str(match start.kind {
        Some(Kind::Process) => "a process",
        Some(Kind::Channel) => "a channel",
        Some(Kind::Event) => "an event",
        Some(Kind::Port) => "a port",
        Some(Kind::Eventpair) => "an end of an event pair",
        Some(Kind::Job) => "a job",
        None => "any object",
    })?;
    if start.rights.bits() != 0 {
        hint.push_str(" with ")?;
        push_rights(hint, start.rights)?;
    }
    match line {
        0 => hint.push_str(", by its program"),
        _ => tell!(hint; ", by line #", line),
    }
}
