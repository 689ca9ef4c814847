//! The faults of the handles that a line gives to its process.

use crate::name::rights::push_right_beyond;
use crate::scenario::faulty::Faulty;
use crate::scenario::numbers::{is_digits, push_meant, push_no_number};
use crate::scenario::starts::push_wrong_start;
use crate::text::Told;
use crate::text::Value::Word;
use zl_code::{Grant, Grants};
use zl_scenario::number;

/// Adds what is wrong with a word that is no handle.
pub fn push_no_handle(hint: &mut String, word: &[u8]) -> Told {
    let Some(colon) = word.iter().position(|byte| *byte == b':') else {
        return tell!(hint; "the handle # has no colon; a handle is KOID:RIGHTS, or KOID:* for all rights",
            Word(word));
    };
    let (koid, rights) = (&word[..colon], &word[colon + 1..]);
    tell!(hint; "in the handle # ", Word(word))?;
    if number(koid).is_none() {
        return push_no_number(hint, "KOID", koid);
    }
    if is_digits(rights) {
        return push_no_number(hint, "RIGHTS", rights);
    }
    tell!(hint; "RIGHTS is #, which is neither a decimal number nor *", Word(rights))?;
    push_meant(hint, rights)
}

/// Adds which of the handles names no object.
pub fn push_no_object(hint: &mut String, faulty: &Faulty, handles: &[Grant]) -> Told {
    for (place, handle) in handles.iter().enumerate() {
        if faulty.kind_of(handle.koid).is_none() {
            let last = faulty.above.objects.len();
            tell!(hint; "the handle # names no object: there is no # above this line",
                Word(faulty.handle(place)), handle.koid)?;
            return match last {
                1 => hint.push_str(", but only 1, the root job"),
                _ => tell!(hint; ", where the last is #", last),
            };
        }
    }
    Ok(())
}

/// Adds why no process of the program can start with the handles.
pub fn push_wrong_handles(
    hint: &mut String,
    faulty: &Faulty,
    program: u64,
    handles: &[Grant],
) -> Told {
    let (count, most) = (handles.len(), Grants::MOST);
    if count > most {
        return tell!(hint; "a process starts with at most # handles, and this line has #", most, count);
    }
    for (place, handle) in handles.iter().enumerate() {
        let (word, rights) = (faulty.handle(place), handle.rights.unwrap_or(0));
        if let Some(kind) = faulty.kind_of(handle.koid)
            && push_right_beyond(hint, word, kind, rights)?
        {
            return Ok(());
        }
    }
    push_wrong_start(hint, faulty, program as usize, handles)
}
