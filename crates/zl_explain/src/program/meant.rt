//! What was meant by a line that stands in no text.

use crate::again::Line;
use crate::name::numbers::push_number_named;
use crate::program::Wrong;
use crate::text::Told;
use crate::text::Value::Word;
use zl_code::Row;

/// The first words of the lines of a scenario that stand in no block.
const STATEMENTS: &str = "process program event port channel eventpair job policy limit --";

/// What the first word of a line in a block says of its end, if it is that of a statement, or nearly ends
/// the block.
pub fn slip_of(name: &[u8]) -> Option<&'static str> {
    if name.eq_ignore_ascii_case(b"end") {
        Some("end stands alone, in small letters")
    } else if STATEMENTS.split(' ').any(|known| known.as_bytes() == name) {
        Some("is end missing above it?")
    } else {
        None
    }
}

/// Adds what the first word of a line says of the end of its block, or that it stands in no text.
pub fn push_slip(hint: &mut String, name: &[u8], is_block: bool) -> Told<bool> {
    match slip_of(name) {
        Some(slip) if is_block => tell!(hint; "; #", slip)?,
        Some(_) => hint.push_str("; only a scenario has such a line")?,
        None => return Ok(false),
    }
    Ok(true)
}

/// Adds what was meant by the line, of which this word is none of the grammar.
pub fn push_meant(hint: &mut String, wrong: &Wrong, odd: &[u8]) -> Told {
    if push_slip(hint, wrong.name, wrong.is_block)? {
        return Ok(());
    }
    if odd.contains(&b'#') || odd.starts_with(b"//") {
        return hint.push_str(if wrong.is_block {
            "; a comment begins with ;, or with # as the first byte of its line"
        } else {
            "; a comment begins with ; here"
        });
    }
    push_number_named(hint, odd, wrong.name.starts_with(b"."))
}

/// Adds what was meant by a line of a block of digits, which has another byte. The program has this
/// mark.
pub fn push_meant_in_hex(hint: &mut String, line: &Line, mark: &[u8]) -> Told {
    let name = line.name();
    let is_text = line.code().iter().all(|byte| *byte == b' ')
        || name.starts_with(b".")
        || name.ends_with(b":")
        || Row::named(name).is_some();
    if is_text {
        tell!(hint; "; is this text? then program # asm", Word(mark))
    } else if push_slip(hint, name, true)? {
        Ok(())
    } else if line.bytes.contains(&b'#') || line.bytes.contains(&b';') {
        hint.push_str("; a comment begins with # as the first byte of its line")
    } else {
        Ok(())
    }
}
