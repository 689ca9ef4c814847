//! The faults of a directive of the assembler's text.

use crate::name::Nearest;
use crate::name::numbers::push_number_named;
use crate::name::rights::push_right_of_none;
use crate::program::{Wrong, push_already};
use crate::text::Value::Word;
use crate::text::{Told, plural};
use zl_asm::numbers::{number, sixteen_bytes};
use zl_asm::words::is;
use zl_code::{Image, Row, SlotArray};
use zl_rights::{Condition, Kind};

/// The directives, each with what it takes.
const DIRECTIVES: [(&str, usize, &str); 8] = [
    (".version", 1, ", a version"),
    (".raw", 0, ""),
    (".memory", 1, ", a number of bytes"),
    (".budget", 1, ", a number of steps"),
    (".need", 1, ", a condition"),
    (".start", 2, ", a kind and rights"),
    (".slots", 3, ", a kind, a length and rights"),
    (".bytes", 1, ", 32 hexadecimal digits"),
];

/// Adds which directive, kind or condition was meant by a name that none has.
pub fn push_unknown_directive(hint: &mut String, wrong: &Wrong) -> Told {
    let word = wrong.operand().unwrap_or(wrong.name);
    let mut nearest = Nearest::new(wrong.alloc, word)?;
    let text = if wrong.place.is_none() {
        for (name, _, _) in &DIRECTIVES {
            nearest.try_name(name)?;
        }
        "no directive is called #"
    } else if is(wrong.name, b".need") {
        for condition in Condition::all() {
            if Image::can_need(*condition) {
                nearest.try_name(condition.name())?;
            }
        }
        "no condition is called #"
    } else {
        nearest.try_name("any")?;
        nearest.try_kinds()?;
        "no kind is called #"
    };
    tell!(hint; text, Word(word))?;
    nearest.push(hint)
}

/// Adds why these words are no directive, or why none stands there.
pub fn push_wrong_directive(hint: &mut String, wrong: &Wrong) -> Told {
    if is(wrong.name, b".version") {
        return push_wrong_version(hint, wrong);
    }
    let count = wrong.operands.len();
    for (name, most, what) in &DIRECTIVES {
        if name.as_bytes() == wrong.name && count != *most {
            return tell!(hint; "# has # operand# and takes ##",
                *name, count, plural(count), *most, *what);
        }
    }
    match (wrong.place, wrong.operand()) {
        (Some(place), Some(word)) => push_wrong_operand(hint, wrong, place, word),
        _ if is(wrong.name, b".bytes") => {
            hint.push_str("an unknown opcode stands only where .raw is declared")
        }
        _ => push_wrong_place(hint, wrong),
    }
}

/// Adds that the version takes nothing but 2, or why it can't stand below the lines above.
fn push_wrong_version(hint: &mut String, wrong: &Wrong) -> Told {
    if !matches!(wrong.operands, [word] if number(word) == Some(2)) {
        return hint.push_str(".version takes 2 alone; without it the version is 1");
    }
    match wrong.above.iter().find(|line| !line.name().is_empty()) {
        Some(line) if !is(line.name(), b".version") => {
            tell!(hint; ".version stands above all else; put it above line #", line.number)
        }
        _ => push_already(hint, "", wrong),
    }
}

/// Adds why this operand is wrong.
fn push_wrong_operand(hint: &mut String, wrong: &Wrong, place: usize, word: &[u8]) -> Told {
    if is(wrong.name, b".bytes") {
        return match sixteen_bytes(word).and_then(|bytes| Row::of_opcode(bytes[0])) {
            Some(row) => tell!(hint; "the opcode # is #, which is written by its name",
                row.opcode, row.name),
            None => tell!(hint; "# isn't 32 hexadecimal digits", Word(word)),
        };
    }
    if is(wrong.name, b".need") {
        let known =
            "a program needs NEW_CHANNEL, NEW_EVENT, NEW_EVENTPAIR, NEW_PORT or NEW_PROCESS";
        return tell!(hint; "#, and not #", known, Word(word));
    }
    let Some(rights) = number(word) else {
        tell!(hint; "operand # of # is #, and a number from 0 to 4294967295 is wanted there",
            place.saturating_add(1), Word(wrong.name), Word(word))?;
        return push_number_named(hint, word, true);
    };
    let kind = wrong.operands.first().and_then(|kind| Kind::named(kind));
    push_right_of_none(hint, "the number", word, kind, u64::from(rights))?;
    Ok(())
}

/// Adds that the directive stands below a label or an instruction, or below one of its name.
fn push_wrong_place(hint: &mut String, wrong: &Wrong) -> Told {
    if let Some(line) = wrong.above.iter().find(|line| line.is_code()) {
        return tell!(hint; "directives stand above the first label and instruction, in line #",
            line.number);
    }
    push_already(hint, "", wrong)
}

/// Adds which number is out of its range, or of what a program has too many.
pub fn push_limit(hint: &mut String, wrong: &Wrong) -> Told {
    match wrong.operand() {
        Some(word) if is(wrong.name, b".memory") => {
            tell!(hint; "a data memory has 0 to # bytes, and not #", Image::MOST_MEMORY, Word(word))
        }
        Some(word) if is(wrong.name, b".budget") => {
            tell!(hint; "a budget is 1 to # steps, and not #", Image::MOST_BUDGET, Word(word))
        }
        Some(word) => {
            tell!(hint; "a slot array has 1 to # places, and not #", SlotArray::MOST_PLACES, Word(word))
        }
        None if is(wrong.name, b".slots") => {
            tell!(hint; "a program has at most # slot arrays", Image::MOST_SLOT_ARRAYS)
        }
        None => tell!(hint; "a program has at most # start handles", Image::MOST_STARTS),
    }
}
