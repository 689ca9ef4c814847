//! The faults of an instruction of the assembler's text.

use crate::name::Nearest;
use crate::name::numbers::push_number_named;
use crate::name::zircon::push_name_here;
use crate::program::Wrong;
use crate::program::meant::push_slip;
use crate::text::Value::Word;
use crate::text::{Told, plural};
use zl_asm::numbers::number;
use zl_asm::words::is;
use zl_asm::written;
use zl_code::{Ending, Field, HandleList, Row};

/// Adds which instruction was meant by a name that none has, or what the line is.
pub fn push_unknown_instruction(hint: &mut String, wrong: &Wrong) -> Told {
    let name = wrong.name;
    if Row::named(name).is_some() {
        let text = "# is an instruction of version 2: let .version 2 be the first directive";
        return tell!(hint; text, Word(name));
    }
    tell!(hint; "no instruction is called #", Word(name))?;
    if push_slip(hint, name, wrong.is_block)? || push_name_here(hint, name)? {
        return Ok(());
    }
    if wrong.is_block && matches!(name, [b'0'..=b'9', ..]) {
        return hint.push_str("; are these the digits of an image? then its form is hex");
    }
    let mut nearest = Nearest::new(wrong.alloc, name)?;
    for opcode in 0..=u8::MAX {
        if let Some(row) = Row::of_opcode(opcode) {
            nearest.try_name(row.name)?;
        }
    }
    nearest.push(hint)
}

/// How many operands stand behind the registers, at least and at most, and what they are.
fn ending_of(ending: Ending) -> (usize, usize, &'static str) {
    match ending {
        Ending::Nothing => (0, 0, ""),
        Ending::Number | Ending::Room => (1, 1, " and a number"),
        Ending::FromSlots | Ending::IntoSlots => (1, 1, " and the number of a slot array"),
        Ending::Target => (1, 1, " and a target"),
        Ending::Both => (2, 2, ", a number and a target"),
        Ending::Handles => (0, HandleList::MOST, " and up to 8 more"),
    }
}

/// Adds which operand of the instruction is wrong, or how many it takes.
pub fn push_wrong_instruction(hint: &mut String, wrong: &Wrong) -> Told {
    let Some(row) = Row::named(wrong.name) else {
        return Ok(());
    };
    let count = wrong.operands.len().div_ceil(2);
    let (least, most, _) = ending_of(written(&row));
    match count.checked_sub(row.registers()) {
        Some(behind) if least <= behind && behind <= most => push_wrong_operand(hint, wrong, &row),
        _ => push_count(hint, &row, count),
    }
}

/// Adds which operand of the instruction, that takes so many, is wrong.
fn push_wrong_operand(hint: &mut String, wrong: &Wrong, row: &Row) -> Told {
    let (Some(place), Some(word)) = (wrong.place, wrong.operand()) else {
        let text = "# has room for 0 to 8 handles, three registers each, up to r31";
        return tell!(hint; text, row.name);
    };
    // A comma stands behind each operand but the last.
    let index = place / 2;
    let wanted = wanted_at(row, index);
    tell!(hint; "operand # of # is #, and # is wanted there",
        index.saturating_add(1), row.name, Word(word), wanted)?;
    if wanted == TARGET {
        return Ok(());
    }
    push_number_named(hint, word, false)?;
    match row.columns.fields.get(index) {
        Some(Field::Reads) if number(word).is_some() => push_const(hint, wrong, word),
        _ => Ok(()),
    }
}

/// Adds how this number comes into a register, where one is wanted that is read: into the one that is
/// written where that is all, into any at the end of the program.
fn push_const(hint: &mut String, wrong: &Wrong, number: &[u8]) -> Told {
    let into = match wrong.operands {
        [first, ..] if is(wrong.name, b"mov") => *first,
        _ if is(wrong.name, b"process_exit") => b"r2",
        _ => b"..",
    };
    tell!(hint; "; const #, # puts it in one", Word(into), Word(number))
}

/// Adds how many operands there are, and how many the instruction takes.
fn push_count(hint: &mut String, row: &Row, count: usize) -> Told {
    let text = match (row.registers(), written(row)) {
        (0, Ending::Nothing) => "# has # operand# and takes none",
        (0, Ending::Number) => "# has # operand# and takes ##: a number",
        (0, _) => "# has # operand# and takes ##: a target",
        _ => "# has # operand# and takes ##: # register##",
    };
    let (least, most, behind) = ending_of(written(row));
    tell!(hint; text, row.name, count, plural(count), row.registers().saturating_add(least),
        if least < most { " to 12" } else { "" }, row.registers(), plural(row.registers()), behind)
}

/// What is wanted where a target is.
const TARGET: &str = "a label or a number";

/// What is wanted in place of an operand.
fn wanted_at(row: &Row, index: usize) -> &'static str {
    let behind = index.checked_sub(row.registers());
    match (written(row), behind) {
        (Ending::Target, Some(_)) | (Ending::Both, Some(1)) => TARGET,
        (Ending::FromSlots | Ending::IntoSlots, Some(_)) => "the number of a slot array",
        (Ending::Number | Ending::Room | Ending::Both, Some(_)) => "a number from 0 to 4294967295",
        _ => "a register, r0 to r31,",
    }
}
