//! The faults of the assembler's text.

pub mod block;
pub mod breach;
mod directive;
mod instruction;
mod meant;

use crate::again::{Line, numbered_lines, place_of_blank, place_outside_ascii};
use crate::name::Nearest;
use crate::program::breach::push_breach;
use crate::program::directive::{push_limit, push_unknown_directive, push_wrong_directive};
use crate::program::instruction::{push_unknown_instruction, push_wrong_instruction};
use crate::program::meant::push_meant;
use crate::text::Value::Word;
use crate::text::{Told, push_head, push_odd_byte};
use std::alloc::{AllocError, Global};
use zl_asm::words::{is, is_odd, split_words};
use zl_asm::{AsmCause, AsmFault};
use zl_code::Image;

/// A line that is at fault, by its words.
#[derive(Clone, Copy)]
pub struct Wrong<'a> {
    pub alloc: Global,
    /// The lines above it.
    pub above: &'a [Line<'a>],
    pub name: &'a [u8],
    /// What stands behind the name, with the commas.
    pub operands: &'a [&'a [u8]],
    /// Which of the operands is at fault, if one is.
    pub place: Option<usize>,
    pub is_block: bool,
}

impl<'a> Wrong<'a> {
    /// The operand that is at fault, if one is.
    pub fn operand(&self) -> Option<&'a [u8]> {
        self.operands.get(self.place?).copied()
    }
}

/// Adds a line that says why the text denotes no image.
pub fn explain_program(hint: &mut String, alloc: Global, text: &[u8], fault: AsmFault) {
    let pushed = push_file_fault(hint, alloc, text, fault);
    if pushed.is_err() || hint.push_str("\n").is_err() {
        hint.clear();
    }
}

fn push_file_fault(hint: &mut String, alloc: Global, text: &[u8], fault: AsmFault) -> Told {
    push_program_fault(hint, alloc, &numbered_lines(alloc, text)?, fault)
}

/// Adds why the text of these lines denotes no image; the fault counts them from 1.
pub fn push_program_fault(
    hint: &mut String,
    alloc: Global,
    lines: &[Line],
    fault: AsmFault,
) -> Told {
    let index = (fault.line as usize).wrapping_sub(1);
    let (Some(line), Some(above)) = (lines.get(index), lines.get(..index)) else {
        push_head(hint, fault.line, fault.cause.name())?;
        return hint.push_str("the text has more than 4194304 bytes");
    };
    push_head(hint, line.number, fault.cause.name())?;
    if let Some(place) = place_outside_ascii(line.bytes) {
        return push_odd_byte(hint, line.bytes, place);
    }
    let mut words = Vec::new(alloc);
    split_words(&mut words, line.bytes)?;
    let [name, operands @ ..] = words.as_slice() else {
        return Ok(());
    };
    let wrong = Wrong {
        alloc,
        above,
        name,
        operands,
        place: fault.word.and_then(|word| word.checked_sub(1)),
        // The lines of a block stand below the one that opens it.
        is_block: lines.first().is_some_and(|line| line.number > 1),
    };
    match fault.cause {
        AsmCause::Token => push_token(hint, line, &wrong),
        AsmCause::LabelMissing => push_label_missing(hint, lines, &wrong),
        cause => push_cause(hint, cause, &wrong),
    }
}

/// Adds why the line is at fault, for a cause that doesn't want more than its words and the lines above.
fn push_cause(hint: &mut String, cause: AsmCause, wrong: &Wrong) -> Told {
    let is_directive = wrong.name.starts_with(b".");
    match cause {
        AsmCause::UnknownName if is_directive => push_unknown_directive(hint, wrong),
        AsmCause::UnknownName => push_unknown_instruction(hint, wrong),
        AsmCause::LabelTwice => push_already(hint, "the label ", wrong),
        AsmCause::Operand if is_directive => push_wrong_directive(hint, wrong),
        AsmCause::Operand => push_wrong_instruction(hint, wrong),
        AsmCause::Limit if is_directive && !is(wrong.name, b".bytes") => push_limit(hint, wrong),
        AsmCause::Limit => {
            tell!(hint; "a program has at most # instructions", Image::MOST_INSTRUCTIONS)
        }
        AsmCause::Block => push_breach(hint, wrong),
        AsmCause::Token | AsmCause::LabelMissing | AsmCause::NoMemory => Err(AllocError),
    }
}

/// Adds which word the grammar doesn't have, or where a comma is missing or one too many.
fn push_token(hint: &mut String, line: &Line, wrong: &Wrong) -> Told {
    if let Some(place) = place_of_blank(line.code()) {
        return push_odd_byte(hint, line.bytes, place);
    }
    let name = wrong.name;
    let has_comma = name.starts_with(b".") && wrong.operands.iter().any(|word| is(word, b","));
    let text = match wrong.operand() {
        _ if name.ends_with(b":") && wrong.operands.is_empty() => {
            "# isn't a label: a small letter, then small letters, digits or _, 32 at most"
        }
        _ if name.ends_with(b":") => "the label # has to stand alone on its line",
        _ if has_comma => "the operands of # have spaces between them, and no comma",
        Some(word) if is(word, b",") => {
            return hint.push_str("a comma stands where an operand is wanted");
        }
        Some(word) if !is_odd(word) => {
            return tell!(hint; "a comma is missing before #", Word(word));
        }
        None if is(name, b",") || !is_odd(name) => {
            return hint.push_str("the line ends with a comma, behind which an operand is wanted");
        }
        _ => "# isn't a word: a word has only letters, digits and _",
    };
    let word = match wrong.operand() {
        Some(word) if !has_comma => word,
        _ => name,
    };
    tell!(hint; text, Word(word))?;
    push_meant(hint, wrong, word)
}

/// Adds in which line above the name of this line, which is that, stands already.
pub fn push_already(hint: &mut String, what: &'static str, wrong: &Wrong) -> Told {
    match wrong.above.iter().find(|line| line.name() == wrong.name) {
        Some(line) =>
            tell!(hint; "## stands in line # already", what, Word(wrong.name), line.number),
        None => Ok(()),
    }
}

/// Adds which of the labels of these lines was meant by the target.
fn push_label_missing(hint: &mut String, lines: &[Line], wrong: &Wrong) -> Told {
    let target = wrong.operand().unwrap_or(b"");
    tell!(hint; "no label is called #", Word(target))?;
    let mut nearest = Nearest::new(wrong.alloc, target)?;
    for line in lines {
        if let Some(label) = line.label() {
            nearest.try_name(label)?;
        }
    }
    nearest.push(hint)
}
