//! The faults of the bytes of an image.

mod guess;

use crate::again::{Line, instructions_of, line_of_byte};
use crate::image::guess::push_guess;
use crate::program::breach::{breach_at, push_breach_at};
use crate::text::{Told, plural, push_head};
use std::alloc::{AllocError, Global};
use zl_code::{DecodeFault, Ending, Image, Instr, Row, Undecoded};

/// Bytes that spell no image, and where their digits stand.
#[derive(Clone, Copy)]
pub struct Spelling<'a> {
    pub bytes: &'a [u8],
    /// Why they spell none, and which byte is at fault.
    pub undecoded: &'a Undecoded,
    /// The line that opens their block, or 0.
    pub opened: u64,
    pub lines: &'a [Line<'a>],
    /// The line behind them, or 0.
    pub ended: u64,
}

impl Spelling<'_> {
    /// The byte, or 0 past the end.
    fn byte(self, offset: usize) -> u8 {
        self.bytes.get(offset).copied().unwrap_or(0)
    }

    /// The number in so many bytes, up to four.
    fn number(self, offset: usize, length: usize) -> u32 {
        let mut number = 0;
        for place in (0..length).rev() {
            number = number << 8 | u32::from(self.byte(offset.saturating_add(place)));
        }
        number
    }

    /// The number of the instruction that has the byte of this offset, and its place there.
    fn place_of(self, offset: usize) -> (usize, usize) {
        let declared = usize::from(self.byte(17)) + usize::from(self.byte(18));
        let begin = Image::HEADER_LEN + Image::DECLARATION_LEN * declared;
        let place = offset.saturating_sub(begin);
        (place / Instr::LEN, place % Instr::LEN)
    }

    /// The line where the byte of this offset stands.
    fn line_of(self, offset: usize) -> u64 {
        line_of_byte(self.lines, offset).unwrap_or(self.ended)
    }
}

/// Adds a line that says why the bytes spell no image.
pub fn explain_image(hint: &mut String, alloc: Global, bytes: &[u8], undecoded: &Undecoded) {
    let spelling = Spelling {
        bytes,
        undecoded,
        opened: 0,
        lines: &[],
        ended: 0,
    };
    let pushed = push_image_fault(hint, alloc, spelling);
    if pushed.is_err() || hint.push_str("\n").is_err() {
        hint.clear();
    }
}

/// Adds why the bytes spell no image.
pub fn push_image_fault(hint: &mut String, alloc: Global, spelling: Spelling) -> Told {
    let at = spelling.undecoded.at();
    match spelling.undecoded.fault() {
        DecodeFault::Short => push_short(hint, spelling),
        DecodeFault::Magic => {
            push_head(hint, spelling.line_of(at), "Magic")?;
            hint.push_str("an image begins with the bytes 5a4c4142")?;
            push_guess(hint, spelling.opened, spelling.bytes)
        }
        DecodeFault::Version => {
            push_head(hint, spelling.line_of(at), "Version")?;
            tell!(hint; "byte 4 of the image is #; the versions are 1 and 2", spelling.byte(at))
        }
        DecodeFault::Length => push_length(hint, spelling, at),
        DecodeFault::BadHeader if at < Image::HEADER_LEN => push_header_fault(hint, spelling, at),
        DecodeFault::BadHeader => push_declaration_fault(hint, spelling, at),
        DecodeFault::UnknownOp => push_unknown_opcode(hint, spelling, at),
        DecodeFault::BadRegister => push_field_fault(hint, spelling, at, "BadRegister"),
        DecodeFault::UnusedField => push_field_fault(hint, spelling, at, "UnusedField"),
        DecodeFault::BadBlock => push_block_fault(hint, alloc, spelling, at),
        DecodeFault::NoMemory => Err(AllocError),
    }
}

/// Adds that the bytes are too few for a header.
fn push_short(hint: &mut String, spelling: Spelling) -> Told {
    let count = spelling.bytes.len();
    push_head(hint, spelling.opened, "Short")?;
    tell!(hint; "the image has # byte#; its header has 20", count, plural(count))?;
    push_guess(hint, spelling.opened, spelling.bytes)
}

/// Adds how many bytes there are, and how many the header asks for.
fn push_length(hint: &mut String, spelling: Spelling, asked: usize) -> Told {
    let count = spelling.bytes.len();
    push_head(hint, spelling.opened, "Length")?;
    if spelling.opened == 0 && count > Image::MOST_BYTES {
        return tell!(hint; "an image has at most # bytes", Image::MOST_BYTES);
    }
    let (starts, slots) = (spelling.byte(17), spelling.byte(18));
    tell!(hint; "the image has # bytes; its header asks for #, ", count, asked)?;
    tell!(hint; "with # start handles, # slot arrays and # instructions",
        starts, slots, spelling.number(6, 2))
}

/// Adds that the field of the header at this offset is out of its range.
fn push_header_fault(hint: &mut String, spelling: Spelling, at: usize) -> Told {
    push_head(hint, spelling.line_of(at), "BadHeader")?;
    let (length, least, most, name): (usize, usize, usize, &'static str) = match at {
        5 => (1, 0, 1, "the raw mark"),
        6 => (2, 0, Image::MOST_INSTRUCTIONS, "the number of instructions"),
        8 => (4, 0, Image::MOST_MEMORY as usize, "the data memory"),
        12 => (4, 1, Image::MOST_BUDGET as usize, "the budget"),
        17 => (1, 0, Image::MOST_STARTS, "the number of start handles"),
        18 => (1, 0, Image::MOST_SLOT_ARRAYS, "the number of slot arrays"),
        19 => (1, 0, 0, "the last byte of the header"),
        _ =>
            return tell!(hint; "the needs, at byte 16 of the image, are #; the bits 1, 2, 4, 8 and 16 are known",
            spelling.byte(at)),
    };
    tell!(hint; "#, at byte # of the image, is #; it is # to #",
        name, at, spelling.number(at, length), least, most)
}

/// Adds that the declaration that has the field at this offset is out of its range.
fn push_declaration_fault(hint: &mut String, spelling: Spelling, at: usize) -> Told {
    let place = at.saturating_sub(Image::HEADER_LEN);
    let number = place / Image::DECLARATION_LEN;
    let place = place % Image::DECLARATION_LEN;
    let (name, number) = match number.checked_sub(usize::from(spelling.byte(17))) {
        Some(slot) => ("slot array", slot),
        None => ("start handle", number),
    };
    let reason = match place {
        0 => "has an unknown kind",
        1 => "has a byte that has to be 0",
        2 => "has a length outside 1 to 256",
        _ => "has rights beyond those that its kind has by default",
    };
    let begin = at.saturating_sub(place);
    push_head(hint, spelling.line_of(begin), "BadHeader")?;
    tell!(hint; "# #, at byte # of the image, #", name, number, begin, reason)
}

/// Adds that the instruction at this offset has an opcode that isn't known.
fn push_unknown_opcode(hint: &mut String, spelling: Spelling, at: usize) -> Told {
    let (number, _) = spelling.place_of(at);
    let opcode = spelling.byte(at);
    push_head(hint, spelling.line_of(at), "UnknownOp")?;
    tell!(hint; "instruction # has the opcode #, which ", number, opcode)?;
    match Row::of_opcode(opcode) {
        Some(row) => tell!(hint; "is # in version 2 alone", row.name),
        None => hint.push_str("needs the raw mark"),
    }
}

/// Adds what is wrong with the field at this offset of an instruction whose opcode is known.
fn push_field_fault(hint: &mut String, spelling: Spelling, at: usize, cause: &str) -> Told {
    let (number, place) = spelling.place_of(at);
    let Some(row) = Row::of_opcode(spelling.byte(at.saturating_sub(place))) else {
        return Ok(());
    };
    let (shown, text) = match spelling.undecoded.fault() {
        DecodeFault::UnusedField => (at, "has # in its byte #, which it doesn't use"),
        // No byte alone is at fault: the line is that of the byte behind the instruction.
        _ if place == 8 && matches!(row.columns.ending, Ending::Room) => (
            at.saturating_add(8),
            "has room for over 8 handles, or past register 31",
        ),
        _ => (at, "has # in its byte #; registers are 0 to 31"),
    };
    push_head(hint, spelling.line_of(shown), cause)?;
    tell!(hint; "instruction #, #, ", number, row.name)?;
    tell!(hint; text, spelling.byte(at), place)
}

/// Adds which rep, endrep or jump of the instructions, which begin at this offset, breaks the rule of
/// blocks, and how.
fn push_block_fault(hint: &mut String, alloc: Global, spelling: Spelling, begin: usize) -> Told {
    let code = instructions_of(alloc, spelling.bytes.get(begin..).unwrap_or(&[]))?;
    for (number, instr) in code.iter().enumerate() {
        if let Some(text) = breach_at(code.as_slice(), number) {
            let offset = begin.saturating_add(number.saturating_mul(Instr::LEN));
            push_head(hint, spelling.line_of(offset), "BadBlock")?;
            return push_breach_at(hint, number, instr, text);
        }
    }
    push_head(hint, spelling.opened, "BadBlock")?;
    hint.push_str("rep and endrep don't nest, or a jump leads into a block or out of one")
}
