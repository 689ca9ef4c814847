//! What is read from an input once more, and only here.
//!
//! A fault brings numbers: which line is wrong, and which of its words, bytes or instructions. A text wants
//! more: how the words are spelled, which line above has the same name, what the lines of a block spell,
//! which objects the statements above make. Nothing that is proved carries that, so that it costs nothing
//! before something is refused; then it is read from the input, and by the readers themselves where they
//! can say it. Only where a trace leads is read in `zlab`, which has the worlds.

use crate::text::Told;
use std::alloc::{AllocError, Global};
use zl_asm::words::is;
use zl_asm::{AsmFault, assemble_bytes};
use zl_code::{Instr, Statement, Version};
use zl_lines::{is_comment, split_words};
use zl_rights::Kind;
use zl_scenario::{Body, Form, Scenario, read_scenario};
use zl_verify::{Refusal, check};

/// A line of an input.
#[derive(Clone, Copy)]
pub struct Line<'a> {
    /// Which it is, from 1.
    pub number: u64,
    pub bytes: &'a [u8],
}

impl<'a> Line<'a> {
    /// The first word of a line of a text; an empty one where it has none, or begins with a comma.
    pub fn name(&self) -> &'a [u8] {
        let mut words = self.code().split(|byte| *byte == b' ');
        let first = words.find(|word| !word.is_empty()).unwrap_or(b"");
        first.split(|byte| *byte == b',').next().unwrap_or(b"")
    }

    /// What stands in front of the comment of a line of a text.
    pub fn code(&self) -> &'a [u8] {
        self.bytes.split(|byte| *byte == b';').next().unwrap_or(b"")
    }

    /// The label that the line of a text begins with.
    pub fn label(&self) -> Option<&'a str> {
        str::from_utf8(self.name()).unwrap_or("").strip_suffix(':')
    }

    /// Whether the line of a text has a label or an instruction.
    pub fn is_code(&self) -> bool {
        let name = self.name();
        !name.is_empty() && (!name.starts_with(b".") || is(name, b".bytes"))
    }
}

/// Where the first byte outside ASCII stands.
pub fn place_outside_ascii(line: &[u8]) -> Option<usize> {
    line.iter().position(|byte| !byte.is_ascii())
}

/// Where the first tab or carriage return stands.
pub fn place_of_blank(line: &[u8]) -> Option<usize> {
    line.iter().position(|byte| matches!(byte, b'\t' | b'\r'))
}

/// The lines of an input.
pub fn numbered_lines<'a>(alloc: Global, input: &'a [u8]) -> Result<Vec<Line<'a>>, AllocError> {
    let mut lines = Vec::new(alloc);
    for (index, bytes) in input.split(|byte| *byte == b'\n').enumerate() {
        let number = index as u64 + 1;
        lines.push(Line { number, bytes })?;
    }
    Ok(lines)
}

/// The line of this number, from 1, where no other line is wanted.
pub fn line_at(text: &[u8], number: u64) -> Option<&[u8]> {
    let above = number.checked_sub(1)?;
    text.split(|byte| *byte == b'\n').nth(above as usize)
}

/// The words of a line of a scenario or a trace.
pub fn words_of<'a>(alloc: Global, line: &'a [u8]) -> Result<Vec<&'a [u8]>, AllocError> {
    let mut words = Vec::new(alloc);
    split_words(&mut words, line)?;
    Ok(words)
}

/// How many blocks of `rep` are open behind these lines of a text.
pub fn blocks_open(lines: &[Line]) -> usize {
    let mut depth = 0usize;
    for line in lines {
        if is(line.name(), b"endrep") {
            depth = depth.saturating_sub(1);
        } else if is(line.name(), b"rep") {
            depth = depth.saturating_add(1);
        }
    }
    depth
}

/// The number of the line of the instruction of this place, from 0, among the lines of a text.
pub fn line_of_instruction(lines: &[Line], place: usize) -> Option<u64> {
    let mut code = lines
        .iter()
        .filter(|line| line.is_code() && line.label().is_none());
    Some(code.nth(place)?.number)
}

/// The number of the line of the start handle of this place, from 0, among the lines of a text.
pub fn line_of_start(lines: &[Line], place: usize) -> Option<u64> {
    let mut starts = lines.iter().filter(|line| is(line.name(), b".start"));
    Some(starts.nth(place)?.number)
}

/// The instructions that the bytes spell. Only version 2 has blocks.
pub fn instructions_of(alloc: Global, bytes: &[u8]) -> Result<Vec<Instr>, AllocError> {
    let (pieces, _) = bytes.as_chunks::<{ Instr::LEN }>();
    let mut code = Vec::new(alloc);
    for piece in pieces {
        if let Ok(instr) = Instr::from_bytes(Version::Two, true, *piece) {
            code.push(instr)?;
        }
    }
    Ok(code)
}

/// Whether the words open a block.
pub fn is_opening(words: &[&[u8]]) -> bool {
    let [name, mark, form] = words else {
        return false;
    };
    let is_mark = is(mark, b"raw") || is(mark, b"checked");
    is(name, b"program") && is_mark && (is(form, b"hex") || is(form, b"asm"))
}

/// How the block is written that the words open.
pub fn form_of(words: &[&[u8]]) -> Form {
    match words {
        [_, _, form] if is(form, b"hex") => Form::Hex,
        _ => Form::Asm,
    }
}

/// The block of a program.
#[derive(Drop)]
pub struct Block<'a> {
    /// The number of the line that opens it.
    pub opened: u64,
    /// Its lines, without comments.
    pub lines: Vec<Line<'a>>,
    /// How it ends.
    pub end: End<'a>,
}

/// How a block ends.
#[derive(Clone, Copy)]
pub enum End<'a> {
    /// By the line of this number.
    At(u64),
    /// Not before the input does.
    Missing,
    /// Before this line, which isn't ASCII in this place.
    Odd(Line<'a>, usize),
}

/// The block that the line of this number opens, among the lines of an input.
pub fn block_of<'a>(alloc: Global, input: &[Line<'a>], opened: u64) -> Told<Block<'a>> {
    let mut lines = Vec::new(alloc);
    let mut end = End::Missing;
    for line in input.get(opened as usize..).unwrap_or(&[]) {
        if let Some(place) = place_outside_ascii(line.bytes) {
            end = End::Odd(*line, place);
            break;
        }
        if is_end(line.bytes) {
            end = End::At(line.number);
            break;
        }
        if !is_comment(line.bytes) {
            lines.push(*line)?;
        }
    }
    Ok(Block { opened, lines, end })
}

/// Whether the line ends a block.
fn is_end(line: &[u8]) -> bool {
    str::from_utf8(line).is_ok_and(|text| text.trim_matches(' ') == "end")
}

/// The value of a digit of a block.
pub fn hex_digit(byte: u8) -> Option<u8> {
    match byte {
        b'0'..=b'9' => Some(byte - b'0'),
        b'a'..=b'f' => Some(byte - b'a' + 10),
        _ => None,
    }
}

/// How many digits the lines of a block have, and the bytes of which each two of them are one.
pub fn bytes_of(alloc: Global, lines: &[Line]) -> Told<(usize, Vec<u8>)> {
    let mut count = 0usize;
    let mut bytes: Vec<u8> = Vec::new(alloc);
    for line in lines {
        for digit in line.bytes.iter().filter_map(|byte| hex_digit(*byte)) {
            match bytes.last_mut() {
                Some(byte) if count % 2 == 1 => *byte = byte.wrapping_mul(16).wrapping_add(digit),
                _ => bytes.push(digit)?,
            }
            count = count.saturating_add(1);
        }
    }
    Ok((count, bytes))
}

/// The number of the line of a block where the digits of the byte of this offset stand.
pub fn line_of_byte(lines: &[Line], offset: usize) -> Option<u64> {
    let mut digits = 0usize;
    for line in lines {
        let in_line = line.bytes.iter().filter(|byte| **byte != b' ');
        digits = digits.saturating_add(in_line.count());
        if digits > offset.saturating_mul(2) {
            return Some(line.number);
        }
    }
    None
}

/// Why the lines of a block of text denote no image, if they don't.
pub fn fault_of_text(alloc: Global, lines: &[Line]) -> Told<Option<AsmFault>> {
    let mut text = Vec::new(alloc);
    for line in lines {
        text.extend_from_slice(line.bytes)?;
        text.push(b'\n')?;
    }
    Ok(assemble_bytes(alloc, text.as_slice()).err())
}

/// Why the program of the lines of a block is refused, if it is an image that is.
pub fn refusal_of(alloc: Global, lines: &[Line], form: Form) -> Option<Refusal> {
    let mut body = Body::new(alloc);
    body.open(form);
    for line in lines {
        body.push_line(line.bytes).ok()?;
    }
    check(alloc, body.image(alloc).ok()?).err()
}

/// What stands above a line of a scenario.
#[derive(Drop)]
pub struct Above {
    /// What the reader makes of the input, up to a fault of its own.
    pub scenario: Scenario,
    /// How many statements stand above the line.
    pub count: usize,
    /// The kind of each object that these make, by its koid from 1: the first is the root job.
    pub objects: Vec<Kind>,
}

impl Above {
    /// What stands above the line of this number.
    pub fn new(alloc: Global, input: &[u8], line: u64) -> Result<Above, AllocError> {
        let scenario = read_scenario(alloc, input)?.scenario;
        let count = scenario.lines.iter().filter(|made| **made < line).count();
        let mut objects = Vec::new(alloc);
        objects.push(Kind::Job)?;
        for statement in scenario.boot.statements.iter().take(count) {
            objects.extend_from_slice(made_by(statement))?;
        }
        Ok(Above {
            scenario,
            count,
            objects,
        })
    }
}

/// The kinds of the objects that the statement makes.
fn made_by(statement: &Statement) -> &'static [Kind] {
    match statement {
        Statement::Job { .. } => &[Kind::Job],
        Statement::Policy { .. } => &[],
        Statement::Event => &[Kind::Event],
        Statement::Port => &[Kind::Port],
        Statement::Channel => &[Kind::Channel, Kind::Channel],
        Statement::Eventpair => &[Kind::Eventpair, Kind::Eventpair],
        Statement::Process { .. } => &[Kind::Process],
    }
}

/// Whether a line of the input, which isn't refused, is a statement or part of one.
pub fn has_statements(input: &[u8]) -> bool {
    for line in input.split(|byte| *byte == b'\n') {
        let words = line.trim_ascii();
        if is(words, b"--") {
            return false;
        }
        if !words.is_empty() && !is_comment(line) {
            return true;
        }
    }
    false
}

/// The number of the line of the turns of this place, from 0, among the lines of an input; 0 for none.
pub fn line_of_turns(alloc: Global, lines: &[Line], place: usize) -> Result<u64, AllocError> {
    let mut left = place;
    let mut is_below = false;
    for line in lines {
        let words = words_of(alloc, line.bytes)?;
        match words.as_slice() {
            [word] if is(word, b"--") => is_below = true,
            [_, ..] if is_below && !is_comment(line.bytes) => {
                if left == 0 {
                    return Ok(line.number);
                }
                left -= 1;
            }
            _ => {}
        }
    }
    Ok(0)
}

/// The number of the line of a trace that has the item of this place, from 1; 0 for none.
pub fn line_of_item(alloc: Global, trace: &[u8], place: usize) -> Result<u64, AllocError> {
    let mut left = place;
    let mut words = Vec::new(alloc);
    for (index, line) in trace.split(|byte| *byte == b'\n').enumerate() {
        split_words(&mut words, line)?;
        if !words.is_empty() && !is_comment(line) {
            left = left.saturating_sub(1);
            if left == 0 {
                return Ok(index as u64 + 1);
            }
        }
    }
    Ok(0)
}
