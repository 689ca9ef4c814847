//! The faults of the block of a program, whose answer names the line that opens it.

use crate::again::{Block, End, Line, block_of, bytes_of, fault_of_text, hex_digit};
use crate::image::{Spelling, push_image_fault};
use crate::program::meant::{push_meant_in_hex, slip_of};
use crate::program::push_program_fault;
use crate::text::Value::Word;
use crate::text::{Told, push_head, push_odd_byte};
use std::alloc::Global;
use zl_asm::words::is;
use zl_code::decode;

/// Adds what is wrong with the block that the line opens with these words.
pub fn push_block_fault(
    hint: &mut String,
    alloc: Global,
    input: &[Line],
    opened: u64,
    words: &[&[u8]],
) -> Told {
    let [_, mark, form] = words else {
        return Ok(());
    };
    let block = block_of(alloc, input, opened)?;
    let is_hex = is(form, b"hex");
    if is_hex && push_odd_digit(hint, block.lines.as_slice(), mark)? {
        return Ok(());
    }
    match block.end {
        End::At(ended) if is_hex => push_digits_fault(hint, alloc, &block, ended),
        End::At(_) => push_text_fault(hint, alloc, block.lines.as_slice()),
        End::Missing => {
            push_head(hint, opened, "Syntax")?;
            push_no_end(hint, block.lines.as_slice())
        }
        End::Odd(line, place) => {
            push_head(hint, line.number, "Syntax")?;
            push_odd_byte(hint, line.bytes, place)
        }
    }
}

/// Adds that these lines, all up to the end of the input, have no end, and which of them is the first
/// that tells where it belongs.
fn push_no_end(hint: &mut String, lines: &[Line]) -> Told {
    hint.push_str("no line end closes this block")?;
    for line in lines {
        if let Some(slip) = slip_of(line.name()) {
            let shown = Word(line.bytes.trim_ascii());
            return tell!(hint; "; line # is #: #", line.number, shown, slip);
        }
    }
    Ok(())
}

/// Adds which byte is the first that stands in no block of digits, if one does, and what was meant by
/// its line. The program has this mark.
fn push_odd_digit(hint: &mut String, lines: &[Line], mark: &[u8]) -> Told<bool> {
    for line in lines {
        let is_odd = |byte: &u8| *byte != b' ' && hex_digit(*byte).is_none();
        if let Some(place) = line.bytes.iter().position(is_odd) {
            push_head(hint, line.number, "Syntax")?;
            push_no_digit(hint, line.bytes, place)?;
            push_meant_in_hex(hint, line, mark)?;
            return Ok(true);
        }
    }
    Ok(false)
}

/// Adds what the byte is that stands in no block of digits.
fn push_no_digit(hint: &mut String, line: &[u8], place: usize) -> Told {
    match line.get(place) {
        Some(byte) if byte.is_ascii_graphic() => {
            let odd = Word(&line[place..place + 1]);
            tell!(hint; "byte # of the line is #; digits are 0 to 9 and a to f", place + 1, odd)
        }
        _ => push_odd_byte(hint, line, place),
    }
}

/// Adds why the text of these lines denotes no image.
fn push_text_fault(hint: &mut String, alloc: Global, lines: &[Line]) -> Told {
    match fault_of_text(alloc, lines)? {
        Some(fault) => push_program_fault(hint, alloc, lines, fault),
        None => Ok(()),
    }
}

/// Adds why the digits of the block, which ends at this line, spell no image.
fn push_digits_fault(hint: &mut String, alloc: Global, block: &Block, ended: u64) -> Told {
    let (count, bytes) = bytes_of(alloc, block.lines.as_slice())?;
    if count % 2 == 1 {
        push_head(hint, block.opened, "Syntax")?;
        return tell!(hint; "the block has # digits; a byte has two", count);
    }
    let Err(undecoded) = decode(alloc, bytes.as_slice()) else {
        return Ok(());
    };
    let spelling = Spelling {
        bytes: bytes.as_slice(),
        undecoded: &undecoded,
        opened: block.opened,
        lines: block.lines.as_slice(),
        ended,
    };
    push_image_fault(hint, alloc, spelling)
}
