//! The text of one instruction.

use crate::text::Told;
use std::alloc::Global;
use zl_asm::disassemble;
use zl_code::Image;

/// Adds the text of the instruction of this number.
pub fn push_instr_text(hint: &mut String, alloc: Global, image: &Image, number: usize) -> Told {
    let text = disassemble(alloc, image)?;
    let is_instr = |line: &&str| {
        !line.ends_with(':') && (!line.starts_with('.') || line.starts_with(".bytes"))
    };
    match text.lines().filter(is_instr).nth(number) {
        Some(line) => hint.push_str(line),
        None => Ok(()),
    }
}
