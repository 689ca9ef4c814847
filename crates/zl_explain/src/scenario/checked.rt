//! What standard error says of a checked program of a scenario that the verifier refuses.

use crate::again::{block_of, form_of, line_of_instruction, refusal_of};
use crate::refusal::push_reason;
use crate::scenario::faulty::Faulty;
use crate::text::{Told, push_head};
use zl_scenario::Form;

/// Adds why the program is refused whose block the line opens. The line that is named is that of the
/// instruction, where the block is a text.
pub fn push_refused_block(hint: &mut String, faulty: &Faulty) -> Told {
    let (alloc, form) = (faulty.alloc, form_of(&faulty.words));
    let block = block_of(alloc, &faulty.lines, faulty.number)?;
    let Some(refusal) = refusal_of(alloc, &block.lines, form) else {
        return push_head(hint, faulty.number, faulty.cause.name());
    };
    let at = refusal.at;
    let line = match form {
        Form::Asm => line_of_instruction(&block.lines, at),
        Form::Hex => None,
    };
    let number = line.unwrap_or(faulty.number);
    push_head(hint, number, refusal.cause.name())?;
    tell!(hint; "instruction #: ", at)?;
    push_reason(hint, alloc, &refusal)
}
