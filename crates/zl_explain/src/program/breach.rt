//! Which rule of counted blocks is broken, in bytes and in a text.

use crate::again::blocks_open;
use crate::program::Wrong;
use crate::text::Told;
use zl_asm::numbers::number;
use zl_asm::words::is;
use zl_code::{Image, Instr, InstrBytes, LocalInstr, Row};

/// How many blocks the instruction of this number is in, and the rep of the innermost.
pub fn blocks_at(code: &[Instr], n: usize) -> (usize, Option<usize>) {
    let mut depth = 0usize;
    let mut closed = 0usize;
    let mut innermost = None;
    for (place, instr) in code.get(..n).unwrap_or(&[]).iter().enumerate().rev() {
        match instr {
            Instr::Local(LocalInstr::EndRep { .. }) => closed = closed.saturating_add(1),
            Instr::Local(LocalInstr::Rep { .. }) if closed > 0 => closed -= 1,
            Instr::Local(LocalInstr::Rep { .. }) => {
                depth = depth.saturating_add(1);
                innermost = innermost.or(Some(place));
            }
            _ => {}
        }
    }
    (depth, innermost)
}

/// The instruction of this number, if it is a local one.
fn local_at(code: &[Instr], n: usize) -> Option<LocalInstr> {
    match code.get(n) {
        Some(Instr::Local(local)) => Some(*local),
        _ => None,
    }
}

/// How the instruction of this number breaks the rule, if it does: a text with a place for its target.
pub fn breach_at(code: &[Instr], n: usize) -> Option<&'static str> {
    let local = local_at(code, n)?;
    let (depth, innermost) = blocks_at(code, n);
    match local {
        LocalInstr::Rep { count, end } => match (
            rep_fault(count, depth),
            local_at(code, end as usize),
        ) {
            (None, Some(LocalInstr::EndRep { rep })) if rep as usize == n => None,
            (None, _) => Some("no endrep at # belongs to it"),
            (fault, _) => fault,
        },
        LocalInstr::EndRep { rep } => match local_at(code, rep as usize) {
            Some(LocalInstr::Rep { end, .. })
                if end as usize == n && innermost == Some(rep as usize) => None,
            _ => Some("# isn't the rep of its block"),
        },
        _ => {
            let target = local.target()? as usize;
            // Behind the code there is no block.
            let (_, other) = if target < code.len() {
                blocks_at(code, target)
            } else {
                (0, None)
            };
            if innermost == other {
                None
            } else {
                Some("it leads to #, which isn't in the same blocks")
            }
        }
    }
}

/// Adds how the instruction, which has this number, breaks the rule.
pub fn push_breach_at(hint: &mut String, number: usize, instr: &Instr, text: &str) -> Told {
    let parts = InstrBytes::split(instr.to_bytes());
    if let Some(row) = Row::of_opcode(parts.opcode) {
        tell!(hint; "instruction #, #: ", number, row.name)?;
    }
    tell!(hint; text, parts.target())
}

/// What is wrong with a rep itself, in so many blocks.
fn rep_fault(turns: u32, depth: usize) -> Option<&'static str> {
    if turns == 0 || turns > Image::MOST_TURNS {
        Some("a block has 1 to 1000000 turns")
    } else if depth >= Image::MOST_BLOCKS {
        Some("it is in 4 blocks, and no more go into one another")
    } else {
        None
    }
}

/// Adds how the line breaks the rule.
pub fn push_breach(hint: &mut String, wrong: &Wrong) -> Told {
    if is(wrong.name, b"endrep") {
        return hint.push_str("no block is open here; rep N begins one, and endrep ends it");
    }
    if !is(wrong.name, b"rep") {
        return hint.push_str(
            "it leads into a block or out of one, and a jump stays in its blocks; the endrep is \
             inside, the rep isn't",
        );
    }
    let turns = wrong.operands.first().and_then(|word| number(word));
    let text = rep_fault(turns.unwrap_or(0), blocks_open(wrong.above));
    hint.push_str(text.unwrap_or("no line endrep ends this block"))
}
