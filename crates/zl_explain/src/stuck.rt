//! Why a process is stuck.

pub mod arrays;
pub mod instr_text;

use crate::stuck::arrays::push_no_array;
use crate::stuck::instr_text::push_instr_text;
use crate::text::{Told, plural};
use std::alloc::Global;
use zl_code::{CallInstr, Ending, Image, Instr, LocalInstr, Register};

/// A stuck process.
#[derive(Clone, Copy)]
pub struct Stuck<'a> {
    pub pid: u64,
    pub image: &'a Image,
    /// The number of the instruction at which it is.
    pub counter: usize,
    /// What its registers hold.
    pub registers: &'a [u64],
}

impl Stuck<'_> {
    /// What the register holds.
    fn register(self, register: Register) -> u64 {
        let number = usize::from(register.number());
        self.registers.get(number).copied().unwrap_or(0)
    }
}

/// Adds a line that says at which instruction the process is stuck, and why.
pub fn explain_stuck(hint: &mut String, alloc: Global, stuck: Stuck) {
    if push_stuck(hint, alloc, stuck).is_err() {
        hint.clear();
    }
}

fn push_stuck(hint: &mut String, alloc: Global, stuck: Stuck) -> Told {
    tell!(hint; "zlab: process # is stuck at instruction #", stuck.pid, stuck.counter)?;
    match stuck.image.instr_at(stuck.counter) {
        Some(instr) => {
            hint.push_str(", ")?;
            push_instr_text(hint, alloc, stuck.image, stuck.counter)?;
            push_reason(hint, stuck, instr)?;
        }
        None => push_no_instr(hint, stuck.image.len())?,
    }
    hint.push_str("\n")
}

/// Adds that the code, of so many instructions, has none there.
fn push_no_instr(hint: &mut String, count: usize) -> Told {
    let text = match count {
        0 => ": the program has no instruction",
        _ => ", outside the code: the last instruction is #",
    };
    tell!(hint; text, count.saturating_sub(1))
}

/// Adds why the instruction can't be done.
fn push_reason(hint: &mut String, stuck: Stuck, instr: Instr) -> Told {
    match &instr {
        Instr::Unknown(bytes) => tell!(hint; ": no instruction has the opcode #", bytes[0]),
        Instr::Call(call) => match call.name.row().columns.ending {
            Ending::Handles | Ending::Room => push_no_bytes(hint, stuck, call),
            Ending::FromSlots | Ending::IntoSlots => push_no_slots(hint, stuck, call),
            // every other call is answered
            _ => Ok(()),
        },
        Instr::Local(local) => push_outside(hint, stuck, *local),
    }
}

/// What is wrong with an address that is a sum.
const BYTE: &str = ": the byte at # + # doesn't lie in the memory of # bytes";

const WORD: &str = ": the 8 bytes at # + # don't all lie in the memory of # bytes";

/// Adds which address is outside the memory, or which slot isn't there.
fn push_outside(hint: &mut String, stuck: Stuck, local: LocalInstr) -> Told {
    let (text, base, offset) = match local {
        LocalInstr::Swap { place, array, .. } => return push_no_slot(hint, stuck, place, array),
        LocalInstr::LoadByte { base, offset, .. } => (BYTE, base, offset),
        LocalInstr::LoadWord { base, offset, .. } => (WORD, base, offset),
        LocalInstr::StoreByte { base, offset, .. } => (BYTE, base, offset),
        LocalInstr::StoreWord { base, offset, .. } => (WORD, base, offset),
        _ => return Ok(()),
    };
    tell!(hint; text, stuck.register(base), offset, stuck.image.memory())
}

/// Adds that the bytes of a call, whose address and length are in its third and its fourth register,
/// aren't all in the memory.
fn push_no_bytes(hint: &mut String, stuck: Stuck, call: &CallInstr) -> Told {
    let [_, _, address, length, ..] = call.registers;
    let (address, length) = (stuck.register(address), stuck.register(length));
    let memory = stuck.image.memory();
    if length == 1 {
        return tell!(hint; ": the byte at # doesn't lie in the memory of # bytes", address, memory);
    }
    tell!(hint; ": the # bytes at # don't all lie in the memory of # bytes",
        length, address, memory)
}

/// Adds that the bytes of a call aren't all in the memory, that its slot array isn't there, or that
/// this has fewer places than the call sends from.
fn push_no_slots(hint: &mut String, stuck: Stuck, call: &CallInstr) -> Told {
    let [_, _, address, length, count, ..] = call.registers;
    let end = stuck
        .register(address)
        .saturating_add(stuck.register(length));
    if end > u64::from(stuck.image.memory()) {
        return push_no_bytes(hint, stuck, call);
    }
    let array = call.number();
    match stuck.image.slots().get(array as usize) {
        Some(slots) => {
            let places = usize::from(slots.length);
            tell!(hint; ": slot array # has # place#, and r# asks for #",
                array, places, plural(places), count, stuck.register(count))
        }
        None => push_missing(hint, stuck, array, call.name.row().columns.ending),
    }
}

/// Adds that the slot array of an instruction with this ending isn't there.
fn push_missing(hint: &mut String, stuck: Stuck, array: u32, ending: Ending) -> Told {
    hint.push_str(": ")?;
    push_no_array(hint, stuck.image, array, ending)
}

/// Adds that the slot array or its place isn't there.
fn push_no_slot(hint: &mut String, stuck: Stuck, place: Register, array: u32) -> Told {
    match stuck.image.slots().get(array as usize) {
        Some(slots) => {
            let last = slots.length.saturating_sub(1);
            tell!(hint; ": slot array # has no place #; its last one is #",
                array, stuck.register(place), last)
        }
        None => push_missing(hint, stuck, array, Ending::Number),
    }
}
