//! Which address may lie outside the memory, or which place outside a slot array.

use crate::refusal::places::Site;
use crate::text::Told;
use zl_code::{Ending, Image, Instr, InstrBytes, LocalInstr, Register};

/// Adds how far the instruction may go, and how far it can.
pub fn push_range(hint: &mut String, site: &Site) -> Told {
    let Some(instr) = site.image.instr_at(site.at) else {
        return Ok(());
    };
    let parts = InstrBytes::split(instr.to_bytes());
    let offset = parts.imm();
    let [first, second, third, fourth, fifth, ..] = parts.registers;
    match &instr {
        Instr::Local(LocalInstr::Swap { .. }) => push_slots(hint, site, second, offset, 0),
        Instr::Local(LocalInstr::LoadByte { .. }) => push_bytes(hint, site, second, offset, 1),
        Instr::Local(LocalInstr::LoadWord { .. }) => push_bytes(hint, site, second, offset, 8),
        Instr::Local(LocalInstr::StoreByte { .. }) => push_bytes(hint, site, first, offset, 1),
        Instr::Local(LocalInstr::StoreWord { .. }) => push_bytes(hint, site, first, offset, 8),
        Instr::Call(call) => match call.name.row().columns.ending {
            // a count may be the length itself
            Ending::FromSlots if is_message_there(site, third, fourth) => {
                push_slots(hint, site, fifth, offset, 1)
            }
            _ => push_message(hint, site, third, fourth),
        },
        _ => Ok(()),
    }
}

/// What the number in the register is at most.
fn bound_of(site: &Site, register: u8) -> u64 {
    match Register::new(register) {
        Some(register) => site.state.get(register).bound().unwrap_or(u64::MAX),
        None => u64::MAX,
    }
}

/// Adds what the register, which names a place of the slot array or counts places, may be, and how many
/// places there are. The first number that is too large is so much above their count.
fn push_slots(hint: &mut String, site: &Site, register: u8, array: u32, above: u64) -> Told {
    let length = match site.image.slots().get(array as usize) {
        Some(slots) => u64::from(slots.length),
        None => 0,
    };
    tell!(hint; "r#", register)?;
    push_most(hint, bound_of(site, register))?;
    tell!(hint; ", and slot array # has the length #: jge r#, #, ..",
        array, length, register, length.saturating_add(above))
}

/// Whether the bytes of a message lie in the memory, whatever the registers hold.
fn is_message_there(site: &Site, address: u8, length: u8) -> bool {
    let end = bound_of(site, address).saturating_add(bound_of(site, length));
    end <= u64::from(site.image.memory())
}

/// Adds how far so many bytes may go from the register and the offset on.
fn push_bytes(hint: &mut String, site: &Site, base: u8, offset: u32, bytes: u64) -> Told {
    let offset = u64::from(offset);
    let unit = if bytes == 1 { "byte" } else { "bytes" };
    tell!(hint; "r# + # + # #", base, offset, bytes, unit)?;
    push_end(hint, site, base, offset.saturating_add(bytes))
}

/// Adds how far a message may go, by its address and its length. The one that has to be tested is the
/// length, where the address lies in the memory.
fn push_message(hint: &mut String, site: &Site, address: u8, length: u8) -> Told {
    tell!(hint; "r# + r#", address, length)?;
    let first = bound_of(site, address);
    if first <= u64::from(site.image.memory()) {
        push_end(hint, site, length, first)
    } else {
        push_end(hint, site, address, bound_of(site, length))
    }
}

/// Adds up to where the register and the rest may go, and what keeps them in the memory.
fn push_end(hint: &mut String, site: &Site, register: u8, rest: u64) -> Told {
    let memory = u64::from(site.image.memory());
    let end = bound_of(site, register).saturating_add(rest);
    push_most(hint, end)?;
    tell!(hint; ", and the memory has #", memory)?;
    let mut separator = ": ";
    if let Some(most) = memory.checked_sub(rest) {
        tell!(hint; ": jge r#, #, ..", register, most.saturating_add(1))?;
        separator = " or ";
    }
    if end <= u64::from(Image::MOST_MEMORY) {
        tell!(hint; "#.memory #", separator, end)?;
    }
    Ok(())
}

/// Adds what a number may be at most.
fn push_most(hint: &mut String, most: u64) -> Told {
    let text = match most {
        u64::MAX => " may be any number",
        _ => " may be #",
    };
    tell!(hint; text, most)
}
