//! What is wrong with the slot array of a call.

use crate::refusal::known::{kind_name, push_rights};
use crate::refusal::places::Site;
use crate::text::Told;
use bitflags::Flags;
use zl_abs::Cause;
use zl_code::{CallName, Ending, InstrBytes, SlotArray};
use zl_rights::Rights;

/// What the last eight bytes of the call hold, if they name a slot array.
fn ending_of(site: &Site) -> Option<Ending> {
    let Some(call) = site.image.call_at(site.at) else {
        return None;
    };
    let ending = call.name.row().columns.ending;
    match ending {
        Ending::FromSlots | Ending::IntoSlots => Some(ending),
        _ => None,
    }
}

/// The same, if the slot array isn't there.
pub fn missing_array(site: &Site) -> Option<Ending> {
    match site.image.slots().get(site.parts.imm() as usize) {
        Some(_) => None,
        None => ending_of(site),
    }
}

/// Adds what the slot array of the call has and what was wanted, if it is at fault for the cause.
pub fn push_array(hint: &mut String, site: &Site, cause: Cause) -> Told<bool> {
    let Some(array) = site.image.slots().get(site.parts.imm() as usize) else {
        return Ok(false);
    };
    match (ending_of(site), cause) {
        (Some(Ending::FromSlots), Cause::LacksRight) => push_unsendable(hint, site, array)?,
        (Some(Ending::IntoSlots), Cause::WrongKind | Cause::LacksRight) => {
            push_unfillable(hint, site, array)?
        }
        _ => return Ok(false),
    }
    Ok(true)
}

/// Adds that the handles of the slot array may lack the right to be sent.
fn push_unsendable(hint: &mut String, site: &Site, array: &SlotArray) -> Told {
    let needed = Rights::TRANSFER;
    tell!(hint; "the handles of slot array # have to have ", site.parts.imm())?;
    push_rights(hint, needed)?;
    let bits = needed.bits();
    tell!(hint; " (#), and have ", bits)?;
    push_rights(hint, array.rights)?;
    if is_used_by(site, CallName::ChanReadSlots) {
        return hint.push_str(
            "; chan_read_slots fills it with what may lack that: send from another array",
        );
    }
    let rights = array.rights.union(needed).bits();
    tell!(hint; "; its line can ask for that: .slots # # #",
        kind_name(array.kind), array.length, rights)
}

/// Adds that the slot array is for handles of a kind, or with rights, that a received one may not have.
fn push_unfillable(hint: &mut String, site: &Site, array: &SlotArray) -> Told {
    let number = site.parts.imm();
    match array.kind {
        Some(kind) => {
            tell!(hint; "slot array # is for the kind #, and a received handle may be of any",
                number, kind.name())?;
        }
        None => {
            tell!(hint; "slot array # is for handles with ", number)?;
            push_rights(hint, array.rights)?;
            hint.push_str(", and a received one may have no rights")?;
        }
    }
    if is_used_by(site, CallName::ChanWriteSlots) {
        hint.push_str("; chan_write_slots sends from it: receive into another array")
    } else {
        tell!(hint; ": .slots any # 0", array.length)
    }
}

/// Whether such a call of the program has the slot array too.
fn is_used_by(site: &Site, name: CallName) -> bool {
    let opcode = name.row().opcode;
    for instr in site.image.code() {
        let parts = InstrBytes::split(instr.to_bytes());
        if parts.opcode == opcode && parts.imm() == site.parts.imm() {
            return true;
        }
    }
    false
}
