//! What to do about a register that is at fault.

use crate::refusal::known::{REGISTERS, kind_name};
use crate::refusal::places::{MOST_PLACES, Site, Use, first_of, is_among};
use crate::refusal::register::{kinds_of, missing_of};
use crate::text::Told;
use bitflags::Flags;
use zl_abs::{AbsVal, Blamed, Cause};
use zl_code::{CallName, Instr, InstrBytes, LocalInstr, Register, Start};
use zl_rights::{Kind, Rights};

/// Adds what to do about the register that is at fault, where something is known.
pub fn push_advice(hint: &mut String, site: &Site, blamed: &Blamed, cause: Cause) -> Told {
    let register = blamed.register;
    match (cause, site.state.get(blamed.register)) {
        (Cause::WrongKind, AbsVal::Has { kind: None, .. }) => push_test_of_kind(hint, site, blamed),
        (Cause::LacksRight, AbsVal::Has { kind, rights, .. }) => {
            let missing = missing_of(blamed, rights);
            match kind {
                Some(kind) if !missing.within(kind.default_rights()) => {
                    tell!(hint; "; no # has that", kind.name())
                }
                _ => push_test_of_rights(hint, site, blamed.register, kind, rights, missing),
            }
        }
        (Cause::NotLive, value) => {
            let text = advice_on_nil(site, blamed.register, value);
            tell!(hint; text, register, register)
        }
        (Cause::Leak, _) if is_of_an_earlier_round(site, blamed.register) => {
            tell!(hint; "; r# may still have the handle of the round before: close it first",
                register)
        }
        (Cause::Leak, _) => hint.push_str("; close it first, or take it to another register"),
        (Cause::NotWord, _) => hint.push_str(advice_on_numbers(site)),
        _ => Ok(()),
    }
}

/// What to do where the register has to have a handle.
fn advice_on_nil(site: &Site, register: Register, value: AbsVal) -> &'static str {
    match value {
        AbsVal::Has { maybe: true, .. } => {
            "; test r# itself, as a status teaches nothing: jz r#, .."
        }
        AbsVal::Has { .. } => "; what is sent is gone",
        AbsVal::Word(0) => advice_on_zero(site, register),
        _ => "",
    }
}

/// What to do where the register has to have a handle, and has 0.
fn advice_on_zero(site: &Site, register: Register) -> &'static str {
    let is_declared = start_of(site, register).is_some();
    if is_declared || is_written(site, site.at, register) {
        "; what is closed, sent, replaced or taken leaves 0"
    } else if start_index(register).is_some() {
        "; no .start line gives it one"
    } else {
        "; nothing above gives it one"
    }
}

/// Whether one of so many instructions, from the first on, writes the register, other than this one.
fn is_written(site: &Site, count: usize, register: Register) -> bool {
    for (number, instr) in site.image.code().iter().take(count).enumerate() {
        let parts = InstrBytes::split(instr.to_bytes());
        if number != site.at && is_among(parts, MOST_PLACES, register, Use::Write) {
            return true;
        }
    }
    false
}

/// Which start handle the register has at the start, from 0, if it can have one.
fn start_index(register: Register) -> Option<usize> {
    let number = usize::from(register.number());
    match number {
        0 => Some(0),
        2..=7 => number.checked_sub(1),
        _ => None,
    }
}

/// What is declared of the handle that the register has at the start.
fn start_of(site: &Site, register: Register) -> Option<Start> {
    site.image.starts().get(start_index(register)?).copied()
}

/// Whether what the register has, a handle, is the one of its line `.start`: nothing writes the register.
fn is_of_start(site: &Site, register: Register) -> bool {
    start_of(site, register).is_some() && !is_written(site, site.image.len(), register)
}

/// Whether the handle in the register can come from this instruction alone, done before: no start gives
/// one, and no other instruction writes the register.
fn is_of_an_earlier_round(site: &Site, register: Register) -> bool {
    start_of(site, register).is_none() && !is_written(site, site.image.len(), register)
}

/// The register that has the kind number of the handle in this one, or its rights.
fn tag_of(site: &Site, register: Register, is_kind: bool) -> Option<Register> {
    for number in 0..REGISTERS {
        let tag = Register::new(number)?;
        let tagged = match site.state.get(tag) {
            AbsVal::KindOf(tagged) if is_kind => tagged,
            AbsVal::RightsOf(tagged) if !is_kind => tagged,
            _ => continue,
        };
        if tagged.number() == register.number() {
            return Some(tag);
        }
    }
    None
}

/// Adds how to know of the handle's kind, where that can be known.
fn push_test_of_kind(hint: &mut String, site: &Site, blamed: &Blamed) -> Told {
    let Some(kind) = first_of(kinds_of(blamed)) else {
        return Ok(());
    };
    let number = kind.number();
    if let Some(tag) = tag_of(site, blamed.register, true) {
        tell!(hint; "; test its kind: jne r#, #, ..", tag, number)
    } else if is_of_start(site, blamed.register) {
        tell!(hint; "; its .start line can say # in place of any", kind.name())
    } else if has_handle_info(site) {
        tell!(hint; "; ask for its kind by handle_info, and test it: jne .., #, ..", number)
    } else {
        Ok(())
    }
}

/// Whether a program of this version can ask for the kind and the rights of a handle.
fn has_handle_info(site: &Site) -> bool {
    let opcode = CallName::HandleInfo.row().opcode;
    site.image.version().knows(opcode)
}

/// Adds how to know that the handle has the rights that are missing, where that can be known.
fn push_test_of_rights(
    hint: &mut String,
    site: &Site,
    register: Register,
    kind: Option<Kind>,
    rights: Rights,
    missing: Rights,
) -> Told {
    let all = missing.union(rights).bits();
    let missing = missing.bits();
    if let Some(tag) = tag_of(site, register, false) {
        tell!(hint; "; test its rights: jnhas r#, #, ..", tag, missing)
    } else if is_of_start(site, register) {
        tell!(hint; "; its .start line can ask for that: .start # #", kind_name(kind), all)
    } else if kind.is_some() {
        Ok(())
    } else if has_handle_info(site) {
        tell!(hint; "; ask for its rights by handle_info, and test them: jnhas .., #, ..", missing)
    } else {
        tell!(hint; "; where it lacks that, replace gives 0: replace .., r#, r#, #, and then jz r#, ..",
            register, register, all, register)
    }
}

/// What to do where a handle is read as a number by the instruction.
fn advice_on_numbers(site: &Site) -> &'static str {
    let Some(Instr::Local(instr)) = site.image.code().get(site.at) else {
        return "";
    };
    match instr {
        LocalInstr::Move { .. } => "; take moves a handle",
        LocalInstr::StoreByte { .. } | LocalInstr::StoreWord { .. } => {
            "; a handle goes into a slot array, by swap"
        }
        LocalInstr::JumpEqual { .. }
        | LocalInstr::JumpNotEqual { .. }
        | LocalInstr::JumpBelow { .. }
        | LocalInstr::JumpNotBelow { .. }
        | LocalInstr::JumpHas { .. }
        | LocalInstr::JumpHasNot { .. } => "; only jz and jnz test a handle",
        _ => "",
    }
}
