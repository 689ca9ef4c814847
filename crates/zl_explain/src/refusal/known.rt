//! What is known of a register, in words.

use crate::name::rights::push_right_names;
use crate::text::Told;
use bitflags::Flags;
use zl_abs::{AbsState, AbsVal};
use zl_code::Register;
use zl_rights::{Kind, Rights};

/// How many registers there are.
pub const REGISTERS: u8 = Register::COUNT as u8;

/// The name of the kind; `any` where it isn't known.
pub fn kind_name(kind: Option<Kind>) -> &'static str {
    match kind {
        Some(kind) => kind.name(),
        None => "any",
    }
}

/// Adds what is known of a value.
pub fn push_value(hint: &mut String, value: AbsVal) -> Told {
    let (text, number) = match value {
        AbsVal::Word(0) => ("0", 0),
        AbsVal::Word(u64::MAX) => ("any number", 0),
        AbsVal::Word(most) => ("a number up to #", most),
        AbsVal::KindOf(_) => ("the kind number of a handle, or 0", 0),
        AbsVal::RightsOf(_) => ("the rights of a handle, or 0", 0),
        AbsVal::Has {
            maybe,
            kind,
            rights,
        } => return push_handle(hint, maybe, kind, rights),
    };
    tell!(hint; text, number)
}

/// Adds what is known of a handle.
fn push_handle(hint: &mut String, maybe: bool, kind: Option<Kind>, rights: Rights) -> Told {
    let text = if maybe {
        "0 or a handle (#, "
    } else {
        "a handle (#, "
    };
    tell!(hint; text, kind_name(kind))?;
    match kind {
        Some(kind) if rights == kind.default_rights() => hint.push_str("all rights")?,
        _ => push_rights(hint, rights)?,
    }
    hint.push_str(")")
}

/// Adds the names of the rights.
pub fn push_rights(hint: &mut String, rights: Rights) -> Told {
    if rights.is_empty() {
        return hint.push_str("no rights");
    }
    push_right_names(hint, rights, ", ")
}

/// Adds what the registers hold, but for those that hold 0.
pub fn push_state(hint: &mut String, state: &AbsState) -> Told {
    hint.push_str("; before it")?;
    for number in 0..REGISTERS {
        let Some(register) = Register::new(number) else {
            continue;
        };
        let value = state.get(register);
        if !matches!(value, AbsVal::Word(0)) {
            tell!(hint; " r# has ", register)?;
            push_value(hint, value)?;
            hint.push_str(",")?;
        }
    }
    hint.push_str(" and the others 0")
}
