//! Which register is at fault, what was wanted of it, and what it has.

use crate::refusal::advice::push_advice;
use crate::refusal::known::{push_rights, push_value};
use crate::refusal::places::Site;
use crate::text::Told;
use bitflags::Flags;
use zl_abs::{AbsVal, Blamed, Cause, Wanted};
use zl_code::Kinds;
use zl_rights::Rights;

/// Adds what was wanted of the register that is at fault for the cause, what it has, and what to do.
pub fn push_register(hint: &mut String, site: &Site, blamed: &Blamed, cause: Cause) -> Told {
    push_wanted(hint, blamed, cause, site.state.get(blamed.register))?;
    hint.push_str(", and has ")?;
    push_value(hint, site.state.get(blamed.register))?;
    push_advice(hint, site, blamed, cause)
}

/// The rights that a handle with these has to have too.
pub fn missing_of(blamed: &Blamed, rights: Rights) -> Rights {
    match blamed.wanted {
        Wanted::Handle { rights: wanted, .. } => wanted.difference(rights),
        _ => Rights::NONE,
    }
}

/// The kinds that a handle may be of.
pub fn kinds_of(blamed: &Blamed) -> Kinds {
    match blamed.wanted {
        Wanted::Handle { kinds, .. } => kinds,
        _ => Kinds::Any,
    }
}

/// Adds what is wanted of the register, or what is done to it.
fn push_wanted(hint: &mut String, blamed: &Blamed, cause: Cause, value: AbsVal) -> Told {
    let register = blamed.register;
    match (cause, value) {
        (Cause::LacksRight, AbsVal::Has { rights, .. }) => {
            let missing = missing_of(blamed, rights);
            tell!(hint; "r# has to have ", register)?;
            push_rights(hint, missing)?;
            tell!(hint; " (#)", missing.bits())
        }
        (Cause::WrongKind, _) => {
            let kind = kind_words(kinds_of(blamed));
            tell!(hint; "r# has to have a handle of the kind #", register, kind)
        }
        (_, value) => tell!(hint; words_of(blamed.wanted, value), register),
    }
}

/// The names of the kinds.
fn kind_words(kinds: Kinds) -> &'static str {
    match kinds {
        Kinds::Any => "any",
        Kinds::Only(kind) => kind.name(),
        Kinds::Tasks => "process or job",
        Kinds::Ends => "channel or eventpair",
    }
}

/// What is wanted of a register with this value, where that is neither a kind nor a right.
fn words_of(wanted: Wanted, value: AbsVal) -> &'static str {
    match (wanted, value) {
        (Wanted::Room, _) => "r# is written",
        (Wanted::Number, _) => "r# is read as a number",
        (
            Wanted::Handle {
                may_be_zero: true,
                ..
            },
            _,
        ) => "r# has to have a handle or 0",
        (Wanted::Handle { .. }, AbsVal::Has { maybe: false, .. }) => "r# is sent twice",
        (Wanted::Handle { .. }, _) => "r# has to have a handle",
    }
}
