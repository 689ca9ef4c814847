//! Names of rights, and rights that no new object of a kind gives.

use crate::text::Told;
use crate::text::Value::Word;
use bitflags::Flags;
use zl_rights::{Kind, Rights};

/// Adds which right of the handle isn't among those of a new object of its kind; nothing where each
/// is.
pub fn push_right_beyond(hint: &mut String, handle: &[u8], kind: Kind, rights: u64) -> Told<bool> {
    push_right_of_none(hint, "the handle", handle, Some(kind), rights)
}

/// Adds which of the rights, those of this word, isn't among those of a new object of the kind, or of
/// any kind; nothing where each is.
pub fn push_right_of_none(
    hint: &mut String,
    what: &'static str,
    word: &[u8],
    kind: Option<Kind>,
    rights: u64,
) -> Told<bool> {
    let (kind, number, most) = match kind {
        Some(kind) => (kind.name(), kind.number(), kind.default_rights()),
        None => ("any", 0, Rights::all()),
    };
    let most = u64::from(most.bits());
    let beyond = rights & !most;
    if beyond == 0 {
        return Ok(false);
    }
    let lowest = beyond & !(beyond - 1);
    let name = name_of(lowest);
    tell!(hint; "# # has the right ###; the rights of #, kind #, are #",
        what, Word(word), name, if name.is_empty() { "" } else { ", " }, lowest, kind, number,
        most)?;
    Ok(true)
}

/// Adds the names of the rights, with this between them.
pub fn push_right_names(hint: &mut String, rights: Rights, separator: &'static str) -> Told {
    let mut before = "";
    for flag in Rights::flags() {
        if flag.value.within(rights) {
            tell!(hint; "##", before, flag.name)?;
            before = separator;
        }
    }
    Ok(())
}

/// The name of the right, or an empty one if it has none.
fn name_of(right: u64) -> &'static str {
    for flag in Rights::flags() {
        if u64::from(flag.value().bits()) == right {
            return flag.name();
        }
    }
    ""
}
