//! The numbers of names that the pages have, and no text of a program.

use crate::text::Told;
use crate::text::Value::Word;
use bitflags::Flags;
use zl_rights::{Condition, Kind, Rights, Signals, Status};

/// Adds each number that the word is a name of, where it is one: only that of a right, or of rights with
/// `|` or `+` between them, where no other number is wanted.
pub fn push_number_named(hint: &mut String, word: &[u8], are_rights: bool) -> Told {
    if let Some(sum) = sum_of(str::from_utf8(word).unwrap_or(""), are_rights) {
        tell!(hint; "; # is #", Word(word), sum)?;
    }
    if are_rights {
        return Ok(());
    }
    let status = Status::named(word.strip_prefix(b"ZX_ERR_").unwrap_or(word));
    let condition = Condition::named(word.strip_prefix(b"ZX_POL_").unwrap_or(word));
    let numbers = [
        ("kind", Kind::named(word).map(|kind| kind.number())),
        ("status", status.map(|status| status.magnitude())),
        ("condition", condition.map(|condition| condition.number())),
    ];
    for (class, number) in &numbers {
        if let Some(number) = number {
            tell!(hint; "; the # # is #", *class, Word(word), *number)?;
        }
    }
    Ok(())
}

/// The sum of the rights, or of rights and signals, of these names, with `|` or `+` between them.
fn sum_of(names: &str, are_rights: bool) -> Option<u32> {
    let mut sum = 0;
    for name in names.split(['|', '+']) {
        sum |= flag_named(name, are_rights)?;
    }
    Some(sum)
}

/// The right, or else the signal, of this name.
fn flag_named(name: &str, is_right: bool) -> Option<u32> {
    let name = name.strip_prefix("ZX_RIGHT_").unwrap_or(name);
    if name == "SAME_RIGHTS" {
        return Some(Rights::SAME_RIGHTS);
    }
    match Rights::from_name(name) {
        Some(right) => Some(right.bits()),
        None if is_right => None,
        None => Some(Signals::from_name(name)?.bits()),
    }
}
