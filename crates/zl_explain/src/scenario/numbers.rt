//! Words that are to be numbers.

use crate::name::rights::push_right_names;
use crate::text::{Told, Value};
use bitflags::Flags;
use zl_rights::Rights;

/// Whether the word has decimal digits only.
pub fn is_digits(word: &[u8]) -> bool {
    word.iter().all(|byte| byte.is_ascii_digit())
}

/// Adds why the word is no number.
pub fn push_no_number(hint: &mut String, name: &str, word: &[u8]) -> Told {
    let text = if word.is_empty() {
        "# is missing"
    } else if is_digits(word) {
        "# is #; a number is at most 18446744073709551615"
    } else {
        "# is #, which isn't a decimal number"
    };
    tell!(hint; text, Value::Word(name.as_bytes()), Value::Word(word))?;
    push_meant(hint, word)
}

/// Adds which number was meant by a word that has hexadecimal digits, as the assembler has them, or
/// names rights, or what gives one to its name.
pub fn push_meant(hint: &mut String, word: &[u8]) -> Told {
    if word.starts_with(b"@") {
        return push_names(hint);
    }
    let (text, number) = match (hexadecimal(word), rights_named(word)) {
        (Some(number), _) => ("; hexadecimal is only the assembler's; # is #", number),
        (None, Some(number)) => ("; # is #", number),
        (None, None) => return Ok(()),
    };
    tell!(hint; text, Value::Word(word), number)
}

/// Adds what takes names with `@` in place of numbers.
pub fn push_names(hint: &mut String) -> Told {
    hint.push_str("; tools/names FILE writes numbers for names")
}

/// The number of the hexadecimal digits behind `0x`.
fn hexadecimal(word: &[u8]) -> Option<u64> {
    let digits = str::from_utf8(word.strip_prefix(b"0x")?).ok()?;
    u64::from_str_radix(digits, 16).ok()
}

/// The sum of the rights that the word names, with `|` or `+` between their names.
fn rights_named(word: &[u8]) -> Option<u64> {
    let mut sum = 0;
    for name in word.split(|byte| matches!(byte, b'|' | b'+')) {
        sum |= right_named(name)?;
    }
    Some(u64::from(sum))
}

/// The number of the right of this name, as Zircon has it or as the lab does.
fn right_named(name: &[u8]) -> Option<u32> {
    let name = name.strip_prefix(b"ZX_RIGHT_").unwrap_or(name);
    for flag in Rights::flags() {
        if flag.name().as_bytes().eq_ignore_ascii_case(name) {
            return Some(flag.value().bits());
        }
    }
    None
}

/// Adds the names of the rights and their sum.
pub fn push_rights(hint: &mut String, rights: Rights) -> Told {
    push_right_names(hint, rights, " + ")?;
    tell!(hint; " (#)", rights.bits())
}
