//! Texts for people: a literal with a `#` for each value, and one function that writes both.

use std::alloc::AllocError;
use std::fmt;
use zl_code::Register;

/// Whether something was told, or whether that is right; the error is refused memory, where a beginning of a
/// text may stand there.
pub type Told<T = ()> = Result<T, AllocError>;

/// What stands in the place of a `#`.
#[derive(Clone, Copy)]
pub enum Value<'a> {
    Number(u64),
    Name(&'static str),
    /// A word of an input.
    Word(&'a [u8]),
}

impl From<u8> for Value<'static> {
    fn from(number: u8) -> Value<'static> {
        Value::Number(u64::from(number))
    }
}

impl From<u16> for Value<'static> {
    fn from(number: u16) -> Value<'static> {
        Value::Number(u64::from(number))
    }
}

impl From<u32> for Value<'static> {
    fn from(number: u32) -> Value<'static> {
        Value::Number(u64::from(number))
    }
}

impl From<u64> for Value<'static> {
    fn from(number: u64) -> Value<'static> {
        Value::Number(number)
    }
}

impl From<usize> for Value<'static> {
    fn from(number: usize) -> Value<'static> {
        Value::Number(number as u64)
    }
}

impl From<Register> for Value<'static> {
    fn from(register: Register) -> Value<'static> {
        Value::from(register.number())
    }
}

impl From<&'static str> for Value<'static> {
    fn from(name: &'static str) -> Value<'static> {
        Value::Name(name)
    }
}

/// Adds the text with the values, in their order.
pub fn push_text(hint: &mut String, text: &str, values: &[Value]) -> Told {
    for (place, piece) in text.split('#').enumerate() {
        if let Some(value) = values.get(place.wrapping_sub(1)) {
            push_value(hint, *value)?;
        }
        hint.push_str(piece)?;
    }
    Ok(())
}

fn push_value(hint: &mut String, value: Value) -> Told {
    match value {
        Value::Number(number) => write!(hint, "{number}"),
        Value::Name(name) => hint.push_str(name),
        Value::Word(bytes) => write!(hint, "{}", Word(bytes)),
    }
}

/// The most bytes of a word that are shown.
const MOST_SHOWN: usize = 40;

/// A word of an input. A byte that isn't to be seen is written as `\x` and two digits, and a long word
/// is cut.
#[derive(Clone, Copy)]
pub struct Word<'a>(pub &'a [u8]);

impl fmt::Display for Word<'_> {
    fn fmt<W: fmt::Write>(&self, f: &mut fmt::Formatter<W>) -> fmt::Result {
        for byte in self.0.iter().take(MOST_SHOWN) {
            if byte.is_ascii_graphic() || *byte == b' ' {
                f.write_char(char::from(*byte))?;
            } else {
                write!(f, "\\x{byte:02x}")?;
            }
        }
        if self.0.len() > MOST_SHOWN {
            f.write_str("...")?;
        }
        Ok(())
    }
}

/// What a noun ends in behind this number.
pub fn plural(count: usize) -> &'static str {
    if count == 1 { "" } else { "s" }
}

/// Adds what the beginning of a hint is: the line, if there is one, and the cause.
pub fn push_head(hint: &mut String, line: u64, cause: &str) -> Told {
    if line == 0 {
        write!(hint, "zlab: {cause}: ")
    } else {
        write!(hint, "zlab: line {line}: {cause}: ")
    }
}

/// Adds what the byte at this place of the line is, which no line has there.
pub fn push_odd_byte(hint: &mut String, line: &[u8], place: usize) -> Told {
    let number = place.saturating_add(1);
    let byte = line.get(place).copied().unwrap_or(0);
    let text = match byte {
        b'\t' => "byte # of the line is a tab; only spaces part words",
        b'\r' if number == line.len() => {
            "the line ends with a carriage return; only a line feed ends a line"
        }
        b'\r' => "byte # of the line is a carriage return",
        _ if line.starts_with(b"\xef\xbb\xbf") => {
            "the line begins with a byte order mark; every byte has to be ASCII"
        }
        _ => "byte # of the line is #; ASCII ends at 127",
    };
    tell!(hint; text, number, byte)
}
