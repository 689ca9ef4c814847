//! Numbers, registers, names and hexadecimal digits, as words spell them. Own profile.
ghost use Rattle.std.specs.Prelude.{◌≡◌, ◌+◌, ◌*◌, ◌^◌, ◌<◌, ◌==◌, [], ◌∷◌, length, Some, IfSome, SomeIff};
ghost use Rattle.std.specs.Option.{option_map};
ghost use Rattle.std.specs.List.{list_all};
ghost use Rattle.zl_asm.specs.Words.{digit_of, number_in, number_of, register_of, is_name_byte, is_name, byte_before, hex_bytes};
ghost use Rattle.zl_code.specs.Limits.{register_count, instruction_length};
ghost use Rattle.zl_asm.specs.Lines.{if_fits};

use zl_code::{Instr, Register};

/// The value of a hexadecimal digit, in capital letters or not.
#[tactic(auto, unfolding(crate::specs::Words::digit_of))]
fn digit(byte: u8) -> Option<u8>
    ensures value { result ≡ digit_of byte }
    ensures below { IfSome result (λ digit. digit < 16) }
{
    char::from(byte).to_digit(16).map(|digit| digit as u8)
}

/// The number with one more digit of the base at its end, if it is one and has 32 bits.
fn longer(base: u32, value: u32, digit: u8) -> Option<u32>
    ensures { SomeIff result
        ((digit < base) × (value * base + digit < 2 ^ 32)) (value * base + digit) }
{
    let digit = u32::from(digit);
    if digit < base {
        value.checked_mul(base)?.checked_add(digit)
    } else {
        None
    }
}

/// The number that the digits of the base spell, of which there is one at least.
fn value_of(base: u32, digits: &[u8]) -> Option<u32>
    ensures { result ≡ number_in base digits.now }
{
    if digits.is_empty() {
        return None;
    }
    let mut value = 0;
    for byte in digits {
        let Some(digit) = digit(*byte) else {
            return None;
        };
        let Some(longer) = longer(base, value, digit) else {
            return None;
        };
        value = longer;
    }
    Some(value)
}

/// The number of 32 bits that the word spells: decimal, or hexadecimal behind `0x`. None where there is
/// no digit, or a byte that isn't one, and from 2^32 on.
#[tactic(auto, unfolding(crate::specs::Words::number_of))]
pub fn number(word: &[u8]) -> Option<u32>
    ensures { result ≡ number_of word.now }
{
    if word.starts_with(b"0x") {
        value_of(16, &word[2..])
    } else {
        value_of(10, word)
    }
}

/// The register of the word, `r0` to `r31`; none of any other word.
#[tactic(auto, unfolding(crate::specs::Words::register_of))]
pub fn register(word: &[u8]) -> Option<u8>
    ensures value { result ≡ register_of word.now }
    ensures below { IfSome result (λ register. register < register_count) }
{
    let number = match word {
        [b'r', low @ b'0'..=b'9'] => low - b'0',
        [b'r', high @ b'1'..=b'3', low @ b'0'..=b'9'] => (high - b'0') * 10 + (low - b'0'),
        _ => return None,
    };
    (usize::from(number) < Register::COUNT).then_some(number)
}

/// The most bytes of the name of a label.
const MOST_NAME: usize = 32;

/// Whether the word is the name of a label: a small letter, and behind it small letters, digits or
/// `_`, 32 bytes at most.
#[tactic(auto, unfolding(crate::specs::Words::is_name))]
pub fn is_name(word: &[u8]) -> bool
    ensures { result ≡ is_name word.now }
{
    match word {
        [first, rest @ ..] if first.is_ascii_lowercase() => are_of_name(rest)
            && rest.len() < MOST_NAME,
        _ => false,
    }
}

/// Whether each byte can stand behind the first of a name.
fn are_of_name(bytes: &[u8]) -> bool
    ensures { result ≡ list_all is_name_byte bytes.now }
{
    bytes.iter().all(|byte| byte.is_ascii_lowercase() || byte.is_ascii_digit() || *byte == b'_')
}

/// The 16 bytes that the hexadecimal digits spell, two digits a byte, if they spell so many. None where
/// there are more digits or fewer than 32, or a byte that isn't one.
pub fn sixteen_bytes(digits: &[u8]) -> Option<[u8; Instr::LEN]>
    ensures { result ≡
        if_fits (λ bytes. length bytes == instruction_length) (hex_bytes digits.now) }
{
    if digits.len() != 2 * Instr::LEN {
        return None;
    }
    let mut bytes = [0; Instr::LEN];
    for i in 0..Instr::LEN {
        let Some(byte) = byte_of(digits[2 * i], digits[2 * i + 1]) else {
            return None;
        };
        bytes[i] = byte;
    }
    Some(bytes)
}

/// The byte of two hexadecimal digits.
fn byte_of(high: u8, low: u8) -> Option<u8>
    ensures { option_map (λ byte. byte ∷ []) result
        ≡ byte_before (digit_of high) (digit_of low) (Some []) }
{
    Some(digit(high)? * 16 + digit(low)?)
}

/// Whether the word spells a number, however large.
pub(crate) fn spells_number(word: &[u8]) -> bool {
    let (base, digits) = match word {
        [b'0', b'x', digits @ ..] => (16, digits),
        digits => (10, digits),
    };
    !digits.is_empty()
        && digits
            .iter()
            .all(|byte| digit(*byte).is_some_and(|digit| digit < base))
}
