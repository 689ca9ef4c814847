//! Numbers and digits.
ghost use Rattle.std.specs.Prelude.{◌≡◌, ◌+◌, ◌*◌, ◌^◌, ◌<◌, SomeIff};
ghost use Rattle.zl_scenario.specs.Numbers.{number_of, decimal_digit_of, hex_digit_of};

/// The decimal number that the word spells, if it does and is below 2^64. Leading zeros are allowed.
pub fn number(word: &[u8]) -> Option<u64>
    ensures { result ≡ number_of word.now }
{
    if word.is_empty() {
        return None;
    }
    let mut number = 0;
    for byte in word {
        let Some(digit) = decimal_digit(*byte) else {
            return None;
        };
        let Some(longer) = with_digit(number, digit) else {
            return None;
        };
        number = longer;
    }
    Some(number)
}

fn decimal_digit(byte: u8) -> Option<u64>
    ensures { result ≡ decimal_digit_of byte }
{
    match byte {
        b'0'..=b'9' => Some(u64::from(byte - b'0')),
        _ => None,
    }
}

/// The number with one more digit at its end, if it is below 2^64.
fn with_digit(number: u64, digit: u64) -> Option<u64>
    ensures { SomeIff result (number * 10 + digit < 2 ^ 64) (number * 10 + digit) }
{
    number.checked_mul(10)?.checked_add(digit)
}

/// The value of a lower-case hexadecimal digit.
pub fn hex_digit(byte: u8) -> Option<u8>
    ensures { result ≡ hex_digit_of byte }
{
    match byte {
        b'0'..=b'9' => Some(byte - b'0'),
        b'a'..=b'f' => Some(byte - b'a' + 10),
        _ => None,
    }
}
