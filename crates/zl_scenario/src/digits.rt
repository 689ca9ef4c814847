//! The hexadecimal digits of a program, as a block spells them.
ghost use Rattle.std.specs.Prelude.{◌≡◌, ◌<◌, ◌%◌, ◌++◌, ◌∷◌, [], length, IfSome, OnSome, IfNone, OnOk, OnErr};
ghost use Rattle.zl_scenario.specs.Numbers.{bytes_of_digits};

use std::alloc::{AllocError, Global};
use std::marker::Model;

/// The values of digits, two for a byte.
#[derive(Drop)]
pub struct Digits {
    bytes: Vec<u8>,
    /// The first digit of the next byte, while its second is missing.
    high: Option<u8>,
}

impl Model for Digits {
    ghost use Rattle.std.specs.Prelude.{List, ℕ, ◌++◌, ◌<◌, IfSome, option_to_list};
    ghost use Rattle.std.specs.List.{flat_map};
    ghost use Rattle.zl_scenario.specs.Numbers.{hex_digits_of_byte};

    ghost Value = { List ℕ };

    ghost view = { λ d. flat_map hex_digits_of_byte d.bytes.items ++ option_to_list d.high };

    ghost invariant = { λ d. IfSome d.high (λ high. high < 16) };
}

impl Digits {
    /// No digit.
    pub fn new(alloc: Global) -> Digits
        ensures { result ≡ [] }
    {
        Digits {
            bytes: Vec::new(alloc),
            high: None,
        }
    }

    /// Forgets all digits.
    pub fn clear(&mut self)
        ensures { self.new ≡ [] }
    {
        self.bytes.clear();
        self.high = None;
    }

    /// Adds a digit. Where memory is refused, nothing changes.
    pub fn push(&mut self, digit: u8) -> Result<(), AllocError>
        requires { digit < 16 }
        ensures ok { OnOk result (self.new ≡ self.old ++ digit ∷ []) }
        ensures err { OnErr result (self.new ≡ self.old) }
    {
        match self.high {
            None => self.high = Some(digit),
            Some(high) => {
                self.bytes.push(high * 16 + digit)?;
                self.high = None;
            }
        }
        Ok(())
    }

    /// The bytes that the digits spell; nothing for an odd count of digits.
    pub fn bytes(&self) -> Option<&[u8]>
        ensures even { OnSome result (length self.now % 2 ≡ 0) }
        ensures spelled { IfSome result (λ bytes. bytes.now ≡ bytes_of_digits self.now) }
        ensures odd { IfNone result (length self.now % 2 ≡ 1) }
    {
        match self.high {
            None => Some(self.bytes.as_slice()),
            Some(_) => None,
        }
    }
}
