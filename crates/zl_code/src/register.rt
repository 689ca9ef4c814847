ghost use Rattle.std.specs.Prelude.{ℕ, ◌≡◌, ◌<◌, ◌≤◌, IfSome, IfNone};
ghost use Rattle.zl_code.specs.Limits.{register_count};

use std::marker::Model;

/// One of the 32 registers of a process. Own profile.
#[derive(Clone, Copy, PartialEq, Eq)]
pub struct Register {
    number: u8,
}

impl Model for Register {
    ghost Value = { ℕ };

    ghost view = { λ r. r.number };

    ghost invariant = { λ r. r.number < register_count };

    ghost inverse = { λ n. record { number = n } };
}

impl Register {
    /// How many registers there are.
    pub const COUNT: usize = 32;

    /// The register of this number, 0 to 31; nothing for another number.
    pub fn new(number: u8) -> Option<Register>
        ensures found { IfSome result (λ register. register ≡ number) }
        ensures missing { IfNone result (register_count ≤ number) }
    {
        if usize::from(number) < Register::COUNT {
            Some(Register { number })
        } else {
            None
        }
    }

    /// Register 0.
    pub(crate) fn zero() -> Register
        ensures { result ≡ 0 }
    {
        Register { number: 0 }
    }

    /// The number of the register, 0 to 31.
    pub fn number(self) -> u8
        ensures value { result ≡ self }
        ensures below { result < register_count }
    {
        self.number
    }
}
