use zl_code::Register;

/// Some of the registers. What is in it no clause says: a search goes by it, and no proof.
#[derive(Clone, Copy)]
pub(crate) struct RegisterSet {
    // A bit for each register.
    bits: u32,
}

impl RegisterSet {
    /// No register.
    pub const NONE: RegisterSet = RegisterSet { bits: 0 };

    /// Each register.
    pub const ALL: RegisterSet = RegisterSet { bits: u32::MAX };

    /// The register alone.
    pub fn of(register: Register) -> RegisterSet {
        RegisterSet {
            bits: 1 << register.number(),
        }
    }

    /// Those of both.
    pub fn with(self, other: RegisterSet) -> RegisterSet {
        RegisterSet {
            bits: self.bits | other.bits,
        }
    }

    /// Whether there is none.
    pub fn is_empty(self) -> bool {
        self.bits == 0
    }

    /// How many there are.
    pub fn count(self) -> u32 {
        self.bits.count_ones()
    }

    /// The first of them.
    pub fn first(self) -> Option<Register> {
        Register::new(self.bits.trailing_zeros() as u8)
    }

    /// All but the register.
    pub fn without(self, register: Register) -> RegisterSet {
        RegisterSet {
            bits: self.bits & !(1 << register.number()),
        }
    }

    /// Whether the register is one of them.
    pub fn has(self, register: Register) -> bool {
        self.bits & (1 << register.number()) != 0
    }
}
