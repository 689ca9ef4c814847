ghost use Rattle.std.specs.Prelude.{◌≡◌};

use std::marker::Model;
use zl_code::{Kinds, Register};
use zl_rights::Rights;

/// Why the rule of an instruction doesn't hold at a state. Own profile.
#[derive(Clone, Copy, PartialEq, Eq, Debug)]
pub enum Cause {
    /// A register that needs to have a live handle may have none.
    NotLive,
    /// A handle may be of a kind that the instruction doesn't take.
    WrongKind,
    /// A handle may lack a right that is needed.
    LacksRight,
    /// A register that has a handle, or may have one, would be overwritten.
    Leak,
    /// A register that needs to have a number has a handle, or may have one.
    NotWord,
    /// A range of the data memory, or a place of a slot array, may not be there.
    MemoryRange,
    /// A jump leads out of the code.
    BadJump,
    /// Behind the last instruction there is none.
    FallsOff,
    /// The call makes an object for which the program declares no need.
    UndeclaredNeed,
    /// An unknown opcode; a slot array that isn't there; a register that is taken into itself, or
    /// gets two results of a call.
    IllegalOp,
}

/// No state is above both. Own profile.
#[derive(Clone, Copy, PartialEq, Eq, Debug)]
pub struct Conflict;

/// What a rule wants of a register. Own profile.
#[derive(Clone, Copy)]
pub enum Wanted {
    /// A handle of such a kind, with these rights at least; or 0, where that will do too.
    Handle {
        kinds: Kinds,
        rights: Rights,
        may_be_zero: bool,
    },
    /// A number.
    Number,
    /// Room, as it is written: no handle.
    Room,
}

impl Wanted {
    /// Any handle, or 0.
    pub(crate) const ANY_HANDLE: Wanted = Wanted::Handle {
        kinds: Kinds::Any,
        rights: Rights::NONE,
        may_be_zero: true,
    };
}

/// A register that is at fault, and what was wanted of it. Own profile.
#[derive(Clone, Copy)]
pub struct Blamed {
    pub register: Register,
    pub wanted: Wanted,
}

/// Why the rule of an instruction doesn't hold, with the register that is at fault, where it is one.
/// Contracts see the cause; no clause says which register it is. Own profile.
#[derive(Drop)]
pub struct RuleFault {
    cause: Cause,
    blamed: Option<Blamed>,
}

impl Model for RuleFault {
    ghost use Rattle.zl_abs.specs.declared.cause.Cause.{Cause};

    ghost Value = { Cause };

    ghost view = { λ f. f.cause };
}

impl Cause {
    /// The cause where no register is at fault.
    pub(crate) fn alone(self) -> RuleFault
        ensures { result ≡ self }
    {
        RuleFault {
            cause: self,
            blamed: None,
        }
    }

    /// The cause where this register is at fault.
    pub(crate) fn of(self, register: Register, wanted: Wanted) -> RuleFault
        ensures { result ≡ self }
    {
        RuleFault {
            cause: self,
            blamed: Some(Blamed { register, wanted }),
        }
    }
}

impl RuleFault {
    /// Why the rule doesn't hold.
    pub fn cause(&self) -> Cause
        ensures { result ≡ self.now }
    {
        self.cause
    }

    /// The register that is at fault, where it is one.
    pub fn blamed(&self) -> Option<Blamed> {
        self.blamed
    }
}
