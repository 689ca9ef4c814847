//! The handle operands of calls.

ghost use Rattle.std.specs.Prelude.{◌≡◌, [], true, ◌∷◌};
ghost use Rattle.zl_rights.specs.Numbers.{bits};
ghost use Rattle.zl_code.specs.Refusals.{needs, taking};
ghost use Rattle.zl_code.specs.Instructions.{kinds_of};
ghost use Rattle.zl_abs.specs.CallRules.{fault_of, takes_any, examined};
ghost use Rattle.zl_abs.specs.Changes.{left_by};

use crate::cause::{Cause, RuleFault, Wanted};
use crate::state::AbsState;
use crate::value::{AbsVal, is_kind};
use bitflags::Flags;
use std::marker::Model;
use zl_code::{Kinds, Register};
use zl_rights::{Kind, Rights};

/// Whether a handle of which this is known of its kind will do.
fn takes(kinds: Kinds, known: Option<Kind>) -> bool
    ensures { result ≡ takes_any (kinds_of kinds) known }
{
    let Some(known) = known else {
        return matches!(kinds, Kinds::Any);
    };
    match kinds {
        Kinds::Any => true,
        Kinds::Only(kind) => is_kind(known, kind),
        Kinds::Tasks => is_kind(known, Kind::Process) || is_kind(known, Kind::Job),
        Kinds::Ends => is_kind(known, Kind::Channel) || is_kind(known, Kind::Eventpair),
    }
}

/// A register of a call that has to have a handle, and what is asked of it.
#[derive(Drop)]
pub(crate) struct Operand {
    register: Register,
    kinds: Kinds,
    rights: Rights,
    is_taken: bool,
    may_be_zero: bool,
}

impl Model for Operand {
    ghost use Rattle.zl_rights.specs.Numbers.{bits};
    ghost use Rattle.zl_code.specs.Operands.{Operand as OperandValue};
    ghost use Rattle.zl_code.specs.Instructions.{kinds_of};

    ghost Value = { OperandValue };

    ghost view = { λ o. record {
      value = o.register;
      kinds = kinds_of o.kinds;
      needed = bits o.rights;
      is_taken = o.is_taken;
      may_be_zero = o.may_be_zero;
    } };
}

impl Operand {
    /// A handle that the call uses and leaves in the register.
    pub fn used(register: Register, kinds: Kinds, rights: Rights) -> Operand
        ensures { result ≡ needs register (kinds_of kinds) (bits rights) }
    {
        Operand {
            register,
            kinds,
            rights,
            is_taken: false,
            may_be_zero: false,
        }
    }

    /// A handle that leaves the register, however the call is answered.
    pub fn taken(register: Register, kinds: Kinds, rights: Rights) -> Operand
        ensures { result ≡ taking register (kinds_of kinds) (bits rights) }
    {
        Operand {
            register,
            kinds,
            rights,
            is_taken: true,
            may_be_zero: false,
        }
    }

    /// The same with any handle, where 0 passes too.
    pub fn closed(register: Register) -> Operand
        ensures { result ≡ record (taking register [] 0) { may_be_zero = true } }
    {
        Operand {
            register,
            kinds: Kinds::Any,
            rights: Rights::empty(),
            is_taken: true,
            may_be_zero: true,
        }
    }

    /// Why a register with this value can't be the operand, if it can't.
    fn fault(&self, value: AbsVal) -> Option<Cause>
        ensures { result ≡ fault_of self.now value }
    {
        match value {
            AbsVal::Has {
                maybe,
                kind,
                rights,
            } => {
                if maybe && !self.may_be_zero {
                    Some(Cause::NotLive)
                } else if !takes(self.kinds, kind) {
                    Some(Cause::WrongKind)
                } else if !self.rights.within(rights) {
                    Some(Cause::LacksRight)
                } else {
                    None
                }
            }
            AbsVal::Word(most) => {
                if self.may_be_zero && most == 0 {
                    None
                } else {
                    Some(Cause::NotLive)
                }
            }
            _ => Some(Cause::NotLive),
        }
    }

    /// What is asked of the register.
    fn wanted(&self) -> Wanted {
        Wanted::Handle {
            kinds: self.kinds,
            rights: self.rights,
            may_be_zero: self.may_be_zero,
        }
    }

    /// Examines the operand, and takes it where it is consumed. Why it can't be, if it can't.
    pub fn examine(&self, state: &mut AbsState) -> Option<RuleFault>
        ensures { left_by state.new result ≡ examined state.old self.now }
    {
        if let Some(cause) = self.fault(state.get(self.register)) {
            return Some(cause.of(self.register, self.wanted()));
        }
        if self.is_taken {
            state.write(self.register, AbsVal::Word(0));
        }
        None
    }
}
