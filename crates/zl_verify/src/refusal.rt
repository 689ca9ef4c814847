ghost use Rattle.std.specs.Prelude.{◌≡◌};
ghost use Rattle.zl_verify.specs.Names.{cause_name, rule_cause_name};

use crate::seen::Seen;
use zl_abs::Cause;
use zl_code::Image;

/// Why an image is refused. Own profile.
#[derive(Clone, Copy, PartialEq, Eq, Debug)]
pub enum RefusalCause {
    /// The rule of the instruction doesn't hold at what is known there.
    Rule(Cause),
    /// Two ways meet at the instruction, and nothing describes what a register holds after either.
    JoinConflict,
    /// From the instruction on, more instructions than the budget may follow one another, none of
    /// them a wait or an exit.
    Budget,
    /// Memory was refused.
    NoMemory,
}

/// An image that is refused, with the number of the instruction, counted from 0, the cause, and what was
/// known there. Own profile.
#[derive(Drop)]
pub struct Refusal {
    pub at: usize,
    pub cause: RefusalCause,
    pub image: Image,
    pub seen: Seen,
}

impl RefusalCause {
    /// The name of the cause, as answers have it.
    pub fn name(self) -> &'static str
        ensures { result.now ≡ cause_name self }
    {
        match self {
            RefusalCause::Rule(cause) => rule_cause_name(cause),
            RefusalCause::JoinConflict => "JoinConflict",
            RefusalCause::Budget => "Budget",
            RefusalCause::NoMemory => "NoMemory",
        }
    }
}

/// The name of the cause for which a rule doesn't hold.
fn rule_cause_name(cause: Cause) -> &'static str
    ensures { result.now ≡ rule_cause_name cause }
{
    match cause {
        Cause::NotLive => "NotLive",
        Cause::WrongKind => "WrongKind",
        Cause::LacksRight => "LacksRight",
        Cause::Leak => "Leak",
        Cause::NotWord => "NotWord",
        Cause::MemoryRange => "MemoryRange",
        Cause::BadJump => "BadJump",
        Cause::FallsOff => "FallsOff",
        Cause::UndeclaredNeed => "UndeclaredNeed",
        Cause::IllegalOp => "IllegalOp",
    }
}
