//! Why reading stops.
ghost use Rattle.std.specs.Prelude.{◌≡◌};
ghost use Rattle.zl_scenario.specs.declared.fault.Fault.TheVariants.{NoMemory, Refused};

use crate::cause::{Cause, WordFault};
use std::alloc::{AllocError, AllocFailed};

/// Why reading stops.
#[derive(Drop)]
pub enum Fault {
    /// The line is refused.
    Refused(WordFault),
    /// The line ends the block of a checked program that the verifier refuses.
    Unaccepted,
    /// Memory was refused.
    NoMemory,
}

impl Fault {
    /// The line is refused for this cause, as a whole.
    pub(crate) fn alone(cause: Cause) -> Fault
        ensures { result ≡ Refused cause }
    {
        Fault::Refused(WordFault::new(cause, None))
    }

    /// The line is refused for this cause, and this word of it is at fault, counted from 0.
    pub(crate) fn at(cause: Cause, word: Option<usize>) -> Fault
        ensures { result ≡ Refused cause }
    {
        Fault::Refused(WordFault::new(cause, word))
    }
}

impl From<AllocError> for Fault {
    ghost from_gives = { λ _ fault. fault ≡ NoMemory };

    fn from(_refused: AllocError) -> Fault {
        Fault::NoMemory
    }
}

impl<T: Drop> From<AllocFailed<T>> for Fault {
    ghost from_gives = { λ _ fault. fault ≡ NoMemory };

    fn from(_refused: AllocFailed<T>) -> Fault {
        Fault::NoMemory
    }
}
