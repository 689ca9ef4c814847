ghost use Rattle.std.specs.Prelude.{◌≡◌};
ghost use Rattle.zlab.specs.Text.{engine_fault};
ghost use Rattle.zlab.specs.declared.fault.EngineFault.TheVariants.{NoMemory};

use std::alloc::AllocError;
use thiserror::Error;
use zl_trace::TextFault;

/// Why an engine can't go on; nothing can be said of its input then.
#[derive(Debug, Drop, Error)]
pub enum EngineFault {
    /// A fault of the reader, an interruption too.
    #[error("can't read the input")]
    Read,
    /// A fault of the writer, or a write that takes no byte.
    #[error("can't write the output")]
    Write,
    /// Memory was refused.
    #[error("out of memory")]
    NoMemory,
    /// A run on threads gave back another system than the one that it was handed.
    #[error("the run gave back another system")]
    Mixed,
}

impl From<AllocError> for EngineFault {
    ghost from_gives = { λ _ fault. fault ≡ NoMemory };

    fn from(_refused: AllocError) -> EngineFault {
        EngineFault::NoMemory
    }
}

impl From<TextFault> for EngineFault {
    ghost from_gives = { λ lost fault. fault ≡ engine_fault lost };

    fn from(lost: TextFault) -> EngineFault {
        match lost {
            TextFault::Write => EngineFault::Write,
            TextFault::NoMemory => EngineFault::NoMemory,
        }
    }
}

/// How an engine ends that has read its input and written its answer.
#[derive(Clone, Copy, PartialEq, Eq)]
pub enum Verdict {
    /// The answer is written: a trace, an image, or all ends.
    Done,
    /// The input is refused; the line of its first fault is written.
    Refused,
    /// A search met as many worlds as it may, and isn't whole; what it found is written.
    Cut,
    /// An order has what a search was to look for; the search stopped there, and what it found is written.
    Bad,
    /// Memory was refused to a search, which isn't whole; what it found is written.
    Memory,
}
