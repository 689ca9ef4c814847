ghost use Rattle.std.specs.Prelude.{◌≡◌};
ghost use Rattle.zl_trace.specs.declared.fault.ReadFault.TheVariants as read;
ghost use Rattle.zl_trace.specs.declared.fault.ReplayFault.TheVariants as replay;
ghost use Rattle.zl_trace.specs.declared.fault.TextFault.TheVariants as text;

use std::alloc::AllocError;
use zl_code::BootFault;

/// Why a text can't be written to its end.
///
/// Source: own profile.
#[derive(Clone, Copy, PartialEq, Eq, Debug)]
pub enum TextFault {
    /// A fault of the writer, an interruption too, or a write that takes no byte.
    Write,
    /// Memory was refused.
    NoMemory,
}

impl From<AllocError> for TextFault {
    ghost from_gives = { λ _ fault. fault ≡ text.NoMemory };

    fn from(_refused: AllocError) -> TextFault {
        TextFault::NoMemory
    }
}

/// Why a trace text can't be read.
///
/// Source: own profile.
#[derive(Clone, Copy, PartialEq, Eq, Debug)]
pub enum ReadFault {
    /// The line of this number, from 1, has to be that of an item and isn't.
    Syntax(u64),
    /// Memory was refused.
    NoMemory,
}

impl From<AllocError> for ReadFault {
    ghost from_gives = { λ _ fault. fault ≡ read.NoMemory };

    fn from(_refused: AllocError) -> ReadFault {
        ReadFault::NoMemory
    }
}

/// Why the items of a trace can't be replayed.
///
/// Source: own profile.
#[derive(Clone, Copy)]
pub enum ReplayFault {
    /// The statements can't be done.
    Boot(BootFault),
    /// Behind the items before that of this place, from 1, its process isn't ready, or its own step
    /// has another item; or the item is one too many.
    At(usize),
}

impl From<BootFault> for ReplayFault {
    ghost from_gives = { λ lost fault. fault ≡ replay.Boot lost };

    fn from(lost: BootFault) -> ReplayFault {
        ReplayFault::Boot(lost)
    }
}
