//! Why bytes are no image, and which byte is at fault.

ghost use Rattle.std.specs.Prelude.{◌≡◌};
ghost use Rattle.zl_code.specs.declared.image.DecodeFault.TheVariants.{NoMemory};

use crate::image::DecodeFault;
use std::alloc::{AllocError, AllocFailed};
use std::marker::Model;

/// Why bytes are no image, with the byte that is at fault. Contracts see the fault; no clause says
/// which byte it is. Own profile.
#[derive(Drop)]
pub struct Undecoded {
    fault: DecodeFault,
    at: usize,
}

impl Model for Undecoded {
    ghost use Rattle.zl_code.specs.declared.image.DecodeFault.{DecodeFault};

    ghost Value = { DecodeFault };

    ghost view = { λ u. u.fault };
}

impl DecodeFault {
    /// The fault at the byte of this offset.
    pub(crate) fn at(self, offset: usize) -> Undecoded
        ensures { result ≡ self }
    {
        Undecoded {
            fault: self,
            at: offset,
        }
    }
}

impl Undecoded {
    /// Why the bytes are no image, or want of memory.
    pub fn fault(&self) -> DecodeFault
        ensures { result ≡ self.now }
    {
        self.fault
    }

    /// The offset of the byte that is at fault.
    ///
    /// It is the first byte of a field of the header or of a declaration, and the first wrong byte of
    /// a field of an instruction; of the room for handles it is that of its number. Where several
    /// fields are out of range it is the first of them, but that of the needs last of the header's,
    /// and the length of a slot array before the byte that has to be 0. `Short` and `Length` have the
    /// offset at which the bytes ought to end, and `BadBlock` that of the first instruction. Without
    /// memory it is 0.
    pub fn at(&self) -> usize {
        self.at
    }

    /// The same fault of one of the pieces of so many bytes that begin at the offset.
    pub(crate) fn in_piece(self, offset: usize, number: usize, length: usize) -> Undecoded
        ensures { result ≡ self }
    {
        let begin = number.saturating_mul(length).saturating_add(offset);
        Undecoded {
            fault: self.fault,
            at: self.at.saturating_add(begin),
        }
    }
}

impl From<AllocError> for Undecoded {
    ghost from_gives = { λ _ undecoded. undecoded ≡ NoMemory };

    fn from(_error: AllocError) -> Undecoded {
        DecodeFault::NoMemory.at(0)
    }
}

impl<T: Drop> From<AllocFailed<T>> for Undecoded {
    ghost from_gives = { λ _ undecoded. undecoded ≡ NoMemory };

    fn from(_error: AllocFailed<T>) -> Undecoded {
        DecodeFault::NoMemory.at(0)
    }
}
