use crate::value::AbsVal;
use zl_code::Register;

/// What is different at the end of an edge. Own profile.
#[derive(Clone, Copy)]
pub enum Change {
    /// Nothing.
    Same,
    /// The register was written: no tag names it any more.
    Written(Register, AbsVal),
    /// More is known of the register. Tags on it stay.
    Refined(Register, AbsVal),
    /// More is known of the first register, and then of the second.
    RefinedBoth(Register, AbsVal, Register, AbsVal),
    /// This value of the second register went to the first, and its tags with it.
    Moved(Register, Register, AbsVal),
}
