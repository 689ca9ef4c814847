//! A slot array that isn't there, where a process is stuck or an image is refused.

use crate::text::Told;
use bitflags::Flags;
use zl_code::{Ending, Image};
use zl_rights::Rights;

/// Adds that the program has no such slot array, which an instruction with this ending names, and for a
/// call which line can declare it.
pub fn push_no_array(hint: &mut String, image: &Image, array: u32, ending: Ending) -> Told {
    let count = image.slots().len();
    tell!(hint; "there is no slot array #; the program has #", array, count)?;
    let rights = match ending {
        Ending::FromSlots => Rights::TRANSFER,
        Ending::IntoSlots => Rights::empty(),
        _ => return Ok(()),
    };
    // one line can't declare the arrays before it too
    if array as usize == count && count < Image::MOST_SLOT_ARRAYS {
        tell!(hint; "; a line can declare it: .slots any 64 #", rights.bits())?;
    }
    Ok(())
}
