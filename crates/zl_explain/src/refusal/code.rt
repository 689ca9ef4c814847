//! Faults of an instruction itself, whatever the registers hold.

use crate::refusal::arrays::missing_array;
use crate::refusal::known::push_state;
use crate::refusal::places::{MOST_PLACES, Site, Use, is_among, place_at};
use crate::stuck::arrays::push_no_array;
use crate::text::Told;
use zl_code::{Ending, InstrBytes, LocalInstr, Register};

/// Adds why there is no such instruction.
pub fn push_illegal(hint: &mut String, site: &Site) -> Told {
    let array = site.parts.imm();
    match site.image.local_at(site.at) {
        Some(LocalInstr::Swap { .. }) => push_no_array(hint, site.image, array, Ending::Number),
        Some(LocalInstr::Take { .. }) => {
            let [register, ..] = site.parts.registers;
            let register = register;
            tell!(hint; "r# is taken into itself", register)
        }
        _ => match (missing_array(site), written_twice(site.parts)) {
            (Some(ending), _) => push_no_array(hint, site.image, array, ending),
            (None, Some(register)) => {
                tell!(hint; "r# is written twice; each result wants a register of its own",
                    register)
            }
            (None, None) => {
                let opcode = site.parts.opcode;
                tell!(hint; "no instruction has the opcode #", opcode)?;
                push_state(hint, &site.state)
            }
        },
    }
}

/// The first register that the call writes again.
fn written_twice(parts: InstrBytes) -> Option<Register> {
    for index in 0..MOST_PLACES {
        if let Some(place) = place_at(parts, index)
            && place.is(Use::Answer)
            && is_among(parts, index, place.register, Use::Answer)
        {
            return Some(place.register);
        }
    }
    None
}

/// Adds which line is missing for what the call makes.
pub fn push_need(hint: &mut String, site: &Site) -> Told {
    let Some(call) = site.image.call_at(site.at) else {
        return Ok(());
    };
    let Some(condition) = call.name.row().columns.condition else {
        return Ok(());
    };
    tell!(hint; "a line is missing that declares it: .need #", condition.name())
}

/// Adds where the instruction jumps to.
pub fn push_target(hint: &mut String, site: &Site) -> Told {
    let count = site.image.len();
    let target = site.parts.target();
    let text = if target as usize == count {
        "it leads to #, and the last instruction is #: nothing stands behind a label there"
    } else {
        "it leads to #, and the last instruction is #"
    };
    let last = count.saturating_sub(1);
    tell!(hint; text, target, last)
}
