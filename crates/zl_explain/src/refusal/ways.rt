//! Ways through the code: two that meet, and one that is too long.

use crate::refusal::budget::least_budget;
use crate::refusal::known::{REGISTERS, push_value};
use crate::refusal::rounds::advice_on_round;
use crate::text::Told;
use std::alloc::Global;
use zl_code::{Image, Register};
use zl_verify::{Seen, Stride, Way, way_from};

/// How many instructions are told of the beginning of a long way, and of its end.
const SHOWN: usize = 6;

/// Adds which register holds what nothing describes after both ways that meet.
pub fn push_meeting(hint: &mut String, seen: &Seen) -> Told {
    hint.push_str("two ways meet here")?;
    let (Some(known), Some(other)) = (seen.known, seen.other) else {
        return Ok(());
    };
    for number in 0..REGISTERS {
        let Some(register) = Register::new(number) else {
            continue;
        };
        if known.get(register).join(other.get(register)).is_none() {
            tell!(hint; ": r# has ", register)?;
            push_value(hint, known.get(register))?;
            hint.push_str(" after one, and ")?;
            push_value(hint, other.get(register))?;
            return hint.push_str(" after the other; a handle goes only with a handle or 0");
        }
    }
    Ok(())
}

/// Adds a way from the instruction of this number that is longer than the budget.
pub fn push_long_way(hint: &mut String, alloc: Global, image: &Image, at: usize) -> Told {
    let text =
        "from here more instructions may follow one another without a wait or an exit than the \
         budget, which is #";
    tell!(hint; text, image.budget())?;
    match way_from(alloc, image, at) {
        Some(way) => {
            push_way(hint, &way)?;
            push_remedy(hint, alloc, image, &way)
        }
        None => Ok(()),
    }
}

/// Adds the instructions on the way and the turns of blocks, of many parts only the first and the last.
fn push_way(hint: &mut String, way: &Way) -> Told {
    let parts = way.strides.len();
    let mut text = ": ";
    for (n, stride) in way.strides.iter().enumerate() {
        if n < SHOWN || n.saturating_add(SHOWN) >= parts {
            hint.push_str(text)?;
            push_stride(hint, *stride)?;
            text = ", ";
        } else if n == SHOWN {
            hint.push_str(" ..")?;
            text = " ";
        }
    }
    Ok(())
}

/// Adds where the way goes round, or how long it is, and what to do.
fn push_remedy(hint: &mut String, alloc: Global, image: &Image, way: &Way) -> Told {
    if let Some(place) = way.again {
        return tell!(hint; " and again #: no budget will do; #",
            place, advice_on_round(image, way, place));
    }
    if way.count > u64::from(Image::MOST_BUDGET) {
        return hint.push_str(", which are more than 1000000: no budget will do");
    }
    match least_budget(alloc, image, way.count) {
        Some(least) => {
            tell!(hint; ", which are #: a budget of # would do, and no smaller one",
                way.count, least)
        }
        None => { tell!(hint; ", which are #: no smaller budget will do", way.count) }
    }
}

/// Adds the number of an instruction, or a block with its turns.
fn push_stride(hint: &mut String, stride: Stride) -> Told {
    match stride {
        Stride::One(place) => tell!(hint; "#", place),
        Stride::Turns { first, last, times } => {
            tell!(hint; "the block # to # # times", first, last, times)
        }
    }
}
