//! Ways that go round without a wait.

use crate::program::breach::blocks_at;
use zl_code::{Image, LocalInstr, Version};
use zl_verify::{Stride, Way};

/// What to do about a way that comes to this place again.
pub fn advice_on_round(image: &Image, way: &Way, place: usize) -> &'static str {
    if !has_test(image, way, place) {
        "wait in the loop"
    } else if blocks_at(image.code(), place).0 >= Image::MOST_BLOCKS {
        "a counter isn't followed, so write the loop out, or wait in it"
    } else if image.version() == Version::One {
        "a counter isn't followed, so count by rep and endrep of version 2, or wait in it"
    } else {
        "a counter isn't followed, so count by rep and endrep, or wait in it"
    }
}

/// Whether a test stands on the way behind this place, and may count the rounds.
fn has_test(image: &Image, way: &Way, place: usize) -> bool {
    let mut is_behind = false;
    for stride in &way.strides {
        if let Stride::One(number) = *stride {
            is_behind = is_behind || number == place;
            if is_behind && is_test(image, number) {
                return true;
            }
        }
    }
    false
}

/// Whether the instruction of this number jumps or goes on, by what a register has.
fn is_test(image: &Image, number: usize) -> bool {
    match image.local_at(number) {
        Some(LocalInstr::Jump { .. }) | None => false,
        Some(local) => local.target().is_some(),
    }
}
