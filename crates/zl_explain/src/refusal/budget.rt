//! Which budget would do for a program that is past its own.

use std::alloc::Global;
use zl_code::{Image, decode, encode};
use zl_verify::{Refusal, RefusalCause, Way, check, way_from};

/// No longer program is checked again, as that may take long.
const MOST_LENGTH: usize = 512;

/// How many budgets are tried.
const MOST_TRIED: usize = 8;

/// The least budget with which the image is accepted, where no budget below this one will do and it is
/// found soon. Each that is tried is as long as a way.
pub fn least_budget(alloc: Global, image: &Image, least: u64) -> Option<u64> {
    if image.len() > MOST_LENGTH {
        return None;
    }
    let bytes = encode(alloc, image).ok()?;
    let mut image = decode(alloc, bytes.as_slice()).ok()?;
    let mut budget = least;
    for _ in 0..MOST_TRIED {
        let Some(refusal) = refusal_with(alloc, image, budget)? else {
            return Some(budget);
        };
        let way = longer_way(alloc, &refusal)?;
        budget = way.count;
        image = refusal.image;
    }
    None
}

/// The way that is too long, if the image is refused for one that ends.
fn longer_way(alloc: Global, refusal: &Refusal) -> Option<Way> {
    let way = match refusal.cause {
        RefusalCause::Budget => way_from(alloc, &refusal.image, refusal.at)?,
        _ => return None,
    };
    match way.again {
        Some(_) => None,
        None => Some(way),
    }
}

/// How the image is refused with this budget, if it is; nothing where there is no such budget.
fn refusal_with(alloc: Global, image: Image, budget: u64) -> Option<Option<Refusal>> {
    let budget = u32::try_from(budget).ok()?;
    if budget == 0 || budget > Image::MOST_BUDGET {
        return None;
    }
    let mut image = image;
    image.set_budget(budget);
    Some(check(alloc, image).err())
}
