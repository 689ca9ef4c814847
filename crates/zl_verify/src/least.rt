//! The least typing of an image: a search that looks at stretches again and again, and where that
//! would be too often one by what is named between two parts of it.

ghost use Rattle.std.specs.Prelude.{◌≡◌, ◌<◌, ◌≤◌, length, true, IsTrue, IfOk, IfErr, IfSome};
ghost use Rattle.zl_code.specs.Spells.{is_in_range};
ghost use Rattle.zl_abs.specs.Bounds.{RoundAlike, bounds_of};
ghost use Rattle.zl_verify.specs.Going.{Goes};
ghost use Rattle.zl_verify.specs.Lists.{at};
ghost use Rattle.zl_verify.specs.Stretches.{AreStretches, states_of};
ghost use Rattle.zl_verify.specs.Checks.{IsLeastTyping, IsRefused};

use crate::pace::Pace;
use crate::refusal::RefusalCause;
use crate::search::{Fault, Search};
use crate::seen::Seen;
use crate::sparse::lift;
use crate::stretches::Stretches;
use std::alloc::{AllocError, Global};
use zl_abs::{AbsState, Bounds, Cause};
use zl_code::Image;

/// How often each instruction is looked at, by and large, before the search first goes by what is named.
const LOOKS: usize = 8;

/// How often it may go by what is named. Each time twice as much is looked at before.
const ROUNDS: u32 = 24;

/// What a search found: the stretches, and what is known where each begins. What is known at the other
/// instructions follows from that.
#[derive(Drop)]
pub(crate) struct Found {
    pub stretches: Stretches,
    pub states: Vec<Option<AbsState>>,
}

/// The search goes on as long as no more than so many instructions are looked at. Whether nothing
/// waits any more.
fn begin(
    search: &mut Search,
    bounds: &Bounds,
    image: &Image,
    stretches: &Stretches,
    most: usize,
    seen: &mut Seen,
) -> Result<bool, Fault>
    requires alike { RoundAlike bounds.now (bounds_of image.now.code) }
    requires goes { Goes image.now stretches.now search.old }
    ensures goes { IfOk result (λ done. Goes image.now stretches.now search.new) }
    ensures over { IfOk result (λ done.
        done ≡ true → length stretches.now.starts ≤ search.new.from) }
    ensures exact { IfErr result (λ fault. IsRefused image.now fault.at fault.cause) }
{
    let mut left = most;
    while search.place() < stretches.count() {
        let cost = search.cost(image, stretches);
        if left < cost {
            return Ok(false);
        }
        left -= cost;
        match search.advance(bounds, image, stretches, seen) {
            Ok(()) => {}
            Err(fault) => return Err(fault),
        }
    }
    Ok(true)
}

/// The search goes on until nothing waits.
fn finish(
    search: &mut Search,
    bounds: &Bounds,
    image: &Image,
    stretches: &Stretches,
    seen: &mut Seen,
) -> Result<(), Fault>
    requires alike { RoundAlike bounds.now (bounds_of image.now.code) }
    requires goes { Goes image.now stretches.now search.old }
    ensures goes { IfOk result (λ done. Goes image.now stretches.now search.new) }
    ensures over { IfOk result (λ done. length stretches.now.starts ≤ search.new.from) }
    ensures exact { IfErr result (λ fault. IsRefused image.now fault.at fault.cause) }
{
    while search.place() < stretches.count() {
        match search.advance(bounds, image, stretches, seen) {
            Ok(()) => {}
            Err(fault) => return Err(fault),
        }
    }
    Ok(())
}

/// The search goes on over what one by names leaves, until nothing waits. Not where there may be no
/// typing: why, a search from the start tells.
fn finish_lifted(
    alloc: Global,
    search: &mut Search,
    bounds: &Bounds,
    image: &Image,
    stretches: &Stretches,
) -> bool
    requires alike { RoundAlike bounds.now (bounds_of image.now.code) }
    requires goes { Goes image.now stretches.now search.old }
    ensures goes { result ≡ true → Goes image.now stretches.now search.new }
    ensures over { result ≡ true → length stretches.now.starts ≤ search.new.from }
{
    let mut most = image.len().saturating_mul(LOOKS);
    for _ in 0..ROUNDS {
        match begin(search, bounds, image, stretches, most, &mut Seen::NOTHING) {
            Ok(true) => return true,
            Ok(false) => {}
            Err(_) => return false,
        }
        match lift(
            alloc,
            bounds,
            image,
            stretches,
            search,
            Pace::among(image.len()),
        ) {
            Some(_) => {}
            None => return false,
        }
        most = most.saturating_mul(2);
    }
    match finish(search, bounds, image, stretches, &mut Seen::NOTHING) {
        Ok(()) => true,
        Err(_) => false,
    }
}

/// A search of these stretches of the image at its start.
fn start(alloc: Global, image: &Image, stretches: &Stretches) -> Result<Search, AllocError>
    requires in_range { IsTrue (is_in_range image.now) }
    requires stretches { AreStretches image.now stretches.now }
    ensures { IfOk result (λ search. Goes image.now stretches.now search) }
{
    match Search::new(alloc, image, stretches.count()) {
        Ok(search) => Ok(search),
        Err(error) => Err(error),
    }
}

/// The search goes on until nothing waits, by what is named where too much would be looked at. Not
/// where only a search from the start tells why there is no typing.
fn finish_soon(
    alloc: Global,
    search: &mut Search,
    bounds: &Bounds,
    image: &Image,
    stretches: &Stretches,
    seen: &mut Seen,
) -> Result<bool, Fault>
    requires alike { RoundAlike bounds.now (bounds_of image.now.code) }
    requires goes { Goes image.now stretches.now search.old }
    ensures goes { IfOk result (λ done. done ≡ true → Goes image.now stretches.now search.new) }
    ensures over { IfOk result (λ done.
        done ≡ true → length stretches.now.starts ≤ search.new.from) }
    ensures exact { IfErr result (λ fault. IsRefused image.now fault.at fault.cause) }
{
    let mut most = image.len().saturating_mul(LOOKS);
    for _ in 0..ROUNDS {
        match begin(search, bounds, image, stretches, most, seen) {
            Ok(true) => return Ok(true),
            Ok(false) => {}
            Err(fault) => return Err(fault),
        }
        match lift(
            alloc,
            bounds,
            image,
            stretches,
            search,
            Pace::among(image.len()),
        ) {
            None => return Ok(false),
            Some(true) => return Ok(finish_lifted(alloc, search, bounds, image, stretches)),
            // What waits is looked at on, and in the order in which it would be without this.
            Some(false) => {}
        }
        most = most.saturating_mul(2);
    }
    match finish(search, bounds, image, stretches, seen) {
        Ok(()) => Ok(true),
        Err(fault) => Err(fault),
    }
}

/// What is known at these stretches of the image in its least typing, by a search of all that waits.
fn settle_densely(
    alloc: Global,
    bounds: &Bounds,
    image: &Image,
    stretches: &Stretches,
    seen: &mut Seen,
) -> Result<Vec<Option<AbsState>>, Fault>
    requires alike { RoundAlike bounds.now (bounds_of image.now.code) }
    requires in_range { IsTrue (is_in_range image.now) }
    requires stretches { AreStretches image.now stretches.now }
    ensures typing { IfOk result (λ states. IsLeastTyping image.now
        (at (states_of image.now stretches.now.numbers states.items))) }
    ensures exact { IfErr result (λ fault. IsRefused image.now fault.at fault.cause) }
{
    let Ok(mut search) = start(alloc, image, stretches) else {
        return Err(Fault::at_once(RefusalCause::NoMemory));
    };
    match finish(&mut search, bounds, image, stretches, seen) {
        Ok(()) => Ok(search.found()),
        Err(fault) => Err(fault),
    }
}

/// The same, by what is named where that would look at too much. Nothing where only a search from the
/// start tells why there is no typing.
fn settle_soon(
    alloc: Global,
    bounds: &Bounds,
    image: &Image,
    stretches: &Stretches,
    seen: &mut Seen,
) -> Result<Option<Vec<Option<AbsState>>>, Fault>
    requires alike { RoundAlike bounds.now (bounds_of image.now.code) }
    requires in_range { IsTrue (is_in_range image.now) }
    requires stretches { AreStretches image.now stretches.now }
    ensures typing { IfOk result (λ settled. IfSome settled (λ states. IsLeastTyping image.now
        (at (states_of image.now stretches.now.numbers states.items)))) }
    ensures exact { IfErr result (λ fault. IsRefused image.now fault.at fault.cause) }
{
    let Ok(mut search) = start(alloc, image, stretches) else {
        return Err(Fault::at_once(RefusalCause::NoMemory));
    };
    match finish_soon(alloc, &mut search, bounds, image, stretches, seen) {
        Ok(true) => Ok(Some(search.found())),
        Ok(false) => Ok(None),
        Err(fault) => Err(fault),
    }
}

/// What is known at these stretches of the image in its least typing.
fn settle(
    alloc: Global,
    bounds: &Bounds,
    image: &Image,
    stretches: &Stretches,
    seen: &mut Seen,
) -> Result<Vec<Option<AbsState>>, Fault>
    requires alike { RoundAlike bounds.now (bounds_of image.now.code) }
    requires in_range { IsTrue (is_in_range image.now) }
    requires stretches { AreStretches image.now stretches.now }
    ensures typing { IfOk result (λ states. IsLeastTyping image.now
        (at (states_of image.now stretches.now.numbers states.items))) }
    ensures exact { IfErr result (λ fault. IsRefused image.now fault.at fault.cause) }
{
    match settle_soon(alloc, bounds, image, stretches, seen) {
        Err(fault) => Err(fault),
        Ok(Some(states)) => Ok(states),
        Ok(None) => settle_densely(alloc, bounds, image, stretches, seen),
    }
}

/// The least typing of the image. Bounds of words are rounded up by `bounds`. Of an image that has no
/// typing, `seen` gets what was known where that was seen.
pub(crate) fn solve(
    alloc: Global,
    bounds: &Bounds,
    image: &Image,
    seen: &mut Seen,
) -> Result<Found, Fault>
    requires alike { RoundAlike bounds.now (bounds_of image.now.code) }
    ensures typing { IfOk result (λ found. IsLeastTyping image.now
        (at (states_of image.now found.stretches.numbers found.states.items))) }
    ensures exact { IfErr result (λ fault. IsRefused image.now fault.at fault.cause) }
{
    let length = image.len();
    if length == 0 {
        return Err(Fault::at_once(RefusalCause::Rule(Cause::FallsOff)));
    }
    let Ok(stretches) = Stretches::of(alloc, image) else {
        return Err(Fault::at_once(RefusalCause::NoMemory));
    };
    match settle(alloc, bounds, image, &stretches, seen) {
        Ok(states) => Ok(Found { stretches, states }),
        Err(fault) => Err(fault),
    }
}

/// Whether, behind a search by what is named, one look at each instruction finds what is known at
/// these stretches.
fn is_settled_by_names(
    alloc: Global,
    bounds: &Bounds,
    image: &Image,
    stretches: &Stretches,
) -> Option<bool>
    requires alike { RoundAlike bounds.now (bounds_of image.now.code) }
    requires in_range { IsTrue (is_in_range image.now) }
    requires stretches { AreStretches image.now stretches.now }
{
    let Ok(mut search) = start(alloc, image, stretches) else {
        return None;
    };
    match lift(
        alloc,
        bounds,
        image,
        stretches,
        &mut search,
        Pace::endless(),
    ) {
        Some(_) => {}
        None => return None,
    }
    match begin(
        &mut search,
        bounds,
        image,
        stretches,
        image.len(),
        &mut Seen::NOTHING,
    ) {
        Ok(done) => Some(done),
        Err(_) => None,
    }
}

/// Whether, behind a search by what is named, one look at each instruction finds the least typing of
/// the image; nothing where there is none, or memory is refused. No clause says so: tests see by it
/// that a register which rises is carried to each place where it is named. Own profile.
pub fn is_solved_by_names(alloc: Global, image: &Image) -> Option<bool> {
    let Ok(bounds) = Bounds::of(alloc, image) else {
        return None;
    };
    let length = image.len();
    if length == 0 {
        return None;
    }
    let Ok(stretches) = Stretches::of(alloc, image) else {
        return None;
    };
    is_settled_by_names(alloc, &bounds, image, &stretches)
}
