//! The largest number of steps from each instruction, whatever its counters are.

ghost use Rattle.std.specs.Prelude.{◌≡◌, nat_le, slice_get, ◌≤◌, ◌+◌, ◌<◌, length, get_or, min, IfOk, IfErr, None};
ghost use Rattle.std.specs.List.{position};
ghost use Rattle.std.proofs.Math.ListN.{replicate};
ghost use Rattle.zl_code.specs.Blocks.{marks_of};
ghost use Rattle.zl_code.specs.Limits.{most_instructions};
ghost use Rattle.zl_verify.specs.Lists.{at};
ghost use Rattle.zl_verify.specs.Nested.{IsNested};
ghost use Rattle.zl_verify.specs.Longest.{AreLongest};
ghost use Rattle.zl_verify.specs.Peaks.{AreHomes, ArePeaks, IsBoundOf, IsFirstOver, IsUnbounded, lengths, home_behind, turns_left, number, numbers_by, or_most, pair_in, peak_by, peak_home};

use crate::steps::{Longest, Targets, cap, longest_ways, pair_at};
use std::alloc::{AllocError, Global};
use zl_code::{Image, Mark};

/// The innermost block of the place, if it is in one.
fn home_at(homes: &[Option<u32>], place: usize) -> Option<u32>
    ensures { result ≡ at homes.now place }
{
    match homes.get(place) {
        Some(home) => *home,
        None => None,
    }
}

/// The innermost block of the place behind this one.
fn home_behind(mark: Option<Mark>, place: usize, homes: &[Option<u32>]) -> Option<u32>
    requires { place < most_instructions }
    ensures { result ≡ home_behind mark place (at homes.now) }
{
    match mark {
        Some(Mark::Rep { .. }) => Some(place as u32),
        Some(Mark::EndRep { rep }) => home_at(homes, rep as usize),
        _ => home_at(homes, place),
    }
}

/// No block for each instruction.
fn no_homes(alloc: Global, count: usize) -> Result<Vec<Option<u32>>, AllocError>
    ensures { IfOk result (λ homes. homes.items ≡ replicate count None) }
{
    vec![in alloc; None; count]
}

/// The innermost block that each instruction is in.
fn homes_of(
    alloc: Global,
    image: &Image,
    targets: &[Targets],
) -> Result<Vec<Option<u32>>, AllocError>
    requires { IsNested (marks_of image.now.code) targets.now }
    ensures { IfOk result (λ homes.
        AreHomes (marks_of image.now.code) homes.items (length image.now.code)) }
{
    let mut homes = no_homes(alloc, image.len())?;
    for place in 1..image.len() {
        homes[place] = home_behind(image.mark_at(place - 1), place - 1, &homes);
    }
    Ok(homes)
}

/// The ways, or so many steps as are too many.
fn or_most(pair: Option<Longest>, most: u32) -> Longest
    ensures { result ≡ or_most most pair }
{
    match pair {
        Some(pair) => pair,
        None => Longest {
            within: most,
            to_end: None,
        },
    }
}

/// The steps behind an endrep that was come to with so many turns left, with so many behind the
/// block.
fn turns_left(first: Longest, times: u32, behind: u32) -> u128
    ensures value { result ≡ turns_left first times behind }
    ensures small { result < 0x1_0000_0000_0000_0000_0000 }
{
    if times == 0 {
        return u128::from(behind);
    }
    match first.to_end {
        None => u128::from(first.within),
        Some(steps) => {
            let turn = u128::from(steps) + 1;
            let last = u128::from(first.within).max(turn + u128::from(behind));
            u128::from(times - 1) * turn + last
        }
    }
}

/// The largest number of a place in a block that is gone round so many times, at most this.
fn peak_of(own: Longest, first: Longest, imm: u32, behind: u32, most: u32) -> u32
    ensures { result ≡ min (peak_by own first own.to_end imm behind) most }
{
    let Some(steps) = own.to_end else {
        return own.within.min(most);
    };
    // A way out behind the block may be longer than all turns that are left.
    let ahead = turns_left(first, imm.saturating_sub(1), behind).max(u128::from(behind));
    let farther = u128::from(steps) + 1 + ahead;
    cap(farther.max(u128::from(own.within)), most)
}

/// The largest number of the place, none behind the code.
fn peak_behind(peaks: &[u32], place: usize) -> u32
    ensures { result ≡ get_or peaks.now place 0 }
{
    match peaks.get(place) {
        Some(peak) => *peak,
        None => 0,
    }
}

/// The largest number of the place, by those of the places behind it.
fn peak_at(
    image: &Image,
    pairs: &[Option<Longest>],
    homes: &[Option<u32>],
    peaks: &[u32],
    place: usize,
    most: u32,
) -> u32
    ensures { result ≡ peak_home (marks_of image.now.code) (pair_in most pairs.now) peaks.now
        most place (at homes.now place) }
{
    let own = or_most(pair_at(pairs, place), most);
    let Some(rep) = home_at(homes, place) else {
        return own.within;
    };
    match image.mark_at(rep as usize) {
        Some(Mark::Rep { imm, end }) => peak_of(
            own,
            or_most(pair_at(pairs, rep as usize + 1), most),
            imm,
            peak_behind(peaks, end as usize + 1),
            most,
        ),
        _ => own.within,
    }
}

/// The largest number of each place, none larger than most.
fn peaks_of(
    alloc: Global,
    image: &Image,
    targets: &[Targets],
    pairs: &[Option<Longest>],
    most: u32,
) -> Result<Vec<u32>, AllocError>
    requires nested { IsNested (marks_of image.now.code) targets.now }
    requires longest { AreLongest (marks_of image.now.code) targets.now most pairs.now }
    ensures { IfOk result (λ peaks.
        ArePeaks (marks_of image.now.code) targets.now most pairs.now peaks.items 0) }
{
    let homes = homes_of(alloc, image, targets)?;
    let mut peaks = vec![in alloc; 0; image.len()]?;
    for place in (0..image.len()).rev() {
        peaks[place] = peak_at(image, pairs, &homes, &peaks, place, most);
    }
    Ok(peaks)
}

/// The first place whose largest number is so large.
fn first_over(peaks: &[u32], most: u32) -> Option<usize>
    ensures { result ≡ position (nat_le most) peaks.now }
{
    peaks.iter().position(|peak| *peak >= most)
}

/// The same in a program without blocks, where these are all the steps that there are.
fn first_long(pairs: &[Option<Longest>], most: u32) -> Option<usize>
    ensures { result ≡ position (λ pair. nat_le most (or_most most pair).within) pairs.now }
{
    pairs
        .iter()
        .position(|pair| or_most(*pair, most).within >= most)
}

/// The first place from which so many steps can be made, whatever its counters are.
fn over(
    alloc: Global,
    image: &Image,
    targets: &[Targets],
    pairs: &[Option<Longest>],
    most: u32,
) -> Result<Option<usize>, AllocError>
    requires nested { IsNested (marks_of image.now.code) targets.now }
    requires longest { AreLongest (marks_of image.now.code) targets.now most pairs.now }
    ensures { IfOk result (λ found.
        IsFirstOver (marks_of image.now.code) targets.now most pairs.now found) }
{
    if image.is_flat() {
        return Ok(first_long(pairs, most));
    }
    let peaks = peaks_of(alloc, image, targets, pairs, most)?;
    Ok(first_over(&peaks, most))
}

/// Why there is no step bound.
#[derive(Clone, Copy, Debug, Drop)]
pub(crate) enum Unbounded {
    NoMemory,
    /// This is the first place from which too many steps can be made.
    Over(usize),
}

/// The longest ways along these edges, where they stand for a step bound within the image's budget.
pub(crate) fn bound_of(
    alloc: Global,
    image: &Image,
    targets: &[Targets],
) -> Result<Vec<Option<Longest>>, Unbounded>
    requires { IsNested (marks_of image.now.code) targets.now }
    ensures bound { IfOk result (λ pairs. IsBoundOf (marks_of image.now.code) targets.now
        image.now.budget (numbers_by image.now pairs.items)) }
    ensures exact { IfErr result (λ why.
        IsUnbounded (marks_of image.now.code) targets.now image.now.budget why) }
{
    let most = image.budget() + 1;
    let Ok(pairs) = longest_ways(alloc, image, targets, most) else {
        return Err(Unbounded::NoMemory);
    };
    match over(alloc, image, targets, &pairs, most) {
        Ok(None) => Ok(pairs),
        Ok(Some(place)) => Err(Unbounded::Over(place)),
        Err(_) => Err(Unbounded::NoMemory),
    }
}
