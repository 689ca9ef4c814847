//! How long the ways from each instruction are that stay in its block.

ghost use Rattle.std.specs.Prelude.{◌≡◌, ◌≤◌, ◌+◌, ◌<◌, ◌++◌, length, min, IfOk, Some, None};
ghost use Rattle.std.specs.Option.{option_to_list};
ghost use Rattle.std.specs.Bool.{OnFalse};
ghost use Rattle.std.proofs.Math.ListN.{replicate};
ghost use Rattle.zl_code.specs.Blocks.{marks_of};
ghost use Rattle.zl_code.specs.Limits.{most_instructions};
ghost use Rattle.zl_verify.specs.Nested.{places, IsNested, IsPacked};
ghost use Rattle.zl_verify.specs.Longest.{pair_at, cut, further, larger, way_to, plain, turned, through, longest_by, Given, IsStuckFrom, AreLongest, IsStuckAt, missing, one_if};

use std::alloc::{AllocError, Global};
use zl_code::{Image, Mark};

/// Where the edges lead that are followed from an instruction, unless it is a pause.
#[derive(Clone, Copy)]
pub(crate) struct Targets {
    pub jump: Option<usize>,
    pub next: Option<usize>,
}

impl Targets {
    /// Nowhere.
    pub const NONE: Targets = Targets {
        jump: None,
        next: None,
    };

    /// To these places; one alone is kept as the next.
    pub fn packed(jump: Option<usize>, next: Option<usize>) -> Targets
        ensures places { places result ≡ option_to_list jump ++ option_to_list next }
        ensures packed { IsPacked (Some result) }
    {
        match next {
            Some(_) => Targets { jump, next },
            None => Targets {
                jump: None,
                next: jump,
            },
        }
    }
}

/// How long the ways from an instruction are that stay in its block.
#[derive(Clone, Copy)]
pub(crate) struct Longest {
    /// The steps of the longest of them.
    pub within: u32,
    /// Those of the longest to the end of the block, if one leads there.
    pub to_end: Option<u32>,
}

impl Longest {
    /// No way leads on.
    pub const NONE: Longest = Longest {
        within: 0,
        to_end: None,
    };
}

/// What the place was given so far; outside of the code nothing leads on.
#[inline(always)]
pub(crate) fn pair_at(pairs: &[Option<Longest>], place: usize) -> Option<Longest>
    ensures { result ≡ pair_at pairs.now place }
{
    match pairs.get(place) {
        Some(pair) => *pair,
        None => Some(Longest::NONE),
    }
}

/// So many steps, but at most this.
pub(crate) fn cap(steps: u128, most: u32) -> u32
    ensures { result ≡ min steps most }
{
    steps.min(u128::from(most)) as u32
}

/// One step more, but at most this.
#[inline(always)]
fn one_more(steps: u32, most: u32) -> u32
    ensures { result ≡ min (steps + 1) most }
{
    (u64::from(steps) + 1).min(u64::from(most)) as u32
}

/// One step more on each way.
#[inline(always)]
fn further(pair: Longest, most: u32) -> Longest
    ensures { result ≡ cut most (further pair) }
{
    Longest {
        within: one_more(pair.within, most),
        to_end: match pair.to_end {
            Some(steps) => Some(one_more(steps, most)),
            None => None,
        },
    }
}

/// The ways along an edge, if it is there and those from its end are known.
#[inline(always)]
fn way_to(pairs: &[Option<Longest>], target: Option<usize>, most: u32) -> Option<Longest>
    ensures { result ≡ way_to most (pair_at pairs.now) target }
{
    let Some(place) = target else {
        return Some(Longest::NONE);
    };
    match pair_at(pairs, place) {
        Some(pair) => Some(further(pair, most)),
        None => None,
    }
}

#[inline(always)]
fn larger(first: Option<u32>, second: Option<u32>) -> Option<u32>
    ensures { result ≡ larger first second }
{
    match (first, second) {
        (Some(first), Some(second)) => Some(first.max(second)),
        (Some(first), None) => Some(first),
        (None, second) => second,
    }
}

/// The ways of an instruction that is no end of a block.
#[inline(always)]
fn plain(pairs: &[Option<Longest>], targets: Targets, most: u32) -> Option<Longest>
    ensures { result ≡ plain most (pair_at pairs.now) targets }
{
    let jump = way_to(pairs, targets.jump, most)?;
    let next = way_to(pairs, targets.next, most)?;
    Some(Longest {
        within: jump.within.max(next.within),
        to_end: larger(jump.to_end, next.to_end),
    })
}

/// The ways through a block that is gone round so many times, with so many steps within it and to
/// its end, and on behind it.
fn turned(imm: u32, within: u32, steps: u32, after: Longest, most: u32) -> Longest
    ensures { result ≡ cut most (turned imm within steps after) }
{
    let turn = u128::from(steps) + 1;
    // The last turn may lead out of the program, and needn't come to the end.
    let last = u128::from(imm.saturating_sub(1)) * turn + u128::from(within);
    let all = u128::from(imm) * turn;
    Longest {
        within: cap(last.max(all + u128::from(after.within)) + 1, most),
        to_end: match after.to_end {
            Some(steps) => Some(cap(all + u128::from(steps) + 1, most)),
            None => None,
        },
    }
}

/// The ways of a rep, by those of the first instruction of its block and of the one behind it.
fn through(imm: u32, first: Option<Longest>, after: Option<Longest>, most: u32) -> Option<Longest>
    ensures { result ≡ through most imm first after }
{
    let first = first?;
    let Some(steps) = first.to_end else {
        return Some(Longest {
            within: one_more(first.within, most),
            to_end: None,
        });
    };
    match after {
        Some(after) => Some(turned(imm, first.within, steps, after, most)),
        None => None,
    }
}

/// The ways from the instruction with this number, if those are known on which they rest.
#[inline(always)]
fn longest_of(
    pairs: &[Option<Longest>],
    mark: Option<Mark>,
    targets: Targets,
    place: usize,
    most: u32,
) -> Option<Longest>
    requires { place < most_instructions }
    ensures { result ≡ longest_by most mark targets (pair_at pairs.now) place }
{
    match mark {
        Some(Mark::Rep { imm, end }) => {
            if targets.next.is_none() {
                return Some(Longest::NONE);
            }
            through(
                imm,
                pair_at(pairs, place + 1),
                pair_at(pairs, end as usize + 1),
                most,
            )
        }
        Some(Mark::EndRep { .. }) => Some(Longest {
            within: 0,
            to_end: match targets.next {
                Some(_) => Some(0),
                None => None,
            },
        }),
        _ => plain(pairs, targets, most),
    }
}

/// Gives a pair to the instruction with this number, if it has none and can be given one. Whether it
/// was.
#[inline(always)]
fn give(
    pairs: &mut [Option<Longest>],
    image: &Image,
    targets: &[Targets],
    place: usize,
    most: u32,
) -> bool
    requires nested { IsNested (marks_of image.now.code) targets.now }
    requires few { place < most_instructions }
    requires there { place < length image.now.code }
    requires long { length pairs.old ≡ length image.now.code }
    requires given { Given (marks_of image.now.code) targets.now most pairs.old }
    ensures long { length pairs.new ≡ length image.now.code }
    ensures given { Given (marks_of image.now.code) targets.now most pairs.new }
    ensures same { OnFalse result (pairs.new ≡ pairs.old) }
    ensures stuck { OnFalse result
        (IsStuckAt (marks_of image.now.code) targets.now most pairs.new place) }
    ensures fewer { missing pairs.new + one_if result ≤ missing pairs.old }
{
    if pairs[place].is_some() {
        return false;
    }
    let mark = image.mark_at(place);
    let Some(pair) = longest_of(pairs, mark, targets[place], place, most) else {
        return false;
    };
    pairs[place] = Some(pair);
    true
}

/// Goes over the instructions from the last to the first, and gives a pair to each that has none and
/// can be given one. Whether there was one.
fn pass(pairs: &mut [Option<Longest>], image: &Image, targets: &[Targets], most: u32) -> bool
    requires nested { IsNested (marks_of image.now.code) targets.now }
    requires long { length pairs.old ≡ length image.now.code }
    requires given { Given (marks_of image.now.code) targets.now most pairs.old }
    ensures long { length pairs.new ≡ length image.now.code }
    ensures given { Given (marks_of image.now.code) targets.now most pairs.new }
    ensures stuck { OnFalse result (IsStuckFrom (marks_of image.now.code) targets.now most pairs.new 0) }
    ensures fewer { missing pairs.new + one_if result ≤ missing pairs.old }
{
    let mut changed = false;
    for place in (0..image.len()).rev() {
        if give(pairs, image, targets, place, most) {
            changed = true;
        }
    }
    changed
}

/// Does the same from the first instruction to the last: where jumps lead backward, many are given a
/// pair by it that would take as many passes the other way.
fn pass_on(pairs: &mut [Option<Longest>], image: &Image, targets: &[Targets], most: u32)
    requires nested { IsNested (marks_of image.now.code) targets.now }
    requires long { length pairs.old ≡ length image.now.code }
    requires given { Given (marks_of image.now.code) targets.now most pairs.old }
    ensures long { length pairs.new ≡ length image.now.code }
    ensures given { Given (marks_of image.now.code) targets.now most pairs.new }
    ensures fewer { missing pairs.new ≤ missing pairs.old }
{
    for place in 0..image.len() {
        give(pairs, image, targets, place, most);
    }
}

/// Nothing yet for each instruction.
fn nothing(alloc: Global, count: usize) -> Result<Vec<Option<Longest>>, AllocError>
    ensures { IfOk result (λ pairs. pairs.items ≡ replicate count None) }
{
    vec![in alloc; None; count]
}

/// The longest ways from each instruction within its block, none of more steps than this; nothing
/// where there is no end of them.
pub(crate) fn longest_ways(
    alloc: Global,
    image: &Image,
    targets: &[Targets],
    most: u32,
) -> Result<Vec<Option<Longest>>, AllocError>
    requires { IsNested (marks_of image.now.code) targets.now }
    ensures { IfOk result (λ pairs.
        AreLongest (marks_of image.now.code) targets.now most pairs.items) }
{
    let mut pairs = nothing(alloc, image.len())?;
    let mut changed = true;
    while changed {
        changed = pass(&mut pairs, image, targets, most);
        if changed {
            pass_on(&mut pairs, image, targets, most);
        }
    }
    Ok(pairs)
}
