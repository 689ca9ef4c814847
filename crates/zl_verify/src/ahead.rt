//! How many instructions may follow one another whatever is known at them, by the code alone.

ghost use Rattle.std.specs.Prelude.{◌≡◌, ◌<◌, length, IfOk, Some};
ghost use Rattle.zl_code.specs.Blocks.{marks_of};
ghost use Rattle.zl_code.specs.Image.{local_at};
ghost use Rattle.zl_code.specs.Limits.{most_instructions};
ghost use Rattle.zl_abs.specs.LocalRules.{goes_round_again};
ghost use Rattle.zl_verify.specs.Ahead.{ahead, jump_in, place_within, AreAhead, BoundsAll};
ghost use Rattle.zl_verify.specs.Nested.{places, IsNested, IsPacked};

use crate::peaks::{Unbounded, bound_of};
use crate::steps::{Longest, Targets};
use crate::targets::is_pause;
use std::alloc::{AllocError, Global};
use zl_code::{Image, LocalInstr, Mark};

/// Whether the block that begins there is gone round more than once.
fn goes_round_again(image: &Image, rep: u32) -> bool
    ensures { result ≡ goes_round_again image.now.code rep }
{
    match image.mark_at(rep as usize) {
        Some(Mark::Rep { imm, .. }) => imm >= 2,
        _ => false,
    }
}

/// Where the instruction of this number leads, but to the next one.
fn jump_at(image: &Image, place: usize) -> Option<usize>
    ensures { result ≡ jump_in image.now place (local_at image.now place) }
{
    let local = image.local_at(place)?;
    if let LocalInstr::EndRep { rep } = local {
        // At the last place it leads nowhere, as no way leads on behind the block.
        let goes_back = place + 1 < image.len() && goes_round_again(image, rep);
        return goes_back.then_some(rep as usize + 1);
    }
    match local.target() {
        Some(target) => Some(target as usize),
        None => None,
    }
}

/// The place, if the code has an instruction there.
fn within(image: &Image, place: Option<usize>) -> Option<usize>
    ensures { result ≡ place_within (length image.now.code) place }
{
    match place {
        Some(place) if place < image.len() => Some(place),
        _ => None,
    }
}

/// Where the instruction may lead, whatever is known at it: where it jumps or goes back, and to the
/// next one, but nowhere from a pause.
fn targets_at(image: &Image, place: usize) -> Targets
    requires { place < most_instructions }
    ensures places { places result ≡ ahead image.now place }
    ensures packed { IsPacked (Some result) }
{
    if is_pause(image, place) {
        return Targets::NONE;
    }
    Targets::packed(
        within(image, jump_at(image, place)),
        within(image, Some(place + 1)),
    )
}

/// The same of each instruction.
#[tactic(auto, using(crate::proofs::LookingAhead::ahead_begins, crate::proofs::LookingAhead::ahead_more))]
fn targets_ahead(alloc: Global, image: &Image) -> Result<Vec<Targets>, AllocError>
    ensures ahead { IfOk result (λ targets.
        AreAhead image.now targets.items (length image.now.code)) }
    ensures nested { IfOk result (λ targets.
        IsNested (marks_of image.now.code) targets.items) }
{
    let mut targets = vec![in alloc; Targets::NONE; image.len()]?;
    for place in 0..image.len() {
        targets[place] = targets_at(image, place);
    }
    Ok(targets)
}

/// A step bound of whatever is known at the instructions, if the code alone gives one within the
/// budget. Most images have one, and it is found without the rules of their instructions.
pub(crate) fn bound_ahead(alloc: Global, image: &Image) -> Result<Vec<Option<Longest>>, Unbounded>
    ensures { IfOk result (λ steps. BoundsAll image.now steps.items) }
{
    let Ok(targets) = targets_ahead(alloc, image) else {
        return Err(Unbounded::NoMemory);
    };
    bound_of(alloc, image, &targets)
}
