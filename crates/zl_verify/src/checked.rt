//! Which images are accepted.

ghost use Rattle.std.specs.Prelude.{◌≡◌, length, IfOk, IfErr};
ghost use Rattle.zl_abs.specs.Bounds.{RoundAlike, bounds_of};
ghost use Rattle.zl_abs.specs.Typing.{IsTyping};
ghost use Rattle.zl_verify.specs.Lists.{at};
ghost use Rattle.zl_verify.specs.Stretches.{states_of};
ghost use Rattle.zl_verify.specs.Peaks.{numbers_by};
ghost use Rattle.zl_verify.specs.Steps.{IsStepBound};
ghost use Rattle.zl_verify.specs.Checks.{IsLeastTyping, IsRefused};
ghost use Rattle.zl_code.specs.Headline.{IsNeverRefused};
ghost use Rattle.zl_verify.specs.NoLeak.{NeverLeaks};

use crate::ahead::bound_ahead;
use crate::least::{Found, solve};
use crate::peaks::{Unbounded, bound_of};
use crate::refusal::{Refusal, RefusalCause};
use crate::search::Fault;
use crate::seen::Seen;
use crate::steps::Longest;
use crate::targets::targets_of;
use std::alloc::Global;
use std::marker::Model;
use zl_abs::Bounds;
use zl_code::Image;

/// An accepted image, with what is known at each instruction that can be reached, and how long the
/// ways from there are at most before a wait or an exit. Own profile.
#[derive(Drop)]
pub struct Checked {
    image: Image,
    found: Found,
    steps: Vec<Option<Longest>>,
}

impl Model for Checked {
    ghost use Rattle.zl_verify.specs.Checks.{Accepted, IsAccepted};
    ghost use Rattle.zl_verify.specs.Stretches.{states_of};

    ghost Value = { Accepted };

    ghost view = { λ c. record {
      image = c.image;
      states = states_of c.image c.found.stretches.numbers c.found.states.items;
      steps = c.steps.items;
    } };

    ghost invariant = { λ c. IsAccepted c.image
        (states_of c.image c.found.stretches.numbers c.found.states.items) c.steps.items };
}

impl Checked {
    /// The image that was accepted.
    pub fn image(&self) -> &Image
        ensures value { result.now ≡ self.now.image }
        // What is public of the invariant: callers learn it here of any accepted image.
        ensures typing { IsTyping self.now.image (at self.now.states) }
        ensures bound { IsStepBound self.now.image (at self.now.states)
            (numbers_by self.now.image self.now.steps) }
    {
        &self.image
    }

    /// In every run from a boot world, whatever others do: a process that was properly started from
    /// this image gets no call answered BAD_HANDLE, WRONG_TYPE or ACCESS_DENIED, is never stuck, and
    /// takes no more instructions than its budget from its start on up to a wait or its end, and
    /// behind each wait. No call of its own ends it but `process_exit` and, with the code of the
    /// killed, `task_kill`, so that no policy does.
    ///
    /// And no handle of it leaks: in every world, as long as it lives, its table has a handle at
    /// just the values other than 0 that stand in its slot arrays and in those registers that are
    /// known as handles at its instruction, and each of these values stands in one place.
    ///
    /// It does nothing: its clauses are what an accepted image is good for. Own profile.
    pub fn sound(&self)
        ensures never_refused { IsNeverRefused self.now.image }
        ensures no_leak { NeverLeaks self.now.image (at self.now.states) }
    {
        // Its clauses are the type's invariant, on which all rests.
        self.image();
    }
}

/// A step bound of the least typing, or why there is none, by the edges that are followed there.
fn exact_bound(
    alloc: Global,
    bounds: &Bounds,
    image: &Image,
    found: &Found,
) -> Result<Vec<Option<Longest>>, Fault>
    requires alike { RoundAlike bounds.now (bounds_of image.now.code) }
    requires typing { IsLeastTyping image.now
        (at (states_of image.now found.now.stretches.numbers found.now.states.items)) }
    ensures bound { IfOk result (λ steps. IsStepBound image.now
        (at (states_of image.now found.now.stretches.numbers found.now.states.items))
        (numbers_by image.now steps.items)) }
    ensures exact { IfErr result (λ fault. IsRefused image.now fault.at fault.cause) }
{
    let Ok(targets) = targets_of(alloc, bounds, image, found) else {
        return Err(Fault::at_once(RefusalCause::NoMemory));
    };
    match bound_of(alloc, image, &targets) {
        Ok(steps) => Ok(steps),
        Err(Unbounded::Over(at)) => Err(Fault {
            at,
            cause: RefusalCause::Budget,
        }),
        Err(Unbounded::NoMemory) => Err(Fault::at_once(RefusalCause::NoMemory)),
    }
}

/// A step bound of the least typing, or why there is none.
fn bound(
    alloc: Global,
    bounds: &Bounds,
    image: &Image,
    found: &Found,
) -> Result<Vec<Option<Longest>>, Fault>
    requires alike { RoundAlike bounds.now (bounds_of image.now.code) }
    requires typing { IsLeastTyping image.now
        (at (states_of image.now found.now.stretches.numbers found.now.states.items)) }
    ensures bound { IfOk result (λ steps. IsStepBound image.now
        (at (states_of image.now found.now.stretches.numbers found.now.states.items))
        (numbers_by image.now steps.items)) }
    ensures exact { IfErr result (λ fault. IsRefused image.now fault.at fault.cause) }
{
    match bound_ahead(alloc, image) {
        Ok(steps) => Ok(steps),
        // Where the code alone gives none, what is known at the instructions may give one yet.
        Err(Unbounded::Over(_)) => exact_bound(alloc, bounds, image, found),
        Err(Unbounded::NoMemory) => Err(Fault::at_once(RefusalCause::NoMemory)),
    }
}

fn refuse(image: Image, fault: Fault, seen: Seen) -> Refusal
    ensures { result ≡ record { at = fault.at; cause = fault.cause; image = image; seen = seen } }
{
    Refusal {
        at: fault.at,
        cause: fault.cause,
        image,
        seen,
    }
}

/// Accepts the image, where it has a typing and a step bound of it, or refuses it, with the
/// instruction at which it was seen why not. It takes memory for what is known at each instruction,
/// for some numbers more, and for the bounds of the image's words.
///
/// `Rule` where the rule of the instruction doesn't hold at what is known there, and `JoinConflict`
/// where nothing describes what may come to it: both only of an image that has no typing, and that it
/// is this instruction and this rule no clause says. `Budget` only of one that has a typing, and none
/// with a step bound; the instruction is then the least from which too many may follow one another.
/// `NoMemory` where memory is refused. Own profile.
pub fn check(alloc: Global, image: Image) -> Result<Checked, Refusal>
    ensures accepted { IfOk result (λ checked. checked.image ≡ image) }
    ensures typing { IfOk result (λ checked. IsTyping image (at checked.states)) }
    ensures bound { IfOk result (λ checked.
        IsStepBound image (at checked.states) (numbers_by image checked.steps)) }
    ensures given_back { IfErr result (λ refusal. refusal.image ≡ image) }
    ensures exact { IfErr result (λ refusal. IsRefused image refusal.at refusal.cause) }
{
    let Ok(bounds) = Bounds::of(alloc, &image) else {
        return Err(refuse(image, Fault::at_once(RefusalCause::NoMemory), Seen::NOTHING));
    };
    let mut seen = Seen::NOTHING;
    let found = match solve(alloc, &bounds, &image, &mut seen) {
        Ok(found) => found,
        Err(fault) => return Err(refuse(image, fault, seen)),
    };
    match bound(alloc, &bounds, &image, &found) {
        Ok(steps) => Ok(Checked {
            image,
            found,
            steps,
        }),
        Err(fault) => Err(refuse(image, fault, Seen::NOTHING)),
    }
}
