//! The stretches of an image: instructions that follow one another, of which only the first can be come
//! to from elsewhere. A search keeps what is known at the first of each, and follows it from there.

ghost use Rattle.std.specs.Prelude.{◌≡◌, ◌<◌, ◌≤◌, length, true, slice_set, IfOk};
ghost use Rattle.zl_code.specs.Limits.{most_instructions};
ghost use Rattle.zl_verify.specs.Lists.{at};
ghost use Rattle.zl_verify.specs.Stretches.{AreStretches, start_of};
ghost use Rattle.zl_verify.specs.Marks.{AreMarked, AreNumbered};

use std::alloc::{AllocError, Global};
use std::marker::Model;
use zl_abs::jump_target;
use zl_code::Image;

/// Where the stretches of an image begin.
#[derive(Drop)]
pub(crate) struct Stretches {
    // The number of the stretch that begins at each instruction, if one does.
    numbers: Vec<Option<u32>>,
    // The first instruction of each stretch.
    starts: Vec<usize>,
}

impl Model for Stretches {
    ghost use Rattle.zl_verify.specs.Stretches.{Stretches as StretchesValue};

    ghost Value = { StretchesValue };

    ghost view = { λ b. record { numbers = b.numbers.items; starts = b.starts.items } };
}

impl Stretches {
    /// Those of an image: one begins at the start, and wherever an instruction may jump.
    #[tactic(auto, using(crate::proofs::Marking::are_stretches))]
    pub fn of(alloc: Global, image: &Image) -> Result<Stretches, AllocError>
        requires { 0 < length image.now.code }
        ensures { IfOk result (λ stretches. AreStretches image.now stretches) }
    {
        let begins = begins_of(alloc, image)?;
        numbered(alloc, &begins)
    }

    /// How many there are.
    pub fn count(&self) -> usize
        ensures { result ≡ length self.now.starts }
    {
        self.starts.len()
    }

    /// The number of the stretch that begins at the instruction, if one does.
    pub fn number(&self, place: usize) -> Option<usize>
        ensures { result ≡ at self.now.numbers place }
    {
        match self.numbers.get(place) {
            Some(Some(number)) => Some(*number as usize),
            _ => None,
        }
    }

    /// The first instruction of the stretch.
    pub fn start(&self, image: &Image, stretch: usize) -> usize
        ensures { result ≡ start_of image.now self.now stretch }
    {
        match self.starts.get(stretch) {
            Some(place) => *place,
            None => image.len(),
        }
    }

    /// Where the stretch ends that begins at the instruction; right behind it where none does. No clause
    /// says so: a search goes by it.
    pub fn end(&self, image: &Image, place: usize) -> usize {
        match self.number(place) {
            Some(stretch) => self.start(image, stretch.saturating_add(1)),
            None => place.saturating_add(1),
        }
    }
}

/// At which instructions a stretch begins.
fn begins_of(alloc: Global, image: &Image) -> Result<Vec<bool>, AllocError>
    requires { 0 < length image.now.code }
    ensures marked { IfOk result (λ begins.
        AreMarked image.now begins.items (length image.now.code)) }
    ensures short { IfOk result (λ begins. length begins.items ≤ most_instructions) }
{
    let mut begins = vec![in alloc; false; image.len()]?;
    begins[0] = true;
    for place in 0..image.len() {
        mark(&mut begins, jump_target(image, place));
    }
    Ok(begins)
}

/// A stretch begins there, if an instruction is there.
#[tactic(auto, using(crate::proofs::Marking::same_past))]
fn mark(begins: &mut Vec<bool>, place: usize)
    ensures { begins.new.items ≡ slice_set begins.old.items place true }
{
    if place < begins.len() {
        begins[place] = true;
    }
}

/// Numbers the stretches in the order in which they stand.
#[tactic(auto, using(crate::proofs::Marking::numbers_begin, crate::proofs::Marking::numbers_same))]
fn numbered(alloc: Global, begins: &[bool]) -> Result<Stretches, AllocError>
    requires { length begins.now ≤ most_instructions }
    ensures { IfOk result (λ stretches. AreNumbered begins.now stretches.numbers stretches.starts
        (length begins.now)) }
{
    let mut numbers = vec![in alloc; None; begins.len()]?;
    let mut starts = Vec::new(alloc);
    for place in 0..begins.len() {
        if !begins[place] {
            continue;
        }
        numbers[place] = Some(starts.len() as u32);
        if starts.push(place).is_err() {
            return Err(AllocError);
        }
    }
    Ok(Stretches { numbers, starts })
}
