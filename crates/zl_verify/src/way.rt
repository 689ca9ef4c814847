//! Which instructions follow one another for too long, for a person.

ghost use Rattle.zl_abs.specs.Bounds.{RoundAlike, bounds_of};
ghost use Rattle.zl_verify.specs.Lists.{at};
ghost use Rattle.zl_verify.specs.Stretches.{states_of};
ghost use Rattle.zl_verify.specs.Checks.{IsLeastTyping};

use crate::least::{Found, solve};
use crate::seen::Seen;
use crate::steps::{Longest, Targets, longest_ways, pair_at};
use crate::targets::targets_of;
use std::alloc::Global;
use zl_abs::Bounds;
use zl_code::{Image, Mark};

/// A part of a way. Own profile.
#[derive(Clone, Copy)]
pub enum Stride {
    /// An instruction.
    One(usize),
    /// Turns of the block from its first instruction to its last.
    Turns {
        first: usize,
        last: usize,
        times: u32,
    },
}

/// Instructions that may follow one another without a wait or an exit. Own profile.
#[derive(Drop)]
pub struct Way {
    /// Their numbers, in order.
    pub strides: Vec<Stride>,
    /// How many they are, turns counted.
    pub count: u64,
    /// The one of them that may follow the last, if the way goes round.
    pub again: Option<usize>,
}

/// A block that a place is in, with the turns that are left.
#[derive(Clone, Copy)]
struct Block {
    rep: usize,
    left: u32,
}

/// Where instructions lead, and how long the ways from each are.
#[derive(Clone, Copy)]
struct Map<'a> {
    image: &'a Image,
    targets: &'a [Targets],
    pairs: &'a [Option<Longest>],
}

/// No way that is longer than every budget has to be told apart from another.
const MOST: u32 = Image::MOST_BUDGET + 1;

/// A place is in four blocks at most, of each of which one turn is left, or all are.
const CHOICES: u32 = 16;

/// A way from the instruction of this number that is too long, in an image that `check` refuses for
/// its budget there: it is found anew. Nothing where memory is refused. No clause says so. Own
/// profile.
pub fn way_from(alloc: Global, image: &Image, first: usize) -> Option<Way> {
    let Ok(bounds) = Bounds::of(alloc, image) else {
        return None;
    };
    match solve(alloc, &bounds, image, &mut Seen::NOTHING) {
        Ok(found) => way_in(alloc, &bounds, image, &found, first),
        Err(_) => None,
    }
}

/// The same where this was found.
fn way_in(alloc: Global, bounds: &Bounds, image: &Image, found: &Found, first: usize) -> Option<Way>
    requires alike { RoundAlike bounds.now (bounds_of image.now.code) }
    requires typing { IsLeastTyping image.now
        (at (states_of image.now found.now.stretches.numbers found.now.states.items)) }
{
    let Ok(targets) = targets_of(alloc, bounds, image, found) else {
        return None;
    };
    let Ok(pairs) = longest_ways(alloc, image, &targets, MOST) else {
        return None;
    };
    let map = Map {
        image,
        targets: &targets,
        pairs: &pairs,
    };
    let blocks = map.worst_blocks(alloc, first)?;
    map.walk(alloc, first, blocks)
}

impl Map<'_> {
    fn targets_at(&self, place: usize) -> Targets {
        match self.targets.get(place) {
            Some(targets) => *targets,
            None => Targets::NONE,
        }
    }

    /// How often the block of this rep is gone round, and where it ends.
    fn block_of(&self, rep: usize) -> Option<(u32, usize)> {
        match self.image.mark_at(rep) {
            Some(Mark::Rep { imm, end }) => Some((imm, end as usize)),
            _ => None,
        }
    }

    /// The reps of the blocks that the place is in, the innermost first.
    fn reps_of(&self, alloc: Global, place: usize) -> Option<Vec<usize>> {
        let mut reps = Vec::new(alloc);
        let mut closed = 0usize;
        for before in (0..place).rev() {
            match self.image.mark_at(before) {
                Some(Mark::EndRep { .. }) => closed = closed.saturating_add(1),
                Some(Mark::Rep { .. }) if closed > 0 => closed -= 1,
                Some(Mark::Rep { .. }) => {
                    if reps.push(before).is_err() {
                        return None;
                    }
                }
                _ => {}
            }
        }
        Some(reps)
    }

    /// The blocks that the place is in, the outermost first, with the turns left from which the ways
    /// are the longest: of each block one or all.
    fn worst_blocks(&self, alloc: Global, place: usize) -> Option<Vec<Block>> {
        let reps = self.reps_of(alloc, place)?;
        let mut worst = self.blocks_by(alloc, &reps, 0)?;
        for choice in 1..CHOICES {
            let blocks = self.blocks_by(alloc, &reps, choice)?;
            if self.steps_from(place, &blocks) > self.steps_from(place, &worst) {
                worst = blocks;
            }
        }
        Some(worst)
    }

    /// These blocks, of which those of a bit of the choice have all turns left, and the others one.
    fn blocks_by(&self, alloc: Global, reps: &[usize], choice: u32) -> Option<Vec<Block>> {
        let mut blocks = Vec::new(alloc);
        let mut bits = choice;
        for rep in reps.iter().rev() {
            let (imm, _) = self.block_of(*rep)?;
            let left = if bits % 2 == 1 { imm } else { 1 };
            bits /= 2;
            if blocks.push(Block { rep: *rep, left }).is_err() {
                return None;
            }
        }
        Some(blocks)
    }

    /// The steps of the longest way from a place in these blocks, the outermost first; without end where
    /// there is none.
    fn steps_from(&self, place: usize, blocks: &[Block]) -> u64 {
        let mut place = place;
        let mut longest = 0u64;
        let mut steps = 0u64;
        for block in blocks.iter().rev() {
            let Some(pair) = pair_at(self.pairs, place) else {
                return u64::MAX;
            };
            longest = longest.max(steps.saturating_add(u64::from(pair.within)));
            let (Some(end), Some((_, last))) = (pair.to_end, self.block_of(block.rep)) else {
                return longest;
            };
            steps = steps.saturating_add(u64::from(end));
            if block.left > 1 {
                let Some(first) = pair_at(self.pairs, block.rep.saturating_add(1)) else {
                    return u64::MAX;
                };
                let turn = u64::from(first.to_end.unwrap_or(0)).saturating_add(1);
                let turns = if first.to_end.is_some() {
                    block.left
                } else {
                    2
                };
                let out = turn.saturating_mul(u64::from(turns.saturating_sub(2)));
                let within = steps
                    .saturating_add(out)
                    .saturating_add(u64::from(first.within))
                    .saturating_add(1);
                longest = longest.max(within);
                if first.to_end.is_none() {
                    return longest;
                }
                let left = u64::from(block.left.saturating_sub(1));
                steps = steps.saturating_add(turn.saturating_mul(left));
            }
            let Some(behind) = self.targets_at(last).next else {
                return longest.max(steps);
            };
            steps = steps.saturating_add(1);
            place = behind;
        }
        match pair_at(self.pairs, place) {
            Some(pair) => longest.max(steps.saturating_add(u64::from(pair.within))),
            None => u64::MAX,
        }
    }

    /// The whole turns of the innermost block that the longest way makes from its first instruction on,
    /// and whether it goes on behind the block then; nothing where it isn't there, or they are fewer
    /// than two.
    fn turns_at(&self, place: usize, blocks: &[Block]) -> Option<(Stride, u64, bool)> {
        let [outer @ .., block] = blocks else {
            return None;
        };
        if block.rep.checked_add(1) != Some(place) {
            return None;
        }
        let pair = pair_at(self.pairs, place)?;
        let end = u64::from(pair.to_end?);
        let (_, last) = self.block_of(block.rep)?;
        let goes_on = match self.targets_at(last).next {
            Some(behind) => {
                let out = self.steps_from(behind, outer).saturating_add(1);
                end.saturating_add(out) >= u64::from(pair.within)
            }
            None => false,
        };
        let times = if goes_on {
            block.left
        } else {
            block.left.saturating_sub(1)
        };
        if times < 2 {
            return None;
        }
        let turns = Stride::Turns {
            first: place,
            last,
            times,
        };
        let count = end.saturating_add(1).saturating_mul(u64::from(times));
        Some((turns, count, goes_on))
    }

    /// Where the longest way goes on behind a place, in these blocks, which are then those of that place.
    fn next_of(&self, place: usize, blocks: &mut Vec<Block>) -> Option<usize> {
        let targets = self.targets_at(place);
        match self.image.mark_at(place) {
            Some(Mark::Rep { imm, .. }) => {
                let next = targets.next?;
                let block = Block {
                    rep: place,
                    left: imm,
                };
                match blocks.push(block) {
                    Ok(()) => Some(next),
                    Err(_) => None,
                }
            }
            Some(Mark::EndRep { rep }) => {
                let left = blocks.pop()?.left;
                if left <= 1 {
                    return targets.next;
                }
                let block = Block {
                    rep: rep as usize,
                    left: left - 1,
                };
                match blocks.push(block) {
                    Ok(()) => targets.jump,
                    Err(_) => None,
                }
            }
            _ => match (targets.jump, targets.next) {
                (Some(jump), Some(next)) => {
                    if self.steps_from(jump, blocks) < self.steps_from(next, blocks) {
                        Some(next)
                    } else {
                        Some(jump)
                    }
                }
                (Some(jump), None) => Some(jump),
                (None, next) => next,
            },
        }
    }

    /// Goes from one instruction to the next, up to a wait or an exit, or to one that comes again.
    fn walk(&self, alloc: Global, first: usize, blocks: Vec<Block>) -> Option<Way> {
        let Ok(mut met) = vec![in alloc; false; self.targets.len()] else {
            return None;
        };
        let mut way = Way {
            strides: Vec::new(alloc),
            count: 0,
            again: None,
        };
        let mut blocks = blocks;
        let mut place = first;
        // In each of the blocks in one another two turns may be told one by one.
        for _ in 0..self.targets.len().saturating_mul(16) {
            if let Some((turns, count, goes_on)) = self.turns_at(place, &blocks) {
                way.push(turns, count)?;
                let Block { rep, .. } = blocks.pop()?;
                if goes_on {
                    let (_, last) = self.block_of(rep)?;
                    place = self.targets_at(last).next?;
                } else if blocks.push(Block { rep, left: 1 }).is_err() {
                    return None;
                }
                continue;
            }
            if met.get(place).copied()? {
                way.again = Some(place);
                return Some(way);
            }
            if let Some(Mark::EndRep { rep }) = self.image.mark_at(place) {
                // The places of the block may come once more, in its next turn.
                for inside in rep as usize..place {
                    if inside < met.len() {
                        met[inside] = false;
                    }
                }
            } else {
                met[place] = true;
            }
            // What leads nowhere is a wait or an exit.
            let Some(next) = self.next_of(place, &mut blocks) else {
                return Some(way);
            };
            way.push(Stride::One(place), 1)?;
            place = next;
        }
        None
    }
}

impl Way {
    /// Adds a part of so many instructions.
    fn push(&mut self, stride: Stride, count: u64) -> Option<()> {
        self.count = self.count.saturating_add(count);
        match self.strides.push(stride) {
            Ok(()) => Some(()),
            Err(_) => None,
        }
    }
}
