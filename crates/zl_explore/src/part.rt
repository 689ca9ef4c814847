//! A part of all orders of turns, so that several searches are one.

ghost use Rattle.std.specs.Prelude.{◌≡◌, ◌≤◌, ◌++◌, IfNone, IfOk, IfSome, IsTrue, OnOk, string_bytes};
ghost use Rattle.zl_explore.specs.Part.{IsOnly, gone_by, goes_on, is_of, part_words};
ghost use Rattle.zl_explore.specs.Parts.{next_in_part, parted, ready_in_part, tells_in_part};

use crate::machine::Machine;
use std::alloc::{AllocError, Global};
use std::marker::Model;
use zl_code::TraceItem;
use zl_rights::Pid;

/// A part of all orders of turns: those whose first turns are of processes with koids of which the sum leaves
/// the rest `number - 1` when it is divided by `parts`. So many of the first turns count as `from` says. An
/// order that comes to an end before is one of the first part.
///
/// Source: own profile.
#[derive(Clone, Copy)]
pub struct Part {
    number: u32,
    parts: u32,
    from: u32,
}

impl Model for Part {
    ghost use Rattle.zl_explore.specs.Part.{IsPart, Part as PartValue};

    ghost Value = { PartValue };

    ghost view = { λ p. record { number = p.number; parts = p.parts; from = p.from } };

    ghost invariant = { λ p. IsPart (record { number = p.number; parts = p.parts; from = p.from }) };

    ghost inverse = { λ p. record { number = p.number; parts = p.parts; from = p.from } };
}

impl Part {
    /// The only part, which has all orders.
    pub fn only() -> Part
        ensures { IsOnly result }
    {
        Part {
            number: 1,
            parts: 1,
            from: 0,
        }
    }

    /// One of so many parts, of which the first is number 1. Nothing where there is no such.
    pub fn new(number: u32, parts: u32, from: u32) -> Option<Part>
        ensures some { IfSome result (λ part. part ≡ record { number = number; parts = parts; from = from }) }
        ensures none { IfNone result ((1 ≤ number) × (number ≤ parts) → ⊥) }
    {
        if number < 1 || number > parts {
            return None;
        }
        Some(Part {
            number,
            parts,
            from,
        })
    }

    /// Adds its words, by which `read_part` reads it. Where memory is refused, a beginning of them may stand
    /// there.
    fn push_words(self, text: &mut String) -> Result<(), AllocError>
        ensures { OnOk result (string_bytes text.new ≡ string_bytes text.old ++ part_words self) }
    {
        let Part { number, parts, .. } = self;
        write!(text, "{number}/{parts}")
    }

    /// What the turns of an order tell with one more, of this process.
    fn gone_by(self, gone: Gone, pid: Pid) -> Gone
        ensures { result ≡ gone_by self.parts self.from gone pid }
    {
        if gone.turns >= self.from {
            return gone;
        }
        Gone {
            turns: gone.turns + 1,
            rest: ((u128::from(gone.rest) + u128::from(pid)) % u128::from(self.parts)) as u32,
        }
    }

    /// Whether an order goes on in it.
    fn goes_on(self, gone: Gone) -> bool
        ensures { result ≡ goes_on self gone }
    {
        gone.turns < self.from || u64::from(gone.rest) + 1 == u64::from(self.number)
    }

    /// Whether an order that comes to an end is one of it.
    fn is_of(self, gone: Gone) -> bool
        ensures { result ≡ is_of self gone }
    {
        if gone.turns < self.from {
            return self.number == 1;
        }
        u64::from(gone.rest) + 1 == u64::from(self.number)
    }

    /// Whether it is the other.
    fn is_same(self, other: Part) -> bool
        ensures { IsTrue result → self ≡ other }
    {
        self.number == other.number && self.parts == other.parts && self.from == other.from
    }
}

/// What the turns of an order tell: how many counted, and the rest of the sum of their koids.
#[derive(Clone, Copy)]
pub struct Gone {
    pub turns: u32,
    pub rest: u32,
}

/// A machine that goes on where orders of a part do, and nowhere else.
#[derive(Drop)]
pub struct Parted<M> {
    pub at: M,
    pub part: Part,
    pub gone: Gone,
}

impl<M: Machine> Parted<M> {
    /// The machine, from which orders of the part begin.
    pub fn new(part: Part, at: M) -> Parted<M>
        ensures { result ≡ parted part at }
    {
        Parted {
            at,
            part,
            gone: Gone { turns: 0, rest: 0 },
        }
    }

    /// Whether an order that comes to an end there is one of the part.
    pub fn is_of(&self) -> bool
        ensures { result ≡ is_of self.now.part self.now.gone }
    {
        self.part.is_of(self.gone)
    }
}

impl<M: Machine> Machine for Parted<M> {
    ghost ready = { λ s. ready_in_part M.ready s };

    ghost next = { λ s p. next_in_part M.next s p };

    ghost tells = { λ s p. tells_in_part M.tells s p };

    fn ready(&self) -> Result<Vec<Pid>, AllocError> {
        let mut pids = self.at.ready()?;
        if !self.part.goes_on(self.gone) {
            pids.clear();
        }
        Ok(pids)
    }

    fn copy(&self) -> Result<Parted<M>, AllocError> {
        Ok(Parted {
            at: self.at.copy()?,
            part: self.part,
            gone: self.gone,
        })
    }

    fn turn(self, pid: Pid) -> Result<(Parted<M>, Option<TraceItem>), AllocError> {
        let Parted { at, part, gone } = self;
        let (at, told) = at.turn(pid)?;
        let gone = part.gone_by(gone, pid);
        Ok((Parted { at, part, gone }, told))
    }

    fn is_same(&self, other: &Parted<M>) -> bool {
        self.part.is_same(other.part) && self.gone.is_same(other.gone) && self.at.is_same(&other.at)
    }

    fn digest(&self) -> u64 {
        self.at.digest() ^ u64::from(self.gone.rest)
    }
}

impl Gone {
    /// Whether it is the other.
    fn is_same(self, other: Gone) -> bool
        ensures { IsTrue result → self ≡ other }
    {
        self.turns == other.turns && self.rest == other.rest
    }
}

/// The part with just these words, `K/N`, to which so many first turns of an order tell whether it belongs;
/// nothing where there is none. Only memory can be refused.
pub fn read_part(alloc: Global, words: &str, from: u32) -> Result<Option<Part>, AllocError>
    ensures { IfOk result (λ found. IfSome found
        (λ part. (words.now ≡ part_words part) × (part.from ≡ from))) }
{
    let Some(part) = guessed(words, from) else {
        return Ok(None);
    };
    let mut spelled = String::new(alloc);
    part.push_words(&mut spelled)?;
    // each has one spelling
    if spelled.as_bytes() != words.as_bytes() {
        return Ok(None);
    }
    Ok(Some(part))
}

/// What the words may stand for, in whatever spelling of numbers.
fn guessed(words: &str, from: u32) -> Option<Part>
    ensures { IfSome result (λ part. part.from ≡ from) }
{
    let mut numbers = words.split('/');
    let number = numbers.next()?.parse::<u32>().ok()?;
    let parts = numbers.next()?.parse::<u32>().ok()?;
    Part::new(number, parts, from)
}
