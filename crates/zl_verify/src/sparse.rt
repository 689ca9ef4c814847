//! A search for what is known at instructions, which carries a register that rose on to where it is
//! next named. It promises no more than that what it knows lies below the states of every typing: what
//! it leaves out the search behind it finds.

ghost use Rattle.std.specs.Prelude.{◌≡◌, ◌<◌, ◌++◌, Some, false, true, length, IfOk, IfSome};
ghost use Rattle.zl_abs.specs.Bounds.{RoundAlike, bounds_of};
ghost use Rattle.zl_abs.specs.Changes.{changed, step_in};
ghost use Rattle.zl_verify.specs.Going.{Goes};
ghost use Rattle.zl_verify.specs.Lists.{at};
ghost use Rattle.zl_verify.specs.Handing.{AreNames, IsNext};
ghost use Rattle.zl_verify.specs.Low.{AllLow, AreLow, IsLow, IsLowOne, Rises, is_climb};

use crate::changing::{changed_by, value_behind};
use crate::edges::edges_at;
use crate::names::Names;
use crate::pace::{Pace, step_of};
use crate::pending::Pending;
use crate::register_set::RegisterSet;
use crate::search::Search;
use crate::stretches::Stretches;
use crate::tagged::named_by;
use std::alloc::{AllocError, Global};
use zl_abs::{AbsState, AbsVal, Bounds, Change, Step};
use zl_code::{Image, Register};

/// How many times a stretch is gone through at most. What that leaves out is left to the search behind.
const MOST_TURNS: u32 = 400_000_000;

/// What is known at each instruction, as far as a way to it was found.
#[derive(Drop)]
struct Lifted {
    states: Vec<Option<AbsState>>,
    pending: Pending,
}

/// The registers that go on from the instruction but for those that its edges change: those that rose
/// there, and those that a call names, as it may change them.
fn going_on(image: &Image, place: usize, risen: RegisterSet) -> RegisterSet {
    match image.call_at(place) {
        Some(call) => risen.with(named_by(&call)),
        None => risen,
    }
}

/// Whether it is a higher word than one that isn't 0.
fn is_climb(value: AbsVal, risen: &AbsVal) -> bool
    ensures { result ≡ is_climb value risen.now }
{
    match value {
        AbsVal::Word(most) => match risen {
            AbsVal::Word(next) => most != 0 && most < *next,
            _ => false,
        },
        _ => false,
    }
}

/// The register rises to this, if something is known. Whether it rose.
fn raise_known(known: &mut Option<AbsState>, register: Register, value: &AbsVal) -> bool
    ensures { Rises known.old register value.now known.new }
{
    let Some(state) = known else {
        return false;
    };
    if is_climb(state.get(register), value) {
        // No tag names the register, so that none is looked for.
        state.change(Change::Refined(register, *value));
        return true;
    }
    matches!(state.raise_at(register, value), Some(true))
}

impl Lifted {
    /// What is known at no instruction yet.
    fn none(alloc: Global, image: &Image) -> Result<Lifted, AllocError>
        ensures { IfOk result (λ lifted. AreLow image.now lifted.states.items) }
    {
        let states = vec![in alloc; None; image.len()]?;
        let pending = Pending::none(alloc, image.len())?;
        Ok(Lifted { states, pending })
    }

    /// What is known there.
    fn known_at(&self, place: usize) -> Option<AbsState>
        ensures { result ≡ at self.now.states.items place }
    {
        match self.states.get(place) {
            Some(known) => *known,
            None => None,
        }
    }

    /// Whether something is known there.
    fn is_known(&self, place: usize) -> bool {
        matches!(self.states.get(place), Some(Some(_)))
    }

    /// This is known there now, where these registers rose.
    fn put(&mut self, image: &Image, place: usize, state: &AbsState, risen: RegisterSet)
        requires low { AreLow image.now self.old.states.items }
        requires known { IsLow image.now place state.now }
        ensures { AreLow image.now self.new.states.items }
    {
        if place < self.states.len() {
            self.states[place] = Some(*state);
            self.pending.note(place, risen);
        }
    }

    /// The register rises to this there, if something is known.
    fn raise(&mut self, image: &Image, place: usize, register: Register, value: AbsVal)
        requires low { AreLow image.now self.old.states.items }
        requires known { IsLowOne image.now place register value }
        ensures { AreLow image.now self.new.states.items }
    {
        if place >= self.states.len() {
            return;
        }
        if raise_known(&mut self.states[place], register, &value) {
            self.pending.note(place, RegisterSet::of(register));
        }
    }

    /// Where the register goes from the end of an edge: to where it is next named, but to the end
    /// itself where nothing is known there yet.
    fn place_of(&self, image: &Image, names: &Names, target: usize, register: Register) -> usize
        requires inside { target < length image.now.code }
        requires names { AreNames image.now names.now.rows.items }
        ensures { IsNext image.now register target result }
    {
        let place = names.next(image, target, register);
        if self.is_known(place) { place } else { target }
    }

    /// One register at the end of an edge goes on to where it is next named.
    fn carry(
        &mut self,
        image: &Image,
        names: &Names,
        edge: &Step,
        state: &AbsState,
        register: Register,
    )
        requires low { AreLow image.now self.old.states.items }
        requires names { AreNames image.now names.now.rows.items }
        requires inside { edge.now.target < length image.now.code }
        requires known { IsLow image.now edge.now.target (changed state.now edge.now.change) }
        ensures { AreLow image.now self.new.states.items }
    {
        let value = value_behind(state, &edge.change, register);
        let place = self.place_of(image, names, edge.target, register);
        self.raise(image, place, register, value);
    }

    /// These registers at the end of an edge.
    fn carry_all(
        &mut self,
        image: &Image,
        names: &Names,
        edge: &Step,
        state: &AbsState,
        which: RegisterSet,
    )
        requires low { AreLow image.now self.old.states.items }
        requires names { AreNames image.now names.now.rows.items }
        requires inside { edge.now.target < length image.now.code }
        requires known { IsLow image.now edge.now.target (changed state.now edge.now.change) }
        ensures { AreLow image.now self.new.states.items }
    {
        let mut left = which;
        for _ in 0..Register::COUNT {
            let Some(register) = left.first() else {
                return;
            };
            self.carry(image, names, edge, state, register);
            left = left.without(register);
        }
    }

    /// All of the state at the end of an edge is known there now.
    fn put_behind(&mut self, image: &Image, edge: &Step, state: &AbsState)
        requires low { AreLow image.now self.old.states.items }
        requires known { IsLow image.now edge.now.target (changed state.now edge.now.change) }
        ensures { AreLow image.now self.new.states.items }
    {
        let mut state = *state;
        state.change(edge.change);
        self.put(image, edge.target, &state, RegisterSet::ALL);
    }

    /// The edge is followed, if there is one: all of the state comes to its end where nothing is known
    /// there yet, else these registers and those that the edge changes.
    fn follow(
        &mut self,
        image: &Image,
        names: &Names,
        edge: &Option<Step>,
        state: &AbsState,
        which: RegisterSet,
    )
        requires low { AreLow image.now self.old.states.items }
        requires names { AreNames image.now names.now.rows.items }
        requires known { AllLow image.now (step_in state.now edge.now) }
        ensures { AreLow image.now self.new.states.items }
    {
        let Some(edge) = edge else {
            return;
        };
        if edge.target >= image.len() {
            return;
        }
        if !self.is_known(edge.target) {
            self.put_behind(image, edge, state);
            return;
        }
        let which = which.with(changed_by(edge.change));
        self.carry_all(image, names, edge, state, which);
    }

    /// An instruction is done again, and these registers go on from it. Not where its rule doesn't hold.
    fn step(
        &mut self,
        bounds: &Bounds,
        image: &Image,
        names: &Names,
        place: usize,
        which: RegisterSet,
    ) -> bool
        requires alike { RoundAlike bounds.now (bounds_of image.now.code) }
        requires low { AreLow image.now self.old.states.items }
        requires names { AreNames image.now names.now.rows.items }
        ensures { AreLow image.now self.new.states.items }
    {
        let Some(mut state) = self.known_at(place) else {
            return true;
        };
        let Ok(edges) = edges_at(bounds, image, place, &mut state) else {
            return false;
        };
        self.follow(image, names, &edges.jump, &state, which);
        self.follow(image, names, &edges.next, &state, which);
        true
    }

    /// The instructions of a stretch are done again at which registers rose. What that takes; nothing
    /// where the rule of one doesn't hold.
    fn turn(
        &mut self,
        bounds: &Bounds,
        image: &Image,
        names: &Names,
        first: usize,
        end: usize,
    ) -> Option<usize>
        requires alike { RoundAlike bounds.now (bounds_of image.now.code) }
        requires low { AreLow image.now self.old.states.items }
        requires names { AreNames image.now names.now.rows.items }
        ensures { AreLow image.now self.new.states.items }
    {
        let mut from = first;
        let mut taken = 0_usize;
        for _ in first..end {
            let Some(place) = self.pending.first_in(from, end) else {
                return Some(taken);
            };
            let which = going_on(image, place, self.pending.take(place));
            if !self.step(bounds, image, names, place, which) {
                return None;
            }
            taken = taken.saturating_add(step_of(which.count()));
            from = place.saturating_add(1);
        }
        Some(taken)
    }

    /// As long as registers rise, and that gains. Whether what is known now is worth being kept; nothing
    /// where the rule of an instruction doesn't hold.
    fn rise(
        &mut self,
        bounds: &Bounds,
        image: &Image,
        stretches: &Stretches,
        names: &Names,
        pace: Pace,
    ) -> Option<bool>
        requires alike { RoundAlike bounds.now (bounds_of image.now.code) }
        requires low { AreLow image.now self.old.states.items }
        requires names { AreNames image.now names.now.rows.items }
        ensures { AreLow image.now self.new.states.items }
    {
        let mut pace = pace;
        for _ in 0..MOST_TURNS {
            let Some(first) = self.pending.first() else {
                return Some(true);
            };
            // As in the other search, the first stretch of those that wait is gone through.
            let end = stretches.end(image, first);
            let Some(taken) = self.turn(bounds, image, names, first, end) else {
                return None;
            };
            if !pace.goes_on(end.saturating_sub(first), taken) {
                return Some(pace.is_worth());
            }
        }
        Some(pace.is_worth())
    }

    /// What a search knows where the stretch begins.
    fn take_up_one(&mut self, image: &Image, stretches: &Stretches, search: &Search, stretch: usize)
        requires goes { Goes image.now stretches.now search.now }
        requires low { AreLow image.now self.old.states.items }
        ensures { AreLow image.now self.new.states.items }
    {
        let Some(state) = search.known_at(stretch) else {
            return;
        };
        let place = stretches.start(image, stretch);
        self.put(image, place, &state, RegisterSet::ALL);
    }

    /// What a search knows where stretches begin, each of which is done again.
    fn take_up(&mut self, image: &Image, stretches: &Stretches, search: &Search)
        requires goes { Goes image.now stretches.now search.now }
        requires low { AreLow image.now self.old.states.items }
        ensures { AreLow image.now self.new.states.items }
    {
        for stretch in 0..stretches.count() {
            self.take_up_one(image, stretches, search, stretch);
        }
    }

    /// What is known where the stretch begins comes to the search. Not where two states have no join.
    fn hand_one_back(
        &self,
        image: &Image,
        stretches: &Stretches,
        search: &mut Search,
        stretch: usize,
    ) -> bool
        requires goes { Goes image.now stretches.now search.old }
        requires low { AreLow image.now self.now.states.items }
        ensures { result ≡ true → Goes image.now stretches.now search.new }
    {
        let place = stretches.start(image, stretch);
        let Some(state) = self.known_at(place) else {
            return true;
        };
        search.raise(stretch, &state)
    }

    /// The same of each stretch.
    fn hand_back(&self, image: &Image, stretches: &Stretches, search: &mut Search) -> bool
        requires goes { Goes image.now stretches.now search.old }
        requires low { AreLow image.now self.now.states.items }
        ensures { result ≡ true → Goes image.now stretches.now search.new }
    {
        for stretch in 0..stretches.count() {
            if !self.hand_one_back(image, stretches, search, stretch) {
                return false;
            }
        }
        true
    }
}

/// What the search knows rises, and stays below the states of every typing. Whether it did; nothing
/// where the rule of an instruction doesn't hold, or two states have no join. Where memory is refused,
/// or not enough would be gained, the search stays as it is.
pub(crate) fn lift(
    alloc: Global,
    bounds: &Bounds,
    image: &Image,
    stretches: &Stretches,
    search: &mut Search,
    pace: Pace,
) -> Option<bool>
    requires alike { RoundAlike bounds.now (bounds_of image.now.code) }
    requires goes { Goes image.now stretches.now search.old }
    ensures goes { IfSome result (λ rose. Goes image.now stretches.now search.new) }
    ensures same { result ≡ Some false → search.new ≡ search.old }
{
    let Ok(names) = Names::of(alloc, image) else {
        return Some(false);
    };
    let Ok(mut lifted) = Lifted::none(alloc, image) else {
        return Some(false);
    };
    lifted.take_up(image, stretches, search);
    match lifted.rise(bounds, image, stretches, &names, pace) {
        Some(true) => lifted.hand_back(image, stretches, search).then_some(true),
        Some(false) => Some(false),
        None => None,
    }
}
