//! A search for the least typing of an image. It knows nothing of handles.
//!
//! A state is kept for the first instruction of each stretch alone. Within a stretch one state is
//! followed from instruction to instruction, so that these want no place in the table, no copy and no
//! comparison.

ghost use Rattle.std.specs.Prelude.{◌≡◌, ◌≤◌, ◌<◌, ◌+◌, ◌++◌, length, Some, true, slice_get, IsTrue, IfOk, IfErr};
ghost use Rattle.std.specs.Bool.{then_some};
ghost use Rattle.std.specs.Result.{is_ok};
ghost use Rattle.zl_abs.specs.Bounds.{RoundAlike, bounds_of};
ghost use Rattle.zl_abs.specs.States.{start_state};
ghost use Rattle.zl_abs.specs.Changes.{changed, step_in};
ghost use Rattle.zl_abs.specs.Typing.{rule};
ghost use Rattle.zl_verify.specs.Going.{Goes, remaining};
ghost use Rattle.zl_verify.specs.Lists.{at};
ghost use Rattle.zl_verify.specs.Search.{put, raised, turned_over, cleared, started};
ghost use Rattle.zl_verify.specs.Stretches.{entered, out_from, stepped, told, turned, went, went_last};
ghost use Rattle.zl_verify.specs.Checks.{IsRefused, is_of_rules};

use crate::edges::edges_at;
use crate::refusal::RefusalCause;
use crate::seen::Seen;
use crate::stretches::Stretches;
use std::alloc::{AllocError, Global};
use std::marker::Model;
use zl_abs::{AbsState, Bounds, Cause, Step, Steps};
use zl_code::Image;

/// Why there is no typing, and at which instruction that was seen.
#[derive(Clone, Copy)]
pub(crate) struct Fault {
    pub at: usize,
    pub cause: RefusalCause,
}

impl Fault {
    /// Before anything is known of an instruction.
    pub fn at_once(cause: RefusalCause) -> Fault
        ensures at { result.at ≡ 0 }
        ensures cause { result.cause ≡ cause }
    {
        Fault { at: 0, cause }
    }
}

/// How far the search has come.
#[derive(Drop)]
pub(crate) struct Search {
    // What was found of the first instruction of each stretch, if a way to it was.
    states: Vec<Option<AbsState>>,
    // Which states rose since their stretch was looked at.
    waiting: Vec<bool>,
    // No stretch below waits.
    from: usize,
}

impl Model for Search {
    ghost use Rattle.std.specs.Prelude.{◌≡◌, length};
    ghost use Rattle.zl_verify.specs.Search.{Table};

    ghost Value = { Table };

    ghost view = { λ s. record { states = s.states.items; waiting = s.waiting.items; from = s.from } };

    ghost invariant = { λ s. length s.states.items ≡ length s.waiting.items };
}

impl Search {
    /// Of so many stretches the first alone has a state, that of the start, and waits.
    pub fn new(alloc: Global, image: &Image, count: usize) -> Result<Search, AllocError>
        requires { 0 < count }
        ensures { IfOk result (λ search. search ≡ started count (start_state image.now)) }
    {
        let mut states = vec![in alloc; None; count]?;
        let mut waiting = vec![in alloc; false; count]?;
        states[0] = Some(AbsState::start(image));
        waiting[0] = true;
        Ok(Search {
            states,
            waiting,
            from: 0,
        })
    }

    /// The stretch to look at next.
    pub fn place(&self) -> usize
        ensures { result ≡ self.now.from }
    {
        self.from
    }

    fn is_waiting(&self, place: usize) -> bool
        requires { place < length self.now.waiting }
        ensures { Some result ≡ slice_get self.now.waiting place }
    {
        self.waiting[place]
    }

    fn go_on(&mut self)
        requires { self.old.from < length self.old.states }
        ensures { self.new ≡ record self.old { from = self.old.from + 1 } }
    {
        self.from += 1;
    }

    pub fn found(self) -> Vec<Option<AbsState>>
        ensures { result.items ≡ self.states }
    {
        self.states
    }

    /// The stretch gets the state, and waits.
    fn put(&mut self, place: usize, state: &AbsState)
        requires { place < length self.old.states }
        ensures { self.new ≡ put self.old place state.now }
    {
        self.states[place] = Some(*state);
        self.waiting[place] = true;
        self.from = self.from.min(place);
    }

    /// A state comes to a stretch. Not where the stretch isn't there, or no state is above both.
    pub fn raise(&mut self, place: usize, state: &AbsState) -> bool
        ensures { then_some result self.new ≡ raised self.old place state.now }
    {
        if place >= self.states.len() {
            return false;
        }
        let Some(mut known) = self.states[place] else {
            self.put(place, state);
            return true;
        };
        match known.raise(state) {
            None => false,
            Some(false) => true,
            Some(true) => {
                self.put(place, &known);
                true
            }
        }
    }

    /// What was found of the stretch.
    pub fn known_at(&self, stretch: usize) -> Option<AbsState>
        ensures { result ≡ at self.now.states stretch }
    {
        match self.states.get(stretch) {
            Some(known) => *known,
            None => None,
        }
    }

    /// Why a state can't come to the stretch at this place.
    fn conflict(&self, place: usize, stretch: usize, state: &AbsState, seen: &mut Seen) -> Fault
        ensures { is_of_rules result.cause ≡ true }
    {
        seen.known = self.known_at(stretch);
        seen.other = Some(*state);
        Fault {
            at: place,
            cause: RefusalCause::JoinConflict,
        }
    }

    /// The last edge of an instruction is followed: to a stretch, or on within this one, which is
    /// answered. `state` becomes the state at its end.
    fn leave(
        &mut self,
        stretches: &Stretches,
        edge: &Step,
        state: &mut AbsState,
        seen: &mut Seen,
    ) -> Result<bool, Fault>
        ensures told { told result self.new state.new ≡ went_last self.old
            (changed state.old edge.now.change) (at stretches.now.numbers edge.now.target) }
        ensures cause { IfErr result (λ fault. is_of_rules fault.cause ≡ true) }
    {
        state.change(edge.change);
        let Some(stretch) = stretches.number(edge.target) else {
            return Ok(true);
        };
        if self.raise(stretch, state) {
            return Ok(false);
        }
        Err(self.conflict(edge.target, stretch, state, seen))
    }

    /// An edge is followed before the last one: to a stretch.
    fn enter(
        &mut self,
        stretches: &Stretches,
        edge: &Step,
        state: &AbsState,
        seen: &mut Seen,
    ) -> Result<(), Fault>
        ensures entered { then_some (is_ok result) self.new ≡ entered self.old
            (changed state.now edge.now.change) (at stretches.now.numbers edge.now.target) }
        ensures cause { IfErr result (λ fault. is_of_rules fault.cause ≡ true) }
    {
        // Each place to which an instruction jumps begins a stretch.
        let Some(stretch) = stretches.number(edge.target) else {
            return Err(Fault {
                at: edge.target,
                cause: RefusalCause::Rule(Cause::BadJump),
            });
        };
        let mut state = *state;
        state.change(edge.change);
        if self.raise(stretch, &state) {
            return Ok(());
        }
        Err(self.conflict(edge.target, stretch, &state, seen))
    }

    /// Both edges of an instruction are followed.
    #[tactic(auto, unfolding(crate::specs::Stretches::went))]
    fn part(
        &mut self,
        stretches: &Stretches,
        jump: &Step,
        next: &Step,
        state: &mut AbsState,
        seen: &mut Seen,
    ) -> Result<bool, Fault>
        ensures told { told result self.new state.new ≡ went stretches.now.numbers self.old
            (step_in state.old (Some jump.now) ++ step_in state.old (Some next.now)) }
        ensures cause { IfErr result (λ fault. is_of_rules fault.cause ≡ true) }
    {
        match self.enter(stretches, jump, state, seen) {
            Ok(()) => self.leave(stretches, next, state, seen),
            Err(fault) => Err(fault),
        }
    }

    /// The edges of an instruction are followed. Whether the stretch goes on behind it.
    #[tactic(auto, unfolding(crate::specs::Stretches::went))]
    fn arrive(
        &mut self,
        stretches: &Stretches,
        edges: &Steps,
        state: &mut AbsState,
        seen: &mut Seen,
    ) -> Result<bool, Fault>
        ensures told { told result self.new state.new ≡ went stretches.now.numbers self.old
            (step_in state.old edges.now.jump ++ step_in state.old edges.now.next) }
        ensures cause { IfErr result (λ fault. is_of_rules fault.cause ≡ true) }
    {
        let Some(jump) = &edges.jump else {
            let Some(next) = &edges.next else {
                return Ok(false);
            };
            return self.leave(stretches, next, state, seen);
        };
        let Some(next) = &edges.next else {
            return self.leave(stretches, jump, state, seen);
        };
        self.part(stretches, jump, next, state, seen)
    }

    /// One instruction of a stretch, in this state. Whether the stretch goes on behind it, and then the
    /// state is that of the next one. Not where its rule doesn't hold, or an edge can't be followed.
    fn step(
        &mut self,
        bounds: &Bounds,
        image: &Image,
        stretches: &Stretches,
        place: usize,
        state: &mut AbsState,
        seen: &mut Seen,
    ) -> Result<bool, Fault>
        requires alike { RoundAlike bounds.now (bounds_of image.now.code) }
        ensures told { told result self.new state.new
            ≡ stepped stretches.now.numbers self.old (rule image.now place state.old) }
        ensures cause { IfErr result (λ fault. is_of_rules fault.cause ≡ true) }
    {
        match edges_at(bounds, image, place, state) {
            Ok(edges) => self.arrive(stretches, &edges, state, seen),
            Err(fault) => {
                seen.known = Some(*state);
                seen.blamed = fault.blamed();
                Err(Fault {
                    at: place,
                    cause: RefusalCause::Rule(fault.cause()),
                })
            }
        }
    }

    /// The instructions of a stretch, from this one on, in this state.
    fn run(
        &mut self,
        bounds: &Bounds,
        image: &Image,
        stretches: &Stretches,
        first: usize,
        state: &mut AbsState,
        seen: &mut Seen,
    ) -> Result<(), Fault>
        requires alike { RoundAlike bounds.now (bounds_of image.now.code) }
        ensures turned { then_some (is_ok result) self.new
            ≡ turned_over self.old (out_from stretches.now.numbers image.now first state.old) }
        ensures cause { IfErr result (λ fault. is_of_rules fault.cause ≡ true) }
    {
        for place in first..image.len() {
            match self.step(bounds, image, stretches, place, state, seen) {
                Ok(true) => {}
                Ok(false) => return Ok(()),
                Err(fault) => return Err(fault),
            }
        }
        Err(Fault {
            at: first,
            cause: RefusalCause::Rule(Cause::FallsOff),
        })
    }

    /// A stretch is looked at once. Not where the rule of one of its instructions doesn't hold, or an
    /// edge can't be followed.
    fn turn(
        &mut self,
        bounds: &Bounds,
        image: &Image,
        stretches: &Stretches,
        stretch: usize,
        seen: &mut Seen,
    ) -> Result<(), Fault>
        requires inside { stretch < length self.old.states }
        requires alike { RoundAlike bounds.now (bounds_of image.now.code) }
        ensures turned { then_some (is_ok result) self.new
            ≡ turned image.now stretches.now self.old stretch }
        ensures cause { IfErr result (λ fault. is_of_rules fault.cause ≡ true) }
    {
        self.waiting[stretch] = false;
        let Some(mut state) = self.states[stretch] else {
            return Ok(());
        };
        self.run(
            bounds,
            image,
            stretches,
            stretches.start(image, stretch),
            &mut state,
            seen,
        )
    }

    /// How many instructions are looked at next, at most.
    pub fn cost(&self, image: &Image, stretches: &Stretches) -> usize {
        match self.waiting.get(self.from) {
            Some(true) => stretches
                .start(image, self.from.saturating_add(1))
                .saturating_sub(stretches.start(image, self.from)),
            _ => 0,
        }
    }

    /// The next stretch is looked at, if it waits, or passed over.
    pub fn advance(
        &mut self,
        bounds: &Bounds,
        image: &Image,
        stretches: &Stretches,
        seen: &mut Seen,
    ) -> Result<(), Fault>
        requires alike { RoundAlike bounds.now (bounds_of image.now.code) }
        requires goes { Goes image.now stretches.now self.old }
        requires more { self.old.from < length stretches.now.starts }
        ensures goes { IfOk result (λ done. Goes image.now stretches.now self.new) }
        ensures less { IfOk result (λ done. remaining self.new < remaining self.old) }
        ensures exact { IfErr result (λ fault. IsRefused image.now fault.at fault.cause) }
    {
        let stretch = self.place();
        if !self.is_waiting(stretch) {
            self.go_on();
            return Ok(());
        }
        match self.turn(bounds, image, stretches, stretch, seen) {
            Ok(()) => Ok(()),
            Err(fault) => Err(fault),
        }
    }
}
