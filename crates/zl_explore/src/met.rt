//! The states that a search met.

ghost use Rattle.std.specs.Prelude.{ℕ, ◌≡◌, ◌++◌, ◌∷◌, ◌<◌, [], IfOk, IfSome, IsTrue, OnErr, OnOk, length, slice_get};
ghost use Rattle.zl_explore.specs.Met.{Came, emptied, first};
ghost use Rattle.zl_explore.specs.Nodes.{IsRooted, LeadsTo, StandsAt};

use crate::machine::Machine;
use std::alloc::{AllocError, Global};
use std::marker::Model;
use zl_rights::Pid;

/// A state that was met, the place of the one that it was met from, and the process whose turn led to
/// it.
#[derive(Drop)]
pub struct Node<M> {
    pub at: M,
    pub from: usize,
    pub by: Pid,
}

/// A place: from where a turn of whom led to its state, and the state unless that was let go.
#[derive(Drop)]
pub struct Slot<M> {
    pub live: Option<Box<M>>,
    pub from: usize,
    pub by: Pid,
}

/// The states that were met, by their places. One that was let go is made again, by the turns that lead to
/// it from the first, so that only memory is spared by that.
#[derive(Drop)]
pub struct Met<M: Machine> {
    alloc: Global,
    start: M,
    slots: Vec<Slot<M>>,
}

impl<M: Machine> Model for Met<M> {
    ghost use Rattle.zl_explore.specs.Met.{AreLive, Met as MetValue, met};

    ghost Value = { MetValue M };

    ghost view = { λ m. record { items = met M.next m.start m.slots.items } };

    ghost invariant = { λ m. AreLive (met M.next m.start m.slots.items) m.slots.items };
}

impl<M: Machine> Met<M> {
    /// The first state alone.
    pub fn new(alloc: Global, start: M) -> Result<Met<M>, AllocError>
        ensures { IfOk result (λ met. met.items ≡ first start ∷ []) }
    {
        let mut slots = Vec::new(alloc);
        slots.push(Slot {
            live: None,
            from: 0,
            by: 0,
        })?;
        Ok(Met {
            alloc,
            start,
            slots,
        })
    }

    /// How many there are.
    pub fn len(&self) -> usize
        ensures { result ≡ length self.now.items }
    {
        self.slots.len()
    }

    /// One more, behind the others; a turn leads to it from the one that it says.
    pub fn push(&mut self, node: Node<M>) -> Result<(), AllocError>
        requires { Came M.next self.old.items node }
        ensures ok { OnOk result (self.new.items ≡ self.old.items ++ (node ∷ [])) }
        ensures err { OnErr result (self.new.items ≡ self.old.items) }
    {
        let Node { at, from, by } = node;
        let live = Some(Box::new(self.alloc, at)?);
        self.slots.push(Slot { live, from, by })?;
        Ok(())
    }

    /// Who can go in the state at the place. Only memory can be refused.
    pub fn ready_at(&self, place: usize) -> Result<Vec<Pid>, AllocError>
        requires within { place < length self.now.items }
        requires tree { IsRooted M.ready M.next self.now.items }
        ensures { IfOk result (λ pids. IfSome (slice_get self.now.items place)
            (λ n. pids.items ≡ M.ready n.at)) }
    {
        match self.live_at(place) {
            Some(at) => at.ready(),
            None => self.again(place)?.ready(),
        }
    }

    /// Another state like the one at the place. Only memory can be refused.
    pub fn copy_at(&self, place: usize) -> Result<M, AllocError>
        requires within { place < length self.now.items }
        requires tree { IsRooted M.ready M.next self.now.items }
        ensures { IfOk result (λ at. IfSome (slice_get self.now.items place) (λ n. at ≡ n.at)) }
    {
        match self.live_at(place) {
            Some(at) => at.copy(),
            None => self.again(place),
        }
    }

    /// Whether the state at the place is the same. It may say no of the same. Only memory can be refused.
    pub fn is_same_at(&self, place: usize, other: &M) -> Result<bool, AllocError>
        requires within { place < length self.now.items }
        requires tree { IsRooted M.ready M.next self.now.items }
        ensures { IfOk result (λ is. IsTrue is → StandsAt M.ready M.next self.now.items place
            other.now) }
    {
        match self.live_at(place) {
            Some(at) => Ok(at.is_same(other)),
            None => Ok(self.again(place)?.is_same(other)),
        }
    }

    /// The state at the place, unless it was let go.
    fn live_at(&self, place: usize) -> Option<&M>
        ensures { IfSome result (λ at. IfSome (slice_get self.now.items place)
            (λ n. at.now ≡ n.at)) }
    {
        match &self.slots.get(place)?.live {
            Some(at) => Some(at),
            None => None,
        }
    }

    /// The state at the place, made again.
    fn again(&self, place: usize) -> Result<M, AllocError>
        requires within { place < length self.now.items }
        requires tree { IsRooted M.ready M.next self.now.items }
        ensures { IfOk result (λ at. IfSome (slice_get self.now.items place) (λ n. at ≡ n.at)) }
    {
        let turns = self.turns_to(place)?;
        let mut at = self.start.copy()?;
        for pid in &turns {
            at = at.turn(*pid)?.0;
        }
        Ok(at)
    }

    /// The turns that lead from the first state to the one at the place, in their order. Only memory can be
    /// refused.
    pub fn turns_to(&self, place: usize) -> Result<Vec<Pid>, AllocError>
        requires within { place < length self.now.items }
        requires tree { IsRooted M.ready M.next self.now.items }
        ensures { IfOk result (λ turns. LeadsTo M.ready M.next self.now.items 0 place turns.items) }
    {
        let mut turns = Vec::new(self.alloc);
        let mut at = place;
        while at > 0 {
            let slot = &self.slots[at];
            turns.push(slot.by)?;
            at = slot.from;
        }
        turns.reverse();
        Ok(turns)
    }

    /// Lets go of the state at the place, which is made again where it is asked for.
    pub fn let_go(&mut self, place: usize)
        ensures { self.new.items ≡ self.old.items }
    {
        if place < self.slots.len() {
            self.slots[place].let_go();
        }
    }
}

impl<M: Drop> Slot<M> {
    /// Lets go of its state.
    fn let_go(&mut self)
        ensures { self.new ≡ emptied self.old }
    {
        self.live = None;
    }
}
