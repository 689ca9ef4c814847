//! The list of all waits with a gap in it: where entries at neighbouring places go one after another,
//! none is moved.

ghost use Rattle.std.specs.Prelude.{[], ◌≡◌, ◌+◌, ◌<◌, ◌≤◌, ◌^◌, ◌++◌, ◌∷◌, ◌==◌, length, map, slice_get, IfOk, IsTrue, IsSome, OnOk, OnSome};
ghost use Rattle.std.specs.FinMap.Entries.{is_sorted};
ghost use Rattle.std.specs.List.{position};
ghost use Rattle.std.specs.Ordering.{nat_cmp};
ghost use Rattle.std.specs.VecDeque.{deque_capacity, deque_len};
ghost use Rattle.zl_objects.specs.Gapped.{IsTaken};
ghost use Rattle.zl_objects.specs.Listed.{order_entry};

use crate::wait::Listed;
use std::alloc::{AllocError, Global};
use std::collections::VecDeque;
use std::marker::Model;

/// The entries before the gap, and those behind it. The gap moves to where an entry is taken out,
/// which takes no memory: in either part there is room for all entries.
#[derive(Drop)]
pub(crate) struct Gapped {
    before: VecDeque<Listed>,
    after: VecDeque<Listed>,
    room: usize,
    // How many entries were moved at most beside an end of the list since the gap was last moved.
    spent: usize,
}

impl Model for Gapped {
    ghost use Rattle.std.specs.Prelude.{◌++◌};
    ghost use Rattle.std.specs.VecDeque.{deque_capacity};
    ghost use Rattle.zl_objects.specs.Gapped.{Entries, HasRoom};

    ghost Value = { Entries };

    ghost view = { λ g. record { items = g.before.items ++ g.after.items; room = g.room } };

    ghost invariant = { λ g. HasRoom g.before.items g.after.items
        (deque_capacity g.before) (deque_capacity g.after) g.room };
}

impl Gapped {
    /// Room is made for so many at least.
    const LEAST: usize = 4;

    /// No entry, and no room.
    pub fn new(alloc: Global) -> Gapped
        ensures { result.items ≡ [] }
    {
        Gapped {
            before: VecDeque::new(alloc),
            after: VecDeque::new(alloc),
            room: 0,
            spent: 0,
        }
    }

    /// The same entries once more, with the gap where it is, and as much room.
    pub fn copy(&self, alloc: Global) -> Result<Gapped, AllocError>
        ensures { IfOk result (λ gapped. gapped ≡ self.now) }
    {
        Ok(Gapped {
            before: copied_part(alloc, &self.before)?,
            after: copied_part(alloc, &self.after)?,
            room: self.room,
            spent: self.spent,
        })
    }

    /// How many entries there are.
    pub fn len(&self) -> usize
        ensures { result ≡ length self.now.items }
    {
        self.before.len() + self.after.len()
    }

    /// Whether there is no entry.
    pub fn is_empty(&self) -> bool
        ensures { result ≡ (length self.now.items == 0) }
    {
        self.before.is_empty() && self.after.is_empty()
    }

    /// Makes room for one more, wherever the gap will be. Where memory is refused, nothing changes.
    pub fn reserve_one(&mut self) -> Result<(), AllocError>
        ensures items { self.new.items ≡ self.old.items }
        ensures room { OnOk result (length self.new.items < self.new.room) }
    {
        let count = self.len();
        if count < self.room {
            return Ok(());
        }
        // As much again, so that few pushes ask for memory.
        let more = count.max(Gapped::LEAST);
        self.before.reserve(self.after.len() + more)?;
        self.after.reserve(self.before.len() + more)?;
        self.room = self.before.capacity().min(self.after.capacity());
        Ok(())
    }

    /// Puts the entry behind all others.
    pub fn push_back_reserved(&mut self, listed: Listed)
        requires { length self.old.items < self.old.room }
        ensures { self.new.items ≡ self.old.items ++ listed ∷ [] }
    {
        self.after.push_back_reserved(listed);
    }

    /// The entry at the place.
    pub fn get(&self, place: usize) -> Option<Listed>
        ensures entry { result ≡ slice_get self.now.items place }
        ensures next { OnSome result (place + 1 < 2 ^ 64) }
    {
        let first = self.before.len();
        if place < first {
            return Some(*self.before.get(place)?);
        }
        Some(*self.after.get(place - first)?)
    }

    /// Where the entry of this order stands.
    pub fn place_of(&self, order: u64) -> Option<usize>
        requires rising { IsTrue (is_sorted nat_cmp (map order_entry self.now.items)) }
        ensures { result ≡ position (λ x. x.order == order) self.now.items }
    {
        if let Some(place) = place_in(&self.before, order) {
            return Some(place);
        }
        Some(self.before.len() + place_in(&self.after, order)?)
    }

    /// Takes out the entry at the place. The gap moves there, unless an end of the list is nearer:
    /// then the gap stays, until as many entries were moved as it would have had to pass.
    pub fn remove(&mut self, place: usize) -> Option<Listed>
        requires inside { place < length self.old.items }
        ensures taken { IsTaken self.old.items place result self.new.items }
        ensures some { IsSome result }
    {
        let first = self.before.len();
        let (from_gap, from_end) = if place < first {
            (first - 1 - place, place)
        } else {
            (place - first, first + self.after.len() - 1 - place)
        };
        let spent = self.spent.saturating_add(from_end);
        if from_gap > spent {
            self.spent = spent;
            return take_out(&mut self.before, &mut self.after, place);
        }
        self.spent = 0;
        take_at_gap(&mut self.before, &mut self.after, place)
    }

    /// No entry is left.
    pub fn clear(&mut self)
        ensures { self.new.items ≡ [] }
    {
        self.before.clear();
        self.after.clear();
    }
}

/// The same part once more, with as much room.
fn copied_part(alloc: Global, part: &VecDeque<Listed>) -> Result<VecDeque<Listed>, AllocError>
    ensures items { IfOk result (λ copy. copy.items ≡ part.now.items) }
    ensures room { IfOk result (λ copy. deque_capacity part.now ≤ deque_capacity copy) }
{
    let (first, rest) = part.as_slices();
    let mut copy = Vec::with_capacity(alloc, part.capacity())?;
    copy.extend_from_slice(first)?;
    copy.extend_from_slice(rest)?;
    Ok(VecDeque::from_vec(copy))
}

/// Where the entry of this order stands in this part.
fn place_in(part: &VecDeque<Listed>, order: u64) -> Option<usize>
    requires { IsTrue (is_sorted nat_cmp (map order_entry part.now.items)) }
    ensures { result ≡ position (λ x. x.order == order) part.now.items }
{
    part.binary_search_by_key(&order, |listed| listed.order)
        .ok()
}

/// Takes the entry out where it stands. The shorter side of its part is moved.
fn take_out(
    before: &mut VecDeque<Listed>,
    after: &mut VecDeque<Listed>,
    place: usize,
) -> Option<Listed>
    requires inside { place < length (before.old.items ++ after.old.items) }
    ensures taken { IsTaken (before.old.items ++ after.old.items) place result
        (before.new.items ++ after.new.items) }
    ensures some { IsSome result }
    ensures front { deque_capacity before.new ≡ deque_capacity before.old }
    ensures behind { deque_capacity after.new ≡ deque_capacity after.old }
{
    let first = before.len();
    if place < first {
        before.remove(place)
    } else {
        after.remove(place - first)
    }
}

/// Takes the entry out at the gap, which is moved beside it.
fn take_at_gap(
    before: &mut VecDeque<Listed>,
    after: &mut VecDeque<Listed>,
    place: usize,
) -> Option<Listed>
    requires inside { place < length (before.old.items ++ after.old.items) }
    requires front { deque_len before.old + deque_len after.old ≤ deque_capacity before.old }
    requires behind { deque_len before.old + deque_len after.old ≤ deque_capacity after.old }
    ensures taken { IsTaken (before.old.items ++ after.old.items) place result
        (before.new.items ++ after.new.items) }
    ensures some { IsSome result }
    ensures front { deque_capacity before.new ≡ deque_capacity before.old }
    ensures behind { deque_capacity after.new ≡ deque_capacity after.old }
{
    if place < before.len() {
        move_back(before, after, place + 1);
        before.pop_back()
    } else {
        move_front(before, after, place);
        after.pop_front()
    }
}

/// Moves the gap to the front, until so many entries are left before it.
fn move_back(before: &mut VecDeque<Listed>, after: &mut VecDeque<Listed>, left: usize)
    requires left { left ≤ deque_len before.old }
    requires room { deque_len before.old + deque_len after.old ≤ deque_capacity after.old }
    ensures items { before.new.items ++ after.new.items ≡ before.old.items ++ after.old.items }
    ensures left { deque_len before.new ≡ left }
    ensures front { deque_capacity before.new ≡ deque_capacity before.old }
    ensures behind { deque_capacity after.new ≡ deque_capacity after.old }
{
    while before.len() > left {
        let Some(listed) = before.pop_back() else {
            unreachable!()
        };
        after.push_front_reserved(listed);
    }
}

/// Moves the gap to the back, until so many entries are before it.
fn move_front(before: &mut VecDeque<Listed>, after: &mut VecDeque<Listed>, wanted: usize)
    requires above { deque_len before.old ≤ wanted }
    requires there { wanted ≤ deque_len before.old + deque_len after.old }
    requires room { deque_len before.old + deque_len after.old ≤ deque_capacity before.old }
    ensures items { before.new.items ++ after.new.items ≡ before.old.items ++ after.old.items }
    ensures wanted { deque_len before.new ≡ wanted }
    ensures front { deque_capacity before.new ≡ deque_capacity before.old }
    ensures behind { deque_capacity after.new ≡ deque_capacity after.old }
{
    while before.len() < wanted {
        let Some(listed) = after.pop_front() else {
            unreachable!()
        };
        before.push_back_reserved(listed);
    }
}
