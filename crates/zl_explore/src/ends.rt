//! Ends: where nobody can go.

ghost use Rattle.std.specs.Prelude.{◌≡◌, IfOk, IsTrue};
ghost use Rattle.zl_calls.specs.World.{own_here};
ghost use Rattle.zl_explore.specs.Orders.{told_in};

use crate::bad::Bad;
use crate::fact::Fact;
use std::alloc::{AllocError, Global};
use zl_calls::World;
use zl_code::ProcState;
use zl_rights::Pid;

/// Where an order of turns comes to an end, as nobody is ready.
#[derive(Drop)]
pub struct End {
    /// What each process is in, by koid.
    pub states: Vec<(Pid, ProcState)>,
    /// Whose turns lead there, in their order.
    pub turns: Vec<Pid>,
}

/// Where an order has an item that a pattern names.
#[derive(Drop)]
pub struct BadTurn {
    /// Whose turns lead there, in their order; the last one has the item.
    pub turns: Vec<Pid>,
    /// The pattern.
    pub bad: Bad,
}

/// Where an order leads to a world in which facts that are listed together are so at once.
#[derive(Drop)]
pub struct BadWorld {
    /// Whose turns lead there, in their order.
    pub turns: Vec<Pid>,
    /// The facts.
    pub together: Vec<Fact>,
}

/// How a search goes on.
#[derive(Drop)]
pub enum Next {
    /// An order comes to an end with other states than those told before.
    End(End),
    /// An order has an item that may not be.
    Bad(BadTurn),
    /// An order leads to a world in which what may not be so at once is.
    BadWorld(BadWorld),
    /// There is no other end, whatever the order, and nothing that may not be.
    All {
        /// Whether an order leads to where none comes to an end any more.
        endless: bool,
    },
    /// Twice as many worlds were met as when it said so last; it goes on.
    Doubled,
    /// There would be more worlds than there may be.
    Cut,
    /// Memory was refused, or a call wanted it.
    Memory,
}

/// What each process is in, by koid. Only memory can be refused.
pub fn states_of(alloc: Global, world: &World) -> Result<Vec<(Pid, ProcState)>, AllocError>
    ensures { IfOk result (λ states. states.items ≡ told_in (own_here world.now)) }
{
    let mut states = Vec::with_capacity(alloc, world.process_count())?;
    for n in 0..world.process_count() {
        let Some(pid) = world.process_at(n) else {
            unreachable!()
        };
        states.push((pid, world.state_of(pid)))?;
    }
    Ok(states)
}

/// Whether those are the same processes, and in the same.
pub fn are_same(one: &[(Pid, ProcState)], other: &[(Pid, ProcState)]) -> bool
    ensures { IsTrue result → one.now ≡ other.now }
{
    if one.len() != other.len() {
        return false;
    }
    for n in 0..one.len() {
        if one[n].0 != other[n].0 || !is_same(one[n].1, other[n].1) {
            return false;
        }
    }
    true
}

/// Whether that is the same to be in.
fn is_same(one: ProcState, other: ProcState) -> bool
    ensures { IsTrue result → one ≡ other }
{
    match (one, other) {
        (ProcState::Created, ProcState::Created) => true,
        (ProcState::Ready, ProcState::Ready) => true,
        (ProcState::Blocked, ProcState::Blocked) => true,
        (ProcState::Ended(code), ProcState::Ended(with)) => code == with,
        (ProcState::Gone, ProcState::Gone) => true,
        _ => false,
    }
}

/// A number by which the same are found.
pub fn digest_of(states: &[(Pid, ProcState)]) -> u64 {
    let mut digest = 0u64;
    for (pid, state) in states {
        digest = mixed(mixed(digest, *pid), number_of(*state));
    }
    digest
}

/// A number for what a process is in.
pub fn number_of(state: ProcState) -> u64 {
    match state {
        ProcState::Created => 1,
        ProcState::Ready => 2,
        ProcState::Blocked => 3,
        ProcState::Gone => 4,
        ProcState::Ended(code) => 5 + u64::from(code.unsigned_abs()),
    }
}

/// The digest with one number more.
pub fn mixed(digest: u64, number: u64) -> u64 {
    (digest.rotate_left(5) ^ number).wrapping_mul(0x517c_c1b7_2722_0a95)
}
