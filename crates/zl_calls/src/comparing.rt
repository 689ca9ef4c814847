//! Whether another running world is the same.

ghost use Rattle.std.specs.Prelude.{◌≡◌, ◌↔◌, map, IsTrue};
ghost use Rattle.zl_calls.specs.Same.{counted};
ghost use Rattle.zl_calls.specs.World.{destinations_in, state_value};

use crate::process::{Process, Registers, State};
use zl_objects::Awaited;

/// Whether the same processes stand in the same order, as far as they count.
pub(crate) fn are_same_processes(one: &[Process], other: &[Process]) -> bool
    ensures { IsTrue result ↔ map counted one.now ≡ map counted other.now }
{
    if one.len() != other.len() {
        return false;
    }
    for n in 0..one.len() {
        if !one[n].is_same(&other[n]) {
            return false;
        }
    }
    true
}

impl Process {
    /// Whether the other is the same: its koid, its program, and what it is in; and while it lives what
    /// it computes with, and its handles.
    fn is_same(&self, other: &Process) -> bool
        ensures { IsTrue result ↔ counted self.now ≡ counted other.now }
    {
        if self.pid != other.pid || self.program != other.program {
            return false;
        }
        if !self.state.is_same(&other.state) {
            return false;
        }
        !self.lives() || self.cpu.is_same(&other.cpu) && self.table.is_same(&other.table)
    }
}

impl State {
    /// Whether the other is the same, as it is seen: of a wait the registers of its answer count.
    fn is_same(&self, other: &State) -> bool
        ensures { IsTrue result ↔ state_value self.now ≡ state_value other.now }
    {
        match (self, other) {
            (State::Created, State::Created) => true,
            (State::Ready, State::Ready) => true,
            (State::Ended(code), State::Ended(other_code)) => code == other_code,
            (State::Gone, State::Gone) => true,
            (
                State::Blocked { awaited, registers },
                State::Blocked {
                    awaited: other_awaited,
                    registers: other_registers,
                },
            ) => {
                awaited.is_same(other_awaited)
                    && are_same_destinations(awaited, registers, other_registers)
            }
            _ => false,
        }
    }
}

/// Whether the answer of such a wait has the same registers.
fn are_same_destinations(awaited: &Awaited, one: &Registers, other: &Registers) -> bool
    ensures { IsTrue result ↔ destinations_in awaited.now one.now
        ≡ destinations_in awaited.now other.now }
{
    match awaited {
        Awaited::SignalOf { .. } => one[0] == other[0] && one[3] == other[3],
        Awaited::PacketAt(_) => {
            one[0] == other[0]
                && one[2] == other[2]
                && one[3] == other[3]
                && one[4] == other[4]
                && one[5] == other[5]
        }
    }
}
