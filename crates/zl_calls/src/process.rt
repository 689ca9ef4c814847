ghost use Rattle.std.specs.Prelude.{◌≡◌, ◌<◌, ◌^◌, [], ◌∷◌, None, slice_index};
ghost use Rattle.zl_rights.specs.Signals.{is_ready, lives};
ghost use Rattle.zl_rights.specs.Wakes.{packet_values};
ghost use Rattle.zl_code.specs.Sound.{is_blocked};
ghost use Rattle.zl_code.specs.Starting.{is_created};
ghost use Rattle.zl_calls.specs.Blocking.{awaited_in};
ghost use Rattle.zl_calls.specs.World.{packet_registers, seen_in, signal_registers, state_value};
ghost use Rattle.zl_code.specs.Common.{answered};
ghost use Rattle.zl_rights.specs.Numbers.{status_magnitude};
ghost use Rattle.zl_calls.specs.calls.Answer.{status_of, no_value, one_value, two_values, answered_in};
ghost use Rattle.zl_calls.specs.calls.Handle.{info_values};
ghost use Rattle.zl_calls.specs.calls.Wait.{polled_status, polled_values};

use crate::calls::wait::PollFault;
use bitflags::Flags;
use std::alloc::Global;
use zl_code::{InstrBytes, Outcome, ProcState, Register};
use zl_interp::Cpu;
use zl_objects::Awaited;
use zl_port::Packet;
use zl_rights::{Entry, HValue, Pid, Signals, Status};
use zl_table::Table;

/// The registers of a call.
pub type Registers = [Register; InstrBytes::REGISTERS];

/// What a process is in. Those that are made at boot are ready at once.
#[derive(Clone, Copy)]
pub enum State {
    /// Made by a call, and not started yet.
    Created,
    Ready,
    /// Still at its wait, whose registers these are. What it waits for says which of them get the
    /// answer.
    Blocked {
        awaited: Awaited,
        registers: Registers,
    },
    Ended(i32),
    /// Never started, and its object is gone.
    Gone,
}

/// A process that was ever made.
#[derive(Drop)]
pub struct Process {
    pub pid: Pid,
    pub program: usize,
    pub state: State,
    pub cpu: Cpu,
    pub table: Table,
}

impl Process {
    /// What a trace tells of the process.
    pub fn state(&self) -> ProcState
        ensures { result ≡ seen_in (state_value self.now.state) }
    {
        match self.state {
            State::Created => ProcState::Created,
            State::Ready => ProcState::Ready,
            State::Blocked { .. } => ProcState::Blocked,
            State::Ended(code) => ProcState::Ended(code),
            State::Gone => ProcState::Gone,
        }
    }

    /// Whether it may do its next instruction.
    pub fn is_ready(&self) -> bool
        ensures { result ≡ is_ready (state_value self.now.state) }
    {
        matches!(self.state, State::Ready)
    }

    /// Whether it was made and isn't over.
    pub fn lives(&self) -> bool
        ensures { result ≡ lives (state_value self.now.state) }
    {
        !matches!(self.state, State::Ended(_) | State::Gone)
    }

    /// Whether it was made and not started.
    pub fn is_created(&self) -> bool
        ensures { result ≡ is_created (state_value self.now.state) }
    {
        matches!(self.state, State::Created)
    }

    /// What it waits for, if it is blocked.
    pub fn awaited(&self) -> Option<Awaited>
        ensures { result ≡ awaited_in (state_value self.now.state) }
    {
        match self.state {
            State::Blocked { awaited, .. } => Some(awaited),
            State::Created | State::Ready | State::Ended(_) | State::Gone => None,
        }
    }

    /// Whether it waits within a call.
    pub fn is_blocked(&self) -> bool
        ensures { result ≡ is_blocked (state_value self.now.state) }
    {
        matches!(self.state, State::Blocked { .. })
    }

    /// The call is answered: its destinations get the status and the values, and 0 where there is
    /// none, and the next instruction stands next. Where two are one register, it has the later value.
    #[inline(always)]
    #[tactic(auto, unfolding(zl_rights::specs::World::answered))]
    pub fn answered(&mut self, status: Status, destinations: &[Register], values: &[u64]) -> Outcome
        requires { self.old.cpu.counter < 2 ^ 32 }
        ensures ends { result ≡ Outcome.Answered status }
        ensures process { self.new ≡ record self.old {
          cpu = answered self.old.cpu destinations.now (status_magnitude status ∷ values.now);
        } }
    {
        self.cpu.advance();
        for n in 0..destinations.len() {
            self.cpu.set(destinations[n], value_at(n, status, values));
        }
        Outcome::Answered(status)
    }

    /// The answer of a call that gives no value.
    pub fn answer(&mut self, status: Register, answer: Result<(), Status>) -> Outcome
        requires { self.old.cpu.counter < 2 ^ 32 }
        ensures ends { result ≡ Outcome.Answered (status_of answer) }
        ensures process { self.new ≡ answered_in self.old (status ∷ []) no_value answer }
    {
        match answer {
            Ok(()) => self.answered(Status::Ok, &[status], &[]),
            Err(refused) => self.answered(refused, &[status], &[]),
        }
    }

    /// The answer of a call that makes a handle: the handle's value.
    pub fn answer_made(
        &mut self,
        status: Register,
        destination: Register,
        answer: Result<HValue, Status>,
    ) -> Outcome
        requires { self.old.cpu.counter < 2 ^ 32 }
        ensures ends { result ≡ Outcome.Answered (status_of answer) }
        ensures process { self.new
            ≡ answered_in self.old (status ∷ destination ∷ []) one_value answer }
    {
        let to = [status, destination];
        match answer {
            Ok(made) => self.answered(Status::Ok, &to, &[u64::from(made)]),
            Err(refused) => self.answered(refused, &to, &[]),
        }
    }

    /// The answer of a call that makes two handles: their values.
    pub fn answer_made_two(
        &mut self,
        status: Register,
        first: Register,
        second: Register,
        answer: Result<(HValue, HValue), Status>,
    ) -> Outcome
        requires { self.old.cpu.counter < 2 ^ 32 }
        ensures ends { result ≡ Outcome.Answered (status_of answer) }
        ensures process { self.new
            ≡ answered_in self.old (status ∷ first ∷ second ∷ []) two_values answer }
    {
        let to = [status, first, second];
        match answer {
            Ok((one, other)) => self.answered(Status::Ok, &to, &[u64::from(one), u64::from(other)]),
            Err(refused) => self.answered(refused, &to, &[]),
        }
    }

    /// The answer of a call that tells of a handle: its kind and its rights.
    pub fn answer_info(
        &mut self,
        status: Register,
        kind: Register,
        rights: Register,
        answer: Result<Entry, Status>,
    ) -> Outcome
        requires { self.old.cpu.counter < 2 ^ 32 }
        ensures ends { result ≡ Outcome.Answered (status_of answer) }
        ensures process { self.new
            ≡ answered_in self.old (status ∷ kind ∷ rights ∷ []) info_values answer }
    {
        let to = [status, kind, rights];
        match answer {
            Ok(entry) => {
                let values = [
                    u64::from(entry.kind.number()),
                    u64::from(entry.rights.bits()),
                ];
                self.answered(Status::Ok, &to, &values)
            }
            Err(refused) => self.answered(refused, &to, &[]),
        }
    }

    /// The answer of a call that looks at signals: those that are active, also where it timed out.
    pub fn answer_polled(
        &mut self,
        registers: Registers,
        answer: Result<Signals, PollFault>,
    ) -> Outcome
        requires { self.old.cpu.counter < 2 ^ 32 }
        ensures ends { result ≡ Outcome.Answered (polled_status answer) }
        ensures process { self.new ≡ record self.old {
          cpu = answered self.old.cpu (signal_registers registers)
              (status_magnitude (polled_status answer) ∷ polled_values answer);
        } }
    {
        let [status, _, _, observed, ..] = registers;
        let to = [status, observed];
        match answer {
            Ok(active) => self.answered(Status::Ok, &to, &[u64::from(active.bits())]),
            Err(PollFault::TimedOut(active)) => {
                self.answered(Status::TimedOut, &to, &[u64::from(active.bits())])
            }
            Err(PollFault::Refused(refused)) => self.answered(refused, &to, &[]),
        }
    }

    /// The answer of a call that takes a packet: what the packet gives.
    pub fn answer_packet(&mut self, registers: Registers, answer: Result<Packet, Status>) -> Outcome
        requires { self.old.cpu.counter < 2 ^ 32 }
        ensures ends { result ≡ Outcome.Answered (status_of answer) }
        ensures process { self.new
            ≡ answered_in self.old (packet_registers registers) packet_values answer }
    {
        let [status, _, key, kind, trigger, observed, _] = registers;
        let to = [status, key, kind, trigger, observed];
        match answer {
            Ok(packet) => {
                let values = [
                    packet.key,
                    packet.kind.number(),
                    packet.trigger,
                    packet.observed,
                ];
                self.answered(Status::Ok, &to, &values)
            }
            Err(refused) => self.answered(refused, &to, &[]),
        }
    }

    /// The process ends with the code, with an empty table; the old one is the result.
    pub fn end(&mut self, alloc: Global, code: i32) -> Table
        ensures table { result ≡ self.old.table }
        ensures ended { self.new ≡ record self.old {
          state = State.Ended code;
          table = self.new.table;
        } }
        ensures no_handle { self.new.table.entries ≡ [] }
        ensures no_last { self.new.table.last ≡ None }
    {
        self.state = State::Ended(code);
        std::mem::replace(&mut self.table, Table::new(alloc))
    }
}

/// What the destination at this place gets: the status, then the values, and 0 behind them.
#[inline(always)]
fn value_at(place: usize, status: Status, values: &[u64]) -> u64
    ensures { result ≡ slice_index (status_magnitude status ∷ values.now) place }
{
    if place == 0 {
        u64::from(status.magnitude())
    } else if place <= values.len() {
        values[place - 1]
    } else {
        0
    }
}
