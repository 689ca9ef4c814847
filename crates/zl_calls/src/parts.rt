//! What a call does over the parts of the world, from its registers to its answer: the policy is asked,
//! then what reaches other processes, and else what reaches none but its caller.

ghost use Rattle.std.specs.Prelude.{◌≡◌, ◌<◌, ◌^◌, false, None, IsSome, IfSome, IfNone, [], ◌∷◌};
ghost use Rattle.zl_code.specs.Request.{site_of};
ghost use Rattle.zl_calls.specs.Acted.{Acted};
ghost use Rattle.zl_calls.specs.Reaching.{CallActs, is_reaching, Reaches};
ghost use Rattle.zl_calls.specs.calls.Task.{IsReachedBy, EndsOrAnswers};
ghost use Rattle.zl_calls.specs.Calling.{AtPlace, KeepsRoom, MayCall, OwnWaits, parts_in};
ghost use Rattle.zl_calls.specs.Sure.{IsFaultless, IsSure};
ghost use Rattle.zl_interp.specs.Common.{register_set};
ghost use Rattle.zl_calls.specs.calls.Answer.{answered_in, no_value, status_of};

use crate::calls::channel::chan_create;
use crate::calls::channel::reading::{read, read_slots};
use crate::calls::channel::writing::{write, write_slots};
use crate::calls::event::{event_create, eventpair_create, signal, signal_peer};
use crate::calls::handle::{close, dup, handle_info, replace};
use crate::calls::job::{job_create, job_set_policy};
use crate::calls::kill::task_kill;
use crate::calls::port::{port_cancel, port_create, port_poll, port_queue, port_wait};
use crate::calls::process::{NewProcess, StartOf, end, process_create, process_start, signed_word};
use crate::calls::wait::{wait_async, wait_one, wait_poll};
use crate::policy::by_policy;
use crate::process::{Process, State};
use crate::processes::Processes;
use crate::step::taken::Taken;
use std::alloc::Global;
use zl_code::{CallInstr, CallName, Outcome, Register};
use zl_interp::Library;
use zl_objects::Objects;
use zl_rights::{Pid, Status};

/// What a step can reach: every process ever made, the objects, and what is listed beside them.
#[derive(Drop)]
pub struct Parts {
    pub processes: Processes,
    pub objects: Objects,
    // The processes that are blocked, the longest blocked first. There is room for each process, so
    // that none takes memory to block.
    pub blocked: Vec<Pid>,
    // What the last call took, made once as each step would fill it with zeros.
    pub taken: Taken,
}

impl Parts {
    /// Does the call of a checked program, as `call` does.
    // Apart from the loop over turns, in which the way of raw programs stands.
    #[inline(never)]
    pub fn call_checked(
        &mut self,
        alloc: Global,
        library: &Library,
        place: usize,
        call: &CallInstr,
    ) -> Outcome
        requires may { MayCall (parts_in self.old) place }
        requires there { AtPlace self.old.processes place (λ caller.
            IsSome (site_of call.now caller.cpu)) }
        requires own { AtPlace self.old.processes place (λ caller.
            OwnWaits caller.pid caller.table.entries self.old.objects) }
        requires counter { AtPlace self.old.processes place (λ caller.
            caller.cpu.counter < 2 ^ 32) }
        requires sure { AtPlace self.old.processes place (λ caller.
            IsSure caller self.old.objects (site_of call.now caller.cpu)) }
        ensures acts { AtPlace self.old.processes place (λ caller.
            IsReachedBy (site_of call.now caller.cpu) (λ s. CallActs library.now place caller s
            (parts_in self.old) result (parts_in self.new))) }
        ensures room { KeepsRoom self.old self.new }
        ensures taken { self.new.taken ≡ self.old.taken }
    {
        self.call::<false>(alloc, library, place, call)
    }

    /// Does the call of the process at this place, whose memory is there: it ends as the policy of the
    /// process's job says, if that keeps it from being done.
    #[inline(always)]
    pub fn call<const TESTED: bool>(
        &mut self,
        alloc: Global,
        library: &Library,
        place: usize,
        call: &CallInstr,
    ) -> Outcome
        requires may { MayCall (parts_in self.old) place }
        requires there { AtPlace self.old.processes place (λ caller.
            IsSome (site_of call.now caller.cpu)) }
        requires own { AtPlace self.old.processes place (λ caller.
            OwnWaits caller.pid caller.table.entries self.old.objects) }
        requires counter { AtPlace self.old.processes place (λ caller.
            caller.cpu.counter < 2 ^ 32) }
        requires sure { TESTED ≡ false → AtPlace self.old.processes place (λ caller.
            IsSure caller self.old.objects (site_of call.now caller.cpu)) }
        ensures acts { AtPlace self.old.processes place (λ caller.
            IsReachedBy (site_of call.now caller.cpu) (λ s. CallActs library.now place caller s
            (parts_in self.old) result (parts_in self.new))) }
        ensures room { KeepsRoom self.old self.new }
        ensures taken { self.new.taken ≡ self.old.taken }
    {
        let caller = &mut self.processes.list[place];
        if let Some(outcome) = by_policy::<TESTED>(alloc, caller, &mut self.objects, call) {
            return outcome;
        }
        if let Some(outcome) = self.reach::<TESTED>(alloc, library, place, call) {
            return outcome;
        }
        act_alone::<TESTED>(
            alloc,
            &mut self.processes.list[place],
            &mut self.objects,
            call,
        )
    }

    /// Does the call of the process at this place, if it is one that reaches other processes.
    #[inline(always)]
    #[tactic(auto, unfolding(zl_code::specs::Request::site_of))]
    fn reach<const TESTED: bool>(
        &mut self,
        alloc: Global,
        library: &Library,
        place: usize,
        call: &CallInstr,
    ) -> Option<Outcome>
        requires may { MayCall (parts_in self.old) place }
        requires counter { AtPlace self.old.processes place (λ caller.
            caller.cpu.counter < 2 ^ 32) }
        requires sure { TESTED ≡ false → AtPlace self.old.processes place (λ caller.
            IsFaultless caller.table.entries (site_of call.now caller.cpu)) }
        ensures reached { IfSome result (λ o. AtPlace self.old.processes place (λ caller.
            IsReachedBy (site_of call.now caller.cpu) (λ s. Reaches library.now place caller s
            (parts_in self.old) o (parts_in self.new)))) }
        ensures missing { IfNone result (AtPlace self.old.processes place (λ caller.
            IfSome (site_of call.now caller.cpu) (λ s. is_reaching s.request ≡ false))) }
        ensures room { KeepsRoom self.old self.new }
        ensures taken { self.new.taken ≡ self.old.taken }
        ensures unchanged { IfNone result (self.new ≡ self.old) }
    {
        let [a, b, c, d, ..] = call.registers;
        let cpu = &self.processes.list[place].cpu;
        match call.name {
            CallName::ProcessCreate => {
                let (job, program) = (cpu.register(b), cpu.register(c));
                let new = NewProcess { job, program };
                let made = process_create::<TESTED>(alloc, library, self, place, new);
                Some(self.processes.list[place].answer_made(a, d, made))
            }
            CallName::ProcessStart => {
                let (process, handle, word) = (cpu.register(b), cpu.register(c), cpu.register(d));
                let start = StartOf {
                    process,
                    handle,
                    word,
                };
                let answer = process_start::<TESTED>(library, self, place, start);
                Some(answer_taking(&mut self.processes.list[place], a, c, answer))
            }
            CallName::TaskKill => {
                let task = cpu.register(b);
                let answer = task_kill::<TESTED>(alloc, self, place, task);
                Some(answer_unless_over(&mut self.processes.list[place], a, answer))
            }
            _ => None,
        }
    }
}

/// The call that takes a handle is answered: the register of the handle becomes 0 before.
fn answer_taking(
    caller: &mut Process,
    status: Register,
    handle: Register,
    answer: Result<(), Status>,
) -> Outcome
    requires { caller.old.cpu.counter < 2 ^ 32 }
    ensures ends { result ≡ Outcome.Answered (status_of answer) }
    ensures process { caller.new ≡ answered_in
        (record caller.old { cpu = register_set caller.old.cpu handle 0 })
        (status ∷ []) no_value answer }
{
    caller.cpu.set(handle, 0);
    caller.answer(status, answer)
}

/// The call is answered, unless it has ended its caller.
fn answer_unless_over(caller: &mut Process, status: Register, answer: Result<(), Status>) -> Outcome
    requires { caller.old.cpu.counter < 2 ^ 32 }
    ensures { EndsOrAnswers status answer caller.old result caller.new }
{
    match caller.state {
        State::Ended(code) => Outcome::Ended(code),
        _ => caller.answer(status, answer),
    }
}

/// Does the call, whose memory is there, and which reaches no other process than its caller.
#[inline(always)]
#[tactic(auto, unfolding(zl_code::specs::Request::site_of))]
fn act_alone<const TESTED: bool>(
    alloc: Global,
    process: &mut Process,
    objects: &mut Objects,
    call: &CallInstr,
) -> Outcome
    requires counter { process.old.cpu.counter < 2 ^ 32 }
    requires there { IsSome (site_of call.now process.old.cpu) }
    requires alone { IfSome (site_of call.now process.old.cpu)
        (λ s. is_reaching s.request ≡ false) }
    requires own { OwnWaits process.old.pid process.old.table.entries objects.old }
    requires sure { TESTED ≡ false
        → IsFaultless process.old.table.entries (site_of call.now process.old.cpu) }
    ensures { Acted (site_of call.now process.old.cpu)
        process.old objects.old result process.new objects.new }
{
    // Of all but an exit the first gets the status.
    let [a, b, c, d, e, ..] = call.registers;
    let reg = |register: Register| process.cpu.register(register);
    let pid = process.pid;
    match call.name {
        CallName::Close => {
            let answer = close::<TESTED>(&mut process.table, objects, reg(b));
            process.cpu.set(b, 0);
            process.answer(a, answer)
        }
        CallName::Dup => {
            let made = dup::<TESTED>(&mut process.table, objects, reg(b), call.number());
            process.answer_made(a, c, made)
        }
        CallName::Replace => {
            let made = replace::<TESTED>(&mut process.table, objects, pid, reg(b), call.number());
            process.cpu.set(b, 0);
            process.answer_made(a, c, made)
        }
        CallName::ChanCreate => {
            let made = chan_create(&mut process.table, objects);
            process.answer_made_two(a, b, c, made)
        }
        CallName::ChanWrite => write::<TESTED>(alloc, process, objects, call),
        CallName::ChanReadEtc => read::<TESTED>(alloc, process, objects, call),
        CallName::EventCreate => {
            let made = event_create(&mut process.table, objects);
            process.answer_made(a, b, made)
        }
        CallName::Signal => {
            let answer = signal::<TESTED>(&process.table, objects, reg(b), reg(c), reg(d));
            process.answer(a, answer)
        }
        CallName::SignalPeer => {
            let answer = signal_peer::<TESTED>(&process.table, objects, reg(b), reg(c), reg(d));
            process.answer(a, answer)
        }
        CallName::WaitOne => wait_one::<TESTED>(process, objects, call),
        CallName::WaitPoll => {
            let polled = wait_poll::<TESTED>(&process.table, objects, reg(b), reg(c));
            process.answer_polled(call.registers, polled)
        }
        CallName::WaitAsync => {
            let answer = wait_async::<TESTED>(
                &process.table,
                objects,
                pid,
                reg(b),
                reg(c),
                reg(d),
                reg(e),
            );
            process.answer(a, answer)
        }
        CallName::PortCreate => {
            let made = port_create(&mut process.table, objects);
            process.answer_made(a, b, made)
        }
        CallName::PortQueue => {
            let answer = port_queue::<TESTED>(&process.table, objects, reg(b), reg(c), reg(d));
            process.answer(a, answer)
        }
        CallName::PortWait => port_wait::<TESTED>(process, objects, call),
        CallName::PortPoll => {
            let answer = port_poll::<TESTED>(&process.table, objects, reg(b));
            process.answer_packet(call.registers, answer)
        }
        CallName::PortCancel => {
            let answer = port_cancel::<TESTED>(
                &process.table,
                objects,
                pid,
                reg(b),
                reg(c),
                reg(d),
            );
            process.answer(a, answer)
        }
        CallName::ProcessExit => {
            let code = signed_word(reg(a));
            end(alloc, process, objects, code);
            Outcome::Ended(code)
        }
        CallName::JobCreate => {
            let made = job_create::<TESTED>(&mut process.table, objects, reg(b));
            process.answer_made(a, c, made)
        }
        CallName::JobSetPolicy => {
            let answer = job_set_policy::<TESTED>(
                &process.table,
                objects,
                reg(b),
                reg(c),
                reg(d),
                reg(e),
            );
            process.answer(a, answer)
        }
        CallName::EventpairCreate => {
            let made = eventpair_create(&mut process.table, objects);
            process.answer_made_two(a, b, c, made)
        }
        CallName::ChanWriteSlots => write_slots::<TESTED>(alloc, process, objects, call),
        CallName::ChanReadSlots => read_slots::<TESTED>(alloc, process, objects, call),
        CallName::HandleInfo => {
            let told = handle_info::<TESTED>(&process.table, reg(b));
            process.answer_info(a, c, d, told)
        }
        CallName::ProcessCreate | CallName::ProcessStart | CallName::TaskKill => unreachable!(),
    }
}
