//! The step of one process: who stands where, what stands next for it, what it then does, and what is
//! behind it.

ghost use Rattle.std.specs.Prelude.{◌≡◌, ◌≢◌, ◌<◌, ◌≤◌, not, true, false, None, Some, length, map, slice_get, vec_capacity, IsTrue, IfSome, IfNone, OnSome};
ghost use Rattle.zl_rights.specs.Map.{get};
ghost use Rattle.zl_objects.specs.Awaited.{KeepSleepers};
ghost use Rattle.zl_code.specs.Request.{site_of};
ghost use Rattle.zl_code.specs.Steps.{IsStuck, Moves};
ghost use Rattle.zl_rights.specs.Signals.{is_empty, is_ready, state_passes};
ghost use Rattle.zl_calls.specs.Reaching.{CalledAmong};
ghost use Rattle.zl_calls.specs.Calling.{AtPlace, HasRoom, KeepsRoom, MayCall, OwnWaits, left_in, parts_in, world_in};
ghost use Rattle.zl_calls.specs.Acting.{DoesNext, StaysAwake, is_local as tells_local};
ghost use Rattle.zl_calls.specs.Own.{DoesOwn, own_beside};
ghost use Rattle.zl_calls.specs.Blocked.{AreBlocked, AreLeft};
ghost use Rattle.zl_calls.specs.Blocking.{then_blocked};
ghost use Rattle.zl_calls.specs.Consistent.{IsConsistent};
ghost use Rattle.zl_calls.specs.Registered.{EndsUnheld};
ghost use Rattle.zl_calls.specs.Killed.{TellsKilled};
ghost use Rattle.zl_calls.specs.Taken.{NotesChild, NotesFor, NotesNext, NotesNextChild, NotesNextTask, NotesStarted, NotesTask};
ghost use Rattle.zl_calls.specs.Sure.{IsSureIfChecked, is_checked};
ghost use Rattle.zl_code.specs.Sound.{IsSound};
ghost use Rattle.zl_verify.specs.Covered.{IsCovered, IsVerified};
ghost use Rattle.zl_calls.specs.World.{process_entry, stands_next, CallsNext};
ghost use Rattle.zl_interp.specs.Common.{call_here};

pub mod leaving;
pub mod taken;

use crate::calls::process::end;
use crate::parts::Parts;
use crate::process::Process;
use crate::step::leaving::leave;
use crate::step::taken::{Taken, is_kill, is_start};
use crate::waits::end_behind;
use std::alloc::Global;
use zl_code::{CallInstr, CallName, Outcome, TraceItem};
use zl_interp::{Library, call_at, has_its_memory, local_step};
use zl_objects::Objects;
use zl_rights::Pid;

/// The code with which a stuck process ends (own profile).
const STUCK: i32 = -1028;

/// The call in the code at which the process stands, if it stands at one, and whether its program was
/// checked. Whether the memory of the call is there isn't looked at.
#[inline(always)]
fn call_there(library: &Library, process: &Process) -> Option<(CallInstr, bool)>
    ensures found { IfSome result (λ found. CallsNext library.now process.now found.0) }
    ensures checked { IfSome result (λ found.
        found.1 ≡ is_checked (slice_get library.now process.now.program)) }
    ensures missing { IfNone result (call_here (stands_next library.now process.now) ≡ None) }
    ensures within { OnSome result (process.now.cpu.counter < 4096) }
{
    let program = library.get(process.program)?;
    let call = program.image().call_at(process.cpu.counter())?;
    Some((call, program.is_checked()))
}

/// The name of the call that stands next, if one does.
pub fn next_name(library: &Library, process: &Process) -> Option<CallName>
    ensures { result ≡ call_here (stands_next library.now process.now) }
{
    let program = library.get(process.program)?;
    let Some(call) = call_at(program, &process.cpu) else {
        return None;
    };
    Some(call.name)
}

impl Parts {
    /// Does the next instruction of the process, if the process is ready, and tells the step. Waits
    /// have ended with their handles, none fires and no process wakes yet, and one that blocks isn't in
    /// the list of the blocked yet; those that were killed aren't there any more. A process that was
    /// never started is gone with its object.
    // Part of each turn of a run, as is what it calls below.
    #[inline(always)]
    pub fn act(&mut self, alloc: Global, library: &Library, pid: Pid) -> Option<TraceItem>
        requires consistent { IsConsistent self.old.processes.list.items self.old.objects }
        requires list { AreBlocked self.old.processes.list.items self.old.blocked.items }
        requires sound { IsSound (world_in self.old) }
        requires verified { IsVerified library.now }
        requires covered { IsCovered library.now (world_in self.old) }
        requires room { HasRoom self.old }
        ensures acts { IfSome result (λ item. DoesNext library.now (world_in self.old) pid item
            (left_in self.new (then_blocked pid item self.new.blocked.items))) }
        ensures own { IfSome result (λ item. DoesOwn library.now (own_beside
            self.old.processes.list.items self.old.objects self.old.blocked.items) pid item
            (left_in self.new (then_blocked pid item self.new.blocked.items))
            self.new.processes.list.items) }
        ensures quiet { IfSome result (λ item. IsTrue (tells_local item) → StaysAwake
            (world_in self.old) (left_in self.new self.new.blocked.items) (world_in self.new)) }
        ensures unheld { IfSome result (λ item. tells_local item ≡ false → EndsUnheld
            self.new.processes.list.items self.new.objects self.new.objects) }
        ensures list { IfSome result (λ item. AreBlocked
            self.new.processes.list.items (then_blocked pid item self.new.blocked.items)) }
        ensures fewer { IfSome result (λ item.
            AreLeft self.old.blocked.items self.new.blocked.items) }
        ensures asleep { IfSome result (λ item. KeepSleepers self.old.objects self.new.objects) }
        ensures child { IfSome result (λ item.
            NotesStarted library.now (world_in self.old) pid item self.new.taken) }
        ensures task { IfSome result (λ item.
            TellsKilled library.now (world_in self.old) pid (Some self.new.taken.killed)) }
        ensures consistent { IsConsistent self.new.processes.list.items self.new.objects }
        ensures room { HasRoom self.new }
        ensures not_ready { IfNone result (state_passes is_ready
            (get (map process_entry self.old.processes.list.items) pid) ≡ false) }
        ensures unchanged { IfNone result (self.new ≡ self.old) }
    {
        let place = self.processes.place_of(pid)?;
        if !self.processes.list[place].is_ready() {
            return None;
        }
        if let Some((call, outcome)) = self.call_next(alloc, library, place) {
            let item = TraceItem::Call { pid, call, outcome };
            leave(&mut self.processes, &self.objects);
            end_behind(&self.taken, &self.processes, &mut self.objects, pid);
            return Some(item);
        }
        let process = &mut self.processes.list[place];
        if let Some(()) = run_next(library, process) {
            return Some(TraceItem::Run { pid, count: 1 });
        }
        end(alloc, process, &mut self.objects, STUCK);
        leave(&mut self.processes, &self.objects);
        // What is noted is of a call before it, and no wait is left that was made by one of those.
        end_behind(&self.taken, &self.processes, &mut self.objects, pid);
        Some(TraceItem::Stuck { pid })
    }

    /// Does the call that stands next for the process at this place, and tells its name and how it
    /// ends; where waits are registered, the handles that it took are noted, and where it is a start,
    /// the process that it names; where its program was checked, nothing is tested that is known of its
    /// calls. Where none stands next nothing changes.
    #[inline(always)]
    fn call_next(
        &mut self,
        alloc: Global,
        library: &Library,
        place: usize,
    ) -> Option<(CallName, Outcome)>
        requires may { MayCall (parts_in self.old) place }
        requires own { AtPlace self.old.processes place (λ caller.
            OwnWaits caller.pid caller.table.entries self.old.objects) }
        requires sure { AtPlace self.old.processes place (λ caller.
            IsSureIfChecked library.now caller self.old.objects) }
        ensures calls { IfSome result (λ done. AtPlace self.old.processes place (λ caller.
            CalledAmong library.now place caller
            (parts_in self.old) done.0 done.1 (parts_in self.new))) }
        ensures taken { IfSome result (λ done. AtPlace self.old.processes place (λ caller.
            NotesNext library.now caller self.old.objects self.new.taken)) }
        ensures child { IfSome result (λ done. AtPlace self.old.processes place (λ caller.
            NotesNextChild library.now caller done.0 self.new.taken)) }
        ensures task { IfSome result (λ done. AtPlace self.old.processes place (λ caller.
            NotesNextTask library.now caller self.old.objects done.0 self.new.taken)) }
        ensures room { KeepsRoom self.old self.new }
        ensures missing { IfNone result (AtPlace self.old.processes place (λ caller.
            call_here (stands_next library.now caller) ≡ None)) }
        ensures unchanged { IfNone result (self.new ≡ self.old) }
    {
        let Some((call, checked)) = call_there(library, &self.processes.list[place]) else {
            return None;
        };
        if checked {
            note_taken(
                &mut self.taken,
                &self.processes.list[place],
                &mut self.objects,
                &call,
            );
            let outcome = self.call_checked(alloc, library, place, &call);
            return Some((call.name, outcome));
        }
        if !has_its_memory(&call, &self.processes.list[place].cpu) {
            return None;
        }
        note_taken(
            &mut self.taken,
            &self.processes.list[place],
            &mut self.objects,
            &call,
        );
        let outcome = self.call::<true>(alloc, library, place, &call);
        Some((call.name, outcome))
    }
}

/// Whether the step was a local instruction, behind which no wait ends or fires and no process wakes.
#[inline(always)]
pub fn is_local(item: &TraceItem) -> bool
    ensures { result ≡ tells_local item.now }
{
    matches!(item, TraceItem::Run { .. })
}

/// Notes the handles that the call takes, where waits are registered, the process that it is to start,
/// and the task that it is to kill.
#[inline(always)]
fn note_taken(taken: &mut Taken, process: &Process, objects: &mut Objects, call: &CallInstr)
    ensures taken { IsTrue (not (is_empty objects.old.waits))
        → NotesFor (site_of call.now process.now.cpu) process.now.table.entries taken.new }
    ensures child { NotesChild call.now.name (site_of call.now process.now.cpu)
        process.now.table.entries taken.new }
    ensures task { NotesTask call.now.name (site_of call.now process.now.cpu)
        process.now.table.entries objects.old taken.new }
    ensures unchanged { objects.new ≡ objects.old }
{
    if objects.has_waits() {
        taken.note_call(process, call);
    }
    if is_start(call.name) {
        taken.note_child(process, call);
        return;
    }
    if is_kill(call.name) {
        taken.note_task(process, objects, call);
    }
}

/// Does the local instruction that stands next, where no call does. Where it can't be done, which is so
/// of no checked program, nothing changes.
#[inline(always)]
fn run_next(library: &Library, process: &mut Process) -> Option<()>
    requires no_call { call_here (stands_next library.now process.old) ≡ None }
    requires sure { is_checked (slice_get library.now process.old.program) ≡ true
        → stands_next library.now process.old ≢ IsStuck }
    ensures runs { OnSome result (stands_next library.now process.old ≡ Moves process.new.cpu) }
    ensures cpu { process.new ≡ record process.old { cpu = process.new.cpu } }
    ensures stuck { IfNone result (stands_next library.now process.old ≡ IsStuck) }
    ensures unchanged { IfNone result (process.new ≡ process.old) }
{
    let program = library.get(process.program)?;
    if !program.is_checked() {
        return local_step::<true>(program, &mut process.cpu);
    }
    let Some(()) = local_step::<false>(program, &mut process.cpu) else {
        unreachable!()
    };
    Some(())
}
