//! The call that kills a process, or a job with all that stands below it.

ghost use Rattle.std.specs.Prelude.{◌≡◌, ◌==◌, ◌<◌, ◌≤◌, true, false, [], ◌∷◌, Some, length, map, vec_capacity, slice_get, IsOk, IfNone, IfSome};
ghost use Rattle.std.specs.List.{filter, position};
ghost use Rattle.std.specs.List.Sorted.{IsNonDecreasing};
ghost use Rattle.zl_rights.specs.LookUp.{looked_up};
ghost use Rattle.zl_rights.specs.Map.{get};
ghost use Rattle.zl_rights.specs.Numbers.{DESTROY};
ghost use Rattle.zl_rights.specs.Signals.{state_passes};
ghost use Rattle.zl_code.specs.Sound.{is_blocked};
ghost use Rattle.zl_objects.specs.Below.{HasTask};
ghost use Rattle.zl_objects.specs.Release.{AreKeptBut};
ghost use Rattle.zl_calls.specs.Blocked.{AreBlocked};
ghost use Rattle.zl_calls.specs.Killing.{AreClosed, AreClosedBut, StandsBefore, StayBlocked, ended_among};
ghost use Rattle.zl_calls.specs.World.{process_entry, state_value};
ghost use Rattle.zl_calls.specs.Calling.{AtPlace, KeepsRoom, parts_in};
ghost use Rattle.zl_calls.specs.calls.Task.{ClosesAllEnded, ClosesEnded, IsCallerStill, TaskKillDoes, ended_within};

use crate::calls::look_up;
use crate::calls::process::close_all;
use crate::parts::Parts;
use crate::process::{Process, State};
use crate::processes::Processes;
use std::alloc::Global;
use zl_objects::{Objects, TaskList};
use zl_rights::{Kind, Koid, Pid, Rights, Status};
use zl_table::Table;

/// The code with which a killed process ends (own profile).
const KILLED: i32 = -1024;

/// Kills the process or the job of the handle, and whatever stands below it. Where that is dead
/// already it is answered OK, and nothing changes.
///
/// `BadHandle`, `WrongType` for what is neither, `AccessDenied` without the right to destroy. It takes
/// no memory.
/// Source: the page "zx_task_kill" of the Fuchsia documentation; the code is own profile.
pub fn task_kill<const TESTED: bool>(
    alloc: Global,
    parts: &mut Parts,
    place: usize,
    task: u64,
) -> Result<(), Status>
    requires place { place < length parts.old.processes.list.items }
    requires kept { AreKeptBut [] parts.old.objects.objects }
    requires list { AreBlocked parts.old.processes.list.items parts.old.blocked.items }
    requires closed { AreClosed parts.old.processes.list.items }
    requires sure { TESTED ≡ false → AtPlace parts.old.processes place (λ caller.
        IsOk (looked_up caller.table.entries task (Kind.Process ∷ Kind.Job ∷ []) DESTROY)) }
    ensures does { AtPlace parts.old.processes place (λ caller.
        TaskKillDoes task caller (parts_in parts.old) result (parts_in parts.new)) }
    ensures caller { AtPlace parts.old.processes place (λ caller.
        IsCallerStill caller (slice_get parts.new.processes.list.items place)) }
    ensures room { KeepsRoom parts.old parts.new }
    ensures taken { parts.new.taken ≡ parts.old.taken }
{
    let Parts {
        processes,
        objects,
        blocked,
        ..
    } = parts;
    let task = look_up::<TESTED>(
        &processes.list[place].table,
        task,
        &[Kind::Process, Kind::Job],
        Rights::DESTROY,
    )?;
    let list = objects.list_task(task.koid);
    let all_stay = end_within(processes, objects, task.koid, &list);
    leave_blocked(processes, blocked, all_stay);
    objects.kill(task.koid, &list);
    close_ended(alloc, processes, objects, &list);
    objects.put_back(list);
    Ok(())
}

/// Each process ends that lives and is the task or stands below it. Its handles are left for now, as
/// what keeps it in its place may be a handle of its own. Says whether surely none of them was blocked.
fn end_within(processes: &mut Processes, objects: &Objects, task: Koid, list: &TaskList) -> bool
    requires { list.now.whole ≡ true → HasTask objects.now.objects task list.now.koids.items }
    ensures ended { processes.new.list.items
        ≡ map (ended_within objects.now task) processes.old.list.items }
    ensures blocked { result ≡ true
        → StayBlocked processes.old.list.items processes.new.list.items }
{
    if list.whole {
        return end_each(processes, objects, task, list.koids.as_slice());
    }
    end_all(processes, objects, task);
    false
}

/// The same of those among these koids. Says whether none of them was blocked.
fn end_each(processes: &mut Processes, objects: &Objects, task: Koid, koids: &[Koid]) -> bool
    ensures ended { processes.new.list.items
        ≡ map (ended_among objects.now task koids.now) processes.old.list.items }
    ensures blocked { result ≡ true
        → StayBlocked processes.old.list.items processes.new.list.items }
{
    let mut all_stay = true;
    for koid in koids {
        all_stay &= end_at(processes, objects, task, *koid);
    }
    all_stay
}

/// The same of the process with this koid, if there is one.
fn end_at(processes: &mut Processes, objects: &Objects, task: Koid, koid: Koid) -> bool
    ensures ended { processes.new.list.items
        ≡ map (ended_among objects.now task (koid ∷ [])) processes.old.list.items }
    ensures blocked { result ≡ true
        → StayBlocked processes.old.list.items processes.new.list.items }
{
    match processes.place_of(koid) {
        Some(place) => end_if_within(&mut processes.list[place], objects, task),
        None => true,
    }
}

/// The same of all processes.
fn end_all(processes: &mut Processes, objects: &Objects, task: Koid)
    ensures { processes.new.list.items
        ≡ map (ended_within objects.now task) processes.old.list.items }
{
    for place in 0..processes.list.len() {
        end_if_within(&mut processes.list[place], objects, task);
    }
}

/// One process. Says whether none that was blocked has ended.
fn end_if_within(process: &mut Process, objects: &Objects, task: Koid) -> bool
    ensures ended { process.new ≡ ended_within objects.now task process.old }
    ensures blocked { result ≡ true → is_blocked (state_value process.new.state)
        ≡ is_blocked (state_value process.old.state) }
{
    if !process.lives() || !objects.is_within(task, process.pid) {
        return true;
    }
    let was_blocked = process.is_blocked();
    process.state = State::Ended(KILLED);
    !was_blocked
}

/// Those of the list are left that are still blocked. Where all are, it looks at none.
fn leave_blocked(processes: &Processes, blocked: &mut Vec<Pid>, all_stay: bool)
    requires { all_stay ≡ true → AreBlocked processes.now.list.items blocked.old.items }
    ensures items { blocked.new.items
        ≡ filter (λ k. state_passes is_blocked (get (map process_entry processes.now.list.items) k))
        blocked.old.items }
    ensures capacity { vec_capacity blocked.new ≡ vec_capacity blocked.old }
{
    if !all_stay {
        keep_blocked(processes, blocked);
    }
}

/// Those of the list are left that are still blocked.
fn keep_blocked(processes: &Processes, blocked: &mut Vec<Pid>)
    ensures items { blocked.new.items
        ≡ filter (λ k. state_passes is_blocked (get (map process_entry processes.now.list.items) k))
        blocked.old.items }
    ensures capacity { vec_capacity blocked.new ≡ vec_capacity blocked.old }
{
    let mut place = 0;
    while place < blocked.len() {
        if is_blocked(processes, blocked[place]) {
            place += 1;
        } else {
            blocked.remove(place);
        }
    }
}

/// Whether the process waits within a call.
pub fn is_blocked(processes: &Processes, pid: Pid) -> bool
    ensures { result
        ≡ state_passes is_blocked (get (map process_entry processes.now.list.items) pid) }
{
    match processes.place_of(pid) {
        Some(place) => processes.list[place].is_blocked(),
        None => false,
    }
}

/// The handles close of each process that is over, in the order of their koids.
fn close_ended(alloc: Global, processes: &mut Processes, objects: &mut Objects, list: &TaskList)
    requires rising { IsNonDecreasing list.now.koids.items }
    requires others { list.now.whole ≡ true
        → AreClosedBut list.now.koids.items processes.old.list.items }
    ensures { ClosesAllEnded processes.old.list.items objects.old
        processes.new.list.items objects.new }
{
    if list.whole {
        close_each(alloc, processes, objects, list.koids.as_slice());
        return;
    }
    close_all_ended(alloc, processes, objects);
}

/// The same, where no other has handles left to close than those with these koids, which rise.
fn close_each(alloc: Global, processes: &mut Processes, objects: &mut Objects, koids: &[Koid])
    requires rising { IsNonDecreasing koids.now }
    requires others { AreClosedBut koids.now processes.old.list.items }
    ensures { ClosesAllEnded processes.old.list.items objects.old
        processes.new.list.items objects.new }
{
    let mut from = 0;
    for koid in koids {
        if let Some(place) = place_from(processes, from, *koid) {
            close_if_ended(alloc, &mut processes.list[place], objects);
            from = place + 1;
        }
    }
}

/// Where the process stands, if there is one of this koid, and not before this place.
fn place_from(processes: &Processes, from: usize, koid: Koid) -> Option<usize>
    ensures found { IfSome result (λ place. Some place
        ≡ position (λ process. process.pid == koid) processes.now.list.items) }
    ensures behind { IfSome result (λ place. from ≤ place) }
    ensures missing { IfNone result (StandsBefore processes.now.list.items koid from) }
{
    let place = processes.place_of(koid)?;
    if place < from {
        return None;
    }
    Some(place)
}

/// The handles close of each process that is over, whoever it is.
fn close_all_ended(alloc: Global, processes: &mut Processes, objects: &mut Objects)
    ensures { ClosesAllEnded processes.old.list.items objects.old
        processes.new.list.items objects.new }
{
    for place in 0..processes.list.len() {
        close_if_ended(alloc, &mut processes.list[place], objects);
    }
}

/// The handles close of the process, if it is over.
fn close_if_ended(alloc: Global, process: &mut Process, objects: &mut Objects)
    ensures { ClosesEnded process.old objects.old process.new objects.new }
{
    if process.lives() {
        return;
    }
    let table = std::mem::replace(&mut process.table, Table::new(alloc));
    close_all(objects, process.pid, table);
}
