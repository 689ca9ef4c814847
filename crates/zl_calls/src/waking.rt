//! The list of the blocked processes: how a process comes into it, and how, after each step, those
//! become ready whose wait is over, in the order in which they blocked.

ghost use Rattle.std.specs.Prelude.{[], ◌≡◌, ◌==◌, ◌<◌, ◌≤◌, ◌^◌, ◌++◌, ◌∷◌, not, true, false, Some, IsTrue, length, map, is_some, slice_get, vec_capacity};
ghost use Rattle.std.specs.List.{filter, fold, position};
ghost use Rattle.std.specs.Option.{option_map};
ghost use Rattle.zl_rights.specs.Map.{get};
ghost use Rattle.zl_rights.specs.Numbers.{meets};
ghost use Rattle.zl_rights.specs.Wakes.{packet_values, woken};
ghost use Rattle.zl_objects.specs.declared.awaited.Awaited.{Awaited as AwaitedValue};
ghost use Rattle.zl_objects.specs.Awaited.{KeepSleepers};
ghost use Rattle.zl_objects.specs.Calm.{is_due};
ghost use Rattle.zl_objects.specs.Ports.{changing_port, packets_found};
ghost use Rattle.zl_objects.specs.Signals.{signals_at};
ghost use Rattle.zl_port.specs.Packets.{without_front};
ghost use Rattle.zl_calls.specs.Blocked.{AreBlocked, AreOrdered, AreSought, StandInOrder};
ghost use Rattle.zl_calls.specs.Blocking.{FallsAsleep, awaited_found, if_asleep};
ghost use Rattle.zl_calls.specs.Consistent.{IsConsistent};
ghost use Rattle.zl_calls.specs.Waking.{Wakes, WakesOne, WakesSleeper, HaveCounters, awake, awake_in, given_awake, seen_active, without_taken};
ghost use Rattle.zl_calls.specs.Told.{is_asleep};
ghost use Rattle.zl_calls.specs.Woke.{HaveLeft};
ghost use Rattle.zl_rights.specs.World.{Process as ProcessValue};
ghost use Rattle.zl_calls.specs.World.{held, packet_registers, process_entry, signal_registers, state_value, world_blocked};

use crate::process::{Process, Registers, State};
use crate::processes::Processes;
use crate::told::{Effect, Woke, WokeList};
use bitflags::Flags;
use zl_objects::{Awaited, Objects, Sleeper};
use zl_rights::{Koid, Pid};

/// The process becomes the last of the blocked, if it fell asleep.
pub fn add_blocked(blocked: &mut Vec<Pid>, pid: Pid, effect: Effect)
    requires room { length (if_asleep (is_asleep effect) pid blocked.old.items)
        ≤ vec_capacity blocked.old }
    ensures items { blocked.new.items ≡ if_asleep (is_asleep effect) pid blocked.old.items }
    ensures capacity { vec_capacity blocked.new ≡ vec_capacity blocked.old }
{
    if effect.is_asleep() {
        blocked.push_reserved(pid);
    }
}

/// The objects know what the process waits for, if it fell asleep. It takes no memory.
// Each call asks it, and few put their process to sleep.
#[inline(always)]
pub fn fall_asleep(processes: &Processes, objects: &mut Objects, pid: Pid, effect: Effect)
    ensures { FallsAsleep processes.now.list.items pid (is_asleep effect) objects.old objects.new }
{
    if !effect.is_asleep() {
        return;
    }
    if let Some(awaited) = awaited_by(processes, pid) {
        objects.sleep(pid, awaited);
    }
}

/// What the process waits for, if it is blocked.
fn awaited_by(processes: &Processes, pid: Pid) -> Option<Awaited>
    ensures { result ≡ awaited_found (get (map process_entry processes.now.list.items) pid) }
{
    let place = processes.place_of(pid)?;
    processes.list[place].awaited()
}

/// Each blocked process in turn, the longest blocked first: where what it waits for is there, it
/// gets its answer and leaves the list. It tells who did, looks at those alone that are listed at
/// touched objects, unless not all are listed, and takes no memory.
#[inline(always)]
pub fn wake(
    processes: &mut Processes,
    objects: &mut Objects,
    blocked: &mut Vec<Pid>,
    started: Option<Pid>,
) -> Woke
    requires consistent { IsConsistent processes.old.list.items objects.old }
    requires list { AreBlocked processes.old.list.items blocked.old.items }
    requires sought { AreSought processes.old.list.items objects.old }
    requires ordered { AreOrdered processes.old.list.items objects.old blocked.old.items }
    ensures turns { Wakes processes.old.list.items objects.old blocked.old.items started result
        processes.new.list.items objects.new blocked.new.items }
    ensures capacity { vec_capacity blocked.new ≡ vec_capacity blocked.old }
{
    if objects.is_crowded() {
        let woke = wake_each(processes, objects, blocked, started);
        objects.forget_sleepers();
        return woke;
    }
    wake_listed(processes, objects, blocked, started)
}

/// The same where all are listed: those that may wake are taken off the list one after another.
fn wake_listed(
    processes: &mut Processes,
    objects: &mut Objects,
    blocked: &mut Vec<Pid>,
    started: Option<Pid>,
) -> Woke
    requires consistent { IsConsistent processes.old.list.items objects.old }
    requires list { AreBlocked processes.old.list.items blocked.old.items }
    requires sought { AreSought processes.old.list.items objects.old }
    requires ordered { StandInOrder processes.old.list.items objects.old blocked.old.items }
    requires all { objects.old.crowded ≡ false }
    ensures turns { Wakes processes.old.list.items objects.old blocked.old.items started result
        processes.new.list.items objects.new blocked.new.items }
    ensures capacity { vec_capacity blocked.new ≡ vec_capacity blocked.old }
{
    let mut woken = WokeList::with(objects.lend_list(), started);
    while let Some(sleeper) = objects.take_due() {
        if wake_sleeper(processes, objects, &sleeper) {
            remove_pid(blocked, sleeper.pid);
            woken.note(sleeper.pid);
        }
    }
    woken.told(objects)
}

/// The process wakes, if it is blocked on what it was listed for, which is there; whether it did.
fn wake_sleeper(processes: &mut Processes, objects: &mut Objects, sleeper: &Sleeper) -> bool
    requires consistent { IsConsistent processes.old.list.items objects.old }
    requires counters { HaveCounters processes.old.list.items }
    requires due { IsTrue (is_due objects.old.objects sleeper.now.awaited) }
    ensures { WakesSleeper sleeper.now result
        processes.old.list.items objects.old processes.new.list.items objects.new }
{
    match awaited_by(processes, sleeper.pid) {
        Some(awaited) => {
            awaited.is_same(&sleeper.awaited) && wake_one(processes, objects, sleeper.pid)
        }
        None => false,
    }
}

/// The process leaves the list, in which it stands once.
fn remove_pid(blocked: &mut Vec<Pid>, pid: Pid)
    requires { length (filter (λ k. k == pid) blocked.old.items) ≤ 1 }
    ensures items { blocked.new.items ≡ filter (λ k. not (k == pid)) blocked.old.items }
    ensures capacity { vec_capacity blocked.new ≡ vec_capacity blocked.old }
{
    if let Some(place) = place_of(blocked, pid) {
        blocked.remove(place);
    }
}

/// Where the process stands in the list.
fn place_of(blocked: &[Pid], pid: Pid) -> Option<usize>
    ensures { result ≡ position (λ k. k == pid) blocked.now }
{
    blocked.iter().position(|other| *other == pid)
}

/// The same, where perhaps not all are listed: each has its turn.
fn wake_each(
    processes: &mut Processes,
    objects: &mut Objects,
    blocked: &mut Vec<Pid>,
    started: Option<Pid>,
) -> Woke
    requires consistent { IsConsistent processes.old.list.items objects.old }
    requires list { AreBlocked processes.old.list.items blocked.old.items }
    ensures wakes { world_blocked processes.new.list.items objects.new blocked.new.items
        ≡ fold woken (world_blocked processes.old.list.items objects.old blocked.old.items)
        blocked.old.items }
    ensures consistent { IsConsistent processes.new.list.items objects.new }
    ensures list { AreBlocked processes.new.list.items blocked.new.items }
    ensures held { map held processes.new.list.items ≡ map held processes.old.list.items }
    ensures capacity { vec_capacity blocked.new ≡ vec_capacity blocked.old }
    ensures asleep { KeepSleepers objects.old objects.new }
    ensures told { HaveLeft blocked.old.items started result blocked.new.items }
{
    let mut woken = WokeList::with(objects.lend_list(), started);
    let mut place = 0;
    while place < blocked.len() {
        let pid = blocked[place];
        if wake_one(processes, objects, pid) {
            blocked.remove(place);
            woken.note(pid);
        } else {
            place += 1;
        }
    }
    woken.told(objects)
}

/// One process, which is blocked; whether it woke.
fn wake_one(processes: &mut Processes, objects: &mut Objects, pid: Pid) -> bool
    requires consistent { IsConsistent processes.old.list.items objects.old }
    requires counter { (p : ProcessValue)
        → get (map process_entry processes.old.list.items) pid ≡ Some p
        → p.cpu.counter < 2 ^ 32 }
    ensures wakes { WakesOne pid result
        processes.old.list.items objects.old processes.new.list.items objects.new }
    ensures due { (a : AwaitedValue)
        → awaited_found (get (map process_entry processes.old.list.items) pid) ≡ Some a
        → result ≡ is_due objects.old.objects a }
    ensures asleep { KeepSleepers objects.old objects.new }
{
    match processes.place_of(pid) {
        Some(place) => wake_process(&mut processes.list[place], objects),
        None => false,
    }
}

/// The process becomes ready, if what it waits for is there; whether it did. A packet goes to it.
fn wake_process(process: &mut Process, objects: &mut Objects) -> bool
    requires { process.old.cpu.counter < 2 ^ 32 }
    ensures woke { result
        ≡ is_some (given_awake (state_value process.old.state) objects.old) }
    ensures process { process.new
        ≡ awake (given_awake (state_value process.old.state) objects.old) process.old }
    ensures objects { objects.new ≡ without_taken (state_value process.old.state) objects.old }
{
    match process.state {
        State::Blocked {
            awaited: Awaited::SignalOf { koid, mask },
            registers,
        } => wake_by_signal(process, objects, koid, mask, registers),
        State::Blocked {
            awaited: Awaited::PacketAt(port),
            registers,
        } => wake_by_packet(process, objects, port, registers),
        State::Created => false,
        State::Ready => false,
        State::Ended(_) => false,
        State::Gone => false,
    }
}

/// The process becomes ready, if a signal of the mask is active at the object; whether it did.
fn wake_by_signal(
    process: &mut Process,
    objects: &Objects,
    koid: Koid,
    mask: u64,
    registers: Registers,
) -> bool
    requires { process.old.cpu.counter < 2 ^ 32 }
    ensures woke { result ≡ meets (signals_at objects.now.objects koid) mask }
    ensures process { process.new ≡ awake_in (signal_registers registers)
        (seen_active (signals_at objects.now.objects koid) mask) process.old }
{
    let active = objects.signals_of(koid);
    if u64::from(active.bits()) & mask == 0 {
        return false;
    }
    process.answer_polled(registers, Ok(active));
    process.state = State::Ready;
    true
}

/// The process becomes ready, if there is a packet at the port, which it takes; whether it did.
fn wake_by_packet(
    process: &mut Process,
    objects: &mut Objects,
    port: Koid,
    registers: Registers,
) -> bool
    requires { process.old.cpu.counter < 2 ^ 32 }
    ensures woke { result ≡ is_some (slice_get (packets_found (get objects.old.objects port)) 0) }
    ensures process { process.new ≡ awake_in (packet_registers registers)
        (option_map packet_values (slice_get (packets_found (get objects.old.objects port)) 0))
        process.old }
    ensures objects { objects.new ≡ changing_port objects.old port without_front }
{
    let Some(packet) = objects.pop(port) else {
        return false;
    };
    process.answer_packet(registers, Ok(packet));
    process.state = State::Ready;
    true
}
