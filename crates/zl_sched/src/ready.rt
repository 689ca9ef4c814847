//! The list of the processes that are ready, by their last step or when they became ready, and the marks
//! of those that are out.

ghost use Rattle.std.specs.Prelude.{ℕ, IfOk, IsTrue, ◌≡◌, ◌==◌, ◌≤◌, ◌+◌, ◌++◌, ◌∷◌, [], not, length, vec_capacity};
ghost use Rattle.std.specs.List.{filter, position};
ghost use Rattle.std.specs.Ordering.{nat_cmp};
ghost use Rattle.std.specs.FinMap.Entries.{is_sorted};
ghost use Rattle.zl_calls.specs.World.{is_ready_in};
ghost use Rattle.zl_sched.specs.Queueing.{AreJoining, IsTold, LeaveTold, joined_by, joining, joins, one_if, requeued, without_ended};
ghost use Rattle.zl_sched.specs.Ready.{is_in, others_of, ready_by_koid as are_ready_by_koid, still_ready, times_in};

use std::alloc::{AllocError, Global};
use zl_calls::{Killed, Told, Woke, WokeList, World};
use zl_code::ProcState;
use zl_objects::TaskList;
use zl_rights::{Koid, Pid};

/// Of more that were killed than so many not each is looked for in the list.
const FEW: usize = 64;

/// Whether the process is there and ready.
pub fn is_ready(world: &World, pid: Pid) -> bool
    ensures { result ≡ is_ready_in world.now pid }
{
    matches!(world.state_of(pid), ProcState::Ready)
}

/// Whether the process has a mark.
#[inline(always)]
pub fn is_out(out: &[Pid], pid: Pid) -> bool
    ensures { result ≡ is_in pid out.now }
{
    out.contains(&pid)
}

/// The process has no mark any more.
pub fn unmark(out: &mut Vec<Pid>, pid: Pid)
    ensures items { out.new.items ≡ others_of pid out.old.items }
{
    out.retain(|other| *other != pid);
}

/// The ready processes, by koid.
pub fn ready_by_koid(alloc: Global, world: &World) -> Result<Vec<Pid>, AllocError>
    ensures items { IfOk result (λ ready. ready.items ≡ are_ready_by_koid world.now.world) }
    ensures room { IfOk result (λ ready. length ready.items ≤ vec_capacity ready) }
{
    let mut ready = Vec::new(alloc);
    ready.reserve(world.process_count())?;
    for n in 0..world.process_count() {
        let Some(pid) = world.process_at(n) else {
            unreachable!()
        };
        push_if(&mut ready, is_ready(world, pid), pid);
    }
    Ok(ready)
}

/// The list after a step of a process in it that told this.
#[inline(always)]
pub fn move_on(ready: &mut Vec<Pid>, out: &[Pid], world: &mut World, pid: Pid, told: Told)
    requires told { IsTold world.old.world pid out.now ready.old.items told }
    requires once { length (filter (λ q. q == pid) ready.old.items) ≡ 1 }
    requires each_once { (k : ℕ) → times_in k ready.old.items ≤ 1 }
    requires room { length (requeued world.old.world pid out.now ready.old.items)
        ≤ vec_capacity ready.old }
    ensures items { ready.new.items ≡ requeued world.old.world pid out.now ready.old.items }
    ensures capacity { vec_capacity ready.new ≡ vec_capacity ready.old }
    ensures world { world.new ≡ world.old }
{
    match told {
        Told::Same => move_last(ready, pid),
        Told::Woke(woke) => {
            take_out(ready, pid);
            come(ready, out, world, pid, woke);
        }
        Told::Killed(killed) => go_fewer(ready, out, world, pid, killed),
    }
}

/// The same for a process that isn't in the list.
pub fn queue(ready: &mut Vec<Pid>, out: &[Pid], world: &mut World, pid: Pid, told: Told)
    requires told { IsTold world.old.world pid out.now ready.old.items told }
    requires apart { length (filter (λ q. q == pid) ready.old.items) ≡ 0 }
    requires each_once { (k : ℕ) → times_in k ready.old.items ≤ 1 }
    requires room { length (requeued world.old.world pid out.now ready.old.items)
        ≤ vec_capacity ready.old }
    ensures items { ready.new.items ≡ requeued world.old.world pid out.now ready.old.items }
    ensures capacity { vec_capacity ready.new ≡ vec_capacity ready.old }
    ensures world { world.new ≡ world.old }
{
    match told {
        Told::Same => ready.push_reserved(pid),
        Told::Woke(woke) => come(ready, out, world, pid, woke),
        Told::Killed(killed) => go_fewer(ready, out, world, pid, killed),
    }
}

/// The same behind a kill; the world gets the list of whom it may have killed back.
// Apart from the steps that change little, which are nearly all.
#[inline(never)]
fn go_fewer(ready: &mut Vec<Pid>, out: &[Pid], world: &mut World, pid: Pid, killed: Killed)
    requires told { LeaveTold world.old.world pid ready.old.items killed.tasks }
    requires joining { AreJoining world.old.world pid out.now
        (still_ready world.old.world pid ready.old.items) killed.woke }
    requires each_once { (k : ℕ) → times_in k ready.old.items ≤ 1 }
    requires room { length (requeued world.old.world pid out.now ready.old.items)
        ≤ vec_capacity ready.old }
    ensures items { ready.new.items ≡ requeued world.old.world pid out.now ready.old.items }
    ensures capacity { vec_capacity ready.new ≡ vec_capacity ready.old }
    ensures world { world.new ≡ world.old }
{
    let Killed { tasks, woke } = killed;
    leave(ready, world, pid, &tasks);
    come(ready, out, world, pid, woke);
    let none = Woke::Nobody;
    world.put_back(Told::Killed(Killed { tasks, woke: none }));
}

/// The process leaves its place in the list, and so do those that were killed. Where they are told, and
/// are few, just these are looked for.
fn leave(ready: &mut Vec<Pid>, world: &World, pid: Pid, killed: &TaskList)
    requires told { LeaveTold world.now.world pid ready.old.items killed.now }
    requires each_once { (k : ℕ) → times_in k ready.old.items ≤ 1 }
    ensures items { ready.new.items ≡ still_ready world.now.world pid ready.old.items }
    ensures capacity { vec_capacity ready.new ≡ vec_capacity ready.old }
{
    if !killed.whole || killed.koids.len() > FEW {
        keep_ready(ready, world, pid);
        return;
    }
    leave_one(ready, pid);
    leave_each(ready, world, killed.koids.as_slice());
}

/// Those of these that aren't ready leave the list.
fn leave_each(ready: &mut Vec<Pid>, world: &World, koids: &[Koid])
    requires { (k : ℕ) → times_in k ready.old.items ≤ 1 }
    ensures items { ready.new.items ≡ without_ended world.now.world koids.now ready.old.items }
    ensures capacity { vec_capacity ready.new ≡ vec_capacity ready.old }
{
    for koid in koids {
        if is_ready(world, *koid) {
            continue;
        }
        leave_one(ready, *koid);
    }
}

/// The process leaves the list, if it stands there.
fn leave_one(ready: &mut Vec<Pid>, pid: Pid)
    requires { times_in pid ready.old.items ≤ 1 }
    ensures items { ready.new.items ≡ others_of pid ready.old.items }
    ensures capacity { vec_capacity ready.new ≡ vec_capacity ready.old }
{
    let Some(place) = place_of(ready, pid) else {
        return;
    };
    ready.remove(place);
}

/// The process leaves its place in the list and goes last. Nothing is moved where it is the last.
fn move_last(ready: &mut Vec<Pid>, pid: Pid)
    requires once { length (filter (λ q. q == pid) ready.old.items) ≡ 1 }
    requires room { length ready.old.items ≤ vec_capacity ready.old }
    ensures items { ready.new.items
        ≡ filter (λ q. not (q == pid)) ready.old.items ++ pid ∷ [] }
    ensures capacity { vec_capacity ready.new ≡ vec_capacity ready.old }
{
    let len = ready.len();
    if len > 0 && ready[len - 1] == pid {
        return;
    }
    take_out(ready, pid);
    ready.push_reserved(pid);
}

/// The process leaves its place in the list, in which it stands once: the last one, as in turns one after
/// another, or else it is looked for.
fn take_out(ready: &mut Vec<Pid>, pid: Pid)
    requires { length (filter (λ q. q == pid) ready.old.items) ≡ 1 }
    ensures items { ready.new.items ≡ filter (λ q. not (q == pid)) ready.old.items }
    ensures capacity { vec_capacity ready.new ≡ vec_capacity ready.old }
{
    let len = ready.len();
    if len > 0 && ready[len - 1] == pid {
        ready.remove(len - 1);
        return;
    }
    let Some(place) = place_of(ready, pid) else {
        return;
    };
    ready.remove(place);
}

/// Where the process first stands in the list.
fn place_of(ready: &[Pid], pid: Pid) -> Option<usize>
    ensures { result ≡ position (λ q. q == pid) ready.now }
{
    ready.iter().position(|other| *other == pid)
}

/// Those that became ready come last, but for the process, and then the process, if it is ready.
fn come(ready: &mut Vec<Pid>, out: &[Pid], world: &mut World, pid: Pid, woke: Woke)
    requires told { AreJoining world.old.world pid out.now ready.old.items woke }
    requires room { length (joined_by world.old.world pid out.now ready.old.items)
        ≤ vec_capacity ready.old }
    ensures items { ready.new.items ≡ joined_by world.old.world pid out.now ready.old.items }
    ensures capacity { vec_capacity ready.new ≡ vec_capacity ready.old }
    ensures world { world.new ≡ world.old }
{
    join(ready, out, world, pid, woke);
    push_if(ready, is_ready(world, pid), pid);
}

/// Those that became ready come last, but for the process.
fn join(ready: &mut Vec<Pid>, out: &[Pid], world: &mut World, pid: Pid, woke: Woke)
    requires told { AreJoining world.old.world pid out.now ready.old.items woke }
    requires room { length (ready.old.items
        ++ joining world.old.world pid out.now ready.old.items) ≤ vec_capacity ready.old }
    ensures items { ready.new.items
        ≡ ready.old.items ++ joining world.old.world pid out.now ready.old.items }
    ensures capacity { vec_capacity ready.new ≡ vec_capacity ready.old }
    ensures world { world.new ≡ world.old }
{
    // Its clause has that processes stand in the order of their koids.
    world.process_at(0);
    match woke {
        Woke::Nobody => {}
        Woke::One(other) => push_if(ready, other != pid, other),
        Woke::Several(list) => join_several(ready, out, world, pid, list),
    }
}

/// The same of several, by koid; the world gets their list back.
// Apart from the steps that change little, which are nearly all.
#[inline(never)]
fn join_several(ready: &mut Vec<Pid>, out: &[Pid], world: &mut World, pid: Pid, mut list: WokeList)
    requires told { AreJoining world.old.world pid out.now ready.old.items (Woke.Several list) }
    requires in_order { IsTrue (is_sorted nat_cmp world.old.world.processes) }
    requires room { length (ready.old.items
        ++ joining world.old.world pid out.now ready.old.items) ≤ vec_capacity ready.old }
    ensures items { ready.new.items
        ≡ ready.old.items ++ joining world.old.world pid out.now ready.old.items }
    ensures capacity { vec_capacity ready.new ≡ vec_capacity ready.old }
    ensures world { world.new ≡ world.old }
{
    if !list.whole {
        join_all(ready, out, world, pid);
        give_back(world, list);
        return;
    }
    list.pids.sort_unstable();
    push_others(ready, list.pids.as_slice(), pid);
    give_back(world, list);
}

/// The world gets the list back.
fn give_back(world: &mut World, list: WokeList)
    ensures { world.new ≡ world.old }
{
    world.put_back(Told::Woke(Woke::Several(list)));
}

/// Each of these comes last, but for the process.
fn push_others(ready: &mut Vec<Pid>, pids: &[Pid], pid: Pid)
    requires room { length (ready.old.items ++ others_of pid pids.now) ≤ vec_capacity ready.old }
    ensures items { ready.new.items ≡ ready.old.items ++ others_of pid pids.now }
    ensures capacity { vec_capacity ready.new ≡ vec_capacity ready.old }
{
    for other in pids {
        push_if(ready, *other != pid, *other);
    }
}

/// Those that aren't ready leave the list, and the process its place.
fn keep_ready(ready: &mut Vec<Pid>, world: &World, pid: Pid)
    ensures items { ready.new.items ≡ still_ready world.now.world pid ready.old.items }
    ensures capacity { vec_capacity ready.new ≡ vec_capacity ready.old }
{
    ready.retain(|other| is_ready(world, *other) && *other != pid);
}

/// The ready processes that are neither in the list nor out come to it by koid, but for this one. It
/// looks at all, as it isn't known who became ready.
fn join_all(ready: &mut Vec<Pid>, out: &[Pid], world: &World, pid: Pid)
    requires room { length (ready.old.items
        ++ joining world.now.world pid out.now ready.old.items) ≤ vec_capacity ready.old }
    ensures items { ready.new.items
        ≡ ready.old.items ++ joining world.now.world pid out.now ready.old.items }
    ensures capacity { vec_capacity ready.new ≡ vec_capacity ready.old }
{
    let stayed = ready.len();
    for n in 0..world.process_count() {
        let Some(other) = world.process_at(n) else {
            unreachable!()
        };
        let joins = is_new(&ready[..stayed], out, world, pid, other);
        push_if(ready, joins, other);
    }
}

/// The process comes last, where that is so. There is a place for it.
fn push_if(ready: &mut Vec<Pid>, is_so: bool, pid: Pid)
    requires room { length ready.old.items + length (one_if is_so pid) ≤ vec_capacity ready.old }
    ensures items { ready.new.items ≡ ready.old.items ++ one_if is_so pid }
    ensures capacity { vec_capacity ready.new ≡ vec_capacity ready.old }
{
    if is_so {
        ready.push_reserved(pid);
    }
}

/// Whether the other process is ready, and neither this one nor out nor among those that stayed in the
/// list.
fn is_new(stayed: &[Pid], out: &[Pid], world: &World, pid: Pid, other: Pid) -> bool
    ensures { result ≡ joins world.now.world pid out.now stayed.now other }
{
    is_ready(world, other) && !stayed.contains(&other) && !is_out(out, other) && other != pid
}
