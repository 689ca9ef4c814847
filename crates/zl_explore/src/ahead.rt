//! Turns of a running world up to the next call.

ghost use Rattle.std.specs.Prelude.{◌≡◌, ◌++◌, replicate, IfOk, OnOk};
ghost use Rattle.zl_calls.specs.World.{own_here};
ghost use Rattle.zl_explore.specs.GoingAhead.{Takes, ahead, ahead_all, going, reduced, start_of};
ghost use Rattle.zl_explore.specs.Private.{IsStill};
ghost use Rattle.zl_explore.specs.Running.{rested_machine, told_at, turned};

use crate::running::{is_ready, push_if, ready_pids, wants_memory};
use std::alloc::{AllocError, Global};
use zl_calls::{TraceItem, World};
use zl_interp::burst;
use zl_rights::Pid;

/// How many local instructions a process goes ahead by at most.
const MOST: u32 = 10_000;

/// Takes a turn of the process: its own step, behind which it goes ahead by its local instructions, and
/// so do those that became ready. Whose instructions these are comes behind the others that are given.
/// Answers what is told of the own step. Where memory is refused, or a call wanted it, the world is any.
pub fn take_turn(
    alloc: Global,
    world: &mut World,
    pid: Pid,
    taken: &mut Vec<Pid>,
) -> Result<Option<TraceItem>, AllocError>
    requires { IsStill (own_here world.old) }
    ensures still { OnOk result (IsStill (own_here world.new)) }
    ensures next { OnOk result (rested_machine world.new ≡ reduced (rested_machine world.old) pid) }
    ensures told { IfOk result (λ told. told ≡ told_at (rested_machine world.old) pid) }
    ensures taken { OnOk result (Takes (rested_machine world.old) taken.old.items taken.new.items
        (rested_machine world.new)) }
{
    let before = ready_pids(alloc, world)?;
    let told = step(world, pid, taken)?;
    let behind = ready_pids(alloc, world)?;
    let going = going(alloc, &before, &behind, pid)?;
    all_go_ahead(world, &going, taken)?;
    Ok(told)
}

/// All who are ready go ahead. Where memory is refused, the world is any.
pub fn begin(alloc: Global, world: &mut World, taken: &mut Vec<Pid>) -> Result<(), AllocError>
    requires { IsStill (own_here world.old) }
    ensures still { OnOk result (IsStill (own_here world.new)) }
    ensures next { OnOk result (rested_machine world.new ≡ start_of (rested_machine world.old)) }
    ensures taken { OnOk result (Takes (rested_machine world.old) taken.old.items taken.new.items
        (rested_machine world.new)) }
{
    let ready = ready_pids(alloc, world)?;
    all_go_ahead(world, &ready, taken)?;
    Ok(())
}

/// Does the own step of the process, if it has one, and answers what is told of it.
fn step(world: &mut World, pid: Pid, taken: &mut Vec<Pid>) -> Result<Option<TraceItem>, AllocError>
    requires { IsStill (own_here world.old) }
    ensures still { OnOk result (IsStill (own_here world.new)) }
    ensures next { OnOk result (rested_machine world.new ≡ turned (rested_machine world.old) pid) }
    ensures told { IfOk result (λ told. told ≡ told_at (rested_machine world.old) pid) }
    ensures taken { OnOk result (Takes (rested_machine world.old) taken.old.items taken.new.items
        (rested_machine world.new)) }
{
    let Some((item, told)) = world.step(pid) else {
        return Ok(None);
    };
    world.put_back(told);
    if wants_memory(&item) {
        return Err(AllocError);
    }
    taken.push(pid)?;
    Ok(Some(item))
}

/// Of those who are ready behind a turn of the process, itself and who wasn't ready before.
fn going(alloc: Global, before: &[Pid], behind: &[Pid], pid: Pid) -> Result<Vec<Pid>, AllocError>
    ensures { IfOk result (λ who. who.items ≡ going before.now pid behind.now) }
{
    let mut who = Vec::new(alloc);
    for other in behind {
        push_if(&mut who, *other == pid || !before.contains(other), *other)?;
    }
    Ok(who)
}

/// These go ahead, one after another.
fn all_go_ahead(world: &mut World, pids: &[Pid], taken: &mut Vec<Pid>) -> Result<(), AllocError>
    requires { IsStill (own_here world.old) }
    ensures still { OnOk result (IsStill (own_here world.new)) }
    ensures next { OnOk result (rested_machine world.new
        ≡ ahead_all (rested_machine world.old) pids.now) }
    ensures taken { OnOk result (Takes (rested_machine world.old) taken.old.items taken.new.items
        (rested_machine world.new)) }
{
    for pid in pids {
        go_ahead(world, *pid, taken)?;
    }
    Ok(())
}

/// The process goes ahead by its local instructions, up to the next call or to where it is stuck.
fn go_ahead(world: &mut World, pid: Pid, taken: &mut Vec<Pid>) -> Result<(), AllocError>
    requires { IsStill (own_here world.old) }
    ensures still { OnOk result (IsStill (own_here world.new)) }
    ensures next { OnOk result (rested_machine world.new ≡ ahead (rested_machine world.old) pid) }
    ensures taken { OnOk result (Takes (rested_machine world.old) taken.old.items taken.new.items
        (rested_machine world.new)) }
{
    if !is_ready(world, pid) {
        return Ok(());
    }
    let turn = world.turn(pid, &mut None)?;
    let done = burst(turn, MOST);
    push_times(taken, pid, done.ran())?;
    let _ = world.advance(done);
    Ok(())
}

/// The process comes so many times behind the others.
fn push_times(taken: &mut Vec<Pid>, pid: Pid, count: u32) -> Result<(), AllocError>
    ensures { OnOk result (taken.new.items ≡ taken.old.items ++ replicate count pid) }
{
    for _ in 0..count {
        taken.push(pid)?;
    }
    Ok(())
}
