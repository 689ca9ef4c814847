//! A running world as a machine, whose turns are the lab's own steps up to the next call.

ghost use Rattle.std.specs.Prelude.{◌≡◌, ◌++◌, map, IfNone, IfOk, IfSome, OnOk};
ghost use Rattle.zl_code.specs.OwnHistory.{tells_want};
ghost use Rattle.zl_calls.specs.World.{is_ready_in, own_here};
ghost use Rattle.zl_explore.specs.Orders.{one_if, ready_in, told_in};
ghost use Rattle.zl_explore.specs.GoingAhead.{Takes, reduced, start_of};
ghost use Rattle.zl_explore.specs.Paths.{IsIn};
ghost use Rattle.zl_explore.specs.Private.{IsStill};
ghost use Rattle.zl_explore.specs.Sights.{AreSeen, IsClear, sights_in};
ghost use Rattle.zl_explore.specs.Running.{ready_of, rested_machine, told_at};

use crate::ahead::{begin, take_turn};
use crate::ends::{mixed, number_of, states_of};
use crate::fact::Fact;
use crate::machine::Machine;
use crate::sights::seen_at_once;
use std::alloc::{AllocError, Global};
use std::marker::Model;
use zl_calls::{Outcome, ProcState, TraceItem, World};
use zl_rights::{Pid, Status};

/// A running world. What its processes computed with that are over doesn't count.
#[derive(Drop)]
pub struct Running {
    alloc: Global,
    world: World,
}

impl Model for Running {
    ghost use Rattle.zl_calls.specs.World.{Machine as MachineValue, own_here};
    ghost use Rattle.zl_explore.specs.Private.{IsStill};
    ghost use Rattle.zl_explore.specs.Running.{rested_machine};

    ghost Value = { MachineValue };

    ghost view = { λ r. rested_machine r.world };

    ghost invariant = { λ r. IsStill (own_here r.world) };
}

impl Running {
    /// The world as a machine. It has to be as own steps and boots leave one.
    pub fn new(alloc: Global, world: World) -> Running
        requires { IsStill (own_here world) }
        ensures { result ≡ rested_machine world }
    {
        Running { alloc, world }
    }

    /// What each process is in, by koid. Only memory can be refused.
    pub fn states(&self) -> Result<Vec<(Pid, ProcState)>, AllocError>
        ensures { IfOk result (λ states. states.items ≡ told_in (own_here self.now)) }
    {
        states_of(self.alloc, &self.world)
    }

    /// The first of these lists of which each fact is so, at once.
    pub fn seen_at_once<'a>(&self, never: &'a [Vec<Fact>]) -> Option<&'a Vec<Fact>>
        ensures some { IfSome result (λ together. IsIn (map (λ one. one.items) never.now) together.now.items
            × AreSeen together.now.items (sights_in (own_here self.now))) }
        ensures none { IfNone result (IsClear (map (λ one. one.items) never.now)
            (sights_in (own_here self.now))) }
    {
        seen_at_once(never, &self.world)
    }

    /// The machine behind a turn of the process, up to the next call. Whose instructions these are comes
    /// behind the others that are given.
    /// What is told of its own instruction comes with it.
    pub fn take_turn(
        self,
        pid: Pid,
        taken: &mut Vec<Pid>,
    ) -> Result<(Running, Option<TraceItem>), AllocError>
        ensures next { IfOk result (λ behind. behind.0 ≡ reduced self pid) }
        ensures told { IfOk result (λ behind. behind.1 ≡ told_at self pid) }
        ensures taken { IfOk result (λ behind. Takes self taken.old.items taken.new.items behind.0) }
    {
        let Running { alloc, mut world } = self;
        let told = take_turn(alloc, &mut world, pid, taken)?;
        Ok((Running { alloc, world }, told))
    }

    /// The machine where all who are ready went ahead up to the next call.
    pub fn begin(self, taken: &mut Vec<Pid>) -> Result<Running, AllocError>
        ensures next { IfOk result (λ behind. behind ≡ start_of self) }
        ensures taken { IfOk result (Takes self taken.old.items taken.new.items) }
    {
        let Running { alloc, mut world } = self;
        begin(alloc, &mut world, taken)?;
        Ok(Running { alloc, world })
    }
}

impl Machine for Running {
    ghost ready = { ready_of };

    ghost next = { reduced };

    ghost tells = { told_at };

    fn ready(&self) -> Result<Vec<Pid>, AllocError> {
        ready_pids(self.alloc, &self.world)
    }

    fn copy(&self) -> Result<Running, AllocError> {
        Ok(Running {
            alloc: self.alloc,
            world: self.world.copy()?,
        })
    }

    fn turn(self, pid: Pid) -> Result<(Running, Option<TraceItem>), AllocError> {
        let mut taken = Vec::new(self.alloc);
        self.take_turn(pid, &mut taken)
    }

    fn is_same(&self, other: &Running) -> bool {
        if !self.world.is_same(&other.world) {
            return false;
        }
        self.world.programs().is_same(other.world.programs())
    }

    fn digest(&self) -> u64 {
        let mut digest = 0;
        for n in 0..self.world.process_count() {
            let Some(pid) = self.world.process_at(n) else {
                unreachable!()
            };
            digest = with_process(digest, &self.world, pid);
        }
        digest
    }
}

/// The digest with what a process is in, and with what it computes with if it isn't over.
fn with_process(digest: u64, world: &World, pid: Pid) -> u64 {
    let state = world.state_of(pid);
    let mut digest = mixed(digest, number_of(state));
    if matches!(state, ProcState::Ended(_) | ProcState::Gone) {
        return digest;
    }
    let Some(cpu) = world.cpu_of(pid) else {
        return digest;
    };
    digest = mixed(digest, cpu.counter() as u64);
    for register in cpu.registers() {
        digest = mixed(digest, *register);
    }
    digest
}

/// The processes that are ready, by koid.
pub fn ready_pids(alloc: Global, world: &World) -> Result<Vec<Pid>, AllocError>
    ensures { IfOk result (λ pids. pids.items ≡ ready_in (own_here world.now)) }
{
    let mut ready = Vec::new(alloc);
    for n in 0..world.process_count() {
        let Some(pid) = world.process_at(n) else {
            unreachable!()
        };
        push_if(&mut ready, is_ready(world, pid), pid)?;
    }
    Ok(ready)
}

/// Whether the process is there and ready.
pub fn is_ready(world: &World, pid: Pid) -> bool
    ensures { result ≡ is_ready_in world.now pid }
{
    matches!(world.state_of(pid), ProcState::Ready)
}

/// The process comes behind the others, if it is so.
pub fn push_if(ready: &mut Vec<Pid>, is_so: bool, pid: Pid) -> Result<(), AllocError>
    ensures { OnOk result (ready.new.items ≡ ready.old.items ++ one_if is_so pid) }
{
    if is_so {
        ready.push(pid)?;
    }
    Ok(())
}

/// Whether the item tells of a call that wanted memory.
pub fn wants_memory(item: &TraceItem) -> bool
    ensures { result ≡ tells_want item.now }
{
    match item {
        TraceItem::Call { outcome, .. } => matches!(outcome, Outcome::Answered(Status::NoMemory)),
        TraceItem::Run { .. } => false,
        TraceItem::Stuck { .. } => false,
    }
}
