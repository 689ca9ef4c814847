//! A world with its trace, booted from statements and stepped along a schedule.
ghost use Rattle.std.specs.Prelude.{◌≡◌, ◌≢◌, ◌≤◌, ◌↔◌, [], false, IfOk, IfErr, OnOk, IsTrue, length, replicate, vec_capacity, if◌then◌else◌};
ghost use Rattle.zl_code.specs.declared.boot.BootCause.TheVariants.{NoMemory};
ghost use Rattle.zl_code.specs.Boot.{FirstFault};
ghost use Rattle.zl_calls.specs.Makes.{IsReached};
ghost use Rattle.zl_sched.specs.Follows.{turns_of};
ghost use Rattle.zl_sched.specs.Ready.{Listed, is_in};
ghost use Rattle.zl_sched.specs.System.{AreSafe, HasBooted, IsIdle, IsLegal, Turns, Walks, may_step, room_of};

use crate::ready::{is_out, is_ready, move_on, ready_by_koid};
use std::alloc::{AllocError, Global};
use std::marker::Model;
use zl_calls::World;
use zl_code::{Boot, BootCause, BootFault, TraceItem};
use zl_interp::Library;
use zl_rights::Pid;

/// How a step ends. All but `Ran` change nothing.
///
/// Source: own profile.
#[derive(Clone, Copy)]
pub enum Stepped {
    /// One instruction is done, and its item is added.
    Ran,
    /// The process isn't ready or is out, or there is none of this koid.
    NotReady,
    /// The trace is at its limit.
    Limit,
    /// Memory for the item, or for the list of ready processes, was refused.
    NoMemory,
}

/// How a run along a schedule ends, or one on threads.
///
/// Source: own profile.
#[derive(Clone, Copy)]
pub enum End {
    /// Every turn was taken.
    Schedule,
    /// The trace is at its limit before a turn of a ready process; on threads, it has less than two free
    /// places.
    Limit,
    /// Memory was refused.
    Memory,
    /// On threads alone: no process is ready.
    Quiet,
}

/// A world, the trace of the steps that led to it from the world that its statements boot, and the
/// processes that are ready or are out to go on by themselves.
///
/// Source: own profile; what a step is follows `World`.
#[derive(Drop)]
pub struct System {
    pub(crate) alloc: Global,
    pub(crate) world: World,
    pub(crate) items: Vec<TraceItem>,
    pub(crate) boot: Boot,
    // The ready processes that aren't out, by their last step or when they became ready. Each step makes
    // room for all processes that there are, so that one that comes back has its place.
    pub(crate) ready: Vec<Pid>,
    // The marks of those that are out.
    pub(crate) out: Vec<Pid>,
}

impl Model for System {
    ghost use Rattle.std.specs.Prelude.{◌≤◌, ◌+◌, length, vec_capacity};
    ghost use Rattle.zl_sched.specs.System.{System as SystemValue, IsWhole};

    ghost Value = { SystemValue };

    ghost view = { λ s. record {
      machine = s.world;
      items = s.items.items;
      statements = s.boot.statements.items;
      limit = s.boot.limit;
      ready = s.ready.items;
      out = s.out.items;
    } };

    ghost invariant = { λ s. IsWhole (record {
      machine = s.world;
      items = s.items.items;
      statements = s.boot.statements.items;
      limit = s.boot.limit;
      ready = s.ready.items;
      out = s.out.items;
    }) × (length s.ready.items + length s.out.items ≤ vec_capacity s.ready) };
}

impl System {
    /// The system before its first step, in the world that the statements of the boot make.
    ///
    /// The faults are those of `World::boot`, with the numbers that it gives them. `NoMemory` may come
    /// at any statement; what was handed in is then gone.
    pub fn boot(alloc: Global, library: Library, boot: Boot) -> Result<System, BootFault>
        ensures ok { IfOk result
            (HasBooted library boot.statements.items boot.limit) }
        ensures err { IfErr result (λ fault. fault.cause ≢ NoMemory
            → FirstFault library boot.statements.items boot.limit
            fault.statement fault.cause) }
        ensures reached { IfErr result (λ fault. fault.cause ≡ NoMemory
            → IsReached library boot.statements.items fault.statement) }
    {
        let world = World::boot(alloc, library, &boot)?;
        let mut items = Vec::new(alloc);
        // Room for the whole trace, so that it isn't moved as it grows. Where that is refused, each step
        // asks for its own.
        let _ = items.reserve(boot.limit as usize);
        let Ok(ready) = ready_by_koid(alloc, &world) else {
            return Err(BootFault {
                statement: 0,
                cause: BootCause::NoMemory,
            });
        };
        Ok(System {
            alloc,
            world,
            items,
            boot,
            ready,
            out: Vec::new(alloc),
        })
    }

    /// The world as it stands.
    pub fn world(&self) -> &World
        ensures { result.now ≡ self.now.machine }
    {
        &self.world
    }

    /// Whether no process is ready, and none is out.
    pub fn idle(&self) -> bool
        ensures idle { IsTrue result ↔ IsIdle self.now }
        // What is public of the list and the marks: callers learn it here of any system.
        ensures listed { Listed self.now.machine.world self.now.ready self.now.out }
    {
        self.ready.is_empty() && self.out.is_empty()
    }

    /// How many items there may still be.
    pub fn free(&self) -> u64
        ensures { result ≡ room_of self.now }
    {
        self.boot.limit - self.items.len() as u64
    }

    /// The world alone; the trace is gone.
    pub fn into_world(self) -> World
        ensures { result ≡ self.machine }
    {
        self.world
    }

    /// The trace: a legal history from a boot world to the world as it stands, with at most as many
    /// items as the boot's limit. It is the lab's own: from the lab's boot world on, each item is what the
    /// lab itself does next, or a call that wanted memory. In it no process of a program that is listed
    /// as checked is answered BAD_HANDLE, WRONG_TYPE or ACCESS_DENIED from its start on, stuck or ended by
    /// a policy, and each keeps its budget, until somebody kills it.
    pub fn items(&self) -> &[TraceItem]
        ensures items { result.now ≡ self.now.items }
        ensures legal { IsLegal self.now }
        ensures safe { AreSafe self.now }
    {
        // Its clause has that checked programs are as the verifier's acceptance says.
        self.world.programs().len();
        self.items.as_slice()
    }

    /// Lets the process do one instruction, and adds its item to the trace.
    ///
    /// `NotReady` comes for a process that isn't ready or is out, whatever else is so; else `Limit`
    /// where the trace is full, and `NoMemory` where room for the item or in the list of ready
    /// processes is refused. That it was refused no clause says.
    // A run along a schedule calls it for each turn.
    #[inline(always)]
    pub fn step(&mut self, pid: Pid) -> Stepped
        ensures { Turns self.old pid result self.new }
    {
        if is_out(&self.out, pid) {
            return Stepped::NotReady;
        }
        if self.items.len() as u64 >= self.boot.limit {
            return self.refused(pid, Stepped::Limit);
        }
        if self.items.reserve(1).is_err() {
            return self.refused(pid, Stepped::NoMemory);
        }
        if make_room(&mut self.ready, &self.world).is_err() {
            return self.refused(pid, Stepped::NoMemory);
        }
        let Some((item, told)) = self.world.step(pid) else {
            return Stepped::NotReady;
        };
        // First, so that nothing told is kept meanwhile: mostly it is that nothing changed.
        move_on(&mut self.ready, &self.out, &mut self.world, pid, told);
        self.items.push_reserved(item);
        Stepped::Ran
    }

    /// The answer to a turn that the trace has no room for, which a process that isn't ready doesn't
    /// need. The process isn't out.
    #[cold]
    #[inline(never)]
    fn refused(&self, pid: Pid, answer: Stepped) -> Stepped
        requires { is_in pid self.now.out ≡ false }
        ensures { result ≡ (if may_step self.now pid then answer else Stepped.NotReady) }
    {
        if is_ready(&self.world, pid) {
            answer
        } else {
            Stepped::NotReady
        }
    }

    /// So many turns of the process; those that find it not ready are skipped. The first of these may
    /// end it, as a process that isn't ready stays so while no other takes a turn.
    fn step_turns(&mut self, pid: Pid, count: u32) -> End
        ensures { self.old.out ≡ [] → Walks self.old (replicate count pid) result self.new }
    {
        for turn in 0..count {
            match self.step(pid) {
                Stepped::Ran => {}
                Stepped::NotReady => return End::Schedule,
                Stepped::Limit => return End::Limit,
                Stepped::NoMemory => return End::Memory,
            }
        }
        End::Schedule
    }

    /// The turns of the schedule, one pair after another, up to the end that comes first: `Schedule`
    /// after the last, else `Limit` or `Memory` before a turn of a ready process that has no room. A
    /// turn of a process that isn't ready is skipped, and so is one of a process that is out: what the
    /// clause says is of a system where none is.
    pub fn step_all(&mut self, schedule: &[(Pid, u32)]) -> End
        ensures { self.old.out ≡ [] → Walks self.old (turns_of schedule.now) result self.new }
    {
        for pair in schedule {
            match self.step_turns(pair.0, pair.1) {
                End::Schedule => {}
                end => return end,
            }
        }
        End::Schedule
    }
}

/// Room in the list for each process that there is.
pub(crate) fn make_room(ready: &mut Vec<Pid>, world: &World) -> Result<(), AllocError>
    ensures room { OnOk result (length world.now.world.processes ≤ vec_capacity ready.new) }
    ensures items { ready.new.items ≡ ready.old.items }
    ensures capacity { vec_capacity ready.old ≤ vec_capacity ready.new }
{
    ready.reserve(world.process_count())
}
