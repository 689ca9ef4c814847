ghost use Rattle.std.specs.Prelude.{length, ◌≡◌, ◌≢◌, ◌≤◌, ◌↔◌, false, IsSome, IsTrue, IfSome, IfNone, IfOk, OnOk, IfErr, None, slice_get, map};
ghost use Rattle.std.specs.Ordering.{nat_cmp};
ghost use Rattle.std.specs.FinMap.Entries.{is_sorted};
ghost use Rattle.std.specs.Option.{option_map};
ghost use Rattle.zl_rights.specs.Map.{get};
ghost use Rattle.zl_rights.specs.Numbers.{bits};
ghost use Rattle.zl_code.specs.declared.boot.BootCause.TheVariants.{NoMemory};
ghost use Rattle.zl_code.specs.Boot.{IsBoot, FirstFault, MOST_ITEMS};
ghost use Rattle.zl_code.specs.OwnBoot.{own_boot};
ghost use Rattle.zl_code.specs.Headline.{IsSizedBoot};
ghost use Rattle.zl_code.specs.Sound.{IsSound};
ghost use Rattle.zl_code.specs.Starting.{program_of};
ghost use Rattle.zl_code.specs.Steps.{Runs};
ghost use Rattle.zl_calls.specs.World.{call_for, has_in, state_in, is_ready_in, own_here};
ghost use Rattle.zl_calls.specs.Sights.{has_queued_in, kind_there};
ghost use Rattle.zl_calls.specs.Makes.{IsReached};
ghost use Rattle.zl_calls.specs.Steps.{Performs, StepsTo, local_item, takes_memory};
ghost use Rattle.zl_calls.specs.Own.{StepsOwn};
ghost use Rattle.zl_calls.specs.Turns.{Fits, IsTurn, advanced, steps_done};
ghost use Rattle.zl_calls.specs.Rested.{own_rested};
ghost use Rattle.zl_calls.specs.Started.{StepsAndTells};
ghost use Rattle.zl_calls.specs.Killed.{TellsKilled};
ghost use Rattle.zl_calls.specs.Told.{killed_of, woke_of, FitsItem};

use crate::boot::{Made, booted};
use crate::comparing::are_same_processes;
use crate::parts::Parts;
use crate::processes::Processes;
use crate::step::taken::Taken;
use crate::step::{is_local, next_name};
use crate::told::{Killed, Told, Woke, effect_of};
use crate::waits::fire_waits;
use crate::waking::{add_blocked, fall_asleep, wake};
use std::alloc::{AllocError, Global};
use std::marker::Model;
use zl_code::{Boot, BootCause, BootFault, CallName, Image, Outcome, ProcState, TraceItem};
use zl_interp::{Cpu, Done, Library, Spent, Turn};
use zl_objects::Objects;
use zl_rights::{Kind, Koid, Pid, Rights, Status};

/// The running world: its programs, every process ever made, and the objects.
///
/// Source: the page "Kernel objects" of the Fuchsia documentation; programs, boot, local
/// instructions and which koid is given next are own profile.
#[derive(Drop)]
pub struct World {
    alloc: Global,
    library: Library,
    parts: Parts,
}

impl Model for World {
    ghost use Rattle.std.specs.Prelude.{map, vec_capacity};
    ghost use Rattle.zl_calls.specs.World.{Machine};

    ghost Value = { Machine };

    ghost use Rattle.zl_calls.specs.World.{free_entry};
    ghost use Rattle.zl_calls.specs.Calling.{world_in};
    ghost use Rattle.zl_calls.specs.Blocked.{IsWhole};

    ghost view = { λ w. record {
      programs = w.library;
      world = world_in w.parts;
      free = map free_entry w.parts.processes.list.items;
    } };

    ghost invariant = { λ w.
        IsWhole w.library w.parts.processes.list.items w.parts.objects w.parts.blocked.items
        (vec_capacity w.parts.blocked) };
}

/// What a process did that wasn't at a call.
///
/// Source: own profile.
#[derive(Clone, Copy, PartialEq, Eq, Debug)]
pub enum Local {
    /// One local instruction.
    Ran,
    /// Nothing, as its next instruction can't be done; it ended.
    Stuck,
}

impl World {
    /// The world that the statements of a boot make, in their order.
    ///
    /// The fault names the first statement that can't be done: `Unknown` where it names no job, no
    /// program or, for a handle, no object; else `BadHandleList` for an eighth handle, for rights
    /// that a new object of the kind doesn't give, or for other handles than a checked program
    /// declares: one for each, in order, of its kind and with its rights at least; else
    /// `NeedDenied` where the policy of the job doesn't allow what a checked program needs; else
    /// `BadState` for the policy of a job in which a job or a process lives; else `Conflict` for an
    /// action where another is set; else `Limit` for the 65th process, for the 17th level of jobs,
    /// or where fewer koids up to 1,024 are left than the statement takes, two for a channel or an
    /// event pair, none for a policy and one for any other. A limit of the trace above
    /// `Boot::MOST_ITEMS` is `Limit` of a statement one past the last. `NoMemory` may come at any
    /// statement, and for the root job and the room for blocked processes as of statement 0, which
    /// need not be there. The handles of each process get the values 1, 2, ..
    pub fn boot(alloc: Global, library: Library, boot: &Boot) -> Result<World, BootFault>
        ensures ok { IfOk result (λ world. IsBoot library boot.now.statements.items world.world) }
        ensures sized { IfOk result
            (λ world. IsSizedBoot library boot.now.statements.items world.world) }
        ensures own { IfOk result
            (λ world. own_here world ≡ own_boot library boot.now.statements.items) }
        ensures programs { IfOk result (λ world. world.programs ≡ library) }
        ensures limit { OnOk result (boot.now.limit ≤ MOST_ITEMS) }
        ensures err { IfErr result (λ fault. fault.cause ≢ NoMemory
            → FirstFault library boot.now.statements.items boot.now.limit
            fault.statement fault.cause) }
        ensures reached { IfErr result (λ fault. fault.cause ≡ NoMemory
            → IsReached library boot.now.statements.items fault.statement) }
    {
        let Made { processes, objects } = booted(alloc, &library, boot)?;
        let Ok(blocked) = Vec::with_capacity(alloc, processes.len()) else {
            return Err(BootFault {
                statement: 0,
                cause: BootCause::NoMemory,
            });
        };
        // Its clause has that the images are in their ranges.
        library.len();
        Ok(World {
            alloc,
            library,
            parts: Parts {
                processes: Processes {
                    list: processes,
                    unstarted: Vec::new(alloc),
                    near: 0,
                },
                objects,
                blocked,
                taken: Taken::none(alloc),
            },
        })
    }

    /// Another world like this one, of the same programs: it goes on as this one does. Only memory can
    /// be refused.
    ///
    /// Source: own profile.
    pub fn copy(&self) -> Result<World, AllocError>
        ensures { IfOk result (λ world. world ≡ self.now) }
    {
        Ok(World {
            alloc: self.alloc,
            library: self.library.copy(self.alloc)?,
            parts: self.parts.copy(self.alloc)?,
        })
    }

    /// Whether the other world is the same for what comes: each process, with the values that its new
    /// handles get, the objects, the registered waits, and who is blocked. What a process computed with
    /// that is over doesn't count, and of which programs the worlds are isn't asked.
    ///
    /// Source: own profile.
    pub fn is_same(&self, other: &World) -> bool
        ensures { IsTrue result
            ↔ own_rested (own_here self.now) ≡ own_rested (own_here other.now) }
    {
        if self.parts.blocked.as_slice() != other.parts.blocked.as_slice() {
            return false;
        }
        if !are_same_processes(&self.parts.processes.list, &other.parts.processes.list) {
            return false;
        }
        self.parts.objects.is_same(&other.parts.objects)
    }

    /// Does nothing: callers learn here what is true of every running world.
    #[inline(always)]
    pub fn soundness(&self)
        ensures { IsSound self.now.world }
    {
        let _ = &self.library;
    }

    /// The programs that its processes may run.
    pub fn programs(&self) -> &Library
        ensures { result.now ≡ self.now.programs }
    {
        &self.library
    }

    /// How many processes were ever made.
    pub fn process_count(&self) -> usize
        ensures { result ≡ length self.now.world.processes }
    {
        self.parts.processes.list.len()
    }

    /// How many processes are blocked.
    pub fn blocked_count(&self) -> usize
        ensures { result ≡ length self.now.world.blocked }
    {
        self.parts.blocked.len()
    }

    /// The koid of the n-th process ever made, from 0.
    pub fn process_at(&self, n: usize) -> Option<Pid>
        ensures koid { result ≡ slice_get (map (λ p. p.0) self.now.world.processes) n }
        ensures in_order { IsTrue (is_sorted nat_cmp self.now.world.processes) }
    {
        Some(self.parts.processes.list.get(n)?.pid)
    }

    /// What the process is in; a number that was never a process is gone.
    pub fn state_of(&self, pid: Pid) -> ProcState
        ensures { result ≡ state_in self.now pid }
    {
        match self.parts.processes.place_of(pid) {
            Some(place) => self.parts.processes.list[place].state(),
            None => ProcState::Gone,
        }
    }

    /// What the process computes with; nothing for a number that was never a process. One that ended
    /// has it as it was then.
    pub fn cpu_of(&self, pid: Pid) -> Option<&Cpu>
        ensures { option_map (λ cpu. cpu.now) result
            ≡ option_map (λ p. p.cpu) (get self.now.world.processes pid) }
    {
        let place = self.parts.processes.place_of(pid)?;
        Some(&self.parts.processes.list[place].cpu)
    }

    /// Whether the process has a handle to the object with these rights at least, whatever it is
    /// in; a number that was never a process has none. It takes no memory.
    ///
    /// Source: own profile.
    pub fn has(&self, pid: Pid, koid: Koid, rights: Rights) -> bool
        ensures { result ≡ has_in self.now.world pid koid (bits rights) }
    {
        let Some(place) = self.parts.processes.place_of(pid) else {
            return false;
        };
        let process = &self.parts.processes.list[place];
        process.table.has_named(koid, rights)
    }

    /// Whether a handle in a message that is queued names the object with these rights at least. It
    /// takes no memory.
    ///
    /// Source: own profile.
    pub fn has_queued(&self, koid: Koid, rights: Rights) -> bool
        ensures { result ≡ has_queued_in self.now.world koid (bits rights) }
    {
        self.parts.objects.has_queued(koid, rights)
    }

    /// The kind of the object; nothing where none of this koid is there.
    pub fn kind_of(&self, koid: Koid) -> Option<Kind>
        ensures { result ≡ kind_there self.now.world koid }
    {
        self.parts.objects.kind_of(koid)
    }

    /// The image that the process runs; nothing for a number that was never a process.
    pub fn image_of(&self, pid: Pid) -> Option<&Image>
        ensures { option_map (λ image. image.now) result
            ≡ option_map (λ program. program.image)
            (program_of self.now.programs self.now.world pid) }
    {
        let place = self.parts.processes.place_of(pid)?;
        let program = self.library.get(self.parts.processes.list[place].program)?;
        Some(program.image())
    }

    /// The call at which the process is, if it is ready and at one.
    pub fn call_at(&self, pid: Pid) -> Option<CallName>
        ensures { result ≡ call_for self.now pid }
    {
        let place = self.parts.processes.place_of(pid)?;
        let process = &self.parts.processes.list[place];
        if process.is_ready() {
            next_name(&self.library, process)
        } else {
            None
        }
    }

    /// Does the next instruction of the process, if the process is ready: the system call at which it
    /// is, as `perform` does, or a local one, as `local` does. Behind a call registered waits end with
    /// their handles, those that hold fire in the order of registration, and blocked processes wake in
    /// the order in which they blocked; behind a local instruction, and where nothing waits at an
    /// object that the call touched, there are none. It tells the item of the step, and what it changed of
    /// who is ready: whom it started by a `process_start` that is answered OK, and who woke; whether the
    /// process may have fallen asleep or ended; and behind a kill, whom that may have killed.
    ///
    /// It is the step that the lab itself does, so each new handle gets the value that comes next; but
    /// not where memory was wanted.
    ///
    /// Nothing where the process isn't ready, or there is none of this koid.
    /// Source: that of `perform` and `local`.
    // A run along a schedule calls it for each turn.
    #[inline(always)]
    pub fn step(&mut self, pid: Pid) -> Option<(TraceItem, Told)>
        ensures ran { IfSome result
            (λ did. StepsAndTells self.old pid self.new did.0 (woke_of did.1)) }
        ensures killed { IfSome result (λ did. TellsKilled self.old.programs self.old.world pid
            (killed_of did.1)) }
        ensures told { IfSome result (λ did. FitsItem did.0 did.1) }
        ensures own { IfSome result (λ did. StepsOwn self.old.programs (own_here self.old) pid
            did.0 (own_here self.new)) }
        ensures not_ready { IfNone result (is_ready_in self.old pid ≡ false) }
        ensures unchanged { IfNone result (self.new ≡ self.old) }
    {
        let item = self.parts.act(self.alloc, &self.library, pid)?;
        if is_local(&item) {
            return Some((item, Told::Same));
        }
        let effect = effect_of(&item);
        add_blocked(&mut self.parts.blocked, pid, effect);
        fall_asleep(&self.parts.processes, &mut self.parts.objects, pid, effect);
        let started = effect.started(self.parts.taken.started);
        if self.parts.objects.is_quiet() {
            let woke = Woke::of(started);
            let told = Told::of(effect, woke, &mut self.parts.taken);
            return Some((item, told));
        }
        fire_waits(&self.parts.processes, &mut self.parts.objects);
        let woke = wake(
            &mut self.parts.processes,
            &mut self.parts.objects,
            &mut self.parts.blocked,
            started,
        );
        self.parts.objects.calm();
        let told = Told::of(effect, woke, &mut self.parts.taken);
        Some((item, told))
    }

    /// Keeps the room of the lists in what a step told for the next ones.
    #[inline(always)]
    pub fn put_back(&mut self, told: Told)
        ensures { self.new ≡ self.old }
    {
        match told {
            Told::Same => {}
            Told::Woke(woke) => self.keep_room(woke),
            Told::Killed(killed) => {
                let Killed { tasks, woke } = killed;
                self.parts.objects.return_told(tasks);
                self.keep_room(woke);
            }
        }
    }

    /// Keeps the room of the list, if there is one.
    fn keep_room(&mut self, woke: Woke)
        ensures { self.new ≡ self.old }
    {
        if let Woke::Several(list) = woke {
            self.parts.objects.return_list(list.pids);
        }
    }

    /// Does the system call at which the process is, with all that follows from it.
    ///
    /// The process has to be ready and at a call. Its job's policy may keep it from making an object,
    /// or end it. It takes no memory at `close`, `replace`, `signal`, `signal_peer`, `wait_one`,
    /// `wait_poll`, `port_wait`, `port_poll`, `port_cancel`, `process_exit`, `task_kill`,
    /// `job_set_policy` and `handle_info`; a call that was refused memory is answered `NoMemory`. Waits
    /// that fire or end, processes that block, wake or are killed, and policies take none.
    /// Source: for each call its page of the Fuchsia documentation, as "zx_handle_close"; the order
    /// in which answers are looked for is own profile.
    pub fn perform(&mut self, pid: Pid) -> Outcome
        requires { IsSome (call_for self.old pid) }
        ensures steps { Performs self.old pid result self.new }
        ensures no_memory { result ≡ Outcome.Answered Status.NoMemory
            → IfSome (call_for self.old pid) (λ call. IsTrue (takes_memory call)) }
    {
        let Some((item, told)) = self.step(pid) else {
            unreachable!()
        };
        self.put_back(told);
        match item {
            TraceItem::Call { outcome, .. } => outcome,
            TraceItem::Run { .. } => unreachable!(),
            TraceItem::Stuck { .. } => unreachable!(),
        }
    }

    /// Does the local instruction at which the process is. Where it can't be done, the process ends
    /// with -1028.
    ///
    /// The process has to be ready and not at a call. It takes no memory.
    pub fn local(&mut self, pid: Pid) -> Local
        requires ready { IsTrue (is_ready_in self.old pid) }
        requires no_call { call_for self.old pid ≡ None }
        ensures { StepsTo self.old (local_item pid result) self.new }
    {
        let Some((item, told)) = self.step(pid) else {
            unreachable!()
        };
        self.put_back(told);
        match item {
            TraceItem::Run { .. } => Local::Ran,
            TraceItem::Stuck { .. } => Local::Stuck,
            TraceItem::Call { .. } => unreachable!(),
        }
    }

    /// Looks for the process, which is found at once then until another is looked for. Nothing that is
    /// seen changes.
    pub fn find(&mut self, pid: Pid)
        ensures { self.new ≡ self.old }
    {
        self.parts.processes.find(pid);
    }

    /// What the process goes on with by itself: its program, and its Cpu as it stands.
    ///
    /// The process has to be ready. Where something is left of another turn, that is used up. Only memory
    /// can be refused.
    pub fn turn(&self, pid: Pid, spare: &mut Option<Spent>) -> Result<Turn, AllocError>
        requires { IsTrue (is_ready_in self.now pid) }
        ensures { IfOk result (IsTurn self.now pid) }
    {
        let Some(place) = self.parts.processes.place_of(pid) else {
            unreachable!()
        };
        let process = &self.parts.processes.list[place];
        let Some(program) = self.library.shared(process.program) else {
            unreachable!()
        };
        Turn::new(self.alloc, pid, program, &process.cpu, spare)
    }

    /// Whether its process stands here with the Cpu with which it began, the same field by field, and
    /// with a program of its version and of as many instructions as it has places, which has those in
    /// the filled ones. It takes no memory.
    pub fn fits(&self, done: &Done) -> bool
        ensures { IsTrue result ↔ Fits self.now done.now }
    {
        let Some(place) = self.parts.processes.place_of(done.pid()) else {
            return false;
        };
        let process = &self.parts.processes.list[place];
        let Some(program) = self.library.get(process.program) else {
            return false;
        };
        if !process.cpu.is_same(done.from()) {
            return false;
        }
        done.agrees(program.image())
    }

    /// The local instructions that were done become steps of the world, one after another: the process
    /// gets the Cpu with which they ended.
    ///
    /// What was done has to fit, and its process has to be ready. It takes no memory, and lets go of
    /// none: what is left of the turn comes back.
    pub fn advance(&mut self, done: Done) -> Spent
        requires ready { IsTrue (is_ready_in self.old done.pid) }
        requires fits { Fits self.old done }
        ensures cpu { self.new ≡ advanced self.old done }
        ensures steps { Runs self.old.programs self.old.world (steps_done done) self.new.world }
    {
        // Its clause has that these instructions follow one another.
        done.ran();
        let Some(place) = self.parts.processes.place_of(done.pid()) else {
            unreachable!()
        };
        let process = &mut self.parts.processes.list[place];
        done.move_to(&mut process.cpu)
    }
}
