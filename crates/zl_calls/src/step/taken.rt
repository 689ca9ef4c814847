//! What is noted of a call before it is done: the handles that it takes out of its caller's table, with
//! which registered waits end, and the process that it is to start.

ghost use Rattle.std.specs.Prelude.{ℕ, ◌≡◌, IsTrue, map, slice_index};
ghost use Rattle.std.specs.List.{All};
ghost use Rattle.zl_rights.specs.Map.{get};
ghost use Rattle.zl_code.specs.Request.{site_of};
ghost use Rattle.zl_code.specs.Tests.{koid_in};
ghost use Rattle.zl_code.specs.Local.{reg};
ghost use Rattle.zl_objects.specs.Seen.{object_entry};
ghost use Rattle.zl_calls.specs.Killed.{ListsTask, is_kill};
ghost use Rattle.zl_calls.specs.Started.{is_start};
ghost use Rattle.zl_calls.specs.Taken.{IsNoted, NotesFor, has_noted};

use crate::calls::channel::writing::sent_places;
use crate::calls::handle::live_at;
use crate::process::Process;
use smallvec::SmallVec;
use std::alloc::Global;
use zl_code::{CallInstr, CallName};
use zl_objects::{Objects, TaskList};
use zl_rights::{HValue, Koid, Pid};
use zl_table::Table;

/// A handle of the caller: its value, and the object that it names.
#[derive(Clone, Copy, Default)]
pub struct TakenHandle {
    pub value: HValue,
    pub koid: Koid,
}

/// Handles of the caller, of the last call behind which they were asked for. There is room for as
/// many as a call can list in registers; those in places may be more, and where there is no memory for
/// one more, each counts as noted. Beside them the process that the last `process_start` named, or 0, and
/// whom the last `task_kill` may kill.
#[derive(Drop)]
pub struct Taken {
    pub handles: SmallVec<TakenHandle, 8>,
    pub all: bool,
    pub started: Pid,
    pub killed: TaskList,
}

impl Taken {
    /// No handle.
    pub fn none(alloc: Global) -> Taken {
        Taken {
            handles: SmallVec::new(alloc),
            all: false,
            started: 0,
            killed: TaskList {
                koids: Vec::new(alloc),
                whole: false,
            },
        }
    }

    /// Notes the task that the kill names, with what stands below it, of the process at which it stands.
    /// It takes no memory.
    pub fn note_task(&mut self, process: &Process, objects: &mut Objects, call: &CallInstr)
        ensures noted { ListsTask (map object_entry objects.old.objects)
            (koid_in (get process.now.table.entries
            (reg process.now.cpu (slice_index call.now.registers 1)))) self.new.killed }
        ensures rest { self.new ≡ record self.old { killed = self.new.killed } }
        ensures unchanged { objects.new ≡ objects.old }
    {
        self.killed = objects.list_told(named_by(process, call));
    }

    /// Whom the last kill may have killed, who is then not noted any more.
    pub fn take_killed(&mut self) -> TaskList
        ensures { result ≡ self.old.killed }
    {
        let none = TaskList {
            koids: Vec::new(*self.killed.koids.allocator()),
            whole: false,
        };
        std::mem::replace(&mut self.killed, none)
    }

    /// Notes the process that the start names, of the process at which it stands; 0 where the handle
    /// isn't live.
    pub fn note_child(&mut self, process: &Process, call: &CallInstr)
        ensures { self.new ≡ record self.old {
          started = koid_in (get process.now.table.entries
              (reg process.now.cpu (slice_index call.now.registers 1)));
        } }
    {
        self.started = named_by(process, call);
    }

    /// Notes those that the call takes, of the process at which it stands, in place of what is
    /// noted.
    pub fn note_call(&mut self, process: &Process, call: &CallInstr)
        ensures { NotesFor (site_of call.now process.now.cpu) process.now.table.entries self.new }
    {
        self.handles.clear();
        self.all = false;
        let [_, second, third, ..] = call.registers;
        match call.name {
            CallName::Close => self.note(&process.table, process.cpu.register(second)),
            CallName::Replace => self.note(&process.table, process.cpu.register(second)),
            CallName::ProcessStart => self.note(&process.table, process.cpu.register(third)),
            CallName::ChanWrite => {
                let (values, count) = process.cpu.listed(&call.handles());
                self.note_each(&process.table, &values[..count]);
            }
            CallName::ChanWriteSlots => {
                self.note_each(&process.table, sent_places(&process.cpu, call));
            }
            _ => {}
        }
    }

    /// The handle at the value, if it is live.
    fn note(&mut self, table: &Table, value: u64)
        ensures noted { IsNoted table.now.entries self.new value }
        ensures more { (v k : ℕ) → IsTrue (has_noted self.old v k)
            → IsTrue (has_noted self.new v k) }
    {
        let Some((value, entry)) = live_at::<true>(table, value) else {
            return;
        };
        let handle = TakenHandle {
            value,
            koid: entry.koid,
        };
        if self.handles.push(handle).is_err() {
            self.all = true;
        }
    }

    /// The handles at these values, those that are live.
    fn note_each(&mut self, table: &Table, values: &[u64])
        ensures { All (IsNoted table.now.entries self.new) values.now }
    {
        for value in values {
            self.note(table, *value);
        }
    }
}

/// The object that the first handle of the call names, of the process at which it stands; 0 where the
/// handle isn't live.
fn named_by(process: &Process, call: &CallInstr) -> Koid
    ensures { result ≡ koid_in (get process.now.table.entries
        (reg process.now.cpu (slice_index call.now.registers 1))) }
{
    let [_, second, ..] = call.registers;
    match live_at::<true>(&process.table, process.cpu.register(second)) {
        Some((_, entry)) => entry.koid,
        None => 0,
    }
}

/// Whether the call kills.
#[inline(always)]
pub fn is_kill(call: CallName) -> bool
    ensures { result ≡ is_kill call }
{
    matches!(call, CallName::TaskKill)
}

/// Whether the call starts a process.
#[inline(always)]
pub fn is_start(call: CallName) -> bool
    ensures { result ≡ is_start call }
{
    matches!(call, CallName::ProcessStart)
}
