//! Calls on processes: one that ends its caller, one that makes a process, and one that starts it.

ghost use Rattle.std.specs.Prelude.{ℕ, ◌≡◌, ◌+◌, ◌<◌, ◌≤◌, true, false, IsOk, List, [], ◌∷◌, length, vec_capacity, Some, slice_get, IfOk, OnOk, IfErr, OnErr};
ghost use Rattle.std.specs.Option.{option_map};
ghost use Rattle.std.specs.Result.{result_err, result_ok};
ghost use Rattle.zl_code.specs.Effects.{signed_word};
ghost use Rattle.zl_code.specs.Jobs.{is_allowing, is_declared, is_only_start, misfits};
ghost use Rattle.zl_code.specs.Starting.{cpu_given};
ghost use Rattle.zl_rights.specs.LookUp.{looked_up};
ghost use Rattle.zl_rights.specs.Numbers.{MANAGE_PROCESS, TRANSFER, WRITE};
ghost use Rattle.zl_objects.specs.Jobs.{action_here, job_at};
ghost use Rattle.zl_objects.specs.Objects.{starting};
ghost use Rattle.zl_interp.specs.Common.{program_value, started_cpu};
ghost use Rattle.zl_calls.specs.Registered.{EndsOwn};
ghost use Rattle.zl_calls.specs.Calling.{AreGiven, AtPlace, IsCalling, KeepsRoom, parts_in};
ghost use Rattle.zl_calls.specs.calls.Answer.{IsRefusedBy, wants_memory};
ghost use Rattle.zl_calls.specs.calls.Process.{Drained, Ends};
ghost use Rattle.zl_calls.specs.calls.Task.{Enters, IsCallerStill, IsCreatedAt, IsFound, ProcessCreateDoes, ProcessStartDoes, child_refusal, create_refusal, needs_more, process_at, start_refusal};

use crate::calls::handle::{close_each, take_out};
use crate::calls::{check_room, insert, look_up, make_object};
use crate::parts::Parts;
use crate::process::{Process, State};
use crate::processes::Processes;
use crate::waits::end_made_at;
use std::alloc::{AllocError, Global};
use zl_code::{Image, Start};
use zl_interp::{Cpu, Library, Program};
use zl_objects::{Body, Life, Objects};
use zl_rights::{Action, Condition, Entry, HValue, Kind, Koid, Pid, Rights, Status};
use zl_table::Table;

/// Ends the process with the code; its handles close, its registered waits end, and what isn't held any
/// more is gone.
///
/// Source: the page "zx_process_exit" of the Fuchsia documentation.
pub fn end(alloc: Global, process: &mut Process, objects: &mut Objects, code: i32)
    ensures { Ends code process.old objects.old process.new objects.new }
{
    let table = process.end(alloc, code);
    objects.end(process.pid);
    close_all(objects, process.pid, table);
}

/// The code of a process that exits: the low 32 bits as a signed number (own profile).
pub fn signed_word(value: u64) -> i32
    ensures { result ≡ signed_word value }
{
    let low = (value & 0xffff_ffff) as u32;
    low.cast_signed()
}

/// What a process is to be made of: the caller's handle of a job, and the number of a program.
#[derive(Clone, Copy)]
pub struct NewProcess {
    pub job: u64,
    pub program: u64,
}

/// Makes a process of the program with this number in the job of the caller's handle, and gives the
/// caller a handle with the default rights. It has no handles, and isn't started.
///
/// `BadHandle`, `WrongType` for what is no job, `AccessDenied` without the right to manage processes;
/// `InvalidArgs` for a number that no program has; `BadState` where the job was killed;
/// `NotSupported` where the program was checked, and declares a need that the policy of that job
/// doesn't allow; `NoResources` where the table is full or no koid is left; `NoMemory`.
/// Source: the page "zx_process_create" of the Fuchsia documentation; programs, their needs and the
/// order are own profile.
pub fn process_create<const TESTED: bool>(
    alloc: Global,
    library: &Library,
    parts: &mut Parts,
    place: usize,
    new: NewProcess,
) -> Result<HValue, Status>
    requires place { place < length parts.old.processes.list.items }
    requires few { length parts.old.blocked.items ≤ length parts.old.processes.list.items }
    requires given { AreGiven (parts_in parts.old) }
    requires sure { TESTED ≡ false → AtPlace parts.old.processes place (λ caller.
        IsOk (looked_up caller.table.entries new.job (Kind.Job ∷ []) MANAGE_PROCESS)) }
    ensures does { AtPlace parts.old.processes place (λ caller. ProcessCreateDoes library.now place
        new.job new.program caller (parts_in parts.old) result (parts_in parts.new)) }
    ensures room { KeepsRoom parts.old parts.new }
    ensures taken { parts.new.taken ≡ parts.old.taken }
{
    let Parts {
        processes,
        objects,
        blocked,
        ..
    } = parts;
    let NewProcess { job, program } = new;
    let table = &processes.list[place].table;
    let (job, image) = find_job::<TESTED>(library, table, objects, job, program)?;
    let Ok(cpu) = prepare(alloc, image, processes, blocked) else {
        return Err(Status::NoMemory);
    };
    let pid = objects.end_of_koids();
    let body = Body::Process {
        job,
        life: Life::Created,
    };
    match make_object(&mut processes.list[place].table, objects, body) {
        Ok(made) => {
            processes.push_reserved(Process {
                pid,
                program: program as usize,
                state: State::Created,
                cpu,
                table: Table::new(alloc),
            });
            Ok(made)
        }
        Err(refused) => Err(refused),
    }
}

/// Makes the Cpu of one process more, which runs the image, and room for that process, for its place
/// among the unstarted, and for each process in the list of the blocked.
fn prepare(
    alloc: Global,
    image: &Image,
    processes: &mut Processes,
    blocked: &mut Vec<Pid>,
) -> Result<Cpu, AllocError>
    requires { length blocked.old.items ≤ length processes.old.list.items }
    ensures cpu { IfOk result (λ cpu. cpu ≡ started_cpu image.now 0) }
    ensures place { OnOk result
        (length processes.old.list.items + 1 ≤ vec_capacity processes.new.list) }
    ensures listed { OnOk result
        (length processes.new.unstarted.items < vec_capacity processes.new.unstarted) }
    ensures room { OnOk result
        (length processes.old.list.items + 1 ≤ vec_capacity blocked.new) }
    ensures kept { length processes.old.list.items ≤ vec_capacity blocked.old
        → length processes.new.list.items ≤ vec_capacity blocked.new }
    ensures same_processes { processes.new.list.items ≡ processes.old.list.items }
    ensures same_blocked { blocked.new.items ≡ blocked.old.items }
{
    processes.list.reserve(1)?;
    processes.unstarted.reserve(1)?;
    blocked.reserve(processes.list.len() + 1 - blocked.len())?;
    Cpu::new(alloc, image, 0)
}

/// What a program can declare that its processes make.
const NEEDS: [Condition; 5] = [
    Condition::NewChannel,
    Condition::NewEvent,
    Condition::NewEventpair,
    Condition::NewPort,
    Condition::NewProcess,
];

/// The job in which a process is to be made, and the image that the process is to run; or why none is
/// made, but for want of memory. `process_create` says when which refusal comes.
fn find_job<'a, const TESTED: bool>(
    library: &'a Library,
    table: &Table,
    objects: &Objects,
    job: u64,
    program: u64,
) -> Result<(Koid, &'a Image), Status>
    requires sure { TESTED ≡ false
        → IsOk (looked_up table.now.entries job (Kind.Job ∷ []) MANAGE_PROCESS) }
    ensures refusal { result_err result
        ≡ create_refusal library.now table.now.entries objects.now job program }
    ensures job { IfOk result (λ found. option_map (λ e. e.koid)
        (result_ok (looked_up table.now.entries job (Kind.Job ∷ []) MANAGE_PROCESS)) ≡ Some found.0) }
    ensures image { IfOk result (λ found. option_map (λ g. g.image)
        (slice_get library.now program) ≡ Some found.1.now) }
{
    let job = look_up::<TESTED>(table, job, &[Kind::Job], Rights::MANAGE_PROCESS)?;
    let Some(program) = library.get(program as usize) else {
        return Err(Status::InvalidArgs);
    };
    if objects.is_dead(job.koid) {
        return Err(Status::BadState);
    }
    if lacks_need(objects, job.koid, program) {
        return Err(Status::NotSupported);
    }
    check_room(table, objects)?;
    Ok((job.koid, program.image()))
}

/// Whether the program was checked, and declares a need that the policy of the job doesn't allow.
pub fn lacks_need(objects: &Objects, job: Koid, program: &Program) -> bool
    ensures { result ≡ needs_more
        (action_here (job_at objects.now.objects job)) (Some (program_value program.now)) }
{
    let image = program.image();
    // Its clauses are the image's invariant, by which needs are among the five.
    image.len();
    program.is_checked()
        && NEEDS
            .iter()
            .any(|need| image.needs(*need) && !allows(objects, job, *need))
}

/// Whether the policy of the job allows what the condition stands for.
fn allows(objects: &Objects, job: Koid, condition: Condition) -> bool
    ensures { result ≡ is_allowing (action_here (job_at objects.now.objects job) condition) }
{
    matches!(objects.action(job, condition), Action::Allow)
}

/// What a process is to be started with: the caller's handle of it, the one that it gets, and a
/// word.
#[derive(Clone, Copy)]
pub struct StartOf {
    pub process: u64,
    pub handle: u64,
    pub word: u64,
}

/// Starts the process of the caller's first handle with the second one, which enters its table, and
/// with the word. However it is answered, the second handle has left the caller's table.
///
/// Of the process `BadHandle`, `WrongType` for what is no process, `AccessDenied` without the right to
/// write; of the handle `BadHandle`, `AccessDenied` without the right to transfer; `BadState` where
/// the process was started or is over; `InvalidArgs` where its program was checked, and doesn't
/// declare just one handle of this kind with these rights at most; `NoMemory`.
/// Source: the page "zx_process_start" of the Fuchsia documentation; what a program declares and the
/// order are own profile.
pub fn process_start<const TESTED: bool>(
    library: &Library,
    parts: &mut Parts,
    place: usize,
    start: StartOf,
) -> Result<(), Status>
    requires calling { IsCalling parts.old.processes.list.items place }
    requires process { TESTED ≡ false → AtPlace parts.old.processes place (λ caller.
        IsOk (looked_up caller.table.entries start.process (Kind.Process ∷ []) WRITE)) }
    requires handle { TESTED ≡ false → AtPlace parts.old.processes place (λ caller.
        IsOk (looked_up caller.table.entries start.handle [] TRANSFER)) }
    ensures does { AtPlace parts.old.processes place (λ caller.
        ProcessStartDoes library.now place start.process start.handle start.word caller
        (parts_in parts.old) result (parts_in parts.new)) }
    ensures caller { AtPlace parts.old.processes place (λ caller.
        IsCallerStill caller (slice_get parts.new.processes.list.items place)) }
    ensures room { KeepsRoom parts.old parts.new }
    ensures taken { parts.new.taken ≡ parts.old.taken }
{
    let Parts {
        processes,
        objects,
        ..
    } = parts;
    let StartOf {
        process,
        handle,
        word,
    } = start;
    match enter::<TESTED>(library, processes, place, process, handle) {
        Ok(started) => {
            take_out(&mut processes.list[place].table, handle);
            let child = &mut processes.list[started.place];
            begin(child, objects, started.handle, word);
            Ok(())
        }
        Err(refused) => {
            close_each(&mut processes.list[place].table, objects, &[handle]);
            Err(refused)
        }
    }
}

/// The process is ready, and finds the handle and the word in its registers.
fn begin(process: &mut Process, objects: &mut Objects, handle: HValue, word: u64)
    ensures process { process.new ≡ record process.old {
      state = State.Ready;
      cpu = cpu_given (handle ∷ []) word process.old.cpu;
    } }
    ensures objects { objects.new ≡ starting objects.old process.old.pid }
{
    process.state = State::Ready;
    process.cpu.start(handle, word);
    objects.start(process.pid);
}

/// A process that starts: its place, and the value at which its handle is in its table.
#[derive(Clone, Copy)]
struct Started {
    place: usize,
    handle: HValue,
}

/// The handle enters the table of the process that is to start, and is in the caller's still.
fn enter<const TESTED: bool>(
    library: &Library,
    processes: &mut Processes,
    place: usize,
    process: u64,
    handle: u64,
) -> Result<Started, Status>
    requires place { place < length processes.old.list.items }
    requires process { TESTED ≡ false → AtPlace processes.old place (λ caller.
        IsOk (looked_up caller.table.entries process (Kind.Process ∷ []) WRITE)) }
    requires handle { TESTED ≡ false → AtPlace processes.old place (λ caller.
        IsOk (looked_up caller.table.entries handle [] TRANSFER)) }
    ensures entered { IfOk result (λ started. AtPlace processes.old place (λ caller.
        Enters library.now processes.old.list.items caller process handle started
        processes.new.list.items)) }
    ensures err { IfErr result (λ refused. AtPlace processes.old place (λ caller.
        IsRefusedBy wants_memory (start_refusal library.now processes.old.list.items
        caller.table.entries process handle) refused)) }
    ensures unchanged { OnErr result (processes.new.list.items ≡ processes.old.list.items) }
{
    let (child, entry) = find_child::<TESTED>(library, processes, place, process, handle)?;
    // A table that was never used has a place. Should it tell of none, that is a want of memory: a
    // start lists no other.
    let Ok(value) = insert(&mut processes.list[child].table, entry) else {
        return Err(Status::NoMemory);
    };
    Ok(Started {
        place: child,
        handle: value,
    })
}

/// The place of the process that is to start, and the handle that it gets.
fn find_child<const TESTED: bool>(
    library: &Library,
    processes: &Processes,
    place: usize,
    process: u64,
    handle: u64,
) -> Result<(usize, Entry), Status>
    requires place { place < length processes.now.list.items }
    requires process { TESTED ≡ false → AtPlace processes.now place (λ caller.
        IsOk (looked_up caller.table.entries process (Kind.Process ∷ []) WRITE)) }
    requires handle { TESTED ≡ false → AtPlace processes.now place (λ caller.
        IsOk (looked_up caller.table.entries handle [] TRANSFER)) }
    ensures refusal { AtPlace processes.now place (λ caller. result_err result
        ≡ start_refusal library.now processes.now.list.items caller.table.entries process handle) }
    ensures found { IfOk result (λ found. AtPlace processes.now place (λ caller.
        IsFound processes.now.list.items caller process handle found.0 found.1)) }
{
    let table = &processes.list[place].table;
    let child = look_up::<TESTED>(table, process, &[Kind::Process], Rights::WRITE)?;
    let entry = look_up::<TESTED>(table, handle, &[], Rights::TRANSFER)?;
    let child = created_at(library, processes, child.koid, &entry)?;
    Ok((child, entry))
}

/// The place of the process, if it was made and not started, and can start with the handle.
fn created_at(
    library: &Library,
    processes: &Processes,
    pid: Pid,
    entry: &Entry,
) -> Result<usize, Status>
    ensures refusal { result_err result
        ≡ child_refusal library.now (process_at processes.now.list.items pid) entry.now }
    ensures found { IfOk result (IsCreatedAt processes.now.list.items pid) }
{
    let Some(place) = processes.place_of(pid) else {
        return Err(Status::BadState);
    };
    if !processes.list[place].is_created() {
        return Err(Status::BadState);
    }
    if misfits(library, processes.list[place].program, entry) {
        return Err(Status::InvalidArgs);
    }
    Ok(place)
}

/// Whether the program with this number was checked, and declares anything else than this handle.
fn misfits(library: &Library, program: usize, entry: &Entry) -> bool
    ensures { result ≡ misfits (slice_get library.now program) (Some entry.now) }
{
    match library.get(program) {
        Some(program) => program.is_checked() && !is_only_start(program.image().starts(), entry),
        None => false,
    }
}

/// Whether one handle is declared, and this one will do for it.
fn is_only_start(starts: &[Start], entry: &Entry) -> bool
    ensures { result ≡ is_only_start starts.now (Some entry.now) }
{
    match starts {
        [start] => is_declared(start, entry),
        _ => false,
    }
}

/// Whether the handle is of the declared kind, with the declared rights at least.
pub fn is_declared(start: &Start, entry: &Entry) -> bool
    ensures { result ≡ is_declared start.now entry.now }
{
    let is_of_kind = match start.kind {
        Some(kind) => kind.number() == entry.kind.number(),
        None => true,
    };
    is_of_kind && start.rights.within(entry.rights)
}

/// The handles of the process's table close, one after another, and with each the waits end that were
/// made by it.
pub fn close_all(objects: &mut Objects, pid: Pid, mut table: Table)
    ensures closes { Drained table.entries objects.old objects.new }
    ensures waits { EndsOwn pid table.entries objects.old objects.new }
{
    while let Some((value, entry)) = table.drain() {
        end_made_at(objects, entry.koid, pid, value);
        objects.release(entry.koid);
    }
}
