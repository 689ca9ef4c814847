//! The processes and objects that the statements of a boot make.

ghost use Rattle.std.specs.Prelude.{ℕ, ◌+◌, ◌≡◌, ◌≢◌, ◌≤◌, ◌<◌, nat_lt, false, [], ◌∷◌, length, is_some, map, None, Some, slice_get, IfOk, OnOk, IfErr, IsTrue};
ghost use Rattle.std.specs.List.{All, AllByRecursion, list_all};
ghost use Rattle.std.specs.Option.{option_map};
ghost use Rattle.std.specs.Result.{result_err};
ghost use Rattle.zl_rights.specs.Numbers.{within, default_rights_of};
ghost use Rattle.zl_rights.specs.Settle.{Settles};
ghost use Rattle.zl_code.specs.Boot.{IsBoot, FirstFault, MOST_ITEMS, MOST_GRANTS, MOST_PROCESSES, MOST_KOIDS, are_declared, are_misfits, boot_fault, handles_given, rights_given};
ghost use Rattle.zl_code.specs.Headline.{word_of};
ghost use Rattle.zl_code.specs.Jobs.{is_only_start};
ghost use Rattle.zl_code.specs.Limits.{most_word};
ghost use Rattle.zl_code.specs.OwnBoot.{own_boot};
ghost use Rattle.zl_calls.specs.Leaving.{HaveBegunBut};
ghost use Rattle.zl_calls.specs.Consistent.{IsConsistent};
ghost use Rattle.zl_objects.specs.Objects.{is_end_body, kind_here, root_alone, with_new};
ghost use Rattle.zl_objects.specs.Ports.{reserved_of};
ghost use Rattle.zl_interp.specs.Program.{program_value};
ghost use Rattle.zl_calls.specs.Making.{IsMaking, IsUnwatched};
ghost use Rattle.zl_calls.specs.Makes.{Makes, seen, own_seen, IsCauseOf, IsFresh, IsReached, koid_fault, making_pair};
ghost use Rattle.zl_calls.specs.Gives.{allowed, rights_if, IsBare, Gives};

use crate::calls::job::has_children;
use crate::calls::process::{is_declared, lacks_need};
use crate::process::{Process, State};
use bitflags::Flags;
use std::alloc::{AllocError, Global};
use zl_code::{Boot, BootCause, BootFault, Grant, Grants, Image, Start, Statement};
use zl_interp::{Cpu, Library, Program};
use zl_objects::{Body, Life, Objects, Pair};
use zl_rights::{Action, Condition, Entry, Kind, Koid, Mode, Rights};
use zl_table::Table;

/// The processes and objects that statements have made.
#[derive(Drop)]
pub struct Made {
    pub processes: Vec<Process>,
    pub objects: Objects,
}

/// What the statements of a boot make, in their order; `World::boot` says when which fault comes.
pub fn booted(alloc: Global, library: &Library, boot: &Boot) -> Result<Made, BootFault>
    ensures ok { IfOk result (λ made. IsBoot library.now boot.now.statements.items (seen made)) }
    ensures own { IfOk result
        (λ made. own_seen made ≡ own_boot library.now boot.now.statements.items) }
    ensures consistent { IfOk result (λ made. IsConsistent made.processes.items made.objects) }
    ensures unwatched { IfOk result (λ made. IsUnwatched made.objects) }
    ensures started { IfOk result (λ made. HaveBegunBut [] made.processes.items) }
    ensures words { OnOk result
        (AllByRecursion (λ s. word_of s ≤ most_word) boot.now.statements.items) }
    ensures limit { OnOk result (boot.now.limit ≤ MOST_ITEMS) }
    ensures err { IfErr result (λ fault. fault.cause ≢ BootCause.NoMemory
        → FirstFault library.now boot.now.statements.items boot.now.limit
        fault.statement fault.cause) }
    ensures reached { IfErr result (λ fault. fault.cause ≡ BootCause.NoMemory
        → IsReached library.now boot.now.statements.items fault.statement) }
{
    let Ok(mut made) = Made::new(alloc) else {
        return Err(fault_at(0, BootCause::NoMemory));
    };
    for (number, statement) in boot.statements.iter().enumerate() {
        if let Err(cause) = made.make(alloc, library, statement) {
            return Err(fault_at(number, cause));
        }
    }
    if boot.limit > Boot::MOST_ITEMS {
        return Err(fault_at(boot.statements.len(), BootCause::Limit));
    }
    made.settle();
    Ok(made)
}

impl Made {
    /// The root job alone.
    fn new(alloc: Global) -> Result<Made, AllocError>
        ensures no_process { IfOk result (λ made. made.processes.items ≡ []) }
        ensures root { IfOk result (λ made. made.objects ≡ root_alone) }
    {
        let objects = Objects::new(alloc)?;
        Ok(Made {
            processes: Vec::new(alloc),
            objects,
        })
    }

    /// Does the statement.
    fn make(
        &mut self,
        alloc: Global,
        library: &Library,
        statement: &Statement,
    ) -> Result<(), BootCause>
        requires { IsMaking self.old.processes.items [] self.old.objects }
        ensures ok { OnOk result (Makes library.now statement.now self.old self.new) }
        ensures word { word_of statement.now ≤ most_word }
        ensures err { IfErr result
            (IsCauseOf (boot_fault library.now (seen self.old) statement.now)) }
    {
        match statement {
            Statement::Job { parent } => self.make_job(*parent),
            Statement::Policy {
                job,
                condition,
                action,
            } => self.set_policy(*job, *condition, *action),
            Statement::Event => self.make_object(Body::Event),
            Statement::Port => {
                let port = self.objects.new_port();
                self.make_object(port)
            }
            Statement::Channel => self.make_pair(Pair::Channel),
            Statement::Eventpair => self.make_pair(Pair::Eventpair),
            Statement::Process {
                job,
                program,
                word,
                handles,
            } => {
                let handles = handles.as_slice();
                self.make_process(alloc, library, *job, *program, *word, handles)
            }
        }
    }

    /// Makes a job in this one. No handle names it yet.
    fn make_job(&mut self, parent: Koid) -> Result<(), BootCause>
        requires { IsMaking self.old.processes.items [] self.old.objects }
        ensures ok { (lib : Library)
            → OnOk result (Makes lib (Statement.Job parent) self.old self.new) }
        ensures err { (lib : Library)
            → IfErr result
            (IsCauseOf (boot_fault lib (seen self.old) (Statement.Job parent))) }
    {
        if !self.objects.is_job(parent) {
            return Err(BootCause::Unknown);
        }
        // No job is killed by a boot, so that one level too many is the only fault.
        let Ok(child) = self.objects.job_below(parent) else {
            return Err(BootCause::Limit);
        };
        self.make_object(Body::Job(child))
    }

    /// Sets what the job decides for the condition.
    fn set_policy(
        &mut self,
        job: Koid,
        condition: Condition,
        action: Action,
    ) -> Result<(), BootCause>
        requires { IsMaking self.old.processes.items [] self.old.objects }
        ensures ok { OnOk result ((lib : Library)
            → Makes lib (Statement.Policy job condition action) self.old self.new) }
        ensures err { IfErr result (λ cause. (lib : Library)
            → IsCauseOf
            (boot_fault lib (seen self.old) (Statement.Policy job condition action)) cause) }
    {
        if !self.objects.is_job(job) {
            return Err(BootCause::Unknown);
        }
        if has_children(&self.objects, job) {
            return Err(BootCause::BadState);
        }
        match self
            .objects
            .set_policy(job, condition, action, Mode::Absolute)
        {
            Ok(()) => Ok(()),
            Err(_) => Err(BootCause::Conflict),
        }
    }

    /// Makes the object. No handle names it yet.
    fn make_object(&mut self, body: Body) -> Result<(), BootCause>
        requires alone { is_end_body body ≡ false }
        requires unreserved { reserved_of body ≡ 0 }
        ensures left { OnOk result (koid_fault self.old ≡ None) }
        ensures made { OnOk result
            (self.new ≡ record self.old { objects = with_new self.old.objects body 0 }) }
        ensures err { IfErr result (IsCauseOf (koid_fault self.old)) }
    {
        if self.lacks_koids(1) {
            return Err(BootCause::Limit);
        }
        match self.objects.create(body, 0) {
            Ok(_) => Ok(()),
            Err(_) => Err(BootCause::NoMemory),
        }
    }

    /// Makes the two ends of a channel or of an event pair. No handle names them yet.
    fn make_pair(&mut self, pair: Pair) -> Result<(), BootCause>
        requires { IsMaking self.old.processes.items [] self.old.objects }
        ensures ok { OnOk result ((lib : Library)
            → Makes lib (making_pair pair) self.old self.new) }
        ensures err { IfErr result (λ cause. (lib : Library)
            → IsCauseOf (boot_fault lib (seen self.old) (making_pair pair)) cause) }
    {
        if self.lacks_koids(2) {
            return Err(BootCause::Limit);
        }
        match self.objects.create_pair(pair, 0) {
            Ok(_) => Ok(()),
            Err(_) => Err(BootCause::NoMemory),
        }
    }

    /// Whether fewer koids are left than so many, which are two at most.
    fn lacks_koids(&self, count: u64) -> bool
        requires { count ≤ 2 }
        ensures { result ≡ nat_lt (MOST_KOIDS + 1) (self.now.objects.next_koid + count) }
    {
        self.objects.end_of_koids() > Boot::MOST_KOIDS + 1 - count
    }

    fn make_process(
        &mut self,
        alloc: Global,
        library: &Library,
        job: Koid,
        program: u64,
        word: u64,
        handles: &[Grant],
    ) -> Result<(), BootCause>
        requires { IsMaking self.old.processes.items [] self.old.objects }
        ensures ok { OnOk result (Makes library.now
            (Statement.Process job program word handles.now) self.old self.new) }
        ensures err { IfErr result (IsCauseOf
            (boot_fault library.now (seen self.old)
            (Statement.Process job program word handles.now))) }
    {
        let image = self.image_for(library, job, program, handles)?;
        let Ok(cpu) = Cpu::new(alloc, image, word) else {
            return Err(BootCause::NoMemory);
        };
        let mut process = Process {
            pid: self.objects.end_of_koids(),
            program: program as usize,
            state: State::Ready,
            cpu,
            table: Table::new(alloc),
        };
        self.give(&mut process, handles)?;
        let Ok(_) = self.objects.create(
            Body::Process {
                job,
                life: Life::Running,
            },
            0,
        )
        else {
            return Err(BootCause::NoMemory);
        };
        if self.processes.push(process).is_err() {
            return Err(BootCause::NoMemory);
        }
        Ok(())
    }

    /// The image that the process is to run, if its statement can be done.
    fn image_for<'a>(
        &self,
        library: &'a Library,
        job: Koid,
        program: u64,
        handles: &[Grant],
    ) -> Result<&'a Image, BootCause>
        ensures image { IfOk result (λ image. option_map (λ g. g.image)
            (slice_get library.now program) ≡ Some image.now) }
        ensures fault { (word : ℕ) → boot_fault library.now (seen self.now)
            (Statement.Process job program word handles.now) ≡ result_err result }
    {
        let Some(listed) = library.get(program as usize) else {
            return Err(BootCause::Unknown);
        };
        if !self.objects.is_job(job) || !self.knows(handles) {
            return Err(BootCause::Unknown);
        }
        if handles.len() > Grants::MOST || !self.may_give(handles) {
            return Err(BootCause::BadHandleList);
        }
        if self.are_misfits(listed, handles) {
            return Err(BootCause::BadHandleList);
        }
        if lacks_need(&self.objects, job, listed) {
            return Err(BootCause::NeedDenied);
        }
        if self.processes.len() >= Boot::MOST_PROCESSES || self.lacks_koids(1) {
            return Err(BootCause::Limit);
        }
        Ok(listed.image())
    }

    /// Whether each handle names an object that is there.
    fn knows(&self, handles: &[Grant]) -> bool
        ensures { result
            ≡ list_all (λ g. is_some (kind_here self.now.objects.objects g.koid)) handles.now }
    {
        handles
            .iter()
            .all(|grant| self.objects.kind_of(grant.koid).is_some())
    }

    /// Whether each handle may be given.
    fn may_give(&self, handles: &[Grant]) -> bool
        ensures { result ≡ list_all (λ g. is_some (allowed (seen self.now).objects g)) handles.now }
    {
        handles.iter().all(|grant| self.handle(*grant).is_some())
    }

    /// Whether the program was checked, and declares other handles than these. Each may be given.
    fn are_misfits(&self, program: &Program, handles: &[Grant]) -> bool
        requires may { IsTrue (list_all
            (λ g. is_some (allowed (seen self.now).objects g)) handles.now) }
        ensures { result ≡ are_misfits (Some (program_value program.now))
            (handles_given (seen self.now).objects handles.now) }
    {
        program.is_checked() && !self.are_declared(program.image().starts(), handles)
    }

    /// Whether these handles are those that are declared, in order. Each may be given.
    fn are_declared(&self, starts: &[Start], handles: &[Grant]) -> bool
        requires may { IsTrue (list_all
            (λ g. is_some (allowed (seen self.now).objects g)) handles.now) }
        ensures { result
            ≡ are_declared starts.now (handles_given (seen self.now).objects handles.now) }
    {
        if starts.len() != handles.len() {
            return false;
        }
        for (number, grant) in handles.iter().enumerate() {
            if !self.fits(&starts[number], *grant) {
                return false;
            }
        }
        true
    }

    /// Whether the handle may be given, and is what is declared.
    fn fits(&self, start: &Start, grant: Grant) -> bool
        ensures { result ≡ is_only_start (start.now ∷ [])
            (allowed (seen self.now).objects grant) }
    {
        match self.handle(grant) {
            Some(entry) => is_declared(start, &entry),
            None => false,
        }
    }

    /// The handle that is to be given, if its object is there and its rights are among the default
    /// rights of the kind.
    fn handle(&self, grant: Grant) -> Option<Entry>
        ensures { result ≡ allowed (seen self.now).objects grant }
    {
        let kind = self.objects.kind_of(grant.koid)?;
        let rights = rights_given(grant.rights, kind)?;
        Some(Entry {
            koid: grant.koid,
            kind,
            rights,
        })
    }

    /// Gives the handles to the process, which has none yet and isn't among the others.
    fn give(&mut self, process: &mut Process, handles: &[Grant]) -> Result<(), BootCause>
        requires making { IsMaking self.old.processes.items [] self.old.objects }
        requires place { length self.old.processes.items < MOST_PROCESSES }
        requires bare { IsBare process.old }
        requires few { length handles.now ≤ MOST_GRANTS }
        requires may { IsTrue (list_all
            (λ g. is_some (allowed (seen self.old).objects g)) handles.now) }
        ensures ok { OnOk result (Gives handles.now self.old process.old self.new process.new) }
        ensures err { IfErr result (λ cause. cause ≡ BootCause.NoMemory) }
    {
        for (number, grant) in handles.iter().enumerate() {
            let Some(entry) = self.handle(*grant) else {
                unreachable!()
            };
            let Ok(value) = process.table.insert(entry) else {
                return Err(BootCause::NoMemory);
            };
            process.cpu.give(number, value);
            self.objects.hold(entry.koid);
        }
        Ok(())
    }

    /// What isn't held is gone. No process goes with its object, as all are ready.
    fn settle(&mut self)
        requires making { IsMaking self.old.processes.items [] self.old.objects }
        requires fresh { All IsFresh self.old.processes.items }
        ensures settles { Settles (seen self.old) (seen self.new) }
        ensures same_processes { self.new.processes.items ≡ self.old.processes.items }
        ensures consistent { IsConsistent self.new.processes.items self.new.objects }
        ensures unwatched { IsUnwatched self.new.objects }
    {
        // What is newer goes first, as a job is older than what is in it.
        for koid in (0..self.objects.end_of_koids()).rev() {
            self.objects.remove_unheld(koid);
        }
    }
}

/// The rights of a handle to a new object of the kind: those that are asked for, if the kind gives
/// them, or else all that it gives.
fn rights_given(asked: Option<u64>, kind: Kind) -> Option<Rights>
    ensures { result ≡ rights_if
        (within (rights_given asked kind) (default_rights_of kind)) (rights_given asked kind) }
{
    let default = kind.default_rights();
    let Some(asked) = asked else {
        return Some(default);
    };
    let Ok(bits) = u32::try_from(asked) else {
        return None;
    };
    let rights = Rights::from_bits_retain(bits);
    if rights.within(default) {
        Some(rights)
    } else {
        None
    }
}

fn fault_at(statement: usize, cause: BootCause) -> BootFault
    ensures { result ≡ record { statement = statement; cause = cause } }
{
    BootFault { statement, cause }
}
