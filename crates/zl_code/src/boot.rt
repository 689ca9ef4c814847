ghost use Rattle.std.specs.Prelude.{◌≡◌, ◌↔◌, ◌++◌, ◌∷◌, [], IsTrue, IfOk, OnOk, OnErr, IfErr};

use std::alloc::{AllocError, AllocFailed, Global};
use std::marker::Model;
use zl_rights::{Action, Condition, Koid};

/// What a scenario says of the world before its first step; statements are done in order. Own
/// profile.
#[derive(Drop)]
pub struct Boot {
    pub statements: Vec<Statement>,
    /// How many items the trace may have, at most `Boot::MOST_ITEMS`.
    pub limit: u64,
}

impl Boot {
    /// The largest limit of a trace.
    pub const MOST_ITEMS: u64 = 1_000_000;

    /// The most processes that a boot makes.
    pub const MOST_PROCESSES: usize = 64;

    /// The most koids that a boot gives, the root job's among them.
    pub const MOST_KOIDS: Koid = 1024;

    /// Another boot of the same statements, with the same limit. Only memory can be refused.
    pub fn copy(&self, alloc: Global) -> Result<Boot, AllocError>
        ensures statements { IfOk result
            (λ boot. boot.statements.items ≡ self.now.statements.items) }
        ensures limit { IfOk result (λ boot. boot.limit ≡ self.now.limit) }
    {
        Ok(Boot {
            statements: copied_statements(alloc, &self.statements)?,
            limit: self.limit,
        })
    }

    /// Whether the other has the same statements in the same order, and the same limit.
    pub fn is_same(&self, other: &Boot) -> bool
        ensures { IsTrue result ↔ (self.now.statements.items ≡ other.now.statements.items)
            × (self.now.limit ≡ other.now.limit) }
    {
        if !are_same_statements(&self.statements, &other.statements) {
            return false;
        }
        self.limit == other.limit
    }
}

/// The same statements once more.
fn copied_statements(alloc: Global, statements: &[Statement]) -> Result<Vec<Statement>, AllocError>
    ensures { IfOk result (λ copied. copied.items ≡ statements.now) }
{
    let mut copied = Vec::with_capacity(alloc, statements.len())?;
    for statement in statements {
        let again = statement.copy(alloc)?;
        copied.push(again)?;
    }
    Ok(copied)
}

/// Whether both have the same statements in the same order.
fn are_same_statements(one: &[Statement], other: &[Statement]) -> bool
    ensures { IsTrue result ↔ one.now ≡ other.now }
{
    if one.len() != other.len() {
        return false;
    }
    for n in 0..one.len() {
        if !one[n].is_same(&other[n]) {
            return false;
        }
    }
    true
}

/// One statement. Each object that it makes gets the next koid, and is gone after the boot unless a
/// handle names it or, for a job, something lives in it; a process stays, as it is started. Own profile.
#[derive(Drop)]
pub enum Statement {
    /// A job in this one, with the policy that this has now.
    Job {
        parent: Koid,
    },
    /// Sets what the job decides for the condition, in the mode `Absolute`.
    Policy {
        job: Koid,
        condition: Condition,
        action: Action,
    },
    /// An event.
    Event,
    /// A port without packets.
    Port,
    /// The two ends of a channel; the first has the lower koid, and no message waits at either.
    Channel,
    /// The two ends of an event pair; the first has the lower koid.
    Eventpair,
    /// A process of the job, running the program of that number from 0. It is started with the first
    /// of its handles in register 0, the word in register 1 and the other handles from register 2 on.
    /// A checked program wants just the handles that it declares, and a job that allows its needs.
    Process {
        job: Koid,
        program: u64,
        word: u64,
        handles: Grants,
    },
}

impl Statement {
    /// Another statement like this one. Only memory can be refused, for the list of its handles.
    pub fn copy(&self, alloc: Global) -> Result<Statement, AllocError>
        ensures { IfOk result (λ statement. statement ≡ self.now) }
    {
        match self {
            Statement::Job { parent } => Ok(Statement::Job { parent: *parent }),
            Statement::Policy {
                job,
                condition,
                action,
            } => Ok(Statement::Policy {
                job: *job,
                condition: *condition,
                action: *action,
            }),
            Statement::Event => Ok(Statement::Event),
            Statement::Port => Ok(Statement::Port),
            Statement::Channel => Ok(Statement::Channel),
            Statement::Eventpair => Ok(Statement::Eventpair),
            Statement::Process {
                job,
                program,
                word,
                handles,
            } => {
                let handles = handles.copy(alloc)?;
                Ok(Statement::Process {
                    job: *job,
                    program: *program,
                    word: *word,
                    handles,
                })
            }
        }
    }

    /// Whether the other statement is the same.
    pub fn is_same(&self, other: &Statement) -> bool
        ensures { IsTrue result ↔ self.now ≡ other.now }
    {
        match (self, other) {
            (
                Statement::Job { parent },
                Statement::Job {
                    parent: other_parent,
                },
            ) => { parent == other_parent }
            (
                Statement::Policy {
                    job,
                    condition,
                    action,
                },
                Statement::Policy {
                    job: other_job,
                    condition: other_condition,
                    action: other_action,
                },
            ) => {
                job == other_job
                    && is_same_condition(*condition, *other_condition)
                    && is_same_action(*action, *other_action)
            }
            (Statement::Event, Statement::Event) => true,
            (Statement::Port, Statement::Port) => true,
            (Statement::Channel, Statement::Channel) => true,
            (Statement::Eventpair, Statement::Eventpair) => true,
            (
                Statement::Process {
                    job,
                    program,
                    word,
                    handles,
                },
                Statement::Process {
                    job: other_job,
                    program: other_program,
                    word: other_word,
                    handles: other_handles,
                },
            ) => {
                job == other_job
                    && program == other_program
                    && word == other_word
                    && handles.is_same(other_handles)
            }
            _ => false,
        }
    }
}

/// Whether both are the same condition: no two have one number.
fn is_same_condition(one: Condition, other: Condition) -> bool
    ensures { IsTrue result ↔ one ≡ other }
{
    one.number() == other.number()
}

/// Whether both are the same action: no two have one number.
fn is_same_action(one: Action, other: Action) -> bool
    ensures { IsTrue result ↔ one ≡ other }
{
    one.number() == other.number()
}

/// A handle that a statement gives to its process. Own profile.
#[derive(Clone, Copy, PartialEq, Eq)]
pub struct Grant {
    /// The object that it names, which an earlier statement made, or the root job.
    pub koid: Koid,
    /// Its rights; where no number stands, the default rights of the object's kind.
    pub rights: Option<u64>,
}

/// The handles that a statement gives to its process, in order. Own profile.
#[derive(Drop)]
pub struct Grants {
    list: Vec<Grant>,
}

impl Model for Grants {
    ghost use Rattle.std.specs.Prelude.{List};
    ghost use Rattle.zl_code.specs.declared.boot.Grant.{Grant as GrantValue};

    ghost Value = { List GrantValue };

    ghost view = { λ grants. grants.list.items };
}

impl Grants {
    /// The most handles that a process can start with: one for each register from 0 to 7 but the
    /// word's.
    pub const MOST: usize = 7;

    /// No handles. It takes no memory.
    pub fn new(alloc: Global) -> Grants
        ensures { result ≡ [] }
    {
        Grants {
            list: Vec::new(alloc),
        }
    }

    /// Adds a handle behind the others.
    ///
    /// Only memory can be refused; then nothing changes, and the handle comes back.
    pub fn push(&mut self, grant: Grant) -> Result<(), AllocFailed<Grant>>
        ensures added { OnOk result (self.new ≡ self.old ++ grant ∷ []) }
        ensures unchanged { OnErr result (self.new ≡ self.old) }
        ensures handed_back { IfErr result (λ refused. refused.value ≡ grant) }
    {
        self.list.push(grant)
    }

    /// The same handles once more. Only memory can be refused.
    pub fn copy(&self, alloc: Global) -> Result<Grants, AllocError>
        ensures { IfOk result (λ grants. grants ≡ self.now) }
    {
        Ok(Grants {
            list: self.list.to_vec(alloc)?,
        })
    }

    /// Whether the other has the same handles in the same order.
    pub fn is_same(&self, other: &Grants) -> bool
        ensures { IsTrue result ↔ self.now ≡ other.now }
    {
        are_same_grants(self.as_slice(), other.as_slice())
    }

    /// The handles in order.
    pub fn as_slice(&self) -> &[Grant]
        ensures { result.now ≡ self.now }
    {
        self.list.as_slice()
    }
}

fn are_same_grants(one: &[Grant], other: &[Grant]) -> bool
    ensures { IsTrue result ↔ one.now ≡ other.now }
{
    one == other
}

/// Which statement can't be done, counted from 0, and why. Own profile.
#[derive(Clone, Copy)]
pub struct BootFault {
    /// For a limit of the trace above `Boot::MOST_ITEMS` this is one past the last statement.
    pub statement: usize,
    pub cause: BootCause,
}

/// Why a statement can't be done. Own profile.
#[derive(Clone, Copy)]
pub enum BootCause {
    /// A process can't start with these handles: there are eight or more, one has a right that a new
    /// object of its kind doesn't give, or the program was checked and declares others.
    BadHandleList,
    /// The program was checked, and the policy of the job forbids it to make what it needs.
    NeedDenied,
    /// Too many processes, too many levels of jobs, too few koids left for what the statement makes,
    /// or too high a limit of the trace.
    Limit,
    /// Memory was refused.
    NoMemory,
    /// A koid that is no object of the named kind, or no program of that number.
    Unknown,
    /// A policy for a job in which a job or a process lives already.
    BadState,
    /// A second action for a condition of the job, unlike the first.
    Conflict,
}
