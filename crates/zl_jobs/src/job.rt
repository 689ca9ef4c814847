ghost use Rattle.std.specs.Prelude.{◌≡◌, ◌↔◌, IsTrue, not, OnErr, OnOk};
ghost use Rattle.zl_rights.specs.Signals.{is_empty};
ghost use Rattle.zl_policy.specs.Policies.{action_in, answer_of};
ghost use Rattle.zl_jobs.specs.Jobs.{killed_job, new_within, root_job, with_policy};

use std::marker::Model;
use zl_policy::Policy;
use zl_rights::{Action, Condition, Koid, Mode, Status};

/// Why there may be no job in another.
///
/// Source: the page "zx_job_create" of the Fuchsia documentation.
#[derive(Clone, Copy, PartialEq, Eq, Debug)]
pub enum JobFault {
    /// The other stands at the depth `Job::MOST_DEPTH` (own profile).
    OutOfRange,
    /// The other was killed, or isn't there.
    BadState,
}

/// A job: the koid of the job directly above it, how deep it stands, its policy, and whether it was
/// killed.
///
/// Source: the page "Job" of the Fuchsia documentation.
#[derive(Drop)]
pub struct Job {
    parent: Koid,
    depth: u32,
    policy: Policy,
    killed: bool,
}

impl Model for Job {
    ghost use Rattle.zl_jobs.specs.Jobs.{Job as JobValue};

    ghost Value = { JobValue };

    ghost view = { λ j. record {
      parent = j.parent;
      depth = j.depth;
      policy = j.policy;
      killed = j.killed;
    } };
}

impl Job {
    /// The depth of the deepest jobs, where the root job has 1 (own profile).
    pub const MOST_DEPTH: u32 = 16;

    /// The job above all others: its parent is 0, which no object has, and nothing is set in its
    /// policy.
    pub fn root() -> Job
        ensures { result ≡ root_job }
    {
        Job {
            parent: 0,
            depth: 1,
            policy: Policy::new(),
            killed: false,
        }
    }

    /// A new job in this one, whose koid is given. It gets the policy of this one.
    ///
    /// `OutOfRange` where this one is as deep as a job can be, then `BadState` where it was killed.
    /// Source: the page "zx_job_create" of the Fuchsia documentation.
    pub fn below(&self, koid: Koid) -> Result<Job, JobFault>
        ensures { result ≡ new_within koid self.now }
    {
        if self.depth >= Job::MOST_DEPTH {
            return Err(JobFault::OutOfRange);
        }
        if self.killed {
            return Err(JobFault::BadState);
        }
        Ok(Job {
            parent: koid,
            depth: self.depth + 1,
            policy: self.policy.inherit(),
            killed: false,
        })
    }

    /// Another job like this one: below the same job, as deep, with the same policy, and killed if this
    /// one was.
    ///
    /// Source: own profile.
    pub fn copy(&self) -> Job
        ensures { result ≡ self.now }
    {
        Job {
            parent: self.parent,
            depth: self.depth,
            policy: self.policy.inherit(),
            killed: self.killed,
        }
    }

    /// Whether the other job is the same in each part.
    ///
    /// Source: own profile.
    pub fn is_same(&self, other: &Job) -> bool
        ensures { IsTrue result ↔ self.now ≡ other.now }
    {
        self.parent == other.parent
            && self.depth == other.depth
            && self.killed == other.killed
            && self.policy.is_same(&other.policy)
    }

    /// The koid of the job directly above; 0 above the root job.
    pub fn parent(&self) -> Koid
        ensures { result ≡ self.now.parent }
    {
        self.parent
    }

    /// How deep it stands, 1 for the root job.
    pub fn depth(&self) -> u32
        ensures { result ≡ self.now.depth }
    {
        self.depth
    }

    /// Whether it was killed.
    pub fn is_killed(&self) -> bool
        ensures { result ≡ self.now.killed }
    {
        self.killed
    }

    /// What its policy decides for the condition: `Allow` where nothing is set.
    ///
    /// Source: the page "zx_job_set_policy" of the Fuchsia documentation.
    pub fn action(&self, condition: Condition) -> Action
        ensures { result ≡ action_in self.now.policy condition }
    {
        self.policy.action(condition)
    }

    /// Whether anything is set in its policy.
    ///
    /// Source: own profile.
    pub fn has_policy(&self) -> bool
        ensures { result ≡ not (is_empty self.now.policy) }
    {
        self.policy.has_actions()
    }

    /// Sets the action for the condition, as `Policy::set`.
    ///
    /// `AlreadyExists` where `Policy::set` answers it; then nothing changes.
    /// Source: the page "zx_job_set_policy" of the Fuchsia documentation.
    pub fn set_policy(
        &mut self,
        condition: Condition,
        action: Action,
        mode: Mode,
    ) -> Result<(), Status>
        ensures answer { result ≡ answer_of self.old.policy condition action mode }
        ensures ok { OnOk result (self.new ≡ with_policy condition action self.old) }
        ensures unchanged { OnErr result (self.new ≡ self.old) }
    {
        self.policy.set(condition, action, mode)
    }

    /// It is killed.
    ///
    /// Source: the page "zx_task_kill" of the Fuchsia documentation.
    pub fn kill(&mut self)
        ensures { self.new ≡ killed_job self.old }
    {
        self.killed = true;
    }
}
