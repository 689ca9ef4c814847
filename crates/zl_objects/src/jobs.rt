//! Jobs and processes: where they stand, and what jobs decide.

ghost use Rattle.std.specs.Prelude.{◌≡◌, OnErr, OnOk, slice_get};
ghost use Rattle.zl_rights.specs.Map.{get};
ghost use Rattle.zl_objects.specs.Objects.{job_in, keeper_of};
ghost use Rattle.zl_objects.specs.Jobs.{action_here, as_job, children, depth_of, descendants, has_actions, is_dead_here, is_job_below_here, is_process_below, is_within_here, job_at, lives_body, lives_in, new_in, parent_held, policy_answer, setting_policy, with_policy_set};

use crate::children::{has_job_below, has_process_below};
use crate::killing::{is_below, is_within};
use crate::object::{Body, Object};
use crate::objects::Objects;
use zl_jobs::{Job, JobFault};
use zl_rights::{Action, Condition, Koid, Mode, Status};

impl Object {
    /// Sets the action in the policy of a job, as `Policy::set`.
    pub(crate) fn set_policy(
        &mut self,
        condition: Condition,
        action: Action,
        mode: Mode,
    ) -> Result<(), Status>
        ensures answer { result ≡ policy_answer (as_job self.old.body) condition action mode }
        ensures ok { OnOk result (self.new ≡ with_policy_set condition action self.old) }
        ensures unchanged { OnErr result (self.new ≡ self.old) }
    {
        match &mut self.body {
            Body::Job(job) => job.set_policy(condition, action, mode),
            _ => Ok(()),
        }
    }
}

impl Body {
    /// The job of which it is a living child, if it is one.
    pub(crate) fn keeper(&self) -> Option<Koid>
        ensures { result ≡ keeper_of self.now }
    {
        match self {
            Body::Job(job) => {
                if job.is_killed() {
                    None
                } else {
                    Some(job.parent())
                }
            }
            Body::Process { job, life } => { if life.is_alive() { Some(*job) } else { None } }
            _ => None,
        }
    }

    /// The job directly above a job or a process; 0 above all else.
    pub(crate) fn parent(&self) -> Koid
        ensures { result ≡ parent_held self.now }
    {
        match self {
            Body::Job(job) => job.parent(),
            Body::Process { job, .. } => *job,
            _ => 0,
        }
    }

    /// Whether it is a living job directly below the job.
    pub(crate) fn is_job_below(&self, parent: Koid) -> bool
        ensures { result ≡ is_job_below_here parent self.now }
    {
        match self {
            Body::Job(job) => job.parent() == parent && !job.is_killed(),
            _ => false,
        }
    }

    /// Whether it is a living process of the job.
    pub(crate) fn is_process_below(&self, parent: Koid) -> bool
        ensures { result ≡ is_process_below parent self.now }
    {
        match self {
            Body::Process { job, life } => *job == parent && life.is_alive(),
            _ => false,
        }
    }

    /// Whether it is a process that isn't over.
    fn lives(&self) -> bool
        ensures { result ≡ lives_body self.now }
    {
        match self {
            Body::Process { life, .. } => life.is_alive(),
            _ => false,
        }
    }

    /// Whether it is no job that lives.
    fn is_dead(&self) -> bool
        ensures { result ≡ is_dead_here (as_job self.now) }
    {
        match self {
            Body::Job(job) => job.is_killed(),
            _ => true,
        }
    }

    /// How deep a job stands; 0 of all else.
    fn depth(&self) -> u32
        ensures { result ≡ depth_of (as_job self.now) }
    {
        match self {
            Body::Job(job) => job.depth(),
            _ => 0,
        }
    }

    /// What the policy of a job decides; all else allows.
    fn action(&self, condition: Condition) -> Action
        ensures { result ≡ action_here (as_job self.now) condition }
    {
        match self {
            Body::Job(job) => job.action(condition),
            _ => Action::Allow,
        }
    }

    /// Whether anything is set in the policy of a job.
    fn has_policy(&self) -> bool
        ensures { result ≡ has_actions (as_job self.now) }
    {
        match self {
            Body::Job(job) => job.has_policy(),
            _ => false,
        }
    }

    /// A new job in a job, whose koid is given.
    fn job_below(&self, koid: Koid) -> Result<Job, JobFault>
        ensures { result ≡ new_in koid (as_job self.now) }
    {
        match self {
            Body::Job(job) => job.below(koid),
            _ => Err(JobFault::BadState),
        }
    }
}

#[tactic(auto, using(crate::proofs::ByKoid::by_koid, crate::proofs::Kept::kept))]
impl Objects {
    /// Whether the koid is that of a process that isn't over.
    ///
    /// Source: own profile.
    pub fn lives(&self, pid: Koid) -> bool
        ensures { result ≡ lives_in (get self.now.objects pid) }
    {
        match self.store.by_koid.get(&pid) {
            Some(object) => object.body.lives(),
            None => false,
        }
    }

    /// The job of the process, if there is one of this koid.
    ///
    /// Source: own profile.
    pub fn job_of(&self, pid: Koid) -> Option<Koid>
        ensures { result ≡ job_in (get self.now.objects pid) }
    {
        self.store.by_koid.get(&pid)?.body.job()
    }

    /// Whether the job was killed. What is no job counts as killed.
    ///
    /// Source: own profile.
    pub fn is_dead(&self, job: Koid) -> bool
        ensures { result ≡ is_dead_here (job_at self.now.objects job) }
    {
        match self.store.by_koid.get(&job) {
            Some(object) => object.body.is_dead(),
            None => true,
        }
    }

    /// How deep the job stands, 1 for the root job; 0 of what is no job.
    ///
    /// Source: own profile.
    pub fn depth(&self, job: Koid) -> u32
        ensures { result ≡ depth_of (job_at self.now.objects job) }
    {
        match self.store.by_koid.get(&job) {
            Some(object) => object.body.depth(),
            None => 0,
        }
    }

    /// What the policy of the job decides for the condition: `Allow` where nothing is set, and
    /// where it is no job.
    ///
    /// Source: the page "zx_job_set_policy" of the Fuchsia documentation.
    pub fn action(&self, job: Koid, condition: Condition) -> Action
        ensures { result ≡ action_here (job_at self.now.objects job) condition }
    {
        match self.store.by_koid.get(&job) {
            Some(object) => object.body.action(condition),
            None => Action::Allow,
        }
    }

    /// Whether anything is set in the policy of the job.
    ///
    /// Source: own profile.
    pub fn has_policy(&self, job: Koid) -> bool
        ensures { result ≡ has_actions (job_at self.now.objects job) }
    {
        match self.store.by_koid.get(&job) {
            Some(object) => object.body.has_policy(),
            None => false,
        }
    }

    /// Whether a living job stands directly below the job, and whether a living process does.
    ///
    /// Source: own profile.
    pub fn children(&self, job: Koid) -> (bool, bool)
        ensures { result ≡ children self.now.objects job }
    {
        (
            has_job_below(&self.store.by_koid, &self.store.children, job),
            has_process_below(&self.store.by_koid, &self.store.children, job),
        )
    }

    /// A new job in the job, with the policy of that, to be given to `create`.
    ///
    /// `OutOfRange` where the job stands at the depth `Job::MOST_DEPTH`, then `BadState` where it
    /// was killed or isn't there.
    /// Source: the page "zx_job_create" of the Fuchsia documentation.
    pub fn job_below(&self, job: Koid) -> Result<Job, JobFault>
        ensures { result ≡ new_in job (job_at self.now.objects job) }
    {
        match self.store.by_koid.get(&job) {
            Some(object) => object.body.job_below(job),
            None => Err(JobFault::BadState),
        }
    }

    /// Sets the action in the policy of the job, as `Policy::set`. Where it is no job, nothing
    /// changes. It takes no memory.
    ///
    /// `AlreadyExists` where `Policy::set` answers it; then nothing changes.
    /// Source: the page "zx_job_set_policy" of the Fuchsia documentation.
    pub fn set_policy(
        &mut self,
        job: Koid,
        condition: Condition,
        action: Action,
        mode: Mode,
    ) -> Result<(), Status>
        ensures answer { result
            ≡ policy_answer (job_at self.old.objects job) condition action mode }
        ensures ok { OnOk result (self.new ≡ setting_policy self.old job condition action) }
        ensures unchanged { OnErr result (self.new ≡ self.old) }
    {
        let Some(object) = self.store.by_koid.get_mut(&job) else {
            return Ok(());
        };
        object.set_policy(condition, action, mode)
    }

    /// Whether the koid is the job's, or that of a job or a process below it, at most 16 levels down.
    /// 0 is no koid: nothing is so for it.
    ///
    /// Source: own profile.
    pub fn is_within(&self, job: Koid, koid: Koid) -> bool
        ensures { result ≡ is_within_here self.now.objects job koid }
    {
        is_within(&self.store.by_koid, job, koid)
    }

    /// The job or process at place `n`, from 0, of all that stand below the job, each once, in the
    /// order of their koids. What was killed or is over, and is still there, is among them. 0 is no
    /// koid: nothing stands below it.
    ///
    /// Source: own profile.
    pub fn below(&self, job: Koid, n: usize) -> Option<Koid>
        ensures { result ≡ slice_get (descendants self.now.objects job) n }
    {
        self.store
            .by_koid
            .keys()
            .filter(|koid| is_below(&self.store.by_koid, job, **koid))
            .nth(n)
            .copied()
    }
}
