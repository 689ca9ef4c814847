//! Calls on jobs.

ghost use Rattle.std.specs.Prelude.{◌≡◌, false, [], ◌∷◌, IsOk};
ghost use Rattle.std.specs.Option.{option_map};
ghost use Rattle.zl_rights.specs.LookUp.{looked_up};
ghost use Rattle.zl_rights.specs.Numbers.{MANAGE_JOB, SET_POLICY};
ghost use Rattle.zl_rights.specs.Policies.{setting_of};
ghost use Rattle.zl_calls.specs.calls.Job.{JobCreateDoes, JobSetPolicyDoes, has_child_at, setting_value};

use crate::calls::{check_room, look_up, make_object};
use zl_jobs::JobFault;
use zl_objects::{Body, Objects};
use zl_rights::{Action, Condition, HValue, Kind, Koid, Mode, Rights, Status};
use zl_table::Table;

/// Makes a job in the job of the handle, with a handle that has the default rights. It has the policy
/// that the job above it has now.
///
/// `BadHandle`, `WrongType` for what is no job, `AccessDenied` without the right to manage jobs;
/// `OutOfRange` where the job is the sixteenth from the root job on, `BadState` where it was killed;
/// `NoResources` where the table is full or no koid is left, `NoMemory`.
/// Source: the page "zx_job_create" of the Fuchsia documentation; the depth and the order are own
/// profile.
pub fn job_create<const TESTED: bool>(
    table: &mut Table,
    objects: &mut Objects,
    value: u64,
) -> Result<HValue, Status>
    requires sure { TESTED ≡ false
        → IsOk (looked_up table.old.entries value (Kind.Job ∷ []) MANAGE_JOB) }
    ensures { JobCreateDoes value table.old objects.old result table.new objects.new }
{
    let above = look_up::<TESTED>(table, value, &[Kind::Job], Rights::MANAGE_JOB)?;
    let child = match objects.job_below(above.koid) {
        Ok(child) => child,
        Err(JobFault::OutOfRange) => return Err(Status::OutOfRange),
        Err(JobFault::BadState) => return Err(Status::BadState),
    };
    check_room(table, objects)?;
    make_object(table, objects, Body::Job(child))
}

/// What a call sets in the policy of a job.
#[derive(Clone, Copy)]
pub struct Setting {
    pub mode: Mode,
    pub condition: Condition,
    pub action: Action,
}

/// Sets what the job of the handle decides for a condition, all three by their numbers. A job that is
/// made in it from now on has it too.
///
/// `BadHandle`, `WrongType` for what is no job, `AccessDenied` without the right to set its policy;
/// `InvalidArgs` for a number that names no mode, condition or action; `BadState` where the job was
/// killed, or a job or a process lives directly below it; `AlreadyExists` in the mode `Absolute` where
/// the condition, or one for which it stands, is set to another action. It takes no memory.
/// Source: the page "zx_job_set_policy" of the Fuchsia documentation; the numbers are own profile.
pub fn job_set_policy<const TESTED: bool>(
    table: &Table,
    objects: &mut Objects,
    value: u64,
    mode: u64,
    condition: u64,
    action: u64,
) -> Result<(), Status>
    requires sure { TESTED ≡ false
        → IsOk (looked_up table.now.entries value (Kind.Job ∷ []) SET_POLICY) }
    ensures { JobSetPolicyDoes value mode condition action
        table.now objects.old result table.now objects.new }
{
    let job = look_up::<TESTED>(table, value, &[Kind::Job], Rights::SET_POLICY)?;
    let Some(setting) = setting_of(mode, condition, action) else {
        return Err(Status::InvalidArgs);
    };
    if objects.is_dead(job.koid) || has_children(objects, job.koid) {
        return Err(Status::BadState);
    }
    objects.set_policy(job.koid, setting.condition, setting.action, setting.mode)
}

/// Whether a job or a process lives directly below the job.
pub fn has_children(objects: &Objects, job: Koid) -> bool
    ensures { result ≡ has_child_at objects.now.objects job }
{
    let (jobs, processes) = objects.children(job);
    jobs || processes
}

/// What is to be set, if each of the numbers is known.
fn setting_of(mode: u64, condition: u64, action: u64) -> Option<Setting>
    ensures { option_map setting_value result ≡ setting_of mode condition action }
{
    let Some(mode) = Mode::from_number(mode) else {
        return None;
    };
    let Some(condition) = Condition::from_number(condition) else {
        return None;
    };
    let Some(action) = Action::from_number(action) else {
        return None;
    };
    Some(Setting {
        mode,
        condition,
        action,
    })
}
