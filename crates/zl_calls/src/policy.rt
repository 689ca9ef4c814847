//! What the policy of a job says to a call of its process, which is asked before the call is done.

ghost use Rattle.std.specs.Prelude.{◌≡◌, ◌<◌, ◌≤◌, ◌^◌, false, [], None, IfSome, IfNone, length, map, take};
ghost use Rattle.std.specs.Result.{result_err};
ghost use Rattle.zl_rights.specs.LookUp.{looked_up};
ghost use Rattle.zl_rights.specs.Numbers.{bits};
ghost use Rattle.zl_code.specs.Asked.{is_written, those};
ghost use Rattle.zl_code.specs.Instructions.{field_of, kinds_of};
ghost use Rattle.zl_code.specs.Limits.{most_registers};
ghost use Rattle.zl_code.specs.Refusals.{condition_of};
ghost use Rattle.zl_code.specs.Request.{site_of};
ghost use Rattle.zl_objects.specs.Jobs.{action_here, job_at};
ghost use Rattle.zl_calls.specs.FieldFaults.{field_fault, fields_fault, last_fault};
ghost use Rattle.zl_calls.specs.Policed.{IsDenied, Policed, on_fault, verdict_by, verdict_on};
ghost use Rattle.zl_calls.specs.Sure.{IsUnpoliced};
ghost use Rattle.zl_calls.specs.calls.Channel.{fault_of};

use crate::calls::channel::writing::{examine_list, examine_places, sent_places};
use crate::calls::look_up;
use crate::calls::process::end;
use crate::process::{Process, Registers};
use std::alloc::Global;
use zl_code::{CallInstr, Columns, Ending, Field, Kinds, Outcome};
use zl_interp::Cpu;
use zl_objects::Objects;
use zl_rights::{Action, Condition, Kind, Koid, Rights, Status};
use zl_table::Table;

/// The code with which a process ends that a policy kills (own profile).
const BY_POLICY: i32 = -1026;

/// How a policy ends a call, if it does.
#[derive(Clone, Copy)]
pub enum Verdict {
    /// The call may make no object, and is answered so.
    Denied,
    /// The caller is killed for it.
    Killed,
}

/// Ends the call as the policy of the caller's job says, if that keeps the call from being done. The
/// call itself looks at no policy.
///
/// A handle operand that is `BadHandle` or `WrongType` kills the caller where the policy kills for
/// that. Where all of them will do, a call that makes an object is answered `AccessDenied` where the
/// policy denies it, and its caller is killed where the policy kills for it. It takes no memory.
/// Source: the page "zx_job_set_policy" of the Fuchsia documentation; that it denies no bad handle is
/// own profile.
#[inline(always)]
pub fn by_policy<const TESTED: bool>(
    alloc: Global,
    process: &mut Process,
    objects: &mut Objects,
    call: &CallInstr,
) -> Option<Outcome>
    requires counter { process.old.cpu.counter < 2 ^ 32 }
    requires sure { TESTED ≡ false
        → IsUnpoliced process.old objects.old (site_of call.now process.old.cpu) }
    ensures policed { IfSome result (λ outcome. IfSome (site_of call.now process.old.cpu)
        (λ s. Policed s process.old objects.old outcome process.new objects.new)) }
    ensures done { IfNone result (IfSome (site_of call.now process.old.cpu) (λ s.
        verdict_on process.old.table.entries objects.old.objects process.old.pid s.request
        ≡ None)) }
    ensures same_process { IfNone result (process.new ≡ process.old) }
    ensures same_objects { IfNone result (objects.new ≡ objects.old) }
{
    match judge::<TESTED>(process, objects, call)? {
        Verdict::Denied => deny(process, call),
        Verdict::Killed => {
            end(alloc, process, objects, BY_POLICY);
            Some(Outcome::Ended(BY_POLICY))
        }
    }
}

/// How the policy of the process's job ends the call, if it does; it doesn't where that isn't
/// tested.
#[inline(always)]
fn judge<const TESTED: bool>(
    process: &Process,
    objects: &Objects,
    call: &CallInstr,
) -> Option<Verdict>
    requires sure { TESTED ≡ false
        → IsUnpoliced process.now objects.now (site_of call.now process.now.cpu) }
    ensures { IfSome (site_of call.now process.now.cpu) (λ s. result
        ≡ verdict_on process.now.table.entries objects.now.objects process.now.pid s.request) }
{
    if !TESTED {
        return None;
    }
    let job = objects.job_of(process.pid)?;
    if !objects.has_policy(job) {
        // So it is in most jobs, and spares the examination.
        return None;
    }
    let columns = call.name.row().columns;
    match examine(&process.table, &process.cpu, columns, call) {
        Ok(()) => on_making(objects, job, columns.condition),
        Err(fault) => on_fault(objects, job, fault),
    }
}

/// How a call ends that makes an object under this condition, if it makes one of which a policy
/// decides.
fn on_making(objects: &Objects, job: Koid, condition: Option<Condition>) -> Option<Verdict>
    ensures { result ≡ verdict_by (action_here (job_at objects.now.objects job)) None condition }
{
    match objects.action(job, condition?) {
        Action::Allow => None,
        Action::Deny => Some(Verdict::Denied),
        Action::Kill => Some(Verdict::Killed),
    }
}

/// How a call ends with this fault of a handle operand: in any other way than it would without a
/// policy just where the job kills for it.
fn on_fault(objects: &Objects, job: Koid, fault: Status) -> Option<Verdict>
    ensures { result ≡ on_fault (action_here (job_at objects.now.objects job)) fault }
{
    let condition = match fault {
        Status::BadHandle => Condition::BadHandle,
        Status::WrongType => Condition::WrongObject,
        _ => return None,
    };
    match objects.action(job, condition) {
        Action::Kill => Some(Verdict::Killed),
        _ => None,
    }
}

/// Answers a call that makes an object with `AccessDenied`, and 0 in the registers of its handles.
fn deny(process: &mut Process, call: &CallInstr) -> Option<Outcome>
    requires counter { process.old.cpu.counter < 2 ^ 32 }
    ensures denied { IfSome result (λ outcome. (r : Objects)
        → IfSome (site_of call.now process.old.cpu)
        (λ s. IsDenied s process.old r outcome process.new r)) }
    ensures nothing { IfNone result (IfSome (site_of call.now process.old.cpu)
        (λ s. condition_of s.request ≡ None)) }
    ensures unchanged { IfNone result (process.new ≡ process.old) }
{
    let columns = call.name.row().columns;
    columns.condition?;
    let (destinations, count) = written(columns.fields, &call.registers);
    Some(process.answered(Status::AccessDenied, &destinations[..count], &[]))
}

/// The registers that a call writes which has these fields, in their order, and how many they are.
fn written(fields: &[Field], registers: &Registers) -> (Registers, usize)
    requires { length fields.now ≤ most_registers }
    ensures registers { take result.1 result.0
        ≡ those is_written (map field_of fields.now) 0 registers.now }
    ensures within { result.1 ≤ length result.0 }
{
    let mut destinations = *registers;
    let mut count = 0;
    for (n, field) in fields.iter().enumerate() {
        if let Field::Writes | Field::Changes = field {
            destinations[count] = registers[n];
            count += 1;
        }
    }
    (destinations, count)
}

/// Examines the handle operands of the call from left to right, and behind them those of its list,
/// and gives the fault of the first that has one. A handle that stands in a list twice isn't live any
/// more at the second place.
fn examine(table: &Table, cpu: &Cpu, columns: &Columns, call: &CallInstr) -> Result<(), Status>
    requires { length columns.now.fields.now ≤ most_registers }
    ensures { fault_of result ≡ fields_fault table.now.entries cpu.now
        (map field_of columns.now.fields.now) 0 call.now.registers
        (last_fault table.now.entries cpu.now columns.now.ending call.now) }
{
    for (n, field) in columns.fields.iter().enumerate() {
        examine_one(table, *field, cpu.register(call.registers[n]))?;
    }
    match columns.ending {
        Ending::Handles => {
            let (values, count) = cpu.listed(&call.handles());
            examine_list(table, &values[..count])
        }
        Ending::FromSlots => examine_places(table, sent_places(cpu, call)),
        _ => Ok(()),
    }
}

/// The fault of the value in a register of this field, if it is a handle operand that has one.
fn examine_one(table: &Table, field: Field, value: u64) -> Result<(), Status>
    ensures { result_err result ≡ field_fault table.now.entries (field_of field) value }
{
    match field {
        Field::Names(kinds, rights) => find(table, value, kinds, rights),
        Field::Consumes(kinds, rights) => find(table, value, kinds, rights),
        Field::Closes => {
            // A value of 0 names nothing, and may be closed.
            if value == 0 {
                return Ok(());
            }
            find(table, value, Kinds::Any, Rights::NONE)
        }
        Field::Reads => Ok(()),
        Field::Writes => Ok(()),
        Field::Changes => Ok(()),
        Field::Triples => Ok(()),
    }
}

/// Whether the value is that of a handle of one of the kinds with the rights, and its fault if it
/// isn't.
fn find(table: &Table, value: u64, kinds: Kinds, rights: Rights) -> Result<(), Status>
    ensures { result_err result
        ≡ result_err (looked_up table.now.entries value (kinds_of kinds) (bits rights)) }
{
    let found = match kinds {
        Kinds::Any => look_up::<true>(table, value, &[], rights),
        Kinds::Only(kind) => look_up::<true>(table, value, &[kind], rights),
        Kinds::Tasks => look_up::<true>(table, value, &[Kind::Process, Kind::Job], rights),
        Kinds::Ends => look_up::<true>(table, value, &[Kind::Channel, Kind::Eventpair], rights),
    };
    match found {
        Ok(_) => Ok(()),
        Err(fault) => Err(fault),
    }
}
