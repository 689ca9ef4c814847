//! Calls on handles.

ghost use Rattle.std.specs.Prelude.{◌≡◌, ◌==◌, false, [], if◌then◌else◌, IsOk, IsTrue};
ghost use Rattle.std.specs.Option.{option_map};
ghost use Rattle.zl_rights.specs.LookUp.{looked_up};
ghost use Rattle.zl_rights.specs.Map.{get, has_key};
ghost use Rattle.zl_rights.specs.Numbers.{DUPLICATE};
ghost use Rattle.zl_calls.specs.calls.Answer.{ClosesEach, status_of, without_handle};
ghost use Rattle.zl_calls.specs.Calling.{OwnWaits};
ghost use Rattle.zl_calls.specs.calls.Handle.{CloseDoes, DupDoes, ReplaceDoes, close_answer};

use crate::calls::{insert, look_up};
use crate::waits::end_handle;
use zl_objects::Objects;
use zl_rights::{Entry, HValue, Pid, Rights, Status, narrow};
use zl_table::Table;

/// Closes the handle; 0 is answered OK.
///
/// `BadHandle` unless the value is live or 0.
/// Source: the page "zx_handle_close" of the Fuchsia documentation.
pub fn close<const TESTED: bool>(
    table: &mut Table,
    objects: &mut Objects,
    value: u64,
) -> Result<(), Status>
    requires sure { TESTED ≡ false → close_answer table.old.entries value ≡ Status.Ok }
    ensures { CloseDoes value table.old objects.old result table.new objects.new }
{
    match take_out(table, value) {
        Some(entry) => {
            objects.release(entry.koid);
            Ok(())
        }
        None => unless_zero::<TESTED>(value),
    }
}

/// The answer to closing a value that isn't live; it is 0 where that isn't tested.
fn unless_zero<const TESTED: bool>(value: u64) -> Result<(), Status>
    requires sure { TESTED ≡ false → value ≡ 0 }
    ensures { status_of result ≡ (if value == 0 then Status.Ok else Status.BadHandle) }
{
    if TESTED && value != 0 {
        Err(Status::BadHandle)
    } else {
        Ok(())
    }
}

/// The handle at the value leaves the table, if it is live.
pub fn take_out(table: &mut Table, value: u64) -> Option<Entry>
    ensures entry { result ≡ get table.old.entries value }
    ensures table { table.new ≡ without_handle table.old value }
{
    // A quick answer, and a fact that the prover needs below, as in `look_up`.
    if table.len() == 0 {
        return None;
    }
    match HValue::try_from(value) {
        Ok(value) => table.remove(value),
        Err(_) => None,
    }
}

/// The handles at these values close, those that are live.
pub fn close_each(table: &mut Table, objects: &mut Objects, values: &[u64])
    ensures { ClosesEach values.now table.old objects.old table.new objects.new }
{
    for value in values {
        // A value that isn't live any more was listed twice.
        let _ = close::<true>(table, objects, *value);
    }
}

/// Makes a second handle to the object, with the rights asked for.
///
/// `BadHandle`, `AccessDenied` without the right to duplicate, `InvalidArgs` where `asked` is
/// neither `Rights::SAME_RIGHTS` alone nor a subset of the handle's rights, `NoResources` where the
/// table is full or the object has too many handles, `NoMemory`.
/// Source: the page "zx_handle_duplicate" of the Fuchsia documentation.
pub fn dup<const TESTED: bool>(
    table: &mut Table,
    objects: &mut Objects,
    value: u64,
    asked: u32,
) -> Result<HValue, Status>
    requires sure { TESTED ≡ false → IsOk (looked_up table.old.entries value [] DUPLICATE) }
    ensures { DupDoes value asked table.old objects.old result table.new objects.new }
{
    let entry = look_up::<TESTED>(table, value, &[], Rights::DUPLICATE)?;
    let rights = narrow(entry.rights, asked)?;
    if table.len() >= Table::CAPACITY || !objects.may_hold(entry.koid) {
        return Err(Status::NoResources);
    }
    let made = insert(table, Entry { rights, ..entry })?;
    objects.hold(entry.koid);
    Ok(made)
}

/// Gives the handle's place to a new one, with the rights asked for; the waits of the old handle end.
/// However it is answered, the old handle is gone.
///
/// `BadHandle`, `InvalidArgs` where `asked` is neither `Rights::SAME_RIGHTS` alone nor a subset of
/// the handle's rights.
/// Source: the page "zx_handle_replace" of the Fuchsia documentation.
pub fn replace<const TESTED: bool>(
    table: &mut Table,
    objects: &mut Objects,
    pid: Pid,
    value: u64,
    asked: u32,
) -> Result<HValue, Status>
    requires sure { TESTED ≡ false → IsTrue (has_key table.old.entries value) }
    requires own { OwnWaits pid table.old.entries objects.old }
    ensures { ReplaceDoes pid value asked table.old objects.old result table.new objects.new }
{
    let Some((place, entry)) = live_at::<TESTED>(table, value) else {
        return Err(Status::BadHandle);
    };
    match narrow(entry.rights, asked) {
        Ok(rights) => {
            table.rewrite(place, rights);
            end_handle(objects, entry.koid, pid, place);
            Ok(place)
        }
        Err(refused) => {
            close_each(table, objects, &[value]);
            Err(refused)
        }
    }
}

/// The handle at the value, of which its kind and its rights are told. It may be of any kind, and
/// needs no right.
///
/// `BadHandle`. It takes no memory.
/// Source: the page "zx_object_get_info" of the Fuchsia documentation, of which the topic
/// ZX_INFO_HANDLE_BASIC has both; that no right is needed is own profile.
pub fn handle_info<const TESTED: bool>(table: &Table, value: u64) -> Result<Entry, Status>
    requires sure { TESTED ≡ false → IsOk (looked_up table.now.entries value [] 0) }
    ensures { result ≡ looked_up table.now.entries value [] 0 }
{
    look_up::<TESTED>(table, value, &[], Rights::NONE)
}

/// The value and its handle, if it is live; it is where that isn't tested.
pub(crate) fn live_at<const TESTED: bool>(table: &Table, value: u64) -> Option<(HValue, Entry)>
    requires sure { TESTED ≡ false → IsTrue (has_key table.now.entries value) }
    ensures { result ≡ option_map (λ entry. (value, entry)) (get table.now.entries value) }
{
    // A fact that the prover needs below, as in `look_up`.
    let live = table.len();
    if !TESTED {
        let place = value as HValue;
        return Some((place, table.entry(place)));
    }
    if live == 0 {
        return None;
    }
    let place = HValue::try_from(value).ok()?;
    Some((place, table.get(place)?))
}
