//! Processes that were never started are gone with their objects.

ghost use Rattle.std.specs.Prelude.{◌≡◌, map, slice_get};
ghost use Rattle.std.specs.List.{filter};
ghost use Rattle.zl_calls.specs.Leaving.{HaveBegunBut, is_unstarted, left_beside};

use crate::process::{Process, State};
use crate::processes::Processes;
use zl_objects::Objects;

/// Each process that was never started is gone, if its object is. It looks at those alone that may be
/// unstarted, and takes no memory.
#[inline(always)]
pub fn leave(processes: &mut Processes, objects: &Objects)
    ensures { processes.new.list.items
        ≡ map (left_beside objects.now.objects) processes.old.list.items }
{
    if !processes.unstarted.is_empty() {
        leave_listed(processes, objects);
    }
}

/// The same, where some are listed. Places of those that aren't unstarted any more leave the list.
#[inline(never)]
fn leave_listed(processes: &mut Processes, objects: &Objects)
    ensures left { processes.new.list.items
        ≡ map (left_beside objects.now.objects) processes.old.list.items }
    ensures places { processes.new.unstarted.items
        ≡ filter (λ n. is_unstarted (slice_get processes.new.list.items n))
        processes.old.unstarted.items }
{
    leave_each(&mut processes.list, objects, &processes.unstarted);
    keep_unstarted(&mut processes.unstarted, &processes.list);
}

/// The same, of the processes at these places, where no other is unstarted.
fn leave_each(processes: &mut Vec<Process>, objects: &Objects, places: &[usize])
    requires { HaveBegunBut places.now processes.old.items }
    ensures { processes.new.items ≡ map (left_beside objects.now.objects) processes.old.items }
{
    for place in places {
        if let Some(process) = processes.get_mut(*place) {
            leave_one(process, objects);
        }
    }
}

/// One process.
fn leave_one(process: &mut Process, objects: &Objects)
    ensures { process.new ≡ left_beside objects.now.objects process.old }
{
    if process.is_created() && objects.kind_of(process.pid).is_none() {
        process.state = State::Gone;
    }
}

/// Those places are left at which a process is unstarted.
fn keep_unstarted(places: &mut Vec<usize>, processes: &[Process])
    ensures { places.new.items
        ≡ filter (λ n. is_unstarted (slice_get processes.now n)) places.old.items }
{
    places.retain(|place| is_unstarted(processes, *place));
}

/// Whether a process is at the place that was never started.
fn is_unstarted(processes: &[Process], place: usize) -> bool
    ensures { result ≡ is_unstarted (slice_get processes.now place) }
{
    match processes.get(place) {
        Some(process) => process.is_created(),
        None => false,
    }
}
