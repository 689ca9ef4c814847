//! Which changes of objects have to be looked at, as something may be due.

ghost use Rattle.std.specs.Prelude.{◌≡◌, true, false};
ghost use Rattle.std.specs.List.{All};
ghost use Rattle.zl_objects.specs.Calm.{is_due};

use crate::object_tests::new_objects;
use bitflags::Flags;
use std::alloc::AllocError;
use zl_objects::{Awaited, Body, Life, Objects, Pair, Wait};
use zl_rights::{Koid, Pid, Signals};

/// A new event with two handles.
fn new_event(objects: &mut Objects) -> Result<Koid, AllocError> {
    if !objects.has_koids(1) {
        return Err(AllocError);
    }
    objects.create(Body::Event, 2)
}

/// A new process of the root job.
fn new_process(objects: &mut Objects) -> Result<Koid, AllocError> {
    if !objects.has_koids(1) {
        return Err(AllocError);
    }
    let process = Body::Process {
        job: Objects::ROOT_JOB,
        life: Life::Created,
    };
    objects.create(process, 1)
}

/// Both ends of a new event pair, with a handle each.
fn new_pair(objects: &mut Objects) -> Result<(Koid, Koid), AllocError> {
    if !objects.has_koids(2) {
        return Err(AllocError);
    }
    objects.create_pair(Pair::Eventpair, 1)
}

/// Raises a signal at the object.
fn signal(objects: &mut Objects, koid: Koid) {
    objects.change(koid, Signals::empty(), Signals::SIGNALED);
}

/// A new port with one handle.
fn new_port(objects: &mut Objects) -> Result<Koid, AllocError> {
    if !objects.has_koids(1) {
        return Err(AllocError);
    }
    let body = objects.new_port();
    objects.create(body, 1)
}

/// Registers a wait of process 2 for the signal, by its handle 1.
fn watch(objects: &mut Objects, object: Koid, port: Koid) -> Result<(), AllocError> {
    let are_there = objects.kind_of(object).is_some() && objects.is_port(port);
    if !are_there || !objects.may_register() {
        return Err(AllocError);
    }
    objects.watch(Wait {
        pid: 2,
        value: 1,
        object,
        port,
        key: 0,
        mask: Signals::SIGNALED,
    })
}

/// Takes those off the list of the blocked that have what they wait for, at most 64. Says whether
/// these were all.
fn take_all_due(objects: &mut Objects) -> bool
    ensures { result ≡ true
        → All (λ s. is_due objects.new.objects s.awaited ≡ false) objects.new.sleepers }
{
    for _ in 0..64 {
        objects.take_due();
    }
    let None = objects.take_due() else {
        return false;
    };
    true
}

/// Says that what was touched was looked at, if no wait is registered, or a single one that doesn't
/// hold, and at most 64 processes have what they wait for. Answers whether it said so.
fn look(objects: &mut Objects) -> bool {
    if !take_all_due(objects) {
        return false;
    }
    if let Some(wait) = objects.wait_at(0) {
        if objects.wait_at(1).is_some() || objects.signals_of(wait.object).intersects(wait.mask) {
            return false;
        }
    }
    objects.calm();
    true
}

#[test]
fn objects_at_which_nothing_waits_stay_quiet(rt: HostRuntime) -> Result<(), AllocError> {
    let mut objects = new_objects(rt.alloc())?;
    assert!(rt; objects.is_quiet());
    let event = new_event(&mut objects)?;
    signal(&mut objects, event);
    assert!(rt; objects.is_quiet());
    objects.release(event);
    assert!(rt; objects.is_quiet());
    Ok(())
}

#[test]
fn an_object_at_which_a_process_is_blocked_is_looked_at_once_it_changes(
    rt: HostRuntime,
) -> Result<(), AllocError> {
    let mut objects = new_objects(rt.alloc())?;
    let (event, other) = (new_event(&mut objects)?, new_event(&mut objects)?);
    let mask = u64::from(Signals::SIGNALED.bits());
    objects.sleep(7, Awaited::SignalOf { koid: event, mask });
    signal(&mut objects, other);
    assert!(rt; objects.is_quiet());
    signal(&mut objects, event);
    assert!(rt; !objects.is_quiet());
    Ok(())
}

#[test]
fn a_process_that_blocks_on_what_is_there_is_looked_at(rt: HostRuntime) -> Result<(), AllocError> {
    let mut objects = new_objects(rt.alloc())?;
    let event = new_event(&mut objects)?;
    signal(&mut objects, event);
    let mask = u64::from(Signals::SIGNALED.bits());
    objects.sleep(7, Awaited::SignalOf { koid: event, mask });
    assert!(rt; !objects.is_quiet());
    Ok(())
}

#[test]
fn an_object_is_looked_at_as_a_wait_is_registered(rt: HostRuntime) -> Result<(), AllocError> {
    let mut objects = new_objects(rt.alloc())?;
    let (event, port) = (new_event(&mut objects)?, new_port(&mut objects)?);
    assert!(rt; objects.is_quiet());
    watch(&mut objects, event, port)?;
    assert!(rt; !objects.is_quiet());
    Ok(())
}

#[test]
fn where_an_object_goes_others_stay_quiet(rt: HostRuntime) -> Result<(), AllocError> {
    let mut objects = new_objects(rt.alloc())?;
    let (event, other) = (new_event(&mut objects)?, new_event(&mut objects)?);
    let port = new_port(&mut objects)?;
    watch(&mut objects, event, port)?;
    assert!(rt; look(&mut objects));
    objects.release(other);
    objects.release(other);
    assert!(rt; objects.kind_of(other).is_none() && objects.is_quiet());
    Ok(())
}

#[test]
fn where_an_end_goes_its_peer_is_looked_at(rt: HostRuntime) -> Result<(), AllocError> {
    let mut objects = new_objects(rt.alloc())?;
    let ((end, peer), port) = (new_pair(&mut objects)?, new_port(&mut objects)?);
    watch(&mut objects, peer, port)?;
    assert!(rt; look(&mut objects));
    objects.release(end);
    assert!(rt; !objects.is_quiet());
    assert!(rt; look(&mut objects));
    assert!(rt; objects.is_quiet());
    Ok(())
}

#[test]
fn where_an_end_goes_at_whose_peer_nothing_waits_all_stay_quiet(
    rt: HostRuntime,
) -> Result<(), AllocError> {
    let mut objects = new_objects(rt.alloc())?;
    let (end, _) = new_pair(&mut objects)?;
    objects.release(end);
    assert!(rt; objects.kind_of(end).is_none() && objects.is_quiet());
    Ok(())
}

#[test]
fn where_a_process_goes_its_job_is_looked_at(rt: HostRuntime) -> Result<(), AllocError> {
    let mut objects = new_objects(rt.alloc())?;
    let (process, port) = (new_process(&mut objects)?, new_port(&mut objects)?);
    watch(&mut objects, Objects::ROOT_JOB, port)?;
    assert!(rt; look(&mut objects));
    objects.release(process);
    assert!(rt; !objects.is_quiet());
    Ok(())
}

#[test]
fn where_a_process_ends_others_stay_quiet(rt: HostRuntime) -> Result<(), AllocError> {
    let mut objects = new_objects(rt.alloc())?;
    let (event, process) = (new_event(&mut objects)?, new_process(&mut objects)?);
    let port = new_port(&mut objects)?;
    watch(&mut objects, event, port)?;
    assert!(rt; look(&mut objects));
    objects.end(process);
    assert!(rt; !objects.lives(process) && objects.is_quiet());
    Ok(())
}

#[test]
fn a_process_that_ends_is_looked_at(rt: HostRuntime) -> Result<(), AllocError> {
    let mut objects = new_objects(rt.alloc())?;
    let (process, port) = (new_process(&mut objects)?, new_port(&mut objects)?);
    watch(&mut objects, process, port)?;
    assert!(rt; look(&mut objects));
    objects.end(process);
    assert!(rt; !objects.is_quiet());
    Ok(())
}

#[test]
fn where_a_process_ends_its_job_is_looked_at(rt: HostRuntime) -> Result<(), AllocError> {
    let mut objects = new_objects(rt.alloc())?;
    let (process, port) = (new_process(&mut objects)?, new_port(&mut objects)?);
    watch(&mut objects, Objects::ROOT_JOB, port)?;
    assert!(rt; look(&mut objects));
    objects.end(process);
    assert!(rt; !objects.is_quiet());
    Ok(())
}

/// Kills the process.
fn kill(objects: &mut Objects, process: Koid) {
    let list = objects.list_task(process);
    objects.kill(process, &list);
    objects.put_back(list);
}

#[test]
fn where_a_process_is_killed_others_stay_quiet(rt: HostRuntime) -> Result<(), AllocError> {
    let mut objects = new_objects(rt.alloc())?;
    let (event, process) = (new_event(&mut objects)?, new_process(&mut objects)?);
    let port = new_port(&mut objects)?;
    watch(&mut objects, event, port)?;
    assert!(rt; look(&mut objects));
    kill(&mut objects, process);
    assert!(rt; !objects.lives(process) && objects.is_quiet());
    Ok(())
}

#[test]
fn where_a_process_is_killed_its_job_is_looked_at(rt: HostRuntime) -> Result<(), AllocError> {
    let mut objects = new_objects(rt.alloc())?;
    let (process, port) = (new_process(&mut objects)?, new_port(&mut objects)?);
    watch(&mut objects, Objects::ROOT_JOB, port)?;
    assert!(rt; look(&mut objects));
    kill(&mut objects, process);
    assert!(rt; !objects.is_quiet());
    Ok(())
}

#[test]
fn with_more_blocked_processes_than_have_room_all_is_looked_at(
    rt: HostRuntime,
) -> Result<(), AllocError> {
    let mut objects = new_objects(rt.alloc())?;
    let event = new_event(&mut objects)?;
    for pid in 2..66 {
        objects.sleep(pid, Awaited::PacketAt(event));
    }
    assert!(rt; objects.is_quiet());
    objects.sleep(66, Awaited::PacketAt(event));
    assert!(rt; !objects.is_quiet());
    Ok(())
}

#[test]
fn each_process_that_was_made_has_room_among_the_blocked(
    rt: HostRuntime,
) -> Result<(), AllocError> {
    let mut objects = new_objects(rt.alloc())?;
    let event = new_event(&mut objects)?;
    for _ in 0..70 {
        let pid = new_process(&mut objects)?;
        objects.sleep(pid, Awaited::PacketAt(event));
    }
    assert!(rt; objects.is_quiet());
    Ok(())
}

#[test]
fn an_object_with_a_wait_that_doesnt_hold_is_quiet_once_it_was_looked_at(
    rt: HostRuntime,
) -> Result<(), AllocError> {
    let mut objects = new_objects(rt.alloc())?;
    let (event, port) = (new_event(&mut objects)?, new_port(&mut objects)?);
    watch(&mut objects, event, port)?;
    assert!(rt; look(&mut objects));
    assert!(rt; objects.is_quiet());
    signal(&mut objects, event);
    assert!(rt; !objects.is_quiet() && !look(&mut objects));
    let active = objects.signals_of(event);
    assert!(rt; objects.fire(event, active).is_some());
    assert!(rt; look(&mut objects));
    assert!(rt; objects.is_quiet());
    Ok(())
}

#[test]
fn who_still_waits_is_known_once_its_object_was_looked_at(
    rt: HostRuntime,
) -> Result<(), AllocError> {
    let mut objects = new_objects(rt.alloc())?;
    let event = new_event(&mut objects)?;
    let mask = u64::from(Signals::SIGNALED.bits());
    objects.sleep(7, Awaited::SignalOf { koid: event, mask });
    objects.change(event, Signals::empty(), Signals::USER_0);
    assert!(rt; !objects.is_quiet());
    assert!(rt; look(&mut objects));
    assert!(rt; objects.is_quiet());
    signal(&mut objects, event);
    assert!(rt; !objects.is_quiet());
    Ok(())
}

/// As many processes as there is room for, from this one on, wait for the signal at the object.
fn block_all(objects: &mut Objects, first: u64, koid: Koid) {
    let mask = u64::from(Signals::SIGNALED.bits());
    for pid in first..first.saturating_add(64) {
        objects.sleep(pid, Awaited::SignalOf { koid, mask });
    }
}

#[test]
fn there_is_room_for_others_once_it_was_looked_at_who_waited(
    rt: HostRuntime,
) -> Result<(), AllocError> {
    let mut objects = new_objects(rt.alloc())?;
    let (event, other) = (new_event(&mut objects)?, new_event(&mut objects)?);
    block_all(&mut objects, 2, event);
    assert!(rt; objects.is_quiet());
    signal(&mut objects, event);
    assert!(rt; !objects.is_quiet());
    assert!(rt; look(&mut objects));
    assert!(rt; objects.is_quiet());
    block_all(&mut objects, 66, other);
    assert!(rt; objects.is_quiet());
    Ok(())
}

/// The process waits for the signal at the object.
fn block(objects: &mut Objects, pid: u64, koid: Koid) {
    let mask = u64::from(Signals::SIGNALED.bits());
    objects.sleep(pid, Awaited::SignalOf { koid, mask });
}

/// The process waits for a packet of the port.
fn block_at_port(objects: &mut Objects, pid: u64, port: Koid) {
    objects.sleep(pid, Awaited::PacketAt(port));
}

/// The next process that has what it waits for.
fn next(objects: &mut Objects) -> Option<Pid> {
    Some(objects.take_due()?.pid)
}

#[test]
fn who_may_wake_is_told_by_the_objects_that_were_touched(
    rt: HostRuntime,
) -> Result<(), AllocError> {
    let mut objects = new_objects(rt.alloc())?;
    let (event, other) = (new_event(&mut objects)?, new_event(&mut objects)?);
    block(&mut objects, 7, event);
    block(&mut objects, 8, other);
    assert_eq!(rt; next(&mut objects), None);
    signal(&mut objects, event);
    assert_eq!(rt; next(&mut objects), Some(7));
    assert_eq!(rt; next(&mut objects), None);
    signal(&mut objects, other);
    assert_eq!(rt; next(&mut objects), Some(8));
    assert_eq!(rt; next(&mut objects), None);
    Ok(())
}

#[test]
fn those_at_one_object_come_in_the_order_in_which_they_blocked(
    rt: HostRuntime,
) -> Result<(), AllocError> {
    let mut objects = new_objects(rt.alloc())?;
    let (event, other) = (new_event(&mut objects)?, new_event(&mut objects)?);
    block(&mut objects, 9, other);
    block(&mut objects, 8, event);
    block(&mut objects, 7, other);
    block(&mut objects, 6, event);
    signal(&mut objects, event);
    assert_eq!(rt; next(&mut objects), Some(8));
    assert_eq!(rt; next(&mut objects), Some(6));
    assert_eq!(rt; next(&mut objects), None);
    signal(&mut objects, other);
    assert_eq!(rt; next(&mut objects), Some(9));
    assert_eq!(rt; next(&mut objects), Some(7));
    assert_eq!(rt; next(&mut objects), None);
    Ok(())
}

#[test]
fn those_at_two_touched_objects_come_one_object_after_another(
    rt: HostRuntime,
) -> Result<(), AllocError> {
    let mut objects = new_objects(rt.alloc())?;
    let (event, port) = (new_event(&mut objects)?, new_port(&mut objects)?);
    block_at_port(&mut objects, 9, port);
    block(&mut objects, 8, event);
    block_at_port(&mut objects, 7, port);
    watch(&mut objects, event, port)?;
    signal(&mut objects, event);
    assert_eq!(rt; next(&mut objects), Some(8));
    assert_eq!(rt; next(&mut objects), None);
    objects.fire(event, Signals::SIGNALED);
    assert_eq!(rt; next(&mut objects), Some(9));
    assert_eq!(rt; next(&mut objects), Some(7));
    assert_eq!(rt; next(&mut objects), None);
    Ok(())
}

#[test]
fn where_there_is_no_room_nobody_is_listed(rt: HostRuntime) -> Result<(), AllocError> {
    let mut objects = new_objects(rt.alloc())?;
    let (event, other) = (new_event(&mut objects)?, new_event(&mut objects)?);
    block_all(&mut objects, 2, event);
    assert!(rt; !objects.is_crowded());
    block(&mut objects, 66, other);
    assert!(rt; objects.is_crowded());
    objects.forget_sleepers();
    signal(&mut objects, event);
    assert_eq!(rt; next(&mut objects), None);
    assert!(rt; !objects.is_quiet());
    Ok(())
}
