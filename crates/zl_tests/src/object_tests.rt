//! Objects by themselves: which of them go, their waits, and jobs that are killed.

use bitflags::Flags;
use std::alloc::{AllocError, Global};
use zl_channel::{Handles, Message};
use zl_objects::{Body, Life, Objects, Pair, Wait};
use zl_rights::{Entry, Kind, Koid, Rights, Signals};
use zl_signals::Watch;

const LENGTH: u64 = 30_000;

/// The objects of a new world. They are in a box, since what has many parts takes long to prove where it
/// is lent or let go of.
pub fn new_objects(alloc: Global) -> Result<Box<Objects>, AllocError> {
    Ok(Box::new(alloc, Objects::new(alloc)?)?)
}

/// Both ends of a new channel, each with one handle.
fn new_channel(objects: &mut Objects) -> Result<(Koid, Koid), AllocError> {
    if !objects.has_koids(2) {
        return Err(AllocError);
    }
    objects.create_pair(Pair::Channel, 1)
}

/// Sends a message with a handle to the object `named` from this end.
fn send(alloc: Global, objects: &mut Objects, end: Koid, named: Koid) -> Result<(), AllocError> {
    let mut handles = Handles::new(alloc);
    handles.push(Entry {
        koid: named,
        kind: Kind::Channel,
        rights: Rights::READ,
    })?;
    let message = Message {
        bytes: Vec::new(alloc),
        handles,
    };
    let Some(reader) = objects.reader(end) else {
        return Err(AllocError);
    };
    objects.send(reader, message).map_err(|_| AllocError)
}

#[test]
fn a_chain_of_ends_goes_whole(rt: HostRuntime) -> Result<(), AllocError> {
    let mut objects = new_objects(rt.alloc())?;
    let mut before = Objects::ROOT_JOB;
    for _ in 0..LENGTH {
        let (first, second) = new_channel(&mut objects)?;
        send(rt.alloc(), &mut objects, first, before)?;
        objects.release(first);
        before = second;
    }
    for koid in [3, 5, 30_001, 60_001] {
        assert!(rt; objects.may_hold(koid));
    }
    objects.release(before);
    for koid in [3, 5, 30_001, 60_001] {
        assert!(rt; !objects.may_hold(koid));
    }
    Ok(())
}

#[test]
fn an_end_in_its_own_queue_stays(rt: HostRuntime) -> Result<(), AllocError> {
    let mut objects = new_objects(rt.alloc())?;
    let (first, second) = new_channel(&mut objects)?;
    assert_eq!(rt; (first, second), (2, 3));
    assert!(rt; objects.hold(second));
    send(rt.alloc(), &mut objects, first, second)?;
    assert_eq!(rt; objects.front_sizes(second), Some((0, 1)));
    objects.release(second);
    assert_eq!(rt; objects.peer(first), Some(3));
    assert!(rt; objects.signals_of(first).contains(Signals::WRITABLE));
    assert!(rt; objects.signals_of(second).contains(Signals::READABLE));
    assert!(rt; objects.receive(second).is_some());
    objects.release(second);
    assert_eq!(rt; objects.peer(first), None);
    assert!(rt; objects.signals_of(first).contains(Signals::PEER_CLOSED));
    Ok(())
}

#[test]
fn a_job_goes_with_its_last_process(rt: HostRuntime) -> Result<(), AllocError> {
    let mut objects = new_objects(rt.alloc())?;
    let process = Body::Process {
        job: Objects::ROOT_JOB,
        life: Life::Running,
    };
    assert_eq!(rt; objects.next_koid(), Some(2));
    let pid = objects.create(process, 0)?;
    objects.remove_unheld(Objects::ROOT_JOB);
    assert!(rt; objects.is_job(Objects::ROOT_JOB));
    objects.end(pid);
    assert!(rt; !objects.is_job(Objects::ROOT_JOB));
    Ok(())
}

/// A port with one handle.
fn new_port(objects: &mut Objects) -> Result<Koid, AllocError> {
    if !objects.has_koids(1) {
        return Err(AllocError);
    }
    let port = objects.new_port();
    objects.create(port, 1)
}

/// A wait of process 2 by its handle 1 for the signals, which gives a packet with the key.
fn wait_for(object: Koid, port: Koid, mask: Signals, key: u64) -> Wait {
    Wait {
        pid: 2,
        value: 1,
        object,
        port,
        key,
        mask,
    }
}

/// Registers the wait, and once more where there was no memory for it.
fn watch(objects: &mut Objects, wait: Wait) -> Result<(), AllocError> {
    if objects.kind_of(wait.object).is_none() || !objects.is_port(wait.port) {
        return Err(AllocError);
    }
    if !objects.may_register() {
        return Err(AllocError);
    }
    match objects.watch(wait) {
        Ok(()) => Ok(()),
        Err(_) => objects.watch(wait),
    }
}

/// The key of a wait that was taken out.
fn key(taken: Option<Watch>) -> Option<u64> {
    Some(taken?.key)
}

#[test]
fn only_the_waits_that_are_named_end(rt: HostRuntime) -> Result<(), AllocError> {
    let mut objects = new_objects(rt.alloc())?;
    let port = new_port(&mut objects)?;
    for n in 0..4 {
        watch(
            &mut objects,
            wait_for(Objects::ROOT_JOB, port, Signals::NO_JOBS, n),
        )?;
    }
    assert!(rt; objects.unwatch_key(Objects::ROOT_JOB, 2, 1, 8, 2).is_none());
    assert_eq!(rt;
        key(objects.unwatch_key(Objects::ROOT_JOB, 2, 1, port, 2)),
        Some(2)
    );
    assert!(rt; objects.unwatch_handle(Objects::ROOT_JOB, 3, 1).is_none());
    assert_eq!(rt;
        key(objects.unwatch_handle(Objects::ROOT_JOB, 2, 1)),
        Some(0)
    );
    assert!(rt; objects.unwatch_port(5, port).is_none());
    assert_eq!(rt; key(objects.unwatch_port(Objects::ROOT_JOB, port)), Some(1));
    assert_eq!(rt; key(objects.unwatch_port(Objects::ROOT_JOB, port)), Some(3));
    assert!(rt; objects.unwatch_port(Objects::ROOT_JOB, port).is_none());
    assert!(rt; objects.pop(port).is_none());
    Ok(())
}

/// Whether the waits with these keys are those in the list of all, in this order.
fn are_listed(objects: &Objects, keys: &[u64]) -> bool {
    objects.wait_at(keys.len()).is_none()
        && keys.iter().enumerate().all(|(place, key)| objects
            .wait_at(place)
            .is_some_and(|wait| wait.key == *key))
}

#[test]
fn all_waits_are_listed_in_the_order_of_their_registration(
    rt: HostRuntime,
) -> Result<(), AllocError> {
    let mut objects = new_objects(rt.alloc())?;
    let (first, second) = new_channel(&mut objects)?;
    let port = new_port(&mut objects)?;
    let other = new_port(&mut objects)?;
    assert!(rt; are_listed(&objects, &[]));
    for (object, port, key) in [
        (second, port, 5),
        (first, other, 6),
        (second, other, 7),
        (first, port, 8),
    ] {
        watch(&mut objects, wait_for(object, port, Signals::USER_0, key))?;
    }
    assert!(rt; are_listed(&objects, &[5, 6, 7, 8]));
    assert_eq!(rt; objects.next_order(first, Signals::USER_0), Some(1));
    assert_eq!(rt; objects.next_order(first, Signals::WRITABLE), None);
    assert_eq!(rt; key(objects.fire(first, Signals::USER_0)), Some(6));
    assert!(rt; are_listed(&objects, &[5, 7, 8]));
    objects.release(port);
    assert!(rt; are_listed(&objects, &[7]));
    assert_eq!(rt; objects.next_order(second, Signals::USER_0), Some(2));
    watch(&mut objects, wait_for(first, other, Signals::USER_0, 9))?;
    assert_eq!(rt; objects.next_order(first, Signals::USER_0), Some(4));
    objects.release(second);
    assert!(rt; are_listed(&objects, &[9]));
    Ok(())
}

/// The last handle to a port goes with the end in whose queue it stands, and so do their waits.
#[test]
fn waits_end_with_a_port_in_a_queue(rt: HostRuntime) -> Result<(), AllocError> {
    let mut objects = new_objects(rt.alloc())?;
    let (first, second) = new_channel(&mut objects)?;
    let port = new_port(&mut objects)?;
    let other = new_port(&mut objects)?;
    send(rt.alloc(), &mut objects, first, port)?;
    watch(&mut objects, wait_for(first, port, Signals::USER_0, 5))?;
    watch(&mut objects, wait_for(first, other, Signals::USER_0, 6))?;
    watch(&mut objects, wait_for(second, other, Signals::USER_0, 7))?;
    watch(
        &mut objects,
        wait_for(Objects::ROOT_JOB, port, Signals::USER_0, 8),
    )?;
    objects.release(second);
    assert!(rt; objects.kind_of(port).is_none());
    assert!(rt; objects.unwatch_port(first, port).is_none());
    assert!(rt; objects.unwatch_port(Objects::ROOT_JOB, port).is_none());
    assert_eq!(rt; key(objects.unwatch_port(first, other)), Some(6));
    Ok(())
}

/// A job in the job, with one handle.
fn new_job(objects: &mut Objects, parent: Koid) -> Result<Koid, AllocError> {
    let Ok(job) = objects.job_below(parent) else {
        return Err(AllocError);
    };
    if !objects.has_koids(1) {
        return Err(AllocError);
    }
    objects.create(Body::Job(job), 1)
}

/// A process in the job that was made and not started yet, with one handle.
fn new_process(objects: &mut Objects, job: Koid) -> Result<Koid, AllocError> {
    if !objects.has_koids(1) {
        return Err(AllocError);
    }
    let life = Life::Created;
    objects.create(Body::Process { job, life }, 1)
}

#[test]
fn jobs_go_with_the_last_of_what_lives_in_them(rt: HostRuntime) -> Result<(), AllocError> {
    let mut objects = new_objects(rt.alloc())?;
    let first = new_job(&mut objects, Objects::ROOT_JOB)?;
    let second = new_job(&mut objects, first)?;
    let pid = new_process(&mut objects, second)?;
    objects.release(first);
    objects.release(second);
    assert!(rt; objects.is_job(first));
    assert!(rt; objects.is_job(second));
    assert!(rt; objects.lives(pid));
    objects.release(pid);
    assert!(rt; objects.kind_of(pid).is_none());
    assert!(rt; !objects.is_job(second));
    assert!(rt; !objects.is_job(first));
    assert!(rt; !objects.is_job(Objects::ROOT_JOB));
    Ok(())
}

#[test]
fn a_process_that_was_started_needs_no_handle(rt: HostRuntime) -> Result<(), AllocError> {
    let mut objects = new_objects(rt.alloc())?;
    let job = new_job(&mut objects, Objects::ROOT_JOB)?;
    let pid = new_process(&mut objects, job)?;
    objects.start(pid);
    objects.release(pid);
    objects.release(job);
    assert!(rt; objects.lives(pid));
    assert_eq!(rt; objects.job_of(pid), Some(job));
    assert_eq!(rt; objects.children(job), (false, true));
    assert_eq!(rt; objects.children(Objects::ROOT_JOB), (true, false));
    objects.end(pid);
    objects.start(pid);
    assert!(rt; !objects.lives(pid));
    assert!(rt; !objects.is_job(job));
    Ok(())
}

#[test]
fn a_job_has_what_stands_below_it(rt: HostRuntime) -> Result<(), AllocError> {
    let mut objects = new_objects(rt.alloc())?;
    let first = new_job(&mut objects, Objects::ROOT_JOB)?;
    let second = new_job(&mut objects, first)?;
    let beside = new_job(&mut objects, Objects::ROOT_JOB)?;
    let deep = new_process(&mut objects, second)?;
    assert!(rt; objects.is_within(first, deep) && !objects.is_within(first, beside));
    assert_eq!(rt; objects.below(first, 0), Some(second));
    assert_eq!(rt; objects.below(first, 1), Some(deep));
    assert_eq!(rt; objects.below(first, 2), None);
    assert!(rt; !objects.has_policy(first) && !objects.has_policy(Objects::ROOT_JOB));
    Ok(())
}

/// Kills the job or the process, and what stands below it.
fn kill(objects: &mut Objects, task: Koid) {
    let list = objects.list_task(task);
    objects.kill(task, &list);
    objects.put_back(list);
}

#[test]
fn a_job_is_listed_with_what_stands_below_it(rt: HostRuntime) -> Result<(), AllocError> {
    let mut objects = new_objects(rt.alloc())?;
    let first = new_job(&mut objects, Objects::ROOT_JOB)?;
    let other = new_process(&mut objects, Objects::ROOT_JOB)?;
    let second = new_job(&mut objects, first)?;
    let pid = new_process(&mut objects, second)?;
    let list = objects.list_task(first);
    let listed = [Objects::ROOT_JOB, first, second, pid];
    assert!(rt; list.whole && list.koids.as_slice() == listed.as_slice());
    // Another finds no room, until this one is back.
    assert!(rt; !objects.list_task(other).whole);
    objects.put_back(list);
    assert!(rt; objects.list_task(other).whole);
    Ok(())
}

#[test]
fn what_a_kill_leaves_without_a_handle_goes(rt: HostRuntime) -> Result<(), AllocError> {
    let mut objects = new_objects(rt.alloc())?;
    let first = new_job(&mut objects, Objects::ROOT_JOB)?;
    let second = new_job(&mut objects, first)?;
    let pid = new_process(&mut objects, second)?;
    objects.start(pid);
    objects.release(pid);
    objects.release(second);
    assert!(rt; objects.is_job(second));
    kill(&mut objects, first);
    assert!(rt; objects.kind_of(pid).is_none());
    assert!(rt; !objects.is_job(second));
    assert!(rt; objects.is_job(first));
    assert!(rt; !objects.is_job(Objects::ROOT_JOB));
    Ok(())
}
