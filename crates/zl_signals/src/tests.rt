use crate::{SignalState, Watch};
use bitflags::Flags;
use std::alloc::{AllocError, Global};
use std::collections::VecDeque;
use std::test::Fail;
use zl_rights::{HValue, Koid, Pid, Signals};

fn watch(pid: Pid, value: HValue, port: Koid, key: u64, mask: Signals, order: u64) -> Watch {
    Watch {
        pid,
        value,
        port,
        key,
        mask,
        order,
    }
}

/// Waits of two processes at ports 7 and 8, for SIGNALED but for the third, which waits for USER_0.
fn four_waits(alloc: Global) -> Result<SignalState, Fail> {
    let mut state = SignalState::new(alloc);
    state.watch(watch(2, 1, 7, 5, Signals::SIGNALED, 10))?;
    state.watch(watch(3, 1, 8, 5, Signals::SIGNALED, 20))?;
    state.watch(watch(2, 1, 8, 6, Signals::USER_0, 30))?;
    state.watch(watch(2, 4, 7, 5, Signals::SIGNALED, 40))?;
    Ok(state)
}

fn order(taken: Option<Watch>) -> Option<u64> {
    Some(taken?.order)
}

#[test]
fn signals_are_cleared_and_then_set(rt: HostRuntime) {
    let mut state = SignalState::new(rt.alloc());
    assert_eq!(rt; state.raised().bits(), 0);
    state.change(Signals::empty(), Signals::SIGNALED.union(Signals::USER_7));
    assert_eq!(rt; state.raised().bits(), 0x8000_0008);
    state.change(Signals::SIGNALED.union(Signals::USER_7), Signals::SIGNALED);
    assert_eq!(rt; state.raised().bits(), 8);
}

#[test]
fn waits_fire_in_the_order_of_their_registration(rt: HostRuntime) -> Result<(), Fail> {
    let mut state = four_waits(rt.alloc())?;
    assert_eq!(rt; state.next_order(Signals::READABLE), None);
    assert!(rt; state.fire(Signals::READABLE).is_none());
    assert_eq!(rt; state.next_order(Signals::USER_0), Some(30));
    assert_eq!(rt;
        state.next_order(Signals::SIGNALED.union(Signals::USER_0)),
        Some(10)
    );
    assert_eq!(rt; order(state.fire(Signals::SIGNALED)), Some(10));
    assert_eq!(rt; order(state.fire(Signals::USER_0)), Some(30));
    assert_eq!(rt; order(state.fire(Signals::SIGNALED)), Some(20));
    assert_eq!(rt; order(state.fire(Signals::SIGNALED)), Some(40));
    assert_eq!(rt; state.next_order(Signals::SIGNALED), None);
    Ok(())
}

#[test]
fn a_wait_for_no_signal_never_fires(rt: HostRuntime) -> Result<(), Fail> {
    let mut state = SignalState::new(rt.alloc());
    state.watch(watch(2, 1, 7, 5, Signals::empty(), 0))?;
    assert!(rt; state.fire(Signals::from_bits_retain(0xffff_ffff)).is_none());
    assert_eq!(rt; order(state.unwatch_port(7)), Some(0));
    Ok(())
}

#[test]
fn only_the_waits_that_are_named_end(rt: HostRuntime) -> Result<(), Fail> {
    let mut state = four_waits(rt.alloc())?;
    assert!(rt; state.unwatch_key(2, 1, 8, 5).is_none());
    assert_eq!(rt; order(state.unwatch_key(2, 1, 8, 6)), Some(30));
    assert_eq!(rt; order(state.unwatch_handle(2, 1)), Some(10));
    assert!(rt; state.unwatch_handle(2, 1).is_none());
    assert!(rt; state.unwatch_port(9).is_none());
    assert_eq!(rt; order(state.unwatch_port(7)), Some(40));
    assert_eq!(rt; order(state.unwatch_port(8)), Some(20));
    assert!(rt; state.unwatch_port(8).is_none());
    Ok(())
}

/// Six waits that differ from the first in nothing, in the port, the key, the process or the value.
#[test]
fn a_cancel_ends_waits_by_all_that_it_names(rt: HostRuntime) -> Result<(), Fail> {
    let mut state = SignalState::new(rt.alloc());
    state.watch(watch(2, 1, 7, 5, Signals::SIGNALED, 10))?;
    state.watch(watch(2, 1, 8, 5, Signals::SIGNALED, 20))?;
    state.watch(watch(2, 1, 7, 6, Signals::SIGNALED, 30))?;
    state.watch(watch(3, 1, 7, 5, Signals::SIGNALED, 40))?;
    state.watch(watch(2, 4, 7, 5, Signals::SIGNALED, 50))?;
    state.watch(watch(2, 1, 7, 5, Signals::USER_0, 60))?;
    assert!(rt; state.unwatch_key(2, 1, 8, 6).is_none());
    assert!(rt; state.unwatch_key(3, 4, 7, 5).is_none());
    assert_eq!(rt; order(state.unwatch_key(2, 1, 7, 5)), Some(10));
    assert_eq!(rt; order(state.unwatch_key(2, 1, 7, 5)), Some(60));
    assert!(rt; state.unwatch_key(2, 1, 7, 5).is_none());
    assert_eq!(rt; order(state.unwatch_key(2, 1, 7, 6)), Some(30));
    assert_eq!(rt; order(state.fire(Signals::SIGNALED)), Some(20));
    assert!(rt; state.unwatch_key(2, 1, 8, 5).is_none());
    assert_eq!(rt; order(state.unwatch_handle(2, 4)), Some(50));
    assert!(rt; state.unwatch_key(2, 4, 7, 5).is_none());
    assert_eq!(rt; order(state.unwatch_key(3, 1, 7, 5)), Some(40));
    assert!(rt; !state.has_waits());
    Ok(())
}

#[test]
fn all_waits_at_a_port_end(rt: HostRuntime) -> Result<(), Fail> {
    let mut state = four_waits(rt.alloc())?;
    state.end_port(9);
    state.end_port(7);
    assert!(rt; state.unwatch_port(7).is_none());
    assert_eq!(rt; order(state.take_wait()), Some(20));
    state.watch(watch(2, 1, 7, 5, Signals::SIGNALED, 50))?;
    state.end_port(7);
    assert!(rt; state.unwatch_key(2, 1, 7, 5).is_none());
    assert_eq!(rt; order(state.take_wait()), Some(30));
    assert!(rt; state.take_wait().is_none());
    Ok(())
}

/// Registers the wait, and once more where there was no memory for it.
fn watch_again(state: &mut SignalState, wait: Watch) -> bool {
    match state.watch(wait) {
        Ok(()) => true,
        Err(refused) => state.watch(refused.value).is_ok(),
    }
}

/// Under `rt try --test --fail-alloc N` the Nth allocation is refused; else each call succeeds.
#[test]
fn a_wait_without_memory_comes_back(rt: HostRuntime) {
    let mut state = SignalState::new(rt.alloc());
    for n in 0..20 {
        assert!(rt; watch_again(&mut state, watch(2, 1, 7, n, Signals::SIGNALED, n)));
    }
    for n in 0..10 {
        assert_eq!(rt; order(state.fire(Signals::SIGNALED)), Some(n));
    }
    for n in 10..15 {
        assert_eq!(rt; order(state.unwatch_handle(2, 1)), Some(n));
    }
    for n in 15..20 {
        assert_eq!(rt; order(state.unwatch_key(2, 1, 7, n)), Some(n));
    }
    assert!(rt; state.fire(Signals::SIGNALED).is_none());
    assert!(rt; state.unwatch_handle(2, 1).is_none());
}

/// The same: where a wait is refused, another gets its number.
#[test]
fn a_refused_wait_is_found_nowhere(rt: HostRuntime) {
    let mut state = SignalState::new(rt.alloc());
    for n in 0..20 {
        if state
            .watch(watch(2, 1, 7, n, Signals::SIGNALED, n))
            .is_err()
        {
            assert!(rt; state.watch(watch(3, 4, 8, n, Signals::SIGNALED, n)).is_ok());
            assert!(rt; state.unwatch_key(2, 1, 7, n).is_none());
            assert_eq!(rt; order(state.unwatch_handle(3, 4)), Some(n));
        }
        assert!(rt; state.unwatch_key(3, 4, 8, n).is_none());
    }
}

/// Copies the state, and once more where there was no memory for it.
fn copied_again(state: &SignalState, alloc: Global) -> Result<SignalState, AllocError> {
    match state.copy(alloc) {
        Ok(copied) => Ok(copied),
        Err(_) => state.copy(alloc),
    }
}

/// One wait more comes, and all go, each by another way.
fn goes_on(state: &mut SignalState) -> [Option<u64>; 6] {
    let fired = order(state.fire(Signals::USER_0));
    let by_handle = order(state.unwatch_handle(2, 4));
    if !watch_again(state, watch(2, 1, 7, 6, Signals::SIGNALED, 50)) {
        return [None; 6];
    }
    let next = state.next_order(Signals::SIGNALED);
    let keyed = order(state.unwatch_key(2, 1, 7, 5));
    state.end_port(7);
    let at_port = order(state.unwatch_port(7));
    [
        fired,
        by_handle,
        next,
        keyed,
        at_port,
        order(state.take_wait()),
    ]
}

/// The first wait has gone before. Under `rt try --test --fail-alloc N` the Nth allocation is
/// refused; else each call succeeds.
#[test]
fn a_copy_goes_on_as_the_original(rt: HostRuntime) -> Result<(), Fail> {
    let mut state = SignalState::new(rt.alloc());
    assert!(rt; watch_again(&mut state, watch(2, 1, 7, 5, Signals::SIGNALED, 0)));
    assert!(rt; watch_again(&mut state, watch(2, 1, 7, 5, Signals::SIGNALED, 10)));
    assert!(rt; watch_again(&mut state, watch(3, 1, 8, 5, Signals::SIGNALED, 20)));
    assert!(rt; watch_again(&mut state, watch(2, 1, 8, 6, Signals::USER_0, 30)));
    assert!(rt; watch_again(&mut state, watch(2, 4, 7, 5, Signals::SIGNALED, 40)));
    assert_eq!(rt; order(state.fire(Signals::SIGNALED)), Some(0));
    let mut copied = copied_again(&state, rt.alloc())?;
    let answers = [Some(30), Some(40), Some(10), Some(10), None, Some(20)];
    assert_eq!(rt; goes_on(&mut copied), answers);
    assert_eq!(rt; goes_on(&mut state), answers);
    assert!(rt; !copied_again(&copied, rt.alloc())?.has_waits());
    Ok(())
}

/// The order of the first wait of a plain list that is for one of these signals, which goes.
fn fire_listed(list: &mut VecDeque<Watch>, active: Signals) -> Option<u64> {
    let place = list.iter().position(|wait| active.intersects(wait.mask))?;
    order(list.remove(place))
}

/// The same of the first that was made by the handle.
fn unwatch_listed(list: &mut VecDeque<Watch>, pid: Pid, value: HValue) -> Option<u64> {
    let place = list
        .iter()
        .position(|wait| wait.pid == pid && wait.value == value)?;
    order(list.remove(place))
}

/// The same of the first that gives its packet to the port.
fn unwatch_port_listed(list: &mut VecDeque<Watch>, port: Koid) -> Option<u64> {
    let place = list.iter().position(|wait| wait.port == port)?;
    order(list.remove(place))
}

/// A wait that differs from those around it, by how many were registered before it.
fn nth_wait(n: u32) -> Watch {
    let mask = match n % 4 {
        0 => Signals::SIGNALED,
        1 => Signals::USER_0,
        2 => Signals::SIGNALED.union(Signals::USER_7),
        _ => Signals::empty(),
    };
    let order = u64::from(n);
    watch(order % 3, 1 + n % 5, 7 + order % 2, order % 7, mask, order)
}

/// Each third time some waits go, each by another way.
#[test]
fn waits_go_as_from_a_plain_list(rt: HostRuntime) -> Result<(), Fail> {
    let mut state = SignalState::new(rt.alloc());
    let mut list = VecDeque::new(rt.alloc());
    for n in 0..300 {
        let Watch {
            pid,
            value,
            port,
            ..
        } = nth_wait(n);
        state.watch(nth_wait(n))?;
        list.push_back(nth_wait(n))?;
        if n % 3 == 2 {
            let fired = fire_listed(&mut list, Signals::USER_7);
            assert_eq!(rt; state.next_order(Signals::USER_7), fired);
            assert_eq!(rt; order(state.fire(Signals::USER_7)), fired);
            let gone = unwatch_listed(&mut list, pid, value);
            assert_eq!(rt; order(state.unwatch_handle(pid, value)), gone);
            let ended = unwatch_port_listed(&mut list, port);
            assert_eq!(rt; order(state.unwatch_port(port)), ended);
        }
    }
    for _ in 0..300 {
        let active = Signals::SIGNALED.union(Signals::USER_0);
        let fired = fire_listed(&mut list, active);
        assert_eq!(rt; state.next_order(active), fired);
        assert_eq!(rt; order(state.fire(active)), fired);
        assert_eq!(rt; order(state.take_wait()), order(list.pop_front()));
    }
    assert!(rt; !state.has_waits());
    Ok(())
}
