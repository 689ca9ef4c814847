//! The numbers of the waits at an object, under what their ends are asked for by.

ghost use Rattle.std.specs.Prelude.{◌≡◌, true, false, OnErr, OnOk};
ghost use Rattle.std.specs.BTreeSet.{IsEmpty};
ghost use Rattle.std.specs.Ordering.{nat_cmp};
ghost use Rattle.zl_signals.specs.Indexed.{handle_cmp, keyed_cmp, AreSet, IsFirstUnder};

use crate::firsts::NO_WAIT;
use crate::watch::Watch;
use std::alloc::{AllocError, Global};
use std::collections::BTreeSet;
use std::ops::Bound;
use zl_rights::{HValue, Koid, Pid};

/// The numbers of waits. No look-up goes through others than those that are asked for.
#[derive(Clone, Drop)]
pub(crate) struct Indexes {
    // Under the process that made the wait, and the value of its handle.
    by_handle: BTreeSet<((Pid, HValue), u64)>,
    // Under these, the port and the key.
    by_key: BTreeSet<((Pid, HValue, Koid, u64), u64)>,
    // Under the port alone.
    by_port: BTreeSet<(Koid, u64)>,
}

/// The first number under the key.
fn first_under<K: Ord + Copy>(index: &BTreeSet<(K, u64)>, key: K) -> Option<u64>
    ensures { IsFirstUnder K.cmp index.now key result }
{
    let (_, number) = index
        .range((Bound::Included((key, 0)), Bound::Included((key, NO_WAIT))))
        .next()?;
    Some(*number)
}

impl Indexes {
    /// No numbers. It takes no memory.
    pub fn new(alloc: Global) -> Indexes
        ensures handles { IsEmpty result.by_handle }
        ensures keys { IsEmpty result.by_key }
        ensures ports { IsEmpty result.by_port }
    {
        Indexes {
            by_handle: BTreeSet::new(alloc),
            by_key: BTreeSet::new(alloc),
            by_port: BTreeSet::new(alloc),
        }
    }

    /// The number stands for the wait. Where memory is refused, it stands for it nowhere.
    pub fn insert(&mut self, wait: &Watch, number: u64) -> Result<(), AllocError>
        ensures ok { OnOk result (AreSet self.old self.new wait.now number true) }
        ensures taken_back { OnErr result (AreSet self.old self.new wait.now number false) }
    {
        let handle = (wait.pid, wait.value);
        let keyed = (wait.pid, wait.value, wait.port, wait.key);
        if self.by_handle.insert((handle, number)).is_err()
            || self.by_key.insert((keyed, number)).is_err()
            || self.by_port.insert((wait.port, number)).is_err()
        {
            self.remove(wait, number);
            return Err(AllocError);
        }
        Ok(())
    }

    /// The number stands for the wait nowhere.
    pub fn remove(&mut self, wait: &Watch, number: u64)
        ensures { AreSet self.old self.new wait.now number false }
    {
        self.by_handle.remove(&((wait.pid, wait.value), number));
        self.by_key
            .remove(&((wait.pid, wait.value, wait.port, wait.key), number));
        self.by_port.remove(&(wait.port, number));
    }

    /// The number of the first wait that the process made by its handle of this value.
    pub fn first_by_handle(&self, pid: Pid, value: HValue) -> Option<u64>
        ensures { IsFirstUnder handle_cmp self.now.by_handle (pid, value) result }
    {
        first_under(&self.by_handle, (pid, value))
    }

    /// The number of the first wait that the process made by its handle of this value, for a packet
    /// with the key to the port.
    pub fn first_keyed(&self, pid: Pid, value: HValue, port: Koid, key: u64) -> Option<u64>
        ensures { IsFirstUnder keyed_cmp self.now.by_key (pid, value, port, key) result }
    {
        first_under(&self.by_key, (pid, value, port, key))
    }

    /// The number of the first wait that gives its packet to the port.
    pub fn first_at_port(&self, port: Koid) -> Option<u64>
        ensures { IsFirstUnder nat_cmp self.now.by_port port result }
    {
        first_under(&self.by_port, port)
    }
}
