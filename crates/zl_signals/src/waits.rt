//! The waits at an object by their numbers, and what leads to them.

ghost use Rattle.std.specs.Prelude.{ℕ, ◌≡◌, ◌≤◌, ◌-◌, ◌^◌, ◌++◌, ◌∷◌, ◌==◌, [], Bool, None, not, drop, filter, slice_get, option_map, if◌then◌else◌, IfErr, IfNone, IfOk, IfSome, OnErr, OnOk};
ghost use Rattle.std.proofs.Props.{props};
ghost use Rattle.std.specs.BTreeMap.{values, IsOrdered};
ghost use Rattle.std.specs.List.{find};
ghost use Rattle.std.specs.Ordering.{nat_cmp};
ghost use Rattle.zl_signals.specs.Indexed.{AreIndexed};
ghost use Rattle.zl_signals.specs.Numbered.{wait_by, AreBelow, AreFirsts, IsFirst};
ghost use Rattle.zl_signals.specs.Waits.{is_at_port, is_by_handle_here, is_keyed_here, watch_holds, without_first};
ghost use Rattle.zl_signals.specs.declared.watch.Watch.{Watch as WatchValue};

use crate::firsts::{NO_WAIT, least, move_on, note, numbered};
use crate::indexes::Indexes;
use crate::watch::Watch;
use bitflags::Flags;
use std::alloc::{AllocError, AllocFailed, Global};
use std::collections::BTreeMap;
use zl_rights::{HValue, Koid, Pid, Signals};

/// The waits at an object. No look-up goes through all of them.
#[derive(Drop)]
pub(crate) struct Waits {
    // Each by its number: how many were registered here before it.
    pub by_number: BTreeMap<u64, Watch>,
    // The same numbers, by what leads to them.
    indexes: Indexes,
    // Of each signal, by its bit, the number of the first wait for it, or `NO_WAIT`. It moves on
    // where that wait goes, and never back, so that a signal goes through each wait once at most.
    firsts: [u64; 32],
    // How many were registered here.
    made: u64,
    ghost ordered: { IsOrdered nat_cmp by_number } by { Prim.hlevel props },
    ghost few: { made ≤ 2 ^ 64 - 1 },
    ghost below: { AreBelow made by_number },
    ghost indexed: { AreIndexed indexes (wait_by by_number) },
    ghost first: { AreFirsts firsts by_number },
}

impl Waits {
    /// No waits. It takes no memory.
    pub fn new(alloc: Global) -> Waits
        ensures { values result.by_number ≡ [] }
    {
        Waits {
            by_number: BTreeMap::new(alloc),
            indexes: Indexes::new(alloc),
            firsts: [NO_WAIT; 32],
            made: 0,
        }
    }

    /// The same waits once more, with the same numbers. Only memory can be refused.
    pub fn copy(&self) -> Result<Waits, AllocError>
        ensures { IfOk result (λ waits. values waits.by_number ≡ values self.now.by_number) }
    {
        Ok(Waits {
            by_number: self.by_number.clone()?,
            indexes: self.indexes.clone()?,
            firsts: self.firsts,
            made: self.made,
        })
    }

    /// Puts the wait behind all others. Where memory is refused, or no number is left, nothing
    /// changes, and the wait comes back.
    pub fn push(&mut self, watch: Watch) -> Result<(), AllocFailed<Watch>>
        ensures ok { OnOk result
            (values self.new.by_number ≡ values self.old.by_number ++ watch ∷ []) }
        ensures unchanged { OnErr result (values self.new.by_number ≡ values self.old.by_number) }
        ensures handed_back { IfErr result (λ refused. refused.value ≡ watch) }
    {
        let number = self.made;
        if number == NO_WAIT {
            return Err(AllocFailed { value: watch });
        }
        if self.indexes.insert(&watch, number).is_err() {
            return Err(AllocFailed { value: watch });
        }
        if self.by_number.insert(number, watch).is_err() {
            self.indexes.remove(&watch, number);
            return Err(AllocFailed { value: watch });
        }
        note(&mut self.firsts, watch.mask, number);
        self.made = number + 1;
        Ok(())
    }

    /// The number of the first wait that holds.
    pub fn first_holding(&self, active: Signals) -> Option<u64>
        ensures { IsFirst (watch_holds active.0) self.now.by_number result }
    {
        numbered(least(&self.firsts, active.bits()))
    }

    /// The order of the first wait that holds.
    pub fn next_order(&self, active: Signals) -> Option<u64>
        ensures { result ≡ option_map (λ (x : WatchValue). x.order)
            (find (watch_holds active.0) (values self.now.by_number)) }
    {
        let number = self.first_holding(active)?;
        Some(self.by_number.get(&number)?.order)
    }

    /// The number of the first wait that the process made by its handle of this value.
    pub fn first_by_handle(&self, pid: Pid, value: HValue) -> Option<u64>
        ensures { IsFirst (is_by_handle_here pid value) self.now.by_number result }
    {
        self.indexes.first_by_handle(pid, value)
    }

    /// The number of the first wait that the process made by its handle of this value, for a packet
    /// with the key to the port.
    pub fn first_keyed(&self, pid: Pid, value: HValue, port: Koid, key: u64) -> Option<u64>
        ensures { IsFirst (is_keyed_here pid value port key) self.now.by_number result }
    {
        self.indexes.first_keyed(pid, value, port, key)
    }

    /// The number of the first wait that gives its packet to the port.
    pub fn first_at_port(&self, port: Koid) -> Option<u64>
        ensures { IsFirst (is_at_port port) self.now.by_number result }
    {
        self.indexes.first_at_port(port)
    }

    /// Takes out the wait with this number, if there is one.
    pub fn take(&mut self, found: Option<u64>) -> Option<Watch>
        ensures earliest { (p : WatchValue → Bool) → IsFirst p self.old.by_number found
            → result ≡ find p (values self.old.by_number) }
        ensures rest { (p : WatchValue → Bool) → IsFirst p self.old.by_number found
            → values self.new.by_number ≡ without_first p (values self.old.by_number) }
        ensures unchanged { IfNone result
            (values self.new.by_number ≡ values self.old.by_number) }
    {
        let number = found?;
        let wait = self.by_number.remove(&number)?;
        self.indexes.remove(&wait, number);
        move_on(&mut self.firsts, &self.by_number, wait.mask, number);
        Some(wait)
    }

    /// Takes out the wait with the least number.
    pub fn take_earliest(&mut self) -> Option<Watch>
        ensures first { result ≡ slice_get (values self.old.by_number) 0 }
        ensures rest { values self.new.by_number ≡ drop 1 (values self.old.by_number) }
    {
        let (number, _) = self.by_number.first_key_value()?;
        let number = *number;
        self.take(Some(number))
    }

    /// Takes out all waits that give their packets to the port.
    pub fn end_port(&mut self, port: Koid)
        ensures { values self.new.by_number
            ≡ filter (λ x. not (is_at_port port x)) (values self.old.by_number) }
    {
        while let Some(number) = self.first_at_port(port) {
            self.take(Some(number));
        }
    }
}
