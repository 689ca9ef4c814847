ghost use Rattle.std.specs.Prelude.{◌≡◌, [], OnOk, OnErr, IfErr, IfNone, IfOk, drop, filter, not, slice_get};
ghost use Rattle.std.specs.List.{find};
ghost use Rattle.zl_rights.specs.Signals.{is_empty};
ghost use Rattle.zl_signals.specs.Waits.{is_at_port, is_by_handle_here, is_keyed_here, next_order, watch_holds, with_changed, with_wait, without_first, without_port, without_wait};

use crate::waits::Waits;
use crate::watch::Watch;
use bitflags::Flags;
use std::alloc::{AllocError, AllocFailed, Global};
use std::marker::Model;
use zl_rights::{HValue, Koid, Pid, Signals};

/// The signals that calls raised at an object, and the waits that are registered there.
///
/// Source: the pages "Signals" and "zx_object_wait_async" of the Fuchsia documentation.
pub struct SignalState {
    raised: Signals,
    alloc: Global,
    // Most objects have no waits, so that they stand apart. The box stays once it is there.
    waits: Option<Box<Waits>>,
}

impl Model for SignalState {
    ghost use Rattle.zl_signals.specs.Boxed.{waits_in};
    ghost use Rattle.zl_signals.specs.Waits.{SignalState as SignalStateValue};

    ghost Value = { SignalStateValue };

    ghost view = { λ s. record { raised = s.raised.0; waits = waits_in s.waits } };
}

impl Drop for SignalState {
    // A function of its own, so that what lets an object go asks not whether it has a box.
    fn drop(self) {
        let SignalState {
            raised: _,
            alloc: _,
            waits,
        } = self;
        drop(waits);
    }
}

impl SignalState {
    /// No signals, and no waits. It takes no memory.
    pub fn new(alloc: Global) -> SignalState
        ensures { result ≡ record { raised = 0; waits = [] } }
    {
        SignalState {
            raised: Signals::empty(),
            alloc,
            waits: None,
        }
    }

    /// Another one like this: the same signals, and the same waits in their order. Only memory can be
    /// refused.
    pub fn copy(&self, alloc: Global) -> Result<SignalState, AllocError>
        ensures { IfOk result (λ state. state ≡ self.now) }
    {
        let waits = match &self.waits {
            Some(waits) => Some(Box::new(alloc, waits.copy()?)?),
            None => None,
        };
        Ok(SignalState {
            raised: self.raised,
            alloc,
            waits,
        })
    }

    /// The signals that calls raised and didn't clear since.
    pub fn raised(&self) -> Signals
        ensures { result.0 ≡ self.now.raised }
    {
        self.raised
    }

    /// Whether a wait is registered here.
    pub fn has_waits(&self) -> bool
        ensures { result ≡ not (is_empty self.now.waits) }
    {
        match &self.waits {
            Some(waits) => !waits.by_number.is_empty(),
            None => false,
        }
    }

    /// The signals `clear` go, and then the signals `set` come. It takes no memory.
    ///
    /// Source: the page "zx_object_signal" of the Fuchsia documentation.
    pub fn change(&mut self, clear: Signals, set: Signals)
        ensures { self.new ≡ with_changed self.old clear.0 set.0 }
    {
        self.raised = self.raised.changed(clear, set);
    }

    /// Registers the wait behind all others.
    ///
    /// Only memory can be refused; then nothing changes, and the wait comes back.
    /// Source: the page "zx_object_wait_async" of the Fuchsia documentation.
    pub fn watch(&mut self, watch: Watch) -> Result<(), AllocFailed<Watch>>
        ensures ok { OnOk result (self.new ≡ with_wait self.old watch) }
        ensures unchanged { OnErr result (self.new ≡ self.old) }
        ensures handed_back { IfErr result (λ refused. refused.value ≡ watch) }
    {
        if let Some(waits) = &mut self.waits {
            return waits.push(watch);
        }
        let Ok(mut waits) = Box::new(self.alloc, Waits::new(self.alloc)) else {
            return Err(AllocFailed { value: watch });
        };
        waits.push(watch)?;
        self.waits = Some(waits);
        Ok(())
    }

    /// Takes out the earliest wait that the process made by its handle of this value, or nothing
    /// where there is none. It takes no memory.
    ///
    /// Source: the page "zx_object_wait_async" of the Fuchsia documentation: a wait ends with its
    /// handle.
    pub fn unwatch_handle(&mut self, pid: Pid, value: HValue) -> Option<Watch>
        ensures earliest { result ≡ find (is_by_handle_here pid value) self.old.waits }
        ensures rest { self.new ≡ without_wait self.old (is_by_handle_here pid value) }
        ensures unchanged { IfNone result (self.new ≡ self.old) }
    {
        let waits = self.waits.as_mut()?;
        let found = waits.first_by_handle(pid, value);
        waits.take(found)
    }

    /// Takes out the earliest wait that gives its packet to the port, or nothing where there is
    /// none. It takes no memory.
    ///
    /// Source: own profile.
    pub fn unwatch_port(&mut self, port: Koid) -> Option<Watch>
        ensures earliest { result ≡ find (is_at_port port) self.old.waits }
        ensures rest { self.new ≡ without_wait self.old (is_at_port port) }
        ensures unchanged { IfNone result (self.new ≡ self.old) }
    {
        let waits = self.waits.as_mut()?;
        let found = waits.first_at_port(port);
        waits.take(found)
    }

    /// Takes out all waits that give their packets to the port. It takes no memory.
    ///
    /// Source: own profile.
    pub fn end_port(&mut self, port: Koid)
        ensures { self.new ≡ without_port self.old port }
    {
        if let Some(waits) = &mut self.waits {
            waits.end_port(port);
        }
    }

    /// Takes out the earliest wait, or nothing where there is none. It takes no memory.
    ///
    /// Source: own profile.
    pub fn take_wait(&mut self) -> Option<Watch>
        ensures first { result ≡ slice_get self.old.waits 0 }
        ensures rest { self.new ≡ record self.old { waits = drop 1 self.old.waits } }
    {
        self.waits.as_mut()?.take_earliest()
    }

    /// Takes out the earliest wait that the process made by its handle of this value for a packet
    /// with the key to the port, or nothing where there is none. It takes no memory.
    ///
    /// Source: the page "zx_port_cancel" of the Fuchsia documentation.
    pub fn unwatch_key(&mut self, pid: Pid, value: HValue, port: Koid, key: u64) -> Option<Watch>
        ensures earliest { result ≡ find (is_keyed_here pid value port key) self.old.waits }
        ensures rest { self.new ≡ without_wait self.old (is_keyed_here pid value port key) }
        ensures unchanged { IfNone result (self.new ≡ self.old) }
    {
        let waits = self.waits.as_mut()?;
        let found = waits.first_keyed(pid, value, port, key);
        waits.take(found)
    }

    /// The order of the wait that `fire` would take out, if one holds. It takes no memory.
    ///
    /// Source: own profile.
    pub fn next_order(&self, active: Signals) -> Option<u64>
        ensures { result ≡ next_order self.now active.0 }
    {
        self.waits.as_ref()?.next_order(active)
    }

    /// Takes out the earliest wait that holds, as a signal of its mask is active, or nothing where
    /// none does. It takes no memory.
    ///
    /// Source: the page "zx_object_wait_async" of the Fuchsia documentation; the order is own
    /// profile.
    pub fn fire(&mut self, active: Signals) -> Option<Watch>
        ensures earliest { result ≡ find (watch_holds active.0) self.old.waits }
        ensures rest { self.new ≡ without_wait self.old (watch_holds active.0) }
        ensures unchanged { IfNone result (self.new ≡ self.old) }
    {
        let waits = self.waits.as_mut()?;
        let found = waits.first_holding(active);
        waits.take(found)
    }
}
