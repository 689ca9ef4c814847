//! One registered wait with its object, as the list of all waits has it.

ghost use Rattle.std.specs.Prelude.{◌≡◌};
ghost use Rattle.zl_objects.specs.Listed.{watch_of};

use zl_rights::{HValue, Koid, Pid, Signals};
use zl_signals::Watch;

/// A registered wait with its object, as the list of all waits has it.
///
/// Source: the page "zx_object_wait_async" of the Fuchsia documentation.
#[derive(Clone, Copy, Drop)]
pub struct Wait {
    /// The process that made the wait.
    pub pid: Pid,
    /// The value of the handle by which it made it.
    pub value: HValue,
    /// The object at which it is registered.
    pub object: Koid,
    pub port: Koid,
    pub key: u64,
    pub mask: Signals,
}

impl Wait {
    /// The wait as it stands at its object, where so many were registered before it.
    pub(crate) fn watch(&self, order: u64) -> Watch
        ensures { result ≡ watch_of order self.now }
    {
        Watch {
            pid: self.pid,
            value: self.value,
            port: self.port,
            key: self.key,
            mask: self.mask,
            order,
        }
    }
}

/// An entry of the list of all waits.
#[derive(Clone, Copy, Drop)]
pub(crate) struct Listed {
    /// How many waits were registered before it, at any object.
    pub order: u64,
    pub wait: Wait,
}
