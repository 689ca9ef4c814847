use zl_rights::{HValue, Koid, Pid, Signals};

/// A wait that is registered at an object: it gives one packet to a port the first time that a
/// signal of its mask is active.
///
/// Source: the page "zx_object_wait_async" of the Fuchsia documentation.
#[derive(Clone, Copy, Drop)]
pub struct Watch {
    /// The process that made the wait.
    pub pid: Pid,
    /// The value of the handle by which it made it.
    pub value: HValue,
    pub port: Koid,
    pub key: u64,
    pub mask: Signals,
    /// How many waits were registered before it, at any object.
    pub order: u64,
}
