//! What a blocked process waits for.

ghost use Rattle.std.specs.Prelude.{◌≡◌};
ghost use Rattle.zl_objects.specs.Awaited.{is_same, koid_of};

use zl_rights::{Koid, Pid};

/// What a blocked process waits for.
///
/// Source: the pages "zx_object_wait_one" and "zx_port_wait" of the Fuchsia documentation.
#[derive(Clone, Copy)]
pub enum Awaited {
    /// A signal of the mask at the object.
    SignalOf { koid: Koid, mask: u64 },
    /// A packet at the port.
    PacketAt(Koid),
}

impl Awaited {
    /// The object at which it waits.
    pub fn koid(&self) -> Koid
        ensures { result ≡ koid_of self.now }
    {
        match self {
            Awaited::SignalOf { koid, .. } => *koid,
            Awaited::PacketAt(port) => *port,
        }
    }

    /// Whether the other is the same.
    pub fn is_same(&self, other: &Awaited) -> bool
        ensures { result ≡ is_same self.now other.now }
    {
        match (self, other) {
            (
                Awaited::SignalOf { koid, mask },
                Awaited::SignalOf {
                    koid: at,
                    mask: watched,
                },
            ) => { koid == at && mask == watched }
            (Awaited::PacketAt(port), Awaited::PacketAt(at)) => port == at,
            (Awaited::SignalOf { .. }, Awaited::PacketAt(_)) => false,
            (Awaited::PacketAt(_), Awaited::SignalOf { .. }) => false,
        }
    }
}

/// A process that is blocked, and what it waits for.
///
/// Source: own profile.
#[derive(Clone, Copy)]
pub struct Sleeper {
    pub pid: Pid,
    pub awaited: Awaited,
}
