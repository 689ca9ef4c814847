//! Handles in messages.

ghost use Rattle.std.specs.Prelude.{◌≡◌};
ghost use Rattle.zl_rights.specs.Numbers.{bits};
ghost use Rattle.zl_channel.specs.Named.{has_queued_here};
ghost use Rattle.zl_objects.specs.Objects.{queue_held};
ghost use Rattle.zl_objects.specs.Queued.{has_queued_at};

use crate::object::Body;
use crate::objects::Objects;
use zl_rights::{Koid, Rights};

impl Objects {
    /// Whether a handle in a message that is to be read at an end of a channel names the object and
    /// has these rights at least. It looks at one message after another, and takes no memory.
    ///
    /// Source: own profile.
    pub fn has_queued(&self, koid: Koid, rights: Rights) -> bool
        ensures { result ≡ has_queued_at self.now.objects koid (bits rights) }
    {
        self.store
            .by_koid
            .iter()
            .any(|(_, object)| object.body.has_queued(koid, rights))
    }
}

impl Body {
    /// Whether a handle in a message that is to be read there names the object and has these rights
    /// at least.
    fn has_queued(&self, koid: Koid, rights: Rights) -> bool
        ensures { result ≡ has_queued_here (queue_held self.now) koid (bits rights) }
    {
        match self {
            Body::ChannelEnd { queue, .. } => queue.has_named(koid, rights),
            _ => false,
        }
    }
}
