ghost use Rattle.std.specs.Prelude.{◌≡◌, ◌↔◌, IsTrue, IfOk};
ghost use Rattle.zl_rights.specs.Numbers.{bits};
ghost use Rattle.zl_channel.specs.Named.{is_named_by};

use smallvec::SmallVec;
use std::alloc::{AllocError, Global};
use std::marker::Model;
use zl_rights::{Entry, Koid, Rights};

/// The handles in a message. Four lie in the message itself, and more of them take memory.
///
/// Source: own profile.
pub type Handles = SmallVec<Entry, 4>;

/// What is sent through a channel: bytes, and handles that leave the table of their sender.
///
/// Source: the page "Channels" of the Fuchsia documentation.
#[derive(Drop)]
pub struct Message {
    pub bytes: Vec<u8>,
    pub handles: Handles,
}

impl Model for Message {
    ghost use Rattle.zl_rights.specs.World.{Message as MessageValue};

    ghost Value = { MessageValue };

    ghost view = { λ m. record { bytes = m.bytes.items; handles = m.handles.items } };
}

impl Message {
    /// Another message like this one. Only memory can be refused.
    ///
    /// Source: own profile.
    pub fn copy(&self, alloc: Global) -> Result<Message, AllocError>
        ensures { IfOk result (λ message. message ≡ self.now) }
    {
        Ok(Message {
            bytes: Vec::from_slice(alloc, &self.bytes)?,
            handles: Handles::from_slice(alloc, &self.handles)?,
        })
    }

    /// Whether the other message has the same bytes, and the same handles in the same order.
    ///
    /// Source: own profile.
    pub fn is_same(&self, other: &Message) -> bool
        ensures { IsTrue result ↔ self.now ≡ other.now }
    {
        self.bytes == other.bytes && are_same_handles(&self.handles, &other.handles)
    }

    /// Whether a handle in the message names the object and has these rights at least. It takes no
    /// memory.
    ///
    /// Source: own profile.
    pub fn has_named(&self, koid: Koid, rights: Rights) -> bool
        ensures { result ≡ is_named_by self.now.handles koid (bits rights) }
    {
        self.handles
            .iter()
            .any(|entry| entry.koid == koid && rights.within(entry.rights))
    }
}

/// Whether both have the same handles in the same order.
fn are_same_handles(one: &[Entry], other: &[Entry]) -> bool
    ensures { IsTrue result ↔ one.now ≡ other.now }
{
    one == other
}
