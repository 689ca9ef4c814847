ghost use Rattle.std.specs.Prelude.{◌≡◌, ◌↔◌, ◌++◌, ◌∷◌, [], IsTrue, OnOk, OnErr, IfErr, IfOk, IfSome, IfNone, Err, All, drop, slice_get};
ghost use Rattle.zl_rights.specs.Numbers.{bits};
ghost use Rattle.zl_channel.specs.Named.{has_queued_here};
ghost use Rattle.zl_channel.specs.Queue.{Drains, front_handles, front_sizes, is_too_large_here, refused_message};

use crate::message::Message;
use std::alloc::{AllocError, Global};
use std::collections::VecDeque;
use std::marker::Model;
use zl_rights::{Entry, Koid, Rights};

/// Why a message was refused. Each has the message that was to go in.
///
/// Source: the page "zx_channel_write" of the Fuchsia documentation.
#[derive(Drop)]
pub enum PushFault {
    /// The message has more than `ChannelEnd::MOST_BYTES` bytes or `ChannelEnd::MOST_HANDLES`
    /// handles.
    OutOfRange(Message),
    /// There was no memory for one more message.
    NoMemory(Message),
}

/// The messages that are to be read at an end of a channel, the earliest first.
///
/// Source: the page "Channels" of the Fuchsia documentation.
#[derive(Drop)]
pub struct ChannelEnd {
    queue: VecDeque<Message>,
}

impl Model for ChannelEnd {
    ghost use Rattle.std.specs.Prelude.{List};
    ghost use Rattle.zl_rights.specs.World.{Message as MessageValue};

    ghost Value = { List MessageValue };

    ghost view = { λ e. e.queue.items };
}

impl ChannelEnd {
    /// The most bytes of a message (the page "zx_channel_write" of the Fuchsia documentation).
    pub const MOST_BYTES: usize = 65_536;

    /// The most handles of a message (the same page).
    pub const MOST_HANDLES: usize = 64;

    /// An end with no messages. It takes no memory.
    pub fn new(alloc: Global) -> ChannelEnd
        ensures { result ≡ [] }
    {
        ChannelEnd {
            queue: VecDeque::new(alloc),
        }
    }

    /// Another end at which the same messages are to be read, in the same order. Only memory can be
    /// refused.
    ///
    /// Source: own profile.
    pub fn copy(&self, alloc: Global) -> Result<ChannelEnd, AllocError>
        ensures { IfOk result (λ end. end ≡ self.now) }
    {
        let mut queue = VecDeque::with_capacity(alloc, self.queue.len())?;
        for message in self.queue.iter() {
            let again = message.copy(alloc)?;
            queue.push_back(again)?;
        }
        Ok(ChannelEnd { queue })
    }

    /// Whether the same messages are to be read at the other end, in the same order.
    ///
    /// Source: own profile.
    pub fn is_same(&self, other: &ChannelEnd) -> bool
        ensures { IsTrue result ↔ self.now ≡ other.now }
    {
        if self.queue.len() != other.queue.len() {
            return false;
        }
        for n in 0..self.queue.len() {
            if !self.queue[n].is_same(&other.queue[n]) {
                return false;
            }
        }
        true
    }

    /// Whether no message is to be read.
    pub fn is_empty(&self) -> bool
        ensures { IsTrue result ↔ (self.now ≡ []) }
    {
        self.queue.is_empty()
    }

    /// Puts the message behind all others.
    ///
    /// `OutOfRange` where it has more bytes or handles than a message may have, else `NoMemory`
    /// where there is no memory for one more.
    /// Source: the page "zx_channel_write" of the Fuchsia documentation.
    pub fn push(&mut self, message: Message) -> Result<(), PushFault>
        ensures ok { OnOk result (self.new ≡ self.old ++ message ∷ []) }
        ensures unchanged { OnErr result (self.new ≡ self.old) }
        ensures handed_back { IfErr result (λ fault. refused_message fault ≡ message) }
        ensures out_of_range { (result ≡ Err (PushFault.OutOfRange message))
            ↔ IsTrue (is_too_large_here message) }
    {
        if message.bytes.len() > ChannelEnd::MOST_BYTES
            || message.handles.len() > ChannelEnd::MOST_HANDLES
        {
            return Err(PushFault::OutOfRange(message));
        }
        self.queue
            .push_back(message)
            .map_err(|failed| PushFault::NoMemory(failed.value))
    }

    /// How many bytes and how many handles the first message has. It takes no memory.
    pub fn front_sizes(&self) -> Option<(usize, usize)>
        ensures { result ≡ front_sizes self.now }
    {
        let message = self.queue.front()?;
        Some((message.bytes.len(), message.handles.len()))
    }

    /// The handles in the first message, in order, or none where no message is to be read. It takes
    /// no memory.
    pub fn front_handles(&self) -> &[Entry]
        ensures { result.now ≡ front_handles self.now }
    {
        match self.queue.front() {
            Some(message) => message.handles.as_slice(),
            None => &[],
        }
    }

    /// Whether a handle in a message that is to be read names the object and has these rights at
    /// least. It takes no memory.
    ///
    /// Source: own profile.
    pub fn has_named(&self, koid: Koid, rights: Rights) -> bool
        ensures { result ≡ has_queued_here self.now koid (bits rights) }
    {
        self.queue
            .iter()
            .any(|message| message.has_named(koid, rights))
    }

    /// Takes the first message out, or nothing where the queue is empty. It takes no memory.
    ///
    /// Source: the page "zx_channel_read" of the Fuchsia documentation.
    pub fn take(&mut self) -> Option<Message>
        ensures first { result ≡ slice_get self.old 0 }
        ensures rest { self.new ≡ drop 1 self.old }
    {
        self.queue.pop_front()
    }

    /// Takes one handle out of a message, whichever it is, or nothing where no message has any. The
    /// messages stay. It takes no memory.
    ///
    /// Source: own profile.
    pub fn drain(&mut self) -> Option<Entry>
        ensures some { IfSome result (λ entry. Drains self.old entry self.new) }
        ensures none { IfNone result (All (λ message. message.handles ≡ []) self.old) }
        ensures unchanged { IfNone result (self.new ≡ self.old) }
    {
        let place = self
            .queue
            .iter()
            .position(|message| !message.handles.is_empty())?;
        self.queue[place].handles.pop()
    }
}
