ghost use Rattle.std.specs.Prelude.{◌≡◌, ◌↔◌, IsTrue};
ghost use Rattle.zl_port.specs.Packets.{is_from, is_user, packet_kind_number, user_packet};

use std::marker::Model;
use zl_rights::{HValue, Koid, Pid};

/// What queued a packet.
///
/// Source: the page "zx_port_wait" of the Fuchsia documentation.
#[derive(Clone, Copy, PartialEq, Eq, Debug)]
pub enum PacketKind {
    /// A call.
    User,
    /// A registered wait.
    Signal,
}

impl PacketKind {
    /// The number of the kind, as it is told of a packet.
    pub fn number(self) -> u64
        ensures { result ≡ packet_kind_number self }
    {
        match self {
            PacketKind::User => 0,
            PacketKind::Signal => 1,
        }
    }
}

/// By what a wait was made: the process, the value of its handle, and the object that the handle
/// named.
///
/// Source: own profile.
#[derive(Clone, Copy, PartialEq, Eq, Drop)]
pub struct Source {
    pub pid: Pid,
    pub value: HValue,
    pub object: Koid,
}

impl Model for Source {
    ghost use Rattle.zl_rights.specs.World.{Source as SourceValue};

    ghost Value = { SourceValue };

    ghost view = { λ s. record { pid = s.pid; value = s.value; object = s.object } };

    ghost inverse = { λ s. record { pid = s.pid; value = s.value; object = s.object } };
}

/// What a port gives to the process that waits at it.
///
/// Source: the page "zx_port_wait" of the Fuchsia documentation; that a payload is one word is own
/// profile.
#[derive(Drop)]
pub struct Packet {
    pub kind: PacketKind,
    pub key: u64,
    /// The word that was queued, or the mask of the wait.
    pub trigger: u64,
    /// The signals that were active.
    pub observed: u64,
    /// By what the wait was made that gave the packet.
    pub source: Option<Source>,
}

impl Model for Packet {
    ghost use Rattle.zl_rights.specs.World.{Packet as PacketValue};
    ghost use Rattle.zl_port.specs.Packets.{packet_kind_number};

    ghost Value = { PacketValue };

    ghost view = { λ p. record {
      kind = packet_kind_number p.kind;
      key = p.key;
      trigger = p.trigger;
      observed = p.observed;
      source = p.source;
    } };
}

impl Packet {
    /// The packet of a call.
    pub(crate) fn user(key: u64, value: u64) -> Packet
        ensures { result ≡ user_packet key value }
    {
        Packet {
            kind: PacketKind::User,
            key,
            trigger: value,
            observed: 0,
            source: None,
        }
    }

    /// Another packet like this one.
    pub(crate) fn copy(&self) -> Packet
        ensures { result ≡ self.now }
    {
        Packet {
            kind: self.kind,
            key: self.key,
            trigger: self.trigger,
            observed: self.observed,
            source: self.source,
        }
    }

    /// Whether the other packet is the same.
    pub(crate) fn is_same(&self, other: &Packet) -> bool
        ensures { IsTrue result ↔ self.now ≡ other.now }
    {
        self.kind == other.kind
            && self.key == other.key
            && self.trigger == other.trigger
            && self.observed == other.observed
            && self.source == other.source
    }

    /// Whether a call queued it.
    pub(crate) fn is_user(&self) -> bool
        ensures { result ≡ is_user self.now }
    {
        self.kind == PacketKind::User
    }

    /// Whether a wait of this source gave it, with this key.
    pub(crate) fn is_from(&self, source: Source, key: u64) -> bool
        ensures { result ≡ is_from source key self.now }
    {
        let Some(own) = self.source else {
            return false;
        };
        self.kind == PacketKind::Signal
            && self.key == key
            && own.pid == source.pid
            && own.value == source.value
            && own.object == source.object
    }
}
