//! One object.

ghost use Rattle.std.specs.Prelude.{◌≡◌, ◌↔◌, IsTrue, IfErr, OnErr, OnOk, Err, Some, slice_get};
ghost use Rattle.zl_objects.specs.Calm.{is_watched};
ghost use Rattle.zl_objects.specs.Dying.{is_last};
ghost use Rattle.zl_objects.specs.Objects.{has_place, held_once_more, held_once_less, is_alive, is_channel_body, is_running, end_to, job_of, kind_in, kind_of_pair, peer_of, queue_held, reader_of, raised_changed, received, sent, started, started_life, stopped};
ghost use Rattle.zl_channel.specs.Queue.{front_handles, front_sizes, is_too_large_here, refused_message};

use crate::objects::Objects;
use std::alloc::Global;
use zl_channel::{ChannelEnd, Message, PushFault};
use zl_jobs::Job;
use zl_port::Port;
use zl_rights::{Entry, Kind, Koid, Signals};
use zl_signals::SignalState;

/// How far a process has come in its life.
///
/// Source: the page "Process" of the Fuchsia documentation.
#[derive(Clone, Copy, PartialEq, Eq, Debug)]
pub enum Life {
    /// It was made, and not started yet.
    Created,
    /// It was started, and isn't over yet.
    Running,
    /// It is over.
    Ended,
}

impl Life {
    /// Whether it isn't over yet.
    pub fn is_alive(self) -> bool
        ensures { result ≡ is_alive self }
    {
        !matches!(self, Life::Ended)
    }

    /// Whether it was started, and isn't over yet.
    pub fn is_running(self) -> bool
        ensures { result ≡ is_running self }
    {
        matches!(self, Life::Running)
    }

    /// What was made is started.
    fn started(self) -> Life
        ensures { result ≡ started_life self }
    {
        match self {
            Life::Created => Life::Running,
            Life::Running | Life::Ended => self,
        }
    }
}

/// What an object is.
///
/// Source: the page "Kernel objects" of the Fuchsia documentation.
#[derive(Drop)]
pub enum Body {
    /// A job, with the job above it, its policy, and whether it was killed.
    Job(Job),
    /// A process of a job.
    Process { job: Koid, life: Life },
    /// An event, of which signals are all there is.
    Event,
    /// One end of a channel, with what is to be read at it.
    ChannelEnd { peer: Koid, queue: ChannelEnd },
    /// A port, with its packets and the number of places reserved for waits.
    Port(Port),
    /// One end of an event pair, of which signals are all there is.
    PairEnd { peer: Koid },
}

/// What has two ends that are peers of each other.
///
/// Source: the pages "Channel" and "Event pair" of the Fuchsia documentation.
#[derive(Clone, Copy)]
pub enum Pair {
    Channel,
    Eventpair,
}

impl Pair {
    /// The kind of each end.
    pub fn kind(self) -> Kind
        ensures { result ≡ kind_of_pair self }
    {
        match self {
            Pair::Channel => Kind::Channel,
            Pair::Eventpair => Kind::Eventpair,
        }
    }

    /// An end whose peer has this koid; nothing is to be read at it.
    pub(crate) fn end_to(self, alloc: Global, peer: Koid) -> Body
        ensures { result ≡ end_to self peer }
    {
        match self {
            Pair::Channel => Body::ChannelEnd {
                peer,
                queue: ChannelEnd::new(alloc),
            },
            Pair::Eventpair => Body::PairEnd { peer },
        }
    }
}

/// An object, with the signals that calls set and clear, the waits that are registered there, the
/// number of its handles, and whether a process may be blocked there.
#[derive(Drop)]
pub struct Object {
    pub body: Body,
    pub signals: SignalState,
    pub handles: u64,
    /// Whether a process may be blocked here.
    pub asleep: bool,
}

impl Object {
    /// Whether a wait is registered here, or a process may be blocked here.
    pub(crate) fn is_watched(&self) -> bool
        ensures { result ≡ is_watched self.now }
    {
        self.asleep || self.signals.has_waits()
    }

    /// One handle more, if one may name the object. Says whether one may.
    pub(crate) fn hold_more(&mut self) -> bool
        ensures object { self.new ≡ held_once_more self.old }
        ensures may { result ≡ has_place (Some self.old) }
    {
        let may = self.handles < Objects::MOST;
        if may {
            self.handles += 1;
        }
        may
    }

    /// One handle less. Says whether it was the only one.
    pub(crate) fn hold_less(&mut self) -> bool
        ensures object { self.new ≡ held_once_less self.old }
        ensures last { result ≡ is_last (Some self.old) }
    {
        let last = self.handles == 1;
        self.handles = self.handles.saturating_sub(1);
        last
    }

    /// The signals `clear` go, and then the signals `set` come.
    pub(crate) fn change(&mut self, clear: Signals, set: Signals)
        ensures { self.new ≡ raised_changed clear.0 set.0 self.old }
    {
        self.signals.change(clear, set);
    }

    /// A process that was made is started.
    pub(crate) fn start(&mut self)
        ensures { self.new ≡ started self.old }
    {
        if let Body::Process { life, .. } = &mut self.body {
            *life = life.started();
        }
    }

    /// A process is over.
    pub(crate) fn stop(&mut self)
        ensures { self.new ≡ stopped self.old }
    {
        if let Body::Process { life, .. } = &mut self.body {
            *life = Life::Ended;
        }
    }

    /// The message goes last into the queue of a channel end.
    pub(crate) fn send(&mut self, message: Message) -> Result<(), PushFault>
        requires { IsTrue (is_channel_body self.old.body) }
        ensures ok { OnOk result (self.new ≡ sent message self.old) }
        ensures unchanged { OnErr result (self.new ≡ self.old) }
        ensures handed_back { IfErr result (λ fault. refused_message fault ≡ message) }
        ensures out_of_range { (result ≡ Err (PushFault.OutOfRange message))
            ↔ IsTrue (is_too_large_here message) }
    {
        match &mut self.body {
            Body::ChannelEnd { queue, .. } => queue.push(message),
            _ => Ok(()),
        }
    }

    /// Takes the first message out of the queue of a channel end.
    pub(crate) fn receive(&mut self) -> Option<Message>
        ensures object { self.new ≡ received self.old }
        ensures first { result ≡ slice_get (queue_held self.old.body) 0 }
    {
        match &mut self.body {
            Body::ChannelEnd { queue, .. } => queue.take(),
            _ => None,
        }
    }
}

impl Body {
    /// The kind of the object.
    pub fn kind(&self) -> Kind
        ensures { result ≡ kind_in self.now }
    {
        match self {
            Body::Job(_) => Kind::Job,
            Body::Process { .. } => Kind::Process,
            Body::Event => Kind::Event,
            Body::ChannelEnd { .. } => Kind::Channel,
            Body::Port(_) => Kind::Port,
            Body::PairEnd { .. } => Kind::Eventpair,
        }
    }

    /// The job of a process.
    pub(crate) fn job(&self) -> Option<Koid>
        ensures { result ≡ job_of self.now }
    {
        match self {
            Body::Process { job, .. } => Some(*job),
            _ => None,
        }
    }

    /// The other end of a channel or of an event pair.
    pub(crate) fn peer(&self) -> Option<Koid>
        ensures { result ≡ peer_of self.now }
    {
        match self {
            Body::ChannelEnd { peer, .. } | Body::PairEnd { peer } => Some(*peer),
            _ => None,
        }
    }

    /// The end at which is to be read what is written at this end of a channel.
    pub(crate) fn reader(&self) -> Option<Koid>
        ensures { result ≡ reader_of self.now }
    {
        match self {
            Body::ChannelEnd { peer, .. } => Some(*peer),
            _ => None,
        }
    }

    /// How many bytes and how many handles the first message has that is to be read.
    pub(crate) fn front_sizes(&self) -> Option<(usize, usize)>
        ensures { result ≡ front_sizes (queue_held self.now) }
    {
        match self {
            Body::ChannelEnd { queue, .. } => queue.front_sizes(),
            _ => None,
        }
    }

    /// The handles in the first message that is to be read, in order.
    pub(crate) fn front_handles(&self) -> &[Entry]
        ensures { result.now ≡ front_handles (queue_held self.now) }
    {
        match self {
            Body::ChannelEnd { queue, .. } => queue.front_handles(),
            _ => &[],
        }
    }
}
