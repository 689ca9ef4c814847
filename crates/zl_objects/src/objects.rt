ghost use Rattle.std.specs.Prelude.{[], Err, Some, false, ◌≡◌, ◌↔◌, ◌+◌, ◌<◌, ◌≤◌, ◌^◌, ◌∷◌, length, vec_capacity, IsTrue, IfErr, IfOk, IfSome, OnErr, OnOk, slice_get};
ghost use Rattle.zl_rights.specs.Map.{get, has_key};
ghost use Rattle.zl_objects.specs.Objects.{changing, end_to, has_koids_here, has_place, holding, is_channel_at, is_end_at, is_end_body, is_job_at, kind_here, new_object, koid_left, peer_here, queue_found, reader_at, receiving, root_alone, sending, with_pair, with_new, without_newest};
ghost use Rattle.zl_channel.specs.Queue.{front_handles, front_sizes, is_too_large_here, refused_message};
ghost use Rattle.zl_objects.specs.Ports.{reserved_in, reserved_of};
ghost use Rattle.zl_objects.specs.Release.{Releases};
ghost use Rattle.zl_objects.specs.Seen.{LeavesLargest};
ghost use Rattle.zl_objects.specs.Listed.{LeavesListed};
ghost use Rattle.zl_objects.specs.Waits.{waits_in, HavePlaces, LeavesWaits};

use crate::children::Children;
use crate::killing::parent_at;
use crate::listing::WaitList;
use crate::marks::Marks;
use crate::object::{Body, Object, Pair};
use crate::releasing::{let_go, mark_watched};
use crate::sleepers::Sleepers;
use crate::store::Store;
use std::alloc::{AllocError, Global};
use std::collections::BTreeMap;
use std::marker::Model;
use zl_channel::{Message, PushFault};
use zl_jobs::Job;
use zl_rights::{Entry, Kind, Koid, Signals};
use zl_signals::SignalState;

/// The objects by koid, the least koid that was not given yet, and all registered waits.
///
/// Source: the pages "Kernel objects" and "Handles" of the Fuchsia documentation.
#[derive(Drop)]
pub struct Objects {
    pub(crate) store: Store,
    // What a kill looks at, while it lasts. There is room for each job and process, and one more.
    pub(crate) below: Vec<Koid>,
    // Whom a kill may have killed, as it is told. There is room for each job and process, and one more.
    pub(crate) told: Vec<Koid>,
}

impl Model for Objects {
    ghost use Rattle.std.specs.Prelude.{◌≡◌, [], map};
    ghost use Rattle.zl_objects.specs.Objects.{Objects as ObjectsValue};
    ghost use Rattle.zl_objects.specs.Listed.{listed_value};

    ghost Value = { ObjectsValue };

    ghost view = { λ o. record {
      objects = o.store.by_koid.entries;
      next_koid = o.store.next_koid;
      waits = map listed_value o.store.waits.entries.items;
      waits_made = o.store.waits.made;
      sleepers = o.store.sleepers.list.items;
      crowded = o.store.sleepers.crowded;
    } };

    ghost invariant = { λ o. o.store.dying.items ≡ [] };
}

#[tactic(auto, using(crate::proofs::ByKoid::by_koid, crate::proofs::Kept::kept))]
impl Objects {
    /// The koid of the root job.
    pub const ROOT_JOB: Koid = 1;

    /// No koid from this on is given, and no object has more handles (own profile).
    pub const MOST: u64 = 1 << 62;

    /// The root job alone.
    pub fn new(alloc: Global) -> Result<Objects, AllocError>
        ensures { IfOk result (λ objects. objects ≡ root_alone) }
    {
        let mut objects = Objects {
            store: Store {
                by_koid: BTreeMap::new(alloc),
                next_koid: Objects::ROOT_JOB,
                children: Children::new(alloc),
                dying: Vec::new(alloc),
                waits: WaitList::new(alloc),
                sleepers: Sleepers::new(alloc)?,
                marks: Marks::new(alloc)?,
            },
            below: Vec::new(alloc),
            told: Vec::new(alloc),
        };
        objects.create(Body::Job(Job::root()), 0)?;
        Ok(objects)
    }

    /// So many koids are left.
    pub fn has_koids(&self, count: u32) -> bool
        ensures { result ≡ has_koids_here self.now.next_koid count }
    {
        self.store.next_koid <= Objects::MOST - u64::from(count)
    }

    /// The least koid that was not given yet, if one is left.
    pub fn next_koid(&self) -> Option<Koid>
        ensures { result ≡ koid_left self.now.next_koid }
    {
        if self.has_koids(1) {
            Some(self.store.next_koid)
        } else {
            None
        }
    }

    /// All koids that were given lie below this one.
    pub fn end_of_koids(&self) -> Koid
        ensures { result ≡ self.now.next_koid }
    {
        self.store.next_koid
    }

    /// Makes an object that so many handles name, and gives its koid. A koid has to be left, an end
    /// of a channel or of an event pair is made by `create_pair`, and at a port no place may be
    /// reserved.
    pub fn create(&mut self, body: Body, handles: u64) -> Result<Koid, AllocError>
        requires koid { IsTrue (has_koids_here self.old.next_koid 1) }
        requires alone { is_end_body body ≡ false }
        requires unreserved { reserved_of body ≡ 0 }
        ensures koid { IfOk result (λ koid. koid ≡ self.old.next_koid) }
        ensures created { OnOk result (self.new ≡ with_new self.old body handles) }
        ensures there { IfOk result
            (λ koid. get self.new.objects koid ≡ Some (new_object body handles)) }
        ensures unchanged { OnErr result (self.new ≡ self.old) }
    {
        let store = &mut self.store;
        let count = store.by_koid.len() + 1;
        make_room(&mut store.dying, &mut self.below, count)?;
        make_room_for_list(&mut self.told, count)?;
        store
            .sleepers
            .make_room_if(matches!(body, Body::Process { .. }), count)?;
        let koid = store.next_koid;
        let parent = body.parent();
        store.children.add(&body, koid)?;
        let object = Object {
            body,
            signals: SignalState::new(*store.dying.allocator()),
            handles,
            asleep: false,
        };
        if store.by_koid.insert(koid, object).is_err() {
            store.children.remove(parent, koid);
            return Err(AllocError);
        }
        store.next_koid = koid + 1;
        Ok(koid)
    }

    /// Makes a channel or an event pair and gives the koids of its ends, the lower first. They are
    /// peers of each other, nothing is to be read at them, and so many handles name each. Two koids
    /// have to be left.
    ///
    /// Source: the pages "zx_channel_create" and "zx_eventpair_create" of the Fuchsia documentation.
    pub fn create_pair(&mut self, pair: Pair, handles: u64) -> Result<(Koid, Koid), AllocError>
        requires { IsTrue (has_koids_here self.old.next_koid 2) }
        ensures koids { IfOk result
            (λ koids. koids ≡ (self.old.next_koid, self.old.next_koid + 1)) }
        ensures created { OnOk result (self.new ≡ with_pair self.old pair handles) }
        ensures unchanged { OnErr result (self.new ≡ self.old) }
    {
        let store = &mut self.store;
        let first = store.next_koid;
        let second = first + 1;
        let alloc = *store.dying.allocator();
        store.dying.reserve(store.by_koid.len() + 2)?;
        store
            .by_koid
            .insert(first, new_end(alloc, pair, second, handles))?;
        if store
            .by_koid
            .insert(second, new_end(alloc, pair, first, handles))
            .is_err()
        {
            store.by_koid.remove(&first);
            return Err(AllocError);
        }
        store.next_koid = second + 1;
        Ok((first, second))
    }

    /// Takes the newest object back, with its koid, as if it had not been made. The koid has to be
    /// the one given last, and that of no end of a channel or of an event pair; no wait may be
    /// registered at it, no process have been blocked there, and at a port no place be reserved.
    pub fn take_back(&mut self, koid: Koid)
        requires newest { self.old.next_koid ≡ koid + 1 }
        requires there { IsTrue (has_key self.old.objects koid) }
        requires alone { is_end_at self.old.objects koid ≡ false }
        requires unreserved { reserved_in (get self.old.objects koid) ≡ 0 }
        requires unwatched { waits_in (get self.old.objects koid) ≡ [] }
        requires unslept { IfSome (get self.old.objects koid)
            (λ object. object.asleep ≡ false) }
        ensures { self.new ≡ without_newest self.old koid }
    {
        let store = &mut self.store;
        let job = parent_at(&store.by_koid, koid);
        store.children.remove(job, koid);
        store.by_koid.pop_last();
        store.next_koid = koid;
        // What its job had before is active there again.
        mark_watched(&store.by_koid, &mut store.marks, Some(job));
    }

    /// What new objects take their memory from.
    pub(crate) fn alloc(&self) -> Global {
        *self.store.dying.allocator()
    }

    /// All objects are gone. It takes no memory.
    pub fn clear(&mut self)
        ensures { self.new ≡ record self.old { objects = []; waits = [] } }
    {
        let store = &mut self.store;
        store.by_koid.clear();
        store.children.clear();
        store.waits.clear();
    }

    /// Whether the koid is that of a job.
    pub fn is_job(&self, koid: Koid) -> bool
        ensures { result ≡ is_job_at self.now.objects koid }
    {
        match self.store.by_koid.get(&koid) {
            Some(object) => matches!(object.body, Body::Job(_)),
            None => false,
        }
    }

    /// The kind of the object, if there is one of this koid.
    pub fn kind_of(&self, koid: Koid) -> Option<Kind>
        ensures { result ≡ kind_here self.now.objects koid }
    {
        match self.store.by_koid.get(&koid) {
            Some(object) => Some(object.body.kind()),
            None => None,
        }
    }

    /// Whether one handle more may name the object.
    pub fn may_hold(&self, koid: Koid) -> bool
        ensures { result ≡ has_place (get self.now.objects koid) }
    {
        match self.store.by_koid.get(&koid) {
            Some(object) => object.handles < Objects::MOST,
            None => false,
        }
    }

    /// One handle more names the object, if one may. Says whether one may.
    pub fn hold(&mut self, koid: Koid) -> bool
        ensures held { self.new ≡ holding self.old koid }
        ensures may { result ≡ has_place (get self.old.objects koid) }
    {
        let Some(object) = self.store.by_koid.get_mut(&koid) else {
            return false;
        };
        object.hold_more()
    }

    /// The signals that calls set and clear at the object change.
    pub fn change(&mut self, koid: Koid, clear: Signals, set: Signals)
        ensures { self.new ≡ changing self.old koid clear.0 set.0 }
    {
        let Some(object) = self.store.by_koid.get_mut(&koid) else {
            return;
        };
        object.change(clear, set);
        self.store.marks.add_if(object.is_watched(), koid);
    }

    /// The other end of the channel or of the event pair whose end it is, while it is an object.
    ///
    /// Source: the pages "Channel" and "Event pair" of the Fuchsia documentation.
    pub fn peer(&self, koid: Koid) -> Option<Koid>
        ensures peer { result ≡ peer_here self.now.objects koid }
        ensures kind { IfSome result
            (λ peer. kind_here self.now.objects peer ≡ kind_here self.now.objects koid) }
    {
        let peer = self.store.by_koid.get(&koid)?.body.peer()?;
        if self.store.by_koid.contains_key(&peer) {
            Some(peer)
        } else {
            None
        }
    }

    /// The end at which is to be read what is written at this end of a channel, while it is an
    /// object.
    ///
    /// Source: the page "Channel" of the Fuchsia documentation.
    pub fn reader(&self, koid: Koid) -> Option<Koid>
        ensures reader { result ≡ reader_at self.now.objects koid }
        ensures channel { IfSome result (λ reader. IsTrue (is_channel_at self.now.objects reader)) }
    {
        let reader = self.store.by_koid.get(&koid)?.body.reader()?;
        if self.store.by_koid.contains_key(&reader) {
            Some(reader)
        } else {
            None
        }
    }

    /// Puts the message behind all others that are to be read at the end. No count of handles
    /// changes. The koid has to be that of an end of a channel, as `reader` gives it.
    ///
    /// `OutOfRange` where it has more bytes or handles than a message may have, else `NoMemory`.
    pub fn send(&mut self, koid: Koid, message: Message) -> Result<(), PushFault>
        requires { IsTrue (is_channel_at self.old.objects koid) }
        ensures sent { OnOk result (self.new ≡ sending self.old koid message) }
        ensures unchanged { OnErr result (self.new ≡ self.old) }
        ensures handed_back { IfErr result (λ fault. refused_message fault ≡ message) }
        ensures out_of_range { (result ≡ Err (PushFault.OutOfRange message))
            ↔ IsTrue (is_too_large_here message) }
    {
        let Some(end) = self.store.by_koid.get_mut(&koid) else {
            return Ok(());
        };
        let sent = end.send(message);
        self.store.marks.add_if(end.is_watched(), koid);
        sent
    }

    /// Takes the first message that is to be read at the end, with its handles. No count of handles
    /// changes. Nothing where no message is there, or it is no end. It takes no memory.
    pub fn receive(&mut self, koid: Koid) -> Option<Message>
        ensures first { result ≡ slice_get (queue_found (get self.old.objects koid)) 0 }
        ensures left { self.new ≡ receiving self.old koid }
    {
        self.store.by_koid.get_mut(&koid)?.receive()
    }

    /// How many bytes and how many handles the first message has that is to be read at the end.
    pub fn front_sizes(&self, koid: Koid) -> Option<(usize, usize)>
        ensures { result ≡ front_sizes (queue_found (get self.now.objects koid)) }
    {
        self.store.by_koid.get(&koid)?.body.front_sizes()
    }

    /// The handles in the first message that is to be read at the end, in order. None where no
    /// message is there, or it is no end.
    pub fn front_handles(&self, koid: Koid) -> &[Entry]
        ensures { result.now ≡ front_handles (queue_found (get self.now.objects koid)) }
    {
        match self.store.by_koid.get(&koid) {
            Some(object) => object.body.front_handles(),
            None => &[],
        }
    }

    /// A handle to the object has gone, and with it goes what isn't held any more: with the end of
    /// a channel go its messages and the handles in them. With a port go its packets, and the waits
    /// at all objects that give packets to it; with an object go the waits that are registered
    /// there. It takes no memory.
    ///
    /// The largest held set is left where something kept each object before: right after `new`
    /// nothing keeps the root job. The places of waits that end are given back at their ports: at each
    /// just as many stay reserved as waits are left that give their packets to it.
    ///
    /// Source: the page "zx_handle_close" of the Fuchsia documentation.
    pub fn release(&mut self, koid: Koid)
        ensures releases { Releases (koid ∷ []) [] self.old self.new }
        ensures largest { LeavesLargest (koid ∷ []) [] self.old self.new }
        ensures waits { LeavesWaits self.old self.new }
        ensures places { HavePlaces self.new.objects }
        ensures listed { LeavesListed self.old self.new }
    {
        let_go(&mut self.store.by_koid, &mut self.store.dying, koid);
        if self.store.dying.is_empty() {
            return;
        }
        self.store.remove_dying();
    }

    /// The object goes if nothing keeps it, and what isn't held any more then. It takes no memory. The
    /// largest held set is left where something kept each other object before.
    pub fn remove_unheld(&mut self, koid: Koid)
        ensures releases { Releases [] (koid ∷ []) self.old self.new }
        ensures largest { LeavesLargest [] (koid ∷ []) self.old self.new }
        ensures waits { LeavesWaits self.old self.new }
        ensures places { HavePlaces self.new.objects }
        ensures listed { LeavesListed self.old self.new }
    {
        self.store.remove_unkept(koid);
    }
}

/// Makes room for so many objects, and for one koid more in the list of a kill.
fn make_room(dying: &mut Vec<Koid>, below: &mut Vec<Koid>, count: usize) -> Result<(), AllocError>
    ensures items { dying.new.items ≡ dying.old.items }
    ensures ok { OnOk result (length dying.old.items + count ≤ vec_capacity dying.new) }
    ensures capacity { vec_capacity dying.old ≤ vec_capacity dying.new }
{
    dying.reserve(count)?;
    make_room_for_list(below, count)
}

/// Makes room for so many koids, and one more, in a list that is empty then.
fn make_room_for_list(list: &mut Vec<Koid>, count: usize) -> Result<(), AllocError> {
    list.clear();
    list.reserve(count.saturating_add(1))
}

/// An end at which nothing is to be read, and which so many handles name.
fn new_end(alloc: Global, pair: Pair, peer: Koid, handles: u64) -> Object
    ensures { result ≡ new_object (end_to pair peer) handles }
{
    Object {
        body: pair.end_to(alloc, peer),
        signals: SignalState::new(alloc),
        handles,
        asleep: false,
    }
}
