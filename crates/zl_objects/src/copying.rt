//! All objects once more, with as much room.

ghost use Rattle.std.specs.Prelude.{◌≡◌, ◌≤◌, vec_capacity, IfOk};

use crate::object::{Body, Object};
use crate::objects::Objects;
use crate::store::Store;
use std::alloc::{AllocError, Global};
use std::collections::BTreeMap;
use zl_rights::Koid;

impl Objects {
    /// Other objects like these: the same at the same koids, with the same waits and sleepers. Each
    /// list has as much room, so that what takes no memory here takes none there. Only memory can be
    /// refused.
    ///
    /// Source: own profile.
    pub fn copy(&self, alloc: Global) -> Result<Objects, AllocError>
        ensures { IfOk result (λ objects. objects ≡ self.now) }
    {
        Ok(Objects {
            store: self.store.copy(alloc)?,
            // Only their room counts: a kill clears them before it lists its own.
            below: Vec::with_capacity(alloc, self.below.capacity())?,
            told: Vec::with_capacity(alloc, self.told.capacity())?,
        })
    }
}

impl Store {
    /// The same once more.
    fn copy(&self, alloc: Global) -> Result<Store, AllocError>
        ensures objects { IfOk result (λ store. store.by_koid.entries ≡ self.now.by_koid.entries) }
        ensures next_koid { IfOk result (λ store. store.next_koid ≡ self.now.next_koid) }
        ensures dying { IfOk result (λ store. store.dying.items ≡ self.now.dying.items) }
        ensures waits { IfOk result
            (λ store. store.waits.entries.items ≡ self.now.waits.entries.items) }
        ensures made { IfOk result (λ store. store.waits.made ≡ self.now.waits.made) }
        ensures sleepers { IfOk result
            (λ store. store.sleepers.list.items ≡ self.now.sleepers.list.items) }
        ensures crowded { IfOk result
            (λ store. store.sleepers.crowded ≡ self.now.sleepers.crowded) }
    {
        Ok(Store {
            by_koid: copied_objects(alloc, &self.by_koid)?,
            next_koid: self.next_koid,
            children: self.children.clone()?,
            dying: copied(alloc, &self.dying)?,
            waits: self.waits.copy(alloc)?,
            sleepers: self.sleepers.copy(alloc)?,
            marks: self.marks.copy(alloc)?,
        })
    }
}

/// The same objects once more, at the same koids.
#[tactic(auto, using(crate::proofs::Alike::one_copied))]
fn copied_objects(
    alloc: Global,
    objects: &BTreeMap<Koid, Object>,
) -> Result<BTreeMap<Koid, Object>, AllocError>
    ensures { IfOk result (λ copy. copy.entries ≡ objects.now.entries) }
{
    let mut copy = BTreeMap::new(alloc);
    for (koid, object) in objects {
        let again = object.copy(alloc)?;
        copy.insert(*koid, again)?;
    }
    Ok(copy)
}

impl Object {
    /// The same once more.
    fn copy(&self, alloc: Global) -> Result<Object, AllocError>
        ensures { IfOk result (λ object. object ≡ self.now) }
    {
        Ok(Object {
            body: self.body.copy(alloc)?,
            signals: self.signals.copy(alloc)?,
            handles: self.handles,
            asleep: self.asleep,
        })
    }
}

impl Body {
    /// The same once more.
    fn copy(&self, alloc: Global) -> Result<Body, AllocError>
        ensures { IfOk result (λ body. body ≡ self.now) }
    {
        match self {
            Body::Job(job) => Ok(Body::Job(job.copy())),
            Body::Process { job, life } => Ok(Body::Process {
                job: *job,
                life: *life,
            }),
            Body::Event => Ok(Body::Event),
            Body::ChannelEnd { peer, queue } => {
                let queue = queue.copy(alloc)?;
                Ok(Body::ChannelEnd { peer: *peer, queue })
            }
            Body::Port(port) => {
                let port = port.copy(alloc)?;
                Ok(Body::Port(port))
            }
            Body::PairEnd { peer } => Ok(Body::PairEnd { peer: *peer }),
        }
    }
}

/// The same items once more, with as much room.
pub(crate) fn copied<T: Copy>(alloc: Global, items: &Vec<T>) -> Result<Vec<T>, AllocError>
    ensures items { IfOk result (λ copy. copy.items ≡ items.now.items) }
    ensures room { IfOk result (λ copy. vec_capacity items.now ≤ vec_capacity copy) }
{
    let mut copy = Vec::with_capacity(alloc, items.capacity())?;
    copy.extend_from_slice(items)?;
    Ok(copy)
}
