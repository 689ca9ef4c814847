//! The objects with all that is listed beside them.

ghost use Rattle.std.proofs.Props.{props};
ghost use Rattle.std.specs.Prelude.{None, vec_capacity};
ghost use Rattle.zl_objects.specs.Calm.{is_marked, IsCalm};
ghost use Rattle.zl_objects.specs.Dying.{IsKept};
ghost use Rattle.zl_objects.specs.Index.{IsIndexed};

use crate::children::Children;
use crate::listing::WaitList;
use crate::marks::Marks;
use crate::object::Object;
use crate::sleepers::Sleepers;
use std::collections::BTreeMap;
use zl_rights::Koid;

/// The objects by koid, the least koid that was not given yet, and what is listed beside them. All of
/// it fits also while objects go, when some are still to be looked at.
#[derive(Drop)]
pub(crate) struct Store {
    pub by_koid: BTreeMap<Koid, Object>,
    pub next_koid: Koid,
    // The jobs and processes of each job.
    pub children: Children,
    // The objects that are to be looked at, as no handle names them. There is room for each object,
    // so that none takes memory to go.
    pub dying: Vec<Koid>,
    // Each wait stands at its object too.
    pub waits: WaitList,
    // Who may be blocked.
    pub sleepers: Sleepers,
    // At all other objects nothing is due.
    pub marks: Marks,
    ghost kept: { IsKept None by_koid.entries next_koid (vec_capacity dying) waits.entries.items } by { Prim.hlevel props },
    ghost calm: { IsCalm (is_marked marks) by_koid.entries next_koid sleepers.list.items },
    ghost indexed: { IsIndexed children by_koid.entries },
}
