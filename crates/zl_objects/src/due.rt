//! Which registered wait is the next to fire.

ghost use Rattle.std.specs.Prelude.{◌≡◌, false, None, IfSome, option_map, take};
ghost use Rattle.std.specs.List.{find, list_any};
ghost use Rattle.zl_rights.specs.Map.{get};
ghost use Rattle.zl_objects.specs.Calm.{holds_now};
ghost use Rattle.zl_objects.specs.Due.{earlier, earliest_from, order_at};
ghost use Rattle.zl_objects.specs.Index.{IsIndexed};
ghost use Rattle.zl_objects.specs.Signals.{signals_at};

use crate::children::Children;
use crate::listing::first_holding;
use crate::object::Object;
use crate::objects::Objects;
use crate::signals::signals_at;
use std::collections::BTreeMap;
use zl_rights::{Koid, Signals};

/// A registered wait that is the next to fire.
///
/// Source: own profile.
#[derive(Clone, Copy)]
pub struct Due {
    /// None that holds stands before this place in the list of all waits.
    pub place: usize,
    /// The object at which it is registered.
    pub koid: Koid,
    /// What is active there.
    pub active: Signals,
}

impl Objects {
    /// The object of the earliest registered wait that holds, with the signals that are active
    /// there. Of the first `from` waits none may hold. It looks at touched objects alone, where
    /// they are known, and takes no memory.
    ///
    /// Source: own profile.
    pub fn earliest_due(&self, from: usize) -> Option<Due>
        requires { list_any (holds_now self.now.objects) (take from self.now.waits) ≡ false }
        ensures object { option_map (λ due. due.koid) result ≡ option_map (λ x. x.object)
            (find (holds_now self.now.objects) self.now.waits) }
        ensures active { IfSome result
            (λ due. due.active.0 ≡ signals_at self.now.objects due.koid) }
        ensures before { IfSome result (λ due. list_any (holds_now self.now.objects)
            (take due.place self.now.waits) ≡ false) }
    {
        let (place, koid) = self.next_due(from)?;
        Some(Due {
            place,
            koid,
            active: signals_at(&self.store.by_koid, &self.store.children, koid),
        })
    }

    /// The object of the earliest registered wait that holds, behind a place before which none
    /// does. Of the first `from` none may hold.
    fn next_due(&self, from: usize) -> Option<(usize, Koid)>
        requires { list_any (holds_now self.now.objects) (take from self.now.waits) ≡ false }
        ensures object { option_map (λ due. due.1) result ≡ option_map (λ x. x.object)
            (find (holds_now self.now.objects) self.now.waits) }
        ensures before { IfSome result (λ due. list_any (holds_now self.now.objects)
            (take due.0 self.now.waits) ≡ false) }
    {
        // At all other objects no wait holds.
        let Some(koids) = self.store.marks.koids() else {
            return first_holding(
                &self.store.waits,
                &self.store.by_koid,
                &self.store.children,
                from,
            );
        };
        let (_, koid) = earliest_among(&self.store.by_koid, &self.store.children, koids)?;
        Some((from, koid))
    }
}

/// Of these objects that with the earliest wait that holds, behind the order of that wait.
fn earliest_among(
    by_koid: &BTreeMap<Koid, Object>,
    children: &Children,
    koids: &[Koid],
) -> Option<(u64, Koid)>
    requires { IsIndexed children.now by_koid.now.entries }
    ensures { result ≡ earliest_from (order_at by_koid.now.entries) None koids.now }
{
    let mut earliest = None;
    for koid in koids {
        earliest = earlier(earliest, order_at(by_koid, children, *koid), *koid);
    }
    earliest
}

/// That with the earlier wait of the earliest so far and of this object.
fn earlier(earliest: Option<(u64, Koid)>, order: Option<u64>, koid: Koid) -> Option<(u64, Koid)>
    ensures { result ≡ earlier earliest order koid }
{
    let Some(order) = order else {
        return earliest;
    };
    let Some((first, other)) = earliest else {
        return Some((order, koid));
    };
    if first <= order {
        Some((first, other))
    } else {
        Some((order, koid))
    }
}

/// The order of the earliest wait at the object that holds.
#[tactic(auto, using(crate::proofs::ByKoid::by_koid))]
fn order_at(by_koid: &BTreeMap<Koid, Object>, children: &Children, koid: Koid) -> Option<u64>
    requires { IsIndexed children.now by_koid.now.entries }
    ensures { result ≡ order_at by_koid.now.entries koid }
{
    let active = signals_at(by_koid, children, koid);
    by_koid.get(&koid)?.signals.next_order(active)
}
