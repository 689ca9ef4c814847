//! What has to be looked at after a change: whether a wait holds or a blocked process may wake.

ghost use Rattle.std.specs.Prelude.{ℕ, ◌≡◌, ◌==◌, ◌⊎◌, [], false, true, IsTrue, IfNone, IfSome};
ghost use Rattle.std.specs.List.{list_any, All};
ghost use Rattle.zl_rights.specs.Map.{has_key, update};
ghost use Rattle.zl_objects.specs.declared.awaited.Awaited.{Awaited as AwaitedValue};
ghost use Rattle.zl_objects.specs.Awaited.{koid_of, AreSameButSleepers, Seeks};
ghost use Rattle.zl_objects.specs.Sleepers.{IsFirstDue, IsUnlisted, ListsLast, TakesDue};
ghost use Rattle.zl_objects.specs.Calm.{holds_now, is_due, knowing, slept};

use crate::awaited::{Awaited, Sleeper};
use crate::object::Object;
use crate::objects::Objects;
use crate::sleepers::is_due;
use std::collections::BTreeMap;
use zl_rights::{Koid, Pid};

#[tactic(auto, using(crate::proofs::ByKoid::by_koid))]
impl Objects {
    /// The process may be blocked from now on, and wait for this, behind all others that wait there.
    /// Where the object isn't there, not all such processes are known any more. It takes no memory.
    ///
    /// Source: own profile.
    pub fn sleep(&mut self, pid: Pid, awaited: Awaited)
        ensures there { Seeks self.new pid awaited }
        ensures others { (other : ℕ) (a : AwaitedValue)
            → Seeks self.old other a → Seeks self.new other a }
        ensures order { IsTrue self.new.crowded
            ⊎ ((self.new.crowded ≡ self.old.crowded)
            × IsUnlisted pid awaited self.old.sleepers
            × ListsLast pid awaited self.old.sleepers self.new.sleepers) }
        ensures same { AreSameButSleepers (knowing self.old (koid_of awaited)) self.new }
    {
        let koid = awaited.koid();
        let store = &mut self.store;
        if !note_slept(&mut store.by_koid, koid) {
            store.sleepers.crowded = true;
            return;
        }
        store
            .marks
            .add_if(is_due(&store.by_koid, &store.children, &awaited), koid);
        store.sleepers.put(Sleeper { pid, awaited });
    }

    /// Whether it is known that no registered wait holds, and that nothing is there for which a
    /// blocked process waits. No tells nothing: it comes also where an object was touched at which
    /// something waits that isn't there, or where there was no room to list who is blocked.
    ///
    /// Source: own profile.
    pub fn is_quiet(&self) -> bool
        ensures waits { result ≡ true
            → list_any (holds_now self.now.objects) self.now.waits ≡ false }
        ensures sleepers { result ≡ true → (pid : ℕ) (a : AwaitedValue)
            → Seeks self.now pid a → is_due self.now.objects a ≡ false }
    {
        self.store.marks.is_empty() && !self.store.sleepers.crowded
    }

    /// Whether perhaps not all processes that may be blocked are listed, as there was no room.
    ///
    /// Source: own profile.
    pub fn is_crowded(&self) -> bool
        ensures { result ≡ self.now.crowded }
    {
        self.store.sleepers.crowded
    }

    /// Takes one off the list that may be blocked, and has what it waits for: it is the first such
    /// one at its object. It looks at touched objects alone, and takes no memory.
    ///
    /// Source: own profile.
    pub fn take_due(&mut self) -> Option<Sleeper>
        ensures some { IfSome result (λ sleeper. TakesDue self.old sleeper self.new) }
        ensures none { IfNone result
            (All (λ s. is_due self.old.objects s.awaited ≡ false) self.old.sleepers) }
        ensures same { IfNone result (self.new ≡ self.old) }
    {
        let place = self.due_place()?;
        Some(self.store.sleepers.take(place))
    }

    /// Where that one stands.
    fn due_place(&mut self) -> Option<usize>
        ensures some { IfSome result (IsFirstDue self.old.objects self.old.sleepers) }
        ensures none { IfNone result
            (All (λ s. is_due self.old.objects s.awaited ≡ false) self.old.sleepers) }
        ensures same { self.new ≡ self.old }
    {
        let store = &mut self.store;
        let Some(koids) = store.marks.koids() else {
            return store.sleepers.due_anywhere(&store.by_koid, &store.children);
        };
        store
            .sleepers
            .due_among(&store.by_koid, &store.children, koids)
    }

    /// Nobody is listed any more, which is right where not all are. It takes no memory.
    ///
    /// Source: own profile.
    pub fn forget_sleepers(&mut self)
        ensures { self.new ≡ record self.old { sleepers = [] } }
    {
        self.store.sleepers.clear();
    }

    /// Each object that was touched has been looked at: no registered wait holds any more, and nobody
    /// is listed who has what it waits for. It takes no memory.
    ///
    /// Source: own profile.
    pub fn calm(&mut self)
        requires waits { list_any (holds_now self.old.objects) self.old.waits ≡ false }
        requires sleepers { All (λ s. is_due self.old.objects s.awaited ≡ false) self.old.sleepers }
        ensures { self.new ≡ self.old }
    {
        self.store.marks.clear();
    }
}

/// A process may be blocked at the object from now on, if that is there. Says whether it is.
#[tactic(auto, using(crate::proofs::ByKoid::by_koid))]
fn note_slept(by_koid: &mut BTreeMap<Koid, Object>, koid: Koid) -> bool
    ensures objects { by_koid.new.entries ≡ update by_koid.old.entries koid slept }
    ensures there { result ≡ has_key by_koid.old.entries koid }
{
    let Some(object) = by_koid.get_mut(&koid) else {
        return false;
    };
    object.asleep = true;
    true
}
