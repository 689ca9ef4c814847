//! Which objects are to be looked at, as something may be due there.

ghost use Rattle.std.specs.Prelude.{ℕ, ◌≡◌, ◌==◌, false, true, IfOk, IfSome, IsTrue};
ghost use Rattle.std.specs.List.{list_any};
ghost use Rattle.zl_objects.specs.Calm.{is_marked};

use crate::copying::copied;
use std::alloc::{AllocError, Global};
use zl_rights::Koid;

/// The marked objects. Marking takes no memory: where there is no room for one more, each object
/// counts as marked.
#[derive(Drop)]
pub(crate) struct Marks {
    koids: Vec<Koid>,
    all: bool,
}

impl Marks {
    /// There is room for so many.
    const ROOM: usize = 64;

    /// No object is marked.
    pub fn new(alloc: Global) -> Result<Marks, AllocError>
        ensures { IfOk result (λ marks. (k : ℕ) → is_marked marks k ≡ false) }
    {
        Ok(Marks {
            koids: Vec::with_capacity(alloc, Marks::ROOM)?,
            all: false,
        })
    }

    /// The same marks once more, with as much room.
    pub fn copy(&self, alloc: Global) -> Result<Marks, AllocError>
        ensures koids { IfOk result (λ marks. marks.koids.items ≡ self.now.koids.items) }
        ensures all { IfOk result (λ marks. marks.all ≡ self.now.all) }
    {
        Ok(Marks {
            koids: copied(alloc, &self.koids)?,
            all: self.all,
        })
    }

    /// Marks the object, if that is wanted.
    pub fn add_if(&mut self, wanted: bool, koid: Koid)
        ensures wanted { wanted ≡ true → IsTrue (is_marked self.new koid) }
        ensures more { (k : ℕ) → IsTrue (is_marked self.old k) → IsTrue (is_marked self.new k) }
    {
        if !wanted || self.has(koid) {
            return;
        }
        if self.koids.len() < self.koids.capacity() {
            self.koids.push_reserved(koid);
        } else {
            self.all = true;
        }
    }

    /// Whether the object is marked.
    pub fn has(&self, koid: Koid) -> bool
        ensures { result ≡ is_marked self.now koid }
    {
        self.all || self.koids.contains(&koid)
    }

    /// The marked objects, unless each object is marked.
    pub fn koids(&self) -> Option<&[Koid]>
        ensures { IfSome result (λ koids. (k : ℕ)
            → is_marked self.now k ≡ list_any (λ j. j == k) koids.now) }
    {
        if self.all {
            None
        } else {
            Some(self.koids.as_slice())
        }
    }

    /// Whether no object is marked.
    pub fn is_empty(&self) -> bool
        ensures { result ≡ true → (k : ℕ) → is_marked self.now k ≡ false }
    {
        !self.all && self.koids.is_empty()
    }

    /// No object is marked any more.
    pub fn clear(&mut self)
        ensures { (k : ℕ) → is_marked self.new k ≡ false }
    {
        self.koids.clear();
        self.all = false;
    }
}
