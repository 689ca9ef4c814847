//! Which waits give their packets to a port, without a look at all waits.

ghost use Rattle.std.specs.Prelude.{ℕ, ◌≡◌, ◌||◌, ◌&&◌, false, not, OnErr, OnOk};
ghost use Rattle.zl_objects.specs.PortWaits.{finds, is_pair, IsFirst};

use std::alloc::{AllocError, Global};
use std::collections::BTreeSet;
use std::ops::Bound;
use zl_rights::Koid;

/// The waits of each port, by how many were registered before them.
#[derive(Clone, Drop)]
pub(crate) struct PortWaits {
    // The koid of the port, and the number of the wait.
    pairs: BTreeSet<(Koid, u64)>,
}

impl PortWaits {
    /// No waits are found.
    pub fn new(alloc: Global) -> PortWaits
        ensures { (p n : ℕ) → finds result p n ≡ false }
    {
        PortWaits {
            pairs: BTreeSet::new(alloc),
        }
    }

    /// The wait is found from the port.
    pub fn add(&mut self, port: Koid, order: u64) -> Result<(), AllocError>
        ensures added { OnOk result ((p n : ℕ) → finds self.new p n
            ≡ (is_pair port order p n || finds self.old p n)) }
        ensures unchanged { OnErr result ((p n : ℕ) → finds self.new p n ≡ finds self.old p n) }
    {
        self.pairs.insert((port, order))?;
        Ok(())
    }

    /// The wait isn't found any more. It takes no memory.
    pub fn remove(&mut self, port: Koid, order: u64)
        ensures { (p n : ℕ) → finds self.new p n
            ≡ (not (is_pair port order p n) && finds self.old p n) }
    {
        self.pairs.remove(&(port, order));
    }

    /// The earliest wait of the port before which fewer than `made` were registered, if there is one.
    pub fn first(&self, port: Koid, made: u64) -> Option<u64>
        ensures { IsFirst self.now port made result }
    {
        let (_, order) = self
            .pairs
            .range((Bound::Included((port, 0)), Bound::Excluded((port, made))))
            .next()?;
        Some(*order)
    }

    /// No waits are found any more. It takes no memory.
    pub fn clear(&mut self)
        ensures { (p n : ℕ) → finds self.new p n ≡ false }
    {
        self.pairs.clear();
    }
}
