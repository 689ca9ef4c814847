//! What a system was booted from, with its items at some time.

ghost use Rattle.std.specs.Prelude.{◌≡◌, ◌↔◌, IfOk, IsTrue};
ghost use Rattle.zl_sched.specs.Opening.{Begins, GoesOn, opening_of};

use crate::system::System;
use std::alloc::AllocError;
use std::marker::Model;
use zl_code::{Boot, TraceItem, are_same_items};
use zl_interp::Library;

/// A copy of what a system was booted from, and of its items so far: whatever goes on from there can be
/// told by it.
///
/// Source: own profile.
#[derive(Drop)]
pub struct Opening {
    library: Library,
    boot: Boot,
    items: Vec<TraceItem>,
}

impl Model for Opening {
    ghost use Rattle.zl_sched.specs.Opening.{Opening as OpeningValue};

    ghost Value = { OpeningValue };

    ghost view = { λ o. record {
      programs = o.library;
      statements = o.boot.statements.items;
      limit = o.boot.limit;
      items = o.items.items;
    } };
}

impl System {
    /// A copy of what the system was booted from, and of its items so far. Only memory can be refused.
    pub fn opening(&self) -> Result<Opening, AllocError>
        ensures { IfOk result (λ opening. opening ≡ opening_of self.now) }
    {
        Ok(Opening {
            library: self.world.programs().copy(self.alloc)?,
            boot: self.boot.copy(self.alloc)?,
            items: self.items.to_vec(self.alloc)?,
        })
    }

    /// Whether the system was booted from the same programs, statements and limit, and its trace begins
    /// with those items. It takes no memory.
    pub fn goes_on(&self, opening: &Opening) -> bool
        ensures { IsTrue result ↔ GoesOn opening.now self.now }
    {
        if !self.world.programs().is_same(&opening.library) {
            return false;
        }
        if !self.boot.is_same(&opening.boot) {
            return false;
        }
        starts_with(&self.items, &opening.items)
    }
}

/// Whether the items begin with the first ones.
fn starts_with(items: &[TraceItem], first: &[TraceItem]) -> bool
    ensures { IsTrue result ↔ Begins first.now items.now }
{
    if items.len() < first.len() {
        return false;
    }
    are_same_items(&items[..first.len()], first)
}
