//! A kernel in memory whose memory is refused where a test says so.

ghost use Rattle.std.specs.Prelude.{◌≡◌};

use crate::hand_in::{HandIn, Judged};
use crate::kernel::Kernel;
use crate::system::System;
use std::alloc::AllocError;
use zl_interp::{Done, Spent, Turn};

/// A system that refuses memory once so many calls were made that may want it.
///
/// It is for tests. Source: own profile.
#[derive(Drop)]
pub struct Fake {
    pub system: System,
    pub calls: u32,
}

impl Fake {
    /// Whether this call has memory.
    fn has_memory(&mut self) -> bool
        ensures { self.new.system ≡ self.old.system }
    {
        if self.calls == 0 {
            return false;
        }
        self.calls -= 1;
        true
    }
}

impl Kernel for Fake {
    ghost meaning = { λ f. f.system };

    fn take(&mut self, spare: &mut Option<Spent>) -> Result<Option<Turn>, AllocError> {
        if self.system.ready.is_empty() {
            return Ok(None);
        }
        if !self.has_memory() {
            return Err(AllocError);
        }
        self.system.take(spare)
    }

    fn hand_in(&mut self, done: Done) -> (HandIn, Spent) {
        if self.has_memory() {
            return self.system.hand_in(done);
        }
        // Only what would be taken wants memory.
        match self.system.judge(&done) {
            Judged::Fits => {
                self.system.put_back(done.pid());
                (HandIn::NoMemory, done.spent())
            }
            _ => self.system.hand_in(done),
        }
    }

    fn idle(&self) -> bool {
        self.system.idle()
    }
}
