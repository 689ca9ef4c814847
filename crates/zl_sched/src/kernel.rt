//! What workers do to a kernel.

ghost use Rattle.std.specs.Prelude.{◌≡◌, ◌↔◌, IsTrue, MatchOption, MatchResult};
ghost use Rattle.zl_sched.specs.HandIn.{HandsIn, LacksTurn, TakesNone, TakesOne};
ghost use Rattle.zl_sched.specs.System.{IsIdle};

use crate::hand_in::HandIn;
use crate::system::System;
use std::alloc::AllocError;
use zl_interp::{Done, Spent, Turn};

/// What may stand behind the lock of the workers.
pub trait Kernel {
    ghost use Rattle.zl_sched.specs.System.{System};

    /// The system that it is.
    ghost meaning: { Self → System };

    /// As `System::take`.
    fn take(&mut self, spare: &mut Option<Spent>) -> Result<Option<Turn>, AllocError>
        ensures { MatchResult result
            (λ taken. MatchOption taken (TakesNone (meaning self.old) (meaning self.new))
            (λ turn. TakesOne (meaning self.old) turn (meaning self.new)))
            (λ refused. LacksTurn (meaning self.old) (meaning self.new)) };

    /// As `System::hand_in`.
    fn hand_in(&mut self, done: Done) -> (HandIn, Spent)
        ensures { HandsIn (meaning self.old) done result.0 (meaning self.new) };

    /// As `System::idle`.
    fn idle(&self) -> bool
        ensures { IsTrue result ↔ IsIdle (meaning self.now) };
}

impl Kernel for System {
    ghost meaning = { λ s. s };

    fn take(&mut self, spare: &mut Option<Spent>) -> Result<Option<Turn>, AllocError> {
        System::take(self, spare)
    }

    fn hand_in(&mut self, done: Done) -> (HandIn, Spent) {
        System::hand_in(self, done)
    }

    fn idle(&self) -> bool {
        System::idle(self)
    }
}
