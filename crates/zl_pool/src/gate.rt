//! The way of a worker to a burst.

ghost use Rattle.std.specs.Prelude.{◌≡◌, ◌≤◌};
ghost use Rattle.zl_interp.specs.Bursts.{Agrees, IsBurst};
ghost use Rattle.zl_interp.specs.declared.bursts.Stop.TheVariants.{More};

use zl_interp::{Done, Turn, burst};

/// What runs a burst for a worker, as `zl_interp::burst` does.
///
/// Source: own profile.
pub trait Gate: Sync {
    /// As `zl_interp::burst`.
    fn burst(&self, turn: Turn, most: u32) -> Done
        ensures process { result.pid ≡ turn.pid }
        ensures from { result.from ≡ turn.cpu }
        ensures version { result.version ≡ turn.program.image.version }
        ensures agrees { Agrees turn.program.image.code result.places }
        ensures follows { IsBurst result }
        ensures within { result.ran ≤ most }
        ensures whole { result.stop ≡ More → result.ran ≡ most };
}

/// The gate that is always open.
///
/// Source: own profile.
pub struct Direct;

impl Gate for Direct {
    fn burst(&self, turn: Turn, most: u32) -> Done {
        burst(turn, most)
    }
}
