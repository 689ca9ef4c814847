ghost use Rattle.std.specs.Prelude.{⊤, ◌≡◌, [], ◌∷◌, codes};
ghost use Rattle.zl_rights.specs.Numbers.{changed, READABLE, WRITABLE, PEER_CLOSED, SIGNALED, TERMINATED, NO_JOBS, NO_PROCESSES, user_signal};

use bitflags::{Flag, Flags, bitflag_items};

/// What is active at an object: a set of named bits.
///
/// `SIGNALED` of an event or an end of a pair and `TERMINATED` of a process or a job are one bit.
/// Source: the page "Signals" of the Fuchsia documentation.
#[derive(Clone, Copy)]
pub struct Signals(u32);

bitflag_items! {
    impl Signals: u32 {
        const READABLE = 0x1;
        const WRITABLE = 0x2;
        const PEER_CLOSED = 0x4;
        const SIGNALED = 0x8;
        const TERMINATED = 0x8;
        const NO_JOBS = 0x10;
        const NO_PROCESSES = 0x20;
        const USER_0 = 0x100_0000;
        const USER_1 = 0x200_0000;
        const USER_2 = 0x400_0000;
        const USER_3 = 0x800_0000;
        const USER_4 = 0x1000_0000;
        const USER_5 = 0x2000_0000;
        const USER_6 = 0x4000_0000;
        const USER_7 = 0x8000_0000;
    }
}

impl Flags for Signals {
    type Bits = u32;

    ghost exact = { ⊤ };

    ghost table = { (codes "READABLE", READABLE) ∷ (codes "WRITABLE", WRITABLE)
        ∷ (codes "PEER_CLOSED", PEER_CLOSED) ∷ (codes "SIGNALED", SIGNALED)
        ∷ (codes "TERMINATED", TERMINATED) ∷ (codes "NO_JOBS", NO_JOBS)
        ∷ (codes "NO_PROCESSES", NO_PROCESSES) ∷ (codes "USER_0", user_signal 0)
        ∷ (codes "USER_1", user_signal 1) ∷ (codes "USER_2", user_signal 2)
        ∷ (codes "USER_3", user_signal 3) ∷ (codes "USER_4", user_signal 4)
        ∷ (codes "USER_5", user_signal 5) ∷ (codes "USER_6", user_signal 6)
        ∷ (codes "USER_7", user_signal 7) ∷ [] };

    ghost set_of = { λ s. s.0 };

    fn flags<'a>() -> &'a [Flag<Signals>] {
        Signals::FLAGS
    }

    fn bits(&self) -> u32 {
        self.0
    }

    fn from_bits_retain(bits: u32) -> Signals {
        Signals(bits)
    }
}

impl Signals {
    /// These signals without `clear`, and then with `set`.
    ///
    /// Source: the page "zx_object_signal" of the Fuchsia documentation.
    pub fn changed(self, clear: Signals, set: Signals) -> Signals
        ensures { result.0 ≡ changed self.0 clear.0 set.0 }
    {
        let mut signals = self;
        signals.remove(clear);
        signals.insert(set);
        signals
    }
}
