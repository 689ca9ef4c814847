ghost use Rattle.std.specs.Prelude.{⊤, ◌≡◌, [], ◌∷◌, codes, ok_or};
ghost use Rattle.zl_rights.specs.Numbers.{bits, within, narrowed, DUPLICATE, TRANSFER, READ, WRITE, DESTROY, SET_POLICY, SIGNAL, SIGNAL_PEER, WAIT, INSPECT, MANAGE_JOB, MANAGE_PROCESS};

use crate::status::Status;
use bitflags::{Flag, Flags, bitflag_items};

/// What the holder of a handle may do with its object: a set of named bits.
///
/// Source: the page "Rights" of the Fuchsia documentation.
#[derive(Clone, Copy, PartialEq, Eq, Debug)]
pub struct Rights(u32);

bitflag_items! {
    impl Rights: u32 {
        const DUPLICATE = 0x1;
        const TRANSFER = 0x2;
        const READ = 0x4;
        const WRITE = 0x8;
        const DESTROY = 0x200;
        const SET_POLICY = 0x400;
        const SIGNAL = 0x1000;
        const SIGNAL_PEER = 0x2000;
        const WAIT = 0x4000;
        const INSPECT = 0x8000;
        const MANAGE_JOB = 0x1_0000;
        const MANAGE_PROCESS = 0x2_0000;
    }
}

impl Flags for Rights {
    type Bits = u32;

    ghost exact = { ⊤ };

    ghost table = { (codes "DUPLICATE", DUPLICATE) ∷ (codes "TRANSFER", TRANSFER)
        ∷ (codes "READ", READ) ∷ (codes "WRITE", WRITE) ∷ (codes "DESTROY", DESTROY)
        ∷ (codes "SET_POLICY", SET_POLICY) ∷ (codes "SIGNAL", SIGNAL)
        ∷ (codes "SIGNAL_PEER", SIGNAL_PEER) ∷ (codes "WAIT", WAIT) ∷ (codes "INSPECT", INSPECT)
        ∷ (codes "MANAGE_JOB", MANAGE_JOB) ∷ (codes "MANAGE_PROCESS", MANAGE_PROCESS) ∷ [] };

    ghost set_of = { λ r. r.0 };

    fn flags<'a>() -> &'a [Flag<Rights>] {
        Rights::FLAGS
    }

    fn bits(&self) -> u32 {
        self.0
    }

    fn from_bits_retain(bits: u32) -> Rights {
        Rights(bits)
    }
}

impl Rights {
    /// No right.
    pub const NONE: Rights = Rights(0);

    /// The number that asks for just the rights that a handle has.
    pub const SAME_RIGHTS: u32 = 0x8000_0000;

    /// Whether each of these rights is among `other`.
    pub fn within(self, other: Rights) -> bool
        ensures { result ≡ within (bits self) (bits other) }
    {
        other.contains(self)
    }
}

/// The rights of a handle that is made from one with `have`: all of them where `asked` is
/// `SAME_RIGHTS`, and else those that `asked` names.
///
/// `InvalidArgs` where `asked` is another number, and has a bit that `have` lacks.
/// Source: the page "zx_handle_duplicate" of the Fuchsia documentation.
pub fn narrow(have: Rights, asked: u32) -> Result<Rights, Status>
    ensures { result ≡ ok_or (narrowed have asked) Status.InvalidArgs }
{
    if asked == Rights::SAME_RIGHTS {
        return Ok(have);
    }
    let rights = Rights(asked);
    if rights.within(have) {
        Ok(rights)
    } else {
        Err(Status::InvalidArgs)
    }
}
