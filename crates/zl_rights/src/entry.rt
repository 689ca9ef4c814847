ghost use Rattle.std.specs.Prelude.{◌≡◌};
ghost use Rattle.zl_rights.specs.Numbers.{bits};

use crate::kind::Kind;
use crate::rights::Rights;
use bitflags::Flags;

/// A handle without its place: the object that it names, the object's kind, and its rights.
///
/// Source: the page "Handles" of the Fuchsia documentation.
#[derive(Clone, Copy, PartialEq, Eq, Debug)]
pub struct Entry {
    pub koid: u64,
    pub kind: Kind,
    pub rights: Rights,
}

impl Default for Entry {
    ghost is_default = { λ e. (e.koid ≡ 0) × (bits e.rights ≡ 0) };

    /// An entry that names no object and has no rights, for a place of a list that isn't in use.
    fn default() -> Entry {
        Entry {
            koid: 0,
            kind: Kind::Event,
            rights: Rights::empty(),
        }
    }
}
