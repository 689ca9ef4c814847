ghost use Rattle.std.specs.Prelude.{◌≡◌, ◌==◌, true, Some, None, if◌then◌else◌};
ghost use Rattle.zl_rights.specs.Numbers.{same_kind};
ghost use Rattle.zl_abs.specs.declared.value.AbsVal.TheVariants.{Has};
ghost use Rattle.zl_abs.specs.Values.{below, joined, is_has, bound_of, kind_below, kind_joined, untagged, retagged};
ghost use Rattle.zl_abs.specs.Tags.{is_tag};
ghost use Rattle.zl_abs.specs.States.{can_be_named};

use bitflags::Flags;
use zl_code::Register;
use zl_rights::{Kind, Rights};

/// What is known of the number in a register. Own profile.
#[derive(Clone, Copy)]
pub enum AbsVal {
    /// A number that is at most this, and no handle.
    Word(u64),
    /// A live handle of this kind with at least these rights, owned by this register alone; or 0,
    /// if `maybe`.
    Has {
        maybe: bool,
        /// `None` where the kind isn't known.
        kind: Option<Kind>,
        rights: Rights,
    },
    /// The number of the kind of the handle in this register, 0 where that is 0.
    KindOf(Register),
    /// The rights of the handle in this register, 0 where that is 0.
    RightsOf(Register),
}

/// Whether it is the same kind.
pub(crate) fn is_kind(kind: Kind, other: Kind) -> bool
    ensures { result ≡ same_kind kind other }
{
    kind.number() == other.number()
}

/// Whether what is known of the kind is known on the other side too.
pub(crate) fn is_kind_below(kind: Option<Kind>, other: Option<Kind>) -> bool
    ensures { result ≡ kind_below kind other }
{
    match other {
        None => true,
        Some(other) => match kind {
            None => false,
            Some(kind) => is_kind(kind, other),
        },
    }
}

/// The kind that both have, if they have one.
fn common_kind(kind: Option<Kind>, other: Option<Kind>) -> Option<Kind>
    ensures { result ≡ kind_joined kind other }
{
    match kind {
        None => None,
        Some(first) => match other {
            None => None,
            Some(second) => { if is_kind(first, second) { kind } else { None } }
        },
    }
}

/// The least value above a word of at most `most` and a handle; nothing where the word may be another
/// than 0.
fn zero_or_handle(most: u64, kind: Option<Kind>, rights: Rights) -> Option<AbsVal>
    ensures { result ≡ (if most == 0 then Some (Has true kind rights) else None) }
{
    if most != 0 {
        return None;
    }
    Some(AbsVal::Has {
        maybe: true,
        kind,
        rights,
    })
}

/// Whether it is the same register.
pub(crate) fn is_register(register: Register, other: Register) -> bool
    ensures { result ≡ (register == other) }
{
    register.number() == other.number()
}

impl AbsVal {
    /// Whether a tag may name a register with this value: it is 0, or has a handle.
    pub(crate) fn is_nameable(self) -> bool
        ensures { result ≡ can_be_named self }
    {
        match self {
            AbsVal::Word(most) => most == 0,
            AbsVal::Has { .. } => true,
            _ => false,
        }
    }

    /// Whether each number that this describes is described by the other too.
    #[inline(always)]
    #[tactic(auto, unfolding(crate::specs::Values::below))]
    pub fn is_below(self, other: AbsVal) -> bool
        ensures { result ≡ below self other }
    {
        match self {
            AbsVal::Word(most) => match other {
                AbsVal::Word(other) => most <= other,
                AbsVal::Has { maybe, .. } => most == 0 && maybe,
                _ => false,
            },
            AbsVal::Has {
                maybe,
                kind,
                rights,
            } => match other {
                AbsVal::Has {
                    maybe: other_maybe,
                    kind: other_kind,
                    rights: other_rights,
                } => {
                    (!maybe || other_maybe)
                        && (is_kind_below(kind, other_kind) && other_rights.within(rights))
                }
                _ => false,
            },
            AbsVal::KindOf(register) => match other {
                AbsVal::KindOf(other) => is_register(register, other),
                AbsVal::Word(most) => u64::MAX <= most,
                _ => false,
            },
            AbsVal::RightsOf(register) => match other {
                AbsVal::RightsOf(other) => is_register(register, other),
                AbsVal::Word(most) => u64::MAX <= most,
                _ => false,
            },
        }
    }

    /// The least value above both; nothing where none is above both.
    #[tactic(auto, unfolding(crate::specs::Values::joined))]
    pub fn join(self, other: AbsVal) -> Option<AbsVal>
        ensures { result ≡ joined self other }
    {
        match self {
            AbsVal::Word(most) => match other {
                AbsVal::Word(other) => Some(AbsVal::Word(if most <= other { other } else { most })),
                AbsVal::Has { kind, rights, .. } => zero_or_handle(most, kind, rights),
                _ => Some(AbsVal::Word(u64::MAX)),
            },
            AbsVal::Has {
                maybe,
                kind,
                rights,
            } => match other {
                AbsVal::Word(most) => zero_or_handle(most, kind, rights),
                AbsVal::Has {
                    maybe: other_maybe,
                    kind: other_kind,
                    rights: other_rights,
                } => Some(AbsVal::Has {
                    maybe: maybe || other_maybe,
                    kind: common_kind(kind, other_kind),
                    rights: rights.intersection(other_rights),
                }),
                _ => None,
            },
            AbsVal::KindOf(register) => match other {
                AbsVal::Has { .. } => None,
                AbsVal::KindOf(other) if is_register(register, other) => Some(self),
                _ => Some(AbsVal::Word(u64::MAX)),
            },
            AbsVal::RightsOf(register) => match other {
                AbsVal::Has { .. } => None,
                AbsVal::RightsOf(other) if is_register(register, other) => Some(self),
                _ => Some(AbsVal::Word(u64::MAX)),
            },
        }
    }

    /// Whether it is a handle, or may be one.
    pub fn is_has(self) -> bool
        ensures { result ≡ is_has self }
    {
        matches!(self, AbsVal::Has { .. })
    }

    /// What a word operand is at most, a tag counting as any word; nothing for a handle.
    pub fn bound(self) -> Option<u64>
        ensures { result ≡ bound_of self }
    {
        match self {
            AbsVal::Word(most) => Some(most),
            AbsVal::Has { .. } => None,
            _ => Some(u64::MAX),
        }
    }

    /// Whether it is a tag, on whatever register.
    pub(crate) fn is_tag(self) -> bool
        ensures { result ≡ is_tag self }
    {
        matches!(self, AbsVal::KindOf(_) | AbsVal::RightsOf(_))
    }

    /// The value after the register was written: a tag that names it is lost.
    pub(crate) fn untagged(self, register: Register) -> AbsVal
        ensures { result ≡ untagged register self }
    {
        match self {
            AbsVal::KindOf(tagged) => {
                if is_register(tagged, register) {
                    AbsVal::Word(u64::MAX)
                } else {
                    self
                }
            }
            AbsVal::RightsOf(tagged) => {
                if is_register(tagged, register) {
                    AbsVal::Word(u64::MAX)
                } else {
                    self
                }
            }
            _ => self,
        }
    }

    /// The value after what was in `source` went to `destination`: a tag that names it follows.
    pub(crate) fn retagged(self, source: Register, destination: Register) -> AbsVal
        ensures { result ≡ retagged source destination self }
    {
        match self {
            AbsVal::KindOf(tagged) => {
                if is_register(tagged, source) {
                    AbsVal::KindOf(destination)
                } else {
                    self
                }
            }
            AbsVal::RightsOf(tagged) => {
                if is_register(tagged, source) {
                    AbsVal::RightsOf(destination)
                } else {
                    self
                }
            }
            _ => self,
        }
    }
}
