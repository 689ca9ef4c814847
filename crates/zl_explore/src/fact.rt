//! Facts of a world: what may be seen there at a moment, or not be.

ghost use Rattle.std.specs.Prelude.{◌≡◌, ◌++◌, OnOk, string_bytes};
ghost use Rattle.zl_explore.specs.Facts.{fact_words, seen_words};

use crate::bad::{Bad, What, guessed as guessed_bad, guessed_handle};
use bitflags::Flags;
use std::alloc::AllocError;
use zl_rights::{Kind, Koid, Rights};

/// What may be so of a world, at a moment.
///
/// Source: own profile.
#[derive(Clone, Copy)]
pub struct Fact {
    /// Whether that is seen; else it isn't.
    pub is_so: bool,
    pub seen: Seen,
}

/// What may be seen of a world.
#[derive(Clone, Copy)]
pub enum Seen {
    /// What a process is in, or has.
    Process(Bad),
    /// A handle in a message that is queued names the object of this koid, with these rights at least.
    Queued { koid: Koid, rights: Rights },
    /// The object of this koid is there, and of this kind.
    Object { kind: Kind, koid: Koid },
}

impl Fact {
    /// Whether it is about one moment, and not about an item of a trace.
    pub fn is_of_worlds(self) -> bool {
        match self.seen {
            Seen::Process(bad) => !matches!(bad.what, What::Call { .. } | What::Stuck),
            _ => true,
        }
    }

    /// Adds the words of the fact. Where memory is refused, a beginning of them may stand there.
    pub fn push_words(self, text: &mut String) -> Result<(), AllocError>
        ensures { OnOk result (string_bytes text.new ≡ string_bytes text.old ++ fact_words self) }
    {
        if !self.is_so {
            text.push_str("not ")?;
        }
        self.seen.push_words(text)
    }
}

impl Seen {
    /// Adds the words of what may be seen.
    fn push_words(self, text: &mut String) -> Result<(), AllocError>
        ensures { OnOk result (string_bytes text.new ≡ string_bytes text.old ++ seen_words self) }
    {
        match self {
            Seen::Process(bad) => bad.push_words(text),
            Seen::Queued { koid, rights } if rights.is_empty() => write!(
                text,
                "message has {koid}"
            ),
            Seen::Queued { koid, rights } => write!(text, "message has {koid} {}", rights.bits()),
            Seen::Object { kind, koid } => {
                text.push_str(kind.name())?;
                write!(text, " {koid}")
            }
        }
    }
}

/// The fact that the words may stand for, in whatever spelling of numbers.
pub fn guessed(words: &str) -> Option<Fact> {
    let denied = words.strip_prefix("not ");
    Some(Fact {
        is_so: denied.is_none(),
        seen: guessed_seen(denied.unwrap_or(words))?,
    })
}

/// What may be seen by these words, in whatever spelling of numbers.
fn guessed_seen(words: &str) -> Option<Seen> {
    let mut parts = words.split(' ');
    let first = parts.next()?;
    let second = parts.next()?;
    if first == "message" {
        let (koid, rights) = guessed_handle(parts.next()?, parts.next())?;
        return Some(Seen::Queued { koid, rights });
    }
    match Kind::named(first.as_bytes()) {
        Some(kind) => Some(Seen::Object {
            kind,
            koid: second.parse::<Koid>().ok()?,
        }),
        None => Some(Seen::Process(guessed_bad(words)?)),
    }
}
