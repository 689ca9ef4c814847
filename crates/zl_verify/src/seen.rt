use zl_abs::{AbsState, Blamed};

/// What was known at the instruction for which an image is refused, for a person. Nothing is known of
/// one that is refused for its budget, or for want of memory. No clause says what it is. Own profile.
#[derive(Clone, Copy)]
pub struct Seen {
    /// What was known there, if a way to it was found.
    pub known: Option<AbsState>,
    /// What came to it along another way, at `JoinConflict`.
    pub other: Option<AbsState>,
    /// The register for which its rule doesn't hold, where it is one.
    pub blamed: Option<Blamed>,
}

impl Seen {
    /// Before a search.
    pub(crate) const NOTHING: Seen = Seen {
        known: None,
        other: None,
        blamed: None,
    };
}
