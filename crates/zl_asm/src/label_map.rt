//! The labels of a text and how they are found.
ghost use Rattle.std.specs.Prelude.{◌≡◌};
ghost use Rattle.std.specs.Hash.DefaultHasher as sip;

use indexmap::IndexMap;
use std::hash::{BuildHasher, DefaultHasher, Hasher};

/// For each label the number of the instruction behind it.
pub(crate) type Labels<'a> = IndexMap<&'a [u8], u32, TextHasher>;

/// Hashes a label as if it stood behind the whole text. With a hash that is known before the text is
/// written, a text could bring labels of one hash, and each of them would be compared with all others.
#[derive(Clone, Copy)]
pub(crate) struct TextHasher {
    behind: DefaultHasher,
}

impl TextHasher {
    /// The hasher for the labels of this text.
    pub(crate) fn new(text: &[u8]) -> TextHasher
        ensures { result.behind ≡ sip.write sip.initial text.now }
    {
        let mut behind = DefaultHasher::new();
        behind.write(text);
        TextHasher { behind }
    }
}

impl BuildHasher for TextHasher {
    type Hasher = DefaultHasher;

    ghost build_hasher = { λ hasher. hasher.behind };

    fn build_hasher(&self) -> DefaultHasher {
        self.behind
    }
}
