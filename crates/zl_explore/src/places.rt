//! Where those with a digest stand.

use std::alloc::{AllocError, Global};
use std::collections::HashMap;

/// The places of things in a list, by a digest of each: those with the same one stand in a chain, the
/// last one first. Nothing is promised of it, so that who finds a place there compares what stands in it.
#[derive(Drop)]
pub struct Places {
    // the place of the last one with the digest
    last: HashMap<u64, usize>,
    // for each place the one before it with the same digest
    before: Vec<Option<usize>>,
}

impl Places {
    /// Nothing yet.
    pub fn new(alloc: Global) -> Places {
        Places {
            last: HashMap::new(alloc),
            before: Vec::new(alloc),
        }
    }

    /// The place of the last one with the digest.
    pub fn last(&self, digest: u64) -> Option<usize> {
        self.last.get(&digest).copied()
    }

    /// The place of the one before it with the same digest.
    pub fn before(&self, place: usize) -> Option<usize> {
        *self.before.get(place)?
    }

    /// One more of this digest, at the next place.
    pub fn push(&mut self, digest: u64) -> Result<(), AllocError> {
        let place = self.before.len();
        self.before.reserve(1)?;
        let before = match self.last.insert(digest, place) {
            Ok(before) => before,
            Err(_) => return Err(AllocError),
        };
        self.before.push(before)?;
        Ok(())
    }
}
