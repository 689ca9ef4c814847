use crate::register_set::RegisterSet;
use std::alloc::{AllocError, Global};

/// At which instructions registers rose since they were done, and which. No clause says so: a search
/// goes by it.
#[derive(Drop)]
pub(crate) struct Pending {
    registers: Vec<RegisterSet>,
    // The instructions at which some did, 64 to a word.
    places: Vec<u64>,
    // At none below did some.
    from: usize,
}

impl Pending {
    /// At none of so many instructions.
    pub fn none(alloc: Global, size: usize) -> Result<Pending, AllocError> {
        let registers = vec![in alloc; RegisterSet::NONE; size]?;
        let places = vec![in alloc; 0; size / 64 + 1]?;
        Ok(Pending {
            registers,
            places,
            from: size,
        })
    }

    /// These rose there too.
    pub fn note(&mut self, place: usize, risen: RegisterSet) {
        let word = place / 64;
        if place < self.registers.len() && word < self.places.len() {
            self.registers[place] = self.registers[place].with(risen);
            self.places[word] |= 1 << (place % 64);
            self.from = self.from.min(place);
        }
    }

    /// Those that rose there, which are done now.
    pub fn take(&mut self, place: usize) -> RegisterSet {
        let word = place / 64;
        if place >= self.registers.len() || word >= self.places.len() {
            return RegisterSet::NONE;
        }
        let risen = self.registers[place];
        self.registers[place] = RegisterSet::NONE;
        self.places[word] &= !(1 << (place % 64));
        risen
    }

    /// The first instruction from this one on, and before the end, at which some rose.
    pub fn first_in(&self, place: usize, end: usize) -> Option<usize> {
        let mut wanted = u64::MAX << (place % 64);
        for word in place / 64..self.places.len().min(end / 64 + 1) {
            let bits = self.places[word] & wanted;
            if bits != 0 {
                let first = word.saturating_mul(64) | bits.trailing_zeros() as usize;
                return (first < end).then_some(first);
            }
            wanted = u64::MAX;
        }
        None
    }

    /// The first of all.
    pub fn first(&mut self) -> Option<usize> {
        let first = self.first_in(self.from, self.registers.len())?;
        self.from = first;
        Some(first)
    }
}
