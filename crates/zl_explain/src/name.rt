//! The name that was meant.

pub mod numbers;
pub mod rights;
pub mod zircon;

use crate::text::Told;
use std::alloc::{AllocError, Global};
use strsim::osa_distance;
use zl_code::CallName;
use zl_rights::{Condition, Kind, Status};

/// No word above this length is compared.
const MOST_COMPARED: usize = 40;

/// The nearest of the names that were tried so far, where capital letters count as small ones.
#[derive(Drop)]
pub struct Nearest<'name> {
    alloc: Global,
    /// The word in small letters.
    word: String,
    found: Option<&'name str>,
    /// A name is near below this distance.
    bound: usize,
}

impl<'name> Nearest<'name> {
    /// Before the first name. A name is near where at most a third of the word has to be changed, or one
    /// letter.
    pub fn new(alloc: Global, word: &[u8]) -> Result<Nearest<'name>, AllocError> {
        let word = match str::from_utf8(word) {
            Ok(word) if word.len() <= MOST_COMPARED => word,
            _ => "",
        };
        let bound = match word.len() {
            0 => 0,
            len => len.max(3) / 3 + 1,
        };
        Ok(Nearest {
            alloc,
            word: word.to_ascii_lowercase(alloc)?,
            found: None,
            bound,
        })
    }

    /// Tries a name.
    pub fn try_name(&mut self, name: &'name str) -> Told {
        let small = name.to_ascii_lowercase(self.alloc)?;
        let distance = osa_distance(self.alloc, self.word.as_str(), small.as_str())?;
        if distance < self.bound {
            self.bound = distance;
            self.found = Some(name);
        }
        Ok(())
    }

    /// Tries each of the names.
    pub fn try_all(&mut self, names: &[&'name str]) -> Told {
        for name in names {
            self.try_name(name)?;
        }
        Ok(())
    }

    /// Tries the names of all calls.
    pub fn try_calls(&mut self) -> Told {
        for call in CallName::all() {
            self.try_name(call.name())?;
        }
        Ok(())
    }

    /// Tries the names of all kinds.
    pub fn try_kinds(&mut self) -> Told {
        // no kind has a number above a job's
        for number in 0..=Kind::Job.number() {
            if let Some(kind) = Kind::from_number(number) {
                self.try_name(kind.name())?;
            }
        }
        Ok(())
    }

    /// Tries the names of all conditions.
    pub fn try_conditions(&mut self) -> Told {
        for condition in Condition::all() {
            self.try_name(condition.name())?;
        }
        Ok(())
    }

    /// Tries the names of all statuses.
    pub fn try_statuses(&mut self) -> Told {
        for status in Status::all() {
            self.try_name(status.name())?;
        }
        Ok(())
    }

    /// Adds the name, if one is near.
    pub fn push(&self, hint: &mut String) -> Told {
        match self.found {
            Some(name) => write!(hint, "; did you mean {name}?"),
            None => Ok(()),
        }
    }
}

/// Adds the one of the names that was meant, if one is near.
pub fn push_nearest(hint: &mut String, alloc: Global, word: &[u8], names: &[&str]) -> Told {
    let mut nearest = Nearest::new(alloc, word)?;
    nearest.try_all(names)?;
    nearest.push(hint)
}
