//! A line that is refused, and what stands above it.

use crate::again::{Above, Line, numbered_lines, words_of};
use crate::scenario::source::Source;
use std::alloc::{AllocError, Global};
use zl_code::Statement;
use zl_rights::{Kind, Koid};
use zl_scenario::{Cause, LineFault, PlacedFault};

/// A line that is refused, among the lines of its input.
#[derive(Drop)]
pub struct Faulty<'a> {
    pub alloc: Global,
    pub source: Source<'a>,
    /// All lines of the input.
    pub lines: Vec<Line<'a>>,
    /// The number of the line, from 1.
    pub number: u64,
    pub cause: Cause,
    pub words: Vec<&'a [u8]>,
    /// Which of the words is at fault, if one is.
    pub place: Option<usize>,
    pub above: Above,
}

impl<'a> Faulty<'a> {
    /// The line of the fault in this input.
    pub fn new(
        alloc: Global,
        source: Source<'a>,
        input: &'a [u8],
        fault: &PlacedFault,
    ) -> Result<Faulty<'a>, AllocError> {
        let LineFault { line, cause } = fault.fault();
        let above = Above::new(alloc, input, line)?;
        let mut faulty = Faulty {
            alloc,
            source,
            lines: numbered_lines(alloc, input)?,
            number: line,
            cause,
            words: Vec::new(alloc),
            place: fault.word(),
            above,
        };
        faulty.words = words_of(alloc, faulty.bytes())?;
        Ok(faulty)
    }

    /// The bytes of the line.
    pub fn bytes(&self) -> &'a [u8] {
        match self.lines.get((self.number as usize).wrapping_sub(1)) {
            Some(line) => line.bytes,
            None => b"",
        }
    }

    /// The word at this place of the line.
    pub fn word(&self, place: usize) -> &'a [u8] {
        self.words.get(place).copied().unwrap_or(b"")
    }

    /// The word of the handle of this place, from 0, that the line gives to its process.
    pub fn handle(&self, place: usize) -> &'a [u8] {
        self.word(place.saturating_add(4))
    }

    /// The statement that the line says, where the reader took it.
    pub fn statement(&self) -> Option<&Statement> {
        let Above {
            scenario,
            count,
            ..
        } = &self.above;
        if scenario.lines.get(*count) == Some(&self.number) {
            scenario.boot.statements.get(*count)
        } else {
            None
        }
    }

    /// Whether the line stands below the line `--`.
    pub fn is_in_schedule(&self) -> bool {
        match self.above.scenario.schedule_line {
            Some(dashes) => dashes < self.number,
            None => false,
        }
    }

    /// The kind of the object with this koid.
    pub fn kind_of(&self, koid: Koid) -> Option<Kind> {
        let index = usize::try_from(koid.checked_sub(1)?).ok()?;
        self.above.objects.get(index).copied()
    }

    /// How many objects of the kind there are.
    pub fn count(&self, kind: Kind) -> usize {
        let of_kind = self.above.objects.iter().filter(|made| **made == kind);
        of_kind.count()
    }
}
