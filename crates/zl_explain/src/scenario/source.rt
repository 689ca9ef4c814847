//! Where an input comes from, and how its lines are named.

use crate::again::Line;
use crate::text::Told;

/// Where an input comes from.
#[derive(Clone, Copy)]
pub struct Source<'a> {
    /// Whether the scenario has a file of its own.
    pub has_files: bool,
    /// The name of the file of the schedule, if there is one.
    schedule: &'a str,
    /// How many bytes the file of the scenario has, if a schedule follows.
    length: usize,
}

/// Standard input.
pub const STANDARD_INPUT: Source<'static> = Source {
    has_files: false,
    schedule: "",
    length: 0,
};

/// A scenario without a schedule.
pub const LONE_SCENARIO: Source<'static> = Source {
    has_files: true,
    schedule: "",
    length: 0,
};

impl<'a> Source<'a> {
    /// Two files, of which that of the schedule has this name.
    pub fn with_schedule(schedule: &'a str) -> Source<'a> {
        Source {
            has_files: true,
            schedule,
            length: 0,
        }
    }

    /// Keeps how many bytes the scenario has that was read.
    pub fn keep_length(&mut self, length: usize) {
        self.length = length;
    }

    /// The number of the line that was put between the two files, among the lines of both; 0 where
    /// there is none.
    pub fn joint(self, lines: &[Line]) -> u64 {
        if self.schedule.is_empty() {
            return 0;
        }
        let mut start = 0usize;
        for line in lines {
            if start >= self.length {
                return line.number;
            }
            start = start.saturating_add(line.bytes.len()).saturating_add(1);
        }
        0
    }

    /// Adds the beginning of what is told of the line of this number.
    pub fn push_place(self, hint: &mut String, lines: &[Line], number: u64) -> Told {
        let joint = self.joint(lines);
        if joint == 0 || number <= joint {
            return tell!(hint; "zlab: line #: ", number);
        }
        let own = number.saturating_sub(joint);
        tell!(hint; "zlab: line # of ", own)?;
        hint.push_str(self.schedule)?;
        tell!(hint; " (# of both): ", number)
    }
}
