//! Why a line of an input is refused, by name.
ghost use Rattle.std.specs.Prelude.{◌≡◌};
ghost use Rattle.zl_scenario.specs.Causes.{cause_name};

use std::marker::Model;

/// Why a line of the input is refused, in the order in which the faults of one line are examined.
#[derive(Clone, Copy)]
pub enum Cause {
    /// No statement, or a byte outside ASCII.
    Syntax,
    /// The bytes of a program are no image, or its text denotes none.
    Program,
    /// A checked program that the verifier refuses.
    Check,
    /// No object of this koid and kind, or no program of this number.
    Unknown,
    /// Handles that a process can't be given.
    BadHandleList,
    /// The job's policy doesn't allow what a checked program needs.
    NeedDenied,
    /// The policy of a job that has children.
    BadState,
    /// A condition that is set to another action already.
    Conflict,
    /// Too many of something, or too long an input.
    Limit,
}

impl Cause {
    /// The name of the cause, as answers have it.
    pub fn name(self) -> &'static str
        ensures { result.now ≡ cause_name self }
    {
        match self {
            Cause::Syntax => "Syntax",
            Cause::Program => "Program",
            Cause::Check => "Check",
            Cause::Unknown => "Unknown",
            Cause::BadHandleList => "BadHandleList",
            Cause::NeedDenied => "NeedDenied",
            Cause::BadState => "BadState",
            Cause::Conflict => "Conflict",
            Cause::Limit => "Limit",
        }
    }
}

/// Why a line is refused, with the word that is at fault, where it is one. Contracts see the cause; no
/// clause says which word it is.
#[derive(Drop)]
pub struct WordFault {
    cause: Cause,
    word: Option<usize>,
}

impl Model for WordFault {
    ghost use Rattle.zl_scenario.specs.declared.cause.Cause.{Cause};

    ghost Value = { Cause };

    ghost view = { λ f. f.cause };
}

impl WordFault {
    /// This word of a line, counted from 0, is refused for the cause, or the line as a whole.
    pub(crate) fn new(cause: Cause, word: Option<usize>) -> WordFault
        ensures { result ≡ cause }
    {
        WordFault { cause, word }
    }

    /// The fault of a line of this number that is refused so.
    pub(crate) fn in_line(self, line: u64) -> PlacedFault
        ensures { result ≡ record { line = line; cause = self } }
    {
        PlacedFault {
            fault: LineFault {
                line,
                cause: self.cause,
            },
            word: self.word,
        }
    }
}

/// The first fault of an input.
#[derive(Clone, Copy)]
pub struct LineFault {
    /// The number of the line, from 1; 0 for the input as a whole.
    pub line: u64,
    pub cause: Cause,
}

impl LineFault {
    /// The fault of a whole line, or one of which no word is known, as booting finds it.
    pub fn alone(self) -> PlacedFault
        ensures { result ≡ self }
    {
        PlacedFault {
            fault: self,
            word: None,
        }
    }
}

/// The first fault of an input, with the word of its line that is at fault, where it is one. Contracts
/// see the line and the cause; no clause says which word it is.
#[derive(Drop)]
pub struct PlacedFault {
    fault: LineFault,
    word: Option<usize>,
}

impl Model for PlacedFault {
    ghost use Rattle.zl_scenario.specs.declared.cause.LineFault.{LineFault};

    ghost Value = { LineFault };

    ghost view = { λ f. f.fault };
}

impl PlacedFault {
    /// The line and the cause.
    pub fn fault(&self) -> LineFault
        ensures { result ≡ self.now }
    {
        self.fault
    }

    /// The word that is at fault, among those of the line, counted from 0: that of a statement is the
    /// name where no statement of so many words has it. Nothing where the whole line is at fault, or the
    /// block that it opens, and where the fault was found as the scenario was booted.
    pub fn word(&self) -> Option<usize> {
        self.word
    }
}
