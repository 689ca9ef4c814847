//! The reader: one line after the other, in one pass.
ghost use Rattle.std.specs.Prelude.{◌≡◌, IfOk, map};
ghost use Rattle.zl_asm.specs.Words.{lines_of};
ghost use Rattle.zl_scenario.specs.Scenario.{start, told_line, fault_at_end, part_said, line_said};
ghost use Rattle.zl_scenario.specs.Reading.{Judges, Keeps, IsScenario, said_by};
ghost use Rattle.zl_scenario.specs.Reads.{Reads, whole_at, whole_in};

use crate::block::read_block;
use crate::body::Body;
use crate::cause::{Cause, PlacedFault, WordFault};
use crate::draft::Draft;
use crate::fault::Fault;
use crate::part::Part;
use crate::reading::Scenario;
use crate::schedule::read_turns;
use crate::statements::read_statement;
use crate::words::is_ascii;
use std::alloc::{AllocError, Global};
use std::marker::Model;
use zl_lines::{is_comment, split_words};

/// What was read so far, and what the next line belongs to.
#[derive(Drop)]
pub struct Reader {
    part: Part,
    /// What the block holds, where the next line belongs to one.
    body: Body,
    draft: Draft,
}

impl Model for Reader {
    ghost use Rattle.zl_scenario.specs.Scenario.{Place, at};
    ghost use Rattle.zl_scenario.specs.Reading.{part_with};

    ghost Value = { Place };

    ghost view = { λ r. at r.draft (part_with r.body r.part) };
}

impl Reader {
    /// A reader before the first line.
    pub fn new(alloc: Global) -> Reader
        ensures { result ≡ start }
    {
        Reader {
            part: Part::Statements,
            body: Body::new(alloc),
            draft: Draft::new(alloc),
        }
    }

    /// The scenario that was read.
    pub fn into_scenario(self) -> Scenario
        ensures said { said_by result ≡ self.said }
        ensures whole { IsScenario self.said result }
    {
        self.draft.into_scenario()
    }

    /// The line that a fault of the line of this number is told of.
    fn told_line(&self, number: u64) -> u64
        ensures { result ≡ told_line number self.now.part }
    {
        match self.part {
            Part::Block { opened, .. } => opened,
            Part::Statements | Part::Schedule => number,
        }
    }

    /// The fault of a block that no line ends.
    fn fault_at_end(&self) -> Option<PlacedFault>
        ensures { result ≡ fault_at_end self.now.part }
    {
        match self.part {
            Part::Block { opened, .. } => {
                Some(WordFault::new(Cause::Syntax, None).in_line(opened))
            }
            Part::Statements | Part::Schedule => None,
        }
    }

    /// Reads the line of this number; `words` is room for its words.
    #[tactic(auto, unfolding(crate::specs::Scenario::line_said, crate::specs::Reads::whole_at))]
    fn read_line<'a>(
        &mut self,
        alloc: Global,
        number: u64,
        line: &'a [u8],
        words: &mut Vec<&'a [u8]>,
    ) -> Result<(), Fault>
        ensures answer { Judges result (λ _. self.new) (line_said number self.old line.now)
            (whole_at self.old line.now) }
        ensures unchanged { Keeps result self.old.said self.new.said }
    {
        if !is_ascii(line) {
            return Err(Fault::alone(Cause::Syntax));
        }
        if is_comment(line) {
            return Ok(());
        }
        split_words(words, line)?;
        self.read_part(alloc, number, line, words)
    }

    /// Reads a line with these words, by the part that it belongs to.
    #[tactic(auto, unfolding(crate::specs::Reads::whole_in))]
    fn read_part(
        &mut self,
        alloc: Global,
        number: u64,
        line: &[u8],
        words: &[&[u8]],
    ) -> Result<(), Fault>
        ensures answer { Judges result (λ _. self.new)
            (part_said number self.old.said self.old.part line.now
            (map (λ word. word.now) words.now))
            (whole_in self.old.part (map (λ word. word.now) words.now)) }
        ensures unchanged { Keeps result self.old.said self.new.said }
    {
        self.part = match self.part {
            Part::Statements => {
                read_statement(&mut self.draft, &mut self.body, alloc, number, words)?
            }
            Part::Block { opened, checked } => {
                let draft = &mut self.draft;
                read_block(draft, &mut self.body, alloc, opened, checked, line, words)?
            }
            Part::Schedule => {
                read_turns(&mut self.draft, words)?;
                Part::Schedule
            }
        };
        Ok(())
    }

    /// Reads all lines of the text, up to the first fault, and gives that fault. The error is a want of
    /// memory.
    pub fn read_lines(
        &mut self,
        alloc: Global,
        text: &[u8],
    ) -> Result<Option<PlacedFault>, AllocError>
        ensures { IfOk result (λ fault. Reads 1 self.old (lines_of text.now)
            (record { said = self.new.said; fault = fault })) }
    {
        let mut words = Vec::new(alloc);
        for (index, line) in text.split(|byte| *byte == b'\n').enumerate() {
            let number = index as u64 + 1;
            let told = self.told_line(number);
            match self.read_line(alloc, number, line, &mut words) {
                Ok(()) => {}
                Err(Fault::Refused(fault)) => return Ok(Some(fault.in_line(told))),
                Err(Fault::Unaccepted) => {
                    return Ok(Some(WordFault::new(Cause::Check, None).in_line(told)));
                }
                Err(Fault::NoMemory) => return Err(AllocError),
            }
        }
        Ok(self.fault_at_end())
    }
}
