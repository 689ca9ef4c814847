//! The block of a program.
ghost use Rattle.std.specs.Prelude.{◌≡◌, map};
ghost use Rattle.zl_scenario.specs.Scenario.{at, Block, is_end, bytes_said, program_said, block_said};
ghost use Rattle.zl_scenario.specs.Reading.{part_with, Judges, Keeps, Verifies};
ghost use Rattle.zl_scenario.specs.Reads.{listed, whole_in};

use crate::body::Body;
use crate::cause::Cause;
use crate::draft::Draft;
use crate::fault::Fault;
use crate::part::Part;
use crate::words::is;
use std::alloc::Global;
use zl_code::Image;
use zl_interp::Program;
use zl_verify::{RefusalCause, check};

/// The most programs of a scenario.
const MOST_PROGRAMS: usize = 256;

/// Reads a line of the block that the line `opened` opens, of a program that is marked as checked or
/// isn't, and answers what the next line belongs to. The `body` is what the lines before it have
/// given.
#[tactic(auto, unfolding(crate::specs::Scenario::block_said, crate::specs::Reads::whole_in))]
pub fn read_block(
    draft: &mut Draft,
    body: &mut Body,
    alloc: Global,
    opened: u64,
    checked: bool,
    line: &[u8],
    words: &[&[u8]],
) -> Result<Part, Fault>
    ensures answer { Judges result (λ next. at draft.new (part_with body.new next))
        (block_said draft.old opened checked body.old line.now
        (map (λ word. word.now) words.now))
        (whole_in (Block opened checked body.old) (map (λ word. word.now) words.now)) }
    ensures unchanged { Keeps result draft.old draft.new }
{
    if is_end(words) {
        read_program(draft, alloc, opened, body, checked)?;
        return Ok(Part::Statements);
    }
    body.push_line(line)?;
    Ok(Part::Block { opened, checked })
}

#[tactic(auto, unfolding(crate::specs::Scenario::is_end))]
fn is_end(words: &[&[u8]]) -> bool
    ensures { result ≡ is_end (map (λ word. word.now) words.now) }
{
    match words {
        [name] => is(name, b"end"),
        _ => false,
    }
}

/// Adds the program that the whole block gives, which this line opens.
#[tactic(auto, unfolding(crate::specs::Scenario::program_said))]
fn read_program(
    draft: &mut Draft,
    alloc: Global,
    opened: u64,
    body: &Body,
    checked: bool,
) -> Result<(), Fault>
    ensures answer { Judges result (λ _. draft.new)
        (program_said draft.old checked (bytes_said body.now))
        (listed checked (bytes_said body.now)) }
    ensures unchanged { Keeps result draft.old draft.new }
{
    let image = body.image(alloc)?;
    let program = program_of(alloc, image, checked)?;
    if draft.programs() >= MOST_PROGRAMS {
        return Err(Fault::alone(Cause::Limit));
    }
    draft.push_program(opened, program)?;
    Ok(())
}

/// The program of this mark and image, which the verifier has to accept where the mark asks for it.
fn program_of(alloc: Global, image: Image, checked: bool) -> Result<Program, Fault>
    ensures { Verifies result checked image }
{
    if !checked {
        return Ok(Program::Raw(image));
    }
    match check(alloc, image) {
        Ok(accepted) => Ok(Program::Checked(accepted)),
        Err(refusal) => Err(match refusal.cause {
            RefusalCause::NoMemory => Fault::NoMemory,
            _ => Fault::Unaccepted,
        }),
    }
}
