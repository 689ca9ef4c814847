//! Reading a scenario with its schedule.
ghost use Rattle.std.specs.Prelude.{IfOk};
ghost use Rattle.zl_scenario.specs.Scenario.{Reading as ReadingValue, IsInOrder, BlocksAreWhole};
ghost use Rattle.zl_scenario.specs.Reading.{IsScenario, reading_value};
ghost use Rattle.zl_scenario.specs.Reads.{IsRead, TextsAreReadOnce, TextsAreReadAsSaid};

use crate::cause::PlacedFault;
use crate::reader::Reader;
use std::alloc::{AllocError, Global};
use zl_code::Boot;
use zl_interp::Library;
use zl_rights::Pid;

/// What an input asks for.
#[derive(Drop)]
pub struct Scenario {
    pub library: Library,
    /// The number of the line that opens the block of each program. No clause speaks of it.
    pub program_lines: Vec<u64>,
    pub boot: Boot,
    /// The number of the line of each statement, from 1.
    pub lines: Vec<u64>,
    /// The number of the line `--` between the statements and the schedule, if there is one.
    pub schedule_line: Option<u64>,
    /// Pairs of a process and a number of turns, at most 1,000,000 each.
    pub schedule: Vec<(Pid, u32)>,
}

/// What was read of an input.
#[derive(Drop)]
pub struct Reading {
    /// All that stands before the fault.
    pub scenario: Scenario,
    /// The first fault that reading alone finds; booting may find one in an earlier line.
    pub fault: Option<PlacedFault>,
}

/// Reads the scenario and the schedule up to the first fault. The error is a want of memory.
///
/// Source: own profile.
pub fn read_scenario(alloc: Global, text: &[u8]) -> Result<Reading, AllocError>
    ensures read { IfOk result (λ reading. IsRead text.now (reading_value reading)) }
    ensures scenario { IfOk result (λ reading. IsScenario (reading_value reading).said
        reading.scenario) }
    // Of two faults, one in a statement and the reader's, that of the statement is in an earlier line.
    ensures in_order { (reading : ReadingValue) → IsRead text.now reading → IsInOrder reading }
    // Laws of what lines say, and of how texts are read.
    ensures blocks { BlocksAreWhole }
    ensures once { TextsAreReadOnce }
    ensures as_said { TextsAreReadAsSaid }
{
    let mut reader = Reader::new(alloc);
    let fault = reader.read_lines(alloc, text)?;
    let scenario = reader.into_scenario();
    Ok(Reading { scenario, fault })
}
