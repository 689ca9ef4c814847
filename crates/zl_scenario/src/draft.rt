//! What the lines of a scenario have said so far.
ghost use Rattle.std.specs.Prelude.{◌≡◌, IsTrue, length, OnOk};
ghost use Rattle.zl_interp.specs.Program.{program_value};
ghost use Rattle.zl_code.specs.Spells.{spelling};
ghost use Rattle.zl_scenario.specs.Accepted.{AcceptsImage};
ghost use Rattle.zl_scenario.specs.Scenario.{start, with_program, with_schedule, with_statement, with_turns};
ghost use Rattle.zl_scenario.specs.Reading.{IsScenario, has_ranges, said_by};

use crate::reading::Scenario;
use std::alloc::{AllocError, Global};
use std::marker::Model;
use zl_code::{Boot, Statement};
use zl_interp::{Library, Program};
use zl_rights::Pid;

/// The limit of the trace where a scenario names none.
const USUAL_LIMIT: u64 = 1_000;

/// What the lines have said so far.
#[derive(Drop)]
pub struct Draft {
    scenario: Scenario,
}

impl Model for Draft {
    ghost use Rattle.zl_scenario.specs.Scenario.{Scenario as ScenarioValue};
    ghost use Rattle.zl_scenario.specs.Reading.{said_by, IsLibrary};

    ghost Value = { ScenarioValue };

    ghost view = { λ d. said_by d.scenario };

    ghost invariant = { λ d. IsLibrary d.scenario.library };
}

impl Draft {
    /// Nothing is said yet.
    pub fn new(alloc: Global) -> Draft
        ensures { result ≡ start.said }
    {
        Draft {
            scenario: Scenario {
                library: Library::new(alloc),
                program_lines: Vec::new(alloc),
                boot: Boot {
                    statements: Vec::new(alloc),
                    limit: USUAL_LIMIT,
                },
                lines: Vec::new(alloc),
                schedule_line: None,
                schedule: Vec::new(alloc),
            },
        }
    }

    /// How many programs there are.
    pub fn programs(&self) -> usize
        ensures { result ≡ length self.now.programs }
    {
        self.scenario.library.len()
    }

    /// Adds the program, which is of this mark and this image, and whose block this line opens.
    pub fn push_program(&mut self, opened: u64, program: Program) -> Result<(), AllocError>
        requires in_range { IsTrue (has_ranges (program_value program)) }
        requires accepted { AcceptsImage (program_value program).checked
            (program_value program).image }
        ensures { OnOk result (self.new ≡ with_program self.old (program_value program).checked
            (spelling (program_value program).image)) }
    {
        self.scenario.program_lines.push(opened)?;
        self.scenario.library.push(program)?;
        Ok(())
    }

    /// Adds the statement, which stands in this line.
    pub fn push_statement(&mut self, line: u64, statement: Statement) -> Result<(), AllocError>
        ensures { OnOk result (self.new ≡ with_statement self.old line statement) }
    {
        self.scenario.lines.push(line)?;
        self.scenario.boot.statements.push(statement)?;
        Ok(())
    }

    /// Sets the limit of the trace.
    pub fn set_limit(&mut self, limit: u64)
        ensures { self.new ≡ record self.old { limit = limit } }
    {
        self.scenario.boot.limit = limit;
    }

    /// This line parts the statements from the schedule.
    pub fn open_schedule(&mut self, line: u64)
        ensures { self.new ≡ with_schedule self.old line }
    {
        self.scenario.schedule_line = Some(line);
    }

    /// Adds so many turns of the process.
    pub fn push_turns(&mut self, pid: Pid, count: u32) -> Result<(), AllocError>
        ensures { OnOk result (self.new ≡ with_turns self.old pid count) }
    {
        self.scenario.schedule.push((pid, count))?;
        Ok(())
    }

    /// The scenario that was said.
    pub fn into_scenario(self) -> Scenario
        ensures said { said_by result ≡ self }
        ensures whole { IsScenario self result }
    {
        self.scenario
    }
}
