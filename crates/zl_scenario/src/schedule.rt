//! The lines of the schedule.
ghost use Rattle.std.specs.Prelude.{map};
ghost use Rattle.zl_scenario.specs.Numbers.{number_of};
ghost use Rattle.zl_scenario.specs.Scenario.{pair_said, turns_said};
ghost use Rattle.zl_scenario.specs.Reading.{Tells, Keeps};

use crate::cause::Cause;
use crate::draft::Draft;
use crate::fault::Fault;
use crate::faulty::no_number;
use crate::numbers::number;

/// The most turns of a line.
const MOST_TURNS: u64 = 1_000_000;

/// Reads the words of a line after the line `--`.
#[tactic(auto, unfolding(crate::specs::Scenario::turns_said))]
pub fn read_turns(draft: &mut Draft, words: &[&[u8]]) -> Result<(), Fault>
    ensures answer { Tells result (λ _. draft.new)
        (turns_said draft.old (map (λ word. word.now) words.now)) }
    ensures unchanged { Keeps result draft.old draft.new }
{
    match words {
        [] => Ok(()),
        [pid, count] => read_pair(draft, pid, count),
        _ => Err(Fault::alone(Cause::Syntax)),
    }
}

#[tactic(auto, unfolding(crate::specs::Scenario::pair_said))]
fn read_pair(draft: &mut Draft, pid: &[u8], count: &[u8]) -> Result<(), Fault>
    ensures answer { Tells result (λ _. draft.new)
        (pair_said draft.old (number_of pid.now) (number_of count.now)) }
    ensures unchanged { Keeps result draft.old draft.new }
{
    let (Some(pid), Some(count)) = (number(pid), number(count)) else {
        return Err(Fault::at(Cause::Syntax, no_number(&[pid, count], 0)));
    };
    if count > MOST_TURNS {
        return Err(Fault::at(Cause::Syntax, Some(1)));
    }
    draft.push_turns(pid, count as u32)?;
    Ok(())
}
