//! The edges of an instruction, by where they lead and what is different there.

ghost use Rattle.std.specs.Prelude.{◌≡◌, ◌+◌, ◌<◌, length};
ghost use Rattle.zl_code.specs.Limits.{most_instructions};
ghost use Rattle.zl_abs.specs.Rule.{and_then, edge_to, edges};
ghost use Rattle.zl_abs.specs.Changes.{changed_if, step_told, steps_told, ways_by, ways_told};

use crate::cause::{Cause, RuleFault};
use crate::change::Change;
use crate::state::AbsState;
use crate::ways::Changes;
use zl_code::Image;

/// An edge: the instruction to which it leads, and what is different there. Own profile.
#[derive(Clone, Copy)]
pub struct Step {
    pub target: usize,
    pub change: Change,
}

/// The edges that are followed from an instruction. Own profile.
#[derive(Clone, Copy)]
pub struct Steps {
    /// Where it jumps.
    pub jump: Option<Step>,
    /// Where it goes on to the next instruction.
    pub next: Option<Step>,
}

/// The edge, if it is followed, or the cause, if it leads out of the code.
fn step_to(
    image: &Image,
    state: &AbsState,
    cause: Cause,
    target: usize,
    change: Option<Change>,
) -> Result<Option<Step>, RuleFault>
    ensures { step_told state.now result
        ≡ edge_to (length image.now.code) cause target (changed_if state.now change) }
{
    let Some(change) = change else {
        return Ok(None);
    };
    if target < image.len() {
        Ok(Some(Step { target, change }))
    } else {
        Err(cause.alone())
    }
}

/// The edges that are followed from an instruction at this place, which may jump to this target, and
/// leaves this state but for the changes.
fn steps_of(
    image: &Image,
    state: &AbsState,
    place: usize,
    target: usize,
    changes: &Changes,
) -> Result<Steps, RuleFault>
    requires { place < most_instructions }
    ensures { steps_told state.now result
        ≡ edges (length image.now.code) place target (ways_by state.now changes.now) }
{
    let jump = step_to(image, state, Cause::BadJump, target, changes.jumped)?;
    let next = step_to(image, state, Cause::FallsOff, place + 1, changes.passed)?;
    Ok(Steps { jump, next })
}

/// The same, or why the rule of the instruction doesn't hold.
pub(crate) fn steps_from(
    image: &Image,
    state: &AbsState,
    place: usize,
    target: usize,
    changes: Result<Changes, RuleFault>,
) -> Result<Steps, RuleFault>
    requires { place < most_instructions }
    ensures { steps_told state.now result
        ≡ and_then (ways_told state.now changes) (edges (length image.now.code) place target) }
{
    match changes {
        Ok(changes) => steps_of(image, state, place, target, &changes),
        Err(fault) => Err(fault),
    }
}
