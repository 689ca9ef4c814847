//! The rule of each instruction, with its edges.

ghost use Rattle.std.specs.Prelude.{◌≡◌, ◌<◌, length, IsTrue};
ghost use Rattle.zl_code.specs.Limits.{most_instructions};
ghost use Rattle.zl_code.specs.Spells.{is_call_in_range};
ghost use Rattle.zl_abs.specs.CallRules.{call_rule};
ghost use Rattle.zl_abs.specs.Rule.{and_then, edges};
ghost use Rattle.zl_abs.specs.Bounds.{bounds_of};
ghost use Rattle.zl_abs.specs.Found.{bounds_in};
ghost use Rattle.zl_abs.specs.Successors.{edges_told, edge_in};
ghost use Rattle.zl_abs.specs.Changes.{step_in, steps_told};
ghost use Rattle.zl_abs.specs.Typing.{rule, rule_with, target_of};
ghost use Rattle.zl_abs.specs.Targets.{jump_of};

use crate::bounds::Bounds;
use crate::call_rules::call_rule;
use crate::cause::{Cause, RuleFault};
use crate::local_rules::local_rule;
use crate::round_up::Rounding;
use crate::state::AbsState;
use crate::steps::{Step, Steps, steps_from};
use zl_code::{CallInstr, Image, LocalInstr};

/// An edge: the instruction to which it leads, and what is known there. Own profile.
#[derive(Clone, Copy)]
pub struct Edge {
    pub target: usize,
    pub state: AbsState,
}

/// The edges that are followed from an instruction. Own profile.
#[derive(Clone, Copy)]
pub struct Successors {
    /// Where it jumps.
    pub jump: Option<Edge>,
    /// Where it goes on to the next instruction.
    pub next: Option<Edge>,
}

/// The edge in full, if it is followed.
fn edge_of(state: &AbsState, step: &Option<Step>) -> Option<Edge>
    ensures { edge_in result ≡ step_in state.now step.now }
{
    let Some(step) = step else {
        return None;
    };
    let mut state = *state;
    state.change(step.change);
    Some(Edge {
        target: step.target,
        state,
    })
}

/// Where the instruction may jump, an endrep behind its rep; 0 where it doesn't jump.
#[tactic(auto, unfolding(zl_code::specs::Spells::local_parts))]
fn target_of(local: &LocalInstr) -> usize
    ensures { result ≡ target_of local.now }
{
    match local {
        LocalInstr::Jump { target }
        | LocalInstr::JumpZero { target, .. }
        | LocalInstr::JumpNotZero { target, .. }
        | LocalInstr::JumpEqual { target, .. }
        | LocalInstr::JumpNotEqual { target, .. }
        | LocalInstr::JumpBelow { target, .. }
        | LocalInstr::JumpNotBelow { target, .. }
        | LocalInstr::JumpHas { target, .. }
        | LocalInstr::JumpHasNot { target, .. } => *target as usize,
        LocalInstr::EndRep { rep } => *rep as usize + 1,
        _ => 0,
    }
}

/// The edges that are followed from the call, which is the instruction of this number, or why its
/// rule doesn't hold. The state becomes what they change, and stays where it doesn't hold.
fn steps_of_call(
    bounds: Rounding<'_>,
    image: &Image,
    at: usize,
    call: CallInstr,
    state: &mut AbsState,
) -> Result<Steps, RuleFault>
    requires in_range { IsTrue (is_call_in_range call) }
    requires inside { at < most_instructions }
    ensures { steps_told state.new result
        ≡ and_then (call_rule (bounds_in bounds.entry) image.now call state.old)
        (edges (length image.now.code) at 0) }
{
    let before = *state;
    let changes = call_rule(bounds, image, call, &before, state);
    match steps_from(image, state, at, 0, changes) {
        Ok(steps) => Ok(steps),
        Err(fault) => {
            *state = before;
            Err(fault)
        }
    }
}

/// Where the instruction of this number may jump, 0 where it doesn't jump. Own profile.
pub fn jump_target(image: &Image, at: usize) -> usize
    ensures { result ≡ jump_of image.now at }
{
    match image.local_at(at) {
        Some(local) => target_of(&local),
        None => 0,
    }
}

/// The edges that are followed from the instruction of this number in this state, or why its rule
/// doesn't hold there. The state becomes what they change.
#[tactic(auto, using(crate::proofs::RuleSteps::call_in_range, crate::proofs::RuleSteps::unknown_there, crate::proofs::RuleSteps::nothing_there))]
fn steps_rounding(
    bounds: Rounding<'_>,
    image: &Image,
    at: usize,
    state: &mut AbsState,
) -> Result<Steps, RuleFault>
    ensures { steps_told state.new result
        ≡ rule_with (bounds_in bounds.entry) image.now at state.old }
{
    let length = image.len();
    if let Some(local) = image.local_at(at) {
        let target = target_of(&local);
        let changes = local_rule(bounds, image, local, state);
        return steps_from(image, state, at, target, changes);
    }
    if let Some(call) = image.call_at(at) {
        return steps_of_call(bounds, image, at, call, state);
    }
    if at < length {
        Err(Cause::IllegalOp.alone())
    } else {
        Err(Cause::FallsOff.alone())
    }
}

/// The edges in full, or why the rule doesn't hold.
fn edges_of(state: &AbsState, steps: Result<Steps, RuleFault>) -> Result<Successors, RuleFault>
    ensures { edges_told result ≡ steps_told state.now steps }
{
    match steps {
        Ok(steps) => Ok(Successors {
            jump: edge_of(state, &steps.jump),
            next: edge_of(state, &steps.next),
        }),
        Err(fault) => Err(fault),
    }
}

/// The same with the states at their ends.
fn transfer_rounding(
    bounds: Rounding<'_>,
    image: &Image,
    at: usize,
    state: &AbsState,
) -> Result<Successors, RuleFault>
    ensures { edges_told result ≡ rule_with (bounds_in bounds.entry) image.now at state.now }
{
    let mut after = *state;
    let steps = steps_rounding(bounds, image, at, &mut after);
    edges_of(&after, steps)
}

/// What `transfer_by` says, with no state at the end of an edge: there stands what the state became,
/// with the change of the edge. Where the rule doesn't hold, the state is of no use. Own profile.
pub fn step_by(
    bounds: &Bounds,
    image: &Image,
    at: usize,
    state: &mut AbsState,
) -> Result<Steps, RuleFault>
    ensures { steps_told state.new result ≡ rule_with bounds.now image.now at state.old }
{
    steps_rounding(Rounding::List(bounds), image, at, state)
}

/// The edges that are followed from the instruction of this number in this state, or why its rule
/// doesn't hold there. Bounds of words are rounded up by these bounds, which are made once for an
/// image.
///
/// `FallsOff` also where there is no such instruction; `IllegalOp` also for an unknown opcode.
/// Own profile.
pub fn transfer_by(
    bounds: &Bounds,
    image: &Image,
    at: usize,
    state: &AbsState,
) -> Result<Successors, RuleFault>
    ensures { edges_told result ≡ rule_with bounds.now image.now at state.now }
{
    transfer_rounding(Rounding::List(bounds), image, at, state)
}

/// The edges that are followed from the instruction of this number in this state, or why its rule
/// doesn't hold there. It takes no memory, and goes over the whole code for each bound.
///
/// `FallsOff` also where there is no such instruction; `IllegalOp` also for an unknown opcode.
/// Own profile.
pub fn transfer(image: &Image, at: usize, state: &AbsState) -> Result<Successors, RuleFault>
    ensures { edges_told result ≡ rule image.now at state.now }
{
    transfer_rounding(Rounding::Code(image.code()), image, at, state)
}
