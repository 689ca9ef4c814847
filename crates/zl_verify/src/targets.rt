//! Where the instructions of a typing lead.

ghost use Rattle.std.specs.Prelude.{◌≡◌, ◌++◌, IfOk, Some};
ghost use Rattle.std.specs.Option.{option_to_list};
ghost use Rattle.zl_code.specs.Blocks.{marks_of};
ghost use Rattle.zl_code.specs.Image.{call_at};
ghost use Rattle.zl_abs.specs.Bounds.{RoundAlike, bounds_of};
ghost use Rattle.zl_abs.specs.Changes.{changed, step_in};
ghost use Rattle.zl_abs.specs.Typing.{rule};
ghost use Rattle.zl_verify.specs.Lists.{at};
ghost use Rattle.zl_verify.specs.Steps.{is_pause, leads_by};
ghost use Rattle.zl_verify.specs.Stretches.{inner, inner_last, inner_of, known_by, passed_on, states_of};
ghost use Rattle.zl_verify.specs.Nested.{places, IsNested, IsPacked};
ghost use Rattle.zl_verify.specs.Leading.{flow_in, target_in, unless_pause, AreTargets};

use crate::edges::edges_at;
use crate::least::Found;
use crate::steps::Targets;
use std::alloc::{AllocError, Global};
use zl_abs::{AbsState, Bounds, Step, Steps};
use zl_code::{CallName, Image};

/// Whether the count of instructions begins anew at this one: a wait or an exit.
pub(crate) fn is_pause(image: &Image, place: usize) -> bool
    ensures { result ≡ is_pause (call_at image.now place) }
{
    match image.call_at(place) {
        Some(call) => matches!(
            call.name,
            CallName::WaitOne | CallName::PortWait | CallName::ProcessExit
        ),
        None => false,
    }
}

fn target_of(edge: &Option<Step>) -> Option<usize>
    ensures { result ≡ target_in edge.now }
{
    match edge {
        Some(edge) => Some(edge.target),
        None => None,
    }
}

/// The places of these edges; nowhere from a pause.
fn targets_in(image: &Image, place: usize, edges: &Steps) -> Targets
    ensures places { places result ≡ unless_pause (is_pause (call_at image.now place))
        (option_to_list (target_in edges.now.jump) ++ option_to_list (target_in edges.now.next)) }
    ensures packed { IsPacked (Some result) }
{
    if is_pause(image, place) {
        return Targets::NONE;
    }
    Targets::packed(target_of(&edges.jump), target_of(&edges.next))
}

/// What is known where an instruction stands, on the way through the code from its first to its last.
#[derive(Drop)]
struct Flow {
    state: AbsState,
    /// Whether a way to the instruction was found; else the state is of no use.
    is_there: bool,
}

impl Flow {
    /// Where a stretch begins, what was found there is known.
    fn begin(&mut self, found: &Found, place: usize)
        ensures { flow_in self.new.is_there self.new.state
            ≡ known_by found.now.states.items (flow_in self.old.is_there self.old.state)
            (at found.now.stretches.numbers place) }
    {
        let Some(stretch) = found.stretches.number(place) else {
            return;
        };
        match found.states.get(stretch) {
            Some(Some(state)) => {
                self.state = *state;
                self.is_there = true;
            }
            _ => self.is_there = false,
        }
    }

    /// The last edge of an instruction is followed within its stretch, if it stays there.
    fn leave(&mut self, found: &Found, edge: &Step)
        ensures { flow_in self.new.is_there self.new.state ≡ inner_last
            (changed self.old.state edge.now.change) (at found.now.stretches.numbers edge.now.target) }
    {
        self.state.change(edge.change);
        self.is_there = found.stretches.number(edge.target).is_none();
    }

    /// The edges of an instruction are followed within its stretch.
    #[tactic(auto, unfolding(crate::specs::Stretches::inner))]
    fn go_on(&mut self, found: &Found, edges: &Steps)
        ensures { flow_in self.new.is_there self.new.state ≡ inner found.now.stretches.numbers
            (step_in self.old.state edges.now.jump ++ step_in self.old.state edges.now.next) }
    {
        let Some(next) = &edges.next else {
            let Some(jump) = &edges.jump else {
                self.is_there = false;
                return;
            };
            return self.leave(found, jump);
        };
        self.leave(found, next);
    }

    /// Where the edges lead that are followed from the instruction, to which a way was found. Then the
    /// next one is looked at.
    #[tactic(auto, using(crate::proofs::Leading::leads_told, crate::proofs::Leading::leads_nowhere, crate::proofs::Leading::inner_told, crate::proofs::Leading::inner_none))]
    fn look_there(&mut self, bounds: &Bounds, image: &Image, found: &Found, place: usize) -> Targets
        requires { RoundAlike bounds.now (bounds_of image.now.code) }
        ensures places { places result ≡ leads_by image.now place (Some self.old.state) }
        ensures packed { IsPacked (Some result) }
        ensures flow { flow_in self.new.is_there self.new.state
            ≡ inner_of found.now.stretches.numbers (rule image.now place self.old.state) }
    {
        match edges_at(bounds, image, place, &mut self.state) {
            Ok(edges) => {
                self.go_on(found, &edges);
                targets_in(image, place, &edges)
            }
            Err(_) => {
                self.is_there = false;
                Targets::NONE
            }
        }
    }

    /// The same where a way may not have been found, and then nowhere.
    fn look(&mut self, bounds: &Bounds, image: &Image, found: &Found, place: usize) -> Targets
        requires { RoundAlike bounds.now (bounds_of image.now.code) }
        ensures places { places result
            ≡ leads_by image.now place (flow_in self.old.is_there self.old.state) }
        ensures packed { IsPacked (Some result) }
        ensures flow { flow_in self.new.is_there self.new.state ≡ passed_on image.now
            found.now.stretches.numbers place (flow_in self.old.is_there self.old.state) }
    {
        if self.is_there {
            self.look_there(bounds, image, found, place)
        } else {
            Targets::NONE
        }
    }
}

/// Where the edges lead that are followed from each instruction, by what was found.
pub(crate) fn targets_of(
    alloc: Global,
    bounds: &Bounds,
    image: &Image,
    found: &Found,
) -> Result<Vec<Targets>, AllocError>
    requires { RoundAlike bounds.now (bounds_of image.now.code) }
    ensures edges { IfOk result (λ targets. AreTargets image.now
        (states_of image.now found.now.stretches.numbers found.now.states.items) targets.items) }
    ensures nested { IfOk result (λ targets. IsNested (marks_of image.now.code) targets.items) }
{
    let mut targets = vec![in alloc; Targets::NONE; image.len()]?;
    let mut flow = Flow {
        state: AbsState::start(image),
        is_there: false,
    };
    for place in 0..image.len() {
        flow.begin(found, place);
        targets[place] = flow.look(bounds, image, found, place);
    }
    Ok(targets)
}
