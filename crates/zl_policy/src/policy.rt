ghost use Rattle.std.specs.Prelude.{◌≡◌, ◌↔◌, ◌<◌, ◌&&◌, not, IsTrue, [], Err, Ok, OnErr, OnOk, Some, get_or, if◌then◌else◌, length, map, slice_get};
ghost use Rattle.zl_rights.specs.Map.{get};
ghost use Rattle.zl_rights.specs.Signals.{is_empty};
ghost use Rattle.zl_rights.specs.Numbers.{action_number, condition_number};
ghost use Rattle.zl_rights.specs.declared.status.Status.{Status};
ghost use Rattle.zl_policy.specs.Policies.{action_in, answer_of, conditions_of, conflicts, is_absolute, is_other, policy_set, with_unset};

use std::marker::Model;
use std::slice;
use zl_rights::{Action, Condition, Mode, Status};

/// What a job decides for each condition. A condition that isn't set is allowed.
///
/// Source: the page "zx_job_set_policy" of the Fuchsia documentation.
#[derive(Drop)]
pub struct Policy {
    // The actions by the numbers of their conditions.
    actions: [Option<Action>; Policy::PLACES],
}

impl Model for Policy {
    ghost use Rattle.std.specs.Prelude.{◌≡◌, length};
    ghost use Rattle.zl_rights.specs.Map.{Map};
    ghost use Rattle.zl_rights.specs.declared.policy.Action.{Action};
    ghost use Rattle.zl_policy.specs.Policies.{actions_from};

    ghost Value = { Map Action };

    ghost view = { λ p. actions_from 0 p.actions };

    ghost invariant = { λ p. length p.actions ≡ 8 };
}

impl Policy {
    /// One place for each number of a condition.
    const PLACES: usize = 8;

    /// The policy in which nothing is set.
    #[tactic(auto, unfolding(crate::specs::Policies::actions_from))]
    pub fn new() -> Policy
        ensures { result ≡ [] }
    {
        Policy {
            actions: [None; Policy::PLACES],
        }
    }

    /// The policy of a job that is made in a job with this one: the same.
    ///
    /// Source: the page "zx_job_create" of the Fuchsia documentation.
    pub fn inherit(&self) -> Policy
        ensures { result ≡ self.now }
    {
        Policy {
            actions: self.actions,
        }
    }

    /// Whether the other policy is the same: the same actions are set for the same conditions.
    ///
    /// Source: own profile.
    pub fn is_same(&self, other: &Policy) -> bool
        ensures { IsTrue result ↔ self.now ≡ other.now }
    {
        self.actions
            .iter()
            .zip(other.actions.iter())
            .all(|(one, other)| is_same_action(one, other))
    }

    /// The action for the condition: `Allow` where none is set, as always for `NewAny`.
    pub fn action(&self, condition: Condition) -> Action
        ensures { result ≡ action_in self.now condition }
    {
        match self.get(&condition) {
            Some(action) => action,
            None => Action::Allow,
        }
    }

    /// Whether an action is set for any condition.
    ///
    /// Source: own profile.
    pub fn has_actions(&self) -> bool
        ensures { result ≡ not (is_empty self.now) }
    {
        self.actions.iter().any(|action| action.is_some())
    }

    /// Sets the action for the condition, or for each that `NewAny` stands for. A condition that
    /// is set already keeps its action.
    ///
    /// `AlreadyExists` in the mode `Absolute` where one of them is set to another action; then
    /// nothing is set.
    /// Source: the page "zx_job_set_policy" of the Fuchsia documentation.
    pub fn set(&mut self, condition: Condition, action: Action, mode: Mode) -> Result<(), Status>
        ensures answer { result ≡ answer_of self.old condition action mode }
        ensures ok { OnOk result (self.new ≡ policy_set self.old condition action) }
        ensures unchanged { OnErr result (self.new ≡ self.old) }
    {
        if is_absolute(&mode) && self.conflicts(&condition, &action) {
            return Err(Status::AlreadyExists);
        }
        for condition in stands_for(&condition) {
            self.set_unset(condition, &action);
        }
        Ok(())
    }

    /// Whether the condition, or one that it stands for, is set to another action.
    fn conflicts(&self, condition: &Condition, action: &Action) -> bool
        ensures { result ≡ conflicts self.now condition.now action.now }
    {
        stands_for(condition)
            .iter()
            .any(|condition| self.is_other(condition, action))
    }

    /// The action that is set for the condition.
    #[tactic(auto, using(crate::proofs::Places::set_at))]
    fn get(&self, condition: &Condition) -> Option<Action>
        ensures { result ≡ get self.now (condition_number condition.now) }
    {
        self.actions[place_of(condition)]
    }

    /// Whether the condition is set to another action.
    fn is_other(&self, condition: &Condition, action: &Action) -> bool
        ensures { result ≡ is_other action.now (get self.now (condition_number condition.now)) }
    {
        match self.get(condition) {
            Some(set) => set.number() != action.number(),
            None => false,
        }
    }

    /// Sets the action for the condition, unless one is set.
    fn set_unset(&mut self, condition: &Condition, action: &Action)
        ensures { self.new ≡ with_unset action.now self.old (condition_number condition.now) }
    {
        if self.get(condition).is_none() {
            self.actions[place_of(condition)] = Some(*action);
        }
    }
}

/// The conditions that one stands for.
fn stands_for(condition: &Condition) -> &[Condition]
    ensures { map condition_number result.now ≡ conditions_of condition.now }
{
    match condition {
        Condition::NewAny => &[
            Condition::NewChannel,
            Condition::NewEvent,
            Condition::NewEventpair,
            Condition::NewPort,
            Condition::NewProcess,
        ],
        _ => slice::from_ref(condition),
    }
}

/// Whether conflicts are refused.
fn is_absolute(mode: &Mode) -> bool
    ensures { result ≡ is_absolute mode.now }
{
    matches!(mode, Mode::Absolute)
}

/// Whether both are the same action, or none.
fn is_same_action(one: &Option<Action>, other: &Option<Action>) -> bool
    ensures { IsTrue result ↔ one.now ≡ other.now }
{
    match (one, other) {
        (Some(one), Some(other)) => one.number() == other.number(),
        (None, None) => true,
        _ => false,
    }
}

/// The place of the condition's action.
fn place_of(condition: &Condition) -> usize
    ensures place { result ≡ condition_number condition.now }
    ensures few { result < 8 }
{
    match condition {
        Condition::BadHandle => 0,
        Condition::WrongObject => 1,
        Condition::NewAny => 2,
        Condition::NewChannel => 3,
        Condition::NewEvent => 4,
        Condition::NewEventpair => 5,
        Condition::NewPort => 6,
        Condition::NewProcess => 7,
    }
}
