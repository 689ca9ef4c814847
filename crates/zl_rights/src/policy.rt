ghost use Rattle.std.specs.Prelude.{◌≡◌, ◌≢◌, IfSome, IfNone};
ghost use Rattle.zl_rights.specs.declared.policy.Condition.{Condition};
ghost use Rattle.zl_rights.specs.declared.policy.Action.{Action};
ghost use Rattle.zl_rights.specs.declared.policy.Mode.{Mode};
ghost use Rattle.zl_rights.specs.Names.{condition_name, condition_named};
ghost use Rattle.zl_rights.specs.Numbers.{all_conditions, condition_number, action_number, mode_number};

/// What a job's policy decides on. `NewAny` stands for all conditions of making an object.
///
/// Source: the page "zx_job_set_policy" of the Fuchsia documentation; the numbers are own profile.
#[derive(Clone, Copy)]
pub enum Condition {
    BadHandle,
    WrongObject,
    NewAny,
    NewChannel,
    NewEvent,
    NewEventpair,
    NewPort,
    NewProcess,
}

/// What a policy does where its condition is met.
///
/// Source: the page "zx_job_set_policy" of the Fuchsia documentation; the numbers are own profile.
#[derive(Clone, Copy)]
pub enum Action {
    Allow,
    Deny,
    Kill,
}

/// How conditions that are set already are treated: `Relative` leaves them, `Absolute` refuses.
///
/// Source: the page "zx_job_set_policy" of the Fuchsia documentation; the numbers are own profile.
#[derive(Clone, Copy)]
pub enum Mode {
    Relative,
    Absolute,
}

impl Condition {
    /// The number of the condition, as `job_set_policy` takes it.
    pub fn number(self) -> u32
        ensures { result ≡ condition_number self }
    {
        match self {
            Condition::BadHandle => 0,
            Condition::WrongObject => 1,
            Condition::NewAny => 2,
            Condition::NewChannel => 3,
            Condition::NewEvent => 4,
            Condition::NewEventpair => 5,
            Condition::NewPort => 6,
            Condition::NewProcess => 7,
        }
    }

    /// The condition with this number, or nothing where none has it.
    pub fn from_number(number: u64) -> Option<Condition>
        ensures found { IfSome result (λ condition. condition_number condition ≡ number) }
        ensures missing { IfNone result ((condition : Condition) → condition_number condition ≢ number) }
    {
        match number {
            0 => Some(Condition::BadHandle),
            1 => Some(Condition::WrongObject),
            2 => Some(Condition::NewAny),
            3 => Some(Condition::NewChannel),
            4 => Some(Condition::NewEvent),
            5 => Some(Condition::NewEventpair),
            6 => Some(Condition::NewPort),
            7 => Some(Condition::NewProcess),
            _ => None,
        }
    }

    /// The name of the condition, as texts have it (own profile).
    pub fn name(self) -> &'static str
        ensures { result.now ≡ condition_name self }
    {
        match self {
            Condition::BadHandle => "BAD_HANDLE",
            Condition::WrongObject => "WRONG_OBJECT",
            Condition::NewAny => "NEW_ANY",
            Condition::NewChannel => "NEW_CHANNEL",
            Condition::NewEvent => "NEW_EVENT",
            Condition::NewEventpair => "NEW_EVENTPAIR",
            Condition::NewPort => "NEW_PORT",
            Condition::NewProcess => "NEW_PROCESS",
        }
    }

    /// All conditions, in the order of their numbers.
    pub fn all() -> &'static [Condition]
        ensures { result.now ≡ all_conditions }
    {
        &[
            Condition::BadHandle,
            Condition::WrongObject,
            Condition::NewAny,
            Condition::NewChannel,
            Condition::NewEvent,
            Condition::NewEventpair,
            Condition::NewPort,
            Condition::NewProcess,
        ]
    }

    /// The condition with this name, or nothing where none has it.
    pub fn named(name: &[u8]) -> Option<Condition>
        ensures { result ≡ condition_named name.now }
    {
        Condition::all()
            .iter()
            .find(|condition| condition.name().as_bytes() == name)
            .copied()
    }
}

impl Action {
    /// The number of the action, as `job_set_policy` takes it.
    pub fn number(self) -> u32
        ensures { result ≡ action_number self }
    {
        match self {
            Action::Allow => 0,
            Action::Deny => 1,
            Action::Kill => 2,
        }
    }

    /// The action with this number, or nothing where none has it.
    pub fn from_number(number: u64) -> Option<Action>
        ensures found { IfSome result (λ action. action_number action ≡ number) }
        ensures missing { IfNone result ((action : Action) → action_number action ≢ number) }
    {
        match number {
            0 => Some(Action::Allow),
            1 => Some(Action::Deny),
            2 => Some(Action::Kill),
            _ => None,
        }
    }
}

impl Mode {
    /// The number of the mode, as `job_set_policy` takes it.
    pub fn number(self) -> u32
        ensures { result ≡ mode_number self }
    {
        match self {
            Mode::Relative => 0,
            Mode::Absolute => 1,
        }
    }

    /// The mode with this number, or nothing where none has it.
    pub fn from_number(number: u64) -> Option<Mode>
        ensures found { IfSome result (λ mode. mode_number mode ≡ number) }
        ensures missing { IfNone result ((mode : Mode) → mode_number mode ≢ number) }
    {
        match number {
            0 => Some(Mode::Relative),
            1 => Some(Mode::Absolute),
            _ => None,
        }
    }
}
