ghost use Rattle.std.specs.Prelude.{◌≡◌, ◌≢◌, IfSome, IfNone};
ghost use Rattle.zl_rights.specs.declared.status.Status.{Status};
ghost use Rattle.zl_rights.specs.Numbers.{status_number, status_magnitude};
ghost use Rattle.zl_rights.specs.Names.{status_name};
ghost use Rattle.zl_rights.specs.Statuses.{all_statuses};

/// The answer of a system call.
///
/// Source: the page "Zircon errors" of the Fuchsia documentation.
#[derive(Clone, Copy, PartialEq, Eq, Debug)]
pub enum Status {
    Ok,
    NotSupported,
    NoResources,
    NoMemory,
    InvalidArgs,
    BadHandle,
    WrongType,
    OutOfRange,
    BufferTooSmall,
    BadState,
    TimedOut,
    ShouldWait,
    PeerClosed,
    NotFound,
    AlreadyExists,
    AccessDenied,
}

impl Status {
    /// The number of the status: 0, or a negative one, -30 at least.
    pub fn number(self) -> i32
        ensures { result ≡ status_number self }
    {
        -(self.magnitude() as i32)
    }

    /// The number without its sign, 0 to 30, as a status register holds it (own profile).
    pub fn magnitude(self) -> u32
        ensures { result ≡ status_magnitude self }
    {
        match self {
            Status::Ok => 0,
            Status::NotSupported => 2,
            Status::NoResources => 3,
            Status::NoMemory => 4,
            Status::InvalidArgs => 10,
            Status::BadHandle => 11,
            Status::WrongType => 12,
            Status::OutOfRange => 14,
            Status::BufferTooSmall => 15,
            Status::BadState => 20,
            Status::TimedOut => 21,
            Status::ShouldWait => 22,
            Status::PeerClosed => 24,
            Status::NotFound => 25,
            Status::AlreadyExists => 26,
            Status::AccessDenied => 30,
        }
    }

    /// The name of the status, as traces have it: without `ZX_` or `ZX_ERR_` (own profile).
    pub fn name(self) -> &'static str
        ensures { result.now ≡ status_name self }
    {
        match self {
            Status::Ok => "OK",
            Status::NotSupported => "NOT_SUPPORTED",
            Status::NoResources => "NO_RESOURCES",
            Status::NoMemory => "NO_MEMORY",
            Status::InvalidArgs => "INVALID_ARGS",
            Status::BadHandle => "BAD_HANDLE",
            Status::WrongType => "WRONG_TYPE",
            Status::OutOfRange => "OUT_OF_RANGE",
            Status::BufferTooSmall => "BUFFER_TOO_SMALL",
            Status::BadState => "BAD_STATE",
            Status::TimedOut => "TIMED_OUT",
            Status::ShouldWait => "SHOULD_WAIT",
            Status::PeerClosed => "PEER_CLOSED",
            Status::NotFound => "NOT_FOUND",
            Status::AlreadyExists => "ALREADY_EXISTS",
            Status::AccessDenied => "ACCESS_DENIED",
        }
    }

    /// All statuses, in the order of their magnitudes.
    pub fn all() -> &'static [Status]
        ensures { result.now ≡ all_statuses }
    {
        &[
            Status::Ok,
            Status::NotSupported,
            Status::NoResources,
            Status::NoMemory,
            Status::InvalidArgs,
            Status::BadHandle,
            Status::WrongType,
            Status::OutOfRange,
            Status::BufferTooSmall,
            Status::BadState,
            Status::TimedOut,
            Status::ShouldWait,
            Status::PeerClosed,
            Status::NotFound,
            Status::AlreadyExists,
            Status::AccessDenied,
        ]
    }

    /// The status with this name, or nothing where none has it.
    pub fn named(name: &[u8]) -> Option<Status>
        ensures some { IfSome result (λ status. name.now ≡ status_name status) }
        ensures none { IfNone result ((s : Status) → name.now ≢ status_name s) }
    {
        Status::all()
            .iter()
            .find(|status| status.name().as_bytes() == name)
            .copied()
    }
}
