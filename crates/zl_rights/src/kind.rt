ghost use Rattle.std.specs.Prelude.{◌≡◌, ◌≢◌, IfSome, IfNone};
ghost use Rattle.zl_rights.specs.declared.kind.Kind.{Kind};
ghost use Rattle.zl_rights.specs.Numbers.{bits, kind_number, default_rights_of};
ghost use Rattle.zl_rights.specs.Names.{kind_name, kind_named};

use crate::rights::Rights;
use bitflags::Flags;

/// The set of the rights with these names.
macro_rules! rights {
    ($first:ident $($more:ident)*) => {
        Rights::$first$(.union(Rights::$more))*
    };
}

/// The kind of a kernel object.
///
/// Source: the page "Kernel objects" of the Fuchsia documentation.
#[derive(Clone, Copy, PartialEq, Eq, Debug)]
pub enum Kind {
    Process,
    Channel,
    Event,
    Port,
    Eventpair,
    Job,
}

impl Kind {
    /// The number of the kind, as images and answers have it.
    ///
    /// Source: `zx_obj_type_t` of the Fuchsia documentation.
    pub fn number(self) -> u32
        ensures { result ≡ kind_number self }
    {
        match self {
            Kind::Process => 1,
            Kind::Channel => 4,
            Kind::Event => 5,
            Kind::Port => 6,
            Kind::Eventpair => 16,
            Kind::Job => 17,
        }
    }

    /// The kind with this number, or nothing where no kind has it.
    pub fn from_number(number: u32) -> Option<Kind>
        ensures found { IfSome result (λ kind. kind_number kind ≡ number) }
        ensures missing { IfNone result ((kind : Kind) → kind_number kind ≢ number) }
    {
        match number {
            1 => Some(Kind::Process),
            4 => Some(Kind::Channel),
            5 => Some(Kind::Event),
            6 => Some(Kind::Port),
            16 => Some(Kind::Eventpair),
            17 => Some(Kind::Job),
            _ => None,
        }
    }

    /// The name of the kind, as texts have it: in lower case (own profile).
    pub fn name(self) -> &'static str
        ensures { result.now ≡ kind_name self }
    {
        match self {
            Kind::Process => "process",
            Kind::Channel => "channel",
            Kind::Event => "event",
            Kind::Port => "port",
            Kind::Eventpair => "eventpair",
            Kind::Job => "job",
        }
    }

    /// The kind with this name, or nothing where no kind has it.
    pub fn named(name: &[u8]) -> Option<Kind>
        ensures { result ≡ kind_named name.now }
    {
        let kinds: &[Kind] = &[
            Kind::Process,
            Kind::Channel,
            Kind::Event,
            Kind::Port,
            Kind::Eventpair,
            Kind::Job,
        ];
        kinds
            .iter()
            .find(|kind| kind.name().as_bytes() == name)
            .copied()
    }

    /// The rights of the first handle to a new object of this kind.
    ///
    /// Source: the page "Rights" of the Fuchsia documentation; of processes and jobs own profile.
    pub fn default_rights(self) -> Rights
        ensures { bits result ≡ default_rights_of self }
    {
        match self {
            Kind::Process => rights![
                DUPLICATE TRANSFER READ WRITE DESTROY SIGNAL WAIT INSPECT MANAGE_PROCESS
            ],
            Kind::Channel => rights![TRANSFER READ WRITE SIGNAL SIGNAL_PEER WAIT INSPECT],
            Kind::Event => rights![DUPLICATE TRANSFER SIGNAL WAIT INSPECT],
            Kind::Port => rights![DUPLICATE TRANSFER READ WRITE INSPECT],
            Kind::Eventpair => rights![DUPLICATE TRANSFER SIGNAL SIGNAL_PEER WAIT INSPECT],
            Kind::Job => rights![
                DUPLICATE TRANSFER READ WRITE DESTROY SET_POLICY SIGNAL WAIT INSPECT MANAGE_JOB
                MANAGE_PROCESS
            ],
        }
    }
}
