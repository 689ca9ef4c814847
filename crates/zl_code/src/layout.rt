ghost use Rattle.std.specs.Prelude.{◌≡◌, length};

use zl_rights::{Condition, Kind, Rights};

/// What stands in the last eight bytes of an instruction. Own profile.
#[derive(Clone, Copy)]
pub enum Ending {
    /// Neither a number nor a target.
    Nothing,
    /// A number, `imm`.
    Number,
    /// A target.
    Target,
    /// A number, and behind it a target.
    Both,
    /// The room in handles: a number of triples of registers that begin at the seventh register.
    Room,
    /// A list of registers with handles.
    Handles,
    /// The number of a slot array. Handles go from as many of its first places as the fifth register says.
    FromSlots,
    /// The number of a slot array. Handles that are received go to its first places.
    IntoSlots,
}

/// The kinds of handles that an operand takes. Own profile.
#[derive(Clone, Copy)]
pub enum Kinds {
    Any,
    Only(Kind),
    /// A process or a job.
    Tasks,
    /// An end of a channel or of an event pair.
    Ends,
}

/// What an instruction does with one of its registers. A handle operand has the kinds that are taken
/// and the rights that are needed. Own profile.
#[derive(Clone, Copy)]
pub enum Field {
    /// Its number is read.
    Reads,
    /// It gets a number.
    Writes,
    /// Its number is read, and it gets another.
    Changes,
    /// It has the value of a handle.
    Names(Kinds, Rights),
    /// It has the value of a handle, and becomes 0 on every answer.
    Consumes(Kinds, Rights),
    /// The same with any handle, where 0 passes too.
    Closes,
    /// It is the first of three registers for each handle that is read.
    Triples,
}

/// What an answer gives behind the status, or all that it gives. Own profile.
#[derive(Clone, Copy)]
pub enum Gives {
    /// No value.
    Status,
    /// A handle to a new object of this kind, or to each end of a new pair.
    Makes(Kind),
    /// A handle made from that of the second register.
    Copies,
    /// How many bytes and handles a message has.
    Sizes,
    /// Active signals.
    Signals,
    /// A packet.
    Packet,
    /// The kind and the rights of the handle in the second register.
    Tells,
}

/// What an instruction does with its registers and with its last eight bytes. Own profile.
#[derive(Clone, Copy)]
pub struct Columns {
    /// What it does with its registers, at most 7, from the first on.
    pub fields: &'static [Field],
    /// What stands in the last eight bytes.
    pub ending: Ending,
    /// What an answer gives behind the status, if it is a call.
    pub gives: Gives,
    /// The condition of making an object, which a policy may deny.
    pub condition: Option<Condition>,
    /// Whether memory may be refused to it.
    pub grows: bool,
    /// What it does with each handle of a list, in registers or in slots, if it has one.
    pub in_list: Option<Field>,
}

/// A row of the table of instructions. Own profile.
#[derive(Clone, Copy)]
pub struct Row {
    pub opcode: u8,
    /// As the text of a program has it.
    pub name: &'static str,
    pub columns: &'static Columns,
}

impl Row {
    /// How many registers the instruction has, from the first on.
    pub fn registers(&self) -> usize
        ensures { result ≡ length self.now.columns.now.fields.now }
    {
        self.columns.fields.len()
    }
}
