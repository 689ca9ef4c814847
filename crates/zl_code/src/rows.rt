//! The table of instructions: the row of each opcode, and of each name.

ghost use Rattle.std.specs.Prelude.{◌≡◌, ◌≢◌, ◌<◌, ◌≤◌, None, Some, IfSome, IfNone, OnSome, IsTrue, true, ◌↔◌, length};
ghost use Rattle.std.specs.Option.{option_map};
ghost use Rattle.zl_code.specs.Given.{given};
ghost use Rattle.zl_code.specs.Limits.{first_call, most_registers};
ghost use Rattle.zl_code.specs.declared.history.CallName.{CallName as CallValue};
ghost use Rattle.zl_code.specs.Instructions.{call_name, call_row, calls, is_known, layout as layout_with, layout_at, layout_of, row_of, row_named, row_value};

use crate::history::CallName;
use crate::image::Version;
use crate::layout::Gives::{Copies, Makes, Packet, Signals, Sizes, Status, Tells};
use crate::layout::Kinds::{Any, Ends, Only, Tasks};
use crate::layout::{Columns, Ending, Field, Row};
use zl_rights::Condition::{NewChannel, NewEvent, NewEventpair, NewPort, NewProcess};
use zl_rights::Kind::{Channel, Event, Eventpair, Job, Port, Process};
use zl_rights::Rights;

/// The least opcode of a system call.
pub(crate) const FIRST_CALL: u8 = 64;

/// All known opcodes are below.
const OPCODE_END: u8 = 91;

// Each local instruction once: its opcode and name, what it does with its registers, and what stands in
// its last eight bytes.
macro_rules! locals {
    ($use:ident $($opcode:ident)?) => {
        $use! {
            $($opcode)?
            1 "const" [Writes] Number;
            2 "mov" [Writes Reads] Nothing;
            3 "add" [Writes Reads Reads] Nothing;
            4 "addi" [Writes Reads] Number;
            5 "sub" [Writes Reads Reads] Nothing;
            6 "and" [Writes Reads Reads] Nothing;
            7 "or" [Writes Reads Reads] Nothing;
            8 "xor" [Writes Reads Reads] Nothing;
            9 "shl" [Writes Reads] Number;
            10 "shr" [Writes Reads] Number;
            11 "take" [Writes Changes] Nothing;
            12 "swap" [Changes Reads] Number;
            13 "ld8" [Writes Reads] Number;
            14 "ld64" [Writes Reads] Number;
            15 "st8" [Reads Reads] Number;
            16 "st64" [Reads Reads] Number;
            17 "jmp" [] Target;
            18 "jz" [Reads] Target;
            19 "jnz" [Reads] Target;
            20 "jeq" [Reads] Both;
            21 "jne" [Reads] Both;
            22 "jlt" [Reads] Both;
            23 "jge" [Reads] Both;
            24 "jhas" [Reads] Both;
            25 "jnhas" [Reads] Both;
            26 "rep" [] Both;
            27 "endrep" [] Target;
        }
    };
}

// Each system call once: its variant, opcode and name, what it does with its registers, what stands in its
// last eight bytes, what an answer gives, the condition of making an object, whether it may want memory,
// and what it does with each handle of a list.
macro_rules! calls {
    ($use:ident $($name:ident)?) => {
        $use! {
            $($name)?
            Close 64 "close" [Writes Closes] Nothing, Status, None, false, None;
            Dup 65 "dup" [Writes Names(Any, Rights::DUPLICATE) Writes] Number, Copies, None, true, None;
            Replace 66 "replace" [Writes Consumes(Any, Rights::NONE) Writes] Number, Copies, None, false, None;
            ChanCreate 67 "chan_create" [Writes Writes Writes] Nothing, Makes(Channel), Some(NewChannel), true, None;
            ChanWrite 68 "chan_write" [Writes Names(Only(Channel), Rights::WRITE) Reads Reads]
                Handles, Status, None, true, Some(Field::Consumes(Any, Rights::TRANSFER));
            ChanReadEtc 69 "chan_read_etc" [Writes Names(Only(Channel), Rights::READ) Reads Reads Writes Writes Triples]
                Room, Sizes, None, true, None;
            EventCreate 70 "event_create" [Writes Writes] Nothing, Makes(Event), Some(NewEvent), true, None;
            Signal 71 "signal" [Writes Names(Any, Rights::SIGNAL) Reads Reads] Nothing, Status, None, false, None;
            SignalPeer 72 "signal_peer" [Writes Names(Ends, Rights::SIGNAL_PEER) Reads Reads] Nothing, Status, None, false, None;
            WaitOne 73 "wait_one" [Writes Names(Any, Rights::WAIT) Reads Writes] Nothing, Signals, None, false, None;
            WaitPoll 74 "wait_poll" [Writes Names(Any, Rights::WAIT) Reads Writes] Nothing, Signals, None, false, None;
            WaitAsync 75 "wait_async" [Writes Names(Any, Rights::WAIT) Names(Only(Port), Rights::WRITE) Reads Reads]
                Nothing, Status, None, true, None;
            PortCreate 76 "port_create" [Writes Writes] Nothing, Makes(Port), Some(NewPort), true, None;
            PortQueue 77 "port_queue" [Writes Names(Only(Port), Rights::WRITE) Reads Reads] Nothing, Status, None, true, None;
            PortWait 78 "port_wait" [Writes Names(Only(Port), Rights::READ) Writes Writes Writes Writes]
                Nothing, Packet, None, false, None;
            PortPoll 79 "port_poll" [Writes Names(Only(Port), Rights::READ) Writes Writes Writes Writes]
                Nothing, Packet, None, false, None;
            PortCancel 80 "port_cancel" [Writes Names(Only(Port), Rights::WRITE) Names(Any, Rights::NONE) Reads]
                Nothing, Status, None, false, None;
            ProcessCreate 81 "process_create" [Writes Names(Only(Job), Rights::MANAGE_PROCESS) Reads Writes]
                Nothing, Makes(Process), Some(NewProcess), true, None;
            ProcessStart 82 "process_start" [Writes Names(Only(Process), Rights::WRITE) Consumes(Any, Rights::TRANSFER) Reads]
                Nothing, Status, None, true, None;
            ProcessExit 83 "process_exit" [Reads] Nothing, Status, None, false, None;
            TaskKill 84 "task_kill" [Writes Names(Tasks, Rights::DESTROY)] Nothing, Status, None, false, None;
            JobCreate 85 "job_create" [Writes Names(Only(Job), Rights::MANAGE_JOB) Writes] Nothing, Makes(Job), None, true, None;
            JobSetPolicy 86 "job_set_policy" [Writes Names(Only(Job), Rights::SET_POLICY) Reads Reads Reads]
                Nothing, Status, None, false, None;
            EventpairCreate 87 "eventpair_create" [Writes Writes Writes]
                Nothing, Makes(Eventpair), Some(NewEventpair), true, None;
            ChanWriteSlots 88 "chan_write_slots" [Writes Names(Only(Channel), Rights::WRITE) Reads Reads Reads]
                FromSlots, Status, None, true, Some(Field::Consumes(Any, Rights::TRANSFER));
            ChanReadSlots 89 "chan_read_slots" [Writes Names(Only(Channel), Rights::READ) Reads Reads Writes Writes]
                IntoSlots, Sizes, None, true, None;
            HandleInfo 90 "handle_info" [Writes Names(Any, Rights::NONE) Writes Writes] Nothing, Tells, None, false, None;
        }
    };
}

macro_rules! row {
    ($opcode:literal $name:literal [$($field:ident $(($($of:expr),+))?)*]
        $ending:ident, $gives:expr, $condition:expr, $grows:literal, $in_list:expr) => {
        Row {
            opcode: $opcode,
            name: $name,
            columns: &Columns {
                fields: &[$(Field::$field $(($($of),+))?),*],
                ending: Ending::$ending,
                gives: $gives,
                condition: $condition,
                grows: $grows,
                in_list: $in_list,
            },
        }
    };
}

macro_rules! local_rows {
    ($($opcode:literal $name:literal [$($field:ident)*] $ending:ident;)*) => {
        &[$(row!($opcode $name [$($field)*] $ending, Status, None, false, None)),*]
    };
}

macro_rules! local_row {
    ($chosen:ident $($opcode:literal $name:literal [$($field:ident)*] $ending:ident;)*) => {
        match $chosen {
            $($opcode => Some(LOCAL_ROWS[$opcode - 1]),)*
            _ => None,
        }
    };
}

macro_rules! call_rows {
    ($($call:ident $opcode:literal $name:literal [$($field:ident $(($($of:expr),+))?)*]
        $ending:ident, $gives:expr, $condition:expr, $grows:literal, $in_list:expr;)*) => {
        &[$(row!($opcode $name [$($field $(($($of),+))?)*] $ending, $gives, $condition, $grows, $in_list)),*]
    };
}

macro_rules! call_names {
    ($($call:ident $opcode:literal $name:literal [$($field:ident $(($($of:expr),+))?)*]
        $ending:ident, $gives:expr, $condition:expr, $grows:literal, $in_list:expr;)*) => {
        &[$(CallName::$call),*]
    };
}

const LOCAL_ROWS: &'static [Row] = locals!(local_rows);

const CALL_ROWS: &'static [Row] = calls!(call_rows);

/// The row of an opcode below 64, if it is known.
#[tactic(auto, unfolding(crate::specs::Instructions::row_of))]
fn local_row(opcode: u8) -> Option<Row>
    requires { opcode < first_call }
    ensures row { option_map row_value result ≡ row_of opcode }
    ensures registers { IfSome result (λ row.
        length row.columns.now.fields.now ≤ most_registers) }
{
    locals!(local_row opcode)
}

impl CallName {
    /// All calls, in the order of their opcodes.
    pub fn all() -> &'static [CallName]
        ensures { result.now ≡ calls }
    {
        calls!(call_names)
    }

    /// The row of the call.
    pub fn row(self) -> Row
        ensures row { row_value result ≡ call_row self }
        ensures gives { result.columns.now.gives ≡ given self }
        ensures registers { length result.columns.now.fields.now ≤ most_registers }
    {
        CALL_ROWS[self as usize]
    }

    /// The call with this opcode, from 64 on; nothing where it is unknown.
    pub(crate) fn of_opcode(opcode: u8) -> Option<CallName>
        requires { first_call ≤ opcode }
        ensures found { IfSome result (λ call. row_of opcode ≡ Some (call_row call)) }
        ensures opcode { IfSome result (λ call. (call_row call).opcode ≡ opcode) }
        ensures missing { IfNone result (row_of opcode ≡ None) }
    {
        let place = usize::from(opcode - FIRST_CALL);
        CallName::all().get(place).copied()
    }

    /// The call with this name; nothing where no call has it.
    pub fn named(name: &[u8]) -> Option<CallName>
        ensures some { IfSome result (λ call. name.now ≡ call_name call) }
        ensures none { IfNone result ((call : CallValue) → name.now ≢ call_name call) }
    {
        CallName::all()
            .iter()
            .find(|call| call.name().as_bytes() == name)
            .copied()
    }

    /// The name of the call, as programs and traces have it (own profile).
    pub fn name(self) -> &'static str
        ensures { result.now ≡ call_name self }
    {
        self.row().name
    }

    /// Whether the other is the same call: no two have one opcode.
    pub fn is_same(self, other: CallName) -> bool
        ensures { IsTrue result ↔ self ≡ other }
    {
        self.row().opcode == other.row().opcode
    }
}

impl Version {
    /// Whether the version knows an opcode that has a row: version 1 knows neither blocks nor the calls
    /// behind `eventpair_create`.
    pub fn knows(self, opcode: u8) -> bool
        ensures { result ≡ is_known self opcode }
    {
        match self {
            Version::One => opcode != 26 && opcode != 27 && opcode < 88,
            Version::Two => true,
        }
    }
}

impl Row {
    /// The row of the opcode, if the version knows it.
    pub fn at(version: Version, opcode: u8) -> Option<Row>
        ensures known { OnSome result (is_known version opcode ≡ true) }
        ensures row { IfSome result (λ row.
            layout_of opcode ≡ Some (layout_with (length row.columns.now.fields.now) row.columns.now.ending)) }
        ensures layout { option_map
            (λ row. layout_with (length row.columns.now.fields.now) row.columns.now.ending) result
            ≡ layout_at version opcode }
        ensures registers { IfSome result (λ row.
            length row.columns.now.fields.now ≤ most_registers) }
    {
        if !version.knows(opcode) {
            return None;
        }
        Row::of_opcode(opcode)
    }

    /// The row of the opcode, if it is known.
    pub fn of_opcode(opcode: u8) -> Option<Row>
        ensures row { option_map row_value result ≡ row_of opcode }
        ensures layout { option_map
            (λ row. layout_with (length row.columns.now.fields.now) row.columns.now.ending) result
            ≡ layout_of opcode }
        ensures registers { IfSome result (λ row.
            length row.columns.now.fields.now ≤ most_registers) }
    {
        if opcode < FIRST_CALL {
            return local_row(opcode);
        }
        let call = CallName::of_opcode(opcode)?;
        Some(call.row())
    }

    /// The row with this name, if an instruction has it. It goes over all opcodes.
    pub fn named(name: &[u8]) -> Option<Row>
        ensures row { option_map row_value result ≡ row_named name.now }
        ensures layout { option_map
            (λ row. layout_with (length row.columns.now.fields.now) row.columns.now.ending) result
            ≡ option_map (λ row. layout_with (length row.fields) row.ending) (row_named name.now) }
        ensures registers { IfSome result (λ row.
            length row.columns.now.fields.now ≤ most_registers) }
    {
        for opcode in 0..OPCODE_END {
            let Some(row) = Row::of_opcode(opcode) else {
                continue;
            };
            if row.name.as_bytes() == name {
                return Some(row);
            }
        }
        None
    }
}
