ghost use Rattle.std.specs.Prelude.{◌≡◌, ◌≤◌, ◌<◌, ◌==◌, length, OnSome, IsTrue};
ghost use Rattle.zl_code.specs.Limits.{most_instructions, most_memory, most_budget, most_starts, most_slot_arrays};
ghost use Rattle.std.specs.Prelude.{slice_get};
ghost use Rattle.zl_code.specs.Blocks.{is_flat, marks_of};
ghost use Rattle.zl_code.specs.Image.{instr_at, local_at, call_at, is_among, can_be_needed, needs_value};
ghost use Rattle.zl_code.specs.Spells.{is_in_range, version_number};

use crate::blocks::{Mark, is_flat, mark_of};
use crate::instr::{CallInstr, Instr, LocalInstr};
use std::marker::Model;
use zl_rights::{Condition, Kind, Rights};

/// A program as it is loaded: the version of its format, instructions, the size of its data memory,
/// its budget, and what it declares. Own profile.
#[derive(Drop)]
pub struct Image {
    pub(crate) version: Version,
    pub(crate) raw: bool,
    pub(crate) memory: u32,
    pub(crate) budget: u32,
    pub(crate) needs: Needs,
    pub(crate) starts: Vec<Start>,
    pub(crate) slots: Vec<SlotArray>,
    pub(crate) code: Vec<Instr>,
}

/// The version of the format of an image's bytes. Own profile.
#[derive(Clone, Copy, PartialEq, Eq, Debug)]
pub enum Version {
    One,
    Two,
}

impl Version {
    /// The number of the version, as the header has it.
    pub fn number(self) -> u8
        ensures { result ≡ version_number self }
    {
        match self {
            Version::One => 1,
            Version::Two => 2,
        }
    }
}

/// What the processes of a program have to be allowed to make.
#[derive(Clone, Copy)]
pub(crate) struct Needs {
    pub channel: bool,
    pub event: bool,
    pub eventpair: bool,
    pub port: bool,
    pub process: bool,
}

impl Needs {
    /// Every need that there is.
    const ALL: Needs = Needs {
        channel: true,
        event: true,
        eventpair: true,
        port: true,
        process: true,
    };

    /// Whether the condition is one of them.
    fn has(self, condition: Condition) -> bool
        ensures { result ≡ is_among (needs_value self) condition }
    {
        match condition {
            Condition::NewChannel => self.channel,
            Condition::NewEvent => self.event,
            Condition::NewEventpair => self.eventpair,
            Condition::NewPort => self.port,
            Condition::NewProcess => self.process,
            Condition::BadHandle | Condition::WrongObject | Condition::NewAny => false,
        }
    }
}

/// A handle with which a process of the program starts. Own profile.
#[derive(Clone, Copy, PartialEq, Eq)]
pub struct Start {
    /// `None` stands for any kind.
    pub kind: Option<Kind>,
    /// Within the default rights of the kind, or within the known rights for any kind.
    pub rights: Rights,
}

/// An array of places for handles. Own profile.
#[derive(Clone, Copy, PartialEq, Eq)]
pub struct SlotArray {
    /// `None` stands for any kind.
    pub kind: Option<Kind>,
    /// How many places there are, 1 to 256.
    pub length: u16,
    /// Within the default rights of the kind, or within the known rights for any kind.
    pub rights: Rights,
}

impl SlotArray {
    /// The most places that a slot array has.
    pub const MOST_PLACES: u16 = 256;
}

impl Model for Image {
    ghost use Rattle.std.specs.Prelude.{IsTrue};
    ghost use Rattle.zl_code.specs.Image.{Image as ImageValue, needs_value};

    ghost Value = { ImageValue };

    ghost use Rattle.zl_code.specs.Spells.{is_in_range};

    ghost view = { λ i. record {
      version = i.version;
      raw = i.raw;
      memory = i.memory;
      budget = i.budget;
      needs = needs_value i.needs;
      starts = i.starts.items;
      slots = i.slots.items;
      code = i.code.items;
    } };

    ghost invariant = { λ i. IsTrue (is_in_range (record {
      version = i.version;
      raw = i.raw;
      memory = i.memory;
      budget = i.budget;
      needs = needs_value i.needs;
      starts = i.starts.items;
      slots = i.slots.items;
      code = i.code.items;
    })) };
}

impl Image {
    /// The most instructions that an image has.
    pub const MOST_INSTRUCTIONS: usize = 4096;

    /// The largest data memory, in bytes.
    pub const MOST_MEMORY: u32 = 65_536;

    /// The largest budget.
    pub const MOST_BUDGET: u32 = 1_000_000;

    /// The most handles with which a process starts.
    pub const MOST_STARTS: usize = 7;

    /// The most slot arrays.
    pub const MOST_SLOT_ARRAYS: usize = 8;

    /// The most times that a block is gone round.
    pub const MOST_TURNS: u32 = 1_000_000;

    /// The most blocks that an instruction is in.
    pub const MOST_BLOCKS: usize = 4;

    /// How many bytes the header has.
    pub const HEADER_LEN: usize = 20;

    /// How many bytes a declaration has.
    pub const DECLARATION_LEN: usize = 8;

    /// The most bytes that an image has.
    pub const MOST_BYTES: usize = Image::HEADER_LEN
        + Image::DECLARATION_LEN * (Image::MOST_STARTS + Image::MOST_SLOT_ARRAYS)
        + Instr::LEN * Image::MOST_INSTRUCTIONS;

    /// The version of the format of its bytes.
    pub fn version(&self) -> Version
        ensures { result ≡ self.now.version }
    {
        self.version
    }

    /// Whether the image has the raw mark, under which unknown opcodes may stand.
    pub fn is_raw(&self) -> bool
        ensures { result ≡ self.now.raw }
    {
        self.raw
    }

    /// How many bytes of data memory the program has, at most 65,536.
    pub fn memory(&self) -> u32
        ensures value { result ≡ self.now.memory }
        ensures most { result ≤ most_memory }
    {
        self.memory
    }

    /// How many instructions a checked program does at most between its waits and its exit, 1 to
    /// 1,000,000.
    pub fn budget(&self) -> u32
        ensures value { result ≡ self.now.budget }
        ensures least { 1 ≤ result }
        ensures most { result ≤ most_budget }
    {
        self.budget
    }

    /// Whether a program can declare that its processes have to be allowed to make objects by this
    /// condition: `NewChannel`, `NewEvent`, `NewEventpair`, `NewPort` and `NewProcess` can be declared.
    pub fn can_need(condition: Condition) -> bool
        ensures { result ≡ is_among can_be_needed condition }
    {
        Needs::ALL.has(condition)
    }

    /// Whether the program declares that its processes have to be allowed to make objects by this
    /// condition.
    pub fn needs(&self, condition: Condition) -> bool
        ensures { result ≡ is_among self.now.needs condition }
    {
        self.needs.has(condition)
    }

    /// The handles with which a process of a checked program starts, at most 7.
    pub fn starts(&self) -> &[Start]
        ensures value { result.now ≡ self.now.starts }
        ensures most { length result.now ≤ most_starts }
    {
        &self.starts
    }

    /// The slot arrays of a process, at most 8.
    pub fn slots(&self) -> &[SlotArray]
        ensures value { result.now ≡ self.now.slots }
        ensures most { length result.now ≤ most_slot_arrays }
    {
        &self.slots
    }

    /// How many instructions there are, at most 4,096.
    pub fn len(&self) -> usize
        ensures value { result ≡ length self.now.code }
        ensures most { result ≤ most_instructions }
        // What is public of the invariant: callers learn it here of any image.
        ensures in_range { IsTrue (is_in_range self.now) }
    {
        self.code.len()
    }

    /// Whether there is no instruction.
    pub fn is_empty(&self) -> bool
        ensures { result ≡ (length self.now.code == 0) }
    {
        self.code.is_empty()
    }

    /// The instructions in their order, at most 4,096.
    pub fn code(&self) -> &[Instr]
        ensures value { result.now ≡ self.now.code }
        ensures most { length result.now ≤ most_instructions }
        // What is public of the invariant: each field is in its range.
        ensures in_range { IsTrue (is_in_range self.now) }
    {
        &self.code
    }

    /// The instruction of this number, counted from 0; nothing past the last.
    pub fn instr_at(&self, n: usize) -> Option<Instr>
        ensures { result ≡ instr_at self.now n }
    {
        self.code.get(n).copied()
    }

    /// The n-th instruction, if it is a local one.
    pub fn local_at(&self, n: usize) -> Option<LocalInstr>
        ensures value { result ≡ local_at self.now n }
        ensures within { OnSome result (n < most_instructions) }
    {
        match self.code.get(n) {
            Some(Instr::Local(local)) => Some(*local),
            _ => None,
        }
    }

    /// The n-th instruction, if it is a system call.
    pub fn call_at(&self, n: usize) -> Option<CallInstr>
        ensures value { result ≡ call_at self.now n }
        ensures within { OnSome result (n < most_instructions) }
    {
        match self.code.get(n) {
            Some(Instr::Call(call)) => Some(*call),
            _ => None,
        }
    }

    /// Whether the program has no counted block. Own profile.
    pub fn is_flat(&self) -> bool
        ensures { result ≡ is_flat self.now.code }
    {
        is_flat(&self.code)
    }

    /// What the n-th instruction is to counted blocks; nothing past the last.
    #[inline(always)]
    pub fn mark_at(&self, n: usize) -> Option<Mark>
        ensures { result ≡ slice_get (marks_of self.now.code) n }
    {
        match self.code.get(n) {
            Some(instr) => Some(mark_of(instr)),
            None => None,
        }
    }
}

/// Why bytes are no image, or want of memory; `decode` says in which order they are examined. Own
/// profile.
#[derive(Clone, Copy, PartialEq, Eq, Debug)]
pub enum DecodeFault {
    /// Fewer bytes than a header has.
    Short,
    /// The first four bytes aren't those of an image.
    Magic,
    /// The version is neither 1 nor 2.
    Version,
    /// The number of bytes isn't what the header says.
    Length,
    /// An unknown opcode, without the raw mark.
    UnknownOp,
    /// A field that the instruction doesn't use isn't 0, or a register stands behind an empty place of
    /// a list of handles.
    UnusedField,
    /// A register above 31; or a byte of a list of handles that is no register and not `ff`; or room
    /// for more than 8 handles, or past the last register.
    BadRegister,
    /// A field of the header or of a declaration is out of its range.
    BadHeader,
    /// Memory was refused.
    NoMemory,
    /// The ends of counted blocks don't nest as brackets, at most four deep, or a count isn't 1 to
    /// 1,000,000, or a jump leads into a block or out of one.
    BadBlock,
}
