ghost use Rattle.std.specs.Prelude.{◌≡◌, ◌⊎◌, IfSome, IfNone, IsTrue, slice_get};
ghost use Rattle.zl_code.specs.Instructions.{is_new};
ghost use Rattle.zl_code.specs.Jumps.{jump};
ghost use Rattle.zl_code.specs.Spells.{local_parts, number_at, register_in};

use crate::history::CallName;
use crate::instr_bytes::{InstrBytes, imm_in};
use crate::register::Register;

/// An instruction. The opcodes and the fields are own profile.
#[derive(Clone, Copy)]
pub enum Instr {
    /// One that its process does alone.
    Local(LocalInstr),
    /// A system call.
    Call(CallInstr),
    /// An unknown opcode with its 16 bytes; only an image with the raw mark has it.
    Unknown([u8; Instr::LEN]),
}

impl Instr {
    /// How many bytes spell an instruction.
    pub const LEN: usize = 16;
}

/// An instruction that is done by its process alone. Registers have 64 bits, and addresses are
/// added without wrapping. Own profile.
#[derive(Clone, Copy)]
pub enum LocalInstr {
    /// The register becomes the number.
    Const {
        destination: Register,
        number: u32,
    },
    /// The register becomes the other.
    Move {
        destination: Register,
        source: Register,
    },
    /// The sum modulo 2^64.
    Add {
        destination: Register,
        left: Register,
        right: Register,
    },
    /// The sum with a number, modulo 2^64.
    AddNumber {
        destination: Register,
        left: Register,
        number: u32,
    },
    /// The difference modulo 2^64.
    Subtract {
        destination: Register,
        left: Register,
        right: Register,
    },
    /// The bits that are in both.
    And {
        destination: Register,
        left: Register,
        right: Register,
    },
    /// The bits that are in one of them at least.
    Or {
        destination: Register,
        left: Register,
        right: Register,
    },
    /// The bits that are in just one of them.
    Xor {
        destination: Register,
        left: Register,
        right: Register,
    },
    /// The bits moved up; 0 from 64 places on.
    ShiftLeft {
        destination: Register,
        source: Register,
        places: u32,
    },
    /// The bits moved down; 0 from 64 places on.
    ShiftRight {
        destination: Register,
        source: Register,
        places: u32,
    },
    /// The register becomes the other, which becomes 0.
    Take {
        destination: Register,
        source: Register,
    },
    /// Exchanges the register with a place of the slot array of this number.
    Swap {
        register: Register,
        place: Register,
        array: u32,
    },
    /// The register becomes the byte at the sum of base and offset.
    LoadByte {
        destination: Register,
        base: Register,
        offset: u32,
    },
    /// The register becomes the eight bytes from the sum of base and offset on, the least first.
    LoadWord {
        destination: Register,
        base: Register,
        offset: u32,
    },
    /// The low byte of the source goes to the sum of base and offset.
    StoreByte {
        base: Register,
        source: Register,
        offset: u32,
    },
    /// The eight bytes of the source go to the sum of base and offset, the least first.
    StoreWord {
        base: Register,
        source: Register,
        offset: u32,
    },
    /// The instruction of this number stands next.
    Jump {
        target: u32,
    },
    /// Jumps if the register is 0.
    JumpZero {
        register: Register,
        target: u32,
    },
    /// Jumps if the register isn't 0.
    JumpNotZero {
        register: Register,
        target: u32,
    },
    /// Jumps if the register is the number.
    JumpEqual {
        register: Register,
        number: u32,
        target: u32,
    },
    /// Jumps if the register isn't the number.
    JumpNotEqual {
        register: Register,
        number: u32,
        target: u32,
    },
    /// Jumps if the register is below the number.
    JumpBelow {
        register: Register,
        number: u32,
        target: u32,
    },
    /// Jumps if the register isn't below the number.
    JumpNotBelow {
        register: Register,
        number: u32,
        target: u32,
    },
    /// Jumps if all these bits are in the register.
    JumpHas {
        register: Register,
        bits: u32,
        target: u32,
    },
    /// Jumps if one of these bits isn't in the register.
    JumpHasNot {
        register: Register,
        bits: u32,
        target: u32,
    },
    /// A counted block begins, which is gone round so many times; its end has this number.
    Rep {
        count: u32,
        end: u32,
    },
    /// The block ends that begins at this number: it is gone round once more, or left.
    EndRep {
        rep: u32,
    },
}

impl LocalInstr {
    /// Where it jumps, if it is a jump.
    #[tactic(auto, unfolding(crate::specs::Spells::local_parts))]
    pub fn target(&self) -> Option<u32>
        ensures jump { result ≡ jump self.now }
        ensures some { IfSome result (λ target. (local_parts self.now).target ≡ target) }
        ensures none { IfNone result
            (IsTrue (is_new (local_parts self.now).opcode) ⊎ ((local_parts self.now).target ≡ 0)) }
    {
        match self {
            LocalInstr::Jump { target } => Some(*target),
            LocalInstr::JumpZero { target, .. } => Some(*target),
            LocalInstr::JumpNotZero { target, .. } => Some(*target),
            LocalInstr::JumpEqual { target, .. } => Some(*target),
            LocalInstr::JumpNotEqual { target, .. } => Some(*target),
            LocalInstr::JumpBelow { target, .. } => Some(*target),
            LocalInstr::JumpNotBelow { target, .. } => Some(*target),
            LocalInstr::JumpHas { target, .. } => Some(*target),
            LocalInstr::JumpHasNot { target, .. } => Some(*target),
            _ => None,
        }
    }
}

/// A system call with its registers. Its row says what it does with them, and what stands in the
/// last eight bytes. The fields are own profile; `CallName` says where the calls come from.
#[derive(Clone, Copy)]
pub struct CallInstr {
    pub name: CallName,
    /// The registers from the first on, and register 0 behind those that its row has.
    pub registers: [Register; InstrBytes::REGISTERS],
    /// A number, the room in handles, or the places of a list of handles, as its row says.
    pub last: [u8; HandleList::MOST],
}

impl CallInstr {
    /// The number in the last eight bytes, or the room in handles.
    pub fn number(&self) -> u32
        ensures { result ≡ number_at self.now.last 0 4 }
    {
        imm_in(self.last)
    }

    /// The list of handles in the last eight bytes.
    pub fn handles(&self) -> HandleList
        ensures { result.places ≡ self.now.last }
    {
        HandleList { places: self.last }
    }
}

/// The registers of the handles that `chan_write` sends, at most 8. Own profile.
#[derive(Clone, Copy)]
pub struct HandleList {
    // Registers from the first place on, and `HandleList::NONE` in the places behind them.
    pub(crate) places: [u8; HandleList::MOST],
}

impl HandleList {
    /// How many handles there are at most.
    pub const MOST: usize = 8;

    /// The byte of a place without a register.
    pub const NONE: u8 = 0xff;

    /// The register in this place, counted from 0; nothing behind the last one.
    pub fn get(&self, place: usize) -> Option<Register>
        ensures { result ≡ register_in (slice_get self.now.places place) }
    {
        Register::new(*self.places.get(place)?)
    }
}
