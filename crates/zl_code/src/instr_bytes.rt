//! The 16 bytes of an instruction: their parts, and which of them spell an instruction.

ghost use Rattle.std.specs.Prelude.{◌≡◌, ◌≤◌, ◌++◌, ◌∷◌, drop, length, slice_index};
ghost use Rattle.zl_code.specs.Limits.{most_registers};
ghost use Rattle.zl_code.specs.Spells.{bytes_of, seven, instr_bytes, local_bytes, call_bytes, fields, number_at, registers_at};

use crate::instr::{CallInstr, HandleList, Instr, LocalInstr};
use crate::register::Register;

/// The 16 bytes of an instruction, by their parts. Own profile.
#[derive(Clone, Copy)]
pub struct InstrBytes {
    pub opcode: u8,
    /// The numbers of the registers; 0 where none is used.
    pub registers: [u8; InstrBytes::REGISTERS],
    /// A number and a target, or the places of a list of handles.
    pub last: [u8; HandleList::MOST],
}

impl InstrBytes {
    /// How many registers an instruction has at most.
    pub const REGISTERS: usize = 7;

    /// The parts of the 16 bytes.
    pub fn split(bytes: [u8; Instr::LEN]) -> InstrBytes
        ensures opcode { result.opcode ≡ slice_index bytes 0 }
        ensures registers { result.registers ≡ registers_at bytes }
        ensures last { result.last ≡ drop 8 bytes }
        // What `imm` and `target` give is where the bytes have it.
        ensures imm { number_at result.last 0 4 ≡ number_at bytes 8 4 }
        ensures target { number_at result.last 4 4 ≡ number_at bytes 12 4 }
    {
        let [opcode, a, b, c, d, e, f, g, l0, l1, l2, l3, l4, l5, l6, l7] = bytes;
        InstrBytes {
            opcode,
            registers: [a, b, c, d, e, f, g],
            last: [l0, l1, l2, l3, l4, l5, l6, l7],
        }
    }

    /// The 16 bytes.
    pub fn join(self) -> [u8; Instr::LEN]
        ensures { result ≡ self.opcode ∷ (self.registers ++ self.last) }
    {
        let [a, b, c, d, e, f, g] = self.registers;
        let [l0, l1, l2, l3, l4, l5, l6, l7] = self.last;
        [
            self.opcode,
            a,
            b,
            c,
            d,
            e,
            f,
            g,
            l0,
            l1,
            l2,
            l3,
            l4,
            l5,
            l6,
            l7,
        ]
    }

    /// The number in the last eight bytes.
    pub fn imm(self) -> u32
        ensures { result ≡ number_at self.last 0 4 }
    {
        imm_in(self.last)
    }

    /// The target in the last eight bytes.
    pub fn target(self) -> u32
        ensures { result ≡ number_at self.last 4 4 }
    {
        target_in(self.last)
    }

    /// The last eight bytes with a number and a target.
    pub fn numbers(imm: u32, target: u32) -> [u8; HandleList::MOST]
        ensures { result ≡ bytes_of 4 imm ++ bytes_of 4 target }
    {
        let [i0, i1, i2, i3] = imm.to_le_bytes();
        let [t0, t1, t2, t3] = target.to_le_bytes();
        [i0, i1, i2, i3, t0, t1, t2, t3]
    }
}

/// The number in the last eight bytes of an instruction.
#[inline(always)]
pub(crate) fn imm_in(last: [u8; HandleList::MOST]) -> u32
    ensures { result ≡ number_at last 0 4 }
{
    let [i0, i1, i2, i3, ..] = last;
    u32::from_le_bytes([i0, i1, i2, i3])
}

/// The target in the last eight bytes of an instruction.
pub(crate) fn target_in(last: [u8; HandleList::MOST]) -> u32
    ensures { result ≡ number_at last 4 4 }
{
    let [_, _, _, _, t0, t1, t2, t3] = last;
    u32::from_le_bytes([t0, t1, t2, t3])
}

/// The registers that are used, and register 0 behind them.
fn seven(used: &[Register]) -> [Register; InstrBytes::REGISTERS]
    requires { length used.now ≤ most_registers }
    ensures { result ≡ seven used.now }
{
    let mut registers = [Register::zero(); InstrBytes::REGISTERS];
    for (place, register) in used.iter().enumerate() {
        registers[place] = *register;
    }
    registers
}

/// The numbers of the registers.
#[inline(always)]
fn numbers(registers: [Register; InstrBytes::REGISTERS]) -> [u8; InstrBytes::REGISTERS]
    ensures { result ≡ registers }
{
    let [a, b, c, d, e, f, g] = registers;
    [
        a.number(),
        b.number(),
        c.number(),
        d.number(),
        e.number(),
        f.number(),
        g.number(),
    ]
}

/// The bytes of an instruction with these registers, a number and a target.
fn with_registers<const N: usize>(
    opcode: u8,
    used: [Register; N],
    imm: u32,
    target: u32,
) -> [u8; Instr::LEN]
    requires { N ≤ most_registers }
    ensures { result ≡ fields opcode used.entry imm target }
{
    let registers = numbers(seven(&used));
    let last = InstrBytes::numbers(imm, target);
    InstrBytes {
        opcode,
        registers,
        last,
    }
    .join()
}

/// The 16 bytes of the local instruction.
#[tactic(auto, unfolding(crate::specs::Spells::local_parts))]
fn local_bytes(local: LocalInstr) -> [u8; Instr::LEN]
    ensures { result ≡ local_bytes local }
{
    match local {
        LocalInstr::Const {
            destination,
            number,
        } => with_registers(1, [destination], number, 0),
        LocalInstr::Move {
            destination,
            source,
        } => with_registers(2, [destination, source], 0, 0),
        LocalInstr::Add {
            destination,
            left,
            right,
        } => with_registers(3, [destination, left, right], 0, 0),
        LocalInstr::AddNumber {
            destination,
            left,
            number,
        } => with_registers(4, [destination, left], number, 0),
        LocalInstr::Subtract {
            destination,
            left,
            right,
        } => with_registers(5, [destination, left, right], 0, 0),
        LocalInstr::And {
            destination,
            left,
            right,
        } => with_registers(6, [destination, left, right], 0, 0),
        LocalInstr::Or {
            destination,
            left,
            right,
        } => with_registers(7, [destination, left, right], 0, 0),
        LocalInstr::Xor {
            destination,
            left,
            right,
        } => with_registers(8, [destination, left, right], 0, 0),
        LocalInstr::ShiftLeft {
            destination,
            source,
            places,
        } => with_registers(9, [destination, source], places, 0),
        LocalInstr::ShiftRight {
            destination,
            source,
            places,
        } => with_registers(10, [destination, source], places, 0),
        LocalInstr::Take {
            destination,
            source,
        } => with_registers(11, [destination, source], 0, 0),
        LocalInstr::Swap {
            register,
            place,
            array,
        } => with_registers(12, [register, place], array, 0),
        LocalInstr::LoadByte {
            destination,
            base,
            offset,
        } => with_registers(13, [destination, base], offset, 0),
        LocalInstr::LoadWord {
            destination,
            base,
            offset,
        } => with_registers(14, [destination, base], offset, 0),
        LocalInstr::StoreByte {
            base,
            source,
            offset,
        } => with_registers(15, [base, source], offset, 0),
        LocalInstr::StoreWord {
            base,
            source,
            offset,
        } => with_registers(16, [base, source], offset, 0),
        LocalInstr::Jump { target } => with_registers(17, [], 0, target),
        LocalInstr::JumpZero { register, target } => with_registers(18, [register], 0, target),
        LocalInstr::JumpNotZero { register, target } => with_registers(19, [register], 0, target),
        LocalInstr::JumpEqual {
            register,
            number,
            target,
        } => with_registers(20, [register], number, target),
        LocalInstr::JumpNotEqual {
            register,
            number,
            target,
        } => with_registers(21, [register], number, target),
        LocalInstr::JumpBelow {
            register,
            number,
            target,
        } => with_registers(22, [register], number, target),
        LocalInstr::JumpNotBelow {
            register,
            number,
            target,
        } => with_registers(23, [register], number, target),
        LocalInstr::JumpHas {
            register,
            bits,
            target,
        } => with_registers(24, [register], bits, target),
        LocalInstr::JumpHasNot {
            register,
            bits,
            target,
        } => with_registers(25, [register], bits, target),
        LocalInstr::Rep { count, end } => with_registers(26, [], count, end),
        LocalInstr::EndRep { rep } => with_registers(27, [], 0, rep),
    }
}

/// The 16 bytes of the system call.
fn call_bytes(call: CallInstr) -> [u8; Instr::LEN]
    ensures { result ≡ call_bytes call }
{
    let CallInstr {
        name,
        registers,
        last,
    } = call;
    InstrBytes {
        opcode: name.row().opcode,
        registers: numbers(registers),
        last,
    }
    .join()
}

impl Instr {
    /// The 16 bytes that spell the instruction, as an image has them. The layout is own profile.
    pub fn to_bytes(self) -> [u8; Instr::LEN]
        ensures { result ≡ instr_bytes self }
    {
        match self {
            Instr::Local(local) => local_bytes(local),
            Instr::Call(call) => call_bytes(call),
            Instr::Unknown(bytes) => bytes,
        }
    }
}
