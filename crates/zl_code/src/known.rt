//! The instruction that 16 bytes spell: the table of instructions, from bytes.

ghost use Rattle.std.specs.Prelude.{map, ◌<◌, ◌≤◌, ◌≡◌, ◌⊎◌, IsTrue, IfOk, IfErr, IfSome, OnOk, slice_index, true, is_some, Bool, Some, None};
ghost use Rattle.std.specs.List.{list_all};
ghost use Rattle.std.specs.Result.{result_err};
ghost use Rattle.zl_code.specs.First.{first_some};
ghost use Rattle.zl_code.specs.Limits.{first_call};
ghost use Rattle.zl_code.specs.declared.image.DecodeFault.TheVariants as faults;
ghost use Rattle.zl_code.specs.Instructions.{call_row, is_known, layout_at, layout_of};
ghost use Rattle.zl_code.specs.Spells.{are_registers, names_registers, is_unused_zero, row_bytes, local_bytes, local_parts, call_bytes, instr_bytes, is_local_in_range, is_call_in_range, is_instr_in_range, instr_fault};
ghost use Rattle.zl_code.specs.Fields.{read_in};

use crate::fields::{Fields, fields_of, missing_register, unused_field};
use crate::history::CallName;
use crate::image::{DecodeFault, Version};
use crate::instr::{CallInstr, Instr, LocalInstr};
use crate::layout::Row;
use crate::rows::FIRST_CALL;
use crate::undecoded::Undecoded;
use std::alloc::Global;

/// The instruction of a known opcode below 64.
#[tactic(auto, unfolding(crate::specs::Instructions::row_of, crate::specs::Spells::local_parts))]
fn known_local(fields: Fields) -> LocalInstr
    requires opcode { IsTrue (is_some (layout_of fields.opcode)) }
    requires below { fields.opcode < first_call }
    requires registers { are_registers (read_in fields).registers ≡ true }
    ensures bytes { IfSome (layout_of fields.opcode) (λ l.
        local_bytes result ≡ row_bytes fields.opcode l (read_in fields)) }
    ensures opcode { (local_parts result).opcode ≡ fields.opcode }
    ensures in_range { IsTrue (is_local_in_range result) }
{
    let [a, b, c, ..] = fields.registers;
    let (imm, target) = (fields.imm(), fields.target());
    match fields.opcode {
        1 => LocalInstr::Const {
            destination: a,
            number: imm,
        },
        2 => LocalInstr::Move {
            destination: a,
            source: b,
        },
        3 => LocalInstr::Add {
            destination: a,
            left: b,
            right: c,
        },
        4 => LocalInstr::AddNumber {
            destination: a,
            left: b,
            number: imm,
        },
        5 => LocalInstr::Subtract {
            destination: a,
            left: b,
            right: c,
        },
        6 => LocalInstr::And {
            destination: a,
            left: b,
            right: c,
        },
        7 => LocalInstr::Or {
            destination: a,
            left: b,
            right: c,
        },
        8 => LocalInstr::Xor {
            destination: a,
            left: b,
            right: c,
        },
        9 => LocalInstr::ShiftLeft {
            destination: a,
            source: b,
            places: imm,
        },
        10 => LocalInstr::ShiftRight {
            destination: a,
            source: b,
            places: imm,
        },
        11 => LocalInstr::Take {
            destination: a,
            source: b,
        },
        12 => LocalInstr::Swap {
            register: a,
            place: b,
            array: imm,
        },
        13 => LocalInstr::LoadByte {
            destination: a,
            base: b,
            offset: imm,
        },
        14 => LocalInstr::LoadWord {
            destination: a,
            base: b,
            offset: imm,
        },
        15 => LocalInstr::StoreByte {
            base: a,
            source: b,
            offset: imm,
        },
        16 => LocalInstr::StoreWord {
            base: a,
            source: b,
            offset: imm,
        },
        17 => LocalInstr::Jump { target },
        18 => LocalInstr::JumpZero {
            register: a,
            target,
        },
        19 => LocalInstr::JumpNotZero {
            register: a,
            target,
        },
        20 => LocalInstr::JumpEqual {
            register: a,
            number: imm,
            target,
        },
        21 => LocalInstr::JumpNotEqual {
            register: a,
            number: imm,
            target,
        },
        22 => LocalInstr::JumpBelow {
            register: a,
            number: imm,
            target,
        },
        23 => LocalInstr::JumpNotBelow {
            register: a,
            number: imm,
            target,
        },
        24 => LocalInstr::JumpHas {
            register: a,
            bits: imm,
            target,
        },
        25 => LocalInstr::JumpHasNot {
            register: a,
            bits: imm,
            target,
        },
        26 => LocalInstr::Rep {
            count: imm,
            end: target,
        },
        27 => LocalInstr::EndRep { rep: target },
        _ => unreachable!(),
    }
}

/// The system call of a known opcode from 64 on.
fn known_call(fields: Fields) -> CallInstr
    requires opcode { IsTrue (is_some (layout_of fields.opcode)) }
    requires from { first_call ≤ fields.opcode }
    requires registers { are_registers (read_in fields).registers ≡ true }
    requires last { IfSome (layout_of fields.opcode) (λ l.
        (names_registers l.ending (read_in fields) ≡ true)
        × (is_unused_zero l (read_in fields) ≡ true)) }
    ensures bytes { IfSome (layout_of fields.opcode) (λ l.
        call_bytes result ≡ row_bytes fields.opcode l (read_in fields)) }
    ensures opcode { (call_row result.name).opcode ≡ fields.opcode }
    ensures in_range { IsTrue (is_call_in_range result) }
{
    let Some(name) = CallName::of_opcode(fields.opcode) else {
        unreachable!();
    };
    let Fields {
        registers,
        last,
        ..
    } = fields;
    CallInstr {
        name,
        registers,
        last,
    }
}

/// The instruction of an opcode that the version knows.
fn known(version: Version, fields: Fields) -> Instr
    requires opcode { IsTrue (is_some (layout_of fields.opcode)) }
    requires known { is_known version fields.opcode ≡ true }
    requires registers { are_registers (read_in fields).registers ≡ true }
    requires last { IfSome (layout_of fields.opcode) (λ l.
        (names_registers l.ending (read_in fields) ≡ true)
        × (is_unused_zero l (read_in fields) ≡ true)) }
    ensures bytes { IfSome (layout_of fields.opcode) (λ l.
        instr_bytes result ≡ row_bytes fields.opcode l (read_in fields)) }
    ensures in_range { (raw : Bool) → IsTrue (is_instr_in_range version raw result) }
{
    if fields.opcode < FIRST_CALL {
        Instr::Local(known_local(fields))
    } else {
        Instr::Call(known_call(fields))
    }
}

/// The instruction of 16 bytes with an opcode that the version doesn't know, which only the raw mark
/// allows.
fn unknown(version: Version, raw: bool, bytes: [u8; Instr::LEN]) -> Result<Instr, Undecoded>
    requires { layout_at version (slice_index bytes 0) ≡ None }
    ensures bytes { IfOk result (λ instr. instr_bytes instr ≡ bytes) }
    ensures in_range { IfOk result (λ instr. IsTrue (is_instr_in_range version raw instr)) }
    ensures fault { instr_fault version raw bytes ≡ result_err result }
{
    if raw {
        Ok(Instr::Unknown(bytes))
    } else {
        Err(DecodeFault::UnknownOp.at(0))
    }
}

impl Instr {
    /// The instruction that the 16 bytes spell, in an image of the version with the raw mark or
    /// without it.
    ///
    /// The first fault in this order: `UnknownOp` of an opcode that the version doesn't know, never
    /// under the raw mark;
    /// `BadRegister`; `UnusedField`. The layout is own profile.
    pub fn from_bytes(
        version: Version,
        raw: bool,
        bytes: [u8; Instr::LEN],
    ) -> Result<Instr, Undecoded>
        ensures bytes { IfOk result (λ instr. instr_bytes instr ≡ bytes) }
        ensures in_range { IfOk result (λ instr. IsTrue (is_instr_in_range version raw instr)) }
        ensures fault { instr_fault version raw bytes ≡ result_err result }
    {
        match Row::at(version, bytes[0]) {
            Some(row) => {
                let fields = fields_of(bytes)?;
                if let Some(place) = missing_register(row.columns.ending, &fields) {
                    return Err(DecodeFault::BadRegister.at(place));
                }
                if let Some(place) = unused_field(row, &fields) {
                    return Err(DecodeFault::UnusedField.at(place));
                }
                Ok(known(version, fields))
            }
            None => unknown(version, raw, bytes),
        }
    }
}

/// The instructions of the pieces, in order, which begin at the offset.
pub(crate) fn code_of(
    alloc: Global,
    version: Version,
    raw: bool,
    offset: usize,
    pieces: &[[u8; Instr::LEN]],
) -> Result<Vec<Instr>, Undecoded>
    ensures bytes { IfOk result (λ code. map instr_bytes code.items ≡ pieces.now) }
    ensures in_range { IfOk result (λ code. IsTrue (list_all (is_instr_in_range version raw) code.items)) }
    ensures none { OnOk result (first_some (map (instr_fault version raw) pieces.now) ≡ None) }
    ensures fault { IfErr result (λ fault.
        (fault ≡ faults.NoMemory)
        ⊎ (first_some (map (instr_fault version raw) pieces.now) ≡ Some fault)) }
{
    let mut code = Vec::with_capacity(alloc, pieces.len())?;
    for piece in pieces {
        match Instr::from_bytes(version, raw, *piece) {
            // Not `push`, whose error would hand the instruction back.
            Ok(instr) => code.extend_from_slice(&[instr])?,
            Err(fault) => return Err(fault.in_piece(offset, code.len(), Instr::LEN)),
        }
    }
    Ok(code)
}
