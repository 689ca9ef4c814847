//! The 16 bytes of an instruction, field by field.

ghost use Rattle.std.specs.Prelude.{◌≡◌, ◌+◌, ◌<◌, ◌≤◌, ◌==◌, ◌||◌, nat_lt, true, false, IfOk, IfErr, OnOk, drop, length, slice_index};
ghost use Rattle.std.specs.List.{list_all};
ghost use Rattle.std.specs.Option.{is_none};
ghost use Rattle.zl_code.specs.declared.image.DecodeFault.TheVariants as faults;
ghost use Rattle.zl_code.specs.Limits.{instruction_length, register_count, most_registers, no_register};
ghost use Rattle.zl_code.specs.Instructions.{layout as layout_with};
ghost use Rattle.zl_code.specs.Spells.{are_registers, registers_at, number_at, are_places, is_packed, is_room, names_registers, is_ending_clear, is_unused_zero};
ghost use Rattle.zl_code.specs.Fields.{read_in};

use crate::image::DecodeFault;
use crate::instr::{HandleList, Instr};
use crate::instr_bytes::{InstrBytes, imm_in, target_in};
use crate::layout::{Ending, Row};
use crate::register::Register;
use crate::undecoded::Undecoded;

/// Where the first register stands in an instruction, and the last eight bytes; and in these the target.
const FIRST: usize = 1;

const LAST: usize = 8;

const TARGET: usize = 12;

/// The fields of the 16 bytes of an instruction.
#[derive(Clone, Copy)]
pub(crate) struct Fields {
    pub opcode: u8,
    pub registers: [Register; InstrBytes::REGISTERS],
    /// A number and a target, or the places of a list of handles.
    pub last: [u8; HandleList::MOST],
}

impl Fields {
    /// The number in the last eight bytes.
    pub fn imm(self) -> u32
        ensures { result ≡ (read_in self).imm }
    {
        imm_in(self.last)
    }

    /// The target in the last eight bytes.
    pub fn target(self) -> u32
        ensures { result ≡ (read_in self).target }
    {
        target_in(self.last)
    }
}

/// The register of this number, which stands in this place.
fn register(number: u8, place: usize) -> Result<Register, Undecoded>
    ensures found { IfOk result (λ register. register ≡ number) }
    ensures below { OnOk result (number < register_count) }
    ensures fault { IfErr result (λ fault.
        (fault ≡ faults.BadRegister) × (register_count ≤ number)) }
{
    Register::new(number).ok_or(DecodeFault::BadRegister.at(place))
}

/// The fields of the 16 bytes.
pub(crate) fn fields_of(bytes: [u8; Instr::LEN]) -> Result<Fields, Undecoded>
    ensures opcode { IfOk result (λ fields. fields.opcode ≡ slice_index bytes 0) }
    ensures registers { IfOk result (λ fields. (read_in fields).registers ≡ registers_at bytes) }
    ensures imm { IfOk result (λ fields. (read_in fields).imm ≡ number_at bytes 8 4) }
    ensures target { IfOk result (λ fields. (read_in fields).target ≡ number_at bytes 12 4) }
    ensures places { IfOk result (λ fields. (read_in fields).places ≡ drop 8 bytes) }
    ensures in_range { OnOk result (are_registers (registers_at bytes) ≡ true) }
    ensures fault { IfErr result (λ fault.
        (fault ≡ faults.BadRegister) × (are_registers (registers_at bytes) ≡ false)) }
{
    let parts = InstrBytes::split(bytes);
    let [a, b, c, d, e, f, g] = parts.registers;
    let registers = [
        register(a, 1)?,
        register(b, 2)?,
        register(c, 3)?,
        register(d, 4)?,
        register(e, 5)?,
        register(f, 6)?,
        register(g, 7)?,
    ];
    Ok(Fields {
        opcode: parts.opcode,
        registers,
        last: parts.last,
    })
}

/// Whether the byte of a list of handles is a register, or stands for none.
fn is_place(byte: u8) -> bool
    ensures { result ≡ (nat_lt byte register_count || (byte == no_register)) }
{
    usize::from(byte) < Register::COUNT || byte == HandleList::NONE
}

/// The first byte of a list of handles that is no such byte, where they stand from the offset on.
fn missing_handle(places: &[u8], offset: usize) -> Option<usize>
    requires { offset + length places.now ≤ instruction_length }
    ensures { is_none result ≡ are_places places.now }
{
    match places {
        [] => None,
        [first, rest @ ..] if is_place(*first) => missing_handle(rest, offset + 1),
        _ => Some(offset),
    }
}

/// Whether there is room for so many triples of registers from the first on.
fn is_room(first: Register, triples: u32) -> bool
    ensures { result ≡ is_room first triples }
{
    triples <= HandleList::MOST as u32
        && u32::from(first.number()) + 3 * triples <= Register::COUNT as u32
}

/// Which of the last eight bytes names a register that isn't there, if one does: of the room for
/// handles the first byte of its number.
pub(crate) fn missing_register(ending: Ending, fields: &Fields) -> Option<usize>
    ensures { is_none result ≡ names_registers ending (read_in fields.now) }
{
    match ending {
        Ending::Room if !is_room(fields.registers[6], fields.imm()) => Some(LAST),
        Ending::Handles => missing_handle(&fields.last, LAST),
        _ => None,
    }
}

/// Whether each register is 0, which is faster than a search, and mostly so.
fn are_zero(registers: &[Register]) -> bool
    ensures { result ≡ list_all (λ register. register == 0) registers.now }
{
    registers.iter().all(|register| register.number() == 0)
}

/// The first register that isn't 0, where they stand from the offset on.
fn unused_register(registers: &[Register], offset: usize) -> Option<usize>
    requires { offset + length registers.now ≤ instruction_length }
    ensures { is_none result ≡ list_all (λ register. register == 0) registers.now }
{
    match registers {
        [] => None,
        [first, rest @ ..] if first.number() == 0 => unused_register(rest, offset + 1),
        _ => Some(offset),
    }
}

/// The first byte that isn't 0 of the number, which stands at the offset.
fn set_byte(number: u32, offset: usize) -> Option<usize>
    requires { offset ≤ instruction_length }
    ensures { is_none result ≡ (number == 0) }
{
    if number == 0 {
        None
    } else {
        Some(offset + number.trailing_zeros() as usize / 8)
    }
}

/// The first byte that doesn't stand for no register, where they stand from the offset on.
fn used_place(places: &[u8], offset: usize) -> Option<usize>
    requires { offset + length places.now ≤ instruction_length }
    ensures { is_none result ≡ list_all (λ place. place == no_register) places.now }
{
    match places {
        [] => None,
        [first, rest @ ..] if *first == HandleList::NONE => used_place(rest, offset + 1),
        _ => Some(offset),
    }
}

/// The first register behind a place without one, where they stand from the offset on.
fn unpacked_place(places: &[u8], offset: usize) -> Option<usize>
    requires { offset + length places.now ≤ instruction_length }
    ensures { is_none result ≡ is_packed places.now }
{
    match places {
        [] => None,
        [first, rest @ ..] if *first == HandleList::NONE => used_place(rest, offset + 1),
        [_, rest @ ..] => unpacked_place(rest, offset + 1),
    }
}

/// Which of the last eight bytes isn't used and isn't 0.
fn unused_ending(ending: Ending, fields: &Fields) -> Option<usize>
    ensures { is_none result ≡ is_ending_clear ending (read_in fields.now) }
{
    match ending {
        Ending::Nothing => set_byte(fields.imm(), LAST).or(set_byte(fields.target(), TARGET)),
        Ending::Target => set_byte(fields.imm(), LAST),
        Ending::Both => None,
        Ending::Handles => unpacked_place(&fields.last, LAST),
        _ => set_byte(fields.target(), TARGET),
    }
}

/// The first byte that the row doesn't use and that isn't 0.
pub(crate) fn unused_field(row: Row, fields: &Fields) -> Option<usize>
    requires { length row.columns.now.fields.now ≤ most_registers }
    ensures { is_none result ≡ is_unused_zero
        (layout_with (length row.columns.now.fields.now) row.columns.now.ending)
        (read_in fields.now) }
{
    let registers: &[Register] = &fields.registers;
    let used = row.registers();
    let unused = &registers[used..];
    if are_zero(unused) {
        return unused_ending(row.columns.ending, fields);
    }
    unused_register(unused, FIRST + used)
}
