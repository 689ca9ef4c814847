//! What the destinations of a call get.

ghost use Rattle.std.specs.Prelude.{◌≡◌, ◌+◌, ◌*◌, ◌≤◌, ◌<◌, ◌∷◌, [], ◌++◌, length, map, replicate, zip, bit_and, IfSome, IsTrue};
ghost use Rattle.zl_rights.specs.Numbers.{bits, KNOWN_RIGHTS};
ghost use Rattle.zl_code.specs.Asked.{those, is_written};
ghost use Rattle.zl_code.specs.Instructions.{call_row, field_of};
ghost use Rattle.zl_code.specs.Limits.{most_registers, register_count};
ghost use Rattle.zl_code.specs.Spells.{call_reading, names_registers};
ghost use Rattle.zl_code.specs.declared.layout.Ending.TheVariants as ending;
ghost use Rattle.zl_abs.specs.declared.value.AbsVal.TheVariants.{Word, KindOf, RightsOf};
ghost use Rattle.zl_abs.specs.Found.{bounds_in};
ghost use Rattle.zl_abs.specs.Values.{ANY};
ghost use Rattle.zl_abs.specs.CallRules.{narrowed_value, new, packet_values, received_in, triple_results, values_of};

use crate::round_up::Rounding;
use crate::state::AbsState;
use crate::value::AbsVal;
use bitflags::Flags;
use std::marker::Model;
use zl_code::{CallInstr, Field, Gives, HandleList, InstrBytes, Register};
use zl_rights::{Kind, Rights};

/// What a status register gets: the largest magnitude of a status is 30.
const STATUS: AbsVal = AbsVal::Word(30);

/// A handle to a new object, if there is one.
fn new(kind: Kind) -> AbsVal
    ensures { result ≡ new kind }
{
    AbsVal::Has {
        maybe: true,
        kind: Some(kind),
        rights: kind.default_rights(),
    }
}

/// The known rights among the bits.
fn known_rights(number: u32) -> Rights
    ensures { bits result ≡ bit_and number KNOWN_RIGHTS }
{
    Rights::from_bits_retain(number).intersection(Rights::all())
}

/// A handle made from one with this value, if there is one; nothing else can be copied.
fn narrowed(value: AbsVal, asked: u32) -> AbsVal
    ensures { result ≡ narrowed_value value asked }
{
    match value {
        AbsVal::Has { kind, rights, .. } => AbsVal::Has {
            maybe: true,
            kind,
            rights: if asked == Rights::SAME_RIGHTS {
                rights
            } else {
                known_rights(asked)
            },
        },
        _ => AbsVal::Word(0),
    }
}

/// The status, and this value behind it for as many as there may be.
fn status_and(value: AbsVal) -> [AbsVal; InstrBytes::REGISTERS]
    ensures { result ≡ Word 30 ∷ replicate 6 value }
{
    let mut values = [value; InstrBytes::REGISTERS];
    values[0] = STATUS;
    values
}

/// What the destinations of a packet get: key, kind, trigger and observed behind the status.
fn packet(bounds: Rounding<'_>) -> [AbsVal; InstrBytes::REGISTERS]
    ensures { result ≡ Word 30 ∷ packet_values (bounds_in bounds.entry) ++ replicate 2 (Word ANY) }
{
    let mut values = status_and(AbsVal::Word(u64::MAX));
    values[2] = AbsVal::Word(bounds.round_up(1));
    values
}

/// What the destinations of a message get behind the status: its bytes and its handles.
fn message() -> [AbsVal; InstrBytes::REGISTERS]
    ensures { result ≡ Word 30 ∷ Word 65536 ∷ replicate 5 (Word 64) }
{
    let mut values = status_and(AbsVal::Word(64));
    values[1] = AbsVal::Word(65_536);
    values
}

/// What the destinations get that are told of the handle in the register: behind the status its
/// kind and its rights.
fn told(register: Register) -> [AbsVal; InstrBytes::REGISTERS]
    ensures { result ≡ Word 30 ∷ KindOf register ∷ replicate 5 (RightsOf register) }
{
    let mut values = status_and(AbsVal::RightsOf(register));
    values[1] = AbsVal::KindOf(register);
    values
}

/// What the destinations among the registers of a call get, as far as it has them.
pub(crate) fn values_of(
    bounds: Rounding<'_>,
    state: &AbsState,
    instr: &CallInstr,
) -> [AbsVal; InstrBytes::REGISTERS]
    ensures { zip (those is_written (call_row instr.now.name).fields 0 instr.now.registers) result
        ≡ zip (those is_written (call_row instr.now.name).fields 0 instr.now.registers)
        (Word 30 ∷ values_of (bounds_in bounds.entry) state.now instr.now) }
{
    let columns = instr.name.row().columns;
    match columns.gives {
        Gives::Status => status_and(STATUS),
        Gives::Makes(kind) => status_and(new(kind)),
        Gives::Copies => status_and(narrowed(state.get(instr.registers[1]), instr.number())),
        Gives::Sizes => message(),
        Gives::Signals => status_and(AbsVal::Word(0xffff_ffff)),
        Gives::Packet => packet(bounds),
        Gives::Tells => told(instr.registers[1]),
    }
}

/// The most destinations among the registers of a call.
pub(crate) const MOST_WRITTEN: usize = InstrBytes::REGISTERS;

/// The most destinations of a call that receives handles: three more for each of them.
const MOST_RECEIVED: usize = MOST_WRITTEN + 3 * HandleList::MOST;

/// Destinations with what they get, at most `MOST`. Hardly a call receives handles, and all others
/// need only a few places.
#[derive(Drop)]
pub(crate) struct Results<const MOST: usize> {
    pairs: [(Register, AbsVal); MOST],
    count: usize,
}

impl<const MOST: usize> Model for Results<MOST> {
    ghost use Rattle.std.specs.Prelude.{◌≡◌, ◌≤◌, ℕ, List, length, take};
    ghost use Rattle.zl_abs.specs.declared.value.AbsVal.{AbsVal as V};

    ghost Value = { List (ℕ × V) };

    ghost view = { λ r. take r.count r.pairs };

    ghost invariant = { λ r. (r.count ≤ MOST) × (length r.pairs ≡ MOST) };
}

impl<const MOST: usize> Results<MOST> {
    /// All of them, in their order.
    pub fn all(&self) -> &[(Register, AbsVal)]
        ensures { result.now ≡ self.now }
    {
        &self.pairs[..self.count]
    }

    /// One more.
    fn push(&mut self, register: Register, value: AbsVal)
        requires { length self.old < MOST }
        ensures { self.new ≡ self.old ++ (register, value) ∷ [] }
    {
        self.pairs[self.count] = (register, value);
        self.count += 1;
    }

    /// The registers of handles that are received, each with those of its kind and its rights.
    fn receive(&mut self, first: Register, places: u32)
        requires room { length self.old + 3 * places ≤ MOST }
        requires fit { first + 3 * places ≤ register_count }
        ensures { self.new ≡ self.old ++ triple_results first places }
    {
        for place in 0..places {
            let handle = behind(first, 3 * place);
            let received = AbsVal::Has {
                maybe: true,
                kind: None,
                rights: Rights::empty(),
            };
            self.push(handle, received);
            self.push(behind(handle, 1), AbsVal::KindOf(handle));
            self.push(behind(handle, 2), AbsVal::RightsOf(handle));
        }
    }
}

/// The register so many places behind.
fn behind(register: Register, places: u32) -> Register
    requires { register + places < register_count }
    ensures { result ≡ register + places }
{
    match Register::new(register.number() + places as u8) {
        Some(register) => register,
        None => unreachable!(),
    }
}

/// Whether the call writes the register.
fn is_written(field: &Field) -> bool
    ensures { result ≡ is_written (field_of field.now) }
{
    matches!(field, Field::Writes | Field::Changes)
}

/// The destinations among the registers, each with its value.
#[inline(always)]
pub(crate) fn written<const MOST: usize>(
    fields: &[Field],
    registers: &[Register],
    values: &[AbsVal],
) -> Results<MOST>
    requires wide { most_registers ≤ MOST }
    requires few { length fields.now ≤ most_registers }
    requires registers { length registers.now ≡ most_registers }
    requires values { length values.now ≡ most_registers }
    ensures value { result
        ≡ zip (those is_written (map field_of fields.now) 0 registers.now) values.now }
    ensures few { length result ≤ most_registers }
{
    let mut results = Results {
        pairs: [(registers[0], STATUS); MOST],
        count: 0,
    };
    for (place, field) in fields.iter().enumerate() {
        if !is_written(field) {
            continue;
        }
        let value = values[results.all().len()];
        results.push(registers[place], value);
    }
    results
}

/// The destinations of a call that receives handles: those among the registers, each with its
/// value, and behind them the registers of the handles.
pub(crate) fn with_received(
    fields: &[Field],
    instr: &CallInstr,
    values: &[AbsVal],
) -> Results<MOST_RECEIVED>
    requires few { length fields.now ≤ most_registers }
    requires room { IsTrue (names_registers ending.Room (call_reading instr.now)) }
    requires values { length values.now ≡ most_registers }
    ensures { result
        ≡ zip (those is_written (map field_of fields.now) 0 instr.now.registers) values.now
        ++ received_in ending.Room instr.now }
{
    let mut results: Results<MOST_RECEIVED> = written(fields, &instr.registers, values);
    results.receive(instr.registers[6], instr.number());
    results
}
