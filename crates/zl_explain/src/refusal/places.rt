//! The registers of an instruction, and what it does with each, as its row has it.

use zl_abs::AbsState;
use zl_code::{Columns, Ending, Field, HandleList, Image, InstrBytes, Kinds, Register, Row};
use zl_rights::Kind;

/// The instruction at which an image is refused, and what is known there.
#[derive(Clone, Copy)]
pub struct Site<'a> {
    pub image: &'a Image,
    /// The number of the instruction.
    pub at: usize,
    pub parts: InstrBytes,
    pub state: AbsState,
}

/// A register of an instruction.
#[derive(Clone, Copy)]
pub struct Place {
    pub register: Register,
    /// What the instruction does with it.
    pub field: Field,
    /// Whether it gets the handle of a slot, for the one that it has.
    pub is_swapped: bool,
}

/// What may be done with a register.
#[derive(Clone, Copy)]
pub enum Use {
    /// It gets a number, or a handle that is made or received.
    Answer,
    /// The same, or the handle of a slot.
    Write,
}

/// The most registers that an instruction reads or writes, three of them for each handle that it receives.
pub const MOST_PLACES: usize = InstrBytes::REGISTERS - 1 + 3 * HandleList::MOST;

/// The register in this place of the instruction, if there is one: of its row, of those that are received,
/// or of its list.
pub fn place_at(parts: InstrBytes, index: usize) -> Option<Place> {
    let row = Row::of_opcode(parts.opcode)?;
    let field = field_at(row.columns, index)?;
    let number = match field {
        Field::Triples => received(parts, index.wrapping_sub(InstrBytes::REGISTERS - 1))?,
        _ => match parts.registers.get(index) {
            Some(number) if index < row.columns.fields.len() => *number,
            _ => *parts
                .last
                .get(index.wrapping_sub(row.columns.fields.len()))?,
        },
    };
    let register = Register::new(number)?;
    Some(Place {
        register,
        field,
        is_swapped: matches!(
            (field, row.columns.ending),
            (Field::Changes, Ending::Number)
        ),
    })
}

/// What is done with the register in this place, if there may be one: behind those of the row come the
/// places of a list, or further ones that are received.
fn field_at(columns: &Columns, index: usize) -> Option<Field> {
    if let Some(field) = columns.fields.get(index) {
        return Some(*field);
    }
    match columns.ending {
        Ending::Room => Some(Field::Triples),
        // its handles are in no registers
        Ending::FromSlots => None,
        _ => columns.in_list,
    }
}

/// The number of the register in this place of those that are received, from 0.
fn received(parts: InstrBytes, place: usize) -> Option<u8> {
    if place >= (parts.imm() as usize).saturating_mul(3) {
        return None;
    }
    let [.., first] = parts.registers;
    first.checked_add(u8::try_from(place).ok()?)
}

impl Place {
    /// Whether the register is used so.
    pub fn is(&self, way: Use) -> bool {
        match (way, self.field) {
            (Use::Answer | Use::Write, Field::Writes | Field::Triples) => true,
            (Use::Write, Field::Changes) => self.is_swapped,
            _ => false,
        }
    }
}

/// Whether one of so many places has the register, and uses it so.
pub fn is_among(parts: InstrBytes, places: usize, register: Register, way: Use) -> bool {
    for index in 0..places {
        if let Some(place) = place_at(parts, index)
            && place.register.number() == register.number()
            && place.is(way)
        {
            return true;
        }
    }
    false
}

/// The first kind of these, where not all are taken.
pub fn first_of(kinds: Kinds) -> Option<Kind> {
    match kinds {
        Kinds::Any => None,
        Kinds::Only(kind) => Some(kind),
        Kinds::Tasks => Some(Kind::Process),
        Kinds::Ends => Some(Kind::Channel),
    }
}
