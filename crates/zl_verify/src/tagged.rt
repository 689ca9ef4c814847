//! The registers that a tag may name in a program: those of handles of which a call tells kind and
//! rights, and those to which such a handle may move; and those that a call names. No clause says so: a
//! search goes by it.

use crate::register_set::RegisterSet;
use zl_code::{CallInstr, Ending, Gives, Image, LocalInstr, Register};

/// The first of each of so many triples of registers.
fn heads_of(first: Register, triples: u32) -> RegisterSet {
    let mut heads = RegisterSet::NONE;
    for triple in 0..triples.min(Register::COUNT as u32) as u8 {
        if let Some(head) = Register::new(first.number() + 3 * triple) {
            heads = heads.with(RegisterSet::of(head));
        }
    }
    heads
}

/// Those of so many triples.
fn triples_of(first: Register, triples: u32) -> RegisterSet {
    let mut all = RegisterSet::NONE;
    for number in first.number()..Register::COUNT as u8 {
        let behind = u32::from(number - first.number());
        if let Some(register) = Register::new(number) {
            if behind / 3 < triples {
                all = all.with(RegisterSet::of(register));
            }
        }
    }
    all
}

/// Those of a list.
fn listed(places: &[u8]) -> RegisterSet {
    let mut all = RegisterSet::NONE;
    for place in places {
        if let Some(register) = Register::new(*place) {
            all = all.with(RegisterSet::of(register));
        }
    }
    all
}

/// Those that the call names behind the registers of its row.
fn named_behind(call: &CallInstr) -> RegisterSet {
    match call.name.row().columns.ending {
        Ending::Handles => listed(&call.last),
        Ending::Room => triples_of(call.registers[6], call.number()),
        _ => RegisterSet::NONE,
    }
}

/// Those that the call names.
pub(crate) fn named_by(call: &CallInstr) -> RegisterSet {
    let mut named = named_behind(call);
    for register in call
        .registers
        .iter()
        .take(call.name.row().columns.fields.len())
    {
        named = named.with(RegisterSet::of(*register));
    }
    named
}

/// Those of which the call tells kind and rights.
fn told_by(call: &CallInstr) -> RegisterSet {
    let columns = call.name.row().columns;
    if let Gives::Tells = columns.gives {
        return RegisterSet::of(call.registers[1]);
    }
    match columns.ending {
        Ending::Room => heads_of(call.registers[6], call.number()),
        _ => RegisterSet::NONE,
    }
}

/// Those of which a call of the program tells.
fn told_in(image: &Image) -> RegisterSet {
    let mut told = RegisterSet::NONE;
    for place in 0..image.len() {
        if let Some(call) = image.call_at(place) {
            told = told.with(told_by(&call));
        }
    }
    told
}

/// That to which the instruction moves a handle.
fn moved_by(local: &LocalInstr) -> RegisterSet {
    match local {
        LocalInstr::Take { destination, .. } => RegisterSet::of(*destination),
        _ => RegisterSet::NONE,
    }
}

/// Those to which a handle moves.
fn moved_in(image: &Image) -> RegisterSet {
    let mut moved = RegisterSet::NONE;
    for place in 0..image.len() {
        if let Some(local) = image.local_at(place) {
            moved = moved.with(moved_by(&local));
        }
    }
    moved
}

/// The registers that a tag may name.
pub(crate) fn tagged_in(image: &Image) -> RegisterSet {
    let told = told_in(image);
    if told.is_empty() {
        told
    } else {
        told.with(moved_in(image))
    }
}
