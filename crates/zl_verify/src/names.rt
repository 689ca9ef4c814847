//! Where each register is next named: the instructions between hand it on, with no less in it.

ghost use Rattle.std.specs.Prelude.{◌≡◌, ◌<◌, ◌+◌, length, IfOk};
ghost use Rattle.zl_code.specs.Limits.{register_count};
ghost use Rattle.zl_verify.specs.Handing.{AreNames, AreNext, IsNext};

use crate::naming::is_named;
use crate::register_set::RegisterSet;
use crate::tagged::tagged_in;
use std::alloc::{AllocError, Global};
use zl_abs::jump_target;
use zl_code::{Image, Register};

/// At which instructions all registers are named: those to which one may jump.
fn begins_of(alloc: Global, image: &Image) -> Result<Vec<bool>, AllocError> {
    let mut begins = vec![in alloc; false; image.len()]?;
    for place in 0..image.len() {
        let target = jump_target(image, place);
        if target < begins.len() {
            begins[target] = true;
        }
    }
    Ok(begins)
}

/// Whether the instruction names a register that a tag may name.
fn names_tagged(image: &Image, tagged: RegisterSet, place: usize) -> bool {
    for number in 0..Register::COUNT as u8 {
        if let Some(register) = Register::new(number) {
            if tagged.has(register) && is_named(image, place, register) {
                return true;
            }
        }
    }
    false
}

/// Whether the instruction counts as one that names all registers.
fn names_all(image: &Image, begins: &[bool], tagged: RegisterSet, place: usize) -> bool {
    match begins.get(place) {
        Some(true) => true,
        _ => names_tagged(image, tagged, place),
    }
}

/// The row of an instruction that names all registers.
fn here(image: &Image, place: u16) -> [u16; Register::COUNT]
    requires { place < length image.now.code }
    ensures { AreNext image.now place result }
{
    [place; Register::COUNT]
}

/// Where the register is named from the instruction on, by where it is from the one behind it.
fn named(image: &Image, place: u16, register: Register, behind: u16) -> u16
    requires inside { place + 1 < length image.now.code }
    requires next { IsNext image.now register (place + 1) behind }
    ensures { IsNext image.now register place result }
{
    if is_named(image, usize::from(place), register) {
        place
    } else {
        behind
    }
}

/// The row of an instruction, by that of the one behind it.
fn row(image: &Image, place: u16, behind: &[u16]) -> [u16; Register::COUNT]
    requires inside { place + 1 < length image.now.code }
    requires long { length behind.now ≡ register_count }
    requires next { AreNext image.now (place + 1) behind.now }
    ensures { AreNext image.now place result }
{
    let mut row = [place; Register::COUNT];
    for number in 0..Register::COUNT {
        let Some(register) = Register::new(number as u8) else {
            continue;
        };
        row[number] = named(image, place, register, behind[number]);
    }
    row
}

/// The same, where the instruction may name all registers: where one may jump to it, and where it
/// names one that a tag may name, as then others may change.
fn row_of(
    image: &Image,
    begins: &[bool],
    tagged: RegisterSet,
    place: u16,
    behind: &[u16],
) -> [u16; Register::COUNT]
    requires inside { place + 1 < length image.now.code }
    requires long { length behind.now ≡ register_count }
    requires next { AreNext image.now (place + 1) behind.now }
    ensures { AreNext image.now place result }
{
    if names_all(image, begins, tagged, usize::from(place)) {
        return here(image, place);
    }
    row(image, place, behind)
}

/// The rows, from the last instruction to the first.
fn rows_of(
    alloc: Global,
    image: &Image,
    begins: &[bool],
    tagged: RegisterSet,
) -> Result<Vec<[u16; Register::COUNT]>, AllocError>
    ensures { IfOk result (λ rows. AreNames image.now rows.items) }
{
    let size = image.len();
    let mut rows = Vec::with_capacity(alloc, size)?;
    if size == 0 {
        return Ok(rows);
    }
    let mut last = here(image, (size - 1) as u16);
    rows.push(last)?;
    for back in 1..size {
        last = row_of(image, begins, tagged, (size - 1 - back) as u16, &last);
        rows.push(last)?;
    }
    Ok(rows)
}

/// Where each register is next named, from each instruction on.
#[derive(Drop)]
pub(crate) struct Names {
    // A row for each instruction, from the last to the first.
    rows: Vec<[u16; Register::COUNT]>,
}

impl Names {
    /// Those of an image.
    pub fn of(alloc: Global, image: &Image) -> Result<Names, AllocError>
        ensures { IfOk result (λ names. AreNames image.now names.rows.items) }
    {
        let begins = begins_of(alloc, image)?;
        let tagged = tagged_in(image);
        let rows = rows_of(alloc, image, &begins, tagged)?;
        Ok(Names { rows })
    }

    /// Where the register is named from the instruction on.
    pub fn next(&self, image: &Image, place: usize, register: Register) -> usize
        requires inside { place < length image.now.code }
        requires names { AreNames image.now self.now.rows.items }
        ensures { IsNext image.now register place result }
    {
        usize::from(self.rows[image.len() - 1 - place][usize::from(register.number())])
    }
}
