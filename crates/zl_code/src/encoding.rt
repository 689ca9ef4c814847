//! The bytes of an image.

ghost use Rattle.std.specs.Prelude.{◌≡◌, ◌++◌, ◌∷◌, [], OnOk, IfOk, if◌then◌else◌};
ghost use Rattle.std.specs.List.{flat_map};
ghost use Rattle.zl_code.specs.Image.{needs_value};
ghost use Rattle.zl_code.specs.Spells.{bytes_of, instr_bytes, kind_byte, start_bytes, slot_bytes, needs_byte, header, Spells};

use crate::image::{Image, Needs, SlotArray, Start};
use crate::instr::Instr;
use bitflags::Flags;
use std::alloc::{AllocError, Global};
use zl_rights::Kind;

/// The first bytes of an image.
pub(crate) const MAGIC: [u8; 4] = [0x5a, 0x4c, 0x41, 0x42];

/// Adds the 16 bytes of the instruction.
fn put_instr(out: &mut Vec<u8>, instr: Instr) -> Result<(), AllocError>
    ensures { OnOk result (out.new.items ≡ out.old.items ++ instr_bytes instr) }
{
    out.extend_from_slice(&instr.to_bytes())
}

/// Adds the numbers of the header.
fn put_numbers(out: &mut Vec<u8>, count: u16, memory: u32, budget: u32) -> Result<(), AllocError>
    ensures { OnOk result (out.new.items ≡
        out.old.items ++ (bytes_of 2 count ++ (bytes_of 4 memory ++ bytes_of 4 budget))) }
{
    out.extend_from_slice(&count.to_le_bytes())?;
    out.extend_from_slice(&memory.to_le_bytes())?;
    out.extend_from_slice(&budget.to_le_bytes())
}

/// The bit, if the flag is set.
fn bit_if(flag: bool, bit: u8) -> u8
    ensures { result ≡ (if flag then bit else 0) }
{
    if flag { bit } else { 0 }
}

/// The byte of the needs.
fn needs_byte(needs: Needs) -> u8
    ensures { result ≡ needs_byte (needs_value needs) }
{
    bit_if(needs.channel, 1)
        + bit_if(needs.event, 2)
        + bit_if(needs.eventpair, 4)
        + bit_if(needs.port, 8)
        + bit_if(needs.process, 16)
}

/// The bytes that say what is declared, of which the last is always 0.
fn put_counts(out: &mut Vec<u8>, needs: Needs, starts: u8, slots: u8) -> Result<(), AllocError>
    ensures { OnOk result (out.new.items ≡
        out.old.items ++ (needs_byte (needs_value needs) ∷ starts ∷ slots ∷ 0 ∷ [])) }
{
    out.extend_from_slice(&[needs_byte(needs), starts, slots, 0])
}

/// Adds the 20 bytes at the front.
fn put_header(out: &mut Vec<u8>, image: &Image) -> Result<(), AllocError>
    ensures { OnOk result (out.new.items ≡ out.old.items ++ header image.now) }
{
    out.extend_from_slice(&MAGIC)?;
    out.extend_from_slice(&[image.version.number(), bit_if(image.raw, 1)])?;
    put_numbers(out, image.code.len() as u16, image.memory, image.budget)?;
    put_counts(
        out,
        image.needs,
        image.starts.len() as u8,
        image.slots.len() as u8,
    )
}

/// The byte of the kind; 0 is any kind.
fn kind_byte(kind: Option<Kind>) -> u8
    ensures { result ≡ kind_byte kind }
{
    match kind {
        Some(kind) => kind.number() as u8,
        None => 0,
    }
}

/// Adds the eight bytes of a start handle.
fn put_start(out: &mut Vec<u8>, start: Start) -> Result<(), AllocError>
    ensures { OnOk result (out.new.items ≡ out.old.items ++ start_bytes start) }
{
    out.extend_from_slice(&[kind_byte(start.kind), 0, 0, 0])?;
    out.extend_from_slice(&start.rights.bits().to_le_bytes())
}

/// Adds the start handles.
fn put_starts(out: &mut Vec<u8>, starts: &[Start]) -> Result<(), AllocError>
    ensures { OnOk result (out.new.items ≡ out.old.items ++ flat_map start_bytes starts.now) }
{
    for start in starts {
        put_start(out, *start)?;
    }
    Ok(())
}

/// Adds the eight bytes of a slot array.
fn put_slot_array(out: &mut Vec<u8>, array: SlotArray) -> Result<(), AllocError>
    ensures { OnOk result (out.new.items ≡ out.old.items ++ slot_bytes array) }
{
    out.extend_from_slice(&[kind_byte(array.kind), 0])?;
    out.extend_from_slice(&array.length.to_le_bytes())?;
    out.extend_from_slice(&array.rights.bits().to_le_bytes())
}

/// Adds the slot arrays.
fn put_slots(out: &mut Vec<u8>, slots: &[SlotArray]) -> Result<(), AllocError>
    ensures { OnOk result (out.new.items ≡ out.old.items ++ flat_map slot_bytes slots.now) }
{
    for array in slots {
        put_slot_array(out, *array)?;
    }
    Ok(())
}

/// Adds the declarations.
fn put_declarations(
    out: &mut Vec<u8>,
    starts: &[Start],
    slots: &[SlotArray],
) -> Result<(), AllocError>
    ensures { OnOk result (out.new.items ≡
        out.old.items ++ (flat_map start_bytes starts.now ++ flat_map slot_bytes slots.now)) }
{
    put_starts(out, starts)?;
    put_slots(out, slots)
}

/// How many bytes the image has.
fn len_of(image: &Image) -> usize {
    let declarations = image.starts.len() + image.slots.len();
    Image::HEADER_LEN + Image::DECLARATION_LEN * declarations + Instr::LEN * image.code.len()
}

/// The bytes of the image, as `decode` reads them. The error says that memory was refused. The
/// format is own profile.
pub fn encode(alloc: Global, image: &Image) -> Result<Vec<u8>, AllocError>
    ensures spelled { IfOk result (λ bytes. Spells bytes.items image.now) }
{
    let mut out = Vec::with_capacity(alloc, len_of(image))?;
    put_header(&mut out, image)?;
    put_declarations(&mut out, &image.starts, &image.slots)?;
    for instr in &image.code {
        put_instr(&mut out, *instr)?;
    }
    Ok(out)
}
