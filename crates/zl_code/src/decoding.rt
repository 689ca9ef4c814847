ghost use Rattle.std.specs.Prelude.{drop, length, ◌+◌, ◌*◌, ◌≡◌, ◌≤◌, ◌⊎◌, IsTrue, IfOk, OnOk, MatchResult, Some, None, slice_index, IfSome, IfNone, false};
ghost use Rattle.std.specs.Option.{is_none};
ghost use Rattle.std.specs.Result.{result_err};
ghost use Rattle.zl_code.specs.declared.image.DecodeFault.TheVariants as faults;
ghost use Rattle.zl_code.specs.Spells.{needs_byte, is_needs_byte, number_at, header_fault, is_header_in_range, first_fault, is_raw_at, is_version, version_at, version_number, count_at, starts_at, slots_at, length_at, pieces, Spells};
ghost use Rattle.zl_code.specs.Limits.{header_length, declaration_length, instruction_length};
ghost use Rattle.zl_code.specs.Image.{Image as ImageValue, needs_value};

use crate::blocks::are_blocks;
use crate::declarations::{slots_of, starts_of};
use crate::encoding::MAGIC;
use crate::image::{DecodeFault, Image, Needs, Version};
use crate::instr::Instr;
use crate::known::code_of;
use crate::undecoded::Undecoded;
use std::alloc::Global;

/// What the header says.
#[derive(Clone, Copy)]
struct Header {
    version: Version,
    raw: bool,
    count: usize,
    memory: u32,
    budget: u32,
    needs: Needs,
    starts: usize,
    slots: usize,
}

/// The number in the two bytes at the offset.
#[tactic(auto, using(crate::proofs::ImageBytes::number_at_2))]
fn half_word_at(bytes: &[u8], offset: usize) -> u16
    requires { offset + 2 ≤ length bytes.now }
    ensures { result ≡ number_at bytes.now offset 2 }
{
    u16::from_le_bytes([bytes[offset], bytes[offset + 1]])
}

/// The number in the four bytes at the offset.
#[tactic(auto, using(crate::proofs::ImageBytes::number_at_4))]
fn word_at(bytes: &[u8], offset: usize) -> u32
    requires { offset + 4 ≤ length bytes.now }
    ensures { result ≡ number_at bytes.now offset 4 }
{
    u32::from_le_bytes([
        bytes[offset],
        bytes[offset + 1],
        bytes[offset + 2],
        bytes[offset + 3],
    ])
}

/// The version with this number.
fn version_of(number: u8) -> Option<Version>
    ensures some { IfSome result (λ version. version_number version ≡ number) }
    ensures none { IfNone result (is_version number ≡ false) }
{
    match number {
        1 => Some(Version::One),
        2 => Some(Version::Two),
        _ => None,
    }
}

/// Whether the byte has no bit but those of the five needs.
fn is_needs_byte(byte: u8) -> bool
    ensures { result ≡ is_needs_byte byte }
{
    byte < 32
}

/// The needs whose bits are in the byte.
#[tactic(auto, using(crate::proofs::ImageNeeds::needs_of_byte))]
fn needs_of(byte: u8) -> Needs
    requires { IsTrue (is_needs_byte byte) }
    ensures { needs_byte (needs_value result) ≡ byte }
{
    Needs {
        channel: byte % 2 == 1,
        event: byte / 2 % 2 == 1,
        eventpair: byte / 4 % 2 == 1,
        port: byte / 8 % 2 == 1,
        process: byte / 16 % 2 == 1,
    }
}

/// The offset of a field of the header, from 5 on, that is out of its range: the first, and that of
/// the needs if no other is.
fn field_out_of_range(bytes: &[u8]) -> Option<usize>
    requires { header_length ≤ length bytes.now }
    ensures { is_none result ≡ is_header_in_range bytes.now }
{
    let budget = word_at(bytes, 12);
    if bytes[5] > 1 {
        Some(5)
    } else if usize::from(half_word_at(bytes, 6)) > Image::MOST_INSTRUCTIONS {
        Some(6)
    } else if word_at(bytes, 8) > Image::MOST_MEMORY {
        Some(8)
    } else if budget == 0 || budget > Image::MOST_BUDGET {
        Some(12)
    } else if usize::from(bytes[17]) > Image::MOST_STARTS {
        Some(17)
    } else if usize::from(bytes[18]) > Image::MOST_SLOT_ARRAYS {
        Some(18)
    } else if bytes[19] != 0 {
        Some(19)
    } else if is_needs_byte(bytes[16]) {
        None
    } else {
        Some(16)
    }
}

/// The header, where it has no fault and the bytes are as many as it says.
#[tactic(auto, unfolding(crate::specs::Spells::header_fault))]
fn header_of(bytes: &[u8]) -> Result<Header, Undecoded>
    ensures version { IfOk result (λ header. header.version ≡ version_at bytes.now) }
    ensures raw { IfOk result (λ header. header.raw ≡ is_raw_at bytes.now) }
    ensures count { IfOk result (λ header. header.count ≡ count_at bytes.now) }
    ensures memory { IfOk result (λ header. header.memory ≡ number_at bytes.now 8 4) }
    ensures budget { IfOk result (λ header. header.budget ≡ number_at bytes.now 12 4) }
    ensures needs { IfOk result (λ header.
        needs_byte (needs_value header.needs) ≡ slice_index bytes.now 16) }
    ensures starts { IfOk result (λ header. header.starts ≡ starts_at bytes.now) }
    ensures slots { IfOk result (λ header. header.slots ≡ slots_at bytes.now) }
    ensures len { OnOk result (length bytes.now ≡ length_at bytes.now) }
    ensures fault { header_fault bytes.now ≡ result_err result }
{
    if bytes.len() < Image::HEADER_LEN {
        return Err(DecodeFault::Short.at(Image::HEADER_LEN));
    }
    if !bytes.starts_with(&MAGIC) {
        return Err(DecodeFault::Magic.at(0));
    }
    let Some(version) = version_of(bytes[4]) else {
        return Err(DecodeFault::Version.at(4));
    };
    if let Some(offset) = field_out_of_range(bytes) {
        return Err(DecodeFault::BadHeader.at(offset));
    }
    let header = Header {
        version,
        raw: bytes[5] == 1,
        count: usize::from(half_word_at(bytes, 6)),
        memory: word_at(bytes, 8),
        budget: word_at(bytes, 12),
        needs: needs_of(bytes[16]),
        starts: usize::from(bytes[17]),
        slots: usize::from(bytes[18]),
    };
    let declared = Image::HEADER_LEN
        + Image::DECLARATION_LEN * header.starts
        + Image::DECLARATION_LEN * header.slots;
    let end = declared + Instr::LEN * header.count;
    if bytes.len() != end {
        return Err(DecodeFault::Length.at(end));
    }
    Ok(header)
}

/// So many declarations, from the offset on.
fn declarations_at(bytes: &[u8], offset: usize, count: usize) -> &[[u8; Image::DECLARATION_LEN]]
    requires { offset + declaration_length * count ≤ length bytes.now }
    ensures { result.now ≡ pieces declaration_length count (drop offset bytes.now) }
{
    let (pieces, _) = bytes[offset..].as_chunks::<{ Image::DECLARATION_LEN }>();
    &pieces[..count]
}

/// So many instructions, from the offset on.
fn instrs_at(bytes: &[u8], offset: usize, count: usize) -> &[[u8; Instr::LEN]]
    requires { offset + instruction_length * count ≤ length bytes.now }
    ensures { result.now ≡ pieces instruction_length count (drop offset bytes.now) }
{
    let (pieces, _) = bytes[offset..].as_chunks::<{ Instr::LEN }>();
    &pieces[..count]
}

/// The image that the bytes spell, or the first fault.
fn image_of(alloc: Global, bytes: &[u8]) -> Result<Image, Undecoded>
    ensures found { IfOk result (λ image. Spells bytes.now image) }
    ensures first { MatchResult result
        (λ _. first_fault bytes.now ≡ None)
        (λ fault. (fault ≡ faults.NoMemory) ⊎ (first_fault bytes.now ≡ Some fault)) }
{
    let header = header_of(bytes)?;
    let slots_offset = Image::HEADER_LEN + Image::DECLARATION_LEN * header.starts;
    let code_offset = slots_offset + Image::DECLARATION_LEN * header.slots;
    let starts = starts_of(
        alloc,
        Image::HEADER_LEN,
        declarations_at(bytes, Image::HEADER_LEN, header.starts),
    )?;
    let slots = slots_of(
        alloc,
        slots_offset,
        declarations_at(bytes, slots_offset, header.slots),
    )?;
    let code = code_of(
        alloc,
        header.version,
        header.raw,
        code_offset,
        instrs_at(bytes, code_offset, header.count),
    )?;
    let keeps = are_blocks(alloc, &code)?;
    if !keeps {
        return Err(DecodeFault::BadBlock.at(code_offset));
    }
    Ok(Image {
        version: header.version,
        raw: header.raw,
        memory: header.memory,
        budget: header.budget,
        needs: header.needs,
        starts,
        slots,
        code,
    })
}

/// The image that the bytes spell, all of the bytes. The format is own profile.
///
/// `NoMemory` says that memory was refused. Each other fault is the first in this order: `Short`,
/// `Magic`, `Version`, `BadHeader` of the header, `Length`, `BadHeader` of the declarations, and
/// then, of the first instruction with a fault, `UnknownOp` (never under the raw mark),
/// `BadRegister`, `UnusedField`; last `BadBlock` of the instructions together. `Undecoded::at` says of
/// which byte it is.
pub fn decode(alloc: Global, bytes: &[u8]) -> Result<Image, Undecoded>
    // What is read is spelled so.
    ensures found { IfOk result (λ image. Spells bytes.now image) }
    // What is spelled so is read, unless memory is refused.
    ensures only { (i : ImageValue) → Spells bytes.now i
        → MatchResult result (λ image. image ≡ i) (λ fault. fault ≡ faults.NoMemory) }
    // Which fault it is.
    ensures first { MatchResult result
        (λ _. first_fault bytes.now ≡ None)
        (λ fault. (fault ≡ faults.NoMemory) ⊎ (first_fault bytes.now ≡ Some fault)) }
{
    image_of(alloc, bytes)
}
