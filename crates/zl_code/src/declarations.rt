//! The declarations of an image: start handles and slot arrays.

ghost use Rattle.std.specs.Prelude.{map, ◌≡◌, ◌⊎◌, ◌==◌, IsTrue, IfOk, IfErr, IfSome, IfNone, OnOk, OnSome, true, false, ◌&&◌, nat_lt, nat_le, Some, None, slice_index};
ghost use Rattle.std.specs.List.{list_all};
ghost use Rattle.std.specs.Result.{result_err};
ghost use Rattle.zl_code.specs.First.{first_some};
ghost use Rattle.zl_code.specs.Limits.{most_places};
ghost use Rattle.zl_rights.specs.Numbers.{bits, within};
ghost use Rattle.zl_code.specs.declared.image.DecodeFault.TheVariants as faults;
ghost use Rattle.zl_code.specs.Spells.{number_at, kind_byte, kind_at, rights_allowed, has_rights, has_length, start_bytes, slot_bytes, is_start_in_range, is_slot_in_range, start_fault, slot_fault};

use crate::image::{DecodeFault, Image, SlotArray, Start};
use crate::undecoded::Undecoded;
use bitflags::Flags;
use std::alloc::Global;
use zl_rights::{Kind, Rights};

/// The kind of the byte, where 0 is any kind.
#[tactic(auto, using(crate::proofs::ImageDeclared::kind_at_none))]
fn kind_of(byte: u8) -> Result<Option<Kind>, Undecoded>
    ensures byte { IfOk result (λ kind. kind_byte kind ≡ byte) }
    ensures ok { IfOk result (λ kind. kind_at byte ≡ Some kind) }
    ensures err { IfErr result (λ fault. (fault ≡ faults.BadHeader) × (kind_at byte ≡ None)) }
{
    if byte == 0 {
        return Ok(None);
    }
    match Kind::from_number(u32::from(byte)) {
        Some(kind) => Ok(Some(kind)),
        None => Err(DecodeFault::BadHeader.at(0)),
    }
}

/// The rights that a declaration of the kind may name.
fn rights_allowed(kind: Option<Kind>) -> Rights
    ensures { bits result ≡ rights_allowed kind }
{
    match kind {
        Some(kind) => kind.default_rights(),
        None => Rights::all(),
    }
}

/// Whether a declaration of the kind may name the rights.
fn is_allowed(kind: Option<Kind>, rights: Rights) -> bool
    ensures { result ≡ within (bits rights) (rights_allowed kind) }
{
    rights.within(rights_allowed(kind))
}

/// The rights in the last four of the eight bytes, if the kind allows them.
fn rights_of(kind: Option<Kind>, bytes: [u8; Image::DECLARATION_LEN]) -> Result<Rights, Undecoded>
    ensures value { IfOk result (λ rights. bits rights ≡ number_at bytes 4 4) }
    ensures ok { OnOk result (within (number_at bytes 4 4) (rights_allowed kind) ≡ true) }
    ensures err { IfErr result (λ fault.
        (fault ≡ faults.BadHeader) × (within (number_at bytes 4 4) (rights_allowed kind) ≡ false)) }
{
    let [_, _, _, _, r0, r1, r2, r3] = bytes;
    let rights = Rights::from_bits_retain(u32::from_le_bytes([r0, r1, r2, r3]));
    if is_allowed(kind, rights) {
        Ok(rights)
    } else {
        Err(DecodeFault::BadHeader.at(4))
    }
}

/// The start handle of the eight bytes.
fn start_of(bytes: [u8; Image::DECLARATION_LEN]) -> Result<Start, Undecoded>
    ensures bytes { IfOk result (λ start. start_bytes start ≡ bytes) }
    ensures in_range { IfOk result (λ start. IsTrue (is_start_in_range start)) }
    ensures fault { start_fault bytes ≡ result_err result }
{
    let kind = kind_of(bytes[0])?;
    if !is_all_zero(&bytes[1..4]) {
        return Err(DecodeFault::BadHeader.at(1));
    }
    let rights = rights_of(kind, bytes)?;
    Ok(Start { kind, rights })
}

fn is_all_zero(bytes: &[u8]) -> bool
    ensures { result ≡ list_all (λ byte. byte == 0) bytes.now }
{
    bytes.iter().all(|byte| *byte == 0)
}

impl Start {
    /// Whether an image can declare the start handle: the rights are within the default rights of the
    /// kind, or within the known rights for any kind.
    pub fn is_in_range(&self) -> bool
        ensures { result ≡ is_start_in_range self.now }
    {
        is_allowed(self.kind, self.rights)
    }
}

fn is_slot_array_length(length: u16) -> bool
    ensures { result ≡ (nat_lt 0 length && nat_le length most_places) }
{
    length > 0 && length <= SlotArray::MOST_PLACES
}

impl SlotArray {
    /// Whether an image can declare the slot array: it has 1 to 256 places, and the rights are within
    /// the default rights of the kind, or within the known rights for any kind.
    pub fn is_in_range(&self) -> bool
        ensures { result ≡ is_slot_in_range self.now }
    {
        is_slot_array_length(self.length) && is_allowed(self.kind, self.rights)
    }
}

/// The length in the third and the fourth byte, if it is one of a slot array and the second byte is 0.
fn length_of(bytes: [u8; Image::DECLARATION_LEN]) -> Result<u16, Undecoded>
    ensures found { IfOk result (λ length. length ≡ number_at bytes 2 2) }
    ensures ok { OnOk result (has_length bytes ≡ true) }
    ensures err { IfErr result (λ fault.
        (fault ≡ faults.BadHeader) × (has_length bytes ≡ false)) }
{
    let length = u16::from_le_bytes([bytes[2], bytes[3]]);
    if !is_slot_array_length(length) {
        Err(DecodeFault::BadHeader.at(2))
    } else if bytes[1] != 0 {
        Err(DecodeFault::BadHeader.at(1))
    } else {
        Ok(length)
    }
}

/// The slot array of the eight bytes.
fn slot_array_of(bytes: [u8; Image::DECLARATION_LEN]) -> Result<SlotArray, Undecoded>
    ensures bytes { IfOk result (λ array. slot_bytes array ≡ bytes) }
    ensures in_range { IfOk result (λ array. IsTrue (is_slot_in_range array)) }
    ensures fault { slot_fault bytes ≡ result_err result }
{
    let kind = kind_of(bytes[0])?;
    let length = length_of(bytes)?;
    let rights = rights_of(kind, bytes)?;
    Ok(SlotArray {
        kind,
        length,
        rights,
    })
}

/// The start handles of the pieces, in order, which begin at the offset.
pub(crate) fn starts_of(
    alloc: Global,
    offset: usize,
    pieces: &[[u8; Image::DECLARATION_LEN]],
) -> Result<Vec<Start>, Undecoded>
    ensures bytes { IfOk result (λ starts. map start_bytes starts.items ≡ pieces.now) }
    ensures in_range { IfOk result (λ starts. IsTrue (list_all is_start_in_range starts.items)) }
    ensures none { OnOk result (first_some (map start_fault pieces.now) ≡ None) }
    ensures fault { IfErr result (λ fault.
        (fault ≡ faults.NoMemory) ⊎ (first_some (map start_fault pieces.now) ≡ Some fault)) }
{
    let mut starts = Vec::with_capacity(alloc, pieces.len())?;
    for piece in pieces {
        match start_of(*piece) {
            Ok(start) => starts.push(start)?,
            Err(fault) => return Err(fault.in_piece(offset, starts.len(), Image::DECLARATION_LEN)),
        }
    }
    Ok(starts)
}

/// The slot arrays of the pieces, in order, which begin at the offset.
pub(crate) fn slots_of(
    alloc: Global,
    offset: usize,
    pieces: &[[u8; Image::DECLARATION_LEN]],
) -> Result<Vec<SlotArray>, Undecoded>
    ensures bytes { IfOk result (λ slots. map slot_bytes slots.items ≡ pieces.now) }
    ensures in_range { IfOk result (λ slots. IsTrue (list_all is_slot_in_range slots.items)) }
    ensures none { OnOk result (first_some (map slot_fault pieces.now) ≡ None) }
    ensures fault { IfErr result (λ fault.
        (fault ≡ faults.NoMemory) ⊎ (first_some (map slot_fault pieces.now) ≡ Some fault)) }
{
    let mut slots = Vec::with_capacity(alloc, pieces.len())?;
    for piece in pieces {
        match slot_array_of(*piece) {
            Ok(array) => slots.push(array)?,
            Err(fault) => return Err(fault.in_piece(offset, slots.len(), Image::DECLARATION_LEN)),
        }
    }
    Ok(slots)
}
