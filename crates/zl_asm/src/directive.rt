ghost use Rattle.std.specs.Prelude.{◌≡◌, [], ◌∷◌};
ghost use Rattle.std.specs.Result.{result_ok};
ghost use Rattle.zl_asm.specs.Words.{number_of};
ghost use Rattle.zl_code.specs.Limits.{most_places};
ghost use Rattle.zl_asm.specs.Values.{texts};
ghost use Rattle.zl_asm.specs.Lines.{number_within, need_of, kind_of, start_with, slot_array_with, version_with, directive_of};

use crate::fault::{AsmCause, WordFault};
use crate::numbers::{number, spells_number};
use crate::operands::{misfit, number_operand};
use crate::words::{is, is_odd};
use bitflags::Flags;
use zl_code::{Image, SlotArray, Start};
use zl_rights::{Condition, Kind, Rights};

/// A line that declares a field of the image.
#[derive(Clone, Copy)]
pub(crate) enum Directive {
    /// That the image has version 2; one of version 1 has no such line.
    VersionTwo,
    Raw,
    Memory(u32),
    Budget(u32),
    Need(Condition),
    Start(Start),
    Slots(SlotArray),
}

/// The directive of this name with these operands.
#[tactic(auto, unfolding(crate::specs::Lines::directive_of))]
pub(crate) fn directive_of(name: &[u8], operands: &[&[u8]]) -> Result<Directive, WordFault>
    ensures { result_ok result ≡ directive_of name.now (texts operands.now) }
{
    match operands {
        [] => {
            if is(name, b".raw") {
                Ok(Directive::Raw)
            } else {
                Err(misplaced(name, operands))
            }
        }
        [operand] => directive_with(name, operand),
        [kind, rights] => {
            if is(name, b".start") {
                Ok(Directive::Start(start_of(kind, rights)?))
            } else {
                Err(misplaced(name, operands))
            }
        }
        [kind, length, rights] => {
            if is(name, b".slots") {
                Ok(Directive::Slots(slot_array_of(kind, length, rights)?))
            } else {
                Err(misplaced(name, operands))
            }
        }
        _ => Err(misplaced(name, operands)),
    }
}

/// The directive of this name with one operand.
#[tactic(auto, unfolding(crate::specs::Lines::directive_of))]
fn directive_with(name: &[u8], operand: &[u8]) -> Result<Directive, WordFault>
    ensures { result_ok result ≡ directive_of name.now (operand.now ∷ []) }
{
    if is(name, b".version") {
        version_of(operand)
    } else if is(name, b".memory") {
        Ok(Directive::Memory(number_within(1, 0, Image::MOST_MEMORY, operand)?))
    } else if is(name, b".budget") {
        Ok(Directive::Budget(number_within(1, 1, Image::MOST_BUDGET, operand)?))
    } else if is(name, b".need") {
        Ok(Directive::Need(need_of(operand)?))
    } else {
        Err(misplaced(name, &[operand]))
    }
}

/// The fault of operands that no directive of the name has.
fn misplaced(name: &[u8], operands: &[&[u8]]) -> WordFault {
    if is(name, b".version") {
        return AsmCause::Operand.alone();
    }
    let names: &[&[u8]] = &[
        b".raw", b".memory", b".budget", b".need", b".start", b".slots",
    ];
    if !names.iter().any(|known| is(name, known)) {
        return misfit(0, name, AsmCause::UnknownName);
    }
    match operands.iter().position(|operand| is_odd(operand)) {
        Some(place) => AsmCause::Token.at(place.saturating_add(1)),
        None => AsmCause::Operand.alone(),
    }
}

/// The directive of a version, which is 2.
fn version_of(word: &[u8]) -> Result<Directive, WordFault>
    ensures { result_ok result ≡ version_with word.now }
{
    match number(word) {
        Some(number) if number == 2 => Ok(Directive::VersionTwo),
        _ => Err(AsmCause::Operand.at(1)),
    }
}

/// The number of the word, from least to most, in this place of its line.
fn number_within(place: usize, least: u32, most: u32, word: &[u8]) -> Result<u32, WordFault>
    ensures { result_ok result ≡ number_within least most word.now }
{
    match number(word) {
        Some(number) if least <= number && number <= most => Ok(number),
        None if !spells_number(word) => Err(misfit(place, word, AsmCause::Operand)),
        _ => Err(AsmCause::Limit.at(place)),
    }
}

/// The condition of the word, if an image can need it.
fn need_of(word: &[u8]) -> Result<Condition, WordFault>
    ensures { result_ok result ≡ need_of word.now }
{
    match Condition::named(word) {
        Some(condition) if Image::can_need(condition) => Ok(condition),
        Some(_) => Err(AsmCause::Operand.at(1)),
        None => Err(misfit(1, word, AsmCause::UnknownName)),
    }
}

/// The kind of the word, where `any` is no kind in particular.
#[tactic(auto, unfolding(crate::specs::Lines::kind_of))]
fn kind_of(word: &[u8]) -> Result<Option<Kind>, WordFault>
    ensures { result_ok result ≡ kind_of word.now }
{
    if is(word, b"any") {
        return Ok(None);
    }
    match Kind::named(word) {
        Some(kind) => Ok(Some(kind)),
        None => Err(misfit(1, word, AsmCause::UnknownName)),
    }
}

fn start_of(kind: &[u8], rights: &[u8]) -> Result<Start, WordFault>
    ensures { result_ok result ≡ start_with (kind_of kind.now) (number_of rights.now) }
{
    let start = Start {
        kind: kind_of(kind)?,
        rights: Rights::from_bits_retain(number_operand(2, rights)?),
    };
    if start.is_in_range() {
        Ok(start)
    } else {
        Err(AsmCause::Operand.at(2))
    }
}

fn slot_array_of(kind: &[u8], length: &[u8], rights: &[u8]) -> Result<SlotArray, WordFault>
    ensures { result_ok result ≡ slot_array_with
        (kind_of kind.now) (number_within 1 most_places length.now) (number_of rights.now) }
{
    let array = SlotArray {
        kind: kind_of(kind)?,
        length: number_within(2, 1, u32::from(SlotArray::MOST_PLACES), length)? as u16,
        rights: Rights::from_bits_retain(number_operand(3, rights)?),
    };
    if array.is_in_range() {
        Ok(array)
    } else {
        Err(AsmCause::Operand.at(3))
    }
}
