//! The operands of an instruction, and its bytes.
ghost use Rattle.std.specs.Prelude.{◌≡◌, ◌≤◌, ◌++◌, length, take, drop, Some, None, OnOk};
ghost use Rattle.std.specs.Option.{option_map};
ghost use Rattle.std.specs.Result.{result_ok};
ghost use Rattle.zl_asm.specs.Words.{number_of, register_of};
ghost use Rattle.zl_asm.specs.Lines.{operands_of, all_of, tail, tail_to, tail_of, registers_of, written, source_of};
ghost use Rattle.zl_asm.specs.Values.{texts, tail_value, source_value};
ghost use Rattle.zl_code.specs.declared.layout.Ending.TheVariants as ending;
ghost use Rattle.zl_asm.specs.Causes.{OnRefusal};
ghost use Rattle.zl_code.specs.Instructions.{row_value};
ghost use Rattle.zl_code.specs.Limits.{most_registers};

use crate::fault::{AsmCause, WordFault};
use crate::line::Source;
use crate::numbers::{is_name, number, register};
use crate::words::{is, is_odd};
use zl_code::{Ending, HandleList, InstrBytes, Row, Version};

/// What stands behind the registers of an instruction: its last eight bytes, with the target 0
/// where a label names it.
#[derive(Clone, Copy)]
pub(crate) struct Tail<'a> {
    pub bytes: [u8; HandleList::MOST],
    pub label: Option<&'a [u8]>,
}

/// Puts the words between the commas into `operands`, in place of what it held.
pub(crate) fn split_operands<'a>(
    operands: &mut Vec<&'a [u8]>,
    words: &[&'a [u8]],
) -> Result<(), WordFault>
    ensures ok { OnOk result (operands_of (texts words.now) ≡ Some (texts operands.new.items)) }
    ensures err { OnRefusal result (operands_of (texts words.now) ≡ None) }
{
    operands.clear();
    if words.is_empty() {
        return Ok(());
    }
    let mut rest = words;
    while let [word, comma, more @ ..] = rest {
        if is(word, b",") || !is(comma, b",") {
            return Err(unparted(words));
        }
        operands.push(word)?;
        rest = more;
    }
    match rest {
        [word] if !is(word, b",") => {
            operands.push(word)?;
            Ok(())
        }
        _ => Err(unparted(words)),
    }
}

/// The fault of words between which the commas don't stand as they have to: the first word that isn't
/// one of the grammar, or else the first of a comma and an operand that stands in the other's place.
pub(crate) fn unparted(words: &[&[u8]]) -> WordFault {
    let odd = words
        .iter()
        .position(|word| is_odd(word) && !is(word, b","));
    let displaced = words
        .iter()
        .enumerate()
        .position(|(place, word)| is(word, b",") == (place % 2 == 0));
    match odd.or(displaced) {
        Some(place) => AsmCause::Token.at(place.saturating_add(1)),
        None => AsmCause::Token.alone(),
    }
}

/// The number of the operand, the word in this place of its line.
pub(crate) fn number_operand(place: usize, word: &[u8]) -> Result<u32, WordFault>
    ensures { result_ok result ≡ number_of word.now }
{
    number(word).ok_or_else(|| misfit(place, word, AsmCause::Operand))
}

/// Puts the registers of the words into the first places. The first of them is this word of its line,
/// and a comma stands in front of each other.
fn put_registers(places: &mut [u8], first: usize, words: &[&[u8]]) -> Result<(), WordFault>
    requires { length words.now ≤ length places.old }
    ensures { option_map (λ _. places.new) (result_ok result) ≡ option_map
        (λ registers. registers ++ drop (length registers) places.old)
        (all_of register_of (texts words.now)) }
{
    for (i, word) in words.iter().enumerate() {
        let Some(register) = register(word) else {
            let place = first.saturating_add(i.saturating_mul(2));
            return Err(misfit(place, word, AsmCause::Operand));
        };
        places[i] = register;
    }
    Ok(())
}

/// The fault of a word that doesn't fit in this place of its line: `Token`, if it isn't one of the grammar.
pub(crate) fn misfit(place: usize, word: &[u8], cause: AsmCause) -> WordFault {
    if is_odd(word) {
        AsmCause::Token.at(place)
    } else {
        cause.at(place)
    }
}

/// The last eight bytes with a number and a target.
fn tail_with<'a>(number: u32, target: u32, label: Option<&'a [u8]>) -> Tail<'a>
    ensures { tail_value result
        ≡ tail number target (option_map (λ name. name.now) label.entry) }
{
    let bytes = InstrBytes::numbers(number, target);
    Tail { bytes, label }
}

/// The last eight bytes with a number and a target, which is a number or the name of a label, in this
/// place of its line.
fn tail_to<'a>(number: u32, place: usize, target: &'a [u8]) -> Result<Tail<'a>, WordFault>
    ensures { option_map tail_value (result_ok result) ≡ tail_to number target.now }
{
    if is_name(target) {
        Ok(tail_with(number, 0, Some(target)))
    } else {
        Ok(tail_with(number, number_operand(place, target)?, None))
    }
}

/// The last eight bytes with the registers of at most eight handles, of which the first is this word of
/// its line.
fn handles<'a>(first: usize, words: &[&'a [u8]]) -> Result<Tail<'a>, WordFault>
    ensures { option_map tail_value (result_ok result) ≡ tail_of ending.Handles (texts words.now) }
{
    if words.len() > HandleList::MOST {
        return Err(AsmCause::Operand.alone());
    }
    let mut bytes = [HandleList::NONE; HandleList::MOST];
    put_registers(&mut bytes, first, words)?;
    Ok(Tail { bytes, label: None })
}

/// The last eight bytes by the operands behind the registers, of which the first is this word of its line.
#[tactic(auto, unfolding(crate::specs::Lines::tail_of))]
fn tail_of<'a>(ending: Ending, first: usize, operands: &[&'a [u8]]) -> Result<Tail<'a>, WordFault>
    ensures { option_map tail_value (result_ok result) ≡ tail_of ending (texts operands.now) }
{
    match (ending, operands) {
        (Ending::Nothing, []) => Ok(tail_with(0, 0, None)),
        (Ending::Number | Ending::Room | Ending::FromSlots | Ending::IntoSlots, [imm]) => {
            Ok(tail_with(number_operand(first, imm)?, 0, None))
        }
        (Ending::Target, [target]) => tail_to(0, first, target),
        (Ending::Both, [imm, target]) => tail_to(
            number_operand(first, imm)?,
            first.saturating_add(2),
            target,
        ),
        (Ending::Handles, registers) => handles(first, registers),
        _ => Err(AsmCause::Operand.alone()),
    }
}

/// What a text has behind the registers of an instruction of the row: a rep and an endrep are written
/// without their targets.
///
/// Source: own profile.
pub fn written(row: &Row) -> Ending
    ensures { result ≡ written (row_value row.now) }
{
    if Version::One.knows(row.opcode) {
        return row.columns.ending;
    }
    match row.columns.ending {
        Ending::Both => Ending::Number,
        Ending::Target => Ending::Nothing,
        ending => ending,
    }
}

/// The instruction of the row with these operands, its registers first.
#[tactic(auto, unfolding(crate::specs::Lines::source_of))]
pub(crate) fn source_of<'a>(row: &Row, operands: &[&'a [u8]]) -> Result<Source<'a>, WordFault>
    requires { length row.now.columns.now.fields.now ≤ most_registers }
    ensures { option_map source_value (result_ok result)
        ≡ source_of (row_value row.now) (texts operands.now) }
{
    let count = row.registers();
    if operands.len() < count {
        return Err(AsmCause::Operand.alone());
    }
    let (registers, rest) = operands.split_at(count);
    let mut places = [0; InstrBytes::REGISTERS];
    put_registers(&mut places, 1, registers)?;
    let tail = tail_of(written(row), 2 * count + 1, rest)?;
    let last = tail.bytes;
    let parts = InstrBytes {
        opcode: row.opcode,
        registers: places,
        last,
    };
    let bytes = parts.join();
    Ok(Source {
        bytes,
        label: tail.label,
    })
}
