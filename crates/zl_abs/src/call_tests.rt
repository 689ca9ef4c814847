//! The tests of a call, by what it uses, and what an answer writes.

ghost use Rattle.std.specs.Prelude.{◌≡◌, ◌≤◌, ◌&&◌, ◌||◌, [], is_some, length, map, not, slice_get};
ghost use Rattle.zl_code.specs.Asked.{those};
ghost use Rattle.zl_code.specs.Instructions.{field_of};
ghost use Rattle.zl_code.specs.Limits.{most_registers};
ghost use Rattle.std.specs.Option.{is_none};
ghost use Rattle.zl_abs.specs.CallRules.{answers, are_distinct, are_words, array_fault, array_in, cannot_keep, cannot_send, count_fits, finished, has_one, is_declared, is_result, is_word, range_fits, range_in, uses};
ghost use Rattle.zl_abs.specs.Changes.{left_by};
ghost use Rattle.zl_abs.specs.States.{bound_at};

use crate::cause::{Cause, RuleFault, Wanted};
use crate::state::AbsState;
use crate::value::{AbsVal, is_register};
use bitflags::Flags;
use zl_code::{CallInstr, Columns, Ending, Field, Image, Register};
use zl_rights::{Condition, Rights};

/// Whether the register holds a word, if the call reads one there.
fn is_read(state: &AbsState, field: &Field, register: Register) -> bool
    ensures { result
        ≡ (not (is_word (field_of field.now)) || is_some (bound_at state.now register)) }
{
    !matches!(field, Field::Reads) || state.get(register).bound().is_some()
}

/// The first register that holds no word where the call reads one.
#[tactic(auto, using(crate::proofs::CallSteps::words_stop, crate::proofs::CallSteps::words_more, crate::proofs::CallSteps::words_end))]
fn first_without_word(
    state: &AbsState,
    fields: &[Field],
    registers: &[Register],
) -> Option<Register>
    requires { length fields.now ≤ length registers.now }
    ensures { is_none result ≡ are_words state.now (those is_word (map field_of fields.now) 0 registers.now) }
{
    for (place, field) in fields.iter().enumerate() {
        if !is_read(state, field, registers[place]) {
            return Some(registers[place]);
        }
    }
    None
}

/// Whether the address and the length in the third and the fourth register lie in the memory,
/// where the call has them.
fn is_range_there(image: &Image, state: &AbsState, ending: Ending, registers: &[Register]) -> bool
    requires { length registers.now ≡ most_registers }
    ensures { result ≡ range_fits image.now state.now (range_in ending registers.now) }
{
    if !matches!(
        ending,
        Ending::Room | Ending::Handles | Ending::FromSlots | Ending::IntoSlots
    ) {
        return true;
    }
    let Some(address) = state.get(registers[2]).bound() else {
        return false;
    };
    let Some(length) = state.get(registers[3]).bound() else {
        return false;
    };
    address.saturating_add(length) <= u64::from(image.memory())
}

/// Why handles can't be sent from the slot array of this number, if they can't.
fn cannot_send(image: &Image, array: u32) -> Option<Cause>
    ensures { result ≡ cannot_send (slice_get image.now.slots array) }
{
    let Some(array) = image.slots().get(array as usize) else {
        return Some(Cause::IllegalOp);
    };
    if Rights::TRANSFER.within(array.rights) {
        None
    } else {
        Some(Cause::LacksRight)
    }
}

/// Why handles of which nothing is known can't be put into the slot array of this number, if they
/// can't.
fn cannot_keep(image: &Image, array: u32) -> Option<Cause>
    ensures { result ≡ cannot_keep (slice_get image.now.slots array) }
{
    let Some(array) = image.slots().get(array as usize) else {
        return Some(Cause::IllegalOp);
    };
    if array.kind.is_some() {
        Some(Cause::WrongKind)
    } else if array.rights.bits() == 0 {
        None
    } else {
        Some(Cause::LacksRight)
    }
}

/// Why the slot array can't be that of the call, if it can't.
pub(crate) fn array_fault(image: &Image, ending: Ending, instr: &CallInstr) -> Option<Cause>
    ensures { result ≡ array_fault image.now (array_in ending instr.now) }
{
    match ending {
        Ending::FromSlots => cannot_send(image, instr.number()),
        Ending::IntoSlots => cannot_keep(image, instr.number()),
        _ => None,
    }
}

/// Whether the slot array has as many places as the fifth register says, where the call sends
/// handles of them.
fn is_count_there(image: &Image, state: &AbsState, ending: Ending, instr: &CallInstr) -> bool
    ensures { result ≡ count_fits image.now state.now (array_in ending instr.now) }
{
    if !matches!(ending, Ending::FromSlots) {
        return true;
    }
    let Some(array) = image.slots().get(instr.number() as usize) else {
        return false;
    };
    let Some(count) = state.get(instr.registers[4]).bound() else {
        return false;
    };
    count <= u64::from(array.length)
}

/// Whether the range of memory and the places of the slot array are there, where the call has them.
fn is_all_there(image: &Image, state: &AbsState, ending: Ending, instr: &CallInstr) -> bool
    ensures { result ≡ (range_fits image.now state.now (range_in ending instr.now.registers)
        && count_fits image.now state.now (array_in ending instr.now)) }
{
    is_range_there(image, state, ending, &instr.registers)
        && is_count_there(image, state, ending, instr)
}

/// Whether the program declares that it needs to make such objects, where the call makes one.
fn is_declared(image: &Image, condition: Option<Condition>) -> bool
    ensures { result ≡ is_declared image.now condition }
{
    match condition {
        Some(condition) => image.needs(condition),
        None => true,
    }
}

/// Whether the register is one of those that get something.
fn is_result(results: &[(Register, AbsVal)], register: Register) -> bool
    ensures { result ≡ is_result results.now register }
{
    results
        .iter()
        .any(|(other, _)| is_register(*other, register))
}

/// Whether no register gets two results.
fn are_distinct(results: &[(Register, AbsVal)]) -> bool
    ensures { result ≡ are_distinct results.now }
{
    for (i, (register, _)) in results.iter().enumerate() {
        if is_result(&results[i + 1..], *register) {
            return false;
        }
    }
    true
}

/// The first of the registers that has a handle, or may have one.
fn first_handle(state: &AbsState, results: &[(Register, AbsVal)]) -> Option<Register>
    ensures { is_some result ≡ has_one state.now results.now }
{
    let found = results
        .iter()
        .find(|(register, _)| state.get(*register).is_has());
    match found {
        Some((register, _)) => Some(*register),
        None => None,
    }
}

/// Writes the destinations. Why they can't be written, if they can't.
fn answer(after: &mut AbsState, results: &[(Register, AbsVal)]) -> Option<RuleFault>
    ensures { left_by after.new result ≡ answers after.old results.now }
{
    if !are_distinct(results) {
        return Some(Cause::IllegalOp.alone());
    }
    if let Some(register) = first_handle(after, results) {
        return Some(Cause::Leak.of(register, Wanted::Room));
    }
    after.write_all(results);
    None
}

/// Ends a call whose operands and slot array passed, and left `after` of the state. Why it can't be
/// answered, if it can't.
pub(crate) fn finish(
    image: &Image,
    state: &AbsState,
    after: &mut AbsState,
    columns: &Columns,
    instr: &CallInstr,
    results: &[(Register, AbsVal)],
) -> Option<RuleFault>
    requires { length columns.now.fields.now ≤ most_registers }
    ensures { left_by after.new result ≡ finished image.now state.now after.old
        (uses [] (those is_word (map field_of columns.now.fields.now) 0 instr.now.registers)
        (range_in columns.now.ending instr.now.registers) (array_in columns.now.ending instr.now)
        columns.now.condition results.now) }
{
    if let Some(register) = first_without_word(state, columns.fields, &instr.registers) {
        return Some(Cause::NotWord.of(register, Wanted::Number));
    }
    if !is_all_there(image, state, columns.ending, instr) {
        Some(Cause::MemoryRange.alone())
    } else if !is_declared(image, columns.condition) {
        Some(Cause::UndeclaredNeed.alone())
    } else {
        answer(after, results)
    }
}
