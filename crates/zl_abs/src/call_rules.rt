//! The rule of the system calls, by the rows of the table of instructions.

ghost use Rattle.std.specs.Prelude.{◌≡◌, ◌≤◌, ◌∷◌, ◌++◌, [], Ok, Some, IsTrue, if◌then◌else◌, length, map, zip};
ghost use Rattle.std.specs.Option.{option_map};
ghost use Rattle.zl_code.specs.Asked.{is_written, listed_in, those, used};
ghost use Rattle.zl_code.specs.Instructions.{field_of};
ghost use Rattle.zl_code.specs.Limits.{most_registers};
ghost use Rattle.zl_code.specs.Refusals.{operand_by};
ghost use Rattle.zl_code.specs.Spells.{call_reading, is_call_in_range, names_registers};
ghost use Rattle.zl_abs.specs.Found.{bounds_in};
ghost use Rattle.zl_abs.specs.CallRules.{array_in, call_rule, examined_all, finished, goes_on, is_word, operands_at, operands_listed, range_in, received_in, stops, uses};
ghost use Rattle.zl_abs.specs.Changes.{left_by, ways_told};
ghost use Rattle.zl_abs.specs.Rule.{and_then, passes};

use crate::call_results::{MOST_WRITTEN, Results, values_of, with_received, written};
use crate::call_tests::{array_fault, finish};
use crate::cause::RuleFault;
use crate::change::Change;
use crate::operand::Operand;
use crate::round_up::Rounding;
use crate::state::AbsState;
use crate::value::AbsVal;
use crate::ways::Changes;
use zl_code::{CallInstr, CallName, Columns, Ending, Field, HandleList, Image, Register};

/// Examines the register by its field, and takes it where the call consumes its handle. Why it
/// can't be, if it can't.
#[tactic(auto, unfolding(crate::specs::CallRules::examined_all), using(crate::proofs::CallSteps::one_examined))]
fn examine(after: &mut AbsState, field: Field, register: Register) -> Option<RuleFault>
    ensures { left_by after.new result
        ≡ examined_all after.old (operand_by (field_of field) register) }
{
    match field {
        Field::Names(kinds, rights) => Operand::used(register, kinds, rights).examine(after),
        Field::Consumes(kinds, rights) => Operand::taken(register, kinds, rights).examine(after),
        Field::Closes => Operand::closed(register).examine(after),
        _ => None,
    }
}

/// Examines the registers by their fields, from left to right.
#[tactic(auto, using(crate::proofs::CallSteps::fields_stop, crate::proofs::CallSteps::fields_more, crate::proofs::CallSteps::fields_end))]
fn examine_fields(
    after: &mut AbsState,
    fields: &[Field],
    registers: &[Register],
) -> Option<RuleFault>
    requires { length fields.now ≤ length registers.now }
    ensures { left_by after.new result
        ≡ examined_all after.old (operands_at (map field_of fields.now) 0 registers.now) }
{
    for (place, field) in fields.iter().enumerate() {
        let fault = examine(after, *field, registers[place]);
        if fault.is_some() {
            return fault;
        }
    }
    None
}

/// Examines the registers of a list by their one field.
#[tactic(auto, using(crate::proofs::ListSteps::listed_stop))]
fn examine_list(after: &mut AbsState, field: Field, handles: HandleList) -> Option<RuleFault>
    ensures { left_by after.new result
        ≡ examined_all after.old (operands_listed (Some (field_of field)) (used handles.places)) }
{
    for place in 0..HandleList::MOST {
        let Some(register) = handles.get(place) else {
            continue;
        };
        let fault = examine(after, field, register);
        if fault.is_some() {
            return fault;
        }
    }
    None
}

/// Examines all registers of a call by its row.
#[tactic(auto, using(crate::proofs::CallSteps::stops_there, crate::proofs::CallSteps::goes_on))]
fn examine_all(after: &mut AbsState, columns: &Columns, instr: &CallInstr) -> Option<RuleFault>
    requires { length columns.now.fields.now ≤ most_registers }
    ensures { left_by after.new result ≡ examined_all after.old
        (operands_at (map field_of columns.now.fields.now) 0 instr.now.registers
        ++ operands_listed (option_map field_of columns.now.in_list)
        (listed_in columns.now.ending instr.now)) }
{
    let fault = examine_fields(after, columns.fields, &instr.registers);
    if fault.is_some() {
        return fault;
    }
    let Some(field) = columns.in_list else {
        return None;
    };
    match columns.ending {
        Ending::Handles => examine_list(after, field, instr.handles()),
        _ => None,
    }
}

/// Ends a call whose operands and slot array passed, and left `after` of the state. Its destinations
/// among the registers get these values. Why it can't be answered, if it can't.
fn finish_with(
    image: &Image,
    state: &AbsState,
    after: &mut AbsState,
    columns: &Columns,
    instr: &CallInstr,
    values: &[AbsVal],
) -> Option<RuleFault>
    requires few { length columns.now.fields.now ≤ most_registers }
    requires room { IsTrue (names_registers columns.now.ending (call_reading instr.now)) }
    requires values { length values.now ≡ most_registers }
    ensures { left_by after.new result ≡ finished image.now state.now after.old
        (uses [] (those is_word (map field_of columns.now.fields.now) 0 instr.now.registers)
        (range_in columns.now.ending instr.now.registers) (array_in columns.now.ending instr.now)
        columns.now.condition
        (zip (those is_written (map field_of columns.now.fields.now) 0 instr.now.registers) values.now
        ++ received_in columns.now.ending instr.now)) }
{
    if let Ending::Room = columns.ending {
        let results = with_received(columns.fields, instr, values);
        return finish(image, state, after, columns, instr, results.all());
    }
    let results: Results<MOST_WRITTEN> = written(columns.fields, &instr.registers, values);
    finish(image, state, after, columns, instr, results.all())
}

/// The edges that are followed from the call of this name that left this state, if nothing is at
/// fault.
fn ended(after: &AbsState, name: CallName, fault: Option<RuleFault>) -> Result<Changes, RuleFault>
    ensures { ways_told after.now result ≡ and_then (left_by after.now fault)
        (λ t. Ok (if goes_on name then passes t else stops)) }
{
    if let Some(fault) = fault {
        return Err(fault);
    }
    match name {
        CallName::ProcessExit => Ok(Changes::stopping(after)),
        _ => Ok(Changes::passing(after, Change::Same)),
    }
}

/// The edges that are followed from the call, or why its rule doesn't hold.
pub(crate) fn call_rule(
    bounds: Rounding<'_>,
    image: &Image,
    instr: CallInstr,
    state: &AbsState,
    after: &mut AbsState,
) -> Result<Changes, RuleFault>
    requires in_range { IsTrue (is_call_in_range instr) }
    requires same { after.old ≡ state.now }
    ensures { ways_told after.new result
        ≡ call_rule (bounds_in bounds.entry) image.now instr state.now }
{
    let columns = instr.name.row().columns;
    if let Some(fault) = examine_all(after, columns, &instr) {
        return Err(fault);
    }
    if let Some(cause) = array_fault(image, columns.ending, &instr) {
        return Err(cause.alone());
    }
    let values = values_of(bounds, state, &instr);
    let fault = finish_with(image, state, after, columns, &instr, &values);
    ended(after, instr.name, fault)
}
