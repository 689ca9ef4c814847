//! What stands next for a Cpu in its program: a system call, or a local instruction, done here.

ghost use Rattle.std.specs.Prelude.{◌≡◌, ◌≢◌, ◌<◌, ◌≤◌, true, false, length, slice_get, None, IfSome, IfNone, OnSome};
ghost use Rattle.zl_code.specs.Asked.{array_in, has_its_memory, has_places, is_range_there};
ghost use Rattle.zl_code.specs.Instructions.{call_row};
ghost use Rattle.zl_code.specs.Limits.{most_instructions};
ghost use Rattle.zl_code.specs.Local.{goes_to, local_effect};
ghost use Rattle.zl_code.specs.Steps.{IsStuck, Moves, moves, next_at, next_of};
ghost use Rattle.zl_interp.specs.Bursts.{stop_at};
ghost use Rattle.zl_interp.specs.Next.{IsStuckOrCalls, StandsNext, call_here};
ghost use Rattle.zl_interp.specs.Program.{program_value};

use crate::bursts::Stop;
use crate::cpu::Cpu;
use crate::program::Program;
use crate::running::{can_run, run, run_sure};
use zl_code::{CallInstr, Ending, Instr, LocalInstr};

/// The call that stands next for the Cpu, if one does.
///
/// None does where the counter is outside the code, where a local instruction or an unknown one
/// stands there, and at a call whose range of memory or slot array isn't there. Own profile.
pub fn call_at(program: &Program, cpu: &Cpu) -> Option<CallInstr>
    ensures found { IfSome result (StandsNext (program_value program.now).image cpu.now) }
    ensures missing { IfNone result
        (call_here (next_at (program_value program.now).image cpu.now) ≡ None) }
    ensures within { OnSome result (cpu.now.counter < most_instructions) }
{
    let call = program.image().call_at(cpu.counter())?;
    if has_its_memory(&call, cpu) {
        Some(call)
    } else {
        None
    }
}

/// Whether the memory and the slots that the call names are there; most calls name none.
///
/// Own profile.
#[inline(always)]
pub fn has_its_memory(call: &CallInstr, cpu: &Cpu) -> bool
    ensures { result ≡ has_its_memory (call_row call.now.name).ending call.now cpu.now }
{
    match call.name.row().columns.ending {
        Ending::Room | Ending::Handles => has_range(call, cpu),
        Ending::FromSlots => {
            has_range(call, cpu) && has_places(call, cpu, cpu.register(call.registers[4]))
        }
        Ending::IntoSlots => has_range(call, cpu) && has_places(call, cpu, 0),
        _ => true,
    }
}

/// Whether the range of memory is there that the third and the fourth register name.
#[inline(always)]
fn has_range(call: &CallInstr, cpu: &Cpu) -> bool
    ensures { result ≡ is_range_there call.now cpu.now }
{
    let address = cpu.register(call.registers[2]);
    let count = cpu.register(call.registers[3]);
    cpu.bytes(address, count).is_some()
}

/// Whether the slot array that the call names is there, and has so many places.
fn has_places(call: &CallInstr, cpu: &Cpu, count: u64) -> bool
    ensures { result ≡ has_places count (array_in call.now cpu.now) }
{
    match cpu.places(call.number()) {
        Some(places) => count <= places.len() as u64,
        None => false,
    }
}

/// Does the local instruction that stands next for the Cpu.
///
/// `None`, and nothing changes, where none does or where it can't be done: unless a call stands
/// next, the process is stuck then. Where that isn't tested, it isn't stuck. Own profile.
#[inline(always)]
pub fn local_step<const TESTED: bool>(program: &Program, cpu: &mut Cpu) -> Option<()>
    requires sure { TESTED ≡ false
        → next_at (program_value program.now).image cpu.old ≢ IsStuck }
    ensures moves { OnSome result
        (next_at (program_value program.now).image cpu.old ≡ Moves cpu.new) }
    ensures stuck { IfNone result
        (IsStuckOrCalls (next_at (program_value program.now).image cpu.old)) }
    ensures unchanged { IfNone result (cpu.new ≡ cpu.old) }
{
    let local = local_at(program, cpu)?;
    let counter = cpu.counter;
    cpu.counter = run::<TESTED>(cpu, counter, &local)?;
    Some(())
}

/// Does the local instruction of this number in the code, as `local_step` does, and says which is next.
///
/// The counter of the Cpu itself stays as it is.
#[inline(always)]
pub fn step_in(code: &[Instr], cpu: &mut Cpu, counter: usize) -> Option<usize>
    requires few { length code.now ≤ most_instructions }
    ensures moves { IfSome result (λ next.
        next_of (slice_get code.now counter) (goes_to cpu.old counter)
        ≡ Moves (goes_to cpu.new next)) }
    ensures stuck { IfNone result
        (IsStuckOrCalls (next_of (slice_get code.now counter) (goes_to cpu.old counter))) }
    ensures unchanged { IfNone result (cpu.new ≡ cpu.old) }
{
    match code.get(counter) {
        Some(Instr::Local(local)) => run::<true>(cpu, counter, local),
        _ => None,
    }
}

/// Does the same for a Cpu that isn't stuck: only a call can stand next in place of a local
/// instruction, which can be done then. Nothing else is tested.
#[inline(always)]
pub fn step_sure(code: &[Instr], cpu: &mut Cpu, counter: usize) -> Option<usize>
    requires few { length code.now ≤ most_instructions }
    requires sure { next_of (slice_get code.now counter) (goes_to cpu.old counter) ≢ IsStuck }
    ensures moves { IfSome result (λ next.
        next_of (slice_get code.now counter) (goes_to cpu.old counter)
        ≡ Moves (goes_to cpu.new next)) }
    ensures calls { IfNone result
        (IsStuckOrCalls (next_of (slice_get code.now counter) (goes_to cpu.old counter))) }
    ensures unchanged { IfNone result (cpu.new ≡ cpu.old) }
{
    match &code[counter] {
        Instr::Local(local) => Some(run_sure(cpu, counter, local)),
        Instr::Call(_) => None,
        Instr::Unknown(_) => unreachable!(),
    }
}

/// The local instruction that stands next for the Cpu, if one does, be it possible or not.
#[inline(always)]
fn local_at(program: &Program, cpu: &Cpu) -> Option<LocalInstr>
    ensures found { IfSome result (λ local. next_at (program_value program.now).image cpu.now
        ≡ moves (local_effect local cpu.now)) }
    ensures missing { IfNone result
        (IsStuckOrCalls (next_at (program_value program.now).image cpu.now)) }
    ensures within { OnSome result (cpu.now.counter < most_instructions) }
{
    program.image().local_at(cpu.counter())
}

/// Where instructions in a row end with this Cpu.
pub fn stop_of(program: &Program, cpu: &Cpu) -> Stop
    ensures { result ≡ stop_at (next_at (program_value program.now).image cpu.now) }
{
    if call_at(program, cpu).is_some() {
        return Stop::AtCall;
    }
    match local_at(program, cpu) {
        Some(local) if can_run(cpu, &local) => Stop::More,
        _ => Stop::Stuck,
    }
}
