//! What an instruction names: the registers that it reads, writes or takes, and all of them where it
//! may go elsewhere than on to the next one.

ghost use Rattle.std.specs.Prelude.{◌≡◌, ◌≤◌, ◌==◌, ◌||◌, false, true, length};
ghost use Rattle.zl_code.specs.Limits.{most_registers};
ghost use Rattle.zl_abs.specs.CallRules.{goes_on};
ghost use Rattle.zl_verify.specs.Handing.{CallKeeps, Keeps, hands_on, is_in_triples, is_listed, is_named_by, is_one, is_received};

use zl_code::{CallInstr, CallName, Columns, Ending, Image, LocalInstr, Register};

fn is_it(register: Register, other: Register) -> bool
    ensures { result ≡ (register == other) }
{
    register.number() == other.number()
}

/// Whether the local instruction writes or takes the register, or may go elsewhere than on.
fn is_written(local: &LocalInstr, register: Register) -> bool
    ensures { result ≡ false → hands_on local.now register ≡ true }
{
    match local {
        LocalInstr::Const { destination, .. } => is_it(*destination, register),
        LocalInstr::Move { destination, .. } => is_it(*destination, register),
        LocalInstr::Add { destination, .. } => is_it(*destination, register),
        LocalInstr::AddNumber { destination, .. } => is_it(*destination, register),
        LocalInstr::Subtract { destination, .. } => is_it(*destination, register),
        LocalInstr::And { destination, .. } => is_it(*destination, register),
        LocalInstr::Or { destination, .. } => is_it(*destination, register),
        LocalInstr::Xor { destination, .. } => is_it(*destination, register),
        LocalInstr::ShiftLeft { destination, .. } => is_it(*destination, register),
        LocalInstr::ShiftRight { destination, .. } => is_it(*destination, register),
        LocalInstr::Swap {
            register: exchanged,
            ..
        } => is_it(*exchanged, register),
        LocalInstr::LoadByte { destination, .. } => is_it(*destination, register),
        LocalInstr::LoadWord { destination, .. } => is_it(*destination, register),
        LocalInstr::StoreByte { .. } => false,
        LocalInstr::StoreWord { .. } => false,
        LocalInstr::Rep { .. } => false,
        _ => true,
    }
}

fn is_either(first: Register, second: Register, register: Register) -> bool {
    is_it(first, register) || is_it(second, register)
}

/// Whether the local instruction reads the register, where it is none that names all of them.
fn is_read(local: &LocalInstr, register: Register) -> bool {
    match local {
        LocalInstr::Move { source, .. } => is_it(*source, register),
        LocalInstr::Add { left, right, .. } => is_either(*left, *right, register),
        LocalInstr::AddNumber { left, .. } => is_it(*left, register),
        LocalInstr::Subtract { left, right, .. } => is_either(*left, *right, register),
        LocalInstr::And { left, right, .. } => is_either(*left, *right, register),
        LocalInstr::Or { left, right, .. } => is_either(*left, *right, register),
        LocalInstr::Xor { left, right, .. } => is_either(*left, *right, register),
        LocalInstr::ShiftLeft { source, .. } => is_it(*source, register),
        LocalInstr::ShiftRight { source, .. } => is_it(*source, register),
        LocalInstr::Swap { place, .. } => is_it(*place, register),
        LocalInstr::LoadByte { base, .. } => is_it(*base, register),
        LocalInstr::LoadWord { base, .. } => is_it(*base, register),
        LocalInstr::StoreByte { base, source, .. } => is_either(*base, *source, register),
        LocalInstr::StoreWord { base, source, .. } => is_either(*base, *source, register),
        _ => false,
    }
}

/// Whether the local instruction names the register, or may go elsewhere than on.
fn is_named_in_local(local: &LocalInstr, register: Register) -> bool
    ensures { result ≡ false → hands_on local.now register ≡ true }
{
    if is_written(local, register) {
        return true;
    }
    is_read(local, register)
}

/// Whether it is one of these registers.
fn is_among(registers: &[Register], register: Register) -> bool
    ensures { result ≡ is_one register registers.now }
{
    registers.iter().any(|other| is_it(*other, register))
}

/// Whether it is one of so many triples of registers behind the first.
fn is_in_triples(first: Register, triples: u32, register: Register) -> bool
    ensures { result ≡ is_in_triples first triples register }
{
    let first = u64::from(first.number());
    let number = u64::from(register.number());
    first <= number && number < first + 3 * u64::from(triples)
}

/// Whether one of the places has the register.
fn is_in_list(places: &[u8], register: Register) -> bool
    ensures { result ≡ is_one register places.now }
{
    places.iter().any(|place| *place == register.number())
}

/// Whether the call names the register in its last eight bytes.
fn is_behind(ending: Ending, call: &CallInstr, register: Register) -> bool
    ensures { result
        ≡ (is_listed ending call.now register || is_received ending call.now register) }
{
    match ending {
        Ending::Handles => is_in_list(&call.last, register),
        Ending::Room => is_in_triples(call.registers[6], call.number(), register),
        _ => false,
    }
}

/// Whether the call names the register, by its row.
fn is_named_by(columns: &Columns, call: &CallInstr, register: Register) -> bool
    requires { length columns.now.fields.now ≤ most_registers }
    ensures value { result
        ≡ is_named_by (length columns.now.fields.now) columns.now.ending call.now register }
    ensures wide { length columns.now.fields.now ≤ length call.now.registers }
{
    is_among(&call.registers[..columns.fields.len()], register)
        || is_behind(columns.ending, call, register)
}

/// Whether the process goes on behind the call, if it is answered.
fn goes_on(name: CallName) -> bool
    ensures { result ≡ goes_on name }
{
    match name {
        CallName::ProcessExit => false,
        _ => true,
    }
}

/// Whether the call names the register, or is the exit.
fn is_named_in_call(call: &CallInstr, register: Register) -> bool
    ensures { result ≡ false → CallKeeps call.now register }
{
    if !goes_on(call.name) {
        return true;
    }
    is_named_by(call.name.row().columns, call, register)
}

/// Whether the instruction of this number names the register.
pub(crate) fn is_named(image: &Image, place: usize, register: Register) -> bool
    ensures { result ≡ false → Keeps image.now register place }
{
    if let Some(local) = image.local_at(place) {
        return is_named_in_local(&local, register);
    }
    if let Some(call) = image.call_at(place) {
        return is_named_in_call(&call, register);
    }
    true
}
