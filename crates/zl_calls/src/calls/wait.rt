//! Calls that look at the signals of an object.

ghost use Rattle.std.specs.Prelude.{◌≡◌, ◌<◌, ◌^◌, false, [], ◌∷◌, IsOk};
ghost use Rattle.zl_rights.specs.LookUp.{looked_up};
ghost use Rattle.zl_rights.specs.Numbers.{WAIT, WRITE};
ghost use Rattle.zl_code.specs.Request.{site_of};
ghost use Rattle.zl_code.specs.declared.history.CallName.TheVariants as name;
ghost use Rattle.zl_calls.specs.Acted.{Acted};
ghost use Rattle.zl_calls.specs.Sure.{IsFaultless};
ghost use Rattle.zl_calls.specs.calls.Async.{WaitAsyncDoes};
ghost use Rattle.zl_calls.specs.calls.Wait.{polled_at, watched_at};

use crate::calls::handle::live_at;
use crate::calls::look_up;
use crate::process::{Process, State};
use bitflags::Flags;
use zl_code::{CallInstr, Outcome};
use zl_objects::{Awaited, Objects, Wait};
use zl_rights::{Kind, Koid, Pid, Rights, Signals, Status};
use zl_table::Table;

/// An object at which a call looks for signals of a mask, and the signals that are active there.
#[derive(Clone, Copy)]
pub struct Watched {
    pub koid: Koid,
    pub mask: Signals,
    pub active: Signals,
}

/// Why no signal of the mask was found.
#[derive(Clone, Copy)]
pub enum PollFault {
    /// None of them is active, but these signals are.
    TimedOut(Signals),
    Refused(Status),
}

/// The object of the handle at the value, with the mask and with what is active there.
///
/// `BadHandle`, `AccessDenied` without the right to wait, `InvalidArgs` for a mask of more than 32
/// bits.
pub fn watch<const TESTED: bool>(
    table: &Table,
    objects: &Objects,
    value: u64,
    mask: u64,
) -> Result<Watched, Status>
    requires sure { TESTED ≡ false → IsOk (looked_up table.now.entries value [] WAIT) }
    ensures { result ≡ watched_at table.now.entries objects.now.objects value mask }
{
    let entry = look_up::<TESTED>(table, value, &[], Rights::WAIT)?;
    let Ok(mask) = u32::try_from(mask) else {
        return Err(Status::InvalidArgs);
    };
    Ok(Watched {
        koid: entry.koid,
        mask: Signals::from_bits_retain(mask),
        active: objects.signals_of(entry.koid),
    })
}

/// The signals that are active at the object, if one of the mask is among them. It waits for none,
/// and changes nothing.
///
/// `BadHandle`, `AccessDenied` without the right to wait, `InvalidArgs` for a mask of more than 32
/// bits; `TimedOut`, with the active signals, where none of the mask is among them.
/// Source: the page "zx_object_wait_one" of the Fuchsia documentation, with a deadline of 0.
pub fn wait_poll<const TESTED: bool>(
    table: &Table,
    objects: &Objects,
    value: u64,
    mask: u64,
) -> Result<Signals, PollFault>
    requires sure { TESTED ≡ false → IsOk (looked_up table.now.entries value [] WAIT) }
    ensures { result ≡ polled_at table.now.entries objects.now.objects value mask }
{
    match watch::<TESTED>(table, objects, value, mask) {
        Ok(watched) => {
            if watched.active.intersects(watched.mask) {
                Ok(watched.active)
            } else {
                Err(PollFault::TimedOut(watched.active))
            }
        }
        Err(refused) => Err(PollFault::Refused(refused)),
    }
}

/// Does `wait_one` at its registers: it is answered with the active signals, if one of the mask is
/// among them, and else the process blocks until one is.
///
/// `BadHandle`, `AccessDenied` without the right to wait, `InvalidArgs` for a mask of more than 32
/// bits. It takes no memory.
/// Source: the page "zx_object_wait_one" of the Fuchsia documentation, without a deadline.
#[tactic(auto, unfolding(zl_code::specs::Request::site_of))]
pub fn wait_one<const TESTED: bool>(
    process: &mut Process,
    objects: &Objects,
    call: &CallInstr,
) -> Outcome
    requires counter { process.old.cpu.counter < 2 ^ 32 }
    requires name { call.now.name ≡ name.WaitOne }
    requires sure { TESTED ≡ false
        → IsFaultless process.old.table.entries (site_of call.now process.old.cpu) }
    ensures { Acted (site_of call.now process.old.cpu)
        process.old objects.now result process.new objects.now }
{
    let registers = call.registers;
    let [_, handle, mask, ..] = registers;
    let value = process.cpu.register(handle);
    let mask = process.cpu.register(mask);
    let watched = match watch::<TESTED>(&process.table, objects, value, mask) {
        Ok(watched) => watched,
        Err(refused) => {
            let answer = Err(PollFault::Refused(refused));
            return process.answer_polled(registers, answer);
        }
    };
    if watched.active.intersects(watched.mask) {
        return process.answer_polled(registers, Ok(watched.active));
    }
    let awaited = Awaited::SignalOf {
        koid: watched.koid,
        mask,
    };
    process.state = State::Blocked { awaited, registers };
    Outcome::Blocked
}

/// Registers a wait at the object of the handle: as soon as a signal of the mask is active there, a
/// packet with the key goes to the port at the value `port`, and the wait is over. A place for the
/// packet is reserved at once, and a signal that is active already counts too.
///
/// `BadHandle`, `AccessDenied` without the right to wait; for the port `BadHandle`, `WrongType` for
/// what is no port, `AccessDenied` without the right to write; `InvalidArgs` for a mask of more than
/// 32 bits; `NoResources` where 2^62 waits were registered; `NoMemory`.
/// Source: the page "zx_object_wait_async" of the Fuchsia documentation; the limit is own profile.
pub fn wait_async<const TESTED: bool>(
    table: &Table,
    objects: &mut Objects,
    pid: Pid,
    handle: u64,
    port: u64,
    key: u64,
    mask: u64,
) -> Result<(), Status>
    requires handle { TESTED ≡ false → IsOk (looked_up table.now.entries handle [] WAIT) }
    requires port { TESTED ≡ false
        → IsOk (looked_up table.now.entries port (Kind.Port ∷ []) WRITE) }
    ensures { WaitAsyncDoes pid handle port key mask
        table.now objects.old result table.now objects.new }
{
    let watched = look_up::<TESTED>(table, handle, &[], Rights::WAIT)?;
    let receiver = look_up::<TESTED>(table, port, &[Kind::Port], Rights::WRITE)?;
    let Some((value, _)) = live_at::<TESTED>(table, handle) else {
        return Err(Status::BadHandle);
    };
    let Ok(bits) = u32::try_from(mask) else {
        return Err(Status::InvalidArgs);
    };
    if !objects.may_register() {
        return Err(Status::NoResources);
    }
    // What a handle names is there; this shows it to the prover.
    if objects.kind_of(watched.koid).is_none() || !objects.is_port(receiver.koid) {
        return Err(Status::NoMemory);
    }
    let wait = Wait {
        pid,
        value,
        object: watched.koid,
        port: receiver.koid,
        key,
        mask: Signals::from_bits_retain(bits),
    };
    match objects.watch(wait) {
        Ok(()) => Ok(()),
        Err(_) => Err(Status::NoMemory),
    }
}
