//! Calls on ports.

ghost use Rattle.std.specs.Prelude.{◌≡◌, ◌<◌, ◌^◌, false, [], ◌∷◌, IsOk, IsTrue};
ghost use Rattle.zl_rights.specs.LookUp.{looked_up};
ghost use Rattle.zl_rights.specs.Map.{has_key};
ghost use Rattle.zl_rights.specs.Numbers.{READ, WRITE};
ghost use Rattle.zl_code.specs.Request.{site_of};
ghost use Rattle.zl_code.specs.declared.history.CallName.TheVariants as name;
ghost use Rattle.zl_calls.specs.Acted.{Acted};
ghost use Rattle.zl_calls.specs.Calling.{OwnWaits};
ghost use Rattle.zl_calls.specs.Sure.{IsFaultless};
ghost use Rattle.zl_calls.specs.calls.Async.{PortCancelDoes};
ghost use Rattle.zl_calls.specs.calls.Port.{PortCreateDoes, PortPollDoes, PortQueueDoes};

use crate::calls::handle::live_at;
use crate::calls::{check_room, look_up, make_object};
use crate::process::{Process, State};
use crate::waits::cancel_waits;
use zl_code::{CallInstr, Outcome};
use zl_objects::{Awaited, Objects};
use zl_port::{Packet, QueueFault, Source};
use zl_rights::{HValue, Kind, Koid, Pid, Rights, Status};
use zl_table::Table;

/// Makes a port without packets, with a handle that has the default rights.
///
/// `NoResources` where the table is full or no koid is left, `NoMemory`.
/// Source: the page "zx_port_create" of the Fuchsia documentation.
pub fn port_create(table: &mut Table, objects: &mut Objects) -> Result<HValue, Status>
    ensures { PortCreateDoes table.old objects.old result table.new objects.new }
{
    check_room(table, objects)?;
    let port = objects.new_port();
    make_object(table, objects, port)
}

/// Queues a packet with the key and the word at the port at the value `port`: it goes behind all
/// others.
///
/// `BadHandle`, `WrongType` for what is no port, `AccessDenied` without the right to write;
/// `ShouldWait` where calls have queued as many packets as the port takes of them; `NoMemory`.
/// Source: the page "zx_port_queue" of the Fuchsia documentation; the limit is own profile.
pub fn port_queue<const TESTED: bool>(
    table: &Table,
    objects: &mut Objects,
    port: u64,
    key: u64,
    value: u64,
) -> Result<(), Status>
    requires sure { TESTED ≡ false
        → IsOk (looked_up table.now.entries port (Kind.Port ∷ []) WRITE) }
    ensures { PortQueueDoes port key value
        table.now objects.old result table.now objects.new }
{
    let entry = look_up::<TESTED>(table, port, &[Kind::Port], Rights::WRITE)?;
    match objects.queue_user(entry.koid, key, value) {
        Ok(()) => Ok(()),
        Err(QueueFault::ShouldWait) => Err(Status::ShouldWait),
        Err(QueueFault::NoMemory) => Err(Status::NoMemory),
    }
}

/// Takes the first packet out of the port at the value `port`. It never waits, and it takes no
/// memory.
///
/// `BadHandle`, `WrongType` for what is no port, `AccessDenied` without the right to read;
/// `TimedOut` where no packet is there.
/// Source: the page "zx_port_wait" of the Fuchsia documentation, with a deadline that has passed.
pub fn port_poll<const TESTED: bool>(
    table: &Table,
    objects: &mut Objects,
    port: u64,
) -> Result<Packet, Status>
    requires sure { TESTED ≡ false
        → IsOk (looked_up table.now.entries port (Kind.Port ∷ []) READ) }
    ensures { PortPollDoes port table.now objects.old result table.now objects.new }
{
    let entry = look_up::<TESTED>(table, port, &[Kind::Port], Rights::READ)?;
    match objects.pop(entry.koid) {
        Some(packet) => Ok(packet),
        None => Err(Status::TimedOut),
    }
}

/// Does `port_wait` at its registers: it is answered with the first packet of the port, which it
/// takes out, and else the process blocks until one is there.
///
/// `BadHandle`, `WrongType` for what is no port, `AccessDenied` without the right to read. It takes
/// no memory.
/// Source: the page "zx_port_wait" of the Fuchsia documentation, without a deadline.
#[tactic(auto, unfolding(zl_code::specs::Request::site_of))]
pub fn port_wait<const TESTED: bool>(
    process: &mut Process,
    objects: &mut Objects,
    call: &CallInstr,
) -> Outcome
    requires counter { process.old.cpu.counter < 2 ^ 32 }
    requires name { call.now.name ≡ name.PortWait }
    requires sure { TESTED ≡ false
        → IsFaultless process.old.table.entries (site_of call.now process.old.cpu) }
    ensures { Acted (site_of call.now process.old.cpu)
        process.old objects.old result process.new objects.new }
{
    let registers = call.registers;
    let [_, port, ..] = registers;
    let value = process.cpu.register(port);
    let entry = match look_up::<TESTED>(&process.table, value, &[Kind::Port], Rights::READ) {
        Ok(entry) => entry,
        Err(refused) => return process.answer_packet(registers, Err(refused)),
    };
    match objects.pop(entry.koid) {
        Some(packet) => process.answer_packet(registers, Ok(packet)),
        None => {
            let awaited = Awaited::PacketAt(entry.koid);
            process.state = State::Blocked { awaited, registers };
            Outcome::Blocked
        }
    }
}

/// Ends the waits that the process registered by its handle `source` for a packet with the key to
/// the port at the value `port`, and takes the packets out of the port that such waits gave. It
/// takes no memory.
///
/// `BadHandle`, `WrongType` for what is no port, `AccessDenied` without the right to write; for the
/// handle `source` `BadHandle`; `NotFound` where there is no such wait and no such packet.
/// Source: the page "zx_port_cancel" of the Fuchsia documentation; which packets they are is own
/// profile.
pub fn port_cancel<const TESTED: bool>(
    table: &Table,
    objects: &mut Objects,
    pid: Pid,
    port: u64,
    source: u64,
    key: u64,
) -> Result<(), Status>
    requires port { TESTED ≡ false
        → IsOk (looked_up table.now.entries port (Kind.Port ∷ []) WRITE) }
    requires source { TESTED ≡ false → IsTrue (has_key table.now.entries source) }
    requires own { OwnWaits pid table.now.entries objects.old }
    ensures { PortCancelDoes pid port source key
        table.now objects.old result table.now objects.new }
{
    let receiver = look_up::<TESTED>(table, port, &[Kind::Port], Rights::WRITE)?;
    let Some((value, named)) = live_at::<TESTED>(table, source) else {
        return Err(Status::BadHandle);
    };
    let source = Source {
        pid,
        value,
        object: named.koid,
    };
    let cancelled = objects.cancel(receiver.koid, source, key);
    let any = cancel_waits(objects, named.koid, pid, value, receiver.koid, key);
    if !any && cancelled == 0 {
        return Err(Status::NotFound);
    }
    Ok(())
}
