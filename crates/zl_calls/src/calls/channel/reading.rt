//! The calls that read a message: what they do, and what they then write of their caller.

ghost use Rattle.std.specs.Prelude.{◌≡◌, ◌+◌, ◌<◌, ◌≤◌, ◌^◌, [], ◌∷◌, if◌then◌else◌, is_some, length, nat_lt, slice_get, true, false, IsSome, IsTrue, IfOk, IfErr, IsOk, OnErr};
ghost use Rattle.zl_rights.specs.LookUp.{looked_up};
ghost use Rattle.zl_rights.specs.Numbers.{READ, status_magnitude};
ghost use Rattle.zl_rights.specs.World.{answered, written};
ghost use Rattle.zl_code.specs.Asked.{triples_from};
ghost use Rattle.zl_code.specs.Effects.{told_of};
ghost use Rattle.zl_code.specs.Request.{site_of};
ghost use Rattle.zl_code.specs.declared.history.CallName.TheVariants as name;
ghost use Rattle.zl_objects.specs.Objects.{peer_here};
ghost use Rattle.zl_calls.specs.Acted.{Acted};
ghost use Rattle.zl_calls.specs.Sure.{IsFaultless};
ghost use Rattle.zl_calls.specs.calls.Answer.{wants_memory};
ghost use Rattle.zl_calls.specs.calls.Reading.{CameFrom, ChanReadDoes, InsertsEach, front_at, read_into, triple_of};

use crate::calls::{insert, look_up};
use crate::process::Process;
use bitflags::Flags;
use smallvec::SmallVec;
use std::alloc::Global;
use zl_channel::Message;
use zl_code::{CallInstr, Outcome, Register};
use zl_interp::{Cpu, room_for_handles};
use zl_objects::Objects;
use zl_rights::{Entry, HValue, Kind, Koid, Rights, Status};
use zl_table::Table;

/// The values of the handles in a message. As many as an instruction has room for lie in place, and
/// more of them take memory.
pub type Values = SmallVec<HValue, 8>;

/// A message that was read, and the values at which its handles are in the table.
#[derive(Drop)]
pub struct Received {
    pub message: Message,
    pub values: Values,
}

/// Why no message was read.
#[derive(Clone, Copy)]
pub enum ReadFault {
    /// The message has so many bytes and handles, and there is less room.
    TooSmall { bytes: usize, handles: usize },
    Refused(Status),
}

/// Reads the first message at the end at the value `channel`: its handles enter the table, and it
/// leaves the queue. There is room for so many bytes and for handles at so many places. Where it is
/// refused the message stays.
///
/// Of the end `BadHandle`, `WrongType` for what is no channel, `AccessDenied` without the right to
/// read; where no message is there `PeerClosed` if the peer has gone, else `ShouldWait`; `TooSmall`
/// with both sizes where there is too little room; `NoResources` where the table has no place for
/// all its handles, or none that it offers; `NoMemory`.
/// Source: the page "zx_channel_read_etc" of the Fuchsia documentation.
pub fn chan_read_etc<const TESTED: bool>(
    alloc: Global,
    table: &mut Table,
    objects: &mut Objects,
    channel: u64,
    room: u64,
    places: u32,
) -> Result<Received, ReadFault>
    requires sure { TESTED ≡ false
        → IsOk (looked_up table.old.entries channel (Kind.Channel ∷ []) READ) }
    ensures { ChanReadDoes channel room places
        table.old objects.old result table.new objects.new }
{
    let end = find_front::<TESTED>(table, objects, channel, room, places)?;
    let values = match insert_each(alloc, table, objects.front_handles(end)) {
        Ok(values) => values,
        Err(refused) => return Err(ReadFault::Refused(refused)),
    };
    let Some(message) = objects.receive(end) else {
        unreachable!()
    };
    Ok(Received { message, values })
}

/// The end whose first message can be read, or why it can't.
fn find_front<const TESTED: bool>(
    table: &Table,
    objects: &Objects,
    channel: u64,
    room: u64,
    places: u32,
) -> Result<Koid, ReadFault>
    requires sure { TESTED ≡ false
        → IsOk (looked_up table.now.entries channel (Kind.Channel ∷ []) READ) }
    ensures { result
        ≡ front_at table.now.entries objects.now.objects channel room places }
{
    let end = match look_up::<TESTED>(table, channel, &[Kind::Channel], Rights::READ) {
        Ok(entry) => entry.koid,
        Err(refused) => return Err(ReadFault::Refused(refused)),
    };
    let Some((bytes, handles)) = objects.front_sizes(end) else {
        return Err(ReadFault::Refused(why_empty(objects, end)));
    };
    if bytes as u64 > room || handles > places as usize {
        return Err(ReadFault::TooSmall { bytes, handles });
    }
    if table.len() + handles > Table::CAPACITY {
        return Err(ReadFault::Refused(Status::NoResources));
    }
    Ok(end)
}

/// The answer where no message is there: one can come while the peer is there.
fn why_empty(objects: &Objects, end: Koid) -> Status
    ensures { result ≡ (if is_some (peer_here objects.now.objects end)
        then Status.ShouldWait else Status.PeerClosed) }
{
    if objects.peer(end).is_some() {
        Status::ShouldWait
    } else {
        Status::PeerClosed
    }
}

/// The handles of a message enter the table, and their values are told. Where memory is refused for
/// one of them the table is as it was.
fn insert_each(alloc: Global, table: &mut Table, handles: &[Entry]) -> Result<Values, Status>
    ensures entered { IfOk result
        (λ values. InsertsEach table.old handles.now values.items table.new) }
    ensures refused { IfErr result
        (λ refused. IsTrue (wants_memory refused)) }
    ensures unchanged { OnErr result (table.new ≡ table.old) }
{
    let last = table.last();
    let mut values = Values::new(alloc);
    if values.reserve(handles.len()).is_err() {
        return Err(Status::NoMemory);
    }
    for handle in handles {
        let value = match insert(table, *handle) {
            Ok(value) => value,
            Err(refused) => {
                take_back(table, values.as_slice(), last);
                return Err(refused);
            }
        };
        values.push_reserved(value);
    }
    Ok(values)
}

/// Insertions at these values are taken back, the last of them first; before them `last` was the
/// value removed last, and it is again.
fn take_back(table: &mut Table, values: &[HValue], last: Option<HValue>)
    requires { CameFrom last values.now table.old }
    ensures { (from : CameFrom last values.now table.old) → table.new ≡ from.before }
{
    for n in (0..values.len()).rev() {
        let told = if n == 0 { last } else { None };
        table.undo(values[n], told);
    }
}

/// So many triples of registers, from the first on, are told of handles: value, kind and rights of
/// each. Where there is no handle they become 0.
fn tell(cpu: &mut Cpu, first: Register, places: u32, handles: &[Entry], values: &[HValue])
    ensures { cpu.new ≡ record cpu.old {
      registers = written
          cpu.old.registers (triples_from first places) (told_of handles.now values.now);
    } }
{
    let start = usize::from(first.number());
    for n in 0..places as usize {
        let [value, kind, rights] = triple(handles, values, n);
        cpu.set_number(start + 3 * n, value);
        cpu.set_number(start + 3 * n + 1, kind);
        cpu.set_number(start + 3 * n + 2, rights);
    }
}

/// What is told of the handle at place `n`; zeros where there is none.
fn triple(handles: &[Entry], values: &[HValue], n: usize) -> [u64; 3]
    ensures { result ≡ triple_of (slice_get handles.now n) (slice_get values.now n) }
{
    match (handles.get(n), values.get(n)) {
        (Some(handle), Some(value)) => [
            u64::from(*value),
            u64::from(handle.kind.number()),
            u64::from(handle.rights.bits()),
        ],
        _ => [0, 0, 0],
    }
}

impl Process {
    /// The read is answered: its registers get the status, both sizes, and what is told of these
    /// handles, and the next instruction stands next.
    #[tactic(auto, unfolding(zl_rights::specs::World::answered))]
    pub fn answer_read(
        &mut self,
        call: &CallInstr,
        answer: Status,
        bytes: usize,
        handles: usize,
        entries: &[Entry],
        values: &[HValue],
    ) -> Outcome
        requires { self.old.cpu.counter < 2 ^ 32 }
        ensures ends { result ≡ Outcome.Answered answer }
        ensures process { self.new ≡ record self.old {
          cpu = answered self.old.cpu (read_into call.now)
              (status_magnitude answer ∷ bytes ∷ handles ∷ told_of entries.now values.now);
        } }
    {
        let [status, _, _, _, size, count, first] = call.registers;
        self.cpu.set(status, u64::from(answer.magnitude()));
        self.cpu.set(size, bytes as u64);
        self.cpu.set(count, handles as u64);
        tell(&mut self.cpu, first, call.number(), entries, values);
        self.cpu.advance();
        Outcome::Answered(answer)
    }
}

/// Does `chan_read_etc` at its registers. Its room lies in the memory.
#[tactic(auto, unfolding(zl_code::specs::Request::site_of, zl_rights::specs::World::answered))]
pub fn read<const TESTED: bool>(
    alloc: Global,
    process: &mut Process,
    objects: &mut Objects,
    call: &CallInstr,
) -> Outcome
    requires counter { process.old.cpu.counter < 2 ^ 32 }
    requires name { call.now.name ≡ name.ChanReadEtc }
    requires there { IsSome (site_of call.now process.old.cpu) }
    requires sure { TESTED ≡ false
        → IsFaultless process.old.table.entries (site_of call.now process.old.cpu) }
    ensures { Acted (site_of call.now process.old.cpu)
        process.old objects.old result process.new objects.new }
{
    let [_, channel, address, room, ..] = call.registers;
    let address = process.cpu.register(address);
    let room = process.cpu.register(room);
    let channel = process.cpu.register(channel);
    let places = call.number();
    match chan_read_etc::<TESTED>(alloc, &mut process.table, objects, channel, room, places) {
        Ok(received) => {
            let bytes = &received.message.bytes;
            let sent = received.message.handles.as_slice();
            process.cpu.store(address, bytes);
            let values = received.values.as_slice();
            process.answer_read(call, Status::Ok, bytes.len(), sent.len(), sent, values)
        }
        Err(ReadFault::TooSmall { bytes, handles }) => {
            process.answer_read(call, Status::BufferTooSmall, bytes, handles, &[], &[])
        }
        Err(ReadFault::Refused(status)) => { process.answer_read(call, status, 0, 0, &[], &[]) }
    }
}

/// Does `chan_read_slots` at its registers. Its room lies in the memory, and its slot array is there:
/// the values of the handles go to the places in front, of which there are enough that are 0.
#[tactic(auto, unfolding(zl_code::specs::Request::site_of, zl_rights::specs::World::answered))]
pub fn read_slots<const TESTED: bool>(
    alloc: Global,
    process: &mut Process,
    objects: &mut Objects,
    call: &CallInstr,
) -> Outcome
    requires counter { process.old.cpu.counter < 2 ^ 32 }
    requires name { call.now.name ≡ name.ChanReadSlots }
    requires there { IsSome (site_of call.now process.old.cpu) }
    requires sure { TESTED ≡ false
        → IsFaultless process.old.table.entries (site_of call.now process.old.cpu) }
    ensures { Acted (site_of call.now process.old.cpu)
        process.old objects.old result process.new objects.new }
{
    let [status, channel, address, room, size, count, _] = call.registers;
    let array = call.number();
    let Some(slots) = process.cpu.places(array) else {
        unreachable!()
    };
    let places = room_for_handles(slots) as u32;
    let address = process.cpu.register(address);
    let room = process.cpu.register(room);
    let channel = process.cpu.register(channel);
    let to = [status, size, count];
    match chan_read_etc::<TESTED>(alloc, &mut process.table, objects, channel, room, places) {
        Ok(received) => {
            let bytes = &received.message.bytes;
            process.cpu.store(address, bytes);
            let values = received.values.as_slice();
            process.cpu.fill_places(array, values);
            let handles = received.message.handles.as_slice();
            let sizes = [bytes.len() as u64, handles.len() as u64];
            process.answered(Status::Ok, &to, &sizes)
        }
        Err(ReadFault::TooSmall { bytes, handles }) => {
            process.answered(Status::BufferTooSmall, &to, &[bytes as u64, handles as u64])
        }
        Err(ReadFault::Refused(status)) => process.answered(status, &to, &[]),
    }
}
