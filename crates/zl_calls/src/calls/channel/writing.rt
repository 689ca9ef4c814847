//! The calls that write a message: what they do, and what they then answer their caller.

ghost use Rattle.std.specs.Prelude.{◌≡◌, ◌<◌, ◌≤◌, ◌^◌, ◌++◌, [], ◌∷◌, true, false, None, length, IsTrue, IsSome, IfOk, IfErr, IsOk, OnOk, OnErr};
ghost use Rattle.std.specs.Option.{option_to_list};
ghost use Rattle.zl_rights.specs.LookUp.{looked_up};
ghost use Rattle.zl_rights.specs.Map.{get};
ghost use Rattle.zl_rights.specs.Numbers.{WRITE};
ghost use Rattle.smallvec.specs.SmallVec.{HasRoomFor};
ghost use Rattle.zl_channel.specs.Queue.{MOST_BYTES, MOST_HANDLES};
ghost use Rattle.zl_code.specs.Asked.{array_in, emptied_count, filled_among};
ghost use Rattle.zl_code.specs.Request.{site_of};
ghost use Rattle.zl_code.specs.declared.history.CallName.TheVariants as name;
ghost use Rattle.zl_objects.specs.Objects.{is_channel_at, sending};
ghost use Rattle.zl_objects.specs.Release.{Releases, koids_in};
ghost use Rattle.zl_calls.specs.Acted.{Acted};
ghost use Rattle.zl_calls.specs.calls.Answer.{IsRefusedBy, taken_from, wants_memory, without_handle, without_handles};
ghost use Rattle.zl_calls.specs.calls.Channel.{ChanWriteDoes, IsPeerOf, IsReady, fault_of, filled, list_refusal, write_refusal};
ghost use Rattle.zl_calls.specs.Registered.{KeepsListed};
ghost use Rattle.zl_calls.specs.Sure.{IsFaultless};

use crate::calls::handle::{close_each, take_out};
use crate::calls::look_up;
use crate::process::Process;
use std::alloc::Global;
use zl_channel::{ChannelEnd, Handles, Message, PushFault};
use zl_code::{CallInstr, Outcome};
use zl_interp::Cpu;
use zl_objects::Objects;
use zl_rights::{Entry, Kind, Koid, Rights, Status};
use zl_table::Table;

/// Writes a message with the bytes and with the handles at these values: it goes last into the
/// queue of the end's peer. However it is answered, the handles have left the table.
///
/// Of the end `BadHandle`, `WrongType` for what is no channel, `AccessDenied` without the right to
/// write; of each handle in turn `BadHandle`, also where it is listed twice, and `AccessDenied`
/// without the right to transfer; `NotSupported` for the end's own value; `OutOfRange` for more
/// than 65,536 bytes or 64 handles; `PeerClosed`; `NoMemory`.
/// Source: the page "zx_channel_write" of the Fuchsia documentation.
pub fn chan_write<const TESTED: bool>(
    alloc: Global,
    table: &mut Table,
    objects: &mut Objects,
    channel: u64,
    bytes: &[u8],
    handles: &[u64],
) -> Result<(), Status>
    requires channel { TESTED ≡ false
        → IsOk (looked_up table.old.entries channel (Kind.Channel ∷ []) WRITE) }
    requires list { TESTED ≡ false → list_refusal table.old.entries [] handles.now ≡ None }
    ensures { ChanWriteDoes channel bytes.now handles.now
        table.old objects.old result table.new objects.new }
{
    match prepare::<TESTED>(alloc, table, objects, channel, bytes, handles) {
        Ok(letter) => send(table, objects, letter, handles),
        Err(refused) => {
            close_each(table, objects, handles);
            Err(refused)
        }
    }
}

/// Does `chan_write` at its registers. Its bytes lie in the memory.
#[tactic(auto, unfolding(zl_code::specs::Request::site_of))]
pub fn write<const TESTED: bool>(
    alloc: Global,
    process: &mut Process,
    objects: &mut Objects,
    call: &CallInstr,
) -> Outcome
    requires counter { process.old.cpu.counter < 2 ^ 32 }
    requires name { call.now.name ≡ name.ChanWrite }
    requires there { IsSome (site_of call.now process.old.cpu) }
    requires sure { TESTED ≡ false
        → IsFaultless process.old.table.entries (site_of call.now process.old.cpu) }
    ensures { Acted (site_of call.now process.old.cpu)
        process.old objects.old result process.new objects.new }
{
    let [status, channel, address, size, ..] = call.registers;
    let handles = call.handles();
    let (values, count) = process.cpu.listed(&handles);
    let address = process.cpu.register(address);
    let size = process.cpu.register(size);
    let Some(bytes) = process.cpu.bytes(address, size) else {
        unreachable!()
    };
    let channel = process.cpu.register(channel);
    let answer = chan_write::<TESTED>(
        alloc,
        &mut process.table,
        objects,
        channel,
        bytes,
        &values[..count],
    );
    process.cpu.clear(&handles);
    process.answer(status, answer)
}

/// Does `chan_write_slots` at its registers, as `chan_write`: the handles are those in the first places
/// of a slot array, and these places are 0 afterwards. Its bytes lie in the memory, and the array has
/// the places.
pub fn write_slots<const TESTED: bool>(
    alloc: Global,
    process: &mut Process,
    objects: &mut Objects,
    call: &CallInstr,
) -> Outcome
    requires counter { process.old.cpu.counter < 2 ^ 32 }
    requires name { call.now.name ≡ name.ChanWriteSlots }
    requires there { IsSome (site_of call.now process.old.cpu) }
    requires sure { TESTED ≡ false
        → IsFaultless process.old.table.entries (site_of call.now process.old.cpu) }
    ensures { Acted (site_of call.now process.old.cpu)
        process.old objects.old result process.new objects.new }
{
    let [status, channel, address, size, count, ..] = call.registers;
    let channel = process.cpu.register(channel);
    let address = process.cpu.register(address);
    let size = process.cpu.register(size);
    let count = process.cpu.register(count) as usize;
    let array = call.number();
    // Until they are emptied, the places may hold the same values closer together.
    let filled = process.cpu.pack_places(array, count);
    let Some(bytes) = process.cpu.bytes(address, size) else {
        unreachable!()
    };
    let Some(places) = process.cpu.places(array) else {
        unreachable!()
    };
    let answer = chan_write::<TESTED>(
        alloc,
        &mut process.table,
        objects,
        channel,
        bytes,
        &places[..filled],
    );
    process.cpu.empty_places(array, count);
    process.answer(status, answer)
}

/// The places whose handles the call sends, as far as they are there.
pub fn sent_places<'a>(cpu: &'a Cpu, call: &CallInstr) -> &'a [u64]
    ensures { filled result.now
        ≡ filled_among (emptied_count call.now cpu.now) (array_in call.now cpu.now) }
{
    let [_, _, _, _, count, ..] = call.registers;
    let Some(places) = cpu.places(call.number()) else {
        return &[];
    };
    let count = cpu.register(count) as usize;
    &places[..count.min(places.len())]
}

/// A message that is written: the end to whose queue it goes, its bytes, and room for its handles.
#[derive(Drop)]
struct Letter {
    peer: Koid,
    bytes: Vec<u8>,
    room: Handles,
}

/// What chan_write needs before it changes anything, or its answer.
fn prepare<const TESTED: bool>(
    alloc: Global,
    table: &Table,
    objects: &Objects,
    channel: u64,
    bytes: &[u8],
    handles: &[u64],
) -> Result<Letter, Status>
    requires channel { TESTED ≡ false
        → IsOk (looked_up table.now.entries channel (Kind.Channel ∷ []) WRITE) }
    requires list { TESTED ≡ false → list_refusal table.now.entries [] handles.now ≡ None }
    ensures ready { IfOk result (λ letter.
        IsReady table.now.entries objects.now.objects channel bytes.now handles.now letter) }
    ensures refused { IfErr result (IsRefusedBy wants_memory (write_refusal
        table.now.entries objects.now.objects channel (length bytes.now) handles.now)) }
{
    let peer = find_peer::<TESTED>(table, objects, channel, bytes.len(), handles)?;
    let Ok(bytes) = bytes.to_vec(alloc) else {
        return Err(Status::NoMemory);
    };
    let mut room = Handles::new(alloc);
    if room.reserve(handles.len()).is_err() {
        return Err(Status::NoMemory);
    }
    Ok(Letter { peer, bytes, room })
}

/// The end to whose queue a message goes that is written at the end at the value `channel`.
fn find_peer<const TESTED: bool>(
    table: &Table,
    objects: &Objects,
    channel: u64,
    size: usize,
    handles: &[u64],
) -> Result<Koid, Status>
    requires channel { TESTED ≡ false
        → IsOk (looked_up table.now.entries channel (Kind.Channel ∷ []) WRITE) }
    requires list { TESTED ≡ false → list_refusal table.now.entries [] handles.now ≡ None }
    ensures refusal { fault_of result
        ≡ write_refusal table.now.entries objects.now.objects channel size handles.now }
    ensures peer { IfOk result (λ peer.
        IsPeerOf table.now.entries objects.now.objects channel peer) }
    ensures small { IsOk result → size ≤ MOST_BYTES }
    ensures few { IsOk result → length handles.now ≤ MOST_HANDLES }
{
    let end = look_up::<TESTED>(table, channel, &[Kind::Channel], Rights::WRITE)?;
    unless_sure::<TESTED>(table, handles)?;
    if handles.contains(&channel) {
        return Err(Status::NotSupported);
    }
    if size > ChannelEnd::MOST_BYTES || handles.len() > ChannelEnd::MOST_HANDLES {
        return Err(Status::OutOfRange);
    }
    objects.reader(end.koid).ok_or(Status::PeerClosed)
}

/// The same of a list as `examine_list`; each handle may be sent where that isn't tested.
fn unless_sure<const TESTED: bool>(table: &Table, handles: &[u64]) -> Result<(), Status>
    requires sure { TESTED ≡ false → list_refusal table.now.entries [] handles.now ≡ None }
    ensures { fault_of result ≡ list_refusal table.now.entries [] handles.now }
{
    if TESTED {
        examine_list(table, handles)
    } else {
        Ok(())
    }
}

/// Whether each handle of the list may be sent, and none is listed twice.
pub fn examine_list(table: &Table, handles: &[u64]) -> Result<(), Status>
    ensures { fault_of result ≡ list_refusal table.now.entries [] handles.now }
{
    for (n, handle) in handles.iter().enumerate() {
        if handles[..n].contains(handle) {
            return Err(Status::BadHandle);
        }
        look_up::<true>(table, *handle, &[], Rights::TRANSFER)?;
    }
    Ok(())
}

/// Whether each handle in these places may be sent, and none is there twice.
pub fn examine_places(table: &Table, places: &[u64]) -> Result<(), Status>
    ensures { fault_of result ≡ list_refusal table.now.entries [] (filled places.now) }
{
    for (n, handle) in places.iter().enumerate() {
        if *handle == 0 {
            continue;
        }
        if places[..n].contains(handle) {
            return Err(Status::BadHandle);
        }
        look_up::<true>(table, *handle, &[], Rights::TRANSFER)?;
    }
    Ok(())
}

/// Sends the message with the handles at these values. They leave the table; where memory is
/// refused they close. Its sizes were tested before.
fn send(
    table: &mut Table,
    objects: &mut Objects,
    letter: Letter,
    handles: &[u64],
) -> Result<(), Status>
    requires end { IsTrue (is_channel_at objects.old.objects letter.peer) }
    requires room { HasRoomFor letter.room (length handles.now) }
    requires empty { letter.room.items ≡ [] }
    requires small { length letter.bytes.items ≤ MOST_BYTES }
    requires few { length handles.now ≤ MOST_HANDLES }
    ensures sent { OnOk result (objects.new ≡ sending objects.old letter.peer
        (record { bytes = letter.bytes.items; handles = taken_from table.old handles.now })) }
    ensures wants { IfErr result (λ refused. refused ≡ Status.NoMemory) }
    ensures released { OnErr result
        (Releases (koids_in (taken_from table.old handles.now)) [] objects.old objects.new) }
    ensures listed { OnErr result (KeepsListed objects.old objects.new) }
    ensures table { table.new ≡ without_handles table.old handles.now }
{
    let Letter {
        peer,
        bytes,
        mut room,
    } = letter;
    take_each(table, &mut room, handles);
    let message = Message {
        bytes,
        handles: room,
    };
    match objects.send(peer, message) {
        Ok(()) => Ok(()),
        Err(PushFault::NoMemory(message)) => {
            release_each(objects, message.handles.as_slice());
            Err(Status::NoMemory)
        }
        Err(PushFault::OutOfRange(_)) => unreachable!(),
    }
}

/// The handles at these values leave the table, those that are live, into room that is there.
fn take_each(table: &mut Table, taken: &mut Handles, values: &[u64])
    requires { HasRoomFor taken.old (length values.now) }
    ensures table { table.new ≡ without_handles table.old values.now }
    ensures taken { taken.new.items ≡ taken.old.items ++ taken_from table.old values.now }
{
    for value in values {
        take_into(table, taken, *value);
    }
}

/// The handle at the value leaves the table, if it is live, into room that is there.
fn take_into(table: &mut Table, taken: &mut Handles, value: u64)
    requires { HasRoomFor taken.old 1 }
    ensures table { table.new ≡ without_handle table.old value }
    ensures taken { taken.new.items
        ≡ taken.old.items ++ option_to_list (get table.old.entries value) }
    ensures capacity { taken.new.capacity ≡ taken.old.capacity }
{
    if let Some(entry) = take_out(table, value) {
        taken.push_reserved(entry);
    }
}

/// The handles have gone, and what isn't held any more.
fn release_each(objects: &mut Objects, handles: &[Entry])
    ensures releases { Releases (koids_in handles.now) [] objects.old objects.new }
    ensures listed { KeepsListed objects.old objects.new }
{
    for handle in handles {
        objects.release(handle.koid);
    }
}
