//! Calls that make events and event pairs, and calls that change signals.

ghost use Rattle.std.specs.Prelude.{◌≡◌, false, [], ◌∷◌, IsOk};
ghost use Rattle.zl_rights.specs.LookUp.{looked_up};
ghost use Rattle.zl_rights.specs.Numbers.{SIGNAL, SIGNAL_PEER, within};
ghost use Rattle.zl_calls.specs.calls.Event.{EventCreateDoes, EventpairCreateDoes, SignalDoes, SignalPeerDoes, settable_at, signals_if};

use crate::calls::{check_room, look_up, make_object, make_pair};
use bitflags::Flags;
use zl_objects::{Body, Objects, Pair};
use zl_rights::{HValue, Kind, Rights, Signals, Status};
use zl_table::Table;

/// Makes an event, with a handle that has the default rights.
///
/// `NoResources` where the table is full or no koid is left, `NoMemory`.
/// Source: the page "zx_event_create" of the Fuchsia documentation.
pub fn event_create(table: &mut Table, objects: &mut Objects) -> Result<HValue, Status>
    ensures { EventCreateDoes table.old objects.old result table.new objects.new }
{
    check_room(table, objects)?;
    make_object(table, objects, Body::Event)
}

/// Makes an event pair, with a handle to each end that has the default rights. The first is to the
/// end with the lower koid.
///
/// `NoResources` where the table has no place for both or fewer than two koids are left,
/// `NoMemory`.
/// Source: the page "zx_eventpair_create" of the Fuchsia documentation.
pub fn eventpair_create(
    table: &mut Table,
    objects: &mut Objects,
) -> Result<(HValue, HValue), Status>
    ensures { EventpairCreateDoes table.old objects.old result table.new objects.new }
{
    make_pair(table, objects, Pair::Eventpair)
}

/// Takes the signals `clear` from the object, and then gives it the signals `set`.
///
/// `BadHandle`, `AccessDenied` without the right to signal, `InvalidArgs` for a bit that calls may
/// not change at an object of its kind.
/// Source: the page "zx_object_signal" of the Fuchsia documentation.
pub fn signal<const TESTED: bool>(
    table: &Table,
    objects: &mut Objects,
    value: u64,
    clear: u64,
    set: u64,
) -> Result<(), Status>
    requires sure { TESTED ≡ false → IsOk (looked_up table.now.entries value [] SIGNAL) }
    ensures { SignalDoes value clear set table.now objects.old result table.now objects.new }
{
    let entry = look_up::<TESTED>(table, value, &[], Rights::SIGNAL)?;
    let (Some(clear), Some(set)) = (
        signals_within(clear, entry.kind),
        signals_within(set, entry.kind),
    ) else {
        return Err(Status::InvalidArgs);
    };
    objects.change(entry.koid, clear, set);
    Ok(())
}

/// Takes the signals `clear` from the other end of a channel or of an event pair, and then gives it
/// the signals `set`.
///
/// `BadHandle`, `WrongType` for what is neither, `AccessDenied` without the right to signal the
/// peer, `InvalidArgs` for a bit that calls may not change at such an end, `PeerClosed` where the
/// other end has gone.
/// Source: the page "zx_object_signal" of the Fuchsia documentation; that what has no peer is of
/// the wrong type is own profile.
pub fn signal_peer<const TESTED: bool>(
    table: &Table,
    objects: &mut Objects,
    value: u64,
    clear: u64,
    set: u64,
) -> Result<(), Status>
    requires sure { TESTED ≡ false → IsOk (looked_up
        table.now.entries value (Kind.Channel ∷ Kind.Eventpair ∷ []) SIGNAL_PEER) }
    ensures { SignalPeerDoes value clear set table.now objects.old result table.now objects.new }
{
    let kinds = &[Kind::Channel, Kind::Eventpair];
    let end = look_up::<TESTED>(table, value, kinds, Rights::SIGNAL_PEER)?;
    let (Some(clear), Some(set)) = (
        signals_within(clear, end.kind),
        signals_within(set, end.kind),
    ) else {
        return Err(Status::InvalidArgs);
    };
    let Some(peer) = objects.peer(end.koid) else {
        return Err(Status::PeerClosed);
    };
    objects.change(peer, clear, set);
    Ok(())
}

/// The signals with these bits, if calls may set and clear each of them at an object of this kind.
fn signals_within(bits: u64, kind: Kind) -> Option<Signals>
    ensures { result ≡ signals_if (within bits (settable_at kind)) bits }
{
    let Ok(bits) = u32::try_from(bits) else {
        return None;
    };
    let signals = Signals::from_bits_retain(bits);
    if settable(kind).contains(signals) {
        Some(signals)
    } else {
        None
    }
}

/// The signals that calls may set and clear at an object of this kind.
fn settable(kind: Kind) -> Signals
    ensures { result.0 ≡ settable_at kind }
{
    let user = Signals::USER_0
        .union(Signals::USER_1)
        .union(Signals::USER_2)
        .union(Signals::USER_3)
        .union(Signals::USER_4)
        .union(Signals::USER_5)
        .union(Signals::USER_6)
        .union(Signals::USER_7);
    match kind {
        Kind::Event | Kind::Eventpair => Signals::SIGNALED.union(user),
        _ => user,
    }
}
