//! Of each signal the number of the first wait for it.

ghost use Rattle.std.specs.Prelude.{◌≡◌, ◌<◌, ◌^◌, ◌==◌, true, if◌then◌else◌};
ghost use Rattle.zl_rights.specs.Numbers.{meets};
ghost use Rattle.zl_signals.specs.Firsts.{AreMoved, AreNoted, IsForOwn, IsLeast, IsMoved, IsWithout};
ghost use Rattle.zl_signals.specs.Numbered.{is_for, number_of, AreBelow, IsFirstFrom, NO_WAIT};

use crate::watch::Watch;
use bitflags::Flags;
use std::collections::BTreeMap;
use zl_rights::Signals;

/// The number that no wait has.
pub(crate) const NO_WAIT: u64 = u64::MAX;

/// The number, if it is one.
pub(crate) fn numbered(number: u64) -> Option<u64>
    ensures { result ≡ number_of number }
{
    if number == NO_WAIT {
        return None;
    }
    Some(number)
}

/// The place of the lowest bit.
fn lowest(signals: u32) -> usize
    requires { 0 < signals }
    ensures inside { result < 32 }
    ensures there { meets signals (2 ^ result) ≡ true }
{
    signals.trailing_zeros() as usize
}

/// All but the bit at this place.
fn without(signals: u32, place: usize) -> u32
    requires { place < 32 }
    ensures { IsWithout signals place result }
{
    signals & !(1 << place)
}

/// The least of the numbers that stand at the signals with these bits.
pub(crate) fn least(firsts: &[u64; 32], active: u32) -> u64
    ensures { IsLeast firsts.now active result }
{
    let mut least = NO_WAIT;
    let mut left = active;
    while left != 0 {
        let place = lowest(left);
        least = least.min(firsts[place]);
        left = without(left, place);
    }
    least
}

/// A wait with this number and this mask stands behind all others.
pub(crate) fn note(firsts: &mut [u64; 32], mask: Signals, number: u64)
    ensures { AreNoted mask.0 number firsts.old firsts.new }
{
    let mut left = mask.bits();
    while left != 0 {
        let place = lowest(left);
        firsts[place] = noted(firsts[place], number);
        left = without(left, place);
    }
}

/// The number of the first wait for a signal, where one with this number stands behind all others.
fn noted(first: u64, number: u64) -> u64
    ensures { result ≡ (if first == NO_WAIT then number else first) }
{
    if first == NO_WAIT { number } else { first }
}

/// The wait with this number and this mask is gone.
pub(crate) fn move_on(
    firsts: &mut [u64; 32],
    waits: &BTreeMap<u64, Watch>,
    mask: Signals,
    number: u64,
)
    requires few { AreBelow NO_WAIT waits.now }
    requires own { IsForOwn mask.0 number firsts.old }
    ensures { AreMoved waits.now number firsts.old firsts.new }
{
    let mut left = mask.bits();
    while left != 0 {
        let place = lowest(left);
        firsts[place] = moved(firsts[place], waits, signal_at(place), number);
        left = without(left, place);
    }
}

/// The number of the first wait for a signal of these, where the wait with this number is gone.
fn moved(first: u64, waits: &BTreeMap<u64, Watch>, signals: Signals, number: u64) -> u64
    requires { AreBelow NO_WAIT waits.now }
    ensures { IsMoved waits.now number signals.0 first result }
{
    if first != number {
        return first;
    }
    first_for(waits, signals, number)
}

/// The number of the first wait for a signal of these, from the number `from` on, or none.
fn first_for(waits: &BTreeMap<u64, Watch>, signals: Signals, from: u64) -> u64
    requires { AreBelow NO_WAIT waits.now }
    ensures { IsFirstFrom from (is_for signals.0) waits.now (number_of result) }
{
    let mut later = waits.range(from..);
    match later.find(|(_, wait)| wait.mask.intersects(signals)) {
        Some((number, _)) => *number,
        None => NO_WAIT,
    }
}

/// The signal with the bit `place`.
fn signal_at(place: usize) -> Signals
    requires { place < 32 }
    ensures { result.0 ≡ 2 ^ place }
{
    Signals::from_bits_retain(1 << place)
}
