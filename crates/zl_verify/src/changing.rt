//! What an edge changes, register by register.

ghost use Rattle.std.specs.Prelude.{◌≡◌, ◌<◌, ◌==◌, length, Some, None, IfSome, if◌then◌else◌};
ghost use Rattle.zl_code.specs.Limits.{register_count};
ghost use Rattle.zl_abs.specs.Changes.{changed};
ghost use Rattle.zl_abs.specs.States.{refined, value_at};
ghost use Rattle.zl_abs.specs.Tags.{is_tag};

use crate::register_set::RegisterSet;
use zl_abs::{AbsState, AbsVal, Change};
use zl_code::Register;

fn is_it(register: Register, other: Register) -> bool
    ensures value { result ≡ (register == other) }
    ensures inside { other < register_count }
{
    register.number() == other.number()
}

/// The value, if it is no tag.
fn unless_tag(value: AbsVal) -> Option<AbsVal>
    ensures { result ≡ (if is_tag value then None else Some value) }
{
    match value {
        AbsVal::KindOf(_) => None,
        AbsVal::RightsOf(_) => None,
        _ => Some(value),
    }
}

/// The registers that the edge changes, whatever they were before. No clause says so.
pub(crate) fn changed_by(change: Change) -> RegisterSet {
    match change {
        Change::Same => RegisterSet::NONE,
        Change::Written(register, _) => RegisterSet::of(register),
        Change::Refined(register, _) => RegisterSet::of(register),
        Change::RefinedBoth(first, _, second, _) => {
            RegisterSet::of(first).with(RegisterSet::of(second))
        }
        Change::Moved(first, second, _) => RegisterSet::of(first).with(RegisterSet::of(second)),
    }
}

/// The value of the register where this one has the value, and all others those of the state.
fn value_set(state: &AbsState, set: Register, value: AbsVal, register: Register) -> AbsVal
    requires { length state.now ≡ register_count }
    ensures { result ≡ value_at (refined state.now set value) register }
{
    if is_it(set, register) {
        value
    } else {
        state.get(register)
    }
}

/// The value of the register at the end of an edge, where it needs no copy of the state.
fn value_soon(state: &AbsState, change: Change, register: Register) -> Option<AbsVal>
    requires { length (changed state.now change) ≡ register_count }
    ensures { IfSome result (λ v. v ≡ value_at (changed state.now change) register) }
{
    match change {
        Change::Same => Some(state.get(register)),
        // A tag may be lost.
        Change::Written(written, value) => unless_tag(value_set(state, written, value, register)),
        Change::Refined(refined, value) => Some(value_set(state, refined, value, register)),
        _ => None,
    }
}

/// The same in a copy of the state.
fn value_in_copy(state: &AbsState, change: &Change, register: Register) -> AbsVal
    ensures { result ≡ value_at (changed state.now change.now) register }
{
    let mut state = *state;
    state.change(*change);
    state.get(register)
}

/// The value of the register at the end of an edge.
pub(crate) fn value_behind(state: &AbsState, change: &Change, register: Register) -> AbsVal
    requires { length (changed state.now change.now) ≡ register_count }
    ensures { result ≡ value_at (changed state.now change.now) register }
{
    match value_soon(state, *change, register) {
        Some(value) => value,
        None => value_in_copy(state, change, register),
    }
}
