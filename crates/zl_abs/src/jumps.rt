//! The rules of the jumps, and what a test teaches.

ghost use Rattle.std.specs.Prelude.{◌≡◌, Some, true};
ghost use Rattle.zl_rights.specs.Numbers.{within, KNOWN_RIGHTS};
ghost use Rattle.zl_abs.specs.LocalRules.{becomes, below_ways, equal_ways, has_ways, kind_numbered, kind_ways, known_kind, known_other, known_rights, known_there, known_zero, unless, zero_ways};
ghost use Rattle.zl_abs.specs.Changes.{changed, changed_if, is_learned, ways_by, ways_told};

use crate::cause::{Cause, RuleFault, Wanted};
use crate::change::Change;
use crate::state::AbsState;
use crate::value::{AbsVal, is_kind, is_kind_below};
use crate::ways::Changes;
use bitflags::Flags;
use zl_code::Register;
use zl_rights::{Kind, Rights};

/// What is different where the register, which has this value, turns out to be 0; nothing where it
/// can't.
fn known_zero(state: &AbsState, register: Register, value: &AbsVal) -> Option<Change>
    ensures known { changed_if state.now result ≡ known_zero state.now register value.now }
    ensures learned { is_learned result ≡ true }
{
    match value {
        AbsVal::Has { maybe, .. } => {
            if *maybe {
                Some(Change::Refined(register, AbsVal::Word(0)))
            } else {
                None
            }
        }
        _ => Some(Change::Same),
    }
}

/// What is different where it turns out to have a handle.
fn known_there(state: &AbsState, register: Register, value: &AbsVal) -> Option<Change>
    ensures { changed_if state.now result ≡ known_there state.now register value.now }
{
    match value {
        AbsVal::Has { kind, rights, .. } => {
            let there = AbsVal::Has {
                maybe: false,
                kind: *kind,
                rights: *rights,
            };
            Some(Change::Refined(register, there))
        }
        AbsVal::Word(most) => { if *most == 0 { None } else { Some(Change::Same) } }
        _ => Some(Change::Same),
    }
}

/// What is different where its handle turns out to be of the kind.
fn known_kind(
    state: &AbsState,
    register: Register,
    kind: Option<Kind>,
    value: &AbsVal,
) -> Option<Change>
    ensures known { changed_if state.now result ≡ known_kind state.now register kind value.now }
    ensures learned { is_learned result ≡ true }
{
    let Some(kind) = kind else {
        return None;
    };
    match value {
        AbsVal::Has {
            kind: known,
            rights,
            ..
        } => {
            if is_kind_below(Some(kind), *known) {
                let of_kind = AbsVal::Has {
                    maybe: false,
                    kind: Some(kind),
                    rights: *rights,
                };
                Some(Change::Refined(register, of_kind))
            } else {
                None
            }
        }
        _ => None,
    }
}

/// What is different where it turns out to have no handle of the kind.
fn known_other(state: &AbsState, kind: Option<Kind>, value: &AbsVal) -> Option<Change>
    ensures { changed_if state.now result ≡ known_other state.now kind value.now }
{
    let Some(kind) = kind else {
        return Some(Change::Same);
    };
    match value {
        AbsVal::Has {
            maybe,
            kind: Some(known),
            ..
        } => {
            if !*maybe && is_kind(kind, *known) {
                None
            } else {
                Some(Change::Same)
            }
        }
        _ => Some(Change::Same),
    }
}

/// Whether each bit is a known right.
fn are_known_rights(bits: u32) -> bool
    ensures { result ≡ within bits KNOWN_RIGHTS }
{
    Rights::from_bits_retain(bits).within(Rights::all())
}

/// What is different where its handle turns out to have the rights.
fn known_rights(state: &AbsState, register: Register, bits: u32, value: AbsVal) -> Option<Change>
    ensures { changed_if state.now result ≡ known_rights state.now register bits value }
{
    match value {
        AbsVal::Has { kind, rights, .. } => {
            if are_known_rights(bits) {
                let with_rights = AbsVal::Has {
                    maybe: false,
                    kind,
                    rights: rights.union(Rights::from_bits_retain(bits)),
                };
                Some(Change::Refined(register, with_rights))
            } else {
                None
            }
        }
        _ => None,
    }
}

/// What is different where the register is this number besides.
fn with_number(state: &AbsState, register: Register, number: u32, change: &Change) -> Change
    requires { is_learned (Some change.now) ≡ true }
    ensures { Some (changed state.now result)
        ≡ becomes register number (Some (changed state.now change.now)) }
{
    let word = AbsVal::Word(u64::from(number));
    match change {
        Change::Refined(first, known) => Change::RefinedBoth(*first, *known, register, word),
        _ => Change::Refined(register, word),
    }
}

/// The same on an edge, if it is followed.
fn becoming(
    state: &AbsState,
    register: Register,
    number: u32,
    change: Option<Change>,
) -> Option<Change>
    requires { is_learned change ≡ true }
    ensures { changed_if state.now result ≡ becomes register number (changed_if state.now change) }
{
    match change {
        Some(change) => Some(with_number(state, register, number, &change)),
        None => None,
    }
}

/// Jumps where the register, which has this value, is the number.
pub(crate) fn jump_equal(
    state: &AbsState,
    register: Register,
    number: u32,
    value: AbsVal,
) -> Result<Changes, RuleFault>
    ensures { ways_told state.now result ≡ equal_ways state.now register number value }
{
    match value {
        AbsVal::Has { .. } => Err(Cause::NotWord.of(register, Wanted::Number)),
        AbsVal::Word(most) => {
            let jumped = if most < u64::from(number) {
                None
            } else {
                becoming(state, register, number, Some(Change::Same))
            };
            let passed = if most == 0 && number == 0 {
                None
            } else {
                Some(Change::Same)
            };
            Ok(Changes { jumped, passed })
        }
        AbsVal::RightsOf(_) => Ok(Changes {
            jumped: becoming(state, register, number, Some(Change::Same)),
            passed: Some(Change::Same),
        }),
        AbsVal::KindOf(tagged) => Ok(kind_ways(state, register, number, tagged)),
    }
}

/// The kind with this number, or nothing where no kind has it.
fn kind_numbered(number: u32) -> Option<Kind>
    ensures { result ≡ kind_numbered number }
{
    Kind::from_number(number)
}

/// Jumps where the register, which has the number of the kind of the handle in `tagged`, is this
/// number.
fn kind_ways(state: &AbsState, register: Register, number: u32, tagged: Register) -> Changes
    ensures { ways_by state.now result ≡ kind_ways state.now register number tagged }
{
    let value = state.get(tagged);
    if number == 0 {
        Changes {
            jumped: becoming(state, register, 0, known_zero(state, tagged, &value)),
            passed: known_there(state, tagged, &value),
        }
    } else {
        let kind = kind_numbered(number);
        Changes {
            jumped: becoming(
                state,
                register,
                number,
                known_kind(state, tagged, kind, &value),
            ),
            passed: known_other(state, kind, &value),
        }
    }
}

/// Jumps where the register, which has this value, is 0.
pub(crate) fn jump_zero(
    state: &AbsState,
    register: Register,
    value: AbsVal,
) -> Result<Changes, RuleFault>
    ensures { ways_told state.now result ≡ zero_ways state.now register value }
{
    match value {
        AbsVal::Has { .. } => Ok(Changes {
            jumped: known_zero(state, register, &value),
            passed: known_there(state, register, &value),
        }),
        _ => jump_equal(state, register, 0, value),
    }
}

/// Jumps where the register is below the number.
pub(crate) fn jump_below(
    state: &AbsState,
    register: Register,
    number: u32,
) -> Result<Changes, RuleFault>
    ensures { ways_told state.now result ≡ below_ways state.now register number }
{
    let most = state.word(register)?;
    let number = u64::from(number);
    let jumped = if number == 0 {
        None
    } else {
        let below = number - 1;
        let bound = if most <= below { most } else { below };
        Some(Change::Refined(register, AbsVal::Word(bound)))
    };
    let passed = if most < number {
        None
    } else {
        Some(Change::Same)
    };
    Ok(Changes { jumped, passed })
}

/// Jumps where all the bits are in the register, which has this value.
pub(crate) fn jump_has(
    state: &AbsState,
    register: Register,
    bits: u32,
    value: AbsVal,
) -> Result<Changes, RuleFault>
    ensures { ways_told state.now result ≡ has_ways state.now bits value }
{
    match value {
        AbsVal::Has { .. } => Err(Cause::NotWord.of(register, Wanted::Number)),
        AbsVal::RightsOf(tagged) => {
            let jumped = if bits == 0 {
                Some(Change::Same)
            } else {
                known_rights(state, tagged, bits, state.get(tagged))
            };
            Ok(Changes {
                jumped,
                passed: Some(Change::Same),
            })
        }
        _ => Ok(Changes {
            jumped: Some(Change::Same),
            passed: Some(Change::Same),
        }),
    }
}

/// The same jump where the test fails.
pub(crate) fn turned(
    state: &AbsState,
    changes: Result<Changes, RuleFault>,
) -> Result<Changes, RuleFault>
    ensures { ways_told state.now result ≡ unless (ways_told state.now changes) }
{
    match changes {
        Ok(changes) => Ok(changes.turned(state)),
        Err(fault) => Err(fault),
    }
}
