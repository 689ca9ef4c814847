//! The rules of the local instructions but jumps, and the rule of each by its row.

ghost use Rattle.std.specs.Prelude.{◌≡◌, ◌≤◌, slice_get};
ghost use Rattle.zl_abs.specs.Values.{smaller};
ghost use Rattle.zl_abs.specs.Found.{bounds_in};
ghost use Rattle.zl_abs.specs.LocalRules.{adds, adds_number, computes, copies, in_memory, loads, local_rule, may_move, meets, mixes, shifted, shifts_down, shifts_up, slot_fault, stores, swaps_in, takes, goes_round_again, ends_turn};
ghost use Rattle.zl_abs.specs.Changes.{ways_by, ways_told};

use crate::cause::{Cause, RuleFault, Wanted};
use crate::change::Change;
use crate::jumps::{jump_below, jump_equal, jump_has, jump_zero, turned};
use crate::round_up::Rounding;
use crate::state::AbsState;
use crate::value::{AbsVal, is_kind_below, is_register};
use crate::ways::Changes;
use zl_code::{Image, Kinds, LocalInstr, Mark, Register, SlotArray};

/// The register becomes a word up to the next bound from the number on.
fn compute(
    bounds: Rounding<'_>,
    state: &AbsState,
    register: Register,
    number: u64,
) -> Result<Changes, RuleFault>
    ensures { ways_told state.now result ≡ computes (bounds_in bounds.entry) state.now register number }
{
    Changes::writing(state, register, AbsVal::Word(bounds.round_up(number)))
}

/// The register becomes any word, computed from two.
fn mix(
    state: &AbsState,
    register: Register,
    left: Register,
    right: Register,
) -> Result<Changes, RuleFault>
    ensures { ways_told state.now result ≡ mixes state.now register left right }
{
    state.word(left)?;
    state.word(right)?;
    Changes::writing(state, register, AbsVal::Word(u64::MAX))
}

/// Whether so many bytes from base and offset on lie in the memory, where the base is at most this.
fn is_in_memory(image: &Image, base: u64, offset: u32, bytes: u64) -> bool
    requires { bytes ≤ 8 }
    ensures { result ≡ in_memory image.now base offset bytes }
{
    base.saturating_add(u64::from(offset) + bytes) <= u64::from(image.memory())
}

/// The register becomes this word, out of so many bytes of the memory.
fn load(
    image: &Image,
    state: &AbsState,
    bytes: u64,
    bound: u64,
    register: Register,
    base: Register,
    offset: u32,
) -> Result<Changes, RuleFault>
    requires { bytes ≤ 8 }
    ensures { ways_told state.now result ≡ loads image.now state.now bytes bound register base offset }
{
    let most = state.word(base)?;
    if is_in_memory(image, most, offset, bytes) {
        Changes::writing(state, register, AbsVal::Word(bound))
    } else {
        Err(Cause::MemoryRange.alone())
    }
}

/// So many bytes of the register go to the memory.
fn store(
    image: &Image,
    state: &AbsState,
    bytes: u64,
    base: Register,
    source: Register,
    offset: u32,
) -> Result<Changes, RuleFault>
    requires { bytes ≤ 8 }
    ensures { ways_told state.now result ≡ stores image.now state.now bytes base source offset }
{
    let most = state.word(base)?;
    state.word(source)?;
    if is_in_memory(image, most, offset, bytes) {
        Ok(Changes::passing(state, Change::Same))
    } else {
        Err(Cause::MemoryRange.alone())
    }
}

/// The register becomes a copy of a word or of a tag.
fn copy(state: &AbsState, register: Register, source: Register) -> Result<Changes, RuleFault>
    ensures { ways_told state.now result ≡ copies state.now register source }
{
    state.word(source)?;
    Changes::writing(state, register, state.get(source))
}

/// Whether a register may be taken: it has a handle, or 0 in its place.
fn may_move(value: &AbsVal) -> bool
    ensures { result ≡ may_move value.now }
{
    match value {
        AbsVal::Word(most) => *most == 0,
        AbsVal::Has { .. } => true,
        _ => false,
    }
}

/// What was in the source goes to the register.
fn take(state: &AbsState, register: Register, source: Register) -> Result<Changes, RuleFault>
    ensures { ways_told state.now result ≡ takes state.now register source }
{
    let value = state.get(source);
    if is_register(register, source) {
        Err(Cause::IllegalOp.alone())
    } else if !may_move(&value) {
        Err(Cause::NotLive.of(source, Wanted::ANY_HANDLE))
    } else if state.get(register).is_has() {
        Err(Cause::Leak.of(register, Wanted::Room))
    } else {
        Ok(Changes::passing(state, Change::Moved(register, source, value)))
    }
}

/// Why the value can't go into the slot array, if it can't.
fn slot_fault(array: &SlotArray, value: AbsVal) -> Option<Cause>
    ensures { result ≡ slot_fault array.now value }
{
    match value {
        AbsVal::Word(most) => {
            if most == 0 {
                None
            } else {
                Some(Cause::NotLive)
            }
        }
        AbsVal::Has { kind, rights, .. } => {
            if !is_kind_below(kind, array.kind) {
                Some(Cause::WrongKind)
            } else if !array.rights.within(rights) {
                Some(Cause::LacksRight)
            } else {
                None
            }
        }
        _ => Some(Cause::NotLive),
    }
}

/// What is asked of a register that is exchanged with a place of the slot array.
fn wanted_in(array: &SlotArray) -> Wanted {
    Wanted::Handle {
        kinds: match array.kind {
            Some(kind) => Kinds::Only(kind),
            None => Kinds::Any,
        },
        rights: array.rights,
        may_be_zero: true,
    }
}

/// The register and a place of the slot array are exchanged.
fn swap(
    image: &Image,
    state: &AbsState,
    register: Register,
    place: Register,
    array: u32,
) -> Result<Changes, RuleFault>
    ensures { ways_told state.now result ≡ swaps_in state.now register place (slice_get image.now.slots array) }
{
    let Some(array) = image.slots().get(array as usize) else {
        return Err(Cause::IllegalOp.alone());
    };
    let most = state.word(place)?;
    if most >= u64::from(array.length) {
        return Err(Cause::MemoryRange.alone());
    }
    match slot_fault(array, state.get(register)) {
        Some(cause) => Err(cause.of(register, wanted_in(array))),
        None => {
            let value = AbsVal::Has {
                maybe: true,
                kind: array.kind,
                rights: array.rights,
            };
            Ok(Changes::passing(state, Change::Written(register, value)))
        }
    }
}

/// The bound, shifted down.
fn shift_down(most: u64, places: u32) -> u64
    ensures { result ≡ shifted most places }
{
    if places < 64 { most >> places } else { 0 }
}

/// The smaller of the two.
fn smaller(left: u64, right: u64) -> u64
    ensures { result ≡ smaller left right }
{
    if left <= right { left } else { right }
}

/// The register becomes the sum of two words.
fn add(
    bounds: Rounding<'_>,
    state: &AbsState,
    register: Register,
    left: Register,
    right: Register,
) -> Result<Changes, RuleFault>
    ensures { ways_told state.now result ≡ adds (bounds_in bounds.entry) state.now register left right }
{
    let left = state.word(left)?;
    let right = state.word(right)?;
    compute(bounds, state, register, left.saturating_add(right))
}

/// The register becomes the sum of a word and the number.
fn add_number(
    bounds: Rounding<'_>,
    state: &AbsState,
    register: Register,
    left: Register,
    number: u32,
) -> Result<Changes, RuleFault>
    ensures { ways_told state.now result ≡ adds_number (bounds_in bounds.entry) state.now register left number }
{
    let left = state.word(left)?;
    compute(
        bounds,
        state,
        register,
        left.saturating_add(u64::from(number)),
    )
}

/// The register becomes the bits that two words share.
fn and(
    bounds: Rounding<'_>,
    state: &AbsState,
    register: Register,
    left: Register,
    right: Register,
) -> Result<Changes, RuleFault>
    ensures { ways_told state.now result ≡ meets (bounds_in bounds.entry) state.now register left right }
{
    let left = state.word(left)?;
    let right = state.word(right)?;
    compute(bounds, state, register, smaller(left, right))
}

/// The register becomes the bits of a word moved up.
fn shift_left(state: &AbsState, register: Register, source: Register) -> Result<Changes, RuleFault>
    ensures { ways_told state.now result ≡ shifts_up state.now register source }
{
    state.word(source)?;
    Changes::writing(state, register, AbsVal::Word(u64::MAX))
}

/// The register becomes the bits of a word moved down.
fn shift_right(
    bounds: Rounding<'_>,
    state: &AbsState,
    register: Register,
    source: Register,
    places: u32,
) -> Result<Changes, RuleFault>
    ensures { ways_told state.now result ≡ shifts_down (bounds_in bounds.entry) state.now register source places }
{
    let most = state.word(source)?;
    compute(bounds, state, register, shift_down(most, places))
}

/// Whether the block that begins at this rep is gone round more than once.
fn goes_round_again(image: &Image, rep: u32) -> bool
    ensures { result ≡ goes_round_again image.now.code rep }
{
    match image.mark_at(rep as usize) {
        Some(Mark::Rep { imm, .. }) => imm >= 2,
        _ => false,
    }
}

/// The block that began at this rep is left, or gone round once more.
fn end_turn(image: &Image, state: &AbsState, rep: u32) -> Changes
    ensures { ways_by state.now result ≡ ends_turn image.now.code state.now rep }
{
    Changes {
        jumped: goes_round_again(image, rep).then_some(Change::Same),
        passed: Some(Change::Same),
    }
}

/// The edges that are followed from the local instruction, or why its rule doesn't hold.
#[tactic(auto, unfolding(crate::specs::LocalRules::local_rule))]
pub(crate) fn local_rule(
    bounds: Rounding<'_>,
    image: &Image,
    local: LocalInstr,
    state: &AbsState,
) -> Result<Changes, RuleFault>
    ensures { ways_told state.now result ≡ local_rule (bounds_in bounds.entry) image.now local state.now }
{
    match local {
        LocalInstr::Const {
            destination,
            number,
        } => Changes::writing(state, destination, AbsVal::Word(u64::from(number))),
        LocalInstr::Move {
            destination,
            source,
        } => copy(state, destination, source),
        LocalInstr::Add {
            destination,
            left,
            right,
        } => add(bounds, state, destination, left, right),
        LocalInstr::AddNumber {
            destination,
            left,
            number,
        } => add_number(bounds, state, destination, left, number),
        LocalInstr::Subtract {
            destination,
            left,
            right,
        } => mix(state, destination, left, right),
        LocalInstr::And {
            destination,
            left,
            right,
        } => and(bounds, state, destination, left, right),
        LocalInstr::Or {
            destination,
            left,
            right,
        } => mix(state, destination, left, right),
        LocalInstr::Xor {
            destination,
            left,
            right,
        } => mix(state, destination, left, right),
        LocalInstr::ShiftLeft {
            destination,
            source,
            ..
        } => shift_left(state, destination, source),
        LocalInstr::ShiftRight {
            destination,
            source,
            places,
        } => shift_right(bounds, state, destination, source, places),
        LocalInstr::Take {
            destination,
            source,
        } => take(state, destination, source),
        LocalInstr::Swap {
            register,
            place,
            array,
        } => swap(image, state, register, place, array),
        LocalInstr::LoadByte {
            destination,
            base,
            offset,
        } => load(image, state, 1, 255, destination, base, offset),
        LocalInstr::LoadWord {
            destination,
            base,
            offset,
        } => load(image, state, 8, u64::MAX, destination, base, offset),
        LocalInstr::StoreByte {
            base,
            source,
            offset,
        } => store(image, state, 1, base, source, offset),
        LocalInstr::StoreWord {
            base,
            source,
            offset,
        } => store(image, state, 8, base, source, offset),
        LocalInstr::Jump { .. } => Ok(Changes::passing(state, Change::Same).turned(state)),
        LocalInstr::JumpZero { register, .. } => jump_zero(state, register, state.get(register)),
        LocalInstr::JumpNotZero { register, .. } => {
            turned(state, jump_zero(state, register, state.get(register)))
        }
        LocalInstr::JumpEqual {
            register,
            number,
            ..
        } => jump_equal(state, register, number, state.get(register)),
        LocalInstr::JumpNotEqual {
            register,
            number,
            ..
        } => turned(
            state,
            jump_equal(state, register, number, state.get(register)),
        ),
        LocalInstr::JumpBelow {
            register,
            number,
            ..
        } => jump_below(state, register, number),
        LocalInstr::JumpNotBelow {
            register,
            number,
            ..
        } => turned(state, jump_below(state, register, number)),
        LocalInstr::JumpHas { register, bits, .. } => {
            jump_has(state, register, bits, state.get(register))
        }
        LocalInstr::JumpHasNot { register, bits, .. } => {
            turned(state, jump_has(state, register, bits, state.get(register)))
        }
        LocalInstr::Rep { .. } => Ok(Changes::passing(state, Change::Same)),
        LocalInstr::EndRep { rep } => Ok(end_turn(image, state, rep)),
    }
}
