ghost use Rattle.std.specs.Prelude.{◌≡◌, ◌≤◌, ◌<◌, Some, None, IfSome, IfNone, not, false, length, map, replicate};
ghost use Rattle.std.specs.Bool.{then_some};
ghost use Rattle.std.specs.List.{list_any};
ghost use Rattle.std.specs.Result.{result_ok};
ghost use Rattle.zl_code.specs.Limits.{register_count};
ghost use Rattle.zl_abs.specs.declared.value.AbsVal.TheVariants as value;
ghost use Rattle.zl_abs.specs.Values.{untagged, retagged};
ghost use Rattle.zl_abs.specs.Tags.{is_tag};
ghost use Rattle.zl_abs.specs.States.{all_below, all_joined, raised_at, value_at, with_value, with_all, refined, risen, starts_from, start_value, start_state};
ghost use Rattle.zl_abs.specs.LocalRules.{moved};
ghost use Rattle.zl_abs.specs.Rule.{word_at};
ghost use Rattle.zl_abs.specs.Changes.{changed};

use crate::cause::{Cause, Conflict, RuleFault, Wanted};
use crate::change::Change;
use crate::value::AbsVal;
use std::marker::Model;
use zl_code::{Image, Register, Start};

/// What is known of each register at an instruction. Own profile.
#[derive(Clone, Copy)]
pub struct AbsState {
    registers: [AbsVal; Register::COUNT],
}

impl Model for AbsState {
    ghost use Rattle.std.specs.Prelude.{◌≡◌, List, length};
    ghost use Rattle.zl_code.specs.Limits.{register_count};
    ghost use Rattle.zl_abs.specs.declared.value.AbsVal.{AbsVal as V};

    ghost Value = { List V };

    ghost view = { λ s. s.registers };

    ghost invariant = { λ s. length s.registers ≡ register_count };

    ghost inverse = { λ values. record { registers = values } };
}

impl AbsState {
    /// What a process of the program starts with: the first handle in register 0, any word in
    /// register 1, further handles from register 2 on, and 0 everywhere else.
    #[tactic(auto, unfolding(crate::specs::States::start_state, crate::specs::States::with_all))]
    pub fn start(image: &Image) -> AbsState
        ensures { result ≡ start_state image.now }
    {
        match image.starts() {
            [] => AbsState::zero().with(register(1), AbsVal::Word(u64::MAX)),
            [first, more @ ..] => AbsState::zero()
                .with(register(0), start_value(first))
                .with(register(1), AbsVal::Word(u64::MAX))
                .with_starts(more),
        }
    }

    /// Each register is 0.
    fn zero() -> AbsState
        ensures { result ≡ replicate register_count (value.Word 0) }
    {
        AbsState {
            registers: [AbsVal::Word(0); Register::COUNT],
        }
    }

    /// The state with handles as they are declared, from register 2 on.
    fn with_starts(&self, starts: &[Start]) -> AbsState
        requires { length starts.now ≤ 6 }
        ensures { result ≡ with_all self.now (starts_from 2 starts.now) }
    {
        let mut state = *self;
        for (place, start) in starts.iter().enumerate() {
            state = state.with(register(2 + place), start_value(start));
        }
        state
    }

    /// The value of the register.
    pub fn get(&self, register: Register) -> AbsVal
        ensures { result ≡ value_at self.now register }
    {
        self.registers[usize::from(register.number())]
    }

    /// What the register is at most, if it has a word.
    pub(crate) fn word(&self, register: Register) -> Result<u64, RuleFault>
        ensures { result ≡ word_at self.now register }
    {
        match self.get(register).bound() {
            Some(most) => Ok(most),
            None => Err(Cause::NotWord.of(register, Wanted::Number)),
        }
    }

    /// More is known of the register. Tags on it stay.
    fn refine(&mut self, register: Register, value: AbsVal)
        ensures { self.new ≡ refined self.old register value }
    {
        self.registers[usize::from(register.number())] = value;
    }

    /// The register is written: no tag names it any more.
    #[tactic(auto, unfolding(crate::specs::States::with_value))]
    pub(crate) fn write(&mut self, register: Register, value: AbsVal)
        ensures { self.new ≡ with_value self.old register value }
    {
        self.refine(register, value);
        // Most states have no tags, and then nothing else is written.
        if has_tag(&self.registers) {
            untag(&mut self.registers, register);
        }
    }

    /// The state after the register was written.
    pub(crate) fn with(&self, register: Register, value: AbsVal) -> AbsState
        ensures { result ≡ with_value self.now register value }
    {
        let mut state = *self;
        state.write(register, value);
        state
    }

    /// The registers are written, one after another.
    pub(crate) fn write_all(&mut self, results: &[(Register, AbsVal)])
        ensures { self.new ≡ with_all self.old results.now }
    {
        for (register, value) in results {
            self.write(*register, *value);
        }
    }

    /// Becomes the least state above itself and the other, and answers whether it rose: whether the
    /// other wasn't below it. Nothing where no state is above both; then some registers may have
    /// been raised.
    pub fn raise(&mut self, other: &AbsState) -> Option<bool>
        ensures joined { IfSome result (λ rose. all_joined self.old other.now ≡ Some self.new) }
        ensures rose { IfSome result (λ rose. all_below other.now self.old ≡ not rose) }
        ensures none { IfNone result (all_joined self.old other.now ≡ None) }
    {
        raise_all(&mut self.registers, &other.registers)
    }

    /// The register gets the least value above its own and this one; where nothing can be named there
    /// any more, no tag names it. Whether it rose; nothing where no value is above both.
    pub fn raise_at(&mut self, register: Register, value: &AbsVal) -> Option<bool>
        ensures risen { IfSome result (λ rose. risen self.old register value.now ≡ Some self.new) }
        ensures same { result ≡ Some false → self.new ≡ self.old }
        ensures none { IfNone result (risen self.old register value.now ≡ None) }
        ensures kept { IfNone result (self.new ≡ self.old) }
    {
        if value.is_below(self.get(register)) {
            return Some(false);
        }
        let Some(joined) = self.get(register).join(*value) else {
            return None;
        };
        self.set_risen(register, &joined);
        Some(true)
    }

    /// The register becomes this; where nothing can be named there any more, no tag names it.
    fn set_risen(&mut self, register: Register, value: &AbsVal)
        ensures { self.new ≡ raised_at self.old register value.now }
    {
        if value.is_nameable() {
            self.refine(register, *value);
        } else {
            self.write(register, *value);
        }
    }

    /// The value of `source` goes to `destination`, and its tags with it.
    fn move_value(&mut self, destination: Register, source: Register, value: AbsVal)
        ensures { self.new ≡ moved self.old destination source value }
    {
        self.write(destination, value);
        retag(&mut self.registers, source, destination);
        self.refine(source, AbsVal::Word(0));
    }

    /// Becomes the state at the end of an edge.
    pub fn change(&mut self, change: Change)
        ensures { self.new ≡ changed self.old change }
    {
        match change {
            Change::Same => {}
            Change::Written(register, value) => self.write(register, value),
            Change::Refined(register, value) => self.refine(register, value),
            Change::RefinedBoth(first, value, second, other) => {
                self.refine(first, value);
                self.refine(second, other);
            }
            Change::Moved(destination, source, value) => self.move_value(
                destination,
                source,
                value,
            ),
        }
    }
}

/// Whether one of the values is a tag.
fn has_tag(values: &[AbsVal]) -> bool
    ensures { result ≡ list_any (λ v. is_tag v) values.now }
{
    values.iter().any(|value| value.is_tag())
}

/// No tag names the register any more.
fn untag(values: &mut [AbsVal], register: Register)
    ensures { values.new ≡ map (untagged register) values.old }
{
    for value in values.iter_mut() {
        *value = value.untagged(register);
    }
}

/// Tags that name the source name the destination.
fn retag(values: &mut [AbsVal], source: Register, destination: Register)
    ensures { values.new ≡ map (retagged source destination) values.old }
{
    for value in values.iter_mut() {
        *value = value.retagged(source, destination);
    }
}

/// Whether the first state is below the second: what it says of each register, the second says too.
pub fn below(state: &AbsState, other: &AbsState) -> bool
    ensures { result ≡ all_below state.now other.now }
{
    are_below(&state.registers, &other.registers)
}

fn are_below(values: &[AbsVal], others: &[AbsVal]) -> bool
    requires { length values.now ≡ length others.now }
    ensures { result ≡ all_below values.now others.now }
{
    for (i, value) in values.iter().enumerate() {
        if !value.is_below(others[i]) {
            return false;
        }
    }
    true
}

/// The least state above both; a conflict where no state is above both.
pub fn join(state: &AbsState, other: &AbsState) -> Result<AbsState, Conflict>
    ensures { result_ok result ≡ all_joined state.now other.now }
{
    let mut joined = *state;
    if join_all(&mut joined.registers, &other.registers) {
        Ok(joined)
    } else {
        Err(Conflict)
    }
}

/// Raises each value to its join with the other in its place, as long as they have one, and answers
/// whether one rose.
fn raise_all(values: &mut [AbsVal], others: &[AbsVal]) -> Option<bool>
    requires { length values.old ≡ length others.now }
    ensures joined { IfSome result (λ rose. all_joined values.old others.now ≡ Some values.new) }
    ensures rose { IfSome result (λ rose. all_below others.now values.old ≡ not rose) }
    ensures none { IfNone result (all_joined values.old others.now ≡ None) }
{
    let mut rose = false;
    for (i, other) in others.iter().enumerate() {
        if !other.is_below(values[i]) {
            let Some(value) = values[i].join(*other) else {
                return None;
            };
            values[i] = value;
            rose = true;
        }
    }
    Some(rose)
}

/// Joins each value with the other in its place, as long as they have a join.
fn join_all(values: &mut [AbsVal], others: &[AbsVal]) -> bool
    requires { length values.old ≡ length others.now }
    ensures { then_some result values.new ≡ all_joined values.old others.now }
{
    for (i, other) in others.iter().enumerate() {
        let Some(value) = values[i].join(*other) else {
            return false;
        };
        values[i] = value;
    }
    true
}

/// The register of this number.
fn register(number: usize) -> Register
    requires { number < register_count }
    ensures { result ≡ number }
{
    match Register::new(number as u8) {
        Some(register) => register,
        None => unreachable!(),
    }
}

/// A handle as it is declared.
fn start_value(start: &Start) -> AbsVal
    ensures { result ≡ start_value start.now }
{
    AbsVal::Has {
        maybe: false,
        kind: start.kind,
        rights: start.rights,
    }
}
