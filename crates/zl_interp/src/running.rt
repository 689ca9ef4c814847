//! What a local instruction does to a Cpu.
//!
//! The counter goes beside the Cpu, whose own stays as it is, and what is answered is the next one: so
//! a loop over instructions has it at hand, and writes it once.

ghost use Rattle.std.specs.Prelude.{◌≡◌, ◌+◌, ◌-◌, ◌*◌, ◌/◌, ◌<◌, ◌^◌, Some, None, nat_lt, if◌then◌else◌, is_some, false, IsSome, IfSome, IfNone};
ghost use Rattle.zl_rights.specs.Numbers.{within};
ghost use Rattle.zl_code.specs.Local.{enters, goes_to, local_effect, wrapped, loads, sets, stores, swaps, turns};
ghost use Rattle.zl_interp.specs.Running.{slot_in, slot_set, moved};

use crate::cpu::Cpu;
use zl_code::{LocalInstr, Register};

impl Cpu {
    /// The register becomes the byte at the sum of base and offset.
    fn load_byte<const TESTED: bool>(
        &mut self,
        counter: usize,
        register: Register,
        base: u64,
        offset: u32,
    ) -> Option<usize>
        requires counter { counter < 2 ^ 32 }
        requires sure { TESTED ≡ false
            → IsSome (loads (goes_to self.old counter) 1 register (base + offset)) }
        ensures some { IfSome result (λ next.
            loads (goes_to self.old counter) 1 register (base + offset)
            ≡ Some (goes_to self.new next)) }
        ensures none { IfNone result
            ((loads (goes_to self.old counter) 1 register (base + offset) ≡ None)
            × (self.new ≡ self.old)) }
    {
        let place = self.place::<TESTED>(base, offset, 1)?;
        let byte = self.byte_at(place);
        self.set(register, byte);
        Some(counter + 1)
    }

    /// The register becomes the eight bytes from the sum of base and offset on.
    fn load_word<const TESTED: bool>(
        &mut self,
        counter: usize,
        register: Register,
        base: u64,
        offset: u32,
    ) -> Option<usize>
        requires counter { counter < 2 ^ 32 }
        requires sure { TESTED ≡ false
            → IsSome (loads (goes_to self.old counter) 8 register (base + offset)) }
        ensures some { IfSome result (λ next.
            loads (goes_to self.old counter) 8 register (base + offset)
            ≡ Some (goes_to self.new next)) }
        ensures none { IfNone result
            ((loads (goes_to self.old counter) 8 register (base + offset) ≡ None)
            × (self.new ≡ self.old)) }
    {
        let place = self.place::<TESTED>(base, offset, 8)?;
        let word = self.word_at(place);
        self.set(register, word);
        Some(counter + 1)
    }

    /// The low byte of the value goes to the sum of base and offset.
    fn store_byte<const TESTED: bool>(
        &mut self,
        counter: usize,
        base: u64,
        offset: u32,
        value: u64,
    ) -> Option<usize>
        requires counter { counter < 2 ^ 32 }
        requires sure { TESTED ≡ false
            → IsSome (stores (goes_to self.old counter) 1 (base + offset) value) }
        ensures some { IfSome result (λ next.
            stores (goes_to self.old counter) 1 (base + offset) value
            ≡ Some (goes_to self.new next)) }
        ensures none { IfNone result
            ((stores (goes_to self.old counter) 1 (base + offset) value ≡ None)
            × (self.new ≡ self.old)) }
    {
        let place = self.place::<TESTED>(base, offset, 1)?;
        self.write_byte(place, value);
        Some(counter + 1)
    }

    /// The eight bytes of the value go to the sum of base and offset.
    fn store_word<const TESTED: bool>(
        &mut self,
        counter: usize,
        base: u64,
        offset: u32,
        value: u64,
    ) -> Option<usize>
        requires counter { counter < 2 ^ 32 }
        requires sure { TESTED ≡ false
            → IsSome (stores (goes_to self.old counter) 8 (base + offset) value) }
        ensures some { IfSome result (λ next.
            stores (goes_to self.old counter) 8 (base + offset) value
            ≡ Some (goes_to self.new next)) }
        ensures none { IfNone result
            ((stores (goes_to self.old counter) 8 (base + offset) value ≡ None)
            × (self.new ≡ self.old)) }
    {
        let place = self.place::<TESTED>(base, offset, 8)?;
        self.write_word(place, value);
        Some(counter + 1)
    }

    /// What is in the place of the slot array, if both are there; they are where it isn't tested.
    fn slot<const TESTED: bool>(&self, array: usize, place: usize) -> Option<u64>
        requires sure { TESTED ≡ false → IsSome (slot_in self.now.slots array place) }
        ensures { result ≡ slot_in self.now.slots array place }
    {
        if !TESTED {
            return Some(self.slots[array][place]);
        }
        self.slots.get(array)?.get(place).copied()
    }

    /// The place of the slot array becomes the value; both are there.
    fn set_slot(&mut self, array: usize, place: usize, value: u64)
        requires { IsSome (slot_in self.old.slots array place) }
        ensures { self.new ≡ record self.old { slots = slot_set self.old.slots array place value } }
    {
        self.slots[array][place] = value;
    }

    /// Exchanges the register with a place of a slot array, if both are there.
    fn swap<const TESTED: bool>(
        &mut self,
        counter: usize,
        register: Register,
        place: u64,
        array: u32,
    ) -> Option<usize>
        requires counter { counter < 2 ^ 32 }
        requires sure { TESTED ≡ false
            → IsSome (swaps (goes_to self.old counter) register place array) }
        ensures some { IfSome result (λ next.
            swaps (goes_to self.old counter) register place array
            ≡ Some (goes_to self.new next)) }
        ensures none { IfNone result
            ((swaps (goes_to self.old counter) register place array ≡ None)
            × (self.new ≡ self.old)) }
    {
        let value = self.slot::<TESTED>(array as usize, place as usize)?;
        self.set_slot(array as usize, place as usize, self.register(register));
        self.set(register, value);
        Some(counter + 1)
    }

    /// A block begins that is gone round so many times, if fewer than four are open.
    #[inline(always)]
    fn enter<const TESTED: bool>(&mut self, counter: usize, count: u32) -> Option<usize>
        requires counter { counter < 2 ^ 32 }
        requires sure { TESTED ≡ false → IsSome (enters (goes_to self.old counter) count) }
        ensures some { IfSome result (λ next.
            enters (goes_to self.old counter) count ≡ Some (goes_to self.new next)) }
        ensures none { IfNone result
            ((enters (goes_to self.old counter) count ≡ None) × (self.new ≡ self.old)) }
    {
        if TESTED && self.counters.is_full() {
            return None;
        }
        self.counters.enter(count);
        Some(counter + 1)
    }

    /// A block goes on behind its rep, or is left, if one is open.
    #[inline(always)]
    fn turn<const TESTED: bool>(&mut self, counter: usize, rep: u32) -> Option<usize>
        requires counter { counter < 2 ^ 32 }
        requires sure { TESTED ≡ false → IsSome (turns (goes_to self.old counter) rep) }
        ensures some { IfSome result (λ next.
            turns (goes_to self.old counter) rep ≡ Some (goes_to self.new next)) }
        ensures none { IfNone result
            ((turns (goes_to self.old counter) rep ≡ None) × (self.new ≡ self.old)) }
    {
        if TESTED && self.counters.is_empty() {
            return None;
        }
        if self.counters.turn() {
            return Some(rep as usize + 1);
        }
        Some(counter + 1)
    }

    /// The register becomes the value; the next instruction is the one behind this.
    fn assign(&mut self, counter: usize, register: Register, value: u64) -> usize
        requires { counter < 2 ^ 32 }
        ensures { sets (goes_to self.old counter) register value ≡ goes_to self.new result }
    {
        self.set(register, value);
        counter + 1
    }

    /// The register becomes the other, which becomes 0; the next instruction is the one behind this.
    fn take(&mut self, counter: usize, destination: Register, source: Register) -> usize
        requires { counter < 2 ^ 32 }
        ensures { moved (goes_to self.old counter) destination source ≡ goes_to self.new result }
    {
        let value = self.register(source);
        self.set(destination, value);
        self.set(source, 0);
        counter + 1
    }
}

/// The next instruction is the target where the test holds, else the one behind this.
fn go_if(counter: usize, test: bool, target: u32) -> usize
    requires { counter < 2 ^ 32 }
    ensures { result ≡ (if test then target else counter + 1) }
{
    if test { target as usize } else { counter + 1 }
}

/// The bits moved up.
fn shifted_left(value: u64, places: u32) -> u64
    ensures { result ≡ (if nat_lt places 64 then wrapped (value * 2 ^ places) else 0) }
{
    value.checked_shl(places).unwrap_or(0)
}

/// The bits moved down.
fn shifted_right(value: u64, places: u32) -> u64
    ensures { result ≡ (if nat_lt places 64 then value / 2 ^ places else 0) }
{
    value.checked_shr(places).unwrap_or(0)
}

fn sum(left: u64, right: u64) -> u64
    ensures { result ≡ wrapped (left + right) }
{
    left.wrapping_add(right)
}

fn difference(left: u64, right: u64) -> u64
    ensures { result ≡ wrapped (left + 2 ^ 64 - right) }
{
    left.wrapping_sub(right)
}

/// Whether all these bits are in the value.
fn has(value: u64, bits: u32) -> bool
    ensures { result ≡ within bits value }
{
    let bits = u64::from(bits);
    value & bits == bits
}

/// Whether the local instruction can be done: what it names of memory and slot arrays is there, and
/// there is room for one more counter, or one to count.
#[tactic(auto, unfolding(zl_code::specs::Local::local_effect))]
pub fn can_run(cpu: &Cpu, local: &LocalInstr) -> bool
    ensures { result ≡ is_some (local_effect local.now cpu.now) }
{
    match local {
        LocalInstr::Swap { place, array, .. } => {
            let place = cpu.register(*place);
            cpu.slot::<true>(*array as usize, place as usize).is_some()
        }
        LocalInstr::LoadByte { base, offset, .. } | LocalInstr::StoreByte { base, offset, .. } => {
            cpu.place::<true>(cpu.register(*base), *offset, 1).is_some()
        }
        LocalInstr::LoadWord { base, offset, .. } | LocalInstr::StoreWord { base, offset, .. } => {
            cpu.place::<true>(cpu.register(*base), *offset, 8).is_some()
        }
        LocalInstr::Rep { .. } => !cpu.counters.is_full(),
        LocalInstr::EndRep { .. } => !cpu.counters.is_empty(),
        _ => true,
    }
}

/// Does the local instruction. Where it can't be done, nothing changes; it can be done where that
/// isn't tested.
#[tactic(auto, unfolding(zl_code::specs::Local::local_effect))]
// Part of each turn of a run.
#[inline(always)]
pub fn run<const TESTED: bool>(cpu: &mut Cpu, counter: usize, local: &LocalInstr) -> Option<usize>
    requires counter { counter < 2 ^ 32 }
    requires sure { TESTED ≡ false
        → IsSome (local_effect local.now (goes_to cpu.old counter)) }
    ensures some { IfSome result (λ next.
        local_effect local.now (goes_to cpu.old counter)
        ≡ Some (goes_to cpu.new next)) }
    ensures none { IfNone result
        ((local_effect local.now (goes_to cpu.old counter) ≡ None)
        × (cpu.new ≡ cpu.old)) }
{
    let next = match *local {
        LocalInstr::Swap {
            register,
            place,
            array,
        } => return cpu.swap::<TESTED>(counter, register, cpu.register(place), array),
        LocalInstr::LoadByte {
            destination,
            base,
            offset,
        } => return cpu.load_byte::<TESTED>(counter, destination, cpu.register(base), offset),
        LocalInstr::LoadWord {
            destination,
            base,
            offset,
        } => return cpu.load_word::<TESTED>(counter, destination, cpu.register(base), offset),
        LocalInstr::StoreByte {
            base,
            source,
            offset,
        } => return cpu.store_byte::<TESTED>(
            counter,
            cpu.register(base),
            offset,
            cpu.register(source),
        ),
        LocalInstr::StoreWord {
            base,
            source,
            offset,
        } => return cpu.store_word::<TESTED>(
            counter,
            cpu.register(base),
            offset,
            cpu.register(source),
        ),
        LocalInstr::Rep { count, .. } => return cpu.enter::<TESTED>(counter, count),
        LocalInstr::EndRep { rep } => return cpu.turn::<TESTED>(counter, rep),
        LocalInstr::Const {
            destination,
            number,
        } => cpu.assign(counter, destination, u64::from(number)),
        LocalInstr::Move {
            destination,
            source,
        } => cpu.assign(counter, destination, cpu.register(source)),
        LocalInstr::Add {
            destination,
            left,
            right,
        } => cpu.assign(
            counter,
            destination,
            sum(cpu.register(left), cpu.register(right)),
        ),
        LocalInstr::AddNumber {
            destination,
            left,
            number,
        } => cpu.assign(
            counter,
            destination,
            sum(cpu.register(left), u64::from(number)),
        ),
        LocalInstr::Subtract {
            destination,
            left,
            right,
        } => cpu.assign(
            counter,
            destination,
            difference(cpu.register(left), cpu.register(right)),
        ),
        LocalInstr::And {
            destination,
            left,
            right,
        } => cpu.assign(
            counter,
            destination,
            cpu.register(left) & cpu.register(right),
        ),
        LocalInstr::Or {
            destination,
            left,
            right,
        } => cpu.assign(
            counter,
            destination,
            cpu.register(left) | cpu.register(right),
        ),
        LocalInstr::Xor {
            destination,
            left,
            right,
        } => cpu.assign(
            counter,
            destination,
            cpu.register(left) ^ cpu.register(right),
        ),
        LocalInstr::ShiftLeft {
            destination,
            source,
            places,
        } => cpu.assign(
            counter,
            destination,
            shifted_left(cpu.register(source), places),
        ),
        LocalInstr::ShiftRight {
            destination,
            source,
            places,
        } => cpu.assign(
            counter,
            destination,
            shifted_right(cpu.register(source), places),
        ),
        LocalInstr::Take {
            destination,
            source,
        } => cpu.take(counter, destination, source),
        LocalInstr::Jump { target } => target as usize,
        LocalInstr::JumpZero { register, target } => go_if(
            counter,
            cpu.register(register) == 0,
            target,
        ),
        LocalInstr::JumpNotZero { register, target } => go_if(
            counter,
            cpu.register(register) != 0,
            target,
        ),
        LocalInstr::JumpEqual {
            register,
            number,
            target,
        } => go_if(counter, cpu.register(register) == u64::from(number), target),
        LocalInstr::JumpNotEqual {
            register,
            number,
            target,
        } => go_if(counter, cpu.register(register) != u64::from(number), target),
        LocalInstr::JumpBelow {
            register,
            number,
            target,
        } => go_if(counter, cpu.register(register) < u64::from(number), target),
        LocalInstr::JumpNotBelow {
            register,
            number,
            target,
        } => go_if(counter, cpu.register(register) >= u64::from(number), target),
        LocalInstr::JumpHas {
            register,
            bits,
            target,
        } => go_if(counter, has(cpu.register(register), bits), target),
        LocalInstr::JumpHasNot {
            register,
            bits,
            target,
        } => go_if(counter, !has(cpu.register(register), bits), target),
    };
    Some(next)
}

/// Does the local instruction, which can be done.
#[inline(always)]
pub fn run_sure(cpu: &mut Cpu, counter: usize, local: &LocalInstr) -> usize
    requires counter { counter < 2 ^ 32 }
    requires sure { IsSome (local_effect local.now (goes_to cpu.old counter)) }
    ensures { local_effect local.now (goes_to cpu.old counter) ≡ Some (goes_to cpu.new result) }
{
    match run::<false>(cpu, counter, local) {
        Some(next) => next,
        None => unreachable!(),
    }
}
