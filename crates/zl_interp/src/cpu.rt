//! What a process computes with, and its registers.

ghost use Rattle.std.specs.Prelude.{◌≡◌, ◌↔◌, IsTrue, ◌+◌, ◌<◌, ◌≤◌, ◌^◌, [], ◌∷◌, length, map, take, IfOk, OnOk};
ghost use Rattle.zl_rights.specs.World.{written};
ghost use Rattle.zl_code.specs.Asked.{used};
ghost use Rattle.zl_code.specs.Limits.{most_handles};
ghost use Rattle.zl_code.specs.Local.{reg};
ghost use Rattle.zl_code.specs.Starting.{cpu_given};
ghost use Rattle.zl_interp.specs.Cpu.{started_cpu, register_set, handle_register};
ghost use Rattle.zl_interp.specs.Running.{empty_places};

use crate::counters::Counters;
use std::alloc::{AllocError, Global};
use std::marker::Model;
use zl_code::{HandleList, Image, Register, SlotArray};
use zl_rights::HValue;

/// What a process computes with: program counter, registers, data memory, slot arrays and the counters
/// of the blocks that it is in. To it a handle is a number.
///
/// Source: own profile.
#[derive(Drop)]
pub struct Cpu {
    pub(crate) counter: usize,
    pub(crate) registers: [u64; 32],
    pub(crate) memory: Vec<u8>,
    pub(crate) slots: Vec<Vec<u64>>,
    pub(crate) counters: Counters,
}

impl Model for Cpu {
    ghost use Rattle.std.specs.Prelude.{map};
    ghost use Rattle.zl_rights.specs.World.{Cpu as CpuValue};

    ghost Value = { CpuValue };

    ghost view = { λ c. record {
      counter = c.counter;
      registers = c.registers;
      memory = c.memory.items;
      slots = map (λ places. places.items) c.slots.items;
      counters = c.counters;
    } };
}

impl Cpu {
    /// The Cpu of a process that runs the image and starts with the word: all is 0 but the word in
    /// register 1. Only memory can be refused.
    pub fn new(alloc: Global, image: &Image, word: u64) -> Result<Cpu, AllocError>
        ensures { IfOk result (λ cpu. cpu ≡ started_cpu image.now word) }
    {
        let mut registers = [0; 32];
        registers[1] = word;
        let memory = vec![in alloc; 0; image.memory() as usize]?;
        let slots = empty_slots(alloc, image.slots())?;
        Ok(Cpu {
            counter: 0,
            registers,
            memory,
            slots,
            counters: Counters::none(),
        })
    }

    /// Another Cpu like this one. Only memory can be refused. In line it is made where it goes, and not
    /// moved there.
    #[inline(always)]
    pub fn copy(&self, alloc: Global) -> Result<Cpu, AllocError>
        ensures { IfOk result (λ cpu. cpu ≡ self.now) }
    {
        Ok(Cpu {
            counter: self.counter,
            registers: self.registers,
            memory: copied(alloc, &self.memory)?,
            slots: copied_slots(alloc, &self.slots)?,
            counters: self.counters.copy(),
        })
    }

    /// Becomes the other Cpu; data memory stays where it is, if there is room. Only memory can be refused.
    pub fn copy_from(&mut self, alloc: Global, other: &Cpu) -> Result<(), AllocError>
        ensures { OnOk result (self.new ≡ other.now) }
    {
        refill(&mut self.memory, &other.memory)?;
        self.slots = copied_slots(alloc, &other.slots)?;
        self.counter = other.counter;
        self.registers = other.registers;
        self.counters = other.counters.copy();
        Ok(())
    }

    /// Whether the other Cpu is the same in each part.
    pub fn is_same(&self, other: &Cpu) -> bool
        ensures { IsTrue result ↔ self.now ≡ other.now }
    {
        self.counter == other.counter
            && self.registers == other.registers
            && self.memory.as_slice() == other.memory.as_slice()
            && are_same_slots(&self.slots, &other.slots)
            && self.counters.is_same(&other.counters)
    }

    /// The number of the next instruction.
    pub fn counter(&self) -> usize
        ensures { result ≡ self.now.counter }
    {
        self.counter
    }

    /// What all registers hold, in their order.
    pub fn registers(&self) -> &[u64]
        ensures { result.now ≡ self.now.registers }
    {
        &self.registers
    }

    /// What the register holds.
    pub fn register(&self, register: Register) -> u64
        ensures { result ≡ reg self.now register }
    {
        self.registers[register.number() as usize]
    }

    /// The register becomes the value.
    pub fn set(&mut self, register: Register, value: u64)
        ensures { self.new ≡ register_set self.old register value }
    {
        self.registers[register.number() as usize] = value;
    }

    /// The register of this number becomes the value, if there is one.
    pub fn set_number(&mut self, number: usize, value: u64)
        ensures { self.new ≡ register_set self.old number value }
    {
        if number < Register::COUNT {
            self.registers[number] = value;
        }
    }

    /// What the registers of the list hold, in order, and how many they are.
    pub fn listed(&self, handles: &HandleList) -> ([u64; HandleList::MOST], usize)
        requires { length handles.now.places ≡ most_handles }
        ensures values { take result.1 result.0 ≡ map (reg self.now) (used handles.now.places) }
        ensures within { result.1 ≤ length result.0 }
    {
        let mut values = [0; HandleList::MOST];
        let mut count = 0;
        for place in 0..HandleList::MOST {
            let Some(register) = handles.get(place) else {
                continue;
            };
            values[count] = self.register(register);
            count += 1;
        }
        (values, count)
    }

    /// The registers of the list become 0.
    pub fn clear(&mut self, handles: &HandleList)
        requires { length handles.now.places ≡ most_handles }
        ensures { self.new ≡ record self.old {
          registers = written self.old.registers (used handles.now.places) [];
        } }
    {
        for place in 0..HandleList::MOST {
            let Some(register) = handles.get(place) else {
                continue;
            };
            self.set(register, 0);
        }
    }

    /// The register of this handle of a process that starts, counted from 0, becomes its value: the
    /// first is in register 0, the others stand from register 2 on. There are 7 at most.
    pub fn give(&mut self, number: usize, value: HValue)
        requires { number < 7 }
        ensures { self.new ≡ register_set self.old (handle_register number) value }
    {
        let register = if number == 0 { 0 } else { number + 1 };
        self.registers[register] = u64::from(value);
    }

    /// What a process starts with that a call starts: its one handle in register 0, and the word in
    /// register 1.
    pub fn start(&mut self, handle: HValue, word: u64)
        ensures { self.new ≡ cpu_given (handle ∷ []) word self.old }
    {
        self.registers[0] = u64::from(handle);
        self.registers[1] = word;
    }

    /// The next instruction is the one behind this, which has a number below 2^32.
    pub fn advance(&mut self)
        requires { self.old.counter < 2 ^ 32 }
        ensures { self.new ≡ record self.old { counter = self.old.counter + 1 } }
    {
        self.counter += 1;
    }
}

/// Slot arrays with 0 in each place.
fn empty_slots(alloc: Global, arrays: &[SlotArray]) -> Result<Vec<Vec<u64>>, AllocError>
    ensures { IfOk result (λ slots. map (λ places. places.items) slots.items
        ≡ map empty_places arrays.now) }
{
    let mut slots = Vec::with_capacity(alloc, arrays.len())?;
    for array in arrays {
        let places = vec![in alloc; 0; array.length as usize]?;
        slots.push(places)?;
    }
    Ok(slots)
}

/// The same slot arrays once more.
fn copied_slots(alloc: Global, arrays: &[Vec<u64>]) -> Result<Vec<Vec<u64>>, AllocError>
    ensures { IfOk result (λ slots. map (λ places. places.items) slots.items
        ≡ map (λ places. places.items) arrays.now) }
{
    let mut slots = Vec::with_capacity(alloc, arrays.len())?;
    for array in arrays {
        let places = copied(alloc, array)?;
        slots.push(places)?;
    }
    Ok(slots)
}

/// The same items once more, in one block.
fn copied<T: Copy>(alloc: Global, items: &[T]) -> Result<Vec<T>, AllocError>
    ensures { IfOk result (λ copy. copy.items ≡ items.now) }
{
    let mut copy = Vec::with_capacity(alloc, items.len())?;
    copy.extend_from_slice(items)?;
    Ok(copy)
}

/// The items come in place of those that are there.
fn refill<T: Copy>(items: &mut Vec<T>, others: &[T]) -> Result<(), AllocError>
    ensures { OnOk result (items.new.items ≡ others.now) }
{
    items.clear();
    items.extend_from_slice(others)
}

/// Whether both have the same in each place of each slot array.
fn are_same_slots(one: &[Vec<u64>], other: &[Vec<u64>]) -> bool
    ensures { IsTrue result ↔ map (λ places. places.items) one.now
        ≡ map (λ places. places.items) other.now }
{
    if one.len() != other.len() {
        return false;
    }
    for n in 0..one.len() {
        if !has_same_places(&one[n], &other[n]) {
            return false;
        }
    }
    true
}

fn has_same_places(one: &Vec<u64>, other: &Vec<u64>) -> bool
    ensures { IsTrue result ↔ one.now.items ≡ other.now.items }
{
    one.as_slice() == other.as_slice()
}
