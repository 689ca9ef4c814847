//! Whether two images are the same.

ghost use Rattle.std.specs.Prelude.{◌≡◌, ◌↔◌, IsTrue};
ghost use Rattle.zl_code.specs.Same.{DeclaresSame, HasSameHeader, HasSameNeeds, HaveSameBytes};
ghost use Rattle.zl_code.specs.Spells.{instr_bytes};

use crate::image::{Image, SlotArray, Start};
use crate::instr::{Instr, LocalInstr};
use zl_rights::Condition;

impl Image {
    /// Whether the other image is the same, field by field. Own profile.
    pub fn is_same(&self, other: &Image) -> bool
        ensures { IsTrue result ↔ self.now ≡ other.now }
    {
        if !has_same_header(self, other) || !declares_same(self, other) {
            return false;
        }
        is_same_code(self.code(), other.code())
    }
}

/// Whether the images have the same version, the same mark, the same numbers and the same needs.
fn has_same_header(one: &Image, other: &Image) -> bool
    ensures { IsTrue result ↔ HasSameHeader one.now other.now }
{
    one.version() == other.version()
        && one.is_raw() == other.is_raw()
        && one.memory() == other.memory()
        && one.budget() == other.budget()
        && has_same_needs(one, other)
}

/// Whether the images need the same.
fn has_same_needs(one: &Image, other: &Image) -> bool
    ensures { IsTrue result ↔ HasSameNeeds one.now other.now }
{
    one.needs(Condition::NewChannel) == other.needs(Condition::NewChannel)
        && one.needs(Condition::NewEvent) == other.needs(Condition::NewEvent)
        && one.needs(Condition::NewEventpair) == other.needs(Condition::NewEventpair)
        && one.needs(Condition::NewPort) == other.needs(Condition::NewPort)
        && one.needs(Condition::NewProcess) == other.needs(Condition::NewProcess)
}

/// Whether the images declare the same handles and slot arrays.
fn declares_same(one: &Image, other: &Image) -> bool
    ensures { IsTrue result ↔ DeclaresSame one.now other.now }
{
    are_same_starts(one.starts(), other.starts()) && are_same_slots(one.slots(), other.slots())
}

fn are_same_starts(one: &[Start], other: &[Start]) -> bool
    ensures { IsTrue result ↔ one.now ≡ other.now }
{
    one == other
}

fn are_same_slots(one: &[SlotArray], other: &[SlotArray]) -> bool
    ensures { IsTrue result ↔ one.now ≡ other.now }
{
    one == other
}

/// Whether both have as many instructions, spelled by the same bytes.
fn is_same_code(one: &[Instr], other: &[Instr]) -> bool
    ensures same { IsTrue result → HaveSameBytes one.now other.now }
    ensures itself { one.now ≡ other.now → IsTrue result }
{
    if one.len() != other.len() {
        return false;
    }
    for n in 0..one.len() {
        if !one[n].is_spelled_like(&other[n]) {
            return false;
        }
    }
    true
}

impl Instr {
    /// Whether the same 16 bytes spell both.
    // Nearly all that are compared are local ones and the same, which is seen without making bytes.
    pub fn is_spelled_like(&self, other: &Instr) -> bool
        ensures { IsTrue result ↔ instr_bytes self.now ≡ instr_bytes other.now }
    {
        match (self, other) {
            (Instr::Local(one), Instr::Local(other)) if has_same_fields(one, other) => true,
            _ => self.to_bytes() == other.to_bytes(),
        }
    }
}

// For each local instruction a match on the other.
macro_rules! same_fields {
    ($one:ident $other:ident $($variant:ident($($field:ident $same:ident),+))+) => {
        match $one {
            $(LocalInstr::$variant { $($field),+ } => match $other {
                LocalInstr::$variant { $($field: $same),+ } => $($field == $same)&&+,
                _ => false,
            },)+
        }
    };
}

/// Whether both are one local instruction, with the same in each field.
fn has_same_fields(one: &LocalInstr, other: &LocalInstr) -> bool
    ensures { IsTrue result ↔ one.now ≡ other.now }
{
    same_fields! {
        one other
        Const(destination d, number n) Move(destination d, source s)
        Add(destination d, left l, right r) AddNumber(destination d, left l, number n)
        Subtract(destination d, left l, right r) And(destination d, left l, right r)
        Or(destination d, left l, right r) Xor(destination d, left l, right r)
        ShiftLeft(destination d, source s, places p) ShiftRight(destination d, source s, places p)
        Take(destination d, source s) Swap(register r, place p, array a)
        LoadByte(destination d, base b, offset o) LoadWord(destination d, base b, offset o)
        StoreByte(base b, source s, offset o) StoreWord(base b, source s, offset o)
        Jump(target t) JumpZero(register r, target t) JumpNotZero(register r, target t)
        JumpEqual(register r, number n, target t) JumpNotEqual(register r, number n, target t)
        JumpBelow(register r, number n, target t) JumpNotBelow(register r, number n, target t)
        JumpHas(register r, bits b, target t) JumpHasNot(register r, bits b, target t)
        Rep(count c, end e) EndRep(rep r)
    }
}
