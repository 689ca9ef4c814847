//! The slot arrays of a Cpu, as calls read and fill them.

ghost use Rattle.std.specs.Prelude.{◌≡◌, ◌≤◌, Some, IsTrue, length, min, replicate, slice_get};
ghost use Rattle.std.specs.Option.{option_map};
ghost use Rattle.zl_code.specs.Asked.{has_places, zeros_in_front};
ghost use Rattle.zl_code.specs.Effects.{slots_filled};
ghost use Rattle.zl_code.specs.Local.{overwritten};

use crate::cpu::Cpu;
use zl_rights::HValue;

impl Cpu {
    /// What the places of the slot array hold, if it is there.
    pub fn places(&self, array: u32) -> Option<&[u64]>
        ensures { option_map (λ places. places.now) result ≡ slice_get self.now.slots array }
    {
        Some(self.slots.get(array as usize)?)
    }

    /// The values stand in the slot array from its first place on; it has at least as many places.
    #[tactic(auto, using(crate::proofs::Slots::array_filled))]
    pub fn fill_places(&mut self, array: u32, values: &[HValue])
        requires { IsTrue (has_places (length values.now) (slice_get self.old.slots array)) }
        ensures { self.new ≡ record self.old {
          slots = slots_filled self.old.slots (Some (array, values.now));
        } }
    {
        fill_front(&mut self.slots[array as usize], values);
    }

    /// So many places of the slot array become 0, from the first on; it has at least as many.
    #[tactic(auto, using(crate::proofs::Slots::array_filled))]
    pub fn empty_places(&mut self, array: u32, count: usize)
        requires { IsTrue (has_places count (slice_get self.old.slots array)) }
        ensures { self.new ≡ record self.old {
          slots = slots_filled self.old.slots (Some (array, replicate count 0));
        } }
    {
        empty_front(&mut self.slots[array as usize], count);
    }
}

/// For how many handles of a message the places have room: those in front that hold 0, at most 64.
pub fn room_for_handles(places: &[u64]) -> usize
    ensures { result ≡ min (zeros_in_front places.now) 64 }
{
    places
        .iter()
        .take_while(|value| **value == 0)
        .take(64)
        .count()
}

/// The values stand in the first places.
fn fill_front(places: &mut [u64], values: &[HValue])
    requires { length values.now ≤ length places.old }
    ensures { places.new ≡ overwritten places.old 0 values.now }
{
    for n in 0..values.len() {
        places[n] = u64::from(values[n]);
    }
}

/// So many of the first places become 0.
fn empty_front(places: &mut [u64], count: usize)
    requires { count ≤ length places.old }
    ensures { places.new ≡ overwritten places.old 0 (replicate count 0) }
{
    places[..count].fill(0);
}
