//! The values in a slot array, brought together before a call takes them away.

ghost use Rattle.std.specs.Prelude.{◌≡◌, ◌≤◌, Some, IfSome, IsTrue, drop, length, replicate, slice_get, take};
ghost use Rattle.zl_code.specs.Asked.{filled_among, has_places};
ghost use Rattle.zl_code.specs.Effects.{slots_filled};

use crate::cpu::Cpu;

impl Cpu {
    /// Brings the values in the first places of the slot array to its front, past those that are 0,
    /// and says how many they are; it has as many places. Behind them any values stand in these
    /// places, which have to be emptied: what comes of that is the same as before.
    pub fn pack_places(&mut self, array: u32, count: usize) -> usize
        requires { IsTrue (has_places count (slice_get self.old.slots array)) }
        ensures packed { IfSome (slice_get self.new.slots array) (λ places. take result places
            ≡ filled_among count (slice_get self.old.slots array)) }
        ensures within { result ≤ count }
        ensures there { IsTrue (has_places count (slice_get self.new.slots array)) }
        ensures emptied { record self.new {
          slots = slots_filled self.new.slots (Some (array, replicate count 0));
        } ≡ record self.old {
          slots = slots_filled self.old.slots (Some (array, replicate count 0));
        } }
    {
        pack(&mut self.slots[array as usize], count)
    }
}

/// Brings the values in the first places to their front that aren't 0, and says how many they are.
fn pack(places: &mut [u64], count: usize) -> usize
    requires { count ≤ length places.old }
    ensures packed { take result places.new ≡ filled_among count (Some places.old) }
    ensures within { result ≤ count }
    ensures others { drop count places.new ≡ drop count places.old }
{
    let mut packed = 0;
    for n in 0..count {
        let value = places[n];
        if value != 0 {
            places[packed] = value;
            packed += 1;
        }
    }
    packed
}
