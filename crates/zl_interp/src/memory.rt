//! The data memory of a Cpu.

ghost use Rattle.std.specs.Prelude.{◌≡◌, ◌+◌, ◌≤◌, true, false, length, drop, take, IsTrue, IfSome, IfNone, OnSome};
ghost use Rattle.zl_code.specs.Local.{is_in_memory, overwritten};
ghost use Rattle.zl_code.specs.Spells.{number_of};
ghost use Rattle.zl_interp.specs.Running.{memory_set};

use crate::cpu::Cpu;

impl Cpu {
    /// The bytes from the address on, if so many lie in the memory.
    pub fn bytes(&self, address: u64, count: u64) -> Option<&[u8]>
        ensures found { IfSome result (λ bytes. bytes.now
            ≡ take count (drop address self.now.memory)) }
        ensures within { OnSome result (is_in_memory self.now address count ≡ true) }
        ensures missing { IfNone result (is_in_memory self.now address count ≡ false) }
    {
        let len = self.memory.len() as u64;
        match address.checked_add(count) {
            Some(end) if end <= len => Some(&self.memory[address as usize..end as usize]),
            _ => None,
        }
    }

    /// The bytes stand in the memory from the address on; they lie in it.
    pub fn store(&mut self, address: u64, bytes: &[u8])
        requires { IsTrue (is_in_memory self.old address (length bytes.now)) }
        ensures { self.new ≡ record self.old {
          memory = overwritten self.old.memory address bytes.now;
        } }
    {
        let start = address as usize;
        self.memory[start..start + bytes.len()].copy_from_slice(bytes);
    }

    /// Where the bytes from the sum of base and offset on begin, if so many lie in the memory; they do
    /// where it isn't tested.
    pub(crate) fn place<const TESTED: bool>(
        &self,
        base: u64,
        offset: u32,
        count: usize,
    ) -> Option<usize>
        requires few { count ≤ 8 }
        requires sure { TESTED ≡ false → is_in_memory self.now (base + offset) count ≡ true }
        ensures found { IfSome result (λ place. place ≡ base + offset) }
        ensures within { OnSome result (is_in_memory self.now (base + offset) count ≡ true) }
        ensures missing { IfNone result (is_in_memory self.now (base + offset) count ≡ false) }
    {
        let len = self.memory.len() as u64;
        // By the length the prover knows that this sum has 64 bits.
        if !TESTED {
            return Some((base + u64::from(offset)) as usize);
        }
        match base.checked_add(u64::from(offset) + count as u64) {
            Some(end) if end <= len => Some(end as usize - count),
            _ => None,
        }
    }

    pub(crate) fn byte_at(&self, place: usize) -> u64
        requires { place + 1 ≤ length self.now.memory }
        ensures { result ≡ number_of (take 1 (drop place self.now.memory)) }
    {
        u64::from(self.memory[place])
    }

    pub(crate) fn word_at(&self, place: usize) -> u64
        requires { place + 8 ≤ length self.now.memory }
        ensures { result ≡ number_of (take 8 (drop place self.now.memory)) }
    {
        u64::from_le_bytes([
            self.memory[place],
            self.memory[place + 1],
            self.memory[place + 2],
            self.memory[place + 3],
            self.memory[place + 4],
            self.memory[place + 5],
            self.memory[place + 6],
            self.memory[place + 7],
        ])
    }

    pub(crate) fn write_byte(&mut self, place: usize, value: u64)
        requires { place + 1 ≤ length self.old.memory }
        ensures { self.new ≡ memory_set self.old 1 place value }
    {
        let [low, ..] = value.to_le_bytes();
        self.memory[place..place + 1].copy_from_slice(&[low]);
    }

    pub(crate) fn write_word(&mut self, place: usize, value: u64)
        requires { place + 8 ≤ length self.old.memory }
        ensures { self.new ≡ memory_set self.old 8 place value }
    {
        self.memory[place..place + 8].copy_from_slice(&value.to_le_bytes());
    }
}
