//! The counters of the blocks that a process is in.

ghost use Rattle.std.specs.Prelude.{◌≡◌, ◌↔◌, ◌==◌, ◌<◌, ◌∷◌, [], nat_lt, not, length, IsTrue};
ghost use Rattle.zl_code.specs.Limits.{most_blocks};
ghost use Rattle.zl_interp.specs.Counters.{IfTurned};

use std::marker::Model;

/// At most four counters, one for each counted block that a process is in, the innermost first.
#[derive(Drop)]
pub(crate) struct Counters {
    count: u8,
    values: [u32; 4],
}

impl Model for Counters {
    ghost use Rattle.std.specs.Prelude.{ℕ, List, ◌≤◌, take};

    ghost Value = { List ℕ };

    ghost view = { λ c. take c.count c.values };

    ghost invariant = { λ c. c.count ≤ 4 };
}

impl Counters {
    /// None.
    pub const fn none() -> Counters
        ensures { result ≡ [] }
    {
        Counters {
            count: 0,
            values: [0; 4],
        }
    }

    /// All of them, the innermost first.
    fn all(&self) -> &[u32]
        ensures { result.now ≡ self.now }
    {
        &self.values[..usize::from(self.count)]
    }

    /// The same once more.
    pub fn copy(&self) -> Counters
        ensures { result ≡ self.now }
    {
        Counters {
            count: self.count,
            values: self.values,
        }
    }

    /// Whether the others are the same.
    pub fn is_same(&self, other: &Counters) -> bool
        ensures { IsTrue result ↔ self.now ≡ other.now }
    {
        self.all() == other.all()
    }

    /// Whether no further block can be entered.
    pub fn is_full(&self) -> bool
        ensures { result ≡ not (nat_lt (length self.now) most_blocks) }
    {
        self.count >= 4
    }

    /// Whether no block is open.
    pub fn is_empty(&self) -> bool
        ensures { result ≡ (length self.now == 0) }
    {
        self.count == 0
    }

    /// A block is entered, which is gone round so many times.
    pub fn enter(&mut self, count: u32)
        requires { length self.old < most_blocks }
        ensures { self.new ≡ count ∷ self.old }
    {
        let [a, b, c, _] = self.values;
        self.values = [count, a, b, c];
        self.count += 1;
    }

    /// Whether the innermost block is gone round once more, which is counted; else it is left.
    pub fn turn(&mut self) -> bool
        requires { 0 < length self.old }
        ensures { IfTurned self.old result self.new }
    {
        let [n, a, b, c] = self.values;
        if n > 1 {
            self.values = [n - 1, a, b, c];
            return true;
        }
        self.values = [a, b, c, 0];
        self.count -= 1;
        false
    }
}
