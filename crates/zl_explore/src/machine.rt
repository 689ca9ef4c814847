//! What is explored.

ghost use Rattle.std.specs.Prelude.{ℕ, ◌≡◌, List, Option, IfOk, IsTrue};
ghost use Rattle.zl_code.specs.declared.history.TraceItem.{TraceItem as Item};

use std::alloc::AllocError;
use zl_code::TraceItem;
use zl_rights::Pid;

/// A machine of processes, of which each turn has one outcome.
pub trait Machine: Drop {
    /// The processes that can go.
    ghost ready: { Self → List ℕ };

    /// What a turn of a process does.
    ghost next: { Self → ℕ → Self };

    /// What is told of a turn of a process.
    ghost tells: { Self → ℕ → Option Item };

    /// The processes that can go.
    fn ready(&self) -> Result<Vec<Pid>, AllocError>
        ensures { IfOk result (λ pids. pids.items ≡ ready self.now) };

    /// Another machine like this one.
    fn copy(&self) -> Result<Self, AllocError>
        ensures { IfOk result (λ other. other ≡ self.now) };

    /// The machine behind a turn of the process, and what is told of the turn.
    fn turn(self, pid: Pid) -> Result<(Self, Option<TraceItem>), AllocError>
        ensures next { IfOk result (λ behind. behind.0 ≡ next self pid) }
        ensures told { IfOk result (λ behind. behind.1 ≡ tells self pid) };

    /// Whether the other is the same. It may say no of the same, at the cost of time.
    fn is_same(&self, other: &Self) -> bool
        ensures { IsTrue result → self.now ≡ other.now };

    /// A number by which machines that are the same are found. Where it differs for the same, they are
    /// told apart, at the cost of time.
    fn digest(&self) -> u64;
}
