//! Laws of the lab's own step: each function's contract is one law, and its body is empty.

ghost use Rattle.std.specs.Prelude.{ℕ, ◌≡◌, Some, IsSome, IsTrue};
ghost use Rattle.zl_rights.specs.Signals.{is_process, is_ready};
ghost use Rattle.zl_code.specs.declared.history.TraceItem.{TraceItem};
ghost use Rattle.zl_code.specs.Image.{Library};
ghost use Rattle.zl_code.specs.Own.{AreFree, OwnWorld};
ghost use Rattle.zl_code.specs.OwnSteps.{own_step};
ghost use Rattle.zl_code.specs.Sound.{IsSound};
ghost use Rattle.zl_code.specs.Steps.{Step};

/// In a sound world, where the values for new handles are those of its tables, the own step of a
/// process is a step of it.
pub fn the_own_step_is_a_step()
    ensures { (lib : Library) (o after : OwnWorld) (p : ℕ) (x : TraceItem)
        → IsSound o.world → AreFree o → own_step lib o p ≡ Some (after, x)
        → Step lib o.world p x after.world }
{}

/// A ready process has an own step.
pub fn a_ready_process_has_an_own_step()
    ensures { (lib : Library) (o : OwnWorld) (p : ℕ)
        → IsTrue (is_process o.world is_ready p) → IsSome (own_step lib o p) }
{}

/// No two own steps of a process differ: neither in the world, nor in the values, nor in the item.
pub fn the_own_step_is_one()
    ensures { (lib : Library) (o u v : OwnWorld) (p : ℕ) (x y : TraceItem)
        → own_step lib o p ≡ Some (u, x) → own_step lib o p ≡ Some (v, y)
        → (u ≡ v) × (x ≡ y) }
{}
