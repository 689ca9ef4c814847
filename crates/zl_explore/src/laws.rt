//! Laws of parts, by which searches of all parts are one over all orders: each function's contract is one
//! law, and its body is empty.

ghost use Rattle.std.specs.Prelude.{ℕ, ◌≡◌, ◌≤◌, Bool, false, List};
ghost use Rattle.zl_calls.specs.World.{Machine, own_here};
ghost use Rattle.zl_explore.specs.AllParts.{AreAmong, AreKnown};
ghost use Rattle.zl_explore.specs.Sights.{StaysClear};
ghost use Rattle.zl_explore.specs.Searching.{AreAll, HasNone, IsEndless, States};
ghost use Rattle.zl_explore.specs.declared.bad.Bad.{Bad};
ghost use Rattle.zl_explore.specs.declared.fact.Fact.{Fact};

/// Where searches of all parts told all, each order that comes to an end comes to one that one of them told.
pub fn parts_have_all_ends()
    ensures { (m : Machine) (parts from : ℕ) (told : ℕ → List States) (bad : List Bad)
        (never : List (List Fact)) (endless : ℕ → Bool) (ends : List States) → AreKnown m parts from told bad never endless
        → AreAmong parts told ends → AreAll m.programs (own_here m) ends }
{}

/// Where searches of all parts told all, no order has an item that a pattern names.
pub fn parts_have_none()
    ensures { (m : Machine) (parts from : ℕ) (told : ℕ → List States) (bad : List Bad)
        (never : List (List Fact)) (endless : ℕ → Bool) → AreKnown m parts from told bad never endless
        → HasNone m.programs (own_here m) bad }
{}

/// Where searches of all parts told all, no order leads to a world in which what may not be so at once is.
pub fn parts_stay_clear()
    ensures { (m : Machine) (parts from : ℕ) (told : ℕ → List States) (bad : List Bad)
        (never : List (List Fact)) (endless : ℕ → Bool) → AreKnown m parts from told bad never endless
        → StaysClear m.programs (own_here m) never }
{}

/// Where searches of all parts told all, and none of them that an order goes on for ever, none does.
pub fn parts_come_to_ends()
    ensures { (m : Machine) (parts from : ℕ) (told : ℕ → List States) (bad : List Bad)
        (never : List (List Fact)) (endless : ℕ → Bool) → AreKnown m parts from told bad never endless
        → ((k : ℕ) → 1 ≤ k → k ≤ parts → endless k ≡ false)
        → IsEndless m.programs (own_here m) → ⊥ }
{}
