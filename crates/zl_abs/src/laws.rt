//! Laws of the definitions: each function's contract is one law, and its body is empty.

ghost use Rattle.std.specs.Prelude.{ℕ, ◌≡◌, IsTrue, List, Some, IfOk};
ghost use Rattle.zl_code.specs.Image.{Image};
ghost use Rattle.zl_code.specs.Spells.{is_in_range};
ghost use Rattle.zl_abs.specs.States.{State, all_below, all_joined, start_state};
ghost use Rattle.zl_abs.specs.Bounds.{RoundAlike};
ghost use Rattle.zl_abs.specs.Fine.{IsFine, AllFine};
ghost use Rattle.zl_abs.specs.Typing.{rule_with};
ghost use Rattle.zl_abs.specs.Laws.{AllAboveJoin, JoinIsAllAbove, RuleBelow};

/// A state is below itself.
pub fn order_is_reflexive()
    ensures { (s : State) → IsTrue (all_below s s) }
{}

/// What is below a state is below all that is above that.
pub fn order_is_transitive()
    ensures { (s t u : State)
        → IsTrue (all_below s t) → IsTrue (all_below t u) → IsTrue (all_below s u) }
{}

/// States that lie below each other are the same.
pub fn order_is_antisymmetric()
    ensures { (s t : State) → IsTrue (all_below s t) → IsTrue (all_below t s) → s ≡ t }
{}

/// A join with a state below changes nothing.
pub fn join_absorbs()
    ensures { (s t : State) → IsTrue (all_below t s) → all_joined s t ≡ Some s }
{}

/// A join is above both states, and below whatever is above both; there is none only where nothing
/// is above both.
pub fn join_is_least()
    ensures left { (s t : State) → JoinIsAllAbove s (all_joined s t) }
    ensures right { (s t : State) → JoinIsAllAbove t (all_joined s t) }
    ensures least { (s t d : State)
        → IsTrue (all_below s d) → IsTrue (all_below t d) → AllAboveJoin d (all_joined s t) }
{}

/// Where a rule holds at a state it holds at every state below, with no more edges that are
/// followed and with states below at their ends.
pub fn rules_are_monotone()
    ensures { (bounds : List ℕ) (i : Image) (n : ℕ) (s t : State)
        → IsTrue (all_below s t) → RuleBelow (rule_with bounds i n s) (rule_with bounds i n t) }
{}

/// Bounds by which numbers are rounded up alike give the same rules.
pub fn rules_go_by_rounding()
    ensures { (bs cs : List ℕ) (i : Image) (n : ℕ) (s : State)
        → RoundAlike bs cs → rule_with bs i n s ≡ rule_with cs i n s }
{}

/// States that begin as a process of an image begins stay fine through joins and rules: there is
/// a value of its width for each register, and each tag names a register that is 0 or has a
/// handle.
pub fn states_stay_fine()
    ensures start { (i : Image) → IsTrue (is_in_range i) → IsFine (start_state i) }
    ensures join { (s t u : State)
        → IsFine s → IsFine t → all_joined s t ≡ Some u → IsFine u }
    ensures rule { (bounds : List ℕ) (i : Image) (n : ℕ) (s : State)
        → IsTrue (is_in_range i) → IsFine s → IfOk (rule_with bounds i n s) AllFine }
{}
