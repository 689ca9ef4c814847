//! Laws of the definitions: the function's contract is one law, and its body is empty.

ghost use Rattle.std.specs.Prelude.{◌≡◌, ◌++◌, ℕ, List, codes};
ghost use Rattle.std.specs.List.{AllByRecursion};
ghost use Rattle.zl_code.specs.declared.history.ProcState.{ProcState};
ghost use Rattle.zl_code.specs.declared.history.TraceItem.{TraceItem};
ghost use Rattle.zl_sched.specs.declared.system.End.{End};
ghost use Rattle.zl_trace.specs.Reading.{AreLinesOf, HasLine, item_lines_of, item_words, spaced};
ghost use Rattle.zl_trace.specs.Text.{history_text, item_line};

/// The line that a trace has of an item is its words, by which it is read, with a space between them.
pub fn lines_are_words()
    ensures { (x : TraceItem) → item_line x ≡ spaced (item_words x) ++ codes "\n" }
{}

/// A trace text tells one history: what is read of it are no two lists of items, what is written of
/// items is read as these, whatever processes and end stand behind them, and so no two lists have one
/// text. Items have a line where their processes have 64 bits, their codes and counts 32, and no count
/// is 0.
pub fn a_text_tells_one_history()
    ensures read { (text : List ℕ) (items others : List TraceItem)
        → AreLinesOf (item_lines_of text) items → AreLinesOf (item_lines_of text) others
        → items ≡ others }
    ensures back { (items : List TraceItem) (states : List (ℕ × ProcState)) (end : End)
        → AllByRecursion HasLine items
        → AreLinesOf (item_lines_of (history_text items states end)) items }
    ensures written { (items others : List TraceItem) (states more : List (ℕ × ProcState))
        (end last : End) → AllByRecursion HasLine items → AllByRecursion HasLine others
        → history_text items states end ≡ history_text others more last → items ≡ others }
{}
