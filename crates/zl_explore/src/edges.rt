//! Which states come to an end, by the turns that were taken.

ghost use Rattle.std.specs.Prelude.{ℕ, ◌≡◌, ◌<◌, IfNone, IfOk, IfSome, Some, false, length, slice_get, true};
ghost use Rattle.zl_explore.specs.Marks.{AllCome, AreClosed, AreMarks, AreWithin, IsEndlessPlace, IsMarked, unmarked};

use std::alloc::{AllocError, Global};

/// A place, of so many, from which no turns lead to one from which none leads on; the turns are given by the
/// places that they lead from and to. Only memory can be refused.
pub fn endless_place(
    alloc: Global,
    edges: &[(usize, usize)],
    count: usize,
) -> Result<Option<usize>, AllocError>
    requires { AreWithin edges.now count }
    ensures some { IfOk result (λ found. IfSome found (IsEndlessPlace edges.now count)) }
    ensures none { IfOk result (λ found. IfNone found (AllCome edges.now count)) }
{
    let mut marks = last_places(alloc, edges, count)?;
    while mark_more(edges, &mut marks) {}
    Ok(first_unmarked(&marks))
}

/// Marks of so many places: of those from which no turn leads on.
fn last_places(
    alloc: Global,
    edges: &[(usize, usize)],
    count: usize,
) -> Result<Vec<bool>, AllocError>
    requires { AreWithin edges.now count }
    ensures length { IfOk result (λ marks. length marks.items ≡ count) }
    ensures marks { IfOk result (λ marks. AreMarks edges.now marks.items) }
{
    let mut marks = vec![in alloc; true; count]?;
    for (from, _) in edges {
        marks[*from] = false;
    }
    Ok(marks)
}

/// Marks those from which a turn leads to a marked one, and says whether any was marked by that.
fn mark_more(edges: &[(usize, usize)], marks: &mut [bool]) -> bool
    requires { AreWithin edges.now (length marks.old) }
    ensures length { length marks.new ≡ length marks.old }
    ensures marks { AreMarks edges.now marks.old → AreMarks edges.now marks.new }
    ensures more { result ≡ true → unmarked marks.new < unmarked marks.old }
    ensures closed { result ≡ false → AreClosed edges.now marks.new }
{
    let mut is_more = false;
    for n in (0..edges.len()).rev() {
        let (from, to) = edges[n];
        if marks[to] && !marks[from] {
            marks[from] = true;
            is_more = true;
        }
    }
    is_more
}

/// The first place without a mark.
fn first_unmarked(marks: &[bool]) -> Option<usize>
    ensures some { IfSome result (λ place. slice_get marks.now place ≡ Some false) }
    ensures none { IfNone result ((place : ℕ) → place < length marks.now
        → IsMarked marks.now place) }
{
    for place in 0..marks.len() {
        if !marks[place] {
            return Some(place);
        }
    }
    None
}
