//! The search, of any machine.

ghost use Rattle.std.specs.Prelude.{ℕ, ◌≡◌, ◌<◌, ◌≤◌, IfNone, IfOk, IfSome, OnErr, slice_get, length};
ghost use Rattle.zl_explore.specs.Edges.{AreEdges, Edges};
ghost use Rattle.zl_explore.specs.Met.{Came};
ghost use Rattle.zl_explore.specs.Nodes.{Extends, IsRooted, IsTree, Stands, StandsAt};
ghost use Rattle.zl_explore.specs.Quiet.{Widens};

use crate::bad::{Bad, named_item};
use crate::machine::Machine;
use crate::met::{Met, Node};
use crate::places::Places;
use std::alloc::AllocError;
use zl_rights::Pid;

/// What a search keeps beside the states.
#[derive(Drop)]
pub struct Course {
    /// Where states stand, by their digests.
    pub places: Places,
    /// How many turns were taken.
    pub turns: u64,
    /// From where to where each turn led.
    pub edges: Vec<(usize, usize)>,
}

/// How far the turns of a state were taken.
#[derive(Clone, Copy)]
pub enum Widened {
    /// All of them.
    All,
    /// There would be more states than there may be.
    Full,
    /// A turn of this process has an item that the pattern names.
    Bad(Pid, Bad),
}

/// Where the state stands, if it is one of those. Only memory can be refused.
fn met_at<M: Machine>(
    nodes: &Met<M>,
    places: &Places,
    at: &M,
    digest: u64,
) -> Result<Option<usize>, AllocError>
    requires { IsRooted M.ready M.next nodes.now.items }
    ensures { IfOk result (λ found. IfSome found (λ place. StandsAt M.ready M.next
        nodes.now.items place at.now)) }
{
    let mut next = places.last(digest);
    for _ in 0..nodes.len() {
        let Some(place) = next else {
            return Ok(None);
        };
        if place >= nodes.len() {
            return Ok(None);
        }
        if nodes.is_same_at(place, at)? {
            return Ok(Some(place));
        }
        next = places.before(place);
    }
    Ok(None)
}

/// Takes a turn of each of those who can go in the state at the place, which are given, until there would be
/// more than so many states, or one has an item that a pattern names.
pub fn widen<M: Machine>(
    nodes: &mut Met<M>,
    course: &mut Course,
    place: usize,
    pids: &[Pid],
    bad: &[Bad],
    most: usize,
) -> Result<Widened, AllocError>
    requires within { place < length nodes.old.items }
    requires tree { IsRooted M.ready M.next nodes.old.items }
    requires ready { IfSome (slice_get nodes.old.items place) (λ n. pids.now ≡ M.ready n.at) }
    ensures tree { (start : M) → IsTree M.ready M.next start nodes.old.items
        → IsTree M.ready M.next start nodes.new.items }
    ensures extends { Extends nodes.old.items nodes.new.items }
    ensures widens { IfOk result (λ how. Widens M.ready M.next M.tells bad.now nodes.old.items place
        nodes.new.items how) }
    ensures edges { AreEdges M.ready M.next nodes.old.items course.old.edges.items
        → AreEdges M.ready M.next nodes.new.items course.new.edges.items }
    ensures more_edges { Extends course.old.edges.items course.new.edges.items }
    ensures have_edges { IfOk result (λ how. Edges M.ready M.next nodes.old.items place
        course.old.edges.items nodes.new.items course.new.edges.items how) }
    ensures full { IfOk result (λ how. how ≡ Widened.Full → most ≤ length nodes.new.items) }
{
    for pid in pids {
        let (at, told) = nodes.copy_at(place)?.turn(*pid)?;
        course.turns = course.turns.saturating_add(1);
        if let Some(one) = named_item(bad, told) {
            return Ok(Widened::Bad(*pid, one));
        }
        let node = Node {
            at,
            from: place,
            by: *pid,
        };
        let Some(target) = place_of(nodes, &mut course.places, node, most)? else {
            return Ok(Widened::Full);
        };
        course.edges.push((place, target))?;
    }
    Ok(Widened::All)
}

/// The place of the state, which comes behind the others where it wasn't met. Nothing where there would be
/// more than so many.
fn place_of<M: Machine>(
    nodes: &mut Met<M>,
    places: &mut Places,
    node: Node<M>,
    most: usize,
) -> Result<Option<usize>, AllocError>
    requires came { Came M.next nodes.old.items node }
    requires tree { IsRooted M.ready M.next nodes.old.items }
    ensures some { IfOk result (λ place. IfSome place
        (Stands M.ready M.next nodes.old.items node nodes.new.items)) }
    ensures none { IfOk result (λ place. IfNone place (nodes.new.items ≡ nodes.old.items)) }
    ensures full { IfOk result (λ place. IfNone place (most ≤ length nodes.new.items)) }
    ensures err { OnErr result (nodes.new.items ≡ nodes.old.items) }
{
    let digest = node.at.digest();
    if let Some(place) = met_at(nodes, places, &node.at, digest)? {
        return Ok(Some(place));
    }
    if nodes.len() >= most {
        return Ok(None);
    }
    places.push(digest)?;
    nodes.push(node)?;
    Ok(Some(nodes.len() - 1))
}
