//! What a search keeps, and how it goes on.

ghost use Rattle.std.specs.Prelude.{◌≡◌, ◌++◌, ◌∷◌, ◌<◌, ◌≤◌, [], length, map, slice_get, IfOk, IfSome, IsTrue, None, OnErr, OnOk, Some};
ghost use Rattle.zl_calls.specs.World.{own_here};
ghost use Rattle.zl_explore.specs.GoingAhead.{Takes, reduced, start_of};
ghost use Rattle.zl_explore.specs.Private.{IsStill};
ghost use Rattle.zl_explore.specs.Running.{ready_of, rested_machine};
ghost use Rattle.zl_explore.specs.Paths.{IsIn, after};
ghost use Rattle.zl_explore.specs.Kept.{Goes, IsBadOrMemory, IsEndAt, IsEndOf, IsNoEnd, IsWhole, SeesNext, doubling_at, goes_of, moved_on, search_of, tells_of, told_of};
ghost use Rattle.std.specs.Option.{option_map};
ghost use Rattle.zl_explore.specs.Quiet.{IsBadTurnAt};
ghost use Rattle.zl_explore.specs.Telling.{Leads, Lessens, Tells, TellsAll, TellsClear, TellsCut, TellsEndless, TellsNone, TellsPart};

use crate::bad::Bad;
use crate::edges::endless_place;
use crate::ends::{BadTurn, BadWorld, End, Next, are_same, digest_of};
use crate::fact::Fact;
use crate::machine::Machine;
use crate::met::Met;
use crate::never::Never;
use crate::part::{Part, Parted};
use crate::places::Places;
use crate::running::Running;
use crate::search::{Course, Widened, widen};
use std::alloc::{AllocError, Global};
use zl_calls::World;
use zl_code::ProcState;
use zl_rights::Pid;

/// So many of the worlds that were gone on from last are held, so that turns that lead back to one of these
/// find it as it is.
const HELD: usize = 1_000;

/// It says first at so many worlds that they have doubled.
const MANY: usize = 100_000;

/// The worlds that were met, and the ends that were told.
#[derive(Drop)]
pub struct Kept {
    pub alloc: Global,
    /// Where it began, before anybody went ahead.
    pub root: Running,
    /// Of which part the orders are.
    pub part: Part,
    pub nodes: Met<Parted<Running>>,
    pub course: Course,
    /// What no order may have.
    pub never: Never,
    /// How many worlds there may be.
    pub most: usize,
    /// At so many worlds it says that they have doubled.
    pub doubling: usize,
    /// So many of the first worlds were gone on from or, where they are ends, told.
    pub widened: usize,
    /// The states of each end that was told.
    pub told: Vec<Vec<(Pid, ProcState)>>,
    /// Where these stand, by their digests.
    pub told_places: Places,
}

impl Kept {
    /// The world alone.
    pub fn new(
        alloc: Global,
        world: World,
        never: Never,
        part: Part,
        most: usize,
    ) -> Result<Kept, AllocError>
        requires { IsStill (own_here world) }
        ensures whole { IfOk result IsWhole }
        ensures root { IfOk result (λ kept. kept.root ≡ rested_machine world) }
        ensures told { IfOk result (λ kept. told_of kept ≡ []) }
        ensures never { IfOk result (λ kept. kept.never ≡ never) }
        ensures part { IfOk result (λ kept. kept.part ≡ part) }
        ensures most { IfOk result (λ kept. kept.most ≡ most) }
        ensures left { IfOk result (λ kept. (search_of kept).left ≡ most) }
    {
        let root = Running::new(alloc, world);
        let start = Parted::new(part, root.copy()?.begin(&mut Vec::new(alloc))?);
        let mut places = Places::new(alloc);
        places.push(start.digest())?;
        let nodes = Met::new(alloc, start)?;
        Ok(Kept {
            alloc,
            root,
            part,
            nodes,
            course: Course {
                places,
                turns: 0,
                edges: Vec::new(alloc),
            },
            never,
            most,
            doubling: MANY,
            widened: 0,
            told: Vec::new(alloc),
            told_places: Places::new(alloc),
        })
    }

    /// Goes on until there is an end that wasn't told, an item or a world that may not be, twice as many
    /// worlds, or no more to go on from.
    pub fn next_end(&mut self) -> Next
        requires { IsWhole self.old }
        ensures whole { IsWhole self.new }
        ensures root { self.new.root ≡ self.old.root }
        ensures never { self.new.never ≡ self.old.never }
        ensures part { self.new.part ≡ self.old.part }
        ensures told { Tells (Some result) (told_of self.old) (told_of self.new) }
        ensures leads { Leads (Some result) (search_of self.old) }
        ensures left { Lessens result (search_of self.old).left (search_of self.new).left }
        ensures known { TellsPart result (search_of self.new) }
        ensures all { TellsAll result (search_of self.new) }
        ensures none { TellsNone result (search_of self.new) }
        ensures clear { TellsClear result (search_of self.new) }
        ensures endless { TellsEndless result (search_of self.new) }
        ensures cut { TellsCut result (search_of self.new) }
        ensures most { self.new.most ≡ self.old.most }
    {
        for _ in self.widened..self.most {
            if self.widened >= self.nodes.len() {
                return self.all();
            }
            if let Some(next) = self.widen_one() {
                return next;
            }
            if self.is_doubled() {
                return Next::Doubled;
            }
        }
        if self.widened < self.nodes.len() {
            return Next::Cut;
        }
        self.all()
    }

    /// Whether there are twice as many worlds as when it said so last.
    fn is_doubled(&mut self) -> bool
        ensures { self.new ≡ doubling_at self.old self.new.doubling }
    {
        if self.nodes.len() < self.doubling {
            return false;
        }
        self.doubling = self.doubling.saturating_mul(2);
        true
    }

    /// Tells that all is known, as it is once all worlds were gone on from.
    fn all(&self) -> Next
        requires whole { IsWhole self.now }
        requires enough { length self.now.nodes.items ≤ self.now.widened }
        ensures end { IsNoEnd result }
        ensures leads { Leads (Some result) (search_of self.now) }
        ensures known { TellsPart result (search_of self.now) }
        ensures all { TellsAll result (search_of self.now) }
        ensures none { TellsNone result (search_of self.now) }
        ensures clear { TellsClear result (search_of self.now) }
        ensures endless { TellsEndless result (search_of self.now) }
        ensures cut { TellsCut result (search_of self.now) }
    {
        match endless_place(self.alloc, &self.course.edges, self.nodes.len()) {
            Ok(place) => Next::All {
                endless: place.is_some(),
            },
            Err(_) => Next::Memory,
        }
    }

    /// Goes on from the next world. Nothing where that is no end that wasn't told.
    fn widen_one(&mut self) -> Option<Next>
        requires whole { IsWhole self.old }
        requires more { self.old.widened < length self.old.nodes.items }
        requires room { self.old.widened < self.old.most }
        ensures { Goes self.old result self.new }
    {
        match self.bad_world() {
            Ok(None) => (),
            Ok(Some(together)) => return Some(self.tell_world(together)),
            Err(_) => return Some(Next::Memory),
        }
        let Ok(pids) = self.nodes.ready_at(self.widened) else {
            return Some(Next::Memory);
        };
        if pids.is_empty() {
            return self.end_here();
        }
        let (place, most) = (self.widened, self.most);
        match widen(
            &mut self.nodes,
            &mut self.course,
            place,
            &pids,
            &self.never.bad,
            most,
        ) {
            Ok(Widened::All) => {
                self.move_on();
                None
            }
            Ok(Widened::Full) => Some(Next::Cut),
            Ok(Widened::Bad(pid, bad)) => Some(self.bad_turn(pid, bad)),
            Err(_) => Some(Next::Memory),
        }
    }

    /// What may not be so at once, and is in the next world. Only memory can be refused.
    fn bad_world(&self) -> Result<Option<Vec<Fact>>, AllocError>
        requires whole { IsWhole self.now }
        requires within { self.now.widened < length self.now.nodes.items }
        ensures { IfOk result (λ found. SeesNext self.now
            (option_map (λ together. together.items) found)) }
    {
        if self.never.together.is_empty() {
            return Ok(None);
        }
        let next = self.nodes.copy_at(self.widened)?;
        match next.at.seen_at_once(&self.never.together) {
            Some(together) => Ok(Some(together.to_vec(self.alloc)?)),
            None => Ok(None),
        }
    }

    /// Tells of the next world, in which that is so at once.
    fn tell_world(&self, together: Vec<Fact>) -> Next
        requires whole { IsWhole self.now }
        requires within { self.now.widened < length self.now.nodes.items }
        requires sees { SeesNext self.now (Some together.items) }
        ensures which { IsBadOrMemory result }
        ensures leads { Leads (Some result) (search_of self.now) }
    {
        let Ok(turns) = self.nodes.turns_to(self.widened) else {
            return Next::Memory;
        };
        match taken_by(self.alloc, &self.root, &turns) {
            Ok(turns) => Next::BadWorld(BadWorld { turns, together }),
            Err(_) => Next::Memory,
        }
    }

    /// Tells of the turn of the process in the next world, whose item the pattern names.
    fn bad_turn(&self, pid: Pid, bad: Bad) -> Next
        requires whole { IsWhole self.now }
        requires names { IsBadTurnAt goes_of tells_of self.now.never.bad.items self.now.nodes.items
            self.now.widened pid bad }
        ensures which { IsBadOrMemory result }
        ensures leads { Leads (Some result) (search_of self.now) }
    {
        let Ok(turns) = self.nodes.turns_to(self.widened) else {
            return Next::Memory;
        };
        let Ok(mut turns) = taken_by(self.alloc, &self.root, &turns) else {
            return Next::Memory;
        };
        match turns.push(pid) {
            Ok(()) => Next::Bad(BadTurn { turns, bad }),
            Err(_) => Next::Memory,
        }
    }

    /// Tells of the next world, from which nobody goes on, unless an end like it was told or none of the part
    /// comes to an end there.
    fn end_here(&mut self) -> Option<Next>
        requires whole { IsWhole self.old }
        requires end { IsEndAt self.old.nodes.items self.old.widened }
        requires clear { SeesNext self.old None }
        requires room { self.old.widened < self.old.most }
        ensures { Goes self.old result self.new }
    {
        let Ok(found) = self.states() else {
            return Some(Next::Memory);
        };
        let Some(states) = found else {
            self.move_on();
            return None;
        };
        let digest = digest_of(&states);
        if is_told(&self.told, &self.told_places, &states, digest) {
            self.move_on();
            return None;
        }
        let Ok(turns) = self.nodes.turns_to(self.widened) else {
            return Some(Next::Memory);
        };
        let Ok(turns) = taken_by(self.alloc, &self.root, &turns) else {
            return Some(Next::Memory);
        };
        let Ok(()) = self.keep_told(&states, digest) else {
            return Some(Next::Memory);
        };
        self.move_on();
        Some(Next::End(End { states, turns }))
    }

    /// The next world was gone on from, or is an end. One that was so before is let go.
    fn move_on(&mut self)
        requires { self.old.widened < self.old.most }
        ensures { self.new ≡ moved_on self.old }
    {
        self.widened += 1;
        if let Some(place) = self.widened.checked_sub(HELD) {
            self.nodes.let_go(place);
        }
    }

    /// What each process is in, in the next world. Nothing where no order of the part comes to an end there.
    /// Only memory can be refused.
    fn states(&self) -> Result<Option<Vec<(Pid, ProcState)>>, AllocError>
        requires whole { IsWhole self.now }
        requires end { IsEndAt self.now.nodes.items self.now.widened }
        ensures { IfOk result (λ found. IfSome (slice_get self.now.nodes.items self.now.widened)
            (λ n. IsEndOf (option_map (λ states. states.items) found) n.at)) }
    {
        let end = self.nodes.copy_at(self.widened)?;
        if !end.is_of() {
            return Ok(None);
        }
        Ok(Some(end.at.states()?))
    }

    /// These states were told.
    fn keep_told(&mut self, states: &[(Pid, ProcState)], digest: u64) -> Result<(), AllocError>
        ensures ok { OnOk result (told_of self.new ≡ told_of self.old ++ states.now ∷ []) }
        ensures err { OnErr result (told_of self.new ≡ told_of self.old) }
        ensures root { self.new.root ≡ self.old.root }
        ensures nodes { self.new.nodes ≡ self.old.nodes }
        ensures widened { self.new.widened ≡ self.old.widened }
        ensures most { self.new.most ≡ self.old.most }
        ensures never { self.new.never ≡ self.old.never }
        ensures part { self.new.part ≡ self.old.part }
        ensures course { self.new.course ≡ self.old.course }
    {
        let kept = states.to_vec(self.alloc)?;
        self.told_places.push(digest)?;
        self.told.push(kept)?;
        Ok(())
    }
}

/// Whose instructions the turns take, in their order, from where the search began.
fn taken_by(alloc: Global, root: &Running, turns: &[Pid]) -> Result<Vec<Pid>, AllocError>
    ensures { IfOk result (λ taken. Takes root.now [] taken.items
        (after ready_of reduced (start_of root.now) turns.now)) }
{
    let mut taken = Vec::new(alloc);
    let mut at = root.copy()?.begin(&mut taken)?;
    for pid in turns {
        at = at.take_turn(*pid, &mut taken)?.0;
    }
    Ok(taken)
}

/// Whether an end with these states was told.
fn is_told(
    told: &[Vec<(Pid, ProcState)>],
    places: &Places,
    states: &[(Pid, ProcState)],
    digest: u64,
) -> bool
    ensures { IsTrue result → IsIn (map (λ one. one.items) told.now) states.now }
{
    let mut next = places.last(digest);
    for _ in 0..told.len() {
        let Some(place) = next else {
            return false;
        };
        let Some(one) = told.get(place) else {
            return false;
        };
        if are_same(one, states) {
            return true;
        }
        next = places.before(place);
    }
    false
}
