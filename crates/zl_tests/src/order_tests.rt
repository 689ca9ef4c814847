//! All orders of the turns of a running world: how many worlds they lead to, and where they end; and
//! copies of a world, which go on as it does.
//!
//! A world and a search have many parts, and a proof goes through all of them wherever a function that
//! has one lends it or lets it go. So a small function makes each, lends it once, and gives plain numbers.

use crate::packets::world;
use std::alloc::Global;
use std::test::*;
use zl_calls::World;
use zl_code::ProcState;
use zl_explore::{Bad, End, Never, Next, Part, Search, named_end, read_bad, read_part};
use zl_rights::Pid;

/// Patterns.
const SPELLED: &[&str] = &[
    "* blocked",
    "7 created",
    "18446744073709551615 stuck",
    "6 ended -2147483648",
    "* ended 0",
    "6 chan_write PEER_CLOSED",
    "* * *",
    "* * blocked",
    "4 port_wait *",
    "4 process_exit ended 7",
    "4 has 3",
    "* has 18446744073709551615 12",
    "4 has 3 4096",
    "* ready",
];

/// None of them spells a pattern.
const NOT_SPELLED: &[&str] = &[
    "",
    "*",
    "6",
    "not * ready",
    "message has 3",
    "event 3",
    "4 readies",
    "* blocked ",
    " * blocked",
    "*  blocked",
    "06 blocked",
    "+6 blocked",
    "-1 blocked",
    "18446744073709551616 stuck",
    "6 ended",
    "6 ended 2147483648",
    "6 ended +1",
    "6 ended 0x1",
    "6 ended *",
    "6 chan_write",
    "6 chan_writ PEER_CLOSED",
    "6 chan_write PEERCLOSED",
    "6 chan_write ended",
    "6 chan_write blocked 1",
    "6 chan_write OK OK",
    "6 process_exit ended 1 2",
    "any blocked",
    "4 has",
    "4 has *",
    "4 has 03",
    "4 has 3 0",
    "4 has 3 016",
    "4 has 3 READ",
    "4 has 3 12 12",
    "4 has 3 4294967295",
    "4 has event 3",
];

/// None of them is a part.
const NO_PARTS: [&str; 16] = [
    "",
    "1",
    "/",
    "1/",
    "/1",
    "0/1",
    "0/0",
    "2/1",
    "1/0",
    "01/2",
    "1/02",
    "+1/2",
    "1/-2",
    "1/2/3",
    "1 / 2",
    "1/4294967296",
];

/// The patterns with these words.
fn patterns(alloc: Global, words: &[&str]) -> Option<Vec<Bad>> {
    let mut patterns = Vec::new(alloc);
    for one in words {
        patterns.push(pattern(alloc, one)?).ok()?;
    }
    Some(patterns)
}

/// The pattern with these words.
fn pattern(alloc: Global, words: &str) -> Option<Bad> {
    read_bad(alloc, words).ok()?
}

/// What these words say.
pub fn never(alloc: Global, words: &[&str]) -> Option<Never> {
    let mut never = Never::new(alloc);
    for one in words {
        if !never.read(alloc, one).ok()? {
            return None;
        }
    }
    Some(never)
}

/// A search over the orders of the part that meets no more worlds than so many, for what none may have.
fn search_in(alloc: Global, bad: &[&str], part: Part, most: usize) -> Option<Search> {
    let never = never(alloc, bad)?;
    Search::new(alloc, world(alloc)?, never, part, most).ok()
}

/// The same over all orders.
pub fn search_of(alloc: Global, bad: &[&str], most: usize) -> Option<Search> {
    search_in(alloc, bad, Part::only(), most)
}

/// What a search told.
#[derive(Clone, Copy)]
pub struct Told {
    /// How many ends.
    pub ends: usize,
    /// Whether one goes on for ever, where these are all ends.
    pub endless: Option<bool>,
    /// How many worlds it met.
    worlds: usize,
    /// How many turns it took.
    turns: u64,
}

/// Goes on to the last end: how many ends there are, and whether one goes on for ever, where these are all.
fn ends_of(search: &mut Search) -> (usize, Option<bool>) {
    let mut ends: usize = 0;
    for _ in 0..1_000 {
        match search.next_end() {
            Next::End(_) => ends = ends.saturating_add(1),
            Next::Doubled => {}
            Next::All { endless } => return (ends, Some(endless)),
            Next::Bad(_) | Next::BadWorld(_) | Next::Cut | Next::Memory => return (ends, None),
        }
    }
    (ends, None)
}

/// Goes on to the last end: what was told by then.
pub fn tell(search: &mut Search) -> Told {
    let (ends, endless) = ends_of(search);
    Told {
        ends,
        endless,
        worlds: search.worlds(),
        turns: search.turns(),
    }
}

/// What such a search tells.
pub fn told_by(alloc: Global, bad: &[&str], most: usize) -> Option<Told> {
    let mut search = search_of(alloc, bad, most)?;
    Some(tell(&mut search))
}

/// What a search over the orders of the part tells, of which one turn tells to which of two they belong.
fn told_in(alloc: Global, number: u32) -> Option<Told> {
    let mut search = search_in(alloc, &[], Part::new(number, 2, 1)?, 1_000)?;
    Some(tell(&mut search))
}

#[test]
fn a_part_has_the_ends_of_its_orders(rt: HostRuntime) {
    // Where 5 goes first, its packet comes first. Where 4 does, which waits then, or 6, there are both ends.
    let even = told_in(rt.alloc(), 1).expect(&rt, "the search begins");
    assert_eq!(rt; (even.ends, even.endless), (2, Some(false)));
    let odd = told_in(rt.alloc(), 2).expect(&rt, "the search begins");
    assert_eq!(rt; (odd.ends, odd.endless), (1, Some(false)));
}

/// Whether there is a part with these words.
fn is_part(alloc: Global, words: &str) -> bool {
    matches!(read_part(alloc, words, 6), Ok(Some(_)))
}

#[test]
fn parts_have_one_spelling(rt: HostRuntime) {
    for words in ["1/1", "1/2", "2/2", "7/10", "4294967295/4294967295"] {
        assert!(rt; is_part(rt.alloc(), words));
    }
    for words in NO_PARTS {
        assert!(rt; !is_part(rt.alloc(), words));
    }
}

#[test]
fn freed_values_tell_worlds_apart(rt: HostRuntime) {
    let told = told_by(rt.alloc(), &[], 1_000).expect(&rt, "the search begins");
    assert_eq!(rt; (told.ends, told.endless.is_some()), (2, true));
    assert_eq!(rt; told.worlds, 98);
    assert_eq!(rt; told.turns, 193);
}

/// The end that comes behind so many others.
fn next_end(search: &mut Search, behind: usize) -> Option<End> {
    for _ in 0..behind {
        let Next::End(_) = search.next_end() else {
            return None;
        };
    }
    match search.next_end() {
        Next::End(end) => Some(end),
        _ => None,
    }
}

/// The end that a search tells behind so many others.
fn end(alloc: Global, behind: usize) -> Option<End> {
    let mut search = search_of(alloc, &[], 1_000)?;
    next_end(&mut search, behind)
}

/// Does a step of the process.
fn step(world: &mut World, pid: Pid) -> bool {
    match world.step(pid) {
        Some((_, told)) => {
            world.put_back(told);
            true
        }
        None => false,
    }
}

/// Does a step of each of these, in their order.
fn go(world: &mut World, pids: &[Pid]) -> bool {
    for pid in pids {
        if !step(world, *pid) {
            return false;
        }
    }
    true
}

/// The code with which it ended.
fn code_of(state: ProcState) -> Option<i32> {
    match state {
        ProcState::Ended(code) => Some(code),
        _ => None,
    }
}

/// The code with which the process ended behind a step of each of these.
fn code_behind(world: &mut World, turns: &[Pid], pid: Pid) -> Option<i32> {
    if go(world, turns) {
        code_of(world.state_of(pid))
    } else {
        None
    }
}

/// The same of the world from its beginning.
fn code_by(alloc: Global, turns: &[Pid], pid: Pid) -> Option<i32> {
    let mut world = world(alloc)?;
    code_behind(&mut world, turns, pid)
}

#[test]
fn an_end_has_the_states_and_turns_that_lead_there(rt: HostRuntime) {
    for behind in 0..2 {
        let end = end(rt.alloc(), behind).expect(&rt, "there are two ends");
        assert_eq!(rt; end.states.len(), 3);
        for (pid, state) in &end.states {
            assert!(rt; matches!(state, ProcState::Ended(_)));
            assert_eq!(rt; code_of(*state), code_by(rt.alloc(), &end.turns, *pid));
        }
    }
}

#[test]
fn a_search_is_cut_at_one_world_more(rt: HostRuntime) {
    let all = told_by(rt.alloc(), &[], 98).expect(&rt, "the search begins");
    assert_eq!(rt; (all.ends, all.endless.is_some()), (2, true));
    let cut = told_by(rt.alloc(), &[], 97).expect(&rt, "the search begins");
    assert!(rt; cut.endless.is_none());
    assert_eq!(rt; cut.worlds, 97);
}

/// Does a step of each of these in the copy, in their order. Answers whether it is another world behind
/// each.
fn goes_apart(world: &World, copy: &mut World, pids: &[Pid]) -> bool {
    for pid in pids {
        if !step(copy, *pid) || copy.is_same(world) {
            return false;
        }
    }
    true
}

/// Whether the copy is the same as the world, another behind each of these steps of its own, and the same
/// again once the world did them too.
fn goes_alike(world: &mut World, copy: &mut World, pids: &[Pid]) -> [bool; 4] {
    let is_same = copy.is_same(world);
    let is_apart = goes_apart(world, copy, pids);
    let goes = go(world, pids);
    let is_same_again = copy.is_same(world);
    [is_same, is_apart, goes, is_same_again]
}

/// The same of a copy behind a step of the process 4.
fn copy_goes_alike(world: &mut World, pids: &[Pid]) -> Option<[bool; 4]> {
    if !step(world, 4) {
        return None;
    }
    let mut copy = world.copy().ok()?;
    Some(goes_alike(world, &mut copy, pids))
}

/// The same of the world from its beginning.
fn copied(alloc: Global, pids: &[Pid]) -> Option<[bool; 4]> {
    let mut world = world(alloc)?;
    copy_goes_alike(&mut world, pids)
}

#[test]
fn a_copy_goes_on_alike_and_apart(rt: HostRuntime) {
    let found = copied(rt.alloc(), &[5, 4, 4, 6]);
    assert_eq!(rt; found, Some([true, true, true, true]));
}

/// Whose turn it is at which the search comes to an item that may not be.
fn next_bad(search: &mut Search) -> Option<Pid> {
    match search.next_end() {
        Next::Bad(turn) => turn.turns.last().copied(),
        _ => None,
    }
}

/// The same of a search for what no order may have.
fn bad_turn(alloc: Global, bad: &[&str]) -> Option<Pid> {
    let mut search = search_of(alloc, bad, 1_000)?;
    next_bad(&mut search)
}

#[test]
fn an_item_is_found_at_its_turn(rt: HostRuntime) {
    let found = bad_turn(rt.alloc(), &["9 * *", "4 event_create OK"]);
    assert_eq!(rt; found, Some(4));
}

#[test]
fn what_no_order_has_changes_nothing(rt: HostRuntime) {
    let bad = ["5 close *", "* * BAD_HANDLE", "* stuck", "4 ended 4"];
    let told = told_by(rt.alloc(), &bad, 1_000).expect(&rt, "the search begins");
    assert_eq!(rt; (told.ends, told.endless.is_some()), (2, true));
    assert_eq!(rt; told.worlds, 98);
    assert_eq!(rt; told.turns, 193);
}

#[test]
fn a_search_says_whether_one_goes_on_for_ever(rt: HostRuntime) {
    let told = told_by(rt.alloc(), &[], 1_000).expect(&rt, "the search begins");
    assert_eq!(rt; (told.ends, told.endless), (2, Some(false)));
}

#[test]
fn an_end_is_named_by_what_a_process_is_in(rt: HostRuntime) {
    let bad = patterns(rt.alloc(), &["* blocked", "6 ended -3", "7 created"]).expect(
        &rt,
        "these are patterns",
    );
    let ended = ProcState::Ended(-3);
    assert!(rt; named_end(&bad, &[(4, ProcState::Gone), (5, ended)]).is_none());
    assert!(rt; named_end(&bad, &[(4, ProcState::Created), (5, ProcState::Blocked)]).is_some());
    assert!(rt; named_end(&bad, &[(4, ProcState::Gone), (6, ended)]).is_some());
    assert!(rt; named_end(&bad, &[(6, ProcState::Ended(3))]).is_none());
    assert!(rt; named_end(&bad, &[(7, ProcState::Created)]).is_some());
    assert!(rt; named_end(&bad, &[]).is_none());
}

/// Whether the pattern with these words spells them again.
fn is_spelled_again(alloc: Global, words: &str) -> Option<bool> {
    let bad = pattern(alloc, words)?;
    let mut spelled = String::new(alloc);
    bad.push_words(&mut spelled).ok()?;
    Some(spelled.as_bytes() == words.as_bytes())
}

/// Whether there is no pattern with these words.
fn is_no_pattern(alloc: Global, words: &str) -> bool {
    matches!(read_bad(alloc, words), Ok(None))
}

#[test]
fn patterns_have_one_spelling(rt: HostRuntime) {
    for words in SPELLED {
        assert_eq!(rt; is_spelled_again(rt.alloc(), words), Some(true));
    }
    for words in NOT_SPELLED {
        assert!(rt; is_no_pattern(rt.alloc(), words));
    }
}
