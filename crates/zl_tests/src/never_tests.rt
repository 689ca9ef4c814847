//! What may not be so in one world at once, and whether an order leads there.

use crate::letters;
use crate::order_tests::{Told, never, search_of, tell, told_by};
use std::alloc::Global;
use std::test::*;
use zl_explore::{Next, Part, Search, push_together};

/// Facts of one moment.
const TOGETHER: &[&str] = &[
    "4 has 3",
    "* has 2 12",
    "4 has 3 and 6 ended 2",
    "* blocked and * created",
    "4 has 3 and 4 has 3 and 5 ended -1 and * has 1",
    "* ready",
    "not * ready",
    "not 4 ended 0",
    "not * blocked and not 5 created",
    "message has 3",
    "message has 3 12",
    "not message has 18446744073709551615",
    "event 4",
    "not process 5",
    "job 1 and channel 2 and port 3 and eventpair 4 and process 5",
    "not * has 4 4096 and not message has 4 and event 4 and * ready",
];

/// None of them says what may not be so.
const NOT_TOGETHER: &[&str] = &[
    "and",
    "4 has 3 and",
    "4 has 3 and ",
    " and 4 has 3",
    "4 has 3 and and 4 has 3",
    "4 has 3  and 4 has 3",
    "4 has 3 AND 4 has 3",
    "4 has 3 and 3",
    "4 has 3 and 4 stuck",
    "4 close OK and 4 has 3",
    "4 blocked and 4 close *",
    "not",
    "not ",
    " not 4 ready",
    "not  4 ready",
    "not not 4 ready",
    "4 not ready",
    "4 ready 1",
    "not 4 stuck",
    "not 4 close OK",
    "4 ready and not * * *",
    "4 has 3 and not",
    "not 4 has 3 or 4 ready",
    "message",
    "message has",
    "message has *",
    "message has 03",
    "message has 3 0",
    "message has 3 READ",
    "message has 3 12 12",
    "message had 3",
    "message ready",
    "* message has 3",
    "event",
    "event *",
    "event 03",
    "event 3 4",
    "Event 3",
    "thread 3",
    "3 event",
    "object 3",
];

/// The words of the only list of patterns that were read, if just one was.
fn spelled(alloc: Global, words: &str) -> Option<String> {
    let never = never(alloc, &[words])?;
    if never.together.len() != 1 || !never.bad.is_empty() {
        return None;
    }
    let mut spelled = String::new(alloc);
    push_together(&mut spelled, &never.together[0]).ok()?;
    Some(spelled)
}

/// Whether these words are read as what may not be so at once, and spelled again.
fn is_spelled_again(alloc: Global, words: &str) -> bool {
    match spelled(alloc, words) {
        Some(again) => again.as_bytes() == words.as_bytes(),
        None => false,
    }
}

#[test]
fn what_may_not_be_so_at_once_has_one_spelling(rt: HostRuntime) {
    for words in TOGETHER {
        assert!(rt; is_spelled_again(rt.alloc(), words));
    }
    for words in NOT_TOGETHER {
        assert!(rt; never(rt.alloc(), &[words]).is_none());
    }
}

/// How many patterns of items and ends were read.
fn single_count(alloc: Global, words: &str) -> Option<usize> {
    let never = never(alloc, &[words])?;
    Some(never.bad.len())
}

#[test]
fn one_pattern_of_an_item_or_an_end_is_of_orders(rt: HostRuntime) {
    for words in [
        "4 ended 3",
        "* close OK",
        "4 stuck",
        "* blocked",
        "* created",
    ] {
        assert_eq!(rt; single_count(rt.alloc(), words), Some(1));
    }
    for words in [
        "4 has 3",
        "4 ready",
        "not 4 ended 3",
        "not * blocked",
        "event 4",
    ] {
        assert_eq!(rt; single_count(rt.alloc(), words), Some(0));
    }
}

/// How many turns lead to the world that is told before any end, if one is.
fn turns_to(search: &mut Search) -> Option<usize> {
    for _ in 0..1_000 {
        match search.next_end() {
            Next::End(_) | Next::Doubled => {}
            Next::BadWorld(at) => return Some(at.turns.len()),
            _ => return None,
        }
    }
    None
}

/// How many turns lead to a world where all of this is so.
fn world_with(alloc: Global, words: &str) -> Option<usize> {
    let mut search = search_of(alloc, &[words], 1_000)?;
    turns_to(&mut search)
}

/// Whether no order leads to a world where all of this is so.
fn never_comes(alloc: Global, words: &str) -> bool {
    match told_by(alloc, &[words], 1_000) {
        Some(told) => told.ends == 2 && told.endless.is_some(),
        None => false,
    }
}

#[test]
fn a_handle_is_seen_where_it_is_had(rt: HostRuntime) {
    // 4 has the event from the start, with SIGNAL and not with READ.
    assert_eq!(rt; world_with(rt.alloc(), "4 has 3"), Some(0));
    assert_eq!(rt; world_with(rt.alloc(), "* has 3 4096"), Some(0));
    assert!(rt; never_comes(rt.alloc(), "4 has 3 4"));
    assert!(rt; never_comes(rt.alloc(), "5 has 3"));
    // It makes three more events, behind which there is no fourth.
    assert!(rt; world_with(rt.alloc(), "4 has 9").is_some());
    assert!(rt; never_comes(rt.alloc(), "* has 10"));
}

#[test]
fn what_comes_one_after_another_isnt_seen_at_once(rt: HostRuntime) {
    // 6 may be the first to end, and has no handle from then on.
    assert!(rt; world_with(rt.alloc(), "4 has 3 and 6 ended 0").is_some());
    assert!(rt; never_comes(rt.alloc(), "6 has 2 and 6 ended 0"));
    // The events come when each handle to the first one is closed.
    assert!(rt; never_comes(rt.alloc(), "4 has 3 and 4 has 7"));
    assert!(rt; never_comes(rt.alloc(), "* blocked and * has 7"));
}

#[test]
fn what_isnt_so_is_seen_where_it_isnt(rt: HostRuntime) {
    // All are ready at the start, and nobody is at an end.
    assert_eq!(rt;
        world_with(rt.alloc(), "4 ready and 5 ready and 6 ready"),
        Some(0)
    );
    assert!(rt; world_with(rt.alloc(), "not 4 has 3").is_some());
    assert!(rt; world_with(rt.alloc(), "not * has 3 and 4 ready").is_some());
    assert!(rt; never_comes(rt.alloc(), "not * has 3 and event 3"));
    assert!(rt; never_comes(rt.alloc(), "not port 2 and * ready"));
    assert!(rt;
        never_comes(
            rt.alloc(),
            "* ready and not 4 ready and not 5 ready and not 6 ready"
        )
    );
    assert!(rt; never_comes(rt.alloc(), "not * ready and 6 created"));
}

/// A search over all orders of the world with the sender.
fn search_of_letters(alloc: Global, words: &str) -> Option<Search> {
    let never = never(alloc, &[words])?;
    Search::new(alloc, letters::world(alloc)?, never, Part::only(), 1_000).ok()
}

/// How many turns of the sender lead to a world where all of this is so.
fn turns_of_sender(alloc: Global, words: &str) -> Option<usize> {
    let mut search = search_of_letters(alloc, words)?;
    turns_to(&mut search)
}

/// What a search over these orders tells.
fn told_of_sender(alloc: Global, words: &str) -> Option<Told> {
    let mut search = search_of_letters(alloc, words)?;
    Some(tell(&mut search))
}

/// Whether all of this is so nowhere on the way of the sender, which has one end.
fn is_never_of_sender(alloc: Global, words: &str) -> bool {
    match told_of_sender(alloc, words) {
        Some(told) => told.ends == 1 && told.endless.is_some(),
        None => false,
    }
}

#[test]
fn a_handle_in_a_message_is_the_messages(rt: HostRuntime) {
    assert_eq!(rt;
        turns_of_sender(rt.alloc(), "5 has 4 and not message has 4"),
        Some(0)
    );
    assert_eq!(rt; turns_of_sender(rt.alloc(), "message has 4"), Some(1));
    assert_eq!(rt;
        turns_of_sender(rt.alloc(), "message has 4 4096 and event 4 and 5 ready"),
        Some(1)
    );
    assert_eq!(rt; turns_of_sender(rt.alloc(), "not * has 4"), Some(1));
    assert!(rt; is_never_of_sender(rt.alloc(), "message has 4 and * has 4"));
    assert!(rt; is_never_of_sender(rt.alloc(), "message has 4 4"));
    assert!(rt; is_never_of_sender(rt.alloc(), "message has 3"));
    assert!(rt; is_never_of_sender(rt.alloc(), "message has 4 and not * ready"));
}

#[test]
fn an_object_is_there_while_something_keeps_it(rt: HostRuntime) {
    // It goes with the last message that has a handle to it, as the end goes where that is to be read.
    assert_eq!(rt;
        turns_of_sender(rt.alloc(), "event 4 and channel 3 and job 1"),
        Some(0)
    );
    assert_eq!(rt; turns_of_sender(rt.alloc(), "not event 4"), Some(2));
    assert_eq!(rt;
        turns_of_sender(rt.alloc(), "not channel 3 and channel 2"),
        Some(2)
    );
    assert_eq!(rt;
        turns_of_sender(rt.alloc(), "not * ready and not channel 2"),
        Some(3)
    );
    assert!(rt; is_never_of_sender(rt.alloc(), "channel 4"));
    assert!(rt; is_never_of_sender(rt.alloc(), "event 6"));
    assert!(rt; is_never_of_sender(rt.alloc(), "not event 4 and channel 3"));
    assert!(rt; is_never_of_sender(rt.alloc(), "event 4 and not * has 4 and not message has 4"));
}
