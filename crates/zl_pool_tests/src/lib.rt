//! Tests of worker threads, of what no clause says: that a run gets somewhere, that two workers are at
//! work at once, that one is woken for each process that became ready, that all end where memory is
//! refused, which bursts are strangers, what becomes of processes that are out while others are killed,
//! who became ready behind a step, and the order of the ready list where few change.
//!
//! It stands on `zl_pool`, for what is tried, on `zl_trace`, for the text of what came about and its
//! replay, and on what makes systems of texts. It has nothing of its own, and nothing waits for it. What
//! is done to a system by hand is data (`scenes`), since each test is proved like any function.
#![tactic(auto)]

#[cfg(test)]
mod crowd_order_tests;
#[cfg(test)]
mod crowd_tests;
#[cfg(test)]
mod flight_tests;
#[cfg(test)]
mod order_tests;
#[cfg(test)]
mod run_tests;
#[cfg(test)]
mod scenes;
#[cfg(test)]
mod stranger_tests;
#[cfg(test)]
mod systems;
#[cfg(test)]
mod waking_tests;
#[cfg(test)]
mod woke_tests;
