//! Tests of `zl_table`, `zl_objects`, `zl_code`, `zl_verify`, `zl_asm`, `zl_interp`, `zl_calls`,
//! `zl_sched` and `zl_explore`, of what none of their clauses says and nobody sees of the program from
//! outside; and by the definitions a run of a checked process through each call, and worlds with as
//! many handles and waits as may be.
//!
//! It stands on them and has nothing of its own: a crate with tests is proved twice, with them and
//! without, and nothing waits for this one.
#![tactic(auto)]

#[cfg(test)]
mod burst_tests;
#[cfg(test)]
mod check_tests;
#[cfg(test)]
mod image_tests;
#[cfg(test)]
mod letters;
#[cfg(test)]
mod never_tests;
#[cfg(test)]
mod object_tests;
#[cfg(test)]
mod order_tests;
#[cfg(test)]
mod packets;
#[cfg(test)]
mod quiet_tests;
#[cfg(test)]
mod system_tests;
#[cfg(test)]
mod table_tests;
#[cfg(test)]
mod text_tests;
