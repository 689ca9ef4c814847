//! All orders of the turns of a running world: where they come to an end.
//!
//! It stands on `zl_calls`, for the world and its steps, on `zl_interp`, for local instructions in a row,
//! and on `zl_code` and `zl_rights`. It promises that the lab's own steps lead to each end that it tells, by
//! the turns that come with it, and to each item that none may have, and that, where it says that it told
//! all, every order of own steps that comes to an end comes to one of them, none has such an item, and one
//! leads to where none comes to an end just if it says so.
#![tactic(auto)]

mod ahead;
mod bad;
mod edges;
mod ends;
mod fact;
mod kept;
mod laws;
mod machine;
mod met;
mod never;
mod orders;
mod part;
mod places;
mod running;
mod search;
mod sights;

pub use bad::{Bad, What, named_end, read_bad};
pub use ends::{BadTurn, BadWorld, End, Next};
pub use fact::{Fact, Seen};
pub use laws::{parts_come_to_ends, parts_have_all_ends, parts_have_none, parts_stay_clear};
pub use never::{Never, push_together};
pub use orders::Search;
pub use part::{Part, read_part};
