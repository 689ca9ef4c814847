//! The verifier: `check` accepts an image, or refuses it and says why.
//!
//! It stands on `zl_abs`, for states and rules, and on `zl_code`, for images. It promises that an
//! accepted image has a typing and a step bound, which `Checked` keeps, and that a refusal is exact:
//! but for want of memory, an image is refused for a rule or a join only where it has no typing, and
//! for its budget only where no typing of it has a step bound. A refusal hands the image back, and
//! what was seen of it. The search for the least typing knows nothing of handles. `laws` says what a
//! typing is good for.
#![tactic(auto)]

mod ahead;
mod changing;
mod checked;
mod edges;
pub mod laws;
mod least;
mod names;
mod naming;
mod pace;
mod peaks;
mod pending;
mod refusal;
mod register_set;
mod search;
mod seen;
mod sparse;
mod steps;
mod stretches;
mod tagged;
mod targets;
mod way;

pub use checked::{Checked, check};
pub use least::is_solved_by_names;
pub use refusal::{Refusal, RefusalCause};
pub use seen::Seen;
pub use way::{Stride, Way, way_from};
