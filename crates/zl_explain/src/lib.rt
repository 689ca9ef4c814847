//! What a person is told on standard error of what is refused, fails or is stuck: where the fault is, what is
//! wrong, and what was wanted.
//!
//! It stands on `zl_scenario` for how a scenario is read, on `zl_lines` for how a line is cut into words,
//! on `zl_asm` for how a text is read and an instruction is written, on `zl_verify` and `zl_abs` for what
//! the verifier knows where it refuses, on `zl_code` and `zl_rights` for what an image has, on `zl_command`
//! for the numbers that options take, on `bitflags`, and on `strsim` for the name that was meant.
//!
//! Texts for people have no contract: each function is safe and returns, whatever it is given, and no
//! more is promised. A function that adds to a hint answers with `AllocError` where memory is refused,
//! and a beginning of what it adds may stand there then; those that begin with `explain` leave the hint
//! empty. Of an input nothing is called before it is refused.
#![tactic(auto)]

/// Adds the text to the hint, with the values in the places of `#`: numbers, names, and words of an input.
#[macro_export]
macro_rules! tell {
    ($hint:expr; $text:expr $(, $value:expr)*) => {
        $crate::push_text($hint, $text, &[$($crate::Value::from($value)),*])
    };
}

mod again;
mod command;
mod image;
mod name;
mod page;
mod program;
mod refusal;
mod scenario;
mod stuck;
mod text;

pub use again::{
    Line, has_statements, line_at, line_of_item, line_of_turns, numbered_lines, words_of,
};
pub use command::bad::explain_bad;
pub use command::explain_words;
pub use command::failing::{explain_failure, explain_opening};
pub use image::explain_image;
pub use name::Nearest;
pub use page::{Page, add_page, push_page};
pub use program::explain_program;
pub use refusal::explain_refusal;
pub use scenario::source::{LONE_SCENARIO, STANDARD_INPUT, Source};
pub use scenario::{explain_scenario, is_among};
pub use stuck::{Stuck, explain_stuck};
pub use text::{Told, Value, plural, push_text};
