//! The page that helps with what is refused.

use crate::text::Told;
use zl_scenario::Cause;

/// What is refused.
#[derive(Clone, Copy)]
pub enum Page {
    /// A line of a scenario, for this cause.
    Line(Cause),
    /// A line of a schedule.
    Turns,
    /// A text of a program.
    Text,
    /// An image.
    Image,
    /// A trace.
    Trace,
}

impl Page {
    /// The heading in `docs` that helps, if one does.
    fn heading(self) -> Option<&'static str> {
        Some(match self {
            Page::Line(Cause::Syntax) => "SCENARIO.md#lines",
            Page::Line(Cause::Unknown | Cause::Limit) => "refusals.md#scenarios",
            Page::Line(Cause::BadHandleList) => "SCENARIO.md#handles",
            Page::Line(Cause::NeedDenied) => "SCENARIO.md#checked-programs",
            Page::Line(Cause::BadState | Cause::Conflict) => "SCENARIO.md#jobs-and-policies",
            // what is told of a program names its own page
            Page::Line(Cause::Program | Cause::Check) => return None,
            Page::Turns => "SCENARIO.md#turns",
            Page::Text => "refusals.md#texts-of-the-assembler",
            Page::Image => "refusals.md#images",
            Page::Trace => "SCENARIO.md#replay",
        })
    }
}

/// Adds the heading that helps, if one does.
pub fn push_page(hint: &mut String, page: Page) -> Told {
    match page.heading() {
        Some(heading) => tell!(hint; " (docs/#)", heading),
        None => Ok(()),
    }
}

/// Adds the heading to the line that was added last, if one was.
pub fn add_page(hints: &mut String, page: Page) {
    let is_told = hints.pop().is_some();
    if is_told && (push_page(hints, page).is_err() || hints.push_str("\n").is_err()) {
        hints.clear();
    }
}
