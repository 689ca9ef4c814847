//! The parts of a scenario.

/// What the next line belongs to.
#[derive(Clone, Copy)]
pub enum Part {
    Statements,
    /// The block of a program, which this line opens, and whether it is marked as checked.
    Block { opened: u64, checked: bool },
    /// After the line `--`.
    Schedule,
}
