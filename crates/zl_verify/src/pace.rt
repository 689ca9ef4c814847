/// What a look at an instruction takes, beside the two below.
const LOOK: usize = 8;

/// What it takes to do an instruction again in a search by what is named.
const STEP: usize = 16;

/// What it takes to carry a register on from there.
const REGISTER: usize = 2;

/// How often all instructions may be looked at in the time that such a search may lose. The first time it
/// carries each register on from each, which takes ten times as long as a look.
const PATIENCE: usize = 16;

/// Whether a search by what is named gains: the looks at instructions that it saves, beside what it
/// takes. No clause says so.
#[derive(Clone, Copy)]
pub(crate) struct Pace {
    saved: usize,
    taken: usize,
    // What it may lose yet, and what it may lose at most.
    left: usize,
    most: usize,
}

/// What it takes to do an instruction again, from which so many registers are carried on.
pub(crate) fn step_of(registers: u32) -> usize {
    REGISTER
        .saturating_mul(registers as usize)
        .saturating_add(STEP)
}

impl Pace {
    /// Of a search that is given up once it has gained nothing for long, among so many instructions.
    pub fn among(size: usize) -> Pace {
        Pace::losing(size.saturating_mul(PATIENCE).saturating_mul(LOOK))
    }

    /// Of a search that isn't given up.
    pub fn endless() -> Pace {
        Pace::losing(usize::MAX)
    }

    /// Of a search that may lose so much.
    fn losing(most: usize) -> Pace {
        Pace {
            saved: 0,
            taken: 0,
            left: most,
            most,
        }
    }

    /// So many looks were saved by steps that took so much. Whether the search goes on.
    pub fn goes_on(&mut self, looks: usize, steps: usize) -> bool {
        let saved = looks.saturating_mul(LOOK);
        self.saved = self.saved.saturating_add(saved);
        self.taken = self.taken.saturating_add(steps);
        let left = self.left.saturating_add(saved).min(self.most);
        self.left = left.saturating_sub(steps);
        steps <= left
    }

    /// Whether the search saved so much that what it found is worth being kept.
    pub fn is_worth(&self) -> bool {
        self.taken.saturating_mul(2) <= self.saved
    }
}
