//! The numbers that options take.

/// The least number that an option takes, and the most. Own profile.
#[derive(Clone, Copy)]
pub struct Numbers {
    pub least: u64,
    pub most: u64,
}

impl Numbers {
    /// Of `--workers`.
    pub const WORKERS: Numbers = Numbers { least: 1, most: 64 };

    /// Of `--limit`.
    pub const LIMIT: Numbers = Numbers {
        least: 0,
        most: 1_000_000,
    };

    /// Of `--burst`.
    pub const BURST: Numbers = Numbers {
        least: 1,
        most: 1_000_000,
    };

    /// Of `--worlds`.
    pub const WORLDS: Numbers = Numbers {
        least: 1,
        most: 1_000_000_000,
    };

    /// Of `--from`.
    pub const FROM: Numbers = Numbers {
        least: 0,
        most: 1000,
    };
}
