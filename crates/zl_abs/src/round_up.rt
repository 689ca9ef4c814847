ghost use Rattle.std.specs.Prelude.{◌≡◌, [], ◌∷◌};
ghost use Rattle.zl_abs.specs.Bounds.{imm_of, imm_bounds, bounds_by, least_from, rounded};
ghost use Rattle.zl_abs.specs.Found.{bounds_in};

use crate::bounds::{Bounds, PLAIN};
use crate::imm::imm_of;
use zl_code::Instr;

/// Where the bounds of the words of a program are found.
#[derive(Clone, Copy)]
pub(crate) enum Rounding<'a> {
    /// In the code, by going over all of it.
    Code(&'a [Instr]),
    /// In a list, by a binary search.
    List(&'a Bounds),
}

impl<'a> Rounding<'a> {
    /// The next bound, from the number on.
    #[tactic(auto, using(crate::proofs::SortedBounds::code_rounded))]
    pub fn round_up(self, number: u64) -> u64
        ensures { result ≡ rounded (bounds_in self.entry) number }
    {
        match self {
            Rounding::Code(code) => least_in_code(code, number, least_in(&PLAIN, number, u64::MAX)),
            Rounding::List(list) => list.round_up(number),
        }
    }
}

/// The least of `best` and the bound, if that isn't below the number.
#[tactic(auto, unfolding(crate::specs::Bounds::least_from))]
fn nearer(bound: u64, number: u64, best: u64) -> u64
    ensures { result ≡ least_from number best (bound ∷ []) }
{
    if number <= bound && bound < best {
        bound
    } else {
        best
    }
}

/// The least of `best` and the bounds that aren't below the number.
fn least_in(bounds: &[u64], number: u64, best: u64) -> u64
    ensures { result ≡ least_from number best bounds.now }
{
    let mut best = best;
    for bound in bounds {
        best = nearer(*bound, number, best);
    }
    best
}

/// The least of `best` and the bounds that the code brings that aren't below the number.
fn least_in_code(code: &[Instr], number: u64, best: u64) -> u64
    ensures { result ≡ least_from number best (imm_bounds code.now) }
{
    let mut best = best;
    for instr in code {
        best = least_of(instr, number, best);
    }
    best
}

/// The least of `best` and the bounds of the instruction that aren't below the number.
#[tactic(auto, unfolding(crate::specs::Bounds::least_from))]
fn least_of(instr: &Instr, number: u64, best: u64) -> u64
    ensures { result ≡ least_from number best (bounds_by (imm_of instr.now)) }
{
    match imm_of(instr) {
        Some(imm) => {
            let imm = u64::from(imm);
            nearer(imm.saturating_sub(1), number, nearer(imm, number, best))
        }
        None => best,
    }
}
