ghost use Rattle.std.specs.Prelude.{◌≡◌, ◌++◌, OnOk, IfOk};
ghost use Rattle.zl_abs.specs.Bounds.{imm_of, bounds_of, bounds_by, rounded, RoundAlike};

use crate::imm::imm_of;
use std::alloc::{AllocError, Global};
use std::marker::Model;
use zl_code::{Image, Instr};

/// The bounds that every program has, but for the largest.
pub(crate) const PLAIN: [u64; 6] = [0, 30, 64, 255, 65_536, 0xffff_ffff];

/// The bounds that the words of a program are rounded up to, in order and each once. Own profile.
#[derive(Drop)]
pub struct Bounds {
    sorted: Vec<u64>,
}

impl Model for Bounds {
    ghost use Rattle.std.specs.Prelude.{ℕ, List};
    ghost use Rattle.std.specs.Ordering.{nat_cmp};
    ghost use Rattle.std.specs.List.Sorted.{IsStrictlySortedBy};

    ghost Value = { List ℕ };

    ghost view = { λ b. b.sorted.items };

    ghost invariant = { λ b. IsStrictlySortedBy nat_cmp b.sorted.items };
}

impl Bounds {
    /// The bounds of the image: 0, 30, 64, 255, 65,536, 2^32 - 1, and the number of each
    /// instruction and the one below it. Want of memory is handed back.
    pub fn of(alloc: Global, image: &Image) -> Result<Bounds, AllocError>
        ensures { IfOk result (λ bounds. RoundAlike bounds (bounds_of image.now.code)) }
    {
        let mut sorted = gathered(alloc, image.code())?;
        sorted.sort_unstable();
        sorted.dedup();
        Ok(Bounds { sorted })
    }

    /// The next bound, from the number on; the largest number, where there is none.
    pub(crate) fn round_up(&self, number: u64) -> u64
        ensures { result ≡ rounded self.now number }
    {
        match self.sorted.binary_search(&number) {
            Ok(_) => number,
            Err(place) => match self.sorted.get(place) {
                Some(bound) => *bound,
                None => u64::MAX,
            },
        }
    }
}

/// The bounds of the code, in the order in which they stand there.
fn gathered(alloc: Global, code: &[Instr]) -> Result<Vec<u64>, AllocError>
    ensures { IfOk result (λ bounds. bounds.items ≡ bounds_of code.now) }
{
    let mut bounds = Vec::from_slice(alloc, &PLAIN)?;
    for instr in code {
        push_bounds(&mut bounds, instr)?;
    }
    Ok(bounds)
}

/// Adds the bounds that the instruction brings.
fn push_bounds(bounds: &mut Vec<u64>, instr: &Instr) -> Result<(), AllocError>
    ensures { OnOk result (bounds.new.items ≡ bounds.old.items ++ bounds_by (imm_of instr.now)) }
{
    let Some(imm) = imm_of(instr) else {
        return Ok(());
    };
    let imm = u64::from(imm);
    bounds.extend_from_slice(&[imm, imm.saturating_sub(1)])
}
