//! Counted blocks: a rep and the endrep of its block lead to each other.
ghost use Rattle.std.specs.Prelude.{◌≡◌, ◌⊎◌, ◌≤◌, ◌<◌, false, true, length, map, replicate, slice_set, None, IfOk, IfErr};
ghost use Rattle.zl_code.specs.Blocks.{mark_of, marks_of, are_blocks};
ghost use Rattle.zl_code.specs.Jumps.{jump_of};
ghost use Rattle.zl_code.specs.Limits.{most_instructions};
ghost use Rattle.zl_code.specs.Lists.{at};
ghost use Rattle.zl_asm.specs.Paired.{joined_to, joined_code, closed_by, home_after, with_end, AreWalked};
ghost use Rattle.zl_asm.specs.declared.fault.AsmCause.TheVariants.{NoMemory};

use crate::fault::AsmCause;
use std::alloc::{AllocError, Global};
use zl_code::{Instr, LocalInstr, are_blocks};

/// For each place the innermost block that it is in, and where the block ends that begins there.
#[derive(Drop)]
struct Blocks {
    homes: Vec<Option<u32>>,
    ends: Vec<Option<u32>>,
}

/// Why a code isn't kept, and the number of an instruction that is at fault.
#[derive(Clone, Copy)]
pub(crate) struct Breach {
    pub place: usize,
    pub cause: AsmCause,
}

impl From<AllocError> for Breach {
    ghost from_gives = { λ _ breach. breach.cause ≡ NoMemory };

    fn from(_error: AllocError) -> Breach {
        Breach {
            place: 0,
            cause: AsmCause::NoMemory,
        }
    }
}

fn none_yet(alloc: Global, count: usize) -> Result<Vec<Option<u32>>, AllocError>
    ensures { IfOk result (λ places. places.items ≡ replicate count None) }
{
    vec![in alloc; None; count]
}

fn place_at(places: &[Option<u32>], n: usize) -> Option<u32>
    ensures { result ≡ at places.now n }
{
    match places.get(n) {
        Some(place) => *place,
        None => None,
    }
}

/// The place has this, if it is there.
fn put(places: &mut Vec<Option<u32>>, n: usize, place: Option<u32>)
    ensures { places.new.items ≡ slice_set places.old.items n place }
{
    if n < places.len() {
        places[n] = place;
    }
}

/// The block that ends at the instruction, where this is the innermost one.
fn closed_by(instr: &Instr, home: Option<u32>) -> Option<u32>
    ensures { result ≡ closed_by (mark_of instr.now) home }
{
    match instr {
        Instr::Local(LocalInstr::EndRep { .. }) => home,
        _ => None,
    }
}

/// The innermost block of the place behind this one.
fn home_after(instr: &Instr, n: u32, home: Option<u32>, homes: &[Option<u32>]) -> Option<u32>
    ensures { result ≡ home_after (mark_of instr.now) n home (at homes.now) }
{
    match instr {
        Instr::Local(LocalInstr::Rep { .. }) => Some(n),
        Instr::Local(LocalInstr::EndRep { .. }) => match home {
            Some(rep) => place_at(homes, rep as usize),
            None => None,
        },
        _ => home,
    }
}

/// The block has this end, if there is one.
fn put_end(ends: &mut Vec<Option<u32>>, block: Option<u32>, n: u32)
    ensures { ends.new.items ≡ with_end ends.old.items block n }
{
    if let Some(rep) = block {
        put(ends, rep as usize, Some(n));
    }
}

/// Where the blocks of the code begin and end.
fn blocks_of(alloc: Global, code: &[Instr]) -> Result<Blocks, AllocError>
    requires { length code.now ≤ most_instructions }
    ensures { IfOk result (λ blocks. AreWalked (marks_of code.now) blocks.homes.items blocks.ends.items) }
{
    let mut homes = none_yet(alloc, code.len())?;
    let mut ends = none_yet(alloc, code.len())?;
    let mut home = None;
    for n in 0..code.len() {
        let instr = code[n];
        put(&mut homes, n, home);
        put_end(&mut ends, closed_by(&instr, home), n as u32);
        home = home_after(&instr, n as u32, home, &homes);
    }
    Ok(Blocks { homes, ends })
}

/// The instruction, where a rep leads to the end of its block, and an endrep to its innermost block.
fn joined_to(instr: Instr, home: Option<u32>, closed: Option<u32>) -> Instr
    ensures { result ≡ joined_to instr home closed }
{
    match instr {
        Instr::Local(LocalInstr::Rep { count, end }) => Instr::Local(LocalInstr::Rep {
            count,
            end: closed.unwrap_or(end),
        }),
        Instr::Local(LocalInstr::EndRep { rep }) => Instr::Local(LocalInstr::EndRep {
            rep: home.unwrap_or(rep),
        }),
        _ => instr,
    }
}

/// The code, where each rep and each endrep leads to the other.
fn joined_code(alloc: Global, code: &[Instr], blocks: &Blocks) -> Result<Vec<Instr>, AllocError>
    requires { AreWalked (marks_of code.now) blocks.now.homes.items blocks.now.ends.items }
    ensures { IfOk result (λ joined. joined.items ≡ joined_code code.now) }
{
    let mut joined = Vec::with_capacity(alloc, code.len())?;
    for n in 0..code.len() {
        let home = place_at(&blocks.homes, n);
        let closed = place_at(&blocks.ends, n);
        let instr = joined_to(code[n], home, closed);
        joined.extend_from_slice(&[instr])?;
    }
    Ok(joined)
}

/// The first instruction that breaks the block rule, of a code that doesn't keep it.
fn place_at_fault(code: &[Instr], blocks: &Blocks) -> usize {
    let mut depth = 0u32;
    for n in 0..code.len() {
        let Instr::Local(local) = code[n] else {
            continue;
        };
        let home = place_at(&blocks.homes, n);
        let keeps = match local {
            LocalInstr::Rep { count, .. } => {
                depth = depth.saturating_add(1);
                0 < count && count <= 1_000_000 && depth <= 4 && place_at(&blocks.ends, n).is_some()
            }
            LocalInstr::EndRep { .. } => {
                depth = depth.saturating_sub(1);
                home.is_some()
            }
            _ => match local.target() {
                Some(target) => place_at(&blocks.homes, target as usize) == home,
                None => true,
            },
        };
        if !keeps {
            return n;
        }
    }
    0
}

/// The code with its blocks, if it keeps the block rule.
pub(crate) fn nested(alloc: Global, code: &[Instr]) -> Result<Vec<Instr>, Breach>
    requires { length code.now ≤ most_instructions }
    ensures joined { IfOk result (λ joined. joined.items ≡ joined_code code.now) }
    ensures keeps { IfOk result (λ joined.
        are_blocks (marks_of joined.items) (map jump_of joined.items) ≡ true) }
    ensures refused { IfErr result (λ breach. (breach.cause ≡ NoMemory)
        ⊎ (are_blocks (marks_of (joined_code code.now)) (map jump_of (joined_code code.now)) ≡ false)) }
{
    let blocks = blocks_of(alloc, code)?;
    let joined = joined_code(alloc, code, &blocks)?;
    if are_blocks(alloc, &joined)? {
        Ok(joined)
    } else {
        Err(Breach {
            place: place_at_fault(code, &blocks),
            cause: AsmCause::Block,
        })
    }
}
