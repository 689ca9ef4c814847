//! Counted blocks: what instructions are to them, and whether a code keeps the block rule.

ghost use Rattle.std.specs.Prelude.{◌≡◌, ◌≤◌, ◌<◌, length, map, replicate, slice_get, slice_set, true, Some, None, IfOk};
ghost use Rattle.std.specs.Option.{option_map};
ghost use Rattle.zl_code.specs.Jumps.{jump_of};
ghost use Rattle.zl_code.specs.Limits.{most_blocks, most_instructions};
ghost use Rattle.zl_code.specs.Lists.{at};
ghost use Rattle.zl_code.specs.Blocks.{mark_of, marks_of, is_rep_to, is_end_of, nests, are_blocks, all_nest, all_stay, is_flat, is_plain};
ghost use Rattle.zl_code.specs.Blocks.{AreHomes, AreWalked, deeper, home_behind, is_same_home, stays_by};

use crate::image::Image;
use crate::instr::{Instr, LocalInstr};
use std::alloc::{AllocError, Global};

/// What an instruction is to counted blocks. Own profile.
#[derive(Clone, Copy)]
pub enum Mark {
    /// It neither begins a block nor ends one.
    Plain,
    /// A block begins, which is gone round so many times, and whose end has this number.
    Rep { imm: u32, end: u32 },
    /// The block ends that begins at this number.
    EndRep { rep: u32 },
}

/// What the instruction is to counted blocks.
#[inline(always)]
pub(crate) fn mark_of(instr: &Instr) -> Mark
    ensures { result ≡ mark_of instr.now }
{
    match instr {
        Instr::Local(LocalInstr::Rep { count, end }) => Mark::Rep {
            imm: *count,
            end: *end,
        },
        Instr::Local(LocalInstr::EndRep { rep }) => Mark::EndRep { rep: *rep },
        _ => Mark::Plain,
    }
}

/// Whether the instruction neither begins a block nor ends one.
fn is_plain(instr: &Instr) -> bool
    ensures { result ≡ is_plain (mark_of instr.now) }
{
    matches!(mark_of(instr), Mark::Plain)
}

/// Whether no instruction begins a block or ends one.
pub(crate) fn is_flat(code: &[Instr]) -> bool
    ensures { result ≡ is_flat code.now }
{
    code.iter().all(is_plain)
}

fn mark_at(code: &[Instr], place: usize) -> Option<Mark>
    ensures { result ≡ slice_get (marks_of code.now) place }
{
    match code.get(place) {
        Some(instr) => Some(mark_of(instr)),
        None => None,
    }
}

/// Whether the instruction of this number is the rep whose end has that number.
fn is_rep_to(code: &[Instr], rep: u32, end: usize) -> bool
    ensures { result ≡ is_rep_to (slice_get (marks_of code.now) rep) end }
{
    match mark_at(code, rep as usize) {
        Some(Mark::Rep { end: its, .. }) => its as usize == end,
        _ => false,
    }
}

/// Whether the instruction of this number is the endrep of the rep with that number.
fn is_end_of(code: &[Instr], end: u32, rep: usize) -> bool
    ensures { result ≡ is_end_of (slice_get (marks_of code.now) end) rep }
{
    match mark_at(code, end as usize) {
        Some(Mark::EndRep { rep: its }) => its as usize == rep,
        _ => false,
    }
}

/// Whether the instruction can stand there, in so many blocks, of which this is the innermost.
fn nests(code: &[Instr], place: usize, mark: Mark, depth: usize, home: Option<u32>) -> bool
    ensures { result ≡ nests (marks_of code.now) place depth home (Some mark) }
{
    match mark {
        Mark::Plain => true,
        Mark::Rep { imm, end } => {
            0 < imm
                && imm <= Image::MOST_TURNS
                && depth < Image::MOST_BLOCKS
                && is_end_of(code, end, place)
        }
        Mark::EndRep { rep } => match home {
            Some(open) => open == rep && is_rep_to(code, rep, place),
            None => false,
        },
    }
}

/// In how many blocks the next instruction is.
fn deeper(mark: Mark, depth: usize) -> usize
    requires { depth ≤ most_blocks }
    ensures { result ≡ deeper (Some mark) depth }
{
    match mark {
        Mark::Plain => depth,
        Mark::Rep { .. } => depth + 1,
        Mark::EndRep { .. } => depth.saturating_sub(1),
    }
}

fn home_at(homes: &[Option<u32>], place: usize) -> Option<u32>
    ensures { result ≡ at homes.now place }
{
    match homes.get(place) {
        Some(home) => *home,
        None => None,
    }
}

/// The innermost block of the place behind this one.
fn home_behind(mark: Mark, place: usize, homes: &[Option<u32>]) -> Option<u32>
    requires { place < most_instructions }
    ensures { result ≡ home_behind mark place (at homes.now) }
{
    match mark {
        Mark::Plain => home_at(homes, place),
        Mark::Rep { .. } => Some(place as u32),
        Mark::EndRep { rep } => home_at(homes, rep as usize),
    }
}

/// The place has this, if it is there.
#[tactic(auto, using(crate::proofs::Nested::same_past))]
fn put(homes: &mut Vec<Option<u32>>, place: usize, home: Option<u32>)
    ensures { homes.new.items ≡ slice_set homes.old.items place home }
{
    if place < homes.len() {
        homes[place] = home;
    }
}

/// No block for each instruction.
fn no_homes(alloc: Global, count: usize) -> Result<Vec<Option<u32>>, AllocError>
    ensures { IfOk result (λ homes. homes.items ≡ replicate count None) }
{
    vec![in alloc; None; count]
}

/// The innermost block that each instruction is in, if they nest.
fn walk(alloc: Global, code: &[Instr]) -> Result<Option<Vec<Option<u32>>>, AllocError>
    requires { length code.now ≤ most_instructions }
    ensures { IfOk result (λ walked. AreWalked (marks_of code.now) (option_map (λ v. v.items) walked)) }
{
    let mut homes = no_homes(alloc, code.len())?;
    let mut depth = 0;
    for place in 0..code.len() {
        let mark = mark_of(&code[place]);
        let home = home_at(&homes, place);
        if !nests(code, place, mark, depth, home) {
            return Ok(None);
        }
        let behind = home_behind(mark, place, &homes);
        put(&mut homes, place + 1, behind);
        depth = deeper(mark, depth);
    }
    Ok(Some(homes))
}

fn is_same_home(first: Option<u32>, second: Option<u32>) -> bool
    ensures { result ≡ is_same_home first second }
{
    match (first, second) {
        (Some(first), Some(second)) => first == second,
        (None, None) => true,
        _ => false,
    }
}

/// Whether the jump leads to the same blocks.
fn stays(homes: &[Option<u32>], place: usize, jump: Option<usize>) -> bool
    ensures { result ≡ stays_by homes.now place jump }
{
    match jump {
        Some(target) => is_same_home(home_at(homes, place), home_at(homes, target)),
        None => true,
    }
}

/// Where the instruction jumps, if it is a jump.
fn jump_of(instr: &Instr) -> Option<usize>
    ensures { result ≡ jump_of instr.now }
{
    match instr {
        Instr::Local(local) => match local.target() {
            Some(target) => Some(target as usize),
            None => None,
        },
        _ => None,
    }
}

/// Whether each jump leads to the same blocks.
fn all_stay(code: &[Instr], homes: &[Option<u32>]) -> bool
    requires nest { all_nest (marks_of code.now) (length (marks_of code.now)) ≡ true }
    requires homes { AreHomes (marks_of code.now) homes.now (length (marks_of code.now)) }
    ensures { result ≡ all_stay (marks_of code.now) (map jump_of code.now) (length (marks_of code.now)) }
{
    for place in 0..code.len() {
        if !stays(homes, place, jump_of(&code[place])) {
            return false;
        }
    }
    true
}

/// Whether the code keeps the block rule: `rep` and `endrep` nest as brackets, at most four deep, each
/// names the other, a block is gone round 1 to 1,000,000 times, and a jump leads to where the same
/// blocks are; out of the code none is. Only memory can be refused. Own profile.
#[tactic(auto, using(crate::proofs::Flat::flat_blocks))]
pub fn are_blocks(alloc: Global, code: &[Instr]) -> Result<bool, AllocError>
    requires { length code.now ≤ most_instructions }
    ensures { IfOk result (λ kept. kept ≡ are_blocks (marks_of code.now) (map jump_of code.now)) }
{
    if is_flat(code) {
        return Ok(true);
    }
    match walk(alloc, code)? {
        Some(homes) => Ok(all_stay(code, &homes)),
        None => Ok(false),
    }
}
