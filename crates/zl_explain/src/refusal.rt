//! What standard error says of an image that the verifier refuses: at which instruction, which register is
//! at fault, what it has and what was wanted, and what to do.

mod advice;
mod arrays;
mod budget;
mod code;
mod known;
mod memory;
mod places;
mod register;
mod rounds;
mod ways;

use crate::stuck::instr_text::push_instr_text;
use crate::text::Told;
use arrays::push_array;
use code::{push_illegal, push_need, push_target};
use known::push_state;
use memory::push_range;
use places::Site;
use register::push_register;
use std::alloc::{AllocError, Global};
use ways::{push_long_way, push_meeting};
use zl_abs::{Blamed, Cause};
use zl_code::InstrBytes;
use zl_verify::{Refusal, RefusalCause};

/// Adds a line that says why the image is refused at the instruction of this number.
pub fn explain_refusal(hints: &mut String, alloc: Global, refusal: &Refusal) {
    if push_line(hints, alloc, refusal).is_err() {
        hints.clear();
    }
}

fn push_line(hints: &mut String, alloc: Global, refusal: &Refusal) -> Told {
    let (at, name) = (refusal.at, refusal.cause.name());
    write!(hints, "zlab: instruction {at}: {name}: ")?;
    push_reason(hints, alloc, refusal)?;
    hints.push_str("\n")
}

/// Adds the instruction of this number, why the image is refused there, and the page on the cause.
pub fn push_reason(hints: &mut String, alloc: Global, refusal: &Refusal) -> Told {
    let (image, at) = (&refusal.image, refusal.at);
    if at < image.len() {
        push_instr_text(hints, alloc, image, at)?;
        hints.push_str(": ")?;
    }
    match refusal.cause {
        RefusalCause::Rule(cause) => push_rule(hints, refusal, cause)?,
        RefusalCause::JoinConflict => push_meeting(hints, &refusal.seen)?,
        RefusalCause::Budget => push_long_way(hints, alloc, image, at)?,
        RefusalCause::NoMemory => return Err(AllocError),
    }
    push_page(hints, alloc, refusal.cause.name())
}

/// Adds the heading below which the verifier's page speaks of the cause.
fn push_page(hints: &mut String, alloc: Global, cause: &str) -> Told {
    let heading = cause.to_ascii_lowercase(alloc)?;
    hints.push_str(" (docs/CHECK.md#")?;
    hints.push_str(heading.as_str())?;
    hints.push_str(")")
}

/// Adds why the rule of the instruction doesn't hold.
fn push_rule(hints: &mut String, refusal: &Refusal, cause: Cause) -> Told {
    let Some(site) = site_of(refusal) else {
        return hints.push_str(reason_of(cause));
    };
    match cause {
        Cause::MemoryRange => push_range(hints, &site),
        Cause::BadJump => push_target(hints, &site),
        Cause::FallsOff => hints.push_str(reason_of(cause)),
        Cause::UndeclaredNeed => push_need(hints, &site),
        Cause::IllegalOp => push_illegal(hints, &site),
        _ => push_fault(hints, &site, &refusal.seen.blamed, cause),
    }
}

/// Adds which register is at fault for the cause, or that the slot array is; what is known of all registers
/// where neither is found.
fn push_fault(hints: &mut String, site: &Site, blamed: &Option<Blamed>, cause: Cause) -> Told {
    if let Some(blamed) = blamed {
        return push_register(hints, site, blamed, cause);
    }
    if push_array(hints, site, cause)? {
        return Ok(());
    }
    hints.push_str(reason_of(cause))?;
    push_state(hints, &site.state)
}

/// The instruction of this number, and what is known there.
fn site_of(refusal: &Refusal) -> Option<Site<'_>> {
    let Some(instr) = refusal.image.instr_at(refusal.at) else {
        return None;
    };
    let state = refusal.seen.known?;
    let parts = InstrBytes::split(instr.to_bytes());
    Some(Site {
        image: &refusal.image,
        at: refusal.at,
        parts,
        state,
    })
}

/// What a rule wants that doesn't hold, where no more is known.
fn reason_of(cause: Cause) -> &'static str {
    match cause {
        Cause::NotLive => "a register that needs to have a live handle may have none",
        Cause::WrongKind => "a handle may be of a kind that isn't taken here",
        Cause::LacksRight => "a handle may lack a right that is needed here",
        Cause::Leak => "a register that may have a handle is written, and the handle would be lost",
        Cause::NotWord => "a register that may have a handle is read as a number",
        Cause::MemoryRange => "an address or a place may lie outside",
        Cause::BadJump => "the jump leads out of the code",
        Cause::FallsOff =>
            "behind the last instruction there is none; let process_exit or jmp be the last",
        Cause::UndeclaredNeed => "a line .need is missing for what is made here",
        Cause::IllegalOp => "there is no such instruction",
    }
}
