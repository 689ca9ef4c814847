//! From the instruction of a line to that of an image.
ghost use Rattle.std.specs.Prelude.{◌≡◌, true, false, None, is_some, IsTrue, OnOk, IfOk, IfErr, Some};
ghost use Rattle.zl_code.specs.Spells.{instr_bytes, instr_fault, is_instr_in_range};
ghost use Rattle.zl_asm.specs.Causes.{OnRefusal};
ghost use Rattle.zl_asm.specs.Kept.{kept_value, is_kept_in_range, is_fine};
ghost use Rattle.zl_asm.specs.Draft.{labels_shown, Pushes};
ghost use Rattle.zl_asm.specs.Listing as listing;
ghost use Rattle.zl_asm.specs.Values.{source_value};

use crate::fault::AsmCause;
use crate::label_map::Labels;
use crate::line::Source;
use zl_code::{Instr, InstrBytes, Version};

/// An instruction as it is kept until all labels are known.
#[derive(Clone, Copy)]
pub(crate) enum Kept<'a> {
    /// It names no label, and so is decoded.
    Whole(Instr),
    /// Its bytes with the target 0, and the label that names its target.
    Open([u8; Instr::LEN], &'a [u8]),
}

/// The instruction of these bytes. `Operand` where a field is out of its range.
fn decoded(version: Version, raw: bool, bytes: [u8; Instr::LEN]) -> Result<Instr, AsmCause>
    ensures bytes { IfOk result (λ instr. instr_bytes instr ≡ bytes) }
    ensures in_range { IfOk result (λ instr. IsTrue (is_instr_in_range version raw instr)) }
    ensures refused { IfErr result (λ _. is_some (instr_fault version raw bytes) ≡ true) }
{
    match Instr::from_bytes(version, raw, bytes) {
        Ok(instr) => Ok(instr),
        Err(_) => Err(AsmCause::Operand),
    }
}

/// What is kept of the instruction of a line. `Operand` where it names no label, and a field is out
/// of its range.
pub(crate) fn kept_of<'a>(
    version: Version,
    raw: bool,
    source: &Source<'a>,
) -> Result<Kept<'a>, AsmCause>
    ensures same { IfOk result (λ kept. kept_value kept ≡ source_value source.now) }
    ensures in_range { IfOk result (λ kept. IsTrue (is_kept_in_range version raw kept)) }
    ensures refused { IfErr result (λ _. (source.now.label ≡ None)
        × (is_some (instr_fault version raw source.now.bytes) ≡ true)) }
{
    match source.label {
        None => Ok(Kept::Whole(decoded(version, raw, source.bytes)?)),
        Some(label) => Ok(Kept::Open(source.bytes, label)),
    }
}

/// The bytes of an instruction with this target.
fn with_target(bytes: [u8; Instr::LEN], target: u32) -> [u8; Instr::LEN]
    ensures { result ≡ listing.with_target bytes target }
{
    let mut parts = InstrBytes::split(bytes);
    let last = InstrBytes::numbers(parts.imm(), target);
    parts.last = last;
    parts.join()
}

/// The instruction, with the number for which its label stands. `LabelMissing` where no label has
/// the name, and `Operand` where a field is out of its range.
fn instr_of(labels: &Labels, version: Version, raw: bool, kept: &Kept) -> Result<Instr, AsmCause>
    requires { IsTrue (is_kept_in_range version raw kept.now) }
    ensures found { IfOk result (λ instr.
        listing.resolved (labels_shown labels.now.entries) (kept_value kept.now)
        ≡ Some (instr_bytes instr)) }
    ensures in_range { IfOk result (λ instr. IsTrue (is_instr_in_range version raw instr)) }
    ensures refused { IfErr result (λ _. is_fine version raw
        (listing.resolved (labels_shown labels.now.entries) (kept_value kept.now)) ≡ false) }
{
    match kept {
        Kept::Whole(instr) => Ok(*instr),
        Kept::Open(bytes, label) => match labels.get(*label) {
            Some(target) => decoded(version, raw, with_target(*bytes, *target)),
            None => Err(AsmCause::LabelMissing),
        },
    }
}

/// Adds the instruction behind the others.
pub(crate) fn push_kept(
    code: &mut Vec<Instr>,
    labels: &Labels,
    version: Version,
    raw: bool,
    kept: &Kept,
) -> Result<(), AsmCause>
    requires { IsTrue (is_kept_in_range version raw kept.now) }
    ensures pushed { OnOk result (Pushes version raw code.old.items
        (listing.resolved (labels_shown labels.now.entries) (kept_value kept.now)) code.new.items) }
    ensures refused { OnRefusal result (is_fine version raw
        (listing.resolved (labels_shown labels.now.entries) (kept_value kept.now)) ≡ false) }
{
    match instr_of(labels, version, raw, kept) {
        Ok(instr) => {
            // Not `push`, whose error would hand the instruction back.
            code.extend_from_slice(&[instr])?;
            Ok(())
        }
        Err(cause) => Err(cause),
    }
}
