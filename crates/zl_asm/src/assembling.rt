//! From the text of a program to its image.
ghost use Rattle.std.specs.Prelude.{◌≡◌, ◌⊎◌, None, IfOk, IfErr, MatchResult};
ghost use Rattle.zl_code.specs.Image.{Image as ImageValue};
ghost use Rattle.zl_asm.specs.declared.fault.AsmCause.TheVariants.{NoMemory};
ghost use Rattle.zl_asm.specs.Denotes.{Denotes};
ghost use Rattle.zl_asm.specs.Draft.{ReadsAll, held_by};
ghost use Rattle.zl_asm.specs.Listing.{listing_of};

use crate::draft::Draft;
use crate::fault::AsmFault;
use std::alloc::Global;
use zl_code::Image;

/// The image that the text denotes.
///
/// The grammar is own profile: a line holds a directive, a label `name:`, an instruction or nothing,
/// and what stands behind a semicolon doesn't count. The error has the first line that is at fault,
/// counted from 1, and why; a line whose label is missing comes behind all others, and
/// counted blocks that don't nest behind that. Of these a clause
/// says only that the text denotes no image. `NoMemory` says nothing of the text.
pub fn assemble(alloc: Global, text: &str) -> Result<Image, AsmFault>
    ensures found { IfOk result (λ image. Denotes text.now image) }
    ensures none { IfErr result (λ fault.
        (fault.cause ≡ NoMemory) ⊎ (listing_of text.now ≡ None)) }
    ensures only { (i : ImageValue) → Denotes text.now i
        → MatchResult result (λ image. image ≡ i) (λ fault. fault.cause ≡ NoMemory) }
{
    assemble_bytes(alloc, text.as_bytes())
}

/// The image that a text denotes, of which these are the bytes. A byte outside ASCII is a `Token` of
/// its line; all else is as `assemble` says.
pub fn assemble_bytes(alloc: Global, text: &[u8]) -> Result<Image, AsmFault>
    ensures found { IfOk result (λ image. Denotes text.now image) }
    ensures none { IfErr result (λ fault.
        (fault.cause ≡ NoMemory) ⊎ (listing_of text.now ≡ None)) }
    ensures only { (i : ImageValue) → Denotes text.now i
        → MatchResult result (λ image. image ≡ i) (λ fault. fault.cause ≡ NoMemory) }
{
    read_lines(alloc, text)?.into_image(alloc)
}

/// What all lines of the text say.
fn read_lines<'a>(alloc: Global, text: &'a [u8]) -> Result<Draft<'a>, AsmFault>
    ensures read { IfOk result (λ draft. ReadsAll text.now (held_by draft)) }
    ensures refused { IfErr result (λ fault.
        (fault.cause ≡ NoMemory) ⊎ (listing_of text.now ≡ None)) }
{
    let mut draft = Draft::new(alloc, text);
    let mut words = Vec::new(alloc);
    let mut operands = Vec::new(alloc);
    for (index, line) in text.split(|byte| *byte == b'\n').enumerate() {
        let number = index as u64 + 1;
        if let Err(fault) = draft.read_line(number, line, &mut words, &mut operands) {
            return Err(fault.in_line(number));
        }
    }
    Ok(draft)
}
