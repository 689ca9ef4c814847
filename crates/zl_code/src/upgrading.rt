//! An image of version 1 becomes one of version 2.

ghost use Rattle.std.specs.Prelude.{◌≡◌, ◌⊎◌, None, Some, IfOk, IfErr, OnOk};
ghost use Rattle.std.specs.List.{position};
ghost use Rattle.zl_code.specs.Upgrade.{is_held, upgraded};
ghost use Rattle.zl_code.specs.declared.image.Version.TheVariants as versions;

use crate::image::{Image, Version};
use crate::instr::Instr;

/// An image that isn't upgraded, and the number of the first instruction for which it is kept. Own
/// profile.
#[derive(Drop)]
pub struct Kept {
    pub at: usize,
    pub image: Image,
}

/// Whether the instruction is unknown, and has an opcode that version 2 knows.
fn is_held(instr: &Instr) -> bool
    ensures { result ≡ is_held instr.now }
{
    match instr {
        Instr::Unknown(bytes) => !Version::One.knows(bytes[0]),
        _ => false,
    }
}

/// The first such instruction.
fn first_held(code: &[Instr]) -> Option<usize>
    ensures { result ≡ position is_held code.now }
{
    code.iter().position(|instr| is_held(instr))
}

/// The image in version 2, with the same fields; one of version 2 comes back as it is. It takes no
/// memory.
///
/// It is kept as it is where it has an unknown opcode, under the raw mark, that version 2 knows: at
/// the first of these. Own profile.
pub fn upgrade(mut image: Image) -> Result<Image, Kept>
    ensures upgraded { IfOk result (λ image2. image2 ≡ upgraded image) }
    ensures held { IfErr result (λ kept. position is_held image.code ≡ Some kept.at) }
    ensures given_back { IfErr result (λ kept. kept.image ≡ image) }
    ensures only { OnOk result ((image.version ≡ versions.Two) ⊎ (position is_held image.code ≡ None)) }
{
    match image.version {
        Version::Two => Ok(image),
        Version::One => match first_held(&image.code) {
            Some(at) => Err(Kept { at, image }),
            None => {
                image.version = Version::Two;
                Ok(image)
            }
        },
    }
}
