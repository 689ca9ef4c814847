//! Laws of the definitions: each function's contract is one law, and its body is empty.

ghost use Rattle.zl_asm.specs.Canonical.{EachTextDenotes};
ghost use Rattle.zl_asm.specs.Denotes.{NoTextDenotesTwo, EachTextGivesBytes};

/// No text denotes two images.
pub fn no_text_denotes_two_images()
    ensures { NoTextDenotesTwo }
{}

/// The text of each image, as the disassembler lays it out, denotes that image.
pub fn each_text_denotes_its_image()
    ensures { EachTextDenotes }
{}

/// Where a text denotes an image, the bytes of its fields are those of the image.
pub fn each_text_gives_the_bytes_of_its_image()
    ensures { EachTextGivesBytes }
{}
