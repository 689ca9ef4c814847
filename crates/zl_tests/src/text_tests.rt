//! Texts of programs: how they are laid out. What they denote, and what they are refused for, is shown
//! by the cases.

use std::test::*;
use zl_asm::{assemble, disassemble};

/// A text as somebody may write it.
const WRITTEN: &str =
    "; a loop\n  .budget 0x1F ; twice .raw\n.slots any 2 0\n.need NEW_PORT\n.need NEW_EVENT\n.start channel 16388\n.raw\n\nconst r2 ,  03\nloop:\nagain_2:\n  addi r2,r2,0xffffffff\njnz r2, loop\njeq r31, 7, end\n.bytes C8000000000000000000000000000000\njmp 9\nchan_write r2, r3, r0, r0, r6, r7\nend:";

/// The same, laid out.
const LAID_OUT: &str =
    ".raw\n.memory 0\n.budget 31\n.need NEW_EVENT\n.need NEW_PORT\n.start channel 16388\n.slots any 2 0\nconst r2, 3\nl1:\naddi r2, r2, 4294967295\njnz r2, l1\njeq r31, 7, 7\n.bytes c8000000000000000000000000000000\njmp 9\nchan_write r2, r3, r0, r0, r6, r7\n";

#[test]
fn lays_a_text_out(rt: HostRuntime) -> Result<(), Fail> {
    let image = assemble(rt.alloc(), WRITTEN)
        .ok()
        .ok_or("the text denotes an image")?;
    let text = disassemble(rt.alloc(), &image)
        .ok()
        .ok_or("memory was refused")?;
    assert_eq!(rt; text.as_str(), LAID_OUT);
    Ok(())
}
