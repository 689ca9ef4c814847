//! Writing, in blocks.
ghost use Rattle.std.specs.Prelude.{◌≡◌, [], OnOk, OnErr, IfOk, IfErr, string_bytes};
ghost use Rattle.std.specs.Io.KnownBytes.{Appends};
ghost use Rattle.zl_trace.specs.Output.{AppendsBeginning, Gathers};

use crate::fault::TextFault;
use std::alloc::{AllocError, Global};
use std::io::Write;

/// How many bytes are gathered before they are written.
const BLOCK: usize = 65_536;

/// More bytes than a line of a trace has.
const LINE: usize = 256;

/// Room for a block and one line more.
pub fn empty_block(alloc: Global) -> Result<String, AllocError>
    ensures { IfOk result (λ block. string_bytes block ≡ []) }
{
    String::with_capacity(alloc, BLOCK + LINE)
}

/// Writes all the bytes. `Write` comes with any fault of the writer, an interruption too, and where
/// a write takes no byte.
pub fn write_all<W: Write>(writer: &mut W, bytes: &[u8]) -> Result<(), TextFault>
    ensures ok { OnOk result (Appends (W.contents writer.old) (W.contents writer.new) bytes.now) }
    ensures err { OnErr result (AppendsBeginning (W.contents writer.old) (W.contents writer.new)
        bytes.now) }
    ensures fault { IfErr result (λ fault. fault ≡ TextFault.Write) }
{
    let mut done = 0;
    while done < bytes.len() {
        match writer.write(&bytes[done..]) {
            Ok(0) => return Err(TextFault::Write),
            Ok(count) => done += count,
            Err(_) => return Err(TextFault::Write),
        }
    }
    Ok(())
}

/// Writes the block and empties it.
pub fn write_block<W: Write>(writer: &mut W, block: &mut String) -> Result<(), TextFault>
    ensures ok { OnOk result (Gathers (W.contents writer.old) (string_bytes block.old)
        (W.contents writer.new) (string_bytes block.new) []) }
    ensures empty { OnOk result (string_bytes block.new ≡ []) }
    ensures err { OnErr result (AppendsBeginning (W.contents writer.old) (W.contents writer.new)
        (string_bytes block.old)) }
    ensures fault { IfErr result (λ fault. fault ≡ TextFault.Write) }
{
    write_all(writer, block.as_bytes())?;
    block.clear();
    Ok(())
}

/// Writes the block where it is full.
pub fn write_if_full<W: Write>(writer: &mut W, block: &mut String) -> Result<(), TextFault>
    ensures ok { OnOk result (Gathers (W.contents writer.old) (string_bytes block.old)
        (W.contents writer.new) (string_bytes block.new) []) }
    ensures err { OnErr result (AppendsBeginning (W.contents writer.old) (W.contents writer.new)
        (string_bytes block.old)) }
    ensures fault { IfErr result (λ fault. fault ≡ TextFault.Write) }
{
    if block.len() < BLOCK {
        return Ok(());
    }
    write_block(writer, block)
}
