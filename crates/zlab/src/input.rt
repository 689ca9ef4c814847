//! Reading: the whole input, up to a limit.
ghost use Rattle.std.specs.Prelude.{◌≢◌, IfOk, IfErr};
ghost use Rattle.zlab.specs.Input.{IsFrontOf, IsInputOf, TakesAtMost, TakesNoMore};

use crate::fault::EngineFault;
use std::alloc::Global;
use std::io::Read;

/// The most bytes that an input may have.
pub const MOST_INPUT: usize = 4_194_304;

const BLOCK: usize = 16_384;

/// What an engine has read.
#[derive(Drop)]
pub enum Input {
    /// All bytes, at most `MOST_INPUT`.
    Text(Vec<u8>),
    /// There are more than `MOST_INPUT` bytes.
    TooLong,
}

/// Reads all bytes that the reader has, and no further than one byte past `MOST_INPUT`. Every fault
/// of the reader ends it with `Read`, an interruption too; `NoMemory` comes where memory is refused.
pub fn read_input<R: Read>(alloc: Global, reader: &mut R) -> Result<Input, EngineFault>
    ensures ok { IfOk result (IsInputOf (R.remaining reader.old)) }
    ensures err { IfErr result (λ fault. fault ≢ EngineFault.Write) }
    ensures taken { TakesNoMore (R.remaining reader.old) (R.remaining reader.new) }
{
    let text = read_front(alloc, reader, MOST_INPUT + 1)?;
    if text.len() <= MOST_INPUT {
        Ok(Input::Text(text))
    } else {
        Ok(Input::TooLong)
    }
}

/// Reads so many bytes, or all that the reader has where they are fewer. Every fault of the reader
/// ends it with `Read`, an interruption too; `NoMemory` comes where memory is refused.
pub fn read_front<R: Read>(
    alloc: Global,
    reader: &mut R,
    most: usize,
) -> Result<Vec<u8>, EngineFault>
    ensures ok { IfOk result (λ front. IsFrontOf most (R.remaining reader.old) front.items) }
    ensures err { IfErr result (λ fault. fault ≢ EngineFault.Write) }
    ensures taken { TakesAtMost most (R.remaining reader.old) (R.remaining reader.new) }
{
    let mut text = Vec::new(alloc);
    let mut block = [0u8; BLOCK];
    while text.len() < most {
        let room = BLOCK.min(most - text.len());
        let count = match reader.read(&mut block[..room]) {
            Ok(count) => count,
            Err(_) => return Err(EngineFault::Read),
        };
        if count == 0 {
            return Ok(text);
        }
        if text.extend_from_slice(&block[..count]).is_err() {
            return Err(EngineFault::NoMemory);
        }
    }
    Ok(text)
}
