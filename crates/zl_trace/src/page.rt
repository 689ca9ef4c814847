//! Lines that are gathered before they are written.
ghost use Rattle.std.specs.Prelude.{◌≡◌, ◌++◌, ◌+◌, ◌≤◌, [], OnOk, OnErr, length, take};
ghost use Rattle.std.specs.Io.KnownBytes.{Appends};
ghost use Rattle.zl_trace.specs.Output.{AppendsBeginning, Gathers};
ghost use Rattle.zl_trace.specs.Text.{item_line};

use crate::fault::TextFault;
use crate::output::write_all;
use crate::recent::{ROOM, RecentLine};
use std::io::Write;

/// How many bytes are gathered.
const PAGE: usize = 16_384;

/// Lines that are gathered before they are written. There is always room for one more, so that each
/// is copied without a test.
#[derive(Drop)]
pub struct Page {
    bytes: [u8; PAGE],
    end: usize,
    ghost room: { end + 48 ≤ 16384 },
}

impl Page {
    /// One with nothing in it.
    pub fn new() -> Page
        ensures { take result.end result.bytes ≡ [] }
    {
        Page {
            bytes: zeros(),
            end: 0,
        }
    }

    /// Adds the line, and writes all where there is no room for one more.
    #[inline(always)]
    pub fn add<W: Write>(&mut self, writer: &mut W, line: &RecentLine) -> Result<(), TextFault>
        ensures ok { OnOk result (Gathers (W.contents writer.old) (take self.old.end self.old.bytes)
            (W.contents writer.new) (take self.new.end self.new.bytes)
            (item_line line.now.item)) }
        ensures err { OnErr result (AppendsBeginning (W.contents writer.old) (W.contents writer.new)
            (take self.old.end self.old.bytes ++ item_line line.now.item)) }
    {
        let end = put(&mut self.bytes, self.end, line);
        if end + ROOM <= PAGE {
            self.end = end;
            return Ok(());
        }
        write_all(writer, &self.bytes[..end])?;
        self.end = 0;
        Ok(())
    }

    /// Writes all.
    pub fn write_out<W: Write>(&mut self, writer: &mut W) -> Result<(), TextFault>
        ensures ok { OnOk result (Appends (W.contents writer.old) (W.contents writer.new)
            (take self.old.end self.old.bytes)) }
        ensures empty { OnOk result (take self.new.end self.new.bytes ≡ []) }
        ensures err { OnErr result (AppendsBeginning (W.contents writer.old) (W.contents writer.new)
            (take self.old.end self.old.bytes)) }
    {
        write_all(writer, &self.bytes[..self.end])?;
        self.end = 0;
        Ok(())
    }

    /// Writes all, and behind it a text that is too long to be gathered.
    #[tactic(auto, using(crate::proofs::Pages::both_written, crate::proofs::Pages::begun_both))]
    pub fn write_with<W: Write>(&mut self, writer: &mut W, text: &[u8]) -> Result<(), TextFault>
        ensures ok { OnOk result (Gathers (W.contents writer.old) (take self.old.end self.old.bytes)
            (W.contents writer.new) (take self.new.end self.new.bytes) text.now) }
        ensures err { OnErr result (AppendsBeginning (W.contents writer.old) (W.contents writer.new)
            (take self.old.end self.old.bytes ++ text.now)) }
    {
        self.write_out(writer)?;
        write_all(writer, text)
    }
}

/// Copies the line there, with the room behind it, and gives where it ends.
#[inline(always)]
fn put(room: &mut [u8], start: usize, line: &RecentLine) -> usize
    requires room { start + 48 ≤ length room.old }
    ensures room { length room.new ≡ length room.old }
    ensures end { result ≤ start + 48 }
    ensures line { take result room.new ≡ take start room.old ++ item_line line.now.item }
{
    room[start..start + ROOM].copy_from_slice(&line.bytes);
    start + line.len
}

// A function of its own, so that no proof goes through so many.
fn zeros() -> [u8; PAGE] {
    [0; PAGE]
}
