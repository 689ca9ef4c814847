//! Lines as they were last written: what goes round a loop has the same lines over and over.
ghost use Rattle.std.specs.Prelude.{◌≡◌, ◌<◌, ◌≤◌, IfOk, IfSome, OnOk, string_bytes, take};
ghost use Rattle.zl_trace.specs.Text.{item_line};

use crate::lines::push_item;
use std::alloc::AllocError;
use zl_code::TraceItem;

/// The room of a line that is kept. That of a process with many digits may be longer.
pub const ROOM: usize = 48;

/// How many lines are kept.
const COUNT: usize = 64;

/// The line of an item, with room behind it, so that all are copied at one length.
#[derive(Clone, Copy)]
pub struct RecentLine {
    pub item: TraceItem,
    pub len: usize,
    pub bytes: [u8; ROOM],
    ghost fits: { len ≤ 48 },
    ghost is_its: { take len bytes ≡ item_line item },
}

impl RecentLine {
    /// That of the item, unless it is too long; it is left as the text, too.
    pub fn of(text: &mut String, item: TraceItem) -> Result<Option<RecentLine>, AllocError>
        ensures text { OnOk result (string_bytes text.new ≡ item_line item) }
        ensures line { IfOk result (λ made. IfSome made (λ line. line.item ≡ item)) }
    {
        text.clear();
        push_item(text, item)?;
        let len = text.len();
        if len > ROOM {
            return Ok(None);
        }
        let mut bytes = [0; ROOM];
        bytes[..len].copy_from_slice(text.as_bytes());
        Ok(Some(RecentLine { item, len, bytes }))
    }
}

/// The lines of some items that were written lately, each in its place.
#[derive(Drop)]
pub struct RecentLines {
    lines: [RecentLine; COUNT],
}

impl RecentLines {
    /// Those of items that no trace has.
    pub fn new() -> RecentLines {
        RecentLines {
            lines: [first(); COUNT],
        }
    }

    /// The line of the item, if it is among them.
    #[inline(always)]
    pub fn find(&self, item: TraceItem) -> Option<&RecentLine>
        ensures { IfSome result (λ line. line.now.item ≡ item) }
    {
        let line = &self.lines[place_of(item)];
        if line.item.is_same(item) {
            Some(line)
        } else {
            None
        }
    }

    /// Keeps the line, and no longer the one in its place.
    pub fn keep(&mut self, line: RecentLine) {
        self.lines[place_of(line.item)] = line;
    }
}

fn first() -> RecentLine {
    let mut bytes = [0; ROOM];
    bytes[..8].copy_from_slice(b"0 stuck\n");
    RecentLine {
        item: TraceItem::Stuck { pid: 0 },
        len: 8,
        bytes,
    }
}

/// The place of the line of an item. Two items of one process have the same only if both are of one
/// call, or runs.
#[inline(always)]
fn place_of(item: TraceItem) -> usize
    ensures { result < 64 }
{
    // The opcodes of calls are 64 to 90.
    let (pid, kind) = match item {
        TraceItem::Run { pid, .. } => (pid, 32),
        TraceItem::Call { pid, call, .. } => (pid, u64::from(call.row().opcode)),
        TraceItem::Stuck { pid } => (pid, 33),
    };
    (pid % 64 * 9 + kind) as usize % COUNT
}
