//! A trace text, read back as its items.
ghost use Rattle.std.specs.Prelude.{◌≡◌, IfOk, IfErr, ℕ};
ghost use Rattle.zl_trace.specs.Reading.{AreLinesOf, IsFirstWrong, Says, ends_items as ends, item_lines_of};

use crate::fault::ReadFault;
use crate::item_words::item_of;
use std::alloc::{AllocError, Global};
use zl_code::TraceItem;
use zl_lines::{is_comment, split_words};

/// What a line is to the reader.
enum Line {
    /// It ends the items.
    End,
    /// A comment, or a line without words.
    Nothing,
    Item(TraceItem),
    /// None of these.
    Wrong,
}

/// Reads the items of a trace text: a line each, up to the first line that begins with `process` or
/// `end`, or to the end of the text. Comments and lines without words are passed over, more spaces
/// than one may part words, and numbers stand as a trace has them.
///
/// `Syntax` names the first of these lines that is no item's; `NoMemory` comes where memory is refused.
///
/// Source: own profile.
pub fn read_text(alloc: Global, text: &str) -> Result<Vec<TraceItem>, ReadFault>
    ensures ok { IfOk result (λ items. AreLinesOf (item_lines_of text.now) items.items) }
    ensures syntax { IfErr result (λ fault. (line : ℕ) → fault ≡ ReadFault.Syntax line
        → IsFirstWrong text.now line) }
{
    read_bytes(alloc, text.as_bytes())
}

/// Reads the items of a trace text as `read_text` does. The bytes need be no UTF-8: a line that isn't
/// is no item's.
///
/// Source: own profile.
pub fn read_bytes(alloc: Global, text: &[u8]) -> Result<Vec<TraceItem>, ReadFault>
    ensures ok { IfOk result (λ items. AreLinesOf (item_lines_of text.now) items.items) }
    ensures syntax { IfErr result (λ fault. (line : ℕ) → fault ≡ ReadFault.Syntax line
        → IsFirstWrong text.now line) }
{
    let mut items = Vec::new(alloc);
    let mut words = Vec::new(alloc);
    for (index, line) in text.split(|byte| *byte == b'\n').enumerate() {
        match read_line(&mut words, line)? {
            Line::End => return Ok(items),
            Line::Nothing => {}
            Line::Item(item) => {
                if items.push(item).is_err() {
                    return Err(ReadFault::NoMemory);
                }
            }
            Line::Wrong => return Err(ReadFault::Syntax(index as u64 + 1)),
        }
    }
    Ok(items)
}

/// Reads a line; `words` is room for its words.
fn read_line<'a>(words: &mut Vec<&'a [u8]>, line: &'a [u8]) -> Result<Line, AllocError>
    ensures { IfOk result (Says line.now) }
{
    if ends_items(line) {
        return Ok(Line::End);
    }
    if is_comment(line) {
        return Ok(Line::Nothing);
    }
    split_words(words, line)?;
    if words.is_empty() {
        return Ok(Line::Nothing);
    }
    Ok(match item_of(words) {
        Some(item) => Line::Item(item),
        None => Line::Wrong,
    })
}

/// Whether the line begins with `process` or `end`.
fn ends_items(line: &[u8]) -> bool
    ensures { result ≡ ends line.now }
{
    line.starts_with(b"process") || line.starts_with(b"end")
}
