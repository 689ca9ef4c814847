//! The whole text of a trace, written in blocks.
ghost use Rattle.std.specs.Prelude.{◌++◌, OnOk, OnErr, string_bytes, take};
ghost use Rattle.std.specs.List.{flat_map};
ghost use Rattle.std.specs.Io.KnownBytes.{Appends};
ghost use Rattle.zl_trace.specs.Output.{AppendsBeginning, Gathers};
ghost use Rattle.zl_trace.specs.Text.{item_line, state_line, states_of, trace_text};

use crate::fault::TextFault;
use crate::lines::{push_end, push_state};
use crate::output::{write_all, write_block, write_if_full};
use crate::page::Page;
use crate::recent::{RecentLine, RecentLines};
use std::io::Write;
use zl_calls::World;
use zl_code::{ProcState, TraceItem};
use zl_rights::Pid;
use zl_sched::{End, System};

/// Writes what stands in the block, and then the text of the system's trace, where its run ended so:
/// the lines of its items, of the state of each process ever made, by koid, and of the end. The block,
/// which may be an `empty_block`, is what the text is gathered in.
///
/// `Write` comes with any fault of the writer, an interruption too, and where a write takes no byte;
/// `NoMemory` where a longer block is refused. Then a beginning of all that is written, or nothing.
///
/// Source: own profile.
pub fn text<W: Write>(
    system: &System,
    end: End,
    block: &mut String,
    writer: &mut W,
) -> Result<(), TextFault>
    ensures ok { OnOk result (Appends (W.contents writer.old) (W.contents writer.new)
        (string_bytes block.old ++ trace_text system.now end)) }
    ensures err { OnErr result (AppendsBeginning (W.contents writer.old) (W.contents writer.new)
        (string_bytes block.old ++ trace_text system.now end)) }
{
    write_items(writer, block, system.items())?;
    write_states(writer, block, system.world())?;
    push_end(block, end)?;
    write_block(writer, block)
}

/// Writes what stands in the block, and the lines of the items. The block is empty then.
fn write_items<W: Write>(
    writer: &mut W,
    block: &mut String,
    items: &[TraceItem],
) -> Result<(), TextFault>
    ensures ok { OnOk result (Gathers (W.contents writer.old) (string_bytes block.old)
        (W.contents writer.new) (string_bytes block.new)
        (flat_map item_line items.now)) }
    ensures err { OnErr result (AppendsBeginning (W.contents writer.old) (W.contents writer.new)
        (string_bytes block.old ++ flat_map item_line items.now)) }
{
    write_all(writer, block.as_bytes())?;
    let mut page = Page::new();
    add_lines(writer, &mut page, block, items)?;
    block.clear();
    page.write_out(writer)
}

/// Adds the lines of the items to the page. A line that isn't at hand is made in the text.
fn add_lines<W: Write>(
    writer: &mut W,
    page: &mut Page,
    text: &mut String,
    items: &[TraceItem],
) -> Result<(), TextFault>
    ensures ok { OnOk result (Gathers (W.contents writer.old) (take page.old.end page.old.bytes)
        (W.contents writer.new) (take page.new.end page.new.bytes)
        (flat_map item_line items.now)) }
    ensures err { OnErr result (AppendsBeginning (W.contents writer.old) (W.contents writer.new)
        (take page.old.end page.old.bytes ++ flat_map item_line items.now)) }
{
    let mut recent = RecentLines::new();
    for item in items {
        add_line(writer, page, &mut recent, text, item)?;
    }
    Ok(())
}

/// Adds the line of the item to the page.
fn add_line<W: Write>(
    writer: &mut W,
    page: &mut Page,
    recent: &mut RecentLines,
    text: &mut String,
    item: &TraceItem,
) -> Result<(), TextFault>
    ensures ok { OnOk result (Gathers (W.contents writer.old) (take page.old.end page.old.bytes)
        (W.contents writer.new) (take page.new.end page.new.bytes) (item_line item.now)) }
    ensures err { OnErr result (AppendsBeginning (W.contents writer.old) (W.contents writer.new)
        (take page.old.end page.old.bytes ++ item_line item.now)) }
{
    if let Some(line) = recent.find(*item) {
        return page.add(writer, line);
    }
    add_new_line(writer, page, recent, text, item)
}

/// Makes the line of the item in the text, adds it to the page, and keeps it.
// Not inlined, so that nothing of it is done for the many lines that are at hand.
#[cold]
#[inline(never)]
fn add_new_line<W: Write>(
    writer: &mut W,
    page: &mut Page,
    recent: &mut RecentLines,
    text: &mut String,
    item: &TraceItem,
) -> Result<(), TextFault>
    ensures ok { OnOk result (Gathers (W.contents writer.old) (take page.old.end page.old.bytes)
        (W.contents writer.new) (take page.new.end page.new.bytes) (item_line item.now)) }
    ensures err { OnErr result (AppendsBeginning (W.contents writer.old) (W.contents writer.new)
        (take page.old.end page.old.bytes ++ item_line item.now)) }
{
    let Some(line) = RecentLine::of(text, *item)? else {
        return page.write_with(writer, text.as_bytes());
    };
    recent.keep(line);
    page.add(writer, &line)
}

/// Writes the lines of all processes, but for the last of them, which stay in the block.
fn write_states<W: Write>(
    writer: &mut W,
    block: &mut String,
    world: &World,
) -> Result<(), TextFault>
    ensures ok { OnOk result (Gathers (W.contents writer.old) (string_bytes block.old)
        (W.contents writer.new) (string_bytes block.new)
        (flat_map (λ p. state_line p.0 p.1) (states_of world.now.world))) }
    ensures err { OnErr result (AppendsBeginning (W.contents writer.old) (W.contents writer.new)
        (string_bytes block.old
        ++ flat_map (λ p. state_line p.0 p.1) (states_of world.now.world))) }
{
    for n in 0..world.process_count() {
        let Some(pid) = world.process_at(n) else {
            unreachable!()
        };
        write_state(writer, block, pid, world.state_of(pid))?;
    }
    Ok(())
}

/// Adds the line of the process to the block, and writes the block where it is full.
fn write_state<W: Write>(
    writer: &mut W,
    block: &mut String,
    pid: Pid,
    state: ProcState,
) -> Result<(), TextFault>
    ensures ok { OnOk result (Gathers (W.contents writer.old) (string_bytes block.old)
        (W.contents writer.new) (string_bytes block.new) (state_line pid state)) }
    ensures err { OnErr result (AppendsBeginning (W.contents writer.old) (W.contents writer.new)
        (string_bytes block.old ++ state_line pid state)) }
{
    push_state(block, pid, state)?;
    write_if_full(writer, block)
}
