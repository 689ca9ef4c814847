//! The disassembler: an image to its text.

ghost use Rattle.std.specs.Prelude.{◌≡◌, ◌≤◌, ◌<◌, ◌++◌, ◌∷◌, [], codes, map, filter, not, ◌==◌, length, IfOk, IfSome, string_bytes, ℕ, ◌||◌, true, false, get_or, slice_index, IfNone, if◌then◌else◌};
ghost use Rattle.std.specs.List.{flat_map};
ghost use Rattle.std.specs.Option.{option_map};
ghost use Rattle.zl_code.specs.Limits.{most_registers, no_register};
ghost use Rattle.zl_code.specs.Instructions.{row_value};
ghost use Rattle.zl_asm.specs.Lines.{written};
ghost use Rattle.zl_code.specs.Spells.{instr_bytes, reading_of};
ghost use Rattle.zl_asm.specs.Denotes.{Denotes};
ghost use Rattle.zl_asm.specs.Canonical.{version_lines, kind_text, register_text, target_text, tail_texts, behind, instr_text, hex_text, aims, aims_at, code_lines, row_at, text_of};
ghost use Rattle.zl_asm.specs.Pieces.{Adds, ended, fields_text, need_if_among, needs_text, start_text, slot_array_text, directives_text, laid_out, line_text, TargetsAre};

use crate::operands::written;
use bitflags::Flags;
use std::alloc::{AllocError, Global};
use zl_code::{Ending, HandleList, Image, Instr, InstrBytes, Row, SlotArray, Start, Version};
use zl_rights::{Condition, Kind};

/// Adds the line of the version, if it isn't 1.
fn push_version(text: &mut String, version: Version) -> Result<(), AllocError>
    ensures { Adds result text.old text.new (ended (version_lines version)) }
{
    match version {
        Version::One => Ok(()),
        Version::Two => text.push_str(".version 2\n"),
    }
}

/// Adds the marks and numbers of the image.
fn push_fields(text: &mut String, image: &Image) -> Result<(), AllocError>
    ensures { Adds result text.old text.new
        (fields_text image.now.raw image.now.memory image.now.budget) }
{
    if image.is_raw() {
        text.push_str(".raw\n")?;
    }
    let memory = image.memory();
    let budget = image.budget();
    write!(text, ".memory {memory}\n.budget {budget}\n")
}

/// Adds the line of the need, if the image has it.
fn push_need(text: &mut String, image: &Image, condition: Condition) -> Result<(), AllocError>
    ensures { Adds result text.old text.new (need_if_among image.now.needs condition) }
{
    if !image.needs(condition) {
        return Ok(());
    }
    let name = condition.name();
    write!(text, ".need {name}\n")
}

/// Adds the lines of the needs.
fn push_needs(text: &mut String, image: &Image) -> Result<(), AllocError>
    ensures { Adds result text.old text.new (needs_text image.now.needs) }
{
    push_need(text, image, Condition::NewChannel)?;
    push_need(text, image, Condition::NewEvent)?;
    push_need(text, image, Condition::NewEventpair)?;
    push_need(text, image, Condition::NewPort)?;
    push_need(text, image, Condition::NewProcess)
}

/// The name of the kind; `any` where it is none in particular.
fn kind_name(kind: Option<Kind>) -> &'static str
    ensures { result.now ≡ kind_text kind }
{
    match kind {
        Some(kind) => kind.name(),
        None => "any",
    }
}

/// Adds the line of a start handle.
fn push_start(text: &mut String, start: Start) -> Result<(), AllocError>
    ensures { Adds result text.old text.new (start_text start) }
{
    let kind = kind_name(start.kind);
    let rights = start.rights.bits();
    write!(text, ".start {kind} {rights}\n")
}

/// Adds the lines of the start handles.
fn push_starts(text: &mut String, starts: &[Start]) -> Result<(), AllocError>
    ensures { Adds result text.old text.new (flat_map start_text starts.now) }
{
    for start in starts {
        push_start(text, *start)?;
    }
    Ok(())
}

/// Adds the line of a slot array.
fn push_slot_array(text: &mut String, array: SlotArray) -> Result<(), AllocError>
    ensures { Adds result text.old text.new (slot_array_text array) }
{
    let kind = kind_name(array.kind);
    let len = array.length;
    let rights = array.rights.bits();
    write!(text, ".slots {kind} {len} {rights}\n")
}

/// Adds the lines of the slot arrays.
fn push_slots(text: &mut String, slots: &[SlotArray]) -> Result<(), AllocError>
    ensures { Adds result text.old text.new (flat_map slot_array_text slots.now) }
{
    for array in slots {
        push_slot_array(text, *array)?;
    }
    Ok(())
}

/// Adds the lines of the directives.
fn push_directives(text: &mut String, image: &Image) -> Result<(), AllocError>
    ensures { Adds result text.old text.new (directives_text image.now) }
{
    push_version(text, image.version())?;
    push_fields(text, image)?;
    push_needs(text, image)?;
    push_starts(text, image.starts())?;
    push_slots(text, image.slots())
}

/// Adds the digits of the byte.
fn push_hex(text: &mut String, byte: u8) -> Result<(), AllocError>
    ensures { Adds result text.old text.new (hex_text (byte ∷ [])) }
{
    write!(text, "{byte:02x}")
}

/// Adds the digits of the bytes.
fn push_bytes(text: &mut String, bytes: &[u8]) -> Result<(), AllocError>
    ensures { Adds result text.old text.new (hex_text bytes.now) }
{
    for byte in bytes {
        push_hex(text, *byte)?;
    }
    Ok(())
}

/// Adds the target: a label among so many instructions, and else a number.
fn push_target(text: &mut String, count: usize, target: u32) -> Result<(), AllocError>
    ensures { Adds result text.old text.new (target_text count target) }
{
    if (target as usize) < count {
        write!(text, "l{target}")
    } else {
        write!(text, "{target}")
    }
}

/// What stands between a mnemonic with so many registers and the operand behind them.
fn separator_behind(registers: usize) -> &'static str
    ensures { result.now ≡ (if registers == 0 then codes " " else codes ", ") }
{
    if registers == 0 { " " } else { ", " }
}

/// Adds the register behind the separator.
fn push_register(text: &mut String, separator: &str, register: u8) -> Result<(), AllocError>
    ensures { Adds result text.old text.new (separator.now ++ register_text register) }
{
    write!(text, "{separator}r{register}")
}

/// Adds the registers behind a mnemonic.
fn push_registers(text: &mut String, registers: &[u8]) -> Result<(), AllocError>
    ensures { Adds result text.old text.new
        (behind (codes " ") (map register_text registers.now)) }
{
    for (place, register) in registers.iter().enumerate() {
        push_register(text, separator_behind(place), *register)?;
    }
    Ok(())
}

/// Adds the registers of a list of handles, the first of them behind the separator.
fn push_places<'a>(text: &mut String, separator: &'a str, places: &[u8]) -> Result<(), AllocError>
    ensures { Adds result text.old text.new (behind separator.now
        (map register_text (filter (λ place. not (place == no_register)) places.now))) }
{
    let mut between = separator;
    for place in places {
        if *place != HandleList::NONE {
            push_register(text, between, *place)?;
            between = ", ";
        }
    }
    Ok(())
}

/// Adds the operands behind the registers, from which the separator parts them.
#[tactic(auto, unfolding(crate::specs::Canonical::tail_texts, crate::specs::Canonical::joined))]
fn push_tail(
    text: &mut String,
    separator: &str,
    count: usize,
    ending: Ending,
    bytes: [u8; Instr::LEN],
) -> Result<(), AllocError>
    ensures { Adds result text.old text.new
        (behind separator.now (tail_texts count ending (reading_of bytes))) }
{
    let parts = InstrBytes::split(bytes);
    let imm = parts.imm();
    let target = parts.target();
    match ending {
        Ending::Nothing => Ok(()),
        Ending::Number | Ending::Room | Ending::FromSlots | Ending::IntoSlots => {
            write!(text, "{separator}{imm}")
        }
        Ending::Target => {
            text.push_str(separator)?;
            push_target(text, count, target)
        }
        Ending::Both => {
            write!(text, "{separator}{imm}, ")?;
            push_target(text, count, target)
        }
        Ending::Handles => push_places(text, separator, &parts.last),
    }
}

/// Adds an instruction of the row.
fn push_row(
    text: &mut String,
    count: usize,
    row: Row,
    bytes: [u8; Instr::LEN],
) -> Result<(), AllocError>
    requires { length row.columns.now.fields.now ≤ most_registers }
    ensures { Adds result text.old text.new
        (laid_out count row.name.now (length row.columns.now.fields.now)
        (written (row_value row)) bytes) }
{
    let parts = InstrBytes::split(bytes);
    let registers = row.registers();
    text.push_str(row.name)?;
    push_registers(text, &parts.registers[..registers])?;
    let ending = written(&row);
    push_tail(text, separator_behind(registers), count, ending, bytes)?;
    Ok(())
}

/// Adds the digits of an instruction with an unknown opcode.
fn push_unknown(text: &mut String, bytes: [u8; Instr::LEN]) -> Result<(), AllocError>
    ensures { Adds result text.old text.new (codes ".bytes " ++ hex_text bytes) }
{
    text.push_str(".bytes ")?;
    push_bytes(text, &bytes)
}

/// The row of the opcode, if the version knows it.
fn row_at(version: Version, opcode: u8) -> Option<Row>
    ensures row { option_map row_value result ≡ row_at version opcode }
    ensures registers { IfSome result (λ row. length row.columns.now.fields.now ≤ most_registers) }
{
    if version.knows(opcode) {
        Row::of_opcode(opcode)
    } else {
        None
    }
}

/// Adds an instruction, one of so many.
fn push_instr(
    text: &mut String,
    version: Version,
    count: usize,
    bytes: [u8; Instr::LEN],
) -> Result<(), AllocError>
    ensures { Adds result text.old text.new (instr_text version count bytes) }
{
    match row_at(version, bytes[0]) {
        Some(row) => push_row(text, count, row, bytes),
        None => push_unknown(text, bytes),
    }
}

/// Adds the line of instruction n, and its label if a jump goes to it.
fn push_line(
    text: &mut String,
    version: Version,
    count: usize,
    n: usize,
    is_target: bool,
    instr: Instr,
) -> Result<(), AllocError>
    ensures { Adds result text.old text.new (line_text version count n is_target (instr_bytes instr)) }
{
    if is_target {
        write!(text, "l{n}:\n")?;
    }
    push_instr(text, version, count, instr.to_bytes())?;
    text.push_str("\n")
}

/// Adds the lines of the instructions; `targets` says which of them a target names.
fn push_code(
    text: &mut String,
    version: Version,
    code: &[Instr],
    targets: &[bool],
) -> Result<(), AllocError>
    requires { TargetsAre version targets.now (map instr_bytes code.now) (length code.now) }
    ensures { Adds result text.old text.new (ended (code_lines version (map instr_bytes code.now))) }
{
    for (n, instr) in code.iter().enumerate() {
        push_line(text, version, code.len(), n, targets[n], *instr)?;
    }
    Ok(())
}

/// The target of the instruction, if it is written with one.
fn target_of(version: Version, bytes: [u8; Instr::LEN]) -> Option<u32>
    ensures target { IfSome result (λ target.
        (aims (row_at version (slice_index bytes 0)) ≡ true) × (target ≡ (reading_of bytes).target)) }
    ensures none { IfNone result (aims (row_at version (slice_index bytes 0)) ≡ false) }
{
    let target = InstrBytes::split(bytes).target();
    let row = row_at(version, bytes[0])?;
    match written(&row) {
        Ending::Target | Ending::Both => Some(target),
        _ => None,
    }
}

/// Marks the target of the instruction, where it is one of those that are marked so.
fn mark(targets: &mut Vec<bool>, version: Version, instr: Instr)
    ensures len { length targets.new.items ≡ length targets.old.items }
    ensures marked { (n : ℕ) → n < length targets.old.items
        → get_or targets.new.items n false
        ≡ (get_or targets.old.items n false || aims_at version n (instr_bytes instr)) }
{
    let Some(target) = target_of(version, instr.to_bytes()) else {
        return;
    };
    let place = target as usize;
    if place < targets.len() {
        targets[place] = true;
    }
}

/// Which of the instructions a target names.
fn targets_of(alloc: Global, version: Version, code: &[Instr]) -> Result<Vec<bool>, AllocError>
    ensures { IfOk result (λ targets.
        TargetsAre version targets.items (map instr_bytes code.now) (length code.now)) }
{
    let mut targets = vec![in alloc; false; code.len()]?;
    for instr in code {
        mark(&mut targets, version, *instr);
    }
    Ok(targets)
}

/// The text of the image: its directives in the order of the grammar, with `.version 2` for an image
/// of that version only and `.memory` and `.budget` always there, and then its instructions. One that
/// a jump goes to has its label on the line above: `l` with its number, counted from 0. The error says
/// that memory was refused. The layout is own profile.
pub fn disassemble(alloc: Global, image: &Image) -> Result<String, AllocError>
    // It is laid out so.
    ensures text { IfOk result (λ text. string_bytes text ≡ text_of image.now) }
    // And it denotes the image.
    ensures denotes { IfOk result (λ text. Denotes (string_bytes text) image.now) }
{
    let mut text = String::new(alloc);
    push_directives(&mut text, image)?;
    let code = image.code();
    let targets = targets_of(alloc, image.version(), code)?;
    push_code(&mut text, image.version(), code, targets.as_slice())?;
    Ok(text)
}
