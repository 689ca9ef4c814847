ghost use Rattle.std.specs.Prelude.{◌≡◌, ◌≤◌, Some, None, IfOk, IfSome, length};
ghost use Rattle.std.specs.Option.{option_map};
ghost use Rattle.std.specs.Result.{result_ok};
ghost use Rattle.zl_asm.specs.Lines.{label_of, unknown_of, row_by, instruction_of, point_line, line_of};
ghost use Rattle.zl_asm.specs.Values.{texts, source_value, line_value};
ghost use Rattle.zl_asm.specs.Causes.{OnRefusal};
ghost use Rattle.zl_code.specs.Instructions.{row_value};
ghost use Rattle.zl_code.specs.Limits.{most_registers};

use crate::directive::{Directive, directive_of};
use crate::fault::{AsmCause, WordFault};
use crate::numbers::{is_name, sixteen_bytes};
use crate::operands::{misfit, source_of, split_operands, unparted};
use crate::words::is;
use zl_code::{Instr, Row, Version};

/// An instruction: its 16 bytes, with the target 0 where a label names it.
#[derive(Clone, Copy)]
pub(crate) struct Source<'a> {
    pub bytes: [u8; Instr::LEN],
    pub label: Option<&'a [u8]>,
}

/// What a line says.
#[derive(Clone, Copy)]
pub(crate) enum Line<'a> {
    Blank,
    Declares(Directive),
    /// The name of a label.
    Label(&'a [u8]),
    Code(Source<'a>),
}

/// What the words of a line say in a text of the version. `operands` is room for operands.
#[tactic(auto, unfolding(crate::specs::Lines::line_of))]
pub(crate) fn line_of<'a>(
    version: Version,
    words: &[&'a [u8]],
    operands: &mut Vec<&'a [u8]>,
) -> Result<Line<'a>, WordFault>
    ensures ok { IfOk result (λ line. line_of version (texts words.now) ≡ Some (line_value line)) }
    ensures err { OnRefusal result (line_of version (texts words.now) ≡ None) }
{
    match words {
        [] => Ok(Line::Blank),
        [name, rest @ ..] if name.starts_with(b".") => point_line(version, name, rest),
        [word] if let Some(name) = label_of(word) => Ok(Line::Label(name)),
        [name, rest @ ..] => Ok(Line::Code(instruction_of(version, name, rest, operands)?)),
    }
}

/// What a line says that begins with a point.
fn point_line<'a>(
    version: Version,
    name: &[u8],
    operands: &[&'a [u8]],
) -> Result<Line<'a>, WordFault>
    ensures { option_map line_value (result_ok result) ≡ point_line version name.now (texts operands.now) }
{
    if is(name, b".bytes") {
        Ok(Line::Code(unknown_of(version, operands)?))
    } else {
        Ok(Line::Declares(directive_of(name, operands)?))
    }
}

/// The instruction of these operands with an opcode that the version doesn't know.
#[tactic(auto, unfolding(crate::specs::Lines::unknown_of))]
fn unknown_of<'a>(version: Version, operands: &[&'a [u8]]) -> Result<Source<'a>, WordFault>
    ensures { option_map source_value (result_ok result) ≡ unknown_of version (texts operands.now) }
{
    let [digits] = operands else {
        return Err(AsmCause::Operand.alone());
    };
    match sixteen_bytes(digits) {
        Some(bytes) if Row::at(version, bytes[0]).is_none() => Ok(Source { bytes, label: None }),
        _ => Err(misfit(1, digits, AsmCause::Operand)),
    }
}

/// The name in `name:`.
#[tactic(auto, unfolding(crate::specs::Lines::label_of))]
fn label_of<'a>(word: &'a [u8]) -> Option<&'a [u8]>
    ensures { option_map (λ name. name.now) result ≡ label_of word.now }
{
    let (last, name) = word.split_last()?;
    if *last == b':' && is_name(name) {
        Some(name)
    } else {
        None
    }
}

/// The row of a mnemonic that the version knows.
fn row_by(version: Version, name: &[u8]) -> Option<Row>
    ensures row { option_map row_value result ≡ row_by version name.now }
    ensures registers { IfSome result (λ row. length row.columns.now.fields.now ≤ most_registers) }
{
    let row = Row::named(name)?;
    if version.knows(row.opcode) {
        Some(row)
    } else {
        None
    }
}

/// The instruction of a mnemonic and the words behind it.
fn instruction_of<'a>(
    version: Version,
    name: &[u8],
    words: &[&'a [u8]],
    operands: &mut Vec<&'a [u8]>,
) -> Result<Source<'a>, WordFault>
    ensures ok { IfOk result (λ source.
        instruction_of version name.now (texts words.now) ≡ Some (source_value source)) }
    ensures err { OnRefusal result (instruction_of version name.now (texts words.now) ≡ None) }
{
    let Some(row) = row_by(version, name) else {
        return Err(misnamed(name, words));
    };
    split_operands(operands, words)?;
    source_of(&row, operands)
}

/// The fault of a name that no instruction has, in front of these words; a comma is no name.
fn misnamed(name: &[u8], words: &[&[u8]]) -> WordFault {
    if is(name, b",") {
        unparted(words)
    } else {
        misfit(0, name, AsmCause::UnknownName)
    }
}
