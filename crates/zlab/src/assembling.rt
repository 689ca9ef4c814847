//! The engine of the assembler: a text is read, and its image written, or the line of its fault.
ghost use Rattle.std.specs.Prelude.{◌≡◌, ◌≢◌, IfOk, IfErr, OnOk, OnErr};
ghost use Rattle.std.specs.Io.KnownBytes.{Appends};
ghost use Rattle.zl_asm.specs.Causes.{cause_name};
ghost use Rattle.zlab.specs.Input.{FitsInput, TakesNoMore};
ghost use Rattle.zlab.specs.Text.{refused_line};
ghost use Rattle.zlab.specs.Assembling.{Leads, ReadsTo, AssemblesReader, BeginsAssembly};
ghost use Rattle.zl_trace.specs.Output.{AppendsBeginning};

use crate::fault::{EngineFault, Verdict};
use crate::input::{Input, read_input};
use crate::text::push_refusal;
use std::alloc::Global;
use std::io::{Read, Write};
use zl_asm::{AsmCause, AsmFault, assemble_bytes};
use zl_code::encode;
use zl_explain::{Page, add_page, explain_program};
use zl_trace::write_all;

/// What a text leads to.
#[derive(Drop)]
pub enum Assembled {
    /// The bytes of the image that it denotes.
    Image(Vec<u8>),
    /// It is too long, or denotes no image.
    Refused(AsmFault),
}

const TOO_LONG: AsmFault = AsmFault {
    line: 0,
    cause: AsmCause::Limit,
    word: None,
};

/// Reads the text of a program, and writes the bytes of the image that it denotes to `image`, or
/// the line `refused LINE FAULT` to `line`; a text above 4,194,304 bytes is `refused 0 Limit`. All
/// input is read before anything is written, and nothing is written to the other writer. To `hints` it
/// adds for a person why the text is refused.
///
/// A fault of the reader is `Read`, with nothing written. A fault of a writer, and a want of memory,
/// leave nothing or a beginning of such an answer.
pub fn asm_engine<R: Read, I: Write, L: Write>(
    alloc: Global,
    text: &mut R,
    image: &mut I,
    line: &mut L,
    hints: &mut String,
) -> Result<Verdict, EngineFault>
    ensures ok { IfOk result (λ verdict. AssemblesReader (R.remaining text.old) verdict
        (I.contents image.old) (I.contents image.new) (L.contents line.old) (L.contents line.new)) }
    ensures err { OnErr result (BeginsAssembly (R.remaining text.old) (I.contents image.old)
        (I.contents image.new) (L.contents line.old) (L.contents line.new)) }
    ensures read { IfErr result (λ fault. fault ≡ EngineFault.Read
        → (I.contents image.new ≡ I.contents image.old)
        × (L.contents line.new ≡ L.contents line.old)) }
    ensures taken { TakesNoMore (R.remaining text.old) (R.remaining text.new) }
{
    let mut kept = Vec::new(alloc);
    match read_text(alloc, text, &mut kept)? {
        Assembled::Image(bytes) => {
            write_all(image, bytes.as_slice())?;
            Ok(Verdict::Done)
        }
        Assembled::Refused(fault) => {
            write_fault(alloc, line, fault)?;
            explain_program(hints, alloc, kept.as_slice(), fault);
            add_page(hints, Page::Text);
            Ok(Verdict::Refused)
        }
    }
}

/// What the whole text of the reader leads to. The text is put into `kept`, if it isn't too long.
fn read_text<R: Read>(
    alloc: Global,
    reader: &mut R,
    kept: &mut Vec<u8>,
) -> Result<Assembled, EngineFault>
    ensures read { IfOk result (ReadsTo (R.remaining reader.old)) }
    ensures taken { TakesNoMore (R.remaining reader.old) (R.remaining reader.new) }
{
    match read_input(alloc, reader)? {
        Input::Text(text) => {
            let assembled = assemble_text(alloc, text.as_slice());
            *kept = text;
            assembled
        }
        Input::TooLong => Ok(Assembled::Refused(TOO_LONG)),
    }
}

/// What a text leads to that isn't too long.
fn assemble_text(alloc: Global, text: &[u8]) -> Result<Assembled, EngineFault>
    requires { FitsInput text.now }
    ensures ok { IfOk result (Leads text.now) }
    ensures err { IfErr result (λ fault. fault ≡ EngineFault.NoMemory) }
{
    match assemble_bytes(alloc, text) {
        Ok(image) => Ok(Assembled::Image(encode(alloc, &image)?)),
        Err(fault) => match fault.cause {
            AsmCause::NoMemory => Err(EngineFault::NoMemory),
            _ => Ok(Assembled::Refused(fault)),
        },
    }
}

/// Writes the line of the fault.
fn write_fault<W: Write>(alloc: Global, writer: &mut W, fault: AsmFault) -> Result<(), EngineFault>
    ensures ok { OnOk result (Appends (W.contents writer.old) (W.contents writer.new)
        (refused_line fault.line (cause_name fault.cause))) }
    ensures err { OnErr result (AppendsBeginning (W.contents writer.old) (W.contents writer.new)
        (refused_line fault.line (cause_name fault.cause))) }
    ensures fault { IfErr result (λ fault. fault ≢ EngineFault.Read) }
{
    let mut told = String::new(alloc);
    push_refusal(&mut told, fault.line, fault.cause.name())?;
    write_all(writer, told.as_bytes())?;
    Ok(())
}
