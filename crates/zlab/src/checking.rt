//! The engine of the verifier: an image is read, and the line written of what the verifier finds.
ghost use Rattle.std.specs.Prelude.{ℕ, ◌≡◌, ◌≢◌, ◌++◌, List, IfOk, IfErr, OnOk, OnErr, string_bytes};
ghost use Rattle.std.specs.Io.KnownBytes.{Appends};
ghost use Rattle.zlab.specs.Checking.{BeginsCheck, ChecksReader, Finds, IsTrueOf, TakesImage, fault_name, finding_line, front_of, verdict_of};
ghost use Rattle.zl_trace.specs.Output.{AppendsBeginning};

use crate::fault::{EngineFault, Verdict};
use crate::input::read_front;
use crate::text::push_refusal;
use std::alloc::{AllocError, Global};
use std::io::{Read, Write};
use zl_code::{DecodeFault, Image, decode};
use zl_explain::{Page, add_page, explain_image, explain_refusal};
use zl_trace::write_all;
use zl_verify::{RefusalCause, check};

/// The most bytes of an image: 20 of its header, 8 for each of 7 start handles and 8 slot arrays, and
/// 16 for each of 4,096 instructions.
const MOST_IMAGE: usize = 65_676;

/// What the bytes of an image lead to.
#[derive(Clone, Copy)]
pub enum Finding {
    /// The verifier accepts the image.
    Accepted,
    /// It refuses it at the instruction of this number.
    Refused(usize, RefusalCause),
    /// The bytes are those of no image.
    Undecodable(DecodeFault),
}

/// Reads the bytes of an image, and writes to `line` what the verifier finds: `accepted`,
/// `refused AT CAUSE` with the number of the instruction, or `undecodable FAULT`. Of more bytes than
/// an image has the first 65,677 are read. All input is read before anything is written. To `hints`
/// it adds for a person why the image isn't accepted.
///
/// A fault of the reader is `Read`, with nothing written. A fault of the writer, and a want of memory,
/// leave nothing or a beginning of such a line.
pub fn check_engine<R: Read, W: Write>(
    alloc: Global,
    image: &mut R,
    line: &mut W,
    hints: &mut String,
) -> Result<Verdict, EngineFault>
    ensures ok { IfOk result (λ verdict. ChecksReader (R.remaining image.old) verdict
        (W.contents line.old) (W.contents line.new)) }
    ensures err { OnErr result (BeginsCheck (R.remaining image.old) (W.contents line.old)
        (W.contents line.new)) }
    ensures read { IfErr result (λ fault. fault ≡ EngineFault.Read
        → W.contents line.new ≡ W.contents line.old) }
    ensures taken { TakesImage (R.remaining image.old) (R.remaining image.new) }
{
    let front = read_front(alloc, image, MOST_IMAGE + 1)?;
    let finding = finding_of(alloc, front.as_slice(), hints)?;
    write_finding(alloc, line, finding)?;
    Ok(verdict_of(finding))
}

/// What the bytes lead to, where these are the first of them.
fn finding_of(alloc: Global, front: &[u8], hints: &mut String) -> Result<Finding, EngineFault>
    ensures ok { IfOk result (λ finding. (bytes : List ℕ)
        → front.now ≡ front_of bytes → Finds bytes finding) }
    ensures err { IfErr result (λ fault. fault ≡ EngineFault.NoMemory) }
{
    match decode(alloc, front) {
        Ok(image) => verified(alloc, image, hints),
        Err(undecoded) => match undecoded.fault() {
            DecodeFault::NoMemory => Err(EngineFault::NoMemory),
            fault => {
                explain_image(hints, alloc, front, &undecoded);
                add_page(hints, Page::Image);
                Ok(Finding::Undecodable(fault))
            }
        },
    }
}

/// What the verifier finds in the image.
fn verified(alloc: Global, image: Image, hints: &mut String) -> Result<Finding, EngineFault>
    ensures ok { IfOk result (IsTrueOf image) }
    ensures err { IfErr result (λ fault. fault ≡ EngineFault.NoMemory) }
{
    match check(alloc, image) {
        Ok(_) => Ok(Finding::Accepted),
        Err(refusal) => match refusal.cause {
            RefusalCause::NoMemory => Err(EngineFault::NoMemory),
            cause => {
                explain_refusal(hints, alloc, &refusal);
                Ok(Finding::Refused(refusal.at, cause))
            }
        },
    }
}

/// How the engine ends.
fn verdict_of(finding: Finding) -> Verdict
    ensures { result ≡ verdict_of finding }
{
    match finding {
        Finding::Accepted => Verdict::Done,
        Finding::Refused(_, _) => Verdict::Refused,
        Finding::Undecodable(_) => Verdict::Refused,
    }
}

/// Writes the line of what was found.
fn write_finding<W: Write>(
    alloc: Global,
    writer: &mut W,
    finding: Finding,
) -> Result<(), EngineFault>
    ensures ok { OnOk result (Appends (W.contents writer.old) (W.contents writer.new)
        (finding_line finding)) }
    ensures err { OnErr result (AppendsBeginning (W.contents writer.old) (W.contents writer.new)
        (finding_line finding)) }
    ensures fault { IfErr result (λ fault. fault ≢ EngineFault.Read) }
{
    let mut line = String::new(alloc);
    push_finding(&mut line, finding)?;
    write_all(writer, line.as_bytes())?;
    Ok(())
}

/// Adds the line of what was found. Where memory is refused, a beginning of the line may stand there.
fn push_finding(text: &mut String, finding: Finding) -> Result<(), AllocError>
    ensures { OnOk result (string_bytes text.new ≡ string_bytes text.old ++ finding_line finding) }
{
    match finding {
        Finding::Accepted => text.push_str("accepted\n"),
        Finding::Refused(at, cause) => push_refusal(text, at as u64, cause.name()),
        Finding::Undecodable(fault) => {
            let name = fault_name(fault);
            write!(text, "undecodable {name}\n")
        }
    }
}

/// The name of the fault, as answers have it.
pub fn fault_name(fault: DecodeFault) -> &'static str
    ensures { result.now ≡ fault_name fault }
{
    match fault {
        DecodeFault::Short => "Short",
        DecodeFault::Magic => "Magic",
        DecodeFault::Version => "Version",
        DecodeFault::Length => "Length",
        DecodeFault::UnknownOp => "UnknownOp",
        DecodeFault::UnusedField => "UnusedField",
        DecodeFault::BadRegister => "BadRegister",
        DecodeFault::BadHeader => "BadHeader",
        DecodeFault::BadBlock => "BadBlock",
        DecodeFault::NoMemory => "NoMemory",
    }
}
