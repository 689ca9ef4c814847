//! What the block of a program holds.
ghost use Rattle.std.specs.Prelude.{◌≡◌, [], ◌++◌, codes, Ok, IfOk, IsTrue};
ghost use Rattle.zl_code.specs.Spells.{spelling, is_in_range};
ghost use Rattle.zl_scenario.specs.Numbers.{digits_of};
ghost use Rattle.zl_scenario.specs.Scenario.{Hex, digits_said, body_said, bytes_said, digits_spelled, text_spelled};
ghost use Rattle.zl_scenario.specs.Reading.{Tells, Decodes, body_with};
ghost use Rattle.zl_asm.specs.Denotes.{image_bytes_of};

use crate::cause::Cause;
use crate::digits::Digits;
use crate::fault::Fault;
use crate::numbers::hex_digit;
use std::alloc::Global;
use std::marker::Model;
use zl_asm::{AsmCause, assemble_bytes};
use zl_code::{DecodeFault, Image, decode};

/// How a program is written.
#[derive(Clone, Copy)]
pub enum Form {
    /// The bytes of its image, in hexadecimal digits.
    Hex,
    /// The assembler's text.
    Asm,
}

/// What the lines of a block have given so far.
#[derive(Drop)]
pub struct Body {
    form: Form,
    digits: Digits,
    text: Vec<u8>,
}

impl Model for Body {
    ghost use Rattle.zl_scenario.specs.Scenario.{Body as BodyValue};
    ghost use Rattle.zl_scenario.specs.Reading.{body_with};

    ghost Value = { BodyValue };

    ghost view = { λ b. body_with b.form b.digits b.text.items };
}

impl Body {
    /// A block without a line.
    pub fn new(alloc: Global) -> Body
        ensures { result ≡ Hex [] }
    {
        Body {
            form: Form::Hex,
            digits: Digits::new(alloc),
            text: Vec::new(alloc),
        }
    }

    /// Begins a block of this form.
    pub fn open(&mut self, form: Form)
        ensures { self.new ≡ body_with form [] [] }
    {
        self.form = form;
        self.digits.clear();
        self.text.clear();
    }

    /// Adds a line. After a fault a part of it may be there.
    #[tactic(auto, unfolding(crate::specs::Scenario::body_said))]
    pub fn push_line(&mut self, line: &[u8]) -> Result<(), Fault>
        ensures { Tells result (λ _. self.new) (body_said self.old line.now) }
    {
        match self.form {
            Form::Hex => push_digits(&mut self.digits, line),
            Form::Asm => push_text(&mut self.text, line),
        }
    }

    /// The image that the whole block gives: `Syntax` for an odd count of digits, and `Program`
    /// where the bytes spell no image, or the text denotes none.
    pub fn image(&self, alloc: Global) -> Result<Image, Fault>
        ensures answer { Tells result (λ image. spelling image) (bytes_said self.now) }
        ensures in_range { IfOk result (λ image. IsTrue (is_in_range image)) }
    {
        match self.form {
            Form::Hex => image_of_digits(alloc, &self.digits),
            Form::Asm => image_of_text(alloc, self.text.as_slice()),
        }
    }
}

/// Adds the digits of the line to those before it. After a fault some of them may be there.
fn push_digits(digits: &mut Digits, line: &[u8]) -> Result<(), Fault>
    ensures { Tells result (λ _. digits.new) (digits_said digits.old (digits_of line.now)) }
{
    for byte in line {
        if *byte != b' ' {
            let Some(digit) = hex_digit(*byte) else {
                return Err(Fault::alone(Cause::Syntax));
            };
            digits.push(digit)?;
        }
    }
    Ok(())
}

/// Adds the line with its end.
fn push_text(text: &mut Vec<u8>, line: &[u8]) -> Result<(), Fault>
    ensures { Tells result (λ _. text.new.items) (Ok (text.old.items ++ (line.now ++ codes "\n"))) }
{
    text.extend_from_slice(line)?;
    text.push(b'\n')?;
    Ok(())
}

/// The image that the digits spell.
#[tactic(auto, unfolding(crate::specs::Scenario::digits_spelled))]
fn image_of_digits(alloc: Global, digits: &Digits) -> Result<Image, Fault>
    ensures answer { Tells result (λ image. spelling image) (digits_spelled digits.now) }
    ensures in_range { IfOk result (λ image. IsTrue (is_in_range image)) }
{
    let Some(bytes) = digits.bytes() else {
        return Err(Fault::alone(Cause::Syntax));
    };
    decode_program(alloc, bytes)
}

/// The image that the bytes spell; `Program` where they spell none.
fn decode_program(alloc: Global, bytes: &[u8]) -> Result<Image, Fault>
    ensures { Decodes result bytes.now }
{
    match decode(alloc, bytes) {
        Ok(image) => Ok(image),
        Err(undecoded) => match undecoded.fault() {
            DecodeFault::NoMemory => Err(Fault::NoMemory),
            _ => Err(Fault::alone(Cause::Program)),
        },
    }
}

/// The image that the text denotes; `Program` where it denotes none.
fn image_of_text(alloc: Global, text: &[u8]) -> Result<Image, Fault>
    ensures answer { Tells result (λ image. spelling image)
        (text_spelled (image_bytes_of text.now)) }
    ensures in_range { IfOk result (λ image. IsTrue (is_in_range image)) }
{
    match assemble_bytes(alloc, text) {
        Ok(image) => Ok(image),
        Err(fault) => Err(match fault.cause {
            AsmCause::NoMemory => Fault::NoMemory,
            _ => Fault::alone(Cause::Program),
        }),
    }
}
