ghost use Rattle.std.specs.Prelude.{◌≡◌};
ghost use Rattle.zl_asm.specs.Causes.{cause_name};
ghost use Rattle.zl_asm.specs.declared.fault.AsmCause.TheVariants.{NoMemory};

use std::alloc::{AllocError, AllocFailed};
use std::marker::Model;

/// Why a text denotes no image, or want of memory. Own profile.
#[derive(Clone, Copy, PartialEq, Eq, Debug)]
pub enum AsmCause {
    /// A word that the grammar doesn't have, as one with a tab, a sign or a byte outside ASCII; a
    /// comma that is missing, or one too many; a label that isn't alone on its line.
    Token,
    /// An unknown word in the place of a directive, a mnemonic, a kind or a condition.
    UnknownName,
    /// The name of a label that stands further up too.
    LabelTwice,
    /// A target that names no label.
    LabelMissing,
    /// A wrong count, class or range of operands; rights outside the default of the kind; a
    /// condition that no image can need; a directive twice, or behind a label or an instruction;
    /// `.version` of another number than 2, or behind another directive;
    /// `.bytes` of a known opcode, or without `.raw`.
    Operand,
    /// A number outside a limit of the image, or one more instruction, start handle or slot array
    /// than an image has.
    Limit,
    /// Memory was refused.
    NoMemory,
    /// A `rep` or `endrep` that nests with no other, a fifth block in four others, a count outside 1 to
    /// 1,000,000, or a jump into a block or out of one.
    Block,
}

/// The line of a text that is at fault, counted from 1, and why. No clause says which of its words is
/// at fault. Own profile.
#[derive(Clone, Copy, PartialEq, Eq, Debug)]
pub struct AsmFault {
    pub line: u64,
    pub cause: AsmCause,
    /// The first word that is at fault, of those that `words::split_words` gives, counted from 0. None
    /// where no single word is, as where an operand is missing.
    pub word: Option<usize>,
}

/// Why a line stands in no text, with the word that is at fault, where it is one. Contracts see the
/// cause.
#[derive(Drop)]
pub(crate) struct WordFault {
    cause: AsmCause,
    word: Option<usize>,
}

impl Model for WordFault {
    ghost use Rattle.zl_asm.specs.declared.fault.AsmCause.{AsmCause};

    ghost Value = { AsmCause };

    ghost view = { λ f. f.cause };
}

impl AsmCause {
    /// The name of the cause, as answers have it.
    pub fn name(self) -> &'static str
        ensures { result.now ≡ cause_name self }
    {
        match self {
            AsmCause::Token => "Token",
            AsmCause::UnknownName => "UnknownName",
            AsmCause::LabelTwice => "LabelTwice",
            AsmCause::LabelMissing => "LabelMissing",
            AsmCause::Operand => "Operand",
            AsmCause::Limit => "Limit",
            AsmCause::NoMemory => "NoMemory",
            AsmCause::Block => "Block",
        }
    }

    /// The cause where no single word is at fault.
    pub(crate) fn alone(self) -> WordFault
        ensures { result ≡ self }
    {
        WordFault {
            cause: self,
            word: None,
        }
    }

    /// The cause where this word is at fault.
    pub(crate) fn at(self, word: usize) -> WordFault
        ensures { result ≡ self }
    {
        WordFault {
            cause: self,
            word: Some(word),
        }
    }
}

impl WordFault {
    /// The fault in the line of this number.
    pub(crate) fn in_line(self, line: u64) -> AsmFault
        ensures { result.cause ≡ self }
    {
        AsmFault {
            line,
            cause: self.cause,
            word: self.word,
        }
    }
}

impl From<AllocError> for AsmCause {
    ghost from_gives = { λ _ cause. cause ≡ NoMemory };

    fn from(_error: AllocError) -> AsmCause {
        AsmCause::NoMemory
    }
}

impl From<AsmCause> for WordFault {
    ghost from_gives = { λ cause fault. fault ≡ cause };

    fn from(cause: AsmCause) -> WordFault {
        cause.alone()
    }
}

impl From<AllocError> for WordFault {
    ghost from_gives = { λ _ fault. fault ≡ NoMemory };

    fn from(_error: AllocError) -> WordFault {
        AsmCause::NoMemory.alone()
    }
}

impl<T: Drop> From<AllocFailed<T>> for WordFault {
    ghost from_gives = { λ _ fault. fault ≡ NoMemory };

    fn from(_error: AllocFailed<T>) -> WordFault {
        AsmCause::NoMemory.alone()
    }
}
