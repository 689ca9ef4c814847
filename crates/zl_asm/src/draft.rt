//! What the lines of a text have said so far.
ghost use Rattle.std.specs.Prelude.{◌≡◌, ◌≤◌, ◌||◌, ◌==◌, [], true, length, IsTrue, All};
ghost use Rattle.zl_code.specs.Limits.{most_instructions, most_memory, most_budget};
ghost use Rattle.zl_asm.specs.Kept.{is_kept_in_range};

use crate::directive::Directive;
use crate::fault::{AsmCause, AsmFault, WordFault};
use crate::label_map::{Labels, TextHasher};
use crate::line::{Line, Source, line_of};
use crate::pairing::nested;
use crate::resolving::{Kept, kept_of, push_kept};
use crate::words::{is_ascii, split_words};
use indexmap::IndexMap;
use std::alloc::Global;
use zl_code::{Image, Instr, SlotArray, Start, Version};

/// What the lines have said so far.
#[derive(Drop)]
pub(crate) struct Draft<'a> {
    /// What the directives said; it has no instruction yet.
    image: Image,
    has_memory: bool,
    has_budget: bool,
    /// Whether a line was read that isn't blank, behind which no line gives the version.
    has_begun: bool,
    /// Whether a label or an instruction was read, behind which no directive stands.
    has_body: bool,
    labels: Labels<'a>,
    sources: Vec<SourceLine<'a>>,
    ghost few: { length sources.items ≤ most_instructions },
    ghost empty: { image.code ≡ [] },
    ghost unbegun: { (has_begun || (length sources.items == 0)) ≡ true },
    ghost fit: { All (λ s. IsTrue (is_kept_in_range image.version image.raw s.kept)) sources.items },
}

/// An instruction, the number of its line, and that of the last word there, which is its target if it
/// names a label.
#[derive(Clone, Copy)]
pub(crate) struct SourceLine<'a> {
    line: u64,
    last: usize,
    kept: Kept<'a>,
}

impl<'a> Draft<'a> {
    ghost use Rattle.indexmap.specs.IndexMap.{hasher_of};
    ghost use Rattle.std.specs.Hash.DefaultHasher as sip;
    ghost use Rattle.std.specs.Prelude.{◌⊎◌, false, OnOk, OnErr, IfOk, IfErr};
    ghost use Rattle.zl_asm.specs.declared.directive.Directive.TheVariants as directives;
    ghost use Rattle.zl_asm.specs.declared.fault.AsmCause.TheVariants.{NoMemory};
    ghost use Rattle.zl_asm.specs.Draft.{held_by, IsHeldOf, Holds, Refuses, Reads, Stops, IsCodeOf, Gives, GivesNone, is_directive_in_range};
    ghost use Rattle.zl_asm.specs.Causes.{OnRefusal};
    ghost use Rattle.zl_asm.specs.Lines.{Declares, Label, Code};
    ghost use Rattle.zl_asm.specs.Values.{source_value};
    ghost use Rattle.zl_code.specs.Spells.{is_start_in_range, is_slot_in_range, is_in_range};

    /// Nothing of this text is read yet.
    pub(crate) fn new(alloc: Global, text: &[u8]) -> Draft<'a>
        ensures nothing_said { IsHeldOf [] (held_by result) }
        ensures hashed { (hasher_of result.labels).behind ≡ sip.write sip.initial text.now }
    {
        Draft {
            image: Image::new(alloc),
            has_memory: false,
            has_budget: false,
            has_begun: false,
            has_body: false,
            labels: IndexMap::with_hasher(alloc, TextHasher::new(text)),
            sources: Vec::new(alloc),
        }
    }

    /// Takes a directive.
    pub(crate) fn declare(&mut self, directive: Directive) -> Result<(), AsmCause>
        requires in_range { IsTrue (is_directive_in_range directive) }
        ensures held { OnOk result
            (Holds (held_by self.old) (Declares directive) (held_by self.new)) }
        ensures refused { OnRefusal result (Refuses (held_by self.old) (Declares directive)) }
    {
        if self.has_body {
            return Err(AsmCause::Operand);
        }
        match directive {
            Directive::VersionTwo => self.declare_version(),
            Directive::Raw => self.declare_mark(),
            Directive::Memory(bytes) => self.declare_memory(bytes),
            Directive::Budget(steps) => self.declare_budget(steps),
            Directive::Need(condition) => {
                self.image.add_need(condition);
                self.has_begun = true;
                Ok(())
            }
            Directive::Start(start) => self.declare_start(start),
            Directive::Slots(array) => self.declare_slot_array(array),
        }
    }

    /// Takes version 2.
    fn declare_version(&mut self) -> Result<(), AsmCause>
        requires first { self.old.has_body ≡ false }
        ensures held { OnOk result
            (Holds (held_by self.old) (Declares directives.VersionTwo) (held_by self.new)) }
        ensures refused { OnErr result
            (Refuses (held_by self.old) (Declares directives.VersionTwo)) }
    {
        if self.has_begun {
            return Err(AsmCause::Operand);
        }
        self.has_begun = true;
        self.image.set_version(Version::Two);
        Ok(())
    }

    /// Takes the raw mark.
    fn declare_mark(&mut self) -> Result<(), AsmCause>
        requires first { self.old.has_body ≡ false }
        ensures held { OnOk result
            (Holds (held_by self.old) (Declares directives.Raw) (held_by self.new)) }
        ensures refused { OnErr result (Refuses (held_by self.old) (Declares directives.Raw)) }
    {
        if self.image.is_raw() {
            return Err(AsmCause::Operand);
        }
        self.image.mark_raw();
        self.has_begun = true;
        Ok(())
    }

    /// Takes the size of the data memory.
    fn declare_memory(&mut self, bytes: u32) -> Result<(), AsmCause>
        requires first { self.old.has_body ≡ false }
        requires most { bytes ≤ most_memory }
        ensures held { OnOk result
            (Holds (held_by self.old) (Declares (directives.Memory bytes)) (held_by self.new)) }
        ensures refused { OnErr result
            (Refuses (held_by self.old) (Declares (directives.Memory bytes))) }
    {
        if self.has_memory {
            return Err(AsmCause::Operand);
        }
        self.has_memory = true;
        self.image.set_memory(bytes);
        self.has_begun = true;
        Ok(())
    }

    /// Takes the budget.
    fn declare_budget(&mut self, steps: u32) -> Result<(), AsmCause>
        requires first { self.old.has_body ≡ false }
        requires least { 1 ≤ steps }
        requires most { steps ≤ most_budget }
        ensures held { OnOk result
            (Holds (held_by self.old) (Declares (directives.Budget steps)) (held_by self.new)) }
        ensures refused { OnErr result
            (Refuses (held_by self.old) (Declares (directives.Budget steps))) }
    {
        if self.has_budget {
            return Err(AsmCause::Operand);
        }
        self.has_budget = true;
        self.image.set_budget(steps);
        self.has_begun = true;
        Ok(())
    }

    /// Takes a start handle.
    fn declare_start(&mut self, start: Start) -> Result<(), AsmCause>
        requires first { self.old.has_body ≡ false }
        requires in_range { IsTrue (is_start_in_range start) }
        ensures held { OnOk result
            (Holds (held_by self.old) (Declares (directives.Start start)) (held_by self.new)) }
        ensures refused { OnRefusal result
            (Refuses (held_by self.old) (Declares (directives.Start start))) }
    {
        if self.image.starts().len() >= Image::MOST_STARTS {
            return Err(AsmCause::Limit);
        }
        self.image.push_start(start)?;
        self.has_begun = true;
        Ok(())
    }

    /// Takes a slot array.
    fn declare_slot_array(&mut self, array: SlotArray) -> Result<(), AsmCause>
        requires first { self.old.has_body ≡ false }
        requires in_range { IsTrue (is_slot_in_range array) }
        ensures held { OnOk result
            (Holds (held_by self.old) (Declares (directives.Slots array)) (held_by self.new)) }
        ensures refused { OnRefusal result
            (Refuses (held_by self.old) (Declares (directives.Slots array))) }
    {
        if self.image.slots().len() >= Image::MOST_SLOT_ARRAYS {
            return Err(AsmCause::Limit);
        }
        self.image.push_slot_array(array)?;
        self.has_begun = true;
        Ok(())
    }

    /// Takes a label.
    pub(crate) fn push_label(&mut self, name: &'a [u8]) -> Result<(), WordFault>
        ensures held { OnOk result (Holds (held_by self.old) (Label name.now) (held_by self.new)) }
        ensures refused { OnRefusal result (Refuses (held_by self.old) (Label name.now)) }
    {
        if self.labels.contains_key(name) {
            return Err(AsmCause::LabelTwice.at(0));
        }
        self.labels.insert(name, self.sources.len() as u32)?;
        self.has_begun = true;
        self.has_body = true;
        Ok(())
    }

    /// Takes an instruction of the line and the last word of these numbers.
    fn push_source(&mut self, line: u64, last: usize, source: Source<'a>) -> Result<(), AsmCause>
        ensures held { OnOk result
            (Holds (held_by self.old) (Code (source_value source.entry)) (held_by self.new)) }
        ensures refused { OnRefusal result
            (Refuses (held_by self.old) (Code (source_value source.entry))) }
    {
        if self.sources.len() >= Image::MOST_INSTRUCTIONS {
            return Err(AsmCause::Limit);
        }
        match kept_of(self.image.version(), self.image.is_raw(), &source) {
            Ok(kept) => {
                self.sources
                    .extend_from_slice(&[SourceLine { line, last, kept }])?;
                self.has_begun = true;
                self.has_body = true;
                Ok(())
            }
            Err(cause) => Err(cause),
        }
    }

    /// Reads the line of this number; `words` and `operands` are room for its words.
    pub(crate) fn read_line(
        &mut self,
        number: u64,
        line: &'a [u8],
        words: &mut Vec<&'a [u8]>,
        operands: &mut Vec<&'a [u8]>,
    ) -> Result<(), WordFault>
        ensures read { OnOk result (Reads (held_by self.old) line.now (held_by self.new)) }
        ensures refused { OnRefusal result (Stops (held_by self.old) line.now) }
    {
        if !is_ascii(line) {
            return Err(AsmCause::Token.alone());
        }
        split_words(words, line)?;
        match line_of(self.image.version(), words, operands)? {
            Line::Blank => Ok(()),
            Line::Declares(directive) => Ok(self.declare(directive)?),
            Line::Label(name) => self.push_label(name),
            Line::Code(source) => {
                let last = words.len().saturating_sub(1);
                Ok(self.push_source(number, last, source)?)
            }
        }
    }

    /// The instructions of all lines, before their blocks are paired.
    fn code(&self, alloc: Global) -> Result<Vec<Instr>, AsmFault>
        ensures whole { IfOk result (λ code. IsCodeOf (held_by self.now) code.items) }
        ensures few { IfOk result (λ code. length code.items ≤ most_instructions) }
        ensures refused { IfErr result
            (λ fault. (fault.cause ≡ NoMemory) ⊎ GivesNone (held_by self.now)) }
    {
        let version = self.image.version();
        let raw = self.image.is_raw();
        let mut code = Vec::new(alloc);
        while let Some(entry) = self.sources.get(code.len()) {
            if let Err(cause) = push_kept(&mut code, &self.labels, version, raw, &entry.kept) {
                let line = entry.line;
                let word = (cause == AsmCause::LabelMissing).then_some(entry.last);
                return Err(AsmFault { line, cause, word });
            }
        }
        Ok(code)
    }

    /// The line of the instruction of this number, or else the first one.
    fn line_at(&self, place: usize) -> u64 {
        match self.sources.get(place) {
            Some(entry) => entry.line,
            None => 1,
        }
    }

    /// The image that all lines give.
    pub(crate) fn into_image(self, alloc: Global) -> Result<Image, AsmFault>
        ensures given { IfOk result (λ image. Gives (held_by self.entry) image) }
        ensures in_range { IfOk result (λ image. IsTrue (is_in_range image)) }
        ensures refused { IfErr result
            (λ fault. (fault.cause ≡ NoMemory) ⊎ GivesNone (held_by self.entry)) }
    {
        let code = self.code(alloc)?;
        match nested(alloc, &code) {
            Ok(nested) => {
                let Draft { mut image, .. } = self;
                image.set_code(nested);
                // Asked for what it says of any image: each field is in its range.
                let _ = image.len();
                Ok(image)
            }
            Err(breach) => Err(AsmFault {
                line: self.line_at(breach.place),
                cause: breach.cause,
                word: None,
            }),
        }
    }
}
