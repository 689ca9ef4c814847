//! Tests of words and lines.
ghost use Rattle.std.specs.Prelude.{◌≡◌};
ghost use Rattle.zl_asm.specs.Words.{is_ascii, is_word};

/// Whether each byte is an ASCII character.
pub fn is_ascii(line: &[u8]) -> bool
    ensures { result ≡ is_ascii line.now }
{
    line.iter().all(|byte| *byte < 128)
}

/// Whether the word has just these bytes.
#[tactic(auto, unfolding(zl_asm::specs::Words::is_word))]
pub fn is(word: &[u8], bytes: &[u8]) -> bool
    ensures { result ≡ is_word word.now bytes.now }
{
    word == bytes
}
