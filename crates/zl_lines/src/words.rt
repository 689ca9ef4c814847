//! Lines cut into words.
ghost use Rattle.std.specs.Prelude.{◌≡◌, OnOk, map};
ghost use Rattle.zl_lines.specs.Lines.{is_comment, words_of};

use std::alloc::AllocError;

/// Whether the line is a comment: its first byte is `#`.
///
/// Source: own profile.
pub fn is_comment(line: &[u8]) -> bool
    ensures { result ≡ is_comment line.now }
{
    line.starts_with(b"#")
}

/// Puts the words of the line into `words`, in place of what it held. Only spaces part words.
///
/// Source: own profile.
pub fn split_words<'a>(words: &mut Vec<&'a [u8]>, line: &'a [u8]) -> Result<(), AllocError>
    ensures { OnOk result (map (λ word. word.now) words.new.items ≡ words_of line.now) }
{
    words.clear();
    for word in line.split(|byte| *byte == b' ') {
        if !word.is_empty() {
            words.push(word)?;
        }
    }
    Ok(())
}
