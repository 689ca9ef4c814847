//! Lines cut into words. Own profile.
ghost use Rattle.std.specs.Prelude.{◌≡◌, ◌++◌, [], OnOk};
ghost use Rattle.zl_asm.specs.Values.{texts};
ghost use Rattle.zl_asm.specs.Words.{is_ascii, is_word, word_before, words_of};

use std::alloc::AllocError;

/// Whether each byte is an ASCII character.
pub(crate) fn is_ascii(text: &[u8]) -> bool
    ensures { result ≡ is_ascii text.now }
{
    text.iter().all(|byte| *byte < 128)
}

/// Whether the word has just these bytes.
#[tactic(auto, unfolding(crate::specs::Words::is_word))]
pub fn is(word: &[u8], bytes: &[u8]) -> bool
    ensures { result ≡ is_word word.now bytes.now }
{
    word == bytes
}

/// Whether the word has a byte that no word of the grammar has.
pub fn is_odd(word: &[u8]) -> bool {
    let rest = word.strip_prefix(b".").unwrap_or(word);
    !rest
        .iter()
        .all(|byte| byte.is_ascii_alphanumeric() || *byte == b'_')
}

/// Puts the words of the line into `words`, in place of what it held. Spaces part words, a comma
/// is a word of its own, and a semicolon ends the line. Where memory is refused, only the first of them
/// stand there.
pub fn split_words<'a>(words: &mut Vec<&'a [u8]>, line: &'a [u8]) -> Result<(), AllocError>
    ensures { OnOk result (texts words.new.items ≡ words_of line.now) }
{
    words.clear();
    let mut start = 0;
    for (i, byte) in line.iter().enumerate() {
        match *byte {
            b';' => return push_word(words, &line[start..i]),
            b' ' => {
                push_word(words, &line[start..i])?;
                start = i + 1;
            }
            b',' => {
                push_word(words, &line[start..i])?;
                words.push(b",")?;
                start = i + 1;
            }
            _ => {}
        }
    }
    push_word(words, &line[start..])
}

/// Adds the word, if it has a byte.
fn push_word<'a>(words: &mut Vec<&'a [u8]>, word: &'a [u8]) -> Result<(), AllocError>
    ensures { OnOk result
        (texts words.new.items ≡ texts words.old.items ++ word_before word.now []) }
{
    if !word.is_empty() {
        words.push(word)?;
    }
    Ok(())
}
