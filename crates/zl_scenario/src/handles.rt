//! The handles that a line gives to its process.
ghost use Rattle.std.specs.Prelude.{◌≡◌, ◌==◌, IfOk, map};
ghost use Rattle.std.specs.List.{position};
ghost use Rattle.zl_scenario.specs.Handles.{rights_named, handle_of, handles_of};

use crate::numbers::number;
use crate::words::is;
use std::alloc::{AllocError, Global};
use zl_code::{Grant, Grants};

/// The handles that the words name, in order, or nothing where one of them names none.
pub fn read_handles(alloc: Global, words: &[&[u8]]) -> Result<Option<Grants>, AllocError>
    ensures { IfOk result (λ handles. handles ≡ handles_of (map (λ word. word.now) words.now)) }
{
    let mut handles = Grants::new(alloc);
    for word in words {
        let Some(handle) = read_handle(word) else {
            return Ok(None);
        };
        if handles.push(handle).is_err() {
            return Err(AllocError);
        }
    }
    Ok(Some(handles))
}

/// The handle that the word names: a koid, a colon, and rights.
#[tactic(auto, unfolding(crate::specs::Handles::handle_of))]
pub fn read_handle(word: &[u8]) -> Option<Grant>
    ensures { result ≡ handle_of word.now }
{
    let colon = colon_in(word)?;
    let koid = number(&word[..colon])?;
    let rights = rights_named(&word[colon + 1..])?;
    Some(Grant { koid, rights })
}

/// Where the first colon of the word stands.
fn colon_in(word: &[u8]) -> Option<usize>
    ensures { result ≡ position (λ byte. byte == 58) word.now }
{
    word.iter().position(|byte| *byte == b':')
}

/// The rights that the word names: a number, or none in particular for `*`.
#[tactic(auto, unfolding(crate::specs::Handles::rights_named))]
fn rights_named(word: &[u8]) -> Option<Option<u64>>
    ensures { result ≡ rights_named word.now }
{
    if is(word, b"*") {
        return Some(None);
    }
    Some(Some(number(word)?))
}
