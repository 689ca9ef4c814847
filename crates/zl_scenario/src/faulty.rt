//! Which word of a refused line is at fault, counted from 0. No clause speaks of it.

use crate::handles::read_handle;
use crate::numbers::number;
use crate::words::is;
use zl_rights::Condition;

/// Where the first word that is no number stands, among the words from the one of this number on.
pub fn no_number(words: &[&[u8]], from: usize) -> Option<usize> {
    let place = words.iter().position(|word| number(word).is_none())?;
    place.checked_add(from)
}

/// Where the first word that is no handle stands, among those of a process.
pub fn no_handle(handles: &[&[u8]]) -> Option<usize> {
    let place = handles.iter().position(|word| read_handle(word).is_none())?;
    place.checked_add(4)
}

/// Which word of a line of three words opens no block: the name, the mark or the form.
pub fn no_opening(name: &[u8], mark: &[u8]) -> usize {
    if !is(name, b"program") {
        return 0;
    }
    if is(mark, b"raw") || is(mark, b"checked") {
        2
    } else {
        1
    }
}

/// Which word of a policy is wrong: the job, the condition or the action.
pub fn no_policy(job: &[u8], condition: &[u8]) -> usize {
    if number(job).is_none() {
        1
    } else if Condition::named(condition).is_none() {
        2
    } else {
        3
    }
}
