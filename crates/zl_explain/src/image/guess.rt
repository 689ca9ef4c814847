//! What a file may be that isn't an image.

use crate::text::Told;

/// Adds what the bytes are, if they are those of a text, and of no block that a line opens.
pub fn push_guess(hint: &mut String, opened: u64, bytes: &[u8]) -> Told {
    let text = str::from_utf8(bytes).unwrap_or("").trim();
    if opened != 0 || text.is_empty() || bytes.contains(&0) {
        return Ok(());
    }
    let is_in_digits = |byte: u8| byte.is_ascii_hexdigit() || b" \t\r\n".contains(&byte);
    hint.push_str(if text.bytes().all(is_in_digits) {
        "; these are digits: an image has the bytes that they spell"
    } else if text.starts_with("program ") || text.contains("\nprogram ") {
        "; this is a scenario: zlab < FILE runs it"
    } else {
        "; this is text: zlab asm makes the image"
    })
}
