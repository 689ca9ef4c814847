//! What standard error says of files and streams that fail.

use std::io;

/// Puts the name of a file or stream there, and why the system refuses it where that is known.
pub fn explain_failure(hints: &mut String, name: &str, reason: Option<io::Error>) {
    hints.clear();
    let pushed = match reason {
        Some(reason) => write!(hints, "{name}: {reason}"),
        None => hints.push_str(name),
    };
    if pushed.is_err() {
        hints.clear();
    }
}

/// Puts the name of a file there that can't be opened to be read, and why.
pub fn explain_opening(hints: &mut String, path: &str, reason: io::Error) {
    explain_failure(hints, path, Some(reason));
    if path == "-" {
        let _ = hints.push_str("; standard input is read only by the form without words");
    }
}
