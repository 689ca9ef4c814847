//! Readers and writers that keep why they failed.

use std::io;
use std::io::{Read, Write};
use zl_explain::explain_failure;

/// A reader or a writer, the name that a person knows it by, and why its last call that failed did so.
#[derive(Drop)]
pub struct Told<'a, T: Drop> {
    name: &'a str,
    inner: T,
    reason: Option<io::Error>,
}

impl<'a, T: Drop> Told<'a, T> {
    /// Before the first call.
    pub fn new(name: &'a str, inner: T) -> Told<'a, T> {
        Told {
            name,
            inner,
            reason: None,
        }
    }

    /// Whether a call failed.
    pub fn has_failed(&self) -> bool {
        self.reason.is_some()
    }

    /// Puts its name into `hints`, and why its last call that failed did so.
    pub fn explain(&self, hints: &mut String) {
        explain_failure(hints, self.name, self.reason);
    }
}

impl<'a, R: Read + Drop> Read for Told<'a, R> {
    ghost remaining = { λ t. R.remaining t.inner };

    fn read(&mut self, buf: &mut [u8]) -> io::Result<usize> {
        let read = self.inner.read(buf);
        if let Err(reason) = &read {
            self.reason = Some(*reason);
        }
        read
    }
}

impl<'a, W: Write + Drop> Write for Told<'a, W> {
    ghost contents = { λ t. W.contents t.inner };

    fn write(&mut self, buf: &[u8]) -> io::Result<usize> {
        let written = self.inner.write(buf);
        if let Err(reason) = &written {
            self.reason = Some(*reason);
        }
        written
    }

    fn flush(&mut self) -> io::Result<()> {
        self.inner.flush()
    }
}
