//! Why a search over all orders isn't whole, or doesn't begin.

use crate::ends::Progress;
use crate::fault::{EngineFault, Verdict};
use zl_explain::Value::Word;
use zl_explain::tell;

/// Adds a line where the search met more worlds than so many.
pub fn explain_search(hints: &mut String, ended: &Result<Verdict, EngineFault>, worlds: u32) {
    let pushed = match ended {
        Ok(Verdict::Cut) =>
            tell!(hints; "zlab: there are more than # worlds, so there may be other ends; --worlds N takes more\n",
                worlds),
        _ => Ok(()),
    };
    if pushed.is_err() {
        hints.clear();
    }
}

/// Adds that the words are no part.
pub fn explain_part(hints: &mut String, words: &[u8]) {
    let pushed =
        tell!(hints; "\"#\" is no part: a part is K/N, two decimal numbers without signs or zeros before them, K from 1 to N",
            Word(words));
    if pushed.is_err() {
        hints.clear();
    }
}

/// Says on standard error how many worlds were met.
#[derive(Drop)]
pub struct OnError<'a, R> {
    pub rt: &'a R,
}

impl<'a, R: Eprint> Progress for OnError<'a, R> {
    fn met(&mut self, worlds: usize) {
        let _ = eprintln!(self.rt; "zlab: {worlds} worlds were met so far");
    }
}
