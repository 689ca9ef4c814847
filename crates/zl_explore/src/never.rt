//! All that no order may have.

ghost use Rattle.std.specs.Prelude.{◌≡◌, ◌++◌, [], IfOk, IfSome, OnOk, string_bytes};
ghost use Rattle.std.specs.Bool.{OnFalse, OnTrue};
ghost use Rattle.std.specs.List.{flat_map};
ghost use Rattle.zl_explore.specs.Bad.{words_of};
ghost use Rattle.zl_explore.specs.Facts.{TakesIn, further_words, together_words};

use crate::bad::{Bad, What};
use crate::fact::{Fact, Seen, guessed};
use std::alloc::{AllocError, Global};

/// What no order may have.
///
/// Source: own profile.
#[derive(Drop)]
pub struct Never {
    /// Items, and what processes are in at an end.
    pub bad: Vec<Bad>,
    /// What may not be so in one world: of each list each fact, at once.
    pub together: Vec<Vec<Fact>>,
}

impl Never {
    /// What every order may have.
    pub fn new(alloc: Global) -> Never
        ensures bad { result.bad.items ≡ [] }
        ensures together { result.together.items ≡ [] }
    {
        Never {
            bad: Vec::new(alloc),
            together: Vec::new(alloc),
        }
    }

    /// Takes in what these words say, and tells whether they say something: one pattern, of an item or an
    /// end, or facts of one moment with ` and ` between them, which may not be so in one world at once.
    /// Words of an item beside others, or behind `not`, say nothing. Only memory can be refused.
    pub fn read(&mut self, alloc: Global, words: &str) -> Result<bool, AllocError>
        ensures yes { IfOk result (λ is_read. OnTrue is_read (TakesIn words.now self.old self.new)) }
        ensures no { IfOk result (λ is_read. OnFalse is_read (self.new ≡ self.old)) }
    {
        let Some(together) = read_together(alloc, words)? else {
            return Ok(false);
        };
        if let Some(bad) = lone_bad(&together) {
            self.bad.push(bad)?;
            return Ok(true);
        }
        if !together.iter().all(|fact| fact.is_of_worlds()) {
            return Ok(false);
        }
        self.together.push(together)?;
        Ok(true)
    }
}

/// The pattern that is the only one, if it is of items or of ends.
fn lone_bad(together: &[Fact]) -> Option<Bad>
    ensures { IfSome result (λ bad. together_words together.now ≡ words_of bad) }
{
    let [fact] = together else {
        return None;
    };
    if !fact.is_so {
        return None;
    }
    match fact.seen {
        Seen::Process(bad) if !is_of_moments(bad) => Some(bad),
        _ => None,
    }
}

/// Whether it is about any moment, and not about an item or an end.
fn is_of_moments(bad: Bad) -> bool {
    matches!(bad.what, What::Ready | What::Has { .. })
}

/// The facts with just these words, ` and ` between two of them; nothing where there are none.
fn read_together(alloc: Global, words: &str) -> Result<Option<Vec<Fact>>, AllocError>
    ensures { IfOk result (λ found. IfSome found
        (λ together. words.now ≡ together_words together.items)) }
{
    let mut together = Vec::new(alloc);
    for one in words.split(" and ") {
        let Some(fact) = guessed(one) else {
            return Ok(None);
        };
        together.push(fact)?;
    }
    let mut spelled = String::new(alloc);
    push_together(&mut spelled, &together)?;
    // each has one spelling
    if spelled.as_bytes() != words.as_bytes() {
        return Ok(None);
    }
    Ok(Some(together))
}

/// Adds the words of the facts, ` and ` between two of them. Where memory is refused, a beginning of them
/// may stand there.
pub fn push_together(text: &mut String, together: &[Fact]) -> Result<(), AllocError>
    ensures { OnOk result (string_bytes text.new
        ≡ string_bytes text.old ++ together_words together.now) }
{
    let [first, more @ ..] = together else {
        return Ok(());
    };
    first.push_words(text)?;
    push_further(text, more)
}

/// Adds the words of the facts, each behind ` and `.
fn push_further(text: &mut String, more: &[Fact]) -> Result<(), AllocError>
    ensures { OnOk result (string_bytes text.new
        ≡ string_bytes text.old ++ flat_map further_words more.now) }
{
    for fact in more {
        text.push_str(" and ")?;
        fact.push_words(text)?;
    }
    Ok(())
}
