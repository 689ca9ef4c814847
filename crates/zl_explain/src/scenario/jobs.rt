//! The faults of the statement `policy`, and of the job that a line names.

use crate::name::Nearest;
use crate::scenario::faulty::Faulty;
use crate::text::Told;
use crate::text::Value::Word;
use zl_rights::Kind;
use zl_scenario::{Cause, number};

/// Adds why the policy of the line can't be set.
pub fn push_policy(hint: &mut String, faulty: &Faulty) -> Told {
    let text = if matches!(faulty.cause, Cause::BadState) {
        "a job or process is made in job # above this line; its policy is set before that"
    } else {
        "the policy of job # has another action for #, set above or in the job it was made in"
    };
    tell!(hint; text, Word(faulty.word(1)), Word(faulty.word(2)))
}

/// Adds that the word at this place of a policy is the name of no condition, or of no action.
pub fn push_no_policy(hint: &mut String, faulty: &Faulty, place: usize) -> Told {
    let word = faulty.word(place);
    if place != 2 {
        return tell!(hint; "no action is called #; the actions are ALLOW, DENY and KILL", Word(word));
    }
    tell!(hint; "no condition is called #", Word(word))?;
    let mut nearest = Nearest::new(faulty.alloc, word)?;
    nearest.try_conditions()?;
    nearest.push(hint)
}

/// Adds that the first word behind the name of the statement names no job, and what it names if that is
/// something else.
pub fn push_no_job(hint: &mut String, faulty: &Faulty) -> Told {
    let job = faulty.word(1);
    match faulty.kind_of(number(job).unwrap_or(0)) {
        Some(kind) => tell!(hint; "# isn't a job, but of the kind #", Word(job), kind.name())?,
        None => tell!(hint; "there is no job # above this line", Word(job))?,
    }
    hint.push_str("; job 1 is the root job")?;
    match faulty.count(Kind::Job) {
        1 => hint.push_str(", and the only one"),
        _ => Ok(()),
    }
}
