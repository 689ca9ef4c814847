//! The lines that make a statement or open a part.
ghost use Rattle.std.specs.Prelude.{◌≡◌, ◌&&◌, [], ◌∷◌, map, codes};
ghost use Rattle.zl_asm.specs.Words.{is_word};
ghost use Rattle.zl_rights.specs.Signals.{is_empty};
ghost use Rattle.std.specs.Option.{option_map};
ghost use Rattle.zl_scenario.specs.Numbers.{number_of};
ghost use Rattle.zl_scenario.specs.Handles.{handles_of};
ghost use Rattle.zl_rights.specs.Names.{condition_named};
ghost use Rattle.zl_scenario.specs.Scenario.{at, Statements, action_named, body_named, mark_named, job_said, object_named, policy_said, process_said, limit_said, object_said, statement_said};
ghost use Rattle.zl_scenario.specs.Reading.{part_with, body_with, Tells, Keeps};

use crate::body::{Body, Form};
use crate::cause::Cause;
use crate::draft::Draft;
use crate::fault::Fault;
use crate::faulty::{no_handle, no_number, no_opening, no_policy};
use crate::handles::read_handles;
use crate::numbers::number;
use crate::part::Part;
use crate::words::is;
use std::alloc::Global;
use zl_code::{Boot, Statement};
use zl_rights::{Action, Condition};

/// Reads the words of a line that stands among the statements, and answers what the next line
/// belongs to. Where that is a block, `body` is empty.
#[tactic(auto, unfolding(crate::specs::Scenario::statement_said))]
pub fn read_statement(
    draft: &mut Draft,
    body: &mut Body,
    alloc: Global,
    line: u64,
    words: &[&[u8]],
) -> Result<Part, Fault>
    ensures answer { Tells result (λ next. at draft.new (part_with body.new next))
        (statement_said line draft.old (map (λ word. word.now) words.now)) }
    ensures unchanged { Keeps result draft.old draft.new }
{
    match words {
        [] => Ok(Part::Statements),
        [name] if is(name, b"--") => {
            draft.open_schedule(line);
            Ok(Part::Schedule)
        }
        [name] => {
            read_object(draft, line, name)?;
            Ok(Part::Statements)
        }
        [name, value] => {
            read_pair(draft, line, name, value)?;
            Ok(Part::Statements)
        }
        [name, mark, form] => {
            let (Some(checked), Some(form)) = (mark_of(name, mark), form_of(form)) else {
                return Err(Fault::at(Cause::Syntax, Some(no_opening(name, mark))));
            };
            body.open(form);
            Ok(Part::Block {
                opened: line,
                checked,
            })
        }
        [name, job, program, word, handles @ ..] => {
            read_long(draft, alloc, line, name, job, program, word, handles)?;
            Ok(Part::Statements)
        }
    }
}

/// Reads a line of one name.
fn read_object(draft: &mut Draft, line: u64, name: &[u8]) -> Result<(), Fault>
    ensures answer { Tells result (λ _. draft.new)
        (object_said line draft.old (object_named name.now)) }
    ensures unchanged { Keeps result draft.old draft.new }
{
    let Some(statement) = object_named(name) else {
        return Err(Fault::at(Cause::Syntax, Some(0)));
    };
    draft.push_statement(line, statement)?;
    Ok(())
}

/// Reads a line of a name, three words and perhaps more.
#[tactic(auto, unfolding(crate::specs::Scenario::statement_said))]
fn read_long(
    draft: &mut Draft,
    alloc: Global,
    line: u64,
    name: &[u8],
    job: &[u8],
    program: &[u8],
    word: &[u8],
    handles: &[&[u8]],
) -> Result<(), Fault>
    ensures answer { Tells result (λ _. at draft.new Statements)
        (statement_said line draft.old (name.now ∷ job.now ∷ program.now ∷ word.now
        ∷ map (λ word. word.now) handles.now)) }
    ensures unchanged { Keeps result draft.old draft.new }
{
    if is_policy(name, handles) {
        read_policy(draft, line, job, program, word)?;
        return Ok(());
    }
    if is(name, b"process") {
        read_process(draft, alloc, line, job, program, word, handles)?;
        return Ok(());
    }
    Err(Fault::at(Cause::Syntax, Some(0)))
}

/// Reads a line of a name and one number.
#[tactic(auto, unfolding(crate::specs::Scenario::statement_said))]
fn read_pair(draft: &mut Draft, line: u64, name: &[u8], value: &[u8]) -> Result<(), Fault>
    ensures answer { Tells result (λ _. at draft.new Statements)
        (statement_said line draft.old (name.now ∷ value.now ∷ [])) }
    ensures unchanged { Keeps result draft.old draft.new }
{
    if is(name, b"limit") {
        read_limit(draft, value)?;
        return Ok(());
    }
    if is(name, b"job") {
        read_job(draft, line, value)?;
        return Ok(());
    }
    Err(Fault::at(Cause::Syntax, Some(0)))
}

/// Whether a line of this name, with these words behind its first four, is a policy.
fn is_policy(name: &[u8], more: &[&[u8]]) -> bool
    ensures { result ≡ (is_word name.now (codes "policy")
        && is_empty (map (λ word. word.now) more.now)) }
{
    if !is(name, b"policy") {
        return false;
    }
    match more {
        [] => true,
        _ => false,
    }
}

/// The statement that stands for itself, if the word is one.
#[tactic(auto, unfolding(crate::specs::Scenario::object_named))]
fn object_named(name: &[u8]) -> Option<Statement>
    ensures { result ≡ object_named name.now }
{
    if is(name, b"event") {
        Some(Statement::Event)
    } else if is(name, b"port") {
        Some(Statement::Port)
    } else if is(name, b"channel") {
        Some(Statement::Channel)
    } else if is(name, b"eventpair") {
        Some(Statement::Eventpair)
    } else {
        None
    }
}

/// Whether the program whose block these words open is marked as checked, if they open one.
#[tactic(auto, unfolding(crate::specs::Scenario::mark_named))]
fn mark_of(name: &[u8], mark: &[u8]) -> Option<bool>
    ensures { result ≡ mark_named name.now mark.now }
{
    if !is(name, b"program") {
        return None;
    }
    if is(mark, b"raw") {
        Some(false)
    } else if is(mark, b"checked") {
        Some(true)
    } else {
        None
    }
}

/// The form of this name, if it is one.
#[tactic(auto, unfolding(crate::specs::Scenario::body_named))]
fn form_of(form: &[u8]) -> Option<Form>
    ensures { option_map (λ form. body_with form [] []) result ≡ body_named form.now }
{
    if is(form, b"hex") {
        Some(Form::Hex)
    } else if is(form, b"asm") {
        Some(Form::Asm)
    } else {
        None
    }
}

#[tactic(auto, unfolding(crate::specs::Scenario::process_said))]
fn read_process(
    draft: &mut Draft,
    alloc: Global,
    line: u64,
    job: &[u8],
    program: &[u8],
    word: &[u8],
    handles: &[&[u8]],
) -> Result<(), Fault>
    ensures answer { Tells result (λ _. draft.new)
        (process_said line draft.old (number_of job.now) (number_of program.now)
        (number_of word.now) (handles_of (map (λ word. word.now) handles.now))) }
    ensures unchanged { Keeps result draft.old draft.new }
{
    let (Some(job), Some(program), Some(word)) = (number(job), number(program), number(word)) else {
        return Err(Fault::at(Cause::Syntax, no_number(&[job, program, word], 1)));
    };
    let Some(handles) = read_handles(alloc, handles)? else {
        return Err(Fault::at(Cause::Syntax, no_handle(handles)));
    };
    if program >= draft.programs() as u64 {
        return Err(Fault::at(Cause::Unknown, Some(2)));
    }
    let statement = Statement::Process {
        job,
        program,
        word,
        handles,
    };
    draft.push_statement(line, statement)?;
    Ok(())
}

#[tactic(auto, unfolding(crate::specs::Scenario::job_said))]
fn read_job(draft: &mut Draft, line: u64, parent: &[u8]) -> Result<(), Fault>
    ensures answer { Tells result (λ _. draft.new)
        (job_said line draft.old (number_of parent.now)) }
    ensures unchanged { Keeps result draft.old draft.new }
{
    let Some(parent) = number(parent) else {
        return Err(Fault::at(Cause::Syntax, Some(1)));
    };
    draft.push_statement(line, Statement::Job { parent })?;
    Ok(())
}

#[tactic(auto, unfolding(crate::specs::Scenario::policy_said))]
fn read_policy(
    draft: &mut Draft,
    line: u64,
    job: &[u8],
    condition: &[u8],
    action: &[u8],
) -> Result<(), Fault>
    ensures answer { Tells result (λ _. draft.new)
        (policy_said line draft.old (number_of job.now) (condition_named condition.now)
        (action_named action.now)) }
    ensures unchanged { Keeps result draft.old draft.new }
{
    let (Some(job), Some(condition), Some(action)) = (
        number(job),
        Condition::named(condition),
        action_named(action),
    ) else {
        return Err(Fault::at(Cause::Syntax, Some(no_policy(job, condition))));
    };
    let statement = Statement::Policy {
        job,
        condition,
        action,
    };
    draft.push_statement(line, statement)?;
    Ok(())
}

/// The action of this name, if one has it.
#[tactic(auto, unfolding(crate::specs::Scenario::action_named))]
fn action_named(name: &[u8]) -> Option<Action>
    ensures { result ≡ action_named name.now }
{
    if is(name, b"ALLOW") {
        Some(Action::Allow)
    } else if is(name, b"DENY") {
        Some(Action::Deny)
    } else if is(name, b"KILL") {
        Some(Action::Kill)
    } else {
        None
    }
}

#[tactic(auto, unfolding(crate::specs::Scenario::limit_said))]
fn read_limit(draft: &mut Draft, most: &[u8]) -> Result<(), Fault>
    ensures answer { Tells result (λ _. draft.new) (limit_said draft.old (number_of most.now)) }
    ensures unchanged { Keeps result draft.old draft.new }
{
    let Some(limit) = number(most) else {
        return Err(Fault::at(Cause::Syntax, Some(1)));
    };
    if limit > Boot::MOST_ITEMS {
        return Err(Fault::at(Cause::Limit, Some(1)));
    }
    draft.set_limit(limit);
    Ok(())
}
