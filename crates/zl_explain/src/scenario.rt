//! The faults of a scenario and its schedule.

mod checked;
mod faulty;
mod handles;
mod jobs;
pub mod numbers;
pub mod source;
mod starts;

use crate::again::{form_of, is_opening, place_of_blank, place_outside_ascii};
use crate::name::{Nearest, push_nearest};
use crate::page::{Page, push_page};
use crate::program::block::push_block_fault;
use crate::scenario::checked::push_refused_block;
use crate::scenario::faulty::Faulty;
use crate::scenario::handles::{push_no_handle, push_no_object, push_wrong_handles};
use crate::scenario::jobs::{push_no_job, push_no_policy, push_policy};
use crate::scenario::numbers::{push_names, push_no_number};
use crate::scenario::source::Source;
use crate::text::Value::Word;
use crate::text::{Told, plural, push_head, push_odd_byte};
use std::alloc::Global;
use zl_asm::words::is;
use zl_code::{Boot, Statement};
use zl_rights::Kind;
use zl_scenario::{Cause, Form, PlacedFault, number};

/// What is told of a line that has more words than its name.
const ALONE: &str = "# stands alone on its line";

/// The names of statements and lines, and what is told of one that has too many words or too few.
const STATEMENTS: [(&str, &str); 11] = [
    (
        "process",
        "# takes 3 words, JOB PROGRAM WORD, and handles behind them, and has #",
    ),
    (
        "program",
        "# takes 2 words, raw or checked, and hex or asm, and has #",
    ),
    ("event", ALONE),
    ("port", ALONE),
    ("channel", ALONE),
    ("eventpair", ALONE),
    ("job", "# takes 1 word, PARENT, and has #"),
    ("policy", "# takes 3 words, JOB CONDITION ACTION, and has #"),
    ("limit", "# takes 1 word, N, and has #"),
    ("end", "# closes the block of a program, and none is open"),
    ("--", ALONE),
];

/// Adds a line that says why the scenario is refused, whose answer has this fault.
pub fn explain_scenario(
    hint: &mut String,
    alloc: Global,
    source: Source,
    input: &[u8],
    fault: &PlacedFault,
) {
    let told = match Faulty::new(alloc, source, input, fault) {
        Ok(faulty) => push_fault(hint, &faulty),
        Err(refused) => Err(refused),
    };
    if told.is_err() {
        hint.clear();
    }
}

fn push_fault(hint: &mut String, faulty: &Faulty) -> Told {
    let (words, cause) = (faulty.words.as_slice(), faulty.cause);
    let opens = !faulty.is_in_schedule() && is_opening(words);
    match cause {
        _ if faulty.number == 0 => {
            push_head(hint, 0, cause.name())?;
            hint.push_str("the input has more than 4194304 bytes")?;
            push_page(hint, Page::Line(cause))?;
        }
        Cause::Check if opens => push_refused_block(hint, faulty)?,
        Cause::Syntax | Cause::Program if opens => {
            push_block_fault(hint, faulty.alloc, &faulty.lines, faulty.number, words)?;
            push_page(hint, page_of_block(words, cause))?;
        }
        _ => push_line_fault(hint, faulty)?,
    }
    hint.push_str("\n")
}

/// The page that helps with a block, which these words open.
fn page_of_block(words: &[&[u8]], cause: Cause) -> Page {
    match (form_of(words), cause) {
        (Form::Hex, Cause::Program) => Page::Image,
        (Form::Asm, Cause::Program) => Page::Text,
        _ => Page::Line(cause),
    }
}

/// Adds what is wrong with a line that is no line of a block.
fn push_line_fault(hint: &mut String, faulty: &Faulty) -> Told {
    faulty
        .source
        .push_place(hint, &faulty.lines, faulty.number)?;
    tell!(hint; "#: ", faulty.cause.name())?;
    let (line, is_turns) = (faulty.bytes(), faulty.is_in_schedule());
    match place_outside_ascii(line).or(place_of_blank(line)) {
        Some(place) => push_odd_byte(hint, line, place)?,
        None => {
            if is_turns {
                push_turns(hint, faulty)?;
            } else {
                push_statement(hint, faulty)?;
            }
            push_comment(hint, &faulty.words)?;
        }
    }
    let page = if is_turns {
        Page::Turns
    } else {
        Page::Line(faulty.cause)
    };
    push_page(hint, page)
}

/// Adds where a comment begins, if one of the words begins as one does, here or elsewhere.
fn push_comment(hint: &mut String, words: &[&[u8]]) -> Told {
    for word in words {
        if word.starts_with(b"#") {
            return hint.push_str("; # begins a comment only as the first byte of a line");
        }
        if word.contains(&b';') || word.starts_with(b"//") {
            return hint.push_str("; a comment begins with # here, as the first byte of its line");
        }
    }
    Ok(())
}

fn push_statement(hint: &mut String, faulty: &Faulty) -> Told {
    match (faulty.place, faulty.statement()) {
        (Some(0), _) => push_wrong_name(hint, faulty),
        (Some(place), _) => push_wrong_word(hint, faulty, place),
        (None, Some(statement)) => push_refused(hint, faulty, statement),
        (None, None) => hint.push_str(if is(faulty.word(0), b"--") {
            "-- begins a schedule, and run and replay take none"
        } else {
            "a scenario has at most 256 programs"
        }),
    }
}

/// What is told of a line of this name that has too many words or too few, if it is one's name.
fn told_of(name: &[u8]) -> Option<&'static str> {
    let mut all = STATEMENTS.iter();
    let (_, told) = all.find(|(known, _)| known.as_bytes() == name)?;
    Some(*told)
}

/// Adds what is wrong where no statement of so many words has the name.
fn push_wrong_name(hint: &mut String, faulty: &Faulty) -> Told {
    let name = faulty.word(0);
    if let Some(told) = told_of(name) {
        let count = faulty.words.len().saturating_sub(1);
        return tell!(hint; told, Word(name), count);
    }
    tell!(hint; "no statement is called #", Word(name))?;
    if name.starts_with(b"@") {
        return push_names(hint);
    }
    if number(name).is_none() {
        let mut nearest = Nearest::new(faulty.alloc, name)?;
        for (known, _) in STATEMENTS {
            nearest.try_name(known)?;
        }
        return nearest.push(hint);
    }
    hint.push_str("; turns stand below a line --")?;
    let is_bare = faulty.above.scenario.library.is_empty() && faulty.above.objects.len() == 1;
    if faulty.source.has_files && is_bare {
        hint.push_str("; is SCENARIO the first word?")?;
    }
    Ok(())
}

/// Whether the word is one of the names.
pub fn is_among(word: &[u8], names: &[&str]) -> bool {
    names.iter().any(|name| name.as_bytes() == word)
}

/// Adds what is wrong with the word at this place, behind the name of the statement.
fn push_wrong_word(hint: &mut String, faulty: &Faulty, place: usize) -> Told {
    let (name, word) = (faulty.word(0), faulty.word(place));
    let is_process = is(name, b"process");
    match (faulty.cause, place) {
        (Cause::Unknown, _) => push_no_program(hint, word, faulty.above.scenario.library.len()),
        (Cause::Limit, _) => tell!(hint; "the limit is #, and at most 1000000", Word(word)),
        (_, 1) if is(name, b"limit") => push_no_number(hint, "N", word),
        (_, 1) if is(name, b"job") => push_no_number(hint, "PARENT", word),
        (_, 1) if is_process || is(name, b"policy") => push_no_number(hint, "JOB", word),
        (_, 2) if is_process => push_no_number(hint, "PROGRAM", word),
        (_, 3) if is_process => push_no_number(hint, "WORD", word),
        _ if is_process => push_no_handle(hint, word),
        _ if is(name, b"policy") => push_no_policy(hint, faulty, place),
        _ => push_no_opening(hint, faulty, place),
    }
}

/// Adds that there is no program of this number, and how many there are.
fn push_no_program(hint: &mut String, program: &[u8], programs: usize) -> Told {
    let text = match programs {
        0 => "there is no program # above this line; there is none at all",
        1 => "there is no program # above this line; there is one, 0",
        _ => "there is no program # above this line; there are #, counted from 0",
    };
    tell!(hint; text, Word(program), programs)
}

/// Adds that the word at this place of a line that opens a block is no mark or no form.
fn push_no_opening(hint: &mut String, faulty: &Faulty, place: usize) -> Told {
    let word = faulty.word(place);
    let (text, names) = match place {
        1 => ("a program is raw or checked, and not #", ["raw", "checked"]),
        _ => (
            "a program is written in hex or asm, and not #",
            ["hex", "asm"],
        ),
    };
    tell!(hint; text, Word(word))?;
    push_nearest(hint, faulty.alloc, word, &names)
}

/// Adds why the statement of the line can't be done.
fn push_refused(hint: &mut String, faulty: &Faulty, statement: &Statement) -> Told {
    match (faulty.cause, statement) {
        (Cause::Limit, _) => push_too_many(hint, faulty, statement),
        (Cause::NeedDenied, _) => {
            hint.push_str("the job doesn't allow what the checked program needs")
        }
        (Cause::Unknown, Statement::Process { job, handles, .. })
            if faulty.kind_of(*job) == Some(Kind::Job) => {
            push_no_object(hint, faulty, handles.as_slice())
        }
        (Cause::Unknown, _) => push_no_job(hint, faulty),
        (
            _,
            Statement::Process {
                program,
                handles,
                ..
            },
        ) => push_wrong_handles(hint, faulty, *program, handles.as_slice()),
        _ => push_policy(hint, faulty),
    }
}

/// Adds of what there is too much for the statement: processes, levels of jobs or objects.
fn push_too_many(hint: &mut String, faulty: &Faulty, statement: &Statement) -> Told {
    let last = faulty.above.objects.len();
    match statement {
        Statement::Process { .. } if faulty.count(Kind::Process) >= Boot::MOST_PROCESSES => {
            hint.push_str("a scenario starts at most 64 processes")
        }
        Statement::Job { .. } if (last as u64) < Boot::MOST_KOIDS => {
            tell!(hint; "job # stands at the depth 16, and no job is made below it; job 1 has the depth 1",
                Word(faulty.word(1)))
        }
        _ => {
            tell!(hint; "a scenario gives koids up to 1024, and # are given; a channel or an event pair takes two",
                last)
        }
    }
}

/// Adds what is wrong with the words of a line of the schedule.
fn push_turns(hint: &mut String, faulty: &Faulty) -> Told {
    match faulty.words.as_slice() {
        [name] if is(name, b"--") => push_second_dashes(hint, faulty),
        [name, ..] if told_of(name).is_some() => {
            tell!(hint; "# stands below the line --, where only turns do", Word(name))
        }
        [pid, _] if faulty.place == Some(0) => push_no_number(hint, "PID", pid),
        [_, count] if number(count).is_none() => push_no_number(hint, "COUNT", count),
        [_, count] => tell!(hint; "COUNT is #, and at most 1000000 in one line", Word(count)),
        words => {
            let count = words.len();
            tell!(hint; "a line of turns has 2 words, PID COUNT; this one has # word#",
                count, plural(count))
        }
    }
}

/// Adds where the line `--` stands that comes before this one.
fn push_second_dashes(hint: &mut String, faulty: &Faulty) -> Told {
    let dashes = faulty.above.scenario.schedule_line.unwrap_or(0);
    let joint = faulty.source.joint(&faulty.lines);
    let text = if faulty.number == joint {
        "SCENARIO has a schedule already (line #): zlab < FILE runs it"
    } else if dashes == joint {
        "a second --; the first is put between both files"
    } else {
        "a second --; the first is in line #"
    };
    tell!(hint; text, dashes)
}
