//! Which word of a command line wasn't understood.

pub mod bad;
pub mod failing;

use crate::name::{Nearest, push_nearest};
use crate::text::Told;
use crate::text::Value::Word;
use std::alloc::Global;
use std::convert::AsStr;
use zl_command::{MOST_BAD, Numbers};

/// A command whose words are files, and perhaps options.
#[derive(Clone, Copy)]
struct Form {
    name: &'static str,
    /// How many files it takes, and which.
    count: usize,
    files: &'static str,
    options: &'static [Choice],
}

/// An option, and how often it may stand.
#[derive(Clone, Copy)]
struct Choice {
    name: &'static str,
    most: usize,
    takes: Takes,
}

/// What an option takes.
#[derive(Clone, Copy)]
enum Takes {
    /// One of these numbers.
    Number(Numbers),
    /// A word; what is said where there is none.
    Word(&'static str),
}

// Each option of a command by a line.
macro_rules! choices {
    ($($name:literal $most:tt $takes:expr;)*) => {
        [$(Choice { name: $name, most: $most, takes: $takes }),*]
    };
}

const OPTIONS_OF_RUN: [Choice; 3] = choices! {
    "--workers" 1 Takes::Number(Numbers::WORKERS);
    "--limit" 1 Takes::Number(Numbers::LIMIT);
    "--burst" 1 Takes::Number(Numbers::BURST);
};

const OPTIONS_OF_EXPLORE: [Choice; 4] = choices! {
    "--worlds" 1 Takes::Number(Numbers::WORLDS);
    "--bad" MOST_BAD Takes::Word("--bad takes WORDS, one word as '* blocked', and has none");
    "--part" 1 Takes::Word("--part takes K/N, one word as 2/4, and has none");
    "--from" 1 Takes::Number(Numbers::FROM);
};

// Each command by a line.
macro_rules! forms {
    ($($name:literal $count:literal $files:literal $options:expr;)*) => {
        [$(Form { name: $name, count: $count, files: $files, options: $options }),*]
    };
}

const FORMS: [Form; 6] = forms! {
    "asm" 2 "two files, IN and OUT" &[];
    "check" 1 "one file, IMAGE" &[];
    "step" 2 "two files, SCENARIO and SCHEDULE" &[];
    "replay" 2 "two files, SCENARIO and TRACE" &[];
    "run" 1 "one file, SCENARIO" &OPTIONS_OF_RUN;
    "explore" 1 "one file, SCENARIO" &OPTIONS_OF_EXPLORE;
};

/// What was met of the words behind a command.
#[derive(Clone, Copy)]
struct Met {
    files: usize,
    /// How often each option of the command was among them.
    options: [usize; 4],
    /// Whether a word `--` was among them.
    are_files: bool,
    /// The option whose word is the next one.
    open: Option<Choice>,
}

/// Adds which of the words, those behind the program's name, wasn't understood.
pub fn explain_words<S: AsStr>(hint: &mut String, alloc: Global, words: &[S]) {
    if push_words(hint, alloc, words).is_err() {
        hint.clear();
    }
}

fn push_words<S: AsStr>(hint: &mut String, alloc: Global, words: &[S]) -> Told {
    let [first, rest @ ..] = words else {
        return Ok(());
    };
    let word = first.as_str();
    for form in &FORMS {
        if form.name == word {
            return push_form(hint, alloc, form, rest);
        }
    }
    if word == "help" {
        return hint.push_str("help takes one of asm, check, step, replay, run and explore");
    }
    if word == "-" {
        return hint.push_str("standard input is read only by the form without words");
    }
    if word.starts_with('-') {
        return push_option(hint, alloc, word.as_bytes());
    }
    push_command(hint, alloc, word.as_bytes(), rest.is_empty())
}

/// Adds which option was meant by a word that is none. To one letter every other is near.
fn push_option(hint: &mut String, alloc: Global, word: &[u8]) -> Told {
    tell!(hint; "no option is called #", Word(word))?;
    if word.len() > 2 {
        push_nearest(hint, alloc, word, &["--help", "--version", "-h", "-V"])?;
    }
    Ok(())
}

/// Adds which command was meant by a word that is none; the word may be a scenario if it is alone.
fn push_command(hint: &mut String, alloc: Global, word: &[u8], is_alone: bool) -> Told {
    tell!(hint; "no command is called #", Word(word))?;
    let mut nearest = Nearest::new(alloc, word)?;
    for form in &FORMS {
        nearest.try_name(form.name)?;
    }
    nearest.try_name("help")?;
    nearest.push(hint)?;
    if is_alone {
        tell!(hint; "; a scenario comes by standard input: zlab < #", Word(word))?;
    }
    Ok(())
}

/// Adds what is wrong with the words behind the command: those behind a word `--` are files.
fn push_form<S: AsStr>(hint: &mut String, alloc: Global, form: &Form, words: &[S]) -> Told {
    let mut met = Met {
        files: 0,
        options: [0; 4],
        are_files: false,
        open: None,
    };
    for word in words {
        if push_wrong_word(hint, alloc, form, &mut met, word.as_str())? {
            return Ok(());
        }
    }
    push_missing(hint, form, met)
}

/// Adds what is wrong with the next word behind the command, if something is.
fn push_wrong_word(
    hint: &mut String,
    alloc: Global,
    form: &Form,
    met: &mut Met,
    word: &str,
) -> Told<bool> {
    let is_option = word.len() > 1 && word.starts_with('-');
    if let Some(option) = met.open {
        met.open = None;
        return push_wrong_value(hint, option, word, is_option);
    }
    if word == "--" && !met.are_files {
        met.are_files = true;
        return Ok(false);
    }
    if is_option && !met.are_files {
        return push_wrong_option(hint, alloc, form, met, word);
    }
    met.files = met.files.saturating_add(1);
    let is_beyond = met.files > form.count;
    if is_beyond {
        let next = if form.count == 1 { "second" } else { "third" };
        tell!(hint; "# takes #, and # is a # word",
            form.name, form.files, Word(word.as_bytes()), next)?;
    }
    Ok(is_beyond)
}

/// Adds what is wrong with an option, whose word may stand behind its name, if something is.
fn push_wrong_option(
    hint: &mut String,
    alloc: Global,
    form: &Form,
    met: &mut Met,
    word: &str,
) -> Told<bool> {
    for (option, count) in form.options.iter().zip(met.options.iter_mut()) {
        if let Some(rest) = behind_name(word, option.name) {
            *count = count.saturating_add(1);
            if *count > option.most {
                return push_often(hint, option);
            }
            if let Some(value) = rest.strip_prefix('=') {
                return push_wrong_value(hint, *option, value, false);
            }
            met.open = Some(*option);
            return Ok(false);
        }
    }
    push_no_option(hint, alloc, form, word.as_bytes())?;
    Ok(true)
}

/// What stands behind the name of the option, nothing or what begins with `=`, if the word is that option.
fn behind_name<'a>(word: &'a str, name: &str) -> Option<&'a str> {
    match word.strip_prefix(name) {
        Some(rest) if rest.is_empty() || rest.starts_with('=') => Some(rest),
        _ => None,
    }
}

/// Adds that the option stands once too often.
fn push_often(hint: &mut String, option: &Choice) -> Told<bool> {
    match option.most {
        1 => tell!(hint; "# stands twice", option.name)?,
        most => tell!(hint; "# stands more than # times", option.name, most)?,
    }
    Ok(true)
}

/// Adds which option of the command was meant by a word that is none.
fn push_no_option(hint: &mut String, alloc: Global, form: &Form, word: &[u8]) -> Told {
    tell!(hint; "# has no option #", form.name, Word(word))?;
    if word.len() <= 2 || form.options.is_empty() {
        return Ok(());
    }
    let mut nearest = Nearest::new(alloc, word)?;
    for option in form.options {
        nearest.try_name(option.name)?;
    }
    nearest.try_name("--help")?;
    nearest.push(hint)
}

/// Adds that the option doesn't take the word, if it doesn't. One that takes words takes no option among them.
fn push_wrong_value(hint: &mut String, option: Choice, word: &str, is_option: bool) -> Told<bool> {
    let Numbers { least, most } = match option.takes {
        Takes::Number(numbers) => numbers,
        Takes::Word(text) if is_option => {
            hint.push_str(text)?;
            return Ok(true);
        }
        Takes::Word(_) => return Ok(false),
    };
    if let Ok(number) = word.parse::<u64>() {
        if least <= number && number <= most {
            return Ok(false);
        }
    }
    tell!(hint; "# takes a number from # to #", option.name, least, most)?;
    if word.is_empty() {
        hint.push_str(", and has none")?;
    } else {
        tell!(hint; ", and # is none", Word(word.as_bytes()))?;
    }
    Ok(true)
}

/// Adds what is missing behind the command.
fn push_missing(hint: &mut String, form: &Form, met: Met) -> Told {
    if let Some(option) = met.open {
        push_wrong_value(hint, option, "", true)?;
        return Ok(());
    }
    if met.files < form.count || form.options.is_empty() {
        let found = if met.files == 0 { "none" } else { "one" };
        return tell!(hint; "# takes #, and has #", form.name, form.files, found);
    }
    match met.options {
        _ if form.name == "explore" => hint.push_str(
            "explore takes SCENARIO [--worlds N] [--bad WORDS].. [--part K/N] [--from D]",
        ),
        [0, ..] => push_no_number(hint, OPTIONS_OF_RUN[0], "N"),
        [_, 0, ..] => push_no_number(hint, OPTIONS_OF_RUN[1], "M"),
        _ => hint.push_str("run takes SCENARIO --workers N --limit M [--burst K]"),
    }
}

/// Adds that an option, whose number has this letter, is missing behind `run`.
fn push_no_number(hint: &mut String, option: Choice, letter: &'static str) -> Told {
    if let Takes::Number(Numbers { least, most }) = option.takes {
        tell!(hint; "run takes # #, # from # to #, and has none",
            option.name, letter, letter, least, most)?;
    }
    Ok(())
}
