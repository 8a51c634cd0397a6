//! What the program says on standard error: one line, where the status is neither that of a text
//! that was written nor that of a refusal.
use cany_command::MOST_TEXT_BYTES;
use cany_command::status::{NO_MEMORY, OTHER_WORDS, READ_FAULT, TOO_LONG, WRITE_FAULT};
use cany_crew::status::HELD;
use std::alloc::{AllocError, Global};

/// The longest argument that a line repeats.
const MOST_SHOWN_BYTES: usize = 40;

pub(crate) const NOT_TEXT: &str = "canely: an argument is not valid UTF-8\n";

/// Whether a line can repeat an argument: it is short, and has no control character that would end
/// the line.
fn is_plain(arg: &str) -> bool {
    arg.len() <= MOST_SHOWN_BYTES && arg.as_bytes().iter().all(is_shown)
}

fn is_shown(byte: &u8) -> bool {
    byte.is_ascii_graphic()
}

/// An argument in quotes, with a space before it, or nothing where a line cannot repeat it.
fn quoted(alloc: Global, arg: &str) -> Result<String, AllocError> {
    if is_plain(arg) {
        format!(in alloc; " '{arg}'")
    } else {
        Ok(String::new(alloc))
    }
}

fn of_command(alloc: Global, arg: &str) -> Result<String, AllocError> {
    let shown = quoted(alloc, arg)?;
    format!(in alloc; "canely: unknown command{shown}; see canely --help\n")
}

/// A command that takes one argument: its name, what the argument is, and the form that it has to
/// have.
struct TakesOne {
    command: &'static str,
    argument: &'static str,
    form: &'static str,
}

const STORM: TakesOne = TakesOne {
    command: "storm",
    argument: "number",
    form: "1 to 10 digits, at most 4294967295",
};

const WATCH: TakesOne = TakesOne {
    command: "watch",
    argument: "node",
    form: "1 or 2 digits",
};

/// What is wrong with the arguments after such a command.
fn of_one(alloc: Global, takes: &TakesOne, rest: &[String]) -> Result<String, AllocError> {
    let command = takes.command;
    let argument = takes.argument;
    match rest {
        [] => format!(in alloc; "canely: {command} needs a {argument}; see canely --help\n"),
        [arg] => {
            let shown = quoted(alloc, arg.as_str())?;
            let form = takes.form;
            format!(in alloc; "canely: invalid {argument}{shown}: {command} takes {form}\n")
        }
        _ => format!(in alloc; "canely: {command} takes one {argument} alone; see canely --help\n"),
    }
}

/// What is wrong with the arguments after a command that takes none: one may be the file that was
/// to be read.
fn of_reader(alloc: Global, command: &str, rest: &[String]) -> Result<String, AllocError> {
    match rest {
        [file] => {
            let shown = if is_plain(file.as_str()) {
                file.as_str()
            } else {
                "FILE"
            };
            format!(in alloc;
                "canely: {command} reads the scenario from standard input: canely {command} < {shown}\n"
            )
        }
        _ => format!(in alloc; "canely: {command} takes no arguments; see canely --help\n"),
    }
}

/// What the arguments after `media` have to be.
const OF_MEDIA: &str =
    "canely: media takes faults of lines, as 0:5-9:down or 1:5-9:split:0,2; see canely --help\n";

/// What is wrong with arguments that the program does not take.
fn of_args(alloc: Global, args: &[String]) -> Result<String, AllocError> {
    match args {
        [] => String::from_str(alloc, "canely: no command given; see canely --help\n"),
        [arg, rest @ ..] => match arg.as_str() {
            "storm" => of_one(alloc, &STORM, rest),
            "media" => String::from_str(alloc, OF_MEDIA),
            "watch" => of_one(alloc, &WATCH, rest),
            "replay" | "check" | "run" | "replica" | "tail" => of_reader(alloc, arg.as_str(), rest),
            "--help" | "-h" | "help" | "--version" => {
                format!(in alloc; "canely: {arg} takes no arguments; see canely --help\n")
            }
            _ => of_command(alloc, arg.as_str()),
        },
    }
}

fn of_length(alloc: Global) -> Result<String, AllocError> {
    format!(in alloc; "canely: the scenario has more than {MOST_TEXT_BYTES} bytes\n")
}

/// The line for a status that has details, where there is memory for it.
pub(crate) fn in_detail(alloc: Global, status: u8, args: &[String]) -> Option<String> {
    match status {
        OTHER_WORDS => of_args(alloc, args).ok(),
        TOO_LONG => of_length(alloc).ok(),
        _ => None,
    }
}

/// The line for a status that takes no memory.
pub(crate) fn in_general(status: u8) -> Option<&'static str> {
    match status {
        OTHER_WORDS => Some("canely: unknown command or wrong arguments; see canely --help\n"),
        READ_FAULT => Some("canely: cannot read the scenario from standard input\n"),
        WRITE_FAULT => Some("canely: cannot write to standard output\n"),
        NO_MEMORY => Some("canely: out of memory\n"),
        TOO_LONG => Some("canely: the scenario is too long\n"),
        HELD => Some("canely: a gate held the run\n"),
        _ => None,
    }
}
