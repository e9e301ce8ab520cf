ghost use Rattle.std.specs.Prelude.{◌≡◌};

use crate::answer::{Answer, Cause, Response};
use grove_base::{Hint, NoMemory};
use grove_hint::{Asked, awaited, hint, hint_of_no_table, oversight};
use grove_table::TableFault;
use grove_wire::{Fault, WireFault};
use grove_words::Command;
use serde_json::Value;
use std::alloc::Global;

/// What a person is told beside a command's answer: why its document is refused, or which of its members nothing uses.
/// `document` is what the bytes are read as. Without memory for it there is nothing.
pub fn hint_beside(
    alloc: Global,
    command: &Command<'_>,
    bytes: &[u8],
    document: Option<&Value>,
    answer: &Answer<'_>,
) -> Option<Hint> {
    let told = match (answer, document) {
        (
            Answer::Refused {
                cause: Cause::Document(fault),
                ..
            },
            _,
        ) => refusal_hint(alloc, command, bytes, document, *fault).map(|hint| Some(hint)),
        (
            Answer::Refused {
                cause: Cause::Table(fault),
                ..
            },
            _,
        ) => table_hint(alloc, bytes, fault).map(|hint| Some(hint)),
        (
            Answer::Refused {
                cause: Cause::Data(_),
                ..
            },
            _,
        ) => Ok(hint_of_answer(alloc, answer)),
        (Answer::Done(_), Some(Value::String(_))) => Ok(None),
        (Answer::Done(_), Some(document)) => {
            oversight(alloc, asked_by(command), bytes, document)
        }
        _ => Ok(None),
    };
    match told {
        Ok(hint) => hint,
        Err(NoMemory) => None,
    }
}

/// An answer, and beside it why a file of rounds is refused, if it is.
pub fn with_hint<'d>(alloc: Global, answer: Answer<'d>) -> Response<'d>
    ensures { result.answer ≡ answer.entry }
{
    let hint = hint_of_answer(alloc, &answer);
    Response { answer, hint }
}

fn hint_of_answer(alloc: Global, answer: &Answer<'_>) -> Option<Hint> {
    match answer {
        Answer::Refused {
            cause: Cause::Data(refusal),
            ..
        } => refusal.hint(alloc).ok(),
        _ => None,
    }
}

/// Why a document is refused.
fn refusal_hint(
    alloc: Global,
    command: &Command<'_>,
    bytes: &[u8],
    document: Option<&Value>,
    fault: Fault,
) -> Result<Hint, NoMemory> {
    match (command, fault) {
        (Command::Tree { .. }, Fault::Wire(WireFault::Shape(_))) => {
            match hint_of_no_table(alloc, bytes)? {
                Some(hint) => Ok(hint),
                None => Hint::new(alloc, "the table is not UTF-8"),
            }
        }
        (command, fault) => hint(alloc, asked_by(command), bytes, document, fault),
    }
}

/// Why a table is refused.
fn table_hint(alloc: Global, bytes: &[u8], fault: &TableFault) -> Result<Hint, NoMemory> {
    match hint_of_no_table(alloc, bytes)? {
        Some(hint) => Ok(hint),
        None => grove_table::hint(alloc, fault),
    }
}

/// That no command is named, and what is done then.
pub fn command_lacks(alloc: Global) -> Option<Hint> {
    let told = "no command is named, so this is \"judge\"; \"grove --help\" lists the commands";
    match Hint::new(alloc, told) {
        Ok(hint) => Some(hint),
        Err(NoMemory) => None,
    }
}

/// What a command's document is to be.
pub fn awaited_by(alloc: Global, command: &Command<'_>) -> Option<Hint> {
    let awaited = match command {
        Command::Tree { .. } => Hint::new(
            alloc,
            "\"tree\" reads lines of path,weight,value from standard input, up to their end (Ctrl-D)",
        ),
        command => awaited(alloc, asked_by(command)),
    };
    match awaited {
        Ok(hint) => Some(hint),
        Err(NoMemory) => None,
    }
}

fn asked_by(command: &Command<'_>) -> Asked {
    match command {
        Command::Judge => Asked::Judge,
        Command::Check => Asked::Check,
        Command::Plan { .. } => Asked::Plan,
        Command::Draw { .. } => Asked::Draw,
        Command::Run { .. } => Asked::Run,
        Command::Audit => Asked::Audit,
        Command::Serve(_) | Command::Page(_) => Asked::Serve,
        Command::Tree { .. } | Command::Table => Asked::Tree,
    }
}
