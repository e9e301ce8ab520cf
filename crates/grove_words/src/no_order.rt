ghost use Rattle.std.specs.Prelude.{◌≢◌, [], IfOk, string_bytes};
ghost use Rattle.grove_words.specs.NoOrders.{HasText, TellsWrong};

use crate::definitions::command_named;
use crate::tips::{said_plainly, tip_for};
use clap::Error;
use clap::error::ErrorKind;
use std::alloc::{AllocError, Global};

/// Why words are no order.
#[derive(Debug, Drop)]
pub enum NoOrder {
    /// They ask for help or the version: lines that say it.
    Shown(String),
    /// They are wrong: lines that say what is wrong with them.
    Wrong(String),
    /// A growth was refused.
    Memory,
}

/// What words that aren't text are told.
pub fn not_text(alloc: Global) -> NoOrder
    ensures { TellsWrong result }
{
    match not_text_lines(alloc) {
        Ok(lines) => NoOrder::Wrong(lines),
        Err(AllocError) => NoOrder::Memory,
    }
}

fn not_text_lines(alloc: Global) -> Result<String, AllocError>
    ensures { IfOk result (λ lines. string_bytes lines ≢ []) }
{
    let error = wrong(alloc, "", "an argument of the command line is not UTF-8")?;
    lines_of(alloc, &error, &[])
}

/// What the words of a command are told that clap takes, and that are no order all the same, with how the command is
/// used. No word stands for words of which nobody knows the command.
pub fn wrong(alloc: Global, word: &str, message: &str) -> Result<Error, AllocError> {
    command_named(alloc, word)?.error(ErrorKind::InvalidValue, message)
}

/// What clap says to words that are no order: the help that they ask for, or what is wrong with them, and then a tip.
pub fn no_order(alloc: Global, error: &Error, words: &[String]) -> NoOrder
    ensures { HasText result }
{
    if error.kind() == ErrorKind::OutOfMemory {
        return NoOrder::Memory;
    }
    match lines_of(alloc, error, words) {
        Ok(lines) => {
            if error.use_stderr() {
                NoOrder::Wrong(lines)
            } else {
                NoOrder::Shown(lines)
            }
        }
        Err(AllocError) => NoOrder::Memory,
    }
}

/// The error's text, said plainly and with just one line end behind it, and then the tip for the words, if there is
/// one.
fn lines_of(alloc: Global, error: &Error, words: &[String]) -> Result<String, AllocError>
    ensures { IfOk result (λ lines. string_bytes lines ≢ []) }
{
    let text = format!(in alloc; "{error}")?;
    let tip = tip_for(words, &text);
    let text = said_plainly(alloc, &text)?;
    format!(in alloc; "{}\n{tip}", text.trim_end())
}
