ghost use Rattle.std.specs.Prelude.{◌≤◌, All, IfOk, length, string_bytes};
ghost use Rattle.grove_base.specs.Hints.{IsPrintable, IsSaid};

use crate::NoMemory;
use std::alloc::Global;

/// The greatest number of characters that are said.
const MOST: usize = 400;

/// The text as one that can stand in a line: what can't be shown is shown as `?`, what is too long is cut off, and an
/// empty one is a `?`.
pub fn said(alloc: Global, text: &str) -> Result<String, NoMemory>
    ensures { IfOk result (λ said. IsSaid (string_bytes said)) }
{
    let printable = printable(alloc, text)?;
    if printable.is_empty() {
        Ok(String::from_str(alloc, "?")?)
    } else {
        Ok(printable)
    }
}

/// The text's beginning, with a `?` for each character that can't be shown.
fn printable(alloc: Global, text: &str) -> Result<String, NoMemory>
    ensures printable { IfOk result (λ said. All IsPrintable (string_bytes said)) }
    ensures short { IfOk result (λ said. length (string_bytes said) ≤ 400) }
{
    let mut said = String::new(alloc);
    for letter in text.chars() {
        if said.len() >= MOST {
            break;
        }
        said.push(shown(letter))?;
    }
    Ok(said)
}

fn shown(letter: char) -> char
    ensures { IsPrintable result }
{
    match letter {
        ' '..='~' => letter,
        _ => '?',
    }
}
