//! The pieces that hints are put together from, and the one place where they are put together.
use grove_base::{Hint, NoMemory};
use serde_json::Value;
use std::alloc::Global;
use std::fmt;
use std::fmt::{Display, Formatter, Write};

/// What a text shown has room for: a letter beyond U+FFFF takes two places, as in JSON, and any other one.
const MOST_SHOWN: usize = 48;

/// What is told, as a hint.
pub(crate) fn hint_that<D: Display>(alloc: Global, told: &D) -> Result<Hint, NoMemory> {
    let told = told.to_string(alloc)?;
    Hint::new(alloc, &told)
}

/// A text in quotation marks, as JSON writes it, or its beginning.
#[derive(Clone, Copy)]
pub(crate) struct Quoted<'t>(pub &'t str);

impl Display for Quoted<'_> {
    fn fmt<W: Write>(&self, f: &mut Formatter<W>) -> fmt::Result {
        f.write_str("\"")?;
        let mut room = MOST_SHOWN;
        for letter in self.0.chars() {
            let Some(left) = room.checked_sub(letter.len_utf16()) else {
                return f.write_str("..\"");
            };
            write!(f, "{}", Letter(letter))?;
            room = left;
        }
        f.write_str("\"")
    }
}

/// A letter of a text, as JSON writes it by characters of ASCII alone.
#[derive(Clone, Copy)]
struct Letter(char);

impl Display for Letter {
    fn fmt<W: Write>(&self, f: &mut Formatter<W>) -> fmt::Result {
        let letter = self.0;
        match letter {
            '"' | '\\' => write!(f, "\\{letter}"),
            ' '..='~' => write!(f, "{letter}"),
            _ => {
                for unit in letter.encode_utf16(&mut [0; 2]).iter() {
                    write!(f, "\\u{unit:04x}")?;
                }
                Ok(())
            }
        }
    }
}

/// Words in quotation marks.
#[derive(Clone, Copy)]
pub(crate) struct Listed(pub &'static [&'static str]);

impl Display for Listed {
    fn fmt<W: Write>(&self, f: &mut Formatter<W>) -> fmt::Result {
        let last = self.0.len().saturating_sub(1);
        for (at, word) in self.0.iter().enumerate() {
            let between = match at {
                0 => "",
                _ if at == last => " and ",
                _ => ", ",
            };
            write!(f, "{between}\"{word}\"")?;
        }
        Ok(())
    }
}

/// That something resembles what stands there, if it does.
#[derive(Clone, Copy)]
pub(crate) struct Near<'t>(pub Option<Quoted<'t>>);

impl Display for Near<'_> {
    fn fmt<W: Write>(&self, f: &mut Formatter<W>) -> fmt::Result {
        match self.0 {
            Some(near) => write!(f, ", but {near}, which resembles it"),
            None => Ok(()),
        }
    }
}

/// What a value is, in words.
#[derive(Clone, Copy)]
pub(crate) struct Described<'v>(pub &'v Value);

impl Display for Described<'_> {
    fn fmt<W: Write>(&self, f: &mut Formatter<W>) -> fmt::Result {
        match self.0 {
            Value::String(text) => write!(f, "the string {}", Quoted(text)),
            Value::Array(items) => write!(f, "an array of length {}", items.len()),
            Value::Object(_) => f.write_str("an object"),
            value if is_minus_zero(value) => f.write_str("-0, which is read as a float"),
            value if value.is_f64() => {
                f.write_str("a number with a fraction or an exponent, or beyond 64 bits")
            }
            value => write!(f, "{value}"),
        }
    }
}

/// Is the value a zero with a minus sign? It has no fraction, and is a float all the same.
fn is_minus_zero(value: &Value) -> bool {
    matches!(value.as_f64(), Some(it) if it == 0.0 && it.is_sign_negative())
}
