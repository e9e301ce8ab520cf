//! Why bytes are no JSON: the kit's reader tells where they stop being JSON, and serde_json what may come there.
use crate::kinds::{Mistaken, kind_for_json};
use crate::shown::{Quoted, hint_that};
use crate::stops::{is_too_large, may_follow, stop_in};
use grove_base::{Hint, NoMemory};
use serde_json::Error;
use std::alloc::{AllocError, Global};
use std::fmt::{Display, Formatter, Write};
use std::{fmt, str};

/// What may come next in JSON, each with how it may begin.
static NEXT: [(&str, &str); 6] = [
    ("a value", "0"),
    ("a name in double quotes", "\"\":"),
    ("a colon", ":"),
    ("a comma", ","),
    ("]", "]"),
    ("}", "}"),
];

/// What the bytes are.
#[derive(Clone, Copy, Debug, PartialEq, Eq)]
pub(crate) enum Input {
    Document,
    Table,
    Line,
}

impl Display for Input {
    fn fmt<W: Write>(&self, f: &mut Formatter<W>) -> fmt::Result {
        f.write_str(match self {
            Input::Document => "the document",
            Input::Table => "the table",
            Input::Line => "the line",
        })
    }
}

/// Bytes that are no JSON.
#[derive(Clone, Copy)]
pub(crate) struct NoJson<'b> {
    alloc: Global,
    input: Input,
    bytes: &'b [u8],
    error: Error,
}

impl<'b> NoJson<'b> {
    /// The bytes, and the error that they gave as JSON.
    pub(crate) fn new(alloc: Global, input: Input, bytes: &'b [u8], error: Error) -> NoJson<'b> {
        NoJson {
            alloc,
            input,
            bytes,
            error,
        }
    }

    /// Why they are no JSON.
    pub(crate) fn hint(self) -> Result<Hint, NoMemory> {
        if self.error.is_memory() {
            return Err(NoMemory);
        }
        hint_that(self.alloc, &self)
    }

    /// Why the text is no JSON, and where.
    fn broken<W: Write>(self, f: &mut Formatter<W>, text: &str) -> fmt::Result {
        let at = stop_in(self.alloc, text)?;
        let (front, rest) = text.split_at_checked(at).unwrap_or((text, ""));
        self.place(f, front)?;
        let stop = Stop {
            input: self.input,
            is_cut: self.error.is_eof(),
            awaited: awaited_after(self.alloc, front)?,
            front,
            rest,
        };
        stop.reason(f)
    }

    /// The place at which the front ends, by its line and column, from 1.
    fn place<W: Write>(self, f: &mut Formatter<W>, front: &str) -> fmt::Result {
        let line = front.matches('\n').count().saturating_add(1);
        let last = front.rsplit('\n').next().unwrap_or(front);
        let column = last.chars().count().saturating_add(1);
        match self.input {
            Input::Line => write!(f, "column {column}: "),
            Input::Document | Input::Table => write!(f, "line {line}, column {column}: "),
        }
    }
}

impl Display for NoJson<'_> {
    fn fmt<W: Write>(&self, f: &mut Formatter<W>) -> fmt::Result {
        let input = self.input;
        if let Some(kind) = kind_for_json(input, self.bytes) {
            return write!(f, "{}", Mistaken { input, kind });
        }
        if self.bytes.starts_with(b"\xef\xbb\xbf") {
            return write!(
                f,
                "{input} begins with a byte-order mark, which JSON has none of; save it as UTF-8 without one"
            );
        }
        if self.bytes.trim_ascii().is_empty() {
            return write!(f, "{input} is empty");
        }
        match str::from_utf8(self.bytes) {
            Ok(text) => self.broken(f, text),
            Err(_) => {
                self.place(f, front_in(self.bytes))?;
                f.write_str("what begins there isn't UTF-8")
            }
        }
    }
}

/// The text that the bytes begin with.
fn front_in(bytes: &[u8]) -> &str {
    match bytes.utf8_chunks().next() {
        Some(chunk) => chunk.valid(),
        None => "",
    }
}

/// What may come next, of the six things that there are.
#[derive(Clone, Copy)]
struct Awaited([bool; 6]);

impl Awaited {
    fn has_value(self) -> bool {
        self.0[0]
    }

    fn has_name(self) -> bool {
        self.0[1]
    }

    fn is_empty(self) -> bool {
        !self.0.contains(&true)
    }
}

impl Display for Awaited {
    fn fmt<W: Write>(&self, f: &mut Formatter<W>) -> fmt::Result {
        let mut between = "";
        for at in 0..6 {
            if self.0[at] {
                let (what, _) = NEXT[at];
                write!(f, "{between}{what}")?;
                between = " or ";
            }
        }
        Ok(())
    }
}

/// What may come after the text.
fn awaited_after(alloc: Global, text: &str) -> Result<Awaited, AllocError> {
    let mut awaited = [false; 6];
    for at in 0..6 {
        let (_, begun) = NEXT[at];
        awaited[at] = may_follow(alloc, text, begun)?;
    }
    Ok(Awaited(awaited))
}

/// Where reading stops.
#[derive(Clone, Copy)]
struct Stop<'t> {
    input: Input,
    /// May the text only end too early?
    is_cut: bool,
    awaited: Awaited,
    front: &'t str,
    rest: &'t str,
}

impl Stop<'_> {
    /// Why reading stops there.
    fn reason<W: Write>(self, f: &mut Formatter<W>) -> fmt::Result {
        let (input, awaited, end) = (self.input, self.awaited, self.end());
        match self.rest.chars().next() {
            _ if awaited.is_empty() => write!(f, "expected the end of {input}"),
            None => write!(f, "{input} ends early: expected {awaited}{end}"),
            Some('"') if self.is_cut => {
                write!(f, "the string that begins there isn't closed{end}")
            }
            Some('"') if awaited.has_value() || awaited.has_name() => broken_text(f, self.rest),
            Some(letter) => self.strange(f, letter),
        }
    }

    /// Why this letter may not come there.
    fn strange<W: Write>(self, f: &mut Formatter<W>, letter: char) -> fmt::Result {
        let awaited = self.awaited;
        let told = match letter {
            '[' | '{' if awaited.has_value() => "values nest 128 deep there",
            ']' | '}' if self.front.trim_ascii_end().ends_with(',') => {
                "no comma is allowed before a closing bracket"
            }
            '\'' => "strings and names are in double quotes",
            '/' | '#' => "JSON has no comments",
            '\u{80}'.. => "a character that isn't ASCII is outside of a string; quotes are \"",
            'a'..='z' | 'A'..='Z' | '0'..='9' | '+' | '-' | '.' if awaited.has_value() => {
                return no_value(f, word_of(self.rest));
            }
            '!'..='~' => return write!(f, "expected {awaited}, but found {letter}"),
            _ => return write!(f, "expected {awaited}"),
        };
        f.write_str(told)
    }

    /// What is said of the end of the input.
    fn end(self) -> &'static str {
        match self.input {
            Input::Document | Input::Table => "",
            Input::Line => "; a request is one line",
        }
    }
}

/// A word or a number that is no value.
fn no_value<W: Write>(f: &mut Formatter<W>, word: &str) -> fmt::Result {
    let shown = Quoted(word);
    match word.chars().next() {
        _ if is_too_large(word) => write!(f, "the number {shown} is too large"),
        Some('a'..='z' | 'A'..='Z') => write!(
            f,
            "{shown} is no value: strings are in double quotes, and the literals are null, true and false"
        ),
        _ => write!(
            f,
            "{shown} is no number of JSON: no + before it, no 0 before another digit, \
             and digits on both sides of a point"
        ),
    }
}

/// A text that has in it what none may have, or isn't closed on its line.
fn broken_text<W: Write>(f: &mut Formatter<W>, text: &str) -> fmt::Result {
    let line = text.split('\n').next().unwrap_or(text);
    f.write_str(if line.matches('"').count() < 2 {
        "the string that begins there isn't closed on its line"
    } else {
        "the string that begins there has a tab or another control character in it, or a \\ \
         that isn't followed by one of \" \\ / b f n r t, or by u and four digits of a character"
    })
}

/// The word or number that the text begins with.
fn word_of(text: &str) -> &str {
    let marks = [
        ' ', '\t', '\n', '\u{c}', '\r', ',', ':', '[', ']', '{', '}', '"',
    ];
    text.split(marks).next().unwrap_or(text)
}
