//! Bytes of another kind than those that are read: a document for a table, a table for a document, or UTF-16.
use crate::shown::hint_that;
use crate::syntax::Input;
use grove_base::{Hint, NoMemory};
use std::alloc::Global;
use std::fmt;
use std::fmt::{Display, Formatter, Write};

/// What bytes seem to be that are read as something else.
#[derive(Clone, Copy, Debug, PartialEq, Eq)]
pub(crate) enum Kind {
    /// A text in UTF-16.
    Utf16,
    /// A document of JSON.
    Document,
    /// A table.
    Table,
    /// A table with semicolons in place of commas.
    Semicolons,
    /// A table with tabs in place of commas.
    Tabs,
}

/// What a person is told of a table that is refused, if it seems to be of another kind.
pub fn hint_of_no_table(alloc: Global, bytes: &[u8]) -> Result<Option<Hint>, NoMemory> {
    match kind_for_table(bytes) {
        Some(kind) => {
            let input = Input::Table;
            Ok(Some(hint_that(alloc, &Mistaken { input, kind })?))
        }
        None => Ok(None),
    }
}

/// What bytes seem to be that are read as a table, if they seem to be of another kind.
fn kind_for_table(bytes: &[u8]) -> Option<Kind> {
    let line = first_line(bytes);
    if is_utf16(bytes) {
        Some(Kind::Utf16)
    } else if line.starts_with(b"{") || line.starts_with(b"[") {
        Some(Kind::Document)
    } else if line.contains(&b',') {
        None
    } else if line.contains(&b';') {
        Some(Kind::Semicolons)
    } else if line.contains(&b'\t') {
        Some(Kind::Tabs)
    } else {
        None
    }
}

/// What bytes seem to be that are read as JSON, if they seem to be of another kind.
pub(crate) fn kind_for_json(input: Input, bytes: &[u8]) -> Option<Kind> {
    if is_utf16(bytes) {
        Some(Kind::Utf16)
    } else if input == Input::Document && is_line_of_table(first_line(bytes)) {
        Some(Kind::Table)
    } else {
        None
    }
}

/// The mark with which a text in UTF-8 may begin.
const UTF8_MARK: &[u8] = b"\xef\xbb\xbf";

/// The first line that isn't blank, without blanks around it and without the mark of UTF-8.
fn first_line(bytes: &[u8]) -> &[u8] {
    let text = bytes
        .strip_prefix(UTF8_MARK)
        .unwrap_or(bytes)
        .trim_ascii_start();
    text.split(|byte| *byte == b'\n')
        .next()
        .unwrap_or(text)
        .trim_ascii_end()
}

/// Whether the bytes are UTF-16 by their mark, or by the zeros in their first two characters.
fn is_utf16(bytes: &[u8]) -> bool {
    match bytes {
        [0xff, 0xfe, ..] | [0xfe, 0xff, ..] => true,
        [0, second, 0, fourth, ..] => *second != 0 && *fourth != 0,
        [first, 0, third, 0, ..] => *first != 0 && *third != 0,
        _ => false,
    }
}

/// Whether a line is one of a table: it begins with a path, also in quotes, or is a header.
fn is_line_of_table(line: &[u8]) -> bool {
    match line {
        b"/" | b"path" => true,
        [b'"', b'/', ..] => true,
        [b'/', next, ..] => is_in_table(*next),
        [b'p', b'a', b't', b'h', next, ..] => matches!(next, b',' | b';' | b'\t'),
        _ => false,
    }
}

/// Whether a byte may follow the first slash of a line of a table.
fn is_in_table(byte: u8) -> bool {
    matches!(byte, b'a'..=b'z' | b'0'..=b'9' | b'_' | b'-' | b',' | b';' | b'\t')
}

/// An input that seems to be of another kind.
#[derive(Clone, Copy)]
pub(crate) struct Mistaken {
    pub input: Input,
    pub kind: Kind,
}

impl Display for Mistaken {
    fn fmt<W: Write>(&self, f: &mut Formatter<W>) -> fmt::Result {
        let input = self.input;
        match self.kind {
            Kind::Utf16 => write!(f, "{input} is in UTF-16, but has to be in UTF-8"),
            Kind::Document => write!(
                f,
                "{input} is a JSON document; \"tree --csv\" reads those, and \"tree\" lines of path,weight,value"
            ),
            Kind::Table => write!(
                f,
                "{input} is a table and no JSON; \"tree\" without --csv reads tables, and makes documents of them"
            ),
            Kind::Semicolons => between_fields(f, "semicolons"),
            Kind::Tabs => between_fields(f, "tabs"),
        }
    }
}

/// That the fields of a table are parted by something else than commas.
fn between_fields<W: Write>(f: &mut Formatter<W>, found: &str) -> fmt::Result {
    write!(
        f,
        "the first line has {found} between its fields, which have to be commas, as in path,weight,value"
    )
}
