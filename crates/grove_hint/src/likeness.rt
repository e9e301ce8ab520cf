//! Names that are likely meant to be others.
use crate::asked::Asked;
use crate::forms::{Form, items_of};
use crate::shown::Quoted;
use serde_json::Value;
use std::alloc::{AllocError, Global};
use std::fmt;
use std::fmt::{Display, Formatter, Write};
use strsim::osa_distance;

/// How many members each row of a tree has.
const NEEDED: usize = 3;

/// Is the name likely meant to be the wanted one? It is where only its letters' cases differ, and where few letters are
/// wrong, missing, too many or exchanged with the next: one in three, at most.
pub(crate) fn resembles(alloc: Global, wanted: &str, name: &str) -> Result<bool, AllocError> {
    let most = wanted.len() / 3;
    if name == wanted || name.len().abs_diff(wanted.len()) > most {
        return Ok(false);
    }
    if name.eq_ignore_ascii_case(wanted) {
        return Ok(true);
    }
    Ok(osa_distance(alloc, wanted, name)? <= most)
}

/// The first of the words that a text resembles.
pub(crate) fn near_word(
    alloc: Global,
    text: &str,
    words: &[&'static str],
) -> Result<NearWord, AllocError> {
    for word in words {
        if resembles(alloc, word, text)? {
            return Ok(NearWord(Some(*word)));
        }
    }
    Ok(NearWord(None))
}

/// That a text resembles a word, where it does.
#[derive(Clone, Copy)]
pub(crate) struct NearWord(Option<&'static str>);

impl Display for NearWord {
    fn fmt<W: Write>(&self, f: &mut Formatter<W>) -> fmt::Result {
        match self.0 {
            Some(word) => write!(f, ", but resembles \"{word}\""),
            None => Ok(()),
        }
    }
}

/// The first member of an object that resembles the wanted one, where that isn't there, and whose name the form doesn't
/// know.
pub(crate) fn near_member<'v>(
    alloc: Global,
    form: Form,
    object: &'v Value,
    wanted: &str,
) -> Result<Option<Quoted<'v>>, AllocError> {
    let members = match object {
        Value::Object(members) if members.get(wanted).is_none() => members,
        _ => return Ok(None),
    };
    for (name, _) in members {
        if !form.has_member(name) && resembles(alloc, wanted, name)? {
            return Ok(Some(Quoted(name)));
        }
    }
    Ok(None)
}

/// A member that nothing uses and that resembles one that would be used.
#[derive(Clone, Copy)]
pub(crate) struct Stray<'v> {
    near: Quoted<'v>,
    /// The row of which it is a member, if it isn't one of the document.
    row: Option<usize>,
    wanted: &'static str,
}

impl Display for Stray<'_> {
    fn fmt<W: Write>(&self, f: &mut Formatter<W>) -> fmt::Result {
        let (near, wanted) = (self.near, self.wanted);
        match self.row {
            Some(row) => write!(
                f,
                "nothing uses {near} of nodes {row}, which resembles \"{wanted}\""
            ),
            None => write!(
                f,
                "nothing uses {near} of the document, which resembles \"{wanted}\""
            ),
        }
    }
}

/// The first member that nothing uses and that resembles one that the command would use, but that isn't there.
pub(crate) fn stray_member(
    alloc: Global,
    asked: Asked,
    document: &Value,
) -> Result<Option<Stray<'_>>, AllocError> {
    let (_, names) = asked.reads();
    for names in [asked.may_read(), names] {
        if let Some(stray) = stray_among(alloc, names, document)? {
            return Ok(Some(stray));
        }
    }
    stray_value(alloc, items_of(document.get("nodes")))
}

/// The first member of a document that resembles one of these names.
fn stray_among<'v>(
    alloc: Global,
    names: &'static [&'static str],
    document: &'v Value,
) -> Result<Option<Stray<'v>>, AllocError> {
    for wanted in names {
        if let Some(near) = near_member(alloc, Form::Document, document, wanted)? {
            let (row, wanted) = (None, *wanted);
            return Ok(Some(Stray { near, row, wanted }));
        }
    }
    Ok(None)
}

/// The first member of a row that nothing uses and that resembles its value.
fn stray_value(alloc: Global, rows: &[Value]) -> Result<Option<Stray<'_>>, AllocError> {
    let wanted = "value";
    for (at, row) in rows.iter().enumerate() {
        if !has_more(row) {
            continue;
        }
        if let Some(near) = near_member(alloc, Form::Row, row, wanted)? {
            let row = Some(at);
            return Ok(Some(Stray { near, row, wanted }));
        }
    }
    Ok(None)
}

/// Has a row of a tree more members than it needs?
fn has_more(row: &Value) -> bool {
    match row {
        Value::Object(members) => members.len() > NEEDED,
        _ => false,
    }
}
