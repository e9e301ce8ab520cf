//! Members that stand twice in one object, of which only the last one is read.
use crate::asked::Asked;
use crate::forms::Form;
use json::{Reader, Scratch, Token};
use std::alloc::{AllocError, Global};
use std::fmt::{Display, Formatter, Write};
use std::{fmt, str};

/// The most members that an object has that is read.
const MOST_MEMBERS: usize = 9;

/// A member that stands twice.
#[derive(Clone, Copy)]
pub(crate) struct Repeated {
    name: &'static str,
    form: Form,
    /// The place of its object among the items of its part, if it is one of them.
    at: usize,
}

impl Display for Repeated {
    fn fmt<W: Write>(&self, f: &mut Formatter<W>) -> fmt::Result {
        let (name, at) = (self.name, self.at);
        write!(f, "\"{name}\" of ")?;
        match self.form {
            Form::Row => write!(f, "nodes {at}")?,
            Form::FlowRow => write!(f, "flow {at}")?,
            Form::Job => write!(f, "jobs {at}")?,
            Form::Standing => f.write_str("standing")?,
            _ => f.write_str("the document")?,
        }
        f.write_str(" stands twice; the last one counts")
    }
}

/// The first member that stands twice in an object of a document, if the command reads it.
pub(crate) fn repeated_in(
    alloc: Global,
    asked: Asked,
    bytes: &[u8],
) -> Result<Option<Repeated>, AllocError> {
    let Ok(text) = str::from_utf8(bytes) else {
        return Ok(None);
    };
    let mut scratch = Scratch::new(alloc);
    let mut reader = Reader::new(text, &mut scratch)?;
    Ok(repeated_by(&mut reader, asked, text.len()))
}

/// The first one among so many tokens.
fn repeated_by(reader: &mut Reader<'_>, asked: Asked, tokens: usize) -> Option<Repeated> {
    let mut walk = Walk::new(asked);
    for _ in 0..tokens {
        match reader.next()? {
            Token::BeginObject | Token::BeginArray => walk.enter(),
            Token::EndObject | Token::EndArray => walk.leave(),
            Token::Key(name) => {
                if let Some(repeated) = walk.meet(name) {
                    return Some(repeated);
                }
            }
            _ => {}
        }
    }
    None
}

/// Where in a document the reader is, and which members it has met.
#[derive(Clone, Copy)]
struct Walk {
    asked: Asked,
    depth: usize,
    /// The form of the objects in the member of the document at which the reader is, and how deep they lie.
    inner: Option<(Form, usize)>,
    /// How many items of the member have ended.
    ended: usize,
    /// Which members of the document were met, by their places in its form.
    met: [bool; MOST_MEMBERS],
    /// Which members of the object in the member.
    met_inside: [bool; MOST_MEMBERS],
}

impl Walk {
    fn new(asked: Asked) -> Walk {
        Walk {
            asked,
            depth: 0,
            inner: None,
            ended: 0,
            met: [false; MOST_MEMBERS],
            met_inside: [false; MOST_MEMBERS],
        }
    }

    /// An object or an array begins.
    fn enter(&mut self) {
        self.depth = self.depth.saturating_add(1);
        if matches!(self.inner, Some((_, depth)) if depth == self.depth) {
            self.met_inside = [false; MOST_MEMBERS];
        }
    }

    /// An object or an array ends.
    fn leave(&mut self) {
        if matches!(self.inner, Some((_, depth)) if depth == self.depth) {
            self.ended = self.ended.saturating_add(1);
        }
        self.depth = self.depth.saturating_sub(1);
    }

    /// A member begins: what is to be told of it, if it was met before.
    fn meet(&mut self, name: &str) -> Option<Repeated> {
        if self.depth == 1 {
            let known = self.asked.read_member(name);
            self.inner = inner_of(known.unwrap_or(""));
            self.ended = 0;
            return met_twice(&mut self.met, Form::Document, known?, 0);
        }
        match self.inner {
            Some((form, depth)) if depth == self.depth => {
                met_twice(&mut self.met_inside, form, name, self.ended)
            }
            _ => None,
        }
    }
}

/// The form of the objects in a member of a document, and how deep they lie.
fn inner_of(name: &str) -> Option<(Form, usize)> {
    match name {
        "nodes" => Some((Form::Row, 3)),
        "flow" => Some((Form::FlowRow, 3)),
        "jobs" => Some((Form::Job, 3)),
        "standing" => Some((Form::Standing, 2)),
        _ => None,
    }
}

/// Notes that a member of a form is met, and tells if it was met before.
fn met_twice(
    met: &mut [bool; MOST_MEMBERS],
    form: Form,
    name: &str,
    at: usize,
) -> Option<Repeated> {
    for (place, (known, _)) in form.parts("").iter().enumerate() {
        if *known == name {
            let before = met.get_mut(place)?;
            if *before {
                return Some(Repeated {
                    name: *known,
                    form,
                    at,
                });
            }
            *before = true;
        }
    }
    None
}
