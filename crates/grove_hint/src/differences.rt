//! Where a value isn't of its form.
use crate::forms::{Form, length_of, may_lack};
use crate::likeness::{near_member, near_word};
use crate::places::{Spot, Subject};
use crate::shown::{Described, Listed, Near, Quoted};
use serde_json::Value;
use std::fmt;
use std::fmt::{Display, Formatter, Write};

/// A value that isn't of the form that it has to have.
#[derive(Clone, Copy)]
pub(crate) struct Misfit<'v> {
    pub subject: Subject<'v>,
    pub spot: Spot,
    pub form: Form,
    pub value: &'v Value,
}

impl<'v> Misfit<'v> {
    /// The first difference between the value and its form.
    pub(crate) fn difference<W: Write>(self, f: &mut Formatter<W>) -> fmt::Result {
        let (_, _, words) = self.form.words();
        match self.value.get(0) {
            _ if !self.form.is_kind_of(self.value) => unfit(f, self.spot, self.value, self.form),
            Some(first) => match first.as_str() {
                Some(word) if words.contains(&word) => self.in_parts(f, word),
                _ => self.wordless(f, first),
            },
            None => self.in_parts(f, ""),
        }
    }

    /// That the first item is none of the words that it has to be.
    fn wordless<W: Write>(self, f: &mut Formatter<W>, first: &Value) -> fmt::Result {
        let (noun, intro, words) = self.form.words();
        let near = near_word(self.subject.alloc, first.as_str().unwrap_or(""), words)?;
        match first {
            Value::String(word) => write!(f, "{}", Quoted(word))?,
            _ => write!(f, "the first item ({})", Described(first))?,
        }
        let (spot, words) = (self.spot, Listed(words));
        write!(f, " of {spot} is no {noun}{near}; {intro} {words}")
    }

    /// The first difference among members, or among the items after the word.
    fn in_parts<W: Write>(self, f: &mut Formatter<W>, word: &str) -> fmt::Result {
        let (spot, parts) = (self.spot, self.form.parts(word));
        for (at, (name, form)) in parts.iter().enumerate() {
            match self.part(at, name) {
                None if may_lack(name) => {}
                None => return self.missing(f, name),
                Some(part) if form.is_kind_of(part) => {}
                Some(part) => return self.unfit_part(f, name, part, *form),
            }
        }
        if length_of(self.value) > parts.len().saturating_add(1) {
            return write!(f, "{spot} has too many items");
        }
        let whole = self.subject.whole.noun();
        write!(
            f,
            "{spot} has a length, which is read only if the {whole} has \"version\":2"
        )
    }

    /// The member of this name, or the item at this place after the word.
    fn part(self, at: usize, name: &str) -> Option<&'v Value> {
        match self.value {
            Value::Array(items) => items.get(at.saturating_add(1)),
            object => object.get(name),
        }
    }

    /// That a part isn't what it has to be.
    fn unfit_part<W: Write>(
        self,
        f: &mut Formatter<W>,
        name: &str,
        part: &Value,
        form: Form,
    ) -> fmt::Result {
        let spot = self.spot;
        match self.value {
            Value::Array(_) => unfit(f, format_args!("the {name} of {spot}"), part, form),
            _ => unfit(f, format_args!("\"{name}\" of {spot}"), part, form),
        }
    }

    /// That a member or an item isn't there, with the member that seems to be meant for it.
    pub(crate) fn missing<W: Write>(self, f: &mut Formatter<W>, name: &str) -> fmt::Result {
        let near = near_member(self.subject.alloc, self.form, self.value, name)?;
        let (spot, near) = (self.spot, Near(near));
        match self.value {
            Value::Object(_) => write!(f, "{spot} has no member \"{name}\"{near}"),
            _ if name == "number" => write!(f, "{spot} has no number after its path"),
            _ => write!(f, "{spot} has no {name}"),
        }
    }
}

/// That what stands at a place isn't what it has to be.
fn unfit<W: Write, P: Display + Drop>(
    f: &mut Formatter<W>,
    place: P,
    value: &Value,
    form: Form,
) -> fmt::Result {
    let (found, wanted) = (Described(value), form.wanted());
    write!(f, "{place} is {found}, but has to be {wanted}")
}
