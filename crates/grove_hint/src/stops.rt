//! Where a text that is no JSON stops being JSON, and what may come there.
use json::{Reader, Scratch, Token};
use serde_json::Value;
use std::alloc::{AllocError, Global};

/// How deep values may nest.
const MOST_NESTED: usize = 127;

/// How far a text is JSON, without a look at how large its numbers are.
#[derive(Clone, Copy)]
struct Read {
    /// Is what it begins with a value?
    is_value: bool,
    /// Where that ends or breaks off.
    end: usize,
}

/// What a reading by tokens meets first.
#[derive(Clone, Copy)]
enum Met {
    /// The number that begins there is too large, or what begins there is no token.
    Refused(usize),
    /// The token that begins there is the last one before the break.
    Last(usize),
    /// There is no such token.
    Nothing,
}

/// Where the text, which is no JSON, stops being JSON.
pub(crate) fn stop_in(alloc: Global, text: &str) -> Result<usize, AllocError> {
    let read = read_in(alloc, text)?;
    match met_in(alloc, text, read)? {
        Met::Refused(begun) => Ok(begun),
        Met::Last(begun) => longest_begun(alloc, text, begun, read.end),
        Met::Nothing if read.is_value => Ok(before_mark(text, read.end)),
        Met::Nothing => Ok(text.len()),
    }
}

/// How far the text is JSON.
fn read_in(alloc: Global, text: &str) -> Result<Read, AllocError> {
    let mut scratch = Scratch::new(alloc);
    let mut reader = Reader::new(text, &mut scratch)?;
    let is_value = reader.skip_value(MOST_NESTED).is_ok();
    let end = reader.offset();
    Ok(Read { is_value, end })
}

/// What is met in the text, which is JSON so far.
fn met_in(alloc: Global, text: &str, read: Read) -> Result<Met, AllocError> {
    let mut scratch = Scratch::new(alloc);
    let mut reader = Reader::new(text, &mut scratch)?;
    Ok(met_by(&mut reader, text.len(), read))
}

/// What the reader meets within so many tokens.
fn met_by(reader: &mut Reader<'_>, tokens: usize, read: Read) -> Met {
    for _ in 0..tokens {
        let begun = reader.offset();
        match reader.next() {
            Some(Token::Number(number)) if is_too_large(number) => return Met::Refused(begun),
            Some(Token::Bad) if !read.is_value => return Met::Refused(begun),
            Some(_) if !read.is_value && reader.offset() >= read.end => return Met::Last(begun),
            Some(_) => {}
            None => break,
        }
    }
    Met::Nothing
}

/// The longest front that JSON may begin with: with the last token and the mark behind it, with the token, or without.
fn longest_begun(alloc: Global, text: &str, begun: usize, end: usize) -> Result<usize, AllocError> {
    for at in [end, before_mark(text, end)] {
        if begins_json(alloc, text.get(..at).unwrap_or(text))? {
            return Ok(at);
        }
    }
    Ok(begun)
}

/// The place, or that of the comma or colon before it, which the reader has passed.
fn before_mark(text: &str, at: usize) -> usize {
    match text.as_bytes().get(..at).unwrap_or(&[]).trim_ascii_end() {
        [front @ .., b',' | b':'] => front.len(),
        _ => at,
    }
}

/// May this follow the text, as far as that is JSON?
pub(crate) fn may_follow(alloc: Global, text: &str, begun: &str) -> Result<bool, AllocError> {
    let text = format!(in alloc; "{text} {begun}")?;
    begins_json(alloc, &text)
}

/// Is the text JSON, or does it only end too early?
fn begins_json(alloc: Global, text: &str) -> Result<bool, AllocError> {
    match Value::from_str(alloc, text) {
        Ok(_) => Ok(true),
        Err(error) if error.is_memory() => Err(AllocError),
        Err(error) => Ok(error.is_eof()),
    }
}

/// Is the number beyond all floats?
pub(crate) fn is_too_large(number: &str) -> bool {
    matches!(number.as_bytes(), [.., b'0'..=b'9'])
        && matches!(number.parse::<f64>(), Ok(it) if it.is_infinite())
}
