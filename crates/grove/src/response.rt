use grove_answer::Refusal;
use grove_wire::{WireFault, read_document, read_tree};
use std::alloc::{AllocError, Global};

/// How the first line of a response begins.
pub const HTTP_BEGINS: &str = "HTTP/1.";

/// What a person is told of each refusal.
const NOT_HTTP: &str =
    "what came is no response of HTTP; save asks \"grove page\" at its port, or \"grove serve\" at that of --http";

const NO_DOCUMENT: &str =
    "the server answers by this status and sends no document; is it \"grove page\", or \"grove serve\" with --http?";

const BAD_LENGTH: &str = "the response says no length of its document, or another one than came";

const NO_TREE: &str = "what the server sent is no document with a tree";

/// Why a response has no document.
#[derive(Drop)]
pub enum NoDocument {
    /// It is another response, or none of HTTP: the fault, and what a person is told of it.
    Refused { fault: String, why: &'static str },
    /// It ends before its length.
    Cut,
    /// A growth was refused.
    Memory,
}

impl From<AllocError> for NoDocument {
    fn from(_error: AllocError) -> NoDocument {
        NoDocument::Memory
    }
}

/// The document that is the body of a response.
pub fn document_in<'a>(alloc: Global, response: &'a [u8]) -> Result<&'a [u8], NoDocument> {
    let Some((head, body)) = parts_of(response) else {
        return Err(refused(alloc, "not-http", NOT_HTTP));
    };
    let Some(status) = status_in(head) else {
        return Err(refused(alloc, "not-http", NOT_HTTP));
    };
    if status != "200" {
        return Err(refused(alloc, &format!(in alloc; "status {status}")?, NO_DOCUMENT));
    }
    match length_in(head) {
        Some(length) if length == body.len() => {}
        Some(length) if length > body.len() => return Err(NoDocument::Cut),
        _ => return Err(refused(alloc, "bad-length", BAD_LENGTH)),
    }
    see_document(alloc, body)?;
    Ok(body)
}

/// Sees that the bytes are a document with a tree.
fn see_document(alloc: Global, body: &[u8]) -> Result<(), NoDocument> {
    let document = match read_document(alloc, body) {
        Ok(document) => document,
        Err(fault) => return Err(no_document(alloc, fault)),
    };
    match read_tree(alloc, &document) {
        Ok(_) => Ok(()),
        Err(fault) => Err(no_document(alloc, fault)),
    }
}

fn no_document(alloc: Global, fault: WireFault) -> NoDocument {
    match Refusal::of_wire(alloc, &fault) {
        Refusal::Fault { text, .. } => NoDocument::Refused {
            fault: text.into_string(),
            why: NO_TREE,
        },
        Refusal::Memory => NoDocument::Memory,
    }
}

fn refused(alloc: Global, fault: &str, why: &'static str) -> NoDocument {
    match String::from_str(alloc, fault) {
        Ok(fault) => NoDocument::Refused { fault, why },
        Err(_) => NoDocument::Memory,
    }
}

/// The text of a response before its empty line, and the bytes after that.
fn parts_of(response: &[u8]) -> Option<(&str, &[u8])> {
    let end = response
        .windows(4)
        .position(|four| four == b"\r\n\r\n".as_slice())?;
    let (head, rest) = response.split_at_checked(end)?;
    let (_, body) = rest.split_at_checked(4)?;
    Some((str::from_utf8(head).ok()?, body))
}

/// The status of a response, by its first line.
fn status_in(head: &str) -> Option<&str> {
    let (version, rest) = head.split_once(' ')?;
    let status = rest.split([' ', '\r']).next()?;
    let is_number = status.len() == 3 && status.bytes().all(|byte| byte.is_ascii_digit());
    if is_number && version.starts_with(HTTP_BEGINS) {
        Some(status)
    } else {
        None
    }
}

/// The length that a response says its body has, if it says one.
fn length_in(head: &str) -> Option<usize> {
    for line in head.split("\r\n").skip(1) {
        if let Some((name, value)) = line.split_once(':') {
            if name.eq_ignore_ascii_case("content-length") {
                return value.trim().parse::<usize>().ok();
            }
        }
    }
    None
}
