ghost use Rattle.std.specs.Prelude.{◌≡◌, ◌≤◌, IfOk};
ghost use Rattle.serde_json.specs.Data.{depth};
ghost use Rattle.serde_json.specs.View.{view};
ghost use Rattle.grove_wire.specs.Outcomes.{Gives};
ghost use Rattle.grove_words.specs.declared.order.Order.TheVariants.{Do};
ghost use Rattle.grove.specs.Answers.{most_bytes, IsAsGoodAs};
ghost use Rattle.grove.specs.Outcomes.{document_for, text_of_table, utf8_text};
ghost use Rattle.grove.specs.Runs.{HasFile};

use crate::answer::Stop;
use crate::explained::Explained;
use crate::failure::Failure;
use crate::file_source::FileSource;
use grove_serve::Host;
use grove_session::{ReadFault, Source, read_whole};
use grove_wire::{
    MOST_BYTES, MOST_HISTORY_BYTES, Part, Place, WireFault, read_document, read_history,
};
use grove_words::{Command, Document};
use serde_json::Value;
use std::alloc::Global;
use std::fs;
use std::rt::Files;

/// Where a fault of a whole text is.
const WHOLE: Place = Place {
    part: Part::Whole,
    at: None,
    item: None,
};

/// The bytes of a command's document, which are one too many if it is too long.
pub fn document_bytes<R: Host + Files, I: Source>(
    rt: &R,
    command: &Command<'_>,
    document: Document<'_>,
    input: &mut I,
) -> Result<Vec<u8>, Stop>
    ensures read { IfOk result
        (λ bytes. IsAsGoodAs command.now document.entry (I.remaining input.old) bytes.items) }
    ensures apart { HasFile (Do command.now document.entry) → input.new ≡ input.old }
{
    let most = most_bytes(command);
    match document {
        Document::Named(name) => file_bytes(rt, name, most),
        Document::StandardInput => Ok(read_whole(rt.alloc(), input, most)?),
    }
}

/// How many bytes a command's document has at most.
fn most_bytes(command: &Command<'_>) -> usize
    ensures most { result ≡ most_bytes command.now }
    ensures few { result ≤ 67108864 }
{
    match command {
        Command::Audit => MOST_HISTORY_BYTES,
        _ => MOST_BYTES,
    }
}

pub fn file_bytes<R: Host + Files>(rt: &R, name: &str, most: usize) -> Result<Vec<u8>, Stop>
    requires { most ≤ 67108864 }
{
    let file = match fs::open(rt, name) {
        Ok(file) => file,
        Err(error) => return Err(Failure::Open(error).stop()),
    };
    let mut source = FileSource::new(file);
    match read_whole(rt.alloc(), &mut source, most) {
        Ok(bytes) => Ok(bytes),
        Err(ReadFault::Device) => Err(Stop::Device(source.error().map(Failure::Read))),
        Err(ReadFault::Memory) => Err(Stop::Memory),
    }
}

/// The document that the bytes are for a command.
#[tactic(auto, using(grove_wire::proofs::Levels::shallow_document, grove_wire::proofs::Levels::shallow_history, crate::proofs::TextLevels::shallow_text))]
pub fn read_for(alloc: Global, command: &Command<'_>, bytes: &[u8]) -> Result<Value, WireFault>
    ensures read { Gives (λ document. view document) result (document_for command.now bytes.now) }
    ensures shallow { IfOk result (λ document. depth (view document) ≤ 127) }
{
    match command {
        Command::Audit => read_history(alloc, bytes),
        Command::Tree { .. } => read_text(alloc, bytes),
        _ => read_document(alloc, bytes),
    }
}

/// The text that is to be a table.
fn read_text(alloc: Global, bytes: &[u8]) -> Result<Value, WireFault>
    ensures { Gives (λ document. view document) result (text_of_table bytes.now) }
{
    if bytes.len() > MOST_BYTES {
        return Err(WireFault::Limit(WHOLE));
    }
    read_utf8(alloc, bytes)
}

/// The text that bytes are.
#[tactic(auto, using(crate::proofs::Texts::text_read, crate::proofs::Texts::text_refused))]
fn read_utf8(alloc: Global, bytes: &[u8]) -> Result<Value, WireFault>
    ensures { Gives (λ document. view document) result (utf8_text bytes.now) }
{
    match str::from_utf8(bytes) {
        Ok(text) => match String::from_str(alloc, text) {
            Ok(text) => Ok(Value::String(text)),
            Err(_) => Err(WireFault::Memory),
        },
        Err(_) => Err(WireFault::Shape(WHOLE)),
    }
}
