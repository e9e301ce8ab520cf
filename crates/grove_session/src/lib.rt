//! Sessions, which answer the lines of a source to a sink; and devices, what bytes are read from and written to, over
//! memory and over std's readers and writers.
#![tactic(auto)]

pub use answers::{AnswerFault, Answers, LINE_LIMIT};
pub use bytes_sink::BytesSink;
pub use bytes_source::BytesSource;
pub use fault::{DeviceFault, ReadFault};
pub use laws::line_laws;
pub use reader_source::ReaderSource;
pub use session_fault::SessionFault;
pub use sessions::{MOST_READS, session};
pub use sink::Sink;
pub use source::Source;
pub use whole::{read_whole, write_whole};
pub use writer_sink::WriterSink;

mod answers;
mod bytes_sink;
mod bytes_source;
mod fault;
mod intake;
mod laws;
mod open_line;
mod reader_source;
mod session_fault;
mod sessions;
mod sink;
mod source;
mod whole;
mod writer_sink;
