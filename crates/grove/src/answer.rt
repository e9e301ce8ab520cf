use crate::data_refusal::DataRefusal;
use crate::failure::Failure;
use crate::round_keeper::{KeptFile, RoundKeeper};
use grove_base::Hint;
use grove_serve::Service;
use grove_session::ReadFault;
use grove_table::TableFault;
use grove_wire::Fault;
use std::alloc::{AllocError, AllocFailed};

/// What a command says of a document, made whole before any of it is printed.
#[derive(Drop)]
pub enum Answer<'d> {
    /// The command is done: lines for standard output, status 0.
    Done(String),
    /// The document is refused: a line for standard output, status 1, and what it is for.
    Refused {
        line: String,
        cause: Cause,
    },
    /// A port is listened on: the line that says so, for standard output, and what is served there.
    Listen {
        line: String,
        service: Service<RoundKeeper<KeptFile<'d>>>,
    },
}

/// Why a document, a table or a file of rounds is refused.
#[derive(Drop)]
pub enum Cause {
    Document(Fault),
    Table(TableFault),
    /// What stands in the file of rounds is, beside the document or without one.
    Data(DataRefusal),
}

/// An answer, and what a person is told beside it.
#[derive(Drop)]
pub struct Response<'d> {
    pub answer: Answer<'d>,
    pub hint: Option<Hint>,
}

/// Why there is no answer, or why it can't be printed: a line for standard error, status 3.
#[derive(Clone, Copy)]
pub enum Stop {
    /// Something couldn't be read or written: what the system said of it, if it did.
    Device(Option<Failure>),
    /// A growth was refused.
    Memory,
}

impl From<ReadFault> for Stop {
    fn from(fault: ReadFault) -> Stop {
        match fault {
            ReadFault::Device => Stop::Device(None),
            ReadFault::Memory => Stop::Memory,
        }
    }
}

impl From<AllocError> for Stop {
    fn from(_error: AllocError) -> Stop {
        Stop::Memory
    }
}

impl<T: Drop> From<AllocFailed<T>> for Stop {
    fn from(_error: AllocFailed<T>) -> Stop {
        Stop::Memory
    }
}
