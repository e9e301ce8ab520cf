ghost use Rattle.std.specs.Prelude.{◌≡◌};
ghost use Rattle.grove_nodes.specs.Statuses.{number_of};
ghost use Rattle.grove_c.specs.Endings.{outcome_of, IsPut, IsTold};

use grove_answer::Refusal;
use grove_nodes::Status;

/// How a call ended, and how long its text is.
#[repr(C)]
#[derive(Clone, Copy)]
pub struct Told {
    /// The number of a `Status`.
    pub status: u32,
    /// How many bytes the text has; 0 where there is none.
    pub length: usize,
}

/// Puts the text of what is said into the buffer, and tells how that ended.
pub fn tell(said: &Result<String, Refusal>, buffer: &mut [u8]) -> Told
    ensures { IsTold (outcome_of said.now) buffer.old buffer.new result }
{
    match said {
        Ok(lines) => put(Status::Done, lines.as_bytes(), buffer),
        Err(Refusal::Fault { fault: _, text }) => put(
            Status::Refused,
            text.as_str().as_bytes(),
            buffer,
        ),
        Err(Refusal::Memory) => told_memory(),
    }
}

/// A growth was refused.
pub fn told_memory() -> Told
    ensures { result ≡ record { status = 3; length = 0 } }
{
    Told {
        status: Status::Memory.number(),
        length: 0,
    }
}

/// The handle holds nothing that the call is about.
pub fn told_closed() -> Told
    ensures { result ≡ record { status = 4; length = 0 } }
{
    Told {
        status: Status::Closed.number(),
        length: 0,
    }
}

/// Has the buffer begin with the text, if it has room for all of it.
pub fn put(status: Status, text: &[u8], buffer: &mut [u8]) -> Told
    ensures { IsPut (number_of status) text.now buffer.old buffer.new result }
{
    let length = text.len();
    if length > buffer.len() {
        return Told {
            status: Status::Room.number(),
            length,
        };
    }
    buffer[..length].copy_from_slice(text);
    Told {
        status: status.number(),
        length,
    }
}
