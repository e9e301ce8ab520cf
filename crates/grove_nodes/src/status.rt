ghost use Rattle.std.specs.Prelude.{◌≡◌};
ghost use Rattle.grove_nodes.specs.Statuses.{number_of};

/// How a call from another language ended. The numbers are those of the program's statuses, but for `Room`.
#[derive(Clone, Copy)]
pub enum Status {
    /// What was asked for is in the caller's buffers.
    Done = 0,
    /// What was handed in is refused.
    Refused = 1,
    /// A buffer has no room for what was asked for, and all are as they were.
    Room = 2,
    /// A growth was refused, and all is as it was.
    Memory = 3,
    /// The handle holds nothing that the call is about, and all is as it was.
    Closed = 4,
}

impl Status {
    pub fn number(self) -> u32
        ensures { result ≡ number_of self }
    {
        self as u32
    }
}
