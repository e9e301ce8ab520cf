ghost use Rattle.std.specs.Prelude.{◌≡◌};
ghost use Rattle.grove_nodes.specs.Faults.{fault_number};

/// A fault of a list, a plan or a flow, by the number that other languages have for it.
#[derive(Clone, Copy)]
pub enum Fault {
    TooLong = 1,
    NoNode = 2,
    BadLength = 3,
    Strange = 4,
    Relock = 5,
    ParentNotHeld = 6,
    NotHeld = 7,
    WrongAccess = 8,
    AccessNotHeld = 9,
    AccessMissing = 10,
    StillHeld = 11,
    Rows = 12,
    Sign = 13,
    TooBig = 14,
    LockBalance = 15,
    ReleaseBalance = 16,
    Value = 17,
}

impl Fault {
    pub fn number(self) -> u32
        ensures { result ≡ fault_number self }
    {
        self as u32
    }
}
