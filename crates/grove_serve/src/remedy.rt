ghost use Rattle.std.specs.Prelude.{◌≡◌};
ghost use Rattle.grove_serve.specs.Remedies.{remedy_of};

// Linux's numbers of errors.
const EBADF: u64 = 9;

const ENOMEM: u64 = 12;

const EINVAL: u64 = 22;

const ENFILE: u64 = 23;

const EMFILE: u64 = 24;

const ENOTSOCK: u64 = 88;

const ENOBUFS: u64 = 105;

/// What is done where no connection could be accepted.
#[derive(Clone, Copy)]
pub enum Remedy {
    /// The next one is accepted: the error was about one that is gone, or passes by itself.
    Again,
    /// What is lacking is waited for.
    Await(Lack),
    /// No connection can be accepted any more: what is listened on is no listener.
    Stop,
}

/// What no connection can be accepted without.
#[derive(Clone, Copy)]
pub enum Lack {
    /// This process has as many as it may, or all processes have.
    Descriptor,
    Memory,
}

impl Remedy {
    /// What is done after an error of the system's of this number; after another one there is none.
    pub fn of_error(number: Option<u64>) -> Remedy
        ensures { result ≡ remedy_of number }
    {
        match number {
            Some(EBADF | EINVAL | ENOTSOCK) => Remedy::Stop,
            Some(ENFILE | EMFILE) => Remedy::Await(Lack::Descriptor),
            Some(ENOMEM | ENOBUFS) => Remedy::Await(Lack::Memory),
            _ => Remedy::Again,
        }
    }
}
