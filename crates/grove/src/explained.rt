use std::io;

/// A device that keeps the system's error of the call that failed.
pub trait Explained {
    /// The error of the latest call that failed.
    fn error(&self) -> Option<io::Error>;
}
