use crate::ending::is_late;
use std::net::TcpStream;

/// Has the client closed its side of the connection, or is the connection broken? Nothing is read, and nothing is
/// waited for. As long as there is something to read, that isn't known.
pub fn has_left(stream: &TcpStream) -> bool {
    if stream.set_nonblocking(true).is_err() {
        return false;
    }
    let mut first = [0u8; 1];
    let looked = stream.peek(&mut first);
    if stream.set_nonblocking(false).is_err() {
        return true;
    }
    match looked {
        Ok(count) => count == 0,
        Err(error) => !is_late(&error),
    }
}
