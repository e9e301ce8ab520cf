//! Looks at what a connection without a slot asks for, and leaves it unread.
use std::net::TcpStream;
use std::thread;
use std::time::{Clock, Duration};

/// The requests that are answered without a slot, up to what has to follow: a blank, or a query.
const STATE_REQUESTS: [&[u8]; 4] = [
    b"GET /health",
    b"HEAD /health",
    b"GET /metrics",
    b"HEAD /metrics",
];

/// The longest head of such a request.
const MOST_HEAD: usize = 2048;

/// How many milliseconds the first bytes are waited for.
const LONGEST_WAIT: u64 = 1_000;

/// How often it is looked whether the head is whole, and for how many milliseconds is waited between.
const LOOKS: u32 = 200;

const PAUSE: u64 = 5;

/// What the first bytes over a connection are.
#[derive(Clone, Copy)]
enum Look {
    /// A request for the server's state, of so many bytes.
    State(usize),
    /// The beginning of one.
    Begun,
    /// Something else.
    Other,
}

/// How many bytes the request has that comes over the stream, if it asks for the server's state and comes before long.
/// Nothing is read.
pub fn state_request<R: Clock>(rt: &R, stream: &TcpStream) -> Option<u64> {
    let longest = Duration::from_millis(LONGEST_WAIT);
    stream.set_read_timeout(Some(longest)).ok()?;
    let mut head = [0u8; MOST_HEAD];
    for _ in 0..LOOKS {
        let count = stream.peek(&mut head).ok()?;
        match look_at(head.get(..count)?) {
            Look::State(length) => return Some(length as u64),
            Look::Begun if count > 0 => thread::sleep(rt, Duration::from_millis(PAUSE)),
            Look::Begun | Look::Other => return None,
        }
    }
    None
}

fn look_at(head: &[u8]) -> Look {
    if !STATE_REQUESTS.iter().any(|request| begins(head, request)) {
        return Look::Other;
    }
    match head_length(head) {
        Some(length) => Look::State(length),
        None => Look::Begun,
    }
}

/// Does the head begin as the request does, as far as it has come?
fn begins(head: &[u8], request: &[u8]) -> bool {
    match head.get(request.len()) {
        Some(next) => head.starts_with(request) && matches!(*next, b' ' | b'?'),
        None => request.starts_with(head) || head.starts_with(request),
    }
}

/// How many bytes the head has, with the empty line at its end, if that has come.
fn head_length(head: &[u8]) -> Option<usize> {
    let at = head
        .windows(4)
        .position(|four| four == b"\r\n\r\n".as_slice())?;
    Some(at.saturating_add(4))
}
