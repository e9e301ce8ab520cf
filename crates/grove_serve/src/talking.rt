use crate::busy::{end_gently, turn_away};
use crate::ending::Ending;
use crate::guest::Guest;
use crate::host::Host;
use crate::room::state_request;
use crate::service::Talk;
use crate::slots::Slots;
use crate::streams::Listed;
use crate::timed_stream::{Awaited, TimedStream};
use crate::timed_writer::{LONGEST_TRY, TimedWriter};
use crate::watching::{ServedDesk, session_at};
use grove_base::NoMemory;
use grove_desk::{Desk, Opening};
use grove_gauge::{Place, Ticket};
use grove_page::{PAGE, Site, serve_page};
use grove_session::{ReaderSource, SessionFault, WriterSink};
use grove_store::Keeper;
use std::cell::Cell;
use std::hash::RandomState;
use std::io::{self, Read, Write};
use std::net::TcpStream;
use std::time::Duration;

/// How many seconds a client without a slot may take to read a part of its response.
const LONGEST_WRITE: u64 = 1;

/// The field of a connection's last request. The response to it has this field too.
const CLOSE: &[u8] = b"connection: close\r\n";

/// The length of the empty line behind the fields.
const EMPTY_LINE: u64 = 2;

/// A connection that was accepted.
#[derive(Drop)]
pub struct Caller {
    pub stream: TcpStream,
    /// Its number in the log, if there is one.
    pub number: u64,
    pub talk: Talk,
}

/// A session, or requests, over the connection, which is closed then and leaves its place. What ends it ends it alone,
/// and nobody is left there to be told of it. One that has no slot waits for it, unless it asks for the server's state.
pub fn serve_caller<B: Opening, K: Keeper + Drop, R: Host>(
    rt: &R,
    desk: &Desk<B, K>,
    slots: &Slots,
    caller: Caller,
    ticket: Ticket,
) {
    let Caller {
        stream,
        number,
        talk,
    } = caller;
    let guest = Guest::new(slots, talk, number);
    match slots.streams().add(rt, stream) {
        Ok(listed) => serve_listed(rt, desk, &guest, listed, ticket),
        Err(NoMemory) => {
            guest.note_end(rt, Ending::Memory);
            slots.pool(talk).leave(rt, ticket);
        }
    }
}

/// The same over a stream that is listed.
fn serve_listed<'a, B: Opening, K: Keeper + Drop, R: Host>(
    rt: &R,
    desk: &'a Desk<B, K>,
    guest: &'a Guest<'a>,
    listed: Listed,
    ticket: Ticket,
) {
    let slots = guest.slots();
    let pool = slots.pool(guest.talk());
    match ticket.place() {
        Place::Slot => talk_in_slot(rt, desk, guest, listed, ticket),
        Place::Room => match state_request(rt, listed.stream()) {
            Some(length) => {
                answer_state(rt, desk, guest, listed.stream(), length);
                slots.streams().remove(rt, listed);
                pool.leave(rt, ticket);
            }
            None if slots.patience().tells_busy => {
                turn_away(rt, slots, listed.stream(), guest.talk(), guest.number());
                slots.streams().remove(rt, listed);
                pool.leave(rt, ticket);
            }
            None => {
                let ticket = pool.enter(rt, ticket);
                talk_in_slot(rt, desk, guest, listed, ticket);
            }
        },
    }
}

/// A session, or requests, over a connection that has a slot, which it leaves then.
fn talk_in_slot<'a, B: Opening, K: Keeper + Drop, R: Host>(
    rt: &R,
    desk: &'a Desk<B, K>,
    guest: &'a Guest<'a>,
    listed: Listed,
    ticket: Ticket,
) {
    let slots = guest.slots();
    let stream = listed.stream();
    let traffic = slots.metrics().traffic(guest.talk());
    traffic.begun.count_one();
    // No reply is to wait until the one before it has arrived.
    let _at_once = stream.set_nodelay(true);
    let ending = match (guest.talk(), slots.patience().idle) {
        (Talk::Lines, None) => answer_lines(rt, desk, guest, stream),
        (Talk::Lines, Some(idle)) => answer_in_time(rt, desk, guest, stream, idle),
        (Talk::Requests, idle) => answer_requests(rt, desk, guest, stream, idle),
    };
    guest.note_end(rt, ending);
    traffic.left.count_one();
    if desk.has_failed(rt) {
        slots.streams().fail(rt);
    }
    // Whoever waits for the slot may wait for the descriptor.
    slots.streams().remove(rt, listed);
    slots.pool(guest.talk()).leave(rt, ticket);
}

/// A session over the stream.
fn answer_lines<'a, B: Opening, K: Keeper + Drop, R: Host>(
    rt: &R,
    desk: &'a Desk<B, K>,
    guest: &'a Guest<'a>,
    stream: &TcpStream,
) -> Ending {
    let mut source = ReaderSource::new(guest.reader(stream));
    let mut sink = WriterSink::new(guest.writer(stream));
    let hints = guest.slots().hints();
    Ending::of_session(session_at(rt, desk, guest, hints, &mut source, &mut sink))
}

/// A session over the stream, which may idle for so many seconds. A client that takes nothing of its replies idles too.
fn answer_in_time<'a, B: Opening, K: Keeper + Drop, R: Host>(
    rt: &R,
    desk: &'a Desk<B, K>,
    guest: &'a Guest<'a>,
    stream: &TcpStream,
    seconds: u32,
) -> Ending {
    let longest = Duration::from_secs(u64::from(seconds));
    let a_try = Duration::from_millis(LONGEST_TRY);
    if stream.set_write_timeout(Some(a_try)).is_err() {
        return Ending::Untimed;
    }
    let is_late = Cell::new(false);
    let reader = guest.reader(stream);
    let timed = TimedStream::new(rt, reader, Awaited::Line, longest, &is_late);
    let mut source = ReaderSource::new(timed);
    let writer = TimedWriter::new(rt, guest.writer(stream), longest, &is_late);
    let mut sink = WriterSink::new(writer);
    let hints = guest.slots().hints();
    match session_at(rt, desk, guest, hints, &mut source, &mut sink) {
        Err(SessionFault::Read | SessionFault::Write(_)) if is_late.get() => Ending::Idle(seconds),
        ended => Ending::of_session(ended),
    }
}

/// Requests of HTTP over the stream, each of which may take so many seconds to come, or for ever. So may each part of a
/// response that is taken.
fn answer_requests<'a, B: Opening, K: Keeper + Drop, R: Host>(
    rt: &R,
    desk: &'a Desk<B, K>,
    guest: &'a Guest<'a>,
    stream: &TcpStream,
    idle: Option<u32>,
) -> Ending {
    let longest = idle.map(|seconds| Duration::from_secs(u64::from(seconds)));
    let a_try = longest.map(|_| Duration::from_millis(LONGEST_TRY));
    if stream.set_read_timeout(longest).is_err() || stream.set_write_timeout(a_try).is_err() {
        return Ending::Untimed;
    }
    let was_late = Cell::new(false);
    let front = ServedDesk::new(desk, guest, stream);
    let (mut reader, mut writer) = (guest.reader(stream), guest.writer(stream));
    let ended = match longest {
        Some(longest) => {
            let awaited = Awaited::Request(guest.has_come());
            let mut reader = TimedStream::new(rt, reader, awaited, longest, &was_late);
            let mut writer = TimedWriter::new(rt, writer, longest, &was_late);
            serve_site(rt, &front, guest, &mut reader, &mut writer)
        }
        None => serve_site(rt, &front, guest, &mut reader, &mut writer),
    };
    match ended {
        Ok(ended) => Ending::of_requests(ended, idle, was_late.get()),
        Err(ending) => ending,
    }
}

/// The request of so many bytes that has come over the stream, from a connection without a slot. It is read as if it
/// asked that the connection ends, since that ends behind it.
fn answer_state<'a, B: Opening, K: Keeper + Drop, R: Host>(
    rt: &R,
    desk: &'a Desk<B, K>,
    guest: &'a Guest<'a>,
    stream: &TcpStream,
    length: u64,
) {
    let front = ServedDesk::new(desk, guest, stream);
    let fields = guest.reader(stream).take(length.saturating_sub(EMPTY_LINE));
    let end = guest.reader(stream).take(EMPTY_LINE);
    let mut reader = fields.chain(CLOSE).chain(end);
    let _limited = stream.set_write_timeout(Some(Duration::from_secs(LONGEST_WRITE)));
    let mut writer = guest.writer(stream);
    let ending = match serve_site(rt, &front, guest, &mut reader, &mut writer) {
        Ok(ended) => Ending::of_requests(ended, None, false),
        Err(ending) => ending,
    };
    end_gently(stream);
    guest.note_end(rt, ending);
}

/// Requests that the reader gives, under the names of the server, with the responses to the writer; or why none is
/// answered.
fn serve_site<B: Opening, K: Keeper + Drop, R: Host, I: Read, O: Write>(
    rt: &R,
    front: &ServedDesk<'_, B, K>,
    guest: &Guest<'_>,
    reader: &mut I,
    writer: &mut O,
) -> Result<io::Result<()>, Ending> {
    let Ok(keys) = RandomState::new(rt) else {
        return Err(Ending::Unkeyed);
    };
    let site = Site {
        page: PAGE,
        hosts: guest.slots().hosts(),
        hints: guest.slots().hints(),
        paths: guest.slots().paths(),
    };
    Ok(serve_page(rt, front, site, keys, reader, writer))
}
