use crate::event::Event;
use crate::service::Talk;
use crate::slots::Slots;
use grove_session::{WriterSink, write_whole};
use std::io::Read;
use std::net::{Shutdown, TcpStream};
use std::sync::Wait;
use std::time::Clock;

/// What a connection is told for which there is no slot.
const LINE: &[u8] = b"{\"error\":\"busy\"}\n";

/// The same over HTTP.
const RESPONSE: &[u8] = b"HTTP/1.1 503 Service Unavailable\r\n\
    content-type: application/json; charset=utf-8\r\n\
    x-content-type-options: nosniff\r\n\
    x-frame-options: DENY\r\n\
    retry-after: 1\r\n\
    content-length: 17\r\n\
    connection: close\r\n\r\n\
    {\"error\":\"busy\"}\n";

/// So many pieces of what has come are read, so that the connection isn't reset before the response has arrived.
const MOST_PIECES: usize = 16;

/// Says that there is no slot, and counts and logs it.
pub fn turn_away<R: Wait + Clock + Eprint>(
    rt: &R,
    slots: &Slots,
    stream: &TcpStream,
    talk: Talk,
    connection: u64,
) {
    tell_busy(stream, talk);
    slots.metrics().traffic(talk).turned_away.count_one();
    if let Some(log) = slots.log() {
        log.write(rt, Event::TurnedAway { connection });
    }
}

/// Says that there is no slot. Nobody waits for a client that takes nothing.
fn tell_busy(stream: &TcpStream, talk: Talk) {
    let told = match talk {
        Talk::Lines => LINE,
        Talk::Requests => RESPONSE,
    };
    let _at_once = stream.set_nonblocking(true);
    let _told = write_whole(&mut WriterSink::new(stream), told);
    end_gently(stream);
}

/// Ends the connection behind what was written, and reads what has come, so that nothing of it is lost by a reset.
pub fn end_gently(stream: &TcpStream) {
    let _at_once = stream.set_nonblocking(true);
    let _ended = stream.shutdown(Shutdown::Write);
    let mut reader = stream;
    let mut piece = [0u8; 4096];
    for _ in 0..MOST_PIECES {
        match reader.read(&mut piece) {
            Ok(0) | Err(_) => break,
            Ok(_) => {}
        }
    }
}
