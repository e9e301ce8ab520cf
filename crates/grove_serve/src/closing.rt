//! How a server ends once a round couldn't be kept.
use crate::host::NetHost;
use crate::service::{Door, Doors};
use crate::slots::Slots;
use std::net::TcpStream;
use std::thread;
use std::time::Duration;

/// For so many seconds after that its state is told, before all connections end.
const LAST_SECONDS: u64 = 1;

/// So often we try to connect to a door of our own, and for so many milliseconds we wait between: the connections that
/// end may have had all descriptors.
const MOST_TRIES: u32 = 100;

const PAUSE: u64 = 20;

/// Ends the service of both doors a little after a round couldn't be kept: all their connections, and the waiting for
/// more. It returns then, or once no connection is served any more.
pub fn close_at_failure<R: NetHost>(rt: &R, slots: &Slots, doors: &Doors) {
    if !slots.streams().await_failure(rt) {
        return;
    }
    thread::sleep(rt, Duration::from_secs(LAST_SECONDS));
    slots.streams().close(rt);
    wake(rt, &doors.first);
    if let Some(http) = &doors.http {
        wake(rt, http);
    }
}

/// Wakes whoever waits for a connection at the door, by one of our own.
fn wake<R: NetHost>(rt: &R, door: &Door) {
    let Ok(address) = door.listener.local_addr() else {
        return;
    };
    let longest = Duration::from_secs(LAST_SECONDS);
    for _ in 0..MOST_TRIES {
        if TcpStream::connect_timeout(rt, &address, longest).is_ok() {
            return;
        }
        thread::sleep(rt, Duration::from_millis(PAUSE));
    }
}
