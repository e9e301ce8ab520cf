use crate::event::Event;
use crate::host::Host;
use crate::log::Log;
use crate::service::Talk;
use crate::slots::Slots;
use grove_desk::{Desk, Opening};
use grove_gauge::Tally;
use grove_store::{Keeper, Store};
use std::time::Duration;

/// How many seconds a minute has.
const MINUTE: u32 = 60;

/// Logs each minute in which lines were answered, and each second what the one before left out, until no more
/// connections are accepted.
pub fn log_minutes<B: Opening, K: Keeper + Drop, R: Host>(
    rt: &R,
    desk: &Desk<B, K>,
    slots: &Slots,
) {
    let Some(log) = slots.log() else {
        return;
    };
    let mut before = slots.metrics().tally();
    let mut seconds = 0u32;
    for _ in rt.forever() {
        if log.closes_within(rt, Duration::from_secs(1)) {
            break;
        }
        log.catch_up(rt);
        seconds = seconds.saturating_add(1);
        if seconds >= MINUTE {
            seconds = 0;
            before = log_minute(rt, desk, slots, log, before);
        }
    }
}

/// Logs the minute that is over, if lines were answered in it, and gives what is counted before the next one.
fn log_minute<B: Opening, K: Keeper + Drop, R: Host>(
    rt: &R,
    desk: &Desk<B, K>,
    slots: &Slots,
    log: &Log,
    before: Tally,
) -> Tally {
    let now = slots.metrics().tally();
    if now.lines == before.lines {
        return before;
    }
    let tcp = slots.metrics().traffic(Talk::Lines).in_use();
    let http = slots.metrics().traffic(Talk::Requests).in_use();
    let minute = Event::Minute {
        minute: now.since(&before),
        connections: tcp.saturating_add(http),
        waits: waits_at(rt, desk),
    };
    log.write(rt, minute);
    now
}

/// The waits of all nodes, if there is memory to look, and the store is kept.
fn waits_at<B: Opening, K: Keeper + Drop, R: Host>(rt: &R, desk: &Desk<B, K>) -> Option<u64> {
    let store = desk.snapshot(rt, rt.alloc()).ok()?;
    Some(waits_of(&store))
}

/// The waits of all nodes of a store.
fn waits_of(store: &Store) -> u64 {
    let mut waits = 0u64;
    for wait in store.waits() {
        waits = waits.saturating_add(u64::from(*wait));
    }
    waits
}
