ghost use Rattle.std.specs.Prelude.{◌≡◌, false};

use crate::busy::turn_away;
use crate::closing::close_at_failure;
use crate::event::Event;
use crate::file_counts::FileCounts;
use crate::host::{Host, NetHost};
use crate::minutes::log_minutes;
use crate::remedy::Remedy;
use crate::seconds::serve_by_seconds;
use crate::service::{Door, Doors, KeptStore, Manner, Service, Talk};
use crate::slots::Slots;
use crate::talking::{Caller, serve_caller};
use grove_desk::{Desk, Opening};
use grove_gauge::Ticket;
use grove_page::Paths;
use grove_store::{Keeper, Store};
use grove_tree::NoMemory;
use grove_words::SyncEach;
use std::alloc::Global;
use std::marker::Brand;
use std::net::SocketAddr;
use std::sync::Arc;
use std::{io, thread};

/// After so many failures to accept a connection there is a pause, however soon they pass, so that those which last
/// take next to no time of the processor.
const FAILURES: u64 = 64;

/// Serves connections, as many at once as there are slots, until none can be accepted any more and the others have
/// ended, or until what was answered couldn't be kept. One for which there is no descriptor or no memory waits for it,
/// and one for which no thread can be started is closed. Gives back what kept the rounds; nothing, if there was no
/// thread that is needed where rounds are kept.
pub fn serve<R: NetHost, K: Keeper + Drop + Send>(rt: &R, service: Service<K>) -> Option<K> {
    let Service {
        kept,
        counts,
        sync,
        door,
        http,
        manner,
    } = service;
    let doors = Doors { first: door, http };
    let slots = slots_over(rt, &kept.store, &doors, manner, counts);
    match sync {
        SyncEach::Round => serve_by_rounds::<Brand, R, K>(rt, kept, &slots, &doors),
        SyncEach::Second => serve_by_seconds::<Brand, R, K>(rt, kept, &slots, &doors),
    }
}

/// Serves connections at a desk over the store, which keeps each round, and no journal.
fn serve_by_rounds<B: Opening + Send + Sync, R: NetHost, K: Keeper + Drop + Send>(
    rt: &R,
    served: KeptStore<K>,
    slots: &Slots,
    doors: &Doors,
) -> Option<K>
    requires store { served ≡ B.store }
    requires kept { B.kept ≡ false }
{
    let KeptStore { store, keeper } = served;
    let desk = Desk::<B, K>::open(rt.alloc(), store, keeper, false);
    let is_served = serve_at(rt, &desk, slots, doors);
    let closed = desk.close(rt.alloc(), &[]).ok()?;
    if is_served { Some(closed.keeper) } else { None }
}

/// The slots of connections to the store.
fn slots_over<R: Host>(
    rt: &R,
    store: &Store,
    doors: &Doors,
    manner: Manner,
    counts: Option<Arc<FileCounts>>,
) -> Slots {
    let paths = paths_of(rt.alloc(), store).ok();
    let slots = Slots::new(rt, rt.alloc(), doors, manner, paths, counts);
    slots.metrics().rounds.raise_to(store.rounds());
    slots
}

/// The paths of the store's nodes, which stay the same.
fn paths_of(alloc: Global, store: &Store) -> Result<Paths, NoMemory> {
    Paths::new(alloc, store.tree().copy(alloc)?)
}

/// Serves the connections of the doors at the desk, and logs each minute meanwhile. Says whether there were the threads
/// for it.
pub fn serve_at<B: Opening + Send + Sync, R: NetHost, K: Keeper + Drop + Send>(
    rt: &R,
    desk: &Desk<B, K>,
    slots: &Slots,
    doors: &Doors,
) -> bool {
    thread::scope(thread::scope_env(), rt, |scope| {
        if slots.log().is_some() {
            let _told = scope.spawn(move || log_minutes(rt, desk, slots));
        }
        let is_served = open_guarded(rt, desk, slots, doors);
        if let Some(log) = slots.log() {
            log.close(rt);
        }
        is_served
    })
}

/// Serves the connections of the doors until they end, or a thread of its own ends them since a round couldn't be kept.
/// Where rounds are kept and there is no such thread, none is served.
fn open_guarded<B: Opening + Send + Sync, R: NetHost, K: Keeper + Drop + Send>(
    rt: &R,
    desk: &Desk<B, K>,
    slots: &Slots,
    doors: &Doors,
) -> bool {
    if slots.kept().is_none() {
        open(rt, desk, slots, doors);
        return true;
    }
    thread::scope(thread::scope_env(), rt, |scope| {
        let guarded = scope.spawn(move || close_at_failure(rt, slots, doors));
        let is_guarded = guarded.is_ok();
        if is_guarded {
            open(rt, desk, slots, doors);
        } else {
            log_event(rt, slots, Event::NoGuard);
        }
        slots.streams().close(rt);
        is_guarded
    })
}

/// Serves the connections of both doors, if there are two.
fn open<B: Opening + Send + Sync, R: Host, K: Keeper + Drop + Send>(
    rt: &R,
    desk: &Desk<B, K>,
    slots: &Slots,
    doors: &Doors,
) {
    thread::scope(thread::scope_env(), rt, |scope| {
        if let Some(http) = &doors.http {
            let served = scope.spawn(move || welcome(rt, desk, slots, http));
            if served.is_err() {
                log_event(rt, slots, Event::NoHttp);
            }
        }
        welcome(rt, desk, slots, &doors.first);
    });
}

/// Serves a door's connections, each in its place.
fn welcome<B: Opening + Send + Sync, R: Host, K: Keeper + Drop + Send>(
    rt: &R,
    desk: &Desk<B, K>,
    slots: &Slots,
    door: &Door,
) {
    thread::scope(thread::scope_env(), rt, |scope| {
        for _ in rt.forever() {
            match next_caller(rt, slots, door) {
                Arrival::Caller(caller, ticket) => {
                    let (connection, place) = (caller.number, ticket.hand_over());
                    let spawned = scope.spawn(move || {
                        serve_caller(rt, desk, slots, caller, Ticket::handed_over(place))
                    });
                    if spawned.is_err() {
                        log_event(rt, slots, Event::NoThread { connection });
                        slots.pool(door.talk).leave(rt, Ticket::handed_over(place));
                    }
                }
                Arrival::Nobody => {}
                Arrival::Never => break,
            }
        }
    });
}

/// What comes of waiting for a connection.
enum Arrival {
    /// One that has a place.
    Caller(Caller, Ticket),
    /// There was no place for it, or it couldn't be accepted.
    Nobody,
    /// None can be accepted any more, or none is to be.
    Never,
}

/// The next connection, in a place of the pool that it gets once it has come. A connection that isn't told that there
/// is none isn't accepted until there is a place for it.
fn next_caller<R: Host>(rt: &R, slots: &Slots, door: &Door) -> Arrival {
    let talk = door.talk;
    let pool = slots.pool(talk);
    let tells_busy = slots.patience().tells_busy;
    if !tells_busy {
        pool.await_place(rt);
    }
    let (stream, address) = match door.listener.accept() {
        Ok(accepted) => accepted,
        Err(error) => return await_remedy(rt, slots, talk, number_of(&error)),
    };
    if slots.streams().is_closed(rt) {
        return Arrival::Never;
    }
    let number = note_arrival(rt, slots, talk, address);
    let ticket = if tells_busy {
        pool.take_free(rt)
    } else {
        Some(pool.take(rt))
    };
    match ticket {
        Some(ticket) => {
            let caller = Caller {
                stream,
                number,
                talk,
            };
            Arrival::Caller(caller, ticket)
        }
        None => {
            turn_away(rt, slots, &stream, talk, number);
            Arrival::Nobody
        }
    }
}

/// Counts and logs that a connection that talks so couldn't be accepted, for an error of this number, and waits until
/// another one may be.
fn await_remedy<R: Host>(rt: &R, slots: &Slots, talk: Talk, error: Option<u64>) -> Arrival {
    let failures = slots.metrics().traffic(talk).failed_accepts.count_next();
    let remedy = Remedy::of_error(error);
    if let Some(log) = slots.log() {
        match remedy {
            Remedy::Again => log.write_failure(rt, Event::NotAccepted { talk, error }),
            Remedy::Await(lack) => log.lack(rt, lack),
            Remedy::Stop => log.write(rt, Event::Stopped { talk, error }),
        }
    }
    match remedy {
        Remedy::Again if failures % FAILURES > 0 => Arrival::Nobody,
        Remedy::Again | Remedy::Await(_) => {
            slots.pool(talk).wait(rt);
            Arrival::Nobody
        }
        Remedy::Stop => Arrival::Never,
    }
}

/// The system's number of the error, if it is one of the system's.
fn number_of(error: &io::Error) -> Option<u64> {
    u64::try_from(error.raw_os_error()?).ok()
}

/// Counts and logs that a connection was accepted, and gives its number.
fn note_arrival<R: Host>(rt: &R, slots: &Slots, talk: Talk, address: SocketAddr) -> u64 {
    slots.metrics().traffic(talk).accepted.count_one();
    let Some(log) = slots.log() else {
        return 0;
    };
    log.lack_nothing();
    let connection = log.next_number();
    let accepted = Event::Accepted {
        connection,
        address,
    };
    log.write(rt, accepted);
    connection
}

/// Logs the event, if there is a log.
pub fn log_event<R: Host>(rt: &R, slots: &Slots, event: Event<'_>) {
    if let Some(log) = slots.log() {
        log.write(rt, event);
    }
}
