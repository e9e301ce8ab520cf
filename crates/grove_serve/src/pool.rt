use grove_gauge::{Places, Ticket};
use std::sync::{Condvar, Mutex, Wait};
use std::time::{Clock, Duration};

/// For how many milliseconds a slot to be left is waited for, if what is wanted may come from elsewhere too.
const LONGEST_WAIT: u64 = 100;

/// The connection slots of one port: as many as are served there at once. Beside them is room for a few connections
/// that were accepted and have no slot yet.
#[derive(Drop)]
pub struct Pool {
    slots: u32,
    places: Mutex<Places>,
    /// A slot was left, or a place in the room.
    left: Condvar,
}

impl Pool {
    /// So many slots, and room for so many more connections, all free.
    pub fn new(slots: u32, room: u32) -> Pool {
        Pool {
            slots,
            places: Mutex::new(Places::new(slots, room)),
            left: Condvar::new(),
        }
    }

    /// How many slots there are.
    pub fn slots(&self) -> u32 {
        self.slots
    }

    /// Waits until there is a place for the next connection. It stays until the one thread that accepts takes it:
    /// whoever gets a slot meanwhile leaves a place in the room for it.
    pub fn await_place<R: Wait>(&self, rt: &R) {
        let places = self.places.lock(rt);
        let _free = self
            .left
            .wait_while(rt, places, |places| !places.has_place());
    }

    /// Takes a place, once one is free.
    pub fn take<R: Wait>(&self, rt: &R) -> Ticket {
        let places = self.places.lock(rt);
        let mut places = self
            .left
            .wait_while(rt, places, |places| !places.has_place());
        match places.take() {
            Some(ticket) => ticket,
            None => unreachable!(),
        }
    }

    /// Takes a place if one is free.
    pub fn take_free<R: Wait>(&self, rt: &R) -> Option<Ticket> {
        self.places.lock(rt).take()
    }

    /// Takes a slot for a connection in the room, once it is its turn, and leaves its place there.
    pub fn enter<R: Wait>(&self, rt: &R, ticket: Ticket) -> Ticket {
        let mut places = self.places.lock(rt);
        let number = places.ask();
        let mut places = self
            .left
            .wait_while(rt, places, |places| !places.is_turn(number));
        let ticket = places.enter(ticket);
        drop(places);
        self.left.notify_all();
        ticket
    }

    /// Waits until a slot is left, but not for long.
    pub fn wait<R: Wait + Clock>(&self, rt: &R) {
        let places = self.places.lock(rt);
        let before = places.free();
        let most = Duration::from_millis(LONGEST_WAIT);
        let _left = self
            .left
            .wait_timeout_while(rt, places, most, |places| places.free() <= before);
    }

    /// Leaves a place to others.
    pub fn leave<R: Wait>(&self, rt: &R, ticket: Ticket) {
        self.places.lock(rt).leave(ticket);
        self.left.notify_all();
    }
}
