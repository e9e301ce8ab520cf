ghost use Rattle.std.specs.Prelude.{◌<◌};

use crate::board::MOST_LINES;
use std::array;
use std::sync::Condvar;

/// How many bells there are for lines. Two callers share one only if so many lines or more were put between theirs.
const LINE_BELLS: usize = 2 * MOST_LINES;

/// How many bells there are for those who wait for a round. Two wait at one bell only if their numbers leave the same
/// rest.
const ROUND_BELLS: usize = 16;

/// Where the callers of a desk wait, so that each is woken only for what it waits for.
#[derive(Drop)]
pub(crate) struct Bells {
    /// For those whose lines are on the board, by their tickets.
    lines: [Condvar; LINE_BELLS],
    /// For those whose lines have no room there.
    pub room: Condvar,
    /// For those who want a copy of the store.
    pub looks: Condvar,
    /// For those who wait for a round later than a number, by that number.
    rounds: [Condvar; ROUND_BELLS],
}

/// Which bells are to ring.
#[derive(Drop)]
pub(crate) struct Rings {
    /// Is there any?
    any: bool,
    /// That of the caller who is to lead, by its ticket. It rings first: the other callers' next lines wait for it.
    leader: Option<u64>,
    lines: [bool; LINE_BELLS],
    looks: bool,
    rounds: [bool; ROUND_BELLS],
}

impl Bells {
    pub(crate) fn new() -> Bells {
        Bells {
            lines: array::from_fn(|_| Condvar::new()),
            room: Condvar::new(),
            looks: Condvar::new(),
            rounds: array::from_fn(|_| Condvar::new()),
        }
    }

    /// Where the caller of this ticket waits.
    pub(crate) fn of(&self, ticket: u64) -> &Condvar {
        &self.lines[place_of(ticket)]
    }

    /// Where a caller waits for a round later than this one.
    pub(crate) fn of_round(&self, after: u64) -> &Condvar {
        &self.rounds[round_place_of(after)]
    }

    pub(crate) fn ring(&self, rings: &Rings) {
        if !rings.any {
            return;
        }
        if let Some(ticket) = rings.leader {
            self.of(ticket).notify_all();
        }
        self.ring_lines(rings);
        if rings.looks {
            self.looks.notify_all();
        }
        self.ring_rounds(rings);
    }

    fn ring_lines(&self, rings: &Rings) {
        for place in 0..LINE_BELLS {
            if rings.lines[place] {
                self.lines[place].notify_all();
            }
        }
    }

    fn ring_rounds(&self, rings: &Rings) {
        for place in 0..ROUND_BELLS {
            if rings.rounds[place] {
                self.rounds[place].notify_all();
            }
        }
    }

    /// Wakes so many of those whose lines had no room.
    pub(crate) fn let_in(&self, callers: u64) {
        for _ in 0..callers {
            self.room.notify_one();
        }
    }
}

impl Rings {
    /// No bell, or that of all who want a copy of the store.
    pub(crate) fn new(looks: bool) -> Rings {
        Rings {
            any: looks,
            leader: None,
            lines: [false; LINE_BELLS],
            looks,
            rounds: [false; ROUND_BELLS],
        }
    }

    /// And the bell of this ticket.
    pub(crate) fn add(&mut self, ticket: u64) {
        self.any = true;
        self.lines[place_of(ticket)] = true;
    }

    /// And the bell of the ticket whose caller is to lead.
    pub(crate) fn add_leader(&mut self, ticket: u64) {
        self.any = true;
        self.leader = Some(ticket);
    }

    /// And the bell of those who wait for a round later than this one.
    pub(crate) fn add_round(&mut self, after: u64) {
        self.any = true;
        self.rounds[round_place_of(after)] = true;
    }
}

fn place_of(ticket: u64) -> usize
    ensures { result < 32 }
{
    (ticket % LINE_BELLS as u64) as usize
}

fn round_place_of(after: u64) -> usize
    ensures { result < 16 }
{
    (after % ROUND_BELLS as u64) as usize
}
