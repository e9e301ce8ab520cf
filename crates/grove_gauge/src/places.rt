ghost use Rattle.std.specs.Prelude.{◌≡◌, ◌<◌, ◌≤◌, ◌-◌, is_some, option_map};
ghost use Rattle.grove_gauge.specs.Placing.{all_free, asking, entering, has_slot, is_turn, next_place};
ghost use Rattle.grove_gauge.specs.Placing.{with_place, without_place};
ghost use Rattle.grove_gauge.specs.declared.places.Place.TheVariants.{Slot};

use std::marker::Model;

/// What a connection has at a port.
#[derive(Clone, Copy)]
pub enum Place {
    Slot,
    /// A place in the room for those that have no slot.
    Room,
}

/// A place that was taken. It can be neither copied nor let go: so whoever has it leaves it, and only once.
pub struct Ticket {
    place: Place,
}

impl Ticket {
    /// The ticket for a place that was handed over by another one.
    pub fn handed_over(place: Place) -> Ticket
        ensures { result.place ≡ place }
    {
        Ticket { place }
    }

    /// What it is for.
    pub fn place(&self) -> Place
        ensures { result ≡ self.now.place }
    {
        self.place
    }

    /// Gives the place up for one other ticket.
    pub fn hand_over(self) -> Place
        ensures { result ≡ self.place }
    {
        let Ticket { place } = self;
        place
    }
}

/// The connection slots of a port, and the room for connections that are accepted and have none.
#[derive(Drop)]
pub struct Places {
    slots: u32,
    taken: u32,
    room: u32,
    inside: u32,
    /// How many connections in the room have asked for a slot, and how many of these have got one.
    asked: u64,
    entered: u64,
}

impl Model for Places {
    ghost use Rattle.std.specs.Prelude.{◌≤◌};
    ghost use Rattle.grove_gauge.specs.Placing.{PlaceCounts};

    ghost Value = { PlaceCounts };

    ghost view = { λ p. record {
      slots = p.slots;
      taken = p.taken;
      room = p.room;
      inside = p.inside;
      asked = p.asked;
      entered = p.entered;
    } };

    ghost invariant = { λ p. (p.taken ≤ p.slots) × (p.inside ≤ p.room) };
}

impl Places {
    /// So many slots, and room for so many connections more, all free.
    pub fn new(slots: u32, room: u32) -> Places
        ensures { result ≡ all_free slots room }
    {
        Places {
            slots,
            taken: 0,
            room,
            inside: 0,
            asked: 0,
            entered: 0,
        }
    }

    /// How many slots there are. No more are taken, and no more connections are in the room than it has places.
    pub fn slots(&self) -> u32
        ensures slots { result ≡ self.now.slots }
        ensures taken { self.now.taken ≤ self.now.slots }
        ensures inside { self.now.inside ≤ self.now.room }
    {
        self.slots
    }

    /// How many slots are free.
    pub fn free(&self) -> u32
        ensures { result ≡ self.now.slots - self.now.taken }
    {
        self.slots - self.taken
    }

    /// Is there a place for the connection that comes next?
    pub fn has_place(&self) -> bool
        ensures { result ≡ is_some (next_place self.now) }
    {
        self.has_slot() || self.inside < self.room
    }

    /// Takes a place for a connection that has come: a slot that nobody in the room waits for, or else room.
    pub fn take(&mut self) -> Option<Ticket>
        ensures place { option_map (λ (ticket : Ticket). ticket.place) result ≡ next_place self.old }
        ensures counts { self.new ≡ with_place (next_place self.old) self.old }
    {
        if self.has_slot() {
            self.taken += 1;
            Some(Ticket { place: Place::Slot })
        } else if self.inside < self.room {
            self.inside += 1;
            Some(Ticket { place: Place::Room })
        } else {
            None
        }
    }

    /// Is there a slot that nobody in the room waits for?
    fn has_slot(&self) -> bool
        ensures { result ≡ has_slot self.now }
    {
        let waiting = self.asked.saturating_sub(self.entered);
        waiting < u64::from(self.slots - self.taken)
    }

    /// Asks for a slot for a connection in the room, and gives its number among those that have asked.
    pub fn ask(&mut self) -> u64
        ensures number { result ≡ self.old.asked }
        ensures counts { self.new ≡ asking self.old }
    {
        let number = self.asked;
        self.asked = number.saturating_add(1);
        number
    }

    /// Is there a slot for the connection in the room that asked as this number? Who asked first comes first.
    pub fn is_turn(&self, number: u64) -> bool
        ensures { result ≡ is_turn self.now number }
    {
        self.taken < self.slots && self.entered == number
    }

    /// Gives a slot for the place in the room of the connection that asked first of those that wait.
    pub fn enter(&mut self, ticket: Ticket) -> Ticket
        requires { self.old.taken < self.old.slots }
        ensures place { result.place ≡ Slot }
        ensures counts { self.new ≡ entering self.old }
    {
        let _place = ticket.hand_over();
        self.taken += 1;
        self.inside = self.inside.saturating_sub(1);
        self.entered = self.entered.saturating_add(1);
        Ticket { place: Place::Slot }
    }

    /// Leaves a place to others.
    pub fn leave(&mut self, ticket: Ticket)
        ensures { self.new ≡ without_place ticket.place self.old }
    {
        match ticket.hand_over() {
            Place::Slot => self.taken = self.taken.saturating_sub(1),
            Place::Room => self.inside = self.inside.saturating_sub(1),
        }
    }
}
