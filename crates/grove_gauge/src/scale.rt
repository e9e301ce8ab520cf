ghost use Rattle.std.specs.Prelude.{◌≡◌, ◌<◌, length, slice_index};
ghost use Rattle.grove_gauge.specs.Scales.{IsPlaceOf, most_of, shown_at};

/// The upper bound of a bucket: the greatest value that is counted in it, and the same in the unit that is shown.
#[derive(Clone, Copy)]
pub struct Bound(pub u64, pub &'static str);

/// What a histogram counts.
#[derive(Clone, Copy)]
pub enum Scale {
    /// Lines of a round.
    Lines,
    /// Times of rounds, in microseconds, which are shown in seconds.
    Times,
}

impl Scale {
    /// How many bounds there are.
    pub fn len(self) -> usize
        ensures len { result ≡ length (most_of self) }
        ensures within { (0 < result) × (result < 20) }
    {
        match self {
            Scale::Lines => LINES.len(),
            Scale::Times => TIMES.len(),
        }
    }

    /// The bound at the place; they are in ascending order.
    pub fn bound(self, place: usize) -> Bound
        requires { place < length (most_of self) }
        ensures most { result.0 ≡ slice_index (most_of self) place }
        ensures shown { result.1.now ≡ shown_at self place }
    {
        match self {
            Scale::Lines => LINES[place],
            Scale::Times => TIMES[place],
        }
    }

    /// The place of the bucket that counts a value: that of the first bound that isn't below it, or the one after all
    /// bounds.
    pub fn place_of(self, value: u64) -> usize
        ensures { IsPlaceOf (most_of self) value result }
    {
        for place in 0..self.len() {
            if value <= self.bound(place).0 {
                return place;
            }
        }
        self.len()
    }
}

/// The bounds of a round's lines.
const LINES: [Bound; 5] = [
    Bound(1, "1"),
    Bound(2, "2"),
    Bound(4, "4"),
    Bound(8, "8"),
    Bound(16, "16"),
];

/// The bounds of a round's time, in microseconds and in seconds.
const TIMES: [Bound; 19] = [
    Bound(10, "0.00001"),
    Bound(20, "0.00002"),
    Bound(50, "0.00005"),
    Bound(100, "0.0001"),
    Bound(200, "0.0002"),
    Bound(500, "0.0005"),
    Bound(1_000, "0.001"),
    Bound(2_000, "0.002"),
    Bound(5_000, "0.005"),
    Bound(10_000, "0.01"),
    Bound(20_000, "0.02"),
    Bound(50_000, "0.05"),
    Bound(100_000, "0.1"),
    Bound(200_000, "0.2"),
    Bound(500_000, "0.5"),
    Bound(1_000_000, "1"),
    Bound(2_000_000, "2"),
    Bound(5_000_000, "5"),
    Bound(10_000_000, "10"),
];
