ghost use Rattle.std.specs.Prelude.{◌≡◌, ◌-◌, Some, None};
ghost use Rattle.std.specs.Duration.{as_nanos};
ghost use Rattle.std.specs.Time.{instant_nanos};
ghost use Rattle.grove_gauge.specs.Limits.{since};

use std::time::{Duration, Instant};

/// A limit on how long one thing after the other is waited for.
#[derive(Drop)]
pub struct TimeLimit {
    longest: Duration,
    /// Since when the present one has been waited for; nothing, where the last one has just come.
    since: Option<Instant>,
}

impl TimeLimit {
    /// Each may be waited for so long.
    pub fn new(longest: Duration) -> TimeLimit
        ensures { result ≡ record { longest = longest; since = None } }
    {
        TimeLimit {
            longest,
            since: None,
        }
    }

    /// What was waited for has come.
    pub fn has_come(&mut self)
        ensures { self.new ≡ record self.old { since = None } }
    {
        self.since = None;
    }

    /// How long it may still be waited for, as it is now: the longest time less that for which it has been waited for.
    pub fn time_left(&mut self, now: Instant) -> Duration
        ensures left { as_nanos result
            ≡ as_nanos self.old.longest - (instant_nanos now - instant_nanos (since self.old now)) }
        ensures since { self.new ≡ record self.old { since = Some (since self.old now) } }
    {
        let since = self.since.unwrap_or(now);
        self.since = Some(since);
        self.longest.saturating_sub(now.duration_since(since))
    }
}
