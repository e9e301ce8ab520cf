//! What a server of connections decides and tells of itself, as values: who has a place, how long something may still
//! take, and what is counted.
#![tactic(auto)]

pub use buckets::{Buckets, MOST_BUCKETS};
pub use counts::{Counts, KeptCounts, PortCounts, RefusalCount, write_counts};
pub use exposition::{Exposition, Label};
pub use families::Family;
pub use minute::{Minute, RoundTimes, Tally};
pub use places::{Place, Places, Ticket};
pub use scale::{Bound, Scale};
pub use seconds::Seconds;
pub use time_limit::TimeLimit;

mod buckets;
mod counts;
mod exposition;
mod families;
mod minute;
mod places;
mod scale;
mod seconds;
mod time_limit;
