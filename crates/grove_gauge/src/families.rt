ghost use Rattle.std.specs.Prelude.{◌≡◌};
ghost use Rattle.grove_gauge.specs.Families.{row_of};

/// A family of samples of `/metrics`.
#[derive(Clone, Copy)]
pub enum Family {
    Started,
    Memory,
    Lines,
    Refused,
    Rounds,
    Lists,
    PlansFound,
    PlansMade,
    LinesOfRounds,
    TimesOfRounds,
    KeptRounds,
    KeptBytes,
    Syncs,
    InUse,
    Slots,
    Accepted,
    FailedAccepts,
    TurnedAway,
    Idled,
    Received,
    Sent,
    NodeWaits,
    NodeWeight,
}

impl Family {
    pub fn name(self) -> &'static str
        ensures { result.now ≡ (row_of self).name }
    {
        match self {
            Family::Started => "process_start_time_seconds",
            Family::Memory => "process_resident_memory_bytes",
            Family::Lines => "grove_lines_total",
            Family::Refused => "grove_refused_lines_total",
            Family::Rounds => "grove_rounds_total",
            Family::Lists => "grove_lists_total",
            Family::PlansFound => "grove_kept_plans_hits_total",
            Family::PlansMade => "grove_kept_plans_misses_total",
            Family::LinesOfRounds => "grove_round_lines",
            Family::TimesOfRounds => "grove_round_duration_seconds",
            Family::KeptRounds => "grove_data_rounds",
            Family::KeptBytes => "grove_data_bytes",
            Family::Syncs => "grove_data_sync_duration_seconds",
            Family::InUse => "grove_connections",
            Family::Slots => "grove_connection_slots",
            Family::Accepted => "grove_accepted_connections_total",
            Family::FailedAccepts => "grove_failed_accepts_total",
            Family::TurnedAway => "grove_turned_away_connections_total",
            Family::Idled => "grove_idled_connections_total",
            Family::Received => "grove_received_bytes_total",
            Family::Sent => "grove_sent_bytes_total",
            Family::NodeWaits => "grove_node_waits",
            Family::NodeWeight => "grove_node_weight",
        }
    }

    /// What kind of number it has: one that only grows, one that grows and falls, or a histogram.
    pub fn kind(self) -> &'static str
        ensures { result.now ≡ (row_of self).kind }
    {
        match self {
            Family::Started | Family::Memory | Family::InUse | Family::Slots => "gauge",
            Family::NodeWaits | Family::NodeWeight => "gauge",
            Family::KeptRounds | Family::KeptBytes => "gauge",
            Family::LinesOfRounds | Family::TimesOfRounds | Family::Syncs => "histogram",
            _ => "counter",
        }
    }

    pub fn help(self) -> &'static str
        ensures { result.now ≡ (row_of self).help }
    {
        match self {
            Family::Started => "When the server was started, in seconds since 1970.",
            Family::Memory => "How much memory the server has, in bytes.",
            Family::Lines => "Lines that were answered.",
            Family::Refused => "Lines that were refused, by the name of the error.",
            Family::Rounds => "Rounds of batches that were run.",
            Family::Lists => "Lists of the batches of rounds.",
            Family::PlansFound => "Lists whose plan was kept already.",
            Family::PlansMade => "Lists that were planned, since no plan was kept for them.",
            Family::LinesOfRounds => "Lines that were answered together at the store.",
            Family::TimesOfRounds => "How long the store took to answer lines together.",
            Family::KeptRounds => "Rounds of the store that the file of --data has.",
            Family::KeptBytes => "How many bytes the file of --data has.",
            Family::Syncs => "How long it took until what changed was on the disk.",
            Family::InUse => "Connections that have a slot, by protocol.",
            Family::Slots => "Connections that may have a slot at once, by protocol.",
            Family::Accepted => "Connections that were accepted, by protocol.",
            Family::FailedAccepts => "Tries to accept a connection that failed, by protocol.",
            Family::TurnedAway =>
                "Connections that were closed since there was no slot, by protocol.",
            Family::Idled => "Connections that were ended since they idled, by protocol.",
            Family::Received => "Bytes that were read from connections, by protocol.",
            Family::Sent => "Bytes that were written to connections, by protocol.",
            Family::NodeWaits => {
                "How often a lock of the node found it held since the weights changed last."
            }
            Family::NodeWeight => "The weight of the node.",
        }
    }
}
