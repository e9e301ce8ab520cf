ghost use Rattle.std.specs.Prelude.{◌≡◌, ◌++◌, OnOk, codes};
ghost use Rattle.grove_gauge.specs.Counts.{by_protocol_text, counts_text, lines_text, ports_text};
ghost use Rattle.grove_gauge.specs.Counts.{kept_text, refusals_text, rounds_text};

use crate::{Buckets, Exposition, Family, Label};
use grove_base::NoMemory;

/// What is counted of a server, as it is at some time.
#[derive(Drop)]
pub struct Counts<'a> {
    /// When it was started, in seconds since 1970; nothing, if the clock didn't say.
    pub started: Option<u64>,
    /// How many bytes of memory it has, if the system says it.
    pub memory: Option<u64>,
    /// Lines that were answered.
    pub lines: u64,
    pub refusals: &'a [RefusalCount],
    /// Rounds that the store has counted.
    pub rounds: u64,
    /// Lists of these rounds.
    pub lists: u64,
    pub plans_found: u64,
    pub plans_made: u64,
    pub lines_of_rounds: Buckets,
    pub times_of_rounds: Buckets,
    /// What is counted of the file that rounds are kept in, if they are.
    pub kept: Option<KeptCounts>,
    pub tcp: PortCounts,
    pub http: PortCounts,
}

/// How many lines were refused by a name.
#[derive(Drop)]
pub struct RefusalCount {
    pub name: String,
    pub lines: u64,
}

/// What is counted of the file that rounds are kept in.
#[derive(Clone, Copy)]
pub struct KeptCounts {
    /// The store's count of rounds as it was kept last.
    pub rounds: u64,
    pub bytes: u64,
    /// How long each sync of the file took.
    pub syncs: Buckets,
}

/// What is counted of the connections of a port.
#[derive(Clone, Copy)]
pub struct PortCounts {
    /// Connections that have a slot, and those that may at once.
    pub in_use: u64,
    pub slots: u64,
    pub accepted: u64,
    /// How often the next connection couldn't be accepted.
    pub failed_accepts: u64,
    /// Connections for which there was no slot, and that were told so.
    pub turned_away: u64,
    /// Connections that were ended because they idled.
    pub idled: u64,
    pub bytes_received: u64,
    pub bytes_sent: u64,
}

/// Writes what is counted.
pub fn write_counts(text: &mut Exposition, counts: &Counts<'_>) -> Result<(), NoMemory>
    ensures { OnOk result (text.new ≡ text.old ++ counts_text counts.now) }
{
    write_lines(text, counts)?;
    write_rounds(text, counts)?;
    write_kept(text, counts.kept)?;
    write_ports(text, counts.tcp, counts.http)
}

/// The server, and the lines that it answered.
fn write_lines(text: &mut Exposition, counts: &Counts<'_>) -> Result<(), NoMemory>
    ensures { OnOk result (text.new ≡ text.old ++ lines_text counts.now) }
{
    text.maybe(Family::Started, counts.started)?;
    text.maybe(Family::Memory, counts.memory)?;
    text.single(Family::Lines, counts.lines)?;
    write_refusals(text, counts.refusals)
}

/// The rounds of the store, and their plans.
fn write_rounds(text: &mut Exposition, counts: &Counts<'_>) -> Result<(), NoMemory>
    ensures { OnOk result (text.new ≡ text.old ++ rounds_text counts.now) }
{
    text.single(Family::Rounds, counts.rounds)?;
    text.single(Family::Lists, counts.lists)?;
    text.single(Family::PlansFound, counts.plans_found)?;
    text.single(Family::PlansMade, counts.plans_made)?;
    text.histogram(Family::LinesOfRounds, &counts.lines_of_rounds)?;
    text.histogram(Family::TimesOfRounds, &counts.times_of_rounds)
}

/// The file that rounds are kept in, if they are.
fn write_kept(text: &mut Exposition, kept: Option<KeptCounts>) -> Result<(), NoMemory>
    ensures { OnOk result (text.new ≡ text.old ++ kept_text kept) }
{
    let Some(kept) = kept else {
        return Ok(());
    };
    text.single(Family::KeptRounds, kept.rounds)?;
    text.single(Family::KeptBytes, kept.bytes)?;
    text.histogram(Family::Syncs, &kept.syncs)
}

/// The lines that were refused, by name.
fn write_refusals(text: &mut Exposition, refusals: &[RefusalCount]) -> Result<(), NoMemory>
    ensures { OnOk result (text.new ≡ text.old ++ refusals_text refusals.now) }
{
    text.begin(Family::Refused)?;
    for refusal in refusals {
        let label = Label {
            name: "error",
            value: refusal.name.as_str(),
        };
        text.labelled(Family::Refused, label, refusal.lines)?;
    }
    Ok(())
}

/// What is counted of connections, by protocol.
fn write_ports(text: &mut Exposition, tcp: PortCounts, http: PortCounts) -> Result<(), NoMemory>
    ensures { OnOk result (text.new ≡ text.old ++ ports_text tcp http) }
{
    by_protocol(text, Family::InUse, tcp.in_use, http.in_use)?;
    by_protocol(text, Family::Slots, tcp.slots, http.slots)?;
    by_protocol(text, Family::Accepted, tcp.accepted, http.accepted)?;
    by_protocol(
        text,
        Family::FailedAccepts,
        tcp.failed_accepts,
        http.failed_accepts,
    )?;
    by_protocol(text, Family::TurnedAway, tcp.turned_away, http.turned_away)?;
    by_protocol(text, Family::Idled, tcp.idled, http.idled)?;
    by_protocol(
        text,
        Family::Received,
        tcp.bytes_received,
        http.bytes_received,
    )?;
    by_protocol(text, Family::Sent, tcp.bytes_sent, http.bytes_sent)
}

/// A family with a count for each protocol.
fn by_protocol(text: &mut Exposition, family: Family, tcp: u64, http: u64) -> Result<(), NoMemory>
    ensures { OnOk result (text.new ≡ text.old ++ by_protocol_text family tcp http) }
{
    text.begin(family)?;
    text.labelled(family, protocol("tcp"), tcp)?;
    text.labelled(family, protocol("http"), http)
}

fn protocol(value: &'static str) -> Label<'static>
    ensures { (result.name.now ≡ codes "protocol") × (result.value.now ≡ value.now) }
{
    Label {
        name: "protocol",
        value,
    }
}
