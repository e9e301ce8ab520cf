use crate::ending::Ending;
use crate::event::Event;
use crate::fields::Fields;
use grove_gauge::Minute;
use grove_words::LogForm;
use jiff::Timestamp;
use std::fmt;

/// An event as a line of the log: its time, its level, its name and its data, in this order.
#[derive(Clone, Copy)]
pub struct EventLine<'a> {
    pub form: LogForm,
    pub time: Timestamp,
    pub event: Event<'a>,
}

impl fmt::Display for EventLine<'_> {
    fn fmt<W: fmt::Write>(&self, f: &mut fmt::Formatter<W>) -> fmt::Result {
        let mut fields = Fields::begin(f, self.form)?;
        fields.time("time", self.time)?;
        fields.text("level", self.event.level().name())?;
        fields.text("event", self.event.name())?;
        write_data(&mut fields, &self.event)?;
        fields.end()
    }
}

/// The data of the event.
fn write_data<W: fmt::Write>(fields: &mut Fields<'_, W>, event: &Event<'_>) -> fmt::Result {
    match event {
        Event::Accepted {
            connection,
            address,
        } => {
            fields.number("connection", *connection)?;
            fields.address("address", *address)
        }
        Event::Refused {
            connection,
            line,
            name,
            hint,
        } => write_refusal(fields, *connection, *line, name, *hint),
        Event::Ended {
            connection,
            lines,
            ending,
        } => write_ending(fields, *connection, *lines, *ending),
        Event::TurnedAway { connection } | Event::NoThread { connection } => {
            fields.number("connection", *connection)
        }
        Event::NoHttp | Event::NoGuard | Event::EachSecond | Event::Lacks(_) => Ok(()),
        Event::NotAccepted { talk, error } | Event::Stopped { talk, error } => {
            fields.text("protocol", talk.protocol())?;
            fields.optional_number("os_error", *error)
        }
        Event::Minute {
            minute,
            connections,
            waits,
        } => write_minute(fields, minute, *connections, *waits),
        Event::LeftOut { events } => fields.number("events", *events),
    }
}

fn write_refusal<W: fmt::Write>(
    fields: &mut Fields<'_, W>,
    connection: u64,
    line: u64,
    name: &str,
    hint: Option<&str>,
) -> fmt::Result {
    fields.number("connection", connection)?;
    fields.number("line", line)?;
    fields.text("error", name)?;
    fields.optional_text("hint", hint)
}

fn write_ending<W: fmt::Write>(
    fields: &mut Fields<'_, W>,
    connection: u64,
    lines: u64,
    ending: Ending,
) -> fmt::Result {
    fields.number("connection", connection)?;
    fields.number("lines", lines)?;
    fields.text("why", ending.name())?;
    fields.optional_number(
        "idle_seconds",
        ending.idle().map(|seconds| u64::from(seconds)),
    )
}

fn write_minute<W: fmt::Write>(
    fields: &mut Fields<'_, W>,
    minute: &Minute,
    connections: u64,
    waits: Option<u64>,
) -> fmt::Result {
    fields.number("lines", minute.lines)?;
    fields.number("refused", minute.refused)?;
    fields.number("connections", connections)?;
    fields.number("rounds", minute.rounds)?;
    fields.optional_number("waits", waits)?;
    if let Some(times) = minute.times {
        fields.seconds("round_median_seconds", times.median)?;
        fields.seconds("round_p99_seconds", times.slowest)?;
    }
    Ok(())
}
