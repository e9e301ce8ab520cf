use crate::order::{Form, LogForm, SyncEach, Workers};
use clap::ArgMatches;
use std::alloc::{AllocError, Global};

/// The number of workers where the words don't say it, and the greatest.
const FEW_WORKERS: u32 = 4;

pub const MOST_WORKERS: u32 = 16;

/// How many connections over HTTP are served at once where the words don't say it.
const HTTP_SEATS: u32 = 64;

/// The texts under a name, in their order.
pub fn texts_of<'a>(
    alloc: Global,
    given: &ArgMatches<'a>,
    name: &str,
) -> Result<Vec<&'a str>, AllocError> {
    let mut texts = Vec::new(alloc);
    if let Some(given) = given.get_strs(name) {
        texts.extend_from_slice(given)?;
    }
    Ok(texts)
}

/// The name of a command's file. Clap lets no words through that lack it.
pub fn file_in<'a>(given: &ArgMatches<'a>) -> &'a str {
    given.get_str("FILE").unwrap_or("")
}

/// The number of workers, for a command that has one. Clap lets none but those from 1 to 16 through.
pub fn workers_in(given: &ArgMatches<'_>) -> Workers {
    let number = given.get_one::<u32>("workers").unwrap_or(FEW_WORKERS);
    Workers {
        number: number.max(1).min(MOST_WORKERS),
    }
}

/// How many connections over HTTP are served at once.
pub fn http_seats_in(given: &ArgMatches<'_>) -> u32 {
    given.get_one::<u32>("http-seats").unwrap_or(HTTP_SEATS)
}

/// How often rounds are synced.
pub fn sync_in(given: &ArgMatches<'_>) -> SyncEach {
    given.get_one::<SyncEach>("sync").unwrap_or(SyncEach::Round)
}

/// The form of the log, if one is asked for.
pub fn log_in(given: &ArgMatches<'_>) -> Option<LogForm> {
    if given.get_flag("verbose") {
        Some(given.get_one::<LogForm>("log").unwrap_or(LogForm::Text))
    } else {
        None
    }
}

/// The form of a drawing, for a command that has one.
pub fn form_in(given: &ArgMatches<'_>) -> Form {
    if given.get_flag("text") {
        Form::Text
    } else {
        Form::Svg
    }
}
