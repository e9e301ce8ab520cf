use crate::hosts::hosts_fit;
use crate::no_order::wrong;
use clap::{ArgMatches, Error};
use std::alloc::Global;

const LOG_APART: &str = "'--log <FORM>' needs '--verbose'";

const SYNC_APART: &str = "'--sync <WHEN>' needs '--data <FILE>'";

const SEATS_APART: &str = "'--http-seats <N>' needs '--http <PORT>'";

const HOST_APART: &str = "'--host <NAME>' needs '--http <PORT>'";

const NO_HOST_NAME: &str =
    "'--host <NAME>' is a name without a port, of letters, digits, '-', '.' and '_'";

const TREE_APART: &str = "'--parents' cannot be used with '--csv'";

/// Refuses options of a command that don't go together, and names of the host that are none. They are told in words of
/// our own, which say what to write instead.
pub fn go_together(alloc: Global, word: &str, given: &ArgMatches<'_>) -> Result<(), Error> {
    match apart(word, given) {
        Some(message) => Err(wrong(alloc, word, message)?),
        None => Ok(()),
    }
}

/// What is wrong with options that don't go together, or with a name of the host.
fn apart(word: &str, given: &ArgMatches<'_>) -> Option<&'static str> {
    match word {
        "tree" if given.get_flag("csv") && given.get_flag("parents") => Some(TREE_APART),
        "serve" if !given.contains_id("http") => http_apart(given).or(serving_apart(given)),
        "serve" | "page" => serving_apart(given),
        _ => None,
    }
}

/// The option that is about HTTP, if one is given, where no port for HTTP is.
fn http_apart(given: &ArgMatches<'_>) -> Option<&'static str> {
    if given.contains_id("http-seats") {
        Some(SEATS_APART)
    } else if given.contains_id("host") {
        Some(HOST_APART)
    } else {
        None
    }
}

/// What is wrong with options of each command that serves.
fn serving_apart(given: &ArgMatches<'_>) -> Option<&'static str> {
    if given.contains_id("sync") && !given.contains_id("data") {
        Some(SYNC_APART)
    } else if given.contains_id("log") && !given.get_flag("verbose") {
        Some(LOG_APART)
    } else if !hosts_fit(given) {
        Some(NO_HOST_NAME)
    } else {
        None
    }
}
