ghost use Rattle.std.specs.Prelude.{IfErr};
ghost use Rattle.grove_words.specs.NoOrders.{HasText};

use crate::definitions::command_line;
use crate::no_order::{NoOrder, no_order};
use crate::options::{file_in, form_in, http_seats_in, log_in, sync_in, texts_of, workers_in};
use crate::order::{Command, Document, Front, Invocation, Order, Patience, Serving};
use crate::places::{place_in, server_in};
use crate::togetherness::go_together;
use clap::{ArgMatches, Error};
use std::alloc::Global;

/// What the words after the program's name ask for, or what they are told. No words ask to judge standard input.
pub fn order_of<'a>(alloc: Global, words: &'a [String]) -> Result<Invocation<'a>, NoOrder>
    ensures { IfErr result HasText }
{
    match invocation_among(alloc, words) {
        Ok(invocation) => Ok(invocation),
        Err(error) => Err(no_order(alloc, &error, words)),
    }
}

/// What clap finds in the words, or what they are told. A place may have what is no address.
fn invocation_among<'a>(alloc: Global, words: &'a [String]) -> Result<Invocation<'a>, Error> {
    let matches = matches_among(alloc, words)?;
    invocation_of(alloc, &matches)
}

fn matches_among<'a>(alloc: Global, words: &'a [String]) -> Result<ArgMatches<'a>, Error> {
    command_line(alloc)?.try_get_matches_from(words)
}

fn invocation_of<'a>(alloc: Global, matches: &ArgMatches<'a>) -> Result<Invocation<'a>, Error> {
    match matches.subcommand() {
        Some((word, given)) => Ok(Invocation {
            order: order_with(alloc, word, given)?,
            quiet: given.get_flag("quiet"),
        }),
        None => Ok(Invocation {
            order: Order::Do {
                command: Command::Judge,
                document: Document::StandardInput,
            },
            quiet: false,
        }),
    }
}

/// The order of a command's word and of what was given with it. Clap lets no other words through.
fn order_with<'a>(alloc: Global, word: &str, given: &ArgMatches<'a>) -> Result<Order<'a>, Error> {
    go_together(alloc, word, given)?;
    match word {
        "serve" => serving_order(alloc, word, Front::Sessions, given),
        "page" => serving_order(alloc, word, Front::Page, given),
        "ask" => asking_order(alloc, word, given),
        "save" => Ok(Order::Save {
            server: server_in(alloc, word, given)?,
            file: file_in(given),
        }),
        "data" => Ok(Order::Data {
            file: file_in(given),
            checks: given.get_flag("check"),
        }),
        _ => Ok(Order::Do {
            command: reading_command(word, given),
            document: document_in(given, "DOC"),
        }),
    }
}

/// What is done with a document that is read.
fn reading_command<'a>(word: &str, given: &ArgMatches<'_>) -> Command<'a> {
    match word {
        "check" => Command::Check,
        "plan" => Command::Plan {
            in_document: given.get_flag("document"),
        },
        "draw" => Command::Draw {
            form: form_in(given),
        },
        "run" => Command::Run {
            workers: workers_in(given),
        },
        "audit" => Command::Audit,
        "tree" => tree_command(given),
        _judge => Command::Judge,
    }
}

/// A store is served: a document's, or without one that of the file of its rounds.
fn serving_order<'a>(
    alloc: Global,
    word: &str,
    front: Front,
    given: &ArgMatches<'a>,
) -> Result<Order<'a>, Error> {
    let serving = serving_in(alloc, word, given)?;
    if let (None, Some(file)) = (given.get_str("tree"), serving.data) {
        return Ok(Order::Resume {
            front,
            file,
            serving,
        });
    }
    let command = match front {
        Front::Sessions => Command::Serve(serving),
        Front::Page => Command::Page(serving),
    };
    Ok(Order::Do {
        command,
        document: document_in(given, "tree"),
    })
}

fn asking_order<'a>(alloc: Global, word: &str, given: &ArgMatches<'a>) -> Result<Order<'a>, Error> {
    let server = server_in(alloc, word, given)?;
    let lines = texts_of(alloc, given, "LINE")?;
    Ok(Order::Ask { server, lines })
}

/// Where the document of a command is, which is named under this name.
fn document_in<'a>(given: &ArgMatches<'a>, name: &str) -> Document<'a> {
    match given.get_str(name) {
        Some(name) => Document::Named(name),
        None => Document::StandardInput,
    }
}

/// What is done with a tree by path.
fn tree_command<'a>(given: &ArgMatches<'_>) -> Command<'a> {
    if given.get_flag("csv") {
        Command::Table
    } else {
        Command::Tree {
            adds_parents: given.get_flag("parents"),
        }
    }
}

/// Where and how a command serves.
fn serving_in<'a>(alloc: Global, word: &str, given: &ArgMatches<'a>) -> Result<Serving<'a>, Error> {
    Ok(Serving {
        place: place_in(alloc, word, given)?,
        data: given.get_str("data"),
        sync: sync_in(given),
        workers: workers_in(given),
        patience: Patience {
            idle: given.get_one::<u32>("idle"),
            tells_busy: given.get_flag("busy"),
        },
        log: log_in(given),
        http_seats: http_seats_in(given),
        hosts: texts_of(alloc, given, "host")?,
        hints: given.get_flag("hints"),
    })
}
