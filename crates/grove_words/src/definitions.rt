use crate::arguments::{Argument, with_arguments};
use crate::options::MOST_WORKERS;
use clap::builder::ValueParser;
use clap::{ArgAction, ArgGroup};
use std::alloc::{AllocError, Global};

/// The program's version.
const VERSION: &str = "0.2.0";

/// For how many seconds a connection may be let idle at most, where there is a limit: a day.
const LONGEST_IDLE: i64 = 86_400;

/// How many connections over HTTP are served at once at most.
const MOST_HTTP_SEATS: i64 = 1_024;

/// The last port.
const LAST_PORT: i64 = 65_535;

/// An option with a text as its value.
const OPTION: Argument = Argument {
    name: "",
    is_placed: false,
    value: None,
    action: ArgAction::Set,
    parser: ValueParser::String,
    default: None,
    is_required: false,
    is_hidden: false,
    help: "",
};

const FLAG: Argument = Argument {
    action: ArgAction::SetTrue,
    parser: ValueParser::Bool,
    ..OPTION
};

/// A text that is known by its place.
const PLACE: Argument = Argument {
    is_placed: true,
    ..OPTION
};

const QUIET: Argument = Argument {
    name: "quiet",
    help: "If a file, a port or a server fails, leave out the line that says why",
    ..FLAG
};

/// What it asks for is done without it. It is taken so that words which have it stay right.
const EXPLAIN: Argument = Argument {
    name: "explain",
    help: "Say why something fails, as is done anyway",
    is_hidden: true,
    ..FLAG
};

const WORKERS: Argument = Argument {
    name: "workers",
    value: Some("N"),
    parser: ValueParser::Signed(1, MOST_WORKERS as i64),
    default: Some("4"),
    help: "How many threads run lists at once",
    ..OPTION
};

const PORT: Argument = Argument {
    name: "port",
    value: Some("P"),
    parser: ValueParser::Signed(1, LAST_PORT),
    ..OPTION
};

const ADDRESS: Argument = Argument {
    value: Some("ADDRESS"),
    default: Some("127.0.0.1"),
    ..OPTION
};

/// A command: the word that it is called by, and what help says of it.
#[derive(Clone, Copy)]
struct Definition {
    word: &'static str,
    about: &'static str,
    kind: Kind,
    /// The arguments of its own, which come after those of its kind.
    own: &'static [Argument],
}

/// What commands have in common.
#[derive(Clone, Copy)]
enum Kind {
    /// A document is read.
    Reading,
    /// A document's tree is served at a port.
    Serving,
    /// The server at a port is called.
    Calling,
    /// Nothing.
    Alone,
}

/// The arguments of commands that read a document, in the order of their help.
static READING: [Argument; 3] = [
    Argument {
        name: "DOC",
        help: "The file to read; by default standard input",
        ..PLACE
    },
    QUIET,
    EXPLAIN,
];

/// Those of commands that serve.
static SERVING: [Argument; 15] = [
    Argument {
        name: "tree",
        value: Some("DOC"),
        help: "The file of the document with the tree and its records",
        ..OPTION
    },
    Argument {
        name: "data",
        value: Some("FILE"),
        help: "Keep each round in this file, which goes on from there; it is made of DOC if it isn't there",
        ..OPTION
    },
    Argument {
        name: "sync",
        value: Some("WHEN"),
        parser: ValueParser::Names(&["round", "second"]),
        help: "Sync FILE at each round, or each second, so that a crash loses about a second; by default round",
        ..OPTION
    },
    Argument {
        help: "The port to listen on",
        ..PORT
    },
    Argument {
        name: "any-port",
        help: "Listen on any free port, instead of --port",
        ..FLAG
    },
    Argument {
        name: "bind",
        help: "The IP address to listen at",
        ..ADDRESS
    },
    QUIET,
    EXPLAIN,
    WORKERS,
    Argument {
        name: "idle",
        value: Some("SECONDS"),
        parser: ValueParser::Signed(1, LONGEST_IDLE),
        help: "Close a connection that sends no whole line for so long; by default none is closed",
        ..OPTION
    },
    Argument {
        name: "busy",
        help: "If all connection slots are taken, refuse a new connection; by default it waits",
        ..FLAG
    },
    Argument {
        name: "verbose",
        help: "Log each connection on standard error, and each minute what was done",
        ..FLAG
    },
    Argument {
        name: "log",
        value: Some("FORM"),
        parser: ValueParser::Names(&["text", "json"]),
        help: "The form of the log of --verbose: text or json; by default text",
        ..OPTION
    },
    Argument {
        name: "hints",
        help: "Add a hint to the reply to each refused line: what is wrong, and where",
        ..FLAG
    },
    Argument {
        name: "host",
        value: Some("NAME"),
        action: ArgAction::Append,
        help: "A name that requests over HTTP may use for this host; may be repeated",
        ..OPTION
    },
];

/// Those of commands that call a server.
static CALLING: [Argument; 4] = [
    Argument {
        is_required: true,
        help: "The server's port",
        ..PORT
    },
    Argument {
        name: "address",
        help: "The server's IP address",
        ..ADDRESS
    },
    QUIET,
    EXPLAIN,
];

static COMMANDS: [Definition; 12] = [
    Definition {
        word: "judge",
        about: "Judge a plan: its cost, and the replies and records of its list",
        kind: Kind::Reading,
        own: &[],
    },
    Definition {
        word: "check",
        about: "Check a plan and its flow: its cost, if no legal plan for the list costs less",
        kind: Kind::Reading,
        own: &[],
    },
    Definition {
        word: "plan",
        about: "Plan a list: the cheapest plan, and the flow that proves it",
        kind: Kind::Reading,
        own: &[Argument {
            name: "document",
            help: "Print the whole document, with the plan and the flow in it",
            ..FLAG
        }],
    },
    Definition {
        word: "draw",
        about: "Draw a list's cheapest plan, and above it the document's own, if it has one",
        kind: Kind::Reading,
        own: &[Argument {
            name: "text",
            help: "Print lines for a terminal instead of SVG",
            ..FLAG
        }],
    },
    Definition {
        word: "run",
        about: "Run a batch of lists at once: their serial order, replies, records and waits",
        kind: Kind::Reading,
        own: &[WORKERS],
    },
    Definition {
        word: "audit",
        about: "Audit a history: what its events give, if they are a finished run",
        kind: Kind::Reading,
        own: &[],
    },
    Definition {
        word: "tree",
        about: "Make a document from CSV lines 'path,weight,value', or such lines from a document",
        kind: Kind::Reading,
        own: &[
            Argument {
                name: "csv",
                help: "Read a document, and print its tree as CSV",
                ..FLAG
            },
            Argument {
                name: "parents",
                help: "Add each parent that has no line, with weight 1 and value 0",
                ..FLAG
            },
        ],
    },
    Definition {
        word: "serve",
        about: "Serve sessions with the records of a tree over TCP",
        kind: Kind::Serving,
        own: &[
            Argument {
                name: "http",
                value: Some("PORT"),
                help: "Serve the page and its requests over HTTP too, at this port",
                ..PORT
            },
            Argument {
                name: "http-seats",
                value: Some("N"),
                parser: ValueParser::Signed(1, MOST_HTTP_SEATS),
                help: "How many connections over HTTP are served at once; by default 64",
                ..OPTION
            },
        ],
    },
    Definition {
        word: "page",
        about: "Serve the records of a tree over HTTP, with a page to look at them",
        kind: Kind::Serving,
        own: &[],
    },
    Definition {
        word: "ask",
        about: "Send lines to a server, and print its replies",
        kind: Kind::Calling,
        own: &[Argument {
            name: "LINE",
            action: ArgAction::Append,
            help: "The lines to send; by default those of standard input",
            ..PLACE
        }],
    },
    Definition {
        word: "save",
        about: "Save a server's tree and records in a file, over HTTP",
        kind: Kind::Calling,
        own: &[Argument {
            name: "FILE",
            is_required: true,
            help: "The file to write; an existing one is replaced in one step",
            ..PLACE
        }],
    },
    Definition {
        word: "data",
        about: "Print the document of a file of --data, also while a server has it open",
        kind: Kind::Alone,
        own: &[
            Argument {
                name: "FILE",
                is_required: true,
                help: "The file of --data; it is only read",
                ..PLACE
            },
            Argument {
                name: "check",
                help: "Print its rounds, its bytes, and whether its end is whole",
                ..FLAG
            },
            QUIET,
            EXPLAIN,
        ],
    },
];

/// The one definition of the command line.
pub fn command_line<'a>(alloc: Global) -> Result<clap::Command<'a>, AllocError> {
    let mut program = program(alloc)?;
    for definition in commands() {
        program = program.subcommand(command(alloc, definition)?)?;
    }
    Ok(program)
}

/// The command of a word, to show how it is used; the program if no command has that word.
pub fn command_named<'a>(alloc: Global, word: &str) -> Result<clap::Command<'a>, AllocError> {
    match commands().iter().find(|command| command.word == word) {
        Some(definition) => {
            let full_name = format!(in alloc; "grove {word}")?;
            command(alloc, definition)?.bin_name(&full_name)
        }
        None => command_line(alloc),
    }
}

/// The program before it has its commands.
fn program<'a>(alloc: Global) -> Result<clap::Command<'a>, AllocError> {
    clap::Command::new(alloc, "grove")
        .version(VERSION)
        .no_binary_name(true)
        .about("Records at the nodes of a tree, and lock plans for it. Without a command: judge")
        .bin_name("grove")
}

fn commands() -> &'static [Definition] {
    &COMMANDS
}

fn command<'a>(alloc: Global, definition: &Definition) -> Result<clap::Command<'a>, AllocError> {
    let command = clap::Command::new(alloc, definition.word).about(definition.about);
    let command = with_arguments(alloc, command, arguments(definition.kind))?;
    let command = with_arguments(alloc, command, definition.own)?;
    with_needs(alloc, command, definition.kind)
}

/// The arguments that commands of a kind have.
fn arguments(kind: Kind) -> &'static [Argument] {
    match kind {
        Kind::Reading => &READING,
        Kind::Serving => &SERVING,
        Kind::Calling => &CALLING,
        Kind::Alone => &[],
    }
}

/// A command with what its kind needs to be told. What is served comes from a document, from the file of an earlier
/// server, or is looked for in both; and one of the ways to say which port is listened on is needed.
fn with_needs<'a>(
    alloc: Global,
    command: clap::Command<'a>,
    kind: Kind,
) -> Result<clap::Command<'a>, AllocError> {
    match kind {
        Kind::Serving => {
            let sourced = needing(alloc, command, "source", &["tree", "data"], true)?;
            needing(alloc, sourced, "listening", &["port", "any-port"], false)
        }
        _ => Ok(command),
    }
}

/// A command that needs one of some options, or takes several of them.
fn needing<'a>(
    alloc: Global,
    command: clap::Command<'a>,
    name: &'static str,
    options: &'static [&'static str],
    takes_several: bool,
) -> Result<clap::Command<'a>, AllocError> {
    let group = ArgGroup::new(alloc, name)
        .multiple(takes_several)
        .required(true)
        .args(options)?;
    command.group(group)
}
