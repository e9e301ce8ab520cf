use clap::builder::ValueParser;
use clap::{Arg, ArgAction};
use std::alloc::{AllocError, Global};

/// An argument of a command.
#[derive(Clone, Copy)]
pub struct Argument {
    /// The name that it is found under, and its word after two hyphens.
    pub name: &'static str,
    /// Whether it has no such word, and is known by its place.
    pub is_placed: bool,
    /// What its value is called, of an option.
    pub value: Option<&'static str>,
    pub action: ArgAction,
    pub parser: ValueParser<'static>,
    /// The value that holds without it, if there is one.
    pub default: Option<&'static str>,
    pub is_required: bool,
    pub is_hidden: bool,
    pub help: &'static str,
}

/// The command with these arguments too.
pub fn with_arguments<'a>(
    alloc: Global,
    command: clap::Command<'a>,
    arguments: &'static [Argument],
) -> Result<clap::Command<'a>, AllocError> {
    let mut command = command;
    for argument in arguments {
        command = command.arg(clap_argument(alloc, argument))?;
    }
    Ok(command)
}

/// An argument as clap has it. The values that it may have are told by its help alone.
fn clap_argument<'a>(alloc: Global, argument: &'static Argument) -> Arg<'a> {
    let placed = Arg::new(alloc, argument.name)
        .value_names(argument.value.as_slice())
        .action(argument.action)
        .value_parser(argument.parser)
        .default_values(argument.default.as_slice())
        .required(argument.is_required)
        .hide(argument.is_hidden)
        .hide_possible_values(true)
        .help(argument.help);
    if argument.is_placed {
        placed
    } else {
        placed.long(argument.name)
    }
}
