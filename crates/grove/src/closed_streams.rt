//! The places of standard streams that were closed when the program was started.
use grove_words::{Command, Order};
use std::fs::{self, File};
use std::os::fd::AsRawFd;
use std::rt::Files;

/// The descriptors of standard streams are the numbers below this one.
const STREAMS: i32 = 3;

/// What has the place of each standard stream that is closed, as long as this is kept.
#[derive(Drop)]
pub struct Placeholders {
    _first: Option<File>,
    _second: Option<File>,
    _third: Option<File>,
}

impl Placeholders {
    /// Those for an order. Whatever is opened gets the lowest number that is free. So a connection would get that of a
    /// closed stream, and whoever is at its other end what is printed there.
    pub fn for_order<R: Files<File = File>>(rt: &R, order: &Order<'_>) -> Placeholders {
        let is_needed = has_connections(order);
        Placeholders {
            _first: placeholder(rt, is_needed),
            _second: placeholder(rt, is_needed),
            _third: placeholder(rt, is_needed),
        }
    }
}

fn has_connections(order: &Order<'_>) -> bool {
    match order {
        Order::Ask { .. } | Order::Save { .. } | Order::Resume { .. } => true,
        Order::Data { .. } => false,
        Order::Do { command, .. } => matches!(command, Command::Serve(_) | Command::Page(_)),
    }
}

/// A folder in the place of a closed stream, if there still is one: neither can it be read there nor written.
fn placeholder<R: Files<File = File>>(rt: &R, is_needed: bool) -> Option<File> {
    if !is_needed {
        return None;
    }
    let folder = fs::open(rt, "/").ok()?;
    if folder.as_raw_fd() < STREAMS {
        Some(folder)
    } else {
        None
    }
}
