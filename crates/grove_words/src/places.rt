use crate::no_order::wrong;
use crate::order::{Place, Port};
use clap::{ArgMatches, Error};
use std::alloc::Global;
use std::net::{IpAddr, SocketAddr};

/// The place that the command of a word serves at.
pub fn place_in(alloc: Global, word: &str, given: &ArgMatches<'_>) -> Result<Place, Error> {
    Ok(Place {
        address: address_in(alloc, word, "bind", given)?,
        port: port_in(given),
        http: given.get_one::<u16>("http"),
    })
}

/// The server that the command of a word calls.
pub fn server_in(alloc: Global, word: &str, given: &ArgMatches<'_>) -> Result<SocketAddr, Error> {
    let address = address_in(alloc, word, "address", given)?;
    match given.get_one::<u16>("port") {
        Some(port) => Ok(SocketAddr::new(address, port)),
        None => Err(wrong(alloc, word, "'--port <P>' is required")?),
    }
}

/// The address that is given by an option.
fn address_in(
    alloc: Global,
    word: &str,
    option: &str,
    given: &ArgMatches<'_>,
) -> Result<IpAddr, Error> {
    match given.get_one::<IpAddr>(option) {
        Some(address) => Ok(address),
        None => {
            let value = given.get_str(option).unwrap_or("");
            let told = format!(in alloc;
                "invalid value '{value}' for '--{option} <ADDRESS>': an IP address is needed, without a port, \
                 as 127.0.0.1 or ::1"
            )?;
            Err(wrong(alloc, word, &told)?)
        }
    }
}

/// The port to listen on. Clap lets no words through that say none.
fn port_in(given: &ArgMatches<'_>) -> Port {
    match given.get_one::<u16>("port") {
        Some(port) => Port::Named(port),
        None => Port::Any,
    }
}
