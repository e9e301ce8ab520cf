use clap::ArgMatches;

/// Whether each name of the host that is given, if any is, is one.
pub fn hosts_fit(given: &ArgMatches<'_>) -> bool {
    match given.get_strs("host") {
        Some(names) => names.iter().all(|name| is_host_name(name)),
        None => true,
    }
}

/// Whether a text can be the host of a request, without a port.
fn is_host_name(name: &str) -> bool {
    !name.is_empty() && name.bytes().all(|byte| is_in_host_name(byte))
}

fn is_in_host_name(byte: u8) -> bool {
    byte.is_ascii_alphanumeric() || byte == b'-' || byte == b'.' || byte == b'_'
}
