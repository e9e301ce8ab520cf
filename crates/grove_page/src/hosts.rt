ghost use Rattle.std.specs.Prelude.{◌≡◌, ◌==◌, ◌↔◌, ◌≤◌, not, length, codes, map, string_bytes, IsTrue};
ghost use Rattle.std.specs.List.{list_any, prefix_len};
ghost use Rattle.std.specs.Option.{option_to_list, option_copied};
ghost use Rattle.http.specs.Request.{head_of};
ghost use Rattle.http1.specs.Text.{eq_ignore_case};
ghost use Rattle.http_server.specs.Host.{is_bracketed};
ghost use Rattle.grove_page.specs.Hosts.{name_in, is_known_name, IsAddress, IsKnownHost, AreKnownHosts, IsForHere};
ghost use Rattle.grove_page.specs.Routes.{values_of};

use bytes::Bytes;
use http::{HeaderMap, HeaderValue, Request, header};
use http1::text::eq_ignore_case;
use std::net::Ipv4Addr;

/// Is the request for this server, by the hosts that it names?
pub(crate) fn is_for_here(names: &[String], request: &Request<Bytes>) -> bool
    ensures { IsTrue result ↔ IsForHere (map string_bytes names.now) (head_of request.now) }
{
    are_known_fields(names, request.headers()) && is_known_target(names, request.uri().host())
}

/// Do these fields name no host, or a single one that is known?
fn are_known_fields(names: &[String], fields: &HeaderMap<HeaderValue>) -> bool
    ensures { IsTrue result
        ↔ AreKnownHosts (map string_bytes names.now) (values_of fields.now (codes "host")) }
{
    let mut hosts = fields.get_all(header::HOST).iter();
    match (hosts.next(), hosts.next()) {
        (None, _) => true,
        (Some(host), None) => is_known_host(names, host.as_bytes()),
        (Some(_), Some(_)) => false,
    }
}

/// Is this no host, or one that is known?
fn is_known_target(names: &[String], host: Option<&str>) -> bool
    ensures { IsTrue result
        ↔ AreKnownHosts (map string_bytes names.now) (option_to_list (option_copied host.entry)) }
{
    match host {
        Some(host) => is_known_host(names, host.as_bytes()),
        None => true,
    }
}

/// Is it an address, or a name that is known, with or without a port?
fn is_known_host(names: &[String], host: &[u8]) -> bool
    ensures { IsTrue result ↔ IsKnownHost (map string_bytes names.now) host.now }
{
    let name = name_in(host);
    is_bracketed(host) || is_known_name(names, name) || is_address(name)
}

fn is_bracketed(host: &[u8]) -> bool
    ensures { result ≡ is_bracketed host.now }
{
    !host.is_empty() && host[0] == b'['
}

/// What stands before a port.
fn name_in(host: &[u8]) -> &[u8]
    ensures { result.now ≡ name_in host.now }
{
    &host[..name_length(host)]
}

fn name_length(host: &[u8]) -> usize
    ensures value { result ≡ prefix_len (λ byte. not (byte == 58)) host.now }
    ensures within { result ≤ length host.now }
{
    host.iter().take_while(|byte| **byte != b':').count()
}

#[tactic(auto, using(crate::proofs::Mapped::any_of_them))]
fn is_known_name(names: &[String], name: &[u8]) -> bool
    ensures { result ≡ is_known_name (map string_bytes names.now) name.now }
{
    eq_ignore_case(b"localhost", name) || is_among(names, name)
}

/// Is it one of the names, in any case?
fn is_among(names: &[String], name: &[u8]) -> bool
    ensures { result ≡ list_any (λ known. eq_ignore_case (string_bytes known) name.now) names.now }
{
    names
        .iter()
        .any(|known| eq_ignore_case(known.as_bytes(), name))
}

fn is_address(name: &[u8]) -> bool
    ensures { IsTrue result ↔ IsAddress name.now }
{
    match Ipv4Addr::parse_ascii(name) {
        Ok(_) => true,
        Err(_) => false,
    }
}
