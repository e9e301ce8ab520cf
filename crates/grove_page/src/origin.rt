ghost use Rattle.std.specs.Prelude.{◌≡◌, ◌++◌, codes, bytes_eq};
ghost use Rattle.grove_page.specs.Routes.{is_of_host, values_of};

use http::{HeaderMap, HeaderValue, header};

/// Does no page send these fields, or a page of the host that they name?
pub(crate) fn is_from_here(fields: &HeaderMap<HeaderValue>) -> bool
    ensures { result ≡ is_of_host (values_of fields.now (codes "origin")) (values_of fields.now (codes "host")) }
{
    let mut origins = fields.get_all(header::ORIGIN).iter();
    let Some(origin) = origins.next() else {
        return true;
    };
    let mut hosts = fields.get_all(header::HOST).iter();
    match (hosts.next(), hosts.next(), origins.next()) {
        (Some(host), None, None) => is_origin_of(origin.as_bytes(), host.as_bytes()),
        _ => false,
    }
}

/// Is this the origin of a host, by http?
fn is_origin_of(origin: &[u8], host: &[u8]) -> bool
    ensures { result ≡ bytes_eq origin.now (codes "http://" ++ host.now) }
{
    origin.strip_prefix(b"http://") == Some(host)
}
