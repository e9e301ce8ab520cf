ghost use Rattle.std.specs.Prelude.{◌≡◌};
ghost use Rattle.http_uri.specs.Uri.{uri_query};
ghost use Rattle.grove_page.specs.Routes.{asks_for_hints, route_of, look_of, look_or_send_of};

use crate::origin::is_from_here;
use http::{HeaderMap, HeaderValue, Uri};

/// What a request asks for.
#[derive(Clone, Copy, Debug, PartialEq, Eq)]
pub enum Route {
    /// The page to look at.
    Page,
    /// Replies to lines.
    Lines,
    /// The store as a document.
    Document,
    /// What there is of each node.
    Nodes,
    /// Whether it is served.
    Health,
    /// What is counted of the server.
    Metrics,
    /// Something that is there, but by another method: it can only be looked at.
    OnlyLook,
    /// Something that is there, but by another method: it can be looked at, and lines can be sent to it.
    LookOrSend,
    /// Replies to lines that a page of another origin sends.
    ForeignPage,
    /// Nothing.
    Nowhere,
}

/// What a request by this method and with these fields asks for at this path.
pub fn route_for(method: &str, path: &str, fields: &HeaderMap<HeaderValue>) -> Route
    ensures { result ≡ route_of method.now path.now fields.now }
{
    match path {
        "/" => look_or_send(method, fields),
        "/document" => look(method, Route::Document),
        "/nodes" => look(method, Route::Nodes),
        "/health" => look(method, Route::Health),
        "/metrics" => look(method, Route::Metrics),
        _ => Route::Nowhere,
    }
}

/// Are hints asked for, as by `/?hints`?
pub(crate) fn asks_for_hints(uri: &Uri) -> bool
    ensures { result ≡ asks_for_hints (uri_query uri.now) }
{
    matches!(uri.query(), Some("hints"))
}

/// Where lines can be sent, too.
fn look_or_send(method: &str, fields: &HeaderMap<HeaderValue>) -> Route
    ensures { result ≡ look_or_send_of method.now fields.now }
{
    match method {
        "POST" if is_from_here(fields) => Route::Lines,
        "POST" => Route::ForeignPage,
        "GET" | "HEAD" => Route::Page,
        _ => Route::LookOrSend,
    }
}

/// Where something can only be looked at.
fn look(method: &str, seen: Route) -> Route
    ensures { result ≡ look_of method.now seen }
{
    match method {
        "GET" | "HEAD" => seen,
        _ => Route::OnlyLook,
    }
}
