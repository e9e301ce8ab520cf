ghost use Rattle.std.specs.Prelude.{◌≡◌, ◌++◌, ◌∷◌, OnOk, codes, IsTrue};
ghost use Rattle.http_header.specs.FieldValue.{is_visible_text};
ghost use Rattle.http_server.specs.Response.{IsBlank, IsResponse, fields_of};
ghost use Rattle.grove_page.specs.Pages.{guards, html, json, error_line};

use bytes::{BufMut, Bytes};
use http::{HeaderValue, StatusCode, header};
use http_server::Response;
use std::alloc::AllocError;

/// That nobody may show it within a page of theirs, or take it for something else.
fn add_guards(response: &mut Response) -> Result<(), AllocError>
    ensures fields { OnOk result (fields_of response.new ≡ fields_of response.old ++ guards) }
    ensures status { response.new.status ≡ response.old.status }
    ensures body { response.new.body ≡ response.old.body }
{
    let exact = HeaderValue::from_static("nosniff");
    response.add_header(header::X_CONTENT_TYPE_OPTIONS, exact)?;
    response.add_header(header::X_FRAME_OPTIONS, HeaderValue::from_static("DENY"))
}

/// A page.
pub(crate) fn fill_page(response: &mut Response, page: &'static str) -> Result<(), AllocError>
    requires { IsBlank response.old }
    ensures { OnOk result (IsResponse 200 html page.now response.new) }
{
    let kind = HeaderValue::from_static("text/html; charset=utf-8");
    response.add_header(header::CONTENT_TYPE, kind)?;
    let unframed = HeaderValue::from_static("frame-ancestors 'none'");
    response.add_header(header::CONTENT_SECURITY_POLICY, unframed)?;
    add_guards(response)?;
    response.body.push(Bytes::from_static(page.as_bytes()))
}

/// Lines of JSON.
pub(crate) fn fill_json(
    response: &mut Response,
    status: StatusCode,
    lines: &[u8],
) -> Result<(), AllocError>
    requires { IsBlank response.old }
    ensures { OnOk result (IsResponse status json lines.now response.new) }
{
    response.status = status;
    let kind = HeaderValue::from_static("application/json; charset=utf-8");
    response.add_header(header::CONTENT_TYPE, kind)?;
    add_guards(response)?;
    response.body.put_slice(lines)
}

/// A line of JSON, of which no copy is made.
pub(crate) fn fill_whole(response: &mut Response, line: Vec<u8>) -> Result<(), AllocError>
    requires { IsBlank response.old }
    ensures { OnOk result (IsResponse 200 json line.items response.new) }
{
    let kind = HeaderValue::from_static("application/json; charset=utf-8");
    response.add_header(header::CONTENT_TYPE, kind)?;
    add_guards(response)?;
    response.body.push(Bytes::from_vec(line)?)
}

/// What is counted of a server.
pub(crate) fn fill_metrics(response: &mut Response, text: &str) -> Result<(), AllocError>
    requires { IsBlank response.old }
    ensures { OnOk result (IsResponse 200
        ((codes "content-type", codes "text/plain; version=0.0.4; charset=utf-8") ∷ guards) text.now response.new) }
{
    let kind = HeaderValue::from_static("text/plain; version=0.0.4; charset=utf-8");
    response.add_header(header::CONTENT_TYPE, kind)?;
    add_guards(response)?;
    response.body.put_slice(text.as_bytes())
}

/// That there are only these methods.
pub(crate) fn fill_allowed(response: &mut Response, methods: &'static str) -> Result<(), AllocError>
    requires blank { IsBlank response.old }
    requires visible { IsTrue (is_visible_text methods.now) }
    ensures { OnOk result (IsResponse 405 ((codes "allow", methods.now) ∷ json) (error_line (codes "method"))
        response.new) }
{
    response.status = StatusCode::METHOD_NOT_ALLOWED;
    response.add_header(header::ALLOW, HeaderValue::from_static(methods))?;
    let kind = HeaderValue::from_static("application/json; charset=utf-8");
    response.add_header(header::CONTENT_TYPE, kind)?;
    add_guards(response)?;
    response.body.put_slice(b"{\"error\":\"method\"}\n")
}
