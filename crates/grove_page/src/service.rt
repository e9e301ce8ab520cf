ghost use Rattle.std.specs.Prelude.{◌≡◌, ◌==◌, ◌++◌, ◌⊎◌, ◌||◌, ℕ, nat_lt, length, count_by, OnOk, OnErr, IfOk};
ghost use Rattle.std.specs.Prelude.{codes, is_some};
ghost use Rattle.http.specs.Request.{head_of, body_of};
ghost use Rattle.http_uri.specs.Uri.{uri_path, uri_query};
ghost use Rattle.http_server.specs.Response.{IsBlank, IsResponse};
ghost use Rattle.grove_page.specs.Pages.{json, error_line, has_many_lines, is_refused};
ghost use Rattle.grove_page.specs.Pages.{IsReplyTo, AnswersBody, TakesLines, TakesBody, TellsDocument, TellsSession};
ghost use Rattle.grove_page.specs.Pages.{AnswersQuery, TellsPart, TellsNoPath, TellsNone, TellsMetrics, TellsHealth};
ghost use Rattle.grove_page.specs.Routes.{route_of};
ghost use Rattle.grove_page.specs.NodeLines.{part_of};
ghost use Rattle.grove_store.specs.StoreStates.{StoreState};
ghost use Rattle.grove_desk.specs.Desks.{TellsLater};
ghost use Rattle.grove_desk.specs.Histories.{Led};
ghost use Rattle.grove_desk.specs.Hints.{caller};

use crate::hints::hinted_no_path;
use crate::hosts::is_for_here;
use crate::lines::{document_line, nodes_line};
use crate::nodes::part_for;
use crate::query::{NodesQuery, QueryFault, read_query};
use crate::replies::{fill_allowed, fill_json, fill_metrics, fill_page, fill_whole};
use crate::route::{Route, asks_for_hints, route_for};
use crate::{Front, Paths, RepliesSink, Visited};
use bytes::{BufMut, Bytes};
use grove_desk::{Awaited, DeskFault};
use grove_session::SessionFault;
use grove_store::Store;
use grove_tree::{NoMemory, Tree};
use http::{HeaderValue, Request, StatusCode, header};
use http_server::{Response, Service};
use std::alloc::{AllocError, AllocGlobal};
use std::marker::Model;

/// So many line feeds may a body have, so that no body keeps its slot for long.
pub const MOST_LINES: usize = 16_384;

/// After a body of more bytes the connection ends, since what it took of memory for the body stays with it.
pub const MOST_KEPT: usize = 65_536;

const FAILED: StatusCode = StatusCode::INTERNAL_SERVER_ERROR;

const UNAVAILABLE: StatusCode = StatusCode::SERVICE_UNAVAILABLE;

const NO_MEMORY: &[u8] = b"{\"error\":\"memory\"}\n";

const UNKEPT: &[u8] = b"{\"error\":\"unkept\"}\n";

const NO_ROOM: &[u8] = b"{\"error\":\"replies\"}\n";

const TOO_MANY_LINES: &[u8] = b"{\"error\":\"lines\"}\n";

const FOREIGN: &[u8] = b"{\"error\":\"foreign\"}\n";

const DEVICE: &[u8] = b"{\"error\":\"device\"}\n";

const BAD_QUERY: &[u8] = b"{\"error\":\"query\"}\n";

const NO_PATH: &[u8] = b"{\"error\":\"no-path\"}\n";

const ORIGIN: &[u8] = b"{\"error\":\"origin\"}\n";

const HOST: &[u8] = b"{\"error\":\"host\"}\n";

const HEALTHY: &[u8] = b"{\"status\":\"ok\"}\n";

const NOT_FOUND: &[u8] = b"{\"error\":\"not-found\"}\n";

/// Replies to the requests of a connection.
#[derive(Drop)]
pub(crate) struct PageService<'a, R, F: Front<R>> {
    pub(crate) rt: &'a R,
    pub(crate) front: &'a F,
    pub(crate) page: &'static str,
    pub(crate) hosts: &'a [String],
    pub(crate) hints: bool,
    pub(crate) paths: Option<&'a Paths>,
}

impl<'a, R, F: Front<R>> Model for PageService<'a, R, F> {
    ghost use Rattle.std.specs.Prelude.{map, string_bytes};
    ghost use Rattle.grove_page.specs.Pages.{PageState};

    ghost Value = { PageState };

    ghost view = { λ service. record {
      page = service.page.now;
      hosts = map string_bytes service.hosts.now;
      opening = F.opening service.front.now;
      hints = service.hints;
    } };

    ghost invariant = { λ service. F.asks };
}

impl<'a, R: AllocGlobal, F: Front<R>> Service for PageService<'a, R, F> {
    ghost use Rattle.std.specs.Prelude.{◌≡◌};
    ghost use Rattle.grove_page.specs.Pages.{IsPageReply};

    ghost answers = { λ old request response new. IsPageReply old request response × (new ≡ old) };

    fn call(
        &mut self,
        request: &Request<Bytes>,
        response: &mut Response,
    ) -> Result<(), AllocError> {
        self.front.note_request();
        if is_for_here(self.hosts, request) {
            self.answer(request, response)
        } else {
            fill_json(response, StatusCode::MISDIRECTED_REQUEST, HOST)
        }
    }
}

impl<'a, R: AllocGlobal, F: Front<R>> PageService<'a, R, F> {
    /// What is asked for by a request for this server.
    fn answer(&self, request: &Request<Bytes>, response: &mut Response) -> Result<(), AllocError>
        requires { IsBlank response.old }
        ensures { OnOk result (let head = head_of request.now in IsReplyTo self.now (uri_query head.uri)
            (body_of request.now) (route_of head.method (uri_path head.uri) head.headers) response.new) }
    {
        let path = request.uri().path();
        match route_for(request.method().as_str(), path, request.headers()) {
            Route::Page => fill_page(response, self.page),
            Route::Lines => {
                let hints = self.hints || asks_for_hints(request.uri());
                self.take_body(request.body().as_slice(), hints, response)
            }
            Route::Document => self.tell_document(response),
            Route::Nodes => self.tell_nodes(request.uri().query().unwrap_or(""), response),
            Route::Health => self.tell_health(response),
            Route::Metrics => self.tell_metrics(asks_for_nodes(request.uri().query()), response),
            Route::OnlyLook => fill_allowed(response, "GET, HEAD"),
            Route::LookOrSend => fill_allowed(response, "GET, HEAD, POST"),
            Route::ForeignPage => fill_json(response, StatusCode::FORBIDDEN, ORIGIN),
            Route::Nowhere => fill_json(response, StatusCode::NOT_FOUND, NOT_FOUND),
        }
    }

    /// The replies to the lines of a body. A long one is the connection's last.
    fn take_body(
        &self,
        lines: &[u8],
        hints: bool,
        response: &mut Response,
    ) -> Result<(), AllocError>
        requires { IsBlank response.old }
        ensures { OnOk result (TakesBody (nat_lt 65536 (length lines.now)) (caller hints self.now.opening) lines.now
            response.new) }
    {
        self.take_lines(lines, hints, response)?;
        if lines.len() > MOST_KEPT {
            return response.add_header(header::CONNECTION, HeaderValue::from_static("close"));
        }
        Ok(())
    }

    /// The replies to the lines of a body, if they are few enough.
    fn take_lines(
        &self,
        lines: &[u8],
        hints: bool,
        response: &mut Response,
    ) -> Result<(), AllocError>
        requires { IsBlank response.old }
        ensures { OnOk result (TakesLines (has_many_lines lines.now) (caller hints self.now.opening) lines.now
            response.new) }
    {
        if has_many_lines(lines) {
            return fill_json(response, StatusCode::PAYLOAD_TOO_LARGE, TOO_MANY_LINES);
        }
        self.answer_lines(lines, hints, response)
    }

    /// The replies to the lines of a body.
    #[tactic(auto, using(crate::proofs::Unread::no_line_is_read))]
    fn answer_lines(
        &self,
        lines: &[u8],
        hints: bool,
        response: &mut Response,
    ) -> Result<(), AllocError>
        requires { IsBlank response.old }
        ensures { OnOk result (AnswersBody (caller hints self.now.opening) lines.now response.new) }
    {
        match RepliesSink::new(self.rt.alloc()) {
            Ok(mut sink) => {
                let visited = self.front.answer(self.rt, lines, hints, &mut sink);
                fill_replies(response, visited, sink.bytes())
            }
            Err(NoMemory) => fill_json(response, UNAVAILABLE, NO_MEMORY),
        }
    }

    /// The store as a document.
    fn tell_document(&self, response: &mut Response) -> Result<(), AllocError>
        requires { IsBlank response.old }
        ensures { OnOk result (TellsDocument self.now.opening response.new) }
    {
        match self.front.snapshot(self.rt) {
            Ok(store) => fill_line(response, document_line(self.rt.alloc(), &store)),
            Err(fault) => fill_none(response, fault),
        }
    }

    /// What the query asks of the nodes, once the round is done that it waits for.
    fn tell_nodes(&self, query: &str, response: &mut Response) -> Result<(), AllocError>
        requires { IsBlank response.old }
        ensures { OnOk result (AnswersQuery self.now.hints query.now self.now.opening response.new) }
    {
        match read_query(self.rt.alloc(), query.as_bytes()) {
            Ok(asked) => self.tell_asked(&asked, response),
            Err(QueryFault::Bad) => fill_json(response, StatusCode::BAD_REQUEST, BAD_QUERY),
            Err(QueryFault::Memory) => fill_json(response, UNAVAILABLE, NO_MEMORY),
        }
    }

    /// What is asked of the nodes.
    fn tell_asked(&self, asked: &NodesQuery, response: &mut Response) -> Result<(), AllocError>
        requires { IsBlank response.old }
        ensures { OnOk result (((store : StoreState) × Led self.now.opening store
            × TellsPart (self.now.hints || is_some asked.now.hints) store (part_of store.rows asked.now.below)
            response.new) ⊎ TellsNone response.new) }
    {
        match self.store_for(asked) {
            Ok(store) => self.tell_part(&store, asked, response),
            Err(fault) => fill_none(response, fault),
        }
    }

    /// The store, once the round is done that is waited for.
    fn store_for(&self, asked: &NodesQuery) -> Result<Store, DeskFault>
        ensures { IfOk result (Led self.now.opening) }
    {
        match (asked.after, &asked.below) {
            (Some(after), Some(path)) => self.store_with(after, path),
            (Some(after), None) => self.store_after(after),
            (None, _) => self.front.snapshot(self.rt),
        }
    }

    /// The store once a later round is done. If no node has the path, nothing is waited for.
    fn store_with(&self, after: u64, path: &str) -> Result<Store, DeskFault>
        ensures { IfOk result (Led self.now.opening) }
    {
        let store = self.front.snapshot(self.rt)?;
        if store.rounds() > after || store.tree().find(path).is_none() {
            return Ok(store);
        }
        self.store_after(after)
    }

    /// The store once a later round is done, or as it stands if that takes too long.
    fn store_after(&self, after: u64) -> Result<Store, DeskFault>
        ensures { IfOk result (Led self.now.opening) }
    {
        Ok(store_of(self.front.snapshot_after(self.rt, after)?))
    }

    /// What there is of the nodes that are asked for.
    fn tell_part(
        &self,
        store: &Store,
        asked: &NodesQuery,
        response: &mut Response,
    ) -> Result<(), AllocError>
        requires { IsBlank response.old }
        ensures { OnOk result (TellsPart (self.now.hints || is_some asked.now.hints) store.now
            (part_of store.now.rows asked.now.below) response.new ⊎ TellsNone response.new) }
    {
        match part_for(store.tree(), asked) {
            Some(part) => {
                let line = nodes_line(self.rt.alloc(), store, self.paths, &part);
                fill_line(response, line)
            }
            None => self.tell_no_path(store.tree(), asked, response),
        }
    }

    /// That no node of the tree has the path, with a hint if that is asked for and there is memory for it.
    #[tactic(auto, using(crate::proofs::Told::plain_no_path, crate::proofs::Told::hinted_no_path))]
    fn tell_no_path(
        &self,
        tree: &Tree,
        asked: &NodesQuery,
        response: &mut Response,
    ) -> Result<(), AllocError>
        requires { IsBlank response.old }
        ensures { OnOk result (TellsNoPath (self.now.hints || is_some asked.now.hints) response.new) }
    {
        let path = asked.below.as_deref().unwrap_or("");
        let hints = self.hints || asked.hints.is_some();
        if hints && let Ok(line) = hinted_no_path(self.rt.alloc(), tree, path) {
            return fill_broken(response, StatusCode::BAD_REQUEST, &line, b"\n");
        }
        fill_json(response, StatusCode::BAD_REQUEST, NO_PATH)
    }

    /// Whether lines are answered.
    fn tell_health(&self, response: &mut Response) -> Result<(), AllocError>
        requires { IsBlank response.old }
        ensures { OnOk result (TellsHealth response.new) }
    {
        if self.front.is_sound(self.rt) {
            fill_json(response, StatusCode::OK, HEALTHY)
        } else {
            fill_json(response, UNAVAILABLE, UNKEPT)
        }
    }

    /// What is counted of the server.
    fn tell_metrics(&self, by_node: bool, response: &mut Response) -> Result<(), AllocError>
        requires { IsBlank response.old }
        ensures { OnOk result (TellsMetrics response.new) }
    {
        match self.front.metrics(self.rt, by_node) {
            Ok(text) => fill_metrics(response, &text),
            Err(NoMemory) => fill_json(response, UNAVAILABLE, NO_MEMORY),
        }
    }
}

/// The store that was waited for, whether it is a later one or not.
fn store_of(awaited: Awaited) -> Store
    ensures { (opening : StoreState) → (after : ℕ) → TellsLater opening after awaited → Led opening result }
{
    match awaited {
        Awaited::Later(store) | Awaited::Unchanged(store) => store,
    }
}

/// Does the query ask for what is counted of each node?
fn asks_for_nodes(query: Option<&str>) -> bool {
    matches!(query, Some("nodes=1"))
}

/// Are there more line feeds than a body may have?
fn has_many_lines(lines: &[u8]) -> bool
    ensures { result ≡ has_many_lines lines.now }
{
    count_feeds(lines) > MOST_LINES
}

fn count_feeds(lines: &[u8]) -> usize
    ensures { result ≡ count_by (λ byte. byte == 10) lines.now }
{
    lines.iter().filter(|byte| **byte == b'\n').count()
}

/// That no store is told. No copy of one is foreign.
fn fill_none(response: &mut Response, fault: DeskFault) -> Result<(), AllocError>
    requires { IsBlank response.old }
    ensures { OnOk result (TellsNone response.new) }
{
    match fault {
        DeskFault::Memory | DeskFault::Foreign => fill_json(response, UNAVAILABLE, NO_MEMORY),
        DeskFault::Unkept => fill_json(response, UNAVAILABLE, UNKEPT),
    }
}

/// A line that tells of a store, or that there is no memory for it.
fn fill_line(response: &mut Response, line: Result<Vec<u8>, NoMemory>) -> Result<(), AllocError>
    requires { IsBlank response.old }
    ensures told { OnOk result (IfOk line (λ line. IsResponse 200 json line.items response.new)) }
    ensures refused { OnOk result (OnErr line (IsResponse 503 json (error_line (codes "memory")) response.new)) }
{
    match line {
        Ok(line) => fill_whole(response, line),
        Err(NoMemory) => fill_json(response, UNAVAILABLE, NO_MEMORY),
    }
}

/// What a session over the lines of a body came to.
fn fill_replies(response: &mut Response, visited: Visited, replies: &[u8]) -> Result<(), AllocError>
    requires blank { IsBlank response.old }
    requires refused { visited.is_refused ≡ is_refused visited.ended replies.now }
    ensures { OnOk result (TellsSession visited.ended replies.now response.new) }
{
    match visited.ended {
        Ok(_) if visited.is_refused => fill_json(response, StatusCode::BAD_REQUEST, replies),
        Ok(_) => fill_json(response, StatusCode::OK, replies),
        Err(SessionFault::Memory) => fill_broken(response, UNAVAILABLE, replies, NO_MEMORY),
        Err(SessionFault::Unkept) => fill_broken(response, UNAVAILABLE, replies, UNKEPT),
        Err(SessionFault::Foreign) => fill_broken(response, FAILED, replies, FOREIGN),
        Err(SessionFault::Write(_)) => fill_json(response, FAILED, NO_ROOM),
        Err(SessionFault::Read | SessionFault::Turns) => {
            fill_broken(response, FAILED, replies, DEVICE)
        }
    }
}

/// Replies, as those to the first lines, and what comes behind them, as why there are no others.
fn fill_broken(
    response: &mut Response,
    status: StatusCode,
    replies: &[u8],
    behind: &[u8],
) -> Result<(), AllocError>
    requires { IsBlank response.old }
    ensures { OnOk result (IsResponse status json (replies.now ++ behind.now) response.new) }
{
    fill_json(response, status, replies)?;
    response.body.put_slice(behind)
}
