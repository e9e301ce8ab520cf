//! The store over HTTP: a page to look at it, replies to lines, and the store as a document.
#![tactic(auto)]

pub use front::{Front, Visited};
pub use hints::{hint_of_refusal, with_hint};
pub use page::PAGE;
pub use paths::Paths;
pub use replies_sink::{MOST_REPLIES, RepliesSink};
pub use route::{Route, route_for};
pub use service::{MOST_KEPT, MOST_LINES};
pub use serving::{MOST_BODY, Site, serve_page};
pub use visiting::visit;

mod front;
mod hints;
mod hosts;
mod lines;
mod nodes;
mod origin;
mod page;
mod paths;
mod query;
mod replies;
mod replies_sink;
mod route;
mod service;
mod serving;
mod visiting;
