use crate::file_counts::FileCounts;
use crate::memory_file::MemoryFile;
use grove_store::{Keeper, Store};
use grove_words::{LogForm, Patience, SyncEach};
use std::marker::Model;
use std::net::TcpListener;
use std::sync::Arc;

/// A store with what keeps its rounds. A crash leaves what opens as this store.
#[derive(Drop)]
pub struct KeptStore<K: Keeper> {
    pub store: Store,
    pub keeper: K,
}

impl<K: Keeper> Model for KeptStore<K> {
    ghost use Rattle.grove_store.specs.StoreStates.{StoreState};

    ghost Value = { StoreState };

    ghost view = { λ kept. kept.store };

    ghost invariant = { λ kept. K.stands_for kept.keeper kept.store };
}

/// A store with what keeps its rounds, where connections to it are asked for, and how they are served.
#[derive(Drop)]
pub struct Service<K: Keeper> {
    pub kept: KeptStore<K>,
    /// What the keeper counts, if it may fail.
    pub counts: Option<Arc<FileCounts>>,
    /// How often what rounds left is kept.
    pub sync: SyncEach,
    pub door: Door,
    /// Where the same store is served over HTTP beside that, if anywhere.
    pub http: Option<Door>,
    pub manner: Manner,
}

/// The ports at which a store is served: that of its command, and one over HTTP beside that, if there is one.
#[derive(Drop)]
pub struct Doors {
    pub first: Door,
    pub http: Option<Door>,
}

/// A port that is listened on.
#[derive(Drop)]
pub struct Door {
    pub listener: TcpListener,
    pub talk: Talk,
    /// How many connections are served there at once.
    pub slots: u32,
}

/// How a store is served.
#[derive(Drop)]
pub struct Manner {
    /// Over HTTP a whole request counts as a whole line.
    pub patience: Patience,
    /// The form of what standard error is told of connections and refusals, if it is told.
    pub log: Option<LogForm>,
    /// Names that requests may have for their host, beside addresses and `localhost`.
    pub hosts: Vec<String>,
    /// Whether each refusal of a line has a hint.
    pub hints: bool,
    /// Where the system says how much memory the server has, if anybody may ask for that.
    pub memory: Option<MemoryFile>,
}

/// What is talked over a connection.
#[derive(Clone, Copy)]
pub enum Talk {
    /// Lines of a session, and their replies.
    Lines,
    /// Requests of HTTP, and their responses.
    Requests,
}

impl Talk {
    /// The name of the protocol, as the metrics and the log have it.
    pub fn protocol(self) -> &'static str {
        match self {
            Talk::Lines => "tcp",
            Talk::Requests => "http",
        }
    }
}
