ghost use Rattle.std.specs.Prelude.{◌≡◌, [], IfOk, OnErr};
ghost use Rattle.grove_session.specs.Sessions.{IsReplied};
ghost use Rattle.grove_store.specs.Rounds.{IsAnswerAlone};
ghost use Rattle.grove_c.specs.Endings.{IsPut};
ghost use Rattle.grove_c.specs.Handles.{Replies};

use crate::telling::{Told, put, told_memory};
use grove_nodes::Status;
use grove_session::LINE_LIMIT;
use grove_store::Store;
use grove_tree::NoMemory;
use std::alloc::Global;

/// What a line is answered that is too long, as `grove serve` answers it.
const LONG_LINE: &[u8] = b"{\"error\":\"long-line\"}";

/// A store, and its last reply, for which its caller may have had no room.
#[derive(Drop)]
pub struct KeptStore {
    pub store: Store,
    pub reply: Vec<u8>,
}

impl KeptStore {
    /// A store that has answered nothing yet.
    pub fn new(alloc: Global, store: Store) -> KeptStore
        ensures store { result.store ≡ store }
        ensures reply { result.reply.items ≡ [] }
    {
        KeptStore {
            store,
            reply: Vec::new(alloc),
        }
    }

    /// Answers a line, and keeps the reply.
    #[tactic(auto, using(crate::proofs::Replied::replied, crate::proofs::Replied::unreplied))]
    pub fn answer(&mut self, alloc: Global, line: &[u8], text: &mut [u8]) -> Told
        ensures { Replies line.now self.old self.new text.old text.new result }
    {
        match reply_to(alloc, &mut self.store, line) {
            Ok(reply) => {
                self.reply = reply;
                self.reply(text)
            }
            Err(NoMemory) => told_memory(),
        }
    }

    /// The last reply once more; it is empty before the first line.
    pub fn reply(&self, text: &mut [u8]) -> Told
        ensures { IsPut 0 self.now.reply.items text.old text.new result }
    {
        put(Status::Done, &self.reply, text)
    }
}

/// The reply to a line, without a line feed.
fn reply_to(alloc: Global, store: &mut Store, line: &[u8]) -> Result<Vec<u8>, NoMemory>
    ensures replied { IfOk result (λ reply. IsReplied IsAnswerAlone store.old line.now reply.items store.new) }
    ensures err { OnErr result (store.new ≡ store.old) }
{
    if line.len() > LINE_LIMIT {
        return Ok(Vec::from_slice(alloc, LONG_LINE)?);
    }
    store.answer_alone(alloc, line)
}
