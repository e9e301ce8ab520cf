use crate::Store;
use grove_session::{AnswerFault, Answers};
use grove_tree::NoMemory;
use std::alloc::AllocGlobal;
use std::sync::Wait;
use std::thread::Threads;

impl<R: Threads + Wait + Sync + AllocGlobal> Answers<R> for Store {
    ghost use Rattle.std.specs.Prelude.{false};
    ghost use Rattle.std.specs.Thread.{IsSync};
    ghost use Rattle.grove_store.specs.Rounds.{IsLawfulAnswer};

    ghost lawful = { λ before line reply after. IsLawfulAnswer before line reply after };

    ghost is_shared = { false };

    ghost asks = { IsSync R.row };

    fn answer(&mut self, rt: &R, line: &[u8]) -> Result<Vec<u8>, AnswerFault> {
        match Store::answer(self, rt, rt.alloc(), line) {
            Ok(reply) => Ok(reply),
            Err(NoMemory) => Err(AnswerFault::Memory),
        }
    }
}
