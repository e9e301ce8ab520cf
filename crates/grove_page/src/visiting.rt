ghost use Rattle.std.specs.Prelude.{◌≡◌, [], false, List, ℕ, Some};
ghost use Rattle.grove_page.specs.Pages.{Visits};

use crate::RepliesSink;
use grove_session::{Answers, BytesSource, SessionFault, Sink, session};
use std::alloc::AllocGlobal;

/// Answers the lines of a body, one after the other, each with its reply and a line feed, and gives their number.
pub fn visit<R: AllocGlobal, A: Answers<R>>(
    rt: &R,
    answers: &mut A,
    lines: &[u8],
    sink: &mut RepliesSink,
) -> Result<u64, SessionFault>
    requires asks { A.asks }
    requires empty { ⟦<RepliesSink as Sink>⟧.contents sink.old ≡ Some [] }
    requires sound { ⟦<RepliesSink as Sink>⟧.has_failed sink.old ≡ false }
    ensures { (out : List ℕ) × (⟦<RepliesSink as Sink>⟧.contents sink.new ≡ Some out)
        × Visits A.is_shared A.lawful answers.old lines.now result out answers.new }
{
    let mut source = BytesSource::new(lines);
    session(rt, answers, &mut source, sink)
}
