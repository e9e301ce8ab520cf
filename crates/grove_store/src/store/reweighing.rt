ghost use Rattle.std.specs.Prelude.{◌≡◌, IfOk, OnErr};
ghost use Rattle.grove_store.specs.Parts.{AnswersReweigh};

use crate::crew::Crew;
use crate::texts::{alone, changed_text};
use crate::{LineReply, Store};
use grove_tree::NoMemory;
use std::alloc::Global;

impl Store {
    /// Gives each node its new weight by its waits, forgets the plans of the old weights and their texts, and begins to
    /// count waits anew, once the reply is made.
    pub(crate) fn reweigh<C: Crew>(
        &mut self,
        crew: &C,
        alloc: Global,
    ) -> Result<Vec<LineReply>, NoMemory>
        requires asks { C.asks }
        ensures reply { IfOk result (λ replies. AnswersReweigh self.old replies.items self.new) }
        ensures err { OnErr result (self.new ≡ self.old) }
    {
        let mut tree = self.tree.copy(alloc)?;
        let changed = crew.reweigh(&mut tree, &self.waits, self.workers);
        let replies = alone(alloc, changed_text(alloc, changed))?;
        self.tree = tree;
        self.plans.forget();
        self.texts.forget();
        self.waits.fill(0);
        Ok(replies)
    }
}
