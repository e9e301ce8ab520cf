//! What a handle holds.
ghost use Rattle.std.specs.Prelude.{◌≡◌};
ghost use Rattle.grove_wire.specs.Reading.{document_of, list_in};
ghost use Rattle.grove_answer.specs.Outcomes.{ThenSays, claim_over, IsCheckedOver, IsPlannedOver};
ghost use Rattle.grove_nodes.specs.Checking.{ChecksNodes, JudgesNodes};
ghost use Rattle.grove_nodes.specs.Planning.{AreUntouched, PlansNodes};
ghost use Rattle.grove_nodes.specs.Weighing.{FindsNode};
ghost use Rattle.grove_c.specs.Handles.{AnswersBy, OfStore, OfTree};
ghost use Rattle.grove_c.specs.Numbers.{OfTreeNodes, ReweighsKept};

use crate::kept_store::KeptStore;
use crate::sayings::{checked_over, planned_over};
use crate::telling::{Told, tell, told_closed};
use grove_nodes::{
    Checked, Counted, NumberedRow, NumberedStep, Status, check_nodes, find_node, judge_nodes,
    plan_nodes, reweigh_nodes,
};
use grove_tree::Tree;
use std::alloc::Global;

/// What was made of a document once. A call about the other of the two finds nothing.
#[derive(Drop)]
pub enum Kept {
    /// A tree.
    Tree(Tree),
    /// A store.
    Store(KeptStore),
}

impl Kept {
    /// What `plan` says of a document over the tree.
    pub fn plan(&self, alloc: Global, document: &[u8], text: &mut [u8]) -> Told
        ensures { OfTree (λ rows. ThenSays (document_of document.now)
            (λ d. ThenSays (list_in rows d) (IsPlannedOver rows)))
            self.now text.old text.new result }
    {
        match self {
            Kept::Tree(tree) => tell(&planned_over(alloc, tree, document), text),
            Kept::Store(_) => told_closed(),
        }
    }

    /// What `check` says of a document over the tree.
    pub fn check(&self, alloc: Global, document: &[u8], text: &mut [u8]) -> Told
        ensures { OfTree (λ rows. ThenSays (document_of document.now)
            (λ d. ThenSays (claim_over rows d) (IsCheckedOver rows)))
            self.now text.old text.new result }
    {
        match self {
            Kept::Tree(tree) => tell(&checked_over(alloc, tree, document), text),
            Kept::Store(_) => told_closed(),
        }
    }

    /// What the store replies to a line.
    pub fn answer(&mut self, alloc: Global, line: &[u8], text: &mut [u8]) -> Told
        ensures { AnswersBy line.now self.old self.new text.old text.new result }
    {
        match self {
            Kept::Tree(_) => told_closed(),
            Kept::Store(store) => store.answer(alloc, line, text),
        }
    }

    /// The store's last reply.
    #[tactic(auto, using(crate::proofs::Tellings::tells_text))]
    pub fn reply(&self, text: &mut [u8]) -> Told
        ensures { OfStore self.now text.old text.new result }
    {
        match self {
            Kept::Tree(_) => told_closed(),
            Kept::Store(store) => store.reply(text),
        }
    }

    /// The number of the node of a path in the tree.
    pub fn find_node(&self, path: &[u8], node: &mut u32) -> Status
        ensures { OfTreeNodes (λ rows. FindsNode rows path.now node.old node.new) (node.new ≡ node.old)
            self.now result }
    {
        match self {
            Kept::Tree(tree) => find_node(tree, path, node),
            Kept::Store(_) => Status::Closed,
        }
    }

    /// The settled plan of accesses of these nodes of the tree.
    pub fn plan_nodes(
        &self,
        alloc: Global,
        nodes: &[u32],
        lengths: &[u32],
        steps: &mut [NumberedStep],
        flow: &mut [NumberedRow],
        planned: &mut Counted,
    ) -> Status
        ensures { OfTreeNodes (λ rows. PlansNodes rows nodes.now lengths.now
            (record { steps_before = steps.old; steps_after = steps.new; rows_before = flow.old; rows_after = flow.new })
            planned.new)
            (AreUntouched (record {
              steps_before = steps.old;
              steps_after = steps.new;
              rows_before = flow.old;
              rows_after = flow.new;
            }))
            self.now result }
    {
        match self {
            Kept::Tree(tree) => plan_nodes(alloc, tree, nodes, lengths, steps, flow, planned),
            Kept::Store(_) => Status::Closed,
        }
    }

    /// What the steps cost over the tree, where the rows prove that no legal plan costs less.
    pub fn check_nodes(
        &self,
        alloc: Global,
        nodes: &[u32],
        lengths: &[u32],
        steps: &[NumberedStep],
        flow: &[NumberedRow],
        checked: &mut Checked,
    ) -> Status
        ensures { OfTreeNodes (λ rows. ChecksNodes rows nodes.now lengths.now steps.now flow.now checked.new)
            (checked.new ≡ checked.old) self.now result }
    {
        match self {
            Kept::Tree(tree) => check_nodes(alloc, tree, nodes, lengths, steps, flow, checked),
            Kept::Store(_) => Status::Closed,
        }
    }

    /// What the steps cost over the tree, where they are a legal plan.
    pub fn judge_nodes(
        &self,
        alloc: Global,
        nodes: &[u32],
        lengths: &[u32],
        steps: &[NumberedStep],
        checked: &mut Checked,
    ) -> Status
        ensures { OfTreeNodes (λ rows. JudgesNodes rows nodes.now lengths.now steps.now checked.new)
            (checked.new ≡ checked.old) self.now result }
    {
        match self {
            Kept::Tree(tree) => judge_nodes(alloc, tree, nodes, lengths, steps, checked),
            Kept::Store(_) => Status::Closed,
        }
    }

    /// Gives each node of the tree its new weight by the waits at its number.
    pub fn reweigh(&mut self, waits: &[u32], weights: &mut [u32], changed: &mut u32) -> Status
        ensures { ReweighsKept waits.now
            (record { before = weights.old; after = weights.new; count_before = changed.old; count_after = changed.new })
            self.old self.new result }
    {
        match self {
            Kept::Tree(tree) => reweigh_nodes(tree, waits, weights, changed),
            Kept::Store(_) => Status::Closed,
        }
    }
}
