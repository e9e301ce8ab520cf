use crate::Book;
use grove_plan::Step;
use grove_tree::Node;

impl<'a> Book<'a> {
    /// Of the locks that a job does from this place of its plan on before any other step, the last one whose node
    /// another job holds. It gives none of its nodes back before it has that one.
    pub(crate) fn last_in_way(&self, txn: u32, place: usize) -> Option<Node> {
        let job = self.core.jobs().get(txn as usize)?;
        let mut last = None;
        for step in job.plan.steps().iter().skip(place) {
            let Step::Lock(node) = *step else {
                break;
            };
            if self.is_in_way(txn, node) {
                last = Some(node);
            }
        }
        last
    }

    // Does another job hold the node?
    fn is_in_way(&self, txn: u32, node: Node) -> bool {
        match self.core.holder(node) {
            Some(holder) => holder != txn,
            None => false,
        }
    }
}
