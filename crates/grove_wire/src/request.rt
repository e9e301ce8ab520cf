ghost use Rattle.grove_wire.specs.RequestLaws.{RequestsFit, ReadingNeedsNoRoom, ReadingGoesByNames};

use grove_access::AccessList;
use grove_plan::Plan;
use grove_proof::Flow;

/// What a session line asks for.
#[derive(Debug, Drop)]
pub enum Request {
    /// A plan for a list.
    Plan(AccessList),
    /// Whether a plan for a list is the cheapest, by its flow.
    Check(AccessList, Plan, Flow),
    /// A run of these lists.
    Batch(Vec<AccessList>),
    /// The weights of the nodes, and how often there was a wait for each.
    Weights,
    /// New weights, by the waits.
    Reweigh,
}

/// What holds of every line: what it asks for fits the tree and the limits, what it says never is out of memory, and of
/// the tree it depends on the names alone.
pub fn request_laws()
    ensures fits { RequestsFit }
    ensures room { ReadingNeedsNoRoom }
    ensures names { ReadingGoesByNames }
{}
