use grove_access::AccessList;
use grove_plan::Plan;

/// A transaction to run: its accesses, and the plan by which it locks their nodes.
#[derive(Debug, Drop)]
pub struct Job {
    pub list: AccessList,
    pub plan: Plan,
}
