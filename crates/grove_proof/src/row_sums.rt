ghost use Rattle.std.specs.Prelude.{◌≡◌, ◌==◌, ◌&&◌, ◌||◌, not, ℕ, ◌<◌, ◌≤◌, ◌*◌, ◌^◌, pos, length, slice_get, map};
ghost use Rattle.std.specs.Prelude.{Some, IfOk, MatchOption, MatchResult};
ghost use Rattle.grove_tree.specs.Trees.{IsTree};
ghost use Rattle.grove_access.specs.Lists.{AreNodes, nodes_of, lengths_of};
ghost use Rattle.grove_access.specs.Forced.{forced_nodes};
ghost use Rattle.grove_proof.specs.declared.flow.FlowRow.{FlowRow};
ghost use Rattle.grove_proof.specs.Flows.{node_of, is_sign_ok, is_small, is_lock_balanced, is_release_balanced};
ghost use Rattle.grove_proof.specs.Flows.{AllRows, gains, losses};
ghost use Rattle.grove_proof.specs.Faults.{IsFirstBad, bound};
ghost use Rattle.grove_proof.specs.Tables.{test_of, PassAll, IsRowsFault};
ghost use Rattle.grove_proof.specs.RowSums.{AreRight};

use crate::tables::{Amount, Visits, sums_by_node, visits_by_node};
use crate::{FlowRow, ProofFault};
use grove_access::AccessList;
use grove_tree::Tree;
use std::alloc::{AllocError, Global};

/// The tests that each row of a certificate has to pass.
#[derive(Clone, Copy)]
pub enum Test {
    Sign,
    Size,
    Lock,
    Release,
}

/// The greatest amount that a row may have.
const GREATEST: u64 = 1_099_511_627_776;

/// Rows whose nodes are the forced ones, with what their tests read: accesses and children's sums, by node.
#[derive(Drop)]
pub struct RowSums<'a> {
    tree: &'a Tree,
    list: &'a AccessList,
    rows: &'a [FlowRow],
    visits: Vec<Visits>,
    above: Vec<u128>,
    held: Vec<u128>,
}

impl<'a> RowSums<'a> {
    pub fn new(
        alloc: Global,
        tree: &'a Tree,
        list: &'a AccessList,
        rows: &'a [FlowRow],
    ) -> Result<RowSums<'a>, AllocError>
        requires tree { IsTree tree.now }
        requires fits { AreNodes tree.now (nodes_of list.now) }
        requires few { length rows.now < 2 ^ 32 }
        requires listed { map node_of rows.now ≡ forced_nodes tree.now (nodes_of list.now) }
        ensures right { IfOk result (λ row_sums. AreRight row_sums) }
        ensures tree { IfOk result (λ row_sums. row_sums.tree.now ≡ tree.now) }
        ensures list { IfOk result (λ row_sums. row_sums.list.now ≡ list.now) }
        ensures rows { IfOk result (λ row_sums. row_sums.rows.now ≡ rows.now) }
    {
        let visits = visits_by_node(alloc, tree, list)?;
        let above = sums_by_node(alloc, tree, rows, Amount::Above)?;
        let held = sums_by_node(alloc, tree, rows, Amount::Held)?;
        Ok(RowSums {
            tree,
            list,
            rows,
            visits,
            above,
            held,
        })
    }

    /// Has the row no amount on a constraint that its node doesn't have? The first row's node is the top one.
    fn is_sign_ok(&self, place: usize) -> bool
        requires right { AreRight self.now }
        requires place { place < length self.now.rows.now }
        ensures { (row : FlowRow) → slice_get self.now.rows.now place ≡ Some row
            → result ≡ is_sign_ok self.now.tree.now (nodes_of self.now.list.now) self.now.rows.now row }
    {
        let row = &self.rows[place];
        let visits = self.visits[row.node.number() as usize];
        are_signs_ok(row, place == 0, visits.end > 0)
    }

    fn is_lock_balanced(&self, place: usize) -> bool
        requires right { AreRight self.now }
        requires place { place < length self.now.rows.now }
        ensures { (row : FlowRow) → slice_get self.now.rows.now place ≡ Some row
            → result ≡ is_lock_balanced self.now.tree.now self.now.rows.now row }
    {
        let row = &self.rows[place];
        let children = self.above[row.node.number() as usize];
        row.above as u128 + self.tree.weight(row.node) as u128
            == children + row.held as u128 + row.first as u128 + row.own as u128
    }

    fn is_release_balanced(&self, place: usize) -> bool
        requires right { AreRight self.now }
        requires place { place < length self.now.rows.now }
        ensures { (row : FlowRow) → slice_get self.now.rows.now place ≡ Some row
            → result ≡ is_release_balanced self.now.tree.now self.now.rows.now row }
    {
        let row = &self.rows[place];
        let children = self.held[row.node.number() as usize];
        children + row.last as u128 + row.own as u128 == self.tree.weight(row.node) as u128
    }

    fn passes(&self, test: Test, place: usize) -> bool
        requires right { AreRight self.now }
        requires place { place < length self.now.rows.now }
        ensures { (row : FlowRow) → slice_get self.now.rows.now place ≡ Some row
            → result ≡ test_of self.now.tree.now (nodes_of self.now.list.now) self.now.rows.now test row }
    {
        match test {
            Test::Sign => self.is_sign_ok(place),
            Test::Size => is_small(&self.rows[place]),
            Test::Lock => self.is_lock_balanced(place),
            Test::Release => self.is_release_balanced(place),
        }
    }

    /// The first row that fails a test.
    fn first_bad(&self, test: Test) -> Option<u32>
        requires { AreRight self.now }
        ensures { let bad = test_of self.now.tree.now (nodes_of self.now.list.now) self.now.rows.now test in
            MatchOption result (AllRows bad self.now.rows.now) (λ place. IsFirstBad bad self.now.rows.now place) }
    {
        for place in 0..self.rows.len() {
            if !self.passes(test, place) {
                return Some(place as u32);
            }
        }
        None
    }

    /// The first fault of the rows by themselves: each test over all rows before the next.
    fn first_fault(&self) -> Option<ProofFault>
        requires { AreRight self.now }
        ensures { MatchOption result (PassAll self.now.tree.now (nodes_of self.now.list.now) self.now.rows.now)
            (λ fault. (sum : ℕ) → IsRowsFault self.now.tree.now (nodes_of self.now.list.now)
            (lengths_of self.now.list.now) self.now.rows.now sum fault) }
    {
        if let Some(row) = self.first_bad(Test::Sign) {
            return Some(ProofFault::Sign(row));
        }
        if let Some(row) = self.first_bad(Test::Size) {
            return Some(ProofFault::TooBig(row));
        }
        if let Some(row) = self.first_bad(Test::Lock) {
            return Some(ProofFault::LockBalance(row));
        }
        if let Some(row) = self.first_bad(Test::Release) {
            return Some(ProofFault::ReleaseBalance(row));
        }
        None
    }

    /// What the releases' amounts give to the bound.
    fn gains(&self) -> u128
        requires { AreRight self.now }
        ensures sum { result ≡ gains (nodes_of self.now.list.now) (lengths_of self.now.list.now) self.now.rows.now }
        ensures bounded { result ≤ 2 ^ 112 }
    {
        let mut total: u128 = 0;
        for row in self.rows {
            let end = self.visits[row.node.number() as usize].end;
            total += row.last as u128 * self.list.slots_before(end) as u128;
        }
        total
    }

    /// What the locks' amounts take from the bound.
    fn losses(&self) -> u128
        requires right { AreRight self.now }
        requires signs { AllRows (is_sign_ok self.now.tree.now (nodes_of self.now.list.now) self.now.rows.now)
            self.now.rows.now }
        ensures sum { result ≡ losses (nodes_of self.now.list.now) (lengths_of self.now.list.now) self.now.rows.now }
        ensures bounded { result ≤ 2 ^ 112 }
    {
        let mut total: u128 = 0;
        for row in self.rows {
            let first = self.visits[row.node.number() as usize].first;
            total += row.first as u128 * self.list.slots_before(first) as u128;
        }
        total
    }

    /// The cost, where the rows show that no legal plan costs less; else their first fault.
    pub fn weigh(&self, cost: u64) -> Result<u64, ProofFault>
        requires { AreRight self.now }
        ensures { MatchResult result
            (λ sum. (sum ≡ cost) × PassAll self.now.tree.now (nodes_of self.now.list.now) self.now.rows.now
            × (bound (nodes_of self.now.list.now) (lengths_of self.now.list.now) self.now.rows.now ≡ pos cost))
            (λ fault. IsRowsFault self.now.tree.now (nodes_of self.now.list.now) (lengths_of self.now.list.now)
            self.now.rows.now cost fault) }
    {
        if let Some(fault) = self.first_fault() {
            return Err(fault);
        }
        let bound = self.gains() as i128 - self.losses() as i128;
        if bound == cost as i128 {
            Ok(cost)
        } else {
            Err(ProofFault::Value { cost, bound })
        }
    }
}

fn is_small(row: &FlowRow) -> bool
    ensures { result ≡ is_small row.now }
{
    row.above <= GREATEST
        && row.held <= GREATEST
        && row.first <= GREATEST
        && row.last <= GREATEST
        && row.own <= GREATEST
}

/// Are the amounts 0 that price a parent, at the top, and those that price an access, at a node without one?
fn are_signs_ok(row: &FlowRow, is_top: bool, is_accessed: bool) -> bool
    ensures { let parent = not is_top || (row.now.above == 0 && row.now.held == 0) in
        let access = is_accessed || (row.now.first == 0 && row.now.last == 0) in
        result ≡ (parent && access) }
{
    (!is_top || (row.above == 0 && row.held == 0))
        && (is_accessed || (row.first == 0 && row.last == 0))
}
