/// A constraint on the places of two variables: `place(to) - place(from) >= least`.
#[derive(Clone, Copy, Debug, PartialEq, Eq)]
pub struct Arc {
    pub from: u32,
    pub to: u32,
    pub least: i64,
}

/// Rows, with constraints between their variables: row `k` has the lock `2k` and the release `2k + 1`, and
/// after the variables of all rows stands the base, whose place is 0.
#[derive(Debug, Drop)]
pub struct Network {
    pub arcs: Vec<Arc>,
    /// For each variable, what is to come in along arcs in excess of what goes out.
    pub needs: Vec<i64>,
}

/// Amounts that meet the needs of a network, and places that prove them the best.
#[derive(Debug, Drop)]
pub struct Solution {
    /// What is sent along each arc.
    pub amounts: Vec<u64>,
    /// The place of each variable.
    pub places: Vec<i64>,
}
