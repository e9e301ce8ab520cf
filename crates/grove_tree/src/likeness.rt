ghost use Rattle.std.specs.Prelude.{◌≡◌, ◌↔◌, IsTrue};
ghost use Rattle.grove_tree.specs.Weights.{unweighed};
ghost use Rattle.grove_tree.specs.BuiltRows.{row_of, rows_of};

use crate::Row;

/// Are both rows equal save for their weights?
fn is_same(row: &Row, other: &Row) -> bool
    ensures { IsTrue result ↔ (((row_of row.now).parent ≡ (row_of other.now).parent)
        × ((row_of row.now).name ≡ (row_of other.now).name)) }
{
    row.parent == other.parent && row.name == other.name
}

/// Are the rows equal save for their weights?
pub fn have_same_names(rows: &[Row], others: &[Row]) -> bool
    ensures { IsTrue result ↔ (unweighed (rows_of rows.now) ≡ unweighed (rows_of others.now)) }
{
    if rows.len() != others.len() {
        return false;
    }
    for place in 0..rows.len() {
        if !is_same(&rows[place], &others[place]) {
            return false;
        }
    }
    true
}
