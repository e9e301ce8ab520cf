ghost use Rattle.std.specs.Prelude.{◌≡◌, ◌<◌, ◌∷◌, [], ◌++◌, decimal, OnOk, length};
ghost use Rattle.json.specs.Token.{key, number};
ghost use Rattle.json.specs.Tree.{json_tokens};
ghost use Rattle.serde_json.specs.Written.{outline};
ghost use Rattle.grove_wire.specs.Writing.{FlowFits, flow_row_data, flow_data};

use crate::path_cache::PathCache;
use grove_proof::FlowRow;
use grove_tree::NoMemory;
use json::Writer;
use std::alloc::{AllocError, Global};

/// Writes the array of a flow's rows.
pub(crate) fn write_flow(
    writer: &mut Writer,
    alloc: Global,
    paths: &mut PathCache<'_>,
    rows: &[FlowRow],
) -> Result<(), NoMemory>
    requires { FlowFits paths.old rows.now }
    ensures tokens { OnOk result
        (writer.new.tokens ≡ writer.old.tokens ++ json_tokens (outline (flow_data paths.old rows.now))) }
    ensures before { writer.new.before ≡ writer.old.before }
    ensures tree { paths.new ≡ paths.old }
{
    writer.begin_array()?;
    for row in rows {
        write_row(writer, alloc, paths, row)?;
    }
    writer.end_array()?;
    Ok(())
}

fn write_row(
    writer: &mut Writer,
    alloc: Global,
    paths: &mut PathCache<'_>,
    row: &FlowRow,
) -> Result<(), NoMemory>
    requires { row.now.node < length paths.old }
    ensures tokens { OnOk result
        (writer.new.tokens ≡ writer.old.tokens ++ json_tokens (outline (flow_row_data paths.old row.now))) }
    ensures before { writer.new.before ≡ writer.old.before }
    ensures tree { paths.new ≡ paths.old }
{
    writer.begin_object()?;
    write_count(writer, "above", row.above)?;
    write_count(writer, "first", row.first)?;
    write_count(writer, "held", row.held)?;
    write_count(writer, "last", row.last)?;
    writer.key("node")?;
    paths.write(alloc, writer, row.node)?;
    write_count(writer, "own", row.own)?;
    writer.end_object()?;
    Ok(())
}

/// A member that is a count.
pub(crate) fn write_count(writer: &mut Writer, name: &str, count: u64) -> Result<(), AllocError>
    ensures tokens { OnOk result
        (writer.new.tokens ≡ writer.old.tokens ++ key name.now ∷ number (decimal count) ∷ []) }
    ensures before { writer.new.before ≡ writer.old.before }
{
    writer.key(name)?;
    writer.u64(count)
}
