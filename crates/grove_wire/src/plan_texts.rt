ghost use Rattle.std.specs.Prelude.{◌≡◌, ◌<◌, ◌++◌, OnOk, codes, length};
ghost use Rattle.json.specs.Tree.{json_tokens};
ghost use Rattle.serde_json.specs.Data.{string};
ghost use Rattle.serde_json.specs.Written.{outline};
ghost use Rattle.grove_tree.specs.Paths.{path_of};
ghost use Rattle.grove_wire.specs.Writing.{StepFits, PlanFits, count_data, pair_data, step_data, plan_data};

use crate::path_cache::PathCache;
use grove_plan::Step;
use grove_tree::{NoMemory, Node};
use json::Writer;
use std::alloc::{AllocError, Global};

/// Writes the array of a plan's steps.
pub(crate) fn write_plan(
    writer: &mut Writer,
    alloc: Global,
    paths: &mut PathCache<'_>,
    steps: &[Step],
) -> Result<(), NoMemory>
    requires { PlanFits paths.old steps.now }
    ensures tokens { OnOk result
        (writer.new.tokens ≡ writer.old.tokens ++ json_tokens (outline (plan_data paths.old steps.now))) }
    ensures before { writer.new.before ≡ writer.old.before }
    ensures tree { paths.new ≡ paths.old }
{
    writer.begin_array()?;
    for step in steps {
        write_step(writer, alloc, paths, *step)?;
    }
    writer.end_array()?;
    Ok(())
}

fn write_step(
    writer: &mut Writer,
    alloc: Global,
    paths: &mut PathCache<'_>,
    step: Step,
) -> Result<(), NoMemory>
    requires { StepFits paths.old step }
    ensures tokens { OnOk result
        (writer.new.tokens ≡ writer.old.tokens ++ json_tokens (outline (step_data paths.old step))) }
    ensures before { writer.new.before ≡ writer.old.before }
    ensures tree { paths.new ≡ paths.old }
{
    match step {
        Step::Lock(node) => write_of_node(writer, alloc, paths, "lock", node),
        Step::Unlock(node) => write_of_node(writer, alloc, paths, "unlock", node),
        Step::Access(access) => Ok(write_access(writer, access)?),
    }
}

/// The pair of a word and a node's path.
fn write_of_node(
    writer: &mut Writer,
    alloc: Global,
    paths: &mut PathCache<'_>,
    word: &str,
    node: Node,
) -> Result<(), NoMemory>
    requires { node < length paths.old }
    ensures tokens { OnOk result (writer.new.tokens
        ≡ writer.old.tokens ++ json_tokens (outline (pair_data word.now (string (path_of paths.old node))))) }
    ensures before { writer.new.before ≡ writer.old.before }
    ensures tree { paths.new ≡ paths.old }
{
    writer.begin_array()?;
    writer.string(word)?;
    paths.write(alloc, writer, node)?;
    writer.end_array()?;
    Ok(())
}

fn write_access(writer: &mut Writer, access: u32) -> Result<(), AllocError>
    ensures tokens { OnOk result (writer.new.tokens
        ≡ writer.old.tokens ++ json_tokens (outline (pair_data (codes "access") (count_data access)))) }
    ensures before { writer.new.before ≡ writer.old.before }
{
    writer.begin_array()?;
    writer.string("access")?;
    writer.u64(u64::from(access))?;
    writer.end_array()
}
