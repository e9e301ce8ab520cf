//! What `GET /metrics` says of a server.
ghost use Rattle.std.specs.Prelude.{◌≡◌, ◌<◌, ◌++◌, IfOk, OnOk, length, slice_index, string_bytes};
ghost use Rattle.grove_gauge.specs.Counts.{counts_text};
ghost use Rattle.grove_gauge.specs.declared.counts.Counts as counts;
ghost use Rattle.grove_serve.specs.MetricsTexts.{node_text, nodes_of, nodes_text, waits_text, weights_text};
ghost use Rattle.grove_serve.specs.MetricsTexts.{IsMetricsText};

use crate::service::Talk;
use crate::slots::Slots;
use grove_base::NoMemory;
use grove_build::PlanCounts;
use grove_gauge::{Counts, Exposition, Family, Label, PortCounts, write_counts};
use grove_store::Store;
use grove_tree::{Node, Tree};
use std::alloc::{AllocGlobal, Global};
use std::sync::Wait;

/// What is counted of the server, of its store's plans and, if there is a copy of the store, of each node.
pub fn metrics_text<R: Wait + AllocGlobal>(
    rt: &R,
    slots: &Slots,
    plans: PlanCounts,
    store: Option<&Store>,
) -> Result<String, NoMemory>
    ensures { IfOk result (λ text. IsMetricsText store.entry (string_bytes text)) }
{
    let mut text = Exposition::new(rt.alloc());
    write_server(rt, &mut text, slots, plans)?;
    write_store(&mut text, rt.alloc(), store)?;
    Ok(text.into_text())
}

/// What is counted of the server and of its store's plans. No line is refused meanwhile.
fn write_server<R: Wait>(
    rt: &R,
    text: &mut Exposition,
    slots: &Slots,
    plans: PlanCounts,
) -> Result<(), NoMemory>
    ensures { OnOk result ((counts : counts.Counts) × (text.new ≡ text.old ++ counts_text counts)) }
{
    let metrics = slots.metrics();
    let started = metrics.started.map(|started| started.as_second());
    let refusals = metrics.refusals(rt);
    let counts = Counts {
        started: started.map(|second| u64::try_from(second).unwrap_or(0)),
        memory: metrics.resident_bytes(),
        lines: metrics.lines.get(),
        refusals: &refusals,
        rounds: metrics.rounds.get(),
        lists: plans.in_batches(),
        plans_found: plans.hits(),
        plans_made: plans.misses(),
        lines_of_rounds: metrics.lines_of_rounds.read(),
        times_of_rounds: metrics.times_of_rounds.read(),
        kept: slots.kept().map(|counts| counts.read()),
        tcp: port_counts(slots, Talk::Lines),
        http: port_counts(slots, Talk::Requests),
    };
    write_counts(text, &counts)?;
    Ok(())
}

fn port_counts(slots: &Slots, talk: Talk) -> PortCounts {
    slots.metrics().traffic(talk).read(slots.pool(talk).slots())
}

/// What there is of the nodes, if there is a copy of the store.
fn write_store(text: &mut Exposition, alloc: Global, store: Option<&Store>) -> Result<(), NoMemory>
    ensures { OnOk result (text.new ≡ text.old ++ nodes_of store.entry) }
{
    match store {
        Some(store) => write_nodes(text, alloc, store.tree(), store.waits()),
        None => Ok(()),
    }
}

/// The waits and the weight of each node, by its path.
fn write_nodes(
    text: &mut Exposition,
    alloc: Global,
    tree: &Tree,
    waits: &[u32],
) -> Result<(), NoMemory>
    ensures { OnOk result (text.new ≡ text.old ++ nodes_text tree.now waits.now) }
{
    write_waits(text, alloc, tree, waits)?;
    write_weights(text, alloc, tree)
}

fn write_waits(
    text: &mut Exposition,
    alloc: Global,
    tree: &Tree,
    waits: &[u32],
) -> Result<(), NoMemory>
    ensures { OnOk result (text.new ≡ text.old ++ waits_text tree.now waits.now) }
{
    text.begin(Family::NodeWaits)?;
    for number in 0..tree.len() {
        let waits = waits_at(waits, number);
        write_node(
            text,
            alloc,
            tree,
            Family::NodeWaits,
            Node::new(number),
            waits,
        )?;
    }
    Ok(())
}

/// The waits at the node; none, if there are none of it.
fn waits_at(waits: &[u32], number: u32) -> u32
    ensures { result ≡ slice_index waits.now number }
{
    waits.get(number as usize).copied().unwrap_or(0)
}

fn write_weights(text: &mut Exposition, alloc: Global, tree: &Tree) -> Result<(), NoMemory>
    ensures { OnOk result (text.new ≡ text.old ++ weights_text tree.now) }
{
    text.begin(Family::NodeWeight)?;
    for number in 0..tree.len() {
        let node = Node::new(number);
        write_node(
            text,
            alloc,
            tree,
            Family::NodeWeight,
            node,
            tree.weight(node),
        )?;
    }
    Ok(())
}

/// A node's sample.
fn write_node(
    text: &mut Exposition,
    alloc: Global,
    tree: &Tree,
    family: Family,
    node: Node,
    value: u32,
) -> Result<(), NoMemory>
    requires { node < length tree.now }
    ensures { OnOk result (text.new ≡ text.old ++ node_text family tree.now node value) }
{
    let path = tree.path_of(alloc, node)?;
    let label = Label {
        name: "path",
        value: &path,
    };
    text.labelled(family, label, u64::from(value))
}
