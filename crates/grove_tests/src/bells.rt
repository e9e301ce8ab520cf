use crate::cues::Cue;
use crate::fixtures::{Host, lock, read, tree_of, unlock};
use crate::scripts::{Script, job_of, reads};
use crate::sleepers::{TIMES, run_by_cues};
use grove_core::Job;
use grove_plan::Step;
use grove_tree::Tree;
use std::alloc::Global;
use std::process::Abort;

/// Two nodes that share a bell, since their numbers are 16 apart.
const HIGH: u32 = 1;

const LOW: u32 = 17;

/// The child of the one, and the parent of the other.
const MIDDLE: u32 = 2;

const NAMES: [&str; 15] = [
    "a", "b", "c", "d", "e", "f", "g", "h", "i", "j", "k", "l", "m", "n", "o",
];

/// A root with a child, which has a child with fifteen leaves.
fn fifteen_leaves(rt: &impl Abort, alloc: Global) -> Tree {
    let mut rows = Vec::new(alloc);
    for row in [(None, "", 1), (Some(0), "x", 1), (Some(HIGH), "y", 1)] {
        rows.push(row).expect(rt, "room for a row");
    }
    for name in NAMES {
        let row = (Some(MIDDLE), name, 1);
        rows.push(row).expect(rt, "room for a row");
    }
    tree_of(rt, alloc, &rows)
}

/// A job that reads a node and then one below it, and lets each go once it is read.
fn reads_down(rt: &impl Abort, alloc: Global, tree: &Tree, high: u32, low: u32) -> Job {
    let script = Script {
        accesses: &[read(high, 1), read(low, 1)],
        steps: &[
            lock(high),
            Step::Access(0),
            lock(low),
            unlock(high),
            Step::Access(1),
            unlock(low),
        ],
    };
    job_of(rt, alloc, tree, &script)
}

/// The first job holds the low node, for which the second waits with the middle one in hand. For that the third waits
/// with the high node in hand, and for this the fourth, who came to the bell first. Then the first job lets the low
/// node go.
fn cues<R: Host>(rt: &R) -> Vec<Cue> {
    let cues = vec![in rt.alloc();
        Cue::new((1, 0), (0, 1), 0),
        Cue::new((3, 0), (2, 1), 0),
        Cue::new((2, 1), (3, 0), 1_000),
        Cue::new((2, 2), (1, 2), 0),
        Cue::new((1, 2), (2, 2), 0),
        Cue::new((0, 1), (2, 2), 2_000),
    ];
    cues.expect(rt, "room for cues")
}

#[test]
fn who_waits_for_a_node_is_woken_beside_those_of_another(rt: HostRuntime) {
    let alloc = rt.alloc();
    let tree = fifteen_leaves(&rt, alloc);
    let jobs = [
        reads(&rt, alloc, &tree, LOW),
        reads_down(&rt, alloc, &tree, MIDDLE, LOW),
        reads_down(&rt, alloc, &tree, HIGH, MIDDLE),
        reads(&rt, alloc, &tree, HIGH),
    ];
    for _ in 0..TIMES {
        run_by_cues(&rt, &tree, &[0; 18], &jobs, 4, cues(&rt));
    }
}
