use crate::cues::{Cue, Cues};
use crate::fixtures::{A, B, Host, two_leaves};
use crate::meeting::Meeting;
use crate::scripts::reads;
use grove_access::Records;
use grove_core::{Core, Event, Job, all_fit};
use grove_run::{Finished, run_batch};
use grove_tree::{Gate, Node, Tree};

/// Runs the jobs by so many workers over these records.
pub fn run<'a, R: Host, G: Gate + Sync>(
    rt: &R,
    tree: &'a Tree,
    records: &[i64],
    jobs: &'a [Job],
    workers: usize,
    gate: &G,
) -> Finished<'a> {
    let records = Records::new(rt.alloc(), records).expect(rt, "room for records");
    assert!(rt; records.fits(tree) && all_fit(tree, jobs) && jobs.len() <= 256);
    let finished = run_batch(rt, rt.alloc(), tree, &records, jobs, workers, gate);
    finished.expect(rt, "a finished run")
}

/// Do the two jobs' last two events stand together, those of one before those of the other?
fn ends_apart(core: &Core) -> bool {
    let last = core.history().last_chunk::<4>();
    let orders = [[0, 0, 1, 1], [1, 1, 0, 0]];
    orders
        .iter()
        .any(|txns| last == Some(&txns.map(Event::Take)))
}

/// Runs two jobs, of which each waits at this step until the other is there.
fn meet_at<R: Host>(rt: &R, tree: &Tree, jobs: &[Job; 2], step: u32) {
    let meeting = Meeting::at_step(step, 0, 1);
    let finished = run(rt, tree, &[0, 10, 20], jobs, 2, &meeting);
    assert!(rt; meeting.has_met());
    assert!(rt; step == 1 || ends_apart(finished.core()));
}

#[test]
fn two_jobs_are_in_mid_plan_at_once(rt: HostRuntime) {
    let tree = two_leaves(&rt, rt.alloc());
    let jobs = [A, B].map(|node| reads(&rt, rt.alloc(), &tree, node));
    for step in [1, 2] {
        meet_at(&rt, &tree, &jobs, step);
    }
}

/// Runs two jobs on one node. The first comes to its lock and waits there until the second has done its access; so no
/// gate is called behind its step. Then the second keeps the node for a while. Has the first one waited for it?
fn waits_once<R: Host>(rt: &R, tree: &Tree, jobs: &[Job; 2]) -> bool {
    let cues = vec![in rt.alloc();
        Cue::new((0, 0), (1, 2), 0),
        Cue::new((1, 2), (0, 0), 10_000),
    ];
    let cues = Cues::new(cues.expect(rt, "room for cues"));
    let finished = run(rt, tree, &[0, 10, 20], jobs, 2, &cues);
    assert!(rt; cues.have_come());
    assert_eq!(rt; cues.calls(), 6);
    let core = finished.core();
    assert!(rt; core.tree().len() == 3);
    core.waits(Node::new(A)) == 1 && core.history().len() == 7
}

#[test]
fn who_waits_for_a_node_is_counted_and_comes_once_to_each_step(rt: HostRuntime) {
    let tree = two_leaves(&rt, rt.alloc());
    let jobs = [A; 2].map(|node| reads(&rt, rt.alloc(), &tree, node));
    let mut waited = false;
    for _ in 0..100 {
        waited = waited || waits_once(&rt, &tree, &jobs);
    }
    assert!(rt; waited);
}
