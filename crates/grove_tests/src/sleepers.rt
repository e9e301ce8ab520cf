use crate::cues::{Cue, Cues};
use crate::fixtures::{A, Host, two_leaves};
use crate::scripts::reads;
use crate::workers::run;
use grove_core::Job;
use grove_tree::Tree;

/// How often each batch is run.
pub const TIMES: u32 = 20;

/// How long a job looks on while another one comes to its lock and falls asleep.
const LOOKS_ON: u32 = 2_000;

/// Runs the jobs by so many workers to these cues, which all come.
pub fn run_by_cues<R: Host>(
    rt: &R,
    tree: &Tree,
    records: &[i64],
    jobs: &[Job],
    workers: usize,
    cues: Vec<Cue>,
) {
    let cues = Cues::new(cues);
    drop(run(rt, tree, records, jobs, workers, &cues));
    assert!(rt; cues.have_come());
}

/// Both others sleep for the leaf that the first job has. One is woken when it lets it go, and the other when that one
/// does.
#[test]
fn two_that_sleep_for_one_node_get_it_one_after_the_other(rt: HostRuntime) {
    let tree = two_leaves(&rt, rt.alloc());
    let jobs = [A; 3].map(|node| reads(&rt, rt.alloc(), &tree, node));
    for _ in 0..TIMES {
        let cues = vec![in rt.alloc();
            Cue::new((1, 0), (0, 1), 0),
            Cue::new((2, 0), (0, 1), 0),
            Cue::new((0, 2), (1, 0), LOOKS_ON),
            Cue::new((0, 2), (2, 0), LOOKS_ON),
        ];
        let cues = cues.expect(&rt, "room for cues");
        run_by_cues(&rt, &tree, &[0; 3], &jobs, 3, cues);
    }
}
