ghost use Rattle.std.specs.Thread.{IsSend, IsSync};

use crate::CarryStep;
use crate::bells::{Bells, Slot};
use crate::register::{Batch, Register};
use crate::worth::are_worth_a_thread;
use grove_access::Carry;
use grove_core::Job;
use grove_plan::Step;
use grove_tree::{Gate, Node};
use std::sync::{Mutex, Wait};
use std::thread::{Threads, join};

/// Does the jobs by so many threads, this one among them. Each thread starts the next one before it works, as long as
/// enough is left to claim: so no thread is started that has nothing to do, and none waits for another to be started.
/// Where a thread can't be started the others do the jobs.
#[cycle(chain)]
pub fn work_all<'a, B: Batch + Send + Sync, R: Threads + Wait + Sync, G: Gate + Sync>(
    rt: &R,
    jobs: &'a [Job],
    register: &Mutex<Register<'a, B>>,
    bells: &Bells,
    workers: usize,
    gate: &G,
) {
    let others = workers.saturating_sub(1);
    let slot = Slot {
        bells,
        number: others,
    };
    if others == 0 || !is_worth_a_thread(rt, register, gate) {
        return work(rt, jobs, register, &slot, gate);
    }
    join(
        rt,
        ||
            requires { IsSend B.row × IsSync B.row × IsSync R.row × IsSync G.row }
        { work_all(rt, jobs, register, bells, others, gate) },
        || work(rt, jobs, register, &slot, gate),
    );
}

// Is so much left to claim that a further worker is of use?
fn is_worth_a_thread<'a, B: Batch, R: Wait, G: Gate>(
    rt: &R,
    register: &Mutex<Register<'a, B>>,
    gate: &G,
) -> bool {
    are_worth_a_thread(register.lock(rt).unclaimed(), gate)
}

// Claims jobs and does them, until there are none.
fn work<'a, B: Batch, R: Wait, G: Gate>(
    rt: &R,
    jobs: &'a [Job],
    register: &Mutex<Register<'a, B>>,
    slot: &Slot,
    gate: &G,
) {
    let taken = register.lock(rt).take_carry(slot.number);
    let Some(mut carry) = taken else {
        return;
    };
    for _ in rt.forever() {
        let claimed = register.lock(rt).claim();
        let Some(txn) = claimed else {
            break;
        };
        let Some(job) = jobs.get(txn as usize) else {
            break;
        };
        if !carry.is_empty() {
            break;
        }
        carry.begin(txn);
        if !do_job(rt, job, register, slot, &mut carry, gate) {
            break;
        }
    }
}

// Does a job: accesses on the records that it has out, and locks and unlocks in the register. False where it can't go
// on.
fn do_job<'a, B: Batch, R: Wait, G: Gate>(
    rt: &R,
    job: &Job,
    register: &Mutex<Register<'a, B>>,
    slot: &Slot,
    carry: &mut Carry,
    gate: &G,
) -> bool {
    let txn = carry.txn();
    let steps = job.plan.steps();
    for (place, step) in steps.iter().enumerate() {
        gate.at(txn, place as u32);
        let done = match *step {
            Step::Access(access) => {
                let _ = carry.apply(&job.list, access);
                true
            }
            Step::Lock(node) => take_hold(rt, register, slot, carry, node, place),
            Step::Unlock(node) => let_go(rt, register, slot.bells, carry, node),
        };
        if !done {
            return false;
        }
    }
    true
}

// Lets a node go, and wakes whom that concerns. False where this worker can't go on.
fn let_go<'a, B: Batch, R: Wait>(
    rt: &R,
    register: &Mutex<Register<'a, B>>,
    bells: &Bells,
    carry: &mut Carry,
    node: Node,
) -> bool {
    let mut guard = register.lock(rt);
    if guard.carry_step(carry) != CarryStep::Stepped {
        guard.set_foreign();
        bells.ring_all();
        return false;
    }
    if guard.may_wait_for(node) {
        let woken = guard.whom_to_wake(node);
        drop(guard);
        bells.ring(&woken);
    }
    true
}

// Does the lock that a job stands before, at this place of its plan, once it can be done. False where this worker or
// another can't go on.
fn take_hold<'a, B: Batch, R: Wait>(
    rt: &R,
    register: &Mutex<Register<'a, B>>,
    slot: &Slot,
    carry: &mut Carry,
    node: Node,
    place: usize,
) -> bool {
    for _ in rt.forever() {
        let mut guard = register.lock(rt);
        match guard.carry_step(carry) {
            CarryStep::Stepped => return true,
            CarryStep::Blocked if guard.is_foreign() => return false,
            CarryStep::Blocked => {
                guard.fall_asleep(slot.number, carry, node, place);
                drop(guard);
                sleep(rt, register, slot, carry, place);
            }
            CarryStep::Ended | CarryStep::Foreign => {
                guard.set_foreign();
                slot.bells.ring_all();
                return false;
            }
        }
    }
    unreachable!()
}

// Sleeps until the job may go on.
fn sleep<'a, B: Batch, R: Wait>(
    rt: &R,
    register: &Mutex<Register<'a, B>>,
    slot: &Slot,
    carry: &Carry,
    place: usize,
) {
    for _ in rt.forever() {
        slot.bells.wait(rt, slot.number);
        if !register.lock(rt).sleep_on(slot.number, carry, place) {
            break;
        }
    }
}
