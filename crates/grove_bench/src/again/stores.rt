use crate::again::values::store_below;
use crate::again::{tell, tell_reply};
use grove_session::LINE_LIMIT;
use grove_store::Store;
use grove_tree::OpenGate;
use std::alloc::AllocGlobal;
use std::sync::Wait;
use std::thread::Threads;

/// Lines of a session: one of each kind, some whose effects the next ones show, and two that are refused.
const LINES: [&str; 10] = [
    r#"{"plan":[["get","/a"]]}"#,
    r#"{"batch":[[["add","/a",1],["get","/a"]]]}"#,
    r#"{"batch":[]}"#,
    r#"{"weights":null}"#,
    r#"{"reweigh":null}"#,
    r#"{"weights":null}"#,
    r#"{"check":{"list":[["get","/a"]],"plan":[["lock","/a"],["access",0],["unlock","/a"]],"flow":[{"node":"/a","above":0,"held":0,"first":1,"last":1,"own":0}]}}"#,
    r#"{"get":"/a"}"#,
    r#"{"plan":[["get","/c"]]}"#,
    r#"{"batch":[[["set","/b",5]],[["get","/b"]]]}"#,
];

/// Two batches and a line of another kind, of which the batches are one round.
const ROUND: [&[u8]; 3] = [
    br#"{"batch":[[["add","/a",1]]]}"#,
    br#"{"batch":[[["get","/a"]],[["get","/b"]]]}"#,
    br#"{"weights":null}"#,
];

/// Has one store answer ten lines, one after the other.
pub fn answer_lines<R: AllocGlobal + Print + Threads + Wait + Sync>(rt: &R) -> Option<()> {
    let mut store = store_below(rt.alloc(), 5)?;
    tell(rt, "Store::open", &store.rounds());
    for line in LINES {
        let reply = answered(rt, &mut store, line.as_bytes())?;
        tell_reply(rt, "Store::answer", &reply);
    }
    Some(())
}

fn answered<R: AllocGlobal + Print + Threads + Wait + Sync>(
    rt: &R,
    store: &mut Store,
    line: &[u8],
) -> Option<Vec<u8>> {
    if line.len() > LINE_LIMIT {
        return None;
    }
    if let Ok(reply) = store.answer(rt, rt.alloc(), line) {
        return Some(reply);
    }
    println!(rt; "memory").ok()?;
    store.answer(rt, rt.alloc(), line).ok()
}

/// Has a store answer lines of which some share a round.
pub fn answer_together<R: AllocGlobal + Print + Threads + Wait + Sync>(rt: &R) -> Option<()> {
    let mut store = store_below(rt.alloc(), 1)?;
    tell(rt, "Store::open", &store.rounds());
    for reply in &answered_together(rt, &mut store, &ROUND)? {
        tell_reply(rt, "Store::answer_round", reply);
    }
    Some(())
}

fn answered_together<R: AllocGlobal + Print + Threads + Wait + Sync>(
    rt: &R,
    store: &mut Store,
    lines: &[&[u8]],
) -> Option<Vec<Vec<u8>>> {
    if lines.is_empty() || lines.len() > 16 || !lines.iter().all(|line| line.len() <= LINE_LIMIT) {
        return None;
    }
    if let Ok(replies) = store.answer_round(rt, rt.alloc(), lines, &OpenGate) {
        return Some(replies);
    }
    println!(rt; "memory").ok()?;
    store.answer_round(rt, rt.alloc(), lines, &OpenGate).ok()
}
