use eip_endpoint::{Inlet, Lane, MemoryLane, MemorySource};
use eip_exchange::End;
use eip_hub::Hub;
use eip_ledger::{Place, Stop};
use eip_text::NoMemory;
use eip_worker_runs::{Handed, hand_in, run_of};
use eip_workers::{Gate, NoGate, run_workers};
use std::sync::Wait;
use std::sync::atomic::{AtomicU32, Ordering};
use std::test::Fail;
use std::thread::{Threads, yield_now};

/// The parts of a line are worked on at one time.
const PARTS: &str =
    r#"[{"from":{"uri":"stream:in","steps":[{"split":{"tokenize":",","parallelProcessing":true,"steps":[{"process":"keep"}]}}]}}]"#;

/// Each part is sent on three lanes, on the second one and on the third one with a body of its own.
const THRICE: &str =
    r#"[{"from":{"uri":"stream:in","steps":[{"split":{"tokenize":",","parallelProcessing":true,"steps":[{"to":"lane:x"},{"setBody":{"simple":"<${body}>"}},{"to":"lane:y"},{"setBody":{"simple":"${body}!"}},{"to":"lane:z"}]}}]}}]"#;

/// How often a call that is held looks for the other one, before the test fails.
const POLLS: u32 = 1_000_000;

/// Holds the first call until the second one has begun.
#[derive(Drop)]
struct Holding {
    begun: AtomicU32,
    polls: AtomicU32,
}

impl Gate for Holding {
    fn before_process(&self, _worker: u32, _number: u64) {
        if self.begun.fetch_add(1, Ordering::SeqCst) > 0 {
            return;
        }
        for _ in 0..POLLS {
            if self.begun.load(Ordering::SeqCst) > 1 {
                return;
            }
            self.polls.fetch_add(1, Ordering::SeqCst);
            yield_now();
        }
    }
}

fn is_completed(place: Option<Place>) -> bool {
    let is_completed = matches!(&place, Some(Place::Ended(End::Completed)));
    drop(place);
    is_completed
}

/// Whether the exchanges from 1 up to this one are completed.
fn are_completed(hub: &Hub, last: u64) -> Result<bool, NoMemory> {
    for number in 1..=last {
        if !is_completed(hub.place(number)?) {
            return Ok(false);
        }
    }
    Ok(true)
}

/// How a run of these routes by two workers stopped, and whether the exchanges 1 to 3 are completed then. `None` where it didn't begin.
fn left<G: Gate, W: AllocGlobal + Threads + Wait + Sync>(
    rt: &W,
    routes: &str,
    handed: &mut Handed,
    gate: &G,
) -> Result<Option<(Stop, bool)>, NoMemory> {
    let alloc = rt.alloc();
    let Some(hub) = run_of(
        alloc,
        routes,
        &handed.lanes,
        &handed.inlets,
        &handed.registry,
        100,
    ) else {
        return Ok(None);
    };
    let (hub, stop) = run_workers(
        rt,
        alloc,
        hub,
        &mut handed.lanes,
        &mut handed.inlets,
        &handed.registry,
        gate,
        2,
    );
    let are_done = are_completed(&hub, 3);
    drop(hub);
    Ok(Some((stop, are_done?)))
}

/// A run whose exchanges are completed.
const DONE: Option<(Stop, bool)> = Some((Stop::Drained, true));

#[test]
fn two_workers_call_a_processor_at_one_time(rt: HostRuntime) -> Result<(), Fail> {
    let mut handed = hand_in(rt.alloc(), &[], &["stream"])?;
    let gate = Holding {
        begun: AtomicU32::new(0),
        polls: AtomicU32::new(0),
    };
    let left = left(&rt, PARTS, &mut handed, &gate);
    drop(handed);
    let polls = gate.polls.load(Ordering::SeqCst);
    drop(gate);
    assert!(rt; polls < POLLS);
    assert!(rt; left? == DONE);
    Ok(())
}

/// Whether this lane has this name and was sent these two bodies, in whichever order.
fn was_sent(lane: &Lane<MemoryLane>, name: &str, bodies: [&str; 2]) -> bool {
    let calls = lane.object.calls();
    lane.name.as_str() == name
        && calls.len() == 2
        && bodies.iter().all(|body| calls.iter().any(|call| call.message.body.as_str() == *body))
}

/// Whether the lanes and the inlets stand where they were handed in, and each lane was sent what is its own.
fn are_in_their_places(lanes: &[Lane<MemoryLane>], inlets: &[Inlet<MemorySource>]) -> bool {
    let [z, x, y] = lanes else {
        return false;
    };
    let [file, stream] = inlets else {
        return false;
    };
    was_sent(z, "lane:z", ["<a>!", "<b>!"])
        && was_sent(x, "lane:x", ["a", "b"])
        && was_sent(y, "lane:y", ["<a>", "<b>"])
        && file.name.as_str() == "file"
        && stream.name.as_str() == "stream"
}

#[test]
fn lanes_and_inlets_come_back_in_their_places(rt: HostRuntime) -> Result<(), Fail> {
    let lanes = ["lane:z", "lane:x", "lane:y"];
    let mut handed = hand_in(rt.alloc(), &lanes, &["file", "stream"])?;
    let left = left(&rt, THRICE, &mut handed, &NoGate);
    let are_there = are_in_their_places(handed.lanes.as_slice(), handed.inlets.as_slice());
    drop(handed);
    assert!(rt; left? == DONE && are_there);
    Ok(())
}
