use crate::given::{DRAIN, Given, SOUND, came, given_with, lane, push_all, reported};
use eip_endpoint::{Lane, MemoryLane};
use eip_frames::Answer;
use eip_ledger::{Entry, Kind};
use eip_test_support::{holds_for, joined};
use eip_text::{NoMemory, decimal};
use std::alloc::Global;
use std::sync::Wait;
use std::test::Fail;
use std::thread::Threads;

/// A dead letter channel to a log, with two attempts more.
const DEAD_LOG: &str =
    r#"{"errorHandler":{"deadLetterChannel":{"deadLetterUri":"log:dead","redeliveryPolicy":{"maximumRedeliveries":2}}}}"#;

/// The same to the lane itself.
const DEAD_LANE: &str =
    r#"{"errorHandler":{"deadLetterChannel":{"deadLetterUri":"lane:x","redeliveryPolicy":{"maximumRedeliveries":2}}}}"#;

/// The same without a delay.
const DEAD_AT_ONCE: &str =
    r#"{"errorHandler":{"deadLetterChannel":{"deadLetterUri":"log:dead","redeliveryPolicy":{"maximumRedeliveries":2,"redeliveryDelay":0}}}}"#;

/// A clause behind whose fault the route goes on.
const CONTINUED: &str = r#"{"onException":{"exception":["SendFailed"],"continued":true}}"#;

/// A clause that handles its fault by a send.
const HANDLED: &str =
    r#"{"onException":{"exception":["SendFailed"],"handled":true,"steps":[{"to":"lane:x"}]}}"#;

/// A clause that sees its fault, which stays one.
const SEEN: &str =
    r#"{"onException":{"exception":["SendFailed"],"steps":[{"log":"${exception.message}"}]}}"#;

/// Steps behind a send, by which the number of the attempt is told.
const TOLD: &str = r#"[{"to":"lane:x"},{"log":"${header.CamelRedeliveryCounter}"}]"#;

const SENT: &str = r#"[{"to":"lane:x"}]"#;

const LOGGED: &str = r#"[{"to":"lane:x"},{"to":"log:o"}]"#;

/// Parts that are sent all at once.
const AT_ONCE: &str =
    r#"[{"split":{"tokenize":",","parallelProcessing":true,"aggregationStrategy":"joined:+","steps":[{"to":"lane:x"}]}},{"to":"log:out"}]"#;

/// Parts whose faults are their parent's.
const SHARED: &str =
    r#"[{"split":{"tokenize":",","shareUnitOfWork":true,"steps":[{"to":"lane:x"}]}}]"#;

const APART: &str = r#"[{"split":{"tokenize":",","steps":[{"to":"lane:x"}]}}]"#;

/// How many calls of the lane fail, the first ones.
type Failing = u64;

/// A handler or a clause, steps, the failing calls, a line, what a drain of it prints, the lane's calls (`f` for one that fails, `d` for
/// one that is done), and the moments of the ticks.
static RUNS: [(&str, &str, Failing, &str, &str, &str, &str); 13] = [
    (
        DEAD_LOG,
        TOLD,
        2,
        "a",
        "log 1 route1: 2\nexchange 1 source route1 completed\naccepted 1 refused 0\ntotal 1 completed 1 handled 0 failed 0 waiting 0\ndrained\n",
        "ffd",
        "1000 2000 ",
    ),
    (
        DEAD_LOG,
        TOLD,
        3,
        "a",
        "log 1 dead: a\nexchange 1 source route1 handled\naccepted 1 refused 0\ntotal 1 completed 0 handled 1 failed 0 waiting 0\ndrained\n",
        "fff",
        "1000 2000 ",
    ),
    (
        DEAD_LANE,
        TOLD,
        4,
        "a",
        "exchange 1 source route1 failed SendFailed \"lane:x\"\naccepted 1 refused 0\ntotal 1 completed 0 handled 0 failed 1 waiting 0\ndrained\n",
        "ffff",
        "1000 2000 ",
    ),
    (
        DEAD_AT_ONCE,
        TOLD,
        2,
        "a",
        "log 1 route1: 2\nexchange 1 source route1 completed\naccepted 1 refused 0\ntotal 1 completed 1 handled 0 failed 0 waiting 0\ndrained\n",
        "ffd",
        "",
    ),
    (
        DEAD_LOG,
        SENT,
        0,
        "a",
        "exchange 1 source route1 completed\naccepted 1 refused 0\ntotal 1 completed 1 handled 0 failed 0 waiting 0\ndrained\n",
        "d",
        "",
    ),
    (
        CONTINUED,
        LOGGED,
        1,
        "a",
        "log 1 o: a\nexchange 1 source route1 completed\naccepted 1 refused 0\ntotal 1 completed 1 handled 0 failed 0 waiting 0\ndrained\n",
        "f",
        "",
    ),
    (
        HANDLED,
        LOGGED,
        1,
        "a",
        "exchange 1 source route1 handled\naccepted 1 refused 0\ntotal 1 completed 0 handled 1 failed 0 waiting 0\ndrained\n",
        "fd",
        "",
    ),
    (
        HANDLED,
        LOGGED,
        2,
        "a",
        "exchange 1 source route1 failed SendFailed \"lane:x\"\naccepted 1 refused 0\ntotal 1 completed 0 handled 0 failed 1 waiting 0\ndrained\n",
        "ff",
        "",
    ),
    (
        SEEN,
        LOGGED,
        1,
        "a",
        "log 1 route1: lane:x\nexchange 1 source route1 failed SendFailed \"lane:x\"\naccepted 1 refused 0\ntotal 1 completed 0 handled 0 failed 1 waiting 0\ndrained\n",
        "f",
        "",
    ),
    (
        DEAD_LOG,
        AT_ONCE,
        1,
        "a,b",
        "log 1 out: a+b\nexchange 1 source route1 completed\nexchange 2 part 1.0 completed\nexchange 3 part 1.1 completed\naccepted 1 refused 0\ntotal 3 completed 3 handled 0 failed 0 waiting 0\ndrained\n",
        "fdd",
        "1000 ",
    ),
    (
        DEAD_LOG,
        AT_ONCE,
        2,
        "a,b",
        "log 1 out: a+b\nexchange 1 source route1 completed\nexchange 2 part 1.0 completed\nexchange 3 part 1.1 completed\naccepted 1 refused 0\ntotal 3 completed 3 handled 0 failed 0 waiting 0\ndrained\n",
        "ffdd",
        "1000 ",
    ),
    (
        DEAD_LOG,
        SHARED,
        3,
        "a",
        "log 1 dead: a\nexchange 1 source route1 handled\nexchange 2 part 1.0 failed SendFailed \"lane:x\"\naccepted 1 refused 0\ntotal 2 completed 0 handled 1 failed 1 waiting 0\ndrained\n",
        "fff",
        "1000 2000 ",
    ),
    (
        DEAD_LOG,
        APART,
        3,
        "a",
        "log 2 dead: a\nexchange 1 source route1 completed\nexchange 2 part 1.0 handled\naccepted 1 refused 0\ntotal 2 completed 1 handled 1 failed 0 waiting 0\ndrained\n",
        "fff",
        "1000 2000 ",
    ),
];

/// A handler or a clause, and a route from standard input with these steps.
pub fn routes_of(alloc: Global, handler: &str, steps: &str) -> Result<String, NoMemory> {
    let front = ",{\"from\":{\"uri\":\"stream:in\",\"steps\":";
    joined(alloc, &["[", handler, front, steps, "}}]"])
}

/// The lane `x`, which fails its first calls, so many.
pub fn failing_lane(alloc: Global, failing: Failing) -> Result<Vec<Lane<MemoryLane>>, NoMemory> {
    let mut calls = Vec::new(alloc);
    for call in 1..=failing {
        calls.push(call)?;
    }
    let lane = lane(alloc, "lane:x", calls)?;
    Ok(vec![in alloc; lane]?)
}

/// What is handed to a drain by these words of these routes and this line, where the lane `x` fails its first calls.
fn given_failing(
    alloc: Global,
    words: &[&str],
    routes: &str,
    failing: Failing,
    line: &str,
) -> Result<Given, NoMemory> {
    let mut given = given_with(alloc, words, routes, &[line], SOUND)?;
    given.lanes = failing_lane(alloc, failing)?;
    Ok(given)
}

/// The letter of what an exchange was answered: `d` for a call of a lane that is done and `f` for one that failed, `b` for a
/// message of a processor and `r` for its fault, `y` where a stored predicate holds and `n` where it doesn't, `k` for a key
/// that nobody held, and for another one its holder, up to 2; none for another entry.
fn letter_of(kind: &Kind) -> &'static str {
    let Kind::Answer { answer, .. } = kind else {
        return "";
    };
    match answer {
        Answer::Done => "d",
        Answer::SendFailed => "f",
        Answer::Became(_) => "b",
        Answer::Raised(_) => "r",
        Answer::Holds(true) => "y",
        Answer::Holds(false) => "n",
        Answer::Fresh => "k",
        Answer::Duplicate(1) => "1",
        Answer::Duplicate(2) => "2",
        Answer::Duplicate(_) => "?",
        _ => "",
    }
}

/// The letters of the answers, by the entries of a journal.
fn letters_of(alloc: Global, entries: &[Entry]) -> Result<String, NoMemory> {
    let mut letters = String::new(alloc);
    for entry in entries {
        letters.push_str(letter_of(&entry.kind))?;
    }
    Ok(letters)
}

/// The moments of the ticks of a journal, a space behind each.
pub fn ticks_of(alloc: Global, entries: &[Entry]) -> Result<String, NoMemory> {
    let mut ticks = String::new(alloc);
    for entry in entries {
        if let Kind::Tick(now) = &entry.kind {
            let moment = decimal(alloc, *now)?;
            push_all(&mut ticks, &[moment.as_str(), " "])?;
        }
    }
    Ok(ticks)
}

/// The letters of a journal's answers, and the moments of its ticks.
fn answers_and_ticks(alloc: Global, entries: &[Entry]) -> Result<(String, String), NoMemory> {
    let letters = letters_of(alloc, entries)?;
    Ok((letters, ticks_of(alloc, entries)?))
}

/// Whether a drain prints this, with answers of these letters and with these ticks.
pub fn runs_so<W: AllocGlobal + Threads + Wait + Sync>(
    rt: &W,
    given: &mut Given,
    wanted: (&str, &str, &str),
) -> Result<bool, NoMemory> {
    let report = reported(rt, given);
    let told = answers_and_ticks(rt.alloc(), report.journal.entries());
    let status = report.status;
    drop(report);
    let (answered, ticked) = told?;
    let (text, letters, ticks) = wanted;
    let is_printed = status == 0 && given.out.bytes() == text.as_bytes();
    Ok(is_printed && answered.as_str() == letters && ticked.as_str() == ticks)
}

/// Whether a drain of these routes and this line, where the lane `x` fails its first calls, prints this, with calls of these letters and
/// with these ticks.
fn is_tried<W: AllocGlobal + Threads + Wait + Sync>(
    rt: &W,
    (handler, steps): (&str, &str),
    failing: Failing,
    line: &str,
    wanted: (&str, &str, &str),
) -> Result<bool, NoMemory> {
    let routes = routes_of(rt.alloc(), handler, steps)?;
    let mut given = given_failing(rt.alloc(), &DRAIN, routes.as_str(), failing, line)?;
    runs_so(rt, &mut given, wanted)
}

#[test]
fn what_fails_is_tried_again_and_handled_as_the_file_says(rt: HostRuntime) -> Result<(), Fail> {
    for &(handler, steps, failing, line, text, calls, ticks) in &RUNS {
        let told = is_tried(&rt, (handler, steps), failing, line, (text, calls, ticks));
        holds_for(told, steps)?;
    }
    Ok(())
}

/// Behind three turns, one for the line, one for the send that failed and one for the answer to its wait, it sleeps until its moment.
const ASLEEP: &str =
    "exchange 1 source route1 waiting retry 1000\naccepted 1 refused 0\ntotal 1 completed 0 handled 0 failed 0 waiting 1\nspent 3\n";

#[test]
fn who_sleeps_when_the_turns_are_spent_is_told(rt: HostRuntime) -> Result<(), Fail> {
    let words = ["drain", "r.json", "--turns", "3"];
    let routes = routes_of(rt.alloc(), DEAD_LOG, SENT)?;
    let mut given = given_failing(rt.alloc(), &words, routes.as_str(), 1, "a")?;
    let told = came(&rt, &mut given, 4, ASLEEP);
    assert!(rt; told);
    Ok(())
}
