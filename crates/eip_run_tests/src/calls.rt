use crate::given::{DRAIN, comes_to, numbered};
use eip_test_support::{holds, holds_for, joined};
use eip_text::NoMemory;
use std::alloc::Global;
use std::sync::Wait;
use std::test::Fail;
use std::thread::Threads;

/// A route that offers its message three times to a queue with room for two.
const THRICE: &str =
    r#"[{"from":{"uri":"stream:in","steps":[{"to":"seda:q"},{"to":"seda:q"},{"to":"seda:q"}]}},{"from":{"uri":"seda:q?size=2","steps":[{"to":"log:q"}]}}]"#;

/// The same where a full queue drops what is offered.
const THRICE_DISCARDING: &str =
    r#"[{"from":{"uri":"stream:in","steps":[{"to":"seda:q?discardWhenFull=true"},{"to":"seda:q?discardWhenFull=true"},{"to":"seda:q?discardWhenFull=true"}]}},{"from":{"uri":"seda:q?size=2","steps":[{"to":"log:q"}]}}]"#;

/// A route that calls another, which sets the body.
const CALLED: &str =
    r#"[{"from":{"uri":"stream:in","steps":[{"to":"direct:d"},{"log":"${body}"}]}},{"from":{"uri":"direct:d","steps":[{"log":"${body}"},{"setBody":{"constant":"b"}}]}}]"#;

/// A route that sets its body behind an offer.
const OFFERED: &str =
    r#"[{"from":{"uri":"stream:in","steps":[{"to":"seda:q"},{"setBody":{"constant":"b"}},{"to":"log:o"}]}},{"from":{"uri":"seda:q","steps":[{"to":"log:q"}]}}]"#;

/// Steps to endpoints that no route begins with.
const CALLED_NOBODY: &str = r#"[{"from":{"uri":"stream:in","steps":[{"to":"direct:none"}]}}]"#;

const OFFERED_NOBODY: &str =
    r#"[{"from":{"uri":"stream:in","steps":[{"to":"seda:none?size=7"}]}}]"#;

/// A route that calls one which calls itself.
const DEEP: &str =
    r#"[{"from":{"uri":"stream:in","steps":[{"to":"direct:l"}]}},{"from":{"uri":"direct:l","steps":[{"to":"direct:l"}]}}]"#;

/// Routes, and what a drain of the line `a` prints.
static DRAINED: [(&str, &str); 7] = [
    (
        THRICE,
        "log 2 q: a\nlog 3 q: a\nexchange 1 source route1 failed QueueFull \"seda:q 2\"\nexchange 2 queue q completed\nexchange 3 queue q completed\naccepted 1 refused 0\ntotal 3 completed 2 handled 0 failed 1 waiting 0\ndrained\n",
    ),
    (
        THRICE_DISCARDING,
        "log 2 q: a\nlog 3 q: a\nexchange 1 source route1 completed\nexchange 2 queue q completed\nexchange 3 queue q completed\naccepted 1 refused 0\ntotal 3 completed 3 handled 0 failed 0 waiting 0\ndrained\n",
    ),
    (
        CALLED,
        "log 1 route2: a\nlog 1 route1: b\nexchange 1 source route1 completed\naccepted 1 refused 0\ntotal 1 completed 1 handled 0 failed 0 waiting 0\ndrained\n",
    ),
    (
        OFFERED,
        "log 1 o: b\nlog 2 q: a\nexchange 1 source route1 completed\nexchange 2 queue q completed\naccepted 1 refused 0\ntotal 2 completed 2 handled 0 failed 0 waiting 0\ndrained\n",
    ),
    (
        CALLED_NOBODY,
        "exchange 1 source route1 failed NoConsumer \"direct:none\"\naccepted 1 refused 0\ntotal 1 completed 0 handled 0 failed 1 waiting 0\ndrained\n",
    ),
    (
        OFFERED_NOBODY,
        "exchange 1 source route1 failed NoConsumer \"seda:none?size=7\"\naccepted 1 refused 0\ntotal 1 completed 0 handled 0 failed 1 waiting 0\ndrained\n",
    ),
    (
        DEEP,
        "exchange 1 source route1 failed TooDeep \"direct:l\"\naccepted 1 refused 0\ntotal 1 completed 0 handled 0 failed 1 waiting 0\ndrained\n",
    ),
];

#[test]
fn routes_call_one_another_and_offer_to_queues(rt: HostRuntime) -> Result<(), Fail> {
    for &(routes, text) in &DRAINED {
        holds_for(comes_to(&rt, &DRAIN, routes, &["a"], 0, text), routes)?;
    }
    Ok(())
}

/// Limits on the turns of the deep calls, with the status and what is printed. They take 34: the line is accepted, the
/// route is entered 32 times, and the exchange ends. Behind the last turn no source is pulled, so its end isn't known.
static LIMITED: [(&str, u8, &str); 3] = [
    (
        "33",
        4,
        "exchange 1 source route1 waiting ready\naccepted 1 refused 0\ntotal 1 completed 0 handled 0 failed 0 waiting 1\nspent 33\n",
    ),
    (
        "34",
        4,
        "exchange 1 source route1 failed TooDeep \"direct:l\"\naccepted 1 refused 0\ntotal 1 completed 0 handled 0 failed 1 waiting 0\nspent 34\n",
    ),
    (
        "35",
        0,
        "exchange 1 source route1 failed TooDeep \"direct:l\"\naccepted 1 refused 0\ntotal 1 completed 0 handled 0 failed 1 waiting 0\ndrained\n",
    ),
];

#[test]
fn a_run_stops_behind_the_turns_that_the_words_name(rt: HostRuntime) -> Result<(), Fail> {
    for &(turns, status, text) in &LIMITED {
        let words = ["drain", "r.json", "--turns", turns];
        holds_for(comes_to(&rt, &words, DEEP, &["a"], status, text), turns)?;
    }
    Ok(())
}

/// A route that offers to a queue whose route offers to it again.
const ROUND: &str =
    r#"[{"from":{"uri":"stream:in","steps":[{"to":"seda:l"}]}},{"from":{"uri":"seda:l","steps":[{"to":"seda:l"}]}}]"#;

/// The book's lines of the line that was offered and of the copies up to this number, which are all completed.
fn completed_to(alloc: Global, last: u64) -> Result<String, NoMemory> {
    let copies = numbered(alloc, 2, last, "exchange ", " queue l completed\n")?;
    joined(
        alloc,
        &["exchange 1 source route1 completed\n", copies.as_str()],
    )
}

/// Whether a drain by these words of the line `a`, which goes round, comes to this status, and the book has so many
/// completed exchanges and behind them this.
fn goes_round<W: AllocGlobal + Threads + Wait + Sync>(
    rt: &W,
    words: &[&str],
    completed: u64,
    status: u8,
    back: &str,
) -> Result<bool, NoMemory> {
    let alloc = rt.alloc();
    let front = completed_to(alloc, completed)?;
    let text = joined(alloc, &[front.as_str(), back])?;
    comes_to(rt, words, ROUND, &["a"], status, text.as_str())
}

#[test]
fn a_copy_has_passed_a_hundred_queues_at_most(rt: HostRuntime) -> Result<(), Fail> {
    let back =
        "exchange 101 queue l failed TooManyHops \"seda:l\"\naccepted 1 refused 0\ntotal 101 completed 100 handled 0 failed 1 waiting 0\ndrained\n";
    holds(goes_round(&rt, &DRAIN, 100, 0, back))
}

#[test]
fn who_waits_where_when_the_turns_are_spent_is_told(rt: HostRuntime) -> Result<(), Fail> {
    let words = ["drain", "r.json", "--turns", "50"];
    let back =
        "exchange 25 queue l waiting ready\nexchange 26 queue l waiting queue l\naccepted 1 refused 0\ntotal 26 completed 24 handled 0 failed 0 waiting 2\nspent 50\n";
    holds(goes_round(&rt, &words, 24, 4, back))
}
