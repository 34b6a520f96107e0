use crate::errors::{failing_lane, routes_of, runs_so};
use crate::given::{DRAIN, Given, SOUND, given_with, lane};
use eip_test_support::holds_for;
use eip_text::NoMemory;
use std::alloc::Global;
use std::sync::Wait;
use std::test::Fail;
use std::thread::Threads;

/// A dead letter channel to a log, with one attempt more.
const DEAD: &str =
    r#"{"errorHandler":{"deadLetterChannel":{"deadLetterUri":"log:dead","redeliveryPolicy":{"maximumRedeliveries":1}}}}"#;

/// The handler that does nothing.
const PLAIN: &str = r#"{"errorHandler":{"defaultErrorHandler":{}}}"#;

/// A key behind a send.
const BEHIND: &str =
    r#"[{"to":"lane:y"},{"idempotentConsumer":{"simple":"${body}","steps":[{"to":"lane:x"}]}}]"#;

/// The same with a key that is taken at the end.
const LAZY_BEHIND: &str =
    r#"[{"to":"lane:y"},{"idempotentConsumer":{"simple":"${body}","eager":false,"steps":[{"to":"lane:x"}]}}]"#;

const LAZY: &str =
    r#"[{"idempotentConsumer":{"simple":"${body}","eager":false,"steps":[{"to":"lane:x"}]}}]"#;

const EAGER: &str =
    r#"[{"idempotentConsumer":{"simple":"${body}","eager":true,"steps":[{"to":"lane:x"}]}}]"#;

const LASTING: &str =
    r#"[{"idempotentConsumer":{"simple":"${body}","removeOnFailure":false,"steps":[{"to":"lane:x"}]}}]"#;

const GIVEN_UP: &str =
    r#"[{"idempotentConsumer":{"simple":"${body}","removeOnFailure":true,"steps":[{"to":"lane:x"}]}}]"#;

const LAZY_LASTING: &str =
    r#"[{"idempotentConsumer":{"simple":"${body}","eager":false,"removeOnFailure":false,"steps":[{"to":"lane:x"}]}}]"#;

/// A block that faults, which ends in the dead letter.
const THROWN: &str =
    r#"[{"idempotentConsumer":{"simple":"${body}","steps":[{"throwException":{"exceptionType":"X","message":"x"}}]}}]"#;

const THROWN_LASTING: &str =
    r#"[{"idempotentConsumer":{"simple":"${body}","removeOnFailure":false,"steps":[{"throwException":{"exceptionType":"X","message":"x"}}]}}]"#;

/// The block runs for a duplicate too, which is marked.
const MARKED: &str =
    r#"[{"idempotentConsumer":{"simple":"${body}","skipDuplicate":false,"steps":[{"log":"<${exchangeProperty.CamelDuplicateMessage}>"}]}}]"#;

/// The block is skipped for a duplicate, which is marked behind it.
const SKIPPED: &str =
    r#"[{"idempotentConsumer":{"simple":"${body}","steps":[{"to":"log:x"}]}},{"log":"<${exchangeProperty.CamelDuplicateMessage}>"}]"#;

const BY_BODY: &str = r#"[{"idempotentConsumer":{"simple":"${body}","steps":[{"to":"log:x"}]}}]"#;

const BY_NO_HEADER: &str = r#"[{"idempotentConsumer":{"header":"none","steps":[{"to":"log:x"}]}}]"#;

/// Two steps, each with its own repository.
const TWO: &str =
    r#"[{"idempotentConsumer":{"simple":"${body}","steps":[{"to":"log:p"}]}},{"idempotentConsumer":{"simple":"${body}","steps":[{"to":"log:q"}]}}]"#;

/// Two steps that share one.
const SHARED: &str =
    r##"[{"idempotentConsumer":{"simple":"${body}","idempotentRepository":"r","steps":[{"to":"log:p"}]}},{"idempotentConsumer":{"simple":"${body}","idempotentRepository":"#r","steps":[{"to":"log:q"}]}}]"##;

const LAZY_SHARED: &str =
    r#"[{"idempotentConsumer":{"simple":"${body}","idempotentRepository":"r","eager":false,"steps":[{"to":"log:p"}]}},{"idempotentConsumer":{"simple":"${body}","idempotentRepository":"r","eager":false,"steps":[{"to":"log:q"}]}}]"#;

/// A handler, steps, how many first calls of the lane `x` fail, the lines, what a drain of them prints, the letters of the
/// answers, and the moments of the ticks. The third call of the lane `y` fails.
static RUNS: [(&str, &str, u64, &[&str], &str, &str, &str); 17] = [
    (
        DEAD,
        BEHIND,
        2,
        &["k", "k", "k"],
        "log 1 dead: k\nexchange 1 source route1 handled\nexchange 2 source route1 completed\nexchange 3 source route1 completed\naccepted 3 refused 0\ntotal 3 completed 2 handled 1 failed 0 waiting 0\ndrained\n",
        "dkfd1ffdkd",
        "1000 ",
    ),
    (
        DEAD,
        LAZY,
        1,
        &["k", "k", "k"],
        "exchange 1 source route1 completed\nexchange 2 source route1 completed\nexchange 3 source route1 completed\naccepted 3 refused 0\ntotal 3 completed 3 handled 0 failed 0 waiting 0\ndrained\n",
        "kfkd2d",
        "1000 ",
    ),
    (
        DEAD,
        EAGER,
        1,
        &["k", "k", "k"],
        "exchange 1 source route1 completed\nexchange 2 source route1 completed\nexchange 3 source route1 completed\naccepted 3 refused 0\ntotal 3 completed 3 handled 0 failed 0 waiting 0\ndrained\n",
        "kf11d",
        "1000 ",
    ),
    (
        PLAIN,
        LASTING,
        1,
        &["k", "k"],
        "exchange 1 source route1 failed SendFailed \"lane:x\"\nexchange 2 source route1 completed\naccepted 2 refused 0\ntotal 2 completed 1 handled 0 failed 1 waiting 0\ndrained\n",
        "kf1",
        "",
    ),
    (
        PLAIN,
        GIVEN_UP,
        1,
        &["k", "k"],
        "exchange 1 source route1 failed SendFailed \"lane:x\"\nexchange 2 source route1 completed\naccepted 2 refused 0\ntotal 2 completed 1 handled 0 failed 1 waiting 0\ndrained\n",
        "kfkd",
        "",
    ),
    (
        PLAIN,
        LAZY_LASTING,
        1,
        &["k", "k"],
        "exchange 1 source route1 failed SendFailed \"lane:x\"\nexchange 2 source route1 completed\naccepted 2 refused 0\ntotal 2 completed 1 handled 0 failed 1 waiting 0\ndrained\n",
        "kf1",
        "",
    ),
    (
        PLAIN,
        LAZY,
        1,
        &["k", "k", "k"],
        "exchange 1 source route1 failed SendFailed \"lane:x\"\nexchange 2 source route1 completed\nexchange 3 source route1 completed\naccepted 3 refused 0\ntotal 3 completed 2 handled 0 failed 1 waiting 0\ndrained\n",
        "kfkd2",
        "",
    ),
    (
        DEAD,
        LAZY_BEHIND,
        1,
        &["k", "k", "k"],
        "exchange 1 source route1 completed\nexchange 2 source route1 completed\nexchange 3 source route1 completed\naccepted 3 refused 0\ntotal 3 completed 3 handled 0 failed 0 waiting 0\ndrained\n",
        "dkfdkdfdd1",
        "1000 ",
    ),
    (
        DEAD,
        THROWN,
        0,
        &["k", "k"],
        "log 1 dead: k\nlog 2 dead: k\nexchange 1 source route1 handled\nexchange 2 source route1 handled\naccepted 2 refused 0\ntotal 2 completed 0 handled 2 failed 0 waiting 0\ndrained\n",
        "kk",
        "",
    ),
    (
        DEAD,
        THROWN_LASTING,
        0,
        &["k", "k"],
        "log 1 dead: k\nexchange 1 source route1 handled\nexchange 2 source route1 completed\naccepted 2 refused 0\ntotal 2 completed 1 handled 1 failed 0 waiting 0\ndrained\n",
        "k1",
        "",
    ),
    (
        PLAIN,
        MARKED,
        0,
        &["k", "k"],
        "log 1 route1: <>\nlog 2 route1: <true>\nexchange 1 source route1 completed\nexchange 2 source route1 completed\naccepted 2 refused 0\ntotal 2 completed 2 handled 0 failed 0 waiting 0\ndrained\n",
        "k1",
        "",
    ),
    (
        PLAIN,
        SKIPPED,
        0,
        &["k", "k"],
        "log 1 x: k\nlog 1 route1: <>\nlog 2 route1: <true>\nexchange 1 source route1 completed\nexchange 2 source route1 completed\naccepted 2 refused 0\ntotal 2 completed 2 handled 0 failed 0 waiting 0\ndrained\n",
        "k1",
        "",
    ),
    (
        PLAIN,
        BY_BODY,
        0,
        &["", "k", "K"],
        "log 2 x: k\nlog 3 x: K\nexchange 1 source route1 failed NoMessageId \"\"\nexchange 2 source route1 completed\nexchange 3 source route1 completed\naccepted 3 refused 0\ntotal 3 completed 2 handled 0 failed 1 waiting 0\ndrained\n",
        "kk",
        "",
    ),
    (
        PLAIN,
        BY_NO_HEADER,
        0,
        &["k"],
        "exchange 1 source route1 failed NoMessageId \"\"\naccepted 1 refused 0\ntotal 1 completed 0 handled 0 failed 1 waiting 0\ndrained\n",
        "",
        "",
    ),
    (
        PLAIN,
        TWO,
        0,
        &["k"],
        "log 1 p: k\nlog 1 q: k\nexchange 1 source route1 completed\naccepted 1 refused 0\ntotal 1 completed 1 handled 0 failed 0 waiting 0\ndrained\n",
        "kk",
        "",
    ),
    (
        PLAIN,
        SHARED,
        0,
        &["k"],
        "log 1 p: k\nexchange 1 source route1 completed\naccepted 1 refused 0\ntotal 1 completed 1 handled 0 failed 0 waiting 0\ndrained\n",
        "k1",
        "",
    ),
    (
        PLAIN,
        LAZY_SHARED,
        0,
        &["k"],
        "log 1 p: k\nlog 1 q: k\nexchange 1 source route1 completed\naccepted 1 refused 0\ntotal 1 completed 1 handled 0 failed 0 waiting 0\ndrained\n",
        "kk",
        "",
    ),
];

/// What is handed to a drain of these lines, where the lane `x` fails its first calls and the lane `y` its third.
fn given_lines(
    alloc: Global,
    routes: &str,
    failing: u64,
    lines: &[&str],
) -> Result<Given, NoMemory> {
    let mut given = given_with(alloc, &DRAIN, routes, lines, SOUND)?;
    given.lanes = failing_lane(alloc, failing)?;
    let third = lane(alloc, "lane:y", vec![in alloc; 3]?)?;
    given.lanes.push(third)?;
    Ok(given)
}

/// Whether a drain of these lines, where the lanes fail so, prints this, with answers of these letters and with these ticks.
pub fn lines_run_so<W: AllocGlobal + Threads + Wait + Sync>(
    rt: &W,
    (handler, steps): (&str, &str),
    failing: u64,
    lines: &[&str],
    wanted: (&str, &str, &str),
) -> Result<bool, NoMemory> {
    let routes = routes_of(rt.alloc(), handler, steps)?;
    let mut given = given_lines(rt.alloc(), routes.as_str(), failing, lines)?;
    runs_so(rt, &mut given, wanted)
}

#[test]
fn a_key_is_held_as_its_step_says(rt: HostRuntime) -> Result<(), Fail> {
    for &(handler, steps, failing, lines, text, letters, ticks) in &RUNS {
        let told = lines_run_so(
            &rt,
            (handler, steps),
            failing,
            lines,
            (text, letters, ticks),
        );
        holds_for(told, steps)?;
    }
    Ok(())
}
