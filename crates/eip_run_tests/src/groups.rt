use crate::errors::{failing_lane, ticks_of};
use crate::given::{DRAIN, Given, SOUND, given_steps, given_with, reported};
use eip_test_support::{holds, holds_for};
use eip_text::NoMemory;
use std::alloc::Global;
use std::sync::Wait;
use std::test::Fail;
use std::thread::Threads;

/// Messages with one body, two by two.
const IN_PAIRS: &str =
    r#"[{"aggregate":{"correlationExpression":{"simple":"${body}"},"completionSize":2,"aggregationStrategy":"joined","steps":[{"to":"log:agg"}]}}]"#;

/// The same, where what is left at the end goes on too.
const FORCED: &str =
    r#"[{"aggregate":{"correlationExpression":{"simple":"${body}"},"completionSize":2,"aggregationStrategy":"joined","forceCompletionOnStop":true,"steps":[{"to":"log:agg"}]}}]"#;

/// What closed a group, how many parts it has, and by which key they came.
const TOLD: &str =
    r#"[{"aggregate":{"correlationExpression":{"constant":"k"},"completionSize":2,"completionTimeout":5,"completionPredicate":{"simple":"${body} == 'a,a'"},"forceCompletionOnStop":true,"aggregationStrategy":"joined","steps":[{"log":{"logName":"by","message":"${exchangeProperty.CamelAggregatedCompletedBy} ${exchangeProperty.CamelAggregatedSize} ${exchangeProperty.CamelAggregatedCorrelationKey} ${body}"}}]}}]"#;

/// Groups that only time closes.
const TIMED: &str =
    r#"[{"aggregate":{"correlationExpression":{"simple":"${body}"},"completionTimeout":5,"steps":[{"to":"log:agg"}]}}]"#;

const SUMMED: &str =
    r#"[{"aggregate":{"correlationExpression":{"constant":"k"},"completionSize":2,"aggregationStrategy":"sum","steps":[{"to":"log:agg"}]}}]"#;

const WITHOUT_KEY: &str =
    r#"[{"aggregate":{"correlationExpression":{"header":"none"},"completionSize":2,"steps":[]}}]"#;

/// Behind the step a message goes on as it is.
const GONE_ON: &str =
    r#"[{"aggregate":{"correlationExpression":{"constant":"k"},"completionSize":2,"aggregationStrategy":"joined","steps":[{"to":"log:agg"}]}},{"to":"log:after"}]"#;

const THREES: &str =
    r#"[{"resequence":{"simple":"${body}","batchConfig":{"batchSize":3},"steps":[{"to":"log:out"}]}}]"#;

const IN_TIME: &str = r#"[{"resequence":{"simple":"${body}","steps":[{"to":"log:out"}]}}]"#;

/// Steps, the lines, the status of a drain of them, what it prints, and the moments of its ticks, a space behind each.
static DRAINED: [(&str, &[&str], u8, &str, &str); 11] = [
    (
        IN_PAIRS,
        &["a", "b", "a", "a"],
        3,
        "log 4 agg: a,a\nexchange 1 source route1 completed\nexchange 2 source route1 completed\nexchange 3 source route1 completed\nexchange 4 group 1 completed\nexchange 5 source route1 completed\ngroup 2 1 \"b\"\ngroup 3 1 \"a\"\naccepted 4 refused 0\ntotal 5 completed 5 handled 0 failed 0 waiting 0\nheld 2\n",
        "",
    ),
    (
        FORCED,
        &["a", "b", "a", "a"],
        0,
        "log 4 agg: a,a\nlog 6 agg: b\nlog 7 agg: a\nexchange 1 source route1 completed\nexchange 2 source route1 completed\nexchange 3 source route1 completed\nexchange 4 group 1 completed\nexchange 5 source route1 completed\nexchange 6 group 2 completed\nexchange 7 group 3 completed\naccepted 4 refused 0\ntotal 7 completed 7 handled 0 failed 0 waiting 0\ndrained\n",
        "",
    ),
    (
        TOLD,
        &["a", "a", "b", "c", "d"],
        0,
        "log 3 by: predicate 2 k a,a\nlog 6 by: size 2 k b,c\nlog 8 by: timeout 1 k d\nexchange 1 source route1 completed\nexchange 2 source route1 completed\nexchange 3 group 1 completed\nexchange 4 source route1 completed\nexchange 5 source route1 completed\nexchange 6 group 2 completed\nexchange 7 source route1 completed\nexchange 8 group 3 completed\naccepted 5 refused 0\ntotal 8 completed 8 handled 0 failed 0 waiting 0\ndrained\n",
        "5 ",
    ),
    (
        TIMED,
        &["b", "a", "b"],
        0,
        "log 4 agg: b\nlog 5 agg: a\nexchange 1 source route1 completed\nexchange 2 source route1 completed\nexchange 3 source route1 completed\nexchange 4 group 1 completed\nexchange 5 group 2 completed\naccepted 3 refused 0\ntotal 5 completed 5 handled 0 failed 0 waiting 0\ndrained\n",
        "5 ",
    ),
    (
        SUMMED,
        &["1", "x", "2"],
        0,
        "log 4 agg: 3\nexchange 1 source route1 completed\nexchange 2 source route1 failed NotNumber \"\"\nexchange 3 source route1 completed\nexchange 4 group 1 completed\naccepted 3 refused 0\ntotal 4 completed 3 handled 0 failed 1 waiting 0\ndrained\n",
        "",
    ),
    (
        SUMMED,
        &["x"],
        0,
        "exchange 1 source route1 failed NotNumber \"\"\naccepted 1 refused 0\ntotal 1 completed 0 handled 0 failed 1 waiting 0\ndrained\n",
        "",
    ),
    (
        WITHOUT_KEY,
        &["x"],
        0,
        "exchange 1 source route1 failed InvalidCorrelationKey \"\"\naccepted 1 refused 0\ntotal 1 completed 0 handled 0 failed 1 waiting 0\ndrained\n",
        "",
    ),
    (
        GONE_ON,
        &["a", "b"],
        0,
        "log 1 after: a\nlog 2 after: b\nlog 3 agg: a,b\nexchange 1 source route1 completed\nexchange 2 source route1 completed\nexchange 3 group 1 completed\naccepted 2 refused 0\ntotal 3 completed 3 handled 0 failed 0 waiting 0\ndrained\n",
        "",
    ),
    (
        THREES,
        &["10", "9", "x"],
        0,
        "log 5 out: 9\nlog 6 out: 10\nlog 7 out: x\nexchange 1 source route1 completed\nexchange 2 source route1 completed\nexchange 3 source route1 completed\nexchange 4 group 1 completed\nexchange 5 part 4.0 completed\nexchange 6 part 4.1 completed\nexchange 7 part 4.2 completed\naccepted 3 refused 0\ntotal 7 completed 7 handled 0 failed 0 waiting 0\ndrained\n",
        "",
    ),
    (
        THREES,
        &["7", "07", "5"],
        0,
        "log 5 out: 5\nlog 6 out: 7\nlog 7 out: 07\nexchange 1 source route1 completed\nexchange 2 source route1 completed\nexchange 3 source route1 completed\nexchange 4 group 1 completed\nexchange 5 part 4.0 completed\nexchange 6 part 4.1 completed\nexchange 7 part 4.2 completed\naccepted 3 refused 0\ntotal 7 completed 7 handled 0 failed 0 waiting 0\ndrained\n",
        "",
    ),
    (
        IN_TIME,
        &["b", "a"],
        0,
        "log 4 out: a\nlog 5 out: b\nexchange 1 source route1 completed\nexchange 2 source route1 completed\nexchange 3 group 1 completed\nexchange 4 part 3.0 completed\nexchange 5 part 3.1 completed\naccepted 2 refused 0\ntotal 5 completed 5 handled 0 failed 0 waiting 0\ndrained\n",
        "1000 ",
    ),
];

/// Whether a drain comes to this status and prints this, with these ticks.
fn ends_so<W: AllocGlobal + Threads + Wait + Sync>(
    rt: &W,
    given: &mut Given,
    status: u8,
    text: &str,
    ticks: &str,
) -> Result<bool, NoMemory> {
    let alloc = rt.alloc();
    let report = reported(rt, given);
    let ticked = ticks_of(alloc, report.journal.entries())?;
    let is_told = given.out.bytes() == text.as_bytes();
    Ok(report.status == status && is_told && ticked.as_str() == ticks)
}

/// Whether these lines, which come through these steps, end so.
fn are_grouped<W: AllocGlobal + Threads + Wait + Sync>(
    rt: &W,
    (steps, lines): (&str, &[&str]),
    status: u8,
    text: &str,
    ticks: &str,
) -> Result<bool, NoMemory> {
    let mut given = given_steps(rt.alloc(), steps, lines)?;
    ends_so(rt, &mut given, status, text, ticks)
}

#[test]
fn groups_and_batches_go_on_when_they_are_closed(rt: HostRuntime) -> Result<(), Fail> {
    for &(steps, lines, status, text, ticks) in &DRAINED {
        let told = are_grouped(&rt, (steps, lines), status, text, ticks);
        holds_for(told, steps)?;
    }
    Ok(())
}

/// A first send that fails is tried again three ticks later; the group is due behind its last arrival.
const LATE: &str =
    r#"[{"errorHandler":{"deadLetterChannel":{"deadLetterUri":"log:dead","redeliveryPolicy":{"maximumRedeliveries":2,"redeliveryDelay":3}}}},{"from":{"uri":"stream:in","steps":[{"to":"lane:x"},{"aggregate":{"correlationExpression":{"constant":"k"},"completionTimeout":5,"aggregationStrategy":"joined","steps":[{"to":"log:agg"}]}}]}}]"#;

/// The book of it.
const LATE_TEXT: &str =
    "log 3 agg: b,a\nexchange 1 source route1 completed\nexchange 2 source route1 completed\nexchange 3 group 1 completed\naccepted 2 refused 0\ntotal 3 completed 3 handled 0 failed 0 waiting 0\ndrained\n";

#[test]
fn a_group_is_due_behind_its_last_arrival(rt: HostRuntime) -> Result<(), Fail> {
    let mut given = given_with(rt.alloc(), &DRAIN, LATE, &["a", "b"], SOUND)?;
    given.lanes = failing_lane(rt.alloc(), 1)?;
    holds(ends_so(&rt, &mut given, 0, LATE_TEXT, "3 8 "))
}
