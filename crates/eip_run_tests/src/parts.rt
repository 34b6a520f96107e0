use crate::given::{DRAIN, comes_to, is_stepped, push_all, route_of};
use crate::runs::{COMPLETED, DOUBLED, FAILED, is_doubled};
use eip_test_support::{holds, holds_for, joined, repeated};
use eip_text::{NoMemory, decimal};
use std::alloc::Global;
use std::sync::Wait;
use std::test::Fail;
use std::thread::Threads;

/// A split whose parts are logged, before one more line of the log.
const LOGGED: &str =
    r#"[{"split":{"tokenize":",","steps":[{"to":"log:part"}]}},{"to":"log:after"}]"#;

/// A parallel split in a parallel split, both with a strategy.
const NESTED: &str =
    r#"[{"split":{"tokenize":";","parallelProcessing":true,"aggregationStrategy":"joined:|","steps":[{"split":{"tokenize":",","parallelProcessing":true,"aggregationStrategy":"joined:+","steps":[{"setBody":{"simple":"<${body}>"}}]}}]}},{"to":"log:out"}]"#;

/// A split one by one that stops behind the part that fails.
const STOPPING: &str =
    r#"[{"split":{"tokenize":",","stopOnException":true,"steps":[{"filter":{"simple":"${body} == 'b'","steps":[{"throwException":{"exceptionType":"acme.Bad","message":"no ${body}"}}]}}]}}]"#;

/// The same where all parts are begun at once, so that none is left out.
const STOPPING_AT_ONCE: &str =
    r#"[{"split":{"tokenize":",","stopOnException":true,"parallelProcessing":true,"steps":[{"filter":{"simple":"${body} == 'b'","steps":[{"throwException":{"exceptionType":"acme.Bad","message":"no ${body}"}}]}}]}}]"#;

/// A split of a JSON array.
const ELEMENTS: &str = r#"[{"split":{"jsonpath":"$[*]","steps":[{"to":"log:p"}]}}]"#;

/// Recipients, of which the third item, the second that isn't empty, is none.
const BAD_RECIPIENT: &str = r#"[{"recipientList":{"constant":"log:a, ,LOG:b"}}]"#;

const RECIPIENTS: &str = r#"[{"recipientList":{"constant":"log:a, ,log:b"}}]"#;

/// A split whose first part ends last: it has parts of its own.
const BY_INDEX: &str =
    r#"[{"split":{"tokenize":";","parallelProcessing":true,"aggregationStrategy":"joined:+","steps":[{"filter":{"simple":"${body} contains ','","steps":[{"split":{"tokenize":",","parallelProcessing":true,"aggregationStrategy":"joined:-","steps":[{"to":"log:p"}]}}]}},{"to":"log:q"}]}},{"to":"log:out"}]"#;

/// The same where both parts fail, the first one last.
const BOTH_FAIL: &str =
    r#"[{"split":{"tokenize":";","parallelProcessing":true,"steps":[{"filter":{"simple":"${body} contains ','","steps":[{"split":{"tokenize":",","parallelProcessing":true,"steps":[]}}]}},{"throwException":{"exceptionType":"Bad","message":"no ${body}"}}]}}]"#;

/// Parts that set a property which their parent has, and tell by a header which part they are.
const PROPERTIES: &str =
    r#"[{"setProperty":{"name":"p","constant":"parent"}},{"split":{"tokenize":",","aggregationStrategy":"latest","steps":[{"setProperty":{"name":"p","constant":"part"}},{"setHeader":{"name":"h","simple":"${exchangeProperty.CamelSplitIndex} of ${exchangeProperty.CamelSplitSize} ${exchangeProperty.CamelSplitComplete}"}}]}},{"log":"${body} ${header.h} ${exchangeProperty.p} ${exchangeProperty.CamelSplitIndex}"}]"#;

/// Two branches, and what the last one makes of the message.
const BRANCHES: &str =
    r#"[{"multicast":{"steps":[{"setBody":{"simple":"1${body}"}},{"setBody":{"simple":"2${body}"}}]}},{"to":"log:o"}]"#;

/// A split without a strategy, behind which the message is the parent's.
const KEPT: &str =
    r#"[{"split":{"tokenize":",","steps":[{"setBody":{"constant":"x"}}]}},{"to":"log:o"}]"#;

/// Steps, a line, what a drain of it prints before the totals, and these.
static DRAINED: [(&str, &str, &str, &str); 13] = [
    (
        LOGGED,
        "",
        "log 1 after: \nexchange 1 source route1 completed\n",
        COMPLETED,
    ),
    (
        LOGGED,
        "a,b",
        "log 2 part: a\nlog 3 part: b\nlog 1 after: a,b\nexchange 1 source route1 completed\nexchange 2 part 1.0 completed\nexchange 3 part 1.1 completed\n",
        "accepted 1 refused 0\ntotal 3 completed 3 handled 0 failed 0 waiting 0\ndrained\n",
    ),
    (
        NESTED,
        "a,b,c;d,e,f",
        "log 1 out: <a>+<b>+<c>|<d>+<e>+<f>\nexchange 1 source route1 completed\nexchange 2 part 1.0 completed\nexchange 3 part 1.1 completed\nexchange 4 part 2.0 completed\nexchange 5 part 2.1 completed\nexchange 6 part 2.2 completed\nexchange 7 part 3.0 completed\nexchange 8 part 3.1 completed\nexchange 9 part 3.2 completed\n",
        "accepted 1 refused 0\ntotal 9 completed 9 handled 0 failed 0 waiting 0\ndrained\n",
    ),
    (
        STOPPING,
        "a,b,c",
        "exchange 1 source route1 failed Bad \"no b\"\nexchange 2 part 1.0 completed\nexchange 3 part 1.1 failed Bad \"no b\"\n",
        "accepted 1 refused 0\ntotal 3 completed 1 handled 0 failed 2 waiting 0\ndrained\n",
    ),
    (
        STOPPING_AT_ONCE,
        "a,b,c",
        "exchange 1 source route1 failed Bad \"no b\"\nexchange 2 part 1.0 completed\nexchange 3 part 1.1 failed Bad \"no b\"\nexchange 4 part 1.2 completed\n",
        "accepted 1 refused 0\ntotal 4 completed 2 handled 0 failed 2 waiting 0\ndrained\n",
    ),
    (
        ELEMENTS,
        "[1,\"a\",{\"b\":2,\"a\":[]}]",
        "log 2 p: 1\nlog 3 p: a\nlog 4 p: {\"a\":[],\"b\":2}\nexchange 1 source route1 completed\nexchange 2 part 1.0 completed\nexchange 3 part 1.1 completed\nexchange 4 part 1.2 completed\n",
        "accepted 1 refused 0\ntotal 4 completed 4 handled 0 failed 0 waiting 0\ndrained\n",
    ),
    (
        ELEMENTS,
        "[1.5]",
        "exchange 1 source route1 failed NotArray \"\"\n",
        FAILED,
    ),
    (
        BAD_RECIPIENT,
        "x",
        "exchange 1 source route1 failed BadRecipient \"1\"\n",
        FAILED,
    ),
    (
        RECIPIENTS,
        "x",
        "log 2 a: x\nlog 3 b: x\nexchange 1 source route1 completed\nexchange 2 part 1.0 completed\nexchange 3 part 1.1 completed\n",
        "accepted 1 refused 0\ntotal 3 completed 3 handled 0 failed 0 waiting 0\ndrained\n",
    ),
    (
        BY_INDEX,
        "a,b;c",
        "log 3 q: c\nlog 4 p: a\nlog 5 p: b\nlog 2 q: a-b\nlog 1 out: a-b+c\nexchange 1 source route1 completed\nexchange 2 part 1.0 completed\nexchange 3 part 1.1 completed\nexchange 4 part 2.0 completed\nexchange 5 part 2.1 completed\n",
        "accepted 1 refused 0\ntotal 5 completed 5 handled 0 failed 0 waiting 0\ndrained\n",
    ),
    (
        BOTH_FAIL,
        "a,b;c",
        "exchange 1 source route1 failed Bad \"no a,b\"\nexchange 2 part 1.0 failed Bad \"no a,b\"\nexchange 3 part 1.1 failed Bad \"no c\"\nexchange 4 part 2.0 completed\nexchange 5 part 2.1 completed\n",
        "accepted 1 refused 0\ntotal 5 completed 2 handled 0 failed 3 waiting 0\ndrained\n",
    ),
    (
        BRANCHES,
        "a",
        "log 1 o: 2a\nexchange 1 source route1 completed\nexchange 2 part 1.0 completed\nexchange 3 part 1.1 completed\n",
        "accepted 1 refused 0\ntotal 3 completed 3 handled 0 failed 0 waiting 0\ndrained\n",
    ),
    (
        KEPT,
        "a",
        "log 1 o: a\nexchange 1 source route1 completed\nexchange 2 part 1.0 completed\n",
        "accepted 1 refused 0\ntotal 2 completed 2 handled 0 failed 0 waiting 0\ndrained\n",
    ),
];

#[test]
fn parts_are_born_in_order_and_joined_by_index(rt: HostRuntime) -> Result<(), Fail> {
    for &(steps, line, front, totals) in &DRAINED {
        holds_for(is_stepped(&rt, steps, line, front, totals), steps)?;
    }
    Ok(())
}

#[test]
fn the_parents_properties_stay_behind_its_parts(rt: HostRuntime) -> Result<(), Fail> {
    let front =
        "log 1 route1: b 1 of 2 true parent \nexchange 1 source route1 completed\nexchange 2 part 1.0 completed\nexchange 3 part 1.1 completed\n";
    let totals =
        "accepted 1 refused 0\ntotal 3 completed 3 handled 0 failed 0 waiting 0\ndrained\n";
    holds(is_stepped(&rt, PROPERTIES, "a,b", front, totals))
}

/// A split whose parts are begun at once.
const AT_ONCE: &str =
    r#"[{"from":{"uri":"stream:in","steps":[{"split":{"tokenize":",","parallelProcessing":true,"steps":[{"to":"log:p"}]}}]}}]"#;

#[test]
fn a_parent_waits_in_the_place_joining(rt: HostRuntime) -> Result<(), Fail> {
    let words = ["drain", "r.json", "--turns", "4"];
    let text =
        "log 2 p: a\nexchange 1 source route1 waiting joining\nexchange 2 part 1.0 completed\nexchange 3 part 1.1 waiting ready\naccepted 1 refused 0\ntotal 3 completed 1 handled 0 failed 0 waiting 2\nspent 4\n";
    holds(comes_to(&rt, &words, AT_ONCE, &["a,b"], 4, text))
}

/// Parts that offer their message to a queue, and end before it is taken from there.
const QUEUED: &str =
    r#"[{"from":{"uri":"stream:in","steps":[{"split":{"tokenize":",","steps":[{"to":"seda:q"}]}},{"to":"log:o"}]}},{"from":{"uri":"seda:q","steps":[{"to":"log:q"}]}}]"#;

#[test]
fn what_a_part_puts_into_a_queue_is_no_part(rt: HostRuntime) -> Result<(), Fail> {
    let text =
        "log 1 o: a,b\nlog 3 q: a\nlog 5 q: b\nexchange 1 source route1 completed\nexchange 2 part 1.0 completed\nexchange 3 queue q completed\nexchange 4 part 1.1 completed\nexchange 5 queue q completed\naccepted 1 refused 0\ntotal 5 completed 5 handled 0 failed 0 waiting 0\ndrained\n";
    holds(comes_to(&rt, &DRAIN, QUEUED, &["a,b"], 0, text))
}

/// A split without steps.
const BARE: &str = r#"[{"split":{"tokenize":",","steps":[]}}]"#;

/// The book's lines of a parent that is completed and of so many parts of it, which are all completed.
fn parts_to(alloc: Global, count: u64) -> Result<String, NoMemory> {
    let mut out = String::from_str(alloc, "exchange 1 source route1 completed\n")?;
    for index in 0..count {
        let number = decimal(alloc, index.saturating_add(2))?;
        let place = decimal(alloc, index)?;
        let pieces = [
            "exchange ",
            number.as_str(),
            " part 1.",
            place.as_str(),
            " completed\n",
        ];
        push_all(&mut out, &pieces)?;
    }
    Ok(out)
}

/// Whether a line of so many commas comes to this book and these totals.
fn are_split<W: AllocGlobal + Threads + Wait + Sync>(
    rt: &W,
    commas: usize,
    front: &str,
    totals: &str,
) -> Result<bool, NoMemory> {
    let alloc = rt.alloc();
    let line = repeated(alloc, ",", commas)?;
    let routes = route_of(alloc, BARE)?;
    let text = joined(alloc, &[front, totals])?;
    comes_to(
        rt,
        &DRAIN,
        routes.as_str(),
        &[line.as_str()],
        0,
        text.as_str(),
    )
}

/// Whether a line of ten thousand commas comes to as many parts.
fn are_most_parts_born<W: AllocGlobal + Threads + Wait + Sync>(rt: &W) -> Result<bool, NoMemory> {
    let front = parts_to(rt.alloc(), 10_000)?;
    let totals =
        "accepted 1 refused 0\ntotal 10001 completed 10001 handled 0 failed 0 waiting 0\ndrained\n";
    are_split(rt, 10_000, front.as_str(), totals)
}

#[test]
fn a_message_has_ten_thousand_parts_at_most(rt: HostRuntime) -> Result<(), Fail> {
    holds(are_most_parts_born(&rt))?;
    let front = "exchange 1 source route1 failed TooManyParts \"10001\"\n";
    holds(are_split(&rt, 10_001, front, FAILED))
}

#[test]
fn a_body_that_grows_too_long_fails(rt: HostRuntime) -> Result<(), Fail> {
    for &(length, front, totals) in &DOUBLED {
        holds_for(is_doubled(&rt, length, front, totals), length)?;
    }
    Ok(())
}
