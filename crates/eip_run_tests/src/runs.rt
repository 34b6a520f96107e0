use crate::given::{
    CHECK, DRAIN, Failing, SOUND, comes_at_fault_to, comes_to, given_with, is_stepped, numbered,
    reported, route_of,
};
use eip_endpoint::{Call, Lane, MemoryLane, Outcome};
use eip_frames::Answer;
use eip_ledger::{Entry, Kind};
use eip_test_support::{holds, holds_for, joined, repeated};
use eip_text::NoMemory;
use std::alloc::Global;
use std::sync::Wait;
use std::test::Fail;
use std::thread::Threads;

/// Steps to a log and to two lanes.
const STEPS: &str =
    "[{\"from\":{\"uri\":\"stream:in\",\"steps\":[{\"setBody\":{\"constant\":\"hi\"}},{\"to\":\"log:out\"},{\"to\":\"lane:a\"},{\"to\":\"lane:b\"}]}}]";

/// A step to a log.
const LOGGED: &str =
    "[{\"from\":{\"uri\":\"stream:in\",\"steps\":[{\"setBody\":{\"constant\":\"hi\"}},{\"to\":\"log:out\"}]}}]";

/// No steps.
const NO_STEPS: &str = "[{\"from\":{\"steps\":[],\"uri\":\"stream:in\"}}]";

/// A step to a lane that is not handed in.
const OTHER_LANE: &str = "[{\"from\":{\"uri\":\"stream:in\",\"steps\":[{\"to\":\"lane:c\"}]}}]";

#[test]
fn each_line_is_sent_and_the_book_stands_behind_the_log(rt: HostRuntime) -> Result<(), Fail> {
    let text =
        "log 1 out: hi\nlog 2 out: hi\nexchange 1 source route1 completed\nexchange 2 source route1 completed\naccepted 2 refused 0\ntotal 2 completed 2 handled 0 failed 0 waiting 0\ndrained\n";
    holds(comes_to(&rt, &DRAIN, STEPS, &["a", "b"], 0, text))
}

#[test]
fn empty_input_is_drained(rt: HostRuntime) -> Result<(), Fail> {
    let text = "accepted 0 refused 0\ntotal 0 completed 0 handled 0 failed 0 waiting 0\ndrained\n";
    holds(comes_to(&rt, &DRAIN, STEPS, &[], 0, text))
}

#[test]
fn a_route_without_steps_completes_each_line(rt: HostRuntime) -> Result<(), Fail> {
    let text =
        "exchange 1 source route1 completed\nexchange 2 source route1 completed\naccepted 2 refused 0\ntotal 2 completed 2 handled 0 failed 0 waiting 0\ndrained\n";
    holds(comes_to(&rt, &DRAIN, NO_STEPS, &["a", "b"], 0, text))
}

/// Whether a drain of this path, where `r.json` has these routes, is refused with this text.
fn is_refused<W: AllocGlobal + Threads + Wait + Sync>(
    rt: &W,
    path: &str,
    routes: &str,
    text: &str,
) -> Result<bool, NoMemory> {
    comes_to(rt, &["drain", path], routes, &[], 1, text)
}

#[test]
fn a_missing_route_file_is_told(rt: HostRuntime) -> Result<(), Fail> {
    holds(is_refused(&rt, "s.json", STEPS, "error routes $ NoFile\n"))
}

#[test]
fn a_lane_that_is_not_handed_in_is_refused(rt: HostRuntime) -> Result<(), Fail> {
    let text = "error routes $[0].from.steps[0].to NotRegistered lane:c\n";
    holds(is_refused(&rt, "r.json", OTHER_LANE, text))
}

/// Words that are no command.
static OTHER_WORDS: [&[&str]; 4] = [
    &["drain", "r.json/"],
    &["drain", "r.json", "--turns", "0"],
    &["drain", "r.json", "--turns", "5", "--turns", "5"],
    &["check", "r.json", "--turns", "5"],
];

#[test]
fn other_words_are_refused(rt: HostRuntime) -> Result<(), Fail> {
    for words in &OTHER_WORDS {
        holds(comes_to(&rt, words, STEPS, &[], 1, "error words\n"))?;
    }
    Ok(())
}

#[test]
fn a_file_that_is_no_json_is_told(rt: HostRuntime) -> Result<(), Fail> {
    holds(is_refused(&rt, "r.json", "[{", "error routes $ NotJson\n"))
}

/// A letter for a kind of entry: `p` a pull, `a` an exchange accepted, `n` a line noted, `f` an exchange finished, `e` the
/// end of a source.
fn letter(kind: &Kind) -> u8 {
    match kind {
        Kind::Pull(_) => b'p',
        Kind::Accept { .. } => b'a',
        Kind::Answer { answer, .. } => match answer {
            Answer::Noted => b'n',
            Answer::Finished => b'f',
            _ => b'?',
        },
        Kind::SourceEnd(_) => b'e',
        _ => b'?',
    }
}

/// Whether the kinds of these entries have these letters.
fn are_kinds(entries: &[Entry], letters: &[u8]) -> bool {
    entries.len() == letters.len()
        && entries
            .iter()
            .zip(letters)
            .all(|(entry, known)| letter(&entry.kind) == *known)
}

/// Whether a drain of two lines to a log, whose sink fails at its first write, comes to status 2, writes nothing, and has
/// a journal of these kinds of entries.
fn is_left_by_a_failing_sink<W: AllocGlobal + Threads + Wait + Sync>(
    rt: &W,
    letters: &[u8],
) -> Result<bool, NoMemory> {
    let alloc = rt.alloc();
    let failing = Failing { write: 1, ..SOUND };
    let mut given = given_with(alloc, &DRAIN, LOGGED, &["a", "b"], failing)?;
    let report = reported(rt, &mut given);
    Ok(
        report.status == 2
            && given.out.bytes().is_empty()
            && are_kinds(report.journal.entries(), letters),
    )
}

#[test]
fn a_sink_that_fails_is_the_outcome_of_a_drained_run_and_leaves_its_journal(
    rt: HostRuntime,
) -> Result<(), Fail> {
    holds(is_left_by_a_failing_sink(&rt, b"panfpanfpe"))
}

/// A step to the lane `x`, and a log.
const SENT: &str =
    "[{\"from\":{\"uri\":\"stream:in\",\"steps\":[{\"to\":\"lane:x\"},{\"to\":\"log:o\"}]}}]";

/// Whether a lane's calls came out as done and then as failed.
fn are_done_and_failed(calls: &[Call]) -> bool {
    match calls {
        [first, second] => { first.outcome == Outcome::Done && second.outcome == Outcome::Failed }
        _ => false,
    }
}

/// Whether the last lane's calls came out as done and then as failed.
fn has_failed_second(lanes: &[Lane<MemoryLane>]) -> bool {
    match lanes.last() {
        Some(lane) => are_done_and_failed(lane.object.calls()),
        None => false,
    }
}

/// Whether two lines through the lane `x`, which fails its second call, and then a log come to this text, and the lane's
/// calls came out as done and then as failed.
fn is_sent_and_failed<W: AllocGlobal + Threads + Wait + Sync>(
    rt: &W,
    text: &str,
) -> Result<[bool; 2], NoMemory> {
    let alloc = rt.alloc();
    let mut given = given_with(alloc, &DRAIN, SENT, &["a", "b"], SOUND)?;
    let status = reported(rt, &mut given).status;
    Ok([
        status == 0 && given.out.bytes() == text.as_bytes(),
        has_failed_second(&given.lanes),
    ])
}

#[test]
fn a_lane_that_fails_fails_its_exchange_alone(rt: HostRuntime) -> Result<(), Fail> {
    let text =
        "log 1 o: a\nexchange 1 source route1 completed\nexchange 2 source route1 failed SendFailed \"lane:x\"\naccepted 2 refused 0\ntotal 2 completed 1 handled 0 failed 1 waiting 0\ndrained\n";
    let told = is_sent_and_failed(&rt, text)?;
    assert!(rt; told == [true; 2]);
    Ok(())
}

#[test]
fn a_source_that_fails_ends_the_run(rt: HostRuntime) -> Result<(), Fail> {
    let failing = Failing { pull: 2, ..SOUND };
    let text =
        "log 1 o: a\nexchange 1 source route1 completed\naccepted 1 refused 0\ntotal 1 completed 1 handled 0 failed 0 waiting 0\nsource fault route1\n";
    holds(comes_at_fault_to(&rt, SENT, failing, 2, text))
}

#[test]
fn files_that_fail_end_the_command(rt: HostRuntime) -> Result<(), Fail> {
    let failing = Failing {
        reading: 1,
        ..SOUND
    };
    holds(comes_at_fault_to(&rt, SENT, failing, 2, "error files\n"))
}

#[test]
fn a_file_of_more_than_its_bytes_is_told(rt: HostRuntime) -> Result<(), Fail> {
    let routes = repeated(rt.alloc(), " ", 1_048_577)?;
    holds(is_refused(&rt, "r.json", routes.as_str(), "error routes $ TooLong\n"))
}

/// What stands in the book of one exchange behind its line, by how many completed and failed.
pub const COMPLETED: &str =
    "accepted 1 refused 0\ntotal 1 completed 1 handled 0 failed 0 waiting 0\ndrained\n";

pub const FAILED: &str =
    "accepted 1 refused 0\ntotal 1 completed 0 handled 0 failed 1 waiting 0\ndrained\n";

/// Steps, a line, what is printed before the totals, and the totals.
static STEPPED: [(&str, &str, &str, &str); 13] = [
    (
        "[{\"setHeader\":{\"name\":\"n\",\"constant\":9}},{\"log\":\"${header.N}\"}]",
        "x",
        "log 1 route1: 9\nexchange 1 source route1 completed\n",
        COMPLETED,
    ),
    (
        "[{\"setHeader\":{\"name\":\"n\",\"constant\":true}},{\"remove-header\":\"N\"},{\"log\":\"<${header.n}>\"}]",
        "x",
        "log 1 route1: <>\nexchange 1 source route1 completed\n",
        COMPLETED,
    ),
    (
        "[{\"setProperty\":{\"name\":\"p\",\"simple\":\"${body}!\"}},{\"setBody\":{\"exchangeProperty\":\"p\"}},{\"to\":\"log:o\"}]",
        "x",
        "log 1 o: x!\nexchange 1 source route1 completed\n",
        COMPLETED,
    ),
    (
        "[{\"log\":{\"message\":\"${exchangeId} ${routeId} ${body}\",\"logName\":\"named\"}}]",
        "x",
        "log 1 named: 1 route1 x\nexchange 1 source route1 completed\n",
        COMPLETED,
    ),
    (
        "[{\"setBody\":{\"constant\":\"a\\tb\\n\\\"\"}},{\"to\":\"log:o\"}]",
        "x",
        "log 1 o: a\\x09b\\n\"\nexchange 1 source route1 completed\n",
        COMPLETED,
    ),
    (
        "[{\"throwException\":{\"exceptionType\":\"acme.Bad\",\"message\":\"no ${body}\"}},{\"to\":\"log:o\"}]",
        "a",
        "exchange 1 source route1 failed Bad \"no a\"\n",
        FAILED,
    ),
    (
        "[{\"throwException\":{\"exceptionType\":\"Bad\",\"message\":\"say \\\"${body}\\\"\"}}]",
        "a",
        "exchange 1 source route1 failed Bad \"say \\\"a\\\"\"\n",
        FAILED,
    ),
    (
        "[{\"setBody\":{\"header\":\"none\"}},{\"log\":\"<${body}>\"}]",
        "a",
        "log 1 route1: <>\nexchange 1 source route1 completed\n",
        COMPLETED,
    ),
    (
        "[{\"setBody\":{\"simple\":\"${exception.message}\"}},{\"log\":\"<${body}>\"}]",
        "a",
        "log 1 route1: <>\nexchange 1 source route1 completed\n",
        COMPLETED,
    ),
    (
        "[{\"setHeader\":{\"name\":\"n\",\"constant\":\"9\"}},{\"filter\":{\"simple\":\"${header.N} < 10\",\"steps\":[{\"to\":\"log:num\"}]}},{\"setHeader\":{\"name\":\"n\",\"constant\":\"9a\"}},{\"filter\":{\"simple\":\"${header.n} < 10\",\"steps\":[{\"to\":\"log:txt\"}]}}]",
        "x",
        "log 1 num: x\nexchange 1 source route1 completed\n",
        COMPLETED,
    ),
    (
        "[{\"choice\":{\"when\":[{\"simple\":\"${body} == 'q'\",\"steps\":[{\"setBody\":{\"constant\":\"z\"}}]}]}},{\"to\":\"log:o\"}]",
        "p",
        "log 1 o: p\nexchange 1 source route1 completed\n",
        COMPLETED,
    ),
    (
        "[{\"choice\":{\"when\":[{\"simple\":\"${body} == 'q'\",\"steps\":[{\"setBody\":{\"constant\":\"first\"}}]},{\"simple\":\"${body} == 'q'\",\"steps\":[{\"setBody\":{\"constant\":\"second\"}}]}],\"otherwise\":{\"steps\":[{\"setBody\":{\"constant\":\"other\"}}]}}},{\"to\":\"log:o\"}]",
        "q",
        "log 1 o: first\nexchange 1 source route1 completed\n",
        COMPLETED,
    ),
    (
        "[{\"choice\":{\"when\":[{\"simple\":\"${body} == 'q'\",\"steps\":[{\"setBody\":{\"constant\":\"first\"}}]}],\"otherwise\":{\"steps\":[{\"setBody\":{\"constant\":\"other\"}}]}}},{\"to\":\"log:o\"}]",
        "p",
        "log 1 o: other\nexchange 1 source route1 completed\n",
        COMPLETED,
    ),
];

#[test]
fn simple_steps_do_what_they_mean(rt: HostRuntime) -> Result<(), Fail> {
    for &(steps, body, front, totals) in &STEPPED {
        holds_for(is_stepped(&rt, steps, body, front, totals), steps)?;
    }
    Ok(())
}

/// Whether a line of so many bytes, doubled by a step, comes to this book.
pub fn is_doubled<W: AllocGlobal + Threads + Wait + Sync>(
    rt: &W,
    length: usize,
    front: &str,
    totals: &str,
) -> Result<bool, NoMemory> {
    let alloc = rt.alloc();
    let body = repeated(alloc, "x", length)?;
    let steps = "[{\"setBody\":{\"simple\":\"${body}${body}\"}}]";
    is_stepped(rt, steps, body.as_str(), front, totals)
}

/// Lengths of a line that is doubled, and its book.
pub const DOUBLED: [(usize, &str, &str); 2] = [
    (32_768, "exchange 1 source route1 completed\n", COMPLETED),
    (
        32_769,
        "exchange 1 source route1 failed TooLong \"\"\n",
        FAILED,
    ),
];

#[test]
fn a_body_of_more_than_its_bytes_fails(rt: HostRuntime) -> Result<(), Fail> {
    for &(length, front, totals) in &DOUBLED {
        holds_for(is_doubled(&rt, length, front, totals), length)?;
    }
    Ok(())
}

/// Steps that set the headers `h1` to `hN`.
fn headers_to(alloc: Global, count: u64) -> Result<String, NoMemory> {
    let front = ",{\"setHeader\":{\"name\":\"h";
    let steps = numbered(alloc, 1, count, front, "\",\"constant\":1}}")?;
    let listed = steps.as_str().strip_prefix(',').unwrap_or("");
    joined(alloc, &["[", listed, "]"])
}

/// Whether a line that comes through steps which set so many headers comes to this book.
fn are_set<W: AllocGlobal + Threads + Wait + Sync>(
    rt: &W,
    count: u64,
    front: &str,
    totals: &str,
) -> Result<bool, NoMemory> {
    let steps = headers_to(rt.alloc(), count)?;
    is_stepped(rt, steps.as_str(), "x", front, totals)
}

/// Numbers of headers that are set, and the book.
static HEADERS: [(u64, &str, &str); 2] = [
    (64, "exchange 1 source route1 completed\n", COMPLETED),
    (
        65,
        "exchange 1 source route1 failed TooManyHeaders \"h65\"\n",
        FAILED,
    ),
];

#[test]
fn the_sixty_fifth_header_fails(rt: HostRuntime) -> Result<(), Fail> {
    for &(count, front, totals) in &HEADERS {
        holds_for(are_set(&rt, count, front, totals), count)?;
    }
    Ok(())
}

/// Steps that no drain runs, and what is told.
static REFUSED: [(&str, &str); 2] = [
    (
        "[{\"filter\":{\"simple\":\"${body} == 'x'\",\"steps\":[{\"shout\":\"y\"}]}}]",
        "error routes $[0].from.steps[0].filter.steps[0] UnknownStep shout\n",
    ),
    (
        "[{\"process\":{\"ref\":\"nobody\"}}]",
        "error routes $[0].from.steps[0].process.ref NotRegistered nobody\n",
    ),
];

/// Whether a drain through these steps is refused with this text.
fn are_refused<W: AllocGlobal + Threads + Wait + Sync>(
    rt: &W,
    steps: &str,
    text: &str,
) -> Result<bool, NoMemory> {
    let routes = route_of(rt.alloc(), steps)?;
    is_refused(rt, "r.json", routes.as_str(), text)
}

#[test]
fn routes_that_are_wrong_are_refused(rt: HostRuntime) -> Result<(), Fail> {
    for &(steps, text) in &REFUSED {
        holds_for(are_refused(&rt, steps, text), steps)?;
    }
    Ok(())
}

/// Whether a check of these routes comes to this status and text.
fn is_checked<W: AllocGlobal + Threads + Wait + Sync>(
    rt: &W,
    routes: &str,
    status: u8,
    text: &str,
) -> Result<bool, NoMemory> {
    comes_to(rt, &CHECK, routes, &[], status, text)
}

/// Route files and what their check prints.
static CHECKED: [(&str, u8, &str); 3] = [
    (
        "[{\"route\":{\"id\":\"r\",\"from\":{\"uri\":\"stream:in\"},\"steps\":[{\"set-body\":{\"constant\":\"x\"}},{\"recipient-list\":{\"simple\":\"${headers.to}\"}}]}}]",
        0,
        "[{\"route\":{\"from\":{\"steps\":[{\"setBody\":{\"constant\":\"x\"}},{\"recipientList\":{\"simple\":\"${header.to}\"}}],\"uri\":\"stream:in\"},\"id\":\"r\"}}]\n",
    ),
    (
        "[{\"route\":{\"id\":\"r\",\"from\":{\"uri\":\"stream:in\"},\"steps\":[{\"setBody\":{\"constant\":\"x\"}},{\"recipientList\":{\"simple\":\"${header.to}\"}}]}}]",
        0,
        "[{\"route\":{\"from\":{\"steps\":[{\"setBody\":{\"constant\":\"x\"}},{\"recipientList\":{\"simple\":\"${header.to}\"}}],\"uri\":\"stream:in\"},\"id\":\"r\"}}]\n",
    ),
    ("{}", 1, "error routes $ WrongKind\n"),
];

#[test]
fn a_check_prints_the_canonical_text_or_the_first_fault(rt: HostRuntime) -> Result<(), Fail> {
    for &(routes, status, text) in &CHECKED {
        holds_for(is_checked(&rt, routes, status, text), routes)?;
    }
    Ok(())
}
