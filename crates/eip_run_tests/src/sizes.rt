use crate::given::{CHECK, DRAIN, comes_to, is_stepped, numbered, route_of};
use crate::runs::{COMPLETED, FAILED};
use eip_test_support::{holds, holds_for, joined, repeated};
use eip_text::NoMemory;
use std::alloc::Global;
use std::sync::Wait;
use std::test::Fail;
use std::thread::Threads;

/// The most bytes of a body, and of the value of a header or a property.
const LONGEST: usize = 65_536;

/// The book's line of an exchange with a value that is too long.
const TOO_LONG: &str = "exchange 1 source route1 failed TooLong \"\"\n";

/// Steps to a log and to two lanes.
const SENT: &str = "[{\"to\":\"log:o\"},{\"to\":\"lane:a\"},{\"to\":\"lane:b\"}]";

/// What a drain of 300 lines prints that are sent to a log and to two lanes.
fn book_of_300(alloc: Global) -> Result<String, NoMemory> {
    let log = numbered(alloc, 1, 300, "log ", " o: x\n")?;
    let exchanges = numbered(alloc, 1, 300, "exchange ", " source route1 completed\n")?;
    let counts = "accepted 300 refused 0\ntotal 300 completed 300 handled 0 failed 0 waiting 0\n";
    joined(
        alloc,
        &[log.as_str(), exchanges.as_str(), counts, "drained\n"],
    )
}

/// Whether 300 lines that are sent to a log and to two lanes are logged, are completed one by one and are counted.
fn are_all_completed<W: AllocGlobal + Threads + Wait + Sync>(rt: &W) -> Result<bool, NoMemory> {
    let alloc = rt.alloc();
    let routes = route_of(alloc, SENT)?;
    let text = book_of_300(alloc)?;
    comes_to(rt, &DRAIN, routes.as_str(), &["x"; 300], 0, text.as_str())
}

#[test]
fn three_hundred_lines_are_each_accepted_and_completed(rt: HostRuntime) -> Result<(), Fail> {
    holds(are_all_completed(&rt))
}

/// A file of 312 lines: a route whose 310 steps stand on a line each.
fn long_file(alloc: Global) -> Result<String, NoMemory> {
    let steps = repeated(alloc, ",\n{\"log\":\"a\"}", 309)?;
    let front = "[{\"from\":{\"uri\":\"stream:in\",\"steps\":[\n{\"log\":\"a\"}";
    joined(alloc, &[front, steps.as_str(), "\n]}}]"])
}

/// Whether a drain of the long file logs a line for each of its steps.
fn is_long_file_drained<W: AllocGlobal + Threads + Wait + Sync>(rt: &W) -> Result<bool, NoMemory> {
    let alloc = rt.alloc();
    let routes = long_file(alloc)?;
    let log = repeated(alloc, "log 1 route1: a\n", 310)?;
    let book = "exchange 1 source route1 completed\n";
    let text = joined(alloc, &[log.as_str(), book, COMPLETED])?;
    comes_to(rt, &DRAIN, routes.as_str(), &["x"], 0, text.as_str())
}

/// Whether a check of the long file prints its steps in one line.
fn is_long_file_checked<W: AllocGlobal + Threads + Wait + Sync>(rt: &W) -> Result<bool, NoMemory> {
    let alloc = rt.alloc();
    let routes = long_file(alloc)?;
    let steps = repeated(alloc, ",{\"log\":\"a\"}", 309)?;
    let front = "[{\"route\":{\"from\":{\"steps\":[{\"log\":\"a\"}";
    let back = "],\"uri\":\"stream:in\"},\"id\":\"route1\"}}]\n";
    let text = joined(alloc, &[front, steps.as_str(), back])?;
    comes_to(rt, &CHECK, routes.as_str(), &[], 0, text.as_str())
}

#[test]
fn a_route_file_of_over_three_hundred_lines_is_run_and_printed(
    rt: HostRuntime,
) -> Result<(), Fail> {
    holds(is_long_file_drained(&rt))?;
    holds(is_long_file_checked(&rt))
}

/// Steps on a longest body, and what is printed before the body, behind it, and as the totals.
static KEPT: [(&str, &str, &str, &str); 5] = [
    (
        "[{\"to\":\"lane:a\"},{\"to\":\"log:o\"}]",
        "log 1 o: ",
        "\nexchange 1 source route1 completed\n",
        COMPLETED,
    ),
    (
        "[{\"log\":\"${body}\"}]",
        "log 1 route1: ",
        "\nexchange 1 source route1 completed\n",
        COMPLETED,
    ),
    (
        "[{\"setHeader\":{\"name\":\"h\",\"simple\":\"${body}\"}},{\"setBody\":{\"constant\":\"\"}},{\"to\":\"lane:a\"},{\"log\":\"${header.h}\"}]",
        "log 1 route1: ",
        "\nexchange 1 source route1 completed\n",
        COMPLETED,
    ),
    (
        "[{\"setProperty\":{\"name\":\"p\",\"simple\":\"${body}\"}},{\"setBody\":{\"constant\":\"\"}},{\"to\":\"lane:a\"},{\"log\":\"${exchangeProperty.p}\"}]",
        "log 1 route1: ",
        "\nexchange 1 source route1 completed\n",
        COMPLETED,
    ),
    (
        "[{\"throwException\":{\"exceptionType\":\"Bad\",\"message\":\"${body}\"}}]",
        "exchange 1 source route1 failed Bad \"",
        "\"\n",
        FAILED,
    ),
];

/// Whether a longest body comes through these steps to this log and book, with the body in it.
fn is_kept<W: AllocGlobal + Threads + Wait + Sync>(
    rt: &W,
    steps: &str,
    front: &str,
    back: &str,
    totals: &str,
) -> Result<bool, NoMemory> {
    let alloc = rt.alloc();
    let body = repeated(alloc, "x", LONGEST)?;
    let printed = joined(alloc, &[front, body.as_str(), back])?;
    is_stepped(rt, steps, body.as_str(), printed.as_str(), totals)
}

#[test]
fn a_value_of_the_most_bytes_is_kept(rt: HostRuntime) -> Result<(), Fail> {
    for &(steps, front, back, totals) in &KEPT {
        holds_for(is_kept(&rt, steps, front, back, totals), steps)?;
    }
    Ok(())
}

/// Steps that make a value one byte longer than a longest body, by what becomes too long.
static OVER: [(&str, &str); 5] = [
    ("a body", "[{\"setBody\":{\"simple\":\"${body}y\"}}]"),
    (
        "a header",
        "[{\"setHeader\":{\"name\":\"h\",\"simple\":\"${body}y\"}}]",
    ),
    (
        "a property",
        "[{\"setProperty\":{\"name\":\"p\",\"simple\":\"${body}y\"}}]",
    ),
    ("the text of a log", "[{\"log\":\"${body}y\"}]"),
    (
        "the text of a fault",
        "[{\"throwException\":{\"exceptionType\":\"Bad\",\"message\":\"${body}y\"}}]",
    ),
];

/// Whether a longest body that comes through these steps fails as too long.
fn is_over<W: AllocGlobal + Threads + Wait + Sync>(rt: &W, steps: &str) -> Result<bool, NoMemory> {
    let alloc = rt.alloc();
    let body = repeated(alloc, "x", LONGEST)?;
    is_stepped(rt, steps, body.as_str(), TOO_LONG, FAILED)
}

#[test]
fn a_value_of_one_byte_more_fails_its_exchange(rt: HostRuntime) -> Result<(), Fail> {
    for &(what, steps) in &OVER {
        holds_for(is_over(&rt, steps), what)?;
    }
    Ok(())
}

/// Whether a line comes to this log and book where its body is set to a constant of so many bytes.
fn is_constant_set<W: AllocGlobal + Threads + Wait + Sync>(
    rt: &W,
    length: usize,
    front: &str,
    totals: &str,
) -> Result<bool, NoMemory> {
    let alloc = rt.alloc();
    let constant = repeated(alloc, "x", length)?;
    let parts = ["[{\"setBody\":{\"constant\":\"", constant.as_str(), "\"}}]"];
    let steps = joined(alloc, &parts)?;
    is_stepped(rt, steps.as_str(), "a", front, totals)
}

#[test]
fn a_constant_of_one_byte_more_fails_its_exchange(rt: HostRuntime) -> Result<(), Fail> {
    let completed = "exchange 1 source route1 completed\n";
    holds(is_constant_set(&rt, LONGEST, completed, COMPLETED))?;
    holds(is_constant_set(&rt, LONGEST + 1, TOO_LONG, FAILED))
}
